//! The rules of a style file.
//!
//! A function's line `tactic` names the definition that its proof opens.

ghost use Rattle.std.specs.Prelude.{◌≡◌};
ghost use Rattle.toml.specs.View.{table_view, view};
ghost use Rattle.rf_style.specs.Answers.{Answers, Leaves};
ghost use Rattle.rf_style.specs.Rules.{default_header, finished, no_draft, rule_of, with_key, with_keys, with_names};

use crate::faults::{StyleError, out_of_range, unknown_key, wrong_value};
use crate::forms::Forms;
use crate::values::{charges, number, shape};
use rf_base_style::{Charges, Form, Rule};
use std::alloc::Global;
use toml::{Table, Value};

// What is known of a rule while its keys are read.
#[derive(Clone, Copy)]
struct Draft {
    form: Option<Form>,
    header: Option<u32>,
    flat: u32,
    charges: Charges,
}

impl Draft {
    // Nothing is known yet.
    fn new() -> Draft
        ensures { result ≡ no_draft }
    {
        Draft {
            form: None,
            header: None,
            flat: 0,
            charges: Charges {
                broken: 0,
                hung: 0,
                flat: 0,
            },
        }
    }

    // Takes one more key. Only version 2, the second, has charges.
    #[tactic(auto, unfolding(crate::specs::Rules::with_key))]
    fn take(
        &mut self,
        alloc: Global,
        second: bool,
        key: &str,
        value: &Value,
    ) -> Result<(), StyleError>
        ensures { Leaves (with_key second self.old key.now (view value.now)) result self.new }
    {
        match key {
            "shape" => {
                self.form = Some(shape(alloc, key, value)?);
                Ok(())
            }
            "header" => {
                self.header = Some(number(alloc, key, 0, 9, value)?);
                Ok(())
            }
            "flat" => {
                self.flat = number(alloc, key, 0, 9, value)?;
                Ok(())
            }
            "charges" if second => {
                self.charges = charges(alloc, key, value)?;
                Ok(())
            }
            _ => Err(unknown_key(alloc, key)),
        }
    }

    // The name's rule, once its keys were read.
    #[tactic(auto, unfolding(crate::specs::Rules::finished))]
    fn finished(self, alloc: Global, name: &str) -> Result<Rule, StyleError>
        ensures { Answers (finished name.now self) result }
    {
        let form = match self.form {
            Some(form) => form,
            None => return Err(wrong_value(alloc, name)),
        };
        let header = self.header.unwrap_or(default_header(form));
        if form == Form::Bindings && header == 0 {
            return Err(out_of_range(alloc, "header", 0));
        }
        Ok(Rule {
            form,
            header,
            flat: self.flat,
            charges: self.charges,
        })
    }
}

// How many headers a rule of this shape has by default.
#[tactic(auto, unfolding(crate::specs::Rules::default_header))]
fn default_header(form: Form) -> u32
    ensures { result ≡ default_header form }
{
    match form {
        Form::Bindings => 1,
        _ => 0,
    }
}

// What is known of a rule after these keys.
#[tactic(auto, unfolding(crate::specs::Rules::with_keys))]
fn keys(alloc: Global, second: bool, keys: &Table) -> Result<Draft, StyleError>
    ensures { Answers (with_keys second no_draft (table_view keys.now)) result }
{
    let mut draft = Draft::new();
    for (key, value) in keys.iter() {
        draft.take(alloc, second, key.as_str(), value)?;
    }
    Ok(draft)
}

// The name's rule.
#[tactic(auto, unfolding(crate::specs::Rules::rule_of))]
fn rule(alloc: Global, second: bool, name: &str, value: &Value) -> Result<Rule, StyleError>
    ensures { Answers (rule_of second name.now (view value.now)) result }
{
    match value.as_table() {
        Some(found) => keys(alloc, second, found)?.finished(alloc, name),
        None => Err(wrong_value(alloc, name)),
    }
}

// Puts the rules of these names, in order.
#[tactic(auto, unfolding(crate::specs::Rules::with_names))]
pub(crate) fn names(
    alloc: Global,
    second: bool,
    forms: &mut Forms,
    names: &Table,
) -> Result<(), StyleError>
    ensures { Leaves (with_names second forms.old (table_view names.now)) result forms.new }
{
    for (name, value) in names.iter() {
        let rule = rule(alloc, second, name.as_str(), value)?;
        forms.put(String::from_str(alloc, name.as_str())?, rule)?;
    }
    Ok(())
}
