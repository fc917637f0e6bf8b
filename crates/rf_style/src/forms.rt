//! The rules of heads, by their names.
//!
//! A function's line `tactic` names the definition that its proof opens.

ghost use Rattle.std.specs.Prelude.{◌≡◌, [], OnOk, OnErr, string_bytes};
ghost use Rattle.std.specs.Str.{chars};
ghost use Rattle.rf_base_style.specs.Table.{head_rule, with_rule};
ghost use Rattle.rf_style.specs.Entries.{table_of};

use indexmap::IndexMap;
use rf_base_style::{Charges, Form, Rule};
use std::alloc::{AllocError, Global};
use std::marker::Model;

/// The rules of heads by their names, in the order in which the names came. Contracts see it as a table.
#[derive(Drop)]
pub struct Forms {
    rules: IndexMap<String, Rule>,
}

impl Model for Forms {
    ghost use Rattle.rf_base_style.specs.Table.{Table};
    ghost use Rattle.rf_style.specs.Entries.{table_of};

    ghost Value = { Table };

    ghost view = { λ forms. table_of forms.rules.entries };
}

impl Forms {
    /// A table without a name. This takes no memory.
    #[tactic(auto, unfolding(crate::specs::Entries::table_of))]
    pub fn new(alloc: Global) -> Forms
        ensures { result ≡ [] }
    {
        Forms {
            rules: IndexMap::new(alloc),
        }
    }

    /// The table that the map says. This takes no memory.
    pub fn from_map(rules: IndexMap<String, Rule>) -> Forms
        ensures { result ≡ table_of rules.entries }
    {
        Forms { rules }
    }

    /// The table as a map in the order of its names.
    pub fn as_map(&self) -> &IndexMap<String, Rule>
        ensures { table_of result.now.entries ≡ self.now }
    {
        &self.rules
    }

    /// The table as a map in the order of its names. This takes no memory.
    pub fn into_map(self) -> IndexMap<String, Rule>
        ensures { table_of result.entries ≡ self }
    {
        self.rules
    }

    /// Gives the name this rule: in its place where it has one, and otherwise at the end. After a refusal for want of
    /// memory the table is what it was.
    pub fn put(&mut self, name: String, rule: Rule) -> Result<(), AllocError>
        ensures put { OnOk result (self.new ≡ with_rule self.old (chars (string_bytes name)) rule) }
        ensures kept { OnErr result (self.new ≡ self.old) }
    {
        self.rules.insert(name, rule)?;
        Ok(())
    }

    /// The rule of the lists with this head: that of its name, or an application without charges where the table has
    /// none. This takes no memory.
    pub fn head_rule(&self, name: &str) -> Rule
        ensures { result ≡ head_rule self.now (chars name.now) }
    {
        match self.rules.get(name) {
            Some(rule) => *rule,
            None => Rule {
                form: Form::App,
                header: 0,
                flat: 0,
                charges: Charges {
                    broken: 0,
                    hung: 0,
                    flat: 0,
                },
            },
        }
    }
}
