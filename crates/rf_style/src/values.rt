//! The values of a style file's keys.
//!
//! A function's line `tactic` names the definition that its proof opens.

ghost use Rattle.std.specs.Prelude.{◌≡◌, Some, None};
ghost use Rattle.rf_base_style.specs.Columns.{columns_named};
ghost use Rattle.rf_cost.specs.Kinds.{cost_named};
ghost use Rattle.rf_style.specs.Answers.{Answers};
ghost use Rattle.rf_style.specs.Values.{charges, charges_of, chosen, form_named, in_range, number, three_numbers, word};
ghost use Rattle.toml.specs.View.{array_view, view};

use crate::faults::{StyleError, out_of_range, wrong_value};
use rf_base_style::{Charges, Columns, Form, columns_named};
use rf_cost::{CostKind, cost_named};
use std::alloc::Global;
use toml::Value;
use toml::value::Array;

// The whole number, where it is from `least` to `most`.
#[tactic(auto, unfolding(crate::specs::Values::in_range))]
fn in_range(alloc: Global, key: &str, least: u32, most: u32, found: i64) -> Result<u32, StyleError>
    ensures { Answers (in_range key.now least most found) result }
{
    if i64::from(least) <= found && found <= i64::from(most) {
        Ok(found as u32)
    } else {
        Err(out_of_range(alloc, key, found))
    }
}

// The key's number, from `least` to `most`.
#[tactic(auto, unfolding(crate::specs::Values::number))]
pub(crate) fn number(
    alloc: Global,
    key: &str,
    least: u32,
    most: u32,
    value: &Value,
) -> Result<u32, StyleError>
    ensures { Answers (number key.now least most (view value.now)) result }
{
    match value.as_integer() {
        Some(found) => in_range(alloc, key, least, most, found),
        None => Err(wrong_value(alloc, key)),
    }
}

// What the key's word means, if it is one of the key's words.
fn chosen<T: Drop>(alloc: Global, key: &str, meaning: Option<T>) -> Result<T, StyleError>
    ensures { Answers (chosen key.now meaning) result }
{
    match meaning {
        Some(meaning) => Ok(meaning),
        None => Err(wrong_value(alloc, key)),
    }
}

// The cost factory that the key's word names.
#[tactic(auto, unfolding(crate::specs::Values::word))]
pub(crate) fn cost(alloc: Global, key: &str, value: &Value) -> Result<CostKind, StyleError>
    ensures { Answers (word cost_named key.now (view value.now)) result }
{
    match value.as_str() {
        Some(text) => chosen(alloc, key, cost_named(text)),
        None => Err(wrong_value(alloc, key)),
    }
}

// The way of counting columns that the key's word names.
#[tactic(auto, unfolding(crate::specs::Values::word))]
pub(crate) fn columns(alloc: Global, key: &str, value: &Value) -> Result<Columns, StyleError>
    ensures { Answers (word columns_named key.now (view value.now)) result }
{
    match value.as_str() {
        Some(text) => chosen(alloc, key, columns_named(text)),
        None => Err(wrong_value(alloc, key)),
    }
}

// The shape that the key's word names.
#[tactic(auto, unfolding(crate::specs::Values::word))]
pub(crate) fn shape(alloc: Global, key: &str, value: &Value) -> Result<Form, StyleError>
    ensures { Answers (word form_named key.now (view value.now)) result }
{
    match value.as_str() {
        Some(text) => chosen(alloc, key, form_named(text)),
        None => Err(wrong_value(alloc, key)),
    }
}

// The shape of this name.
#[tactic(auto, unfolding(crate::specs::Values::form_named))]
fn form_named(text: &str) -> Option<Form>
    ensures { result ≡ form_named text.now }
{
    match text {
        "app" => Some(Form::App),
        "hang" => Some(Form::Hang),
        "data" => Some(Form::Plain),
        "body" => Some(Form::Body),
        "clauses" => Some(Form::Clauses),
        "bindings" => Some(Form::Bindings),
        _ => None,
    }
}

// Three whole numbers, if the items are that.
#[tactic(auto, unfolding(crate::specs::Values::three_numbers))]
fn three_numbers(items: &Array) -> Option<(i64, i64, i64)>
    ensures { result ≡ three_numbers (array_view items.now) }
{
    match items.as_slice() {
        [first, second, third] => {
            Some((
                first.as_integer()?,
                second.as_integer()?,
                third.as_integer()?,
            ))
        }
        _ => None,
    }
}

// The charges, each from 0 to 1,000.
#[tactic(auto, unfolding(crate::specs::Values::charges_of))]
fn charges_of(alloc: Global, key: &str, three: (i64, i64, i64)) -> Result<Charges, StyleError>
    ensures { Answers (charges_of key.now three) result }
{
    let broken = in_range(alloc, key, 0, 1_000, three.0)?;
    let hung = in_range(alloc, key, 0, 1_000, three.1)?;
    let flat = in_range(alloc, key, 0, 1_000, three.2)?;
    Ok(Charges { broken, hung, flat })
}

// The key's charges: an array of three numbers.
#[tactic(auto, unfolding(crate::specs::Values::charges))]
pub(crate) fn charges(alloc: Global, key: &str, value: &Value) -> Result<Charges, StyleError>
    ensures { Answers (charges key.now (view value.now)) result }
{
    let three = match value.as_array() {
        Some(items) => three_numbers(items),
        None => None,
    };
    match three {
        Some(three) => charges_of(alloc, key, three),
        None => Err(wrong_value(alloc, key)),
    }
}
