//! Style files.
//!
//! A function's line `tactic` names the definition that its proof opens.

ghost use Rattle.std.specs.Prelude.{◌≡◌, IfOk, IfErr, Ok};
ghost use Rattle.toml.specs.View.{table_view, view};
ghost use Rattle.rf_style.specs.Answers.{Answers, Leaves, NamesMet};
ghost use Rattle.rf_style.specs.StyleOf.{document_of, is_second, style_of, style_said, with_key, with_keys};

use crate::defaults::default_table;
use crate::faults::{StyleError, unknown_key, wrong_value};
use crate::rules::names;
use crate::style::Style;
use crate::values::{columns, cost, number};
use std::alloc::{AllocError, Global};
use toml::{Table, Value};

/// The style that a style file of these bytes says. It is TOML, each of whose keys is optional and stands beside the
/// default style.
///
/// `StyleText` comes exactly where the bytes are no TOML. The first key by bytes, name by name and key by key in
/// `forms`, that is at fault decides: `StyleKey` where its table has no such key, `StyleValue` where its value has
/// another type or is none of its words, `StyleRange` where its number is out of its range; and after the keys of a
/// name `StyleValue` of the name where it has no shape or is no table, and `StyleRange` of `header` and 0 where
/// bindings have no header. `Memory` is want of memory.
///
/// `width = 1` says the default style with a page width of 1; `width = 401` is StyleRange of `width` and 401.
#[tactic(auto, unfolding(crate::specs::StyleOf::style_of))]
pub fn read_style(alloc: Global, bytes: &[u8]) -> Result<Style, StyleError>
    ensures { Answers (style_of bytes.now) result }
{
    match document(alloc, bytes) {
        Ok(keys) => style_said(alloc, &keys),
        Err(fault) => Err(fault),
    }
}

// The TOML document that the bytes are.
#[tactic(auto, unfolding(crate::specs::StyleOf::document_of))]
fn document(alloc: Global, bytes: &[u8]) -> Result<Table, StyleError>
    ensures ok { IfOk result (λ keys. document_of bytes.now ≡ Ok (table_view keys)) }
    ensures err { IfErr result (NamesMet (document_of bytes.now)) }
{
    let text = match str::from_utf8(bytes) {
        Ok(text) => text,
        Err(_) => return Err(StyleError::StyleText),
    };
    match toml::table_from_str(alloc, text) {
        Ok(table) => Ok(table),
        Err(fault) if fault.is_memory() => Err(StyleError::Memory(AllocError)),
        Err(_) => Err(StyleError::StyleText),
    }
}

// What the document's keys say beside the default style.
#[tactic(auto, unfolding(crate::specs::StyleOf::style_said))]
fn style_said(alloc: Global, keys: &Table) -> Result<Style, StyleError>
    ensures { Answers (style_said (table_view keys.now)) result }
{
    let mut style = default_table(alloc)?;
    take_all(alloc, is_second(keys), &mut style, keys)?;
    Ok(style)
}

// Whether the version is the number 2.
#[tactic(auto, unfolding(crate::specs::StyleOf::is_second))]
fn is_second(keys: &Table) -> bool
    ensures { result ≡ is_second (table_view keys.now) }
{
    match keys.get("version") {
        Some(version) => version.as_integer() == Some(2),
        None => false,
    }
}

// Takes the keys of the document, in order.
#[tactic(auto, unfolding(crate::specs::StyleOf::with_keys))]
fn take_all(alloc: Global, second: bool, style: &mut Style, keys: &Table) -> Result<(), StyleError>
    ensures { Leaves (with_keys second style.old (table_view keys.now)) result style.new }
{
    for (key, value) in keys.iter() {
        take(alloc, second, style, key.as_str(), value)?;
    }
    Ok(())
}

// Takes one key of the document. Only version 2, the second, has columns.
#[tactic(auto, unfolding(crate::specs::StyleOf::with_key))]
fn take(
    alloc: Global,
    second: bool,
    style: &mut Style,
    key: &str,
    value: &Value,
) -> Result<(), StyleError>
    ensures { Leaves (with_key second style.old key.now (view value.now)) result style.new }
{
    match key {
        "version" => {
            number(alloc, key, 1, 2, value)?;
            Ok(())
        }
        "width" => {
            style.width = number(alloc, key, 1, 400, value)?;
            Ok(())
        }
        "limit" => {
            style.limit = number(alloc, key, 1, 400, value)?;
            Ok(())
        }
        "max-blank-lines" => {
            style.blanks = number(alloc, key, 0, 9, value)?;
            Ok(())
        }
        "cost" => {
            style.cost = cost(alloc, key, value)?;
            Ok(())
        }
        "forms" => match value.as_table() {
            Some(found) => names(alloc, second, &mut style.forms, found),
            None => Err(wrong_value(alloc, key)),
        },
        "columns" if second => {
            style.columns = columns(alloc, key, value)?;
            Ok(())
        }
        _ => Err(unknown_key(alloc, key)),
    }
}
