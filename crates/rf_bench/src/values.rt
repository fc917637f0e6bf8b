//! Values in JSON, each in one row or one below another.

ghost use Rattle.std.specs.Prelude.{◌<◌, length, IfOk};

use crate::joining::{aligned, between, both, either, joined};
use rf_doc::{Graph, NodeId};
use rf_documents::{Dice, text};
use std::alloc::Global;
use std::test::Fail;

/// So many numbers and texts, in arrays and objects of one to nine neighbours at each of the value's levels by a fixed
/// pseudo-random sequence.
pub fn random_value(alloc: Global, graph: &mut Graph, size: u32) -> Result<NodeId, Fail>
    ensures { IfOk result (λ id. id.0 < length graph.new) }
{
    let mut dice = Dice::new(2);
    let mut level = scalars(alloc, graph, &mut dice, size)?;
    for _level in 0..5 {
        level = in_groups(alloc, graph, &mut dice, level.as_slice())?;
    }
    enclosed(graph, "[", level.as_slice(), "]")
}

// Numbers and texts, so many of them.
fn scalars(
    alloc: Global,
    graph: &mut Graph,
    dice: &mut Dice,
    size: u32,
) -> Result<Vec<NodeId>, Fail> {
    let mut scalars = Vec::new(alloc);
    for _i in 0..size {
        let number = dice.roll(10_000);
        let line = if dice.roll(2) == 0 {
            format!(in alloc; "{number}")?
        } else {
            format!(in alloc; "\"some words {number}\"")?
        };
        scalars.push(text(graph, line.as_str())?)?;
    }
    Ok(scalars)
}

// Neighbours in arrays and objects of one to nine.
fn in_groups(
    alloc: Global,
    graph: &mut Graph,
    dice: &mut Dice,
    level: &[NodeId],
) -> Result<Vec<NodeId>, Fail> {
    let mut values = Vec::new(alloc);
    let mut group = Vec::new(alloc);
    for part in level {
        group.push(*part)?;
        if dice.roll(5) == 0 || group.len() >= 9 {
            values.push(value_of(alloc, graph, dice, group.as_slice())?)?;
            group = Vec::new(alloc);
        }
    }
    if !group.is_empty() {
        values.push(value_of(alloc, graph, dice, group.as_slice())?)?;
    }
    Ok(values)
}

// An array or an object of these values.
fn value_of(
    alloc: Global,
    graph: &mut Graph,
    dice: &mut Dice,
    values: &[NodeId],
) -> Result<NodeId, Fail> {
    if dice.roll(2) == 0 {
        return enclosed(graph, "[", values, "]");
    }
    let mut members = Vec::new(alloc);
    for value in values {
        let name = format!(in alloc; "\"name{}\": ", dice.roll(10))?;
        let name = text(graph, name.as_str())?;
        let aside = aligned(graph, *value)?;
        members.push(both(graph, name, aside)?)?;
    }
    enclosed(graph, "{", members.as_slice(), "}")
}

// The parts between brackets with commas between them: in one row, or one below another.
fn enclosed(graph: &mut Graph, open: &str, parts: &[NodeId], close: &str) -> Result<NodeId, Fail>
    ensures { IfOk result (λ id. id.0 < length graph.new) }
{
    let comma = text(graph, ", ")?;
    let row = joined(graph, parts, comma)?;
    let row = between(graph, open, row, close)?;
    let line = graph.newline()?;
    let line_and_comma = both(graph, line, comma)?;
    let column = joined(graph, parts, line_and_comma)?;
    let column = between(graph, open, column, close)?;
    let column = aligned(graph, column)?;
    either(graph, row, column)
}
