//! Documents of one part after another.

ghost use Rattle.std.specs.Prelude.{◌<◌, length, IfOk};

use crate::joining::{both, either, flattened};
use rf_doc::{Graph, NodeId};
use rf_documents::{Dice, checked, right_chain, text};
use std::alloc::Global;
use std::test::Fail;

/// So many texts, each behind the ones before.
pub fn row(graph: &mut Graph, size: u32) -> Result<NodeId, Fail>
    ensures { IfOk result (λ id. id.0 < length graph.new) }
{
    let mut all = text(graph, "")?;
    for _i in 0..size {
        let line = text(graph, "line")?;
        all = both(graph, all, line)?;
    }
    checked(graph, all)
}

/// So many words of one to twelve characters, with a space or a line break between each two.
pub fn filled(alloc: Global, graph: &mut Graph, size: u32) -> Result<NodeId, Fail>
    ensures { IfOk result (λ id. id.0 < length graph.new) }
{
    let mut dice = Dice::new(1);
    let space = text(graph, " ")?;
    let line = graph.newline()?;
    let gap = either(graph, space, line)?;
    let mut all = word(alloc, graph, &mut dice)?;
    for _i in 1..size {
        let next = word(alloc, graph, &mut dice)?;
        let start = both(graph, all, gap)?;
        all = both(graph, start, next)?;
    }
    checked(graph, all)
}

// A word of one to twelve characters.
fn word(alloc: Global, graph: &mut Graph, dice: &mut Dice) -> Result<NodeId, Fail>
    ensures { IfOk result (λ id. id.0 < length graph.new) }
{
    let mut letters = String::new(alloc);
    for _i in 0..=dice.roll(12) {
        letters.push('w')?;
    }
    text(graph, letters.as_str())
}

/// A text and then so many lines, where all before each line break may be flat.
pub fn flat_or_not(graph: &mut Graph, size: u32) -> Result<NodeId, Fail>
    ensures { IfOk result (λ id. id.0 < length graph.new) }
{
    let mut all = text(graph, "line")?;
    for _i in 0..size {
        let flat = flattened(graph, all)?;
        let group = either(graph, all, flat)?;
        let newline = graph.newline()?;
        let start = both(graph, group, newline)?;
        let line = text(graph, "line")?;
        all = both(graph, start, line)?;
    }
    checked(graph, all)
}

/// So many choices between one character and two, one after another.
pub fn choices_in_a_row(graph: &mut Graph, size: u32) -> Result<NodeId, Fail>
    ensures { IfOk result (λ id. id.0 < length graph.new) }
{
    let a = text(graph, "a")?;
    let bb = text(graph, "bb")?;
    let one = graph.choice(a, bb)?;
    let empty = text(graph, "")?;
    Ok(right_chain(graph, one, empty, size)?)
}
