//! Lists of lists, each flat, hung or dropped.

ghost use Rattle.std.specs.Prelude.{◌<◌, length, IfOk};

use crate::joining::{aligned, between, both, either, flattened, joined};
use rf_doc::{Graph, NodeId};
use rf_documents::{Dice, text};
use std::alloc::Global;
use std::test::Fail;

/// A full tree of so many levels of lists of two, whose atoms are the numbers from 0.
pub fn full_tree(alloc: Global, graph: &mut Graph, depth: u32) -> Result<NodeId, Fail>
    ensures { IfOk result (λ id. id.0 < length graph.new) }
{
    let count = 1u32.checked_shl(depth).unwrap_or(0);
    let mut level = atoms(alloc, graph, count)?;
    for _level in 0..depth {
        level = in_pairs(alloc, graph, level.as_slice())?;
    }
    list(graph, level.as_slice())
}

// The numbers from 0, so many of them, as texts.
fn atoms(alloc: Global, graph: &mut Graph, count: u32) -> Result<Vec<NodeId>, Fail> {
    let mut atoms = Vec::new(alloc);
    for number in 0..count {
        let digits = format!(in alloc; "{number}")?;
        atoms.push(text(graph, digits.as_str())?)?;
    }
    Ok(atoms)
}

// The list of each two neighbours.
fn in_pairs(alloc: Global, graph: &mut Graph, level: &[NodeId]) -> Result<Vec<NodeId>, Fail> {
    let mut lists = Vec::new(alloc);
    for pair in level.chunks(2) {
        lists.push(list(graph, pair)?)?;
    }
    Ok(lists)
}

/// A tree of so many atoms, in lists of one to five neighbours at each of its levels by a fixed pseudo-random sequence.
pub fn random_tree(alloc: Global, graph: &mut Graph, size: u32) -> Result<NodeId, Fail>
    ensures { IfOk result (λ id. id.0 < length graph.new) }
{
    let mut dice = Dice::new(1);
    let mut level = atoms(alloc, graph, size)?;
    for _level in 0..7 {
        level = in_groups(alloc, graph, &mut dice, level.as_slice())?;
    }
    list(graph, level.as_slice())
}

// Neighbours in lists of one to five, where one stays as it is.
fn in_groups(
    alloc: Global,
    graph: &mut Graph,
    dice: &mut Dice,
    level: &[NodeId],
) -> Result<Vec<NodeId>, Fail> {
    let mut lists = Vec::new(alloc);
    let mut group = Vec::new(alloc);
    for part in level {
        group.push(*part)?;
        if dice.roll(3) == 0 || group.len() >= 5 {
            lists.push(list_of_more(graph, group.as_slice())?)?;
            group = Vec::new(alloc);
        }
    }
    if !group.is_empty() {
        lists.push(list_of_more(graph, group.as_slice())?)?;
    }
    Ok(lists)
}

// The list of these parts, or the part where there is one alone.
fn list_of_more(graph: &mut Graph, parts: &[NodeId]) -> Result<NodeId, Fail> {
    match parts {
        [one] => Ok(*one),
        _ => list(graph, parts),
    }
}

// The list of these parts: on one line, or the first part beside the others below one another, or all below one
// another.
fn list(graph: &mut Graph, parts: &[NodeId]) -> Result<NodeId, Fail>
    ensures { IfOk result (λ id. id.0 < length graph.new) }
{
    let Some((first, rest)) = parts.split_first() else {
        return text(graph, "()");
    };
    let line = graph.newline()?;
    let below = joined(graph, parts, line)?;
    let dropped = in_parentheses(graph, below)?;
    if rest.is_empty() {
        return Ok(dropped);
    }
    let flat = flattened(graph, dropped)?;
    let hung = hung(graph, *first, rest, line)?;
    let broken = either(graph, hung, dropped)?;
    either(graph, flat, broken)
}

// The first part beside the others, which stand below one another.
fn hung(graph: &mut Graph, first: NodeId, rest: &[NodeId], line: NodeId) -> Result<NodeId, Fail> {
    let others = joined(graph, rest, line)?;
    let others = aligned(graph, others)?;
    let space = text(graph, " ")?;
    let start = both(graph, first, space)?;
    let beside = both(graph, start, others)?;
    in_parentheses(graph, beside)
}

// The part behind an opening and before a closing parenthesis.
fn in_parentheses(graph: &mut Graph, inner: NodeId) -> Result<NodeId, Fail>
    ensures { IfOk result (λ id. id.0 < length graph.new) }
{
    let inner = aligned(graph, inner)?;
    between(graph, "(", inner, ")")
}
