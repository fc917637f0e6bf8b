//! A core of the marked nodes alone.

ghost use Rattle.std.specs.Prelude.{◌≡◌, ◌+◌, ◌<◌, ◌≤◌, ℕ, List, length, slice_index, IfOk};
ghost use Rattle.rf_base_document.specs.Graph.{IsGraph, parts_end};
ghost use Rattle.rf_flat.specs.Cores.{core_node, core_nodes};
ghost use Rattle.rf_flat.specs.Reached.{MarkedDownTo};
ghost use Rattle.rf_flat.specs.Kept.{with_parts, KeptUpTo};

use crate::cores::CoreNode;
use std::alloc::{AllocError, Global};

/// Keeps the marked nodes alone, in order and in place, with their parts' new numbers. An `AllocError` comes
/// for want of memory.
pub fn keep<'g>(
    alloc: Global,
    nodes: &mut Vec<CoreNode<'g>>,
    root: usize,
    marks: &[bool],
) -> Result<(), AllocError>
    requires is_graph { IsGraph (core_nodes nodes.old.items) }
    requires in_core { root < length nodes.old.items }
    requires marked { MarkedDownTo (core_nodes nodes.old.items) root 0 marks.now }
    ensures { IfOk result (λ done. (places : List ℕ)
        × KeptUpTo (core_nodes nodes.old.items) marks.now (length marks.now) places (core_nodes nodes.new.items)) }
{
    let mut places = Vec::new(alloc);
    let mut count = 0;
    for n in 0..marks.len() {
        places.push(as_place(count)?)?;
        if marks[n] {
            nodes[count] = moved(&nodes[n], &places);
            count += 1;
        }
    }
    nodes.truncate(count);
    Ok(())
}

// A new number as it is kept meanwhile. An `AllocError` comes where it doesn't fit: for so many nodes there
// is no room.
fn as_place(n: usize) -> Result<u32, AllocError>
    ensures { IfOk result (λ place. place ≡ n) }
{
    match u32::try_from(n) {
        Ok(narrow) => Ok(narrow),
        Err(_) => Err(AllocError),
    }
}

// The node with its parts' new numbers, which are their places.
fn moved<'g>(node: &CoreNode<'g>, places: &[u32]) -> CoreNode<'g>
    requires { parts_end (core_node node.now) ≤ length places.now }
    ensures { core_node result ≡ with_parts (λ k. slice_index places.now k) (core_node node.now) }
{
    match *node {
        CoreNode::Text(s, len) => CoreNode::Text(s, len),
        CoreNode::Newline => CoreNode::Newline,
        CoreNode::Concat(a, b) => CoreNode::Concat(number(places, a), number(places, b)),
        CoreNode::Nest(n, a) => CoreNode::Nest(n, number(places, a)),
        CoreNode::Align(a) => CoreNode::Align(number(places, a)),
        CoreNode::Reset(a) => CoreNode::Reset(number(places, a)),
        CoreNode::Choice(a, b) => CoreNode::Choice(number(places, a), number(places, b)),
        CoreNode::Only(dir, a) => CoreNode::Only(dir, number(places, a)),
        CoreNode::Charge(k, a) => CoreNode::Charge(k, number(places, a)),
    }
}

// The new number of node `n`.
fn number(places: &[u32], n: usize) -> usize
    requires { n < length places.now }
    ensures { result ≡ slice_index places.now n }
{
    places[n] as usize
}
