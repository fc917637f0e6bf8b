//! What is known of each node of a graph, in one pass.
//!
//! The line `tactic` names the lemma that the proofs use.
#![tactic(auto, using(rf_frontier::proofs::Ways::keeps_same))]

ghost use Rattle.std.specs.Prelude.{◌≡◌, ◌<◌, length, slice_get, Some, IfOk, OnOk};
ghost use Rattle.rf_base_document.specs.Graph.{unfolded};
ghost use Rattle.rf_frontier.specs.Ways.{KeepsWays};
ghost use Rattle.rf_outline.specs.Known.{AreKnown, KnownHolds};

use crate::facts::Known;
use crate::kinds::{aligned, charged, choice, concat, flattened, hard, newline, text};
use rf_doc::{DocNode, Graph, NodeId};
use rf_frontier::Hows;
use std::alloc::AllocError;

/// Puts into `list`, in place of what it holds, what is known of each node of the graph, in the order of the nodes. The
/// choices of its lines are ways of `hows`, where older ways stay what they were, also where it is refused. An
/// `AllocError` comes for want of memory.
pub fn outline(graph: &Graph, hows: &mut Hows, list: &mut Vec<Known>) -> Result<(), AllocError>
    requires { 0 < length hows.old }
    ensures known { OnOk result (AreKnown hows.new graph.now list.new.items) }
    ensures each { OnOk result (length list.new.items ≡ length graph.now) }
    ensures older { KeepsWays hows.old hows.new }
{
    list.clear();
    let count = graph.len();
    list.reserve(count)?;
    for n in 0..count {
        let known = outline_node(graph, NodeId(n), list.as_slice(), hows)?;
        list.push(known)?;
    }
    Ok(())
}

// What is known of node `n`, where that of the nodes before it is given.
#[inline(always)]
fn outline_node(
    graph: &Graph,
    n: NodeId,
    list: &[Known],
    hows: &mut Hows,
) -> Result<Known, AllocError>
    requires some { 0 < length hows.old }
    requires in_graph { n.0 < length graph.now }
    requires before { length list.now ≡ n.0 }
    requires known { AreKnown hows.old graph.now list.now }

    ensures known { IfOk result (λ known. KnownHolds hows.new (unfolded graph.now n.0) known) }
    ensures older { KeepsWays hows.old hows.new }
{
    match graph.node(n) {
        DocNode::Text(_, len) => Ok(text(len, hows)),
        DocNode::Newline => Ok(newline(hows)),
        DocNode::Hard => Ok(hard()),
        DocNode::Concat(a, b) => concat(part(list, a), part(list, b), hows),
        DocNode::Nest(_, a) => Ok(part(list, a)),
        DocNode::Align(a) => Ok(aligned(part(list, a))),
        DocNode::Reset(a) => Ok(part(list, a)),
        DocNode::Flatten(a) => Ok(flattened(part(list, a))),
        DocNode::Choice(a, b) => choice(part(list, a), part(list, b), hows),
        DocNode::Charge(k, a) => Ok(charged(k, part(list, a))),
    }
}

// What is known of a part.
#[inline(always)]
fn part(list: &[Known], n: NodeId) -> Known
    requires { n.0 < length list.now }
    ensures { slice_get list.now n.0 ≡ Some result }
{
    list[n.0]
}
