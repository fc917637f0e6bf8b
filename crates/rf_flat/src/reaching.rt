//! The nodes of a core that its root reaches.

ghost use Rattle.std.specs.Prelude.{◌+◌, ◌<◌, ◌≤◌, length, IfOk};
ghost use Rattle.rf_base_document.specs.Graph.{IsGraph, parts_end};
ghost use Rattle.rf_flat.specs.Cores.{core_node, core_nodes};
ghost use Rattle.rf_flat.specs.Reached.{MarksParts, MarkedDownTo};

use crate::cores::CoreNode;
use std::alloc::{AllocError, Global};

/// Which of the nodes up to `root` the root reaches: itself, and the parts of each that it reaches. An
/// `AllocError` comes for want of memory.
pub fn reached(alloc: Global, nodes: &[CoreNode], root: usize) -> Result<Vec<bool>, AllocError>
    requires is_graph { IsGraph (core_nodes nodes.now) }
    requires in_core { root < length nodes.now }
    ensures { IfOk result (λ marks. MarkedDownTo (core_nodes nodes.now) root 0 marks.items) }
{
    let mut marks = vec![in alloc; false; root + 1]?;
    marks[root] = true;
    for n in (0..root + 1).rev() {
        mark_from(nodes, root, n, &mut marks);
    }
    Ok(marks)
}

// Marks the parts of node `n` where it is marked itself.
fn mark_from(nodes: &[CoreNode], root: usize, n: usize, marks: &mut [bool])
    requires is_graph { IsGraph (core_nodes nodes.now) }
    requires in_core { root < length nodes.now }
    requires in_marks { n ≤ root }
    requires later { MarkedDownTo (core_nodes nodes.now) root (n + 1) marks.old }
    ensures { MarkedDownTo (core_nodes nodes.now) root n marks.new }
{
    if marks[n] {
        mark_parts(&nodes[n], marks);
    }
}

// Marks the node's parts.
fn mark_parts(node: &CoreNode, marks: &mut [bool])
    requires { parts_end (core_node node.now) ≤ length marks.old }
    ensures { MarksParts (core_node node.now) marks.old marks.new }
{
    match *node {
        CoreNode::Text(..) | CoreNode::Newline => {}
        CoreNode::Nest(_, a)
        | CoreNode::Align(a)
        | CoreNode::Reset(a)
        | CoreNode::Only(_, a)
        | CoreNode::Charge(_, a) => marks[a] = true,
        CoreNode::Concat(a, b) | CoreNode::Choice(a, b) => {
            marks[a] = true;
            marks[b] = true;
        }
    }
}
