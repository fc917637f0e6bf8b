//! The nodes that all cells share.

ghost use Rattle.std.specs.Prelude.{◌≡◌, ◌≤◌, ◌+◌, length, IfOk};
ghost use Rattle.rf_doc.specs.Nodes.{Extends};
ghost use Rattle.rf_row_graph.specs.Parts.{fill_node, SharedStand};

use rf_doc::{Graph, NodeId};
use rf_rows::Fill;
use std::alloc::AllocError;

/// The nodes that are made once.
#[derive(Clone, Copy, Debug)]
pub struct Shared {
    /// One space.
    pub space: NodeId,
    /// A line break, or one space where flat.
    pub newline: NodeId,
    /// A line break, which has no layout where flat.
    pub hard: NodeId,
    /// The same, without indentation.
    pub bare_break: NodeId,
}

/// The shared nodes, added to the graph. An `AllocError` comes for want of memory.
pub fn add_shared(graph: &mut Graph) -> Result<Shared, AllocError>
    ensures stand { IfOk result (λ shared. SharedStand graph.new shared) }
    ensures older { Extends graph.old graph.new }
    ensures grown { length graph.new ≤ length graph.old + 4 }
{
    let space = graph.text(" ")?;
    let newline = graph.newline()?;
    let hard = graph.hard()?;
    let bare_break = graph.reset(hard)?;
    Ok(Shared {
        space,
        newline,
        hard,
        bare_break,
    })
}

impl Shared {
    /// The node of what stands in a gap.
    pub fn fill(&self, fill: Fill) -> NodeId
        ensures { result.0 ≡ fill_node self.now fill }
    {
        match fill {
            Fill::Space => self.space,
            Fill::Newline => self.newline,
            Fill::Hard => self.hard,
        }
    }
}
