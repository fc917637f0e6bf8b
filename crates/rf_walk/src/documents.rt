//! Resolutions of documents laid out as they stand in a graph.

ghost use Rattle.std.specs.Prelude.{◌<◌, false, [], length, OnOk, IsErrOf};
ghost use Rattle.rf_base_document.specs.Document.{Doc};
ghost use Rattle.rf_base_document.specs.Render.{Laid};
ghost use Rattle.rf_base_document.specs.Picks.{Picks, LaidOutBy};
ghost use Rattle.rf_base_document.specs.TooLong.{IsTooLong};
ghost use Rattle.rf_base_document.specs.Graph.{StandsFor};
ghost use Rattle.rf_walk.specs.LaidOut.{IsLaidOn};

use crate::faults::LayoutError;
use crate::papers::Paper;
use crate::walking::lay_out_nodes;
use rf_doc::{Graph, NodeId};
use rf_flat::Dir;
use std::alloc::Global;

/// Puts the layout of the resolution that the choices pick of the root's document on a blank paper, at column 0 and
/// indentation 0, with no core made. The document may be deep, since what is left waits on a stack. `TooLong` comes
/// exactly where that layout has more than 67,108,864 characters, or the resolution more texts, line breaks and choices
/// than that; `Memory` for want of memory.
pub fn lay_out_document<P: Paper>(
    alloc: Global,
    graph: &Graph,
    root: NodeId,
    choices: &[Dir],
    paper: &mut P,
) -> Result<(), LayoutError>
    requires in_graph { root.0 < length graph.now }
    requires picked { (d : Doc) × (whole : Laid) × StandsFor graph.now root.0 d
        × LaidOutBy d choices.now 0 0 false whole }
    requires blank { P.holds paper.old paper.old [] 0 }
    ensures laid { OnOk result ((d e : Doc) → StandsFor graph.now root.0 d → Picks d choices.now e
        → IsLaidOn (P.holds paper.old paper.new) e choices.now) }
    ensures too_long { IsErrOf result LayoutError.TooLong → (d e : Doc) → StandsFor graph.now root.0 d
        → Picks d choices.now e → IsTooLong e choices.now }
{
    // So the graph is known to be one.
    prove!(root.0 < graph.len());
    lay_out_nodes(alloc, graph, root, choices, paper)
}
