//! From a document's graph to its core.

ghost use Rattle.std.specs.Prelude.{◌*◌, ◌<◌, ◌≤◌, false, length, IfOk, IfSome, IfNone};
ghost use Rattle.rf_base_document.specs.Document.{Doc};
ghost use Rattle.rf_base_document.specs.Simple.{simple};
ghost use Rattle.rf_base_document.specs.Graph.{StandsFor, IsGraph};
ghost use Rattle.rf_flat.specs.Cores.{core_nodes, RootReachesAll};
ghost use Rattle.rf_flat.specs.Simplified.{StandsForCore, HasNoLayout};

use crate::building::all_cores;
use crate::cores::{Core, CoreNode};
use crate::keeping::keep;
use crate::reaching::reached;
use rf_doc::{Graph, NodeId};
use std::alloc::{AllocError, Global};

/// The core of the document that `root` stands for: what is left of it without `Flatten` and `Hard`, where
/// each choice of which one side alone has a layout is an `Only`. It has the same layouts by the same
/// choices. None comes exactly where no resolution of the document has a layout. The graph's nodes are gone
/// through in order, without recursion. An `AllocError` comes for want of memory.
///
/// A flattened newline has the core of a space, and a flattened hard newline has none.
pub fn simplify<'g>(
    alloc: Global,
    graph: &'g Graph,
    root: NodeId,
) -> Result<Option<Core<'g>>, AllocError>
    requires { root.0 < length graph.now }
    ensures core { IfOk result (λ core. (d : Doc) → StandsFor graph.now root.0 d
        → StandsForCore core (simple d false)) }
    ensures none { IfOk result (λ core. IfNone core ((d : Doc) → StandsFor graph.now root.0 d → HasNoLayout d)) }
    ensures two_a_node { IfOk result (λ core. IfSome core (λ core. length core.nodes ≤ 2 * length graph.now)) }
    ensures reached { IfOk result (λ core. IfSome core RootReachesAll) }
{
    // So the graph is known to be one.
    prove!(root.0 < graph.len());
    let all = all_cores(alloc, graph, root)?;
    match all.root {
        None => Ok(None),
        Some(place) => {
            let core = reached_core(alloc, all.nodes, place)?;
            Ok(Some(core))
        }
    }
}

// The core of the nodes that `root` reaches.
fn reached_core<'g>(
    alloc: Global,
    mut nodes: Vec<CoreNode<'g>>,
    root: usize,
) -> Result<Core<'g>, AllocError>
    requires is_graph { IsGraph (core_nodes nodes.items) }
    requires in_core { root < length nodes.items }
    ensures same { IfOk result (λ core. (s : Doc) → StandsFor (core_nodes nodes.entry.items) root s
        → StandsFor core.nodes core.root s) }
    ensures no_more { IfOk result (λ core. length core.nodes ≤ length nodes.entry.items) }
    ensures reached { IfOk result RootReachesAll }
{
    let marks = reached(alloc, &nodes, root)?;
    keep(alloc, &mut nodes, root, &marks)?;
    let root = nodes.len() - 1;
    Ok(Core { nodes, root })
}
