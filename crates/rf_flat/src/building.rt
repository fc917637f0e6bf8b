//! The cores of all nodes of a graph, in one vector.

ghost use Rattle.std.specs.Prelude.{◌≡◌, ◌+◌, ◌<◌, ◌≤◌, length, IfOk};
ghost use Rattle.rf_base_document.specs.Graph.{IsGraph};
ghost use Rattle.rf_flat.specs.Cores.{core_nodes};
ghost use Rattle.rf_flat.specs.Places.{ArePlaced, BothPlaced, Placed, core_at, Grows, HoldsCore};

use crate::cores::CoreNode;
use crate::simple_nodes::{Made, Places, simple_node};
use rf_doc::{Graph, NodeId};
use std::alloc::{AllocError, Global};

/// The cores of a graph's nodes, flat and not.
#[derive(Drop)]
pub struct AllCores<'g> {
    /// Their nodes.
    pub nodes: Vec<CoreNode<'g>>,
    /// Where the core of the last of the graph's nodes stands that isn't flat, if it has one.
    pub root: Option<usize>,
}

/// The cores of the nodes up to `root`, each after those of the nodes before it, at most two for each node.
/// An `AllocError` comes for want of memory.
pub fn all_cores<'g>(
    alloc: Global,
    graph: &'g Graph,
    root: NodeId,
) -> Result<AllCores<'g>, AllocError>
    requires { root.0 < length graph.now }
    ensures { IfOk result (λ all. HoldsCore graph.now root.0 (core_nodes all.nodes.items) all.root) }
{
    let mut nodes = Vec::new(alloc);
    let mut places = Vec::new(alloc);
    for n in 0..root.0 {
        let both = add_cores(&mut nodes, graph, NodeId(n), &places)?;
        places.push(both)?;
    }
    let both = add_cores(&mut nodes, graph, root, &places)?;
    Ok(AllCores {
        nodes,
        root: both.broken,
    })
}

// Adds the cores of node `n`, where those of the nodes before it stand.
fn add_cores<'g>(
    nodes: &mut Vec<CoreNode<'g>>,
    graph: &'g Graph,
    n: NodeId,
    places: &[Places],
) -> Result<Places, AllocError>
    requires in_graph { n.0 < length graph.now }
    requires before { length places.now ≡ n.0 }
    requires placed { ArePlaced graph.now (core_nodes nodes.old.items) places.now }
    requires is_graph { IsGraph (core_nodes nodes.old.items) }
    ensures placed { IfOk result (λ both. BothPlaced graph.now (core_nodes nodes.new.items) n.0 both) }
    ensures older { IfOk result (λ both. Grows (core_nodes nodes.old.items) (core_nodes nodes.new.items)) }
    ensures is_graph { IfOk result (λ both. IsGraph (core_nodes nodes.new.items)) }
    ensures two_more { IfOk result (λ both.
        length (core_nodes nodes.new.items) ≤ length (core_nodes nodes.old.items) + 2) }
{
    let broken = add_core(nodes, graph, n, false, places)?;
    let flat = add_core(nodes, graph, n, true, places)?;
    Ok(Places { broken, flat })
}

// Adds the core of node `n`, flat or not, where those of the nodes before it stand.
fn add_core<'g>(
    nodes: &mut Vec<CoreNode<'g>>,
    graph: &'g Graph,
    n: NodeId,
    flat: bool,
    places: &[Places],
) -> Result<Option<usize>, AllocError>
    requires in_graph { n.0 < length graph.now }
    requires before { length places.now ≡ n.0 }
    requires placed { ArePlaced graph.now (core_nodes nodes.old.items) places.now }
    requires is_graph { IsGraph (core_nodes nodes.old.items) }
    ensures placed { IfOk result (λ place. Placed (core_nodes nodes.new.items) (core_at graph.now n.0 flat) place) }
    ensures older { IfOk result (λ place. Grows (core_nodes nodes.old.items) (core_nodes nodes.new.items)) }
    ensures is_graph { IfOk result (λ place. IsGraph (core_nodes nodes.new.items)) }
    ensures one_more { IfOk result (λ place.
        length (core_nodes nodes.new.items) ≤ length (core_nodes nodes.old.items) + 1) }
{
    match simple_node(nodes, graph, n, flat, places) {
        Made::Nothing => Ok(None),
        Made::Older(place) => Ok(Some(place)),
        Made::Newer(node) => {
            let place = nodes.len();
            nodes.push(node)?;
            Ok(Some(place))
        }
    }
}
