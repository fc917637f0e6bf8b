//! The core of one node of a graph, from the cores of its parts.

ghost use Rattle.std.specs.Prelude.{◌≡◌, ◌<◌, length, slice_get, Some};
ghost use Rattle.rf_flat.specs.Cores.{core_node, core_nodes};
ghost use Rattle.rf_flat.specs.Places.{ArePlaced, Makes, core_at, place_of, newline_made, hard_made, concat_made};
ghost use Rattle.rf_flat.specs.Places.{choice_made};

use crate::cores::CoreNode;
use rf_base_document::Dir;
use rf_doc::{DocNode, Graph, NodeId};

/// Where the core of a graph's node stands, if it has one.
#[derive(Clone, Copy)]
pub struct Places {
    /// The core of the node where it isn't flat.
    pub broken: Option<usize>,
    /// The core of the node where it is flat.
    pub flat: Option<usize>,
}

/// What is to be done for the core of a node.
#[derive(Clone, Copy)]
pub enum Made<'g> {
    /// Nothing: it has none.
    Nothing,
    /// It is an older node of the core.
    Older(usize),
    /// It is this node, once it is added.
    Newer(CoreNode<'g>),
}

/// What is to be done for the core, flat or not, of node `n`, where those of the nodes before it stand.
pub fn simple_node<'g>(
    nodes: &[CoreNode],
    graph: &'g Graph,
    n: NodeId,
    flat: bool,
    places: &[Places],
) -> Made<'g>
    requires in_graph { n.0 < length graph.now }
    requires before { length places.now ≡ n.0 }
    requires placed { ArePlaced graph.now (core_nodes nodes.now) places.now }
    ensures { Makes (core_nodes nodes.now) (core_at graph.now n.0 flat) result }
{
    match graph.node(n) {
        DocNode::Text(s, len) => Made::Newer(CoreNode::Text(s, len)),
        DocNode::Newline => Made::Newer(newline_node(flat)),
        DocNode::Hard => hard_node(flat),
        DocNode::Concat(a, b) => concat_node(part(places, a, flat), part(places, b, flat)),
        DocNode::Nest(n, a) => match part(places, a, flat) {
            Some(a) => Made::Newer(CoreNode::Nest(n, a)),
            None => Made::Nothing,
        },
        DocNode::Align(a) => match part(places, a, flat) {
            Some(a) => Made::Newer(CoreNode::Align(a)),
            None => Made::Nothing,
        },
        DocNode::Reset(a) => match part(places, a, flat) {
            Some(a) => Made::Newer(CoreNode::Reset(a)),
            None => Made::Nothing,
        },
        DocNode::Flatten(a) => match part(places, a, true) {
            Some(a) => Made::Older(a),
            None => Made::Nothing,
        },
        DocNode::Choice(a, b) => choice_node(part(places, a, flat), part(places, b, flat)),
        DocNode::Charge(k, a) => match part(places, a, flat) {
            Some(a) => Made::Newer(CoreNode::Charge(k, a)),
            None => Made::Nothing,
        },
    }
}

// Where the core of a part stands, flat or not.
fn part(places: &[Places], n: NodeId, flat: bool) -> Option<usize>
    requires { n.0 < length places.now }
    ensures { (p : Places) → slice_get places.now n.0 ≡ Some p → result ≡ place_of p flat }
{
    let both = places[n.0];
    if flat { both.flat } else { both.broken }
}

// A newline that is flat is one space.
fn newline_node<'g>(flat: bool) -> CoreNode<'g>
    ensures { core_node result ≡ newline_made flat }
{
    if flat {
        CoreNode::Text(" ", 1)
    } else {
        CoreNode::Newline
    }
}

// A hard newline that is flat has no core.
fn hard_node<'g>(flat: bool) -> Made<'g>
    ensures { result ≡ hard_made flat }
{
    if flat {
        Made::Nothing
    } else {
        Made::Newer(CoreNode::Newline)
    }
}

// A concatenation has a core where both parts have.
fn concat_node<'g>(a: Option<usize>, b: Option<usize>) -> Made<'g>
    ensures { result ≡ concat_made a b }
{
    match (a, b) {
        (Some(a), Some(b)) => Made::Newer(CoreNode::Concat(a, b)),
        _ => Made::Nothing,
    }
}

// A choice has a core where a side has.
fn choice_node<'g>(a: Option<usize>, b: Option<usize>) -> Made<'g>
    ensures { result ≡ choice_made a b }
{
    match (a, b) {
        (Some(a), Some(b)) => Made::Newer(CoreNode::Choice(a, b)),
        (Some(a), None) => Made::Newer(CoreNode::Only(Dir::Left, a)),
        (None, Some(b)) => Made::Newer(CoreNode::Only(Dir::Right, b)),
        (None, None) => Made::Nothing,
    }
}
