//! Documents that a walk lays out: those of graphs, those of cores, and whichever others are told node by node.

ghost use Rattle.std.specs.Prelude.{◌≡◌, ℕ, Some};
ghost use Rattle.rf_base_document.specs.Document.{Doc, IsDocument};
ghost use Rattle.rf_base_document.specs.Graph.{tree_of, unfolded};
ghost use Rattle.rf_doc.specs.Nodes.{told_node};
ghost use Rattle.rf_flat.specs.Cores.{core_node};
ghost use Rattle.rf_walk.specs.Kinds.{kind_doc};

use rf_doc::{DocNode, Graph, NodeId};
use rf_flat::{Core, CoreNode, Dir};

/// The kind of a document and its parts.
#[derive(Clone, Copy, Debug, PartialEq, Eq)]
pub enum Kind<'g, N: Copy> {
    /// These characters, which hold no line feed, and the columns that they take up.
    Text(&'g str, u32),
    /// A line break, or one space where flat.
    Newline,
    /// A line break, which has no layout where flat.
    Hard,
    /// The first part and then the second, which begins where the first ends.
    Concat(N, N),
    /// The part with this many more columns of indentation.
    Nest(u32, N),
    /// The part with the column that it begins at as its indentation.
    Align(N),
    /// The part with no indentation.
    Reset(N),
    /// The part with each of its newlines flat.
    Flatten(N),
    /// The first part or the second.
    Choice(N, N),
    /// A choice of which only this side has a layout: the part.
    Only(Dir, N),
    /// The part for this added cost.
    Charge(u32, N),
}

/// Documents whose nodes may be asked for one by one.
pub trait Nodes {
    /// Names a node.
    type Node: Copy;

    // What each node stands for.
    ghost document: { Self → Self.Node → Doc };

    /// The kind and the parts of the node, which stands for a document that keeps the limits. It takes no memory.
    fn kind(&self, node: Self::Node) -> Kind<'_, Self::Node>
        ensures told { document self.now node ≡ kind_doc (document self.now) result }
        ensures limits { IsDocument (document self.now node) };
}

/// Where there is no node of a number, a text of nothing is told.
impl Nodes for Graph {
    type Node = NodeId;

    ghost document = { λ graph node. unfolded graph node.0 };

    fn kind(&self, node: NodeId) -> Kind<'_, NodeId> {
        if node.0 < self.len() {
            kind_in_graph(self.node(node))
        } else {
            Kind::Text("", 0)
        }
    }
}

/// Where there is no node of a number, a text of nothing is told.
impl<'g> Nodes for Core<'g> {
    type Node = usize;

    ghost document = { λ core node. unfolded core.nodes node };

    fn kind(&self, node: usize) -> Kind<'_, usize> {
        if node < self.len() {
            kind_in_core(*self.node(node))
        } else {
            Kind::Text("", 0)
        }
    }
}

// The same kind and parts.
fn kind_in_graph<'g>(node: DocNode<'g>) -> Kind<'g, NodeId>
    ensures { (f : ℕ → Doc) → tree_of f (Some (told_node node.entry)) ≡ kind_doc (λ n. f n.0) result }
{
    match node {
        DocNode::Text(s, len) => Kind::Text(s, len),
        DocNode::Newline => Kind::Newline,
        DocNode::Hard => Kind::Hard,
        DocNode::Concat(a, b) => Kind::Concat(a, b),
        DocNode::Nest(n, a) => Kind::Nest(n, a),
        DocNode::Align(a) => Kind::Align(a),
        DocNode::Reset(a) => Kind::Reset(a),
        DocNode::Flatten(a) => Kind::Flatten(a),
        DocNode::Choice(a, b) => Kind::Choice(a, b),
        DocNode::Charge(k, a) => Kind::Charge(k, a),
    }
}

// The same kind and parts.
fn kind_in_core<'g>(node: CoreNode<'g>) -> Kind<'g, usize>
    ensures { (f : ℕ → Doc) → tree_of f (Some (core_node node.entry)) ≡ kind_doc f result }
{
    match node {
        CoreNode::Text(s, len) => Kind::Text(s, len),
        CoreNode::Newline => Kind::Newline,
        CoreNode::Concat(a, b) => Kind::Concat(a, b),
        CoreNode::Nest(n, a) => Kind::Nest(n, a),
        CoreNode::Align(a) => Kind::Align(a),
        CoreNode::Reset(a) => Kind::Reset(a),
        CoreNode::Choice(a, b) => Kind::Choice(a, b),
        CoreNode::Only(dir, a) => Kind::Only(dir, a),
        CoreNode::Charge(k, a) => Kind::Charge(k, a),
    }
}
