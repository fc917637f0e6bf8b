//! Cores as graphs in one vector.

ghost use Rattle.std.specs.Prelude.{◌≡◌, ◌<◌, ◌≤◌, length};
ghost use Rattle.rf_base_document.specs.Document.{Doc};
ghost use Rattle.rf_base_document.specs.Simple.{IsCore};
ghost use Rattle.rf_base_document.specs.Graph.{IsNode, IsGraph, StandsFor, parts_end};
ghost use Rattle.rf_flat.specs.Cores.{core_node};

use rf_base_document::Dir;
use std::marker::Model;

/// A node of a core: its kind and its parts, whose numbers are smaller than its own.
#[derive(Clone, Copy, Debug, PartialEq, Eq)]
pub enum CoreNode<'g> {
    /// These characters, which hold no line feed, and the columns that they take up.
    Text(&'g str, u32),
    /// A line break.
    Newline,
    /// The first part and then the second, which begins where the first ends.
    Concat(usize, usize),
    /// The part with this many more columns of indentation.
    Nest(u32, usize),
    /// The part with the column that it begins at as its indentation.
    Align(usize),
    /// The part with no indentation.
    Reset(usize),
    /// The first part or the second.
    Choice(usize, usize),
    /// A choice of which only this side has a layout: the part.
    Only(Dir, usize),
    /// The part for this added cost.
    Charge(u32, usize),
}

/// A document without `Flatten` and `Hard`, whose parts may be shared. Contracts see the list of its nodes
/// and the number of the whole document's node.
#[derive(Drop)]
pub struct Core<'g> {
    pub(crate) nodes: Vec<CoreNode<'g>>,
    pub(crate) root: usize,
}

impl<'g> Model for Core<'g> {
    ghost use Rattle.rf_flat.specs.Cores.{CoreGraph, core_graph, core_nodes, IsCoreGraph};

    ghost Value = { CoreGraph };

    ghost view = { λ c. core_graph (core_nodes c.nodes.items) c.root };

    ghost invariant = { λ c. IsCoreGraph (core_graph (core_nodes c.nodes.items) c.root) };
}

impl<'g> Core<'g> {
    /// The number of nodes. Each number below it names a node. It takes no memory.
    pub fn len(&self) -> usize
        ensures count { result ≡ length self.now.nodes }
        ensures is_graph { IsGraph self.now.nodes }
    {
        self.nodes.len()
    }

    /// The number of the whole document's node, which stands for a document without `Flatten` and `Hard`. It
    /// takes no memory.
    pub fn root(&self) -> usize
        ensures root { result ≡ self.now.root }
        ensures in_core { result < length self.now.nodes }
        ensures is_graph { IsGraph self.now.nodes }
        ensures is_core { (d : Doc) → StandsFor self.now.nodes self.now.root d → IsCore d }
    {
        self.root
    }

    /// The kind and the parts of node `n`. It takes no memory.
    pub fn node(&self, n: usize) -> &CoreNode<'g>
        requires { n < length self.now.nodes }
        ensures told { IsNode self.now.nodes n (core_node result.now) }
        ensures parts_first { parts_end (core_node result.now) ≤ n }
        ensures is_graph { IsGraph self.now.nodes }
    {
        &self.nodes[n]
    }
}
