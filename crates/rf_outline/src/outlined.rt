//! A graph whose nodes are known.
//!
//! The line `tactic` names the lemma that the proofs use.
#![tactic(auto, using(rf_frontier::proofs::Ways::keeps_same))]

ghost use Rattle.std.specs.Prelude.{◌≡◌, ℕ, ◌<◌, Bool, length, Some};
ghost use Rattle.rf_base_document.specs.Document.{Doc};
ghost use Rattle.rf_base_document.specs.Graph.{tree_of};
ghost use Rattle.rf_doc.specs.Nodes.{told_node};
ghost use Rattle.rf_outline.specs.Known.{LineHolds, FactsHold};
ghost use Rattle.rf_outline.specs.Documents.{IsOpened, IsWayOf};
ghost use Rattle.rf_outline.specs.Outlined.{facts_of, number_of, span_of, told_by};

use crate::documents::{Documents, Leaf, Part, Span};
use crate::facts::{Facts, Known, Line};
use rf_doc::{DocNode, Graph, NodeId};
use rf_frontier::{HowId, Hows};
use std::alloc::AllocError;

/// A graph of documents, and what is known of its nodes. Where there is no node of a number, nothing is known of it,
/// and it is told as a text of nothing.
#[derive(Clone, Copy)]
pub struct Outlined<'g, 'k> {
    /// The graph.
    pub graph: &'g Graph,
    /// What is known of its nodes, in their order.
    pub known: &'k [Known],
}

impl<'g, 'k> Documents for Outlined<'g, 'k> {
    ghost use Rattle.rf_outline.specs.Outlined.{seen};

    type Node = NodeId;

    ghost view = { λ outlined. seen outlined.graph.now outlined.known.now };

    fn open(&self, node: NodeId) -> Part<'_, NodeId> {
        if node.0 < self.graph.len() {
            opened(self.graph.node(node))
        } else {
            Part::Text("", 0)
        }
    }

    fn split_first(&self, _node: NodeId) -> Option<(NodeId, NodeId)> {
        None
    }

    fn several(&self, node: NodeId) -> NodeId {
        node
    }

    fn row(&self, _node: NodeId, _column: u32, _indentation: u32) -> Option<(NodeId, u32)> {
        None
    }

    fn span(&self, node: NodeId, flat: bool) -> Span {
        match self.known.get(node.0) {
            None => Span::Unsure,
            Some(known) => known.span(flat),
        }
    }

    fn begins(&self, node: NodeId, flat: bool) -> bool {
        match self.known.get(node.0) {
            None => false,
            Some(known) => known.begins(flat),
        }
    }

    fn leaf(&self, node: NodeId, flat: bool) -> Option<Leaf> {
        match self.open(node) {
            Part::Newline | Part::Hard if !flat => Some(Leaf::Break),
            _ => None,
        }
    }

    fn way(&self, node: NodeId, flat: bool, hows: &mut Hows) -> Result<HowId, AllocError> {
        match self.known.get(node.0) {
            None => Ok(hows.first()),
            Some(known) => Ok(known.way(flat, hows)),
        }
    }

    fn number(&self, node: NodeId) -> Option<usize> {
        if node.0 < self.graph.len() {
            number_of(node.0, self.graph.node(node))
        } else {
            None
        }
    }
}

// The kind and the parts of a node of a graph.
fn opened<'g>(node: DocNode<'g>) -> Part<'g, NodeId>
    ensures { (f : ℕ → Doc) → IsOpened (λ n. f n.0) (tree_of f (Some (told_node node.entry))) result }
{
    match node {
        DocNode::Text(s, len) => Part::Text(s, len),
        DocNode::Newline => Part::Newline,
        DocNode::Hard => Part::Hard,
        DocNode::Concat(a, b) => Part::Concat(a, b),
        DocNode::Nest(n, a) => Part::Nest(n, a),
        DocNode::Align(a) => Part::Align(a),
        DocNode::Reset(a) => Part::Reset(a),
        DocNode::Flatten(a) => Part::Flatten(a),
        DocNode::Choice(a, b) => Part::Choice(a, b),
        DocNode::Charge(k, a) => Part::Charge(k, a),
    }
}

// The number of node `n` of a graph, if it has one: its own, where it is an alignment.
fn number_of(n: usize, node: DocNode) -> Option<usize>
    ensures { (f : ℕ → Doc) → result ≡ number_of n (tree_of f (Some (told_node node.entry))) }
{
    match node {
        DocNode::Align(_) => Some(n),
        DocNode::Text(_, _)
        | DocNode::Newline
        | DocNode::Hard
        | DocNode::Concat(_, _)
        | DocNode::Nest(_, _)
        | DocNode::Reset(_)
        | DocNode::Flatten(_)
        | DocNode::Choice(_, _)
        | DocNode::Charge(_, _) => None,
    }
}

// Of what is known of a node, that which holds where it is flat, or isn't.
fn facts_of(known: Known, flat: bool) -> Facts
    ensures { result ≡ facts_of known flat }
{
    if flat { known.flat } else { known.loose }
}

impl Known {
    /// How long the document, flat or not, is on one line.
    pub fn span(&self, flat: bool) -> Span
        ensures { result ≡ (told_by (facts_of self.now flat)).span }
    {
        facts_of(*self, flat).line.span()
    }

    /// Whether the document, flat or not, is known to begin with a break.
    pub fn begins(&self, flat: bool) -> bool
        ensures { result ≡ (told_by (facts_of self.now flat)).begins }
    {
        facts_of(*self, flat).begins
    }

    /// The way of the line, where there is one, and otherwise that of no choice.
    pub fn way(&self, flat: bool, hows: &Hows) -> HowId
        requires { 0 < length hows.now }
        ensures { (d : Doc) (is_flat : Bool) → FactsHold hows.now d is_flat (facts_of self.now flat)
            → IsWayOf hows.now d is_flat (span_of (facts_of self.now flat).line) result }
    {
        facts_of(*self, flat).line.way(hows)
    }
}

impl Line {
    /// How long the line is.
    pub fn span(&self) -> Span
        ensures { result ≡ span_of self.now }
    {
        match *self {
            Line::Nothing => Span::Nothing,
            Line::Never => Span::Never,
            Line::Long(len, _) => Span::Long(len),
            Line::Text(len, _) => Span::Text(len),
            Line::Unsure => Span::Unsure,
        }
    }

    /// Its way, where there is one, and otherwise that of no choice.
    pub fn way(&self, hows: &Hows) -> HowId
        requires { 0 < length hows.now }
        ensures { (d : Doc) (flat : Bool) → LineHolds hows.now d flat self.now
            → IsWayOf hows.now d flat (span_of self.now) result }
    {
        match *self {
            Line::Long(_, how) => how,
            Line::Text(_, how) => how,
            Line::Nothing | Line::Never | Line::Unsure => hows.first(),
        }
    }
}
