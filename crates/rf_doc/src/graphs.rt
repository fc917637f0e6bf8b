//! The graph of documents.
//!
//! A function's line `tactic` names the lemma that its proof uses.

ghost use Rattle.std.specs.Prelude.{◌≡◌, ◌+◌, ◌*◌, ◌<◌, ◌≤◌, [], length, IfOk};
ghost use Rattle.std.specs.List.{All};
ghost use Rattle.std.specs.Str.{chars};
ghost use Rattle.rf_base_document.specs.Document.{IsOneLine, plain_text};
ghost use Rattle.rf_base_document.specs.Document.{Text as a_text, Newline as a_newline, Hard as a_hard};
ghost use Rattle.rf_base_document.specs.Document.{Concat as a_concat, Nest as a_nest, Align as an_align};
ghost use Rattle.rf_base_document.specs.Document.{Reset as a_reset, Flatten as a_flatten, Choice as a_choice};
ghost use Rattle.rf_base_document.specs.Document.{Charge as a_charge};
ghost use Rattle.rf_base_document.specs.Sequence.{seq as a_seq};
ghost use Rattle.rf_base_document.specs.Graph.{StandsFor, IsNode, IsGraph, parts_end, NodeKeepsLimits};
ghost use Rattle.rf_doc.specs.Nodes.{stored_node, HasNoText, told_node, numbers, joints};
ghost use Rattle.rf_doc.specs.Nodes.{StandsOver, StandsOverBoth, StandsOverAll, Extends, Adds};

use crate::characters::char_count;
use crate::limits::TEXT_LIMIT;
use crate::nodes::{DocNode, NodeId};
use crate::stored::{Stored, as_part, place};
use std::alloc::{AllocError, Global};
use std::marker::Model;

/// Documents whose parts may be shared. Contracts see a graph as the list of its nodes.
#[derive(Drop)]
pub struct Graph {
    nodes: Vec<Stored>,
    // The characters of all texts, one text behind another.
    texts: String,
}

impl Model for Graph {
    ghost use Rattle.rf_base_document.specs.Graph.{GraphNode};
    ghost use Rattle.std.specs.Prelude.{List};
    ghost use Rattle.std.specs.String.{string_bytes};

    ghost Value = { List GraphNode };

    ghost use Rattle.rf_doc.specs.Nodes.{seen, IsKeptSo};

    ghost view = { λ g. seen (string_bytes g.texts) g.nodes.items };

    ghost invariant = { λ g. IsKeptSo (string_bytes g.texts) g.nodes.items };
}

impl Graph {
    /// The graph of no node. It takes no memory.
    pub fn new(alloc: Global) -> Graph
        ensures { result ≡ [] }
    {
        Graph {
            nodes: Vec::new(alloc),
            texts: String::new(alloc),
        }
    }

    /// Takes all nodes away, and keeps the room that they took for others.
    pub fn clear(&mut self)
        ensures { self.new ≡ [] }
    {
        self.nodes.clear();
        self.texts.clear();
    }

    /// The number of nodes. Each number below it names a node. It takes no memory.
    pub fn len(&self) -> usize
        ensures count { result ≡ length self.now }
        ensures is_graph { IsGraph self.now }
    {
        self.nodes.len()
    }

    /// The kind and the parts of node `n`. It takes no memory.
    pub fn node(&self, n: NodeId) -> DocNode<'_>
        requires { n.0 < length self.now }
        ensures told { IsNode self.now n.0 (told_node result) }
        ensures parts_first { parts_end (told_node result) ≤ n.0 }
        ensures is_graph { IsGraph self.now }
    {
        match &self.nodes[n.0] {
            Stored::Text { start, len, width } => {
                let begin = *start as usize;
                let end = begin + *len as usize;
                DocNode::Text(&self.texts.as_str()[begin..end], *width)
            }
            Stored::Newline => DocNode::Newline,
            Stored::Hard => DocNode::Hard,
            Stored::Concat(a, b) => DocNode::Concat(NodeId(*a as usize), NodeId(*b as usize)),
            Stored::Nest(n, a) => DocNode::Nest(*n, NodeId(*a as usize)),
            Stored::Align(a) => DocNode::Align(NodeId(*a as usize)),
            Stored::Reset(a) => DocNode::Reset(NodeId(*a as usize)),
            Stored::Flatten(a) => DocNode::Flatten(NodeId(*a as usize)),
            Stored::Choice(a, b) => DocNode::Choice(NodeId(*a as usize), NodeId(*b as usize)),
            Stored::Charge(k, a) => DocNode::Charge(*k, NodeId(*a as usize)),
        }
    }

    /// A new node: the text `s`, whose length is its number of characters. The graph is unchanged after
    /// an `AllocError`, which comes for want of memory.
    pub fn text(&mut self, s: &str) -> Result<NodeId, AllocError>
        requires one_line { IsOneLine (chars s.now) }
        requires short { length s.now ≤ TEXT_LIMIT }

        ensures document { IfOk result (λ id. StandsFor self.new id.0 (plain_text (chars s.now))) }
        ensures added { Adds 1 self.old self.new result }
    {
        self.sized(s, char_count(s) as u32)
    }

    /// A new node: the text `s`, which takes up `len` columns, at most two a character. The graph is
    /// unchanged after an `AllocError`, which comes for want of memory.
    pub fn sized(&mut self, s: &str, len: u32) -> Result<NodeId, AllocError>
        requires one_line { IsOneLine (chars s.now) }
        requires short { length s.now ≤ TEXT_LIMIT }
        requires columns { len ≤ 2 * length (chars s.now) }

        ensures document { IfOk result (λ id. StandsFor self.new id.0 (a_text (chars s.now) len)) }
        ensures added { Adds 1 self.old self.new result }
    {
        let id = NodeId(self.nodes.len());
        let start = place(self.texts.len())?;
        // The node has room before its text is stored, so nothing has to be taken back.
        self.nodes.reserve(1)?;
        self.texts.push_str(s)?;
        self.nodes.push_reserved(Stored::Text {
            start,
            len: s.len() as u32,
            width: len,
        });
        Ok(id)
    }

    /// A new node: a line break, or one space where flat. The graph is unchanged after an `AllocError`,
    /// which comes for want of memory.
    #[tactic(auto, using(crate::proofs::Seen::newline_stands))]
    pub fn newline(&mut self) -> Result<NodeId, AllocError>
        ensures document { IfOk result (λ id. StandsFor self.new id.0 a_newline) }
        ensures added { Adds 1 self.old self.new result }
    {
        self.put(Stored::Newline)
    }

    /// A new node: a line break, which has no layout where flat. The graph is unchanged after an
    /// `AllocError`, which comes for want of memory.
    #[tactic(auto, using(crate::proofs::Seen::hard_stands))]
    pub fn hard(&mut self) -> Result<NodeId, AllocError>
        ensures document { IfOk result (λ id. StandsFor self.new id.0 a_hard) }
        ensures added { Adds 1 self.old self.new result }
    {
        self.put(Stored::Hard)
    }

    /// A new node: `a` and then `b`, which begins where `a` ends. The graph is unchanged after an
    /// `AllocError`, which comes for want of memory.
    #[tactic(auto, using(crate::proofs::Seen::concat_stands))]
    pub fn concat(&mut self, a: NodeId, b: NodeId) -> Result<NodeId, AllocError>
        requires first { a.0 < length self.old }
        requires second { b.0 < length self.old }

        ensures document { IfOk result (λ id. StandsOverBoth self.old a.0 b.0 a_concat self.new id.0) }
        ensures added { Adds 1 self.old self.new result }
    {
        self.put(Stored::Concat(as_part(a)?, as_part(b)?))
    }

    /// A new node: `a` with `n` more columns of indentation. The graph is unchanged after an `AllocError`,
    /// which comes for want of memory.
    #[tactic(auto, using(crate::proofs::Seen::nest_stands))]
    pub fn nest(&mut self, n: u32, a: NodeId) -> Result<NodeId, AllocError>
        requires columns { n ≤ 1000 }
        requires part { a.0 < length self.old }

        ensures document { IfOk result (λ id. StandsOver self.old a.0 (a_nest n) self.new id.0) }
        ensures added { Adds 1 self.old self.new result }
    {
        self.put(Stored::Nest(n, as_part(a)?))
    }

    /// A new node: `a` with the column that it begins at as its indentation. The graph is unchanged
    /// after an `AllocError`, which comes for want of memory.
    #[tactic(auto, using(crate::proofs::Seen::align_stands))]
    pub fn align(&mut self, a: NodeId) -> Result<NodeId, AllocError>
        requires { a.0 < length self.old }

        ensures document { IfOk result (λ id. StandsOver self.old a.0 an_align self.new id.0) }
        ensures added { Adds 1 self.old self.new result }
    {
        self.put(Stored::Align(as_part(a)?))
    }

    /// A new node: `a` with no indentation. The graph is unchanged after an `AllocError`, which comes for
    /// want of memory.
    #[tactic(auto, using(crate::proofs::Seen::reset_stands))]
    pub fn reset(&mut self, a: NodeId) -> Result<NodeId, AllocError>
        requires { a.0 < length self.old }

        ensures document { IfOk result (λ id. StandsOver self.old a.0 a_reset self.new id.0) }
        ensures added { Adds 1 self.old self.new result }
    {
        self.put(Stored::Reset(as_part(a)?))
    }

    /// A new node: `a` with each of its newlines flat. The graph is unchanged after an `AllocError`, which
    /// comes for want of memory.
    #[tactic(auto, using(crate::proofs::Seen::flatten_stands))]
    pub fn flatten(&mut self, a: NodeId) -> Result<NodeId, AllocError>
        requires { a.0 < length self.old }

        ensures document { IfOk result (λ id. StandsOver self.old a.0 a_flatten self.new id.0) }
        ensures added { Adds 1 self.old self.new result }
    {
        self.put(Stored::Flatten(as_part(a)?))
    }

    /// A new node: `a` or `b`, whichever a resolution takes. The graph is unchanged after an `AllocError`,
    /// which comes for want of memory.
    #[tactic(auto, using(crate::proofs::Seen::choice_stands))]
    pub fn choice(&mut self, a: NodeId, b: NodeId) -> Result<NodeId, AllocError>
        requires first { a.0 < length self.old }
        requires second { b.0 < length self.old }

        ensures document { IfOk result (λ id. StandsOverBoth self.old a.0 b.0 a_choice self.new id.0) }
        ensures added { Adds 1 self.old self.new result }
    {
        self.put(Stored::Choice(as_part(a)?, as_part(b)?))
    }

    /// A new node: `a` for an added cost of `k`. The graph is unchanged after an `AllocError`, which comes
    /// for want of memory.
    #[tactic(auto, using(crate::proofs::Seen::charge_stands))]
    pub fn charge(&mut self, k: u32, a: NodeId) -> Result<NodeId, AllocError>
        requires cost { k ≤ 1000 }
        requires part { a.0 < length self.old }

        ensures document { IfOk result (λ id. StandsOver self.old a.0 (a_charge k) self.new id.0) }
        ensures added { Adds 1 self.old self.new result }
    {
        self.put(Stored::Charge(k, as_part(a)?))
    }

    /// The parts one after another, as `seq` of documents says: no part is the text of nothing, one part
    /// is itself, and more are the concatenation of the sequences of the first half, rounded up, and of
    /// the rest. The graph is unchanged after an `AllocError`, which comes for want of memory.
    pub fn seq(&mut self, parts: &[NodeId]) -> Result<NodeId, AllocError>
        requires { All (λ n. n < length self.old) (numbers parts.now) }

        ensures document { IfOk result (λ id. StandsOverAll self.old (numbers parts.now) a_seq self.new id.0) }
        ensures added { Adds (joints (length parts.now)) self.old self.new result }
    {
        let start = self.nodes.len();
        match self.seq_halves(parts) {
            Ok(id) => Ok(id),
            Err(error) => {
                self.nodes.truncate(start);
                Err(error)
            }
        }
    }

    // The sequence of these parts; after a refusal, nodes that were added stand unused.
    fn seq_halves(&mut self, parts: &[NodeId]) -> Result<NodeId, AllocError>
        requires { All (λ n. n < length self.old) (numbers parts.now) }

        ensures document { IfOk result (λ id. StandsOverAll self.old (numbers parts.now) a_seq self.new id.0) }
        ensures in_graph { IfOk result (λ id. id.0 < length self.new) }
        ensures added_at_end { Extends self.old self.new }
        ensures few_more { length self.new ≤ length self.old + joints (length parts.now) }
    {
        match parts {
            [] => self.text(""),
            [part] => Ok(*part),
            _ => {
                let (first, rest) = parts.split_at(parts.len().div_ceil(2));
                let a = self.seq_halves(first)?;
                let b = self.seq_halves(rest)?;
                self.concat(a, b)
            }
        }
    }

    // One more node at the end, which is no text, so that it is seen the same over each store.
    fn put(&mut self, node: Stored) -> Result<NodeId, AllocError>
        requires no_text { HasNoText node }
        requires limits { NodeKeepsLimits (stored_node [] node) }
        requires parts { parts_end (stored_node [] node) ≤ length self.old }

        ensures told { IfOk result (λ id. IsNode self.new id.0 (stored_node [] node)) }
        ensures added { Adds 1 self.old self.new result }
    {
        let id = NodeId(self.nodes.len());
        self.nodes.push(node)?;
        Ok(id)
    }
}
