//! The nodes of trees.

ghost use Rattle.std.specs.Prelude.{◌≡◌, ◌<◌, ◌≤◌, ◌+◌, [], ◌∷◌, ◌++◌, length, slice_get, Some, IfOk, OnOk, OnErr};
ghost use Rattle.std.specs.Option.{option_map};
ghost use Rattle.rf_tree.specs.Told.{told_node, part_of, IsStoredAs, IsNamed, StandsBehind};

use crate::stored::{Part, Stored, place};
use std::alloc::{AllocError, Global};
use std::marker::Model;

/// Names a node of a tree by its place.
#[derive(Clone, Copy, Debug, PartialEq, Eq)]
pub struct At(pub u32);

/// A node; an item is named by its number.
#[derive(Clone, Copy, Debug)]
pub enum Node<'n> {
    /// An item by itself: a datum or a dot.
    Leaf(usize),
    /// A prefix and its datum.
    Prefixed {
        /// The prefix's number.
        item: usize,
        /// The comments between it and its datum, in order.
        lead: &'n [At],
        /// The datum.
        inner: At,
    },
    /// A list: its opener, what stands in it, and its closer.
    List {
        /// The opener's number.
        opener: usize,
        /// The nodes of what stands in it, in order.
        entries: &'n [At],
        /// The closer's number.
        closer: usize,
    },
    /// A comment of one item.
    Comment(usize),
    /// A skip and its datum: all of it is a comment.
    DatumComment {
        /// The skip's number.
        item: usize,
        /// The comments between it and its datum, in order.
        lead: &'n [At],
        /// The datum.
        inner: At,
    },
}

/// Nodes by their places. Contracts see them as a list. A node takes 20 bytes, and 4 for each entry or comment that it
/// names.
#[derive(Debug, Drop)]
pub struct Nodes {
    stored: Vec<Stored>,
    // The leads and the entries of all of them.
    named: Vec<At>,
}

impl Model for Nodes {
    ghost use Rattle.std.specs.Prelude.{List, length};
    ghost use Rattle.std.specs.List.{All};
    ghost use Rattle.rf_tree.specs.Told.{Node, stored_nodes, StandsIn};

    ghost Value = { List Node };

    ghost view = { λ nodes. stored_nodes nodes.named.items nodes.stored.items };

    ghost invariant = { λ nodes. All (StandsIn (length nodes.named.items)) nodes.stored.items };
}

impl Nodes {
    /// No nodes. It takes no memory.
    pub fn new(alloc: Global) -> Nodes
        ensures { result ≡ [] }
    {
        Nodes {
            stored: Vec::new(alloc),
            named: Vec::new(alloc),
        }
    }

    /// No nodes, with room for so many. An `AllocError` comes for want of memory.
    pub fn with_capacity(alloc: Global, count: usize) -> Result<Nodes, AllocError>
        ensures { IfOk result (λ nodes. nodes ≡ []) }
    {
        Ok(Nodes {
            stored: Vec::with_capacity(alloc, count)?,
            named: Vec::new(alloc),
        })
    }

    /// Takes all nodes away, and keeps the room that they took for others.
    pub fn clear(&mut self)
        ensures { self.new ≡ [] }
    {
        self.stored.clear();
        self.named.clear();
    }

    /// How many they are.
    pub fn len(&self) -> usize
        ensures { result ≡ length self.now }
    {
        self.stored.len()
    }

    /// The node at this place, which is there.
    #[inline(always)]
    pub fn node(&self, at: At) -> Node<'_>
        requires { at.0 < length self.now }
        ensures { slice_get self.now at.0 ≡ Some (told_node result) }
    {
        match self.stored[at.0 as usize] {
            Stored::Leaf(item) => Node::Leaf(item as usize),
            Stored::Prefixed(item, lead, inner) => Node::Prefixed {
                item: item as usize,
                lead: part_of(&self.named, lead),
                inner,
            },
            Stored::List(opener, entries, closer) => Node::List {
                opener: opener as usize,
                entries: part_of(&self.named, entries),
                closer: closer as usize,
            },
            Stored::Comment(item) => Node::Comment(item as usize),
            Stored::DatumComment(item, lead, inner) => Node::DatumComment {
                item: item as usize,
                lead: part_of(&self.named, lead),
                inner,
            },
        }
    }

    /// The node at this place, if one is there.
    #[inline(always)]
    pub fn get(&self, at: At) -> Option<Node<'_>>
        ensures { slice_get self.now at.0 ≡ option_map told_node result }
    {
        if at.0 as usize >= self.len() {
            return None;
        }
        Some(self.node(at))
    }

    /// Puts a node behind the others, and gives its place. An `AllocError` comes for want of memory, or where there are
    /// as many as are told apart, and leaves the nodes as they were.
    #[inline(always)]
    pub fn push(&mut self, node: Node<'_>) -> Result<At, AllocError>
        ensures place { IfOk result (λ at. at.0 ≡ length self.old) }
        ensures pushed { OnOk result (self.new ≡ self.old ++ told_node node.entry ∷ []) }
        ensures same { OnErr result (self.new ≡ self.old) }
    {
        let at = place(self.stored.len())?;
        let stored = stored(&mut self.named, node)?;
        self.stored.push(stored)?;
        Ok(At(at))
    }
}

// The node as it is stored, where these are the nodes that the nodes before it name: those that it names are put behind
// them.
#[inline(always)]
fn stored(named: &mut Vec<At>, node: Node<'_>) -> Result<Stored, AllocError>
    ensures stored { IfOk result (IsStoredAs (told_node node.entry) named.new.items) }
    ensures behind { StandsBehind named.old.items named.new.items }
{
    match node {
        Node::Leaf(item) => Ok(Stored::Leaf(place(item)?)),
        Node::Prefixed { item, lead, inner } => {
            let item = place(item)?;
            let lead = name(named, lead)?;
            Ok(Stored::Prefixed(item, lead, inner))
        }
        Node::List {
            opener,
            entries,
            closer,
        } => {
            let opener = place(opener)?;
            let closer = place(closer)?;
            let entries = name(named, entries)?;
            Ok(Stored::List(opener, entries, closer))
        }
        Node::Comment(item) => Ok(Stored::Comment(place(item)?)),
        Node::DatumComment { item, lead, inner } => {
            let item = place(item)?;
            let lead = name(named, lead)?;
            Ok(Stored::DatumComment(item, lead, inner))
        }
    }
}

// Puts nodes behind those that others name, and tells which of all these they are.
#[inline(always)]
fn name(named: &mut Vec<At>, nodes: &[At]) -> Result<Part, AllocError>
    ensures part { IfOk result (IsNamed nodes.now named.new.items) }
    ensures behind { StandsBehind named.old.items named.new.items }
{
    let part = Part {
        from: place(named.len())?,
        count: place(nodes.len())?,
    };
    named.extend_from_slice(nodes)?;
    Ok(part)
}

// These nodes, of those that nodes name.
#[inline(always)]
fn part_of(named: &[At], part: Part) -> &[At]
    requires { part.from + part.count ≤ length named.now }
    ensures { result.now ≡ part_of named.now part }
{
    let from = part.from as usize;
    &named[from..from + part.count as usize]
}
