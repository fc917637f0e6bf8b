//! Documents that are told node by node.

ghost use Rattle.std.specs.Prelude.{◌≡◌, IfOk, IfSome};
ghost use Rattle.rf_frontier.specs.Ways.{KeepsWays};
ghost use Rattle.rf_outline.specs.Documents.{View, IsOpened, IsRowOf, IsSplit, IsWayOf, LeafHolds};

use rf_frontier::{HowId, Hows};
use std::alloc::AllocError;

/// How long a document is on one line, flat or not, in columns.
#[derive(Clone, Copy, Debug, PartialEq, Eq)]
pub enum Span {
    /// No resolution has a layout.
    Nothing,
    /// Each resolution that has a layout has a break or a charge.
    Never,
    /// On one line the document takes up so many columns; other resolutions have a break or a charge, or are as long.
    Long(u32),
    /// The same, and no resolution has a break or a charge.
    Text(u32),
    /// Not known.
    Unsure,
}

/// The kind of a document and its parts.
#[derive(Clone, Copy, Debug, PartialEq, Eq)]
pub enum Part<'d, N: Copy> {
    /// These characters, which hold no line feed, and the columns that they take up.
    Text(&'d str, u32),
    /// A line break, or one space where flat.
    Newline,
    /// A line break, which has no layout where flat.
    Hard,
    /// The first part and then the second, which begins where the first ends.
    Concat(N, N),
    /// The part with this many more columns of indentation.
    Nest(u32, N),
    /// The part with the column that it begins at as its indentation.
    Align(N),
    /// The part with no indentation.
    Reset(N),
    /// The part with each of its newlines flat.
    Flatten(N),
    /// The first part or the second.
    Choice(N, N),
    /// The part for this added cost.
    Charge(u32, N),
    /// What it is made of isn't told.
    Unmade,
}

/// A document without parts, as it is laid out.
#[derive(Clone, Copy, Debug, PartialEq, Eq)]
pub enum Leaf {
    /// A text of so many columns, or a newline that is one where it is flat.
    Text(u32),
    /// A line break.
    Break,
}

/// Documents whose nodes may be asked for one by one.
pub trait Documents {
    /// Names a node.
    type Node: Copy;

    // What each node stands for, the documents that it is one after another, what is told of it, and its number, if it
    // has one.
    ghost view: { Self → View Self.Node };

    /// The kind and the parts of the node. It takes no memory.
    fn open(&self, node: Self::Node) -> Part<'_, Self::Node>
        ensures { IsOpened (view self.now).document ((view self.now).document node) result };

    /// The first of the documents that the node is one after another, and a node of the others. Of a node that is told
    /// to be one document there is none. It takes no memory.
    fn split_first(&self, node: Self::Node) -> Option<(Self::Node, Self::Node)>
        ensures { IsSplit (view self.now) node result };

    /// The node, or in its place one of the same document that is told to be several. It takes no memory.
    fn several(&self, node: Self::Node) -> Self::Node
        ensures { (view self.now).document result ≡ (view self.now).document node };

    /// The row that the node is, aligned or nested, and the row's indentation, where the node begins at this column and
    /// has this indentation. Where none is told, nothing is said. It takes no memory.
    fn row(&self, node: Self::Node, column: u32, indentation: u32) -> Option<(Self::Node, u32)>
        ensures { IfSome result (IsRowOf (view self.now).document column indentation node) };

    /// How long the node, flat or not, is on one line. It takes no memory.
    fn span(&self, node: Self::Node, flat: bool) -> Span
        ensures { result ≡ ((view self.now).told node flat).span };

    /// Whether it is told that the node, flat or not, begins with a break. It takes no memory.
    fn begins(&self, node: Self::Node, flat: bool) -> bool
        ensures { result ≡ ((view self.now).told node flat).begins };

    /// The leaf that the node, flat or not, is told to be, if it is told to be one. It takes no memory.
    fn leaf(&self, node: Self::Node, flat: bool) -> Option<Leaf>
        ensures { LeafHolds ((view self.now).document node) flat result };

    /// A way of the choices by which the node, flat or not, is on one line, where that is told. Older ways stay what
    /// they were, also where it is refused. An `AllocError` comes for want of memory.
    fn way(&self, node: Self::Node, flat: bool, hows: &mut Hows) -> Result<HowId, AllocError>
        requires { (view self.now).rests_on hows.old }
        ensures way { IfOk result (λ way. IsWayOf hows.new ((view self.now).document node) flat
            ((view self.now).told node flat).span way) }
        ensures older { KeepsWays hows.old hows.new };

    /// The number of the node, if it has one: what is found of it at a column is kept by that. Nodes of one number
    /// stand for the same document, and no layout of that depends on the indentation. It takes no memory.
    fn number(&self, node: Self::Node) -> Option<usize>
        ensures { result ≡ (view self.now).number node };
}
