//! The numbers of nodes, and what a node is told as.

/// The number of a node in the graph that made it.
#[derive(Clone, Copy, Debug, PartialEq, Eq)]
pub struct NodeId(pub usize);

/// A node: its kind and its parts, whose numbers are smaller than its own.
#[derive(Clone, Copy, Debug, PartialEq, Eq)]
pub enum DocNode<'g> {
    /// These characters, which hold no line feed, and the columns that they take up.
    Text(&'g str, u32),
    /// A line break, or one space where flat.
    Newline,
    /// A line break, which has no layout where flat.
    Hard,
    /// The first part and then the second, which begins where the first ends.
    Concat(NodeId, NodeId),
    /// The part with this many more columns of indentation.
    Nest(u32, NodeId),
    /// The part with the column that it begins at as its indentation.
    Align(NodeId),
    /// The part with no indentation.
    Reset(NodeId),
    /// The part with each of its newlines flat.
    Flatten(NodeId),
    /// The first part or the second.
    Choice(NodeId, NodeId),
    /// The part for this added cost.
    Charge(u32, NodeId),
}
