//! Where things stand, as what goes down a tree hands it on.

use rf_base_file::Role;
use rf_style::Style;
use rf_tree::{At, Tree};

/// The numbers of a list's opener and of its closer.
#[derive(Clone, Copy, Debug)]
pub struct Brackets {
    /// The opener's number.
    pub opener: usize,
    /// The closer's number.
    pub closer: usize,
}

/// Where a node of the tree stands.
#[derive(Clone, Copy)]
pub struct Place {
    /// The number of the node that it stands in: its own is smaller.
    pub before: usize,
    /// Whether it is quoted.
    pub quoted: bool,
    /// The role that a list has there.
    pub role: Role,
    /// A column behind which it begins in none of its layouts, where that is known; otherwise the largest number.
    pub right: u32,
    /// How many columns of closers may stand behind it on its last line, at most.
    pub behind: u32,
}

/// A node of a tree and where it stands, to be laid out in a style.
#[derive(Clone, Copy)]
pub struct Placed<'t> {
    /// The tree.
    pub tree: &'t Tree<'t>,
    /// The style.
    pub style: &'t Style,
    /// The node.
    pub at: At,
    /// Whether it is quoted.
    pub quoted: bool,
    /// The role that a list has there.
    pub role: Role,
}
