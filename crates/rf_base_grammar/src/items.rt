//! Items as the program keeps them.

use crate::kinds::Kind;

/// An item of a source: where it stands, and what the gap before it holds.
#[derive(Clone, Copy, Debug, PartialEq, Eq)]
pub struct Item {
    /// What it is.
    pub kind: Kind,
    /// Whether it is a line comment that begins its line. It stands beside the kind, so that an item takes 16 bytes.
    pub own_line: bool,
    /// The offset of its first byte in the source.
    pub start: u32,
    /// The offset just past its last byte.
    pub end: u32,
    /// How many blank lines stand before it: the line ends of the gap less 1, and 0 where it has none.
    pub blanks: u32,
}
