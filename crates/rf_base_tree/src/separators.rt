//! What stands between neighbours of a layout.

/// What a layout wants between two neighbours.
#[derive(Clone, Copy, Debug, PartialEq, Eq)]
pub enum Want {
    /// Nothing.
    Nothing,
    /// One space.
    Space,
    /// A line break, or one space where flat.
    Line,
    /// A line break.
    Must,
}

/// What stands between two neighbours.
#[derive(Clone, Copy, Debug, PartialEq, Eq)]
pub enum Separator {
    /// Nothing.
    Empty,
    /// One space.
    Space,
    /// A line break, or one space where flat.
    Line,
    /// This many blank lines, and a line break that has no flat layout.
    Hard(u32),
}
