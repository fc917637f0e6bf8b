//! What rows are made of.

/// What stands in a gap that each layout fills by itself.
#[derive(Clone, Copy, Debug)]
pub enum Fill {
    /// One space.
    Space,
    /// A line break, or one space where flat.
    Newline,
    /// A line break, which has no layout where flat.
    Hard,
}

/// A piece of a row.
#[derive(Clone, Copy, Debug)]
pub enum Piece<'t> {
    /// So many columns, which these characters take up. They hold no line feed.
    Text(u32, &'t str),
    /// One space.
    Space,
    /// A line break, or one space where flat.
    Newline,
    /// A line break, which has no layout where flat.
    Hard,
    /// The same, without indentation.
    BareBreak,
    /// A gap, which each layout fills by itself.
    Gap,
    /// The cell of this number.
    Cell(u32),
}
