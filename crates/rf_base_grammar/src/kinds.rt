//! What items are.

/// The shape of a bracket. An opener and a closer pair by it.
#[derive(Clone, Copy, Debug, PartialEq, Eq)]
pub enum Bracket {
    /// `(` and `)`.
    Round,
    /// `[` and `]`.
    Square,
    /// `{` and `}`.
    Curly,
}

/// What an item is (the Racket Reference, "The Reader").
#[derive(Clone, Copy, Debug, PartialEq, Eq)]
pub enum Kind {
    /// Begins a list.
    Opener(Bracket),
    /// Ends a list.
    Closer(Bracket),
    /// Stands before a datum and is part of it, as `'`.
    Prefix,
    /// Makes the datum behind it a comment: `#;`.
    Skip,
    /// A dot by itself.
    Dot,
    /// A symbol, a number, a keyword, a character or the like.
    Atom,
    /// A string, a byte string or a regular expression.
    Str,
    /// A here string.
    Here,
    /// A block comment.
    Block,
    /// A line comment.
    Line,
    /// The language line.
    Lang,
}
