//! What is known of a document.

use rf_frontier::HowId;

/// What is known of a document on one line, flat or not. Lengths are counted in columns.
#[derive(Clone, Copy, Debug, PartialEq, Eq)]
pub enum Line {
    /// No resolution has a layout.
    Nothing,
    /// Each resolution that has a layout has a break or a charge.
    Never,
    /// On one line the document takes up so many columns, by the choices of this way; other resolutions have a break or
    /// a charge, or are as long.
    Long(u32, HowId),
    /// The same, and no resolution has a break or a charge.
    Text(u32, HowId),
    /// Not known.
    Unsure,
}

/// What is known of a document, flat or not.
#[derive(Clone, Copy, Debug, PartialEq, Eq)]
pub struct Facts {
    /// The document on one line.
    pub line: Line,
    /// Each resolution begins with a break whose indentation doesn't depend on the column. Where it isn't set, that
    /// isn't known.
    pub begins: bool,
}

/// What is known of a document.
#[derive(Clone, Copy, Debug, PartialEq, Eq)]
pub struct Known {
    /// Where it isn't flat.
    pub loose: Facts,
    /// Where it is flat.
    pub flat: Facts,
}
