//! What is known of cells, and of their pieces.

use rf_outline::{Known, Line};

/// What is known of a cell.
#[derive(Clone, Copy, Debug)]
pub struct KnownCell {
    /// What is known of its document.
    pub document: Known,
    /// Its pieces on one line where they are flat, with a space in each gap.
    pub line: Line,
}

/// What is known of the pieces of a cell.
#[derive(Clone, Copy, Debug)]
pub struct KnownPieces {
    /// All of them on one line, with a space in each gap.
    pub loose: Line,
    /// The same where they are flat.
    pub flat: Line,
    /// How many pieces there are up to the last gap and with it; none where there is no gap.
    pub gaps: usize,
}
