//! Lists that aren't made of pieces.

use rf_ways::Placed;

/// A list that fits on one line, as it is written there.
#[derive(Clone, Copy)]
pub struct ListLine<'t> {
    /// The list and where it stands.
    pub placed: Placed<'t>,
    /// Its characters on one line.
    pub text: &'t str,
    /// How many columns they take up.
    pub columns: u32,
    /// How many texts they are.
    pub words: u32,
}

/// A list that isn't made of pieces. The choices of its line stand among those of all such lines: first those where it
/// isn't flat, and then those where it is.
#[derive(Clone, Copy)]
pub struct Unmade<'t> {
    /// Its line.
    pub line: ListLine<'t>,
    /// How many choices stand before its own.
    pub turns: u32,
    /// How many it has where it isn't flat.
    pub loose: u32,
    /// How many it has where it is flat.
    pub flat: u32,
}
