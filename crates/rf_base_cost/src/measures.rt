//! Measures of resolutions.

/// Where a resolution ends and what it costs, with the choices that give it. The widest field stands first, so that a
/// measure takes 32 bytes with a cost of 128 bits and a way.
#[derive(Clone, Copy, Debug, PartialEq, Eq)]
pub struct Measure<C, H> {
    /// What the layout costs.
    pub cost: C,
    /// The choices: a list of directions in definitions, the number of a way in programs.
    pub how: H,
    /// The column that the resolution's layout ends at.
    pub last: u32,
}
