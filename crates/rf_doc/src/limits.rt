//! Limits of graphs.

/// How many bytes the text of a node may have.
pub const TEXT_LIMIT: usize = 4_194_304;
