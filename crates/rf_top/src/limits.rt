//! How long a style file may be.

/// How many bytes a style file may hold.
pub const STYLE_LIMIT: usize = 1_048_576;
