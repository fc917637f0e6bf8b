//! Limits that definitions and programs share.

/// The most characters that a layout may have, and the most texts, line breaks and choices that its resolution may
/// have.
pub const LAYOUT_LIMIT: u32 = 67_108_864;
