//! Trees: how items stand in lists and behind prefixes, and which items make no tree.
//!
//! The definitions stand in `specs/`, and the laws about them are the contracts of the functions of `laws`.
#![tactic(auto)]

pub mod laws;
mod refusals;
mod separators;

pub use refusals::TreeKind;
pub use separators::{Separator, Want};

/// How many lists, prefixes and skips may be begun and not complete at one place.
pub const DEPTH_LIMIT: usize = 500;
