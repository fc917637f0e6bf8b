//! Sources: which have a tree, and which are refused, why, and at which byte.
//!
//! The definitions stand in `specs/`, and the laws about them are the contracts of the functions of `laws`.
#![tactic(auto)]

pub mod laws;
mod refusals;

pub use refusals::SourceKind;
