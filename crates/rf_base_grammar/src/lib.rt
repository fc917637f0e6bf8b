//! The grammar of sources: what items are, and where none can be read.
//!
//! The types here are those that definitions and code share. The definitions stand in `specs/`, and the laws
//! about them are the contracts of the functions of `laws`.
#![tactic(auto)]

mod items;
mod kinds;
pub mod laws;
mod refusals;

pub use items::Item;
pub use kinds::{Bracket, Kind};
pub use refusals::LexKind;

/// How many bytes a source may hold.
pub const SOURCE_LIMIT: usize = 4_194_304;
