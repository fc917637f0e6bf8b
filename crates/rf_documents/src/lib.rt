//! Documents that tests and benchmarks build: written down in words, or of many nodes below one another; how many
//! pieces documents have, the layouts that choices pick, and what is chosen of a core or searched in a graph; and
//! numbers that look like chance.
#![tactic(auto)]

mod building;
mod chains;
mod dice;
mod layouts;
mod pieces;
mod resolving;
mod rows;
mod searching;

pub use building::{checked, choices, document, letters, text, wide};
pub use chains::{doubled, left_chain, nests, right_chain};
pub use dice::Dice;
pub use layouts::layout_of;
pub use resolving::resolve_by;
pub use rows::SMALL_DOCUMENTS;
pub use searching::search_by;
