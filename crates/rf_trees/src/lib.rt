//! Trees that tests read from sources.
#![tactic(auto)]

mod reading;

pub use reading::tree_of;
