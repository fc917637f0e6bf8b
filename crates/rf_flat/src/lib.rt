//! Cores: documents without `Flatten` and `Hard`, as graphs.
#![tactic(auto)]

mod building;
mod cores;
mod fitting;
mod keeping;
mod reaching;
mod simple_nodes;
mod simplifying;

pub use cores::{Core, CoreNode};
pub use fitting::{fits, side};
pub use rf_base_document::Dir;
pub use simplifying::simplify;
