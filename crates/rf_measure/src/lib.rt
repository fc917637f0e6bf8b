//! What the layout of a resolution costs, and where it ends.
#![tactic(auto)]

mod measuring;
mod tallies;

pub use measuring::{Total, measure};
pub use rf_walk::LayoutError;
pub use tallies::Tally;
