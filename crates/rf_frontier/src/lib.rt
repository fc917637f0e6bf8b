//! Frontiers: the measures of a document that are worth keeping, and the ways that give them.
#![tactic(auto)]

mod before;
mod choosing;
mod frontiers;
mod hows;
mod joined;
mod kept;
mod laws;
mod lists;
mod making;
mod marking;
mod merging;
mod pruning;
mod raising;
mod turns;
mod unfolding;
mod views;

pub use before::Before;
pub use choosing::either;
pub use frontiers::{Frontier, Measure};
pub use hows::{How, HowId, Hows};
pub use joined::Joined;
pub use kept::Kept;
pub use laws::{frontiers_go_on, pareto_goes_on, ways_go_on, ways_keep_themselves};
pub use marking::{at_most_one, leaf, leaf_measure, mark, shift};
pub use merging::{best_of_two, merge, merge_kept, merge_one, merge_ways};
pub use pruning::prune;
pub use raising::charge;
