//! The counter of steps, which calls with a bound on their work take last. What a step is each such call
//! says: of a cost factory it is one comparison of two costs.
#![tactic(auto)]

mod steps;

pub use steps::Steps;
