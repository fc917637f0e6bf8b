//! Large sources that are valid, each from a number: the same number gives the same source.
#![tactic(auto)]

mod forms;
mod sampling;

pub use sampling::sample;
