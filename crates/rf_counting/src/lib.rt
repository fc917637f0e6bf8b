//! A cost factory that counts its comparisons as the program runs, for tests and benchmarks.
#![tactic(auto)]

mod counting;

pub use counting::Counting;
