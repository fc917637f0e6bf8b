//! Tests of what is told of a graph's nodes, in ample memory.
#![tactic(auto)]

#[cfg(test)]
mod outline_tests;
