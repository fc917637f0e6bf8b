//! Tests of cores, in ample memory.
#![tactic(auto)]

#[cfg(test)]
mod core_tests;
