//! Tests of samples, in ample memory.
#![tactic(auto)]

#[cfg(test)]
mod samples;
