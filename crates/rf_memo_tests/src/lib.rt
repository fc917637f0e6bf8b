//! Tests of the memo.
#![tactic(auto)]

#[cfg(test)]
mod key_tests;
