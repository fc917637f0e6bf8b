//! Tests of the cost factories: what each call answers.
#![tactic(auto)]

#[cfg(test)]
mod factory_tests;
