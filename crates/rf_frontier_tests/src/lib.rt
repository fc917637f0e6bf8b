//! Tests of frontiers: what each call answers in ample memory, at each factory.
#![tactic(auto)]

#[cfg(test)]
mod call_tests;
#[cfg(test)]
mod merging_tests;
#[cfg(test)]
mod row_tests;
#[cfg(test)]
mod showing;
