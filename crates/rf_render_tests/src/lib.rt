//! Tests of layouts and of what they cost, in ample memory.
#![tactic(auto)]

#[cfg(test)]
mod deep_tests;
#[cfg(test)]
mod document_tests;
#[cfg(test)]
mod layout_tests;
#[cfg(test)]
mod measure_tests;
#[cfg(test)]
mod showing;
