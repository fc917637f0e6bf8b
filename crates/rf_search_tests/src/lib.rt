//! Tests of the search, in ample memory: small documents against the resolver and against choices worked out by hand,
//! deep ones, and a factory that says nothing of texts.
#![tactic(auto)]

#[cfg(test)]
mod limit_tests;
#[cfg(test)]
mod searching;
#[cfg(test)]
mod silent;
#[cfg(test)]
mod table_tests;
#[cfg(test)]
mod worked_tests;
