//! Tests of the resolver, in ample memory: small documents against plain recursion and against the list of all their
//! resolutions, and great ones.
#![tactic(auto)]

#[cfg(test)]
mod comparing;
#[cfg(test)]
mod counting;
#[cfg(test)]
mod generating;
#[cfg(test)]
mod great_tests;
#[cfg(test)]
mod listing;
#[cfg(test)]
mod plans;
#[cfg(test)]
mod reading;
#[cfg(test)]
mod resolving;
#[cfg(test)]
mod showing;
#[cfg(test)]
mod table_tests;
#[cfg(test)]
mod worked_tests;
