//! The best layout of a document, found by going on from measures: what is found of a first part is handed on to the
//! second, and cut short where the rest can't matter. Where no layout is within the computation width it is found part
//! by part.
#![tactic(auto)]

mod after;
mod at_once;
mod behind;
mod faults;
mod leaves;
mod parting;
mod rows;
mod searching;
mod sought;
mod taking;

pub use searching::{Best, Workspace, search, search_rows};
