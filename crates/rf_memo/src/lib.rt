//! The memo: which frontier was found for a node at a column and an indentation.
#![tactic(auto)]

mod memo;
mod page;

pub use memo::Memo;
