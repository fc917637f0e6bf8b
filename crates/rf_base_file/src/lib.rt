//! The document of a source's tree in a style, and what it means that its layout reads back.
//!
//! The definitions stand in `specs/`, and the laws about them are the contracts of the functions of `laws`. The types
//! here are those that definitions and code share.
#![tactic(auto)]

pub mod laws;
mod shapes;

pub use shapes::{Role, Roles, Shape, Way};
