//! The documents of rows in a graph: the pieces of each cell as nodes that its layouts share.
#![tactic(auto)]

mod adding;
mod layouts;
mod parts;
mod shared;
mod strips;

pub use adding::add_rows;
