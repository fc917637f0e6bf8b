//! Top-level slots, and what stands at nodes, on one line: the text and the choices, straight from the tree, without
//! the document. The text is a slice of the source.
#![tactic(auto)]

mod faults;
mod gaps;
mod items;
mod nodes;
mod pages;
mod strips;
mod turns;
mod writer;
mod writing;

pub use nodes::first_item;
pub use pages::Page;
pub use writing::{write_line, write_placed};
