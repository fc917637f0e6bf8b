//! The documents of files in a style, in a graph: each construct of a tree as the forms that its layouts may have.
#![tactic(auto)]

mod files;

pub use files::{file_doc, style_doc};
