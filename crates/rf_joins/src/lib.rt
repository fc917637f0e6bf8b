//! Laws of a text behind another one: its items, its trees and its paragraphs are those of both together. And of a text
//! with another one behind it: its items stand there, and are refused as they are by themselves.
#![tactic(auto)]

mod items;
mod refusals;
mod trees;

pub use items::{first_item_stands, items_join, items_stand};
pub use refusals::{lex_refusals_join, tree_refusals_join, tree_refusals_stand};
pub use trees::{paragraphs_join, trees_join};
