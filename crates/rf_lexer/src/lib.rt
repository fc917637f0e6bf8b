//! The lexer: the items of a source.
#![tactic(auto)]

mod before;
mod blocks;
mod classes;
mod comments;
mod cursor;
mod faults;
mod front;
mod gaps;
mod here_strings;
mod language;
mod run_items;
mod runs;
mod scan;
mod strings;
mod words;

pub use before::Before;
pub use faults::LexError;
pub use gaps::behind_gap;
pub use rf_base_grammar::{Bracket, Item, Kind, LexKind};
pub use scan::{accept_behind, lex};
