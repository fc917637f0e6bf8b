//! Texts: which bytes are text, how many characters and columns a text has, whether it stands on one line, in which
//! line two texts differ first, which text is which word, and which characters are delimiters.
//!
//! No call here takes memory.
#![tactic(auto)]

mod characters;
mod decoding;
mod lines;
mod places;
mod words;

pub use characters::{chars, is_delimiter, length};
pub use decoding::{NotUtf8, as_text};
pub use lines::{first_difference, line_length, one_line};
pub use places::first;
pub use rf_base_style::Columns;
pub use words::is_word;
