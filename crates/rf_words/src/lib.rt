//! The words of the command line.
#![tactic(auto)]

mod command;
mod reading;
mod words;

ghost use Rattle.rf_words.specs.Laws.{WordsKeepRanges};

pub use reading::read_words;
pub use rf_base_style::Columns;
pub use rf_cost::CostKind;
pub use words::{Mode, Words, WordsError};

/// The line that says which words the program takes.
pub const USAGE: &str =
    "usage: rf_fmt [--width N] [--limit N] [--max-blank-lines N] [--style FILE] [--cost squares|linear|lines] \
    [--columns characters|display] [--jobs N] [--check | --choices | --summary] [--sample N]";

/// The numbers that words say are in their ranges.
pub fn words_keep_ranges()
    ensures { WordsKeepRanges }
{}
