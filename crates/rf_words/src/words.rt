//! What words say.

use rf_base_style::Columns;
use rf_cost::CostKind;
use std::alloc::AllocError;

/// What the program writes.
#[derive(Clone, Copy, Debug, PartialEq, Eq)]
pub enum Mode {
    /// The text.
    Plain,
    /// Whether the text equals the source, and else the first line that differs: `--check`.
    Check,
    /// The cost of the layout, whether it is within the computation width, and the choices that pick it: `--choices`.
    Choices,
    /// Numbers of the source and of the text, the cost, and whether it is within the computation width: `--summary`.
    Summary,
}

/// What the words say. What they don't say is left to the style, or to the default.
#[derive(Drop)]
pub struct Words {
    /// `--width N`: the page width, in columns, from 1 to 400.
    pub width: Option<u32>,
    /// `--limit N`: the computation width, in columns, from 1 to 400.
    pub limit: Option<u32>,
    /// `--max-blank-lines N`: how many blank lines in a row are kept, from 0 to 9.
    pub blanks: Option<u32>,
    /// `--style FILE`: the name of the style file.
    pub style: Option<String>,
    /// `--cost NAME`: which factory counts the costs.
    pub cost: Option<CostKind>,
    /// `--columns NAME`: how the columns of texts are counted.
    pub columns: Option<Columns>,
    /// `--jobs N`: in how many jobs a file may be laid out, from 1 to 64; 1 where the words don't say it.
    pub jobs: u32,
    /// What is written.
    pub mode: Mode,
    /// `--sample N`: the number of forms of the sample that is taken as the source, from 1 to 10,000.
    pub sample: Option<u32>,
}

/// Why words say nothing.
#[derive(Clone, Copy, Debug, PartialEq, Eq)]
pub enum WordsError {
    /// The program doesn't take them.
    Refused,
    /// Memory ran out.
    Memory(AllocError),
}

impl From<AllocError> for WordsError {
    ghost use Rattle.std.specs.Prelude.{◌≡◌};
    ghost use Rattle.rf_words.specs.declared.words.WordsError.TheVariants.{Memory};

    ghost from_gives = { λ error fault. fault ≡ Memory error };

    fn from(error: AllocError) -> WordsError {
        WordsError::Memory(error)
    }
}
