//! How much of a layout there is.

ghost use Rattle.std.specs.Prelude.{◌≡◌, ℕ, ◌+◌, ◌<◌, ◌≤◌, List, OnOk, IfErr, IsErrOf};
ghost use Rattle.rf_base_document.specs.Render.{Piece};

use crate::faults::LayoutError;
use crate::papers::Paper;
use rf_base_document::LAYOUT_LIMIT;
use rf_doc::char_count;

/// How much of a layout there is, and where it ends: a paper that keeps no text, of which others are made.
#[derive(Clone, Copy, Debug, PartialEq, Eq)]
pub struct Extent {
    pub(crate) characters: u32,
    pub(crate) weight: u32,
    pub(crate) column: u32,
}

impl Extent {
    ghost use Rattle.std.specs.Prelude.{[]};
    ghost use Rattle.rf_walk.specs.Extents.{Covers, HasRoom, Weighed};

    /// No piece, at column 0.
    pub fn none() -> Extent
        ensures { Covers result [] 0 }
    {
        Extent {
            characters: 0,
            weight: 0,
            column: 0,
        }
    }

    /// How many texts, line breaks and choices were counted.
    pub fn weight(&self) -> u32
        ensures { (pieces : List Piece) (weight : ℕ) → Covers self.now pieces weight → result ≡ weight }
    {
        self.weight
    }

    // Counts texts, line breaks and choices. It is too long where they are too many, and takes no memory.
    fn weigh(&mut self, count: u32) -> Result<(), LayoutError>
        requires { self.old.weight ≤ LAYOUT_LIMIT }
        ensures weighed { OnOk result (Weighed self.old count self.new) }
        ensures too_long { IsErrOf result LayoutError.TooLong → LAYOUT_LIMIT < self.old.weight + count }
        ensures only { IfErr result (λ fault. fault ≡ LayoutError.TooLong) }
    {
        if count > LAYOUT_LIMIT - self.weight {
            return Err(LayoutError::TooLong);
        }
        self.weight += count;
        Ok(())
    }

    // Counts characters. It is too long where they are too many, and takes no memory.
    fn make_room(&mut self, count: usize) -> Result<(), LayoutError>
        requires { self.old.characters ≤ LAYOUT_LIMIT }
        ensures room { OnOk result (HasRoom self.old count self.new) }
        ensures too_long { IsErrOf result LayoutError.TooLong → LAYOUT_LIMIT < self.old.characters + count }
        ensures only { IfErr result (λ fault. fault ≡ LayoutError.TooLong) }
    {
        if count > (LAYOUT_LIMIT - self.characters) as usize {
            return Err(LayoutError::TooLong);
        }
        self.characters += count as u32;
        Ok(())
    }
}

impl Paper for Extent {
    ghost use Rattle.rf_walk.specs.Extents.{Covers};
    ghost use Rattle.rf_walk.specs.Within.{covers_within};

    ghost holds = { λ _. Covers };

    ghost within = { λ _. covers_within };

    fn column(&self) -> u32 {
        self.column
    }

    fn line(&mut self, s: &str, len: u32, words: u32) -> Result<(), LayoutError> {
        let count = char_count(s);
        self.weigh(words)?;
        self.make_room(count)?;
        self.column += len;
        Ok(())
    }

    fn line_break(&mut self, indentation: u32) -> Result<(), LayoutError> {
        self.weigh(1)?;
        self.make_room(1 + indentation as usize)?;
        self.column = indentation;
        Ok(())
    }

    fn fee(&mut self, _k: u32) {}

    fn choice(&mut self) -> Result<(), LayoutError> {
        self.weigh(1)
    }
}
