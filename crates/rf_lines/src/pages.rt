//! Pages: what is written on one line.
//!
//! A function's line `tactic` names the lemma that its proof uses.

ghost use Rattle.std.specs.Prelude.{◌≡◌, ◌≤◌, [], IsTrue};
ghost use Rattle.std.specs.Str.{chars};
ghost use Rattle.rf_base_lines.specs.Spelled.{spelled_nothing};
ghost use Rattle.rf_lines.specs.Written.{lined, with_text};

use crate::strips::Strip;
use rf_base_document::Dir;
use std::alloc::Global;
use std::marker::Model;

/// A slice of a source, which is all that is written on one line, the choices that give it, those that give it where
/// all is flat, how many columns it takes up, and how many texts it is put together from. Contracts see it as what is
/// written of a document on one line, and the choices where all is flat.
#[derive(Drop)]
pub struct Page<'t> {
    text: &'t str,
    pub(crate) strip: Strip,
}

impl<'t> Model for Page<'t> {
    ghost use Rattle.std.specs.Str.{chars};
    ghost use Rattle.rf_base_lines.specs.Spelled.{spelled};
    ghost use Rattle.rf_lines.specs.Written.{Lined, lined};

    ghost Value = { Lined };

    ghost view = { λ p. lined (spelled p.strip.len p.strip.how (chars p.text.now) p.strip.words) p.strip.flat_how };
}

impl<'t> Page<'t> {
    /// An empty page. This takes no memory.
    #[tactic(auto, using(crate::proofs::Texts::no_chars))]
    pub fn new(alloc: Global) -> Page<'t>
        ensures { result ≡ lined spelled_nothing [] }
    {
        Page {
            text: "",
            strip: Strip::new(alloc),
        }
    }

    // Puts these characters on the page in place of its own. Whether it has at most `most` columns.
    pub(crate) fn show(&mut self, text: &'t str, most: u32) -> bool
        ensures shown { self.new ≡ with_text (chars text.now) self.old }
        ensures short { IsTrue result → self.new.line.len ≤ most }
    {
        self.text = text;
        self.strip.columns() <= most
    }

    /// The characters: a slice of the source.
    pub fn text(&self) -> &'t str
        ensures { chars result.now ≡ self.now.line.text }
    {
        self.text
    }

    /// The choices that give them, in order.
    pub fn choices(&self) -> &[Dir]
        ensures { result.now ≡ self.now.line.how }
    {
        self.strip.choices()
    }

    /// The choices that give them where all is flat, in order.
    pub fn flat_choices(&self) -> &[Dir]
        ensures { result.now ≡ self.now.flat_how }
    {
        self.strip.flat_choices()
    }

    /// How many columns they take up.
    pub fn columns(&self) -> u32
        ensures { result ≡ self.now.line.len }
    {
        self.strip.columns()
    }

    /// How many texts they are put together from.
    pub fn words(&self) -> u32
        ensures { result ≡ self.now.line.words }
    {
        self.strip.words()
    }
}
