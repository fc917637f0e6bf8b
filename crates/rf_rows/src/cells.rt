//! Cells: pieces in a row, with the layouts that they have.

ghost use Rattle.std.specs.Prelude.{◌≡◌};
ghost use Rattle.rf_rows.specs.Layouts.{strip_of};

use crate::layouts::{Layouts, Marks, Row, Strip};

/// Pieces in a row, as one piece of another row.
#[derive(Clone, Copy)]
pub struct Cell<'t> {
    /// Its first piece, by its number.
    pub from: u32,
    /// How many pieces it has.
    pub count: u32,
    /// Where its slots stand.
    pub marks: Marks,
    /// How it is laid out.
    pub layouts: Layouts<'t>,
}

impl<'t> Cell<'t> {
    /// What a row is made of.
    pub fn strip(&self, row: Row) -> Strip
        ensures { result ≡ strip_of self.now.marks self.now.count row }
    {
        self.marks.strip(self.count as usize, row)
    }
}
