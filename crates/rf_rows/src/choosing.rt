//! Whether rows have a choice.

ghost use Rattle.std.specs.Prelude.{◌≡◌, IsTrue};
ghost use Rattle.std.specs.List.{list_all};
ghost use Rattle.rf_rows.specs.Choiceless.{is_single};

use crate::cells::Cell;
use crate::laid::LaidRows;
use crate::layouts::Layouts;

impl<'r, 't> LaidRows<'r, 't> {
    ghost use Rattle.std.specs.Prelude.{ℕ};
    ghost use Rattle.rf_rows.specs.Choiceless.{IsChoiceless};
    ghost use Rattle.rf_rows.specs.Laid.{laid_cell};

    /// Whether no cell has a choice: each has one layout. It takes no memory.
    pub fn is_choiceless(&self) -> bool
        ensures { IsTrue result → (k : ℕ) → IsChoiceless (laid_cell self.now k) }
    {
        are_single(self.rows.cells.as_slice())
    }
}

// Whether each of the cells has one layout.
fn are_single(cells: &[Cell]) -> bool
    ensures { result ≡ list_all (λ cell. is_single cell.layouts) cells.now }
{
    cells.iter().all(|cell| is_single(cell.layouts))
}

// Whether it is one layout.
fn is_single(layouts: Layouts) -> bool
    ensures { result ≡ is_single layouts.entry }
{
    match layouts {
        Layouts::Bare | Layouts::One(_) => true,
        Layouts::Two(_, _) | Layouts::Three(_, _, _) | Layouts::Unmade(_) => false,
    }
}
