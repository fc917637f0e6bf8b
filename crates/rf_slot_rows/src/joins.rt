//! Pieces that are taken together as one.

ghost use Rattle.std.specs.Prelude.{◌≡◌, ◌<◌, ◌≤◌, ◌^◌, List, [], ◌∷◌, length, OnOk};
ghost use Rattle.rf_base_document.specs.Document.{Doc, Align};
ghost use Rattle.rf_base_document.specs.Sequence.{seq};
ghost use Rattle.rf_base_file.specs.Rows.{Part, aligned_behind};
ghost use Rattle.rf_base_tree.specs.Slots.{Entry};
ghost use Rattle.rf_rows.specs.declared.rows.Rows.{Rows as a_stack};
ghost use Rattle.rf_rows.specs.declared.pieces.Fill.TheVariants as Fill;
ghost use Rattle.rf_rows.specs.Sizes.{Grows};
ghost use Rattle.rf_rows.specs.Puts.{Puts, IsHigh};
ghost use Rattle.rf_slot_rows.specs.Bodies.{marks_by};

use rf_rows::{Fill, Layout, Layouts, Marks, Row, Rows};
use std::alloc::AllocError;

/// Takes the pieces from this height on together, in a row: a piece alone stays as it is.
///
/// An `AllocError` comes for want of memory.
pub fn join(height: usize, rows: &mut Rows) -> Result<(), AllocError>
    requires { height ≤ length rows.old.stack.items }
    ensures put { OnOk result ((base : a_stack) (ds : List Doc) → IsHigh base height → Puts base rows.old ds
        → Puts base rows.new (seq ds ∷ [])) }
    ensures grown { OnOk result (Grows 28 rows.old rows.new) }
{
    match rows.height() - height {
        0 => rows.text("", 0),
        1 => Ok(()),
        count => rows.close(height, marks_of_all(count), Layouts::Bare),
    }
}

/// Takes the pieces from this height on together, aligned.
///
/// An `AllocError` comes for want of memory.
pub fn align(height: usize, rows: &mut Rows) -> Result<(), AllocError>
    requires { height ≤ length rows.old.stack.items }
    ensures put { OnOk result ((base : a_stack) (ds : List Doc) → IsHigh base height → Puts base rows.old ds
        → Puts base rows.new (Align (seq ds) ∷ [])) }
    ensures grown { OnOk result (Grows 28 rows.old rows.new) }
{
    let layout = Layout {
        row: Row::Dropped,
        flat: false,
        charge: 0,
    };
    rows.close(
        height,
        marks_of_all(rows.height() - height),
        Layouts::One(layout),
    )
}

/// Takes the pieces from this height on together, aligned where comments begin them.
///
/// An `AllocError` comes for want of memory.
pub fn join_behind(leads: usize, height: usize, rows: &mut Rows) -> Result<(), AllocError>
    requires { height ≤ length rows.old.stack.items }
    ensures put { OnOk result ((base : a_stack) (es : List (Entry Part)) (ds : List Doc) → length es ≡ leads
        → IsHigh base height → Puts base rows.old ds → Puts base rows.new (aligned_behind es (seq ds) ∷ [])) }
    ensures grown { OnOk result (Grows 28 rows.old rows.new) }
{
    if leads == 0 {
        join(height, rows)
    } else {
        align(height, rows)
    }
}

// The marks of so many pieces of which none is a slot of a list.
fn marks_of_all(count: usize) -> Marks
    requires { count < 2 ^ 32 }
    ensures { result ≡ marks_by count count count Fill.Newline }
{
    let all = count as u32;
    Marks {
        first: all,
        second: all,
        bodies: all,
        fill: Fill::Newline,
    }
}
