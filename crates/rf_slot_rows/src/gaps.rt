//! Gaps between neighbours, as pieces.

ghost use Rattle.std.specs.Prelude.{◌+◌, ◌*◌, OnOk, length, replicate};
ghost use Rattle.rf_base_tree.specs.declared.separators.Separator.TheVariants as Separator;
ghost use Rattle.rf_base_file.specs.Rows.{bare_break, separator_docs, gap_docs};
ghost use Rattle.rf_tree.specs.Kept.{IsTree};
ghost use Rattle.rf_ways.specs.Holds.{OfFile};
ghost use Rattle.rf_ways.specs.Steps.{gap_behind};
ghost use Rattle.rf_rows.specs.Sizes.{Grows};
ghost use Rattle.rf_rows.specs.Puts.{Puts, Fills};
ghost use Rattle.rf_slot_rows.specs.Bodies.{second_gap};
ghost use Rattle.rf_slot_rows.specs.Growth.{FewBlanks};

use rf_rows::Rows;
use rf_tree::{Separator, Tree, Want};
use rf_ways::separator;
use std::alloc::AllocError;

/// Puts what stands between two items, where this is wanted between them, if both are there.
///
/// An `AllocError` comes for want of memory.
pub fn put_gap(
    tree: &Tree,
    before: usize,
    next: usize,
    want: Want,
    rows: &mut Rows,
) -> Result<(), AllocError>
    requires { IsTree tree.now }
    ensures put { OnOk result (OfFile tree.now (λ ts trees. Puts rows.old rows.new (gap_docs ts before next want))) }
    ensures grown { OnOk result (FewBlanks tree.now → Grows 40 rows.old rows.new) }
{
    put_separator(separator(tree, before, next, want), rows)
}

/// Puts the gap behind this item, if there is one.
///
/// An `AllocError` comes for want of memory.
pub fn put_gap_behind(
    tree: &Tree,
    last: Option<usize>,
    next: usize,
    want: Want,
    rows: &mut Rows,
) -> Result<(), AllocError>
    requires { IsTree tree.now }
    ensures put { OnOk result (OfFile tree.now (λ ts trees. Puts rows.old rows.new (gap_behind ts last next want))) }
    ensures grown { OnOk result (FewBlanks tree.now → Grows 40 rows.old rows.new) }
{
    match last {
        None => Ok(()),
        Some(before) => put_gap(tree, before, next, want, rows),
    }
}

/// Puts the gap between two slots of a list, which each layout fills by itself where a line may stand there.
///
/// An `AllocError` comes for want of memory.
pub fn put_free_gap(
    tree: &Tree,
    before: usize,
    next: usize,
    rows: &mut Rows,
) -> Result<(), AllocError>
    requires { IsTree tree.now }
    ensures put { OnOk result (OfFile tree.now (λ ts trees. Fills rows.old rows.new (second_gap ts before next))) }
    ensures grown { OnOk result (FewBlanks tree.now → Grows 40 rows.old rows.new) }
{
    match separator(tree, before, next, Want::Line) {
        Separator::Line => rows.gap(),
        Separator::Empty => Ok(()),
        Separator::Space => rows.space(),
        Separator::Hard(blanks) => put_hard(blanks, rows),
    }
}

// Puts the separator.
fn put_separator(separator: Separator, rows: &mut Rows) -> Result<(), AllocError>
    ensures put { OnOk result (Puts rows.old rows.new (separator_docs separator)) }
    ensures grown { OnOk result (Grows (4 * length (separator_docs separator)) rows.old rows.new) }
{
    match separator {
        Separator::Empty => Ok(()),
        Separator::Space => rows.space(),
        Separator::Line => rows.newline(),
        Separator::Hard(blanks) => put_hard(blanks, rows),
    }
}

// Puts this many blank lines and a line break.
fn put_hard(blanks: u32, rows: &mut Rows) -> Result<(), AllocError>
    ensures put { OnOk result (Puts rows.old rows.new (separator_docs (Separator.Hard blanks))) }
    ensures grown { OnOk result (Grows (4 * blanks + 4) rows.old rows.new) }
{
    put_blanks(blanks, rows)?;
    rows.hard()
}

// Puts this many blank lines.
fn put_blanks(blanks: u32, rows: &mut Rows) -> Result<(), AllocError>
    ensures put { OnOk result (Puts rows.old rows.new (replicate blanks bare_break)) }
    ensures grown { OnOk result (Grows (4 * blanks) rows.old rows.new) }
{
    for _i in 0..blanks {
        rows.bare_break()?;
    }
    Ok(())
}
