//! What is known of the layouts of a cell, from what is known of its pieces.

ghost use Rattle.std.specs.Prelude.{◌≡◌, ◌≤◌, ◌<◌, ℕ, true, false, List, length, Some, slice_get, IfOk};
ghost use Rattle.rf_base_document.specs.Document.{Doc};
ghost use Rattle.rf_frontier.specs.Ways.{choices_of, KeepsWays};
ghost use Rattle.rf_outline.specs.Known.{LineHolds, KnownHolds};
ghost use Rattle.rf_frontier.specs.declared.hows.How.{How};
ghost use Rattle.rf_rows.specs.declared.pieces.Piece.{Piece as a_piece};
ghost use Rattle.rf_rows.specs.declared.cells.Cell.{Cell as a_cell};
ghost use Rattle.rf_rows.specs.Layouts.{row_doc, unpaid_doc, layout_doc};
ghost use Rattle.rf_rows.specs.Cells.{CellStands};
ghost use Rattle.rf_rows.specs.Nodes.{row_of};
ghost use Rattle.rf_rows.specs.Laid.{laid_cell};
ghost use Rattle.rf_rows.specs.Unmade.{IsUnmade, list_doc};
ghost use Rattle.rf_rows.specs.Knowing.{ArePiecesKnown, spaced, mixed, chain, EndsGaps};

use crate::cells::Cell;
use crate::known::KnownPieces;
use crate::laid::LaidRows;
use crate::layouts::{Layout, Layouts, Row};
use crate::pieces::Fill;
use crate::unmade::Unmade;
use rf_base_document::Dir;
use rf_frontier::{Before, HowId, Hows};
use rf_outline::kinds::{aligned, charged, choice, flattened};
use rf_outline::{Facts, Known, Line};
use std::alloc::AllocError;

// What is known of cell `k`.
pub fn cell_known(
    laid: &LaidRows,
    k: usize,
    cell: &Cell,
    pieces: KnownPieces,
    hows: &mut Hows,
) -> Result<Known, AllocError>
    requires some { 0 < length hows.old }
    requires cell { slice_get laid.now.rows.now.cells.items k ≡ Some cell.now }
    requires pieces { ArePiecesKnown hows.old laid.now.rows.now.pieces.items laid.now.rows.now.cells.items cell.now
        pieces }
    ensures known { IfOk result (λ known. KnownHolds hows.new (laid_cell laid.now k) known) }
    ensures older { KeepsWays hows.old hows.new }
{
    match cell.layouts {
        Layouts::Bare => Ok(row_known(cell, Row::Dropped, pieces)),
        Layouts::One(a) => Ok(layout_known(cell, a, pieces)),
        Layouts::Two(a, b) => {
            let first = layout_known(cell, a, pieces);
            let second = layout_known(cell, b, pieces);
            choice(first, second, hows)
        }
        Layouts::Three(a, b, c) => {
            let first = layout_known(cell, a, pieces);
            let second = layout_known(cell, b, pieces);
            let third = layout_known(cell, c, pieces);
            let others = choice(second, third, hows)?;
            choice(first, others, hows)
        }
        Layouts::Unmade(unmade) => unmade_known(laid, &unmade, hows),
    }
}

// What is known of a list that isn't made: its line, by the choices that are told.
fn unmade_known(laid: &LaidRows, unmade: &Unmade, hows: &mut Hows) -> Result<Known, AllocError>
    requires some { 0 < length hows.old }
    requires line { IsUnmade laid.now.rows.now.turns.items unmade.now }
    ensures known { IfOk result (λ known. KnownHolds hows.new (list_doc unmade.now.line) known) }
    ensures older { KeepsWays hows.old hows.new }
{
    let loose = way_of(laid.turns(unmade, false), hows)?;
    let flat = way_of(laid.turns(unmade, true), hows)?;
    let columns = unmade.line.columns;
    Ok(Known {
        loose: Facts {
            line: Line::Long(columns, loose),
            begins: false,
        },
        flat: Facts {
            line: Line::Text(columns, flat),
            begins: false,
        },
    })
}

// A way of these choices.
fn way_of(turns: &[Dir], hows: &mut Hows) -> Result<HowId, AllocError>
    requires { 0 < length hows.old }
    ensures in_ways { IfOk result (λ way. way.0 < length hows.new) }
    ensures choices { IfOk result (λ way. choices_of hows.new way.0 ≡ turns.now) }
    ensures older { KeepsWays hows.old hows.new }
{
    let mut way = hows.first();
    let mut at = turns.len();
    while at > 0 {
        at -= 1;
        let turn = turns[at];
        way = hows.behind(Before::Choice(turn), way)?;
    }
    Ok(way)
}

// What is known of a layout.
fn layout_known(cell: &Cell, layout: Layout, pieces: KnownPieces) -> Known
    ensures { (ways : List How) (ps : List a_piece) (cs : List a_cell) (k : ℕ) → CellStands ps k cell.now
        → ArePiecesKnown ways ps cs cell.now pieces
        → KnownHolds ways (layout_doc cell.now.marks cell.now.count (row_of ps cs cell.now) layout) result }
{
    let unpaid = unpaid_known(cell, layout, pieces);
    if layout.charge > 0 {
        charged(layout.charge, unpaid)
    } else {
        unpaid
    }
}

// The same before it is charged.
fn unpaid_known(cell: &Cell, layout: Layout, pieces: KnownPieces) -> Known
    ensures { (ways : List How) (ps : List a_piece) (cs : List a_cell) (k : ℕ) → CellStands ps k cell.now
        → ArePiecesKnown ways ps cs cell.now pieces
        → KnownHolds ways (unpaid_doc cell.now.marks cell.now.count (row_of ps cs cell.now) layout) result }
{
    let row = aligned(row_known(cell, layout.row, pieces));
    if layout.flat { flattened(row) } else { row }
}

// What is known of a row.
fn row_known(cell: &Cell, row: Row, pieces: KnownPieces) -> Known
    ensures { (ways : List How) (ps : List a_piece) (cs : List a_cell) (k : ℕ) → CellStands ps k cell.now
        → ArePiecesKnown ways ps cs cell.now pieces
        → KnownHolds ways (row_doc cell.now.marks cell.now.count (row_of ps cs cell.now) row) result }
{
    let second = cell.marks.second as usize;
    let bodies = cell.marks.bodies as usize;
    let fill = cell.marks.fill;
    match row {
        Row::Dropped => mixed_known(pieces, 0, 0, Fill::Newline),
        Row::Hanging => mixed_known(pieces, second, second, Fill::Newline),
        Row::InLine => mixed_known(pieces, bodies, bodies, fill),
        Row::InColumn => mixed_known(pieces, second, bodies, fill),
        Row::Hung | Row::Lines | Row::Columns | Row::Column => nothing_known(),
    }
}

// What is known of the pieces with a space in each gap among the first, a newline in each one from `second` on, and
// this in each one from `bodies` on.
fn mixed_known(pieces: KnownPieces, second: usize, bodies: usize, fill: Fill) -> Known
    ensures loose { (ways : List How) (f : ℕ → Doc) (qs : List a_piece) → second ≤ bodies
        → LineHolds ways (chain (spaced f qs)) false pieces.loose → EndsGaps qs pieces.gaps
        → LineHolds ways (chain (mixed f qs second bodies fill)) false result.loose.line }
    ensures flat { (ways : List How) (f : ℕ → Doc) (qs : List a_piece) → second ≤ bodies
        → LineHolds ways (chain (spaced f qs)) true pieces.flat → EndsGaps qs pieces.gaps
        → LineHolds ways (chain (mixed f qs second bodies fill)) true result.flat.line }
    ensures begins { (result.loose.begins ≡ false) × (result.flat.begins ≡ false) }
{
    Known {
        loose: Facts {
            line: loose_line(pieces, second, bodies, fill),
            begins: false,
        },
        flat: Facts {
            line: flat_line(pieces, bodies, fill),
            begins: false,
        },
    }
}

// They are never on one line where a gap among them is a break.
fn loose_line(pieces: KnownPieces, second: usize, bodies: usize, fill: Fill) -> Line
    ensures { (ways : List How) (f : ℕ → Doc) (qs : List a_piece) → second ≤ bodies
        → LineHolds ways (chain (spaced f qs)) false pieces.loose → EndsGaps qs pieces.gaps
        → LineHolds ways (chain (mixed f qs second bodies fill)) false result }
{
    if pieces.gaps <= second {
        pieces.loose
    } else if pieces.gaps <= bodies {
        Line::Never
    } else {
        match fill {
            Fill::Space => Line::Unsure,
            Fill::Newline | Fill::Hard => Line::Never,
        }
    }
}

// Where they are flat, they have no layout where a gap among them is a hard newline.
fn flat_line(pieces: KnownPieces, bodies: usize, fill: Fill) -> Line
    ensures { (ways : List How) (f : ℕ → Doc) (qs : List a_piece) (second : ℕ) → second ≤ bodies
        → LineHolds ways (chain (spaced f qs)) true pieces.flat → EndsGaps qs pieces.gaps
        → LineHolds ways (chain (mixed f qs second bodies fill)) true result }
{
    if pieces.gaps <= bodies {
        return pieces.flat;
    }
    match fill {
        Fill::Hard => Line::Nothing,
        Fill::Space | Fill::Newline => pieces.flat,
    }
}

// Nothing.
pub fn nothing_known() -> Known
    ensures { (ways : List How) (d : Doc) → KnownHolds ways d result }
{
    let nothing = Facts {
        line: Line::Unsure,
        begins: false,
    };
    Known {
        loose: nothing,
        flat: nothing,
    }
}
