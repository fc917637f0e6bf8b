//! What is known of each cell, in one pass over the pieces.

ghost use Rattle.std.specs.Prelude.{◌≡◌, ◌<◌, ◌^◌, ℕ, List, length, Some, slice_get, IfOk, OnOk};
ghost use Rattle.rf_base_document.specs.Document.{Doc, Text as a_text, Concat as a_concat};
ghost use Rattle.rf_frontier.specs.Ways.{KeepsWays};
ghost use Rattle.rf_outline.specs.Known.{KnownHolds};
ghost use Rattle.rf_outline.specs.Parts.{LineOfPart};
ghost use Rattle.rf_frontier.specs.declared.hows.How.{How};
ghost use Rattle.rf_rows.specs.declared.pieces.Fill.TheVariants.{Space as a_space};
ghost use Rattle.rf_rows.specs.declared.pieces.Piece.{Piece as a_piece};
ghost use Rattle.rf_rows.specs.declared.cells.Cell.{Cell as a_cell};
ghost use Rattle.rf_rows.specs.Cells.{piece_doc, cell_at};
ghost use Rattle.rf_rows.specs.Laid.{laid_cell};
ghost use Rattle.rf_rows.specs.Knowing.{IsGathered, ArePiecesKnown, IsCellKnown, AreKnownCells, up_to_gap};

use crate::cells::Cell;
use crate::known::{KnownCell, KnownPieces};
use crate::known_layouts::{cell_known, nothing_known};
use crate::laid::LaidRows;
use crate::pieces::Piece;
use rf_frontier::Hows;
use rf_outline::kinds::{hard, newline};
use rf_outline::{Known, Line, concat_line};
use std::alloc::AllocError;

// Pieces on one line, with a space in each gap: what is known of the first ones, loose and flat, and how many columns
// the others take up, which are texts.
#[derive(Clone, Copy)]
struct Gathered {
    loose: Line,
    flat: Line,
    columns: u32,
}

/// Puts into `known`, in place of what it holds, what is known of each cell, in the order of the cells. The choices of
/// its lines are ways of `hows`, where older ways stay what they were, also where it is refused. An `AllocError` comes
/// for want of memory.
pub fn know_cells(
    laid: &LaidRows,
    hows: &mut Hows,
    known: &mut Vec<KnownCell>,
) -> Result<(), AllocError>
    requires { 0 < length hows.old }
    ensures known { OnOk result (AreKnownCells hows.new laid.now.rows.now.pieces.items laid.now.rows.now.cells.items
        known.new.items) }
    ensures older { KeepsWays hows.old hows.new }
{
    known.clear();
    let count = laid.rows.cells.len();
    known.reserve(count)?;
    for k in 0..count {
        let cell = know(laid, k, known.as_slice(), hows)?;
        known.push(cell)?;
    }
    Ok(())
}

// What is known of cell `k`, where that of the cells before it is given.
fn know(
    laid: &LaidRows,
    k: usize,
    list: &[KnownCell],
    hows: &mut Hows,
) -> Result<KnownCell, AllocError>
    requires some { 0 < length hows.old }
    requires known { AreKnownCells hows.old laid.now.rows.now.pieces.items laid.now.rows.now.cells.items list.now }
    requires within { k < length laid.now.rows.now.cells.items }
    ensures known { IfOk result (λ known. IsCellKnown hows.new laid.now.rows.now.pieces.items
        laid.now.rows.now.cells.items k known) }
    ensures older { KeepsWays hows.old hows.new }
{
    let cell = laid.cell(k);
    let pieces = know_pieces(laid, k, cell, list, hows)?;
    let document = cell_known(laid, k, cell, pieces, hows)?;
    Ok(KnownCell {
        document,
        line: pieces.flat,
    })
}

// What is known of the pieces of cell `k`, where that of the cells before it is given.
fn know_pieces(
    laid: &LaidRows,
    k: usize,
    cell: &Cell,
    list: &[KnownCell],
    hows: &mut Hows,
) -> Result<KnownPieces, AllocError>
    requires some { 0 < length hows.old }
    requires known { AreKnownCells hows.old laid.now.rows.now.pieces.items laid.now.rows.now.cells.items list.now }
    requires cell { slice_get laid.now.rows.now.cells.items k ≡ Some cell.now }
    ensures known { IfOk result (λ known. ArePiecesKnown hows.new laid.now.rows.now.pieces.items
        laid.now.rows.now.cells.items cell.now known) }
    ensures older { KeepsWays hows.old hows.new }
{
    let nothing = Line::Text(0, hows.first());
    let mut gathered = Gathered {
        loose: nothing,
        flat: nothing,
        columns: 0,
    };
    let mut gaps = 0;
    for (i, piece) in laid.pieces_of(k, cell).iter().enumerate() {
        gathered = with_piece(laid, gathered, *piece, list, hows)?;
        gaps = up_to_gap(*piece, i, gaps);
    }
    Ok(KnownPieces {
        loose: with_text(gathered.loose, gathered.columns),
        flat: with_text(gathered.flat, gathered.columns),
        gaps,
    })
}

// How many pieces there are up to the last gap, where this is the piece behind so many others, up to whose last gap
// there are so many.
#[inline(always)]
fn up_to_gap(piece: Piece, before: usize, gaps: usize) -> usize
    requires { before < 2 ^ 63 }
    ensures { result ≡ up_to_gap piece.entry before gaps }
{
    match piece {
        Piece::Gap => before + 1,
        _ => gaps,
    }
}

// What is known of pieces and of one more of the rows behind them. A text, as most pieces are, has no choice: it only
// makes the lines longer.
#[inline(always)]
fn with_piece(
    _laid: &LaidRows,
    gathered: Gathered,
    piece: Piece,
    list: &[KnownCell],
    hows: &mut Hows,
) -> Result<Gathered, AllocError>
    requires some { 0 < length hows.old }
    requires cells { AreKnownCells hows.old _laid.now.rows.now.pieces.items _laid.now.rows.now.cells.items list.now }
    requires before { (d : Doc) × IsGathered hows.old d gathered }
    ensures lines { IfOk result (λ more. (d : Doc) → IsGathered hows.old d gathered
        → IsGathered hows.new (a_concat d (piece_doc (laid_cell _laid.now) a_space piece.entry)) more) }
    ensures older { KeepsWays hows.old hows.new }
{
    match piece {
        Piece::Text(len, _) => Ok(with_columns(gathered, len)),
        Piece::Space | Piece::Gap => Ok(with_columns(gathered, 1)),
        Piece::Newline => with_known(gathered, newline(hows), hows),
        Piece::Hard | Piece::BareBreak => with_known(gathered, hard(), hows),
        Piece::Cell(k) => with_known(gathered, known_at(list, k), hows),
    }
}

// What is known of pieces with a text of so many columns behind them. Where the columns of the texts don't fit, those
// so far are told with the lines.
#[inline(always)]
fn with_columns(gathered: Gathered, columns: u32) -> Gathered
    ensures { (ways : List How) (s : List ℕ) (d : Doc) → IsGathered ways d gathered
        → IsGathered ways (a_concat d (a_text s columns)) result }
{
    match gathered.columns.checked_add(columns) {
        Some(sum) => Gathered {
            loose: gathered.loose,
            flat: gathered.flat,
            columns: sum,
        },
        None => Gathered {
            loose: with_text(gathered.loose, gathered.columns),
            flat: with_text(gathered.flat, gathered.columns),
            columns,
        },
    }
}

// The line with a text of so many columns behind it; a sum that doesn't fit isn't known.
#[inline(always)]
fn with_text(line: Line, columns: u32) -> Line
    ensures { (ways : List How) (s : List ℕ) → LineOfPart (λ d. a_concat d (a_text s columns)) ways line result }
{
    match line {
        Line::Long(len, how) => match len.checked_add(columns) {
            None => Line::Unsure,
            Some(sum) => Line::Long(sum, how),
        },
        Line::Text(len, how) => match len.checked_add(columns) {
            None => Line::Unsure,
            Some(sum) => Line::Text(sum, how),
        },
        Line::Nothing | Line::Never | Line::Unsure => line,
    }
}

// What is known of pieces with another document behind them.
#[inline(always)]
fn with_known(gathered: Gathered, behind: Known, hows: &mut Hows) -> Result<Gathered, AllocError>
    requires before { (d : Doc) × IsGathered hows.old d gathered }
    requires behind { (d : Doc) × KnownHolds hows.old d behind }
    ensures lines { IfOk result (λ more. (d e : Doc) → IsGathered hows.old d gathered → KnownHolds hows.old e behind
        → IsGathered hows.new (a_concat d e) more) }
    ensures older { KeepsWays hows.old hows.new }
{
    let loose_before = with_text(gathered.loose, gathered.columns);
    let flat_before = with_text(gathered.flat, gathered.columns);
    let loose = concat_line(loose_before, behind.loose.line, hows)?;
    let flat = concat_line(flat_before, behind.flat.line, hows)?;
    Ok(Gathered {
        loose,
        flat,
        columns: 0,
    })
}

// What is known of a cell, where that of those before some cell is given.
fn known_at(list: &[KnownCell], k: u32) -> Known
    ensures { (ways : List How) (ps : List a_piece) (cs : List a_cell) → AreKnownCells ways ps cs list.now
        → KnownHolds ways (cell_at ps cs k) result }
{
    match list.get(k as usize) {
        None => nothing_known(),
        Some(known) => known.document,
    }
}
