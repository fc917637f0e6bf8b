//! A cell laid out piece by piece, as choices pick it, or pieces that have no choice.
//!
//! What begins with an underscore is read by clauses alone, which speak of the cell, its row and the choices left.

ghost use Rattle.std.specs.Prelude.{◌≡◌, ◌≤◌, ◌||◌, IsTrue, true, false, [], ◌++◌, Some, Ok, slice_get};
ghost use Rattle.std.specs.Prelude.{IfOk, IfSome, OnOk, IsErrOf};
ghost use Rattle.std.specs.List.{slice_range};
ghost use Rattle.rf_base_document.specs.Document.{Doc, Choice};
ghost use Rattle.rf_base_document.specs.Render.{Laid};
ghost use Rattle.rf_base_document.specs.Picks.{Picks, LaidOutBy};
ghost use Rattle.rf_base_document.specs.TooLong.{IsTooLong};
ghost use Rattle.rf_walk.specs.LaidOut.{IsLaidOn};
ghost use Rattle.rf_walk.specs.Papers.{HoldsSome};
ghost use Rattle.rf_rows.specs.Layouts.{fill_doc, strip_of, inner_docs};
ghost use Rattle.rf_rows.specs.Cells.{piece_doc, IsBelow};
ghost use Rattle.rf_rows.specs.Rows.{stacked};
ghost use Rattle.rf_rows.specs.Laid.{laid_cell, laid_layout, laid_pieces, laid_row};
ghost use Rattle.rf_rows.specs.Rows.{AreMade};
ghost use Rattle.rf_rows.specs.Unmade.{IsUnmade, list_doc};
ghost use Rattle.rf_rows.specs.Laying.{frames_of, MayGoOn, AreLaid, ArePast, MayLay, IsLaid, IsPast, IsPaid};
ghost use Rattle.rf_rows.specs.Laying.{too_long, not_told, GainsChoices, PassesByChoices};

use crate::cells::Cell;
use crate::halts::Halt;
use crate::laid::LaidRows;
use crate::layouts::{Inner, Layout, Layouts, Row};
use crate::pieces::{Fill, Piece};
use crate::unmade::Unmade;
use rf_base_document::Dir;
use rf_walk::{LayoutError, Paper, deeper, first_choice, put_newline};

/// Where documents are laid out.
#[derive(Clone, Copy)]
pub struct Spot {
    /// Whether they are flat.
    pub flat: bool,
    /// The indentation of their line breaks.
    pub indentation: u32,
}

/// Puts the layout of the resolution that the choices pick of cell `k` on a blank paper, at column 0 and indentation 0.
/// The answer is `false`, and nothing is known of the paper, where of a list that isn't made they pick another layout
/// than its line: never where all cells are made of pieces. `TooLong` comes exactly where that layout has more than
/// 67,108,864 characters, or the resolution more texts, line breaks and choices than that; `Memory` for want of memory.
pub fn lay_out_cell<P: Paper>(
    laid: &LaidRows,
    k: u32,
    choices: &[Dir],
    paper: &mut P,
) -> Result<bool, LayoutError>
    requires picked { (whole : Laid) × LaidOutBy (laid_cell laid.now k) choices.now 0 0 false whole }
    requires blank { P.holds paper.old paper.old [] 0 }
    ensures laid { IfOk result (λ whole. IsTrue whole → (e : Doc) → Picks (laid_cell laid.now k) choices.now e
        → IsLaidOn (P.holds paper.old paper.new) e choices.now) }
    ensures made { IfOk result (λ whole. AreMade laid.now.rows.now → IsTrue whole) }
    ensures too_long { IsErrOf result LayoutError.TooLong → (e : Doc) → Picks (laid_cell laid.now k) choices.now e
        → IsTooLong e choices.now }
{
    let top = Spot {
        flat: false,
        indentation: 0,
    };
    match lay_cell(laid, k, top, paper, choices) {
        Ok(_) => Ok(true),
        Err(Halt::Unmade) => Ok(false),
        Err(Halt::Refused(refusal)) => Err(refusal),
    }
}

/// Lays out all pieces that stand on the stack at this spot, with this in their gaps. None of them has a choice, so
/// that the choices, which clauses alone read, are those that are left. `false` says nothing: a cell stands there.
///
/// `TooLong` comes only where every layout that goes on so is past the limits of papers; `Memory` for want of memory.
pub fn lay_out_stack<P: Paper>(
    laid: &LaidRows,
    fill: Fill,
    spot: Spot,
    paper: &mut P,
    choices: &[Dir],
) -> Result<bool, LayoutError>
    requires { MayGoOn P.holds paper.old (frames_of spot (stacked laid.now.rows.now fill)) choices.now }
    ensures laid { result ≡ Ok true → AreLaid P.holds paper.old paper.new
        (frames_of spot (stacked laid.now.rows.now fill)) choices.now choices.now }
    ensures too_long { IsErrOf result LayoutError.TooLong
        → ArePast P.holds paper.old (frames_of spot (stacked laid.now.rows.now fill)) choices.now }
{
    for piece in laid.rows.stack.as_slice() {
        if let Piece::Cell(_) = *piece {
            return Ok(false);
        }
        lay_leaf(laid, *piece, fill, spot, paper, choices)?;
    }
    Ok(true)
}

// Cell `k`. The answer is what is left of the choices.
#[cycle(laying)]
fn lay_cell<'c, P: Paper>(
    laid: &LaidRows,
    k: u32,
    spot: Spot,
    paper: &mut P,
    choices: &'c [Dir],
) -> Result<&'c [Dir], Halt>
    requires { MayLay P.holds paper.old spot (laid_cell laid.now k) choices.now }
    ensures laid { IfOk result (λ left.
        IsLaid P.holds paper.old paper.new spot (laid_cell laid.now k) choices.now left.now) }
    ensures too_long { IsErrOf result too_long
        → IsPast P.holds paper.old spot (laid_cell laid.now k) choices.now }
    ensures made { IsErrOf result not_told → AreMade laid.now.rows.now → ⊥ }
{
    let Some(cell) = laid.rows.cells.get(k as usize) else {
        paper.word("", 0)?;
        return Ok(choices);
    };
    match cell.layouts {
        Layouts::Bare => lay_row(laid, k, cell, Row::Dropped, spot, paper, choices),
        Layouts::One(a) => lay_layout(laid, k, cell, a, spot, paper, choices),
        Layouts::Two(a, b) => lay_one_of(laid, k, cell, a, b, spot, paper, choices),
        Layouts::Three(a, b, c) => {
            let (dir, rest) = first_choice(choices);
            paper.choice()?;
            match dir {
                Dir::Left => lay_layout(laid, k, cell, a, spot, paper, rest),
                Dir::Right => lay_one_of(laid, k, cell, b, c, spot, paper, rest),
            }
        }
        Layouts::Unmade(unmade) => lay_line(laid, &unmade, spot, paper, choices),
    }
}

// The line of a list that isn't made, where the choices pick it.
fn lay_line<'c, P: Paper>(
    laid: &LaidRows,
    unmade: &Unmade,
    spot: Spot,
    paper: &mut P,
    choices: &'c [Dir],
) -> Result<&'c [Dir], Halt>
    requires line { IsUnmade laid.now.rows.now.turns.items unmade.now }
    requires next { MayLay P.holds paper.old spot (list_doc unmade.now.line) choices.now }
    ensures laid { IfOk result (λ left.
        IsLaid P.holds paper.old paper.new spot (list_doc unmade.now.line) choices.now left.now) }
    ensures too_long { IsErrOf result too_long
        → IsPast P.holds paper.old spot (list_doc unmade.now.line) choices.now }
{
    let turns = laid.turns(unmade, spot.flat);
    let Some(left) = behind(choices, turns) else {
        return Err(Halt::Unmade);
    };
    count(turns.len(), paper)?;
    let line = unmade.line;
    paper.line(line.text, line.columns, line.words)?;
    Ok(left)
}

// The choices behind these, where they begin so.
fn behind<'c>(choices: &'c [Dir], turns: &[Dir]) -> Option<&'c [Dir]>
    ensures { IfSome result (λ left. choices.now ≡ turns.now ++ left.now) }
{
    choices.strip_prefix(turns)
}

// Counts so many choices.
fn count<P: Paper>(turns: usize, paper: &mut P) -> Result<(), LayoutError>
    requires { HoldsSome P.holds paper.old }
    ensures counted { OnOk result (GainsChoices P.holds paper.old paper.new turns) }
    ensures too_long { IsErrOf result LayoutError.TooLong → PassesByChoices P.holds paper.old turns }
{
    for _turn in 0..turns {
        paper.choice()?;
    }
    Ok(())
}

// The first of two layouts of a cell or the second.
#[inline(always)]
#[cycle(laying)]
fn lay_one_of<'c, P: Paper>(
    laid: &LaidRows,
    k: u32,
    cell: &Cell,
    a: Layout,
    b: Layout,
    spot: Spot,
    paper: &mut P,
    choices: &'c [Dir],
) -> Result<&'c [Dir], Halt>
    requires cell { slice_get laid.now.rows.now.cells.items k ≡ Some cell.now }
    requires charges { (a.charge ≤ 1000) × (b.charge ≤ 1000) }
    requires next { MayLay P.holds paper.old spot
        (Choice (laid_layout laid.now cell.now a) (laid_layout laid.now cell.now b)) choices.now }
    ensures laid { IfOk result (λ left. IsLaid P.holds paper.old paper.new spot
        (Choice (laid_layout laid.now cell.now a) (laid_layout laid.now cell.now b)) choices.now left.now) }
    ensures too_long { IsErrOf result too_long → IsPast P.holds paper.old spot
        (Choice (laid_layout laid.now cell.now a) (laid_layout laid.now cell.now b)) choices.now }
    ensures made { IsErrOf result not_told → AreMade laid.now.rows.now → ⊥ }
{
    let (dir, rest) = first_choice(choices);
    paper.choice()?;
    match dir {
        Dir::Left => lay_layout(laid, k, cell, a, spot, paper, rest),
        Dir::Right => lay_layout(laid, k, cell, b, spot, paper, rest),
    }
}

// A layout of a cell.
#[cycle(laying)]
fn lay_layout<'c, P: Paper>(
    laid: &LaidRows,
    k: u32,
    cell: &Cell,
    layout: Layout,
    spot: Spot,
    paper: &mut P,
    choices: &'c [Dir],
) -> Result<&'c [Dir], Halt>
    requires cell { slice_get laid.now.rows.now.cells.items k ≡ Some cell.now }
    requires charge { layout.charge ≤ 1000 }
    requires next { MayLay P.holds paper.old spot (laid_layout laid.now cell.now layout) choices.now }
    ensures laid { IfOk result (λ left. IsLaid P.holds paper.old paper.new spot
        (laid_layout laid.now cell.now layout) choices.now left.now) }
    ensures too_long { IsErrOf result too_long → IsPast P.holds paper.old spot
        (laid_layout laid.now cell.now layout) choices.now }
    ensures made { IsErrOf result not_told → AreMade laid.now.rows.now → ⊥ }
{
    pay(layout.charge, paper);
    let inside = Spot {
        flat: one_holds(layout.flat, spot.flat),
        indentation: paper.column(),
    };
    lay_row(laid, k, cell, layout.row, inside, paper, choices)
}

// Puts a charge, if there is one.
#[inline(always)]
fn pay<P: Paper>(charge: u32, paper: &mut P)
    requires held { HoldsSome P.holds paper.old }
    requires charge { charge ≤ 1000 }
    ensures { IsPaid P.holds paper.old paper.new charge }
{
    if charge > 0 {
        paper.fee(charge);
    }
}

// Whether one of both holds.
#[inline(always)]
fn one_holds(a: bool, b: bool) -> bool
    ensures { result ≡ (a || b) }
{
    a || b
}

// A row of a cell.
#[inline(always)]
#[cycle(laying)]
fn lay_row<'c, P: Paper>(
    laid: &LaidRows,
    k: u32,
    cell: &Cell,
    row: Row,
    spot: Spot,
    paper: &mut P,
    choices: &'c [Dir],
) -> Result<&'c [Dir], Halt>
    requires cell { slice_get laid.now.rows.now.cells.items k ≡ Some cell.now }
    requires next { MayLay P.holds paper.old spot (laid_row laid.now cell.now row) choices.now }
    ensures laid { IfOk result (λ left. IsLaid P.holds paper.old paper.new spot
        (laid_row laid.now cell.now row) choices.now left.now) }
    ensures too_long { IsErrOf result too_long → IsPast P.holds paper.old spot
        (laid_row laid.now cell.now row) choices.now }
    ensures made { IsErrOf result not_told → AreMade laid.now.rows.now → ⊥ }
{
    let strip = laid.strip(k, cell, row);
    if strip.len() == 0 {
        paper.word("", 0)?;
        return Ok(choices);
    }
    let behind_head = lay_pieces(
        laid,
        k,
        cell,
        strip.head,
        strip.head_end,
        Fill::Space,
        spot,
        paper,
        choices,
    )?;
    let behind_inner = lay_inner(laid, k, cell, row, strip.inner, spot, paper, behind_head)?;
    lay_pieces(
        laid,
        k,
        cell,
        strip.tail,
        strip.tail_end,
        strip.fill,
        spot,
        paper,
        behind_inner,
    )
}

// The same of a row that stands as one in another row, by a call of its own.
#[cycle(laying)]
fn lay_row_within<'c, P: Paper>(
    laid: &LaidRows,
    k: u32,
    cell: &Cell,
    row: Row,
    spot: Spot,
    paper: &mut P,
    choices: &'c [Dir],
) -> Result<&'c [Dir], Halt>
    requires cell { slice_get laid.now.rows.now.cells.items k ≡ Some cell.now }
    requires next { MayLay P.holds paper.old spot (laid_row laid.now cell.now row) choices.now }
    ensures laid { IfOk result (λ left. IsLaid P.holds paper.old paper.new spot
        (laid_row laid.now cell.now row) choices.now left.now) }
    ensures too_long { IsErrOf result too_long → IsPast P.holds paper.old spot
        (laid_row laid.now cell.now row) choices.now }
    ensures made { IsErrOf result not_told → AreMade laid.now.rows.now → ⊥ }
{
    lay_row(laid, k, cell, row, spot, paper, choices)
}

// The row of a cell that stands as one in another row of it, if there is one.
#[inline(always)]
#[cycle(laying)]
fn lay_inner<'c, P: Paper>(
    laid: &LaidRows,
    k: u32,
    cell: &Cell,
    _row: Row,
    inner: Option<Inner>,
    spot: Spot,
    paper: &mut P,
    choices: &'c [Dir],
) -> Result<&'c [Dir], Halt>
    requires cell { slice_get laid.now.rows.now.cells.items k ≡ Some cell.now }
    requires inner { (strip_of cell.now.marks cell.now.count _row).inner ≡ inner }
    requires next { MayGoOn P.holds paper.old (frames_of spot
        (inner_docs (laid_row laid.now cell.now) inner)) choices.now }
    ensures laid { IfOk result (λ left. AreLaid P.holds paper.old paper.new (frames_of spot
        (inner_docs (laid_row laid.now cell.now) inner)) choices.now left.now) }
    ensures too_long { IsErrOf result too_long → ArePast P.holds paper.old (frames_of spot
        (inner_docs (laid_row laid.now cell.now) inner)) choices.now }
    ensures made { IsErrOf result not_told → AreMade laid.now.rows.now → ⊥ }
{
    let Some(other) = inner else {
        return Ok(choices);
    };
    match other {
        Inner::Aligned(row) => {
            let inside = Spot {
                flat: spot.flat,
                indentation: paper.column(),
            };
            lay_row_within(laid, k, cell, row, inside, paper, choices)
        }
        Inner::Nested(row) => {
            let inside = Spot {
                flat: spot.flat,
                indentation: deeper(spot.indentation, 1),
            };
            lay_row_within(laid, k, cell, row, inside, paper, choices)
        }
    }
}

// The pieces of a cell from one up to another, with this in their gaps. Most rows have none before another row.
#[inline(always)]
#[cycle(laying)]
fn lay_pieces<'c, P: Paper>(
    laid: &LaidRows,
    k: u32,
    cell: &Cell,
    from: usize,
    to: usize,
    fill: Fill,
    spot: Spot,
    paper: &mut P,
    choices: &'c [Dir],
) -> Result<&'c [Dir], Halt>
    requires cell { slice_get laid.now.rows.now.cells.items k ≡ Some cell.now }
    requires order { from ≤ to }
    requires within { to ≤ cell.now.count }
    requires next { MayGoOn P.holds paper.old
        (frames_of spot (slice_range (laid_pieces laid.now cell.now fill) from to)) choices.now }
    ensures laid { IfOk result (λ left. AreLaid P.holds paper.old paper.new
        (frames_of spot (slice_range (laid_pieces laid.now cell.now fill) from to)) choices.now left.now) }
    ensures too_long { IsErrOf result too_long → ArePast P.holds paper.old
        (frames_of spot (slice_range (laid_pieces laid.now cell.now fill) from to)) choices.now }
    ensures made { IsErrOf result not_told → AreMade laid.now.rows.now → ⊥ }
{
    if from == to {
        return Ok(choices);
    }
    lay_some(laid, k, cell, from, to, fill, spot, paper, choices)
}

// The same, where there are some.
#[cycle(laying)]
fn lay_some<'c, P: Paper>(
    laid: &LaidRows,
    k: u32,
    cell: &Cell,
    from: usize,
    to: usize,
    fill: Fill,
    spot: Spot,
    paper: &mut P,
    choices: &'c [Dir],
) -> Result<&'c [Dir], Halt>
    requires cell { slice_get laid.now.rows.now.cells.items k ≡ Some cell.now }
    requires order { from ≤ to }
    requires within { to ≤ cell.now.count }
    requires next { MayGoOn P.holds paper.old
        (frames_of spot (slice_range (laid_pieces laid.now cell.now fill) from to)) choices.now }
    ensures laid { IfOk result (λ left. AreLaid P.holds paper.old paper.new
        (frames_of spot (slice_range (laid_pieces laid.now cell.now fill) from to)) choices.now left.now) }
    ensures too_long { IsErrOf result too_long → ArePast P.holds paper.old
        (frames_of spot (slice_range (laid_pieces laid.now cell.now fill) from to)) choices.now }
    ensures made { IsErrOf result not_told → AreMade laid.now.rows.now → ⊥ }
{
    let mut left = choices;
    let mut at = from;
    while at < to {
        let piece = laid.piece_of(k as usize, cell, at);
        left = lay_piece(laid, k, piece, fill, spot, paper, left)?;
        at += 1;
    }
    Ok(left)
}

// A piece of cell `_k`, with this in its gap.
#[inline(always)]
#[cycle(laying)]
fn lay_piece<'c, P: Paper>(
    laid: &LaidRows,
    _k: u32,
    piece: Piece,
    fill: Fill,
    spot: Spot,
    paper: &mut P,
    choices: &'c [Dir],
) -> Result<&'c [Dir], Halt>
    requires below { IsBelow _k piece }
    requires next { MayLay P.holds paper.old spot (piece_doc (laid_cell laid.now) fill piece) choices.now }
    ensures laid { IfOk result (λ left. IsLaid P.holds paper.old paper.new spot
        (piece_doc (laid_cell laid.now) fill piece.entry) choices.now left.now) }
    ensures too_long { IsErrOf result too_long
        → IsPast P.holds paper.old spot (piece_doc (laid_cell laid.now) fill piece.entry) choices.now }
    ensures made { IsErrOf result not_told → AreMade laid.now.rows.now → ⊥ }
{
    match piece {
        Piece::Cell(j) => lay_cell(laid, j, spot, paper, choices),
        _ => {
            lay_leaf(laid, piece, fill, spot, paper, choices)?;
            Ok(choices)
        }
    }
}

// A piece that is no cell, as there is none below cell 0, with this in its gap. The choices are those that are left.
#[inline(always)]
fn lay_leaf<P: Paper>(
    _laid: &LaidRows,
    piece: Piece,
    fill: Fill,
    spot: Spot,
    paper: &mut P,
    choices: &[Dir],
) -> Result<(), LayoutError>
    requires leaf { IsBelow 0 piece }
    requires next { MayLay P.holds paper.old spot (piece_doc (laid_cell _laid.now) fill piece) choices.now }
    ensures laid { OnOk result (IsLaid P.holds paper.old paper.new spot
        (piece_doc (laid_cell _laid.now) fill piece.entry) choices.now choices.now) }
    ensures too_long { IsErrOf result LayoutError.TooLong
        → IsPast P.holds paper.old spot (piece_doc (laid_cell _laid.now) fill piece.entry) choices.now }
{
    match piece {
        Piece::Text(len, s) => paper.word(s, len),
        Piece::Space => paper.word(" ", 1),
        Piece::Newline => put_newline(paper, spot.flat, spot.indentation),
        Piece::Hard => paper.line_break(spot.indentation),
        Piece::BareBreak => paper.line_break(0),
        Piece::Gap => put_gap(fill, spot, paper, choices),
        Piece::Cell(_) => unreachable!(),
    }
}

// What stands in a gap. The choices are those that are left.
#[inline(always)]
fn put_gap<P: Paper>(
    fill: Fill,
    spot: Spot,
    paper: &mut P,
    _choices: &[Dir],
) -> Result<(), LayoutError>
    requires { MayLay P.holds paper.old spot (fill_doc fill) _choices.now }
    ensures laid { OnOk result (IsLaid P.holds paper.old paper.new spot (fill_doc fill) _choices.now _choices.now) }
    ensures too_long { IsErrOf result LayoutError.TooLong
        → IsPast P.holds paper.old spot (fill_doc fill) _choices.now }
{
    match fill {
        Fill::Space => paper.word(" ", 1),
        Fill::Newline => put_newline(paper, spot.flat, spot.indentation),
        Fill::Hard => paper.line_break(spot.indentation),
    }
}
