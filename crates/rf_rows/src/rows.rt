//! Rows of pieces, put together on a stack.
//!
//! A function's line `tactic` names the lemmas that its proof uses.

ghost use Rattle.std.specs.Prelude.{◌≡◌, ◌≢◌, ◌<◌, ◌≤◌, ◌-◌, true, false, None, Ok, [], ◌∷◌, ◌++◌, length, take, drop, codes, IfOk};
ghost use Rattle.std.specs.Prelude.{List, OnOk, OnErr};
ghost use Rattle.rf_base_document.specs.declared.directions.Dir.{Dir as a_dir};
ghost use Rattle.rf_rows.specs.Stands.{AreRows};
ghost use Rattle.rf_rows.specs.Props.{AreRows-prop};
ghost use Rattle.rf_rows.specs.Unmade.{IsKept};

use crate::cells::Cell;
use crate::layouts::{Layouts, Marks};
use crate::pieces::{Fill, Piece};
use crate::unmade::{ListLine, Unmade};
use rf_base_document::Dir;
use rf_doc::{TEXT_LIMIT, place};
use rf_lines::{Page, write_placed};
use rf_ways::Placed;
use std::alloc::{AllocError, Global};
use std::mem;

/// Documents that are put together on a stack of pieces. Contracts see the stack as the documents of its pieces, by
/// what stands in their gaps. After an `AllocError` nothing is known of what stands there until it is cleared.
#[derive(Drop)]
pub struct Rows<'t> {
    /// The pieces of all cells, cell by cell.
    pub pieces: Vec<Piece<'t>>,
    /// The cells, each behind those that are among its pieces.
    pub cells: Vec<Cell<'t>>,
    /// The pieces that are in no cell yet, the topmost last.
    pub stack: Vec<Piece<'t>>,
    /// The choices of the lines of lists that aren't made.
    pub turns: Vec<Dir>,
    /// The last column up to which texts cost nothing, where lists that surely end there may stay unmade; otherwise all
    /// are made.
    pub free: Option<u32>,
    // Where a list's line is tried.
    page: Page<'t>,
    // What holds of them at each moment, also after an `AllocError`.
    pub ghost stand: { AreRows pieces.items cells.items stack.items turns.items free } by { AreRows-prop pieces.items
        cells.items stack.items turns.items free },
}

// So many pieces are told apart by numbers of 32 bits, and one more stands behind them.
const MOST_PIECES: usize = 4294967294;

impl<'t> Rows<'t> {
    ghost use Rattle.std.specs.Str.{chars};
    ghost use Rattle.rf_base_document.specs.Document.{Text as a_text, Newline as a_newline, Hard as a_hard, plain_text};
    ghost use Rattle.rf_base_document.specs.Document.{KeepsTextLimits};
    ghost use Rattle.rf_base_file.specs.Rows.{bare_break};
    ghost use Rattle.rf_base_style.specs.Table.{AreRules};
    ghost use Rattle.rf_ways.specs.NodeDocuments.{node_doc};
    ghost use Rattle.rf_ways.specs.Nodes.{IsNode};
    ghost use Rattle.rf_lines.specs.Written.{IsLineOf as IsPageOf};
    ghost use Rattle.rf_rows.specs.declared.pieces.Fill.{Fill as a_fill};
    ghost use Rattle.rf_rows.specs.Layouts.{fill_doc, cell_doc, AreMarks, AreLayouts, AreCellLayouts};
    ghost use Rattle.rf_rows.specs.Unmade.{HasLine, IsMade};
    ghost use Rattle.rf_rows.specs.Cells.{piece_doc, cell_at, IsBelow};
    ghost use Rattle.rf_rows.specs.Rows.{stacked};
    ghost use Rattle.rf_rows.specs.Puts.{Fills, Puts, Closes};
    ghost use Rattle.rf_rows.specs.Sizes.{rows_size, Grows};

    /// No piece, where all lists are made. It takes no memory.
    pub fn new(alloc: Global) -> Rows<'t>
        ensures free { result.free ≡ None }
        ensures empty { (fill : a_fill) → stacked result fill ≡ [] }
        ensures size { rows_size result ≡ 0 }
    {
        Rows {
            pieces: Vec::new(alloc),
            cells: Vec::new(alloc),
            stack: Vec::new(alloc),
            turns: Vec::new(alloc),
            free: None,
            page: Page::new(alloc),
        }
    }

    /// Takes all pieces away, and keeps the room that they took for others, of which lists that surely end by column
    /// `free` may stay unmade, or none.
    pub fn clear(&mut self, free: Option<u32>)
        ensures free { self.new.free ≡ free }
        ensures empty { (fill : a_fill) → stacked self.new fill ≡ [] }
        ensures size { rows_size self.new ≡ 0 }
    {
        self.pieces.clear();
        self.cells.clear();
        self.stack.clear();
        self.turns.clear();
        self.free = free;
    }

    /// How many pieces stand on the stack.
    pub fn height(&self) -> usize
        ensures { (fill : a_fill) → length (stacked self.now fill) ≡ result }
    {
        self.stack.len()
    }

    /// Puts a text on the stack, which takes up `len` columns, at most two a character. An `AllocError` comes for want
    /// of memory.
    pub fn text(&mut self, s: &'t str, len: u32) -> Result<(), AllocError>
        requires limits { KeepsTextLimits (chars s.now) len }
        requires short { length s.now ≤ TEXT_LIMIT }
        ensures put { OnOk result (Puts self.old self.new (a_text (chars s.now) len ∷ [])) }
        ensures grown { OnOk result (Grows 4 self.old self.new) }
    {
        self.put(Piece::Text(len, s))
    }

    /// Puts one space on the stack. An `AllocError` comes for want of memory.
    pub fn space(&mut self) -> Result<(), AllocError>
        ensures put { OnOk result (Puts self.old self.new (plain_text (codes " ") ∷ [])) }
        ensures grown { OnOk result (Grows 4 self.old self.new) }
    {
        self.put(Piece::Space)
    }

    /// Puts a newline on the stack. An `AllocError` comes for want of memory.
    pub fn newline(&mut self) -> Result<(), AllocError>
        ensures put { OnOk result (Puts self.old self.new (a_newline ∷ [])) }
        ensures grown { OnOk result (Grows 4 self.old self.new) }
    {
        self.put(Piece::Newline)
    }

    /// Puts a hard newline on the stack. An `AllocError` comes for want of memory.
    pub fn hard(&mut self) -> Result<(), AllocError>
        ensures put { OnOk result (Puts self.old self.new (a_hard ∷ [])) }
        ensures grown { OnOk result (Grows 4 self.old self.new) }
    {
        self.put(Piece::Hard)
    }

    /// Puts a hard newline without indentation on the stack. An `AllocError` comes for want of memory.
    pub fn bare_break(&mut self) -> Result<(), AllocError>
        ensures put { OnOk result (Puts self.old self.new (bare_break ∷ [])) }
        ensures grown { OnOk result (Grows 4 self.old self.new) }
    {
        self.put(Piece::BareBreak)
    }

    /// Puts a gap on the stack, which each layout fills by itself. An `AllocError` comes for want of memory.
    pub fn gap(&mut self) -> Result<(), AllocError>
        ensures put { OnOk result (Fills self.old self.new (λ fill. fill_doc fill ∷ [])) }
        ensures grown { OnOk result (Grows 4 self.old self.new) }
    {
        self.put(Piece::Gap)
    }

    /// Puts in place of the pieces from this height on one piece, which is laid out so. An `AllocError` comes for want
    /// of memory.
    pub fn close(
        &mut self,
        height: usize,
        marks: Marks,
        layouts: Layouts<'t>,
    ) -> Result<(), AllocError>
        requires within { height ≤ length self.old.stack.items }
        requires marks { AreMarks marks (length self.old.stack.items - height) }
        requires layouts { AreLayouts layouts (length self.old.stack.items - height) }
        ensures put { OnOk result (Closes height self.old self.new (λ fill. cell_doc marks
            (length self.old.stack.items - height) (λ f. drop height (stacked self.old f)) layouts.entry ∷ [])) }
        ensures grown { OnOk result (Grows 28 self.old self.new) }
    {
        self.put_cell(height, marks, layouts)
    }

    /// Puts what stands at a node on the stack as one piece of which the line alone is known, where lists may stay
    /// unmade and it stands in the source on one line of at most `most` columns as it is to stand there, and tells
    /// whether it did. An `AllocError` comes for want of memory.
    #[tactic(auto, using(crate::proofs::Stands::nothing_put, crate::proofs::Stands::put_above))]
    pub fn unmade(&mut self, placed: &Placed<'t>, most: u32) -> Result<bool, AllocError>
        requires node { IsNode placed.now.tree.now placed.now.at }
        requires rules { AreRules placed.now.style.now.forms }
        ensures put { result ≡ Ok true → Puts self.old self.new (node_doc placed.now ∷ []) }
        ensures same { result ≡ Ok false → Puts self.old self.new [] }
        ensures grown { result ≡ Ok true → Grows 28 self.old self.new }
        ensures not_grown { result ≡ Ok false → Grows 0 self.old self.new }
    {
        if self.free.is_none() || !write_placed(placed, most, &mut self.page)? {
            return Ok(false);
        }
        self.put_line(placed)?;
        Ok(true)
    }

    // Puts what stands at a node, whose line is on the page, as one piece that isn't made of others.
    fn put_line(&mut self, placed: &Placed<'t>) -> Result<(), AllocError>
        requires some { self.old.free ≢ None }
        requires rules { AreRules placed.now.style.now.forms }
        requires line { IsPageOf false self.old.page (node_doc placed.now) }
        ensures put { OnOk result (Puts self.old self.new (node_doc placed.now ∷ [])) }
        ensures grown { OnOk result (Grows 28 self.old self.new) }
    {
        let line = ListLine {
            placed: *placed,
            text: self.page.text(),
            columns: self.page.columns(),
            words: self.page.words(),
        };
        let unmade = keep_turns(
            &mut self.turns,
            line,
            self.page.choices(),
            self.page.flat_choices(),
        )?;
        let none = Marks {
            first: 0,
            second: 0,
            bodies: 0,
            fill: Fill::Space,
        };
        let height = self.stack.len();
        self.put_cell(height, none, Layouts::Unmade(unmade))
    }

    // Puts a cell in place of the pieces from this height on, which has them.
    #[inline(always)]
    fn put_cell(
        &mut self,
        height: usize,
        marks: Marks,
        layouts: Layouts<'t>,
    ) -> Result<(), AllocError>
        requires within { height ≤ length self.old.stack.items }
        requires marks { AreMarks marks (length self.old.stack.items - height) }
        requires layouts { AreCellLayouts layouts (length self.old.stack.items - height) }
        requires line { HasLine self.old.turns.items layouts }
        requires made { self.old.free ≡ None → IsMade layouts }
        ensures put { OnOk result (Closes height self.old self.new (λ fill. cell_doc marks
            (length self.old.stack.items - height) (λ f. drop height (stacked self.old f)) layouts.entry ∷ [])) }
        ensures grown { OnOk result (Grows 28 self.old self.new) }
    {
        let count = self.stack.len() - height;
        if self.pieces.len() + count > MOST_PIECES {
            return Err(AllocError);
        }
        let cell = Cell {
            from: self.pieces.len() as u32,
            count: count as u32,
            marks,
            layouts,
        };
        let number = place(self.cells.len())?;
        take_from(&mut self.stack, height, &mut self.pieces)?;
        self.cells.push(cell)?;
        push(&mut self.stack, Piece::Cell(number))
    }

    // Puts a piece on the stack.
    fn put(&mut self, piece: Piece<'t>) -> Result<(), AllocError>
        requires { IsBelow (length self.old.cells.items) piece }
        ensures put { OnOk result (Fills self.old self.new
            (λ fill. piece_doc (cell_at self.old.pieces.items self.old.cells.items) fill piece.entry ∷ [])) }
        ensures grown { OnOk result (Grows 4 self.old self.new) }
    {
        push(&mut self.stack, piece)
    }
}

// Keeps the choices of a line behind the others.
fn keep_turns<'t>(
    turns: &mut Vec<Dir>,
    line: ListLine<'t>,
    loose: &[Dir],
    flat: &[Dir],
) -> Result<Unmade<'t>, AllocError>
    ensures unmade { IfOk result
        (λ unmade. IsKept turns.old.items turns.new.items line.entry loose.now flat.now unmade) }
    ensures kept { (more : List a_dir) × (turns.new.items ≡ turns.old.items ++ more) }
{
    let unmade = Unmade {
        line,
        turns: place(turns.len())?,
        loose: place(loose.len())?,
        flat: place(flat.len())?,
    };
    push_each(turns, loose)?;
    push_each(turns, flat)?;
    Ok(unmade)
}

// Puts directions behind others, one by one: they are few.
#[inline(always)]
fn push_each(turns: &mut Vec<Dir>, more: &[Dir]) -> Result<(), AllocError>
    ensures pushed { OnOk result (turns.new.items ≡ turns.old.items ++ more.now) }
    ensures kept { (some : List a_dir) × (turns.new.items ≡ turns.old.items ++ some) }
{
    for turn in more {
        turns.push(*turn)?;
    }
    Ok(())
}

// Moves the pieces of the stack from this height on behind the others: by their room, where there are no others.
fn take_from<'t>(
    stack: &mut Vec<Piece<'t>>,
    height: usize,
    pieces: &mut Vec<Piece<'t>>,
) -> Result<(), AllocError>
    requires { height ≤ length stack.old.items }
    ensures pieces { OnOk result (pieces.new.items ≡ pieces.old.items ++ drop height stack.old.items) }
    ensures stack { OnOk result (stack.new.items ≡ take height stack.old.items) }
    ensures pieces_same { OnErr result (pieces.new.items ≡ pieces.old.items) }
    ensures stack_same { OnErr result (stack.new.items ≡ stack.old.items) }
{
    if height == 0 && pieces.is_empty() {
        mem::swap(stack, pieces);
        return Ok(());
    }
    pieces.extend_from_slice(&stack[height..])?;
    stack.truncate(height);
    Ok(())
}

// Puts a piece on a stack. An `AllocError` comes also where the stack has as many pieces as are told apart.
fn push<'t>(stack: &mut Vec<Piece<'t>>, piece: Piece<'t>) -> Result<(), AllocError>
    ensures items { OnOk result (stack.new.items ≡ stack.old.items ++ piece.entry ∷ []) }
    ensures same { OnErr result (stack.new.items ≡ stack.old.items) }
    ensures low { OnOk result (length stack.new.items < 4294967295) }
{
    if stack.len() >= MOST_PIECES {
        return Err(AllocError);
    }
    Ok(stack.push(piece)?)
}
