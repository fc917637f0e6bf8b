//! Layouts with their costs.

ghost use Rattle.std.specs.Prelude.{◌≡◌, ◌++◌, max, false, List, [], IfOk, IfSome, OnOk, IsErrOf};
ghost use Rattle.std.specs.Str.{chars};
ghost use Rattle.std.specs.String.{string_bytes};
ghost use Rattle.rf_base_document.specs.declared.directions.Dir.{Dir as a_dir};
ghost use Rattle.rf_base_document.specs.Document.{Doc, Text as a_text, KeepsTextLimits};
ghost use Rattle.rf_base_document.specs.Render.{Laid};
ghost use Rattle.rf_base_document.specs.Picks.{Picks, HasPicked, LaidOutBy};
ghost use Rattle.rf_base_document.specs.TooLong.{IsTooLong};
ghost use Rattle.rf_base_document.specs.Graph.{StandsFor};
ghost use Rattle.rf_base_file.specs.FileDocument.{style_doc as slot_document};
ghost use Rattle.rf_style.specs.StyleOf.{seen};
ghost use Rattle.rf_ways.specs.Holds.{OfSlot};
ghost use Rattle.rf_ways.specs.Tops.{IsTop};
ghost use Rattle.rf_rows.specs.Laid.{laid_cell};
ghost use Rattle.rf_slot_rows.specs.Leads.{HasLeadsAlone};
ghost use Rattle.rf_walk.specs.LaidOut.{IsLaidOn};
ghost use Rattle.rf_whole.specs.Sheets.{Keeps};
ghost use Rattle.rf_whole.specs.Written.{IsWritten};

use crate::tasks::Task;
use rf_cost::Factory;
use rf_flat::{Core, Dir};
use rf_measure::Tally;
use rf_render::push_break;
use rf_rows::{LaidRows, Rows, lay_out_cell};
use rf_slot_rows::lay_leads;
use rf_tree::Slot;
use rf_walk::{LayoutError, Paper, lay_out};
use std::alloc::{AllocError, Global};

/// A layout, and what is told of it.
#[derive(Debug, Drop)]
pub struct Written<C> {
    /// The characters.
    pub text: String,
    /// What the layout costs.
    pub cost: C,
    /// The greatest column that one of its texts and line breaks ends at, or 0.
    pub widest: u32,
    /// How many texts, line breaks and choices its resolution has.
    pub weight: u32,
}

// A paper that keeps a layout's characters beside its cost, and the greatest column.
#[derive(Drop)]
struct Sheet<'f, F: Factory> {
    text: String,
    tally: Tally<'f, F>,
    widest: u32,
}

impl<'f, F: Factory> Sheet<'f, F> {
    // Nothing, at column 0, for the cost of an empty text. It takes the room of an older text.
    fn blank(older: String, factory: &'f F) -> Sheet<'f, F>
        ensures keeps { Keeps (F.costs factory.now) (chars (string_bytes result.text)) result.tally.cost
            result.tally.extent result.widest [] 0 }
        ensures factory { result.tally.factory.now ≡ factory.now }
    {
        let mut text = older;
        text.clear();
        Sheet {
            text,
            tally: Tally::none(factory),
            widest: 0,
        }
    }

    // What was laid out.
    fn written(self) -> Written<F::Cost>
        ensures { (e : Doc) (choices : List a_dir)
            → IsLaidOn (Keeps (F.costs self.entry.tally.factory.now) (chars (string_bytes self.entry.text))
            self.entry.tally.cost self.entry.tally.extent self.entry.widest) e choices
            → IsWritten (F.costs self.entry.tally.factory.now) e choices result }
    {
        let weight = self.tally.extent.weight();
        Written {
            text: self.text,
            cost: self.tally.cost,
            widest: self.widest,
            weight,
        }
    }
}

impl<'f, F: Factory> Paper for Sheet<'f, F> {
    ghost use Rattle.rf_whole.specs.Sheets.{keeps_within};

    ghost holds = { λ blank s pieces weight. (s.tally.factory.now ≡ blank.tally.factory.now)
        × Keeps (F.costs s.tally.factory.now) (chars (string_bytes s.text)) s.tally.cost s.tally.extent s.widest
        pieces weight };

    ghost within = { λ blank s pieces weight h. keeps_within (F.costs s.tally.factory.now) (chars (string_bytes s.text))
        s.tally.cost s.tally.extent s.widest pieces weight h.1 };

    fn column(&self) -> u32 {
        self.tally.column()
    }

    fn line(&mut self, s: &str, len: u32, words: u32) -> Result<(), LayoutError> {
        self.tally.line(s, len, words)?;
        self.widest = greater(self.widest, self.tally.column());
        push_word(&mut self.text, s)?;
        Ok(())
    }

    fn line_break(&mut self, indentation: u32) -> Result<(), LayoutError> {
        self.tally.line_break(indentation)?;
        self.widest = greater(self.widest, indentation);
        push_break(&mut self.text, indentation)?;
        Ok(())
    }

    fn fee(&mut self, k: u32) {
        self.tally.fee(k);
    }

    fn choice(&mut self) -> Result<(), LayoutError> {
        self.tally.choice()?;
        Ok(())
    }
}

// The greater of both.
#[inline(always)]
fn greater(a: u32, b: u32) -> u32
    ensures { result ≡ max a b }
{
    if a < b { b } else { a }
}

// Writes a text. Spaces and parentheses are one byte each, which is written by itself.
#[inline(always)]
fn push_word(text: &mut String, s: &str) -> Result<(), AllocError>
    ensures { OnOk result (string_bytes text.new ≡ string_bytes text.old ++ s.now) }
{
    match s.as_bytes() {
        [b] if b.is_ascii() => text.push(*b as char),
        _ => text.push_str(s),
    }
}

/// The layout of the resolution that the choices pick of a cell, with its cost, laid out piece by piece; none where
/// they pick another layout than its line of a list that isn't made. `TooLong` comes exactly where that layout has more
/// than 67,108,864 characters, or the resolution more texts, line breaks and choices than that; `Memory` for want of
/// memory. It takes the room of an older text.
pub fn write_cell<F: Factory>(
    laid: &LaidRows,
    cell: u32,
    choices: &[Dir],
    factory: &F,
    older: String,
) -> Result<Option<Written<F::Cost>>, LayoutError>
    requires { (whole : Laid) × LaidOutBy (laid_cell laid.now cell) choices.now 0 0 false whole }
    ensures written { IfOk result (λ some. IfSome some (λ written. (e : Doc) → Picks (laid_cell laid.now cell)
        choices.now e → IsWritten (F.costs factory.now) e choices.now written)) }
    ensures too_long { IsErrOf result LayoutError.TooLong → (e : Doc) → Picks (laid_cell laid.now cell) choices.now e
        → IsTooLong e choices.now }
{
    let mut sheet = Sheet::blank(older, factory);
    if lay_out_cell(laid, cell, choices, &mut sheet)? {
        Ok(Some(sheet.written()))
    } else {
        Ok(None)
    }
}

/// The same of a text of so many columns, which is its own layout.
pub fn write_text<F: Factory>(
    s: &str,
    len: u32,
    factory: &F,
    older: String,
) -> Result<Written<F::Cost>, LayoutError>
    requires { KeepsTextLimits (chars s.now) len }
    ensures written { IfOk result (IsWritten (F.costs factory.now) (a_text (chars s.now) len) []) }
    ensures too_long { IsErrOf result LayoutError.TooLong → IsTooLong (a_text (chars s.now) len) [] }
{
    let mut sheet = Sheet::blank(older, factory);
    sheet.word(s, len)?;
    Ok(sheet.written())
}

/// The same of a top-level slot that has comments alone, laid out comment by comment, by the stack of rows, in place of
/// what stands there; none where a comment is more than a text of one line.
pub fn write_leads<'t, F: Factory>(
    task: &Task<'t, F>,
    slot: &Slot,
    rows: &mut Rows<'t>,
    older: String,
) -> Result<Option<Written<F::Cost>>, LayoutError>
    requires top { IsTop task.now.tree.now slot.now }
    requires leads { HasLeadsAlone slot.now }
    requires picked { OfSlot task.now.tree.now slot.now (λ ts s.
        (whole : Laid) × LaidOutBy (slot_document (seen task.now.style.now) ts s) [] 0 0 false whole) }
    ensures written { IfOk result (λ some. IfSome some (λ written. OfSlot task.now.tree.now slot.now (λ ts s. (e : Doc)
        → Picks (slot_document (seen task.now.style.now) ts s) [] e
        → IsWritten (F.costs task.now.factory.now) e [] written))) }
    ensures too_long { IsErrOf result LayoutError.TooLong → OfSlot task.now.tree.now slot.now (λ ts s. (e : Doc)
        → Picks (slot_document (seen task.now.style.now) ts s) [] e → IsTooLong e []) }
{
    let mut sheet = Sheet::blank(older, task.factory);
    if lay_leads(task.alloc, task.tree, task.style, slot, rows, &mut sheet)? {
        Ok(Some(sheet.written()))
    } else {
        Ok(None)
    }
}

/// The same of a core, of which each layout can be had.
pub fn write_core<F: Factory>(
    alloc: Global,
    core: &Core,
    choices: &[Dir],
    factory: &F,
    older: String,
) -> Result<Written<F::Cost>, LayoutError>
    requires { (d : Doc) × StandsFor core.now.nodes core.now.root d × HasPicked d choices.now }
    ensures written { IfOk result (λ written. (d e : Doc) → StandsFor core.now.nodes core.now.root d
        → Picks d choices.now e → IsWritten (F.costs factory.now) e choices.now written) }
    ensures too_long { IsErrOf result LayoutError.TooLong → (d e : Doc) → StandsFor core.now.nodes core.now.root d
        → Picks d choices.now e → IsTooLong e choices.now }
{
    let mut sheet = Sheet::blank(older, factory);
    lay_out(alloc, core, choices, &mut sheet)?;
    Ok(sheet.written())
}
