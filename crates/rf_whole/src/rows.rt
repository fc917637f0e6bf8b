//! A form by the rows of its document, which are told node by node as they are asked for.

ghost use Rattle.std.specs.Prelude.{◌≡◌, ◌<◌, ◌^◌, ℕ, [], Ok, true, false, IfOk, IfSome, IsErrOf};
ghost use Rattle.rf_base_document.specs.Document.{Doc, IsDocument};
ghost use Rattle.rf_base_document.specs.Picks.{HasLayout};
ghost use Rattle.rf_base_optimum.specs.MostPieces.{most_pieces};
ghost use Rattle.rf_rows.specs.Alone.{StandsAlone};
ghost use Rattle.rf_rows.specs.Choiceless.{IsChoiceless};
ghost use Rattle.rf_rows.specs.Laid.{laid_cell};
ghost use Rattle.rf_search.specs.Best.{IsBest};
ghost use Rattle.rf_whole.specs.Forms.{IsLongForm};
ghost use Rattle.rf_whole.specs.Laid.{IsFormOf};
ghost use Rattle.rf_whole.specs.Written.{IsWritten};

use crate::faults::FormatError;
use crate::forms::Form;
use crate::sheets::{Written, write_cell, write_text};
use crate::tasks::Task;
use rf_base_steps::Steps;
use rf_cost::Factory;
use rf_rows::{LaidRows, Rows};
use rf_search::{Best, Workspace, search_rows};
use std::alloc::{AllocError, Global};
use std::marker::Brand;
use std::mem;
use std::sync::ledger::{Blank, Ledger};

/// Puts the layout of the document that stands alone on the stack of rows, chosen within the task's columns, in place
/// of the form's, if the search finds it. A document without a choice, which has one resolution, isn't searched.
///
/// `false` says nothing of the document. `TooLong` comes only where its layout has more than 67,108,864 characters, or
/// its resolution more texts, line breaks and choices than that; `Memory` for want of memory.
pub fn rows_form<F: Factory>(
    task: &Task<F>,
    rows: &Rows,
    workspace: &mut Workspace<F::Cost>,
    form: &mut Form<F::Cost>,
) -> Result<bool, FormatError>
    requires pieces { (d : Doc) → StandsAlone rows.now d → most_pieces d < 2 ^ 32 }
    requires layout { (d : Doc) → StandsAlone rows.now d → HasLayout d false }
    ensures form { result ≡ Ok true → (d : Doc) → StandsAlone rows.now d
        → IsFormOf (F.costs task.now.factory.now) task.now.limit d form.new }
    ensures too_long { IsErrOf result FormatError.TooLong → (d : Doc) → StandsAlone rows.now d
        → IsLongForm (F.costs task.now.factory.now) task.now.limit d }
{
    let laid = LaidRows { rows };
    let Some(cell) = laid.top() else {
        return text_form(task, &laid, form);
    };
    if laid.is_choiceless() {
        return settled_form(task, &laid, cell, form);
    }
    let Some(best) = searched::<F, Brand>(task, &laid, workspace, Blank::new(1))? else {
        return Ok(false);
    };
    best_form(task.alloc, &laid, cell, task.factory, best, form)
}

// Puts the layout of the text that stands alone on the stack of rows in place of the form's. `false` comes where none
// does.
fn text_form<F: Factory>(
    task: &Task<F>,
    laid: &LaidRows,
    form: &mut Form<F::Cost>,
) -> Result<bool, FormatError>
    requires layout { (d : Doc) → StandsAlone laid.now.rows.now d → HasLayout d false }
    ensures form { result ≡ Ok true → (d : Doc) → StandsAlone laid.now.rows.now d
        → IsFormOf (F.costs task.now.factory.now) task.now.limit d form.new }
    ensures too_long { IsErrOf result FormatError.TooLong → (d : Doc) → StandsAlone laid.now.rows.now d
        → IsLongForm (F.costs task.now.factory.now) task.now.limit d }
{
    let Some((s, len)) = laid.top_text() else {
        return Ok(false);
    };
    let room = mem::replace(&mut form.text, String::new(task.alloc));
    let written = write_text(s, len, task.factory, room)?;
    put_settled(task, written, form);
    Ok(true)
}

// Puts the layout of a cell without a choice in place of the form's: it is the one that is chosen, with no choices.
// `false` comes where it isn't laid out so.
fn settled_form<F: Factory>(
    task: &Task<F>,
    laid: &LaidRows,
    cell: u32,
    form: &mut Form<F::Cost>,
) -> Result<bool, FormatError>
    requires choiceless { IsChoiceless (laid_cell laid.now cell) }
    requires layout { HasLayout (laid_cell laid.now cell) false }
    ensures form { result ≡ Ok true
        → IsFormOf (F.costs task.now.factory.now) task.now.limit (laid_cell laid.now cell) form.new }
    ensures too_long { IsErrOf result FormatError.TooLong
        → IsLongForm (F.costs task.now.factory.now) task.now.limit (laid_cell laid.now cell) }
{
    let room = mem::replace(&mut form.text, String::new(task.alloc));
    let Some(written) = write_cell(laid, cell, &[], task.factory, room)? else {
        return Ok(false);
    };
    put_settled(task, written, form);
    Ok(true)
}

/// Puts what was written of a document without a choice in place of the form's layout.
pub fn put_settled<F: Factory>(task: &Task<F>, written: Written<F::Cost>, form: &mut Form<F::Cost>)
    ensures { (d : Doc) → IsDocument d → IsChoiceless d → HasLayout d false
        → IsWritten (F.costs task.now.factory.now) d [] written
        → IsFormOf (F.costs task.now.factory.now) task.now.limit d form.new }
{
    form.choices.clear();
    form.text = written.text;
    form.cost = written.cost;
    form.within = written.widest <= task.limit;
    form.weight = written.weight;
}

// The best layout of the document of rows, if the search finds it, counted on a new counter. Who counts no steps gives
// `Blank::new(1)`.
fn searched<F: Factory, L: Ledger>(
    task: &Task<F>,
    laid: &LaidRows,
    workspace: &mut Workspace<F::Cost>,
    blank: Blank,
) -> Result<Option<Best>, AllocError>
    requires name { blank.name ≡ L.name }
    requires parts { blank.parts ≡ L.parts }
    requires some_part { 0 < blank.parts }
    requires pieces { (d : Doc) → StandsAlone laid.now.rows.now d → most_pieces d < 2 ^ 32 }
    ensures { IfOk result (λ answer. IfSome answer (λ best. (d : Doc) → StandsAlone laid.now.rows.now d
        → IsBest (F.costs task.now.factory.now) task.now.limit d best.choices.items best.within)) }
{
    let mut steps: Steps<L> = Steps::new(blank);
    search_rows(
        task.alloc,
        laid,
        task.factory,
        task.limit,
        workspace,
        &mut steps,
    )
}

// Puts the best layout that was found of a cell in place of the form's. `false` comes where it has another layout than
// its line of a list that isn't made.
fn best_form<F: Factory>(
    alloc: Global,
    laid: &LaidRows,
    cell: u32,
    factory: &F,
    best: Best,
    form: &mut Form<F::Cost>,
) -> Result<bool, FormatError>
    requires { (w : ℕ) × IsBest (F.costs factory.now) w (laid_cell laid.now cell) best.choices.items best.within }
    ensures form { result ≡ Ok true → (w : ℕ)
        → IsBest (F.costs factory.now) w (laid_cell laid.now cell) best.choices.items best.within
        → IsFormOf (F.costs factory.now) w (laid_cell laid.now cell) form.new }
    ensures too_long { IsErrOf result FormatError.TooLong → (w : ℕ)
        → IsBest (F.costs factory.now) w (laid_cell laid.now cell) best.choices.items best.within
        → IsLongForm (F.costs factory.now) w (laid_cell laid.now cell) }
{
    let room = mem::replace(&mut form.text, String::new(alloc));
    let Some(written) = write_cell(laid, cell, &best.choices, factory, room)? else {
        return Ok(false);
    };
    *form = Form {
        choices: best.choices,
        text: written.text,
        cost: written.cost,
        within: best.within,
        weight: written.weight,
    };
    Ok(true)
}
