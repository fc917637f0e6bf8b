//! A form on one line, straight from its tree.

ghost use Rattle.std.specs.Prelude.{◌≡◌, ◌+◌, ◌≤◌, ℕ, length, Ok, true, IfSome};
ghost use Rattle.rf_base_document.specs.Document.{Doc, IsDocument};
ghost use Rattle.rf_base_file.specs.FileDocument.{style_doc as slot_document};
ghost use Rattle.rf_base_lines.specs.Laws.{IsChosenLine};
ghost use Rattle.rf_style.specs.StyleOf.{seen};
ghost use Rattle.rf_ways.specs.Holds.{OfSlot};
ghost use Rattle.rf_ways.specs.Tops.{IsTop};
ghost use Rattle.rf_whole.specs.Laid.{IsFormOf};

use crate::forms::Form;
use crate::tasks::Task;
use rf_base_document::LAYOUT_LIMIT;
use rf_cost::Factory;
use rf_lines::{Page, write_line};
use rf_tree::Slot;
use std::alloc::AllocError;

/// The layout of a top-level slot that stands on one line and costs nothing there: then it is the best one, and its
/// document isn't made. It is put in place of the form's. What the page holds before is nothing to it.
///
/// `false` says nothing of the slot. An `AllocError` comes for want of memory. What the form is then has no meaning.
pub fn one_line_form<'t, F: Factory>(
    task: &Task<'t, F>,
    slot: &Slot,
    page: &mut Page<'t>,
    form: &mut Form<F::Cost>,
) -> Result<bool, AllocError>
    requires top { IsTop task.now.tree.now slot.now }
    ensures { result ≡ Ok true → OfSlot task.now.tree.now slot.now (λ ts s.
        IsDocument (slot_document (seen task.now.style.now) ts s) → IsFormOf (F.costs task.now.factory.now)
        task.now.limit (slot_document (seen task.now.style.now) ts s) form.new) }
{
    let Some(free) = task.factory.free_up_to(task.limit) else {
        return Ok(false);
    };
    if write_line(task.tree, task.style, slot, free, page)? {
        page_form(task.factory, page, form)
    } else {
        Ok(false)
    }
}

// Puts the layout on the page, which is the best one and costs nothing, in place of the form's. `false` comes past the
// limits of layouts.
fn page_form<F: Factory>(
    factory: &F,
    page: &Page,
    form: &mut Form<F::Cost>,
) -> Result<bool, AllocError>
    ensures { result ≡ Ok true → (w : ℕ) (d : Doc) → IsChosenLine (F.costs factory.now) w d page.now.line
        → IsFormOf (F.costs factory.now) w d form.new }
{
    let Some(weight) = page_weight(page) else {
        return Ok(false);
    };
    let text = page.text();
    if text.len() > LAYOUT_LIMIT as usize {
        return Ok(false);
    }
    form.choices.clear();
    form.choices.extend_from_slice(page.choices())?;
    form.text.clear();
    form.text.push_str(text)?;
    form.cost = factory.text(0, 0);
    form.within = true;
    form.weight = weight;
    Ok(true)
}

// How many texts and choices the page has, within the limit of layouts.
fn page_weight(page: &Page) -> Option<u32>
    ensures sum { IfSome result (λ weight. weight ≡ page.now.line.words + length page.now.line.how) }
    ensures light { IfSome result (λ weight. weight ≤ LAYOUT_LIMIT) }
{
    let Ok(choices) = u32::try_from(page.choices().len()) else {
        return None;
    };
    match page.words().checked_add(choices) {
        Some(weight) if weight <= LAYOUT_LIMIT => Some(weight),
        _ => None,
    }
}
