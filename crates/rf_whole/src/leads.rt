//! A form that is comments alone, comment by comment.

ghost use Rattle.std.specs.Prelude.{◌≡◌, Ok, true, IsErrOf};
ghost use Rattle.rf_base_file.specs.FileDocument.{style_doc as slot_document};
ghost use Rattle.rf_style.specs.StyleOf.{seen};
ghost use Rattle.rf_ways.specs.Holds.{OfSlot};
ghost use Rattle.rf_ways.specs.Tops.{IsTop};
ghost use Rattle.rf_whole.specs.Forms.{IsLongForm};
ghost use Rattle.rf_whole.specs.Laid.{IsFormOf};

use crate::faults::FormatError;
use crate::forms::Form;
use crate::rows::put_settled;
use crate::sheets::write_leads;
use crate::tasks::Task;
use rf_cost::Factory;
use rf_rows::Rows;
use rf_slot_rows::is_comments;
use rf_tree::Slot;
use std::mem;

/// Puts the layout of a top-level slot that is comments alone in place of the form's: there is no choice in it, and it
/// takes the room of one comment. What stands on the stack of rows before is nothing to it.
///
/// `false` says nothing of the slot. `TooLong` comes only where its layout has more than 67,108,864 characters, or more
/// texts and line breaks than that; `Memory` for want of memory. What the form is then has no meaning.
pub fn leads_form<'t, F: Factory>(
    task: &Task<'t, F>,
    slot: &Slot,
    rows: &mut Rows<'t>,
    form: &mut Form<F::Cost>,
) -> Result<bool, FormatError>
    requires top { IsTop task.now.tree.now slot.now }
    ensures form { result ≡ Ok true → OfSlot task.now.tree.now slot.now (λ ts s. IsFormOf
        (F.costs task.now.factory.now) task.now.limit (slot_document (seen task.now.style.now) ts s) form.new) }
    ensures too_long { IsErrOf result FormatError.TooLong → OfSlot task.now.tree.now slot.now (λ ts s.
        IsLongForm (F.costs task.now.factory.now) task.now.limit (slot_document (seen task.now.style.now) ts s)) }
{
    if !is_comments(task.tree, slot) {
        return Ok(false);
    }
    let room = mem::replace(&mut form.text, String::new(task.alloc));
    let Some(written) = write_leads(task, slot, rows, room)? else {
        return Ok(false);
    };
    put_settled(task, written, form);
    Ok(true)
}
