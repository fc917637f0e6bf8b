//! Groups of forms: the slots of a file in a row, with the blank lines behind each.

ghost use Rattle.std.specs.Prelude.{ℕ, ◌≡◌, ◌<◌, List, [], ◌∷◌, map, slice_get, IfOk, OnOk, IsErrOf};
ghost use Rattle.std.specs.List.{AllByRecursion};
ghost use Rattle.rf_base_optimum.specs.Paragraphs.{Paragraph};
ghost use Rattle.rf_base_grammar.specs.Token.{Token};
ghost use Rattle.rf_base_style.specs.Table.{StyleView};
ghost use Rattle.rf_base_tree.specs.Trees.{Tree as a_tree, Forest};
ghost use Rattle.rf_base_tree.specs.Slots.{Slot as a_slot};
ghost use Rattle.rf_base_file.specs.FileDocument.{top_part};
ghost use Rattle.rf_base_file.specs.ByForms.{blanks_before as blanks_of};
ghost use Rattle.rf_style.specs.StyleOf.{seen};
ghost use Rattle.rf_tree.specs.Kept.{IsTreeOf, HasNode};
ghost use Rattle.rf_tree.specs.Slots.{NodeSlot, NodeSlotStands, parts_in, read_slot};
ghost use Rattle.rf_tree.specs.Ahead.{TakesFirst};
ghost use Rattle.rf_tree.specs.Stretches.{stretched, IsStretch};
ghost use Rattle.rf_whole.specs.Groups.{IsRow, AreInRow};
ghost use Rattle.rf_joins.specs.Paragraphs.{blanks_or};
ghost use Rattle.rf_whole.specs.Laid.{AreLinesOf};
ghost use Rattle.rf_whole.specs.Rows.{AreRowLines, IsRowPast, AddsRow, PassesWithRow};

use crate::faults::FormatError;
use crate::forms::{Form, lay_form, no_form};
use crate::lines::{Lines, add_form, no_lines_yet};
use crate::tasks::{Desk, Drawer, Task};
use rf_cost::Factory;
use rf_lines::first_item;
use rf_tree::{At, SlotRef, Stretch, Tree};
use std::mem;

/// The layouts of slots of a file in a row, with the blank lines that stand before the next behind each, and so many
/// behind the last. Each is chosen by itself, within the task's columns. What is in the drawer before is nothing to
/// them.
///
/// `TooLong` comes exactly where they have more than 67,108,864 characters together, or their resolutions more
/// texts, line breaks and choices than that; `Memory` for want of memory.
pub fn group_lines<F: Factory>(
    task: &Task<F>,
    slots: Stretch<'_>,
    behind: u32,
    drawer: &mut Drawer<F::Cost>,
) -> Result<Lines<F::Cost>, FormatError>
    requires cursor { IsStretch slots }
    requires row { AreInRow (seen task.now.style.now) task.now.tree.now (stretched slots) }
    ensures lines { IfOk result (AreRowLines (F.costs task.now.factory.now) task.now.limit (seen task.now.style.now)
        task.now.tree.now (stretched slots.entry) behind) }
    ensures too_long { IsErrOf result FormatError.TooLong
        → IsRowPast (F.costs task.now.factory.now) task.now.limit (seen task.now.style.now) task.now.tree.now
        (stretched slots.entry) behind }
{
    let older = mem::replace(drawer, Drawer::new(task.alloc));
    let mut lines = no_lines_yet(task.alloc, task.factory, older.bytes)?;
    let mut desk = Desk::with_drawer(task.alloc, older)?;
    let mut form = no_form(task.alloc, task.factory);
    mem::swap(&mut form.text, &mut desk.drawer.text);
    let mut rest = slots;
    let mut next = rest.next();
    while let Some(slot) = next {
        next = rest.next();
        let between = blanks_at(task.tree, next, behind);
        add_slot(task, slot, between, &mut desk, &mut form, &mut lines)?;
    }
    *drawer = desk.into_drawer(form.text, lines.text.len());
    Ok(lines)
}

// Adds the layout of a slot behind the lines, with so many blank lines behind it. First it is put in place of the
// form's.
fn add_slot<'t, F: Factory>(
    task: &Task<'t, F>,
    slot: SlotRef<'_>,
    behind: u32,
    desk: &mut Desk<'t, F::Cost>,
    form: &mut Form<F::Cost>,
    lines: &mut Lines<F::Cost>,
) -> Result<(), FormatError>
    requires lines { (w : ℕ) × (ps : List Paragraph) × AreLinesOf (F.costs task.now.factory.now) w ps lines.old }
    requires row { AreInRow (seen task.now.style.now) task.now.tree.now (read_slot slot ∷ []) }
    ensures lines { OnOk result (AddsRow (F.costs task.now.factory.now) task.now.limit (seen task.now.style.now)
        task.now.tree.now (read_slot slot.entry ∷ []) behind lines.old lines.new) }
    ensures too_long { IsErrOf result FormatError.TooLong
        → PassesWithRow (F.costs task.now.factory.now) task.now.limit (seen task.now.style.now) task.now.tree.now
        (read_slot slot.entry ∷ []) behind lines.old }
{
    let slot = slot.to_slot(task.alloc)?;
    lay_form(task, &slot, desk, form)?;
    add_form(task.factory, lines, form, behind)
}

/// The blank lines before the first of these slots, or so many where there is no slot.
pub fn blanks_ahead(tree: &Tree, slots: Stretch<'_>, behind: u32) -> u32
    requires cursor { IsStretch slots }
    requires row { (style : StyleView) × AreInRow style tree.now (stretched slots) }
    ensures { (style : StyleView) (ts : List Token) (trees : Forest) (qs : List (a_slot a_tree))
        → IsRow style tree.now (stretched slots.entry) ts trees qs
        → result ≡ blanks_or behind ts (map (top_part style ts) qs) }
{
    let mut ahead = slots;
    blanks_at(tree, ahead.next(), behind)
}

// The blank lines before the first of slots in a row, or so many where there is none.
fn blanks_at(tree: &Tree, first: Option<SlotRef<'_>>, behind: u32) -> u32
    requires { (style : StyleView) × (all rest : List NodeSlot) × TakesFirst all first rest
        × AreInRow style tree.now all }
    ensures { (style : StyleView) (all rest : List NodeSlot) → TakesFirst all first.entry rest
        → (ts : List Token) (trees : Forest) (qs : List (a_slot a_tree)) → IsRow style tree.now all ts trees qs
        → result ≡ blanks_or behind ts (map (top_part style ts) qs) }
{
    match first {
        None => behind,
        Some(slot) => blanks_before(tree, slot_item(tree, slot)),
    }
}

// The number of the first item of a slot.
fn slot_item(tree: &Tree, slot: SlotRef<'_>) -> usize
    requires { AllByRecursion (HasNode tree.now) (parts_in (read_slot slot)) }
    ensures { (style : StyleView) (ts : List Token) (q : a_slot a_tree)
        → NodeSlotStands ts tree.now.nodes (read_slot slot.entry) q
        → result ≡ (top_part style ts q).first }
{
    match first_node(slot) {
        None => 0,
        Some(at) => first_item(tree, at),
    }
}

// The first node of a slot.
fn first_node(slot: SlotRef<'_>) -> Option<At>
    ensures { result ≡ slice_get (parts_in (read_slot slot.entry)) 0 }
{
    match slot.leads.first() {
        Some(at) => Some(*at),
        None => slot.key.or(slot.datum).or(slot.trailing),
    }
}

/// The blank lines before the item of this number, if it is there.
pub fn blanks_before(tree: &Tree, item: usize) -> u32
    ensures { (ts : List Token) (trees : Forest) → IsTreeOf tree.now ts trees → result ≡ blanks_of (slice_get ts item) }
{
    match tree.items.get(item) {
        None => 0,
        Some(item) => item.blanks,
    }
}
