//! The documents of top-level slots.

ghost use Rattle.std.specs.Prelude.{◌≡◌, IfOk, OnOk};
ghost use Rattle.rf_base_style.specs.Table.{IsStyle};
ghost use Rattle.rf_base_file.specs.FileDocument.{top_part};
ghost use Rattle.rf_style.specs.StyleOf.{seen};
ghost use Rattle.rf_tree.specs.Slots.{kept_slot};
ghost use Rattle.rf_ways.specs.Tops.{IsTop};
ghost use Rattle.rf_slot_rows.specs.Nodes.{OfSlot, PartPut, TopPut, place_of_tops};
ghost use Rattle.rf_slot_rows.specs.Growth.{SlotGrows, TopGrows};

use crate::context::Context;
use crate::nodes::put_slot;
use rf_base_file::Role;
use rf_rows::Rows;
use rf_style::Style;
use rf_tree::{Slot, Tree};
use rf_ways::Place;
use std::alloc::{AllocError, Global};

/// Puts the document of a top-level slot, in the style, on the stack.
///
/// For items that the style has settled, and a slot that isn't empty, it takes at most 200 nodes of a graph for each
/// item of the slot, 200 for each line end in an item, and 52 fewer. An `AllocError` comes for want of memory.
pub fn slot_rows<'t>(
    alloc: Global,
    tree: &'t Tree<'t>,
    style: &'t Style,
    slot: &Slot,
    rows: &mut Rows<'t>,
) -> Result<(), AllocError>
    requires top { IsTop tree.now slot.now }
    requires style { IsStyle (seen style.now) }
    ensures free { OnOk result (rows.new.free ≡ rows.old.free) }
    ensures put { OnOk result (TopPut (seen style.now) tree.now slot.now rows.old rows.new) }
    ensures grown { OnOk result (TopGrows (seen style.now) tree.now slot.now rows.old rows.new) }
{
    let context = Context { alloc, tree, style };
    put_top(&context, slot, rows)?;
    Ok(())
}

/// Puts a top-level slot. It gives the number of its last item.
///
/// An `AllocError` comes for want of memory.
pub fn put_top<'t>(
    context: &Context<'t>,
    slot: &Slot,
    rows: &mut Rows<'t>,
) -> Result<usize, AllocError>
    requires top { IsTop context.now.tree.now slot.now }
    ensures put { IfOk result (λ last. OfSlot context.now (kept_slot slot.now)
        (λ style ts s. PartPut (top_part style ts s) rows.old rows.new last)) }
    ensures grown { OnOk result (SlotGrows 28 context.now.tree.now (kept_slot slot.now) rows.old rows.new) }
{
    put_slot(context, slot.as_ref(), top_place(context.tree), rows)
}

/// Where top-level slots stand: in no list, and quoted by nothing.
pub fn top_place(tree: &Tree) -> Place
    ensures { result ≡ place_of_tops tree.now }
{
    Place {
        before: tree.nodes.len(),
        quoted: false,
        role: Role::Free,
        right: 0,
        behind: 0,
    }
}
