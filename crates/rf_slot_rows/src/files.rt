//! The documents of files.

ghost use Rattle.std.specs.Prelude.{◌≡◌, [], ◌∷◌, length, map, OnOk};
ghost use Rattle.rf_base_document.specs.Sequence.{seq};
ghost use Rattle.rf_base_style.specs.Table.{IsStyle};
ghost use Rattle.rf_base_tree.specs.declared.separators.Want.TheVariants as Want;
ghost use Rattle.rf_base_file.specs.Rows.{row_docs, steps_wanting};
ghost use Rattle.rf_base_file.specs.FileDocument.{file_docs, file_doc};
ghost use Rattle.rf_style.specs.StyleOf.{seen};
ghost use Rattle.rf_tree.specs.Kept.{IsTree};
ghost use Rattle.rf_tree.specs.Slots.{kept_slot, SlotsBelow};
ghost use Rattle.rf_ways.specs.Holds.{OfFile};
ghost use Rattle.rf_rows.specs.Puts.{Puts};
ghost use Rattle.rf_ways.specs.Nodes.{AreSlots};
ghost use Rattle.rf_slot_rows.specs.Nodes.{OfSlots, tops_of};
ghost use Rattle.rf_slot_rows.specs.Growth.{SlotsGrow, TopsGrow, FileGrows};

use crate::context::Context;
use crate::firsts::slot_first;
use crate::gaps::put_gap_behind;
use crate::joins::join;
use crate::tops::put_top;
use rf_rows::Rows;
use rf_style::Style;
use rf_tree::{Slot, Tree, Want, tops};
use std::alloc::{AllocError, Global};

/// Puts the document of the whole file, in the style, on the stack, as one piece.
///
/// Each slot of the file stands on a line of its own, and a line end behind the last one; a file of no slot is a text
/// of nothing. For items that the style has settled, it takes at most 200 nodes of a graph for each item, 200 for each
/// line end in an item, and 8 more. An `AllocError` comes for want of memory.
pub fn file_rows<'t>(
    alloc: Global,
    tree: &'t Tree<'t>,
    style: &'t Style,
    rows: &mut Rows<'t>,
) -> Result<(), AllocError>
    requires tree { IsTree tree.now }
    requires style { IsStyle (seen style.now) }
    ensures free { OnOk result (rows.new.free ≡ rows.old.free) }
    ensures put { OnOk result (OfFile tree.now
        (λ ts trees. Puts rows.old rows.new (file_doc (seen style.now) ts trees ∷ []))) }
    ensures grown { OnOk result (FileGrows (seen style.now) tree.now rows.old rows.new) }
{
    let context = Context { alloc, tree, style };
    let slots = tops(alloc, tree)?;
    put_file(&context, &slots, rows)
}

// Puts the document of a file of these slots.
fn put_file<'t>(
    context: &Context<'t>,
    slots: &[Slot],
    rows: &mut Rows<'t>,
) -> Result<(), AllocError>
    requires slots { AreSlots context.now.tree.now (map kept_slot slots.now) }
    requires below { SlotsBelow (length context.now.tree.now.nodes) slots.now }
    ensures put { OnOk result (OfSlots context.now (map kept_slot slots.now) (λ style ts ss.
        Puts rows.old rows.new (seq (file_docs ts (tops_of style ts ss)) ∷ []))) }
    ensures grown { OnOk result (TopsGrow context.now.tree.now (map kept_slot slots.now) rows.old rows.new) }
{
    if slots.is_empty() {
        rows.text("", 0)
    } else {
        let height = rows.height();
        put_tops(context, slots, rows)?;
        rows.hard()?;
        join(height, rows)
    }
}

// Puts the slots of a file, piece by piece, each behind the first one on a line of its own.
fn put_tops<'t>(
    context: &Context<'t>,
    slots: &[Slot],
    rows: &mut Rows<'t>,
) -> Result<(), AllocError>
    requires slots { AreSlots context.now.tree.now (map kept_slot slots.now) }
    requires below { SlotsBelow (length context.now.tree.now.nodes) slots.now }
    ensures put { OnOk result (OfSlots context.now (map kept_slot slots.now) (λ style ts ss.
        Puts rows.old rows.new (row_docs ts (steps_wanting Want.Must (tops_of style ts ss))))) }
    ensures grown { OnOk result (SlotsGrow 0 context.now.tree.now (map kept_slot slots.now) rows.old rows.new) }
{
    let mut last = None;
    for slot in slots {
        let next = slot_first(context.tree, slot.as_ref());
        put_gap_behind(context.tree, last, next, Want::Must, rows)?;
        let end = put_top(context, slot, rows)?;
        last = Some(end);
    }
    Ok(())
}
