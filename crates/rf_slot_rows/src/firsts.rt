//! Where slots begin.

ghost use Rattle.rf_tree.specs.Slots.{read_slot};
ghost use Rattle.rf_ways.specs.Nodes.{IsSlot};
ghost use Rattle.rf_slot_rows.specs.Nodes.{MayBeNode, IsSlotFirst, IsFirstOr};

use rf_lines::first_item;
use rf_tree::{At, SlotRef, Tree};

/// The number of the first item of a slot, or 0 of a slot of nothing.
pub fn slot_first(tree: &Tree, slot: SlotRef<'_>) -> usize
    requires { IsSlot tree.now (read_slot slot) }
    ensures { IsSlotFirst tree.now (read_slot slot.entry) result }
{
    match slot.leads.first() {
        Some(at) => first_item(tree, *at),
        None => {
            let trailing = first_of(tree, slot.trailing, 0);
            let datum = first_of(tree, slot.datum, trailing);
            first_of(tree, slot.key, datum)
        }
    }
}

// The number of the first item of a node, or this number where there is no node.
fn first_of(tree: &Tree, at: Option<At>, other: usize) -> usize
    requires { MayBeNode tree.now at }
    ensures { IsFirstOr tree.now at other result }
{
    match at {
        None => other,
        Some(at) => first_item(tree, at),
    }
}
