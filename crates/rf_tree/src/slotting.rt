//! Slots: what stands together on a line of a list or of the file.

ghost use Rattle.std.specs.Prelude.{◌≡◌, ℕ, false, true, List, length, map, IfOk};
ghost use Rattle.std.specs.List.{AllByRecursion};
ghost use Rattle.rf_base_grammar.specs.Token.{Token};
ghost use Rattle.rf_base_tree.specs.Trees.{Forest, Listed};
ghost use Rattle.rf_base_tree.specs.Slots.{entries_of};
ghost use Rattle.rf_base_tree.specs.Cut.{slots_of};
ghost use Rattle.rf_tree.specs.Nodes.{UnfoldsTo};
ghost use Rattle.rf_tree.specs.Kept.{IsTreeOf, IsTree, HasNode, HasList};
ghost use Rattle.rf_tree.specs.Slots.{SlotsStand, SlotsBelow, NodeSlotsStand, NodeSlotsBelow, kept_slot, read_slot};
ghost use Rattle.rf_tree.specs.Ahead.{node_slots, slots_ahead, IsCursor};

use crate::cursors::{SlotRef, Slots, begin, list_entries};
use crate::nodes::At;
use crate::trees::Tree;
use std::alloc::{AllocError, Global};

/// What stands together on a line: comments, a key, a datum, and a comment behind it.
#[derive(Debug, Drop)]
pub struct Slot {
    /// The comments before the key or the datum, in order.
    pub leads: Vec<At>,
    /// The keyword or the dot before the datum, if one belongs to it.
    pub key: Option<At>,
    /// The datum; a keyword or a dot without a datum behind it is one here. Comments at the end have none.
    pub datum: Option<At>,
    /// The line comment behind the datum on its line.
    pub trailing: Option<At>,
}

impl Slot {
    /// The slot, with its comments where they stand.
    pub fn as_ref(&self) -> SlotRef<'_>
        ensures { read_slot result ≡ kept_slot self.now }
    {
        SlotRef {
            leads: &self.leads,
            key: self.key,
            datum: self.datum,
            trailing: self.trailing,
        }
    }
}

impl<'t> SlotRef<'t> {
    /// The slot with a copy of its comments. An `AllocError` comes for want of memory.
    pub fn to_slot(self, alloc: Global) -> Result<Slot, AllocError>
        ensures { IfOk result (λ slot. kept_slot slot ≡ read_slot self.entry) }
    {
        Ok(Slot {
            leads: self.leads.to_vec(alloc)?,
            key: self.key,
            datum: self.datum,
            trailing: self.trailing,
        })
    }
}

/// The slots of the file, in order. There are no keys. They are read from what stands at the top, without memory.
pub fn tops_in<'t>(tree: &'t Tree<'t>) -> Slots<'t>
    requires { IsTree tree.now }
    ensures cursor { IsCursor result }
    ensures slots { (ts : List Token) (trees : Forest) → IsTreeOf tree.now ts trees
        → NodeSlotsStand ts tree.now.nodes (slots_ahead result) (slots_of false (entries_of ts trees)) }
    ensures below { NodeSlotsBelow (length tree.now.nodes) (slots_ahead result) }
{
    begin(tree, false, &tree.tops)
}

/// The slots of the file, in order. There are no keys.
///
/// The time is linear in the number of entries. An `AllocError` comes for want of memory.
pub fn tops(alloc: Global, tree: &Tree) -> Result<Vec<Slot>, AllocError>
    requires { IsTree tree.now }
    ensures slots { IfOk result (λ slots. (ts : List Token) (trees : Forest) → IsTreeOf tree.now ts trees
        → SlotsStand ts tree.now.nodes slots.items (slots_of false (entries_of ts trees))) }
    ensures below { IfOk result (λ slots. SlotsBelow (length tree.now.nodes) slots.items) }
{
    cut(alloc, tree, false, &tree.tops)
}

/// The slots of a list, in order: in `(#:a b c)` that of `b` with its key `#:a`, and that of `c`.
///
/// The time is linear in the number of entries. An `AllocError` comes for want of memory.
pub fn slots(alloc: Global, tree: &Tree, list: At) -> Result<Vec<Slot>, AllocError>
    requires tree { IsTree tree.now }
    requires list { HasList tree.now list }
    ensures slots { IfOk result (λ slots. (ts : List Token) (trees : Forest) (opener : ℕ) (entries : Forest)
        (closer : ℕ)
        → IsTreeOf tree.now ts trees → UnfoldsTo ts tree.now.nodes list.0 (Listed opener entries closer)
        → SlotsStand ts tree.now.nodes slots.items (slots_of true (entries_of ts entries))) }
    ensures below { IfOk result (λ slots. SlotsBelow list.0 slots.items) }
{
    cut(alloc, tree, true, list_entries(tree, list))
}

// The slots of these entries of a list, or of the file.
fn cut(alloc: Global, tree: &Tree, in_list: bool, entries: &[At]) -> Result<Vec<Slot>, AllocError>
    requires tree { IsTree tree.now }
    requires there { AllByRecursion (HasNode tree.now) entries.now }
    ensures { IfOk result (λ slots. map kept_slot slots.items ≡ node_slots tree.now in_list entries.now) }
{
    let mut slots = Vec::with_capacity(alloc, entries.len())?;
    let mut ahead = begin(tree, in_list, entries);
    while let Some(slot) = ahead.next() {
        slots.push(slot.to_slot(alloc)?)?;
    }
    Ok(slots)
}
