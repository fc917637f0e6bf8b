//! The slots of a list, read one after another from its entries.

ghost use Rattle.std.specs.Prelude.{◌≡◌, ◌≢◌, ◌==◌, ℕ, ◌<◌, ◌≤◌, Bool, true, Some, List, [], ◌∷◌, length, slice_get};
ghost use Rattle.std.specs.List.{AllByRecursion};
ghost use Rattle.std.specs.Option.{option_map};
ghost use Rattle.rf_base_grammar.specs.Token.{Token};
ghost use Rattle.rf_base_tree.specs.Trees.{Forest, Listed};
ghost use Rattle.rf_base_tree.specs.Slots.{Datum, entries_of, is_comment};
ghost use Rattle.rf_base_tree.specs.Cut.{slots_of};
ghost use Rattle.rf_tree.specs.Nodes.{UnfoldsTo};
ghost use Rattle.rf_tree.specs.Kept.{IsTreeOf, IsTree, HasNode, HasList};
ghost use Rattle.rf_tree.specs.Sorts.{sort_told, entry_at, entries_at, ref_at, IsNext, first_passes, is_trailing};
ghost use Rattle.rf_tree.specs.Sorts.{is_datum};
ghost use Rattle.rf_tree.specs.Sorts.{SplitsLeads, begins_with_key, Splits, first_sort, sort_passes};
ghost use Rattle.rf_tree.specs.Slots.{NodeSlotsStand, NodeSlotsBelow};
ghost use Rattle.rf_tree.specs.Ahead.{node_slots, slots_ahead, IsCursor, TakesFirst, TakesAlone, BeginWithDatum};
ghost use Rattle.rf_tree.specs.Ahead.{BeginWith};
ghost use Rattle.rf_tree.specs.declared.nodes.At.{At};
ghost use Rattle.rf_tree.specs.Told.{ListNode};

use crate::nodes::{At, Node};
use crate::sorts::{Sort, sort_of};
use crate::trees::Tree;

/// A slot whose comments stand where they stand among the nodes.
#[derive(Clone, Copy, Debug)]
pub struct SlotRef<'t> {
    /// The comments before the key or the datum, in order.
    pub leads: &'t [At],
    /// The keyword or the dot before the datum, if one belongs to it.
    pub key: Option<At>,
    /// The datum; a keyword or a dot without a datum behind it is one here. Comments at the end have none.
    pub datum: Option<At>,
    /// The line comment behind the datum on its line.
    pub trailing: Option<At>,
}

/// The slots of a list that are still to come.
#[derive(Clone, Copy)]
pub struct Slots<'t> {
    // The tree of the list.
    tree: &'t Tree<'t>,
    // The entries that are left.
    entries: &'t [At],
    // What the first of them is.
    sort: Option<Sort>,
    // Whether a key can stand there: in a list, and not at the top of the file.
    in_list: bool,
}

/// The slots of a list, in order. They are read from the list's entries, without memory.
pub fn slots_in<'t>(tree: &'t Tree<'t>, list: At) -> Slots<'t>
    requires tree { IsTree tree.now }
    requires list { HasList tree.now list }
    ensures cursor { IsCursor result }
    ensures slots { (ts : List Token) (trees : Forest) (opener : ℕ) (entries : Forest) (closer : ℕ)
        → IsTreeOf tree.now ts trees → UnfoldsTo ts tree.now.nodes list.0 (Listed opener entries closer)
        → NodeSlotsStand ts tree.now.nodes (slots_ahead result) (slots_of true (entries_of ts entries)) }
    ensures below { NodeSlotsBelow list.0 (slots_ahead result) }
{
    begin(tree, true, list_entries(tree, list))
}

impl<'t> Slots<'t> {
    /// The next slot, if one is left.
    pub fn next(&mut self) -> Option<SlotRef<'t>>
        requires { IsCursor self.old }
        ensures cursor { IsCursor self.new }
        ensures next { TakesFirst (slots_ahead self.old) result (slots_ahead self.new) }
    {
        if self.entries.is_empty() {
            return None;
        }
        let (slot, entries, sort) = next_slot(self.tree, self.in_list, self.entries, self.sort);
        self.entries = entries;
        self.sort = sort;
        Some(slot)
    }

    /// The datum of the next slot, where one is left and its datum, which is neither a keyword nor a dot, is all that
    /// it holds. Otherwise it takes none.
    #[inline(always)]
    pub fn next_alone(&mut self) -> Option<At>
        requires { IsCursor self.old }
        ensures cursor { IsCursor self.new }
        ensures next { TakesAlone (slots_ahead self.old) result (slots_ahead self.new) }
    {
        match (self.sort, self.entries.split_first()) {
            (Some(Sort::Datum), Some((at, behind))) => {
                let sort = first_sort(self.tree, behind);
                if is_trailing(sort) {
                    return None;
                }
                self.entries = behind;
                self.sort = sort;
                Some(*at)
            }
            _ => None,
        }
    }

    /// The datum that the next slot begins with, where one is left that begins with a datum, and that is neither a
    /// keyword nor a dot. A comment may stand behind it on its line.
    #[inline(always)]
    pub fn first_datum(&self) -> Option<At>
        requires { IsCursor self.now }
        ensures { BeginWithDatum (slots_ahead self.now) result }
    {
        match (self.sort, self.entries.split_first()) {
            (Some(Sort::Datum), Some((at, _))) => Some(*at),
            _ => None,
        }
    }

    /// The node that the next slot begins with, if one is left.
    pub fn first(&self) -> Option<At>
        ensures { BeginWith (slots_ahead self.now) result }
    {
        match self.entries.first() {
            Some(at) => Some(*at),
            None => None,
        }
    }

    /// Whether no slot is left.
    pub fn is_empty(&self) -> bool
        ensures { result ≡ (length (slots_ahead self.now) == 0) }
    {
        self.entries.is_empty()
    }

    /// The number of entries that are left: there are no more slots than that.
    pub fn most(&self) -> usize
        ensures { length (slots_ahead self.now) ≤ result }
    {
        self.entries.len()
    }
}

/// The slots of these entries of a list, or of the file.
pub fn begin<'t>(tree: &'t Tree<'t>, in_list: bool, entries: &'t [At]) -> Slots<'t>
    requires tree { IsTree tree.now }
    requires there { AllByRecursion (HasNode tree.now) entries.now }
    ensures cursor { IsCursor result }
    ensures ahead { slots_ahead result ≡ node_slots tree.now in_list entries.now }
{
    Slots {
        tree,
        entries,
        sort: first_sort(tree, entries),
        in_list,
    }
}

/// The nodes of what stands in the list.
pub fn list_entries<'t>(tree: &'t Tree, list: At) -> &'t [At]
    requires { HasList tree.now list }
    ensures { (opener : ℕ) (entries : List At) (closer : ℕ)
        → slice_get tree.now.nodes list.0 ≡ Some (ListNode opener entries closer) → result.now ≡ entries }
{
    match tree.nodes.node(list) {
        Node::List { entries, .. } => entries,
        _ => &[],
    }
}

// The first slot of these entries, of which there are some and the first is of this sort, the entries behind it, and
// what the first of those is.
fn next_slot<'p>(
    tree: &Tree,
    in_list: bool,
    entries: &'p [At],
    sort: Option<Sort>,
) -> (SlotRef<'p>, &'p [At], Option<Sort>)
    requires tree { IsTree tree.now }
    requires there { AllByRecursion (HasNode tree.now) entries.now }
    requires some { entries.now ≢ [] }
    requires sort { option_map sort_told sort ≡ first_sort (entries_at tree.now entries.now) }
    ensures next { IsNext in_list (entries_at tree.now entries.now) (ref_at tree.now result.0)
        (entries_at tree.now result.1.now) }
    ensures there { AllByRecursion (HasNode tree.now) result.1.now }
    ensures sort { option_map sort_told result.2 ≡ first_sort (entries_at tree.now result.1.now) }
{
    if let (Some(Sort::Datum), Some((at, behind))) = (sort, entries.split_first()) {
        return datum_slot(tree, *at, behind);
    }
    let (leads, rest, sort) = split_leads(tree, entries, sort);
    let is_key = begins_with_key(tree, in_list, rest, sort);
    let (key, rest, sort) = split_if(tree, is_key, rest, sort);
    let (datum, rest, sort) = split_if(tree, !rest.is_empty(), rest, sort);
    let (trailing, rest, sort) = split_if(tree, is_trailing(sort), rest, sort);
    let slot = SlotRef {
        leads,
        key,
        datum,
        trailing,
    };
    (slot, rest, sort)
}

// The slot of this datum, which is neither a keyword nor a dot and has these entries behind it, the entries behind the
// slot, and what the first of those is.
fn datum_slot<'p>(tree: &Tree, at: At, behind: &'p [At]) -> (SlotRef<'p>, &'p [At], Option<Sort>)
    requires tree { IsTree tree.now }
    requires datum { (entry_at tree.now at).sort ≡ Datum }
    requires there { AllByRecursion (HasNode tree.now) behind.now }
    ensures next { (in_list : Bool) → IsNext in_list (entries_at tree.now (at ∷ behind.now))
        (ref_at tree.now result.0) (entries_at tree.now result.1.now) }
    ensures there { AllByRecursion (HasNode tree.now) result.1.now }
    ensures sort { option_map sort_told result.2 ≡ first_sort (entries_at tree.now result.1.now) }
{
    let sort = first_sort(tree, behind);
    let (trailing, rest, sort) = split_if(tree, is_trailing(sort), behind, sort);
    let slot = SlotRef {
        leads: &[],
        key: None,
        datum: Some(at),
        trailing,
    };
    (slot, rest, sort)
}

// The comments that the entries begin with, of which the first is of this sort, the entries behind them, and what the
// first of those is.
fn split_leads<'p>(
    tree: &Tree,
    entries: &'p [At],
    sort: Option<Sort>,
) -> (&'p [At], &'p [At], Option<Sort>)
    requires tree { IsTree tree.now }
    requires there { AllByRecursion (HasNode tree.now) entries.now }
    requires sort { option_map sort_told sort ≡ first_sort (entries_at tree.now entries.now) }
    ensures leads { SplitsLeads tree.now entries.now result.0.now result.1.now }
    ensures sort { option_map sort_told result.2 ≡ first_sort (entries_at tree.now result.1.now) }
{
    let mut count = 0;
    let mut rest = entries;
    let mut first = sort;
    while let (Some(_), behind, next) = split_if(tree, is_comment(first), rest, first) {
        count += 1;
        rest = behind;
        first = next;
    }
    (&entries[..count], rest, first)
}

// The first of the entries, which is of this sort, where it is to be taken, the entries behind it, and what the first
// of those is.
fn split_if<'p>(
    tree: &Tree,
    taken: bool,
    entries: &'p [At],
    sort: Option<Sort>,
) -> (Option<At>, &'p [At], Option<Sort>)
    requires tree { IsTree tree.now }
    requires there { AllByRecursion (HasNode tree.now) entries.now }
    requires some { taken ≡ true → 0 < length entries.now }
    requires sort { option_map sort_told sort ≡ first_sort (entries_at tree.now entries.now) }
    ensures split { Splits taken entries.now result.0 result.1.now }
    ensures there { AllByRecursion (HasNode tree.now) result.1.now }
    ensures sort { option_map sort_told result.2 ≡ first_sort (entries_at tree.now result.1.now) }
{
    if !taken {
        return (None, entries, sort);
    }
    match entries.split_first() {
        Some((first, behind)) => (Some(*first), behind, first_sort(tree, behind)),
        None => (None, entries, sort),
    }
}

// Whether what is of this sort, if there is anything, is a comment.
fn is_comment(sort: Option<Sort>) -> bool
    ensures { result ≡ sort_passes is_comment (option_map sort_told sort) }
{
    matches!(sort, Some(Sort::Trailing | Sort::Remark))
}

// Whether it is a comment behind another item on its line.
fn is_trailing(sort: Option<Sort>) -> bool
    ensures { result ≡ sort_passes is_trailing (option_map sort_told sort) }
{
    matches!(sort, Some(Sort::Trailing))
}

// Whether the entries begin with a datum that is neither a keyword nor a dot.
fn begins_with_datum(tree: &Tree, entries: &[At]) -> bool
    requires tree { IsTree tree.now }
    requires there { AllByRecursion (HasNode tree.now) entries.now }
    ensures { result ≡ first_passes is_datum (entries_at tree.now entries.now) }
{
    matches!(first_sort(tree, entries), Some(Sort::Datum))
}

// Whether the entries, of which the first is of this sort, are of a list and begin with a keyword or a dot and its
// datum.
fn begins_with_key(tree: &Tree, in_list: bool, entries: &[At], sort: Option<Sort>) -> bool
    requires tree { IsTree tree.now }
    requires there { AllByRecursion (HasNode tree.now) entries.now }
    requires sort { option_map sort_told sort ≡ first_sort (entries_at tree.now entries.now) }
    ensures { result ≡ begins_with_key in_list (entries_at tree.now entries.now) }
{
    if !in_list {
        return false;
    }
    match (sort, entries.split_first()) {
        (Some(sort), Some((_, behind))) => sort.may_be_key() && begins_with_datum(tree, behind),
        _ => false,
    }
}

// What the first of the entries is.
#[inline(always)]
fn first_sort(tree: &Tree, entries: &[At]) -> Option<Sort>
    requires tree { IsTree tree.now }
    requires there { AllByRecursion (HasNode tree.now) entries.now }
    ensures { option_map sort_told result ≡ first_sort (entries_at tree.now entries.now) }
{
    match entries.first() {
        Some(at) => Some(sort_of(tree, *at)),
        None => None,
    }
}
