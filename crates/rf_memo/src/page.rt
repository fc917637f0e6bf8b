//! Pages: what was put for one node.
//!
//! A function's line `tactic` names the definition that its proof opens.

ghost use Rattle.std.specs.Prelude.{◌≡◌, ◌≤◌, [], ◌∷◌, length, take, drop, Some, None, IfErr, OnOk, OnErr};
ghost use Rattle.std.specs.Option.{option_copied};
ghost use Rattle.rf_memo.specs.Page.{value_at, stands_at, precedes, first_value, Puts, EachBefore, IsOrdered};
ghost use Rattle.rf_memo.specs.Page.{StartsFrom};

use std::alloc::Global;
use std::marker::Model;

// What was put at a column and an indentation.
#[derive(Drop)]
pub struct Entry<T: Drop> {
    pub col: u32,
    pub indent: u32,
    pub value: T,
}

// What was put for one node: what was put first stands in place, and the others by falling column, and at one column by
// rising indentation. A frontier is mostly asked for behind measures, whose last columns fall, so that the next entry
// comes mostly near the end. Contracts see the list of all entries.
#[derive(Drop)]
pub struct Page<T: Drop> {
    first: Entry<T>,
    others: Vec<Entry<T>>,
}

impl<T: Drop> Model for Page<T> {
    ghost use Rattle.std.specs.Prelude.{List, ◌∷◌};
    ghost use Rattle.rf_memo.specs.declared.page.Entry.{Entry};
    ghost use Rattle.rf_memo.specs.Page.{IsOrdered};

    ghost Value = { List (Entry T) };

    ghost view = { λ p. p.first ∷ p.others.items };

    ghost invariant = { λ p. IsOrdered p.others.items };
}

impl<T: Drop> Page<T> {
    /// The page of one value. It takes no memory.
    #[tactic(auto, unfolding(crate::specs::Page::IsOrdered))]
    pub fn one(alloc: Global, col: u32, indent: u32, value: T) -> Page<T>
        ensures { result ≡ record { col = col; indent = indent; value = value } ∷ [] }
    {
        Page {
            first: Entry { col, indent, value },
            others: Vec::new(alloc),
        }
    }

    /// The value at the column and the indentation, where there is one. It takes no memory.
    pub fn get(&self, col: u32, indent: u32) -> Option<&T>
        ensures { option_copied result ≡ value_at self.now col indent }
    {
        if stands(&self.first, col, indent) {
            return Some(&self.first.value);
        }
        found(self.others.as_slice(), col, indent)
    }

    /// Puts the value at the column and the indentation, where there is none. A refusal hands the value back and
    /// changes nothing.
    pub fn put(&mut self, col: u32, indent: u32, value: T) -> Result<(), T>
        requires { value_at self.old col indent ≡ None }
        ensures put { OnOk result (Puts self.old self.new col indent value) }
        ensures value_returned { IfErr result (λ back. back ≡ value) }
        ensures unchanged { OnErr result (self.new ≡ self.old) }
    {
        insert(&mut self.others, col, indent, value)
    }

    /// The value that was put first.
    pub fn into_first(self) -> T
        ensures { first_value self ≡ Some result }
    {
        let Page { first, others: _ } = self;
        let Entry {
            col: _,
            indent: _,
            value,
        } = first;
        value
    }
}

// Whether this is the entry's place.
fn stands<T: Drop>(entry: &Entry<T>, col: u32, indent: u32) -> bool
    ensures { result ≡ stands_at entry.now col indent }
{
    col == entry.col && indent == entry.indent
}

// Whether the entry comes before the place.
fn comes_before<T: Drop>(entry: &Entry<T>, col: u32, indent: u32) -> bool
    ensures { result ≡ precedes entry.now.col entry.now.indent col indent }
{
    if entry.col == col {
        entry.indent < indent
    } else {
        col < entry.col
    }
}

// Puts the value among ordered entries.
fn insert<T: Drop>(entries: &mut Vec<Entry<T>>, col: u32, indent: u32, value: T) -> Result<(), T>
    requires ordered { IsOrdered entries.old.items }
    requires new { value_at entries.old.items col indent ≡ None }
    ensures ordered { IsOrdered entries.new.items }
    ensures put { OnOk result (Puts entries.old.items entries.new.items col indent value) }
    ensures value_returned { IfErr result (λ back. back ≡ value) }
    ensures unchanged { OnErr result (entries.new.items ≡ entries.old.items) }
{
    let at = place_of(entries.as_slice(), col, indent);
    match entries.insert(at, Entry { col, indent, value }) {
        Ok(()) => Ok(()),
        Err(refused) => Err(refused.value.value),
    }
}

// The value at the place among ordered entries, if there is one.
fn found<T: Drop>(entries: &[Entry<T>], col: u32, indent: u32) -> Option<&T>
    requires { IsOrdered entries.now }
    ensures { option_copied result ≡ value_at entries.now col indent }
{
    let at = place_of(entries, col, indent);
    if at >= entries.len() {
        return None;
    }
    if !stands(&entries[at], col, indent) {
        return None;
    }
    Some(&entries[at].value)
}

// The number of the first entry that doesn't come before the place.
fn place_of<T: Drop>(entries: &[Entry<T>], col: u32, indent: u32) -> usize
    requires { IsOrdered entries.now }
    ensures within { result ≤ length entries.now }
    ensures before { EachBefore col indent (take result entries.now) }
    ensures behind { StartsFrom col indent (drop result entries.now) }
{
    let (from, to) = about(entries, col, indent);
    let mut low = from;
    let mut high = to;
    while low < high {
        let middle = low + (high - low) / 2;
        if comes_before(&entries[middle], col, indent) {
            low = middle + 1;
        } else {
            high = middle;
        }
    }
    low
}

// Two numbers between which that of the first entry stands that doesn't come before the place, sought from the end in
// growing steps, since it is mostly near.
fn about<T: Drop>(entries: &[Entry<T>], col: u32, indent: u32) -> (usize, usize)
    requires { IsOrdered entries.now }
    ensures order { result.0 ≤ result.1 }
    ensures within { result.1 ≤ length entries.now }
    ensures before { EachBefore col indent (take result.0 entries.now) }
    ensures behind { StartsFrom col indent (drop result.1 entries.now) }
{
    let mut high = entries.len();
    let mut step = 1usize;
    while step <= high {
        let at = high - step;
        if comes_before(&entries[at], col, indent) {
            return (at + 1, high);
        }
        high = at;
        step = step.saturating_mul(2);
    }
    (0, high)
}
