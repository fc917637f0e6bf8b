//! The memo.

ghost use Rattle.std.specs.Prelude.{◌≡◌, ℕ, ◌<◌, None, IfErr, OnOk, OnErr, length, slice_index_or};
ghost use Rattle.std.specs.Bool.{OnTrue};
ghost use Rattle.std.specs.Option.{option_copied};
ghost use Rattle.rf_memo.specs.Memo.{found, entries_by_node, IsOwned, PutsAt, SameFound};

use crate::page::Page;
use rf_frontier::Frontier;
use std::alloc::{AllocError, Global};
use std::marker::Model;

/// Which frontier was put for a node at a column and an indentation, in columns. Contracts ask `found` of a
/// memo. A node that nothing was put for costs one word.
#[derive(Drop)]
pub struct Memo<C: Copy> {
    alloc: Global,
    // By node: 0, or one more than the number of its page.
    places: Vec<usize>,
    // Each with its node.
    pages: Vec<(usize, Page<Frontier<C>>)>,
}

impl<C: Copy> Model for Memo<C> {
    ghost use Rattle.std.specs.Prelude.{List};
    ghost use Rattle.rf_base_cost.specs.declared.measures.Measure.{Measure};
    ghost use Rattle.rf_frontier.specs.declared.hows.HowId.{HowId};
    ghost use Rattle.rf_memo.specs.declared.page.Entry.{Entry};

    ghost Value = { List (List (Entry (List (Measure C HowId)))) };

    ghost use Rattle.rf_memo.specs.Memo.{entries_by_node, IsOwned};

    ghost view = { λ m. entries_by_node m.places.items m.pages.items };

    ghost invariant = { λ m. IsOwned m.places.items m.pages.items };
}

impl<C: Copy> Memo<C> {
    /// A memo of nothing. It takes no memory.
    pub fn new(alloc: Global) -> Memo<C>
        ensures { (node col indent : ℕ) → found result node col indent ≡ None }
    {
        Memo {
            alloc,
            places: Vec::new(alloc),
            pages: Vec::new(alloc),
        }
    }

    /// The frontier that was put for the node at the column and the indentation: `None` exactly where
    /// nothing was put there. It takes no memory.
    pub fn get(&self, node: usize, col: u32, indent: u32) -> Option<&Frontier<C>>
        ensures { option_copied result ≡ found self.now node col indent }
    {
        look_up(
            self.places.as_slice(),
            self.pages.as_slice(),
            node,
            col,
            indent,
        )
    }

    /// Puts the frontier for the node at the column and the indentation, where nothing was put yet. A
    /// refusal for want of memory hands the frontier back, and nothing else is found than before.
    pub fn put(
        &mut self,
        node: usize,
        col: u32,
        indent: u32,
        f: Frontier<C>,
    ) -> Result<(), (Frontier<C>, AllocError)>
        requires { found self.old node col indent ≡ None }
        ensures put { OnOk result (PutsAt self.old self.new node col indent f) }
        ensures handed_back { IfErr result (λ back. back.0 ≡ f) }
        ensures unchanged { OnErr result (SameFound self.old self.new) }
    {
        match put_in_page(
            &mut self.places,
            &mut self.pages,
            self.alloc,
            node,
            col,
            indent,
            f,
        ) {
            Ok(()) => Ok(()),
            Err(back) => Err((back, AllocError)),
        }
    }
}

// What was put for the node at the column and the indentation.
fn look_up<'a, T: Drop>(
    places: &[usize],
    pages: &'a [(usize, Page<T>)],
    node: usize,
    col: u32,
    indent: u32,
) -> Option<&'a T>
    requires { IsOwned places.now pages.now }
    ensures { option_copied result ≡ found (entries_by_node places.now pages.now) node col indent }
{
    if node >= places.len() {
        return None;
    }
    let place = places[node];
    if place == 0 {
        return None;
    }
    pages[place - 1].1.get(col, indent)
}

// Puts the value in the page of the node.
fn put_in_page<T: Drop>(
    places: &mut Vec<usize>,
    pages: &mut Vec<(usize, Page<T>)>,
    alloc: Global,
    node: usize,
    col: u32,
    indent: u32,
    value: T,
) -> Result<(), T>
    requires owned { IsOwned places.old.items pages.old.items }
    requires new { found (entries_by_node places.old.items pages.old.items) node col indent ≡ None }

    ensures owned { IsOwned places.new.items pages.new.items }
    ensures put { OnOk result (PutsAt (entries_by_node places.old.items pages.old.items)
        (entries_by_node places.new.items pages.new.items) node col indent value) }
    ensures handed_back { IfErr result (λ back. back ≡ value) }
    ensures unchanged { OnErr result (SameFound (entries_by_node places.old.items pages.old.items)
        (entries_by_node places.new.items pages.new.items)) }
{
    if !reaches(places, node) {
        return Err(value);
    }
    let place = places[node];
    if place == 0 {
        return put_first(places, pages, alloc, node, col, indent, value);
    }
    let page = &mut pages[place - 1];
    page.1.put(col, indent, value)
}

// Puts the first value of a node, in a new page.
fn put_first<T: Drop>(
    places: &mut Vec<usize>,
    pages: &mut Vec<(usize, Page<T>)>,
    alloc: Global,
    node: usize,
    col: u32,
    indent: u32,
    value: T,
) -> Result<(), T>
    requires owned { IsOwned places.old.items pages.old.items }
    requires node { node < length places.old.items }
    requires none { slice_index_or places.old.items node 0 ≡ 0 }

    ensures owned { IsOwned places.new.items pages.new.items }
    ensures put { OnOk result (PutsAt (entries_by_node places.old.items pages.old.items)
        (entries_by_node places.new.items pages.new.items) node col indent value) }
    ensures handed_back { IfErr result (λ back. back ≡ value) }
    ensures unchanged { OnErr result (SameFound (entries_by_node places.old.items pages.old.items)
        (entries_by_node places.new.items pages.new.items)) }
{
    let page = Page::one(alloc, col, indent, value);
    match pages.push((node, page)) {
        Ok(()) => {
            places[node] = pages.len();
            Ok(())
        }
        Err(refused) => Err(refused.value.1.into_first()),
    }
}

// Whether there is a place for the node, once there is memory for it.
fn reaches(places: &mut Vec<usize>, node: usize) -> bool
    ensures same { (n : ℕ) → slice_index_or places.new.items n 0 ≡ slice_index_or places.old.items n 0 }
    ensures reached { OnTrue result (node < length places.new.items) }
{
    if node < places.len() {
        return true;
    }
    if node == usize::MAX {
        return false;
    }
    places.resize(node + 1, 0).is_ok()
}
