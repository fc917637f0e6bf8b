//! Ways: the choices of measures, which share what they have in common.
//!
//! A function's line `tactic` names the lemmas that its proof uses. From `let _ = &self.ways` a proof learns what holds
//! of each list of ways.

ghost use Rattle.std.specs.Prelude.{◌≡◌, ◌<◌, ◌≤◌, ◌+◌, [], ◌++◌, length, slice_get, IfOk, OnOk};
ghost use Rattle.std.specs.Bool.{OnTrue, OnFalse};
ghost use Rattle.rf_frontier.specs.Ways.{choices_of, way_end, HasChoice, JoinsChoices, way_choices, KeepsWays, IsIn};
ghost use Rattle.rf_frontier.specs.Ways.{choices_before};

use crate::before::Before;
use rf_base_document::Dir;
use std::alloc::{AllocError, Global};
use std::marker::Model;

/// The number of a way in the ways that made it.
#[derive(Clone, Copy, Debug, PartialEq, Eq)]
pub struct HowId(pub usize);

/// A way: its kind and its parts, whose numbers are smaller than its own.
#[derive(Clone, Copy, Debug, PartialEq, Eq)]
pub enum How {
    /// No choice.
    Leaf,
    /// This direction and then the choices of the way.
    Mark(Dir, HowId),
    /// The choices of the first way and then those of the second.
    Join(HowId, HowId),
}

/// Ways that may share their parts. Contracts see them as the list of the ways, and ask for the choices
/// that a way unfolds to.
#[derive(Drop)]
pub struct Hows {
    ways: Vec<How>,
}

impl Model for Hows {
    ghost use Rattle.std.specs.Prelude.{List};
    ghost use Rattle.rf_frontier.specs.declared.hows.How.{How};
    ghost use Rattle.rf_frontier.specs.Ways.{IsWays};

    ghost Value = { List How };

    ghost view = { λ h. h.ways.items };

    ghost invariant = { λ h. IsWays h.ways.items };
}

impl Hows {
    /// No ways. It takes no memory.
    #[tactic(auto, using(crate::proofs::Ways::no_ways))]
    pub fn new(alloc: Global) -> Hows
        ensures { result ≡ [] }
    {
        Hows {
            ways: Vec::new(alloc),
        }
    }

    /// Ways of which the first is that of no choice. An `AllocError` comes for want of memory.
    pub fn with_leaf(alloc: Global) -> Result<Hows, AllocError>
        ensures { IfOk result (λ ways. 0 < length ways) }
    {
        let mut hows = Hows::new(alloc);
        hows.leaf()?;
        Ok(hows)
    }

    /// Takes all ways away but that of no choice, which is the only one from then on, and keeps the room that they
    /// took for others. An `AllocError` comes for want of memory.
    pub fn restart(&mut self) -> Result<(), AllocError>
        ensures { OnOk result (length self.new ≡ 1) }
    {
        self.clear();
        self.leaf()?;
        Ok(())
    }

    // Takes all ways away.
    fn clear(&mut self)
        ensures { self.new ≡ [] }
    {
        self.ways.clear();
    }

    /// The kind and the parts of the way `id`. It takes no memory.
    pub fn way(&self, id: HowId) -> How
        requires { id.0 < length self.now }
        ensures told { slice_get self.now id.0 ≡ Some result }
        ensures parts_first { way_end result ≤ id.0 }
        ensures choices { choices_of self.now id.0 ≡ way_choices (choices_of self.now) result }
        ensures joins_choices { JoinsChoices self.now result }
    {
        self.ways[id.0]
    }

    /// The first way, which has no choice. It takes no memory.
    pub fn first(&self) -> HowId
        requires { 0 < length self.now }
        ensures in_ways { result.0 < length self.now }
        ensures choices { choices_of self.now result.0 ≡ [] }
    {
        let _ = &self.ways;
        HowId(0)
    }

    // Whether the way has no choice. It takes no memory.
    pub(crate) fn is_leaf(&self, id: HowId) -> bool
        requires { id.0 < length self.now }
        ensures none { OnTrue result (choices_of self.now id.0 ≡ []) }
        ensures some { OnFalse result (0 < length (choices_of self.now id.0)) }
    {
        let _ = &self.ways;
        id.0 == 0
    }

    // The way of no choice. All leaves share one, which is the first way of all.
    #[tactic(auto, using(crate::proofs::Ways::first_is_leaf, crate::proofs::Ways::keeps_same))]
    pub(crate) fn leaf(&mut self) -> Result<HowId, AllocError>
        ensures in_ways { IfOk result (λ id. id.0 < length self.new) }
        ensures choices { IfOk result (λ id. choices_of self.new id.0 ≡ []) }
        ensures older { KeepsWays self.old self.new }
        ensures few_more { length self.new ≤ length self.old + 1 }
    {
        if self.ways.is_empty() {
            self.put(How::Leaf)
        } else {
            Ok(HowId(0))
        }
    }

    /// The way of these choices and then those of the way `id`. An `AllocError` comes for want of memory.
    pub fn behind(&mut self, before: Before, id: HowId) -> Result<HowId, AllocError>
        requires before { IsIn self.old before }
        requires id { id.0 < length self.old }
        ensures in_ways { IfOk result (λ id. id.0 < length self.new) }
        ensures choices { IfOk result (λ way. choices_of self.new way.0 ≡ choices_before self.old before
            ++ choices_of self.old id.0) }
        ensures older { KeepsWays self.old self.new }
        ensures few_more { length self.new ≤ length self.old + 1 }
    {
        match before {
            Before::Choice(dir) => self.put(How::Mark(dir, id)),
            Before::Way(first) => self.join(first, id),
        }
    }

    /// The way of the choices of two ways. Where one of them is the leaf, it is the other one. An `AllocError` comes
    /// for want of memory.
    #[tactic(auto, using(crate::proofs::Ways::joined))]
    pub fn join(&mut self, first: HowId, second: HowId) -> Result<HowId, AllocError>
        requires first { first.0 < length self.old }
        requires second { second.0 < length self.old }
        ensures in_ways { IfOk result (λ id. id.0 < length self.new) }
        ensures choices { IfOk result (λ way. choices_of self.new way.0 ≡ choices_of self.old first.0
            ++ choices_of self.old second.0) }
        ensures older { KeepsWays self.old self.new }
        ensures few_more { length self.new ≤ length self.old + 1 }
    {
        let _ = &self.ways;
        if first.0 == 0 {
            Ok(second)
        } else if second.0 == 0 {
            Ok(first)
        } else {
            self.put(How::Join(first, second))
        }
    }

    // One more way at the end.
    #[tactic(auto, using(crate::proofs::Ways::added))]
    fn put(&mut self, way: How) -> Result<HowId, AllocError>
        requires parts { way_end way ≤ length self.old }
        requires choice { 0 < length self.old → HasChoice way }
        ensures in_ways { IfOk result (λ id. id.0 < length self.new) }
        ensures choices { IfOk result (λ id. choices_of self.new id.0 ≡ way_choices (choices_of self.old) way) }
        ensures older { KeepsWays self.old self.new }
        ensures few_more { length self.new ≤ length self.old + 1 }
    {
        let id = HowId(self.ways.len());
        self.ways.push(way)?;
        Ok(id)
    }
}
