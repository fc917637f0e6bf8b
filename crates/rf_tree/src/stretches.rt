//! Slots in a row, read one after another, of which at most so many are taken.

ghost use Rattle.std.specs.Prelude.{◌≡◌, ◌==◌, length, take, drop};
ghost use Rattle.rf_tree.specs.Ahead.{slots_ahead, IsCursor, TakesFirst};
ghost use Rattle.rf_tree.specs.Stretches.{stretched, IsStretch};

use crate::cursors::{SlotRef, Slots};

/// The first of the slots that are still to come, at most so many.
#[derive(Clone, Copy)]
pub struct Stretch<'t> {
    // The slots that are still to come.
    slots: Slots<'t>,
    // How many of them are taken at most.
    most: usize,
}

impl<'t> Stretch<'t> {
    /// All slots that are still to come.
    pub fn all(slots: Slots<'t>) -> Stretch<'t>
        requires { IsCursor slots }
        ensures cursor { IsStretch result }
        ensures slots { stretched result ≡ slots_ahead slots.entry }
    {
        Stretch {
            slots,
            most: slots.most(),
        }
    }

    /// The next slot, if one is left.
    pub fn next(&mut self) -> Option<SlotRef<'t>>
        requires { IsStretch self.old }
        ensures cursor { IsStretch self.new }
        ensures next { TakesFirst (stretched self.old) result (stretched self.new) }
    {
        if self.most == 0 {
            return None;
        }
        self.most -= 1;
        self.slots.next()
    }

    /// Whether no slot is left.
    pub fn is_empty(&self) -> bool
        ensures { result ≡ (length (stretched self.now) == 0) }
    {
        self.most == 0 || self.slots.is_empty()
    }

    /// How many slots are left. They are read for it.
    pub fn count(self) -> usize
        requires { IsStretch self }
        ensures { result ≡ length (stretched self.entry) }
    {
        let mut rest = self;
        let mut count = 0;
        while let Some(_) = rest.next() {
            count += 1;
        }
        count
    }

    /// The first `n` slots, or all where there are fewer, and those behind them. The first are read for it.
    pub fn split(self, n: usize) -> (Stretch<'t>, Stretch<'t>)
        requires { IsStretch self }
        ensures front_cursor { IsStretch result.0 }
        ensures front { stretched result.0 ≡ take n (stretched self.entry) }
        ensures back_cursor { IsStretch result.1 }
        ensures back { stretched result.1 ≡ drop n (stretched self.entry) }
    {
        let front = Stretch {
            slots: self.slots,
            most: self.most.min(n),
        };
        (front, behind(self, n))
    }
}

// The slots behind the first `n`.
fn behind(slots: Stretch<'_>, n: usize) -> Stretch<'_>
    requires { IsStretch slots }
    ensures cursor { IsStretch result }
    ensures slots { stretched result ≡ drop n (stretched slots.entry) }
{
    let mut rest = slots;
    for _ in 0..n {
        if rest.next().is_none() {
            return rest;
        }
    }
    rest
}
