//! Unfolding a way into its choices.

ghost use Rattle.std.specs.Prelude.{◌≡◌, ◌<◌, ◌≤◌, ◌+◌, ◌∷◌, ◌++◌, ◌↔◌, length, IfOk, IsTrue};
ghost use Rattle.std.specs.Bool.{OnTrue, OnFalse};
ghost use Rattle.rf_frontier.specs.Ways.{choices_of};
ghost use Rattle.rf_frontier.specs.Pending.{choices_to_come, EachHasChoices, Unfolds};

use crate::hows::{How, HowId, Hows};
use rf_base_document::Dir;
use std::alloc::{AllocError, Global};

impl Hows {
    /// Puts the choices of the way `id` at the end of `into`, unless `into` would then hold more than
    /// `limit` directions: it answers whether they fit. Where they don't, or an `AllocError` comes for
    /// want of memory, `into` may hold some of them. It goes through at most two ways for each direction
    /// of the limit, however many the way unfolds to, and without recursion.
    pub fn unfold(
        &self,
        alloc: Global,
        id: HowId,
        into: &mut Vec<Dir>,
        limit: usize,
    ) -> Result<bool, AllocError>
        requires id { id.0 < length self.now }
        requires room { length into.old.items ≤ limit }

        ensures choices { IfOk result (λ fits. OnTrue fits
            (into.new.items ≡ into.old.items ++ choices_of self.now id.0)) }
        ensures fits { IfOk result (λ fits.
            IsTrue fits ↔ (length into.old.items + length (choices_of self.now id.0) ≤ limit)) }
    {
        if self.is_leaf(id) {
            return Ok(true);
        }
        if into.len() >= limit {
            return Ok(false);
        }
        let mut pending = Vec::new(alloc);
        pending.push(id)?;
        unfold_pending(self, pending, into, limit)
    }
}

// Puts the choices of the ways at the end, unless they go past the limit.
fn unfold_pending(
    hows: &Hows,
    ways: Vec<HowId>,
    into: &mut Vec<Dir>,
    limit: usize,
) -> Result<bool, AllocError>
    requires choices { EachHasChoices hows.now ways.items }
    requires room { length into.old.items + length ways.items ≤ limit }

    ensures choices { IfOk result (λ fits. OnTrue fits
        (into.new.items ≡ into.old.items ++ choices_to_come hows.now ways.items)) }
    ensures fits { IfOk result (λ fits.
        IsTrue fits ↔ (length into.old.items + length (choices_to_come hows.now ways.items) ≤ limit)) }
{
    let mut pending = ways;
    while let Some(next) = pending.pop() {
        if !turn(hows, next, &mut pending, into, limit)? {
            return Ok(false);
        }
    }
    Ok(true)
}

// Takes one step into the next way: its first direction goes to the end, or its parts are to come.
fn turn(
    hows: &Hows,
    next: HowId,
    pending: &mut Vec<HowId>,
    into: &mut Vec<Dir>,
    limit: usize,
) -> Result<bool, AllocError>
    requires next { next.0 < length hows.now }
    requires some { 0 < length (choices_of hows.now next.0) }
    requires choices { EachHasChoices hows.now pending.old.items }
    requires room { length into.old.items + length pending.old.items < limit }

    ensures unfolds { IfOk result (λ fits. OnTrue fits
        (Unfolds hows.now (choices_of hows.now next.0) pending.old.items pending.new.items
        into.old.items into.new.items limit)) }
    ensures past { IfOk result (λ fits. OnFalse fits
        (limit < length into.old.items + length (choices_of hows.now next.0)
        + length (choices_to_come hows.now pending.old.items))) }
{
    match hows.way(next) {
        How::Leaf => Ok(true),
        How::Mark(dir, rest) => after_mark(hows, dir, rest, pending, into, limit),
        How::Join(first, second) => after_join(hows, first, second, pending, into, limit),
    }
}

// Puts the direction at the end; the choices of the way are to come.
fn after_mark(
    hows: &Hows,
    dir: Dir,
    rest: HowId,
    pending: &mut Vec<HowId>,
    into: &mut Vec<Dir>,
    limit: usize,
) -> Result<bool, AllocError>
    requires rest { rest.0 < length hows.now }
    requires choices { EachHasChoices hows.now pending.old.items }
    requires room { length into.old.items + length pending.old.items < limit }

    ensures unfolds { IfOk result (λ fits. OnTrue fits
        (Unfolds hows.now (dir ∷ choices_of hows.now rest.0) pending.old.items pending.new.items
        into.old.items into.new.items limit)) }
    ensures past { IfOk result (λ fits. OnFalse fits
        (limit < length into.old.items + length (dir ∷ choices_of hows.now rest.0)
        + length (choices_to_come hows.now pending.old.items))) }
{
    into.push(dir)?;
    if hows.is_leaf(rest) {
        return Ok(true);
    }
    if into.len() + pending.len() >= limit {
        return Ok(false);
    }
    pending.push(rest)?;
    Ok(true)
}

// The choices of both ways are to come.
fn after_join(
    hows: &Hows,
    first: HowId,
    second: HowId,
    pending: &mut Vec<HowId>,
    into: &mut Vec<Dir>,
    limit: usize,
) -> Result<bool, AllocError>
    requires first { first.0 < length hows.now }
    requires second { second.0 < length hows.now }
    requires first_some { 0 < length (choices_of hows.now first.0) }
    requires second_some { 0 < length (choices_of hows.now second.0) }
    requires choices { EachHasChoices hows.now pending.old.items }
    requires room { length into.old.items + length pending.old.items < limit }

    ensures unfolds { IfOk result (λ fits. OnTrue fits
        (Unfolds hows.now (choices_of hows.now first.0 ++ choices_of hows.now second.0) pending.old.items
        pending.new.items into.old.items into.new.items limit)) }
    ensures past { IfOk result (λ fits. OnFalse fits
        (limit < length into.old.items + length (choices_of hows.now first.0 ++ choices_of hows.now second.0)
        + length (choices_to_come hows.now pending.old.items))) }
{
    if into.len() + pending.len() + 1 >= limit {
        return Ok(false);
    }
    pending.push(second)?;
    pending.push(first)?;
    Ok(true)
}
