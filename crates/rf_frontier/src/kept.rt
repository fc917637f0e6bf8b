//! Measures that are kept, with choices of any kind.

ghost use Rattle.std.specs.Prelude.{◌≡◌, ◌<◌, ◌≤◌, ◌-◌, [], ◌∷◌, ◌++◌, length, take, slice_get, Some, IfOk, OnOk, IfSome};
ghost use Rattle.rf_base_cost.specs.Cost.{Costs};
ghost use Rattle.rf_base_cost.specs.Pareto.{IsFrontier};
ghost use Rattle.rf_base_cut.specs.Cut.{cut};
ghost use Rattle.std.specs.Bool.{OnTrue};

use rf_base_cost::Measure;
use std::alloc::{AllocError, Global};
use std::marker::Model;

/// Measures in order, with choices of any kind. Up to one measure takes no memory. Contracts see the list of
/// the measures.
#[derive(Drop)]
pub struct Kept<C: Copy, H: Copy> {
    place: Place<C, H>,
}

// Mostly one measure is kept, which stands in place.
#[derive(Drop)]
enum Place<C: Copy, H: Copy> {
    Nothing,
    One(Measure<C, H>),
    More(Vec<Measure<C, H>>),
}

impl<C: Copy, H: Copy> Model for Kept<C, H> {
    ghost use Rattle.std.specs.Prelude.{List};
    ghost use Rattle.rf_base_cost.specs.declared.measures.Measure.{Measure};

    ghost Value = { List (Measure C H) };

    ghost use Rattle.rf_frontier.specs.Kept.{kept_measures};

    ghost view = { λ k. kept_measures k.place };
}

impl<C: Copy, H: Copy> Kept<C, H> {
    /// No measure. It takes no memory.
    pub fn none() -> Kept<C, H>
        ensures { result ≡ [] }
    {
        Kept {
            place: Place::Nothing,
        }
    }

    /// One measure. It takes no memory.
    pub fn one(m: Measure<C, H>) -> Kept<C, H>
        ensures { result ≡ m ∷ [] }
    {
        Kept {
            place: Place::One(m),
        }
    }

    /// No measure, with room for so many. Room for up to one takes no memory. An `AllocError` comes for want of memory.
    pub fn with_room(alloc: Global, count: usize) -> Result<Kept<C, H>, AllocError>
        ensures { IfOk result (λ k. k ≡ []) }
    {
        if count <= 1 {
            return Ok(Kept::none());
        }
        Ok(Kept {
            place: Place::More(Vec::with_capacity(alloc, count)?),
        })
    }

    /// Puts a measure at the end. An `AllocError` comes for want of memory, never for the first measure, and
    /// what is kept is not to be used after it.
    #[inline(always)]
    pub fn push(&mut self, alloc: Global, m: Measure<C, H>) -> Result<(), AllocError>
        ensures { OnOk result (self.new ≡ self.old ++ m ∷ []) }
    {
        match &mut self.place {
            Place::Nothing => {
                self.place = Place::One(m);
            }
            Place::One(one) => {
                let first = *one;
                let mut all = Vec::with_capacity(alloc, 8)?;
                all.push(first)?;
                all.push(m)?;
                self.place = Place::More(all);
            }
            Place::More(all) => all.push(m)?,
        }
        Ok(())
    }

    // Two measures.
    pub(crate) fn two(
        alloc: Global,
        first: Measure<C, H>,
        second: Measure<C, H>,
    ) -> Result<Kept<C, H>, AllocError>
        ensures { IfOk result (λ k. k ≡ first ∷ second ∷ []) }
    {
        let mut kept = Kept::one(first);
        kept.push(alloc, second)?;
        Ok(kept)
    }

    /// How many measures are kept. It takes no memory.
    pub fn len(&self) -> usize
        ensures { result ≡ length self.now }
    {
        match &self.place {
            Place::Nothing => 0,
            Place::One(_) => 1,
            Place::More(all) => all.len(),
        }
    }

    /// Measure number `n`, counted from 0. It takes no memory.
    pub fn get(&self, n: usize) -> Measure<C, H>
        requires { n < length self.now }
        ensures { slice_get self.now n ≡ Some result }
    {
        match &self.place {
            Place::Nothing => unreachable!(),
            Place::One(m) => *m,
            Place::More(all) => all[n],
        }
    }

    // Takes the last measure away. It takes no memory.
    pub(crate) fn drop_last(&mut self)
        requires { 0 < length self.old }
        ensures { self.new ≡ take (length self.old - 1) self.old }
    {
        match &mut self.place {
            Place::Nothing => unreachable!(),
            Place::One(_) => self.place = Place::Nothing,
            Place::More(all) => {
                let stay = all.len() - 1;
                all.truncate(stay);
            }
        }
    }

    /// The measures up to and with the first that ends by column `x`, and all of them where none does. It takes no
    /// memory.
    pub fn cut(self, x: u32) -> Kept<C, H>
        ensures { result ≡ cut x self }
    {
        let Kept { place } = self;
        match place {
            Place::Nothing => Kept::none(),
            Place::One(m) => Kept::one(m),
            Place::More(measures) => {
                let mut all = measures;
                let stay = stay(all.as_slice(), x);
                if stay == 1 {
                    return Kept::one(all[0]);
                }
                all.truncate(stay);
                Kept {
                    place: Place::More(all),
                }
            }
        }
    }

    /// Takes the measures of a frontier away that stand behind the first that ends by column `x`. It takes no memory, and
    /// no longer than they are many.
    #[tactic(auto, using(crate::proofs::Cuts::cut_none, crate::proofs::Cuts::cut_single))]
    #[inline(always)]
    pub fn cut_off(&mut self, x: u32)
        requires { (costs : Costs C) × IsFrontier costs self.old }
        ensures { self.new ≡ cut x self.old }
    {
        match &mut self.place {
            Place::Nothing => {}
            Place::One(_) => {}
            Place::More(all) => {
                let stay = stay_from_end(all.as_slice(), x);
                all.truncate(stay);
            }
        }
    }

    /// Whether no measure is kept, as far as it is known without looking into a vector. It takes no memory.
    pub fn is_empty(&self) -> bool
        ensures { OnTrue result (self.now ≡ []) }
    {
        match &self.place {
            Place::Nothing => true,
            _ => false,
        }
    }

    /// The measure, where it is the only one and stands in no vector. It takes no memory.
    pub fn alone(&self) -> Option<Measure<C, H>>
        ensures { IfSome result (λ m. self.now ≡ m ∷ []) }
    {
        match &self.place {
            Place::One(m) => Some(*m),
            _ => None,
        }
    }

    /// The measures in a vector. An `AllocError` comes for want of memory.
    pub fn into_vec(self, alloc: Global) -> Result<Vec<Measure<C, H>>, AllocError>
        ensures { IfOk result (λ all. all.items ≡ self) }
    {
        let Kept { place } = self;
        match place {
            Place::Nothing => Ok(Vec::new(alloc)),
            Place::One(m) => {
                let mut all = Vec::with_capacity(alloc, 1)?;
                all.push(m)?;
                Ok(all)
            }
            Place::More(all) => Ok(all),
        }
    }
}

// How many of the measures stay where those behind the first that ends by column `x` are cut off.
fn stay<C: Copy, H: Copy>(measures: &[Measure<C, H>], x: u32) -> usize
    ensures cut { take result measures.now ≡ cut x measures.now }
    ensures within { result ≤ length measures.now }
{
    let mut at = 0;
    while at < measures.len() {
        if measures[at].last <= x {
            return at + 1;
        }
        at += 1;
    }
    at
}

// The same of a frontier, where last columns fall, from its end.
fn stay_from_end<C: Copy, H: Copy>(measures: &[Measure<C, H>], x: u32) -> usize
    requires { (costs : Costs C) × IsFrontier costs measures.now }
    ensures cut { take result measures.now ≡ cut x measures.now }
    ensures within { result ≤ length measures.now }
{
    let mut stay = measures.len();
    while stay >= 2 && measures[stay - 2].last <= x {
        stay -= 1;
    }
    stay
}
