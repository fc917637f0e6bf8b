//! Frontiers.
//!
//! A function's line `tactic` names the lemma that its proof uses.

ghost use Rattle.std.specs.Prelude.{◌≡◌, ◌≤◌, ◌+◌, [], ◌∷◌, length, reverse, IfOk, OnOk};
ghost use Rattle.rf_frontier.specs.Ways.{KeepsWays, IsIn, choices_before};
ghost use Rattle.rf_frontier.specs.Frontiers.{BelongTo, all_chosen, all_behind};

use crate::before::Before;
use crate::hows::{HowId, Hows};
use crate::kept::Kept;
use crate::lists::put_behind_each;
use std::alloc::{AllocError, Global};
use std::marker::Model;

/// Where a resolution ends and what it costs, with the way that unfolds to its choices.
pub type Measure<C> = rf_base_cost::Measure<C, HowId>;

/// Measures of which none dominates another: their last columns strictly fall and their costs strictly
/// rise. Contracts see a frontier as the list of its measures.
#[derive(Drop)]
pub struct Frontier<C: Copy> {
    all: Option<Vec<Measure<C>>>,
}

impl<C: Copy> Model for Frontier<C> {
    ghost use Rattle.std.specs.Prelude.{List};
    ghost use Rattle.rf_base_cost.specs.declared.measures.Measure.{Measure};
    ghost use Rattle.rf_frontier.specs.declared.hows.HowId.{HowId};

    ghost Value = { List (Measure C HowId) };

    ghost use Rattle.rf_frontier.specs.Kept.{items_of};

    ghost view = { λ f. items_of f.all };
}

impl<C: Copy> Frontier<C> {
    /// The measures, by falling last column. It takes no memory.
    pub fn measures(&self) -> &[Measure<C>]
        ensures { result.now ≡ self.now }
    {
        match &self.all {
            None => &[],
            Some(all) => all.as_slice(),
        }
    }

    /// The frontier of no measure. It takes no memory.
    pub fn none() -> Frontier<C>
        ensures { result ≡ [] }
    {
        Frontier { all: None }
    }

    /// The same measures once more. An `AllocError` comes for want of memory.
    pub fn copied(&self, alloc: Global) -> Result<Frontier<C>, AllocError>
        ensures { IfOk result (λ f. f ≡ self.now) }
    {
        match &self.all {
            None => Ok(Frontier::none()),
            Some(all) => {
                let copy = Vec::from_slice(alloc, all)?;
                Ok(Frontier { all: Some(copy) })
            }
        }
    }

    // The frontier of these measures.
    pub(crate) fn of(alloc: Global, kept: Kept<C, HowId>) -> Result<Frontier<C>, AllocError>
        ensures { IfOk result (λ f. f ≡ kept) }
    {
        let all = kept.into_vec(alloc)?;
        Ok(Frontier { all: Some(all) })
    }

    // The frontier of these measures.
    pub(crate) fn of_vec(all: Vec<Measure<C>>) -> Frontier<C>
        ensures { result ≡ all.items }
    {
        Frontier { all: Some(all) }
    }

    // The measure, and then those behind it, which stand turned round.
    pub(crate) fn turned_round(
        held: Measure<C>,
        behind: Vec<Measure<C>>,
    ) -> Result<Frontier<C>, AllocError>
        ensures { IfOk result (λ f. f ≡ held ∷ reverse behind.items) }
    {
        let mut all = behind;
        all.push(held)?;
        all.as_mut_slice().reverse();
        Ok(Frontier { all: Some(all) })
    }

    // Puts the way of these choices before the way of each measure. After a refusal the frontier is not
    // to be used.
    #[tactic(auto, using(crate::proofs::Ways::keeps_same))]
    pub(crate) fn put_behind(&mut self, before: Before, hows: &mut Hows) -> Result<(), AllocError>
        requires before { IsIn hows.old before }
        requires belong { BelongTo hows.old self.old }

        ensures chosen { OnOk result
            (all_chosen hows.new self.new
            ≡ all_behind (choices_before hows.old before) (all_chosen hows.old self.old)) }
        ensures belong { OnOk result (BelongTo hows.new self.new) }
        ensures older { KeepsWays hows.old hows.new }
        ensures few_more { length hows.new ≤ length hows.old + length self.old }
    {
        match &mut self.all {
            None => Ok(()),
            Some(all) => put_behind_each(before, all.as_mut_slice(), hows),
        }
    }
}
