//! The frontier of a concatenation, as it is put together.

ghost use Rattle.std.specs.Prelude.{◌≡◌, ◌<◌, ◌≤◌, ◌+◌, ◌*◌, [], ◌∷◌, ◌++◌, length, IfOk, List};
ghost use Rattle.rf_base_cost.specs.Cost.{Costs, IsValue};
ghost use Rattle.rf_base_cost.specs.Pareto.{IsFrontier, EachIsValue, pareto, all_shifted};
ghost use Rattle.rf_base_steps.specs.Steps.{MakesAtMost};
ghost use Rattle.rf_frontier.specs.declared.hows.How.{How};
ghost use Rattle.rf_frontier.specs.Ways.{KeepsWays};
ghost use Rattle.rf_frontier.specs.Frontiers.{BelongTo, chosen, all_chosen};
ghost use Rattle.rf_frontier.specs.Plans.{PlansBelongTo, all_planned};

use crate::before::Before;
use crate::frontiers::{Frontier, Measure};
use crate::hows::Hows;
use crate::kept::Kept;
use crate::making::make;
use crate::merging::merge_kept;
use crate::raising::{raise_views, raised_by};
use crate::views::{Planned, viewed};
use rf_base_steps::Steps;
use rf_cost::Factory;
use std::alloc::{AllocError, Global};
use std::marker::Model;
use std::sync::ledger::Ledger;

/// The measures of a concatenation that are worth keeping so far. Their ways are planned: two ways, of
/// which the choices of the left one come first, are joined only once it is known which measures stay.
/// Contracts see the list of the measures with their plans.
#[derive(Drop)]
pub struct Joined<C: Copy> {
    kept: Kept<C, Planned>,
}

impl<C: Copy> Model for Joined<C> {
    ghost use Rattle.std.specs.Prelude.{List};
    ghost use Rattle.rf_base_cost.specs.declared.measures.Measure.{Measure};
    ghost use Rattle.rf_frontier.specs.declared.views.Planned.{Planned};

    ghost Value = { List (Measure C Planned) };

    ghost view = { λ j. j.kept };
}

impl<C: Copy> Joined<C> {
    /// No measure. It takes no memory.
    pub fn none() -> Joined<C>
        ensures { result ≡ [] }
    {
        Joined { kept: Kept::none() }
    }

    /// Adds the measures of `right` behind `left`, and keeps what is worth it. For one measure on each
    /// side it takes no memory. It makes at most one step for each measure so far and two for each measure
    /// of `right`, also where it is refused. An `AllocError` comes for want of memory, and then nothing is
    /// left of the measures so far.
    pub fn add<F: Factory<Cost = C>, L: Ledger>(
        self,
        alloc: Global,
        factory: &F,
        left: &Measure<C>,
        right: &Frontier<C>,
        steps: &mut Steps<L>,
    ) -> Result<Joined<C>, AllocError>
        requires ordered { IsFrontier (F.costs factory.now) self }
        requires values { EachIsValue (F.costs factory.now) self }
        requires left_value { IsValue (F.costs factory.now) left.now.cost }
        requires right_ordered { IsFrontier (F.costs factory.now) right.now }
        requires right_values { EachIsValue (F.costs factory.now) right.now }

        ensures chosen { IfOk result (λ joined. (ways : List How) →
            all_planned ways joined ≡ pareto (F.costs factory.now)
            (all_planned ways self
            ++ all_shifted (F.costs factory.now) (chosen ways left.now) (all_chosen ways right.now))) }
        ensures ordered { IfOk result (λ joined. IsFrontier (F.costs factory.now) joined) }
        ensures values { IfOk result (λ joined. EachIsValue (F.costs factory.now) joined) }
        ensures belongs { IfOk result (λ joined. (ways : List How) →
            PlansBelongTo ways self → left.now.how.0 < length ways → BelongTo ways right.now
            → PlansBelongTo ways joined) }
        ensures steps { MakesAtMost (length self + 2 * length right.now) steps.old steps.new }
    {
        let Joined { kept } = self;
        let behind = Before::Way(left.how);
        let raised = raise_views(alloc, factory, left.cost, right.measures(), &behind, steps)?;
        let kept = merge_kept(alloc, factory, kept, raised, steps)?;
        Ok(Joined { kept })
    }

    /// The same for one measure on the right: it takes memory only where there are measures so far.
    pub fn add_one<F: Factory<Cost = C>, L: Ledger>(
        self,
        alloc: Global,
        factory: &F,
        left: &Measure<C>,
        right: Measure<C>,
        steps: &mut Steps<L>,
    ) -> Result<Joined<C>, AllocError>
        requires ordered { IsFrontier (F.costs factory.now) self }
        requires values { EachIsValue (F.costs factory.now) self }
        requires left_value { IsValue (F.costs factory.now) left.now.cost }
        requires right_value { IsValue (F.costs factory.now) right.cost }

        ensures chosen { IfOk result (λ joined. (ways : List How) →
            all_planned ways joined ≡ pareto (F.costs factory.now)
            (all_planned ways self
            ++ all_shifted (F.costs factory.now) (chosen ways left.now) (all_chosen ways (right ∷ [])))) }
        ensures ordered { IfOk result (λ joined. IsFrontier (F.costs factory.now) joined) }
        ensures values { IfOk result (λ joined. EachIsValue (F.costs factory.now) joined) }
        ensures belongs { IfOk result (λ joined. (ways : List How) →
            PlansBelongTo ways self → left.now.how.0 < length ways → right.how.0 < length ways
            → PlansBelongTo ways joined) }
        ensures steps { MakesAtMost (length self + 1) steps.old steps.new }
    {
        let Joined { kept } = self;
        let behind = Before::Way(left.how);
        let raised = raised_by(factory, left.cost, viewed(right, &behind));
        let kept = merge_kept(alloc, factory, kept, Kept::one(raised), steps)?;
        Ok(Joined { kept })
    }

    /// The frontier of the measures, each with the way that unfolds to its choices. Ways that were there
    /// stay what they were. An `AllocError` comes for want of memory.
    pub fn finish(self, alloc: Global, hows: &mut Hows) -> Result<Frontier<C>, AllocError>
        requires { PlansBelongTo hows.old self }

        ensures chosen { IfOk result (λ f. all_chosen hows.new f ≡ all_planned hows.old self) }
        ensures ordered { IfOk result (λ f. (costs : Costs C) → IsFrontier costs self → IsFrontier costs f) }
        ensures values { IfOk result (λ f. (costs : Costs C) → EachIsValue costs self → EachIsValue costs f) }
        ensures belongs { IfOk result (λ f. BelongTo hows.new f) }
        ensures older { KeepsWays hows.old hows.new }
        ensures few_more { length hows.new ≤ length hows.old + length self }
    {
        let Joined { kept } = self;
        make(alloc, kept, hows)
    }
}
