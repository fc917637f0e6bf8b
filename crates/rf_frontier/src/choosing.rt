//! The frontier of a choice.

ghost use Rattle.std.specs.Prelude.{◌≡◌, ◌≤◌, ◌+◌, ◌++◌, length, IfOk};
ghost use Rattle.rf_base_cost.specs.Pareto.{IsFrontier, EachIsValue, pareto, all_marked};
ghost use Rattle.rf_base_steps.specs.Steps.{MakesAtMost};
ghost use Rattle.rf_frontier.specs.Ways.{KeepsWays};
ghost use Rattle.rf_frontier.specs.Frontiers.{BelongTo, all_chosen};

use crate::before::Before;
use crate::frontiers::Frontier;
use crate::hows::Hows;
use crate::making::make;
use crate::merging::merge_views;
use rf_base_document::Dir;
use rf_base_steps::Steps;
use rf_cost::Factory;
use std::alloc::{AllocError, Global};
use std::sync::ledger::Ledger;

/// The frontier of a choice between alternatives with the frontiers `a` and `b`: that of the measures of
/// `a` marked left and then those of `b` marked right. Only what stays gets a way. Ways that were there
/// stay what they were. It makes at most one step for each measure of `a` and of `b`, also where it is
/// refused. An `AllocError` comes for want of memory.
#[tactic(auto, using(crate::proofs::Ways::keeps_same))]
pub fn either<F: Factory, L: Ledger>(
    alloc: Global,
    factory: &F,
    a: &Frontier<F::Cost>,
    b: &Frontier<F::Cost>,
    hows: &mut Hows,
    steps: &mut Steps<L>,
) -> Result<Frontier<F::Cost>, AllocError>
    requires first { IsFrontier (F.costs factory.now) a.now }
    requires second { IsFrontier (F.costs factory.now) b.now }
    requires first_values { EachIsValue (F.costs factory.now) a.now }
    requires second_values { EachIsValue (F.costs factory.now) b.now }
    requires first_belongs { BelongTo hows.old a.now }
    requires second_belongs { BelongTo hows.old b.now }

    ensures chosen { IfOk result (λ f. all_chosen hows.new f ≡ pareto (F.costs factory.now)
        (all_marked Dir.Left (all_chosen hows.old a.now) ++ all_marked Dir.Right (all_chosen hows.old b.now))) }
    ensures ordered { IfOk result (λ f. IsFrontier (F.costs factory.now) f) }
    ensures values { IfOk result (λ f. EachIsValue (F.costs factory.now) f) }
    ensures belongs { IfOk result (λ f. BelongTo hows.new f) }
    ensures older { KeepsWays hows.old hows.new }
    ensures few_more { length hows.new ≤ length hows.old + length a.now + length b.now }
    ensures steps { MakesAtMost (length a.now + length b.now) steps.old steps.new }
{
    let left = Before::Choice(Dir::Left);
    let right = Before::Choice(Dir::Right);
    let merged = merge_views(
        alloc,
        factory,
        a.measures(),
        &left,
        b.measures(),
        &right,
        steps,
    )?;
    make(alloc, merged, hows)
}
