//! Pruning a list of measures.

ghost use Rattle.std.specs.Prelude.{◌≡◌, ◌<◌, ◌≤◌, ◌*◌, ◌∷◌, length, reverse, IfOk, OnOk, List};
ghost use Rattle.rf_base_cost.specs.Cost.{IsValue};
ghost use Rattle.rf_base_cost.specs.Pareto.{IsFrontier, EachIsValue, NeverRises, pareto};
ghost use Rattle.rf_base_steps.specs.Steps.{MakesAtMost};
ghost use Rattle.rf_frontier.specs.declared.hows.How.{How};
ghost use Rattle.rf_frontier.specs.Frontiers.{BelongTo, all_chosen};

use crate::frontiers::{Frontier, Measure};
use rf_base_steps::Steps;
use rf_cost::Factory;
use std::alloc::{AllocError, Global};
use std::sync::ledger::Ledger;

/// The frontier of a list whose last columns never rise: what nothing dominates, and of equal measures
/// the earliest. It makes at most two steps for each measure of the list, also where it is refused. An
/// `AllocError` comes for want of memory.
pub fn prune<F: Factory, L: Ledger>(
    alloc: Global,
    factory: &F,
    list: &[Measure<F::Cost>],
    steps: &mut Steps<L>,
) -> Result<Frontier<F::Cost>, AllocError>
    requires falling { NeverRises list.now }
    requires values { EachIsValue (F.costs factory.now) list.now }

    ensures pruned { IfOk result (λ f. f ≡ pareto (F.costs factory.now) list.now) }
    ensures ordered { IfOk result (λ f. IsFrontier (F.costs factory.now) f) }
    ensures values { IfOk result (λ f. EachIsValue (F.costs factory.now) f) }
    ensures chosen { IfOk result (λ f. (ways : List How) →
        all_chosen ways f ≡ pareto (F.costs factory.now) (all_chosen ways list.now)) }
    ensures belongs { IfOk result (λ f. (ways : List How) → BelongTo ways list.now → BelongTo ways f) }
    ensures steps { MakesAtMost (2 * length list.now) steps.old steps.new }
{
    prune_list(alloc, factory, list, steps)
}

// The same, by one walk over the list from its end, where the last columns are least.
fn prune_list<F: Factory, L: Ledger>(
    alloc: Global,
    factory: &F,
    list: &[Measure<F::Cost>],
    steps: &mut Steps<L>,
) -> Result<Frontier<F::Cost>, AllocError>
    requires falling { NeverRises list.now }
    requires values { EachIsValue (F.costs factory.now) list.now }

    ensures pruned { IfOk result (λ f. f ≡ pareto (F.costs factory.now) list.now) }
    ensures steps { MakesAtMost (length list.now) steps.old steps.new }
{
    if list.is_empty() {
        return Ok(Frontier::none());
    }
    // The held measure is the first of the frontier of what was seen; those behind it stand turned round.
    let mut at = list.len() - 1;
    let mut held = list[at];
    let mut behind = Vec::new(alloc);
    while at > 0 {
        at -= 1;
        settle(factory, list[at], &mut held, &mut behind, steps)?;
    }
    Frontier::turned_round(held, behind)
}

// One more measure in front of a frontier, which ends no further left than any of it.
fn settle<F: Factory, L: Ledger>(
    factory: &F,
    m: Measure<F::Cost>,
    held: &mut Measure<F::Cost>,
    behind: &mut Vec<Measure<F::Cost>>,
    steps: &mut Steps<L>,
) -> Result<(), AllocError>
    requires value { IsValue (F.costs factory.now) m.cost }
    requires ordered { IsFrontier (F.costs factory.now) (held.old ∷ reverse behind.old.items) }
    requires values { EachIsValue (F.costs factory.now) (held.old ∷ reverse behind.old.items) }
    requires right { held.old.last ≤ m.last }

    ensures settled { OnOk result
        (held.new ∷ reverse behind.new.items ≡ pareto (F.costs factory.now) (m ∷ held.old ∷ reverse behind.old.items)) }
    ensures steps { MakesAtMost 1 steps.old steps.new }
{
    if m.last == held.last {
        if factory.le(m.cost, held.cost, steps) {
            *held = m;
        }
    } else if !factory.le(held.cost, m.cost, steps) {
        behind.push(*held)?;
        *held = m;
    }
    Ok(())
}
