//! Frontiers for a cost before that of each measure.

ghost use Rattle.std.specs.Prelude.{◌≡◌, ◌<◌, ◌*◌, ◌∷◌, length, IfOk, OnOk, List};
ghost use Rattle.rf_base_cost.specs.Cost.{IsValue, IsCharge};
ghost use Rattle.rf_base_cost.specs.Pareto.{IsFrontier, EachIsValue, pareto, raised, all_raised, all_rewayed};
ghost use Rattle.rf_base_steps.specs.Steps.{MakesAtMost};
ghost use Rattle.rf_frontier.specs.declared.hows.How.{How};
ghost use Rattle.rf_frontier.specs.Frontiers.{BelongTo, all_chosen, all_charged};
ghost use Rattle.rf_frontier.specs.Raised.{IsRaised, kept_before};

use crate::frontiers::Frontier;
use crate::hows::HowId;
use crate::kept::Kept;
use crate::lists::rest;
use crate::views::{AsTheyAre, View, viewed};
use rf_base_cost::Measure;
use rf_base_steps::Steps;
use rf_cost::Factory;
use std::alloc::{AllocError, Global};
use std::sync::ledger::Ledger;

/// The frontier of the measures of `f` with the charge of `k` before each cost; the ways are kept. It
/// makes at most two steps for each measure of `f`, also where it is refused. An `AllocError` comes for
/// want of memory.
pub fn charge<F: Factory, L: Ledger>(
    alloc: Global,
    factory: &F,
    k: u32,
    f: &Frontier<F::Cost>,
    steps: &mut Steps<L>,
) -> Result<Frontier<F::Cost>, AllocError>
    requires charge { IsCharge k }
    requires ordered { IsFrontier (F.costs factory.now) f.now }
    requires values { EachIsValue (F.costs factory.now) f.now }

    ensures charged { IfOk result (λ g. g ≡ pareto (F.costs factory.now) (all_charged (F.costs factory.now) k f.now)) }
    ensures ordered { IfOk result (λ g. IsFrontier (F.costs factory.now) g) }
    ensures values { IfOk result (λ g. EachIsValue (F.costs factory.now) g) }
    ensures chosen { IfOk result (λ g. (ways : List How) →
        all_chosen ways g ≡ pareto (F.costs factory.now)
        (all_charged (F.costs factory.now) k (all_chosen ways f.now))) }
    ensures belongs { IfOk result (λ g. (ways : List How) → BelongTo ways f.now → BelongTo ways g) }
    ensures steps { MakesAtMost (2 * length f.now) steps.old steps.new }
{
    raise(alloc, factory, factory.charge(k), f.measures(), steps)
}

/// The frontier of the measures of a frontier with this cost before each cost.
pub fn raise<F: Factory, L: Ledger>(
    alloc: Global,
    factory: &F,
    by: F::Cost,
    list: &[Measure<F::Cost, HowId>],
    steps: &mut Steps<L>,
) -> Result<Frontier<F::Cost>, AllocError>
    requires by_value { IsValue (F.costs factory.now) by }
    requires ordered { IsFrontier (F.costs factory.now) list.now }
    requires values { EachIsValue (F.costs factory.now) list.now }

    ensures raised { IfOk result (λ g. g
        ≡ pareto (F.costs factory.now) (all_raised (F.costs factory.now) by list.now)) }
    ensures steps { MakesAtMost (length list.now) steps.old steps.new }
{
    let kept = raise_views(alloc, factory, by, list, &AsTheyAre, steps)?;
    Frontier::of(alloc, kept)
}

/// The same, with the choices as they are seen.
pub fn raise_views<F: Factory, H: Copy, K: Copy, V: View<H, K>, L: Ledger>(
    alloc: Global,
    factory: &F,
    by: F::Cost,
    list: &[Measure<F::Cost, H>],
    view: &V,
    steps: &mut Steps<L>,
) -> Result<Kept<F::Cost, K>, AllocError>
    requires by_value { IsValue (F.costs factory.now) by }
    requires ordered { IsFrontier (F.costs factory.now) list.now }
    requires values { EachIsValue (F.costs factory.now) list.now }

    ensures raised { IfOk result (λ g. g ≡
        pareto (F.costs factory.now) (all_raised (F.costs factory.now) by (all_rewayed (V.seen view.now) list.now))) }
    ensures steps { MakesAtMost (length list.now) steps.old steps.new }
{
    if list.is_empty() {
        return Ok(Kept::none());
    }
    let first = raised_by(factory, by, viewed(list[0], view));
    raise_behind(alloc, factory, by, first, rest(list), view, steps)
}

// The frontier of a measure that has the cost before its own already, and of others with it before each.
fn raise_behind<F: Factory, H: Copy, K: Copy, V: View<H, K>, L: Ledger>(
    alloc: Global,
    factory: &F,
    by: F::Cost,
    first: Measure<F::Cost, K>,
    others: &[Measure<F::Cost, H>],
    view: &V,
    steps: &mut Steps<L>,
) -> Result<Kept<F::Cost, K>, AllocError>
    requires by_value { IsValue (F.costs factory.now) by }
    requires raised { IsRaised (F.costs factory.now)
        (first ∷ all_raised (F.costs factory.now) by (all_rewayed (V.seen view.now) others.now)) }
    requires first_value { IsValue (F.costs factory.now) first.cost }
    requires values { EachIsValue (F.costs factory.now) others.now }

    ensures raised { IfOk result (λ g. g ≡
        pareto (F.costs factory.now)
        (first ∷ all_raised (F.costs factory.now) by (all_rewayed (V.seen view.now) others.now))) }
    ensures steps { MakesAtMost (length others.now) steps.old steps.new }
{
    let mut kept = Kept::none();
    let mut held = first;
    let mut left = others;
    while !left.is_empty() {
        let next = raised_by(factory, by, viewed(left[0], view));
        keep_unless_outdone(alloc, factory, held, next, &mut kept, steps)?;
        held = next;
        left = rest(left);
    }
    kept.push(alloc, held)?;
    Ok(kept)
}

// Keeps a measure, unless the next one, which ends further left, costs no more.
fn keep_unless_outdone<F: Factory, H: Copy, L: Ledger>(
    alloc: Global,
    factory: &F,
    held: Measure<F::Cost, H>,
    next: Measure<F::Cost, H>,
    kept: &mut Kept<F::Cost, H>,
    steps: &mut Steps<L>,
) -> Result<(), AllocError>
    requires held { IsValue (F.costs factory.now) held.cost }
    requires next { IsValue (F.costs factory.now) next.cost }
    ensures kept { OnOk result (kept.new ≡ kept_before (F.costs factory.now) kept.old held next) }
    ensures steps { MakesAtMost 1 steps.old steps.new }
{
    if factory.le(next.cost, held.cost, steps) {
        Ok(())
    } else {
        kept.push(alloc, held)
    }
}

/// The measure for this cost before its own.
pub fn raised_by<F: Factory, H: Copy>(
    factory: &F,
    by: F::Cost,
    m: Measure<F::Cost, H>,
) -> Measure<F::Cost, H>
    requires by { IsValue (F.costs factory.now) by }
    requires measure { IsValue (F.costs factory.now) m.cost }
    ensures { result ≡ raised (F.costs factory.now) by m }
{
    let cost = factory.add(by, m.cost);
    Measure { cost, ..m }
}
