//! Merging two frontiers into one.

ghost use Rattle.std.specs.Prelude.{◌≡◌, ◌+◌, ◌*◌, [], ◌∷◌, ◌++◌, length, IfOk, IfSome, OnOk, List, None};
ghost use Rattle.rf_base_cost.specs.Cost.{IsValue};
ghost use Rattle.rf_base_cost.specs.Pareto.{IsFrontier, EachIsValue, pareto, all_rewayed};
ghost use Rattle.rf_base_cut.specs.Cut.{cut};
ghost use Rattle.rf_base_steps.specs.Steps.{MakesAtMost};
ghost use Rattle.rf_frontier.specs.declared.hows.How.{How};
ghost use Rattle.rf_frontier.specs.Frontiers.{BelongTo, all_chosen};

use crate::frontiers::Frontier;
use crate::hows::HowId;
use crate::kept::Kept;
use crate::lists::rest;
use crate::turns::{Turn, heads, next_turn};
use crate::views::{AsTheyAre, View, viewed};
use rf_base_cost::Measure;
use rf_base_steps::Steps;
use rf_cost::Factory;
use std::alloc::{AllocError, Global};
use std::mem;
use std::sync::ledger::Ledger;

/// The frontier of the measures of `a` and then those of `b`: what nothing dominates, and of equal
/// measures that of `a`. It makes at most two steps for each measure of `a` and of `b`, also where it is
/// refused. An `AllocError` comes for want of memory.
pub fn merge<F: Factory, L: Ledger>(
    alloc: Global,
    factory: &F,
    a: &Frontier<F::Cost>,
    b: &Frontier<F::Cost>,
    steps: &mut Steps<L>,
) -> Result<Frontier<F::Cost>, AllocError>
    requires first { IsFrontier (F.costs factory.now) a.now }
    requires second { IsFrontier (F.costs factory.now) b.now }
    requires first_values { EachIsValue (F.costs factory.now) a.now }
    requires second_values { EachIsValue (F.costs factory.now) b.now }

    ensures merged { IfOk result (λ f. f ≡ pareto (F.costs factory.now) (a.now ++ b.now)) }
    ensures ordered { IfOk result (λ f. IsFrontier (F.costs factory.now) f) }
    ensures values { IfOk result (λ f. EachIsValue (F.costs factory.now) f) }
    ensures chosen { IfOk result (λ f. (ways : List How) →
        all_chosen ways f ≡ pareto (F.costs factory.now) (all_chosen ways a.now ++ all_chosen ways b.now)) }
    ensures belongs { IfOk result (λ f. (ways : List How) → BelongTo ways a.now → BelongTo ways b.now
        → BelongTo ways f) }
    ensures steps { MakesAtMost (2 * (length a.now + length b.now)) steps.old steps.new }
{
    let kept = merge_lists(alloc, factory, a.measures(), b.measures(), steps)?;
    Frontier::of(alloc, kept)
}

/// The frontier of two frontiers that are given as lists.
pub fn merge_lists<F: Factory, H: Copy, L: Ledger>(
    alloc: Global,
    factory: &F,
    a: &[Measure<F::Cost, H>],
    b: &[Measure<F::Cost, H>],
    steps: &mut Steps<L>,
) -> Result<Kept<F::Cost, H>, AllocError>
    requires first { IsFrontier (F.costs factory.now) a.now }
    requires second { IsFrontier (F.costs factory.now) b.now }
    requires first_values { EachIsValue (F.costs factory.now) a.now }
    requires second_values { EachIsValue (F.costs factory.now) b.now }

    ensures merged { IfOk result (λ f. f ≡ pareto (F.costs factory.now) (a.now ++ b.now)) }
    ensures steps { MakesAtMost (length a.now + length b.now) steps.old steps.new }
{
    merge_views(alloc, factory, a, &AsTheyAre, b, &AsTheyAre, steps)
}

/// The frontier of the measures of `a` and then those of `b`, with choices of any kind: what nothing dominates, and of
/// equal measures that of `a`. Where one of them has no measure, it is the other one, without a step and without
/// memory. It makes at most one step for each measure of `a` and of `b`, also where it is refused. An `AllocError`
/// comes for want of memory.
pub fn merge_kept<F: Factory, H: Copy, L: Ledger>(
    alloc: Global,
    factory: &F,
    a: Kept<F::Cost, H>,
    b: Kept<F::Cost, H>,
    steps: &mut Steps<L>,
) -> Result<Kept<F::Cost, H>, AllocError>
    requires first { IsFrontier (F.costs factory.now) a }
    requires second { IsFrontier (F.costs factory.now) b }
    requires first_values { EachIsValue (F.costs factory.now) a }
    requires second_values { EachIsValue (F.costs factory.now) b }

    ensures merged { IfOk result (λ f. f ≡ pareto (F.costs factory.now) (a ++ b)) }
    ensures steps { MakesAtMost (length a + length b) steps.old steps.new }
{
    if a.is_empty() {
        return Ok(b);
    }
    if b.is_empty() {
        return Ok(a);
    }
    match (a.alone(), b.alone()) {
        (Some(x), Some(y)) => merge_two(alloc, factory, x, y, steps),
        (None, Some(k)) => {
            let mut all = a;
            merge_one(alloc, factory, &mut all, k, steps)?;
            Ok(all)
        }
        _ => merge_vectors(alloc, factory, a, b, steps),
    }
}

// The frontier of two measures, by one comparison of costs.
fn merge_two<F: Factory, H: Copy, L: Ledger>(
    alloc: Global,
    factory: &F,
    x: Measure<F::Cost, H>,
    y: Measure<F::Cost, H>,
    steps: &mut Steps<L>,
) -> Result<Kept<F::Cost, H>, AllocError>
    requires first { IsValue (F.costs factory.now) x.cost }
    requires second { IsValue (F.costs factory.now) y.cost }

    ensures merged { IfOk result (λ f. f ≡ pareto (F.costs factory.now) (x ∷ y ∷ [])) }
    ensures steps { MakesAtMost 1 steps.old steps.new }
{
    match heads(factory, x, y, steps) {
        Turn::KeepFirst => Kept::two(alloc, x, y),
        Turn::KeepSecond => Kept::two(alloc, y, x),
        Turn::DropFirst => Ok(Kept::one(y)),
        Turn::DropSecond => Ok(Kept::one(x)),
    }
}

/// The measure that is worth keeping of two, cut at column `x`, where it is one alone, and none where both are. It
/// takes no memory, and makes at most one step.
#[inline(always)]
pub fn best_of_two<F: Factory, H: Copy, L: Ledger>(
    factory: &F,
    first: Measure<F::Cost, H>,
    second: Measure<F::Cost, H>,
    x: u32,
    steps: &mut Steps<L>,
) -> Option<Measure<F::Cost, H>>
    requires first { IsValue (F.costs factory.now) first.cost }
    requires second { IsValue (F.costs factory.now) second.cost }

    ensures best { IfSome result (λ m. cut x (pareto (F.costs factory.now) (first ∷ second ∷ [])) ≡ m ∷ []) }
    ensures both { result ≡ None → length (cut x (pareto (F.costs factory.now) (first ∷ second ∷ []))) ≡ 2 }
    ensures steps { MakesAtMost 1 steps.old steps.new }
{
    match heads(factory, first, second, steps) {
        Turn::KeepFirst if first.last <= x => Some(first),
        Turn::KeepSecond if second.last <= x => Some(second),
        Turn::KeepFirst => None,
        Turn::KeepSecond => None,
        Turn::DropFirst => Some(second),
        Turn::DropSecond => Some(first),
    }
}

/// Puts one more measure behind those that are kept, and keeps the frontier of all of them: what nothing dominates, and
/// of equal measures the first. It makes at most one step for each measure, also where it is refused. An `AllocError`
/// comes for want of memory, and what is kept is not to be used after it.
///
/// That is done in place, from the end of what is kept: what `k` outdoes there goes, and `k` comes behind the rest.
/// Only where it ends no further left than the last of the rest, both are merged.
#[inline(always)]
pub fn merge_one<F: Factory, H: Copy, L: Ledger>(
    alloc: Global,
    factory: &F,
    all: &mut Kept<F::Cost, H>,
    k: Measure<F::Cost, H>,
    steps: &mut Steps<L>,
) -> Result<(), AllocError>
    requires first { IsFrontier (F.costs factory.now) all.old }
    requires first_values { EachIsValue (F.costs factory.now) all.old }
    requires second_value { IsValue (F.costs factory.now) k.cost }

    ensures merged { OnOk result (all.new ≡ pareto (F.costs factory.now) (all.old ++ k ∷ [])) }
    ensures steps { MakesAtMost (length all.old + 1) steps.old steps.new }
{
    while all.len() > 0 {
        let m = all.get(all.len() - 1);
        if m.last <= k.last {
            return merge_within(alloc, factory, all, k, steps);
        }
        if !factory.le(k.cost, m.cost, steps) {
            return all.push(alloc, k);
        }
        all.drop_last();
    }
    all.push(alloc, k)
}

// The same where it may come before some of those that are kept. Frames stay small where that is apart.
#[cold]
#[inline(never)]
fn merge_within<F: Factory, H: Copy, L: Ledger>(
    alloc: Global,
    factory: &F,
    all: &mut Kept<F::Cost, H>,
    k: Measure<F::Cost, H>,
    steps: &mut Steps<L>,
) -> Result<(), AllocError>
    requires first { IsFrontier (F.costs factory.now) all.old }
    requires first_values { EachIsValue (F.costs factory.now) all.old }
    requires second_value { IsValue (F.costs factory.now) k.cost }

    ensures merged { OnOk result (all.new ≡ pareto (F.costs factory.now) (all.old ++ k ∷ [])) }
    ensures steps { MakesAtMost (length all.old + 1) steps.old steps.new }
{
    let before = mem::replace(all, Kept::none());
    *all = merge_vectors(alloc, factory, before, Kept::one(k), steps)?;
    Ok(())
}

// The frontier of what is kept of two lists, of which one has more than one measure: where the other one has one alone,
// a vector is made of it.
fn merge_vectors<F: Factory, H: Copy, L: Ledger>(
    alloc: Global,
    factory: &F,
    a: Kept<F::Cost, H>,
    b: Kept<F::Cost, H>,
    steps: &mut Steps<L>,
) -> Result<Kept<F::Cost, H>, AllocError>
    requires first { IsFrontier (F.costs factory.now) a }
    requires second { IsFrontier (F.costs factory.now) b }
    requires first_values { EachIsValue (F.costs factory.now) a }
    requires second_values { EachIsValue (F.costs factory.now) b }

    ensures merged { IfOk result (λ f. f ≡ pareto (F.costs factory.now) (a ++ b)) }
    ensures steps { MakesAtMost (length a + length b) steps.old steps.new }
{
    let first = a.into_vec(alloc)?;
    let second = b.into_vec(alloc)?;
    merge_lists(alloc, factory, first.as_slice(), second.as_slice(), steps)
}

/// The same, of measures whose choices are ways: the ways are kept.
pub fn merge_ways<F: Factory, L: Ledger>(
    alloc: Global,
    factory: &F,
    a: Kept<F::Cost, HowId>,
    b: Kept<F::Cost, HowId>,
    steps: &mut Steps<L>,
) -> Result<Kept<F::Cost, HowId>, AllocError>
    requires first { IsFrontier (F.costs factory.now) a }
    requires second { IsFrontier (F.costs factory.now) b }
    requires first_values { EachIsValue (F.costs factory.now) a }
    requires second_values { EachIsValue (F.costs factory.now) b }

    ensures merged { IfOk result (λ f. f ≡ pareto (F.costs factory.now) (a ++ b)) }
    ensures ordered { IfOk result (λ f. IsFrontier (F.costs factory.now) f) }
    ensures values { IfOk result (λ f. EachIsValue (F.costs factory.now) f) }
    ensures chosen { IfOk result (λ f. (ways : List How) →
        all_chosen ways f ≡ pareto (F.costs factory.now) (all_chosen ways a ++ all_chosen ways b)) }
    ensures belongs { IfOk result (λ f. (ways : List How) → BelongTo ways a → BelongTo ways b → BelongTo ways f) }
    ensures steps { MakesAtMost (length a + length b) steps.old steps.new }
{
    merge_kept(alloc, factory, a, b, steps)
}

/// The frontier of two frontiers, in one walk over both, with the choices of each frontier as they are seen.
pub fn merge_views<F: Factory, H: Copy, K: Copy, V: View<H, K>, L: Ledger>(
    alloc: Global,
    factory: &F,
    a: &[Measure<F::Cost, H>],
    view_of_a: &V,
    b: &[Measure<F::Cost, H>],
    view_of_b: &V,
    steps: &mut Steps<L>,
) -> Result<Kept<F::Cost, K>, AllocError>
    requires first { IsFrontier (F.costs factory.now) a.now }
    requires second { IsFrontier (F.costs factory.now) b.now }
    requires first_values { EachIsValue (F.costs factory.now) a.now }
    requires second_values { EachIsValue (F.costs factory.now) b.now }

    ensures merged { IfOk result (λ f. f ≡
        pareto (F.costs factory.now) (all_rewayed (V.seen view_of_a.now) a.now
        ++ all_rewayed (V.seen view_of_b.now) b.now)) }
    ensures steps { MakesAtMost (length a.now + length b.now) steps.old steps.new }
{
    let mut merged = Kept::none();
    let mut first = a;
    let mut second = b;
    while !first.is_empty() || !second.is_empty() {
        match next_turn(factory, first, second, steps) {
            Turn::KeepFirst => {
                merged.push(alloc, viewed(first[0], view_of_a))?;
                first = rest(first);
            }
            Turn::KeepSecond => {
                merged.push(alloc, viewed(second[0], view_of_b))?;
                second = rest(second);
            }
            Turn::DropFirst => first = rest(first),
            Turn::DropSecond => second = rest(second),
        }
    }
    Ok(merged)
}
