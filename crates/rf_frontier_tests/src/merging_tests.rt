//! One measure behind a frontier of several, under `Squares`.

ghost use Rattle.std.specs.Prelude.{◌≡◌, ◌<◌, IfOk};
ghost use Rattle.rf_base_cost.specs.Cost.{IsValue};
ghost use Rattle.rf_base_cost.specs.Pareto.{IsFrontier, EachIsValue};

use crate::showing::listed;
use rf_base_steps::Steps;
use rf_cost::{Factory, Squares};
use rf_frontier::{HowId, Kept, Measure, merge_ways};
use std::alloc::{AllocError, Global};
use std::marker::Brand;
use std::sync::ledger::{Blank, Ledger};
use std::test::Fail;

// A measure's last column and cost, and the frontier of `9 1`, `7 2`, `5 4` and of it, as `listed` says it.
const ROWS: [(u32, u128, &str); 8] = [
    // What ends further left and costs more comes behind.
    (3, 9, "9 1 0;7 2 0;5 4 0;3 9 0;"),
    // What it outdoes goes.
    (3, 4, "9 1 0;7 2 0;3 4 0;"),
    (4, 2, "9 1 0;4 2 0;"),
    (3, 0, "3 0 0;"),
    // What ends no further left is merged.
    (5, 3, "9 1 0;7 2 0;5 3 0;"),
    (5, 5, "9 1 0;7 2 0;5 4 0;"),
    (6, 3, "9 1 0;7 2 0;6 3 0;5 4 0;"),
    (12, 0, "12 0 0;9 1 0;7 2 0;5 4 0;"),
];

#[test]
fn one_more_measure_is_merged(rt: HostRuntime) -> Result<(), Fail> {
    for (last, cost, wanted) in ROWS {
        let got = behind_three(rt.alloc(), last, cost)?;
        assert_eq!(rt; got.as_str(), wanted, "{last} {cost}");
    }
    Ok(())
}

// A measure, with no choice.
fn at(last: u32, cost: u128) -> Measure<u128> {
    Measure {
        last,
        cost,
        how: HowId(0),
    }
}

// Three measures that end further and further left and cost more and more, merged one after the other, and then one
// more.
fn behind_three(alloc: Global, last: u32, cost: u128) -> Result<String, AllocError> {
    let kept = counted::<Brand>(alloc, at(last, cost), Blank::new(1))?;
    listed(alloc, kept.into_vec(alloc)?.as_slice())
}

// The same, counted on a new counter.
fn counted<L: Ledger>(
    alloc: Global,
    k: Measure<u128>,
    blank: Blank,
) -> Result<Kept<u128, HowId>, AllocError>
    requires name { blank.name ≡ L.name }
    requires parts { blank.parts ≡ L.parts }
    requires some_part { 0 < blank.parts }
{
    let mut steps: Steps<L> = Steps::new(blank);
    let factory = Squares { width: 10 };
    let one = Kept::one(at(9, 1));
    let two = one_more(alloc, &factory, one, at(7, 2), &mut steps)?;
    let three = one_more(alloc, &factory, two, at(5, 4), &mut steps)?;
    one_more(alloc, &factory, three, k, &mut steps)
}

// The frontier of what is kept and of one more measure.
fn one_more<F: Factory, L: Ledger>(
    alloc: Global,
    factory: &F,
    kept: Kept<F::Cost, HowId>,
    k: Measure<F::Cost>,
    steps: &mut Steps<L>,
) -> Result<Kept<F::Cost, HowId>, AllocError>
    requires ordered { IsFrontier (F.costs factory.now) kept }
    requires values { EachIsValue (F.costs factory.now) kept }
    requires value { IsValue (F.costs factory.now) k.cost }
    ensures ordered { IfOk result (λ f. IsFrontier (F.costs factory.now) f) }
    ensures values { IfOk result (λ f. EachIsValue (F.costs factory.now) f) }
{
    merge_ways(alloc, factory, kept, Kept::one(k), steps)
}
