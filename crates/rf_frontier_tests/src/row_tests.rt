//! What single calls answer under `Squares`.

ghost use Rattle.std.specs.Prelude.{◌≡◌, ◌<◌};
ghost use Rattle.rf_base_cost.specs.Pareto.{NeverRises, EachIsValue};

use crate::showing::{listed, shown};
use rf_base_document::Dir;
use rf_base_steps::Steps;
use rf_cost::{Factory, Squares};
use rf_frontier::{Frontier, HowId, Hows, Measure, charge, leaf, mark, merge, prune};
use std::alloc::{AllocError, Global};
use std::marker::Brand;
use std::sync::ledger::{Blank, Ledger};
use std::test::Fail;

// A measure with the way of this number.
fn measured(last: u32, cost: u128, way: usize) -> Measure<u128>
    ensures { (result.last ≡ last) × (result.cost ≡ cost) }
{
    let how = HowId(way);
    Measure { last, cost, how }
}

#[test]
fn pruning_keeps_what_nothing_dominates(rt: HostRuntime) -> Result<(), Fail> {
    let list = [
        measured(9, 1, 0),
        measured(7, 1, 1),
        measured(7, 3, 2),
        measured(5, 4, 3),
    ];
    let kept = pruned::<Brand, Squares>(rt.alloc(), &Squares { width: 10 }, &list, Blank::new(1))?;
    let text = listed(rt.alloc(), kept.measures())?;
    assert_eq!(rt; text.as_str(), "7 1 1;5 4 3;");
    Ok(())
}

#[test]
fn pruning_keeps_the_earliest_of_equals(rt: HostRuntime) -> Result<(), Fail> {
    let list = [measured(7, 1, 0), measured(7, 1, 1), measured(7, 1, 2)];
    let kept = pruned::<Brand, Squares>(rt.alloc(), &Squares { width: 10 }, &list, Blank::new(1))?;
    let text = listed(rt.alloc(), kept.measures())?;
    assert_eq!(rt; text.as_str(), "7 1 0;");
    Ok(())
}

#[test]
fn merging_two_leaves(rt: HostRuntime) -> Result<(), Fail> {
    let alloc = rt.alloc();
    let shorter = merged::<Brand>(alloc, 6, 4, 4, 4, Blank::new(1))?;
    assert_eq!(rt; shorter.as_str(), "4 4 R;");
    let equal = merged::<Brand>(alloc, 5, 3, 5, 3, Blank::new(1))?;
    assert_eq!(rt; equal.as_str(), "5 3 L;");
    let apart = merged::<Brand>(alloc, 4, 9, 6, 2, Blank::new(1))?;
    assert_eq!(rt; apart.as_str(), "6 2 R;4 9 L;");
    let better = merged::<Brand>(alloc, 4, 2, 6, 9, Blank::new(1))?;
    assert_eq!(rt; better.as_str(), "4 2 L;");
    Ok(())
}

#[test]
fn charging_a_leaf(rt: HostRuntime) -> Result<(), Fail> {
    let dear = charged::<Brand>(rt.alloc(), 6, 4, 7, Blank::new(1))?;
    assert_eq!(rt; dear.as_str(), "6 11 L;");
    let same = charged::<Brand>(rt.alloc(), 6, 4, 0, Blank::new(1))?;
    assert_eq!(rt; same.as_str(), "6 4 L;");
    Ok(())
}

fn pruned<L: Ledger, F: Factory>(
    alloc: Global,
    factory: &F,
    list: &[Measure<F::Cost>],
    blank: Blank,
) -> Result<Frontier<F::Cost>, AllocError>
    requires falling { NeverRises list.now }
    requires values { EachIsValue (F.costs factory.now) list.now }
    requires name { blank.name ≡ L.name }
    requires parts { blank.parts ≡ L.parts }
    requires some_part { 0 < blank.parts }
{
    let mut steps: Steps<L> = Steps::new(blank);
    prune(alloc, factory, list, &mut steps)
}

// The merge of a leaf marked left and a leaf marked right.
fn merged<L: Ledger>(
    alloc: Global,
    last: u32,
    cost: u128,
    other_last: u32,
    other_cost: u128,
    blank: Blank,
) -> Result<String, AllocError>
    requires name { blank.name ≡ L.name }
    requires parts { blank.parts ≡ L.parts }
    requires some_part { 0 < blank.parts }
{
    let mut steps: Steps<L> = Steps::new(blank);
    let mut hows = Hows::new(alloc);
    let a = leaf(alloc, &mut hows, last, cost)?;
    let left = mark(alloc, Dir::Left, &a, &mut hows)?;
    let b = leaf(alloc, &mut hows, other_last, other_cost)?;
    let right = mark(alloc, Dir::Right, &b, &mut hows)?;
    let both = merge(alloc, &Squares { width: 10 }, &left, &right, &mut steps)?;
    shown(alloc, &both, &hows)
}

// A leaf marked left, with a charge.
fn charged<L: Ledger>(
    alloc: Global,
    last: u32,
    cost: u128,
    k: u32,
    blank: Blank,
) -> Result<String, AllocError>
    requires charge { k < 1000 }
    requires name { blank.name ≡ L.name }
    requires parts { blank.parts ≡ L.parts }
    requires some_part { 0 < blank.parts }
{
    let mut steps: Steps<L> = Steps::new(blank);
    let mut hows = Hows::new(alloc);
    let a = leaf(alloc, &mut hows, last, cost)?;
    let left = mark(alloc, Dir::Left, &a, &mut hows)?;
    let dear = charge(alloc, &Squares { width: 10 }, k, &left, &mut steps)?;
    shown(alloc, &dear, &hows)
}
