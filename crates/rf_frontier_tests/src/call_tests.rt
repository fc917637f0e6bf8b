//! Each call at each factory.

ghost use Rattle.std.specs.Prelude.{◌≡◌, ◌<◌, IfOk};
ghost use Rattle.rf_base_cost.specs.Pareto.{IsFrontier, EachIsValue};
ghost use Rattle.rf_frontier.specs.Frontiers.{BelongTo};

use crate::showing::shown;
use rf_base_document::Dir;
use rf_base_steps::Steps;
use rf_cost::{Factory, Linear, Lines, Squares};
use rf_frontier::{Frontier, Hows, charge, leaf, mark, merge, prune, shift};
use std::alloc::{AllocError, Global};
use std::marker::Brand;
use std::sync::ledger::{Blank, Ledger};
use std::test::Fail;

#[test]
fn at_squares(rt: HostRuntime) -> Result<(), Fail> {
    let text = answer(rt.alloc(), &Squares { width: 10 })?;
    assert_eq!(rt; text.as_str(), "9 5 LL;4 6 LR;");
    Ok(())
}

#[test]
fn at_linear(rt: HostRuntime) -> Result<(), Fail> {
    let text = answer(rt.alloc(), &Linear { width: 10 })?;
    assert_eq!(rt; text.as_str(), "9 5 LL;4 6 LR;");
    Ok(())
}

#[test]
fn at_lines(rt: HostRuntime) -> Result<(), Fail> {
    let text = answer(rt.alloc(), &Lines)?;
    assert_eq!(rt; text.as_str(), "9 5 LL;4 6 LR;");
    Ok(())
}

// What all calls come to at this factory.
fn answer<F: Factory<Cost = u128>>(alloc: Global, factory: &F) -> Result<String, Fail> {
    let mut hows = Hows::new(alloc);
    let f = each_call::<Brand, F>(alloc, factory, &mut hows, Blank::new(1))?;
    Ok(shown(alloc, &f, &hows)?)
}

// A choice of two leaves, behind its own first measure, with a charge, and pruned once more.
fn each_call<L: Ledger, F: Factory>(
    alloc: Global,
    factory: &F,
    hows: &mut Hows,
    blank: Blank,
) -> Result<Frontier<F::Cost>, AllocError>
    requires name { blank.name ≡ L.name }
    requires parts { blank.parts ≡ L.parts }
    requires some_part { 0 < blank.parts }
    ensures { IfOk result (λ f. BelongTo hows.new f) }
{
    let mut steps: Steps<L> = Steps::new(blank);
    let choice = choice_of_leaves(alloc, factory, hows, &mut steps)?;
    let dear = charge(alloc, factory, 5, &choice, &mut steps)?;
    let behind = behind_first(alloc, factory, &choice, &dear, hows, &mut steps)?;
    prune(alloc, factory, behind.measures(), &mut steps)
}

// The choice between a short text and a line break.
fn choice_of_leaves<L: Ledger, F: Factory>(
    alloc: Global,
    factory: &F,
    hows: &mut Hows,
    steps: &mut Steps<L>,
) -> Result<Frontier<F::Cost>, AllocError>
    ensures ordered { IfOk result (λ f. IsFrontier (F.costs factory.now) f) }
    ensures values { IfOk result (λ f. EachIsValue (F.costs factory.now) f) }
    ensures belongs { IfOk result (λ f. BelongTo hows.new f) }
{
    let text = factory.text(0, 9);
    let short = leaf(alloc, hows, 9, text)?;
    let left = mark(alloc, Dir::Left, &short, hows)?;
    let newline = factory.newline(4);
    let line = leaf(alloc, hows, 4, newline)?;
    let right = mark(alloc, Dir::Right, &line, hows)?;
    merge(alloc, factory, &left, &right, steps)
}

// A frontier behind the first measure of another.
fn behind_first<L: Ledger, F: Factory>(
    alloc: Global,
    factory: &F,
    left: &Frontier<F::Cost>,
    right: &Frontier<F::Cost>,
    hows: &mut Hows,
    steps: &mut Steps<L>,
) -> Result<Frontier<F::Cost>, AllocError>
    requires left_values { EachIsValue (F.costs factory.now) left.now }
    requires left_belongs { BelongTo hows.old left.now }
    requires ordered { IsFrontier (F.costs factory.now) right.now }
    requires values { EachIsValue (F.costs factory.now) right.now }
    requires belongs { BelongTo hows.old right.now }
    ensures ordered { IfOk result (λ f. IsFrontier (F.costs factory.now) f) }
    ensures values { IfOk result (λ f. EachIsValue (F.costs factory.now) f) }
    ensures belongs { IfOk result (λ f. BelongTo hows.new f) }
{
    let measures = left.measures();
    if measures.is_empty() {
        return merge(alloc, factory, right, right, steps);
    }
    let first = measures[0];
    shift(alloc, factory, &first, right, hows, steps)
}
