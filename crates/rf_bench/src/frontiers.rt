//! Merging and shifting frontiers.

ghost use Rattle.std.specs.Prelude.{◌≡◌, ◌<◌, IfOk};
ghost use Rattle.rf_base_cost.specs.Pareto.{IsFrontier, EachIsValue};
ghost use Rattle.rf_cost.specs.Factories.{squares};
ghost use Rattle.rf_frontier.specs.Ways.{KeepsWays};
ghost use Rattle.rf_frontier.specs.Frontiers.{BelongTo};

use rf_base_document::Dir;
use rf_base_steps::Steps;
use rf_cost::Squares;
use rf_frontier::{Frontier, Hows, leaf, mark, merge, shift};
use std::alloc::{AllocError, Global};
use std::marker::Brand;
use std::sync::ledger::{Blank, Ledger};

/// Merges two frontiers of `size` measures each and shifts one of them, `rounds` times. It answers how
/// many measures were merged and shifted.
pub fn frontiers(alloc: Global, size: u32, rounds: u32) -> Result<u64, AllocError> {
    counted::<Brand>(alloc, size, rounds, Blank::new(1))
}

fn counted<L: Ledger>(
    alloc: Global,
    size: u32,
    rounds: u32,
    blank: Blank,
) -> Result<u64, AllocError>
    requires name { blank.name ≡ L.name }
    requires parts { blank.parts ≡ L.parts }
    requires some_part { 0 < blank.parts }
{
    let mut steps: Steps<L> = Steps::new(blank);
    let mut hows = Hows::new(alloc);
    let even = comb(alloc, size, 0, &mut hows, &mut steps)?;
    let odd = comb(alloc, size, 1, &mut hows, &mut steps)?;
    all_rounds(alloc, rounds, &even, &odd, &mut hows, &mut steps)
}

// How many measures were merged and shifted in so many rounds.
fn all_rounds<L: Ledger>(
    alloc: Global,
    rounds: u32,
    even: &Frontier<u128>,
    odd: &Frontier<u128>,
    hows: &mut Hows,
    steps: &mut Steps<L>,
) -> Result<u64, AllocError>
    requires even { IsFrontier (squares 80) even.now }
    requires odd { IsFrontier (squares 80) odd.now }
    requires even_values { EachIsValue (squares 80) even.now }
    requires odd_values { EachIsValue (squares 80) odd.now }
    requires even_belongs { BelongTo hows.old even.now }
    requires odd_belongs { BelongTo hows.old odd.now }
{
    let mut measures: u64 = 0;
    for _round in 0..rounds {
        let both = merged(alloc, even, odd, steps)?;
        let moved = shifted(alloc, even, odd, hows, steps)?;
        measures = measures
            .saturating_add(both as u64)
            .saturating_add(moved as u64);
    }
    Ok(measures)
}

// A frontier of so many measures, whose last columns are two apart, with a choice each.
fn comb<L: Ledger>(
    alloc: Global,
    size: u32,
    offset: u32,
    hows: &mut Hows,
    steps: &mut Steps<L>,
) -> Result<Frontier<u128>, AllocError>
    ensures ordered { IfOk result (λ f. IsFrontier (squares 80) f) }
    ensures values { IfOk result (λ f. EachIsValue (squares 80) f) }
    ensures belongs { IfOk result (λ f. BelongTo hows.new f) }
    ensures older { KeepsWays hows.old hows.new }
{
    let mut f = one(alloc, 0, offset, hows)?;
    for k in 1..size {
        let next = one(alloc, k, offset, hows)?;
        f = merge(alloc, &Squares { width: 80 }, &f, &next, steps)?;
    }
    Ok(f)
}

// The frontier of one measure: the further its number, the further left and the dearer.
fn one(
    alloc: Global,
    number: u32,
    offset: u32,
    hows: &mut Hows,
) -> Result<Frontier<u128>, AllocError>
    ensures ordered { IfOk result (λ f. IsFrontier (squares 80) f) }
    ensures values { IfOk result (λ f. EachIsValue (squares 80) f) }
    ensures belongs { IfOk result (λ f. BelongTo hows.new f) }
    ensures older { KeepsWays hows.old hows.new }
{
    let last = 400u32
        .saturating_sub(number)
        .saturating_sub(number)
        .saturating_sub(offset);
    let cost = number as u128 * 10 + offset as u128;
    let f = leaf(alloc, hows, last, cost)?;
    mark(alloc, Dir::Left, &f, hows)
}

// How many measures the merge of two frontiers has.
fn merged<L: Ledger>(
    alloc: Global,
    a: &Frontier<u128>,
    b: &Frontier<u128>,
    steps: &mut Steps<L>,
) -> Result<usize, AllocError>
    requires first { IsFrontier (squares 80) a.now }
    requires second { IsFrontier (squares 80) b.now }
    requires first_values { EachIsValue (squares 80) a.now }
    requires second_values { EachIsValue (squares 80) b.now }
{
    let both = merge(alloc, &Squares { width: 80 }, a, b, steps)?;
    Ok(both.measures().len())
}

// How many measures a frontier has behind the first measure of another.
fn shifted<L: Ledger>(
    alloc: Global,
    left: &Frontier<u128>,
    right: &Frontier<u128>,
    hows: &mut Hows,
    steps: &mut Steps<L>,
) -> Result<usize, AllocError>
    requires left_values { EachIsValue (squares 80) left.now }
    requires left_belongs { BelongTo hows.old left.now }
    requires ordered { IsFrontier (squares 80) right.now }
    requires values { EachIsValue (squares 80) right.now }
    requires belongs { BelongTo hows.old right.now }
    ensures older { KeepsWays hows.old hows.new }
{
    let measures = left.measures();
    if measures.is_empty() {
        return Ok(0);
    }
    let first = measures[0];
    let moved = shift(alloc, &Squares { width: 80 }, &first, right, hows, steps)?;
    Ok(moved.measures().len())
}
