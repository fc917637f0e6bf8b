//! What a merge does next.

ghost use Rattle.std.specs.Prelude.{◌<◌, ◌+◌, length};
ghost use Rattle.rf_base_cost.specs.Cost.{IsValue};
ghost use Rattle.rf_base_cost.specs.Pareto.{EachIsValue};
ghost use Rattle.rf_base_steps.specs.Steps.{MakesAtMost};
ghost use Rattle.rf_frontier.specs.Turns.{HeadsTurn, ListsTurn};

use rf_base_cost::Measure;
use rf_base_steps::Steps;
use rf_cost::Factory;
use std::sync::ledger::Ledger;

// What happens to the first measure of one of two frontiers.
#[derive(Clone, Copy)]
pub enum Turn {
    // That of the first frontier comes next.
    KeepFirst,
    // That of the second frontier comes next.
    KeepSecond,
    // That of the first frontier is outdone.
    DropFirst,
    // That of the second frontier is dominated.
    DropSecond,
}

/// The turn of two frontiers of which one has a measure.
pub fn next_turn<F: Factory, H: Copy, L: Ledger>(
    factory: &F,
    a: &[Measure<F::Cost, H>],
    b: &[Measure<F::Cost, H>],
    steps: &mut Steps<L>,
) -> Turn
    requires some_left { 0 < length a.now + length b.now }
    requires first_values { EachIsValue (F.costs factory.now) a.now }
    requires second_values { EachIsValue (F.costs factory.now) b.now }
    ensures turn { ListsTurn (F.costs factory.now) a.now b.now result }
    ensures steps { MakesAtMost 1 steps.old steps.new }
{
    if a.is_empty() {
        Turn::KeepSecond
    } else if b.is_empty() {
        Turn::KeepFirst
    } else {
        heads(factory, a[0], b[0], steps)
    }
}

/// The turn of two measures, by one comparison of costs at most.
pub fn heads<F: Factory, H: Copy, L: Ledger>(
    factory: &F,
    x: Measure<F::Cost, H>,
    y: Measure<F::Cost, H>,
    steps: &mut Steps<L>,
) -> Turn
    requires first { IsValue (F.costs factory.now) x.cost }
    requires second { IsValue (F.costs factory.now) y.cost }
    ensures turn { HeadsTurn (F.costs factory.now) x y result }
    ensures steps { MakesAtMost 1 steps.old steps.new }
{
    if x.last <= y.last {
        if factory.le(x.cost, y.cost, steps) {
            Turn::DropSecond
        } else if x.last == y.last {
            Turn::DropFirst
        } else {
            Turn::KeepSecond
        }
    } else if factory.le(y.cost, x.cost, steps) {
        Turn::DropFirst
    } else {
        Turn::KeepFirst
    }
}
