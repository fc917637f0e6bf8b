//! Frontiers of leaves, and frontiers behind choices.
//!
//! The line `tactic` names the lemma that the proofs use.
#![tactic(auto, using(crate::proofs::Ways::keeps_same))]

ghost use Rattle.std.specs.Prelude.{◌≡◌, ◌<◌, ◌≤◌, ◌+◌, ◌*◌, [], ◌∷◌, length, IfOk};
ghost use Rattle.std.specs.Option.{option_to_list};
ghost use Rattle.rf_base_cost.specs.Cost.{Costs, IsValue};
ghost use Rattle.rf_base_cost.specs.Pareto.{IsFrontier, EachIsValue, pareto, all_marked, all_shifted};
ghost use Rattle.rf_base_cut.specs.OneLine.{measured};
ghost use Rattle.rf_base_steps.specs.Steps.{MakesAtMost};
ghost use Rattle.rf_frontier.specs.Ways.{KeepsWays};
ghost use Rattle.rf_frontier.specs.Frontiers.{BelongTo, chosen, all_chosen};

use crate::before::Before;
use crate::frontiers::{Frontier, Measure};
use crate::hows::Hows;
use crate::kept::Kept;
use crate::raising::raise;
use rf_base_document::Dir;
use rf_base_steps::Steps;
use rf_cost::Factory;
use std::alloc::{AllocError, Global};
use std::sync::ledger::Ledger;

/// The frontier of one measure, without choices. Ways that were there stay what they were. An
/// `AllocError` comes for want of memory.
pub fn leaf<C: Copy>(
    alloc: Global,
    hows: &mut Hows,
    last: u32,
    cost: C,
) -> Result<Frontier<C>, AllocError>
    ensures measure { IfOk result (λ f. all_chosen hows.new f ≡ measured last cost [] ∷ []) }
    ensures ordered { IfOk result (λ f. (costs : Costs C) → IsFrontier costs f) }
    ensures values { IfOk result (λ f. (costs : Costs C) → IsValue costs cost → EachIsValue costs f) }
    ensures belongs { IfOk result (λ f. BelongTo hows.new f) }
    ensures older { KeepsWays hows.old hows.new }
    ensures few_more { length hows.new ≤ length hows.old + 1 }
{
    let how = hows.leaf()?;
    Frontier::of(alloc, Kept::one(Measure { last, cost, how }))
}

/// The measure without choices, where there are ways, of which none is added. It takes no memory.
pub fn leaf_measure<C: Copy>(hows: &Hows, last: u32, cost: C) -> Measure<C>
    requires { 0 < length hows.now }
    ensures measure { chosen hows.now result ≡ measured last cost [] }
    ensures belongs { result.how.0 < length hows.now }
{
    let how = hows.first();
    Measure { last, cost, how }
}

/// The frontier of the measure, or of none. An `AllocError` comes for want of memory.
pub fn at_most_one<C: Copy>(alloc: Global, m: Option<Measure<C>>) -> Result<Frontier<C>, AllocError>
    ensures { IfOk result (λ f. f ≡ option_to_list m) }
{
    match m {
        Some(m) => Frontier::of(alloc, Kept::one(m)),
        None => Ok(Frontier::none()),
    }
}

/// The measures of `f`, each with the direction before its choices. Ways that were there stay what they
/// were. An `AllocError` comes for want of memory.
pub fn mark<C: Copy>(
    alloc: Global,
    dir: Dir,
    f: &Frontier<C>,
    hows: &mut Hows,
) -> Result<Frontier<C>, AllocError>
    requires { BelongTo hows.old f.now }

    ensures marked { IfOk result (λ g. all_chosen hows.new g ≡ all_marked dir (all_chosen hows.old f.now)) }
    ensures ordered { IfOk result (λ g. (costs : Costs C) → IsFrontier costs f.now → IsFrontier costs g) }
    ensures values { IfOk result (λ g. (costs : Costs C) → EachIsValue costs f.now → EachIsValue costs g) }
    ensures belongs { IfOk result (λ g. BelongTo hows.new g) }
    ensures older { KeepsWays hows.old hows.new }
    ensures few_more { length hows.new ≤ length hows.old + length f.now }
{
    let mut marked = f.copied(alloc)?;
    marked.put_behind(Before::Choice(dir), hows)?;
    Ok(marked)
}

/// The frontier of the measures of `right` behind `left`: the cost of `left` comes before each cost, and
/// its choices before the choices. Ways that were there stay what they were. It makes at most two steps
/// for each measure of `right`, also where it is refused. An `AllocError` comes for want of memory.
pub fn shift<F: Factory, L: Ledger>(
    alloc: Global,
    factory: &F,
    left: &Measure<F::Cost>,
    right: &Frontier<F::Cost>,
    hows: &mut Hows,
    steps: &mut Steps<L>,
) -> Result<Frontier<F::Cost>, AllocError>
    requires left_value { IsValue (F.costs factory.now) left.now.cost }
    requires ordered { IsFrontier (F.costs factory.now) right.now }
    requires values { EachIsValue (F.costs factory.now) right.now }
    requires left_belongs { left.now.how.0 < length hows.old }
    requires belongs { BelongTo hows.old right.now }

    ensures shifted { IfOk result (λ g. all_chosen hows.new g
        ≡ pareto (F.costs factory.now)
        (all_shifted (F.costs factory.now) (chosen hows.old left.now) (all_chosen hows.old right.now))) }
    ensures ordered { IfOk result (λ g. IsFrontier (F.costs factory.now) g) }
    ensures values { IfOk result (λ g. EachIsValue (F.costs factory.now) g) }
    ensures belongs { IfOk result (λ g. BelongTo hows.new g) }
    ensures older { KeepsWays hows.old hows.new }
    ensures few_more { length hows.new ≤ length hows.old + length right.now }
    ensures steps { MakesAtMost (2 * length right.now) steps.old steps.new }
{
    let mut shifted = raise(alloc, factory, left.cost, right.measures(), steps)?;
    shifted.put_behind(Before::Way(left.how), hows)?;
    Ok(shifted)
}
