//! Making the ways that are planned.
//!
//! The line `tactic` names the lemma that the proofs use.
#![tactic(auto, using(crate::proofs::Ways::keeps_same))]

ghost use Rattle.std.specs.Prelude.{◌≡◌, ◌<◌, ◌≤◌, ◌+◌, [], ◌∷◌, length, IfOk};
ghost use Rattle.rf_base_cost.specs.Cost.{Costs};
ghost use Rattle.rf_base_cost.specs.Pareto.{IsFrontier, EachIsValue};
ghost use Rattle.rf_frontier.specs.Ways.{KeepsWays};
ghost use Rattle.rf_frontier.specs.Frontiers.{BelongTo, all_chosen};
ghost use Rattle.rf_frontier.specs.Plans.{PlanIsIn, PlansBelongTo, all_planned};

use crate::frontiers::Frontier;
use crate::hows::{HowId, Hows};
use crate::kept::Kept;
use crate::lists::rest;
use crate::views::Planned;
use rf_base_cost::Measure;
use std::alloc::{AllocError, Global};

/// The frontier of the same measures, with the ways that are planned.
pub fn make<C: Copy>(
    alloc: Global,
    planned: Kept<C, Planned>,
    hows: &mut Hows,
) -> Result<Frontier<C>, AllocError>
    requires { PlansBelongTo hows.old planned }

    ensures chosen { IfOk result (λ f. all_chosen hows.new f ≡ all_planned hows.old planned) }
    ensures ordered { IfOk result (λ f. (costs : Costs C) → IsFrontier costs planned → IsFrontier costs f) }
    ensures values { IfOk result (λ f. (costs : Costs C) → EachIsValue costs planned → EachIsValue costs f) }
    ensures belongs { IfOk result (λ f. BelongTo hows.new f) }
    ensures older { KeepsWays hows.old hows.new }
    ensures few_more { length hows.new ≤ length hows.old + length planned }
{
    let all = make_all(alloc, planned, hows)?;
    Ok(Frontier::of_vec(all))
}

// The same measures, with the ways that are planned.
fn make_all<C: Copy>(
    alloc: Global,
    planned: Kept<C, Planned>,
    hows: &mut Hows,
) -> Result<Vec<Measure<C, HowId>>, AllocError>
    requires { PlansBelongTo hows.old planned }

    ensures chosen { IfOk result (λ f. all_chosen hows.new f.items ≡ all_planned hows.old planned) }
    ensures belongs { IfOk result (λ f. BelongTo hows.new f.items) }
    ensures older { KeepsWays hows.old hows.new }
    ensures few_more { length hows.new ≤ length hows.old + length planned }
{
    if let Some(m) = planned.alone() {
        return make_one(alloc, m, hows);
    }
    let list = planned.into_vec(alloc)?;
    make_each(alloc, list.as_slice(), hows)
}

// One measure, with the way that is planned.
fn make_one<C: Copy>(
    alloc: Global,
    m: Measure<C, Planned>,
    hows: &mut Hows,
) -> Result<Vec<Measure<C, HowId>>, AllocError>
    requires { PlanIsIn hows.old m.how }

    ensures chosen { IfOk result (λ f. all_chosen hows.new f.items ≡ all_planned hows.old (m ∷ [])) }
    ensures belongs { IfOk result (λ f. BelongTo hows.new f.items) }
    ensures older { KeepsWays hows.old hows.new }
    ensures few_more { length hows.new ≤ length hows.old + 1 }
{
    let mut made = Vec::with_capacity(alloc, 1)?;
    let how = hows.behind(m.how.before, m.how.how)?;
    made.push(Measure {
        last: m.last,
        cost: m.cost,
        how,
    })?;
    Ok(made)
}

// The measures of a list, with the ways that are planned.
fn make_each<C: Copy>(
    alloc: Global,
    planned: &[Measure<C, Planned>],
    hows: &mut Hows,
) -> Result<Vec<Measure<C, HowId>>, AllocError>
    requires { PlansBelongTo hows.old planned.now }

    ensures chosen { IfOk result (λ f. all_chosen hows.new f.items ≡ all_planned hows.old planned.now) }
    ensures belongs { IfOk result (λ f. BelongTo hows.new f.items) }
    ensures older { KeepsWays hows.old hows.new }
    ensures few_more { length hows.new ≤ length hows.old + length planned.now }
{
    let mut made = Vec::with_capacity(alloc, planned.len())?;
    let mut left = planned;
    while !left.is_empty() {
        let m = left[0];
        let how = hows.behind(m.how.before, m.how.how)?;
        made.push(Measure {
            last: m.last,
            cost: m.cost,
            how,
        })?;
        left = rest(left);
    }
    Ok(made)
}
