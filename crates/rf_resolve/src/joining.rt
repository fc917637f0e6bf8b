//! The frontier of a concatenation.
//!
//! A function's line `tactic` names what its proof uses and opens.

ghost use Rattle.std.specs.Prelude.{◌≡◌, ◌<◌, ◌≤◌, ◌+◌, ◌*◌, ◌++◌, IfOk, IfSome, None, length};
ghost use Rattle.rf_base_document.specs.Graph.{IsNode, ConcatNode};
ghost use Rattle.rf_base_steps.specs.Steps.{MakesAtMost};
ghost use Rattle.rf_base_cost.specs.Cost.{IsValue};
ghost use Rattle.rf_base_cost.specs.Pareto.{IsFrontier, EachIsValue, pareto, all_shifted};
ghost use Rattle.rf_base_optimum.specs.Plain.{EachEndsBy};
ghost use Rattle.rf_frontier.specs.Ways.{KeepsWays};
ghost use Rattle.rf_frontier.specs.Frontiers.{BelongTo, chosen};
ghost use Rattle.rf_frontier.specs.Plans.{PlansBelongTo, all_planned};
ghost use Rattle.rf_resolve.specs.Gaps.{frontier_steps};
ghost use Rattle.rf_resolve.specs.Keys.{IsAsked, frontier_of};
ghost use Rattle.rf_resolve.specs.Holding.{MemoHolds};
ghost use Rattle.rf_resolve.specs.Answers.{Answers, IsUnpaid, IsNeeded, JoinsAlone};
ghost use Rattle.rf_resolve.specs.Joining.{IsGiven, EachIsGiven, AreJoined};

use crate::answering::Answer;
use crate::keys::{Key, at, behind, through};
use crate::knowing::{is_given, leaf};
use crate::settings::Setting;
use rf_base_steps::Steps;
use rf_cost::Factory;
use rf_frontier::{Frontier, Hows, Joined, Measure};
use rf_memo::Memo;
use std::alloc::{AllocError, Global};
use std::sync::ledger::Ledger;

/// The frontier of a concatenation: behind each measure of the left part stands the right part's frontier at its last
/// column.
#[tactic(auto, using(rf_frontier::proofs::Ways::keeps_same), unfolding(crate::specs::Holding::MemoHolds))]
pub fn concatenation<F: Factory, L: Ledger>(
    alloc: Global,
    setting: &Setting<F>,
    memo: &Memo<F::Cost>,
    hows: &mut Hows,
    key: Key,
    a: usize,
    b: usize,
    steps: &mut Steps<L>,
) -> Result<Answer<F::Cost>, AllocError>
    requires node { IsNode setting.now.core.now.nodes key.node (ConcatNode a b) }
    requires asked { IsAsked setting.now.core.now.nodes setting.now.limit key }
    requires holds { MemoHolds (F.costs setting.now.factory.now) setting.now.limit setting.now.core.now.nodes hows.old
        memo.now }
    ensures answer { IfOk result (λ said. Answers (F.costs setting.now.factory.now) setting.now.limit
        setting.now.core.now.nodes hows.new memo.now key key.node said) }
    ensures older { KeepsWays hows.old hows.new }
    ensures unpaid { IfOk result (λ said. IsUnpaid said steps.old steps.new) }
    ensures steps { MakesAtMost (frontier_steps setting.now.limit) steps.old steps.new }
{
    let first = through(setting, at(key, a, key.indentation));
    let part = at(key, b, key.indentation);
    if let Some(alone) = leaf(setting, hows, first) {
        return match alone {
            Some(m) => behind_leaf(alloc, setting, memo, hows, &m, part, steps),
            None => Ok(Answer::Frontier(Frontier::none())),
        };
    }
    let Some(left) = memo.get(first.node, first.column, first.indentation) else {
        return Ok(Answer::Needs(first));
    };
    let measures = left.measures();
    if let Some(second) = missing_behind(setting, memo, measures, part) {
        return Ok(Answer::Needs(second));
    }
    let joined = joined_measures(alloc, setting, memo, hows, measures, part, steps)?;
    Ok(Answer::Frontier(joined.finish(alloc, hows)?))
}

// The frontier behind the one measure of a text or a line break.
fn behind_leaf<F: Factory, L: Ledger>(
    alloc: Global,
    setting: &Setting<F>,
    memo: &Memo<F::Cost>,
    hows: &mut Hows,
    m: &Measure<F::Cost>,
    part: Key,
    steps: &mut Steps<L>,
) -> Result<Answer<F::Cost>, AllocError>
    requires asked { IsAsked setting.now.core.now.nodes setting.now.limit part }
    requires holds { MemoHolds (F.costs setting.now.factory.now) setting.now.limit setting.now.core.now.nodes hows.old
        memo.now }
    requires ends { m.now.last ≤ setting.now.limit }
    requires value { IsValue (F.costs setting.now.factory.now) m.now.cost }
    requires belongs { m.now.how.0 < length hows.old }
    ensures answer { IfOk result (λ said. JoinsAlone (F.costs setting.now.factory.now) setting.now.limit
        setting.now.core.now.nodes hows.old hows.new memo.now part m.now said) }
    ensures older { KeepsWays hows.old hows.new }
    ensures unpaid { IfOk result (λ said. IsUnpaid said steps.old steps.new) }
    ensures steps { MakesAtMost (2 * (setting.now.limit + 1)) steps.old steps.new }
{
    let second = through(setting, behind(part, m.last));
    if !is_given(setting, memo, second) {
        return Ok(Answer::Needs(second));
    }
    let joined = add_behind(alloc, setting, memo, hows, Joined::none(), m, second, steps)?;
    Ok(Answer::Frontier(joined.finish(alloc, hows)?))
}

// The first key of the part behind these measures whose frontier isn't known yet. The part's own column doesn't matter.
fn missing_behind<F: Factory>(
    setting: &Setting<F>,
    memo: &Memo<F::Cost>,
    measures: &[Measure<F::Cost>],
    part: Key,
) -> Option<Key>
    requires asked { IsAsked setting.now.core.now.nodes setting.now.limit part }
    requires ends { EachEndsBy setting.now.limit measures.now }
    ensures needed { IfSome result (λ key. IsNeeded setting.now.core.now.nodes setting.now.limit memo.now key
        (part.node + 1)) }
    ensures known { result ≡ None → EachIsGiven setting.now.core.now.nodes setting.now.limit memo.now part
        measures.now }
{
    let mut left = measures;
    while let Some((m, rest)) = left.split_first() {
        let key = through(setting, behind(part, m.last));
        if !is_given(setting, memo, key) {
            return Some(key);
        }
        left = rest;
    }
    None
}

// The measures that are worth keeping of these with the part behind each, whose frontiers are known.
fn joined_measures<F: Factory, L: Ledger>(
    alloc: Global,
    setting: &Setting<F>,
    memo: &Memo<F::Cost>,
    hows: &Hows,
    measures: &[Measure<F::Cost>],
    part: Key,
    steps: &mut Steps<L>,
) -> Result<Joined<F::Cost>, AllocError>
    requires asked { IsAsked setting.now.core.now.nodes setting.now.limit part }
    requires holds { MemoHolds (F.costs setting.now.factory.now) setting.now.limit setting.now.core.now.nodes hows.now
        memo.now }
    requires ends { EachEndsBy setting.now.limit measures.now }
    requires values { EachIsValue (F.costs setting.now.factory.now) measures.now }
    requires belong { BelongTo hows.now measures.now }
    requires known { EachIsGiven setting.now.core.now.nodes setting.now.limit memo.now part measures.now }
    ensures joined { IfOk result (λ joined. AreJoined
        (F.costs setting.now.factory.now) setting.now.limit setting.now.core.now.nodes
        hows.now part measures.now joined) }
    ensures steps { MakesAtMost (3 * (setting.now.limit + 1) * length measures.now) steps.old steps.new }
{
    let mut joined = Joined::none();
    let mut left = measures;
    while let Some((m, rest)) = left.split_first() {
        let key = through(setting, behind(part, m.last));
        joined = add_behind(alloc, setting, memo, hows, joined, m, key, steps)?;
        left = rest;
    }
    Ok(joined)
}

// Adds the measures of the frontier at the key behind a measure, and keeps what is worth it.
fn add_behind<F: Factory, L: Ledger>(
    alloc: Global,
    setting: &Setting<F>,
    memo: &Memo<F::Cost>,
    hows: &Hows,
    joined: Joined<F::Cost>,
    m: &Measure<F::Cost>,
    key: Key,
    steps: &mut Steps<L>,
) -> Result<Joined<F::Cost>, AllocError>
    requires asked { IsAsked setting.now.core.now.nodes setting.now.limit key }
    requires holds { MemoHolds (F.costs setting.now.factory.now) setting.now.limit setting.now.core.now.nodes hows.now
        memo.now }
    requires given { IsGiven setting.now.core.now.nodes memo.now key }
    requires joined_ordered { IsFrontier (F.costs setting.now.factory.now) joined }
    requires joined_values { EachIsValue (F.costs setting.now.factory.now) joined }
    requires value { IsValue (F.costs setting.now.factory.now) m.now.cost }
    requires belongs { m.now.how.0 < length hows.now }
    requires plans { PlansBelongTo hows.now joined }
    ensures chosen { IfOk result (λ after. all_planned hows.now after ≡ pareto (F.costs setting.now.factory.now)
        (all_planned hows.now joined ++ all_shifted (F.costs setting.now.factory.now) (chosen hows.now m.now)
        (frontier_of (F.costs setting.now.factory.now) setting.now.limit setting.now.core.now.nodes key))) }
    ensures ordered { IfOk result (λ after. IsFrontier (F.costs setting.now.factory.now) after) }
    ensures values { IfOk result (λ after. EachIsValue (F.costs setting.now.factory.now) after) }
    ensures plans { IfOk result (λ after. PlansBelongTo hows.now after) }
    ensures steps { MakesAtMost (length joined + 2 * (setting.now.limit + 1)) steps.old steps.new }
{
    match leaf(setting, hows, key) {
        Some(alone) => match alone {
            Some(right) => joined.add_one(alloc, setting.factory, m, right, steps),
            None => Ok(joined),
        },
        None => {
            let Some(right) = memo.get(key.node, key.column, key.indentation) else {
                // It is given.
                unreachable!()
            };
            joined.add(alloc, setting.factory, m, right, steps)
        }
    }
}
