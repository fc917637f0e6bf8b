//! The frontier of a node, from those of its parts.
//!
//! A function's line `tactic` names what its proof uses and opens.

ghost use Rattle.std.specs.Prelude.{◌+◌, IfOk};
ghost use Rattle.rf_base_document.specs.Graph.{IsNode, ChoiceNode, OnlyNode, ChargeNode};
ghost use Rattle.rf_base_steps.specs.Steps.{MakesAtMost};
ghost use Rattle.rf_frontier.specs.Ways.{KeepsWays};
ghost use Rattle.rf_resolve.specs.Gaps.{frontier_steps};
ghost use Rattle.rf_resolve.specs.Keys.{IsAsked};
ghost use Rattle.rf_resolve.specs.Holding.{MemoHolds};
ghost use Rattle.rf_resolve.specs.Answers.{Answers, IsUnpaid};

use crate::joining::concatenation;
use crate::keys::{Key, at, nested, through};
use crate::knowing::{known, leaf_frontier, newline, text};
use crate::settings::Setting;
use rf_base_steps::Steps;
use rf_cost::Factory;
use rf_flat::{CoreNode, Dir};
use rf_frontier::{Frontier, Hows, at_most_one, charge, either, mark};
use rf_memo::Memo;
use std::alloc::{AllocError, Global};
use std::sync::ledger::Ledger;

// What is said of a node's frontier.
#[derive(Drop)]
pub enum Answer<C: Copy> {
    // It is this.
    Frontier(Frontier<C>),
    // The frontier at this key has to be found first.
    Needs(Key),
}

/// The frontier at a key, or the key of a part's frontier that isn't known yet. Costs are compared only where all are.
#[tactic(auto, using(rf_frontier::proofs::Ways::keeps_same), unfolding(crate::specs::Holding::MemoHolds))]
pub fn frontier_or_need<F: Factory, L: Ledger>(
    alloc: Global,
    setting: &Setting<F>,
    memo: &Memo<F::Cost>,
    hows: &mut Hows,
    key: Key,
    steps: &mut Steps<L>,
) -> Result<Answer<F::Cost>, AllocError>
    requires asked { IsAsked setting.now.core.now.nodes setting.now.limit key }
    requires holds { MemoHolds (F.costs setting.now.factory.now) setting.now.limit setting.now.core.now.nodes hows.old
        memo.now }
    ensures answer { IfOk result (λ said. Answers (F.costs setting.now.factory.now) setting.now.limit
        setting.now.core.now.nodes hows.new memo.now key key.node said) }
    ensures older { KeepsWays hows.old hows.new }
    ensures unpaid { IfOk result (λ said. IsUnpaid said steps.old steps.new) }
    ensures steps { MakesAtMost (frontier_steps setting.now.limit) steps.old steps.new }
{
    match *setting.core.node(key.node) {
        CoreNode::Text(_, len) => Ok(Answer::Frontier(at_most_one(
            alloc,
            text(setting, hows, key, len),
        )?)),
        CoreNode::Newline => Ok(Answer::Frontier(at_most_one(alloc, newline(setting, hows, key))?)),
        CoreNode::Concat(a, b) => concatenation(alloc, setting, memo, hows, key, a, b, steps),
        CoreNode::Nest(n, a) => passed(alloc, setting, memo, hows, nested(setting, key, n, a)),
        CoreNode::Align(a) => passed(alloc, setting, memo, hows, at(key, a, key.column)),
        CoreNode::Reset(a) => passed(alloc, setting, memo, hows, at(key, a, 0)),
        CoreNode::Choice(a, b) => choice(alloc, setting, memo, hows, key, a, b, steps),
        CoreNode::Only(dir, a) => side_alone(alloc, setting, memo, hows, key, dir, a),
        CoreNode::Charge(k, a) => charged(alloc, setting, memo, hows, key, k, a, steps),
    }
}

// The frontier of a node that is its part's.
#[tactic(auto, unfolding(crate::specs::Holding::MemoHolds))]
fn passed<F: Factory>(
    alloc: Global,
    setting: &Setting<F>,
    memo: &Memo<F::Cost>,
    hows: &Hows,
    part: Key,
) -> Result<Answer<F::Cost>, AllocError>
    requires asked { IsAsked setting.now.core.now.nodes setting.now.limit part }
    requires holds { MemoHolds (F.costs setting.now.factory.now) setting.now.limit setting.now.core.now.nodes hows.now
        memo.now }
    ensures { IfOk result (λ said. Answers
        (F.costs setting.now.factory.now) setting.now.limit setting.now.core.now.nodes hows.now memo.now
        part (part.node + 1) said) }
{
    let key = through(setting, part);
    let leaf = leaf_frontier(alloc, setting, hows, key)?;
    match known(setting, memo, hows, &leaf, key) {
        Some(found) => Ok(Answer::Frontier(found.copied(alloc)?)),
        None => Ok(Answer::Needs(key)),
    }
}

// The frontier of a choice.
#[tactic(auto, using(rf_frontier::proofs::Ways::keeps_same), unfolding(crate::specs::Holding::MemoHolds))]
fn choice<F: Factory, L: Ledger>(
    alloc: Global,
    setting: &Setting<F>,
    memo: &Memo<F::Cost>,
    hows: &mut Hows,
    key: Key,
    a: usize,
    b: usize,
    steps: &mut Steps<L>,
) -> Result<Answer<F::Cost>, AllocError>
    requires node { IsNode setting.now.core.now.nodes key.node (ChoiceNode a b) }
    requires asked { IsAsked setting.now.core.now.nodes setting.now.limit key }
    requires holds { MemoHolds (F.costs setting.now.factory.now) setting.now.limit setting.now.core.now.nodes hows.old
        memo.now }
    ensures answer { IfOk result (λ said. Answers (F.costs setting.now.factory.now) setting.now.limit
        setting.now.core.now.nodes hows.new memo.now key key.node said) }
    ensures older { KeepsWays hows.old hows.new }
    ensures unpaid { IfOk result (λ said. IsUnpaid said steps.old steps.new) }
    ensures steps { MakesAtMost (frontier_steps setting.now.limit) steps.old steps.new }
{
    let first = through(setting, at(key, a, key.indentation));
    let first_leaf = leaf_frontier(alloc, setting, hows, first)?;
    let Some(left) = known(setting, memo, hows, &first_leaf, first) else {
        return Ok(Answer::Needs(first));
    };
    let second = through(setting, at(key, b, key.indentation));
    let second_leaf = leaf_frontier(alloc, setting, hows, second)?;
    let Some(right) = known(setting, memo, hows, &second_leaf, second) else {
        return Ok(Answer::Needs(second));
    };
    let both = either(alloc, setting.factory, left, right, hows, steps)?;
    Ok(Answer::Frontier(both))
}

// The frontier of a choice of which one side alone has a layout.
#[tactic(auto, using(rf_frontier::proofs::Ways::keeps_same), unfolding(crate::specs::Holding::MemoHolds))]
fn side_alone<F: Factory>(
    alloc: Global,
    setting: &Setting<F>,
    memo: &Memo<F::Cost>,
    hows: &mut Hows,
    key: Key,
    dir: Dir,
    a: usize,
) -> Result<Answer<F::Cost>, AllocError>
    requires node { IsNode setting.now.core.now.nodes key.node (OnlyNode dir a) }
    requires asked { IsAsked setting.now.core.now.nodes setting.now.limit key }
    requires holds { MemoHolds (F.costs setting.now.factory.now) setting.now.limit setting.now.core.now.nodes hows.old
        memo.now }
    ensures answer { IfOk result (λ said. Answers (F.costs setting.now.factory.now) setting.now.limit
        setting.now.core.now.nodes hows.new memo.now key key.node said) }
    ensures older { KeepsWays hows.old hows.new }
{
    let part = through(setting, at(key, a, key.indentation));
    let leaf = leaf_frontier(alloc, setting, hows, part)?;
    let Some(side) = known(setting, memo, hows, &leaf, part) else {
        return Ok(Answer::Needs(part));
    };
    Ok(Answer::Frontier(mark(alloc, dir, side, hows)?))
}

// The frontier of a part for a charge.
#[tactic(auto, unfolding(crate::specs::Holding::MemoHolds))]
fn charged<F: Factory, L: Ledger>(
    alloc: Global,
    setting: &Setting<F>,
    memo: &Memo<F::Cost>,
    hows: &Hows,
    key: Key,
    k: u32,
    a: usize,
    steps: &mut Steps<L>,
) -> Result<Answer<F::Cost>, AllocError>
    requires node { IsNode setting.now.core.now.nodes key.node (ChargeNode k a) }
    requires asked { IsAsked setting.now.core.now.nodes setting.now.limit key }
    requires holds { MemoHolds (F.costs setting.now.factory.now) setting.now.limit setting.now.core.now.nodes hows.now
        memo.now }
    ensures answer { IfOk result (λ said. Answers (F.costs setting.now.factory.now) setting.now.limit
        setting.now.core.now.nodes hows.now memo.now key key.node said) }
    ensures unpaid { IfOk result (λ said. IsUnpaid said steps.old steps.new) }
    ensures steps { MakesAtMost (frontier_steps setting.now.limit) steps.old steps.new }
{
    let part = through(setting, at(key, a, key.indentation));
    let leaf = leaf_frontier(alloc, setting, hows, part)?;
    let Some(found) = known(setting, memo, hows, &leaf, part) else {
        return Ok(Answer::Needs(part));
    };
    let raised = charge(alloc, setting.factory, k, found, steps)?;
    Ok(Answer::Frontier(raised))
}
