//! The memo, filled without recursion.
//!
//! A function's line `tactic` names the lemma that its proof uses.

ghost use Rattle.std.specs.Prelude.{◌≡◌, ◌*◌, None, length, OnOk, OnErr};
ghost use Rattle.rf_base_steps.specs.Steps.{MakesAtMost};
ghost use Rattle.rf_frontier.specs.Ways.{KeepsWays};
ghost use Rattle.rf_memo.specs.Memo.{found, SameFound};
ghost use Rattle.rf_resolve.specs.Gaps.{gaps, frontier_steps, PaidByGaps};
ghost use Rattle.rf_resolve.specs.Keys.{IsAsked};
ghost use Rattle.rf_resolve.specs.Holding.{MemoHolds, found_at, Gains};
ghost use Rattle.rf_resolve.specs.Joining.{IsKnown};

use crate::answering::{Answer, frontier_or_need};
use crate::keys::Key;
use crate::knowing::is_known;
use crate::settings::Setting;
use rf_base_steps::Steps;
use rf_cost::Factory;
use rf_frontier::{Frontier, Hows};
use rf_memo::Memo;
use std::alloc::{AllocError, Global};
use std::sync::ledger::Ledger;

/// Puts the frontier at a key into the memo, and before it those that it rests on. What is still to be found waits on a
/// stack, of which each key names a part of the one below it. An `AllocError` comes for want of memory; what the memo
/// then has is right.
#[tactic(auto, using(rf_frontier::proofs::Ways::keeps_same))]
pub fn fill<F: Factory, L: Ledger>(
    alloc: Global,
    setting: &Setting<F>,
    memo: &mut Memo<F::Cost>,
    hows: &mut Hows,
    key: Key,
    steps: &mut Steps<L>,
) -> Result<(), AllocError>
    requires asked { IsAsked setting.now.core.now.nodes setting.now.limit key }
    requires holds { MemoHolds (F.costs setting.now.factory.now) setting.now.limit setting.now.core.now.nodes hows.old
        memo.old }
    ensures holds { MemoHolds (F.costs setting.now.factory.now) setting.now.limit setting.now.core.now.nodes hows.new
        memo.new }
    ensures older { KeepsWays hows.old hows.new }
    ensures known { OnOk result (IsKnown memo.new key) }
    ensures paid { OnOk result (PaidByGaps setting.now.limit
        (gaps (found memo.old) (length setting.now.core.now.nodes) setting.now.limit)
        (gaps (found memo.new) (length setting.now.core.now.nodes) setting.now.limit) steps.old steps.new) }
    ensures steps { MakesAtMost (frontier_steps setting.now.limit * gaps (found memo.old)
        (length setting.now.core.now.nodes) setting.now.limit)
        steps.old steps.new }
{
    if is_known(memo, key) {
        return Ok(());
    }
    let mut pending = Vec::new(alloc);
    pending.push(key)?;
    while let Some(top) = pending.pop() {
        match frontier_or_need(alloc, setting, memo, hows, top, steps)? {
            Answer::Needs(part) => {
                pending.push(top)?;
                pending.push(part)?;
            }
            Answer::Frontier(f) => put(memo, top, f)?,
        }
    }
    Ok(())
}

// Puts a frontier into the memo at a key where it has none.
fn put<C: Copy>(memo: &mut Memo<C>, key: Key, f: Frontier<C>) -> Result<(), AllocError>
    requires { found_at memo.old key ≡ None }
    ensures put { OnOk result (Gains memo.old key f memo.new) }
    ensures err { OnErr result (SameFound memo.old memo.new) }
{
    match memo.put(key.node, key.column, key.indentation, f) {
        Ok(()) => Ok(()),
        Err((_, fault)) => Err(fault),
    }
}
