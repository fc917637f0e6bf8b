//! Lists of measures.

ghost use Rattle.std.specs.Prelude.{◌≡◌, ◌<◌, ◌≤◌, ◌+◌, length, drop, OnOk};
ghost use Rattle.rf_frontier.specs.Ways.{KeepsWays, IsIn, choices_before};
ghost use Rattle.rf_frontier.specs.Frontiers.{BelongTo, all_chosen, all_behind};

use crate::before::Before;
use crate::hows::{HowId, Hows};
use rf_base_cost::Measure;
use std::alloc::AllocError;

/// The measures behind the first.
pub fn rest<C: Copy, H: Copy>(list: &[Measure<C, H>]) -> &[Measure<C, H>]
    requires { 0 < length list.now }
    ensures rest { result.now ≡ drop 1 list.now }
    ensures one_fewer { length result.now + 1 ≡ length list.now }
{
    &list[1..]
}

/// Puts the way of these choices before the way of each measure. After a refusal some measures have them
/// already.
pub fn put_behind_each<C: Copy>(
    before: Before,
    measures: &mut [Measure<C, HowId>],
    hows: &mut Hows,
) -> Result<(), AllocError>
    requires before { IsIn hows.old before }
    requires belong { BelongTo hows.old measures.old }

    ensures chosen { OnOk result
        (all_chosen hows.new measures.new
        ≡ all_behind (choices_before hows.old before) (all_chosen hows.old measures.old)) }
    ensures belong { OnOk result (BelongTo hows.new measures.new) }
    ensures older { KeepsWays hows.old hows.new }
    ensures few_more { length hows.new ≤ length hows.old + length measures.old }
{
    let mut at = 0;
    while at < measures.len() {
        let m = measures[at];
        let how = hows.behind(before, m.how)?;
        measures[at] = Measure { how, ..m };
        at += 1;
    }
    Ok(())
}
