//! Jobs: the slots of a file in neighbouring groups, a group for each job.

ghost use denote.Param.Send.{IsSync, IsSend};
ghost use Rattle.std.specs.Prelude.{◌≤◌, ◌+◌, IfOk, IsErrOf};
ghost use Rattle.rf_style.specs.StyleOf.{seen};
ghost use Rattle.rf_tree.specs.Stretches.{stretched, IsStretch};
ghost use Rattle.rf_whole.specs.Groups.{AreInRow};
ghost use Rattle.rf_whole.specs.Rows.{AreRowLines, IsRowPast};

use crate::faults::FormatError;
use crate::groups::{blanks_ahead, group_lines};
use crate::lines::{Lines, no_lines, together};
use crate::settings::Setting;
use crate::tasks::{Drawer, Task};
use rf_cost::Factory;
use rf_edges::Gate;
use rf_tree::{Stretch, Tree};
use std::thread::{Threads, join};

/// The layouts of slots of a file in a row, as `group_lines` says, in groups of `size` slots, of which the last may
/// be smaller.
///
/// There are at most `jobs` groups. Each is a job, which first enters the gate with its number; the first job's is
/// `number`. One half of the jobs runs beside the other where a thread can be started. Where there is one job it uses
/// the drawer, and each of several one of its own.
#[cycle(jobs)]
pub fn jobs_lines<R: Threads + Sync, F: Factory + Sync, G: Gate + Sync>(
    setting: &Setting<R, F, G>,
    tree: &Tree,
    slots: Stretch<'_>,
    behind: u32,
    size: usize,
    number: u32,
    jobs: u32,
    drawer: &mut Drawer<F::Cost>,
) -> Result<Lines<F::Cost>, FormatError>
where
    F::Cost: Send,
    requires cursor { IsStretch slots }
    requires row { AreInRow (seen setting.now.style.now) tree.now (stretched slots) }
    requires some_job { 1 ≤ jobs }
    requires few_jobs { number + jobs ≤ 64 }
    ensures lines { IfOk result (AreRowLines (F.costs setting.now.factory.now) setting.now.limit
        (seen setting.now.style.now) tree.now (stretched slots.entry) behind) }
    ensures too_long { IsErrOf result FormatError.TooLong → IsRowPast (F.costs setting.now.factory.now)
        setting.now.limit (seen setting.now.style.now) tree.now (stretched slots.entry) behind }
{
    if slots.is_empty() {
        return Ok(no_lines(setting.alloc, setting.factory));
    }
    if jobs == 1 {
        setting.gate.enter(number);
        let task = Task {
            alloc: setting.alloc,
            tree: &*tree,
            style: setting.style,
            factory: setting.factory,
            limit: setting.limit,
        };
        return group_lines(&task, slots, behind, drawer);
    }
    let half = jobs / 2;
    let other_half = jobs - half;
    let other_number = number + half;
    let (first, rest) = slots.split(size.saturating_mul(half as usize));
    let between = blanks_ahead(tree, rest, behind);
    let front = move || -> Result<Lines<F::Cost>, FormatError>
        requires { IsSync R.row × IsSync F.row × IsSync G.row × IsSend F.Cost.row
            × IsStretch first × AreInRow (seen setting.now.style.now) tree.now (stretched first)
            × (1 ≤ half) × (number + half ≤ 64) }
        ensures lines { IfOk result (AreRowLines (F.costs setting.entry.now.factory.now) setting.entry.now.limit
            (seen setting.entry.now.style.now) tree.entry.now (stretched first.entry) between) }
        ensures too_long { IsErrOf result FormatError.TooLong → IsRowPast (F.costs setting.entry.now.factory.now)
            setting.entry.now.limit (seen setting.entry.now.style.now) tree.entry.now (stretched first.entry) between }
    {
        let mut own = Drawer::new(setting.alloc);
        jobs_lines(setting, tree, first, between, size, number, half, &mut own)
    };
    let back = move || -> Result<Lines<F::Cost>, FormatError>
        requires { IsSync R.row × IsSync F.row × IsSync G.row × IsSend F.Cost.row
            × IsStretch rest × AreInRow (seen setting.now.style.now) tree.now (stretched rest)
            × (1 ≤ other_half) × (other_number + other_half ≤ 64) }
        ensures lines { IfOk result (AreRowLines (F.costs setting.entry.now.factory.now) setting.entry.now.limit
            (seen setting.entry.now.style.now) tree.entry.now (stretched rest.entry) behind) }
        ensures too_long { IsErrOf result FormatError.TooLong → IsRowPast (F.costs setting.entry.now.factory.now)
            setting.entry.now.limit (seen setting.entry.now.style.now) tree.entry.now (stretched rest.entry) behind }
    {
        let mut own = Drawer::new(setting.alloc);
        jobs_lines(
            setting,
            tree,
            rest,
            behind,
            size,
            other_number,
            other_half,
            &mut own,
        )
    };
    let (before, others) = join(setting.rt, front, back);
    let before = before?;
    let others = others?;
    together(setting.factory, before, others, 0)
}
