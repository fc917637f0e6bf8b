//! The walk that takes the choices, part by part where nothing is within the computation width.
//!
//! A function's line `tactic` names the lemma that its proof uses.

ghost use Rattle.std.specs.Prelude.{◌≡◌, ◌<◌, ◌+◌, ◌*◌, [], length, IfOk, OnOk, IsErrOf};
ghost use Rattle.rf_base_document.specs.Graph.{IsGraph, unfolded};
ghost use Rattle.rf_base_optimum.specs.Plain.{plain};
ghost use Rattle.rf_base_steps.specs.Steps.{MakesAtMost};
ghost use Rattle.rf_frontier.specs.Ways.{KeepsWays};
ghost use Rattle.rf_memo.specs.Memo.{found};
ghost use Rattle.rf_resolve.specs.Gaps.{gaps, frontier_steps, PaidByGaps};
ghost use Rattle.rf_resolve.specs.Holding.{MemoHolds};
ghost use Rattle.rf_resolve.specs.Walk.{FirstIs, HeadIs, IsFrame, IsWalk, Turned, outcome_with, walk};

use crate::faults::ResolveError;
use crate::filling::fill;
use crate::keys::Key;
use crate::settings::Setting;
use crate::walks::{Frame, Walk};
use rf_base_document::LAYOUT_LIMIT;
use rf_base_steps::Steps;
use rf_cost::Factory;
use rf_flat::{CoreNode, Dir};
use rf_frontier::{Hows, Measure};
use rf_memo::Memo;
use std::alloc::{AllocError, Global};
use std::sync::ledger::Ledger;

/// The choices of the core that are chosen. `TooLong` comes only where the resolution that they pick has more texts,
/// line breaks and choices than a layout may have; `Memory` for want of memory.
pub fn chosen_choices<F: Factory, L: Ledger>(
    alloc: Global,
    setting: &Setting<F>,
    memo: &mut Memo<F::Cost>,
    hows: &mut Hows,
    steps: &mut Steps<L>,
) -> Result<Vec<Dir>, ResolveError>
    requires holds { MemoHolds (F.costs setting.now.factory.now) setting.now.limit setting.now.core.now.nodes hows.old
        memo.old }
    ensures choices { IfOk result (λ choices. choices.items
        ≡ (walk (F.costs setting.now.factory.now) setting.now.limit
        (unfolded setting.now.core.now.nodes setting.now.core.now.root) 0 0).choices) }
    ensures too_long { IsErrOf result ResolveError.TooLong
        → LAYOUT_LIMIT < (walk (F.costs setting.now.factory.now) setting.now.limit
        (unfolded setting.now.core.now.nodes setting.now.core.now.root) 0 0).weight }
    ensures steps { MakesAtMost (frontier_steps setting.now.limit * gaps (found memo.old)
        (length setting.now.core.now.nodes) setting.now.limit)
        steps.old steps.new }
{
    let mut walk = Walk::at_root(alloc, setting.core.root())?;
    while let Some(frame) = walk.pending.pop() {
        turn(alloc, setting, memo, hows, &mut walk, frame, steps)?;
    }
    Ok(walk.choices)
}

// Walks over the frame that was taken off the stack: it takes the first measure of its frontier, where there is one,
// and otherwise goes on with its parts.
fn turn<F: Factory, L: Ledger>(
    alloc: Global,
    setting: &Setting<F>,
    memo: &mut Memo<F::Cost>,
    hows: &mut Hows,
    walk: &mut Walk,
    frame: Frame,
    steps: &mut Steps<L>,
) -> Result<(), ResolveError>
    requires graph { IsGraph setting.now.core.now.nodes }
    requires holds { MemoHolds (F.costs setting.now.factory.now) setting.now.limit setting.now.core.now.nodes hows.old
        memo.old }
    requires frame { IsFrame setting.now.core.now.nodes setting.now.limit frame }
    requires walk { IsWalk setting.now.core.now.nodes setting.now.limit walk.old }
    ensures turned { OnOk result (Turned (F.costs setting.now.factory.now) setting.now.limit setting.now.core.now.nodes
        walk.old frame walk.new) }
    ensures too_long { IsErrOf result ResolveError.TooLong → LAYOUT_LIMIT
        < (outcome_with (F.costs setting.now.factory.now) setting.now.limit setting.now.core.now.nodes walk.old
        frame).weight }
    ensures holds { MemoHolds (F.costs setting.now.factory.now) setting.now.limit setting.now.core.now.nodes hows.new
        memo.new }
    ensures older { KeepsWays hows.old hows.new }
    ensures paid { OnOk result (PaidByGaps setting.now.limit
        (gaps (found memo.old) (length setting.now.core.now.nodes) setting.now.limit)
        (gaps (found memo.new) (length setting.now.core.now.nodes) setting.now.limit) steps.old steps.new) }
    ensures steps { MakesAtMost (frontier_steps setting.now.limit * gaps (found memo.old)
        (length setting.now.core.now.nodes) setting.now.limit)
        steps.old steps.new }
{
    match first_measure(alloc, setting, memo, hows, walk.column, frame, steps)? {
        Some(m) => walk.take(alloc, hows, m),
        None => by_parts(setting, walk, frame),
    }
}

/// The first measure of the frame's node, if some resolution of it is within the computation width.
#[tactic(auto, using(rf_frontier::proofs::Ways::keeps_same))]
pub fn first_measure<F: Factory, L: Ledger>(
    alloc: Global,
    setting: &Setting<F>,
    memo: &mut Memo<F::Cost>,
    hows: &mut Hows,
    column: u32,
    frame: Frame,
    steps: &mut Steps<L>,
) -> Result<Option<Measure<F::Cost>>, AllocError>
    requires graph { IsGraph setting.now.core.now.nodes }
    requires holds { MemoHolds (F.costs setting.now.factory.now) setting.now.limit setting.now.core.now.nodes hows.old
        memo.old }
    requires frame { IsFrame setting.now.core.now.nodes setting.now.limit frame }
    ensures first { IfOk result (λ m. FirstIs (plain (F.costs setting.now.factory.now) setting.now.limit
        (unfolded setting.now.core.now.nodes frame.node) column frame.indentation) hows.new m) }
    ensures holds { MemoHolds (F.costs setting.now.factory.now) setting.now.limit setting.now.core.now.nodes hows.new
        memo.new }
    ensures older { KeepsWays hows.old hows.new }
    ensures paid { OnOk result (PaidByGaps setting.now.limit
        (gaps (found memo.old) (length setting.now.core.now.nodes) setting.now.limit)
        (gaps (found memo.new) (length setting.now.core.now.nodes) setting.now.limit) steps.old steps.new) }
    ensures steps { MakesAtMost (frontier_steps setting.now.limit * gaps (found memo.old)
        (length setting.now.core.now.nodes) setting.now.limit)
        steps.old steps.new }
{
    if column > setting.limit {
        return Ok(None);
    }
    let key = Key {
        node: frame.node,
        column,
        indentation: frame.indentation,
    };
    fill(alloc, setting, memo, hows, key, steps)?;
    let Some(found) = memo.get(key.node, key.column, key.indentation) else {
        // It was filled.
        unreachable!()
    };
    Ok(head(found.measures()))
}

// The first of some measures, if there is one.
fn head<C: Copy>(measures: &[Measure<C>]) -> Option<Measure<C>>
    ensures { HeadIs measures.now result }
{
    match measures.split_first() {
        Some((first, _)) => Some(*first),
        None => None,
    }
}

// Goes on with the parts of a node of which nothing is within the computation width.
fn by_parts<F: Factory>(
    setting: &Setting<F>,
    walk: &mut Walk,
    frame: Frame,
) -> Result<(), ResolveError>
    requires frame { IsFrame setting.now.core.now.nodes setting.now.limit frame }
    requires walk { IsWalk setting.now.core.now.nodes setting.now.limit walk.old }
    requires nothing { plain (F.costs setting.now.factory.now) setting.now.limit
        (unfolded setting.now.core.now.nodes frame.node) walk.old.column frame.indentation ≡ [] }
    ensures turned { OnOk result (Turned (F.costs setting.now.factory.now) setting.now.limit setting.now.core.now.nodes
        walk.old frame walk.new) }
    ensures too_long { IsErrOf result ResolveError.TooLong → LAYOUT_LIMIT
        < (outcome_with (F.costs setting.now.factory.now) setting.now.limit setting.now.core.now.nodes walk.old
        frame).weight }
{
    match *setting.core.node(frame.node) {
        CoreNode::Text(_, len) => walk.text(setting.limit, len),
        CoreNode::Newline => walk.newline(frame.indentation),
        CoreNode::Concat(a, b) => {
            walk.on(b, frame.indentation)?;
            walk.on(a, frame.indentation)
        }
        CoreNode::Nest(n, a) => walk.on(a, (frame.indentation + n).min(setting.limit + 1)),
        CoreNode::Align(a) => walk.on(a, walk.column),
        CoreNode::Reset(a) => walk.on(a, 0),
        CoreNode::Choice(a, _) => walk.side(Dir::Left, a, frame.indentation),
        CoreNode::Only(dir, a) => walk.side(dir, a, frame.indentation),
        CoreNode::Charge(_, a) => walk.on(a, frame.indentation),
    }
}
