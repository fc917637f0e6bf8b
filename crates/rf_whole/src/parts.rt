//! A source part by part: its trees are read and laid out some at a time.

ghost use Rattle.std.specs.Prelude.{ℕ, ◌≡◌, ◌≤◌, ◌<◌, List, [], length, map, IfOk, IfErr, OnOk};
ghost use Rattle.std.specs.Prelude.{IsErrOf};
ghost use Rattle.std.specs.Str.{chars};
ghost use Rattle.rf_base_optimum.specs.Paragraphs.{Paragraph};
ghost use Rattle.rf_base_grammar.specs.Token.{Token, item_of};
ghost use Rattle.rf_base_style.specs.Table.{IsStyle};
ghost use Rattle.rf_base_tree.specs.Trees.{Forest};
ghost use Rattle.rf_base_tree.specs.Formed.{Treed};
ghost use Rattle.rf_base_tree.specs.Places.{IsPlace};
ghost use Rattle.rf_style.specs.StyleOf.{seen};
ghost use Rattle.rf_tree.specs.Texts.{AreTokensOf, AreItemsOf};
ghost use Rattle.rf_tree.specs.Parsing.{TreeFault};
ghost use Rattle.rf_whole.specs.Groups.{HasTops};
ghost use Rattle.rf_whole.specs.Laid.{AreLinesOf};
ghost use Rattle.rf_whole.specs.Whole.{sought, layout_of, IsWhole};
ghost use Rattle.rf_whole.specs.Parts.{AreKeptItems, SourceFault, HoldsSource, HasLinesTo, IsStopped};
ghost use Rattle.rf_whole.specs.Parts.{AddsTops, PassesWithTops, HaveRest, IsToldBehind};

use crate::closing::seems_closed;
use crate::faults::{FormatError, SourceError};
use crate::formatting::{Formatted, tops_lines};
use crate::groups::blanks_before;
use crate::lines::{Lines, no_lines, together};
use crate::settings::Setting;
use crate::tasks::Drawer;
use rf_base_grammar::{Item, SOURCE_LIMIT};
use rf_cost::Factory;
use rf_edges::Gate;
use rf_style::Style;
use rf_tree::{Nodes, Tree, TreeError, parse_next};
use std::alloc::Global;
use std::mem;
use std::thread::Threads;

// How many items a part has at least: for one job, so that its tree stays near the processor.
const ONE_JOB_ITEMS: usize = 4_096;

// The same for each of several jobs, so that they are worth their threads, and where a source is only read.
const JOB_ITEMS: usize = 32_768;

/// The layout of a source in a style, chosen by this factory within `limit` columns, from 1 to 400. The items are
/// those of the source as the style keeps them.
///
/// The source is read and laid out part by part: the tree of a part at a time is held. A part has at least 4,096 items
/// for one job and 32,768 for each of several, up to where top-level slots end, or the items that are left. Its
/// top-level slots are cut into at most `jobs` neighbouring groups, from 1 to 64, which are of one size but for the
/// last. Each group is a job, which first enters the gate with its number from 0. The answer is the same for every
/// number of jobs and every gate.
///
/// The first item that can't go on is refused, or the end, as `rf_tree::parse` says, also where what stands before it
/// is too long. `TooLong` comes exactly where there is a tree, and the layout has more than 67,108,864 characters, or
/// its resolution more texts, line breaks and choices than that; `Memory` for want of memory.
pub fn format_items<R: Threads + Sync, F: Factory + Sync, G: Gate + Sync>(
    rt: &R,
    alloc: Global,
    src: &str,
    items: Vec<Item>,
    style: &Style,
    factory: &F,
    limit: u32,
    jobs: u32,
    gate: &G,
) -> Result<Formatted<F::Cost>, SourceError>
where
    F::Cost: Send,
    requires items { (ts : List Token) × AreKeptItems (seen style.now) (chars src.now) ts items.items }
    requires short { length src.now ≤ SOURCE_LIMIT }
    requires style { IsStyle (seen style.now) }
    requires some_width { 1 ≤ limit }
    requires width { limit ≤ 400 }
    requires some_job { 1 ≤ jobs }
    requires few_jobs { jobs ≤ 64 }
    ensures whole { IfOk result (λ made. (ts : List Token)
        → AreKeptItems (seen style.now) (chars src.now) ts items.items → (trees : Forest) × Treed ts trees
        × IsWhole (sought (F.costs factory.now) limit) (seen style.now) ts trees (layout_of made)) }
    ensures stopped { IfErr result (λ fault. (ts : List Token)
        → AreKeptItems (seen style.now) (chars src.now) ts items.items
        → SourceFault (sought (F.costs factory.now) limit) (seen style.now) ts fault) }
{
    let mut tree = Tree {
        src,
        items,
        nodes: Nodes::new(alloc),
        tops: Vec::new(alloc),
    };
    refuse_early(alloc, &mut tree)?;
    let setting = Setting {
        rt,
        alloc,
        style,
        factory,
        limit,
        jobs,
        gate,
    };
    let lines = parts_lines(&setting, &mut tree)?;
    // To take the lists of the last part apart would take time.
    mem::forget(tree);
    Ok(Formatted {
        text: lines.text,
        choices: lines.choices,
        cost: lines.cost,
        within: lines.within,
    })
}

// Where something seems to be missing, reads the source to its end, so that it is refused before any of it is laid out.
fn refuse_early(alloc: Global, tree: &mut Tree) -> Result<(), TreeError>
    requires items { AreItemsOf (chars tree.now.src.now) tree.now.items.items }
    ensures kept { (tree.new.src.now ≡ tree.old.src.now) × (tree.new.items ≡ tree.old.items) }
    ensures refused { IfErr result (λ fault. (ts : List Token) → AreTokensOf (chars tree.old.src.now) ts
        → tree.old.items.items ≡ map item_of ts → TreeFault ts fault) }
{
    if seems_closed(&tree.items) {
        return Ok(());
    }
    accept_rest(alloc, tree, 0)
}

// Reads the trees from the item of this number on to the end, part by part. What the tree has then has no meaning.
fn accept_rest(alloc: Global, tree: &mut Tree, from: usize) -> Result<(), TreeError>
    requires items { AreItemsOf (chars tree.now.src.now) tree.now.items.items }
    requires there { from ≤ length tree.now.items.items }
    ensures kept { (tree.new.src.now ≡ tree.old.src.now) × (tree.new.items ≡ tree.old.items) }
    ensures rest { OnOk result ((ts : List Token) (done : Forest) → AreTokensOf (chars tree.old.src.now) ts
        → tree.old.items.items ≡ map item_of ts → IsPlace ts from [] done → HaveRest ts done) }
    ensures refused { IfErr result (λ fault. (ts : List Token) (done : Forest) → AreTokensOf (chars tree.old.src.now) ts
        → tree.old.items.items ≡ map item_of ts → IsPlace ts from [] done → TreeFault ts fault) }
{
    let mut number = from;
    while number < tree.items.len() {
        number = parse_next(alloc, tree, number, JOB_ITEMS)?;
    }
    Ok(())
}

// The lines of the source that the tree has, part by part.
fn parts_lines<R: Threads + Sync, F: Factory + Sync, G: Gate + Sync>(
    setting: &Setting<R, F, G>,
    tree: &mut Tree,
) -> Result<Lines<F::Cost>, SourceError>
where
    F::Cost: Send,
    requires source { HoldsSource (seen setting.now.style.now) tree.now }
    ensures lines { IfOk result (HasLinesTo (F.costs setting.now.factory.now) setting.now tree.old
        (length tree.old.items.items)) }
    ensures stopped { IfErr result (IsStopped (F.costs setting.now.factory.now) setting.now tree.old) }
{
    let mut lines = no_lines(setting.alloc, setting.factory);
    let mut next = 0;
    while next < tree.items.len() {
        (next, lines) = add_part(setting, tree, next, lines)?;
    }
    Ok(lines)
}

// Behind the lines of what stands before the item of this number, those of the part that begins there. The answer is
// the number of the item behind them, and the lines.
fn add_part<R: Threads + Sync, F: Factory + Sync, G: Gate + Sync>(
    setting: &Setting<R, F, G>,
    tree: &mut Tree,
    from: usize,
    lines: Lines<F::Cost>,
) -> Result<(usize, Lines<F::Cost>), SourceError>
where
    F::Cost: Send,
    requires source { HoldsSource (seen setting.now.style.now) tree.now }
    requires some { from < length tree.now.items.items }
    requires lines { HasLinesTo (F.costs setting.now.factory.now) setting.now tree.now from lines }
    ensures kept { (tree.new.src.now ≡ tree.old.src.now) × (tree.new.items ≡ tree.old.items) }
    ensures onward { IfOk result (λ to. (from < to.0) × (to.0 ≤ length tree.old.items.items)) }
    ensures lines { IfOk result (λ to. HasLinesTo (F.costs setting.now.factory.now) setting.now tree.old to.0 to.1) }
    ensures stopped { IfErr result (IsStopped (F.costs setting.now.factory.now) setting.now tree.old) }
{
    let next = parse_next(setting.alloc, tree, from, part_items(setting.jobs))?;
    match with_tops(setting, tree, next, lines) {
        Ok(lines) => Ok((next, lines)),
        Err(fault) => Err(fault_behind(setting.alloc, tree, next, fault)),
    }
}

// How many items a part has at least for so many jobs.
fn part_items(jobs: u32) -> usize
    requires some { 1 ≤ jobs }
    requires few { jobs ≤ 64 }
    ensures { 1 ≤ result }
{
    if jobs == 1 {
        ONE_JOB_ITEMS
    } else {
        JOB_ITEMS * jobs as usize
    }
}

// The lines, and behind them those of the top-level slots that the tree has, with the blank lines before the item of
// this number behind the last slot.
fn with_tops<R: Threads + Sync, F: Factory + Sync, G: Gate + Sync>(
    setting: &Setting<R, F, G>,
    tree: &Tree,
    next: usize,
    lines: Lines<F::Cost>,
) -> Result<Lines<F::Cost>, FormatError>
where
    F::Cost: Send,
    requires tops { (ts : List Token) × (trees : Forest) × HasTops (seen setting.now.style.now) tree.now ts trees }
    requires lines { (w : ℕ) × (ps : List Paragraph) × AreLinesOf (F.costs setting.now.factory.now) w ps lines }
    ensures lines { IfOk result (AddsTops (F.costs setting.now.factory.now) setting.now tree.now next lines) }
    ensures too_long { IsErrOf result FormatError.TooLong
        → PassesWithTops (F.costs setting.now.factory.now) setting.now tree.now next lines }
{
    let behind = blanks_before(tree, next);
    let mut drawer = Drawer::new(setting.alloc);
    let others = tops_lines(setting, tree, behind, &mut drawer)?;
    together(setting.factory, lines, others, 0)
}

// What is told where the trees before the item of this number aren't laid out for this reason. Where they are too long,
// a refusal of what stands behind them comes first.
fn fault_behind(alloc: Global, tree: &mut Tree, next: usize, fault: FormatError) -> SourceError
    requires items { AreItemsOf (chars tree.now.src.now) tree.now.items.items }
    requires there { next ≤ length tree.now.items.items }
    ensures kept { (tree.new.src.now ≡ tree.old.src.now) × (tree.new.items ≡ tree.old.items) }
    ensures told { (ts : List Token) (done : Forest) → AreTokensOf (chars tree.old.src.now) ts
        → tree.old.items.items ≡ map item_of ts → IsPlace ts next [] done → IsToldBehind ts done fault result }
{
    match fault {
        FormatError::Memory(_) => SourceError::Layout(fault),
        FormatError::TooLong => match accept_rest(alloc, tree, next) {
            Ok(()) => SourceError::Layout(fault),
            Err(refusal) => SourceError::Tree(refusal),
        },
    }
}
