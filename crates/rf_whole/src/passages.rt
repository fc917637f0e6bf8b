//! A source passage by passage: stretches of it that are read and laid out by themselves.
//!
//! A passage ends in a list, or in a prefix with its datum, and a line end begins the next, so that neither rests on the
//! other. Where a source is cut is guessed from its characters; whether others may stand beside a passage is seen when
//! it is read. No answer rests on where a source is cut.

ghost use denote.Param.Send.{IsSync, IsSend};
ghost use Rattle.std.specs.Prelude.{ℕ, ◌≡◌, ◌≤◌, ◌+◌, List, length, IfOk, IfErr, IfSome, IsFalse, IsTrue};
ghost use Rattle.std.specs.Str.{chars};
ghost use Rattle.rf_base_optimum.specs.Paragraphs.{Paragraph};
ghost use Rattle.rf_base_grammar.specs.Itemised.{Itemised};
ghost use Rattle.rf_base_grammar.specs.Token.{Token};
ghost use Rattle.rf_base_style.specs.Table.{IsStyle};
ghost use Rattle.rf_base_tree.specs.Trees.{Forest};
ghost use Rattle.rf_base_tree.specs.Formed.{Treed};
ghost use Rattle.rf_joins.specs.Moved.{HoldsNoLanguage};
ghost use Rattle.rf_style.specs.StyleOf.{seen};
ghost use Rattle.rf_whole.specs.Laid.{AreLinesOf};
ghost use Rattle.rf_whole.specs.Passages.{IsTreeAlone, StandsSo, EndsInCompound, IsLaidOut, IsFirstPassage};
ghost use Rattle.rf_whole.specs.Passages.{ArePutTogether, IsMissed, IsAcceptedBefore};
ghost use Rattle.rf_whole.specs.Whole.{sought, layout_of, IsWhole};

use crate::cuts::{blank_lines_ahead, cut_at_line, cut_in_two};
use crate::early::{have_no_language, missed_early};
use crate::faults::{FormatError, Miss};
use crate::formatting::{Formatted, tops_lines};
use crate::late::missed_late;
use crate::lines::{Lines, together};
use crate::rooms::{Room, keep_room};
use crate::settings::Setting;
use rf_base_grammar::SOURCE_LIMIT;
use rf_cost::Factory;
use rf_edges::{Gate, OpenGate};
use rf_lexer::lex;
use rf_style::Style;
use rf_tree::{Node, Tree, TreeError, Trees, parse_next, settle};
use std::alloc::Global;
use std::mem;
use std::thread::{Threads, join};

// Behind how many bytes the end of a passage is sought: the first of these that gives one by itself is taken.
const SIZES: [usize; 4] = [32_768, 262_144, 2_097_152, usize::MAX];

// How many bytes each job has at least, so that it is worth its thread.
const JOB_BYTES: usize = 65_536;

// How long a source is at least that is looked at before it is cut: it has to have a passage at its beginning, and so
// many bytes at its end must not be refused by themselves.
const LONG_BYTES: usize = 262_144;

const END_BYTES: usize = 8_192;

// How much room is kept from one passage of a long source to the next, in bytes: what any passage takes.
const ROOM: usize = 4_194_304;

/// A stretch of a source, and how it stands there.
#[derive(Clone, Copy)]
pub struct Excerpt<'s> {
    /// The text.
    pub text: &'s str,
    /// Whether it is the first of its source. Otherwise others stand before it.
    pub first: bool,
    /// Whether it is the last. Otherwise others stand behind it.
    pub last: bool,
    /// How many blank lines stand behind it.
    pub behind: u32,
}

/// What a passage is laid out as.
#[derive(Debug, Drop)]
pub struct Passage<C> {
    /// Its layout.
    pub lines: Lines<C>,
    /// How many items it has.
    pub items: usize,
}

/// The layout of a source, and how many items it has.
#[derive(Debug, Drop)]
pub struct FormattedPassages<C> {
    /// How many items the source has.
    pub items: usize,
    /// Its layout.
    pub formatted: Formatted<C>,
}

/// The layout of a source in a style, as `format_items` says, where it can be had passage by passage. Otherwise it is
/// told that the source is refused, if that is seen by passages; `Unsure` where it isn't known, as where the layout is
/// too long, or the source too short for so many jobs; or `Memory` for want of memory.
///
/// The source is cut into at most `jobs` stretches, from 1 to 64. Each is a job, which first enters the gate with its
/// number from 0, and is laid out passage by passage. Where stretches have to be laid out as one, the job of the first
/// enters the gate once more. The answer is the same for every number of jobs and every gate.
pub fn format_passages<R: Threads + Sync, F: Factory + Sync, G: Gate + Sync>(
    rt: &R,
    alloc: Global,
    src: &str,
    style: &Style,
    factory: &F,
    limit: u32,
    jobs: u32,
    gate: &G,
) -> Result<FormattedPassages<F::Cost>, Miss>
where
    F::Cost: Send,
    requires short { length src.now ≤ SOURCE_LIMIT }
    requires style { IsStyle (seen style.now) }
    requires some_width { 1 ≤ limit }
    requires width { limit ≤ 400 }
    requires some_job { 1 ≤ jobs }
    requires few_jobs { jobs ≤ 64 }
    ensures whole { IfOk result (λ made. (ts : List Token) × Itemised (chars src.now) ts
        × (made.items ≡ length ts) × ((trees : Forest) × Treed ts trees
        × IsWhole (sought (F.costs factory.now) limit) (seen style.now) ts trees (layout_of made.formatted))) }
    ensures missed { IfErr result (IsMissed (chars src.now)) }
{
    if src.len() < JOB_BYTES * jobs as usize {
        return Err(Miss::Unsure);
    }
    if let Some(miss) = missed_at_once(alloc, src, style) {
        return Err(miss);
    }
    let setting = Setting {
        rt,
        alloc,
        style,
        factory,
        limit,
        jobs,
        gate,
    };
    let excerpt = Excerpt {
        text: src,
        first: true,
        last: true,
        behind: 0,
    };
    let whole = jobs_passages(&setting, excerpt, 0, jobs)?;
    Ok(formatted(whole))
}

// What a long source is refused for, or that it isn't known, where it seems to be refused at its end, or to have no
// passage at its beginning. No answer rests on how it seems: such a source is laid out, or refused, otherwise in less
// time or memory.
fn missed_at_once(alloc: Global, src: &str, style: &Style) -> Option<Miss>
    requires short { length src.now ≤ SOURCE_LIMIT }
    ensures { IfSome result (IsMissed (chars src.now)) }
{
    if src.len() < LONG_BYTES {
        return None;
    }
    let (_, rest) = cut_in_two(src, SIZES[0]);
    let refused = seems_refused(alloc, src, style);
    if !refused && !rest.is_empty() {
        return None;
    }
    match missed_early(alloc, src) {
        Miss::Unsure if refused => Some(missed_late(alloc, src, style)),
        miss => Some(miss),
    }
}

// Whether a long source seems to be refused at its end.
fn seems_refused(alloc: Global, src: &str, style: &Style) -> bool
    requires short { length src.now ≤ SOURCE_LIMIT }
    requires long { LONG_BYTES ≤ length src.now }
{
    let size = src.len() - END_BYTES;
    let (_, listed) = cut_in_two(src, size);
    let end = if listed.is_empty() {
        cut_at_line(src, size).1
    } else {
        listed
    };
    tree_alone(alloc, end, style, Trees::none(alloc)).is_err()
}

// The passage as the layout of its source.
fn formatted<C: Copy>(whole: Passage<C>) -> FormattedPassages<C>
    ensures items { result.items ≡ whole.items }
    ensures text { result.formatted.text ≡ whole.lines.text }
    ensures choices { result.formatted.choices ≡ whole.lines.choices }
    ensures cost { result.formatted.cost ≡ whole.lines.cost }
    ensures within { result.formatted.within ≡ whole.lines.within }
{
    let lines = whole.lines;
    FormattedPassages {
        items: whole.items,
        formatted: Formatted {
            text: lines.text,
            choices: lines.choices,
            cost: lines.cost,
            within: lines.within,
        },
    }
}

// What the excerpt is laid out as by itself, in so many jobs at most, of which the first has the number; or nothing,
// where that isn't found.
#[cycle(jobs_passages)]
fn jobs_passages<R: Threads + Sync, F: Factory + Sync, G: Gate + Sync>(
    setting: &Setting<R, F, G>,
    excerpt: Excerpt<'_>,
    number: u32,
    jobs: u32,
) -> Result<Passage<F::Cost>, Miss>
where
    F::Cost: Send,
    requires short { length excerpt.text.now ≤ SOURCE_LIMIT }
    requires some_job { 1 ≤ jobs }
    requires few_jobs { number + jobs ≤ 64 }
    ensures passage { IfOk result (IsLaidOut (F.costs setting.now.factory.now) setting.now excerpt.entry) }
    ensures missed { IfErr result (IsMissed (chars excerpt.entry.text.now)) }
{
    if jobs == 1 {
        return job_passages(setting, excerpt, number);
    }
    let half = jobs / 2;
    let size = excerpt.text.len() / jobs as usize * half as usize;
    let (before, behind) = cut_in_two(excerpt.text, size);
    if behind.is_empty() {
        return job_passages(setting, excerpt, number);
    }
    let front = Excerpt {
        text: before,
        last: false,
        behind: blank_lines_ahead(behind, setting.style),
        ..excerpt
    };
    let rest = Excerpt {
        text: behind,
        first: false,
        ..excerpt
    };
    let other_half = jobs - half;
    let other_number = number + half;
    let lay_front = move || -> Result<Passage<F::Cost>, Miss>
        requires { IsSync R.row × IsSync F.row × IsSync G.row × IsSend F.Cost.row
            × (length front.text.now ≤ SOURCE_LIMIT) × (1 ≤ half) × (number + half ≤ 64) }
        ensures passage { IfOk result (IsLaidOut (F.costs setting.entry.now.factory.now)
            setting.entry.now front.entry) }
        ensures missed { IfErr result (IsMissed (chars front.entry.text.now)) }
    { jobs_passages(setting, front, number, half) };
    let lay_rest = move || -> Result<Passage<F::Cost>, Miss>
        requires { IsSync R.row × IsSync F.row × IsSync G.row × IsSend F.Cost.row
            × (length rest.text.now ≤ SOURCE_LIMIT) × (1 ≤ other_half) × (other_number + other_half ≤ 64) }
        ensures passage { IfOk result (IsLaidOut (F.costs setting.entry.now.factory.now) setting.entry.now rest.entry) }
        ensures missed { IfErr result (IsMissed (chars rest.entry.text.now)) }
    { jobs_passages(setting, rest, other_number, other_half) };
    let (first, second) = join(setting.rt, lay_front, lay_rest);
    match (first, second) {
        (Ok(first), Ok(second)) => put_behind(setting.factory, first, second, 0),
        (Ok(_), Err(miss @ (Miss::Items { .. } | Miss::Tree { .. }))) => Err(missed_behind(
            excerpt.text,
            behind,
            miss,
        )),
        (Err(Miss::Memory(fault)), _) | (_, Err(Miss::Memory(fault))) => Err(Miss::Memory(fault)),
        _ => job_passages(setting, excerpt, number),
    }
}

// The same by the job of this number alone.
fn job_passages<R: Threads + Sync, F: Factory + Sync, G: Gate + Sync>(
    setting: &Setting<R, F, G>,
    excerpt: Excerpt<'_>,
    number: u32,
) -> Result<Passage<F::Cost>, Miss>
where
    F::Cost: Send,
    requires short { length excerpt.text.now ≤ SOURCE_LIMIT }
    ensures passage { IfOk result (IsLaidOut (F.costs setting.now.factory.now) setting.now excerpt.entry) }
    ensures missed { IfErr result (IsMissed (chars excerpt.entry.text.now)) }
{
    setting.gate.enter(number);
    let alone = Setting {
        rt: setting.rt,
        alloc: setting.alloc,
        style: setting.style,
        factory: setting.factory,
        limit: setting.limit,
        jobs: 1,
        gate: &OpenGate,
    };
    all_passages(&alone, excerpt)
}

// The same passage by passage.
fn all_passages<R: Threads + Sync, F: Factory + Sync>(
    setting: &Setting<R, F, OpenGate>,
    excerpt: Excerpt<'_>,
) -> Result<Passage<F::Cost>, Miss>
where
    F::Cost: Send,
    requires short { length excerpt.text.now ≤ SOURCE_LIMIT }
    ensures passage { IfOk result (IsLaidOut (F.costs setting.now.factory.now) setting.now excerpt.entry) }
    ensures missed { IfErr result (IsMissed (chars excerpt.entry.text.now)) }
{
    let mut room = Room::new(setting.alloc);
    let (begun, left) = first_passage(setting, excerpt, &mut room)?;
    let mut all = begun;
    let mut rest = left;
    if rest.len() >= LONG_BYTES {
        keep_room(setting.alloc, ROOM);
    }
    while !rest.is_empty() {
        let behind = Excerpt {
            text: rest,
            first: false,
            ..excerpt
        };
        match first_passage(setting, behind, &mut room) {
            Ok((more, left)) if left.len() < rest.len() => {
                all = put_behind(setting.factory, all, more, left.len())?;
                rest = left;
            }
            Ok(_) => return Err(Miss::Unsure),
            Err(miss) => return Err(missed_behind(excerpt.text, rest, miss)),
        }
    }
    Ok(all)
}

// The first passage of the excerpt, and the rest of its text. That the excerpt is refused is told only where no place
// was found to cut it.
fn first_passage<'s, R: Threads + Sync, F: Factory + Sync>(
    setting: &Setting<R, F, OpenGate>,
    excerpt: Excerpt<'s>,
    room: &mut Room<F::Cost>,
) -> Result<(Passage<F::Cost>, &'s str), Miss>
where
    F::Cost: Send,
    requires short { length excerpt.text.now ≤ SOURCE_LIMIT }
    ensures passage { IfOk result (λ found. IsFirstPassage (F.costs setting.now.factory.now)
        setting.now.limit (seen setting.now.style.now) excerpt.entry.first excerpt.entry.last
        (chars excerpt.entry.text.now) excerpt.entry.behind found.0 (chars found.1.now)) }
    ensures shorter { IfOk result (λ found. length found.1.now ≤ length excerpt.entry.text.now) }
    ensures missed { IfErr result (IsMissed (chars excerpt.entry.text.now)) }
{
    for size in SIZES {
        let (before, rest) = cut_in_two(excerpt.text, size);
        if rest.is_empty() {
            let whole = one_passage(setting, excerpt, room)?;
            return Ok((whole, rest));
        }
        let front = Excerpt {
            text: before,
            last: false,
            behind: blank_lines_ahead(rest, setting.style),
            ..excerpt
        };
        match one_passage(setting, front, room) {
            Ok(found) => return Ok((found, rest)),
            Err(Miss::Memory(fault)) => return Err(Miss::Memory(fault)),
            Err(_) => {}
        }
    }
    Err(Miss::Unsure)
}

// What the excerpt is laid out as by itself; or that it is refused. It isn't known where it has no item, its layout is
// too long, or others can't stand beside it as they do. It is read and laid out in the room of older ones.
fn one_passage<R: Threads + Sync, F: Factory + Sync>(
    setting: &Setting<R, F, OpenGate>,
    excerpt: Excerpt<'_>,
    room: &mut Room<F::Cost>,
) -> Result<Passage<F::Cost>, Miss>
where
    F::Cost: Send,
    requires short { length excerpt.text.now ≤ SOURCE_LIMIT }
    ensures passage { IfOk result (IsLaidOut (F.costs setting.now.factory.now) setting.now excerpt.entry) }
    ensures missed { IfErr result (IsMissed (chars excerpt.entry.text.now)) }
{
    let older = mem::replace(&mut room.trees, Trees::none(setting.alloc));
    let mut tree = tree_alone(setting.alloc, excerpt.text, setting.style, older)?;
    if !stands_with_others(&tree, excerpt.first, excerpt.last) {
        return Err(Miss::Unsure);
    }
    let items = tree.items.len();
    let lines = tops_lines(setting, &tree, excerpt.behind, &mut room.drawer);
    room.trees = tree.put_trees(Trees::none(setting.alloc));
    match lines {
        Ok(lines) => Ok(Passage { lines, items }),
        Err(FormatError::TooLong) => Err(Miss::Unsure),
        Err(FormatError::Memory(fault)) => Err(Miss::Memory(fault)),
    }
}

// The tree of the text by itself, whose items are as a layout in the style keeps them, in the room of older trees; or
// why it is refused.
pub fn tree_alone<'s>(
    alloc: Global,
    text: &'s str,
    style: &Style,
    room: Trees,
) -> Result<Tree<'s>, Miss>
    requires short { length text.now ≤ SOURCE_LIMIT }
    ensures tree { IfOk result (IsTreeAlone (seen style.now) text.now) }
    ensures missed { IfErr result (IsMissed (chars text.now)) }
{
    let mut items = lex(alloc, text)?;
    settle(&mut items, style.blanks);
    let mut tree = Tree {
        src: text,
        items,
        nodes: room.nodes,
        tops: room.tops,
    };
    match parse_next(alloc, &mut tree, 0, usize::MAX) {
        Ok(_) => Ok(tree),
        Err(TreeError::Refused { kind, offset }) => Err(Miss::Tree { kind, offset }),
        Err(TreeError::Memory(fault)) => Err(Miss::Memory(fault)),
    }
}

// Whether the text that the tree has by itself has an item, and others may stand before it, unless it is the first of
// its source, and behind it, unless it is the last.
pub fn stands_with_others(tree: &Tree, first: bool, last: bool) -> bool
    ensures { IsTrue result → StandsSo tree.now first last }
{
    match tree.items.last() {
        None => false,
        Some(item) => {
            (first || have_no_language(&tree.items))
                && (last || item.end as usize == tree.src.len() && ends_in_compound(tree))
        }
    }
}

// Whether the last of the tree's top-level nodes is a compound datum: a list, or a prefix with its datum.
fn ends_in_compound(tree: &Tree) -> bool
    ensures { IsTrue result → EndsInCompound tree.now }
{
    match tree.tops.last() {
        None => false,
        Some(at) => matches!(
            tree.nodes.get(*at),
            Some(Node::List { .. } | Node::Prefixed { .. })
        ),
    }
}

// A passage and one behind it together, in a text with room for so many bytes more. It isn't known what they come to
// where they are too long.
fn put_behind<F: Factory>(
    factory: &F,
    first: Passage<F::Cost>,
    second: Passage<F::Cost>,
    ahead: usize,
) -> Result<Passage<F::Cost>, Miss>
    requires first { (w : ℕ) × (ps : List Paragraph) × AreLinesOf (F.costs factory.now) w ps first.lines }
    requires second { (w : ℕ) × (ps : List Paragraph) × AreLinesOf (F.costs factory.now) w ps second.lines }
    ensures both { IfOk result (ArePutTogether (F.costs factory.now) first second) }
    ensures missed { IfErr result (λ miss. (text : List ℕ) → IsMissed text miss) }
{
    let Some(items) = first.items.checked_add(second.items) else {
        return Err(Miss::Unsure);
    };
    match together(factory, first.lines, second.lines, ahead) {
        Ok(lines) => Ok(Passage { lines, items }),
        Err(FormatError::TooLong) => Err(Miss::Unsure),
        Err(FormatError::Memory(fault)) => Err(Miss::Memory(fault)),
    }
}

// What is told of a text, where this is told of its rest, before which an accepted passage stands. What the rest is
// refused for may be a language line's, which stands behind nothing in the rest: then it isn't known.
pub fn missed_behind(text: &str, rest: &str, miss: Miss) -> Miss
    requires accepted { IsAcceptedBefore (chars text.now) (chars rest.now) }
    requires missed { IsMissed (chars rest.now) miss }
    ensures { IsMissed (chars text.now) result }
{
    let before = text.len() - rest.len();
    match miss {
        Miss::Memory(fault) => Miss::Memory(fault),
        Miss::Items { kind, offset } if !holds_language(rest) => match further(before, offset) {
            None => Miss::Unsure,
            Some(offset) => Miss::Items { kind, offset },
        },
        Miss::Tree { kind, offset } if !holds_language(rest) => match further(before, offset) {
            None => Miss::Unsure,
            Some(offset) => Miss::Tree { kind, offset },
        },
        _ => Miss::Unsure,
    }
}

// Whether `#lang` stands somewhere in the text.
fn holds_language(text: &str) -> bool
    ensures { IsFalse result → HoldsNoLanguage (chars text.now) }
{
    text.contains("#lang")
}

// The offset so many bytes further on, where there is one.
fn further(bytes: usize, offset: u32) -> Option<u32>
    ensures { IfSome result (λ sum. sum ≡ bytes + offset) }
{
    u32::try_from(bytes).ok()?.checked_add(offset)
}
