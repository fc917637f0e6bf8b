//! From a source to its layout.

ghost use Rattle.std.specs.Prelude.{◌≡◌, ◌≤◌, List, length, IfOk, IfErr};
ghost use Rattle.std.specs.Str.{chars};
ghost use Rattle.rf_base_grammar.specs.Itemised.{Itemised};
ghost use Rattle.rf_base_grammar.specs.Token.{Token};
ghost use Rattle.rf_base_style.specs.Table.{IsStyle};
ghost use Rattle.rf_base_tree.specs.Trees.{Forest};
ghost use Rattle.rf_base_tree.specs.Formed.{Treed};
ghost use Rattle.rf_base_file.specs.Formatted.{IsFormatted};
ghost use Rattle.rf_style.specs.StyleOf.{seen};
ghost use Rattle.rf_whole.specs.Whole.{IsWhole, layout_of};
ghost use Rattle.rf_whole.specs.Parts.{AreKeptItems, SourceFault};
ghost use Rattle.rf_whole.specs.Passages.{IsMissed};
ghost use Rattle.rf_top.specs.Objective.{objective};
ghost use Rattle.rf_top.specs.Lines.{SourceStops};
ghost use Rattle.rf_top.specs.Running.{OfLayout, OrOutside};

use crate::stops::Stop;
use rf_base_grammar::{Item, SOURCE_LIMIT};
use rf_base_source::SourceKind;
use rf_cost::{CostKind, Linear, Lines, Squares};
use rf_edges::Gate;
use rf_lexer::lex;
use rf_style::Style;
use rf_text::as_text;
use rf_tree::settle;
use rf_whole::{
    Formatted, FormattedPassages, Miss, SourceError, format_items, format_passages, keep_room,
};
use std::alloc::Global;
use std::thread::Threads;

// How many bytes of room are taken at first, and given back. Texts up to that length grow in the heap, where they are
// copied, so it is no more than serves.
const ROOM: usize = 524_288;

/// A source's layout, and how many items the source has.
#[derive(Debug, Drop)]
pub struct FormattedSource {
    pub items: usize,
    pub formatted: Formatted<u128>,
}

/// The layout of a source, which holds at most 4,194,304 bytes, in a style. A part of the source at a time is read and
/// laid out in so many jobs, from 1 to 64, each of which enters the gate.
///
/// `Stop::Refused` comes exactly where the source is refused, with its kind and offset; `Stop::LayoutTooLong` exactly
/// where the layout has more than 67,108,864 characters, or more texts, line breaks and choices than that;
/// `Stop::Memory` for want of memory.
pub fn format_source<R: Threads + Sync, G: Gate + Sync>(
    rt: &R,
    alloc: Global,
    style: &Style,
    source: &[u8],
    jobs: u32,
    gate: &G,
) -> Result<FormattedSource, Stop>
    requires style { IsStyle (seen style.now) }
    requires short { length source.now ≤ SOURCE_LIMIT }
    requires some_job { 1 ≤ jobs }
    requires few_jobs { jobs ≤ 64 }
    ensures formatted { IfOk result (λ made.
        (formatted : IsFormatted (seen style.now) (objective style.now) source.now (layout_of made.formatted))
        × (length formatted.tokens ≡ made.items)) }
    ensures stopped { IfErr result (λ stop. OrOutside stop (SourceStops style.now source.now stop)) }
    ensures only { IfErr result OfLayout }
{
    let text = as_text(source)?;
    keep_room(alloc, ROOM);
    match passages_by_cost(rt, alloc, text, style, jobs, gate) {
        Ok(whole) => {
            return Ok(FormattedSource {
                items: whole.items,
                formatted: whole.formatted,
            });
        }
        Err(Miss::Items { kind, offset }) => {
            return Err(Stop::Refused {
                kind: SourceKind::Lex(kind),
                offset,
            });
        }
        Err(Miss::Tree { kind, offset }) => {
            return Err(Stop::Refused {
                kind: SourceKind::Tree(kind),
                offset,
            });
        }
        Err(Miss::Memory(_)) => return Err(Stop::Memory),
        Err(Miss::Unsure) => {}
    }
    let items = kept_items(alloc, text, style)?;
    let count = items.len();
    let formatted = format_by_cost(rt, alloc, text, items, style, jobs, gate)?;
    Ok(FormattedSource {
        items: count,
        formatted,
    })
}

// The layout of a source passage by passage, as the style's factory counts costs, or what it is refused for, where it
// can be had so.
fn passages_by_cost<R: Threads + Sync, G: Gate + Sync>(
    rt: &R,
    alloc: Global,
    source: &str,
    style: &Style,
    jobs: u32,
    gate: &G,
) -> Result<FormattedPassages<u128>, Miss>
    requires short { length source.now ≤ SOURCE_LIMIT }
    requires style { IsStyle (seen style.now) }
    requires some_job { 1 ≤ jobs }
    requires few_jobs { jobs ≤ 64 }
    ensures whole { IfOk result (λ made. (ts : List Token) × Itemised (chars source.now) ts
        × (made.items ≡ length ts) × ((trees : Forest) × Treed ts trees
        × IsWhole (objective style.now) (seen style.now) ts trees (layout_of made.formatted))) }
    ensures missed { IfErr result (IsMissed (chars source.now)) }
{
    let width = style.width;
    let limit = style.limit;
    match style.cost {
        CostKind::Squares => {
            let factory = Squares { width };
            format_passages(rt, alloc, source, style, &factory, limit, jobs, gate)
        }
        CostKind::Linear => {
            let factory = Linear { width };
            format_passages(rt, alloc, source, style, &factory, limit, jobs, gate)
        }
        CostKind::Lines => format_passages(rt, alloc, source, style, &Lines, limit, jobs, gate),
    }
}

// The items of a source, with the blank lines that a layout in this style keeps.
fn kept_items(alloc: Global, source: &str, style: &Style) -> Result<Vec<Item>, Stop>
    requires { length source.now ≤ SOURCE_LIMIT }
    ensures kept { IfOk result (λ items. (ts : List Token)
        × AreKeptItems (seen style.now) (chars source.now) ts items.items) }
    ensures stopped { IfErr result (λ stop. OrOutside stop (SourceStops style.now source.now stop)) }
    ensures only { IfErr result OfLayout }
{
    let mut items = lex(alloc, source)?;
    settle(&mut items, style.blanks);
    Ok(items)
}

// The layout of a source's items, which are as this style keeps them, as the style's factory counts costs.
fn format_by_cost<R: Threads + Sync, G: Gate + Sync>(
    rt: &R,
    alloc: Global,
    source: &str,
    items: Vec<Item>,
    style: &Style,
    jobs: u32,
    gate: &G,
) -> Result<Formatted<u128>, SourceError>
    requires items { (ts : List Token) × AreKeptItems (seen style.now) (chars source.now) ts items.items }
    requires short { length source.now ≤ SOURCE_LIMIT }
    requires style { IsStyle (seen style.now) }
    requires some_job { 1 ≤ jobs }
    requires few_jobs { jobs ≤ 64 }
    ensures whole { IfOk result (λ made. (ts : List Token)
        → AreKeptItems (seen style.now) (chars source.now) ts items.items → (trees : Forest) × Treed ts trees
        × IsWhole (objective style.now) (seen style.now) ts trees (layout_of made)) }
    ensures stopped { IfErr result (λ fault. (ts : List Token)
        → AreKeptItems (seen style.now) (chars source.now) ts items.items
        → SourceFault (objective style.now) (seen style.now) ts fault) }
{
    let width = style.width;
    let limit = style.limit;
    match style.cost {
        CostKind::Squares => format_items(
            rt,
            alloc,
            source,
            items,
            style,
            &Squares { width },
            limit,
            jobs,
            gate,
        ),
        CostKind::Linear => format_items(
            rt,
            alloc,
            source,
            items,
            style,
            &Linear { width },
            limit,
            jobs,
            gate,
        ),
        CostKind::Lines => format_items(rt, alloc, source, items, style, &Lines, limit, jobs, gate),
    }
}
