//! From text to items.

ghost use Rattle.std.specs.Prelude.{◌≢◌, ℕ, ◌≤◌, ◌-◌, length, List, IsOk, IfOk, IfErr};
ghost use Rattle.std.specs.Str.{chars};
ghost use Rattle.rf_base_grammar.specs.Unreadable.{LexRefused};
ghost use Rattle.rf_base_grammar.specs.declared.kinds.Kind.{Kind as KindOf};
ghost use Rattle.rf_base_grammar.specs.Reader as Reader;
ghost use Rattle.rf_lexer.specs.Fronts.{Tells};
ghost use Rattle.rf_lexer.specs.Gaps.{EndsGap};
ghost use Rattle.rf_lexer.specs.Next.{AreBefore, IsNext};
ghost use Rattle.rf_lexer.specs.declared.front.Front.TheVariants.{Read};
ghost use Rattle.rf_lexer.specs.declared.scan.Next.TheVariants.{Found};
ghost use Rattle.rf_lexer.specs.Scan.{AreItems, LexFault, HasSomeItems, IsRefusal, HasItemsBehind, LexFaultBehind};

use crate::before::Before;
use crate::faults::LexError;
use crate::front::{Front, front_item, item_at_once};
use crate::gaps::behind_gap;
use rf_base_grammar::{Item, Kind, LexKind, SOURCE_LIMIT};
use std::alloc::Global;

/// How many bytes an item takes with its gap in dense code: there is room for as many items before any is read.
const BYTES_OF_ITEM: usize = 4;

/// The items of a source, which holds at most 4,194,304 bytes.
///
/// A source is refused at the first place where no item can be read: `LexError::Refused` has the kind and the offset in
/// bytes. `LexError::Memory` is want of memory.
///
/// `a . b` has an atom from byte 0 to 1, a dot from 2 to 3 and an atom from 4 to 5; `a|b` is refused as OpenBar at 0.
#[inline(never)]
pub fn lex(alloc: Global, src: &str) -> Result<Vec<Item>, LexError>
    requires { length src.now ≤ SOURCE_LIMIT }
    // The source is these items with gaps around them.
    ensures items { IfOk result (λ items. AreItems (chars src.now) items.items) }
    // A refusal is the source's.
    ensures refused { IfErr result (λ fault. LexFault (chars src.now) fault) }
    // What has items is never refused, and what is refused never has items.
    ensures accepted { IsOk result → (kind : LexKind) (offset : ℕ) → LexRefused (chars src.now) kind offset → ⊥ }
    ensures unreadable { IfErr result (λ fault. IsRefusal fault → HasSomeItems (chars src.now) → ⊥) }
{
    let mut items = Vec::with_capacity(alloc, src.len() / BYTES_OF_ITEM)?;
    let mut before = Before::nothing();
    let mut text = src;
    loop {
        let (feeds, place) = behind_gap(text);
        if let Some((kind, behind)) = item_at_once(place) {
            let item = found(src.len(), text, feeds, place, before, kind, behind);
            items.push(item)?;
            before = before.and(item.kind);
            text = behind;
            continue;
        }
        match next_item(src.len(), text, feeds, place, before) {
            Next::End => return Ok(items),
            Next::Refused { kind, offset } => return Err(LexError::Refused { kind, offset }),
            Next::Found { item, behind } => {
                items.push(item)?;
                before = before.and(item.kind);
                text = behind;
            }
        }
    }
}

/// Whether the rest of a source of this length in bytes, which holds at most 4,194,304, has items behind these, or is
/// refused, as by `lex`. The items aren't kept: it takes no memory.
pub fn accept_behind(len: usize, rest: &str, before: Before) -> Result<(), LexError>
    requires limit { len ≤ SOURCE_LIMIT }
    requires within { length rest.now ≤ len }
    requires known { (kinds : List KindOf) × AreBefore kinds before }
    ensures accepted { IsOk result → (kinds : List KindOf) → AreBefore kinds before
        → HasItemsBehind kinds (len - length rest.now) (chars rest.now) }
    ensures refused { IfErr result (λ fault. (kinds : List KindOf) → AreBefore kinds before
        → LexFaultBehind kinds (len - length rest.now) (chars rest.now) fault) }
    ensures only { IfErr result IsRefusal }
{
    let mut before = before;
    let mut text = rest;
    loop {
        let (feeds, place) = behind_gap(text);
        if let Some((kind, behind)) = item_at_once(place) {
            let item = found(len, text, feeds, place, before, kind, behind);
            before = before.and(item.kind);
            text = behind;
            continue;
        }
        match next_item(len, text, feeds, place, before) {
            Next::End => return Ok(()),
            Next::Refused { kind, offset } => return Err(LexError::Refused { kind, offset }),
            Next::Found { item, behind } => {
                before = before.and(item.kind);
                text = behind;
            }
        }
    }
}

/// What a text begins with behind its gap.
enum Next<'s> {
    /// Nothing.
    End,
    /// This item, and the text behind it.
    Found { item: Item, behind: &'s str },
    /// A refusal of this kind at the offset.
    Refused { kind: LexKind, offset: u32 },
}

// What the text begins with, which is the end of a source of this length in bytes behind these items. So many LFs and
// then the place stand behind its gap.
#[inline(never)]
fn next_item<'s>(len: usize, text: &'s str, feeds: u32, place: &'s str, before: Before) -> Next<'s>
    requires limit { len ≤ SOURCE_LIMIT }
    requires within { length text.now ≤ len }
    requires gap { EndsGap (chars text.now) feeds (chars place.now) }
    ensures { (kinds : List KindOf) → AreBefore kinds before
        → IsNext kinds (len - length text.now) (chars text.now) result }
{
    if place.is_empty() {
        return Next::End;
    }
    match front_item(before.language, place) {
        Front::Read { kind, behind } => Next::Found {
            item: found(len, text, feeds, place, before, kind, behind),
            behind,
        },
        Front::Unread { kind, offset } => Next::Refused {
            kind,
            offset: (len - place.len() + offset) as u32,
        },
    }
}

// The item of this kind that stands at the place, behind a gap with so many LFs at the front of the text, which is the
// end of a source of this length in bytes behind these items.
#[inline(always)]
fn found(
    len: usize,
    text: &str,
    feeds: u32,
    place: &str,
    before: Before,
    kind: Kind,
    behind: &str,
) -> Item
    requires limit { len ≤ SOURCE_LIMIT }
    requires within { length text.now ≤ len }
    requires gap { EndsGap (chars text.now) feeds (chars place.now) }
    requires some { length place.now ≢ 0 }
    requires told { Tells (Reader.front_item before.language (chars place.now)) (Read kind behind) }
    ensures { (kinds : List KindOf) → AreBefore kinds before
        → IsNext kinds (len - length text.now) (chars text.now) (Found result behind.entry) }
{
    Item {
        kind,
        own_line: before.own_line(kind, feeds),
        start: (len - place.len()) as u32,
        end: (len - behind.len()) as u32,
        blanks: feeds.saturating_sub(1),
    }
}
