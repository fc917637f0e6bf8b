//! Sources that are refused near their beginning.

ghost use Rattle.std.specs.Prelude.{◌≡◌, ◌≢◌, ◌≤◌, ◌++◌, [], length, codes, IfSome, IsTrue};
ghost use Rattle.std.specs.List.{AllByRecursion};
ghost use Rattle.std.specs.Str.{chars};
ghost use Rattle.rf_base_grammar.specs.Characters.{BeginsWith};
ghost use Rattle.rf_base_grammar.specs.Spelled.{EndsOrDelimits};
ghost use Rattle.rf_base_grammar.specs.declared.kinds.Kind.TheVariants.{Lang};
ghost use Rattle.rf_joins.specs.Laws.{TellsItem};
ghost use Rattle.rf_whole.specs.Early.{MayPrecede, EndBefore, IsRefusedFront};
ghost use Rattle.rf_whole.specs.Passages.{IsMissed};

use crate::cuts::cut_behind_item;
use crate::faults::Miss;
use rf_base_grammar::{Item, Kind, SOURCE_LIMIT};
use rf_lexer::{Before, accept_behind, lex};
use rf_text::{first, is_delimiter};
use rf_tree::{Nodes, Tree, TreeError, TreeKind, parse_next};
use std::alloc::Global;

// Among how many bytes of a source an item is sought that can't go on.
const EARLY_BYTES: usize = 8_192;

/// What a source is refused for, where one of its first items can't go on: for that, or for what stands behind the
/// first items, where none can be read. Otherwise it isn't known. The items behind the first aren't kept.
pub fn missed_early(alloc: Global, src: &str) -> Miss
    requires short { length src.now ≤ SOURCE_LIMIT }
    ensures { IsMissed (chars src.now) result }
{
    let (front, rest) = cut_behind_item(src, EARLY_BYTES);
    let Some(refusal) = refused_front(alloc, front, rest) else {
        return Miss::Unsure;
    };
    let before = Before {
        none: false,
        language: false,
    };
    match accept_behind(src.len(), rest, before) {
        Ok(()) => Miss::Tree {
            kind: refusal.0,
            offset: refusal.1,
        },
        Err(fault) => Miss::from(fault),
    }
}

// Which of the front's items can't go on, if one can't, where these are the first of the source with this rest behind
// it.
fn refused_front(alloc: Global, front: &str, rest: &str) -> Option<(TreeKind, u32)>
    requires short { length front.now ≤ SOURCE_LIMIT }
    ensures { IfSome result (λ refusal. IsRefusedFront (chars front.now) (chars rest.now) refusal.0 refusal.1) }
{
    let Ok(items) = lex(alloc, front) else {
        return None;
    };
    if !end_before(&items, front, rest) || !have_no_language(&items) {
        return None;
    }
    let mut tree = Tree {
        src: front,
        items,
        nodes: Nodes::new(alloc),
        tops: Vec::new(alloc),
    };
    match parse_next(alloc, &mut tree, 0, usize::MAX) {
        Err(TreeError::Refused { kind, offset }) if tells_item(kind) => Some((kind, offset)),
        _ => None,
    }
}

// Whether the items end where the text does, in one that the rest may follow.
fn end_before(items: &[Item], front: &str, rest: &str) -> bool
    ensures { IsTrue result → EndBefore items.now (length front.now) (chars rest.now) }
{
    match items.last() {
        None => false,
        Some(item) => item.end as usize == front.len() && may_precede(item.kind, rest),
    }
}

// Whether the rest may follow an item of this kind, behind which no language line stands.
fn may_precede(kind: Kind, rest: &str) -> bool
    ensures { IsTrue result → MayPrecede kind (chars rest.now) }
{
    match kind {
        Kind::Opener(_) | Kind::Closer(_) | Kind::Skip | Kind::Str => true,
        Kind::Prefix => is_no_at(rest),
        Kind::Atom | Kind::Dot => delimits(rest),
        Kind::Here | Kind::Block | Kind::Line | Kind::Lang => false,
    }
}

// Whether no @ begins the text.
fn is_no_at(text: &str) -> bool
    ensures { IsTrue result → BeginsWith (codes "@") (chars text.now) → ⊥ }
{
    match first(text) {
        None => true,
        Some((c, _)) => c != '@',
    }
}

// Whether the text is at its end, or a delimiter begins it.
fn delimits(text: &str) -> bool
    ensures { IsTrue result → EndsOrDelimits (chars text.now) }
{
    match first(text) {
        None => true,
        Some((c, _)) => is_delimiter(c),
    }
}

// Whether a refusal of this kind tells the item that can't go on.
fn tells_item(kind: TreeKind) -> bool
    ensures { IsTrue result → TellsItem kind }
{
    match kind {
        TreeKind::CloseWithout | TreeKind::CloseMismatch | TreeKind::BadDot | TreeKind::TooDeep =>
            true,
        TreeKind::OpenList | TreeKind::NothingAfter => false,
    }
}

/// Whether none of the items is a language line.
pub fn have_no_language(items: &[Item]) -> bool
    ensures { IsTrue result → AllByRecursion (λ item. item.kind ≢ Lang) items.now }
{
    for item in items {
        if item.kind == Kind::Lang {
            return false;
        }
    }
    true
}
