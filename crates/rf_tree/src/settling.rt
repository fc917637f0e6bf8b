//! The blank lines that a layout keeps.

ghost use Rattle.std.specs.Prelude.{◌≡◌, ◌||◌, true, List, map, min, if◌then◌else◌};
ghost use Rattle.rf_base_grammar.specs.Token.{Token, item_of, opens, closes, normal};
ghost use Rattle.rf_tree.specs.Settled.{settled_item, settled_items};

use rf_base_grammar::{Item, Kind};

/// Keeps at most `max` blank lines before each item, and none before the first one, behind an opener, a prefix or a
/// skip, and before a closer. All else stays. It takes no memory.
///
/// Of `a` and `b` with three blank lines between them, `b` keeps one where `max` is 1.
pub fn settle(items: &mut [Item], max: u32)
    // Whatever the items are.
    ensures items { items.new ≡ settled_items true max items.old }

    // Where they are items of tokens.
    ensures tokens { (ts : List Token) → items.old ≡ map item_of ts → items.new ≡ map item_of (normal max ts) }
{
    let mut bare = true;
    for item in items.iter_mut() {
        settle_item(item, bare, max);
        bare = opens_more(item.kind);
    }
}

// Keeps at most `max` of the item's blank lines; bare says that none is kept behind the item before it. Most items have
// none, and of these no more is asked.
#[inline(always)]
fn settle_item(item: &mut Item, bare: bool, max: u32)
    ensures { item.new ≡ settled_item bare max item.old }
{
    if item.blanks > 0 {
        item.blanks = blanks_kept(bare, item, max);
    }
}

// How many of the item's blank lines are kept; bare says that none is kept behind the item before it.
fn blanks_kept(bare: bool, item: &Item, max: u32) -> u32
    ensures { result ≡ (if bare || closes item.now.kind then 0 else min item.now.blanks max) }
{
    if bare || matches!(item.kind, Kind::Closer(_)) {
        0
    } else {
        item.blanks.min(max)
    }
}

// Whether no blank line is kept behind an item of the kind.
fn opens_more(kind: Kind) -> bool
    ensures { result ≡ opens kind }
{
    matches!(kind, Kind::Opener(_) | Kind::Prefix | Kind::Skip)
}
