//! What stands between neighbours.

ghost use Rattle.std.specs.Prelude.{◌≡◌, Some, List, slice_get, not, ◌||◌, ◌==◌};
ghost use Rattle.rf_base_grammar.specs.Token.{Token, is_line_comment};
ghost use Rattle.rf_base_grammar.specs.Woven.{ends_line};
ghost use Rattle.rf_base_tree.specs.Trees.{Forest};
ghost use Rattle.rf_base_tree.specs.Cut.{needs_gap, as_wanted, separator_between};
ghost use Rattle.rf_tree.specs.Kept.{IsTreeOf, IsTree, HasItem};
ghost use Rattle.rf_tree.specs.Gaps.{OfItems};

use crate::sorts::trails;
use crate::texts::{begins_undelimited, begins_with_at, is_unquote};
use crate::trees::Tree;
use rf_base_grammar::{Item, Kind};
use rf_base_tree::{Separator, Want};

/// What stands between these two items, where `next` is the neighbour of `before` and this is wanted there.
///
/// One space before a line comment that stands behind another item on its line. Otherwise a line break and the blank
/// lines before `next`, where `before` is a line comment, a here string or a language line, `next` is a line comment,
/// or blank lines stand before it. Otherwise what is wanted, and one space in place of nothing where the two would be
/// read as something else. It takes no memory.
pub fn gap(tree: &Tree, before: usize, next: usize, want: Want) -> Separator
    requires tree { IsTree tree.now }
    requires before { HasItem tree.now before }
    requires next { HasItem tree.now next }
    ensures { (ts : List Token) (trees : Forest) (a b : Token) → IsTreeOf tree.now ts trees
        → slice_get ts before ≡ Some a
        → slice_get ts next ≡ Some b → result ≡ separator_between a b want }
{
    let item = &tree.items[next];
    if trails(item) {
        Separator::Space
    } else if needs_break(tree.items[before].kind, item) {
        Separator::Hard(item.blanks)
    } else {
        as_wanted(tree, before, next, want)
    }
}

// Whether a line break stands between an item of the kind and the item.
fn needs_break(before: Kind, next: &Item) -> bool
    ensures { result ≡ (ends_line before || is_line_comment next.now.kind || not (next.now.blanks == 0)) }
{
    ends_line(before) || next.kind == Kind::Line || next.blanks != 0
}

// Whether nothing may stand behind an item of the kind on its line.
fn ends_line(kind: Kind) -> bool
    ensures { result ≡ ends_line kind }
{
    matches!(kind, Kind::Line | Kind::Here | Kind::Lang)
}

// What stands between these two items where no break is needed, and this is wanted.
fn as_wanted(tree: &Tree, before: usize, next: usize, want: Want) -> Separator
    requires tree { IsTree tree.now }
    requires before { HasItem tree.now before }
    requires next { HasItem tree.now next }
    ensures { OfItems tree.now before next (λ a b. result ≡ as_wanted (needs_gap a.kind a.spelling b.spelling) want) }
{
    match want {
        Want::Nothing => {
            if needs_gap(tree, before, next) {
                Separator::Space
            } else {
                Separator::Empty
            }
        }
        Want::Space => Separator::Space,
        Want::Line => Separator::Line,
        Want::Must => Separator::Hard(0),
    }
}

// Whether the first of these two items can't stand directly before the second.
fn needs_gap(tree: &Tree, before: usize, next: usize) -> bool
    requires tree { IsTree tree.now }
    requires before { HasItem tree.now before }
    requires next { HasItem tree.now next }
    ensures { OfItems tree.now before next (λ a b. result ≡ needs_gap a.kind a.spelling b.spelling) }
{
    match tree.items[before].kind {
        Kind::Atom => begins_undelimited(tree.text(next)),
        Kind::Dot => begins_undelimited(tree.text(next)),
        Kind::Prefix => is_unquote(tree.text(before)) && begins_with_at(tree.text(next)),
        kind => ends_line(kind),
    }
}
