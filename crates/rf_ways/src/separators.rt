//! What stands between two items.

ghost use Rattle.std.specs.Prelude.{◌≡◌};
ghost use Rattle.rf_base_file.specs.Rows.{separator_docs, gap_docs};
ghost use Rattle.rf_tree.specs.Kept.{IsTree};
ghost use Rattle.rf_ways.specs.Holds.{OfFile};

use rf_base_tree::{Separator, Want};
use rf_tree::{Tree, gap};

/// What stands between the two items, where this is wanted, if both are there.
pub fn separator(tree: &Tree, before: usize, next: usize, want: Want) -> Separator
    requires { IsTree tree.now }
    ensures { OfFile tree.now (λ ts trees. separator_docs result ≡ gap_docs ts before next want) }
{
    let items = tree.items.len();
    if before >= items {
        return Separator::Empty;
    }
    if next >= items {
        return Separator::Empty;
    }
    gap(tree, before, next, want)
}
