//! What an entry is, as slots see it.

ghost use Rattle.std.specs.Prelude.{◌≡◌, ◌&&◌, not, slice_get, codes};
ghost use Rattle.std.specs.Str.{chars};
ghost use Rattle.rf_base_grammar.specs.Reader.{begins};
ghost use Rattle.rf_base_grammar.specs.Token.{is_line_comment};
ghost use Rattle.rf_base_tree.specs.Slots.{may_be_key, remark_of, keyword_or_datum};
ghost use Rattle.rf_tree.specs.Kept.{IsTree, HasNode, HasItem};
ghost use Rattle.rf_tree.specs.Sorts.{token_at, sort_told, leaf_sort, node_sort};

use crate::nodes::{At, Node};
use crate::texts::is_keyword;
use crate::trees::Tree;
use rf_base_grammar::{Item, Kind};

/// What an entry is, as slots see it.
#[derive(Clone, Copy, Debug, PartialEq, Eq)]
pub enum Sort {
    /// A line comment behind another item on its line.
    Trailing,
    /// Any other comment.
    Remark,
    /// A keyword.
    Keyword,
    /// A dot.
    Dotted,
    /// Any other datum.
    Datum,
}

impl Sort {
    /// Whether it may be the key of a datum.
    pub fn may_be_key(self) -> bool
        ensures { result ≡ may_be_key (sort_told self) }
    {
        match self {
            Sort::Keyword => true,
            Sort::Dotted => true,
            Sort::Trailing => false,
            Sort::Remark => false,
            Sort::Datum => false,
        }
    }
}

/// What the node is.
pub fn sort_of(tree: &Tree, at: At) -> Sort
    requires tree { IsTree tree.now }
    requires there { HasNode tree.now at }
    ensures { sort_told result ≡ node_sort tree.now (slice_get tree.now.nodes at.0) }
{
    match tree.nodes.node(at) {
        Node::Leaf(item) => leaf_sort(tree, item),
        Node::Prefixed { .. } => Sort::Datum,
        Node::List { .. } => Sort::Datum,
        Node::Comment(item) => remark_sort(tree, item),
        Node::DatumComment { .. } => Sort::Remark,
    }
}

// What the datum of this one item is, or the dot.
fn leaf_sort(tree: &Tree, item: usize) -> Sort
    requires tree { IsTree tree.now }
    requires there { HasItem tree.now item }
    ensures { sort_told result ≡ leaf_sort (token_at tree.now item) }
{
    match tree.items[item].kind {
        Kind::Dot => Sort::Dotted,
        Kind::Atom => atom_sort(tree.text(item)),
        _ => Sort::Datum,
    }
}

// What the atom that is spelled so is.
fn atom_sort(text: &str) -> Sort
    ensures { sort_told result ≡ keyword_or_datum (begins (codes "#:") (chars text.now)) }
{
    if is_keyword(text) {
        Sort::Keyword
    } else {
        Sort::Datum
    }
}

// What the comment of this one item is.
fn remark_sort(tree: &Tree, item: usize) -> Sort
    requires { HasItem tree.now item }
    ensures { sort_told result ≡ remark_of (token_at tree.now item) }
{
    if trails(&tree.items[item]) {
        Sort::Trailing
    } else {
        Sort::Remark
    }
}

/// Whether the item is a line comment behind another item on its line.
pub fn trails(item: &Item) -> bool
    ensures { result ≡ (is_line_comment item.now.kind && not item.now.own_line) }
{
    item.kind == Kind::Line && !item.own_line
}
