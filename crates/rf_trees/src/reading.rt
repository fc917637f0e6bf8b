//! From a source to its tree.

ghost use Rattle.std.specs.Prelude.{◌≡◌, ◌≤◌, List, length, map, IfOk};
ghost use Rattle.std.specs.Str.{chars};
ghost use Rattle.rf_base_grammar.specs.Token.{Token, item_of, normal};
ghost use Rattle.rf_lexer.specs.Scan.{AreItems};
ghost use Rattle.rf_tree.specs.Texts.{AreItemsOf};
ghost use Rattle.rf_tree.specs.Kept.{IsTree};

use rf_base_grammar::{Item, SOURCE_LIMIT};
use rf_lexer::lex;
use rf_tree::{Tree, parse, settle};
use std::alloc::Global;
use std::test::Fail;

/// The tree of the source, where at most one blank line is kept. There is none where the source has more than 4,194,304
/// bytes, or is refused.
pub fn tree_of<'s>(alloc: Global, source: &'s str) -> Result<Tree<'s>, Fail>
    ensures { IfOk result IsTree }
{
    if source.len() > SOURCE_LIMIT {
        return Err(Fail::new("a source that is too long"));
    }
    let items = lex(alloc, source)?;
    of_read(alloc, source, items)
}

// The tree of the source from which these items were read.
fn of_read<'s>(alloc: Global, source: &'s str, items: Vec<Item>) -> Result<Tree<'s>, Fail>
    requires short { length source.now ≤ SOURCE_LIMIT }
    requires read { AreItems (chars source.now) items.items }
    ensures { IfOk result IsTree }
{
    of_items(alloc, source, settled(items))
}

// The tree of the source whose items these are, settled.
fn of_items<'s>(alloc: Global, source: &'s str, items: Vec<Item>) -> Result<Tree<'s>, Fail>
    requires short { length source.now ≤ SOURCE_LIMIT }
    requires items { AreItemsOf (chars source.now) items.items }
    ensures { IfOk result IsTree }
{
    Ok(parse(alloc, source, items)?)
}

// The items, settled.
fn settled(mut items: Vec<Item>) -> Vec<Item>
    ensures { (ts : List Token) → items.items ≡ map item_of ts → result.items ≡ map item_of (normal 1 ts) }
{
    settle(&mut items, 1);
    items
}
