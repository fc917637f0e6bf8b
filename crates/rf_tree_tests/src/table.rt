// How a table's rows are tried.
ghost use Rattle.std.specs.Prelude.{◌≡◌, ◌≤◌, List, length, map};
ghost use Rattle.std.specs.Str.{chars};
ghost use Rattle.rf_base_grammar.specs.Token.{Token, item_of, normal};
ghost use Rattle.rf_lexer.specs.Scan.{AreItems};
ghost use Rattle.rf_tree.specs.Texts.{AreItemsOf};
ghost use Rattle.rf_tree.specs.Kept.{IsTree};

use crate::parts::parts_shown;
use crate::shown::{gaps_shown, slots_shown, tree_shown};
use rf_base_grammar::{Item, SOURCE_LIMIT};
use rf_lexer::lex;
use rf_tree::{Tree, parse, settle};
use std::alloc::{AllocError, Global};
use std::process::Abort;
use std::test::Fail;

// What is compared.
#[derive(Clone, Copy, Debug, PartialEq, Eq)]
enum Asked {
    /// The tree, or its refusal.
    Tree,
    /// Whether there is a tree, or its refusal.
    Answer,
    /// The trees part by part, of at least one item each, or the refusal behind them.
    Parts,
    /// The slots of the file and of each list.
    Slots,
    /// What stands between neighbours, settled at nine blank lines.
    Gaps,
}

#[test]
fn each_row_has_its_answer(rt: HostRuntime) -> Result<(), Fail> {
    for (asked, rows) in [
        (Asked::Tree, crate::trees::ROWS),
        (Asked::Tree, crate::dots::ROWS),
        (Asked::Tree, crate::refusals::ROWS),
        (Asked::Answer, crate::depths::ROWS),
        (Asked::Parts, crate::parts::ROWS),
        (Asked::Slots, crate::slots::ROWS),
        (Asked::Gaps, crate::gaps::ROWS),
    ] {
        check(&rt, rt.alloc(), asked, rows)?;
    }
    Ok(())
}

// Compares what is told of the source of each row with the row's answer.
fn check(rt: &impl Abort, alloc: Global, asked: Asked, rows: &str) -> Result<(), Fail> {
    for row in rows.split('\n') {
        let (shown, wanted) = row.split_once('⇒').ok_or("a row without an answer")?;
        let source = source_of(alloc, shown)?;
        let got = answer(alloc, asked, source.as_str())?;
        assert_eq!(rt; got.as_str(), wanted, "{shown}");
    }
    Ok(())
}

/// The source that the signs stand for.
pub fn source_of(alloc: Global, shown: &str) -> Result<String, AllocError> {
    let mut source = String::new(alloc);
    for c in shown.chars() {
        let (count, meant) = meant(c);
        for _ in 0..count {
            source.push(meant)?;
        }
    }
    Ok(source)
}

// How many of which character the sign stands for.
fn meant(c: char) -> (u32, char) {
    match c {
        '⏎' => (1, '\n'),
        '«' => (499, '('),
        '»' => (499, ')'),
        _ => (1, c),
    }
}

// What is told of the source.
fn answer(alloc: Global, asked: Asked, source: &str) -> Result<String, AllocError> {
    if source.len() > SOURCE_LIMIT {
        return String::from_str(alloc, "too long");
    }
    match lex(alloc, source) {
        Ok(items) => of_read(alloc, asked, source, items),
        Err(fault) => format!(in alloc; "{fault}"),
    }
}

// What is told of the items that were read from the source.
fn of_read(
    alloc: Global,
    asked: Asked,
    source: &str,
    items: Vec<Item>,
) -> Result<String, AllocError>
    requires short { length source.now ≤ SOURCE_LIMIT }
    requires read { AreItems (chars source.now) items.items }
{
    match asked {
        Asked::Gaps => of_items(alloc, asked, source, settled(items)),
        _ => of_items(alloc, asked, source, items),
    }
}

// The items, settled.
fn settled(mut items: Vec<Item>) -> Vec<Item>
    ensures { (ts : List Token) → items.items ≡ map item_of ts → result.items ≡ map item_of (normal 9 ts) }
{
    settle(&mut items, 9);
    items
}

// What is told of the source's items, as they were read or settled.
fn of_items(
    alloc: Global,
    asked: Asked,
    source: &str,
    items: Vec<Item>,
) -> Result<String, AllocError>
    requires short { length source.now ≤ SOURCE_LIMIT }
    requires items { AreItemsOf (chars source.now) items.items }
{
    if asked == Asked::Parts {
        return parts_shown(alloc, source, items);
    }
    match parse(alloc, source, items) {
        Ok(tree) => of_tree(alloc, asked, &tree),
        Err(fault) => format!(in alloc; "{fault}"),
    }
}

// What is told of the tree.
fn of_tree(alloc: Global, asked: Asked, tree: &Tree) -> Result<String, AllocError>
    requires { IsTree tree.now }
{
    match asked {
        Asked::Tree | Asked::Parts => tree_shown(alloc, tree),
        Asked::Answer => String::from_str(alloc, "tree"),
        Asked::Slots => slots_shown(alloc, tree),
        Asked::Gaps => gaps_shown(alloc, tree),
    }
}
