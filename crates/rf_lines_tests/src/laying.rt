// From a source to the line of its first slot.
ghost use Rattle.rf_base_style.specs.Table.{IsStyle, AreRules};
ghost use Rattle.rf_style.specs.StyleOf.{seen};
ghost use Rattle.rf_tree.specs.Kept.{IsTree};
ghost use Rattle.rf_ways.specs.Tops.{IsTop};
ghost use Rattle.rf_ways.specs.Nodes.{IsNode};

use rf_base_document::Dir;
use rf_base_file::Role;
use rf_lines::{Page, write_line, write_placed};
use rf_style::{Style, default_table};
use rf_tree::{Slot, Tree, tops};
use rf_trees::tree_of;
use rf_ways::Placed;
use std::alloc::{AllocError, Global};
use std::test::Fail;

/// The choices and the line of the source's first slot, or `no`.
pub fn line_of(alloc: Global, source: &str, most: u32) -> Result<String, Fail> {
    let style = default_table(alloc)?;
    let tree = tree_of(alloc, source)?;
    first_line(alloc, &tree, &style, most)
}

// The choices and the line of the tree's first slot, or `no`.
fn first_line(alloc: Global, tree: &Tree, style: &Style, most: u32) -> Result<String, Fail>
    requires tree { IsTree tree.now }
    requires style { IsStyle (seen style.now) }
{
    let slots = tops(alloc, tree)?;
    match slots.split_first() {
        None => Err(Fail::new("a source without a slot")),
        Some((slot, _)) => slot_line(alloc, tree, style, slot, most),
    }
}

// The choices and the line of the slot, or `no`. It is written on a page that holds something already.
fn slot_line(
    alloc: Global,
    tree: &Tree,
    style: &Style,
    slot: &Slot,
    most: u32,
) -> Result<String, Fail>
    requires top { IsTop tree.now slot.now }
    requires style { IsStyle (seen style.now) }
{
    let mut page = Page::new(alloc);
    write_line(tree, style, slot, most, &mut page)?;
    if write_line(tree, style, slot, most, &mut page)? {
        Ok(shown(alloc, &page)?)
    } else {
        Ok(String::from_str(alloc, "no")?)
    }
}

/// The choices, those where all is flat, and the line of the source's first node, unquoted, or `no`.
pub fn placed_line_of(alloc: Global, source: &str, most: u32) -> Result<String, Fail> {
    let style = default_table(alloc)?;
    let tree = tree_of(alloc, source)?;
    first_node_line(alloc, &tree, &style, most)
}

// The same of the tree's first node at the top.
fn first_node_line(alloc: Global, tree: &Tree, style: &Style, most: u32) -> Result<String, Fail>
    requires tree { IsTree tree.now }
    requires style { IsStyle (seen style.now) }
{
    match tree.tops.split_first() {
        None => Err(Fail::new("a source without a node")),
        Some((at, _)) => {
            let placed = Placed {
                tree,
                style,
                at: *at,
                quoted: false,
                role: Role::Free,
            };
            placed_line(alloc, &placed, most)
        }
    }
}

// The choices, those where all is flat, and the line of the node, or `no`.
fn placed_line(alloc: Global, placed: &Placed, most: u32) -> Result<String, Fail>
    requires node { IsNode placed.now.tree.now placed.now.at }
    requires rules { AreRules placed.now.style.now.forms }
{
    let mut page = Page::new(alloc);
    if write_placed(placed, most, &mut page)? {
        let mut text = String::new(alloc);
        push_choices(&mut text, page.choices())?;
        text.push('⇒')?;
        push_choices(&mut text, page.flat_choices())?;
        text.push('⇒')?;
        text.push_str(page.text())?;
        Ok(text)
    } else {
        Ok(String::from_str(alloc, "no")?)
    }
}

// The choices and the text of the page.
fn shown(alloc: Global, page: &Page) -> Result<String, AllocError> {
    let mut text = String::new(alloc);
    push_choices(&mut text, page.choices())?;
    text.push('⇒')?;
    text.push_str(page.text())?;
    Ok(text)
}

// Adds the signs of these choices.
fn push_choices(text: &mut String, choices: &[Dir]) -> Result<(), AllocError> {
    if choices.is_empty() {
        text.push('-')?;
    }
    for dir in choices {
        text.push(match dir {
            Dir::Left => 'L',
            Dir::Right => 'R',
        })?;
    }
    Ok(())
}
