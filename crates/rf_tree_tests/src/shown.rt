// How trees, slots and separators are shown.
ghost use Rattle.std.specs.Prelude.{◌<◌};
ghost use Rattle.rf_tree.specs.Kept.{IsTree, HasItem};

use rf_tree::{At, Node, Separator, Slot, Tree, Want, gap, slots, tops};
use std::alloc::{AllocError, Global};

/// The nodes at the top, unfolded.
pub fn tree_shown(alloc: Global, tree: &Tree) -> Result<String, AllocError> {
    let mut texts = Vec::new(alloc);
    for number in 0..u32::MAX {
        let Some(node) = tree.nodes.get(At(number)) else {
            break;
        };
        let text = node_shown(alloc, node, &texts)?;
        texts.push(text)?;
    }
    let mut text = String::new(alloc);
    add_each(&mut text, &tree.tops, &texts)?;
    String::from_str(alloc, text.as_str().trim_start())
}

// The node, unfolded, where the nodes before it are shown so.
fn node_shown(alloc: Global, node: Node, texts: &[String]) -> Result<String, AllocError> {
    match node {
        Node::Leaf(item) => format!(in alloc; "{item}"),
        Node::Comment(item) => format!(in alloc; ";{item}"),
        Node::Prefixed { item, lead, inner } => {
            let start = format!(in alloc; "'{item}")?;
            begun_shown(start, lead, inner, texts)
        }
        Node::DatumComment { item, lead, inner } => {
            let start = format!(in alloc; "#{item}")?;
            begun_shown(start, lead, inner, texts)
        }
        Node::List {
            opener,
            entries,
            closer,
        } => {
            let mut text = format!(in alloc; "({opener}")?;
            add_each(&mut text, entries, texts)?;
            let end = format!(in alloc; " {closer})")?;
            text.push_str(end.as_str())?;
            Ok(text)
        }
    }
}

// A prefix or a skip that is shown so, and behind it the comments and the datum in braces.
fn begun_shown(
    start: String,
    lead: &[At],
    inner: At,
    texts: &[String],
) -> Result<String, AllocError> {
    let mut text = start;
    text.push('{')?;
    for at in lead {
        text.push_str(text_at(*at, texts))?;
        text.push(' ')?;
    }
    text.push_str(text_at(inner, texts))?;
    text.push('}')?;
    Ok(text)
}

// Adds a space and the node for each of these.
fn add_each(text: &mut String, ats: &[At], texts: &[String]) -> Result<(), AllocError> {
    for at in ats {
        text.push(' ')?;
        text.push_str(text_at(*at, texts))?;
    }
    Ok(())
}

// What the node is shown as.
fn text_at(at: At, texts: &[String]) -> &str {
    match texts.get(at.0 as usize) {
        Some(text) => text.as_str(),
        None => "?",
    }
}

/// The slots of the file and of each list.
pub fn slots_shown(alloc: Global, tree: &Tree) -> Result<String, AllocError>
    requires { IsTree tree.now }
{
    let file = tops(alloc, tree)?;
    let mut text = row_shown(alloc, tree, &file)?;
    for number in 0..u32::MAX {
        let at = At(number);
        if tree.nodes.get(at).is_none() {
            break;
        }
        let list = list_shown(alloc, tree, at)?;
        text.push_str(list.as_str())?;
    }
    Ok(text)
}

// The slots of the node, where it is a list.
fn list_shown(alloc: Global, tree: &Tree, at: At) -> Result<String, AllocError>
    requires { IsTree tree.now }
{
    match tree.nodes.get(at) {
        Some(Node::List { .. }) => {
            let slots = slots(alloc, tree, at)?;
            let row = row_shown(alloc, tree, &slots)?;
            format!(in alloc; " / {row}")
        }
        _ => Ok(String::new(alloc)),
    }
}

// The slots, one behind another, or a dash where there are none.
fn row_shown(alloc: Global, tree: &Tree, slots: &[Slot]) -> Result<String, AllocError> {
    if slots.is_empty() {
        return String::from_str(alloc, "-");
    }
    let mut text = String::new(alloc);
    for slot in slots {
        let one = slot_shown(alloc, tree, slot)?;
        text.push_str(one.as_str())?;
    }
    Ok(text)
}

// The slot in angle brackets.
fn slot_shown(alloc: Global, tree: &Tree, slot: &Slot) -> Result<String, AllocError> {
    let mut text = String::new(alloc);
    for lead in &slot.leads {
        add_part(alloc, &mut text, ";", tree, Some(*lead))?;
    }
    add_part(alloc, &mut text, ":", tree, slot.key)?;
    add_part(alloc, &mut text, "", tree, slot.datum)?;
    add_part(alloc, &mut text, "~", tree, slot.trailing)?;
    format!(in alloc; "<{}>", text.as_str().trim_start())
}

// Adds a space, the sign and the first item of the node, if there is one.
fn add_part(
    alloc: Global,
    text: &mut String,
    sign: &str,
    tree: &Tree,
    part: Option<At>,
) -> Result<(), AllocError> {
    if let Some(at) = part {
        let one = format!(in alloc; " {sign}{}", first_item(tree, at))?;
        text.push_str(one.as_str())?;
    }
    Ok(())
}

// The number of the node's first item.
fn first_item(tree: &Tree, at: At) -> usize {
    match tree.nodes.get(at) {
        Some(Node::Leaf(item)) => item,
        Some(Node::Prefixed { item, .. }) => item,
        Some(Node::List { opener, .. }) => opener,
        Some(Node::Comment(item)) => item,
        Some(Node::DatumComment { item, .. }) => item,
        None => usize::MAX,
    }
}

/// What stands between neighbours, for each want.
pub fn gaps_shown(alloc: Global, tree: &Tree) -> Result<String, AllocError>
    requires { IsTree tree.now }
{
    let mut text = String::new(alloc);
    for next in 1..tree.items.len() {
        if next > 1 {
            text.push(' ')?;
        }
        let pair = pair_shown(alloc, tree, next)?;
        text.push_str(pair.as_str())?;
    }
    Ok(text)
}

// What stands between the item and the one before it, for each want.
fn pair_shown(alloc: Global, tree: &Tree, next: usize) -> Result<String, AllocError>
    requires tree { IsTree tree.now }
    requires positive { 0 < next }
    requires there { HasItem tree.now next }
{
    let nothing = separator_shown(alloc, gap(tree, next - 1, next, Want::Nothing))?;
    let space = separator_shown(alloc, gap(tree, next - 1, next, Want::Space))?;
    let line = separator_shown(alloc, gap(tree, next - 1, next, Want::Line))?;
    let must = separator_shown(alloc, gap(tree, next - 1, next, Want::Must))?;
    format!(in alloc; "{nothing}{space}{line}{must}")
}

// The separator.
fn separator_shown(alloc: Global, separator: Separator) -> Result<String, AllocError> {
    match separator {
        Separator::Empty => String::from_str(alloc, "e"),
        Separator::Space => String::from_str(alloc, "s"),
        Separator::Line => String::from_str(alloc, "l"),
        Separator::Hard(blanks) => format!(in alloc; "{blanks}"),
    }
}
