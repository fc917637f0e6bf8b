//! Nodes of graphs, checked where a call has a condition, and documents that are written down.

ghost use Rattle.std.specs.Prelude.{◌<◌, ◌≤◌, length, IfOk};

use rf_base_document::Dir;
use rf_doc::{Graph, NodeId, TEXT_LIMIT};
use rf_text::one_line;
use std::alloc::{AllocError, Global};
use std::test::Fail;

/// A text of one line.
pub fn text(graph: &mut Graph, s: &str) -> Result<NodeId, Fail>
    ensures in_graph { IfOk result (λ id. id.0 < length graph.new) }
    ensures no_fewer { IfOk result (λ id. length graph.old ≤ length graph.new) }
{
    if s.len() > TEXT_LIMIT || !one_line(s) {
        return Err(Fail::new("not a text of one line"));
    }
    Ok(graph.text(s)?)
}

/// The two characters of `漢字`, which take up four columns.
pub fn wide(graph: &mut Graph) -> Result<NodeId, Fail> {
    let s = "漢字";
    if s.len() > TEXT_LIMIT || !one_line(s) {
        return Err(Fail::new("not a text of one line"));
    }
    Ok(graph.sized(s, 4)?)
}

/// Puts the node of one word on the stack: a document in postfix form, where a word that is no operation is
/// a text.
pub fn put(graph: &mut Graph, stack: &mut Vec<NodeId>, word: &str) -> Result<(), Fail> {
    let node = match word {
        "line" => graph.newline()?,
        "hard" => graph.hard()?,
        "wide" => wide(graph)?,
        "empty" => text(graph, "")?,
        "+" => {
            let b = taken(graph, stack)?;
            let a = taken(graph, stack)?;
            graph.concat(a, b)?
        }
        "|" => {
            let b = taken(graph, stack)?;
            let a = taken(graph, stack)?;
            graph.choice(a, b)?
        }
        "nest" => {
            let a = taken(graph, stack)?;
            graph.nest(2, a)?
        }
        "far" => {
            let a = taken(graph, stack)?;
            graph.nest(1000, a)?
        }
        "align" => {
            let a = taken(graph, stack)?;
            graph.align(a)?
        }
        "reset" => {
            let a = taken(graph, stack)?;
            graph.reset(a)?
        }
        "flat" => {
            let a = taken(graph, stack)?;
            graph.flatten(a)?
        }
        "charge" => {
            let a = taken(graph, stack)?;
            graph.charge(3, a)?
        }
        "one" => {
            let a = taken(graph, stack)?;
            graph.charge(1, a)?
        }
        "free" => {
            let a = taken(graph, stack)?;
            graph.charge(0, a)?
        }
        "swap" => {
            let b = taken(graph, stack)?;
            let a = taken(graph, stack)?;
            stack.push(b)?;
            a
        }
        "same" => {
            let a = taken(graph, stack)?;
            stack.push(a)?;
            a
        }
        _ => text(graph, word)?,
    };
    stack.push(node)?;
    Ok(())
}

// The node on top of the stack, off it, if it is one of the graph.
fn taken(graph: &Graph, stack: &mut Vec<NodeId>) -> Result<NodeId, Fail>
    ensures { IfOk result (λ id. id.0 < length graph.now) }
{
    match stack.pop() {
        Some(id) => checked(graph, id),
        None => Err(Fail::new("the stack is empty")),
    }
}

/// The node of a document in postfix form.
pub fn document(alloc: Global, graph: &mut Graph, words: &str) -> Result<NodeId, Fail>
    ensures { IfOk result (λ id. id.0 < length graph.new) }
{
    let mut stack = Vec::new(alloc);
    for word in words.split_whitespace() {
        put(graph, &mut stack, word)?;
    }
    taken(graph, &mut stack)
}

/// The choices that these letters name, others aside.
pub fn choices(alloc: Global, letters: &str) -> Result<Vec<Dir>, AllocError> {
    let mut choices = Vec::new(alloc);
    for letter in letters.chars() {
        match letter {
            'L' => choices.push(Dir::Left)?,
            'R' => choices.push(Dir::Right)?,
            _ => {}
        }
    }
    Ok(choices)
}

/// Choices as the letters L and R.
pub fn letters(alloc: Global, choices: &[Dir]) -> Result<String, AllocError> {
    let mut letters = String::new(alloc);
    for dir in choices {
        letters.push(match dir {
            Dir::Left => 'L',
            Dir::Right => 'R',
        })?;
    }
    Ok(letters)
}

/// The node, if it is one of the graph.
pub fn checked(graph: &Graph, id: NodeId) -> Result<NodeId, Fail>
    ensures { IfOk result (λ id. id.0 < length graph.now) }
{
    if id.0 < graph.len() {
        Ok(id)
    } else {
        Err(Fail::new("no node of the graph"))
    }
}
