//! What is chosen of a document, by plain recursion on its tree.

ghost use Rattle.std.specs.Prelude.{◌<◌, length};

use crate::counting::Count;
use crate::plans::{Plan, pareto, put_all};
use rf_doc::{DocNode, Graph, NodeId};
use std::alloc::{AllocError, Global};

/// Where a part of a layout begins: its column, its indentation, and whether it is flat.
#[derive(Clone, Copy)]
pub struct Place {
    pub column: u32,
    pub indentation: u32,
    pub flat: bool,
}

impl Place {
    /// Where a document begins.
    pub const START: Place = Place {
        column: 0,
        indentation: 0,
        flat: false,
    };

    /// The same place at another column.
    pub fn at(self, column: u32) -> Place {
        Place { column, ..self }
    }

    /// The same place at another indentation.
    pub fn indented(self, indentation: u32) -> Place {
        Place {
            indentation,
            ..self
        }
    }

    /// The same place, flat.
    pub fn flattened(self) -> Place {
        Place { flat: true, ..self }
    }
}

/// Whether some resolution of a node has a layout.
pub fn has_layout(graph: &Graph, n: NodeId, flat: bool) -> bool
    requires { n.0 < length graph.now }
{
    match graph.node(n) {
        DocNode::Text(_, _) | DocNode::Newline => true,
        DocNode::Hard => !flat,
        DocNode::Concat(a, b) => has_layout(graph, a, flat) && has_layout(graph, b, flat),
        DocNode::Choice(a, b) => has_layout(graph, a, flat) || has_layout(graph, b, flat),
        DocNode::Flatten(a) => has_layout(graph, a, true),
        DocNode::Nest(_, a) => has_layout(graph, a, flat),
        DocNode::Align(a) => has_layout(graph, a, flat),
        DocNode::Reset(a) => has_layout(graph, a, flat),
        DocNode::Charge(_, a) => has_layout(graph, a, flat),
    }
}

/// The frontier of a node.
pub fn frontier(
    alloc: Global,
    graph: &Graph,
    count: Count,
    n: NodeId,
    place: Place,
) -> Result<Vec<Plan>, AllocError>
    requires { n.0 < length graph.now }
{
    match graph.node(n) {
        DocNode::Text(_, len) => word(alloc, count, place, len),
        DocNode::Newline if place.flat => word(alloc, count, place, 1),
        DocNode::Hard if place.flat => Ok(Vec::new(alloc)),
        DocNode::Newline | DocNode::Hard => line_break(alloc, count, place),
        DocNode::Nest(k, a) => {
            let indentation = place.indentation.saturating_add(k);
            frontier(alloc, graph, count, a, place.indented(indentation))
        }
        DocNode::Align(a) => frontier(alloc, graph, count, a, place.indented(place.column)),
        DocNode::Reset(a) => frontier(alloc, graph, count, a, place.indented(0)),
        DocNode::Flatten(a) => frontier(alloc, graph, count, a, place.flattened()),
        DocNode::Concat(a, b) => {
            let mut both = Vec::new(alloc);
            for first in frontier(alloc, graph, count, a, place)? {
                for second in frontier(alloc, graph, count, b, place.at(first.last))? {
                    both.push(first.then(alloc, &second)?)?;
                }
            }
            pareto(alloc, &both, count.limit)
        }
        DocNode::Choice(a, b) => {
            let mut sides = Vec::new(alloc);
            let left = frontier(alloc, graph, count, a, place)?;
            put_all(alloc, &mut sides, &left, "L", 0)?;
            let right = frontier(alloc, graph, count, b, place)?;
            put_all(alloc, &mut sides, &right, "R", 0)?;
            pareto(alloc, &sides, count.limit)
        }
        DocNode::Charge(k, a) => {
            let mut charged = Vec::new(alloc);
            let part = frontier(alloc, graph, count, a, place)?;
            put_all(alloc, &mut charged, &part, "", k as u128)?;
            pareto(alloc, &charged, count.limit)
        }
    }
}

// The frontier of a text of so many columns.
fn word(alloc: Global, count: Count, place: Place, len: u32) -> Result<Vec<Plan>, AllocError> {
    let end = place.column.saturating_add(len);
    let cost = count.text(place.column, len);
    Plan::only(alloc, end <= count.limit, end, cost)
}

// The frontier of a line break.
fn line_break(alloc: Global, count: Count, place: Place) -> Result<Vec<Plan>, AllocError> {
    let is_within = place.column <= count.limit && place.indentation <= count.limit;
    let cost = count.newline(place.indentation);
    Plan::only(alloc, is_within, place.indentation, cost)
}

/// What is chosen of a node that has a layout: the first measure, or else part by part, where costs are left out.
pub fn chosen(
    alloc: Global,
    graph: &Graph,
    count: Count,
    n: NodeId,
    place: Place,
) -> Result<Plan, AllocError>
    requires { n.0 < length graph.now }
{
    let mut measures = frontier(alloc, graph, count, n, place)?;
    measures.truncate(1);
    if let Some(first) = measures.pop() {
        return Ok(first);
    }
    match graph.node(n) {
        DocNode::Text(_, len) => ends(alloc, place.column.saturating_add(len)),
        DocNode::Newline if place.flat => ends(alloc, place.column.saturating_add(1)),
        DocNode::Newline | DocNode::Hard => ends(alloc, place.indentation),
        DocNode::Nest(k, a) => {
            let indentation = place.indentation.saturating_add(k);
            chosen(alloc, graph, count, a, place.indented(indentation))
        }
        DocNode::Align(a) => chosen(alloc, graph, count, a, place.indented(place.column)),
        DocNode::Reset(a) => chosen(alloc, graph, count, a, place.indented(0)),
        DocNode::Flatten(a) => chosen(alloc, graph, count, a, place.flattened()),
        DocNode::Charge(_, a) => chosen(alloc, graph, count, a, place),
        DocNode::Concat(a, b) => {
            let first = chosen(alloc, graph, count, a, place)?;
            let second = chosen(alloc, graph, count, b, place.at(first.last))?;
            first.then(alloc, &second)
        }
        DocNode::Choice(a, b) => {
            if has_layout(graph, a, place.flat) {
                let side = chosen(alloc, graph, count, a, place)?;
                side.behind(alloc, "L", 0)
            } else {
                let side = chosen(alloc, graph, count, b, place)?;
                side.behind(alloc, "R", 0)
            }
        }
    }
}

// A plan without choices that ends at a column.
fn ends(alloc: Global, last: u32) -> Result<Plan, AllocError> {
    Ok(Plan {
        last,
        cost: 0,
        letters: String::new(alloc),
    })
}
