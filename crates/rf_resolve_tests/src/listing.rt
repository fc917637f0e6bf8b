//! All resolutions of a document, listed by their choices, and what each is laid out as.

ghost use Rattle.std.specs.Prelude.{◌<◌, length};

use crate::counting::Count;
use crate::reading::Place;
use rf_base_document::Dir;
use rf_doc::{DocNode, Graph, NodeId};
use rf_documents::choices;
use rf_flat::{Core, fits};
use std::alloc::{AllocError, Global};

/// What a part of a resolution is laid out as.
#[derive(Clone, Copy)]
pub struct Laid {
    /// The column that it ends at.
    pub last: u32,
    /// What it costs.
    pub cost: u128,
    /// Whether it is within the limit.
    pub within: bool,
    /// How many of the choices are used up.
    pub used: usize,
}

impl Laid {
    // This one and then that one.
    fn then(self, next: Laid) -> Laid {
        Laid {
            last: next.last,
            cost: self.cost.saturating_add(next.cost),
            within: self.within && next.within,
            used: next.used,
        }
    }

    // The same for so much more.
    fn charged(self, k: u32) -> Laid {
        Laid {
            cost: self.cost.saturating_add(k as u128),
            ..self
        }
    }
}

/// What the choices from `used` on make of a node: none where they don't fit or it has no layout.
pub fn lay_out(
    graph: &Graph,
    count: Count,
    n: NodeId,
    place: Place,
    choices: &[Dir],
    used: usize,
) -> Option<Laid>
    requires { n.0 < length graph.now }
{
    match graph.node(n) {
        DocNode::Text(_, len) => Some(word(count, place, len, used)),
        DocNode::Newline if place.flat => Some(word(count, place, 1, used)),
        DocNode::Hard if place.flat => None,
        DocNode::Newline | DocNode::Hard => Some(Laid {
            last: place.indentation,
            cost: count.newline(place.indentation),
            within: place.column <= count.limit && place.indentation <= count.limit,
            used,
        }),
        DocNode::Nest(k, a) => {
            let indentation = place.indentation.saturating_add(k);
            lay_out(graph, count, a, place.indented(indentation), choices, used)
        }
        DocNode::Align(a) => {
            lay_out(graph, count, a, place.indented(place.column), choices, used)
        }
        DocNode::Reset(a) => lay_out(graph, count, a, place.indented(0), choices, used),
        DocNode::Flatten(a) => lay_out(graph, count, a, place.flattened(), choices, used),
        DocNode::Charge(k, a) => {
            let part = lay_out(graph, count, a, place, choices, used)?;
            Some(part.charged(k))
        }
        DocNode::Concat(a, b) => {
            let first = lay_out(graph, count, a, place, choices, used)?;
            let second = lay_out(graph, count, b, place.at(first.last), choices, first.used)?;
            Some(first.then(second))
        }
        DocNode::Choice(a, b) => {
            let side = match choices.get(used)? {
                Dir::Left => a,
                Dir::Right => b,
            };
            lay_out(graph, count, side, place, choices, used.saturating_add(1))
        }
    }
}

// A text of so many columns, laid out.
fn word(count: Count, place: Place, len: u32, used: usize) -> Laid {
    let last = place.column.saturating_add(len);
    Laid {
        last,
        cost: count.text(place.column, len),
        within: last <= count.limit,
        used,
    }
}

/// The lists of at most `most` choices that pick a resolution of the core.
pub fn all_choices(alloc: Global, core: &Core, most: u32) -> Result<Vec<Vec<Dir>>, AllocError> {
    let mut fitting = Vec::new(alloc);
    let mut lists = Vec::new(alloc);
    lists.push(String::new(alloc))?;
    for _length in 0..=most {
        let mut longer = Vec::new(alloc);
        for letters in &lists {
            let list = choices(alloc, letters.as_str())?;
            if fits(alloc, core, list.as_slice())? {
                fitting.push(list)?;
            }
            longer.push(format!(in alloc; "{letters}L")?)?;
            longer.push(format!(in alloc; "{letters}R")?)?;
        }
        lists = longer;
    }
    Ok(fitting)
}
