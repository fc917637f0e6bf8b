//! Resolutions and their layouts as texts.

ghost use Rattle.std.specs.Prelude.{◌<◌, ◌≤◌, length};

use crate::counting::Count;
use crate::resolving::resolved;
use rf_cost::CostKind;
use rf_doc::{Graph, NodeId};
use rf_documents::{layout_of, letters};
use rf_flat::{Core, simplify};
use rf_resolve::Resolution;
use std::alloc::{AllocError, Global};
use std::test::Fail;

/// The core of a document that has a layout.
pub fn core_of<'g>(alloc: Global, graph: &'g Graph, root: NodeId) -> Result<Core<'g>, Fail>
    requires { root.0 < length graph.now }
{
    match simplify(alloc, graph, root)? {
        Some(core) => Ok(core),
        None => Err(Fail::new("no core")),
    }
}

/// What is chosen of a document by the factory of squares at page width 80, with its layout in brackets, where `/`
/// stands for a line feed.
pub fn at_limit(alloc: Global, graph: &Graph, root: NodeId, limit: u32) -> Result<String, Fail>
    requires root { root.0 < length graph.now }
    requires some_width { 1 ≤ limit }
    requires width { limit ≤ 400 }
{
    let core = core_of(alloc, graph, root)?;
    let count = Count {
        kind: CostKind::Squares,
        page_width: 80,
        limit,
    };
    let found = resolved(alloc, &core, count)?;
    let line = shown(alloc, &found)?;
    let Some(layout) = layout_of(alloc, &core, found.choices.as_slice())? else {
        return Err(Fail::new("the choices don't fit"));
    };
    let layout = in_one_line(alloc, layout.as_str())?;
    Ok(format!(in alloc; "{line} [{layout}]")?)
}

/// The choices, the cost, whether it is within the limit, and the last column.
pub fn shown(alloc: Global, found: &Resolution<u128>) -> Result<String, AllocError> {
    let letters = letters(alloc, found.choices.as_slice())?;
    let cost = found.cost;
    let within = found.within;
    let last = found.last;
    format!(in alloc; "{letters} {cost} {within} {last}")
}

// A text with `/` for each line feed.
fn in_one_line(alloc: Global, text: &str) -> Result<String, AllocError> {
    let mut line = String::new(alloc);
    for c in text.chars() {
        line.push(if c == '\n' { '/' } else { c })?;
    }
    Ok(line)
}
