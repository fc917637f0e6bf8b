//! A document of a million nodes: made, simplified, laid out.

ghost use Rattle.std.specs.Prelude.{◌<◌, length, IfOk};

use rf_doc::{Graph, NodeId};
use rf_documents::layout_of;
use rf_flat::simplify;
use std::alloc::{AllocError, Global};
use std::test::Fail;

// The rows of the document, of five nodes each.
const ROWS: u32 = 200_000;

/// The document, made: the number of its nodes.
pub fn build(alloc: Global) -> Result<usize, AllocError> {
    let mut graph = Graph::new(alloc);
    let _root = rows(&mut graph)?;
    Ok(graph.len())
}

/// The document, made and simplified: the number of the core's nodes.
pub fn simplify_one(alloc: Global) -> Result<usize, AllocError> {
    let mut graph = Graph::new(alloc);
    let root = rows(&mut graph)?;
    match simplify(alloc, &graph, root)? {
        None => Ok(0),
        Some(core) => Ok(core.len()),
    }
}

/// The document, made, simplified and laid out: the number of the layout's bytes.
pub fn lay_out(alloc: Global) -> Result<usize, Fail> {
    let mut graph = Graph::new(alloc);
    let root = rows(&mut graph)?;
    let Some(core) = simplify(alloc, &graph, root)? else {
        return Err(Fail::new("no core"));
    };
    match layout_of(alloc, &core, &[])? {
        None => Err(Fail::new("the choices don't fit")),
        Some(text) => Ok(text.len()),
    }
}

// A word and a newline, nested by two, row after row.
fn rows(graph: &mut Graph) -> Result<NodeId, AllocError>
    ensures { IfOk result (λ id. id.0 < length graph.new) }
{
    let mut all = graph.text("")?;
    for _i in 0..ROWS {
        let word = graph.text("word")?;
        let line = graph.newline()?;
        let both = graph.concat(word, line)?;
        let nested = graph.nest(2, both)?;
        all = graph.concat(all, nested)?;
    }
    Ok(all)
}
