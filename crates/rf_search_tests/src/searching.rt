//! What the search and the resolver answer, as letters.

ghost use Rattle.std.specs.Prelude.{◌<◌, ◌≤◌, length};

use rf_base_document::Dir;
use rf_cost::Factory;
use rf_doc::{Graph, NodeId};
use rf_documents::{letters, resolve_by, search_by};
use rf_flat::simplify;
use std::alloc::{AllocError, Global};
use std::test::Fail;

/// The choices that the search finds, or `none` where it has no answer.
pub fn searched<F: Factory>(
    alloc: Global,
    graph: &Graph,
    root: NodeId,
    factory: &F,
    limit: u32,
) -> Result<String, Fail>
    requires root { root.0 < length graph.now }
    requires width { limit ≤ 400 }
{
    match search_by(alloc, graph, root, factory, limit)? {
        None => Ok(String::from_str(alloc, "none")?),
        Some(best) => Ok(shown(alloc, best.choices.as_slice(), best.within)?),
    }
}

/// The choices of a document by its core, or `none` where it has no layout.
pub fn resolved<F: Factory>(
    alloc: Global,
    graph: &Graph,
    root: NodeId,
    factory: &F,
    limit: u32,
) -> Result<String, Fail>
    requires root { root.0 < length graph.now }
    requires some_width { 1 ≤ limit }
    requires width { limit ≤ 400 }
{
    let Some(core) = simplify(alloc, graph, root)? else {
        return Ok(String::from_str(alloc, "none")?);
    };
    let found = resolve_by(alloc, &core, factory, limit)?;
    Ok(shown(alloc, found.choices.as_slice(), found.within)?)
}

// Choices as the letters L and R, behind a word where none is within the limit.
fn shown(alloc: Global, choices: &[Dir], within: bool) -> Result<String, AllocError> {
    let letters = letters(alloc, choices)?;
    if within {
        return Ok(letters);
    }
    format!(in alloc; "past {letters}")
}
