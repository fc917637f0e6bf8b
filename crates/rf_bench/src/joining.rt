//! Documents joined to one another.

ghost use Rattle.std.specs.Prelude.{◌<◌, length, IfOk};

use rf_doc::{Graph, NodeId};
use rf_documents::{checked, text};
use std::test::Fail;

/// The first part and then the second.
pub fn both(graph: &mut Graph, a: NodeId, b: NodeId) -> Result<NodeId, Fail>
    ensures { IfOk result (λ id. id.0 < length graph.new) }
{
    let a = checked(graph, a)?;
    let b = checked(graph, b)?;
    Ok(graph.concat(a, b)?)
}

/// Either part.
pub fn either(graph: &mut Graph, a: NodeId, b: NodeId) -> Result<NodeId, Fail>
    ensures { IfOk result (λ id. id.0 < length graph.new) }
{
    let a = checked(graph, a)?;
    let b = checked(graph, b)?;
    Ok(graph.choice(a, b)?)
}

/// The part with the column that it begins at as its indentation.
pub fn aligned(graph: &mut Graph, a: NodeId) -> Result<NodeId, Fail>
    ensures { IfOk result (λ id. id.0 < length graph.new) }
{
    let a = checked(graph, a)?;
    Ok(graph.align(a)?)
}

/// The part on one line.
pub fn flattened(graph: &mut Graph, a: NodeId) -> Result<NodeId, Fail>
    ensures { IfOk result (λ id. id.0 < length graph.new) }
{
    let a = checked(graph, a)?;
    Ok(graph.flatten(a)?)
}

/// The parts one after another, with the separator between them; nothing where there is none.
pub fn joined(graph: &mut Graph, parts: &[NodeId], separator: NodeId) -> Result<NodeId, Fail>
    ensures { IfOk result (λ id. id.0 < length graph.new) }
{
    let Some((first, rest)) = parts.split_first() else {
        return text(graph, "");
    };
    let mut all = *first;
    for part in rest {
        let next = both(graph, separator, *part)?;
        all = both(graph, all, next)?;
    }
    checked(graph, all)
}

/// The part between two texts.
pub fn between(graph: &mut Graph, before: &str, inner: NodeId, after: &str) -> Result<NodeId, Fail>
    ensures { IfOk result (λ id. id.0 < length graph.new) }
{
    let open = text(graph, before)?;
    let close = text(graph, after)?;
    let start = both(graph, open, inner)?;
    both(graph, start, close)
}
