//! Documents of many nodes below one another.

ghost use Rattle.std.specs.Prelude.{◌<◌, length, IfOk};

use rf_doc::{Graph, NodeId};
use std::alloc::AllocError;

/// The node under this many nests of no column.
pub fn nests(graph: &mut Graph, inner: NodeId, count: u32) -> Result<NodeId, AllocError>
    requires { inner.0 < length graph.old }
    ensures { IfOk result (λ id. id.0 < length graph.new) }
{
    let mut all = inner;
    for _i in 0..count {
        all = graph.nest(0, all)?;
    }
    Ok(all)
}

/// This many concatenations, each with the one before as its first part.
pub fn left_chain(graph: &mut Graph, part: NodeId, count: u32) -> Result<NodeId, AllocError>
    requires { part.0 < length graph.old }
    ensures { IfOk result (λ id. id.0 < length graph.new) }
{
    let mut all = part;
    for _i in 0..count {
        all = graph.concat(all, part)?;
    }
    Ok(all)
}

/// This many concatenations, each with the part before the one before, and the end in the innermost.
pub fn right_chain(
    graph: &mut Graph,
    part: NodeId,
    end: NodeId,
    count: u32,
) -> Result<NodeId, AllocError>
    requires part { part.0 < length graph.old }
    requires end { end.0 < length graph.old }
    ensures { IfOk result (λ id. id.0 < length graph.new) }
{
    let mut all = end;
    for _i in 0..count {
        all = graph.concat(part, all)?;
    }
    Ok(all)
}

/// The node beside itself, over and over.
pub fn doubled(graph: &mut Graph, part: NodeId, count: u32) -> Result<NodeId, AllocError>
    requires { part.0 < length graph.old }
    ensures { IfOk result (λ id. id.0 < length graph.new) }
{
    let mut all = part;
    for _i in 0..count {
        all = graph.concat(all, all)?;
    }
    Ok(all)
}
