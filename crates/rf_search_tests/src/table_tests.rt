//! Small documents, each under many factories and limits, against what the resolver says of their cores.

ghost use Rattle.std.specs.Prelude.{◌<◌, ◌≤◌, length};

use crate::searching::{resolved, searched};
use rf_cost::{Factory, Linear, Lines, Squares};
use rf_doc::{Graph, NodeId};
use rf_documents::{SMALL_DOCUMENTS, document};
use std::alloc::Global;
use std::test::Fail;

#[test]
fn documents_are_searched(rt: HostRuntime) -> Result<(), Fail> {
    for row in SMALL_DOCUMENTS.split('\n') {
        check_row(rt.alloc(), row)?;
    }
    Ok(())
}

// Fails where the search doesn't find what the resolver does of the row's document, under some factory and limit.
fn check_row(alloc: Global, row: &str) -> Result<(), Fail> {
    let mut graph = Graph::new(alloc);
    let root = document(alloc, &mut graph, row)?;
    for limit in [1, 4, 8, 20] {
        for width in [0, 3, 6, 10, 80] {
            check(alloc, row, &graph, root, &Squares { width }, limit)?;
            check(alloc, row, &graph, root, &Linear { width }, limit)?;
        }
        check(alloc, row, &graph, root, &Lines, limit)?;
    }
    Ok(())
}

// Fails where the search doesn't find what the resolver does.
fn check<F: Factory>(
    alloc: Global,
    row: &str,
    graph: &Graph,
    root: NodeId,
    factory: &F,
    limit: u32,
) -> Result<(), Fail>
    requires root { root.0 < length graph.now }
    requires some_width { 1 ≤ limit }
    requires width { limit ≤ 400 }
{
    let found = searched(alloc, graph, root, factory, limit)?;
    let wanted = resolved(alloc, graph, root, factory, limit)?;
    if found != wanted {
        let fault = format!(in alloc; "{row} within {limit} gives {found}, not {wanted}")?;
        return Err(Fail::new(fault));
    }
    Ok(())
}
