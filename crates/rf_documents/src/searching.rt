//! The search, called with a counter of steps that nobody reads.

ghost use Rattle.std.specs.Prelude.{◌≡◌, ◌<◌, ◌≤◌, ◌^◌, length};
ghost use Rattle.rf_base_document.specs.Document.{Doc};
ghost use Rattle.rf_base_document.specs.Graph.{StandsFor};
ghost use Rattle.rf_base_optimum.specs.MostPieces.{most_pieces};

use crate::pieces::has_few_pieces;
use rf_base_steps::Steps;
use rf_cost::Factory;
use rf_doc::{Graph, NodeId};
use rf_search::{Best, Workspace, search};
use std::alloc::{AllocError, Global};
use std::marker::Brand;
use std::sync::ledger::{Blank, Ledger};
use std::test::Fail;

/// What the search finds of a document by a factory, if it has an answer. A document of too many pieces fails.
pub fn search_by<F: Factory>(
    alloc: Global,
    graph: &Graph,
    root: NodeId,
    factory: &F,
    limit: u32,
) -> Result<Option<Best>, Fail>
    requires root { root.0 < length graph.now }
    requires width { limit ≤ 400 }
{
    if !has_few_pieces(alloc, graph, root)? {
        return Err(Fail::new("too many pieces"));
    }
    let found = counted::<Brand, F>(alloc, graph, root, factory, limit, Blank::new(1))?;
    Ok(found)
}

// The same, counted on a new counter.
fn counted<L: Ledger, F: Factory>(
    alloc: Global,
    graph: &Graph,
    root: NodeId,
    factory: &F,
    limit: u32,
    blank: Blank,
) -> Result<Option<Best>, AllocError>
    requires root { root.0 < length graph.now }
    requires pieces { (d : Doc) → StandsFor graph.now root.0 d → most_pieces d < 2 ^ 32 }
    requires width { limit ≤ 400 }
    requires name { blank.name ≡ L.name }
    requires parts { blank.parts ≡ L.parts }
    requires some_part { 0 < blank.parts }
{
    let mut steps: Steps<L> = Steps::new(blank);
    let mut workspace = Workspace::new(alloc);
    search(
        alloc,
        graph,
        root,
        factory,
        limit,
        &mut workspace,
        &mut steps,
    )
}
