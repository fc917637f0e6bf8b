//! Where the search has no answer, and where it just has one.

ghost use Rattle.std.specs.Prelude.{◌<◌, length};

use crate::searching::searched;
use crate::silent::Silent;
use rf_cost::{Linear, Lines, Squares};
use rf_doc::{Graph, NodeId};
use rf_documents::{document, left_chain, nests, text};
use std::alloc::Global;
use std::test::Fail;

// How many nests stand above a break that is the document's lowest node, and what is found of it: no more than 2,800
// nodes below one another are asked for.
const NESTS: [(u32, &str); 4] = [(1_000, ""), (2_799, ""), (2_800, "none"), (5_000, "none")];

// The same of a chain, in which a break is told at once, however deep it stands.
const CHAINS: [(u32, &str); 4] = [(1_000, ""), (2_800, ""), (2_801, "none"), (5_000, "none")];

#[test]
fn a_break_under_nests(rt: HostRuntime) -> Result<(), Fail> {
    for (above, wanted) in NESTS {
        let mut graph = Graph::new(rt.alloc());
        let line = graph.newline()?;
        let all = nests(&mut graph, line, above)?;
        check(rt.alloc(), &graph, all, wanted)?;
    }
    Ok(())
}

#[test]
fn a_chain_to_the_left(rt: HostRuntime) -> Result<(), Fail> {
    for (above, wanted) in CHAINS {
        let mut graph = Graph::new(rt.alloc());
        let line = graph.newline()?;
        let all = left_chain(&mut graph, line, above)?;
        check(rt.alloc(), &graph, all, wanted)?;
    }
    Ok(())
}

// What is on one line isn't gone through.
#[test]
fn a_text_under_nests(rt: HostRuntime) -> Result<(), Fail> {
    let mut graph = Graph::new(rt.alloc());
    let a = text(&mut graph, "a")?;
    let all = nests(&mut graph, a, 5_000)?;
    check(rt.alloc(), &graph, all, "")
}

// Fails where something else is found at page width 80.
fn check(alloc: Global, graph: &Graph, root: NodeId, wanted: &str) -> Result<(), Fail>
    requires { root.0 < length graph.now }
{
    let found = searched(alloc, graph, root, &Squares { width: 80 }, 80)?;
    if found.as_str() != wanted {
        let nodes = graph.len();
        let fault = format!(in alloc; "{nodes} nodes give {found}, not {wanted}")?;
        return Err(Fail::new(fault));
    }
    Ok(())
}

#[test]
fn a_factory_that_says_nothing_of_texts(rt: HostRuntime) -> Result<(), Fail> {
    let mut graph = Graph::new(rt.alloc());
    let alloc = rt.alloc();
    let root = document(alloc, &mut graph, "a line + same flat swap | b +")?;
    let squares = Squares { width: 80 };
    let linear = Linear { width: 80 };
    let found = searched(alloc, &graph, root, &squares, 80)?;
    assert_eq!(rt; found.as_str(), "L");
    let found = searched(alloc, &graph, root, &Silent { inner: squares }, 80)?;
    assert_eq!(rt; found.as_str(), "none");
    let found = searched(alloc, &graph, root, &Silent { inner: linear }, 80)?;
    assert_eq!(rt; found.as_str(), "none");
    let found = searched(alloc, &graph, root, &Silent { inner: Lines }, 80)?;
    assert_eq!(rt; found.as_str(), "none");
    Ok(())
}
