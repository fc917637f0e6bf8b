//! A resolution against what plain recursion chooses, and against the list of all resolutions.

ghost use Rattle.std.specs.Prelude.{◌<◌, ◌≤◌, length};

use crate::counting::Count;
use crate::listing::{Laid, lay_out};
use crate::reading::{Place, chosen};
use crate::resolving::resolved;
use rf_doc::{Graph, NodeId};
use rf_documents::letters;
use rf_flat::{Core, Dir};
use rf_resolve::Resolution;
use std::alloc::{AllocError, Global};
use std::test::Fail;

/// What is chosen of a document. It fails where plain recursion chooses otherwise.
pub fn check(
    alloc: Global,
    row: &str,
    graph: &Graph,
    root: NodeId,
    core: &Core,
    count: Count,
) -> Result<Resolution<u128>, Fail>
    requires root { root.0 < length graph.now }
    requires some_width { 1 ≤ count.limit }
    requires width { count.limit ≤ 400 }
{
    let found = resolved(alloc, core, count)?;
    let letters = letters(alloc, found.choices.as_slice())?;
    let wanted = chosen(alloc, graph, count, root, Place::START)?;
    let own = lay_out(
        graph,
        count,
        root,
        Place::START,
        found.choices.as_slice(),
        0,
    );
    if letters != wanted.letters || found.last != wanted.last || !is_laid(&found, own) {
        let wants = wanted.letters.as_str();
        return Err(Fail::new(fault(alloc, row, count, letters.as_str(), wants)?));
    }
    Ok(found)
}

/// Fails where a resolution that is listed is better than the one that was found.
pub fn check_best(
    alloc: Global,
    row: &str,
    graph: &Graph,
    root: NodeId,
    count: Count,
    found: &Resolution<u128>,
    all: &Vec<Vec<Dir>>,
) -> Result<(), Fail>
    requires root { root.0 < length graph.now }
{
    if !is_best(graph, root, count, found, all) {
        let letters = letters(alloc, found.choices.as_slice())?;
        return Err(Fail::new(fault(alloc, row, count, letters.as_str(), "a better one")?));
    }
    Ok(())
}

// What to say of a row that is resolved otherwise.
fn fault(
    alloc: Global,
    row: &str,
    count: Count,
    letters: &str,
    wants: &str,
) -> Result<String, AllocError> {
    let kind = count.kind;
    let width = count.page_width;
    let limit = count.limit;
    format!(in alloc; "{row} at {kind:?} {width} {limit} gives {letters}, not {wants}")
}

// Whether a resolution is laid out as it says, with all its choices used up.
fn is_laid(found: &Resolution<u128>, own: Option<Laid>) -> bool {
    match own {
        None => false,
        Some(laid) => {
            laid.cost == found.cost
                && laid.last == found.last
                && laid.within == found.within
                && laid.used == found.choices.len()
        }
    }
}

// Whether none of the resolutions that are within the limit costs less, and there is one exactly where this one is
// within.
fn is_best(
    graph: &Graph,
    root: NodeId,
    count: Count,
    found: &Resolution<u128>,
    all: &Vec<Vec<Dir>>,
) -> bool
    requires root { root.0 < length graph.now }
{
    let mut some_within = false;
    let mut is_listed = false;
    for choices in all {
        if choices.as_slice() == found.choices.as_slice() {
            is_listed = true;
        }
        match lay_out(graph, count, root, Place::START, choices.as_slice(), 0) {
            None => return false,
            Some(own) if own.within => {
                some_within = true;
                if own.cost < found.cost {
                    return false;
                }
            }
            Some(_) => {}
        }
    }
    is_listed && some_within == found.within
}
