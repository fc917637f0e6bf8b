//! The documents of `workloads.rt`, searched in their graphs.

ghost use Rattle.std.specs.Prelude.{◌≤◌};

use crate::workloads::{Workload, workload_document};
use rf_cost::Squares;
use rf_doc::Graph;
use rf_documents::search_by;
use std::alloc::Global;
use std::test::Fail;

/// Searches the document of a workload and size at page width 80. It says how many choices are found and how many nodes
/// the graph has, and `none` for the choices where the search has no answer.
pub fn search_one(alloc: Global, workload: Workload, size: u32, limit: u32) -> Result<String, Fail>
    requires { limit ≤ 400 }
{
    let mut graph = Graph::new(alloc);
    let root = workload_document(alloc, &mut graph, workload, size)?;
    let found = search_by(alloc, &graph, root, &Squares { width: 80 }, limit)?;
    let nodes = graph.len();
    match found {
        None => Ok(format!(in alloc; "none {nodes}")?),
        Some(best) => {
            let choices = best.choices.len();
            Ok(format!(in alloc; "{choices} {nodes}")?)
        }
    }
}
