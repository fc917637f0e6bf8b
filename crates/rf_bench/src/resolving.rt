//! The documents of `workloads.rt`, resolved by their cores.

ghost use Rattle.std.specs.Prelude.{◌≤◌};

use crate::workloads::{Workload, workload_document};
use rf_cost::Squares;
use rf_counting::Counting;
use rf_doc::Graph;
use rf_documents::resolve_by;
use rf_flat::simplify;
use std::alloc::Global;
use std::test::Fail;

/// Resolves the document of a workload and size at page width 80. It says how often costs were compared, how many nodes
/// the core has, and what the layout costs.
pub fn resolve_one(alloc: Global, workload: Workload, size: u32, limit: u32) -> Result<String, Fail>
    requires some_width { 1 ≤ limit }
    requires width { limit ≤ 400 }
{
    let mut graph = Graph::new(alloc);
    let root = workload_document(alloc, &mut graph, workload, size)?;
    let Some(core) = simplify(alloc, &graph, root)? else {
        return Err(Fail::new("no layout"));
    };
    let factory = Counting::new(Squares { width: 80 });
    let found = resolve_by(alloc, &core, &factory, limit)?;
    let comparisons = factory.comparisons();
    let nodes = core.len();
    let cost = found.cost;
    Ok(format!(in alloc; "{comparisons} {nodes} {cost}")?)
}
