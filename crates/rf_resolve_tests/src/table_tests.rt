//! Small documents, each under many factories and limits, against what plain recursion chooses.

ghost use Rattle.std.specs.Prelude.{◌<◌, ◌≤◌, length};

use crate::comparing::{check, check_best};
use crate::counting::Count;
use crate::generating::words;
use crate::listing::all_choices;
use crate::reading::has_layout;
use rf_cost::CostKind;
use rf_doc::Graph;
use rf_documents::{Dice, SMALL_DOCUMENTS, document};
use rf_flat::simplify;
use std::alloc::Global;
use std::test::Fail;

#[test]
fn documents_are_resolved(rt: HostRuntime) -> Result<(), Fail> {
    for row in SMALL_DOCUMENTS.split('\n') {
        check_row(rt.alloc(), row)?;
    }
    Ok(())
}

// Fails where the row's document isn't resolved as plain recursion says, under some factory and limit.
fn check_row(alloc: Global, row: &str) -> Result<(), Fail> {
    let mut graph = Graph::new(alloc);
    let root = document(alloc, &mut graph, row)?;
    let Some(core) = simplify(alloc, &graph, root)? else {
        return Err(Fail::new(format!(in alloc; "{row} has no core")?));
    };
    let all = all_choices(alloc, &core, 6)?;
    for limit in [1, 3, 5, 8, 12, 80, 400] {
        for page_width in [0, 4, 10] {
            for kind in [CostKind::Squares, CostKind::Linear, CostKind::Lines] {
                let count = Count {
                    kind,
                    page_width,
                    limit,
                };
                let found = check(alloc, row, &graph, root, &core, count)?;
                check_best(alloc, row, &graph, root, count, &found, &all)?;
            }
        }
    }
    Ok(())
}

#[test]
fn generated_documents_are_resolved(rt: HostRuntime) -> Result<(), Fail> {
    let mut dice = Dice::new(1);
    for length in 8..308u32 {
        let row = words(rt.alloc(), &mut dice, 8 + length % 12)?;
        for kind in [CostKind::Squares, CostKind::Linear, CostKind::Lines] {
            let count = Count {
                kind,
                page_width: dice.roll(12),
                limit: 1 + dice.roll(20),
            };
            check_generated(rt.alloc(), row.as_str(), count)?;
        }
    }
    Ok(())
}

// Fails where a document isn't resolved as plain recursion says, or has no core and a layout.
fn check_generated(alloc: Global, row: &str, count: Count) -> Result<(), Fail>
    requires some_width { 1 ≤ count.limit }
    requires width { count.limit ≤ 400 }
{
    let mut graph = Graph::new(alloc);
    let root = document(alloc, &mut graph, row)?;
    match simplify(alloc, &graph, root)? {
        Some(core) => {
            let _found = check(alloc, row, &graph, root, &core, count)?;
        }
        None => {
            if has_layout(&graph, root, false) {
                return Err(Fail::new(format!(in alloc; "{row} has no core")?));
            }
        }
    }
    Ok(())
}
