//! Costs and last columns that were worked out by hand.

use crate::showing::{compared, measured, parted};
use rf_cost::{Factory, Linear, Lines, Squares};
use rf_doc::Graph;
use rf_documents::{choices, document};
use rf_flat::{Core, Dir, simplify};
use std::alloc::Global;
use std::test::Fail;

// A row: a document in postfix form, the choices, and its cost at page width 10 by `Squares`, by `Linear` and by
// `Lines`, and its last column. 1,099,511,627,776 is 2^40. `nest` is by two columns, `charge` is 3, and `wide` is two
// characters of four columns.
const ROWS: &str = "a ;; 0 0 0 1
a line + b + ;; 1 1 1 1
a charge bb | ; L ; 3 3 3 1
a charge bb | ; R ; 0 0 0 2
a line charge + b + flat ;; 3 3 3 3
wide line c + align + ;; 1 1 1 5
abcdefghijkl ;; 4398046511104 2199023255552 0 12
abcdefghijkl line abc charge x yyyyyyyy | + + nest + ; L ; 4398046511108 2199023255556 4 6
abcdefghijkl line abc charge x yyyyyyyy | + + nest + ; R ; 14293651161092 5497558138884 4 13
abcdefghijkl line x + align + ;; 14293651161089 5497558138881 1 13
line abcdefghijkl + abcdefghijk line + + ;; 185817465094146 14293651161090 2 0";

#[test]
fn documents_are_measured(rt: HostRuntime) -> Result<(), Fail> {
    for row in ROWS.split('\n') {
        check(rt.alloc(), row)?;
    }
    Ok(())
}

// Fails where the row's document isn't measured as it says.
fn check(alloc: Global, row: &str) -> Result<(), Fail> {
    let (words, letters, wanted) = parted(row)?;
    let answer = answer(alloc, words, letters)?;
    compared(alloc, row, &answer, wanted)
}

// What a row's document is measured as.
fn answer(alloc: Global, words: &str, letters: &str) -> Result<String, Fail> {
    let mut graph = Graph::new(alloc);
    let root = document(alloc, &mut graph, words)?;
    let choices = choices(alloc, letters)?;
    match simplify(alloc, &graph, root)? {
        None => Err(Fail::new("no core")),
        Some(core) => figures(alloc, &core, &choices),
    }
}

// The costs by each factory, and the last column.
fn figures(alloc: Global, core: &Core, choices: &[Dir]) -> Result<String, Fail> {
    let (squares, _) = one(alloc, core, choices, &Squares { width: 10 })?;
    let (linear, _) = one(alloc, core, choices, &Linear { width: 10 })?;
    let (lines, last) = one(alloc, core, choices, &Lines)?;
    Ok(format!(in alloc; " {squares} {linear} {lines} {last}")?)
}

// The cost by one factory, and the last column.
fn one<F: Factory>(
    alloc: Global,
    core: &Core,
    choices: &[Dir],
    factory: &F,
) -> Result<(F::Cost, u32), Fail> {
    match measured(alloc, core, choices, factory)? {
        None => Err(Fail::new("too long")),
        Some(total) => Ok((total.cost, total.last)),
    }
}
