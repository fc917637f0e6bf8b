//! The layouts of a cell.

ghost use Rattle.std.specs.Prelude.{◌≤◌, ◌<◌, ◌+◌, ◌*◌, length, IfOk};
ghost use Rattle.rf_base_document.specs.Document.{Choice};
ghost use Rattle.rf_base_document.specs.Graph.{StandsFor};
ghost use Rattle.rf_base_file.specs.Shapes.{charged};
ghost use Rattle.rf_doc.specs.Nodes.{Extends, StandsOver};
ghost use Rattle.rf_rows.specs.Layouts.{Filled, flattened, layout_doc, cell_doc, AreLayouts};
ghost use Rattle.rf_row_graph.specs.Parts.{CellStands, IsCell};

use crate::parts::CellParts;
use crate::strips::add_row;
use rf_doc::{Graph, NodeId};
use rf_rows::{Layout, Layouts, Row};
use std::alloc::AllocError;

/// A cell with these layouts. It uses `nodes`, whatever it holds. An `AllocError` comes for want of memory.
pub fn add_layouts(
    cell: &CellParts,
    layouts: Layouts,
    nodes: &mut Vec<NodeId>,
    graph: &mut Graph,
) -> Result<NodeId, AllocError>
    requires cell { IsCell graph.old cell.now }
    requires layouts { AreLayouts layouts (length cell.now.pieces.now) }
    ensures document { IfOk result (λ id. (docs : Filled) → CellStands graph.old cell.now docs
        → StandsFor graph.new id.0 (cell_doc cell.now.marks (length cell.now.pieces.now) docs layouts.entry)) }
    ensures in_graph { IfOk result (λ id. id.0 < length graph.new) }
    ensures older { Extends graph.old graph.new }
    ensures grown { length graph.new ≤ length graph.old + (3 * length cell.now.pieces.now + 20) }
{
    match layouts {
        Layouts::Bare => add_row(cell, Row::Dropped, nodes, graph),
        Layouts::One(a) => add_layout(cell, a, nodes, graph),
        Layouts::Two(a, b) => add_two(cell, a, b, nodes, graph),
        Layouts::Three(a, b, c) => {
            let first = add_layout(cell, a, nodes, graph)?;
            let others = add_two(cell, b, c, nodes, graph)?;
            graph.choice(first, others)
        }
        Layouts::Unmade(_) => unreachable!(),
    }
}

// The first of two layouts or the second.
fn add_two(
    cell: &CellParts,
    a: Layout,
    b: Layout,
    nodes: &mut Vec<NodeId>,
    graph: &mut Graph,
) -> Result<NodeId, AllocError>
    requires cell { IsCell graph.old cell.now }
    requires charges { (a.charge ≤ 1000) × (b.charge ≤ 1000) }
    ensures document { IfOk result (λ id. (docs : Filled) → CellStands graph.old cell.now docs
        → StandsFor graph.new id.0 (Choice (layout_doc cell.now.marks (length cell.now.pieces.now) docs a)
        (layout_doc cell.now.marks (length cell.now.pieces.now) docs b))) }
    ensures in_graph { IfOk result (λ id. id.0 < length graph.new) }
    ensures older { Extends graph.old graph.new }
    ensures grown { length graph.new ≤ length graph.old + (2 * length cell.now.pieces.now + 13) }
{
    let first = add_layout(cell, a, nodes, graph)?;
    let second = add_layout(cell, b, nodes, graph)?;
    graph.choice(first, second)
}

// A layout with its charge.
fn add_layout(
    cell: &CellParts,
    layout: Layout,
    nodes: &mut Vec<NodeId>,
    graph: &mut Graph,
) -> Result<NodeId, AllocError>
    requires cell { IsCell graph.old cell.now }
    requires charge { layout.charge ≤ 1000 }
    ensures document { IfOk result (λ id. (docs : Filled) → CellStands graph.old cell.now docs
        → StandsFor graph.new id.0 (layout_doc cell.now.marks (length cell.now.pieces.now) docs layout)) }
    ensures in_graph { IfOk result (λ id. id.0 < length graph.new) }
    ensures older { Extends graph.old graph.new }
    ensures grown { length graph.new ≤ length graph.old + (length cell.now.pieces.now + 6) }
{
    let row = add_row(cell, layout.row, nodes, graph)?;
    let aligned = graph.align(row)?;
    let unpaid = flat(layout.flat, aligned, graph)?;
    charge(layout.charge, unpaid, graph)
}

// The document with each of its newlines flat, where that is wanted.
fn flat(wanted: bool, part: NodeId, graph: &mut Graph) -> Result<NodeId, AllocError>
    requires { part.0 < length graph.old }
    ensures document { IfOk result (λ id. StandsOver graph.old part.0 (flattened wanted) graph.new id.0) }
    ensures in_graph { IfOk result (λ id. id.0 < length graph.new) }
    ensures older { Extends graph.old graph.new }
    ensures grown { length graph.new ≤ length graph.old + 1 }
{
    if wanted {
        graph.flatten(part)
    } else {
        Ok(part)
    }
}

// The document with this charge, if it isn't 0.
fn charge(charge: u32, part: NodeId, graph: &mut Graph) -> Result<NodeId, AllocError>
    requires charge { charge ≤ 1000 }
    requires part { part.0 < length graph.old }
    ensures document { IfOk result (λ id. StandsOver graph.old part.0 (charged charge) graph.new id.0) }
    ensures in_graph { IfOk result (λ id. id.0 < length graph.new) }
    ensures older { Extends graph.old graph.new }
    ensures grown { length graph.new ≤ length graph.old + 1 }
{
    if charge == 0 {
        Ok(part)
    } else {
        graph.charge(charge, part)
    }
}
