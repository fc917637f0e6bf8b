//! The document that stands on a stack of pieces, added to a graph.

ghost use Rattle.std.specs.Prelude.{◌≡◌, ◌≤◌, ◌<◌, ◌+◌, Some, length, take, slice_get, IfOk};
ghost use Rattle.rf_base_document.specs.Document.{Doc};
ghost use Rattle.rf_base_document.specs.Graph.{StandsFor};
ghost use Rattle.rf_doc.specs.Nodes.{Extends};
ghost use Rattle.rf_rows.specs.Alone.{StandsAlone};
ghost use Rattle.rf_rows.specs.Rows.{AreMade};
ghost use Rattle.rf_rows.specs.Cells.{pieces_of, cell_at};
ghost use Rattle.rf_rows.specs.Sizes.{cells_size, rows_size};
ghost use Rattle.rf_row_graph.specs.Parts.{SharedStand, AreDone};

use crate::layouts::add_layouts;
use crate::parts::{CellParts, PieceNode, add_piece, add_pieces};
use crate::shared::{Shared, add_shared};
use rf_doc::{Graph, NodeId};
use rf_rows::{Cell, Fill, Piece, Rows};
use std::alloc::{AllocError, Global};

/// The document of the piece that stands alone on the stack, with all the layouts that its cells may have.
///
/// It is added to the graph, whose older nodes stand for what they stood for. The pieces of each cell are added once
/// and shared by its layouts. No cell may be a list that isn't made of pieces. An `AllocError` comes for want of
/// memory, and leaves nodes that nothing names.
pub fn add_rows(alloc: Global, rows: &Rows, graph: &mut Graph) -> Result<NodeId, AllocError>
    requires made { AreMade rows.now }
    requires alone { length rows.now.stack.items ≡ 1 }
    ensures document { IfOk result (λ id. (d : Doc) → StandsAlone rows.now d → StandsFor graph.new id.0 d) }
    ensures in_graph { IfOk result (λ id. id.0 < length graph.new) }
    ensures older { Extends graph.old graph.new }
    ensures grown { length graph.new ≤ length graph.old + (rows_size rows.now + 4) }
{
    let shared = add_shared(graph)?;
    let done = add_cells(alloc, rows, &shared, graph)?;
    let node = add_piece(rows.stack[0], done.as_slice(), &shared, graph)?;
    Ok(node.with(Fill::Newline, &shared))
}

// All cells, each behind those that are among its pieces.
fn add_cells(
    alloc: Global,
    rows: &Rows,
    shared: &Shared,
    graph: &mut Graph,
) -> Result<Vec<NodeId>, AllocError>
    requires made { AreMade rows.now }
    requires shared { SharedStand graph.old shared.now }
    ensures done { IfOk result (λ done.
        AreDone graph.new (cell_at rows.now.pieces.items rows.now.cells.items) done.items) }
    ensures count { IfOk result (λ done. length done.items ≡ length rows.now.cells.items) }
    ensures older { Extends graph.old graph.new }
    ensures grown { length graph.new ≤ length graph.old + cells_size rows.now.cells.items }
{
    let mut done = Vec::new(alloc);
    let mut pieces = Vec::new(alloc);
    let mut nodes = Vec::new(alloc);
    done.reserve(rows.cells.len())?;
    for _k in 0..rows.cells.len() {
        let id = add_cell(
            rows,
            done.as_slice(),
            shared,
            &mut pieces,
            &mut nodes,
            graph,
        )?;
        done.push(id)?;
    }
    Ok(done)
}

// The next cell behind these. It uses `pieces` and `nodes`, whatever they hold.
fn add_cell(
    rows: &Rows,
    done: &[NodeId],
    shared: &Shared,
    pieces: &mut Vec<PieceNode>,
    nodes: &mut Vec<NodeId>,
    graph: &mut Graph,
) -> Result<NodeId, AllocError>
    requires made { AreMade rows.now }
    requires shared { SharedStand graph.old shared.now }
    requires next { length done.now < length rows.now.cells.items }
    requires done { AreDone graph.old (cell_at rows.now.pieces.items rows.now.cells.items) done.now }
    ensures document { IfOk result (λ id.
        StandsFor graph.new id.0 (cell_at rows.now.pieces.items rows.now.cells.items (length done.now))) }
    ensures older { Extends graph.old graph.new }
    ensures grown { length graph.new + cells_size (take (length done.now) rows.now.cells.items)
        ≤ length graph.old + cells_size (take (length done.now + 1) rows.now.cells.items) }
{
    let cell = &rows.cells[done.len()];
    add_pieces(
        pieces_of(rows, done.len(), cell),
        done,
        shared,
        pieces,
        graph,
    )?;
    let parts = CellParts {
        marks: cell.marks,
        pieces: pieces.as_slice(),
        shared: *shared,
    };
    add_layouts(&parts, cell.layouts, nodes, graph)
}

// The pieces of cell `_k`.
fn pieces_of<'r, 't>(rows: &'r Rows<'t>, _k: usize, cell: &Cell) -> &'r [Piece<'t>]
    requires { slice_get rows.now.cells.items _k ≡ Some cell.now }
    ensures { result.now ≡ pieces_of rows.now.pieces.items cell.now }
{
    let from = cell.from as usize;
    &rows.pieces[from..from + cell.count as usize]
}
