//! The rows of a cell.

ghost use Rattle.std.specs.Prelude.{◌≡◌, ◌≤◌, ◌<◌, ◌+◌, ◌-◌, ◌++◌, List, length, map, IfOk, OnOk};
ghost use Rattle.std.specs.List.{slice_range};
ghost use Rattle.rf_base_document.specs.Document.{Doc};
ghost use Rattle.rf_base_document.specs.Graph.{StandsFor, EachStandsFor};
ghost use Rattle.rf_base_document.specs.Sequence.{seq};
ghost use Rattle.rf_doc.specs.Nodes.{numbers, joints, Extends};
ghost use Rattle.rf_rows.specs.declared.pieces.Fill.TheVariants as a_fill;
ghost use Rattle.rf_rows.specs.Layouts.{Filled, inner_docs, row_doc};
ghost use Rattle.rf_rows.specs.Nodes.{StripStands};
ghost use Rattle.rf_row_graph.specs.Parts.{piece_node, inner_nodes, CellStands, IsCell};
ghost use Rattle.rf_row_graph.specs.Sizes.{row_size, inner_size};

use crate::parts::{CellParts, PieceNode};
use crate::shared::Shared;
use rf_doc::{Graph, NodeId};
use rf_rows::{Fill, Inner, Row, Strip};
use std::alloc::AllocError;

/// A row of a cell. It uses `nodes`, whatever it holds. An `AllocError` comes for want of memory.
#[cycle(rows)]
pub fn add_row(
    cell: &CellParts,
    row: Row,
    nodes: &mut Vec<NodeId>,
    graph: &mut Graph,
) -> Result<NodeId, AllocError>
    requires { IsCell graph.old cell.now }
    ensures document { IfOk result (λ id. (docs : Filled) → CellStands graph.old cell.now docs
        → StandsFor graph.new id.0 (row_doc cell.now.marks (length cell.now.pieces.now) docs row)) }
    ensures in_graph { IfOk result (λ id. id.0 < length graph.new) }
    ensures older { Extends graph.old graph.new }
    ensures grown { length graph.new
        ≤ length graph.old + row_size cell.now.marks (length cell.now.pieces.now) row }
{
    let strip = cell.marks.strip(cell.pieces.len(), row);
    let inner = add_inner(cell, strip.inner, nodes, graph)?;
    add_strip(cell, strip, inner, nodes, graph)
}

// The row of a cell that stands as one in another row of it, if there is one.
#[cycle(rows)]
fn add_inner(
    cell: &CellParts,
    inner: Option<Inner>,
    nodes: &mut Vec<NodeId>,
    graph: &mut Graph,
) -> Result<Option<NodeId>, AllocError>
    requires { IsCell graph.old cell.now }
    ensures document { IfOk result (λ id. (docs : Filled) → CellStands graph.old cell.now docs
        → EachStandsFor graph.new (inner_nodes id)
        (inner_docs (row_doc cell.now.marks (length cell.now.pieces.now) docs) inner)) }
    ensures older { Extends graph.old graph.new }
    ensures grown { length graph.new
        ≤ length graph.old + inner_size cell.now.marks (length cell.now.pieces.now) inner }
{
    let Some(other) = inner else {
        return Ok(None);
    };
    match other {
        Inner::Aligned(row) => {
            let id = add_row(cell, row, nodes, graph)?;
            Ok(Some(graph.align(id)?))
        }
        Inner::Nested(row) => {
            let id = add_row(cell, row, nodes, graph)?;
            Ok(Some(graph.nest(1, id)?))
        }
    }
}

// The row that is made of this, where the other row in it, if any, is this node.
fn add_strip(
    cell: &CellParts,
    strip: Strip,
    inner: Option<NodeId>,
    nodes: &mut Vec<NodeId>,
    graph: &mut Graph,
) -> Result<NodeId, AllocError>
    requires strip { StripStands strip (length cell.now.pieces.now) }
    requires cell { (docs : Filled) × CellStands graph.old cell.now docs }
    requires inner { (ds : List Doc) × EachStandsFor graph.old (inner_nodes inner) ds }
    ensures document { IfOk result (λ id. (docs : Filled) (ds : List Doc) → CellStands graph.old cell.now docs
        → EachStandsFor graph.old (inner_nodes inner) ds → StandsFor graph.new id.0
        (seq (slice_range (docs a_fill.Space) strip.head strip.head_end
        ++ (ds ++ slice_range (docs strip.fill) strip.tail strip.tail_end)))) }
    ensures in_graph { IfOk result (λ id. id.0 < length graph.new) }
    ensures older { Extends graph.old graph.new }
    ensures grown { length graph.new ≤ length graph.old
        + joints ((strip.head_end - strip.head) + (length (inner_nodes inner) + (strip.tail_end - strip.tail))) }
{
    nodes.clear();
    let head = &cell.pieces[strip.head..strip.head_end];
    push_nodes(head, Fill::Space, &cell.shared, nodes)?;
    push_inner(inner, nodes)?;
    let tail = &cell.pieces[strip.tail..strip.tail_end];
    push_nodes(tail, strip.fill, &cell.shared, nodes)?;
    graph.seq(nodes.as_slice())
}

// Puts the nodes of these pieces behind the others, with this in their gaps.
fn push_nodes(
    pieces: &[PieceNode],
    fill: Fill,
    shared: &Shared,
    nodes: &mut Vec<NodeId>,
) -> Result<(), AllocError>
    ensures { OnOk result (numbers nodes.new.items
        ≡ numbers nodes.old.items ++ map (piece_node shared.now fill) pieces.now) }
{
    for piece in pieces {
        nodes.push(piece.with(fill, shared))?;
    }
    Ok(())
}

// Puts the node of the other row behind the others, if there is one.
fn push_inner(inner: Option<NodeId>, nodes: &mut Vec<NodeId>) -> Result<(), AllocError>
    ensures { OnOk result (numbers nodes.new.items ≡ numbers nodes.old.items ++ inner_nodes inner) }
{
    match inner {
        None => Ok(()),
        Some(id) => Ok(nodes.push(id)?),
    }
}
