//! The pieces of a cell as nodes, each made once.

ghost use Rattle.std.specs.Prelude.{◌≡◌, ◌≤◌, ◌<◌, ◌+◌, ℕ, length, IfOk, OnOk};
ghost use Rattle.std.specs.List.{All};
ghost use Rattle.rf_base_document.specs.Document.{Doc};
ghost use Rattle.rf_base_document.specs.Graph.{StandsFor};
ghost use Rattle.rf_doc.specs.Nodes.{Extends};
ghost use Rattle.rf_rows.specs.declared.pieces.Fill.{Fill as a_fill};
ghost use Rattle.rf_rows.specs.Cells.{piece_doc, filled_by, IsBelow};
ghost use Rattle.rf_row_graph.specs.Parts.{piece_node, SharedStand, PartsStand, AreDone};

use crate::shared::Shared;
use rf_doc::{Graph, NodeId};
use rf_rows::{Fill, Marks, Piece};
use std::alloc::AllocError;

/// A piece as a node.
#[derive(Clone, Copy, Debug)]
pub enum PieceNode {
    /// Of a piece that is the same in each layout.
    Node(NodeId),
    /// Of a gap, which each layout fills by itself.
    Gap,
}

/// The pieces of a cell as nodes, and where its slots stand among them.
#[derive(Clone, Copy, Debug)]
pub struct CellParts<'p> {
    /// Where the slots stand.
    pub marks: Marks,
    /// The pieces.
    pub pieces: &'p [PieceNode],
    /// What stands in gaps.
    pub shared: Shared,
}

impl PieceNode {
    /// The node of the piece with this in its gap.
    pub fn with(self, fill: Fill, shared: &Shared) -> NodeId
        ensures { result.0 ≡ piece_node shared.now fill self }
    {
        match self {
            PieceNode::Node(id) => id,
            PieceNode::Gap => shared.fill(fill),
        }
    }
}

/// The node of a piece, where the nodes of all cells before are given. An `AllocError` comes for want of memory.
pub fn add_piece(
    piece: Piece,
    done: &[NodeId],
    shared: &Shared,
    graph: &mut Graph,
) -> Result<PieceNode, AllocError>
    requires below { IsBelow (length done.now) piece }
    requires shared { SharedStand graph.old shared.now }
    ensures document { IfOk result (λ node. (f : ℕ → Doc) (fill : a_fill) → AreDone graph.old f done.now
        → StandsFor graph.new (piece_node shared.now fill node) (piece_doc f fill piece.entry)) }
    ensures older { Extends graph.old graph.new }
    ensures grown { length graph.new ≤ length graph.old + 1 }
{
    match piece {
        Piece::Text(len, s) => Ok(PieceNode::Node(graph.sized(s, len)?)),
        Piece::Space => Ok(PieceNode::Node(shared.space)),
        Piece::Newline => Ok(PieceNode::Node(shared.newline)),
        Piece::Hard => Ok(PieceNode::Node(shared.hard)),
        Piece::BareBreak => Ok(PieceNode::Node(shared.bare_break)),
        Piece::Gap => Ok(PieceNode::Gap),
        Piece::Cell(k) => Ok(PieceNode::Node(done[k as usize])),
    }
}

/// Puts the nodes of these pieces into `nodes`, in place of what it holds. An `AllocError` comes for want of memory.
pub fn add_pieces(
    pieces: &[Piece],
    done: &[NodeId],
    shared: &Shared,
    nodes: &mut Vec<PieceNode>,
    graph: &mut Graph,
) -> Result<(), AllocError>
    requires below { All (IsBelow (length done.now)) pieces.now }
    requires shared { SharedStand graph.old shared.now }
    ensures documents { OnOk result ((f : ℕ → Doc) → AreDone graph.old f done.now
        → PartsStand graph.new shared.now nodes.new.items (filled_by f pieces.now)) }
    ensures count { OnOk result (length nodes.new.items ≡ length pieces.now) }
    ensures older { Extends graph.old graph.new }
    ensures grown { length graph.new ≤ length graph.old + length pieces.now }
{
    nodes.clear();
    for piece in pieces {
        let node = add_piece(*piece, done, shared, graph)?;
        nodes.push(node)?;
    }
    Ok(())
}
