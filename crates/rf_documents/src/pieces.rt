//! How many pieces the resolutions of a document have, which the search has a condition on.

ghost use Rattle.std.specs.Prelude.{◌≡◌, ◌<◌, ◌≤◌, ◌^◌, length, IfOk, IfSome, IsTrue};
ghost use Rattle.rf_base_document.specs.Document.{Doc};
ghost use Rattle.rf_base_document.specs.Graph.{StandsFor, unfolded};
ghost use Rattle.rf_base_optimum.specs.MostPieces.{most_pieces};
ghost use Rattle.rf_documents.specs.Pieces.{AreCounted};

use rf_doc::{DocNode, Graph, NodeId};
use std::alloc::{AllocError, Global};

/// Whether each resolution of the document is known to have fewer than 2^32 texts, newlines and charges. Each node is
/// counted once, however often the document has it.
pub fn has_few_pieces(alloc: Global, graph: &Graph, root: NodeId) -> Result<bool, AllocError>
    requires { root.0 < length graph.now }
    ensures { IfOk result (λ few. IsTrue few → (d : Doc) → StandsFor graph.now root.0 d → most_pieces d < 2 ^ 32) }
{
    // So the graph is known to be one.
    prove!(root.0 < graph.len());
    match count_pieces(alloc, graph, root)? {
        None => Ok(false),
        Some(most) => Ok(most < u32::MAX),
    }
}

// How many texts, newlines and charges a resolution of the document has at most, where that is a u32.
fn count_pieces(alloc: Global, graph: &Graph, root: NodeId) -> Result<Option<u32>, AllocError>
    requires { root.0 < length graph.now }
    ensures { IfOk result (λ answer. IfSome answer (λ most. most_pieces (unfolded graph.now root.0) ≤ most)) }
{
    let mut counts = Vec::new(alloc);
    while counts.len() <= root.0 {
        let next = NodeId(counts.len());
        match pieces_of(graph, next, counts.as_slice()) {
            None => return Ok(None),
            Some(most) => counts.push(most)?,
        }
    }
    Ok(Some(counts[root.0]))
}

// The same of a node, by the counts of all before it.
fn pieces_of(graph: &Graph, node: NodeId, counts: &[u32]) -> Option<u32>
    requires node { node.0 < length graph.now }
    requires before { length counts.now ≡ node.0 }
    requires counted { AreCounted graph.now counts.now }
    ensures { IfSome result (λ most. most_pieces (unfolded graph.now node.0) ≤ most) }
{
    match graph.node(node) {
        DocNode::Text(_, _) => Some(1),
        DocNode::Newline => Some(1),
        DocNode::Hard => Some(1),
        DocNode::Concat(a, b) => {
            let both = counts[a.0].checked_add(counts[b.0])?;
            Some(both)
        }
        DocNode::Nest(_, a) => Some(counts[a.0]),
        DocNode::Align(a) => Some(counts[a.0]),
        DocNode::Reset(a) => Some(counts[a.0]),
        DocNode::Flatten(a) => Some(counts[a.0]),
        DocNode::Choice(a, b) => Some(counts[a.0].max(counts[b.0])),
        DocNode::Charge(_, a) => {
            let more = counts[a.0].checked_add(1)?;
            Some(more)
        }
    }
}
