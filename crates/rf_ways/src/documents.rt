//! The documents of what stands at nodes, as definitions. Each function has an empty body, and its contract is a law.

ghost use Rattle.rf_ways.specs.NodeLaws.{NodeHasOneDocument, NodeDocumentsHaveLengths, NodeDocumentsAreDocuments};

/// The document of what stands at a node is that of the tree that the node is, unfolded.
#[tactic(auto, using(crate::proofs::NodeTrees::node_document))]
pub fn node_has_one_document()
    ensures { NodeHasOneDocument }
{}

/// It has one length on one line.
#[tactic(auto, using(crate::proofs::NodeTrees::node_long))]
pub fn node_documents_have_lengths()
    ensures { NodeDocumentsHaveLengths }
{}

/// In a style it keeps the limits of documents.
#[tactic(auto, using(crate::proofs::NodeTrees::node_limits))]
pub fn node_documents_are_documents()
    ensures { NodeDocumentsAreDocuments }
{}
