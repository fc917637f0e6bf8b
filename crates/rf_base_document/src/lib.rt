//! What documents, their layouts and their graphs mean. The definitions stand in specs/; each function here has an
//! empty body, and its contract is a law of theirs. A line `tactic` names the lemma where the search needs it.
#![tactic(auto)]

mod directions;
mod limits;

ghost use Rattle.rf_base_document.specs.Laws.{CoreKeepsLayouts, CoreWhereLayout, CoreIsCore, LeavesAreMarks, PicksOne, LayoutKnowsNoPlace, LayoutKeepsWidth, SequenceJoinsHalves, StandsForOne, StandsForSome, StandsForUnfolded, StandsForDocuments, StandsForAfterMore, LayoutRunsOn, LayoutHasPieces, ResolutionIsDocument};

pub use directions::Dir;
pub use limits::LAYOUT_LIMIT;

/// Whether a document has a layout depends on the document and on `flat` alone.
#[tactic(auto, using(crate::proofs::Render::render_anywhere))]
pub fn layout_knows_no_place()
    ensures { LayoutKnowsNoPlace }
{}

/// No column of a layout is further right than its place by more than the document's width.
pub fn layout_keeps_width()
    ensures { LayoutKeepsWidth }
{}

/// A sequence of two or more parts is the concatenation of its halves' sequences.
#[tactic(auto, using(crate::proofs::Sequence::seq_joins_halves))]
pub fn sequence_joins_halves()
    ensures { SequenceJoinsHalves }
{}

/// A node of a graph stands for at most one document.
#[tactic(auto, using(crate::proofs::Graph::stands))]
pub fn stands_for_one()
    ensures { StandsForOne }
{}

/// Each node of a graph whose parts come first stands for a document within the limits.
pub fn stands_for_some()
    ensures { StandsForSome }
{}

/// The tree that a node of a graph stands for can be computed, by unfolding the node.
#[tactic(auto, using(crate::proofs::Graph::stands))]
pub fn stands_for_unfolded()
    ensures { StandsForUnfolded }
{}

/// What a node of a graph stands for keeps the limits of documents.
#[tactic(auto, using(crate::proofs::Graph::stands))]
pub fn stands_for_documents()
    ensures { StandsForDocuments }
{}

/// A node stands for what it stood for after more nodes are added at the end.
#[tactic(auto, using(crate::proofs::Graph::stands))]
pub fn stands_for_after_more()
    ensures { StandsForAfterMore }
{}

/// A document and its core have the same lists of choices with a layout, and by each the same layout.
pub fn core_keeps_layouts()
    ensures { CoreKeepsLayouts }
{}

/// A document has no core exactly where no resolution of it has a layout.
pub fn core_where_layout()
    ensures { CoreWhereLayout }
{}

/// A core has no `Flatten` and no `Hard`.
#[tactic(auto, using(crate::proofs::Simple::is_core))]
pub fn core_is_core()
    ensures { CoreIsCore }
{}

/// A resolution has as many texts and newlines as its layout has words and breaks.
#[tactic(auto, using(crate::proofs::Marks::leaves_marks))]
pub fn leaves_are_marks()
    ensures { LeavesAreMarks }
{}

/// Choices pick at most one resolution of a document.
#[tactic(auto, using(crate::proofs::Picked::picks_one))]
pub fn picks_one()
    ensures { PicksOne }
{}

/// The words of a layout run on from its column, and its pieces end at its last column.
pub fn layout_runs_on()
    ensures { LayoutRunsOn }
{}

/// A layout has a piece for each text, newline and charge of its resolution, of which there is one at least.
pub fn layout_has_pieces()
    ensures { LayoutHasPieces }
{}

/// A resolution of a document keeps the limits of documents.
#[tactic(auto, using(crate::proofs::Running::picks_document))]
pub fn resolution_is_document()
    ensures { ResolutionIsDocument }
{}
