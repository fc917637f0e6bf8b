//! What layouts keep. Each function here has an empty body, and its contract is a law of the definitions in `specs/`.
//! A function's line `tactic` names the lemma.

ghost use Rattle.rf_base_file.specs.Laws.{LayoutsKeepSignatures, FilesHaveLayouts, SlotsHaveLayouts, OneLayout, OneFormatted, FormattedOrTooLong, FilesHaveStrands, FilesAreWoven, FilesReadBack, FilesHaveNoTrailingSpace, SameItemsSameTrees, DocumentsOfItems, ReadBackTheSame, FilesAreParagraphs, SlotsAreDocuments, SourcesHaveFewPieces, ByFormsIsBest, ChosenIsByForms};

/// A layout is drawn of the strands that its document has.
pub fn layouts_keep_signatures()
    ensures { LayoutsKeepSignatures }
{}

/// Each source's document has a resolution with a layout.
#[tactic(auto, using(crate::proofs::Layouts::file_has_layout))]
pub fn files_have_layouts()
    ensures { FilesHaveLayouts }
{}

/// The document of each top-level slot has a resolution with a layout.
#[tactic(auto, using(crate::proofs::Layouts::slot_has_layout))]
pub fn slots_have_layouts()
    ensures { SlotsHaveLayouts }
{}

/// A document is laid out in one way.
pub fn one_layout<C>()
    ensures { OneLayout C }
{}

/// A source has one layout: its choices, its text and its cost are the only ones.
pub fn one_formatted<C>()
    ensures { OneFormatted C }
{}

/// No source is both formatted and too long.
pub fn formatted_or_too_long<C>()
    ensures { FormattedOrTooLong C }
{}

/// A source's document has the strands of the source's items.
pub fn files_have_strands()
    ensures { FilesHaveStrands }
{}

/// The layout of each resolution of a source's document is woven of the source's items.
pub fn files_are_woven()
    ensures { FilesAreWoven }
{}

/// The layout of each resolution of a source's document has the source's items and tree.
pub fn files_read_back()
    ensures { FilesReadBack }
{}

/// The layout of each resolution of a source's document has no trailing space but in its items.
pub fn files_have_no_trailing_space()
    ensures { FilesHaveNoTrailingSpace }
{}

/// The same items have the same trees.
pub fn same_items_same_trees()
    ensures { SameItemsSameTrees }
{}

/// Items that differ only in where they stand have the same document.
#[tactic(auto, using(crate::proofs::SameDocuments::documents_same))]
pub fn documents_of_items()
    ensures { DocumentsOfItems }
{}

/// A layout of a source, read as a source, has the source's document.
#[tactic(auto, using(crate::proofs::SameDocuments::back_same))]
pub fn read_back_the_same()
    ensures { ReadBackTheSame }
{}

/// A source's document is that of its top-level slots, one below the other.
pub fn files_are_paragraphs()
    ensures { FilesAreParagraphs }
{}

/// In a style each top-level slot's document keeps the limits of documents.
pub fn slots_are_documents()
    ensures { SlotsAreDocuments }
{}

/// No resolution of the document of a source has many pieces.
pub fn sources_have_few_pieces()
    ensures { SourcesHaveFewPieces }
{}

/// What is chosen of each top-level slot by itself is best for the source's document.
pub fn by_forms_is_best<C>()
    ensures { ByFormsIsBest C }
{}

/// Where addition reflects the order of costs, what is chosen of a source's document is what is chosen of each
/// top-level slot by itself.
#[tactic(auto, using(crate::proofs::FormByForm::chosen_by_forms))]
pub fn chosen_is_by_forms<C>()
    ensures { ChosenIsByForms C }
{}
