//! What a fast path of the formatter rests on: a form that fits on one line is written from its tree, without its
//! document. The definitions stand in specs/: what is written of a document on one line, and which layout of a list
//! that is. Each function here has an empty body, and its contract is a law of theirs.
#![tactic(auto)]

ghost use Rattle.rf_base_lines.specs.Laws.{SpelledIsOneLine, SpelledIsOneLineIn, SpelledIsText, SpelledFlat, SpelledIsLaidOut, LaidOutOnce, SequencesAreSpelled, ItemsAreSpelled, GapsAreSpelled, FlatLinesAreSpaces, StepsAreSpelled, SlotsAreSpelled, PrefixedAreSpelled, CommentsBreak, PartsBreak, ListsAreSpelled, ItemsAreFlattenable, GapsAreFlattenable, PrefixedAreFlattenable, ListsAreFlattenable, ListsHaveLengths, TreesHaveLengths, TreesAreDocuments, SlotsHaveLengths, LineIsChosen};

/// What is written of a document on one line has the columns and the choices of the document's first line.
#[tactic(auto, using(crate::proofs::Spelling::spelled_one_line))]
pub fn spelled_is_one_line()
    ensures { SpelledIsOneLine }
{}

/// Where a document has one length on one line, that is the one line of its layouts.
#[tactic(auto, using(crate::proofs::OneLines::spelled_one_line_in))]
pub fn spelled_is_one_line_in()
    ensures { SpelledIsOneLineIn }
{}

/// Without a hard newline and a charge, all the layouts of a document are, flat, as long as what is written of it.
#[tactic(auto, using(crate::proofs::OneLines::spelled_text_is))]
pub fn spelled_is_text()
    ensures { SpelledIsText }
{}

/// What is on one line is so flat.
#[tactic(auto, using(crate::proofs::OneLines::spelled_flat))]
pub fn spelled_flat()
    ensures { SpelledFlat }
{}

/// It is one of the document's layouts, at each place.
#[tactic(auto, using(crate::proofs::Spelling::spelled_laid_out))]
pub fn spelled_is_laid_out()
    ensures { SpelledIsLaidOut }
{}

/// Choices give a document at most one layout at a place.
pub fn laid_out_once()
    ensures { LaidOutOnce }
{}

/// A sequence is its parts in a row, and so are parts and more parts.
pub fn sequences_are_spelled()
    ensures { SequencesAreSpelled }
{}

/// An item is one text of its characters, and is on no line where they hold an LF.
#[tactic(auto, using(crate::proofs::SpelledRows::items_spelled))]
pub fn items_are_spelled()
    ensures { ItemsAreSpelled }
{}

/// A gap is its separator.
#[tactic(auto, using(crate::proofs::SpelledRows::gaps_spelled))]
pub fn gaps_are_spelled()
    ensures { GapsAreSpelled }
{}

/// Flat, a gap is the same whether a line or a space is wanted.
pub fn flat_lines_are_spaces()
    ensures { FlatLinesAreSpaces }
{}

/// Steps and more steps are both in a row, and one step is its gap and its part.
pub fn steps_are_spelled()
    ensures { StepsAreSpelled }
{}

/// A slot is its steps in a row.
#[tactic(auto, using(crate::proofs::SpelledRows::slots_spelled))]
pub fn slots_are_spelled()
    ensures { SlotsAreSpelled }
{}

/// A prefix or a skip without comments is its mark, a gap and its datum.
#[tactic(auto, using(crate::proofs::SpelledRows::prefixed_spelled))]
pub fn prefixed_are_spelled()
    ensures { PrefixedAreSpelled }
{}

/// A slot that begins with a comment and goes on behind it is on no line unless flat.
#[tactic(auto, using(crate::proofs::SpelledSteps::comments_break))]
pub fn comments_break()
    ensures { CommentsBreak }
{}

/// What stands between brackets is on no line unless flat where one of its parts isn't.
#[tactic(auto, using(crate::proofs::SpelledSteps::parts_break))]
pub fn parts_break()
    ensures { PartsBreak }
{}

/// A list without charges is its opener, what stands between its brackets and its closer, by the choices that its shape,
/// the number of its slots and whether they break tell.
#[tactic(auto, using(crate::proofs::SpelledShapes::lists_spelled))]
pub fn lists_are_spelled()
    ensures { ListsAreSpelled }
{}

/// An item that is on one line has no hard newline.
#[tactic(auto, using(crate::proofs::FlatRows::item_flat))]
pub fn items_are_flattenable()
    ensures { ItemsAreFlattenable }
{}

/// A gap that is on one line has no hard newline.
#[tactic(auto, using(crate::proofs::FlatRows::gap_flat))]
pub fn gaps_are_flattenable()
    ensures { GapsAreFlattenable }
{}

/// A prefix or a skip without comments that is on one line has no hard newline and no charge, where its datum has none.
#[tactic(auto, using(crate::proofs::FlatRows::prefixed_flat))]
pub fn prefixed_are_flattenable()
    ensures { PrefixedAreFlattenable }
{}

/// A list without charges that is on one line has no hard newline and no charge, where its parts have none.
#[tactic(auto, using(crate::proofs::FlatShapes::list_flat))]
pub fn lists_are_flattenable()
    ensures { ListsAreFlattenable }
{}

/// The document of a list has one length on one line, where those of its slots have.
#[tactic(auto, using(crate::proofs::LongShapes::list_long))]
pub fn lists_have_lengths()
    ensures { ListsHaveLengths }
{}

/// The document of each tree has one length on one line.
#[tactic(auto, using(crate::proofs::LongTrees::tree_long))]
pub fn trees_have_lengths()
    ensures { TreesHaveLengths }
{}

/// In a style the document of each tree keeps the limits of documents.
#[tactic(auto, using(crate::proofs::LimitTrees::tree_limits))]
pub fn trees_are_documents()
    ensures { TreesAreDocuments }
{}

/// The document of each top-level slot has one length on one line.
#[tactic(auto, using(crate::proofs::LongTrees::style_doc_long))]
pub fn slots_have_lengths()
    ensures { SlotsHaveLengths }
{}

/// What is written of a document on one line is what is chosen of it, where that ends within the columns and costs
/// nothing.
pub fn line_is_chosen<C>()
    ensures { LineIsChosen C }
{}
