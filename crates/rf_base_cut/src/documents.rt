//! What stands behind a measure of a document, flat or not: that of its core, said without the core. Each function has
//! an empty body, and its contract is a law.

ghost use Rattle.rf_base_cut.specs.DocumentLaws.{AfterInText, AfterInNewline, AfterInHard, AfterInNest, AfterInAlign, AfterInReset, AfterInFlatten, AfterInOnly, AfterInCharge, AfterInChoice, AfterInConcat, IndifferentInMayCut, AfterInIsFrontier, AfterInHasRoom, AfterInAgain, AfterInRow, AfterInSequence, AfterInFew, HalvesShareOut, SequenceFromParts, NoneWithin, FirstInIsChosen, OneAtWidth, LineOfCore, NoLineNeverFree, AfterInLine, AfterInFlat, LineOfSequence, LongSequence, LineIsLaidOut, LongIsLong, FlatWhereLong, AfterInAnyIndentation, AfterInOneLine, AfterInOneText};

/// A text stands behind a measure, flat or not, where it ends within the width.
#[tactic(auto, using(crate::proofs::DocumentSteps::after_text))]
pub fn after_in_text<C>()
    ensures { AfterInText C }
{}

/// A newline stands behind a measure as a break, and where flat as one space.
pub fn after_in_newline<C>()
    ensures { AfterInNewline C }
{}

/// A hard newline stands behind a measure as a break, and nowhere where flat.
pub fn after_in_hard<C>()
    ensures { AfterInHard C }
{}

/// What is nested stands behind a measure with more indentation.
#[tactic(auto, using(crate::proofs::DocumentSteps::after_nest))]
pub fn after_in_nest<C>()
    ensures { AfterInNest C }
{}

/// What is aligned stands behind a measure with its last column as indentation.
#[tactic(auto, using(crate::proofs::DocumentSteps::after_align))]
pub fn after_in_align<C>()
    ensures { AfterInAlign C }
{}

/// What is reset stands behind a measure without indentation.
#[tactic(auto, using(crate::proofs::DocumentSteps::after_reset))]
pub fn after_in_reset<C>()
    ensures { AfterInReset C }
{}

/// What is flattened stands behind a measure flat.
#[tactic(auto, using(crate::proofs::DocumentSteps::after_flatten))]
pub fn after_in_flatten<C>()
    ensures { AfterInFlatten C }
{}

/// The side that is left of a choice stands behind the measure that has its direction too.
#[tactic(auto, using(crate::proofs::DocumentSteps::after_only))]
pub fn after_in_only<C>()
    ensures { AfterInOnly C }
{}

/// What is charged stands behind the measure that has the charge too.
#[tactic(auto, using(crate::proofs::DocumentSteps::after_charge))]
pub fn after_in_charge<C>()
    ensures { AfterInCharge C }
{}

/// Each side of a choice stands behind the measure that has its direction too, and what is worth keeping of both stays.
#[tactic(auto, using(crate::proofs::DocumentSteps::after_choice))]
pub fn after_in_choice<C>()
    ensures { AfterInChoice C }
{}

/// The second part of a concatenation stands behind each measure of the first, whose frontier may be cut.
pub fn after_in_concat<C>()
    ensures { AfterInConcat C }
{}

/// It may be cut where the second part is indifferent.
#[tactic(auto, using(crate::proofs::DocumentCuts::indifferent_in_may_cut))]
pub fn indifferent_in_may_cut()
    ensures { IndifferentInMayCut }
{}

/// What stands behind a measure is a frontier of values, of which none ends past the width.
pub fn after_in_is_frontier<C>()
    ensures { AfterInIsFrontier C }
{}

/// Behind what stands behind a measure there is room for what there was room for behind the document.
#[tactic(auto, using(crate::proofs::DocumentSteps::after_room))]
pub fn after_in_has_room<C>()
    ensures { AfterInHasRoom C }
{}

/// What stands behind a measure, cut no further right, can be cut further.
#[tactic(auto, using(crate::proofs::DocumentSteps::after_again))]
pub fn after_in_again<C>()
    ensures { AfterInAgain C }
{}

/// What stands behind a measure can be had from what stands behind nothing at its last column.
#[tactic(auto, using(crate::proofs::DocumentSteps::after_row))]
pub fn after_in_row<C>()
    ensures { AfterInRow C }
{}

/// The second half of a sequence stands behind each measure of the first, whose frontier may be cut.
pub fn after_in_sequence<C>()
    ensures { AfterInSequence C }
{}

/// A sequence of one part stands behind a measure as the part does, and one of none as a text of nothing.
pub fn after_in_few<C>()
    ensures { AfterInFew C }
{}

/// Both halves of a sequence keep the limits of documents where it does, and have its pieces between them.
#[tactic(auto, using(crate::proofs::Halves::halves_share_out))]
pub fn halves_share_out()
    ensures { HalvesShareOut }
{}

/// A sequence begins with a break where its first part does, and its length is its parts' lengths added.
pub fn sequence_from_parts()
    ensures { SequenceFromParts }
{}

/// Behind nothing a document has no measure exactly where no resolution of it is within the width.
#[tactic(auto, using(crate::proofs::Roots::none_within))]
pub fn none_within<C>()
    ensures { NoneWithin C }
{}

/// The first measure behind nothing is what is chosen of the core, and costs what the layout costs.
pub fn first_in_is_chosen<C>()
    ensures { FirstInIsChosen C }
{}

/// Cut at the width, at most one measure stands behind a measure.
#[tactic(auto, using(crate::proofs::Roots::one_at_width))]
pub fn one_at_width<C>()
    ensures { OneAtWidth C }
{}

/// Where each layout on one line is as long, a document's first line is one of its core.
#[tactic(auto, using(crate::proofs::DocumentLines::line_of_core))]
pub fn line_of_core()
    ensures { LineOfCore }
{}

/// Where it has no line, each resolution of its core has a break or a charge.
#[tactic(auto, using(crate::proofs::DocumentLines::no_line_never_free))]
pub fn no_line_never_free()
    ensures { NoLineNeverFree }
{}

/// Where a document's first line costs nothing and ends by the column of the cut, it is all that stands there.
pub fn after_in_line<C>()
    ensures { AfterInLine C }
{}

/// A document without breaks and charges whose layouts are equally long stands behind a measure as one text.
#[tactic(auto, using(crate::proofs::DocumentLines::after_flat))]
pub fn after_in_flat<C>()
    ensures { AfterInFlat C }
{}

/// The first line of a sequence is its parts' first lines in a row.
pub fn line_of_sequence()
    ensures { LineOfSequence }
{}

/// Where parts share the columns out, each layout of their sequence on one line is as long.
#[tactic(auto, using(crate::proofs::DocumentLines::long_sequence))]
pub fn long_sequence()
    ensures { LongSequence }
{}

/// A document's first line is one of its layouts, at each place.
#[tactic(auto, using(crate::proofs::LaidLines::line_laid_out))]
pub fn line_is_laid_out()
    ensures { LineIsLaidOut }
{}

/// Where each layout of a document on one line is told to be as long, it is.
pub fn long_is_long()
    ensures { LongIsLong }
{}

/// What has no hard newline and no charge has, flat, the one length of its layouts.
#[tactic(auto, using(crate::proofs::DocumentCuts::flat_where_long))]
pub fn flat_where_long()
    ensures { FlatWhereLong }
{}

/// What knows no indentation stands behind a measure alike at each.
#[tactic(auto, using(crate::proofs::Unindented::after_unindented))]
pub fn after_in_any_indentation<C>()
    ensures { AfterInAnyIndentation C }
{}

/// Where a document's layout on one line costs nothing and ends by the column of the cut, it is all that stands there.
pub fn after_in_one_line<C>()
    ensures { AfterInOneLine C }
{}

/// A document without breaks and charges whose layouts are equally long stands behind a measure as one text, by the
/// choices that lay it out on one line.
#[tactic(auto, using(crate::proofs::CoreLines::after_text))]
pub fn after_in_one_text<C>()
    ensures { AfterInOneText C }
{}
