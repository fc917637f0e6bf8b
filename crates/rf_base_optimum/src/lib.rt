//! What is chosen of a document, and what that is worth. The definitions stand in specs/; each function here has an
//! empty body, and its contract is a law of theirs, for costs of any type `C`.
#![tactic(auto)]

ghost use Rattle.rf_base_optimum.specs.Laws.{PlainIsFrontier, NothingPastWidth, DeepIndentationsAlike, ShiftKeepsWithin, MeasuresAreOfResolutions, ResolutionsAreDominated, FrontierWhereWithin, ChosenIsFirst, ChosenIsLaidOut, ChosenIsBest, CoreIsBestAlike, ChosenOfCoreIsBest, DearerKeepsWithin, DearerCostsNoLess, MostPiecesAreMost, BestApart, ChosenApartIsBest, LaidOutApart, WithinApart, ChosenAsApart};

/// The frontier of a core is one: last columns strictly fall, costs strictly rise, and none ends past the width.
pub fn plain_is_frontier<C>()
    ensures { PlainIsFrontier C }
{}

/// Nothing is within columns that are passed already.
#[tactic(auto, using(crate::proofs::Frontier::plain_past))]
pub fn nothing_past_width<C>()
    ensures { NothingPastWidth C }
{}

/// All indentations past the width give the same frontier.
#[tactic(auto, using(crate::proofs::Frontier::plain_deep))]
pub fn deep_indentations_alike<C>()
    ensures { DeepIndentationsAlike C }
{}

/// What is within the width at a place is within it too no further right and no deeper, and there it costs no more.
pub fn shift_keeps_within<C>()
    ensures { ShiftKeepsWithin C }
{}

/// Each measure of a core's frontier is that of a resolution within the width, which its choices pick.
pub fn measures_are_of_resolutions<C>()
    ensures { MeasuresAreOfResolutions C }
{}

/// Each resolution of a core within the width is dominated by a measure of its frontier, so pruning keeps the optimum.
pub fn resolutions_are_dominated<C>()
    ensures { ResolutionsAreDominated C }
{}

/// The frontier has a measure exactly where some resolution is within the width.
#[tactic(auto, using(crate::proofs::Pruning::frontier_where_within))]
pub fn frontier_where_within<C>()
    ensures { FrontierWhereWithin C }
{}

/// Where some resolution is within the width, what is chosen is the first measure of the frontier, which costs least.
#[tactic(auto, using(crate::proofs::Choosing::choose_first))]
pub fn chosen_is_first<C>()
    ensures { ChosenIsFirst C }
{}

/// What is chosen of a core picks a resolution with a layout, which ends at the column that is told.
#[tactic(auto, using(crate::proofs::Optimum::chosen_laid))]
pub fn chosen_is_laid_out<C>()
    ensures { ChosenIsLaidOut C }
{}

/// What is chosen of a core is best for it, also part by part where nothing is within the width.
#[tactic(auto, using(crate::proofs::Optimum::chosen_best))]
pub fn chosen_is_best<C>()
    ensures { ChosenIsBest C }
{}

/// Choices are best for a document, flat or not, exactly where they are best for its core.
#[tactic(auto, using(crate::proofs::Cores::core_best))]
pub fn core_is_best_alike<C>()
    ensures { CoreIsBestAlike C }
{}

/// What is chosen of a document's core is best for the document, flat or not.
#[tactic(auto, using(crate::proofs::CoreChoices::chosen_of_core))]
pub fn chosen_of_core_is_best<C>()
    ensures { ChosenOfCoreIsBest C }
{}

/// What is within the width with some charges made greater is within it without them, and there it costs no more.
pub fn dearer_keeps_within<C>()
    ensures { DearerKeepsWithin C }
{}

/// Where some charges are made greater, no resolution within the width costs less than a least one did.
pub fn dearer_costs_no_less<C>()
    ensures { DearerCostsNoLess C }
{}

/// No layout has more pieces than are told of its document.
pub fn most_pieces_are_most()
    ensures { MostPiecesAreMost }
{}

/// Choices that are best for each paragraph by itself are best for the paragraphs one below the other.
#[tactic(auto, using(crate::proofs::Apart::best_apart))]
pub fn best_apart<C>()
    ensures { BestApart C }
{}

/// What is chosen of each paragraph's core by itself is best for the paragraphs one below the other.
#[tactic(auto, using(crate::proofs::Apart::chosen_apart_best))]
pub fn chosen_apart_is_best<C>()
    ensures { ChosenApartIsBest C }
{}

/// Paragraphs one below the other are laid out as each by itself, with line ends behind each.
pub fn laid_out_apart()
    ensures { LaidOutApart }
{}

/// Paragraphs one below the other have a resolution within the width exactly where each of them has one.
#[tactic(auto, using(crate::proofs::LaidApart::within_apart))]
pub fn within_apart()
    ensures { WithinApart }
{}

/// Where addition reflects the order of costs, what is chosen of paragraphs one below the other is what is chosen of
/// each.
#[tactic(auto, using(crate::proofs::ChosenApart::chosen_as_apart))]
pub fn chosen_as_apart<C>()
    ensures { ChosenAsApart C }
{}
