//! What a resolver rests on that goes on from the measures that it has, and cuts frontiers short where the rest can't
//! matter. The definitions stand in specs/; each function here has an empty body, and its contract is a law of theirs,
//! for costs of any type `C`.
#![tactic(auto)]

pub mod documents;

ghost use Rattle.rf_base_cut.specs.Laws.{NothingCutOff, CutAgain, CutLooksAtLasts, CutIsFrontier, FirstStays, FirstIsEnough, FirstIsChosen, CutBothFirst, CutEachFirst, CutByParts, CutOnwards, ShiftedIsFrontier, RaisedIsFrontier, MarkedIsFrontier, PlainCostsPieces, NothingHasRoom, RoomIsValue, RoomForFewer, AfterHasRoom, ChargedHasRoom, AfterIsFrontier, NothingBefore, AfterAgain, AfterRow, AfterText, AfterNewline, AfterNest, AfterAlign, AfterReset, AfterOnly, AfterCharge, AfterChoice, AfterConcat, IndifferentMayCut, NoTextIsFree, AfterFlat, BreakKnowsNoColumn, FlatIsText, NeverFreeCosts, OneLineIsOne, OneLineIsFirst, AfterOneLine};

/// A frontier cut at 0 is whole.
#[tactic(auto, using(crate::proofs::Cutting::nothing_cut))]
pub fn nothing_cut_off<C, H>()
    ensures { NothingCutOff C H }
{}

/// What was cut further left can be cut further.
#[tactic(auto, using(crate::proofs::Cutting::cut_again))]
pub fn cut_again<C, H>()
    ensures { CutAgain C H }
{}

/// Cutting looks at last columns alone.
#[tactic(auto, using(crate::proofs::Cutting::cut_mapped))]
pub fn cut_looks_at_lasts<C, H, K>()
    ensures { CutLooksAtLasts C H K }
{}

/// The first measure is never cut off.
#[tactic(auto, using(crate::proofs::Cutting::first_stays))]
pub fn first_stays<C, H>()
    ensures { FirstStays C H }
{}

/// Where the first measure ends by the column of the cut, the others are cut off.
#[tactic(auto, using(crate::proofs::Cutting::cut_first))]
pub fn first_is_enough<C, H>()
    ensures { FirstIsEnough C H }
{}

/// A frontier that is cut is one.
pub fn cut_is_frontier<C, H>()
    ensures { CutIsFrontier C H }
{}

/// Two frontiers can be cut before they are pruned as one list.
#[tactic(auto, using(crate::proofs::Pruned::cut_both))]
pub fn cut_both_first<C, H>()
    ensures { CutBothFirst C H }
{}

/// Each frontier of a row can be cut before they are pruned as one list.
#[tactic(auto, using(crate::proofs::Pruned::cut_row))]
pub fn cut_each_first<A, C, H>()
    ensures { CutEachFirst A C H }
{}

/// Pruning and cutting two parts, and then both as one list, prunes and cuts the whole.
#[tactic(auto, using(crate::proofs::Pruned::cut_by_parts))]
pub fn cut_by_parts<C, H>()
    ensures { CutByParts C H }
{}

/// What comes to a list that is pruned and cut is pruned and cut with it.
#[tactic(auto, using(crate::proofs::Pruned::cut_onwards))]
pub fn cut_onwards<C, H>()
    ensures { CutOnwards C H }
{}

/// A frontier behind a measure is one, where there is room for what its measures cost.
#[tactic(auto, using(crate::proofs::Behind::shifted_frontier))]
pub fn shifted_is_frontier<C>()
    ensures { ShiftedIsFrontier C }
{}

/// A frontier that is raised by a cost is one, where there is room behind the cost for what its measures cost.
#[tactic(auto, using(crate::proofs::Steps::raised_frontier))]
pub fn raised_is_frontier<C>()
    ensures { RaisedIsFrontier C }
{}

/// A frontier that is marked is one.
pub fn marked_is_frontier<C>()
    ensures { MarkedIsFrontier C }
{}

/// Each measure of a core's frontier costs what counted pieces cost, at most as many as a resolution may have.
#[tactic(auto, using(crate::proofs::Behind::plain_pieces))]
pub fn plain_costs_pieces<C>()
    ensures { PlainCostsPieces C }
{}

/// Behind nothing there is room for pieces whose costs keep their order in sums.
#[tactic(auto, using(crate::proofs::Behind::nothing_room))]
pub fn nothing_has_room<C>()
    ensures { NothingHasRoom C }
{}

/// Where there is room the cost is a value.
#[tactic(auto, using(crate::proofs::Behind::room_value))]
pub fn room_is_value<C>()
    ensures { RoomIsValue C }
{}

/// Where there is room for more pieces there is room for fewer.
#[tactic(auto, using(crate::proofs::Behind::room_fewer))]
pub fn room_for_fewer<C>()
    ensures { RoomForFewer C }
{}

/// Behind what stands behind a measure there is room for what there was room for behind the core.
#[tactic(auto, using(crate::proofs::Steps::after_room))]
pub fn after_has_room<C>()
    ensures { AfterHasRoom C }
{}

/// Behind a charge there is room for one piece less.
#[tactic(auto, using(crate::proofs::Steps::charged_room))]
pub fn charged_has_room<C>()
    ensures { ChargedHasRoom C }
{}

/// What stands behind a measure is a frontier of values, of which none ends past the width.
pub fn after_is_frontier<C>()
    ensures { AfterIsFrontier C }
{}

/// Behind nothing stands a core's frontier, cut.
#[tactic(auto, using(crate::proofs::Steps::nothing_before))]
pub fn nothing_before<C>()
    ensures { NothingBefore C }
{}

/// The first measure behind nothing is chosen, wherever it is cut.
#[tactic(auto, using(crate::proofs::Steps::first_chosen))]
pub fn first_is_chosen<C>()
    ensures { FirstIsChosen C }
{}

/// What stands behind a measure, cut no further right, can be cut further.
#[tactic(auto, using(crate::proofs::Steps::after_again))]
pub fn after_again<C>()
    ensures { AfterAgain C }
{}

/// What stands behind a measure can be had from the core's frontier that was cut no further right.
#[tactic(auto, using(crate::proofs::Steps::after_row))]
pub fn after_row<C>()
    ensures { AfterRow C }
{}

/// A text stands behind a measure where it ends within the width.
#[tactic(auto, using(crate::proofs::Steps::after_text))]
pub fn after_text<C>()
    ensures { AfterText C }
{}

/// A newline stands behind a measure, and ends at the indentation, where both are within the width.
#[tactic(auto, using(crate::proofs::Steps::after_newline))]
pub fn after_newline<C>()
    ensures { AfterNewline C }
{}

/// What is nested stands behind a measure with more indentation.
#[tactic(auto, using(crate::proofs::Steps::after_nest))]
pub fn after_nest<C>()
    ensures { AfterNest C }
{}

/// What is aligned stands behind a measure with its last column as indentation.
#[tactic(auto, using(crate::proofs::Steps::after_align))]
pub fn after_align<C>()
    ensures { AfterAlign C }
{}

/// What is reset stands behind a measure without indentation.
#[tactic(auto, using(crate::proofs::Steps::after_reset))]
pub fn after_reset<C>()
    ensures { AfterReset C }
{}

/// The side that is left of a choice stands behind the measure that has its direction too.
#[tactic(auto, using(crate::proofs::Steps::after_only))]
pub fn after_only<C>()
    ensures { AfterOnly C }
{}

/// What is charged stands behind the measure that has the charge too.
#[tactic(auto, using(crate::proofs::Steps::after_charge))]
pub fn after_charge<C>()
    ensures { AfterCharge C }
{}

/// Each side of a choice stands behind the measure that has its direction too, and what is worth keeping of both stays.
#[tactic(auto, using(crate::proofs::Steps::after_choice))]
pub fn after_choice<C>()
    ensures { AfterChoice C }
{}

/// The second part of a concatenation stands behind each measure of the first, whose frontier may be cut.
pub fn after_concat<C>()
    ensures { AfterConcat C }
{}

/// It may be cut where the second part is indifferent.
#[tactic(auto, using(crate::proofs::Indifferent::indifferent_may_cut))]
pub fn indifferent_may_cut()
    ensures { IndifferentMayCut }
{}

/// Up to column 0 texts cost nothing.
#[tactic(auto, using(crate::proofs::Indifferent::no_text_is_free))]
pub fn no_text_is_free<C>()
    ensures { NoTextIsFree C }
{}

/// A core that begins with a break has one frontier at all columns within the width.
#[tactic(auto, using(crate::proofs::Indifferent::break_anywhere))]
pub fn break_knows_no_column<C>()
    ensures { BreakKnowsNoColumn C }
{}

/// A core without breaks and charges whose layouts are all equally long has the frontier of one text.
#[tactic(auto, using(crate::proofs::FlatTexts::flat_text))]
pub fn flat_is_text<C>()
    ensures { FlatIsText C }
{}

/// What is flat stands behind a measure as one text.
#[tactic(auto, using(crate::proofs::FlatTexts::after_flat))]
pub fn after_flat<C>()
    ensures { AfterFlat C }
{}

/// Where each resolution has a break or a charge, each measure costs more than nothing.
#[tactic(auto, using(crate::proofs::Lines::never_free))]
pub fn never_free_costs<C>()
    ensures { NeverFreeCosts C }
{}

/// On one line a document takes up one number of columns, by one list of choices.
#[tactic(auto, using(crate::proofs::OneWay::one_line_one))]
pub fn one_line_is_one()
    ensures { OneLineIsOne }
{}

/// A layout on one line that costs nothing is the first measure of the frontier.
pub fn one_line_is_first<C>()
    ensures { OneLineIsFirst C }
{}

/// A layout on one line that costs nothing and ends by the column of the cut is all that stands behind a measure.
pub fn after_one_line<C>()
    ensures { AfterOneLine C }
{}
