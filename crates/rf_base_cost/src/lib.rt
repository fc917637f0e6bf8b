//! What costs, measures and frontiers mean. The definitions stand in specs/; each function here has an
//! empty body, and its contract is a law of theirs, for costs of any type `C` and choices of any types.
#![tactic(auto)]

mod measures;

ghost use Rattle.rf_base_cost.specs.Laws.{LayoutHasCost, LayoutIsCounted, CostIsValue, CostsJoin, ParetoKeepsMembers, ParetoDominatesAll, ParetoIsFrontier, FrontierIsPareto, ParetoByParts, DominatedCanGo, OutdoneCanGo, ParetoKnowsNoChoices, ReflectingReflectsAll};

pub use measures::Measure;

/// A layout has a cost.
#[tactic(auto, using(crate::proofs::Layouts::layout_has_cost))]
pub fn layout_has_cost<C>()
    ensures { LayoutHasCost C }
{}

/// The pieces of a document's layout at column 0 and indentation 0 are counted, where it has at most
/// 67,108,864 characters.
#[tactic(auto, using(crate::proofs::Layouts::layout_is_counted))]
pub fn layout_is_counted()
    ensures { LayoutIsCounted }
{}

/// The cost of a layout is a value.
#[tactic(auto, using(crate::proofs::Sums::cost_is_value))]
pub fn cost_is_value<C>()
    ensures { CostIsValue C }
{}

/// Two layouts, one after the other, cost what they cost apart, added in order.
#[tactic(auto, using(crate::proofs::Sums::costs_join))]
pub fn costs_join<C>()
    ensures { CostsJoin C }
{}

/// A frontier holds members of the list that it is made of, and nothing else.
#[tactic(auto, using(crate::proofs::Pareto::pareto_keeps_members))]
pub fn pareto_keeps_members<C, H>()
    ensures { ParetoKeepsMembers C H }
{}

/// Each member of a list is dominated by a measure of its frontier.
pub fn pareto_dominates_all<C, H>()
    ensures { ParetoDominatesAll C H }
{}

/// Along a frontier the last columns strictly fall and the costs strictly rise.
pub fn pareto_is_frontier<C, H>()
    ensures { ParetoIsFrontier C H }
{}

/// The frontier of a frontier is itself.
#[tactic(auto, using(crate::proofs::Pareto::frontier_is_pareto))]
pub fn frontier_is_pareto<C, H>()
    ensures { FrontierIsPareto C H }
{}

/// Pruning two parts, and then both as one list, prunes the whole.
#[tactic(auto, using(crate::proofs::Pareto::pareto_by_parts))]
pub fn pareto_by_parts<C, H>()
    ensures { ParetoByParts C H }
{}

/// What an earlier measure dominates, and so the later of two equals, can be left out.
#[tactic(auto, using(crate::proofs::Pareto::drop_dominated))]
pub fn dominated_can_go<C, H>()
    ensures { DominatedCanGo C H }
{}

/// What a later measure outdoes can be left out.
#[tactic(auto, using(crate::proofs::Pareto::drop_outdone))]
pub fn outdone_can_go<C, H>()
    ensures { OutdoneCanGo C H }
{}

/// Which measures stay doesn't depend on their choices.
#[tactic(auto, using(crate::proofs::Choices::pareto_knows_no_choices))]
pub fn pareto_knows_no_choices<C, H, K>()
    ensures { ParetoKnowsNoChoices C H K }
{}

/// An addition that reflects the order of costs reflects that of what layouts cost.
pub fn reflecting_reflects_all<C>()
    ensures { ReflectingReflectsAll C }
{}
