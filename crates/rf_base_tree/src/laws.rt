//! What trees and their refusals mean. Each function here has an empty body, and its contract is a law of the
//! definitions in `specs/`.

ghost use Rattle.rf_base_tree.specs.Laws.{OneTree, TreeOrRefusal, OneTreeRefusal, EachIsTreed, SlotsAreComputed, SeparatorsAreComputed};

/// Items have at most one tree.
pub fn one_tree()
    ensures { OneTree }
{}

/// No items both have a tree and are refused.
pub fn tree_or_refusal()
    ensures { TreeOrRefusal }
{}

/// Items are refused for at most one reason, at one byte.
pub fn one_tree_refusal()
    ensures { OneTreeRefusal }
{}

/// Each list of items has a tree, or is refused.
pub fn each_is_treed()
    ensures { EachIsTreed }
{}

/// Trees as entries are cut into the slots that are computed, and into no others.
pub fn slots_are_computed()
    ensures { SlotsAreComputed }
{}

/// Between neighbours stands the separator that is computed, and no other.
pub fn separators_are_computed()
    ensures { SeparatorsAreComputed }
{}
