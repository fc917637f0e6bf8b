//! Laws of texts and of items that are refused.

ghost use Rattle.rf_joins.specs.Laws.{LexRefusalsJoin, TreeRefusalsJoin, TreeRefusalsStand};

/// A text behind one that ends in an item is refused as it is by itself.
pub fn lex_refusals_join()
    ensures { LexRefusalsJoin }
{}

/// Items behind others that make trees are refused as they are by themselves.
pub fn tree_refusals_join()
    ensures { TreeRefusalsJoin }
{}

/// Items of which one can't go on are refused so whatever stands behind them.
#[tactic(auto, using(crate::proofs::Standing::tree_refusals_stand))]
pub fn tree_refusals_stand()
    ensures { TreeRefusalsStand }
{}
