//! Laws of trees and of paragraphs.

ghost use Rattle.rf_joins.specs.Laws.{ParagraphsJoin, TreesJoin};

/// Trees of items, and trees of items behind them, are the trees of all.
pub fn trees_join()
    ensures { TreesJoin }
{}

/// The paragraphs of trees that end in a datum, and those of trees behind them, are those of all.
pub fn paragraphs_join()
    ensures { ParagraphsJoin }
{}
