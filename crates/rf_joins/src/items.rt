//! Laws of items.

ghost use Rattle.rf_joins.specs.Laws.{FirstItemStands, ItemsJoin, ItemsStand};

/// The items of a text that ends in one, and of one behind it, are those of both together.
#[tactic(auto, using(crate::proofs::ItemsJoin::items_joined))]
pub fn items_join()
    ensures { ItemsJoin }
{}

/// The first item of a text has the blank lines of its gap, and trails nothing.
pub fn first_item_stands()
    ensures { FirstItemStands }
{}

/// The items of a text that ends in one stand there with whatever may follow behind them.
#[tactic(auto, using(crate::proofs::Standing::items_stand))]
pub fn items_stand()
    ensures { ItemsStand }
{}
