//! What stays the same while a best layout is sought.

ghost use Rattle.std.specs.Prelude.{◌≤◌};

use rf_cost::Factory;
use rf_flat::Core;

// The document, how its layouts cost, and how wide they may be. It is handed on to all that the search does.
#[derive(Drop)]
pub struct Setting<'s, 'g, F: Factory> {
    // The document.
    pub core: &'s Core<'g>,
    // How costs are counted.
    pub factory: &'s F,
    // The computation width in columns.
    pub limit: u32,
    ghost narrow: { limit ≤ 400 },
}
