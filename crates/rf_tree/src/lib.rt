//! Trees of items: which items stand in which list or behind which prefix.
#![tactic(auto)]

mod cursors;
mod dots;
mod gaps;
mod levels;
mod nodes;
mod parser;
mod settling;
mod slotting;
mod sorts;
mod stored;
mod stretches;
mod texts;
mod trees;

pub use cursors::{SlotRef, Slots, slots_in};
pub use gaps::gap;
pub use nodes::{At, Node, Nodes};
pub use parser::{parse, parse_next};
pub use rf_base_tree::{Separator, TreeKind, Want};
pub use settling::settle;
pub use slotting::{Slot, slots, tops, tops_in};
pub use sorts::{Sort, sort_of};
pub use stretches::Stretch;
pub use trees::{Tree, TreeError, Trees};
