//! Documents as rows of pieces, which are put together on a stack: what a list is made of stands once, and its layouts
//! are told from that, node by node, when they are asked for.
#![tactic(auto)]

mod cells;
mod choosing;
mod halts;
mod knowing;
mod known;
mod known_layouts;
mod laid;
mod laying;
mod layouts;
mod nodes;
mod opening;
mod pieces;
mod rows;
mod splitting;
mod told;
mod unmade;

pub use cells::Cell;
pub use knowing::know_cells;
pub use known::{KnownCell, KnownPieces};
pub use laid::LaidRows;
pub use laying::{Spot, lay_out_cell, lay_out_stack};
pub use layouts::{Inner, Layout, Layouts, Marks, Row, Strip, Which};
pub use nodes::Node;
pub use pieces::{Fill, Piece};
pub use rows::Rows;
pub use told::ToldRows;
pub use unmade::{ListLine, Unmade};
