//! Documents as a graph in one vector, whose nodes refer to nodes of smaller numbers.
#![tactic(auto)]

mod characters;
mod graphs;
mod limits;
mod nodes;
mod stored;

pub use characters::char_count;
pub use graphs::Graph;
pub use limits::TEXT_LIMIT;
pub use nodes::{DocNode, NodeId};
pub use stored::place;
