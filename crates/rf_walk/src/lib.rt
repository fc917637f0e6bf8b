//! The walk that lays out a resolution of a core, of a document that stands in a graph, or of one that is told node by
//! node, as `Nodes` says, for whatever it is laid out on: what that is says a `Paper`.
#![tactic(auto)]

mod cores;
mod documents;
mod extents;
mod faults;
mod kinds;
mod papers;
mod walking;

pub use cores::lay_out;
pub use documents::lay_out_document;
pub use extents::Extent;
pub use faults::LayoutError;
pub use kinds::{Kind, Nodes};
pub use papers::Paper;
pub use walking::{deeper, first_choice, lay_out_nodes, put_newline};
