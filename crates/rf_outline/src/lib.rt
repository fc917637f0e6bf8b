//! What is known of each node of a graph of documents, flat and not: how long it is on one line, by which choices, and
//! whether it begins with a break.
#![tactic(auto)]

mod documents;
mod facts;
pub mod kinds;
mod laws;
mod lines;
mod outlined;
mod outlining;
mod sides;

pub use documents::{Documents, Leaf, Part, Span};
pub use facts::{Facts, Known, Line};
pub use laws::known_goes_on;
pub use lines::concat_line;
pub use outlined::Outlined;
pub use outlining::outline;
