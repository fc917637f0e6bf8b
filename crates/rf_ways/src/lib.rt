//! How what stands in a tree is laid out: the way of each list, by its head and its place, what is quoted, and what
//! stands between two items.
#![tactic(auto)]

mod documents;
mod lines;
mod places;
mod quoting;
mod separators;
mod ways;

pub use documents::{
    node_documents_are_documents, node_documents_have_lengths, node_has_one_document,
};
pub use lines::first_line;
pub use places::{Brackets, Place, Placed};
pub use quoting::{quoted_behind, quoted_inside};
pub use separators::separator;
pub use ways::{first_role, later_roles, role_behind, way_of};
