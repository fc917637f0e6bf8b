//! Top-level slots as rows of pieces: the documents of slots in a style, put together on a stack, or laid out at once
//! where they are comments alone.
#![tactic(auto)]

mod context;
mod files;
mod firsts;
mod gaps;
mod items;
mod joins;
mod layouts;
mod leads;
mod nodes;
mod reaches;
mod tops;

pub use files::file_rows;
pub use leads::{is_comments, lay_leads};
pub use tops::slot_rows;
