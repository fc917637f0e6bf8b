//! The layout of a resolution of a core, or of a document, as a text.
#![tactic(auto)]

mod breaks;
mod documents;
mod faults;
mod pages;
mod rendering;

pub use breaks::push_break;
pub use documents::{Written, render_document};
pub use faults::RenderError;
pub use rendering::render;
