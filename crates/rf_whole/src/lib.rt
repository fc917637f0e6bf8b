//! The layout of a file, form by form.
#![tactic(auto)]

mod closing;
mod cuts;
mod early;
mod ends;
mod faults;
mod formatting;
mod forms;
mod groups;
mod jobs;
mod late;
mod laws;
mod leads;
mod lines;
mod one_line;
mod parts;
mod passages;
mod rooms;
mod rows;
mod settings;
mod sheets;
mod tasks;

pub use faults::{FormatError, Miss, SourceError};
pub use formatting::{Formatted, format};
pub use laws::{long_is_too_long, one_whole, whole_is_formatted, whole_or_too_long};
pub use parts::format_items;
pub use passages::{FormattedPassages, format_passages};
pub use rooms::keep_room;
