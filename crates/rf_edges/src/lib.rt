//! The outside of the program: bytes that are read and written, a shelf of files, a gate for jobs.
//!
//! Each thing of the outside is a trait with a written meaning. The memory forms tell what they hold, so
//! what a caller does with them is proved to the last byte. The forms over the system tell nothing of
//! content: a caller knows of them only that a failure is a fault that was counted.
#![tactic(auto)]

pub(crate) mod failures;
pub(crate) mod gates;
pub(crate) mod memory;
pub(crate) mod reading;
pub(crate) mod shelves;
pub(crate) mod sinks;
pub(crate) mod sources;
pub(crate) mod system;
pub(crate) mod writing;

pub use failures::Failed;
pub use gates::{Gate, OpenGate};
pub use memory::count_sink::CountSink;
pub use memory::mem_shelf::MemShelf;
pub use memory::mem_sink::MemSink;
pub use memory::mem_source::MemSource;
pub use memory::sure_shelf::SureShelf;
pub use memory::sure_source::SureSource;
pub use reading::{ReadError, read_all};
pub use shelves::{Shelf, ShelfError};
pub use sinks::Sink;
pub use sources::Source;
pub use system::dir_shelf::DirShelf;
pub use system::std_sink::StdSink;
pub use system::std_source::StdSource;
pub use writing::write_whole;
