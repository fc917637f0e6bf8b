//! Why the writing of a line stops.

use std::alloc::{AllocError, AllocFailed};

// Why the writing stops before its end.
#[derive(Debug, Drop)]
pub enum Stop {
    // It doesn't stand on one line, or it isn't known here how: nothing is said of it.
    Unfit,
    // There is no memory.
    Memory(AllocError),
}

impl From<AllocError> for Stop {
    fn from(error: AllocError) -> Stop {
        Stop::Memory(error)
    }
}

impl<T: Drop> From<AllocFailed<T>> for Stop {
    fn from(error: AllocFailed<T>) -> Stop {
        Stop::Memory(AllocError::from(error))
    }
}
