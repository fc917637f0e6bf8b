//! Why a search stops.

use std::alloc::{AllocError, AllocFailed};

// Why a search stops before it has an answer.
#[derive(Debug, Drop)]
pub enum Stop {
    // The document is too deep, or a number too great, or it isn't told what it is made of: nothing is said of it.
    Unsure,
    // There is no memory.
    Memory(AllocError),
}

impl From<AllocError> for Stop {
    fn from(error: AllocError) -> Stop {
        Stop::Memory(error)
    }
}

impl<T: Drop> From<AllocFailed<T>> for Stop {
    fn from(error: AllocFailed<T>) -> Stop {
        Stop::Memory(AllocError::from(error))
    }
}
