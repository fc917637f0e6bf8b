//! Why no resolution is chosen.

use rf_walk::LayoutError;
use std::alloc::{AllocError, AllocFailed};

/// Why no resolution is chosen.
#[derive(Clone, Copy, Debug, PartialEq, Eq)]
pub enum ResolveError {
    /// The chosen layout has more than 67,108,864 characters, or its resolution more texts, line breaks and choices
    /// than that.
    TooLong,
    /// Memory ran out.
    Memory(AllocError),
}

impl From<AllocError> for ResolveError {
    ghost use Rattle.std.specs.Prelude.{◌≡◌, alloc_error};
    ghost use Rattle.rf_resolve.specs.declared.faults.ResolveError.TheVariants.{Memory};

    ghost from_gives = { λ _ e. e ≡ Memory alloc_error };

    fn from(fault: AllocError) -> ResolveError {
        ResolveError::Memory(fault)
    }
}

impl<T: Drop> From<AllocFailed<T>> for ResolveError {
    ghost use Rattle.std.specs.Prelude.{◌≡◌, alloc_error};
    ghost use Rattle.rf_resolve.specs.declared.faults.ResolveError.TheVariants.{Memory};

    ghost from_gives = { λ _ e. e ≡ Memory alloc_error };

    fn from(fault: AllocFailed<T>) -> ResolveError {
        ResolveError::Memory(AllocError::from(fault))
    }
}

impl From<LayoutError> for ResolveError {
    ghost use Rattle.std.specs.Prelude.{◌≡◌};
    ghost use Rattle.rf_resolve.specs.Faults.{fault_of};

    ghost from_gives = { λ fault e. e ≡ fault_of fault };

    fn from(fault: LayoutError) -> ResolveError {
        match fault {
            LayoutError::TooLong => ResolveError::TooLong,
            LayoutError::Memory(fault) => ResolveError::Memory(fault),
        }
    }
}
