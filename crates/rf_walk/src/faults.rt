//! Why a resolution isn't laid out.

use std::alloc::{AllocError, AllocFailed};

/// Why a resolution isn't laid out.
#[derive(Clone, Copy, Debug, PartialEq, Eq)]
pub enum LayoutError {
    /// The layout has more than 67,108,864 characters, or the resolution more texts, line breaks and
    /// choices than that.
    TooLong,
    /// Memory ran out.
    Memory(AllocError),
}

impl<T: Drop> From<AllocFailed<T>> for LayoutError {
    ghost use Rattle.std.specs.Prelude.{◌≡◌, alloc_error};
    ghost use Rattle.rf_walk.specs.declared.faults.LayoutError.TheVariants.{Memory};

    ghost from_gives = { λ _ e. e ≡ Memory alloc_error };

    fn from(fault: AllocFailed<T>) -> LayoutError {
        LayoutError::Memory(AllocError::from(fault))
    }
}

impl From<AllocError> for LayoutError {
    ghost use Rattle.std.specs.Prelude.{◌≡◌, alloc_error};
    ghost use Rattle.rf_walk.specs.declared.faults.LayoutError.TheVariants.{Memory};

    ghost from_gives = { λ _ e. e ≡ Memory alloc_error };

    fn from(fault: AllocError) -> LayoutError {
        LayoutError::Memory(fault)
    }
}
