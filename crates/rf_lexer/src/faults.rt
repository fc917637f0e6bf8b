//! Why a source has no items.

use rf_base_grammar::LexKind;
use std::alloc::{AllocError, AllocFailed};
use thiserror::Error;

/// Why a source has no items.
#[derive(Clone, Copy, Debug, PartialEq, Eq, Error)]
pub enum LexError {
    /// No item can be read at a place.
    #[error("{kind:?} at {offset}")]
    Refused {
        /// What is wrong there.
        kind: LexKind,
        /// The byte that the kind names, counted from the source's start.
        offset: u32,
    },
    /// Memory ran out.
    #[error("out of memory")]
    Memory(AllocError),
}

impl From<AllocError> for LexError {
    ghost use Rattle.std.specs.Prelude.{◌≡◌};
    ghost use Rattle.rf_lexer.specs.declared.faults.LexError.TheVariants.{Memory};

    ghost from_gives = { λ x e. e ≡ Memory x };

    fn from(error: AllocError) -> LexError {
        LexError::Memory(error)
    }
}

impl<T: Drop> From<AllocFailed<T>> for LexError {
    ghost use Rattle.std.specs.Prelude.{◌≡◌, alloc_error};
    ghost use Rattle.rf_lexer.specs.declared.faults.LexError.TheVariants.{Memory};

    ghost from_gives = { λ _ e. e ≡ Memory alloc_error };

    fn from(fault: AllocFailed<T>) -> LexError {
        LexError::Memory(AllocError::from(fault))
    }
}
