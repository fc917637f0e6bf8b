//! Why a file isn't laid out.

use rf_lexer::{LexError, LexKind};
use rf_resolve::ResolveError;
use rf_tree::{TreeError, TreeKind};
use rf_walk::LayoutError;
use std::alloc::{AllocError, AllocFailed};

/// Why a file isn't laid out.
#[derive(Clone, Copy, Debug, PartialEq, Eq)]
pub enum FormatError {
    /// The layout has more than 67,108,864 characters, or its resolution more texts, line breaks and choices than that.
    TooLong,
    /// Memory ran out.
    Memory(AllocError),
}

impl From<AllocError> for FormatError {
    ghost use Rattle.std.specs.Prelude.{◌≡◌, alloc_error};
    ghost use Rattle.rf_whole.specs.declared.faults.FormatError.TheVariants.{Memory};

    ghost from_gives = { λ _ e. e ≡ Memory alloc_error };

    fn from(fault: AllocError) -> FormatError {
        FormatError::Memory(fault)
    }
}

impl<T: Drop> From<AllocFailed<T>> for FormatError {
    ghost use Rattle.std.specs.Prelude.{◌≡◌, alloc_error};
    ghost use Rattle.rf_whole.specs.declared.faults.FormatError.TheVariants.{Memory};

    ghost from_gives = { λ _ e. e ≡ Memory alloc_error };

    fn from(fault: AllocFailed<T>) -> FormatError {
        FormatError::Memory(AllocError::from(fault))
    }
}

impl From<LayoutError> for FormatError {
    ghost use Rattle.std.specs.Prelude.{◌≡◌};
    ghost use Rattle.rf_whole.specs.Faults.{layout_fault};

    ghost from_gives = { λ fault e. e ≡ layout_fault fault };

    fn from(fault: LayoutError) -> FormatError {
        match fault {
            LayoutError::TooLong => FormatError::TooLong,
            LayoutError::Memory(fault) => FormatError::Memory(fault),
        }
    }
}

impl From<ResolveError> for FormatError {
    ghost use Rattle.std.specs.Prelude.{◌≡◌};
    ghost use Rattle.rf_whole.specs.Faults.{resolve_fault};

    ghost from_gives = { λ fault e. e ≡ resolve_fault fault };

    fn from(fault: ResolveError) -> FormatError {
        match fault {
            ResolveError::TooLong => FormatError::TooLong,
            ResolveError::Memory(fault) => FormatError::Memory(fault),
        }
    }
}

/// Why a source isn't laid out.
#[derive(Clone, Copy, Debug, PartialEq, Eq)]
pub enum SourceError {
    /// It has no tree.
    Tree(TreeError),
    /// Its trees aren't laid out.
    Layout(FormatError),
}

impl From<TreeError> for SourceError {
    ghost use Rattle.std.specs.Prelude.{◌≡◌};
    ghost use Rattle.rf_whole.specs.declared.faults.SourceError.TheVariants.{Tree};

    ghost from_gives = { λ fault e. e ≡ Tree fault };

    fn from(fault: TreeError) -> SourceError {
        SourceError::Tree(fault)
    }
}

impl From<FormatError> for SourceError {
    ghost use Rattle.std.specs.Prelude.{◌≡◌};
    ghost use Rattle.rf_whole.specs.declared.faults.SourceError.TheVariants.{Layout};

    ghost from_gives = { λ fault e. e ≡ Layout fault };

    fn from(fault: FormatError) -> SourceError {
        SourceError::Layout(fault)
    }
}

/// Why a source isn't laid out passage by passage.
#[derive(Clone, Copy, Debug, PartialEq, Eq)]
pub enum Miss {
    /// No item can be read at a place.
    Items {
        /// What is wrong there.
        kind: LexKind,
        /// The byte that the kind names, counted from the source's start.
        offset: u32,
    },
    /// Its items have no tree.
    Tree {
        /// What is wrong with them.
        kind: TreeKind,
        /// The byte that the kind names, counted from the source's start.
        offset: u32,
    },
    /// It isn't known whether it is refused, nor what its layout is.
    Unsure,
    /// Memory ran out.
    Memory(AllocError),
}

impl From<LexError> for Miss {
    ghost use Rattle.std.specs.Prelude.{◌≡◌};
    ghost use Rattle.rf_whole.specs.Faults.{lex_miss};

    ghost from_gives = { λ fault miss. miss ≡ lex_miss fault };

    fn from(fault: LexError) -> Miss {
        match fault {
            LexError::Refused { kind, offset } => Miss::Items { kind, offset },
            LexError::Memory(fault) => Miss::Memory(fault),
        }
    }
}
