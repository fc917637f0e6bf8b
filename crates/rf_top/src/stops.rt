//! Why a run stops.

ghost use Rattle.std.specs.Prelude.{◌≡◌};
ghost use Rattle.rf_top.specs.Stopping.{words_stop, shelf_stop, style_stop, read_stop, utf8_stop, lex_stop, tree_stop, format_stop, source_stop};
ghost use Rattle.rf_top.specs.declared.stops.Stop.TheVariants.{Memory};

use rf_base_source::SourceKind;
use rf_edges::{ReadError, ShelfError};
use rf_lexer::LexError;
use rf_style::StyleError;
use rf_text::NotUtf8;
use rf_tree::TreeError;
use rf_whole::{FormatError, SourceError};
use rf_words::WordsError;
use std::alloc::AllocError;

/// Why a run ends without an answer of its mode.
#[derive(Debug, Drop, PartialEq, Eq)]
pub enum Stop {
    /// The words are refused.
    Words,
    /// A read of the source or of the style file failed.
    Read,
    /// The style file holds more than 1,048,576 bytes.
    StyleTooLong,
    /// The style file is no TOML.
    StyleText,
    /// The style file has a key that its table doesn't have.
    StyleKey(String),
    /// The value of this key of the style file is of another type, or is none of the key's words.
    StyleValue(String),
    /// The number of this key of the style file is out of its range.
    StyleRange(String, i64),
    /// The source holds more than 4,194,304 bytes.
    SourceTooLong,
    /// The source is refused.
    Refused {
        /// Why it is refused.
        kind: SourceKind,
        /// The byte that the kind names, counted from the source's start.
        offset: u32,
    },
    /// The layout is too long.
    LayoutTooLong,
    /// A write of the answer failed.
    Write,
    /// Memory ran out.
    Memory,
}

impl From<WordsError> for Stop {
    ghost from_gives = { λ fault stop. stop ≡ words_stop fault };

    fn from(fault: WordsError) -> Stop {
        match fault {
            WordsError::Refused => Stop::Words,
            WordsError::Memory(_) => Stop::Memory,
        }
    }
}

impl From<ShelfError> for Stop {
    ghost from_gives = { λ fault stop. stop ≡ shelf_stop fault };

    fn from(fault: ShelfError) -> Stop {
        match fault {
            ShelfError::TooLong => Stop::StyleTooLong,
            ShelfError::Failed => Stop::Read,
            ShelfError::Memory(_) => Stop::Memory,
        }
    }
}

impl From<StyleError> for Stop {
    ghost from_gives = { λ fault stop. stop ≡ style_stop fault };

    fn from(fault: StyleError) -> Stop {
        match fault {
            StyleError::StyleText => Stop::StyleText,
            StyleError::StyleKey(key) => Stop::StyleKey(key),
            StyleError::StyleValue(key) => Stop::StyleValue(key),
            StyleError::StyleRange(key, number) => Stop::StyleRange(key, number),
            StyleError::Memory(_) => Stop::Memory,
        }
    }
}

impl From<ReadError> for Stop {
    ghost from_gives = { λ fault stop. stop ≡ read_stop fault };

    fn from(fault: ReadError) -> Stop {
        match fault {
            ReadError::Fault => Stop::Read,
            ReadError::TooLong => Stop::SourceTooLong,
            ReadError::Memory(_) => Stop::Memory,
        }
    }
}

impl From<NotUtf8> for Stop {
    ghost from_gives = { λ fault stop. stop ≡ utf8_stop fault };

    fn from(fault: NotUtf8) -> Stop {
        Stop::Refused {
            kind: SourceKind::NotUtf8,
            offset: fault.offset,
        }
    }
}

impl From<LexError> for Stop {
    ghost from_gives = { λ fault stop. stop ≡ lex_stop fault };

    fn from(fault: LexError) -> Stop {
        match fault {
            LexError::Refused { kind, offset } => Stop::Refused {
                kind: SourceKind::Lex(kind),
                offset,
            },
            LexError::Memory(_) => Stop::Memory,
        }
    }
}

impl From<TreeError> for Stop {
    ghost from_gives = { λ fault stop. stop ≡ tree_stop fault };

    fn from(fault: TreeError) -> Stop {
        match fault {
            TreeError::Refused { kind, offset } => Stop::Refused {
                kind: SourceKind::Tree(kind),
                offset,
            },
            TreeError::Memory(_) => Stop::Memory,
        }
    }
}

impl From<FormatError> for Stop {
    ghost from_gives = { λ fault stop. stop ≡ format_stop fault };

    fn from(fault: FormatError) -> Stop {
        match fault {
            FormatError::TooLong => Stop::LayoutTooLong,
            FormatError::Memory(_) => Stop::Memory,
        }
    }
}

impl From<SourceError> for Stop {
    ghost from_gives = { λ fault stop. stop ≡ source_stop fault };

    fn from(fault: SourceError) -> Stop {
        match fault {
            SourceError::Tree(fault) => Stop::from(fault),
            SourceError::Layout(fault) => Stop::from(fault),
        }
    }
}

impl From<AllocError> for Stop {
    ghost from_gives = { λ _ stop. stop ≡ Memory };

    fn from(_fault: AllocError) -> Stop {
        Stop::Memory
    }
}
