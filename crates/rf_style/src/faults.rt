//! Why a style file is refused.

ghost use Rattle.rf_style.specs.Faults.{style_key, style_value, style_range};
ghost use Rattle.rf_style.specs.Answers.{Names};

use std::alloc::{AllocError, Global};

/// Why there is no style.
#[derive(Debug, Drop, PartialEq, Eq)]
pub enum StyleError {
    /// The bytes are no TOML.
    StyleText,
    /// The key is none of its table.
    StyleKey(String),
    /// The key's value has another type than is asked, or is a text that isn't one of its words; or the name has no
    /// rule.
    StyleValue(String),
    /// The key's number is out of its range.
    StyleRange(String, i64),
    /// Memory ran out.
    Memory(AllocError),
}

impl From<AllocError> for StyleError {
    ghost use Rattle.std.specs.Prelude.{◌≡◌};
    ghost use Rattle.rf_style.specs.declared.faults.StyleError.TheVariants.{Memory};

    ghost from_gives = { λ error fault. fault ≡ Memory error };

    fn from(error: AllocError) -> StyleError {
        StyleError::Memory(error)
    }
}

// The refusal of a key that its table doesn't have.
pub(crate) fn unknown_key(alloc: Global, key: &str) -> StyleError
    ensures { Names (style_key key.now) result }
{
    match String::from_str(alloc, key) {
        Ok(key) => StyleError::StyleKey(key),
        Err(error) => StyleError::Memory(error),
    }
}

// The refusal of a key's value.
pub(crate) fn wrong_value(alloc: Global, key: &str) -> StyleError
    ensures { Names (style_value key.now) result }
{
    match String::from_str(alloc, key) {
        Ok(key) => StyleError::StyleValue(key),
        Err(error) => StyleError::Memory(error),
    }
}

// The refusal of a key's number.
pub(crate) fn out_of_range(alloc: Global, key: &str, number: i64) -> StyleError
    ensures { Names (style_range key.now number) result }
{
    match String::from_str(alloc, key) {
        Ok(key) => StyleError::StyleRange(key, number),
        Err(error) => StyleError::Memory(error),
    }
}
