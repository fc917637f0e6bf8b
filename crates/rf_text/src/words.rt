//! Texts that are words.

ghost use Rattle.std.specs.Prelude.{◌≡◌};
ghost use Rattle.std.specs.Str.{chars, bytes_eq};

/// Whether the text is the word. This takes no memory.
pub fn is_word(text: &str, word: &str) -> bool
    ensures { result ≡ bytes_eq (chars word.now) (chars text.now) }
{
    text == word
}
