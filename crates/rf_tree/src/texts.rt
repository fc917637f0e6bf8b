//! What texts of items begin with.

ghost use Rattle.std.specs.Prelude.{◌≡◌, [], ◌∷◌, codes};
ghost use Rattle.std.specs.Str.{chars};
ghost use Rattle.rf_base_grammar.specs.Reader.{begins, among};
ghost use Rattle.rf_base_grammar.specs.Spelled.{unquotes};
ghost use Rattle.rf_base_tree.specs.Cut.{begins_undelimited};

use rf_text::{first, is_delimiter, is_word};

// Whether the text begins with the character.
fn begins_with(text: &str, c: char) -> bool
    ensures { result ≡ begins (c ∷ []) (chars text.now) }
{
    match first(text) {
        Some((d, _)) => c == d,
        None => false,
    }
}

/// Whether the text begins as keywords do.
pub fn is_keyword(text: &str) -> bool
    ensures { result ≡ begins (codes "#:") (chars text.now) }
{
    matches!(text.as_bytes(), [b'#', b':', ..])
}

/// Whether the text begins with an at sign.
pub fn begins_with_at(text: &str) -> bool
    ensures { result ≡ begins (codes "@") (chars text.now) }
{
    begins_with(text, '@')
}

/// Whether the text begins with a character that is no delimiter.
pub fn begins_undelimited(text: &str) -> bool
    ensures { result ≡ begins_undelimited (chars text.now) }
{
    match first(text) {
        Some((c, _)) => !is_delimiter(c),
        None => false,
    }
}

/// Whether an at sign would make a longer prefix of the text.
pub fn is_unquote(text: &str) -> bool
    ensures { result ≡ among unquotes (chars text.now) }
{
    is_word(text, ",") || is_word(text, "#,")
}
