//! What is quoted, and what begins a vector, by how prefixes and openers are spelled.

ghost use Rattle.std.specs.Prelude.{◌≡◌, ◌||◌, codes};
ghost use Rattle.std.specs.Str.{chars};
ghost use Rattle.rf_base_grammar.specs.Reader.{begins, among};
ghost use Rattle.rf_base_file.specs.Ways.{quotes, unquotes, quoted_behind};

use rf_text::{first, is_word};

/// Whether what stands behind this prefix is quoted, where the prefix is or isn't.
pub fn quoted_behind(prefix: &str, quoted: bool) -> bool
    ensures { result ≡ quoted_behind (chars prefix.now) quoted }
{
    if quotes(prefix) {
        true
    } else if unquotes(prefix) {
        false
    } else {
        quoted
    }
}

// Whether the prefix quotes.
fn quotes(prefix: &str) -> bool
    ensures { result ≡ among quotes (chars prefix.now) }
{
    is_word(prefix, "'") || is_word(prefix, "`")
}

// Whether the prefix ends quoting.
fn unquotes(prefix: &str) -> bool
    ensures { result ≡ among unquotes (chars prefix.now) }
{
    is_word(prefix, ",") || is_word(prefix, ",@")
}

/// Whether what stands in a list with this opener is quoted, where the list is or isn't.
pub fn quoted_inside(opener: &str, quoted: bool) -> bool
    ensures { result ≡ (begins (codes "#") (chars opener.now) || quoted) }
{
    is_vector(opener) || quoted
}

// Whether the opener begins with a hash sign.
fn is_vector(opener: &str) -> bool
    ensures { result ≡ begins (codes "#") (chars opener.now) }
{
    match first(opener) {
        Some((c, _)) => c == '#',
        None => false,
    }
}
