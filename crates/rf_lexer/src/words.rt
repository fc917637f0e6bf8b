//! Which words runs are, and what their characters begin and end with.

ghost use Rattle.std.specs.Prelude.{◌≡◌, ◌==◌, ◌||◌, ◌&&◌, length, codes, ◌∷◌, []};
ghost use Rattle.std.specs.List.{list_any};
ghost use Rattle.std.specs.Str.{chars, bytes_eq};
ghost use Rattle.rf_base_grammar.specs.Runs.{booleans, atom_beginnings};
ghost use Rattle.rf_base_grammar.specs.Spelled.{opener_heads};
ghost use Rattle.rf_base_grammar.specs.Strings.{string_heads};
ghost use Rattle.rf_base_grammar.specs.Reader as Reader;
ghost use Rattle.rf_lexer.specs.Places.{IsStripped};
ghost use Rattle.rf_lexer.specs.Words.{is_hash_atom};

use crate::classes::{Class, split};
use crate::cursor::first;
use rf_text::is_word;

/// The text behind the character, where the text begins with it.
#[inline]
pub fn behind_char(text: &str, c: char) -> Option<&str>
    ensures { IsStripped (Reader.strip (c ∷ []) (chars text.now)) result }
{
    let (d, behind) = first(text)?;
    (c == d).then_some(behind)
}

/// The text behind the word, where the text begins with it.
pub fn behind_word<'s>(text: &'s str, word: &str) -> Option<&'s str>
    ensures { IsStripped (Reader.strip (chars word.now) (chars text.now)) result }
{
    let mut rest = text;
    let mut left = word;
    while let Some((c, more)) = first(left) {
        rest = behind_char(rest, c)?;
        left = more;
    }
    Some(rest)
}

// Whether the text begins with the word.
fn begins(text: &str, word: &str) -> bool
    ensures { result ≡ Reader.begins (chars word.now) (chars text.now) }
{
    behind_word(text, word).is_some()
}

/// Whether the last character of the text is this one.
pub fn ends_in(text: &str, c: char) -> bool
    ensures { result ≡ Reader.ends_in c (chars text.now) }
{
    let mut last = false;
    let mut rest = text;
    while let Some((d, behind)) = first(rest) {
        last = c == d;
        rest = behind;
    }
    last
}

// How many characters the text has.
fn count(text: &str) -> usize
    ensures { result ≡ length (chars text.now) }
{
    text.chars().count()
}

/// Whether the digits are as many as a number of a hash word may have.
pub fn is_short(digits: &str) -> bool
    ensures { result ≡ Reader.is_short (chars digits.now) }
{
    let count = count(digits);
    1 <= count && count <= 8
}

// Whether the text is one of the words.
fn is_among(words: &[&str], text: &str) -> bool
    ensures { result ≡ list_any (λ word. bytes_eq (chars word.now) (chars text.now)) words.now }
{
    words.iter().any(|word| is_word(text, word))
}

// Whether the run is a hash sign, a number, and the end.
fn is_number_word(run: &str, end: &str) -> bool
    ensures { result ≡ Reader.is_number_word (chars end.now) (chars run.now) }
{
    let Some((c, text)) = first(run) else {
        return false;
    };
    let (digits, rest) = split(text, Class::Digit);
    c == '#' && is_short(digits) && is_word(rest, end)
}

// Whether the run refers to a graph's part, as `#1#`.
fn is_reference(run: &str) -> bool
    ensures { result ≡ Reader.is_number_word (codes "#") (chars run.now) }
{
    is_number_word(run, "#")
}

// Whether the run is the length of a vector, as `#1`.
fn is_length(run: &str) -> bool
    ensures { result ≡ Reader.is_number_word [] (chars run.now) }
{
    is_number_word(run, "")
}

// Whether the run is a boolean.
fn is_boolean(run: &str) -> bool
    ensures { result ≡ Reader.among booleans (chars run.now) }
{
    is_among(&["#t", "#T", "#true", "#f", "#F", "#false"], run)
}

// Whether the run begins as numbers with a radix or an exactness do, or keywords, or symbols such as `#%app`.
fn begins_atom(run: &str) -> bool
    ensures { result ≡ Reader.begins_among atom_beginnings (chars run.now) }
{
    let Some(mark) = behind_char(run, '#') else {
        return false;
    };
    match first(mark) {
        Some((c, _)) => matches!(
            c,
            'd' | 'b' | 'o' | 'x' | 'e' | 'i' | 'D' | 'B' | 'O' | 'X' | 'E' | 'I' | ':' | '%'
        ),
        None => false,
    }
}

// Whether the run is an atom that begins with a hash sign.
fn is_hash_atom(run: &str) -> bool
    ensures { result ≡ is_hash_atom (chars run.now) }
{
    is_boolean(run) || begins_atom(run) || is_reference(run)
}

/// Whether the run is an atom, where it isn't the dot.
pub fn is_atom_run(run: &str) -> bool
    ensures { result ≡ Reader.is_atom_run (chars run.now) }
{
    match first(run) {
        None => false,
        Some((c, _)) if c != '#' => true,
        Some(_) => is_hash_atom(run),
    }
}

/// Whether the run is the dot.
pub fn is_dot(run: &str) -> bool
    ensures { result ≡ bytes_eq (chars run.now) (codes ".") }
{
    is_word(".", run)
}

/// Whether the run may stand before an opening bracket.
pub fn is_opener_head(run: &str) -> bool
    ensures { result ≡ Reader.is_opener_head (chars run.now) }
{
    is_list_head(run) || is_length(run)
}

// Whether the run is a word that may stand before an opening bracket.
fn is_list_head(run: &str) -> bool
    ensures { result ≡ Reader.among opener_heads (chars run.now) }
{
    is_among(
        &[
            "", "#", "#s", "#hash", "#hasheq", "#hasheqv", "#hashalw", "#fl", "#fx",
        ],
        run,
    )
}

/// Whether the run may stand before an opening quote.
pub fn is_string_head(run: &str) -> bool
    ensures { result ≡ Reader.among string_heads (chars run.now) }
{
    is_among(&["", "#", "#rx", "#px", "#rx#", "#px#"], run)
}

/// Whether the language has another reader than the plain one.
pub fn is_other_reader(name: &str) -> bool
    ensures { result ≡ Reader.is_other_reader (chars name.now) }
{
    is_other_language(name) || begins_other_language(name)
}

// Whether the name begins as those of other languages with another reader do.
fn begins_other_language(name: &str) -> bool
    ensures { result ≡ (Reader.begins (codes "rhombus/") (chars name.now)
        || Reader.begins (codes "scribble/") (chars name.now)) }
{
    begins_rhombus(name) || begins_scribble(name)
}

// Whether the name begins as those of Rhombus's languages do.
fn begins_rhombus(name: &str) -> bool
    ensures { result ≡ Reader.begins (codes "rhombus/") (chars name.now) }
{
    begins(name, "rhombus/")
}

// Whether the name begins as those of Scribble's languages do.
fn begins_scribble(name: &str) -> bool
    ensures { result ≡ Reader.begins (codes "scribble/") (chars name.now) }
{
    begins(name, "scribble/")
}

// Whether the name is that of a language with another reader.
fn is_other_language(name: &str) -> bool
    ensures { result ≡ Reader.among (codes "at-exp" ∷ codes "datalog" ∷ codes "rhombus" ∷ []) (chars name.now) }
{
    is_among(&["at-exp", "datalog", "rhombus"], name)
}
