//! The characters of a text.
//!
//! A function's line `tactic` names the definitions that its proof opens.

ghost use Rattle.std.specs.Prelude.{◌≡◌, ◌≤◌, length};
ghost use Rattle.std.specs.Str.{chars};
ghost use Rattle.rf_base_grammar.specs.Characters.{is_delimiter};
ghost use Rattle.rf_base_style.specs.Columns.{display_width, display_length, length_in};

use rf_base_grammar::SOURCE_LIMIT;
use rf_base_style::Columns;
use unicode_width::UnicodeWidthChar;

/// How many characters (Unicode scalar values) the text has. It holds at most 4,194,304 bytes. This takes no memory.
pub fn chars(s: &str) -> u32
    requires { length s.now ≤ SOURCE_LIMIT }
    ensures { result ≡ length (chars s.now) }
{
    if s.is_ascii() {
        return s.len() as u32;
    }
    s.chars().count() as u32
}

/// How many columns the text takes up: one for each character, or, as a terminal shows it, for each character the width
/// that Unicode gives it by itself, where more than 2 counts as 2 and none as 1. The text holds at most 4,194,304
/// bytes. This takes no memory.
///
/// `(f 漢字 b)` takes up 8 columns by characters, and 10 as it is shown.
#[tactic(auto, unfolding(rf_base_style::specs::Columns::length_in))]
pub fn length(s: &str, columns: Columns) -> u32
    requires { length s.now ≤ SOURCE_LIMIT }
    ensures { result ≡ length_in columns (chars s.now) }
{
    match columns {
        Columns::Characters => chars(s),
        Columns::Display => display_length(s),
    }
}

// How many columns a terminal gives the character by itself.
#[tactic(auto, unfolding(rf_base_style::specs::Columns::display_width))]
#[inline]
fn display_width(c: char) -> u32
    ensures { result ≡ display_width c }
{
    match c.width() {
        Some(width) => width.min(2) as u32,
        None => 1,
    }
}

// How many columns a terminal gives each character by itself, together.
fn display_length(s: &str) -> u32
    requires { length s.now ≤ SOURCE_LIMIT }
    ensures { result ≡ display_length (chars s.now) }
{
    let mut total = 0;
    for c in s.chars() {
        total += display_width(c);
    }
    total
}

/// Whether the character is a delimiter: white space (Unicode's White_Space), one of `( ) [ ] { } " , '`, the back
/// quote or `;`. This takes no memory.
#[tactic(auto, unfolding(rf_base_grammar::specs::Characters::is_delimiter, rf_base_grammar::specs::Characters::is_white))]
#[inline]
pub fn is_delimiter(c: char) -> bool
    ensures { result ≡ is_delimiter c }
{
    c.is_whitespace()
        || matches!(
            c,
            '(' | ')' | '[' | ']' | '{' | '}' | '"' | ',' | '\'' | '`' | ';'
        )
}
