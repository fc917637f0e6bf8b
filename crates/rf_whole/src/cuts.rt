//! Where a source may be cut into passages, and the blank lines there.

ghost use Rattle.std.specs.Prelude.{◌≡◌, ◌<◌, ◌≤◌, ◌++◌, [], ◌∷◌, length, IsTrue};
ghost use Rattle.std.specs.Str.{chars};
ghost use Rattle.rf_base_grammar.specs.Characters.{BeginsWith};
ghost use Rattle.rf_style.specs.StyleOf.{seen};
ghost use Rattle.rf_whole.specs.Passages.{EndsOrFeeds, blanks_ahead};

use rf_base_grammar::SOURCE_LIMIT;
use rf_lexer::behind_gap;
use rf_style::Style;
use rf_text::first;

/// The text in two, at the first place behind so many bytes where a list seems to end and something else to begin on
/// the next line; without such a place all of it, and nothing.
///
/// Behind 1 byte, `(a)`, an LF and `(b)` are cut before the LF.
pub fn cut_in_two(text: &str, size: usize) -> (&str, &str)
    ensures whole { chars text.now ≡ chars result.0.now ++ chars result.1.now }
    ensures feeds { EndsOrFeeds (chars result.1.now) }
    ensures within { (length result.0.now ≤ length text.now) × (length result.1.now ≤ length text.now) }
{
    cut_before_feed(text, place_of_cut(text.as_bytes(), size, true))
}

/// The same where anything seems to end, not only a list.
///
/// Behind 1 byte, `; a`, an LF and `; b` are cut before the LF.
pub fn cut_at_line(text: &str, size: usize) -> (&str, &str)
    ensures whole { chars text.now ≡ chars result.0.now ++ chars result.1.now }
    ensures feeds { EndsOrFeeds (chars result.1.now) }
    ensures within { (length result.0.now ≤ length text.now) × (length result.1.now ≤ length text.now) }
{
    cut_before_feed(text, place_of_cut(text.as_bytes(), size, false))
}

// The text in two before its byte of this number, where a line end begins there; otherwise all of it, and nothing.
fn cut_before_feed(text: &str, at: usize) -> (&str, &str)
    ensures whole { chars text.now ≡ chars result.0.now ++ chars result.1.now }
    ensures feeds { EndsOrFeeds (chars result.1.now) }
    ensures within { (length result.0.now ≤ length text.now) × (length result.1.now ≤ length text.now) }
{
    let (front, rest) = cut_at(text, at);
    if feeds(rest) {
        (front, rest)
    } else {
        (text, "")
    }
}

/// The text in two among its first so many bytes, at the last place where an item seems to end; without one nothing,
/// and all of it.
///
/// Among 5 bytes, `(a) bcd` is cut behind `(a)`.
pub fn cut_behind_item(text: &str, size: usize) -> (&str, &str)
    ensures whole { chars text.now ≡ chars result.0.now ++ chars result.1.now }
    ensures within { (length result.0.now ≤ length text.now) × (length result.1.now ≤ length text.now) }
{
    cut_at(text, place_behind_item(text.as_bytes(), size))
}

// The text in two before its byte of this number, where a character begins there or the text ends; otherwise all of it,
// and nothing.
fn cut_at(text: &str, at: usize) -> (&str, &str)
    ensures whole { chars text.now ≡ chars result.0.now ++ chars result.1.now }
    ensures within { (length result.0.now ≤ length text.now) × (length result.1.now ≤ length text.now) }
{
    match (text.get(..at), text.get(at..)) {
        (Some(front), Some(rest)) => (front, rest),
        _ => (text, ""),
    }
}

// How many of the first so many bytes stand before the last place where an item seems to end. No contract says where
// that is: no answer rests on it.
fn place_behind_item(bytes: &[u8], size: usize) -> usize {
    let mut place = 0;
    for at in 0..size.min(bytes.len()) {
        match bytes[at] {
            b'(' | b')' | b'[' | b']' | b'{' | b'}' | b'\'' | b'`' | b'"' | b';' => place = at + 1,
            b' ' | b'\n' => place = at,
            _ => {}
        }
    }
    place
}

// Whether a line end begins the text.
fn feeds(text: &str) -> bool
    ensures { IsTrue result → BeginsWith (10 ∷ []) (chars text.now) }
{
    matches!(first(text), Some(('\n', _)))
}

// The number of the byte where the bytes may be cut behind so many, and not much further on, behind a list alone or
// behind anything; or how many bytes there are. No contract says where that is: no answer rests on it.
fn place_of_cut(bytes: &[u8], size: usize, lists: bool) -> usize {
    let end = size.saturating_mul(4).min(bytes.len());
    for at in size..end {
        if bytes[at] == b'\n' && may_cut(bytes, at, lists) {
            return at;
        }
    }
    bytes.len()
}

// Whether a list, or anything, seems to end before the line end of this number, and a form or a comment to begin the
// next line, or the one behind a blank line.
fn may_cut(bytes: &[u8], at: usize, lists: bool) -> bool
    requires { at < length bytes.now }
{
    let behind = match bytes.get(at + 1) {
        Some(b'\n') => bytes.get(at + 2),
        next => next,
    };
    begins_form(behind) && at > 0 && may_end(bytes[at - 1], lists)
}

// Whether a list seems to end with this byte; or anything does, where it needn't be a list.
fn may_end(byte: u8, lists: bool) -> bool {
    matches!(byte, b')' | b']') || !lists && !byte.is_ascii_whitespace()
}

// Whether a form or a comment seems to begin with this byte, if there is one.
fn begins_form(byte: Option<&u8>) -> bool {
    matches!(byte, Some(b'(' | b'[' | b'\'' | b'`' | b';'))
}

/// The blank lines that a layout in the style keeps before what the text begins with.
pub fn blank_lines_ahead(text: &str, style: &Style) -> u32
    requires { length text.now ≤ SOURCE_LIMIT }
    ensures { result ≡ blanks_ahead (seen style.now) (chars text.now) }
{
    let (line_ends, _) = behind_gap(text);
    line_ends.saturating_sub(1).min(style.blanks)
}
