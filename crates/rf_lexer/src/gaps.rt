//! Where a gap ends.
//!
//! A function's line `tactic` names the definition that its proof opens.

ghost use Rattle.std.specs.Prelude.{◌≡◌, ◌==◌, ◌≤◌, if◌then◌else◌, length, IsTrue};
ghost use Rattle.std.specs.Str.{chars};
ghost use Rattle.rf_base_grammar.specs.Characters as Characters;
ghost use Rattle.rf_base_grammar.specs.LanguageLine.{is_blank};
ghost use Rattle.rf_lexer.specs.Classes.{BeginsWithMarks, IsBehindMarks};
ghost use Rattle.rf_lexer.specs.Gaps.{EndsGap, EndsOrBegins};

use crate::classes::{Class, past_ascii};
use crate::cursor::first;
use rf_base_grammar::SOURCE_LIMIT;

// Whether the character is white space: whether it has Unicode's property White_Space.
#[tactic(auto, unfolding(rf_base_grammar::specs::Characters::is_white))]
#[inline(always)]
fn is_white(c: char) -> bool
    ensures { result ≡ Characters.is_white c }
{
    c.is_whitespace()
}

// 1 for an LF, and 0 for another character.
#[inline(always)]
fn feed(c: char) -> u32
    ensures is { result ≡ (if c == 10 then 1 else 0) }
    ensures few { result ≤ 1 }
{
    if c == '\n' { 1 } else { 0 }
}

/// How many LFs the gap at the front of the text holds, and the text behind it.
///
/// Of two LFs, a space and `a`, the answer is 2 and `a`.
#[inline(always)]
pub fn behind_gap(text: &str) -> (u32, &str)
    requires { length text.now ≤ SOURCE_LIMIT }
    ensures gap { EndsGap (chars text.now) result.0 (chars result.1.now) }
    ensures few { result.0 ≤ length text.now }
{
    let place = behind_space(text);
    if stands_at_once(place) {
        (0, place)
    } else {
        behind_any_gap(text)
    }
}

// How many spaces the text begins with, where of more than one the first alone counts.
#[inline(always)]
fn space_len(text: &str) -> usize
    ensures within { result ≤ length text.now }
    ensures marks { BeginsWithMarks is_blank text.now result }
{
    match text.as_bytes().first() {
        Some(b' ') => 1,
        Some(_) | None => 0,
    }
}

// The text behind the space that it may begin with: nearly all gaps are one space or nothing.
#[inline(always)]
fn behind_space(text: &str) -> &str
    ensures { IsBehindMarks is_blank (chars text.now) (chars result.now) }
{
    &text[space_len(text)..]
}

// Whether a graphic character of ASCII begins the text: no gap stands before it.
#[inline(always)]
fn stands_at_once(text: &str) -> bool
    ensures { IsTrue result → EndsOrBegins (chars text.now) }
{
    match first(text) {
        Some((c, _)) => c.is_ascii_graphic(),
        None => false,
    }
}

// The bytes of eight spaces, as a number whose lowest byte is the first.
const SPACES: u64 = 0x2020_2020_2020_2020;

// Whether the text begins with eight spaces.
#[inline(always)]
fn begins_wide(text: &str) -> bool
    ensures within { IsTrue result → 8 ≤ length text.now }
    ensures marks { IsTrue result → BeginsWithMarks is_blank text.now 8 }
{
    let b = text.as_bytes();
    b.len() >= 8 && u64::from_le_bytes([b[0], b[1], b[2], b[3], b[4], b[5], b[6], b[7]]) == SPACES
}

// The text behind the blanks that it begins with: eight spaces at a time, and then one by one.
#[inline(always)]
fn past_blanks(text: &str) -> &str
    ensures { IsBehindMarks is_blank (chars text.now) (chars result.now) }
{
    let mut rest = text;
    while begins_wide(rest) {
        rest = &rest[8..];
    }
    past_ascii(rest, Class::Blank)
}

// The same as `behind_gap`, character by character.
fn behind_any_gap(text: &str) -> (u32, &str)
    requires { length text.now ≤ SOURCE_LIMIT }
    ensures gap { EndsGap (chars text.now) result.0 (chars result.1.now) }
    ensures few { result.0 ≤ length text.now }
{
    let mut feeds = 0;
    let mut rest = text;
    while let Some((c, behind)) = first(rest) {
        if !is_white(c) {
            return (feeds, rest);
        }
        feeds += feed(c);
        rest = past_blanks(behind);
    }
    (feeds, rest)
}
