//! The lines of a text.

ghost use Rattle.std.specs.Prelude.{◌≡◌, ◌<◌, ◌≤◌, ◌↔◌, true, IsTrue, IsFalse, IsNone, IfSome, length};
ghost use Rattle.std.specs.List.{list_all};
ghost use Rattle.std.specs.Str.{chars};
ghost use Rattle.rf_base_document.specs.Document.{IsOneLine};
ghost use Rattle.rf_base_style.specs.Columns.{length_in};
ghost use Rattle.rf_text.specs.Lines.{HoldsLineEnd, is_plain, first_difference, line_of_next};

use crate::characters::length;
use rf_base_grammar::SOURCE_LIMIT;
use rf_base_style::Columns;

/// Whether the text stands on one line: it holds no LF. This takes no memory.
pub fn one_line(s: &str) -> bool
    ensures one { IsTrue result → IsOneLine (chars s.now) }
    ensures more { IsFalse result → HoldsLineEnd (chars s.now) }
{
    !s.as_bytes().contains(&b'\n')
}

/// How many columns the text takes up, as `length` says, where it stands on one line; none where it holds an LF. It
/// holds at most 4,194,304 bytes. This takes no memory.
pub fn line_length(s: &str, columns: Columns) -> Option<u32>
    requires { length s.now ≤ SOURCE_LIMIT }
    ensures one { IfSome result (λ _. IsOneLine (chars s.now)) }
    ensures columns { IfSome result (λ len. len ≡ length_in columns (chars s.now)) }
    ensures more { IsNone result → HoldsLineEnd (chars s.now) }
{
    match columns {
        Columns::Characters if are_plain(s.as_bytes()) => Some(s.len() as u32),
        _ if one_line(s) => Some(length(s, columns)),
        _ => None,
    }
}

// Whether each of the bytes is an ASCII character but LF. Each is looked at, so that many are at once.
#[inline(always)]
fn are_plain(bytes: &[u8]) -> bool
    ensures { IsTrue result → list_all is_plain bytes.now ≡ true }
{
    let mut most: u8 = 0;
    let mut at = 0;
    while at < bytes.len() {
        most = most.max(plain_or_not(bytes[at]));
        at += 1;
    }
    most < 128
}

// A byte below 128, where this one is an ASCII character but LF, and otherwise one that isn't.
#[inline(always)]
fn plain_or_not(byte: u8) -> u8
    ensures { result < 128 → is_plain byte ≡ true }
{
    if byte == b'\n' { 128 } else { byte }
}

/// The number, from 1, of the first line in which the two differ, or that stands in one of them only; none exactly
/// where they are the same. Lines are cut at LF, so bytes with n LFs have n + 1 lines. Each has fewer than 2^32 - 1
/// bytes. This takes no memory.
///
/// `"a\nb"` and `"a\nc"` differ first in line 2, and so do `"a"` and `"a\n"`.
pub fn first_difference(a: &[u8], b: &[u8]) -> Option<u32>
    requires first { length a.now < 4294967295 }
    requires second { length b.now < 4294967295 }
    // None stands exactly where the two are equal.
    ensures same { IsNone result ↔ (a.now ≡ b.now) }
    // It is the first of their lines that differs.
    ensures line { result ≡ first_difference a.now b.now }
{
    let mut line = 1;
    for (i, byte) in a.iter().enumerate() {
        match b.get(i) {
            None => return Some(line_of_next(line, *byte)),
            Some(other) if *other != *byte => return Some(line),
            Some(_) => line = line_of_next(line, *byte),
        }
    }
    match b.get(a.len()) {
        None => None,
        Some(byte) => Some(line_of_next(line, *byte)),
    }
}

// The line of what follows the byte, which stands on this line.
fn line_of_next(line: u32, byte: u8) -> u32
    requires { line < 4294967295 }
    ensures { result ≡ line_of_next line byte }
{
    if byte == b'\n' { line + 1 } else { line }
}
