//! Where a string ends.

ghost use Rattle.std.specs.Prelude.{ℕ, ◌≤◌, length, List, false, MatchOption};
ghost use Rattle.std.specs.Str.{chars};
ghost use Rattle.rf_base_grammar.specs.Cuts.{string_cut};
ghost use Rattle.rf_base_grammar.specs.Reader as Reader;
ghost use Rattle.rf_lexer.specs.Fronts.{Tells};
ghost use Rattle.rf_lexer.specs.Places.{IsBehind};
ghost use Rattle.rf_lexer.specs.Strings.{StringEnds, StringGoesOn, StringIsBehind};

use crate::classes::{Class, past_ascii};
use crate::cursor::first;
use crate::front::Front;
use rf_base_grammar::{Kind, LexKind};

// Whether a backslash takes the character behind this one of a string, where the flag says whether one takes this one;
// none where this one ends the string.
#[inline(always)]
fn escapes(escaped: bool, c: char) -> Option<bool>
    ensures { MatchOption result (StringEnds escaped c) (λ next. StringGoesOn escaped c next) }
{
    if escaped {
        return Some(false);
    }
    if c == '"' {
        return None;
    }
    Some(c == '\\')
}

// The text behind the characters that stand for themselves where the string goes on, unless a backslash takes the
// first.
#[inline(always)]
fn behind_plain(escaped: bool, text: &str) -> &str
    ensures same { StringIsBehind escaped (chars text.now) (chars result.now) }
    ensures shorter { length (chars result.now) ≤ length (chars text.now) }
{
    if escaped {
        text
    } else {
        past_ascii(text, Class::InString)
    }
}

/// The text behind the closing quote of the string whose opening quote stands before the text; none where it isn't
/// closed.
pub fn behind_string(text: &str) -> Option<&str>
    ensures { IsBehind (string_cut false (chars text.now)) result }
{
    let mut escaped = false;
    let mut rest = behind_plain(false, text);
    while let Some((c, behind)) = first(rest) {
        let Some(next) = escapes(escaped, c) else {
            return Some(behind);
        };
        escaped = next;
        rest = behind_plain(next, behind);
    }
    None
}

/// A string, from what is behind its opening quote.
pub fn string_item(text: &str) -> Front<'_>
    ensures { (start : List ℕ) → Tells (Reader.string_item start (string_cut false (chars text.now))) result }
{
    match behind_string(text) {
        Some(behind) => Front::Read {
            kind: Kind::Str,
            behind,
        },
        None => Front::Unread {
            kind: LexKind::OpenString,
            offset: 0,
        },
    }
}
