//! Where a here string ends.

ghost use Rattle.std.specs.Prelude.{◌≡◌, ◌++◌, Some, codes};
ghost use Rattle.std.specs.Str.{chars};
ghost use Rattle.rf_base_grammar.specs.Cuts.{here_cut, span};
ghost use Rattle.rf_base_grammar.specs.Reader as Reader;
ghost use Rattle.rf_base_grammar.specs.Strings.{is_no_return};
ghost use Rattle.rf_lexer.specs.Fronts.{Tells};
ghost use Rattle.rf_lexer.specs.HereLines.{ends_lines, feeds};
ghost use Rattle.rf_lexer.specs.Places.{IsBehind};

use crate::classes::{Class, past, split};
use crate::cursor::first;
use crate::front::Front;
use crate::words::behind_char;
use rf_base_grammar::{Kind, LexKind};
use rf_text::is_word;

/// The text behind the first line that is the terminator; none where there is no such line, or a CR stands before its
/// end. The text is the lines behind that of the terminator.
pub fn behind_here<'s>(terminator: &str, text: &'s str) -> Option<&'s str>
    ensures { IsBehind (here_cut (chars terminator.now) (Some (chars terminator.now)) (chars text.now)) result }
{
    let mut lines = text;
    loop {
        let (line, rest) = split(lines, Class::OfTerminator);
        if ends_here(terminator, line, rest) {
            return Some(rest);
        }
        lines = behind_char(rest, '\n')?;
    }
}

// Whether the line is the terminator, and the rest is at its end or goes on with a line end.
fn ends_here(terminator: &str, line: &str, rest: &str) -> bool
    ensures { result ≡ ends_lines (chars terminator.now) (chars line.now) (chars rest.now) }
{
    is_word(line, terminator) && is_feed(rest)
}

// Whether the text is at its end or goes on with an LF.
fn is_feed(text: &str) -> bool
    ensures { result ≡ feeds (chars text.now) }
{
    match first(text) {
        None => true,
        Some((c, _)) => c == '\n',
    }
}

/// A here string, from what is behind `#<<`.
pub fn here_item<'s>(text: &'s str, behind: &'s str) -> Front<'s>
    requires { chars text.now ≡ codes "#<<" ++ chars behind.now }
    ensures { Tells (Reader.here_item (chars behind.now)) result }
{
    let (terminator, rest) = split(behind, Class::OfTerminator);
    let Some(lines) = behind_char(rest, '\n') else {
        return open_here(text, behind);
    };
    match behind_here(terminator, lines) {
        Some(behind) => Front::Read {
            kind: Kind::Here,
            behind,
        },
        None => open_here(text, behind),
    }
}

// The refusal of a here string that isn't ended, from what is behind `#<<`.
fn open_here<'s>(text: &str, behind: &str) -> Front<'s>
    requires { chars text.now ≡ codes "#<<" ++ chars behind.now }
    ensures { Tells (Reader.open_here (span is_no_return (chars behind.now))) result }
{
    let rest = past(behind, Class::NoReturn);
    match first(rest) {
        None => Front::Unread {
            kind: LexKind::OpenHere,
            offset: 0,
        },
        Some(_) => Front::stray(text, rest),
    }
}
