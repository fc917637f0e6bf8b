//! Items that runs make: atoms and the dot, and with what is behind them lists and strings.

ghost use Rattle.std.specs.Prelude.{◌≡◌, Some};
ghost use Rattle.std.specs.Str.{chars};
ghost use Rattle.rf_base_grammar.specs.Cuts.{run_cut, Bare};
ghost use Rattle.rf_base_grammar.specs.Reader as Reader;
ghost use Rattle.rf_lexer.specs.Fronts.{Tells, BeginsAtom};

use crate::classes::{Class, past, split};
use crate::cursor::{before, first};
use crate::front::Front;
use crate::runs::behind_run;
use crate::strings::string_item;
use crate::words::{behind_char, is_atom_run, is_dot, is_opener_head, is_short, is_string_head};
use rf_base_grammar::{Bracket, Kind, LexKind};

/// The bracket that opens with the character.
pub fn opened_by(c: char) -> Option<Bracket>
    ensures { result ≡ Reader.opened_by c }
{
    match c {
        '(' => Some(Bracket::Round),
        '[' => Some(Bracket::Square),
        '{' => Some(Bracket::Curly),
        _ => None,
    }
}

/// The item that the run at the front of the text makes.
#[inline(never)]
pub fn run_item(text: &str) -> Front<'_>
    ensures { Tells (Reader.run_item (run_cut Bare (chars text.now))) result }
{
    let Some(rest) = behind_run(text) else {
        return Front::Unread {
            kind: LexKind::OpenBar,
            offset: 0,
        };
    };
    let run = before(text, rest);
    if is_dot(run) {
        return Front::Read {
            kind: Kind::Dot,
            behind: rest,
        };
    }
    if is_atom_run(run) {
        return Front::Read {
            kind: Kind::Atom,
            behind: rest,
        };
    }
    headed_item(run, rest)
}

/// The atom that the run at the front of the text makes, which begins with this character.
#[inline(always)]
pub fn atom_item(text: &str, c: char) -> Front<'_>
    requires { BeginsAtom c (chars text.now) }
    ensures { Tells (Reader.run_item (run_cut Bare (chars text.now))) result }
{
    match behind_run(text) {
        Some(behind) => Front::Read {
            kind: Kind::Atom,
            behind,
        },
        None => Front::Unread {
            kind: LexKind::OpenBar,
            offset: 0,
        },
    }
}

// The item that a run which is no atom makes with the bracket or the quote behind it.
fn headed_item<'s>(run: &str, rest: &'s str) -> Front<'s>
    ensures { Tells (Reader.headed_item (chars run.now) (chars rest.now)) result }
{
    let Some((c, behind)) = first(rest) else {
        return Front::Unread {
            kind: LexKind::BadHash,
            offset: 0,
        };
    };
    match opened_by(c) {
        Some(bracket) if is_opener_head(run) => Front::Read {
            kind: Kind::Opener(bracket),
            behind,
        },
        _ if c == '"' && is_string_head(run) => string_item(behind),
        _ => Front::Unread {
            kind: LexKind::BadHash,
            offset: 0,
        },
    }
}

/// The label of a graph's part, as `#1=`, from what is behind the hash sign; where there is none, the item that the run
/// makes.
pub fn label_item<'s>(text: &'s str, behind: &'s str) -> Front<'s>
    ensures { Tells
        (Reader.label_item (Some (chars behind.now)) (Reader.run_item (run_cut Bare (chars text.now)))) result }
{
    let (digits, rest) = split(behind, Class::Digit);
    if is_short(digits) {
        if let Some(behind) = behind_char(rest, '=') {
            return Front::Read {
                kind: Kind::Prefix,
                behind,
            };
        }
    }
    run_item(text)
}

/// A character, from what is behind its hash sign and backslash.
pub fn character_item(text: &str) -> Front<'_>
    ensures { Tells (Reader.character_item (chars text.now)) result }
{
    let Some((_, more)) = first(text) else {
        return Front::Unread {
            kind: LexKind::BadHash,
            offset: 0,
        };
    };
    Front::Read {
        kind: Kind::Atom,
        behind: past(more, Class::Undelimited),
    }
}
