//! The language line.

ghost use Rattle.std.specs.Prelude.{◌≡◌, ◌++◌, ℕ, List, Some, codes};
ghost use Rattle.std.specs.Str.{chars};
ghost use Rattle.rf_base_grammar.specs.Characters.{EndsWith};
ghost use Rattle.rf_base_grammar.specs.Reader as Reader;
ghost use Rattle.rf_lexer.specs.Fronts.{Tells};

use crate::classes::{Class, breaks_line, past, split};
use crate::comments::ends_line;
use crate::cursor::{first, is_whole};
use crate::front::Front;
use crate::words::{behind_char, ends_in, is_other_reader};
use rf_base_grammar::{Kind, LexKind};

// Whether the characters of a name are one.
fn is_name(name: &str) -> bool
    ensures { result ≡ Reader.is_name (chars name.now) }
{
    match first(name) {
        None => false,
        Some((c, _)) => c != '/' && !ends_in(name, '/'),
    }
}

// The text behind a module path's characters, where a quote begins it or not.
fn behind_module_path(text: &str) -> &str
    ensures { chars result.now ≡ (Reader.module_path (chars text.now)
        (Reader.strip (codes "\"") (chars text.now))).behind }
{
    match behind_char(text, '"') {
        Some(inner) => behind_char(past(inner, Class::QuotedPathMark), '"').unwrap_or(text),
        None => past(text, Class::PathMark),
    }
}

// The text behind the module path that the text begins with; where there is none, the text.
fn behind_path(text: &str) -> &str
    ensures { chars result.now ≡ (Reader.path_cut (chars text.now)).behind }
{
    let path = past(text, Class::Blank);
    let rest = behind_module_path(path);
    if is_whole(text, path) || is_whole(path, rest) {
        text
    } else {
        rest
    }
}

// Whether the text begins with a character that breaks a line.
fn breaks(text: &str) -> bool
    ensures { result ≡ Reader.breaks (chars text.now) }
{
    match first(text) {
        None => false,
        Some((c, _)) => breaks_line(c),
    }
}

// The refusal of a language line that isn't one.
fn bad_language<'s>() -> Front<'s>
    ensures { Tells Reader.bad_language result }
{
    Front::Unread {
        kind: LexKind::LanguageLine,
        offset: 0,
    }
}

/// A language line, from what is behind `#lang`. The flag says that one may stand there.
pub fn language_item<'s>(language: bool, text: &'s str, behind: &'s str) -> Front<'s>
    requires { chars text.now ≡ codes "#lang" ++ chars behind.now }
    ensures { Tells (Reader.language_item language (chars behind.now)) result }
{
    if !language {
        return bad_language();
    }
    match behind_char(behind, ' ') {
        Some(spaced) => spaced_language(text, spaced),
        None => bad_language(),
    }
}

// A language line, from what is behind `#lang` and a space.
fn spaced_language<'s>(text: &'s str, spaced: &'s str) -> Front<'s>
    requires { chars text.now ≡ codes "#lang " ++ chars spaced.now }
    ensures { Tells (Reader.spaced_language (Some (chars spaced.now))) result }
{
    let (name, behind) = split(spaced, Class::NameMark);
    if !is_name(name) {
        return bad_language();
    }
    if is_other_reader(name) {
        return Front::Unread {
            kind: LexKind::LanguageReader,
            offset: 0,
        };
    }
    named_language(text, name, behind)
}

// A language line, from its name and what is behind it.
fn named_language<'s>(text: &'s str, name: &str, behind: &'s str) -> Front<'s>
    requires { chars text.now ≡ codes "#lang " ++ (chars name.now ++ chars behind.now) }
    ensures { Tells (Reader.named_language (chars name.now) (Reader.path_cut (chars behind.now))) result }
{
    let rest = behind_path(behind);
    let end = past(rest, Class::Blank);
    if ends_well(behind, end) {
        Front::Read {
            kind: Kind::Lang,
            behind: rest,
        }
    } else if breaks(end) {
        Front::stray(text, end)
    } else {
        bad_language()
    }
}

// Whether a language line whose name stands before the text may end in the blanks before the end, and go on so.
fn ends_well(behind: &str, end: &str) -> bool
    requires { EndsWith (chars end.now) (chars behind.now) }
    ensures { (part blanks : List ℕ) → chars behind.now ≡ part ++ (blanks ++ chars end.now)
        → result ≡ Reader.language_ends_well part blanks (chars end.now) }
{
    ends_line(end) || behind_char(end, ';').is_some() && !is_whole(behind, end)
}
