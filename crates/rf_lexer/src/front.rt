//! What stands at the front of a text, told by its first characters.

ghost use Rattle.std.specs.Prelude.{◌≡◌, ◌≢◌, [], ◌∷◌, ◌++◌, ℕ, Bool, List, IfSome, IsTrue, length, codes, slice_index, unwrap_or};
ghost use Rattle.std.specs.Str.{chars};
ghost use Rattle.rf_base_grammar.specs.Characters.{EndsWith};
ghost use Rattle.rf_base_grammar.specs.Reader as Reader;
ghost use Rattle.rf_lexer.specs.Fronts.{Tells, BeginsWord, closed_by, is_quote, is_hash_quote};
ghost use Rattle.rf_lexer.specs.Places.{IsStripped};
ghost use Rattle.rf_lexer.specs.Runs.{IsPlainRun};
ghost use Rattle.rf_lexer.specs.declared.front.Front.TheVariants.{Read};

use crate::blocks::block_item;
use crate::classes::{is_plain, plain_run_len};
use crate::comments::{bang_item, semicolon_item};
use crate::cursor::{first, len_before};
use crate::here_strings::here_item;
use crate::language::language_item;
use crate::run_items::{atom_item, character_item, label_item, opened_by, run_item};
use crate::strings::string_item;
use crate::words::{behind_char, behind_word};
use rf_base_grammar::{Bracket, Kind, LexKind};

/// What stands at the front of a text.
#[derive(Drop)]
pub enum Front<'s> {
    /// An item of this kind, and the text behind it.
    Read { kind: Kind, behind: &'s str },
    /// A refusal of this kind, which tells the character behind so many bytes.
    Unread { kind: LexKind, offset: usize },
}

impl<'s> Front<'s> {
    /// A stray line end at the rest, which the text ends with.
    pub fn stray(text: &str, rest: &str) -> Front<'s>
        requires { EndsWith (chars rest.now) (chars text.now) }
        ensures { (clean : List ℕ) → chars text.now ≡ clean ++ chars rest.now
            → Tells (Reader.Wrong LexKind.StrayLineEnd clean) result }
    {
        Front::Unread {
            kind: LexKind::StrayLineEnd,
            offset: len_before(text, rest),
        }
    }

    // The item and the text behind it; none where there is a refusal.
    #[inline(always)]
    fn read(self) -> Option<(Kind, &'s str)>
        ensures { IfSome result (λ item. self.entry ≡ Read item.0 item.1) }
    {
        match self {
            Front::Read { kind, behind } => Some((kind, behind)),
            Front::Unread { .. } => None,
        }
    }
}

/// The item that stands at the front of a text, and the text behind it, where it is told at once: a bracket, a quote,
/// a comma, a string, a line comment behind a semicolon, a mark behind a hash sign; or a dot, a plain atom, a keyword,
/// `#t` or `#f` that an ASCII delimiter ends. What items stand before it doesn't matter.
#[inline(always)]
pub fn item_at_once(text: &str) -> Option<(Kind, &str)>
    ensures some { IfSome result (λ item. length text.now ≢ 0) }
    ensures told { IfSome result (λ item. (language : Bool)
        → Tells (Reader.front_item language (chars text.now)) (Read item.0 item.1)) }
{
    let len = plain_run_len(text)?;
    let byte = text.as_bytes()[0];
    if len == 0 {
        if let Some(kind) = lone_mark(byte as char) {
            return Some((kind, &text[1..]));
        }
        return delimiter_at_once(text);
    }
    if byte == b'#' {
        return hash_at_once(text, len);
    }
    if byte == b'.' {
        return dot_at_once(text, len);
    }
    Some((Kind::Atom, &text[len..]))
}

// The dot that the text begins with, where its plain run of so many bytes is that alone. Out of the way of the other
// items, of which there are more.
#[inline(never)]
fn dot_at_once(text: &str, len: usize) -> Option<(Kind, &str)>
    requires { IsPlainRun text.now len }
    ensures { IfSome result (λ item. (language : Bool)
        → Tells (Reader.front_item language (chars text.now)) (Read item.0 item.1)) }
{
    if len != 1 || text.as_bytes()[0] != b'.' {
        return None;
    }
    Some((Kind::Dot, &text[1..]))
}

// The item that begins with the hash sign at the front of a text, whose plain run has so many bytes, where the byte
// behind it tells it. Out of the way of the other items, of which there are more.
#[inline(never)]
fn hash_at_once(text: &str, len: usize) -> Option<(Kind, &str)>
    requires run { IsPlainRun text.now len }
    requires some { len ≢ 0 }
    requires hash { slice_index text.now 0 ≡ 35 }
    ensures { IfSome result (λ item. (language : Bool)
        → Tells (Reader.front_item language (chars text.now)) (Read item.0 item.1)) }
{
    let c = text.as_bytes()[1] as char;
    if begins_word(c, len) {
        return Some((Kind::Atom, &text[len..]));
    }
    if c == ',' {
        return Some((Kind::Prefix, behind_at(&text[2..])));
    }
    Some((hash_mark(c)?, &text[2..]))
}

// Whether a plain run of so many bytes that begins with a hash sign and the character is known at once to be an atom:
// a keyword, a symbol such as `#%app`, `#t` or `#f`.
#[inline(always)]
fn begins_word(c: char, len: usize) -> bool
    ensures { IsTrue result → BeginsWord c len }
{
    match c {
        ':' | '%' => true,
        't' | 'f' => len == 2,
        _ => false,
    }
}

// The line comment, the string or the comma that the text begins with, where the comment's line ends well and the
// string is closed. Out of the way of the other items, of which there are more.
#[inline(never)]
fn delimiter_at_once(text: &str) -> Option<(Kind, &str)>
    ensures { IfSome result (λ item. (language : Bool)
        → Tells (Reader.front_item language (chars text.now)) (Read item.0 item.1)) }
{
    let (c, behind) = first(text)?;
    if c == ';' {
        return semicolon_item(text, behind).read();
    }
    if c == '"' {
        return string_item(behind).read();
    }
    if c == ',' {
        return Some((Kind::Prefix, behind_at(behind)));
    }
    None
}

// The kind of the item that the character makes by itself, whatever stands behind it.
#[inline(always)]
fn lone_mark(c: char) -> Option<Kind>
    ensures { IfSome result (λ kind. (language : Bool) (behind : List ℕ)
        → Reader.front_item language (c ∷ behind) ≡ Reader.Found kind (c ∷ []) behind) }
{
    match c {
        '(' => Some(Kind::Opener(Bracket::Round)),
        '[' => Some(Kind::Opener(Bracket::Square)),
        '{' => Some(Kind::Opener(Bracket::Curly)),
        ')' => Some(Kind::Closer(Bracket::Round)),
        ']' => Some(Kind::Closer(Bracket::Square)),
        '}' => Some(Kind::Closer(Bracket::Curly)),
        '\'' | '`' => Some(Kind::Prefix),
        _ => None,
    }
}

// The kind of the item that a hash sign and the character make, whatever stands behind them.
#[inline(always)]
fn hash_mark(c: char) -> Option<Kind>
    ensures { IfSome result (λ kind. (language : Bool) (behind : List ℕ)
        → Reader.front_item language (35 ∷ c ∷ behind) ≡ Reader.Found kind (35 ∷ c ∷ []) behind) }
{
    match c {
        ';' => Some(Kind::Skip),
        '\'' | '`' => Some(Kind::Prefix),
        '&' => Some(Kind::Prefix),
        '(' => Some(Kind::Opener(Bracket::Round)),
        '[' => Some(Kind::Opener(Bracket::Square)),
        '{' => Some(Kind::Opener(Bracket::Curly)),
        _ => None,
    }
}

/// What stands at the front of a text that begins with no white space. The flag says that a language line may stand
/// there.
pub fn front_item(language: bool, text: &str) -> Front<'_>
    ensures { Tells (Reader.front_item language (chars text.now)) result }
{
    let Some((c, behind)) = first(text) else {
        return run_item(text);
    };
    if let Some(bracket) = opened_by(c) {
        return Front::Read {
            kind: Kind::Opener(bracket),
            behind,
        };
    }
    if c == '"' {
        return string_item(behind);
    }
    if c == '#' {
        return hash_item(language, text, behind);
    }
    if c == ';' {
        return semicolon_item(text, behind);
    }
    if let Some(bracket) = closed_by(c) {
        return Front::Read {
            kind: Kind::Closer(bracket),
            behind,
        };
    }
    if c == ',' {
        return Front::Read {
            kind: Kind::Prefix,
            behind: behind_at(behind),
        };
    }
    if is_quote(c) {
        return Front::Read {
            kind: Kind::Prefix,
            behind,
        };
    }
    if c != '.' && is_plain(c) {
        return atom_item(text, c);
    }
    run_item(text)
}

// The bracket that closes with the character.
fn closed_by(c: char) -> Option<Bracket>
    ensures { result ≡ closed_by c }
{
    match c {
        ')' => Some(Bracket::Round),
        ']' => Some(Bracket::Square),
        '}' => Some(Bracket::Curly),
        _ => None,
    }
}

// Whether the character is a prefix by itself: `'` or the back quote.
fn is_quote(c: char) -> bool
    ensures { result ≡ is_quote c }
{
    matches!(c, '\'' | '`')
}

// Whether the character is a prefix behind a hash sign: `&`, `'` or the back quote.
fn is_hash_quote(c: char) -> bool
    ensures { result ≡ is_hash_quote c }
{
    matches!(c, '&' | '\'' | '`')
}

// The text behind the `@` that the text may begin with.
fn behind_at(text: &str) -> &str
    ensures { chars result.now ≡ unwrap_or (Reader.strip (codes "@") (chars text.now)) (chars text.now) }
{
    match behind_char(text, '@') {
        Some(rest) => rest,
        None => text,
    }
}

// What stands at the front of a text that begins with a hash sign, from what is behind this.
#[inline(never)]
fn hash_item<'s>(language: bool, text: &'s str, behind: &'s str) -> Front<'s>
    requires { chars text.now ≡ 35 ∷ chars behind.now }
    ensures { Tells (Reader.front_item language (chars text.now)) result }
{
    let Some((c, after)) = first(behind) else {
        return run_item(text);
    };
    if c == '|' {
        return block_item(after);
    }
    if c == '\\' {
        return character_item(after);
    }
    if c == '!' {
        return bang_item(text, after);
    }
    if c == '<' {
        return angle_item(language, text, behind, after);
    }
    if c == 'l' {
        return letter_item(language, text, behind, after);
    }
    if c == ',' {
        return Front::Read {
            kind: Kind::Prefix,
            behind: behind_at(after),
        };
    }
    if c == ';' {
        return Front::Read {
            kind: Kind::Skip,
            behind: after,
        };
    }
    if is_hash_quote(c) {
        return Front::Read {
            kind: Kind::Prefix,
            behind: after,
        };
    }
    label_item(text, behind)
}

// What stands at the front of a text that begins with `#<`, from what is behind the hash sign and behind both.
fn angle_item<'s>(language: bool, text: &'s str, behind: &'s str, after: &'s str) -> Front<'s>
    requires whole { chars text.now ≡ 35 ∷ chars behind.now }
    requires angle { chars behind.now ≡ 60 ∷ chars after.now }
    ensures { Tells (Reader.front_item language (chars text.now)) result }
{
    match behind_char(after, '<') {
        Some(lines) => here_item(text, lines),
        None => label_item(text, behind),
    }
}

// What stands at the front of a text that begins with `#l`, from what is behind the hash sign and behind both.
fn letter_item<'s>(language: bool, text: &'s str, behind: &'s str, after: &'s str) -> Front<'s>
    requires whole { chars text.now ≡ 35 ∷ chars behind.now }
    requires letter { chars behind.now ≡ 108 ∷ chars after.now }
    ensures { Tells (Reader.front_item language (chars text.now)) result }
{
    match behind_letters(after) {
        Some(line) => language_item(language, text, line),
        None => label_item(text, behind),
    }
}

// The text behind the letters that make `#lang` of `#l`.
fn behind_letters(text: &str) -> Option<&str>
    ensures { IsStripped (Reader.strip (codes "ang") (chars text.now)) result }
{
    behind_word(text, "ang")
}
