//! Classes of characters, and where the characters of a class end.

ghost use Rattle.std.specs.Prelude.{◌≡◌, ◌≤◌, true, length, IsTrue, IfSome};
ghost use Rattle.std.specs.Str.{chars};
ghost use Rattle.rf_base_grammar.specs.Characters.{is_delimiter as is_delimiter_mark};
ghost use Rattle.rf_base_grammar.specs.Comments.{breaks_line as is_line_break};
ghost use Rattle.rf_base_grammar.specs.Cuts.{span};
ghost use Rattle.rf_base_grammar.specs.LanguageLine.{is_name_mark as is_mark_of_name};
ghost use Rattle.rf_lexer.specs.Classes.{test_of, is_plain as is_plain_mark, IsMark, BeginsWithMarks, IsBehindMarks};
ghost use Rattle.rf_lexer.specs.Places.{AreCut};
ghost use Rattle.rf_lexer.specs.Runs.{IsPlainRun};

use crate::cursor::{before, first};
use rf_text::is_delimiter;

/// A class of characters that the lexer goes past.
#[derive(Clone, Copy)]
pub enum Class {
    /// What stands for itself in a run.
    Plain,
    /// No delimiter.
    Undelimited,
    /// What stands in a line comment.
    OnLine,
    /// A decimal digit.
    Digit,
    /// No carriage return.
    NoReturn,
    /// What stands in a line of a here string.
    OfTerminator,
    /// What stands in a language's name.
    NameMark,
    /// A space or a tab.
    Blank,
    /// What stands in a module path.
    PathMark,
    /// What stands in a module path between quotes.
    QuotedPathMark,
    /// What stands for itself in a string.
    InString,
}

impl Class {
    /// Whether the character is of the class.
    #[inline(always)]
    pub fn holds(self, c: char) -> bool
        ensures { result ≡ test_of self c }
    {
        match self {
            Class::Plain => is_plain(c),
            Class::Undelimited => !is_delimiter(c),
            Class::OnLine => !breaks_line(c),
            Class::Digit => c.is_ascii_digit(),
            Class::NoReturn => c != '\r',
            Class::OfTerminator => c != '\n' && c != '\r',
            Class::NameMark => is_name_mark(c),
            Class::Blank => c == ' ' || c == '\t',
            Class::PathMark => is_name_mark(c) || c == '.',
            Class::QuotedPathMark => !(c == '"' || c == '\\' || breaks_line(c)),
            Class::InString => c != '"' && c != '\\',
        }
    }

    // Whether the byte is known at once to be an ASCII character of the class.
    #[inline(always)]
    fn holds_byte(self, byte: u8) -> bool
        ensures { IsTrue result → IsMark (test_of self) byte }
    {
        match self {
            Class::Plain => RUN_MARKS[byte as usize] == b'x',
            Class::OnLine => matches!(byte, b' '..=b'~'),
            Class::Blank => matches!(byte, b' ' | b'\t'),
            _ => byte.is_ascii() && self.holds(byte as char),
        }
    }
}

/// What bytes are in a run, sixteen in a row: at the place of an ASCII character that stands for itself there is
/// an `x`, at that of an ASCII delimiter a `-`, and elsewhere an `o`.
const RUN_MARKS: [u8; 256] = *b"\
    xxxxxxxxx-----xx\
    xxxxxxxxxxxxxxxx\
    -x-xxxx---xx-xxx\
    xxxxxxxxxxx-xxxx\
    xxxxxxxxxxxxxxxx\
    xxxxxxxxxxx-o-xx\
    -xxxxxxxxxxxxxxx\
    xxxxxxxxxxx-o-xx\
    oooooooooooooooo\
    oooooooooooooooo\
    oooooooooooooooo\
    oooooooooooooooo\
    oooooooooooooooo\
    oooooooooooooooo\
    oooooooooooooooo\
    oooooooooooooooo";

/// Whether the character stands for itself in a run.
#[inline(always)]
pub fn is_plain(c: char) -> bool
    ensures { result ≡ is_plain_mark c }
{
    if c.is_ascii() {
        RUN_MARKS[c as usize] == b'x'
    } else {
        !is_delimiter(c)
    }
}

/// Whether the character is an ASCII delimiter, as nearly all that end a run are.
#[inline(always)]
pub fn is_ascii_delimiter(c: char) -> bool
    ensures { IsTrue result → is_delimiter_mark c ≡ true }
{
    c.is_ascii() && RUN_MARKS[c as usize] == b'-'
}

/// How many bytes the run takes that the text begins with, where it is told byte by byte: ASCII characters that stand
/// for themselves, and an ASCII delimiter behind them.
#[inline(always)]
pub fn plain_run_len(text: &str) -> Option<usize>
    ensures { IfSome result (IsPlainRun text.now) }
{
    for (i, byte) in text.as_bytes().iter().enumerate() {
        if !Class::Plain.holds_byte(*byte) {
            return if delimits(*byte) { Some(i) } else { None };
        }
    }
    None
}

// Whether the byte is an ASCII delimiter.
#[inline(always)]
fn delimits(byte: u8) -> bool
    ensures { IsTrue result → IsMark is_delimiter_mark byte }
{
    RUN_MARKS[byte as usize] == b'-'
}

/// Whether the character ends a line in Racket's reader or in an editor.
pub fn breaks_line(c: char) -> bool
    ensures { result ≡ is_line_break c }
{
    matches!(c, '\n' | '\r' | '\u{85}' | '\u{2028}' | '\u{2029}')
}

// Whether the character may stand in a language's name.
fn is_name_mark(c: char) -> bool
    ensures { result ≡ is_mark_of_name c }
{
    c.is_ascii_alphanumeric() || matches!(c, '+' | '-' | '_' | '/')
}

// How many bytes the text begins with that are known at once to be ASCII characters of the class.
#[inline(always)]
fn ascii_len(text: &str, class: Class) -> usize
    ensures within { result ≤ length text.now }
    ensures marks { BeginsWithMarks (test_of class) text.now result }
{
    for (i, byte) in text.as_bytes().iter().enumerate() {
        if !class.holds_byte(*byte) {
            return i;
        }
    }
    text.len()
}

/// The text behind the ASCII characters of the class that the text begins with: they are told apart byte by byte.
#[inline(always)]
pub fn past_ascii(text: &str, class: Class) -> &str
    ensures { IsBehindMarks (test_of class) (chars text.now) (chars result.now) }
{
    &text[ascii_len(text, class)..]
}

/// The text behind the characters of the class that the text begins with.
#[inline]
pub fn past(text: &str, class: Class) -> &str
    ensures { chars result.now ≡ (span (test_of class) (chars text.now)).behind }
{
    let mut rest = past_ascii(text, class);
    while let Some((c, behind)) = first(rest) {
        if !class.holds(c) {
            return rest;
        }
        rest = behind;
    }
    rest
}

/// The characters of the class that the text begins with, and the text behind them.
pub fn split(text: &str, class: Class) -> (&str, &str)
    ensures { AreCut (span (test_of class) (chars text.now)) result }
{
    let rest = past(text, class);
    (before(text, rest), rest)
}
