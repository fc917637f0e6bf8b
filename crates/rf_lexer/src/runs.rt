//! Where a run ends.

ghost use Rattle.std.specs.Prelude.{IsTrue, MatchOption};
ghost use Rattle.std.specs.Str.{chars};
ghost use Rattle.rf_base_grammar.specs.Cuts.{run_cut, Bare};
ghost use Rattle.rf_lexer.specs.Places.{IsBehind};
ghost use Rattle.rf_lexer.specs.Runs.{quoting, EndsAtOnce, EndsBefore, RunGoesOn};

use crate::classes::{Class, is_ascii_delimiter, is_plain, past_ascii};
use crate::cursor::first;

/// How a character of a run is read.
#[derive(Clone, Copy)]
enum Quoting {
    /// As it is.
    Plain,
    /// Behind a backslash.
    Escape,
    /// Between bars.
    Bars,
}

impl Quoting {
    // How the character behind this one is read; none where the run ends before this one.
    #[inline(always)]
    fn behind(self, c: char) -> Option<Quoting>
        ensures { MatchOption result (EndsBefore self c) (λ next. RunGoesOn self c next) }
    {
        match self {
            Quoting::Plain if is_plain(c) => Some(Quoting::Plain),
            Quoting::Plain if c == '\\' => Some(Quoting::Escape),
            Quoting::Plain if c == '|' => Some(Quoting::Bars),
            Quoting::Plain => None,
            Quoting::Escape => Some(Quoting::Plain),
            Quoting::Bars if c == '|' => Some(Quoting::Plain),
            Quoting::Bars => Some(Quoting::Bars),
        }
    }
}

/// The text behind the run that the text begins with; none where the text ends within quoting.
#[inline(always)]
pub fn behind_run(text: &str) -> Option<&str>
    ensures { IsBehind (run_cut Bare (chars text.now)) result }
{
    let rest = past_ascii(text, Class::Plain);
    if ends_at_once(rest) {
        Some(rest)
    } else {
        behind_any_run(rest)
    }
}

// Whether an ASCII delimiter begins the text: a run ends before it.
#[inline(always)]
fn ends_at_once(text: &str) -> bool
    ensures { IsTrue result → EndsAtOnce (chars text.now) }
{
    match first(text) {
        Some((c, _)) => is_ascii_delimiter(c),
        None => false,
    }
}

// The same as `behind_run`, character by character.
#[inline(never)]
fn behind_any_run(text: &str) -> Option<&str>
    ensures { IsBehind (run_cut Bare (chars text.now)) result }
{
    let mut quoting = Quoting::Plain;
    let mut rest = text;
    while let Some((c, behind)) = first(rest) {
        let Some(next) = quoting.behind(c) else {
            return Some(rest);
        };
        quoting = next;
        rest = behind;
    }
    match quoting {
        Quoting::Plain => Some(rest),
        Quoting::Escape | Quoting::Bars => None,
    }
}
