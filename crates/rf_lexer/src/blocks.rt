//! Where a block comment ends.

ghost use Rattle.std.specs.Prelude.{◌≡◌, ◌<◌, ◌+◌, ◌^◌, MatchOption};
ghost use Rattle.std.specs.Str.{chars};
ghost use Rattle.rf_base_grammar.specs.Cuts.{block_cut, NoHalf, half_of, step_of};
ghost use Rattle.rf_lexer.specs.Blocks.{half_in, step_in, ClosesAt, BlockGoesOn};
ghost use Rattle.rf_base_grammar.specs.Reader as Reader;
ghost use Rattle.rf_lexer.specs.Fronts.{Tells};
ghost use Rattle.rf_lexer.specs.Places.{IsBehind};

use crate::cursor::first;
use crate::front::Front;
use rf_base_grammar::{Kind, LexKind};

/// The first half of a mark that opens or closes a block comment.
#[derive(Clone, Copy)]
enum Half {
    /// No half.
    Neither,
    /// A hash sign, which a bar would make an opening mark.
    Hash,
    /// A bar, which a hash sign would make a closing mark.
    Bar,
}

impl Half {
    // The half that the character is by itself.
    fn of(c: char) -> Half
        ensures { half_in result ≡ half_of c }
    {
        match c {
            '#' => Half::Hash,
            '|' => Half::Bar,
            _ => Half::Neither,
        }
    }
}

/// What a character does in a block comment.
enum Step {
    /// It opens one more.
    Opening,
    /// It closes the innermost one.
    Closing,
    /// Neither: this half stands behind it.
    Passing(Half),
}

impl Half {
    // What the character behind this half does.
    #[inline(always)]
    fn step(self, c: char) -> Step
        ensures { step_in result ≡ step_of (half_in self) c }
    {
        match self {
            Half::Hash if c == '|' => Step::Opening,
            Half::Bar if c == '#' => Step::Closing,
            _ => Step::Passing(Half::of(c)),
        }
    }
}

/// A place in a block comment.
#[derive(Clone, Copy)]
struct Inside {
    /// How many other comments are open around the innermost one.
    around: usize,
    /// What stands directly before the place.
    half: Half,
}

impl Inside {
    // The place behind the character; none where the character closes the outermost comment.
    #[inline(always)]
    fn behind(self, c: char) -> Option<Inside>
        requires { self.around < 2 ^ 63 }
        ensures { MatchOption result (ClosesAt self c) (λ next. BlockGoesOn self c next) }
    {
        let around = self.around;
        match self.half.step(c) {
            Step::Opening => Some(Inside {
                around: around + 1,
                half: Half::Neither,
            }),
            Step::Closing if around == 0 => None,
            Step::Closing => Some(Inside {
                around: around - 1,
                half: Half::Neither,
            }),
            Step::Passing(half) => Some(Inside { around, half }),
        }
    }
}

/// The text behind the block comment whose opening mark stands before the text; none where it isn't closed.
pub fn behind_block(text: &str) -> Option<&str>
    ensures { IsBehind (block_cut 0 NoHalf (chars text.now)) result }
{
    let mut inside = Inside {
        around: 0,
        half: Half::Neither,
    };
    let mut rest = text;
    while let Some((c, behind)) = first(rest) {
        let Some(next) = inside.behind(c) else {
            return Some(behind);
        };
        inside = next;
        rest = behind;
    }
    None
}

/// A block comment, from what is behind its opening mark.
pub fn block_item(text: &str) -> Front<'_>
    ensures { Tells (Reader.block_item (block_cut 0 NoHalf (chars text.now))) result }
{
    match behind_block(text) {
        Some(behind) => Front::Read {
            kind: Kind::Block,
            behind,
        },
        None => Front::Unread {
            kind: LexKind::OpenComment,
            offset: 0,
        },
    }
}
