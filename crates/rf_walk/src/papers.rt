//! What layouts are put on.

ghost use Rattle.std.specs.Prelude.{ℕ, ◌*◌, ◌≤◌, List, length, OnOk, IsErrOf};
ghost use Rattle.std.specs.Str.{chars};
ghost use Rattle.rf_base_document.specs.Render.{Piece, Word, Break, Fee};
ghost use Rattle.rf_walk.specs.Papers.{HoldsSome, EndsAt, Gains, GainsLine, GainsChoice};
ghost use Rattle.rf_walk.specs.Papers.{Passes, PassesLine, PassesByChoice, FitsLine, IsWithinLimits};

use crate::faults::LayoutError;

/// What the pieces of a layout are put on, one after another: a text, say, or nothing but a count of them. It
/// takes at most 67,108,864 characters, and at most as many texts, line breaks and choices together. Columns are
/// counted from 0. After a refusal nothing is known of it.
pub trait Paper {
    // On the first paper, which was blank, these pieces were put and so many texts, line breaks and choices
    // counted, and it is the second now.
    ghost holds: { Self → Self → List Piece → ℕ → Type 0 };

    /// The column that the last piece ends at, or 0.
    fn column(&self) -> u32
        ensures { EndsAt holds self.now result };

    /// Puts a text that takes up `len` columns behind the other pieces. `TooLong` comes exactly where the characters
    /// or the texts, line breaks and choices would be too many; `Memory` for want of memory.
    fn word(&mut self, s: &str, len: u32) -> Result<(), LayoutError>
        requires held { HoldsSome holds self.old }
        requires columns { len ≤ 2 * length (chars s.now) }
        ensures put { OnOk result (Gains holds self.old self.new (λ column. Word column (chars s.now) len) 1) }
        ensures too_long { IsErrOf result LayoutError.TooLong
            → Passes holds self.old (λ column. Word column (chars s.now) len) 1 }
    {
        self.line(s, len, 1)
    }

    /// Puts a whole line behind the other pieces: texts one after another, so many, which have these characters and
    /// take up `len` columns together. `TooLong` comes exactly where the characters or the texts, line breaks and
    /// choices would be too many; `Memory` for want of memory.
    fn line(&mut self, s: &str, len: u32, words: u32) -> Result<(), LayoutError>
        requires held { HoldsSome holds self.old }
        requires columns { len ≤ 2 * length (chars s.now) }
        ensures put { OnOk result (GainsLine holds self.old self.new (chars s.now) len words) }
        ensures fits { OnOk result (FitsLine holds self.old (chars s.now) words) }
        ensures too_long { IsErrOf result LayoutError.TooLong → PassesLine holds self.old (chars s.now) len words };

    /// Puts a line break to this indentation behind the other pieces. `TooLong` comes exactly where the characters or
    /// the texts, line breaks and choices would be too many; `Memory` for want of memory.
    fn line_break(&mut self, indentation: u32) -> Result<(), LayoutError>
        requires { HoldsSome holds self.old }
        ensures put { OnOk result (Gains holds self.old self.new (λ column. Break indentation) 1) }
        ensures too_long { IsErrOf result LayoutError.TooLong → Passes holds self.old (λ column. Break indentation) 1 };

    /// Puts a charge of `k`, which has no characters, behind the other pieces.
    fn fee(&mut self, k: u32)
        requires held { HoldsSome holds self.old }
        requires charge { k ≤ 1000 }
        ensures { Gains holds self.old self.new (λ column. Fee k) 0 };

    /// Counts a choice. `TooLong` comes exactly where the texts, line breaks and choices would be too many.
    fn choice(&mut self) -> Result<(), LayoutError>
        requires { HoldsSome holds self.old }
        ensures counted { OnOk result (GainsChoice holds self.old self.new) }
        ensures too_long { IsErrOf result LayoutError.TooLong → PassesByChoice holds self.old };

    // What it takes keeps the limits.
    ghost within: { (blank paper : Self) (pieces : List Piece) (weight : ℕ)
        → holds blank paper pieces weight → IsWithinLimits pieces weight };
}
