//! What is known of a document of each kind, from what is known of its parts.

ghost use Rattle.std.specs.Prelude.{◌<◌, ℕ, List, length, IfOk};
ghost use Rattle.rf_base_document.specs.Document.{Text as a_text, Newline as a_newline, Hard as a_hard};
ghost use Rattle.rf_base_document.specs.Document.{Concat as a_concat, Align as an_align, Flatten as a_flatten};
ghost use Rattle.rf_base_document.specs.Document.{Choice as a_choice, Charge as a_charge};
ghost use Rattle.rf_frontier.specs.declared.hows.How.{How};
ghost use Rattle.rf_frontier.specs.Ways.{KeepsWays};
ghost use Rattle.rf_outline.specs.Known.{KnownHolds};
ghost use Rattle.rf_outline.specs.Parts.{LineIsIn, KnownIsIn, LineOfPart, FactsOfPart, KnownOfPart, FactsOfBoth};
ghost use Rattle.rf_outline.specs.Parts.{KnownOfBoth};

use crate::facts::{Facts, Known, Line};
use crate::lines::concat_line;
use crate::sides::choice_line;
use rf_frontier::Hows;
use std::alloc::AllocError;

/// A text of so many columns.
#[inline(always)]
pub fn text(len: u32, hows: &Hows) -> Known
    requires { 0 < length hows.now }
    ensures { (s : List ℕ) → KnownHolds hows.now (a_text s len) result }
{
    let both = Facts {
        line: Line::Text(len, hows.first()),
        begins: false,
    };
    Known {
        loose: both,
        flat: both,
    }
}

/// A newline: a break, and where flat a space.
#[inline(always)]
pub fn newline(hows: &Hows) -> Known
    requires { 0 < length hows.now }
    ensures { KnownHolds hows.now a_newline result }
{
    Known {
        loose: Facts {
            line: Line::Never,
            begins: true,
        },
        flat: Facts {
            line: Line::Text(1, hows.first()),
            begins: false,
        },
    }
}

/// A hard newline, which has no layout where flat.
pub fn hard() -> Known
    ensures { (ways : List How) → KnownHolds ways a_hard result }
{
    Known {
        loose: Facts {
            line: Line::Never,
            begins: true,
        },
        flat: Facts {
            line: Line::Nothing,
            begins: true,
        },
    }
}

/// An alignment, whose breaks depend on the column.
pub fn aligned(a: Known) -> Known
    ensures { (ways : List How) → KnownOfPart an_align ways a result }
{
    let mut known = a;
    known.loose.begins = false;
    known.flat.begins = false;
    known
}

/// What is flattened is flat in both cases.
pub fn flattened(a: Known) -> Known
    ensures { (ways : List How) → KnownOfPart a_flatten ways a result }
{
    Known {
        loose: a.flat,
        flat: a.flat,
    }
}

/// What is charged.
pub fn charged(k: u32, a: Known) -> Known
    ensures { (ways : List How) → KnownOfPart (a_charge k) ways a result }
{
    Known {
        loose: charged_facts(k, a.loose),
        flat: charged_facts(k, a.flat),
    }
}

// What is charged, flat or not: for at least 1 it is never without a charge.
fn charged_facts(k: u32, a: Facts) -> Facts
    ensures { (ways : List How) → FactsOfPart (a_charge k) ways a result }
{
    Facts {
        line: charged_line(k, a.line),
        begins: a.begins,
    }
}

// What is charged, on one line.
fn charged_line(k: u32, a: Line) -> Line
    ensures { (ways : List How) → LineOfPart (a_charge k) ways a result }
{
    match a {
        Line::Nothing => Line::Nothing,
        Line::Never => Line::Never,
        _ if k > 0 => Line::Never,
        _ => Line::Unsure,
    }
}

/// Both parts, the second behind the first.
#[inline(always)]
pub fn concat(a: Known, b: Known, hows: &mut Hows) -> Result<Known, AllocError>
    requires first { KnownIsIn hows.old a }
    requires second { KnownIsIn hows.old b }

    ensures known { IfOk result (λ known. KnownOfBoth a_concat hows.old hows.new a b known) }
    ensures older { KeepsWays hows.old hows.new }
{
    let loose = concat_facts(a.loose, b.loose, hows)?;
    let flat = concat_facts(a.flat, b.flat, hows)?;
    Ok(Known { loose, flat })
}

// Both parts, flat or not: they begin as the first does.
#[inline(always)]
fn concat_facts(a: Facts, b: Facts, hows: &mut Hows) -> Result<Facts, AllocError>
    requires first { LineIsIn hows.old a.line }
    requires second { LineIsIn hows.old b.line }

    ensures facts { IfOk result (λ facts. FactsOfBoth a_concat hows.old hows.new a b facts) }
    ensures older { KeepsWays hows.old hows.new }
{
    let line = concat_line(a.line, b.line, hows)?;
    Ok(Facts {
        line,
        begins: a.begins,
    })
}

/// One side or the other.
#[inline(always)]
pub fn choice(a: Known, b: Known, hows: &mut Hows) -> Result<Known, AllocError>
    requires first { KnownIsIn hows.old a }
    requires second { KnownIsIn hows.old b }

    ensures known { IfOk result (λ known. KnownOfBoth a_choice hows.old hows.new a b known) }
    ensures older { KeepsWays hows.old hows.new }
{
    let loose = choice_facts(a.loose, b.loose, hows)?;
    let flat = choice_facts(a.flat, b.flat, hows)?;
    Ok(Known { loose, flat })
}

// One side or the other, flat or not: it begins with a break where both do.
#[inline(always)]
fn choice_facts(a: Facts, b: Facts, hows: &mut Hows) -> Result<Facts, AllocError>
    requires first { LineIsIn hows.old a.line }
    requires second { LineIsIn hows.old b.line }

    ensures facts { IfOk result (λ facts. FactsOfBoth a_choice hows.old hows.new a b facts) }
    ensures older { KeepsWays hows.old hows.new }
{
    let line = choice_line(a.line, b.line, hows)?;
    Ok(Facts {
        line,
        begins: a.begins && b.begins,
    })
}
