//! Both parts of a concatenation on one line.
//!
//! The line `tactic` names the lemma that the proofs use.
#![tactic(auto, using(rf_frontier::proofs::Ways::keeps_same))]

ghost use Rattle.std.specs.Prelude.{◌<◌, List, length, IfOk};
ghost use Rattle.rf_base_document.specs.Document.{Concat as a_concat};
ghost use Rattle.rf_frontier.specs.declared.hows.How.{How};
ghost use Rattle.rf_frontier.specs.Ways.{KeepsWays};
ghost use Rattle.rf_outline.specs.Parts.{LineIsIn, LineOfBoth};

use crate::facts::Line;
use rf_frontier::{HowId, Hows};
use std::alloc::AllocError;

/// Both parts on one line, the second behind the first, which is never one where either is never. An `AllocError` comes
/// for want of memory.
#[inline(always)]
pub fn concat_line(a: Line, b: Line, hows: &mut Hows) -> Result<Line, AllocError>
    requires first { LineIsIn hows.old a }
    requires second { LineIsIn hows.old b }

    ensures line { IfOk result (λ line. LineOfBoth a_concat hows.old hows.new a b line) }
    ensures older { KeepsWays hows.old hows.new }
{
    match a {
        Line::Nothing => Ok(Line::Nothing),
        Line::Never => Ok(behind_never(b)),
        Line::Long(len, how) => behind_long(len, how, b, hows),
        Line::Text(len, how) => behind_text(len, how, b, hows),
        Line::Unsure => Ok(behind_unsure(b)),
    }
}

// The second part behind one that is never on one line.
#[inline(always)]
fn behind_never(b: Line) -> Line
    ensures { (old new : List How) → LineOfBoth a_concat old new Line.Never b result }
{
    match b {
        Line::Nothing => Line::Nothing,
        _ => Line::Never,
    }
}

// The second part behind one of which nothing is known.
#[inline(always)]
fn behind_unsure(b: Line) -> Line
    ensures { (old new : List How) → LineOfBoth a_concat old new Line.Unsure b result }
{
    match b {
        Line::Nothing => Line::Nothing,
        Line::Never => Line::Never,
        _ => Line::Unsure,
    }
}

// The second part behind one of this length.
#[inline(always)]
fn behind_long(len: u32, how: HowId, b: Line, hows: &mut Hows) -> Result<Line, AllocError>
    requires first { how.0 < length hows.old }
    requires second { LineIsIn hows.old b }

    ensures line { IfOk result (λ line. LineOfBoth a_concat hows.old hows.new (Line.Long len how) b line) }
    ensures older { KeepsWays hows.old hows.new }
{
    match b {
        Line::Nothing => Ok(Line::Nothing),
        Line::Never => Ok(Line::Never),
        Line::Long(more, behind) => long_of_both(len, how, more, behind, hows),
        Line::Text(more, behind) => long_of_both(len, how, more, behind, hows),
        Line::Unsure => Ok(Line::Unsure),
    }
}

// The second part behind a text of this length.
#[inline(always)]
fn behind_text(len: u32, how: HowId, b: Line, hows: &mut Hows) -> Result<Line, AllocError>
    requires first { how.0 < length hows.old }
    requires second { LineIsIn hows.old b }

    ensures line { IfOk result (λ line. LineOfBoth a_concat hows.old hows.new (Line.Text len how) b line) }
    ensures older { KeepsWays hows.old hows.new }
{
    match b {
        Line::Text(more, behind) => text_of_both(len, how, more, behind, hows),
        _ => behind_long(len, how, b, hows),
    }
}

// Both lengths in a row; a sum that doesn't fit isn't known.
#[inline(always)]
fn long_of_both(
    len: u32,
    how: HowId,
    more: u32,
    behind: HowId,
    hows: &mut Hows,
) -> Result<Line, AllocError>
    requires first { how.0 < length hows.old }
    requires second { behind.0 < length hows.old }

    ensures line { IfOk result (λ line.
        LineOfBoth a_concat hows.old hows.new (Line.Long len how) (Line.Long more behind) line) }
    ensures older { KeepsWays hows.old hows.new }
{
    let Some(sum) = len.checked_add(more) else {
        return Ok(Line::Unsure);
    };
    let both = hows.join(how, behind)?;
    Ok(Line::Long(sum, both))
}

// Both texts in a row; a sum that doesn't fit isn't known.
#[inline(always)]
fn text_of_both(
    len: u32,
    how: HowId,
    more: u32,
    behind: HowId,
    hows: &mut Hows,
) -> Result<Line, AllocError>
    requires first { how.0 < length hows.old }
    requires second { behind.0 < length hows.old }

    ensures line { IfOk result (λ line.
        LineOfBoth a_concat hows.old hows.new (Line.Text len how) (Line.Text more behind) line) }
    ensures older { KeepsWays hows.old hows.new }
{
    let Some(sum) = len.checked_add(more) else {
        return Ok(Line::Unsure);
    };
    let both = hows.join(how, behind)?;
    Ok(Line::Text(sum, both))
}
