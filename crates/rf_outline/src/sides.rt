//! The sides of a choice on one line.
//!
//! The line `tactic` names the lemma that the proofs use.
#![tactic(auto, using(rf_frontier::proofs::Ways::keeps_same))]

ghost use Rattle.std.specs.Prelude.{◌<◌, length, IfOk};
ghost use Rattle.std.specs.Bool.{OnTrue};
ghost use Rattle.rf_base_document.specs.Document.{Choice as a_choice};
ghost use Rattle.rf_frontier.specs.Ways.{KeepsWays};
ghost use Rattle.rf_outline.specs.Parts.{LineIsIn, LineOfBoth, MayGoLeft};

use crate::facts::Line;
use rf_base_document::Dir;
use rf_frontier::{Before, HowId, Hows};
use std::alloc::AllocError;

// One side or the other on one line: the first, where it has one.
#[inline(always)]
pub fn choice_line(a: Line, b: Line, hows: &mut Hows) -> Result<Line, AllocError>
    requires first { LineIsIn hows.old a }
    requires second { LineIsIn hows.old b }

    ensures line { IfOk result (λ line. LineOfBoth a_choice hows.old hows.new a b line) }
    ensures older { KeepsWays hows.old hows.new }
{
    match a {
        Line::Nothing => second_only(b, hows),
        Line::Never => second_alone(b, hows),
        Line::Long(len, how) => first_long(len, how, b, hows),
        Line::Text(len, how) => first_text(len, how, b, hows),
        Line::Unsure => Ok(Line::Unsure),
    }
}

// The second side, where the first has no layout.
#[inline(always)]
fn second_only(b: Line, hows: &mut Hows) -> Result<Line, AllocError>
    requires { LineIsIn hows.old b }

    ensures line { IfOk result (λ line. LineOfBoth a_choice hows.old hows.new Line.Nothing b line) }
    ensures older { KeepsWays hows.old hows.new }
{
    match b {
        Line::Nothing => Ok(Line::Nothing),
        _ => second_alone(b, hows),
    }
}

// The second side, where the first is never on one line.
#[inline(always)]
fn second_alone(b: Line, hows: &mut Hows) -> Result<Line, AllocError>
    requires { LineIsIn hows.old b }

    ensures line { IfOk result (λ line. LineOfBoth a_choice hows.old hows.new Line.Never b line) }
    ensures older { KeepsWays hows.old hows.new }
{
    match b {
        Line::Nothing | Line::Never => Ok(Line::Never),
        Line::Long(len, how) => second_long(len, how, hows),
        Line::Text(len, how) => second_long(len, how, hows),
        Line::Unsure => Ok(Line::Unsure),
    }
}

// The second side of this length, where the first is never on one line.
#[inline(always)]
fn second_long(len: u32, how: HowId, hows: &mut Hows) -> Result<Line, AllocError>
    requires { how.0 < length hows.old }

    ensures line { IfOk result (λ line. LineOfBoth a_choice hows.old hows.new Line.Never (Line.Long len how) line) }
    ensures older { KeepsWays hows.old hows.new }
{
    let right = hows.behind(Before::Choice(Dir::Right), how)?;
    Ok(Line::Long(len, right))
}

// The first side of this length or the second.
#[inline(always)]
fn first_long(len: u32, how: HowId, b: Line, hows: &mut Hows) -> Result<Line, AllocError>
    requires first { how.0 < length hows.old }
    requires second { LineIsIn hows.old b }

    ensures line { IfOk result (λ line. LineOfBoth a_choice hows.old hows.new (Line.Long len how) b line) }
    ensures older { KeepsWays hows.old hows.new }
{
    if !may_go_left(len, b) {
        return Ok(Line::Unsure);
    }
    let left = hows.behind(Before::Choice(Dir::Left), how)?;
    Ok(Line::Long(len, left))
}

// The first side, which is a text of this length, or the second.
#[inline(always)]
fn first_text(len: u32, how: HowId, b: Line, hows: &mut Hows) -> Result<Line, AllocError>
    requires first { how.0 < length hows.old }
    requires second { LineIsIn hows.old b }

    ensures line { IfOk result (λ line. LineOfBoth a_choice hows.old hows.new (Line.Text len how) b line) }
    ensures older { KeepsWays hows.old hows.new }
{
    match b {
        Line::Text(other, way) => texts(len, how, other, way, hows),
        _ => first_long(len, how, b, hows),
    }
}

// Two texts, which are one where they are of one length. The clauses alone speak of the second one's way.
#[inline(always)]
fn texts(len: u32, how: HowId, other: u32, _way: HowId, hows: &mut Hows) -> Result<Line, AllocError>
    requires { how.0 < length hows.old }

    ensures line { IfOk result (λ line.
        LineOfBoth a_choice hows.old hows.new (Line.Text len how) (Line.Text other _way) line) }
    ensures older { KeepsWays hows.old hows.new }
{
    if len != other {
        return Ok(Line::Unsure);
    }
    let left = hows.behind(Before::Choice(Dir::Left), how)?;
    Ok(Line::Text(len, left))
}

// Whether the second side is never on one line, or is of this length there.
#[inline(always)]
fn may_go_left(len: u32, b: Line) -> bool
    ensures { OnTrue result (MayGoLeft len b) }
{
    match b {
        Line::Nothing | Line::Never => true,
        Line::Long(other, _) => len == other,
        Line::Text(other, _) => len == other,
        Line::Unsure => false,
    }
}
