//! A document laid out without recursion, on a stack of frames.

ghost use Rattle.std.specs.Prelude.{◌≡◌, ◌+◌, ◌<◌, false, true, [], ◌∷◌, ◌++◌, length, IfOk, OnOk, IsErrOf};
ghost use Rattle.rf_base_document.specs.Document.{Doc};
ghost use Rattle.rf_base_document.specs.Render.{Laid};
ghost use Rattle.rf_base_document.specs.Picks.{Picks, LaidOutBy};
ghost use Rattle.rf_base_document.specs.TooLong.{IsTooLong};
ghost use Rattle.rf_walk.specs.Papers.{HoldsSome, Gains, GainsChoice, Passes, PassesByChoice};
ghost use Rattle.rf_walk.specs.Walked.{moment, EndsSomehow, EndsAsBefore, EndsTooLong, turns_of, deeper, newline_piece};
ghost use Rattle.rf_walk.specs.LaidOut.{IsLaidOn};

use crate::faults::LayoutError;
use crate::kinds::{Kind, Nodes};
use crate::papers::Paper;
use rf_base_document::LAYOUT_LIMIT;
use rf_flat::{Dir, side};
use std::alloc::Global;

// A node that is still to be laid out, flat or not, at the column that the nodes before it leave.
#[derive(Clone, Copy)]
pub struct Frame<N: Copy> {
    pub node: N,
    pub indentation: u32,
    pub flat: bool,
}

/// Puts the layout of the resolution that the choices pick of the root's document on a blank paper, at column 0 and
/// indentation 0. The document need stand nowhere, since its nodes are asked for one by one, and it may be deep, since
/// what is left waits on a stack. `TooLong` comes exactly where that layout has more than 67,108,864 characters, or the
/// resolution more texts, line breaks and choices than that; `Memory` for want of memory.
pub fn lay_out_nodes<N: Nodes, P: Paper>(
    alloc: Global,
    nodes: &N,
    root: N::Node,
    choices: &[Dir],
    paper: &mut P,
) -> Result<(), LayoutError>
    requires picked { (whole : Laid) × LaidOutBy (N.document nodes.now root) choices.now 0 0 false whole }
    requires blank { P.holds paper.old paper.old [] 0 }
    ensures laid { OnOk result ((e : Doc) → Picks (N.document nodes.now root) choices.now e
        → IsLaidOn (P.holds paper.old paper.new) e choices.now) }
    ensures too_long { IsErrOf result LayoutError.TooLong → (e : Doc) → Picks (N.document nodes.now root) choices.now e
        → IsTooLong e choices.now }
{
    let mut left = choices;
    let mut stack = Vec::new(alloc);
    stack.push(frame_at(root))?;
    while let Some(frame) = stack.pop() {
        left = turn(nodes, &mut stack, paper, left, frame)?;
    }
    Ok(())
}

// Lays out the frame that was taken off the stack, as far as its own node goes: a text, a break and a charge are
// put on the paper, a choice is taken, and parts are put on the stack. The answer is what is left of the choices.
fn turn<'c, N: Nodes, P: Paper>(
    nodes: &N,
    stack: &mut Vec<Frame<N::Node>>,
    paper: &mut P,
    choices: &'c [Dir],
    frame: Frame<N::Node>,
) -> Result<&'c [Dir], LayoutError>
    requires { EndsSomehow P.holds (N.document nodes.now)
        (moment paper.old (stack.old.items ++ frame ∷ []) choices.now) }
    ensures goes_on { IfOk result (λ left. EndsAsBefore P.holds (N.document nodes.now)
        (moment paper.old (stack.old.items ++ frame ∷ []) choices.now) (moment paper.new stack.new.items left.now)) }
    ensures fewer { IfOk result (λ left. turns_of (N.document nodes.now) stack.new.items
        < turns_of (N.document nodes.now) (stack.old.items ++ frame ∷ [])) }
    ensures too_long { IsErrOf result LayoutError.TooLong → EndsTooLong P.holds (N.document nodes.now)
        (moment paper.old (stack.old.items ++ frame ∷ []) choices.now) }
{
    match nodes.kind(frame.node) {
        Kind::Text(s, len) => {
            paper.word(s, len)?;
            Ok(choices)
        }
        Kind::Newline => {
            put_newline(paper, frame.flat, frame.indentation)?;
            Ok(choices)
        }
        Kind::Hard => {
            paper.line_break(frame.indentation)?;
            Ok(choices)
        }
        Kind::Concat(a, b) => {
            stack.push(part(frame, b, frame.indentation))?;
            stack.push(part(frame, a, frame.indentation))?;
            Ok(choices)
        }
        Kind::Nest(n, a) => {
            stack.push(part(frame, a, deeper(frame.indentation, n)))?;
            Ok(choices)
        }
        Kind::Align(a) => {
            stack.push(part(frame, a, paper.column()))?;
            Ok(choices)
        }
        Kind::Reset(a) => {
            stack.push(part(frame, a, 0))?;
            Ok(choices)
        }
        Kind::Flatten(a) => {
            stack.push(flat_part(frame, a))?;
            Ok(choices)
        }
        Kind::Charge(k, a) => {
            paper.fee(k);
            stack.push(part(frame, a, frame.indentation))?;
            Ok(choices)
        }
        Kind::Choice(a, b) => {
            let (dir, rest) = first_choice(choices);
            let node = side(dir, a, b);
            put_side(stack, paper, part(frame, node, frame.indentation))?;
            Ok(rest)
        }
        Kind::Only(_, a) => {
            let (_, rest) = first_choice(choices);
            put_side(stack, paper, part(frame, a, frame.indentation))?;
            Ok(rest)
        }
    }
}

/// Puts a newline on the paper: one space where it is flat, and otherwise a line break to this indentation. `TooLong`
/// and `Memory` are those of the paper.
pub fn put_newline<P: Paper>(paper: &mut P, flat: bool, indentation: u32) -> Result<(), LayoutError>
    requires { HoldsSome P.holds paper.old }
    ensures put { OnOk result (Gains P.holds paper.old paper.new (newline_piece flat indentation) 1) }
    ensures too_long { IsErrOf result LayoutError.TooLong
        → Passes P.holds paper.old (newline_piece flat indentation) 1 }
{
    if flat {
        paper.word(" ", 1)
    } else {
        paper.line_break(indentation)
    }
}

// Counts a choice, and puts the side that it takes on the stack.
fn put_side<N: Copy, P: Paper>(
    stack: &mut Vec<Frame<N>>,
    paper: &mut P,
    frame: Frame<N>,
) -> Result<(), LayoutError>
    requires { HoldsSome P.holds paper.old }
    ensures put { OnOk result (stack.new.items ≡ stack.old.items ++ frame ∷ []) }
    ensures counted { OnOk result (GainsChoice P.holds paper.old paper.new) }
    ensures too_long { IsErrOf result LayoutError.TooLong → PassesByChoice P.holds paper.old }
{
    paper.choice()?;
    stack.push(frame)?;
    Ok(())
}

// A part of a frame's node, to be laid out at this indentation, and flat where the frame is.
fn part<N: Copy>(frame: Frame<N>, node: N, indentation: u32) -> Frame<N>
    ensures node { result.node ≡ node }
    ensures indentation { result.indentation ≡ indentation }
    ensures flat { result.flat ≡ frame.flat }
{
    Frame {
        node,
        indentation,
        flat: frame.flat,
    }
}

// A part of a frame's node, to be laid out flat at the same indentation.
fn flat_part<N: Copy>(frame: Frame<N>, node: N) -> Frame<N>
    ensures node { result.node ≡ node }
    ensures indentation { result.indentation ≡ frame.indentation }
    ensures flat { result.flat ≡ true }
{
    Frame {
        node,
        indentation: frame.indentation,
        flat: true,
    }
}

// A node to be laid out at indentation 0, and not flat.
fn frame_at<N: Copy>(node: N) -> Frame<N>
    ensures node { result.node ≡ node }
    ensures indentation { result.indentation ≡ 0 }
    ensures flat { result.flat ≡ false }
{
    Frame {
        node,
        indentation: 0,
        flat: false,
    }
}

/// The first choice, and the others.
pub fn first_choice<'c>(choices: &'c [Dir]) -> (Dir, &'c [Dir])
    requires { 0 < length choices.now }
    ensures { choices.now ≡ result.0 ∷ result.1.now }
{
    match choices {
        [dir, rest @ ..] => (*dir, rest),
        [] => unreachable!(),
    }
}

/// An indentation with `n` columns more. Of those past 67,108,865 none is counted: a break there is too long.
pub fn deeper(indentation: u32, n: u32) -> u32
    ensures { result ≡ deeper indentation n }
{
    indentation.saturating_add(n).min(LAYOUT_LIMIT + 1)
}
