//! Whether choices pick a resolution of a core.

ghost use Rattle.std.specs.Prelude.{◌≡◌, ◌↔◌, ◌∷◌, ◌++◌, [], Some, IsTrue, IfOk};
ghost use Rattle.std.specs.Option.{option_copied};
ghost use Rattle.rf_base_document.specs.Document.{Doc};
ghost use Rattle.rf_base_document.specs.Picks.{HasPicked};
ghost use Rattle.rf_base_document.specs.Graph.{StandsFor};
ghost use Rattle.rf_flat.specs.Taken.{AreNodes, Took, AfterFirst, side_of};

use crate::cores::{Core, CoreNode};
use rf_base_document::Dir;
use std::alloc::{AllocError, Global};

/// Whether the choices pick a resolution of the core and are used up. The core may be deep, since what is
/// left waits on a stack. An `AllocError` comes for want of memory.
pub fn fits(alloc: Global, core: &Core, choices: &[Dir]) -> Result<bool, AllocError>
    ensures { IfOk result (λ fit. (d : Doc) → StandsFor core.now.nodes core.now.root d
        → (IsTrue fit ↔ HasPicked d choices.now)) }
{
    let mut left = choices;
    let mut stack = Vec::new(alloc);
    stack.push(core.root())?;
    while let Some(n) = stack.pop() {
        match turn(core, &mut stack, left, n)? {
            Some(rest) => left = rest,
            None => return Ok(false),
        }
    }
    Ok(left.is_empty())
}

// Takes the choice of node `n`, which was taken off the stack, if it is one, and puts its parts on the
// stack. The answer is what is left of the choices, or none where they don't go on.
fn turn<'c>(
    core: &Core,
    stack: &mut Vec<usize>,
    choices: &'c [Dir],
    n: usize,
) -> Result<Option<&'c [Dir]>, AllocError>
    requires { AreNodes core.now.nodes (stack.old.items ++ n ∷ []) }
    ensures { IfOk result (λ left. Took core.now.nodes stack.old.items n choices.now stack.new.items
        (option_copied left)) }
{
    match *core.node(n) {
        CoreNode::Text(..) | CoreNode::Newline => Ok(Some(choices)),
        CoreNode::Concat(a, b) => {
            stack.push(b)?;
            stack.push(a)?;
            Ok(Some(choices))
        }
        CoreNode::Nest(_, a) => under(stack, choices, a),
        CoreNode::Align(a) => under(stack, choices, a),
        CoreNode::Reset(a) => under(stack, choices, a),
        CoreNode::Charge(_, a) => under(stack, choices, a),
        CoreNode::Choice(a, b) => {
            let Some((dir, rest)) = choices.split_first() else {
                return Ok(None);
            };
            stack.push(side(*dir, a, b))?;
            Ok(Some(rest))
        }
        CoreNode::Only(dir, a) => {
            let Some(rest) = after(dir, choices) else {
                return Ok(None);
            };
            stack.push(a)?;
            Ok(Some(rest))
        }
    }
}

// Puts the part of a node that takes no choice on the stack.
fn under<'c>(
    stack: &mut Vec<usize>,
    choices: &'c [Dir],
    a: usize,
) -> Result<Option<&'c [Dir]>, AllocError>
    ensures { IfOk result (λ left. (stack.new.items ≡ stack.old.items ++ a ∷ [])
        × (option_copied left ≡ Some choices.now)) }
{
    stack.push(a)?;
    Ok(Some(choices))
}

/// The side of a choice that goes in this direction.
pub fn side<N: Copy>(dir: Dir, a: N, b: N) -> N
    ensures { result ≡ side_of dir a b }
{
    match dir {
        Dir::Left => a,
        Dir::Right => b,
    }
}

// What is left of the choices after this one, if they begin with it.
fn after<'c>(dir: Dir, choices: &'c [Dir]) -> Option<&'c [Dir]>
    ensures { AfterFirst dir choices.now (option_copied result) }
{
    match (dir, choices) {
        (Dir::Left, [Dir::Left, rest @ ..]) | (Dir::Right, [Dir::Right, rest @ ..]) => Some(rest),
        _ => None,
    }
}
