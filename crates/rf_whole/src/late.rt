//! Sources that are refused behind their beginning.

ghost use Rattle.std.specs.Prelude.{◌≤◌, length, IsOk, IfOk, IfErr, IsTrue};
ghost use Rattle.std.specs.Str.{chars};
ghost use Rattle.rf_whole.specs.Late.{EndsInItem, IsAcceptedAlone, IsAcceptedFront};
ghost use Rattle.rf_whole.specs.Passages.{IsMissed};

use crate::cuts::cut_at_line;
use crate::faults::Miss;
use crate::passages::{missed_behind, stands_with_others, tree_alone};
use rf_base_grammar::SOURCE_LIMIT;
use rf_style::Style;
use rf_tree::{Tree, Trees};
use std::alloc::Global;
use std::mem;

// Behind how many bytes the end of a stretch is sought: the first of these that gives one that is accepted is taken.
const SIZES: [usize; 2] = [32_768, 262_144];

// How many bytes a stretch has at most, so that little is read in vain where a source can't be cut.
const LONGEST: usize = 1_048_576;

/// What a source is refused for, where a stretch of it is refused that is read by itself, behind others that are
/// accepted. Otherwise it isn't known. One stretch after another is read, and nothing of it is kept.
pub fn missed_late(alloc: Global, src: &str, style: &Style) -> Miss
    requires short { length src.now ≤ SOURCE_LIMIT }
    ensures { IsMissed (chars src.now) result }
{
    let mut room = Trees::none(alloc);
    let mut rest = match accepted_front(alloc, src, style, true, &mut room) {
        Ok(left) => left,
        Err(miss) => return miss,
    };
    while !rest.is_empty() {
        match accepted_front(alloc, rest, style, false, &mut room) {
            Ok(left) if left.len() < rest.len() => rest = left,
            Ok(_) => return Miss::Unsure,
            Err(miss) => return missed_behind(src, rest, miss),
        }
    }
    Miss::Unsure
}

// The rest of the text behind a stretch at its front that is accepted. That the text is refused is told only where no
// place was found to cut it.
fn accepted_front<'s>(
    alloc: Global,
    text: &'s str,
    style: &Style,
    first: bool,
    room: &mut Trees,
) -> Result<&'s str, Miss>
    requires short { length text.now ≤ SOURCE_LIMIT }
    ensures accepted { IfOk result (λ rest. IsAcceptedFront first (chars text.now) (chars rest.now)) }
    ensures shorter { IfOk result (λ rest. length rest.now ≤ length text.now) }
    ensures missed { IfErr result (IsMissed (chars text.now)) }
{
    for size in SIZES {
        let (front, rest) = cut_at_line(text, size);
        if rest.is_empty() {
            accept_alone(alloc, text, style, first, room)?;
            return Ok(rest);
        }
        match accept_alone(alloc, front, style, first, room) {
            Ok(()) => return Ok(rest),
            Err(Miss::Memory(fault)) => return Err(Miss::Memory(fault)),
            Err(_) => {}
        }
    }
    Err(Miss::Unsure)
}

// Reads the text by itself, in the room of older trees. It isn't known whether it is accepted where it is too long to
// be read in vain, doesn't end in an item, or others can't stand before it, unless it is the first of its source.
fn accept_alone(
    alloc: Global,
    text: &str,
    style: &Style,
    first: bool,
    room: &mut Trees,
) -> Result<(), Miss>
    requires short { length text.now ≤ SOURCE_LIMIT }
    ensures accepted { IsOk result → IsAcceptedAlone first (chars text.now) }
    ensures missed { IfErr result (IsMissed (chars text.now)) }
{
    if text.len() > LONGEST {
        return Err(Miss::Unsure);
    }
    let older = mem::replace(room, Trees::none(alloc));
    let mut tree = tree_alone(alloc, text, style, older)?;
    if !stands_with_others(&tree, first, true) || !ends_in_item(&tree) {
        return Err(Miss::Unsure);
    }
    *room = tree.put_trees(Trees::none(alloc));
    Ok(())
}

// Whether the last item of the tree's text ends where the text does.
fn ends_in_item(tree: &Tree) -> bool
    ensures { IsTrue result → EndsInItem tree.now }
{
    match tree.items.last() {
        None => false,
        Some(item) => item.end as usize == tree.src.len(),
    }
}
