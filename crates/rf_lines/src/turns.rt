//! Which layout of a list is on one line.
//!
//! A function's line `tactic` names the lemma that its proof uses.

ghost use Rattle.std.specs.Prelude.{◌≡◌, ℕ, leb, length, drop, IsTrue};
ghost use Rattle.std.specs.Option.{option_map};
ghost use Rattle.rf_base_lines.specs.Lists.{fits, first_turn, turns_unless_flat, may_be_one_line, turns_of};
ghost use Rattle.rf_tree.specs.Ahead.{slots_ahead, IsCursor};
ghost use Rattle.rf_lines.specs.Turned.{told, SomeLed, OfBreaks};
ghost use Rattle.rf_lines.specs.Written.{flat_dirs};

use rf_base_document::Dir;
use rf_base_file::Shape;
use rf_tree::Slots;

/// The layout of a list on one line.
#[derive(Clone, Copy)]
pub struct Turns {
    /// The directions to it.
    pub dirs: &'static [Dir],
    /// Whether the slots are flat in it.
    pub flat: bool,
}

/// Whether these slots seem to be at most one: behind a datum each further entry seems to be one. No contract says so:
/// whether they are is seen as they are written.
pub fn seem_few(slots: &Slots<'_>) -> bool
    requires { IsCursor slots.now }
{
    match slots.first_datum() {
        Some(_) => slots.most() <= 1,
        None => slots.most() <= 1 || ends_behind_one(slots),
    }
}

// Whether no slot is left behind the next one.
fn ends_behind_one(slots: &Slots<'_>) -> bool
    requires { IsCursor slots.now }
{
    let mut behind = *slots;
    behind.next();
    behind.is_empty()
}

/// The layout on one line of a list of these slots, at most one or more, and of this shape, flat or not and without
/// charges, if it has one. Where a slot has a datum behind comments the list may be said to break.
pub fn turns_of(shape: Shape, slots: &Slots<'_>, few: bool, flat: bool) -> Option<Turns>
    requires { IsCursor slots.now }
    ensures { few ≡ leb (length (slots_ahead slots.now)) 1 → OfBreaks (slots_ahead slots.now) (λ breaks.
        option_map told result ≡ turns_of shape (length (slots_ahead slots.now)) flat breaks) }
{
    if few {
        return Some(turns_by(&[], flat));
    }
    if !may_be_one_line(shape) {
        return None;
    }
    if flat {
        return Some(turns_by(&[Dir::Left], true));
    }
    Some(turns_unless_flat(shape, slots))
}

/// The directions to the layout where all is flat of a list of slots, at most one or more, that may stand on one line.
pub fn flat_dirs(few: bool) -> &'static [Dir]
    ensures { (n : ℕ) → few ≡ leb n 1 → result.now ≡ flat_dirs n }
{
    if few { &[] } else { &[Dir::Left] }
}

// Whether there are at most so many slots, and none was seen with a datum behind a comment. No more of them are read.
#[tactic(auto, using(crate::proofs::Slots::none_left))]
#[inline(always)]
fn fit(slots: &Slots<'_>, most: usize) -> bool
    requires { IsCursor slots.now }
    ensures { OfBreaks (slots_ahead slots.now) (λ breaks. result ≡ fits (length (slots_ahead slots.now)) most breaks) }
{
    if slots.most() <= most {
        return true;
    }
    let mut ahead = *slots;
    for _ in 0..most {
        if skip(&mut ahead) {
            return false;
        }
    }
    ahead.is_empty()
}

// Goes past the next slot, if one is left. Whether it begins with a comment, behind which a datum stands.
fn skip(slots: &mut Slots<'_>) -> bool
    requires { IsCursor slots.old }
    ensures cursor { IsCursor slots.new }
    ensures passed { slots_ahead slots.new ≡ drop 1 (slots_ahead slots.old) }
    ensures led { IsTrue result → SomeLed (slots_ahead slots.old) }
{
    if slots.next_alone().is_some() {
        return false;
    }
    match slots.next() {
        Some(slot) => !slot.leads.is_empty() && slot.datum.is_some(),
        None => false,
    }
}

// The layout to which these directions lead.
fn turns_by(dirs: &'static [Dir], flat: bool) -> Turns
    ensures { told result ≡ record { dirs = dirs.now; flat = flat } }
{
    Turns { dirs, flat }
}

// Whether all of a list of the shape may stand on one line.
fn may_be_one_line(shape: Shape) -> bool
    ensures { result ≡ may_be_one_line shape }
{
    match shape {
        Shape::Body { one_line, .. } => one_line,
        _ => true,
    }
}

// The layout of a list of these slots, two or more, that isn't flat.
fn turns_unless_flat(shape: Shape, slots: &Slots<'_>) -> Turns
    requires { IsCursor slots.now }
    ensures { OfBreaks (slots_ahead slots.now) (λ breaks.
        told result ≡ turns_unless_flat shape (length (slots_ahead slots.now)) breaks) }
{
    match shape {
        Shape::Application => {
            if fit(slots, 2) {
                turns_by(&[Dir::Right, Dir::Left], false)
            } else {
                turns_by(&[Dir::Right, Dir::Right], true)
            }
        }
        Shape::Hanging => first_turn(fit(slots, 2), &[Dir::Right]),
        Shape::Plain => turns_by(&[Dir::Right], true),
        Shape::Body { headers, .. } => {
            let fits = fit(slots, headers as usize + 1);
            if headers >= 2 {
                first_turn(fits, &[Dir::Right, Dir::Right])
            } else {
                first_turn(fits, &[Dir::Right])
            }
        }
    }
}

// The first of two layouts, where that has no break, or the other, to which these directions lead.
fn first_turn(fits: bool, other: &'static [Dir]) -> Turns
    ensures { told result ≡ first_turn fits other.now }
{
    if fits {
        turns_by(&[Dir::Left], false)
    } else {
        turns_by(other, true)
    }
}
