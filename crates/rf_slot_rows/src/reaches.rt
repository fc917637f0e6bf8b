//! How far right what stands in a list may begin. Nothing that is promised rests on it: it tells only which lists are
//! worth leaving unmade.

use rf_base_file::Shape;
use rf_tree::{At, Node, SlotRef, Tree};
use rf_ways::{Brackets, Place};

/// No column is known behind which something never begins.
pub const NOWHERE: u32 = u32::MAX;

/// Columns behind which the slots of a list begin in none of its layouts that aren't flat, where that is known. A slot
/// that something stands behind on its line, other than closers, begins nowhere in this sense.
#[derive(Clone, Copy)]
pub struct Reach {
    /// The first slot.
    pub first: u32,
    /// The headers, or all other slots where there are neither headers nor bodies.
    pub headers: u32,
    /// The bodies.
    pub bodies: u32,
}

/// The reach of the slots of a list of this shape, which begins with this opener and this node behind it, and itself
/// begins behind column `right` in no layout.
pub fn reach_of(tree: &Tree, shape: Shape, right: u32, opener: usize, first: At) -> Reach {
    let inside = right.saturating_add(size_of(tree, opener));
    let behind_head = match head_size(tree, first) {
        None => NOWHERE,
        Some(size) => inside.saturating_add(size).saturating_add(1),
    };
    match shape {
        Shape::Plain => Reach {
            first: inside,
            headers: inside,
            bodies: inside,
        },
        Shape::Application | Shape::Hanging => Reach {
            first: NOWHERE,
            headers: behind_head,
            bodies: behind_head,
        },
        Shape::Body { headers, .. } => Reach {
            first: NOWHERE,
            headers: if headers <= 1 { behind_head } else { NOWHERE },
            bodies: inside.saturating_add(1),
        },
    }
}

/// The reach of the second slot of a list of this shape.
pub fn second_reach(shape: Shape, reach: Reach) -> u32 {
    match shape {
        Shape::Body { headers, .. } if headers == 0 => reach.bodies,
        _ => reach.headers,
    }
}

/// How many columns the list between these brackets, which stands in this place, may take up so that it ends by column
/// `free`, if it may: not where it has more bytes in the source, as most lists of several lines have.
pub fn room_for(tree: &Tree, list: Brackets, free: u32, place: Place) -> Option<u32> {
    let most = free.checked_sub(place.right)?.checked_sub(place.behind)?;
    if size_between(tree, list) <= most {
        Some(most)
    } else {
        None
    }
}

/// The reach of what stands behind a prefix or a skip, at once or behind comments, which itself begins behind column
/// `right` in no layout.
pub fn reach_behind(tree: &Tree, right: u32, item: usize, at_once: bool) -> u32 {
    if at_once {
        right.saturating_add(size_of(tree, item))
    } else {
        NOWHERE
    }
}

/// The reach of the datum of a slot that begins behind column `right` in no layout: comments before it end their lines,
/// a key stands before it on its line, and a comment may stand behind it there.
pub fn datum_reach(tree: &Tree, slot: SlotRef<'_>, right: u32) -> u32 {
    match (slot.key, slot.trailing) {
        (_, Some(_)) => NOWHERE,
        (None, None) => right,
        (Some(key), None) => match head_size(tree, key) {
            None => NOWHERE,
            Some(size) => right.saturating_add(size).saturating_add(1),
        },
    }
}

// How many columns a first slot takes up that is one item.
fn head_size(tree: &Tree, at: At) -> Option<u32> {
    match tree.nodes.get(at) {
        Some(Node::Leaf(item)) => Some(size_of(tree, item)),
        _ => None,
    }
}

// How many bytes the item has: no character takes up more columns than bytes.
fn size_of(tree: &Tree, item: usize) -> u32 {
    match tree.items.get(item) {
        None => NOWHERE,
        Some(item) => item.end.saturating_sub(item.start),
    }
}

// How many bytes there are from a list's opener to its closer.
fn size_between(tree: &Tree, list: Brackets) -> u32 {
    match (tree.items.get(list.opener), tree.items.get(list.closer)) {
        (Some(opener), Some(closer)) => closer.end.saturating_sub(opener.start),
        _ => NOWHERE,
    }
}
