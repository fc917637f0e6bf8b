//! What stays the same while a best layout is sought, and what is found meanwhile.

ghost use Rattle.std.specs.Prelude.{◌≡◌, IfSome};
ghost use Rattle.rf_search.specs.Tasks.{AreNamed};
ghost use Rattle.rf_search.specs.Places.{IsBelow, cut_of, break_cut};

use crate::rows::Row;
use rf_cost::Factory;
use rf_frontier::{HowId, Hows, Kept};
use rf_outline::{Documents, Span};
use std::alloc::Global;

// How wide layouts may be, and the ways to the sides of choices.
#[derive(Clone, Copy)]
pub struct Sought {
    // The computation width in columns.
    pub limit: u32,
    // The last column, at most the limit, up to which texts cost nothing.
    pub free: u32,
    // The way of the one direction to the left side, and that to the right side.
    pub left: HowId,
    pub right: HowId,
}

// The same, with the documents, and how layouts cost.
#[derive(Drop)]
pub struct Setting<'d, 'f, D: Documents, F: Factory> {
    pub alloc: Global,
    pub documents: &'d D,
    pub sought: Sought,
    pub factory: &'f F,
    // So that contracts take both from the setting alone.
    ghost named: { AreNamed (F.costs factory.now) (D.view documents.now) },
}

// What is found meanwhile: the ways of all measures, and what stands behind nothing of nodes that were asked for.
#[derive(Drop)]
pub struct Found<C: Copy> {
    pub hows: Hows,
    // The newest row of each number, counted from 1, or 0.
    pub newest: Vec<u32>,
    pub rows: Vec<Row<C>>,
    // What stands behind a measure, where it was put here.
    pub several: Kept<C, HowId>,
}

// Where a node is asked for.
#[derive(Clone, Copy)]
pub struct Place<N: Copy> {
    pub node: N,
    // Whether it is flat.
    pub flat: bool,
    // In columns.
    pub indentation: u32,
    // The column that what stands behind the measure is cut at.
    pub cut: u32,
    // How many nodes below one another may be asked for besides.
    pub fuel: u32,
}

impl<N: Copy> Place<N> {
    // The same place with one node fewer to be asked for below it, where any may be.
    pub fn below(&self) -> Option<Place<N>>
        ensures { IfSome result (λ place. IsBelow self.now place) }
    {
        match self.fuel.checked_sub(1) {
            None => None,
            Some(fuel) => Some(Place { fuel, ..*self }),
        }
    }

    // A part of the node in the same place.
    pub fn at(&self, node: N) -> Place<N>
        ensures node { result.node ≡ node }
        ensures flat { result.flat ≡ self.now.flat }
        ensures indentation { result.indentation ≡ self.now.indentation }
        ensures cut { result.cut ≡ self.now.cut }
        ensures fuel { result.fuel ≡ self.now.fuel }
    {
        Place { node, ..*self }
    }
}

// Where the measures before a node, flat or not, may be cut, so that the fewest stay, where what they come to with it
// is cut at `x`.
#[inline(always)]
pub fn cut_before<D: Documents>(
    sought: &Sought,
    documents: &D,
    node: D::Node,
    flat: bool,
    x: u32,
) -> u32
    ensures { result ≡ cut_of sought.now.limit sought.now.free ((D.view documents.now).told node flat) x }
{
    match documents.span(node, flat) {
        Span::Text(len) => x.min(sought.free).saturating_sub(len),
        _ => cut_before_break(sought, documents, node, flat),
    }
}

// The same where it isn't known where that is cut which they come to.
#[inline(always)]
pub fn cut_before_break<D: Documents>(
    sought: &Sought,
    documents: &D,
    node: D::Node,
    flat: bool,
) -> u32
    ensures { result ≡ break_cut sought.now.limit ((D.view documents.now).told node flat).begins }
{
    if documents.begins(node, flat) {
        sought.limit
    } else {
        0
    }
}
