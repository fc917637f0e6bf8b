//! Nodes and slots as pieces, in the places where they stand.
//!
//! A function's line `tactic` names the lemma that its proof uses.

ghost use Rattle.std.specs.Prelude.{◌≡◌, ◌≢◌, ◌<◌, ◌≤◌, true, false, Ok, Option, Some, [], length, take, drop};
ghost use Rattle.std.specs.Prelude.{IfSome, IfOk, OnOk};
ghost use Rattle.std.specs.List.{AllByRecursion};
ghost use Rattle.rf_base_style.specs.Table.{AreCharges};
ghost use Rattle.rf_tree.specs.Kept.{IsTree, HasItem};
ghost use Rattle.rf_tree.specs.Slots.{parts_in, read_slot, NodeSlotsBelow};
ghost use Rattle.rf_tree.specs.Ahead.{slots_ahead, IsCursor, BeginWith};
ghost use Rattle.rf_ways.specs.Below.{AtBelow};
ghost use Rattle.rf_ways.specs.Steps.{want_behind};
ghost use Rattle.rf_ways.specs.Nodes.{IsNode, AreSlots, IsList, IsSlot, AreNodes};
ghost use Rattle.rf_slot_rows.specs.Nodes.{MayBeNode, ArePrefixed};
ghost use Rattle.rf_slot_rows.specs.Nodes.{NodePut, BehindPut, NodesPut, PerhapsPut, PrefixedPut, AlignedPut, LeadPut};
ghost use Rattle.rf_slot_rows.specs.Nodes.{SlotPut, SlotPartsPut, ListPut, BodyPut, FirstPut, RestPut, OthersPut};
ghost use Rattle.rf_ways.specs.Nodes.{FirstTaken};
ghost use Rattle.rf_slot_rows.specs.Nodes.{IsAlone, RunPut, BeginOf, FreePut, UnmadePut};
ghost use Rattle.rf_rows.specs.Puts.{Puts};
ghost use Rattle.rf_rows.specs.Sizes.{Grows};
ghost use Rattle.rf_slot_rows.specs.Growth.{NodeGrows, NodesGrow, MayGrow, PrefixedGrows, LeadGrows, SlotGrows};
ghost use Rattle.rf_slot_rows.specs.Growth.{SlotsGrow, ListGrows};

use crate::context::Context;
use crate::gaps::{put_free_gap, put_gap, put_gap_behind};
use crate::items::put_item;
use crate::joins::{align, join, join_behind};
use crate::layouts::{Places, close_list, more_headers};
use crate::reaches::{NOWHERE, Reach, datum_reach, reach_behind, reach_of, room_for, second_reach};
use rf_base_file::{Role, Roles, Way};
use rf_lines::first_item;
use rf_rows::Rows;
use rf_style::Columns;
use rf_tree::{At, Node, SlotRef, Slots, Want, slots_in};
use rf_ways::{
    Brackets, Place, Placed, first_role, later_roles, quoted_behind, quoted_inside, role_behind,
    way_of,
};
use std::alloc::AllocError;

/// A list whose first slot was put.
#[derive(Clone, Copy)]
pub struct Begun {
    /// Its brackets.
    pub list: Brackets,
    /// How it is laid out.
    pub way: Way,
    /// How high the stack was before.
    pub height: usize,
    /// The last item of the first slot.
    pub last: usize,
    /// How far right its slots may begin.
    pub reach: Reach,
}

/// Slots of a list that were put.
#[derive(Clone, Copy)]
pub struct Run {
    /// The last item of these.
    pub last: usize,
    /// The roles of those behind them.
    pub roles: Roles,
}

// Puts what stands at a node, in this place. It gives the number of its last item.
//
// An `AllocError` comes for want of memory.
#[cycle(nodes)]
fn put_node<'t>(
    context: &Context<'t>,
    at: At,
    place: Place,
    rows: &mut Rows<'t>,
) -> Result<usize, AllocError>
    requires node { IsNode context.now.tree.now at }
    ensures put { IfOk result (λ last. NodePut context.now at place rows.old rows.new last) }
    ensures grown { OnOk result (NodeGrows 140 context.now.tree.now at rows.old rows.new) }
{
    match context.tree.nodes.node(at) {
        Node::Leaf(item) => {
            put_item(context.tree, item, context.style.columns, rows)?;
            Ok(item)
        }
        Node::Comment(item) => {
            put_item(context.tree, item, context.style.columns, rows)?;
            Ok(item)
        }
        Node::Prefixed { item, lead, inner } => {
            let behind = Place {
                before: at.0 as usize,
                quoted: quoted_behind(context.tree.text(item), place.quoted),
                role: Role::Free,
                right: reach_behind(context.tree, place.right, item, lead.is_empty()),
                behind: place.behind,
            };
            put_prefixed(context, item, lead, inner, behind, rows)
        }
        Node::DatumComment { item, lead, inner } => {
            let behind = Place {
                before: at.0 as usize,
                quoted: place.quoted,
                role: Role::Free,
                right: reach_behind(context.tree, place.right, item, lead.is_empty()),
                behind: place.behind,
            };
            put_prefixed(context, item, lead, inner, behind, rows)
        }
        Node::List { opener, closer, .. } => {
            let list = Brackets { opener, closer };
            put_list(context, at, list, place, rows)?;
            Ok(closer)
        }
    }
}

// Puts a prefix or a skip with its comments and its datum, which stand in this place.
#[cycle(nodes)]
fn put_prefixed<'t>(
    context: &Context<'t>,
    item: usize,
    lead: &[At],
    inner: At,
    place: Place,
    rows: &mut Rows<'t>,
) -> Result<usize, AllocError>
    requires there { HasItem context.now.tree.now item }
    requires parts { ArePrefixed context.now.tree.now lead.now inner }
    requires before { AllByRecursion (λ at. at.0 < place.before) lead.now }
    requires inner_before { inner.0 < place.before }
    ensures put { IfOk result (λ last. PrefixedPut context.now item lead.now inner place rows.old rows.new last) }
    ensures grown { OnOk result (PrefixedGrows context.now.tree.now item lead.now inner rows.old rows.new) }
{
    let height = rows.height();
    put_item(context.tree, item, Columns::Characters, rows)?;
    let last = put_aligned(context, item, lead, inner, place, rows)?;
    join(height, rows)?;
    Ok(last)
}

// Puts what stands behind a prefix or a skip, aligned.
#[cycle(nodes)]
fn put_aligned<'t>(
    context: &Context<'t>,
    item: usize,
    lead: &[At],
    inner: At,
    place: Place,
    rows: &mut Rows<'t>,
) -> Result<usize, AllocError>
    requires parts { ArePrefixed context.now.tree.now lead.now inner }
    requires before { AllByRecursion (λ at. at.0 < place.before) lead.now }
    requires inner_before { inner.0 < place.before }
    ensures put { IfOk result (λ last. AlignedPut context.now item lead.now inner place rows.old rows.new last) }
    ensures grown { OnOk result (LeadGrows 72 context.now.tree.now lead.now inner rows.old rows.new) }
{
    let height = rows.height();
    let last = put_lead(context, item, lead, inner, place, rows)?;
    align(height, rows)?;
    Ok(last)
}

// Puts what stands behind a prefix or a skip, piece by piece.
#[cycle(nodes)]
fn put_lead<'t>(
    context: &Context<'t>,
    item: usize,
    lead: &[At],
    inner: At,
    place: Place,
    rows: &mut Rows<'t>,
) -> Result<usize, AllocError>
    requires parts { ArePrefixed context.now.tree.now lead.now inner }
    requires before { AllByRecursion (λ at. at.0 < place.before) lead.now }
    requires inner_before { inner.0 < place.before }
    ensures put { IfOk result (λ last. LeadPut context.now item lead.now inner place rows.old rows.new last) }
    ensures grown { OnOk result (LeadGrows 100 context.now.tree.now lead.now inner rows.old rows.new) }
{
    match lead.split_first() {
        None => put_behind(context, Some(item), Want::Nothing, inner, place, rows),
        Some((first, rest)) => {
            let begun = put_behind(context, Some(item), Want::Nothing, *first, place, rows)?;
            let last = put_nodes(context, Some(begun), Want::Space, rest, place, rows)?;
            put_behind(context, last, Want::Space, inner, place, rows)
        }
    }
}

// Puts nodes in this place behind an item, if there is one, each with the gap before it, where this is wanted. It gives
// the number of the last item then.
#[cycle(nodes)]
fn put_nodes<'t>(
    context: &Context<'t>,
    before: Option<usize>,
    want: Want,
    nodes: &[At],
    place: Place,
    rows: &mut Rows<'t>,
) -> Result<Option<usize>, AllocError>
    requires nodes { AreNodes context.now.tree.now nodes.now }
    requires below { AllByRecursion (λ at. at.0 < place.before) nodes.now }
    ensures put { IfOk result (λ last. NodesPut context.now nodes.now place want before rows.old rows.new last) }
    ensures grown { OnOk result (NodesGrow context.now.tree.now nodes.now rows.old rows.new) }
{
    let mut last = before;
    for at in nodes {
        let end = put_behind(context, last, want, *at, place, rows)?;
        last = Some(end);
    }
    Ok(last)
}

// The same of a node that may be there.
#[cycle(nodes)]
fn put_perhaps<'t>(
    context: &Context<'t>,
    before: Option<usize>,
    want: Want,
    at: Option<At>,
    place: Place,
    rows: &mut Rows<'t>,
) -> Result<Option<usize>, AllocError>
    requires node { MayBeNode context.now.tree.now at }
    requires below { AtBelow place.before at }
    ensures put { IfOk result (λ last. PerhapsPut context.now at place want before rows.old rows.new last) }
    ensures grown { OnOk result (MayGrow context.now.tree.now at rows.old rows.new) }
{
    match at {
        None => Ok(before),
        Some(at) => {
            let end = put_behind(context, before, want, at, place, rows)?;
            Ok(Some(end))
        }
    }
}

/// Puts a node in this place behind an item, if there is one, with the gap before it, where this is wanted. It gives
/// the number of its last item.
///
/// An `AllocError` comes for want of memory.
#[cycle(nodes)]
pub fn put_behind<'t>(
    context: &Context<'t>,
    before: Option<usize>,
    want: Want,
    at: At,
    place: Place,
    rows: &mut Rows<'t>,
) -> Result<usize, AllocError>
    requires node { IsNode context.now.tree.now at }
    requires below { at.0 < place.before }
    ensures put { IfOk result (λ last. BehindPut context.now at place want before rows.old rows.new last) }
    ensures grown { OnOk result (NodeGrows 100 context.now.tree.now at rows.old rows.new) }
{
    put_gap_behind(
        context.tree,
        before,
        first_item(context.tree, at),
        want,
        rows,
    )?;
    put_node(context, at, place, rows)
}

/// Puts a slot in this place, whose role is that of the slot's datum. It gives the number of its last item.
///
/// An `AllocError` comes for want of memory.
#[cycle(nodes)]
pub fn put_slot<'t>(
    context: &Context<'t>,
    slot: SlotRef<'_>,
    place: Place,
    rows: &mut Rows<'t>,
) -> Result<usize, AllocError>
    requires slot { IsSlot context.now.tree.now (read_slot slot) }
    requires before { AllByRecursion (λ at. at.0 < place.before) (parts_in (read_slot slot)) }
    ensures put { IfOk result (λ last. SlotPut context.now (read_slot slot.entry) place rows.old rows.new last) }
    ensures grown { OnOk result (SlotGrows 28 context.now.tree.now (read_slot slot.entry) rows.old rows.new) }
{
    match datum_alone(slot) {
        Some(at) => put_node(context, at, place, rows),
        None => put_together(context, slot, place, rows),
    }
}

// The datum of a slot that holds nothing else: no comments and no key.
fn datum_alone(slot: SlotRef<'_>) -> Option<At>
    ensures { IfSome result (IsAlone (read_slot slot.entry)) }
{
    match (slot.key, slot.trailing) {
        (None, None) if slot.leads.is_empty() => slot.datum,
        _ => None,
    }
}

// Puts the parts of a slot, taken together.
#[cycle(nodes)]
#[inline(never)]
fn put_together<'t>(
    context: &Context<'t>,
    slot: SlotRef<'_>,
    place: Place,
    rows: &mut Rows<'t>,
) -> Result<usize, AllocError>
    requires slot { IsSlot context.now.tree.now (read_slot slot) }
    requires before { AllByRecursion (λ at. at.0 < place.before) (parts_in (read_slot slot)) }
    ensures put { IfOk result (λ last. SlotPut context.now (read_slot slot.entry) place rows.old rows.new last) }
    ensures grown { OnOk result (SlotGrows 28 context.now.tree.now (read_slot slot.entry) rows.old rows.new) }
{
    let height = rows.height();
    let last = put_parts(context, slot, place, rows)?;
    join_behind(slot.leads.len(), height, rows)?;
    Ok(last.unwrap_or(0))
}

// Puts the parts of a slot, piece by piece.
#[cycle(nodes)]
fn put_parts<'t>(
    context: &Context<'t>,
    slot: SlotRef<'_>,
    place: Place,
    rows: &mut Rows<'t>,
) -> Result<Option<usize>, AllocError>
    requires slot { IsSlot context.now.tree.now (read_slot slot) }
    requires before { AllByRecursion (λ at. at.0 < place.before) (parts_in (read_slot slot)) }
    ensures put { IfOk result (λ last. SlotPartsPut context.now (read_slot slot.entry) place rows.old rows.new last) }
    ensures grown { OnOk result (SlotGrows 0 context.now.tree.now (read_slot slot.entry) rows.old rows.new) }
{
    // Each comment before the datum ends its line.
    let ahead = Place {
        role: Role::Free,
        ..place
    };
    let free = Place {
        right: NOWHERE,
        ..ahead
    };
    let behind = Place {
        role: role_behind(slot.key, place.role),
        right: datum_reach(context.tree, slot, place.right),
        ..place
    };
    let leads = put_nodes(context, None, Want::Line, slot.leads, ahead, rows)?;
    let key = put_perhaps(context, leads, Want::Line, slot.key, free, rows)?;
    let wanted = want_behind(slot.key);
    let datum = put_perhaps(context, key, wanted, slot.datum, behind, rows)?;
    put_perhaps(context, datum, Want::Space, slot.trailing, free, rows)
}

// What is wanted before the datum behind this key, if there is one.
fn want_behind(key: Option<At>) -> Want
    ensures { result ≡ want_behind key }
{
    match key {
        None => Want::Line,
        Some(_) => Want::Space,
    }
}

// Puts the list at this node, which has these brackets.
#[cycle(nodes)]
fn put_list<'t>(
    context: &Context<'t>,
    at: At,
    list: Brackets,
    place: Place,
    rows: &mut Rows<'t>,
) -> Result<(), AllocError>
    requires node { IsList context.now.tree.now at list }
    requires opener { HasItem context.now.tree.now list.opener }
    requires closer { HasItem context.now.tree.now list.closer }
    ensures put { OnOk result (ListPut context.now at list place rows.old rows.new) }
    ensures grown { OnOk result (ListGrows context.now.tree.now at list rows.old rows.new) }
{
    if put_unmade(context, at, list, place, rows)? {
        return Ok(());
    }
    put_made(context, at, list, place, rows)
}

// The same, slot by slot.
#[cycle(nodes)]
fn put_made<'t>(
    context: &Context<'t>,
    at: At,
    list: Brackets,
    place: Place,
    rows: &mut Rows<'t>,
) -> Result<(), AllocError>
    requires node { IsList context.now.tree.now at list }
    requires opener { HasItem context.now.tree.now list.opener }
    requires closer { HasItem context.now.tree.now list.closer }
    ensures put { OnOk result (ListPut context.now at list place rows.old rows.new) }
    ensures grown { OnOk result (ListGrows context.now.tree.now at list rows.old rows.new) }
{
    let slots = slots_in(context.tree, at);
    let inside = Place {
        before: at.0 as usize,
        quoted: quoted_inside(context.tree.text(list.opener), place.quoted),
        role: Role::Free,
        right: place.right,
        behind: place.behind.saturating_add(1),
    };
    let way = way_of(
        context.tree,
        context.style,
        inside.quoted,
        place.role,
        slots,
    );
    let height = rows.height();
    put_item(context.tree, list.opener, Columns::Characters, rows)?;
    put_body(context, list, way, slots, inside, rows)?;
    put_item(context.tree, list.closer, Columns::Characters, rows)?;
    join(height, rows)
}

// Puts the list at this node as one piece that isn't made of others, where its line is known and surely ends where
// texts cost nothing, and tells whether it did.
#[tactic(auto, using(crate::proofs::Putting::puts_none))]
fn put_unmade<'t>(
    context: &Context<'t>,
    at: At,
    list: Brackets,
    place: Place,
    rows: &mut Rows<'t>,
) -> Result<bool, AllocError>
    requires node { IsNode context.now.tree.now at }
    ensures put { result ≡ Ok true → UnmadePut context.now at place rows.old rows.new }
    ensures same { result ≡ Ok false → Puts rows.old rows.new [] }
    ensures grown { result ≡ Ok true → Grows 28 rows.old rows.new }
    ensures not_grown { result ≡ Ok false → Grows 0 rows.old rows.new }
{
    let Some(free) = rows.free else {
        return Ok(false);
    };
    match room_for(context.tree, list, free, place) {
        None => Ok(false),
        Some(most) => {
            let placed = Placed {
                tree: context.tree,
                style: context.style,
                at,
                quoted: place.quoted,
                role: place.role,
            };
            rows.unmade(&placed, most)
        }
    }
}

// Puts what stands between the brackets of a list of these slots, which is laid out in this way.
#[cycle(nodes)]
fn put_body<'t>(
    context: &Context<'t>,
    list: Brackets,
    way: Way,
    slots: Slots<'_>,
    place: Place,
    rows: &mut Rows<'t>,
) -> Result<(), AllocError>
    requires cursor { IsCursor slots }
    requires slots { AreSlots context.now.tree.now (slots_ahead slots) }
    requires before { NodeSlotsBelow place.before (slots_ahead slots) }
    requires charges { AreCharges way.charges }
    ensures put { OnOk result (BodyPut context.now list way (slots_ahead slots.entry) place rows.old rows.new) }
    ensures grown { OnOk result (SlotsGrow 68 context.now.tree.now (slots_ahead slots.entry) rows.old rows.new) }
{
    let mut others = slots;
    match others.first() {
        None => Ok(()),
        Some(first) => {
            let height = rows.height();
            let reach = reach_of(context.tree, way.shape, place.right, list.opener, first);
            let role = first_role(way.roles);
            let place_of_first = Place {
                role,
                right: reach.first,
                ..place
            };
            let last = put_first(
                context,
                list.opener,
                first,
                &mut others,
                place_of_first,
                rows,
            )?;
            match others.first() {
                None => {
                    put_gap(context.tree, last, list.closer, Want::Nothing, rows)?;
                    align(height, rows)
                }
                Some(second) => {
                    let begun = Begun {
                        list,
                        way,
                        height,
                        last,
                        reach,
                    };
                    put_rest(context, begun, second, others, place, rows)
                }
            }
        }
    }
}

// Puts the first slot of a list, which begins with this node, behind its opener.
#[cycle(nodes)]
fn put_first<'t>(
    context: &Context<'t>,
    opener: usize,
    first: At,
    slots: &mut Slots<'_>,
    place: Place,
    rows: &mut Rows<'t>,
) -> Result<usize, AllocError>
    requires cursor { IsCursor slots.old }
    requires first { BeginWith (slots_ahead slots.old) (Some first) }
    requires slots { AreSlots context.now.tree.now (slots_ahead slots.old) }
    requires before { NodeSlotsBelow place.before (slots_ahead slots.old) }
    ensures cursor { OnOk result (IsCursor slots.new) }
    ensures put { IfOk result (λ last. FirstTaken (slots_ahead slots.old) (slots_ahead slots.new) (λ slot.
        FirstPut context.now opener slot place rows.old rows.new last
        × SlotGrows 68 context.now.tree.now slot rows.old rows.new)) }
{
    let next = first_item(context.tree, first);
    put_gap(context.tree, opener, next, Want::Nothing, rows)?;
    put_next(context, slots, place, rows)
}

// Puts the next slot of a list, of which one is left.
#[cycle(nodes)]
#[inline(always)]
fn put_next<'t>(
    context: &Context<'t>,
    slots: &mut Slots<'_>,
    place: Place,
    rows: &mut Rows<'t>,
) -> Result<usize, AllocError>
    requires cursor { IsCursor slots.old }
    requires some { slots_ahead slots.old ≢ [] }
    requires slots { AreSlots context.now.tree.now (slots_ahead slots.old) }
    requires before { NodeSlotsBelow place.before (slots_ahead slots.old) }
    ensures cursor { OnOk result (IsCursor slots.new) }
    ensures put { IfOk result (λ last. FirstTaken (slots_ahead slots.old) (slots_ahead slots.new) (λ slot.
        SlotPut context.now slot place rows.old rows.new last
        × SlotGrows 28 context.now.tree.now slot rows.old rows.new)) }
{
    match slots.next_alone() {
        Some(at) => put_node(context, at, place, rows),
        None => put_parted(context, slots, place, rows),
    }
}

// The same of any slot, part by part.
#[cycle(nodes)]
#[inline(never)]
fn put_parted<'t>(
    context: &Context<'t>,
    slots: &mut Slots<'_>,
    place: Place,
    rows: &mut Rows<'t>,
) -> Result<usize, AllocError>
    requires cursor { IsCursor slots.old }
    requires some { slots_ahead slots.old ≢ [] }
    requires slots { AreSlots context.now.tree.now (slots_ahead slots.old) }
    requires before { NodeSlotsBelow place.before (slots_ahead slots.old) }
    ensures cursor { OnOk result (IsCursor slots.new) }
    ensures put { IfOk result (λ last. FirstTaken (slots_ahead slots.old) (slots_ahead slots.new) (λ slot.
        SlotPut context.now slot place rows.old rows.new last
        × SlotGrows 28 context.now.tree.now slot rows.old rows.new)) }
{
    match slots.next() {
        Some(slot) => put_slot(context, slot, place, rows),
        // One is left.
        None => Ok(0),
    }
}

// Puts the second slot of a list, which begins with this node, and the others behind the first one, and takes them
// together.
#[cycle(nodes)]
fn put_rest<'t>(
    context: &Context<'t>,
    begun: Begun,
    second: At,
    slots: Slots<'_>,
    place: Place,
    rows: &mut Rows<'t>,
) -> Result<(), AllocError>
    requires cursor { IsCursor slots }
    requires second { BeginWith (slots_ahead slots) (Some second) }
    requires slots { AreSlots context.now.tree.now (slots_ahead slots) }
    requires before { NodeSlotsBelow place.before (slots_ahead slots) }
    requires charges { AreCharges begun.way.charges }
    requires within { begun.height ≤ length rows.old.stack.items }
    ensures put { OnOk result (RestPut context.now begun (slots_ahead slots.entry) place rows.old rows.new) }
    ensures grown { OnOk result (SlotsGrow 68 context.now.tree.now (slots_ahead slots.entry) rows.old rows.new) }
{
    let mut others = slots;
    let behind = rows.height();
    let next = first_item(context.tree, second);
    put_free_gap(context.tree, begun.last, next, rows)?;
    let below = rows.height();
    let roles = later_roles(begun.way.roles);
    let role = first_role(roles);
    let place_of_second = Place {
        role,
        right: second_reach(begun.way.shape, begun.reach),
        ..place
    };
    let last = put_next(context, &mut others, place_of_second, rows)?;
    let run = Run {
        last,
        roles: later_roles(roles),
    };
    let more = more_headers(begun.way.shape);
    let bodies = put_others(context, begun, more, run, others, place, rows)?;
    let places = Places {
        first: behind,
        second: below,
        bodies,
    };
    close_list(begun.way, begun.height, places, rows)
}

// Puts slots of a list behind others, and the gap before the closer. It gives the height at which the bodies stand
// behind so many headers, or that of all where there is no body.
#[cycle(nodes)]
fn put_others<'t>(
    context: &Context<'t>,
    list: Begun,
    more: usize,
    run: Run,
    others: Slots<'_>,
    place: Place,
    rows: &mut Rows<'t>,
) -> Result<usize, AllocError>
    requires tree { IsTree context.now.tree.now }
    requires cursor { IsCursor others }
    requires slots { AreSlots context.now.tree.now (slots_ahead others) }
    requires before { NodeSlotsBelow place.before (slots_ahead others) }
    ensures put { IfOk result (λ bodies. OthersPut context.now list.list.closer more run (slots_ahead others.entry)
        place rows.old rows.new bodies) }
    ensures grown { OnOk result (SlotsGrow 40 context.now.tree.now (slots_ahead others.entry) rows.old rows.new) }
{
    let place_of_headers = Place {
        right: list.reach.headers,
        ..place
    };
    let (begun, bodies) = put_run(context, run, others, more, place_of_headers, rows)?;
    let height = rows.height();
    let place_of_bodies = Place {
        right: list.reach.bodies,
        ..place
    };
    let (ended, _) = put_run(context, begun, bodies, bodies.most(), place_of_bodies, rows)?;
    put_gap(
        context.tree,
        ended.last,
        list.list.closer,
        Want::Nothing,
        rows,
    )?;
    if bodies.is_empty() {
        Ok(rows.height())
    } else {
        Ok(height)
    }
}

// Puts so many slots of a list at most behind others, each with the gap before it, which each layout fills by itself.
// It gives the slots that are left, too.
#[inline(always)]
#[cycle(nodes)]
fn put_run<'t, 'c>(
    context: &Context<'t>,
    begun: Run,
    slots: Slots<'c>,
    most: usize,
    place: Place,
    rows: &mut Rows<'t>,
) -> Result<(Run, Slots<'c>), AllocError>
    requires cursor { IsCursor slots }
    requires slots { AreSlots context.now.tree.now (slots_ahead slots) }
    requires before { NodeSlotsBelow place.before (slots_ahead slots) }
    ensures put { IfOk result (λ p. RunPut context.now begun (take most (slots_ahead slots.entry)) place
        rows.old rows.new p.0) }
    ensures left { IfOk result (λ p. slots_ahead p.1 ≡ drop most (slots_ahead slots.entry)) }
    ensures cursor { IfOk result (λ p. IsCursor p.1) }
    ensures grown { OnOk result (SlotsGrow 0 context.now.tree.now (take most (slots_ahead slots.entry)) rows.old
        rows.new) }
{
    let mut run = begun;
    let mut ahead = slots;
    let mut count = 0;
    while let Some(next) = next_of(&ahead, most - count) {
        let role = first_role(run.roles);
        let last = put_free(
            context,
            run.last,
            next,
            &mut ahead,
            Place { role, ..place },
            rows,
        )?;
        run = Run {
            last,
            roles: later_roles(run.roles),
        };
        count += 1;
    }
    Ok((run, ahead))
}

// The node that the next slot begins with, where some are to be taken and one is left.
#[inline(always)]
fn next_of(slots: &Slots<'_>, left: usize) -> Option<At>
    ensures { BeginOf left (slots_ahead slots.now) result }
{
    if left == 0 { None } else { slots.first() }
}

// Puts the next slot of a list, which begins with this node, behind an item, with the gap before it, which each layout
// fills by itself.
#[cycle(nodes)]
fn put_free<'t>(
    context: &Context<'t>,
    before: usize,
    first: At,
    slots: &mut Slots<'_>,
    place: Place,
    rows: &mut Rows<'t>,
) -> Result<usize, AllocError>
    requires cursor { IsCursor slots.old }
    requires first { BeginWith (slots_ahead slots.old) (Some first) }
    requires slots { AreSlots context.now.tree.now (slots_ahead slots.old) }
    requires below { NodeSlotsBelow place.before (slots_ahead slots.old) }
    ensures cursor { OnOk result (IsCursor slots.new) }
    ensures put { IfOk result (λ last. FirstTaken (slots_ahead slots.old) (slots_ahead slots.new) (λ slot.
        FreePut context.now before slot place rows.old rows.new last
        × SlotGrows 68 context.now.tree.now slot rows.old rows.new)) }
{
    let next = first_item(context.tree, first);
    put_free_gap(context.tree, before, next, rows)?;
    put_next(context, slots, place, rows)
}
