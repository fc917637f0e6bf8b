//! What stands at nodes, in the places where they stand.

ghost use Rattle.std.specs.Prelude.{◌≡◌, ◌<◌, true, leb, length, IfOk, OnOk, IsFalse};
ghost use Rattle.std.specs.List.{AllByRecursion};
ghost use Rattle.rf_base_file.specs.declared.shapes.Role.{Role};
ghost use Rattle.rf_base_lines.specs.Lists.{IsUncharged};
ghost use Rattle.rf_tree.specs.Kept.{HasNode, HasItem};
ghost use Rattle.rf_tree.specs.Slots.{NodeSlotsBelow, parts_in, read_slot};
ghost use Rattle.rf_tree.specs.Ahead.{slots_ahead, IsCursor};
ghost use Rattle.rf_ways.specs.Nodes.{IsNode, IsList, IsSlot, AreNodes, AreSlots, FirstTaken};
ghost use Rattle.rf_lines.specs.Nodes.{IsFirstItem};
ghost use Rattle.rf_lines.specs.Nodes.{WritesNode, WritesPrefixed, WritesList, WritesBody, WritesOthers};
ghost use Rattle.rf_lines.specs.Nodes.{WritesSlotBehind, WritesKeyed, WritesComments, WritesBehind};

use crate::faults::Stop;
use crate::gaps::write_gap;
use crate::items::{write_item, write_mark};
use crate::strips::Strip;
use crate::turns::{flat_dirs, seem_few, turns_of};
use crate::writer::{LinePlace, Writer};
use rf_base_file::{Role, Roles};
use rf_style::Charges;
use rf_tree::{At, Node, SlotRef, Slots, Tree, Want, slots_in};
use rf_ways::{Brackets, first_role, later_roles, quoted_behind, quoted_inside, way_of};

/// Writes what stands at a node, in this place, with this role. It gives the number of its last item. Most nodes are
/// one item, for which no frame is taken.
#[inline(always)]
#[cycle(nodes)]
pub fn write_node(
    writer: &Writer,
    at: At,
    place: LinePlace,
    role: Role,
    strip: &mut Strip,
) -> Result<usize, Stop>
    requires node { IsNode writer.now.tree.now at }
    ensures { IfOk result (λ last. WritesNode writer.now at place role strip.old strip.new last) }
{
    match writer.tree.nodes.node(at) {
        Node::Leaf(item) => {
            write_item(writer, item, writer.style.columns, strip)?;
            Ok(item)
        }
        _ => write_inner(writer, at, place, role, strip),
    }
}

// Writes what stands at a node of several items.
#[cycle(nodes)]
fn write_inner(
    writer: &Writer,
    at: At,
    place: LinePlace,
    role: Role,
    strip: &mut Strip,
) -> Result<usize, Stop>
    requires node { IsNode writer.now.tree.now at }
    ensures { IfOk result (λ last. WritesNode writer.now at place role strip.old strip.new last) }
{
    match writer.tree.nodes.node(at) {
        Node::Prefixed { item, lead, inner } => {
            if lead.is_empty() {
                let behind = LinePlace {
                    before: at.0 as usize,
                    quoted: quoted_behind(writer.tree.text(item), place.quoted),
                    flat: place.flat,
                };
                write_prefixed(writer, item, inner, behind, strip)
            } else {
                Err(Stop::Unfit)
            }
        }
        Node::List { opener, closer, .. } => {
            let list = Brackets { opener, closer };
            write_list(writer, at, list, place, role, strip)?;
            Ok(closer)
        }
        Node::Leaf(_) | Node::Comment(_) | Node::DatumComment { .. } => Err(Stop::Unfit),
    }
}

// Writes a comment, in this place, behind the item of this number, where this is wanted before it. Data are none, so
// that they go another way.
#[cycle(nodes)]
#[inline(never)]
fn write_comment_behind(
    writer: &Writer,
    before: usize,
    want: Want,
    at: At,
    place: LinePlace,
    strip: &mut Strip,
) -> Result<usize, Stop>
    requires node { IsNode writer.now.tree.now at }
    requires below { at.0 < place.before }
    ensures { IfOk result (λ last. (role : Role) → WritesBehind writer.now before want at place role strip.old strip.new
        last) }
{
    write_gap(writer, before, first_item(writer.tree, at), want, strip)?;
    write_comment(writer, at, place, strip)
}

// Writes what stands at a node, if that is a comment, in this place.
#[cycle(nodes)]
fn write_comment(
    writer: &Writer,
    at: At,
    place: LinePlace,
    strip: &mut Strip,
) -> Result<usize, Stop>
    requires node { IsNode writer.now.tree.now at }
    ensures { IfOk result (λ last. (role : Role) → WritesNode writer.now at place role strip.old strip.new last) }
{
    match writer.tree.nodes.node(at) {
        Node::Comment(item) => {
            write_item(writer, item, writer.style.columns, strip)?;
            Ok(item)
        }
        Node::DatumComment { item, lead, inner } => {
            if lead.is_empty() {
                let behind = LinePlace {
                    before: at.0 as usize,
                    ..place
                };
                write_prefixed(writer, item, inner, behind, strip)
            } else {
                Err(Stop::Unfit)
            }
        }
        _ => Err(Stop::Unfit),
    }
}

// Writes a prefix or a skip and its datum, which stands in this place.
#[cycle(nodes)]
#[inline(always)]
fn write_prefixed(
    writer: &Writer,
    item: usize,
    inner: At,
    place: LinePlace,
    strip: &mut Strip,
) -> Result<usize, Stop>
    requires there { HasItem writer.now.tree.now item }
    requires inner { IsNode writer.now.tree.now inner }
    requires before { inner.0 < place.before }
    ensures { IfOk result (λ last. WritesPrefixed writer.now item inner place strip.old strip.new last) }
{
    write_mark(writer, item, strip)?;
    let next = first_item(writer.tree, inner);
    write_gap(writer, item, next, Want::Nothing, strip)?;
    write_node(writer, inner, place, Role::Free, strip)
}

// Writes the list at this node, which has these brackets, in this place, with this role.
#[cycle(nodes)]
fn write_list(
    writer: &Writer,
    at: At,
    list: Brackets,
    place: LinePlace,
    role: Role,
    strip: &mut Strip,
) -> Result<(), Stop>
    requires node { IsList writer.now.tree.now at list }
    requires opener { HasItem writer.now.tree.now list.opener }
    requires closer { HasItem writer.now.tree.now list.closer }
    ensures { OnOk result (WritesList writer.now at list place role strip.old strip.new) }
{
    let slots = slots_in(writer.tree, at);
    let quoted = quoted_inside(writer.tree.text(list.opener), place.quoted);
    let way = way_of(writer.tree, writer.style, quoted, role, slots);
    if is_charged(way.charges) {
        return Err(Stop::Unfit);
    }
    let few = seem_few(&slots);
    match turns_of(way.shape, &slots, few, place.flat) {
        None => Err(Stop::Unfit),
        Some(turns) => {
            let inside = LinePlace {
                before: at.0 as usize,
                quoted,
                flat: turns.flat,
            };
            write_mark(writer, list.opener, strip)?;
            strip.turn(turns.dirs, flat_dirs(few))?;
            write_body(writer, list, slots, few, way.roles, inside, strip)?;
            write_mark(writer, list.closer, strip)
        }
    }
}

// Whether anything is charged.
fn is_charged(charges: Charges) -> bool
    ensures { IsFalse result → IsUncharged charges }
{
    charges.broken != 0 || charges.hung != 0 || charges.flat != 0
}

// Writes what stands between the brackets of a list of these slots, which have these roles, where they are as few as
// they seem.
#[cycle(nodes)]
fn write_body(
    writer: &Writer,
    list: Brackets,
    slots: Slots<'_>,
    few: bool,
    roles: Roles,
    place: LinePlace,
    strip: &mut Strip,
) -> Result<(), Stop>
    requires cursor { IsCursor slots }
    requires slots { AreSlots writer.now.tree.now (slots_ahead slots) }
    requires before { NodeSlotsBelow place.before (slots_ahead slots) }
    ensures few { OnOk result (few ≡ leb (length (slots_ahead slots.entry)) 1) }
    ensures written { OnOk result (WritesBody writer.now list (slots_ahead slots.entry) roles place strip.old
        strip.new) }
{
    if slots.is_empty() {
        return if few { Ok(()) } else { Err(Stop::Unfit) };
    }
    let mut others = slots;
    let role = first_role(roles);
    let begun = write_next(
        writer,
        list.opener,
        Want::Nothing,
        &mut others,
        place,
        role,
        strip,
    )?;
    if others.is_empty() != few {
        return Err(Stop::Unfit);
    }
    let last = write_others(writer, begun, others, later_roles(roles), place, strip)?;
    write_gap(writer, last, list.closer, Want::Nothing, strip)
}

// Writes the other slots of a list, which have these roles, behind the item of this number.
#[cycle(nodes)]
fn write_others(
    writer: &Writer,
    before: usize,
    slots: Slots<'_>,
    roles: Roles,
    place: LinePlace,
    strip: &mut Strip,
) -> Result<usize, Stop>
    requires cursor { IsCursor slots }
    requires slots { AreSlots writer.now.tree.now (slots_ahead slots) }
    requires before { NodeSlotsBelow place.before (slots_ahead slots) }
    ensures { IfOk result (λ last. WritesOthers writer.now before (slots_ahead slots.entry) roles place strip.old
        strip.new last) }
{
    let mut last = before;
    let mut roles = roles;
    let mut ahead = slots;
    while !ahead.is_empty() {
        let role = first_role(roles);
        last = write_next(writer, last, Want::Line, &mut ahead, place, role, strip)?;
        roles = later_roles(roles);
    }
    Ok(last)
}

// Writes the next slot of a list, of which one is left, behind the item of this number, where this is wanted before it.
// The role is that of the slot.
#[cycle(nodes)]
#[inline(always)]
fn write_next(
    writer: &Writer,
    before: usize,
    want: Want,
    slots: &mut Slots<'_>,
    place: LinePlace,
    role: Role,
    strip: &mut Strip,
) -> Result<usize, Stop>
    requires cursor { IsCursor slots.old }
    requires slots { AreSlots writer.now.tree.now (slots_ahead slots.old) }
    requires below { NodeSlotsBelow place.before (slots_ahead slots.old) }
    ensures cursor { OnOk result (IsCursor slots.new) }
    ensures written { IfOk result (λ last. FirstTaken (slots_ahead slots.old) (slots_ahead slots.new) (λ slot.
        WritesSlotBehind writer.now before want slot place role strip.old strip.new last)) }
{
    match slots.next_alone() {
        Some(at) => write_behind(writer, before, want, at, place, role, strip),
        None => write_parted(writer, before, want, slots, place, role, strip),
    }
}

// The same of any slot, part by part. One that begins with comments and has a datum is written where it is flat.
#[cycle(nodes)]
#[inline(never)]
fn write_parted(
    writer: &Writer,
    before: usize,
    want: Want,
    slots: &mut Slots<'_>,
    place: LinePlace,
    role: Role,
    strip: &mut Strip,
) -> Result<usize, Stop>
    requires cursor { IsCursor slots.old }
    requires slots { AreSlots writer.now.tree.now (slots_ahead slots.old) }
    requires below { NodeSlotsBelow place.before (slots_ahead slots.old) }
    ensures cursor { OnOk result (IsCursor slots.new) }
    ensures written { IfOk result (λ last. FirstTaken (slots_ahead slots.old) (slots_ahead slots.new) (λ slot.
        WritesSlotBehind writer.now before want slot place role strip.old strip.new last)) }
{
    let Some(slot) = slots.next() else {
        return Err(Stop::Unfit);
    };
    if slot.leads.is_empty() {
        write_keyed(writer, before, want, slot, place, role, strip)
    } else if place.flat && slot.datum.is_some() {
        write_led(writer, before, want, slot, place, role, strip)
    } else {
        write_remark(writer, before, want, slot, place, strip)
    }
}

// Writes a slot of one comment and nothing else.
#[cycle(nodes)]
#[inline(never)]
fn write_remark(
    writer: &Writer,
    before: usize,
    want: Want,
    slot: SlotRef<'_>,
    place: LinePlace,
    strip: &mut Strip,
) -> Result<usize, Stop>
    requires slot { IsSlot writer.now.tree.now (read_slot slot) }
    requires below { AllByRecursion (λ at. at.0 < place.before) (parts_in (read_slot slot)) }
    ensures { IfOk result (λ last. (role : Role) → WritesSlotBehind writer.now before want (read_slot slot.entry) place
        role strip.old strip.new last) }
{
    let Some((at, behind)) = slot.leads.split_first() else {
        return Err(Stop::Unfit);
    };
    match (slot.key, slot.datum, slot.trailing) {
        (None, None, None) if behind.is_empty() => {
            write_comment_behind(writer, before, want, *at, place, strip)
        }
        _ => Err(Stop::Unfit),
    }
}

// Writes a flat slot that begins with comments: these, its key and its datum.
#[cycle(nodes)]
#[inline(never)]
fn write_led(
    writer: &Writer,
    before: usize,
    want: Want,
    slot: SlotRef<'_>,
    place: LinePlace,
    role: Role,
    strip: &mut Strip,
) -> Result<usize, Stop>
    requires slot { IsSlot writer.now.tree.now (read_slot slot) }
    requires below { AllByRecursion (λ at. at.0 < place.before) (parts_in (read_slot slot)) }
    requires flat { place.flat ≡ true }
    ensures { IfOk result (λ last. WritesSlotBehind writer.now before want (read_slot slot.entry) place role strip.old
        strip.new last) }
{
    let Some((first, others)) = slot.leads.split_first() else {
        return Err(Stop::Unfit);
    };
    let begun = write_comment_behind(writer, before, want, *first, place, strip)?;
    let led = write_comments(writer, begun, others, place, strip)?;
    write_keyed(writer, led, Want::Line, slot, place, role, strip)
}

// Writes comments behind the item of this number, each behind a gap in which a line is wanted.
#[cycle(nodes)]
fn write_comments(
    writer: &Writer,
    before: usize,
    comments: &[At],
    place: LinePlace,
    strip: &mut Strip,
) -> Result<usize, Stop>
    requires nodes { AreNodes writer.now.tree.now comments.now }
    requires below { AllByRecursion (λ at. at.0 < place.before) comments.now }
    ensures { IfOk result (λ last. WritesComments writer.now before comments.now place strip.old strip.new last) }
{
    let mut last = before;
    for at in comments {
        last = write_comment_behind(writer, last, Want::Line, *at, place, strip)?;
    }
    Ok(last)
}

// Writes what stands in a slot behind its comments: its key and its datum.
#[cycle(nodes)]
#[inline(always)]
fn write_keyed(
    writer: &Writer,
    before: usize,
    want: Want,
    slot: SlotRef<'_>,
    place: LinePlace,
    role: Role,
    strip: &mut Strip,
) -> Result<usize, Stop>
    requires slot { IsSlot writer.now.tree.now (read_slot slot) }
    requires below { AllByRecursion (λ at. at.0 < place.before) (parts_in (read_slot slot)) }
    ensures { IfOk result (λ last. WritesKeyed writer.now before want (read_slot slot.entry) place role strip.old
        strip.new last) }
{
    match (slot.key, slot.datum, slot.trailing) {
        (None, Some(at), None) => write_behind(writer, before, want, at, place, role, strip),
        (Some(key), Some(at), None) => {
            let last = write_behind(writer, before, want, key, place, Role::Free, strip)?;
            write_behind(writer, last, Want::Space, at, place, Role::Free, strip)
        }
        _ => Err(Stop::Unfit),
    }
}

// Writes what stands at a node, in this place, with this role, behind the item of this number, where this is wanted
// before it.
#[cycle(nodes)]
#[inline(always)]
fn write_behind(
    writer: &Writer,
    before: usize,
    want: Want,
    at: At,
    place: LinePlace,
    role: Role,
    strip: &mut Strip,
) -> Result<usize, Stop>
    requires node { IsNode writer.now.tree.now at }
    requires below { at.0 < place.before }
    ensures { IfOk result (λ last. WritesBehind writer.now before want at place role strip.old strip.new last) }
{
    write_gap(writer, before, first_item(writer.tree, at), want, strip)?;
    write_node(writer, at, place, role, strip)
}

/// The number of the first item of a node.
pub fn first_item(tree: &Tree, at: At) -> usize
    requires { HasNode tree.now at }
    ensures { IsFirstItem tree.now at result }
{
    match tree.nodes.node(at) {
        Node::Leaf(item) => item,
        Node::Comment(item) => item,
        Node::Prefixed { item, .. } => item,
        Node::DatumComment { item, .. } => item,
        Node::List { opener, .. } => opener,
    }
}
