//! What stands behind a measure of a node, where that is told of the node itself.

ghost use Rattle.std.specs.Prelude.{◌≡◌, ◌≤◌, ◌+◌, ℕ, Some, IfOk};
ghost use Rattle.rf_outline.specs.declared.documents.Span.TheVariants as span;
ghost use Rattle.rf_outline.specs.Documents.{LeafHolds};
ghost use Rattle.rf_search.specs.Holding.{Holds, GoesOn, IsAsked};
ghost use Rattle.rf_search.specs.AtOnce.{IsKnown, IsKnownBehind};
ghost use Rattle.rf_search.specs.Sought.{task};

use crate::behind::{is_free, put_break, put_leaf, put_line, put_text};
use crate::sought::{Found, Place, Setting};
use rf_cost::Factory;
use rf_frontier::Measure;
use rf_outline::{Documents, Leaf, Span};
use std::alloc::AllocError;

// What is known of what stands behind a measure of a node, without the node's parts.
#[derive(Clone, Copy)]
pub enum AtOnce {
    // Nothing stands there.
    Nothing,
    // One measure alone, which is put in place of the other one.
    One,
    // It is left to the parts.
    Unknown,
}

// What is known of what stands behind a measure of the node in this place, wherever that is cut, where the node is told
// to be a leaf. What is found is read by clauses alone.
#[inline(always)]
pub fn behind_leaf<D: Documents, F: Factory>(
    setting: &Setting<D, F>,
    place: &Place<D::Node>,
    m: &mut Measure<F::Cost>,
    _found: &Found<F::Cost>,
) -> AtOnce
    requires holds { Holds (task setting.now) _found.now }
    requires asked { IsAsked (task setting.now) _found.now place.now m.old }
    ensures { (x : ℕ) → IsKnownBehind (task setting.now) _found.now.hows _found.now.hows place.now.node place.now.flat
        place.now.indentation x m.old m.new result }
{
    match setting.documents.leaf(place.node, place.flat) {
        None => AtOnce::Unknown,
        Some(leaf) => behind_known_leaf(setting, place, leaf, m, _found),
    }
}

// The same of a node that is told to be this leaf.
#[inline(always)]
pub fn behind_known_leaf<D: Documents, F: Factory>(
    setting: &Setting<D, F>,
    place: &Place<D::Node>,
    leaf: Leaf,
    m: &mut Measure<F::Cost>,
    _found: &Found<F::Cost>,
) -> AtOnce
    requires leaf { LeafHolds ((task setting.now).documents.document place.now.node) place.now.flat (Some leaf) }
    requires holds { Holds (task setting.now) _found.now }
    requires asked { IsAsked (task setting.now) _found.now place.now m.old }
    ensures { (x : ℕ) → IsKnownBehind (task setting.now) _found.now.hows _found.now.hows place.now.node place.now.flat
        place.now.indentation x m.old m.new result }
{
    match leaf {
        Leaf::Text(len) if len > setting.sought.limit - m.last => AtOnce::Nothing,
        Leaf::Text(len) => {
            put_leaf(setting, m, len);
            AtOnce::One
        }
        Leaf::Break if place.indentation > setting.sought.limit => AtOnce::Nothing,
        Leaf::Break => {
            put_break(setting, m, place.indentation);
            AtOnce::One
        }
    }
}

// What is known at once of what stands behind a measure of the node in this place: of what has one length on one line,
// and of what is free there.
#[inline(always)]
pub fn on_one_line<D: Documents, F: Factory>(
    setting: &Setting<D, F>,
    place: &Place<D::Node>,
    m: &mut Measure<F::Cost>,
    found: &mut Found<F::Cost>,
) -> Result<AtOnce, AllocError>
    requires holds { Holds (task setting.now) found.old }
    requires asked { IsAsked (task setting.now) found.old place.now m.old }
    ensures known { IfOk result (IsKnown (task setting.now) found.old found.new place.now m.old m.new) }
    ensures goes_on { IfOk result (λ known. GoesOn (task setting.now) found.old found.new) }
{
    match setting.documents.span(place.node, place.flat) {
        Span::Nothing => Ok(AtOnce::Nothing),
        // Of some documents, making the way of a text takes as long as the text is.
        Span::Text(len) if len > setting.sought.limit - m.last => Ok(AtOnce::Nothing),
        Span::Text(len) => text_at_once(setting, place, len, m, found),
        Span::Long(len) if is_free(setting, m.last, len, place.cut) => {
            line_at_once(setting, place, len, m, found)
        }
        _ => Ok(AtOnce::Unknown),
    }
}

// The same of a node that is told to be a text of this length, which ends within the limit.
#[inline(never)]
fn text_at_once<D: Documents, F: Factory>(
    setting: &Setting<D, F>,
    place: &Place<D::Node>,
    len: u32,
    m: &mut Measure<F::Cost>,
    found: &mut Found<F::Cost>,
) -> Result<AtOnce, AllocError>
    requires told { ((task setting.now).documents.told place.now.node place.now.flat).span ≡ span.Text len }
    requires within { m.old.last + len ≤ setting.now.sought.limit }
    requires holds { Holds (task setting.now) found.old }
    requires asked { IsAsked (task setting.now) found.old place.now m.old }
    ensures known { IfOk result (IsKnown (task setting.now) found.old found.new place.now m.old m.new) }
    ensures goes_on { IfOk result (λ known. GoesOn (task setting.now) found.old found.new) }
{
    let how = setting
        .documents
        .way(place.node, place.flat, &mut found.hows)?;
    put_text(setting, &mut found.hows, m, len, how)?;
    Ok(AtOnce::One)
}

// The same of a node that is told to have this length on one line, where that is free.
#[inline(never)]
fn line_at_once<D: Documents, F: Factory>(
    setting: &Setting<D, F>,
    place: &Place<D::Node>,
    len: u32,
    m: &mut Measure<F::Cost>,
    found: &mut Found<F::Cost>,
) -> Result<AtOnce, AllocError>
    requires told { ((task setting.now).documents.told place.now.node place.now.flat).span ≡ span.Long len }
    requires free { m.old.last + len ≤ setting.now.sought.free }
    requires near { m.old.last + len ≤ place.now.cut }
    requires holds { Holds (task setting.now) found.old }
    requires asked { IsAsked (task setting.now) found.old place.now m.old }
    ensures known { IfOk result (IsKnown (task setting.now) found.old found.new place.now m.old m.new) }
    ensures goes_on { IfOk result (λ known. GoesOn (task setting.now) found.old found.new) }
{
    let how = setting
        .documents
        .way(place.node, place.flat, &mut found.hows)?;
    put_line(&mut found.hows, m, len, how)?;
    Ok(AtOnce::One)
}

// The same of a node that may be a leaf.
#[inline(always)]
pub fn at_once<D: Documents, F: Factory>(
    setting: &Setting<D, F>,
    place: &Place<D::Node>,
    m: &mut Measure<F::Cost>,
    found: &mut Found<F::Cost>,
) -> Result<AtOnce, AllocError>
    requires holds { Holds (task setting.now) found.old }
    requires asked { IsAsked (task setting.now) found.old place.now m.old }
    ensures known { IfOk result (IsKnown (task setting.now) found.old found.new place.now m.old m.new) }
    ensures goes_on { IfOk result (λ known. GoesOn (task setting.now) found.old found.new) }
{
    match behind_leaf(setting, place, m, found) {
        AtOnce::Nothing => Ok(AtOnce::Nothing),
        AtOnce::One => Ok(AtOnce::One),
        AtOnce::Unknown => on_one_line(setting, place, m, found),
    }
}
