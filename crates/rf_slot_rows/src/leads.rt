//! Top-level slots that are comments alone. There is no choice in them, so that each comment is laid out by itself, and
//! takes the room of the one before.

ghost use Rattle.std.specs.Prelude.{◌≡◌, ◌<◌, IsTrue, None, true, false, Ok, [], IfOk, IfSome, IsErrOf};
ghost use Rattle.std.specs.List.{AllByRecursion};
ghost use Rattle.rf_base_document.specs.Document.{Doc};
ghost use Rattle.rf_base_document.specs.Render.{Laid};
ghost use Rattle.rf_base_document.specs.Picks.{Picks, LaidOutBy};
ghost use Rattle.rf_base_document.specs.TooLong.{IsTooLong};
ghost use Rattle.rf_base_style.specs.Table.{IsStyle};
ghost use Rattle.rf_base_file.specs.FileDocument.{style_doc};
ghost use Rattle.rf_style.specs.StyleOf.{seen};
ghost use Rattle.rf_walk.specs.LaidOut.{IsLaidOn};
ghost use Rattle.rf_ways.specs.Holds.{OfSlot};
ghost use Rattle.rf_ways.specs.Tops.{IsTop};
ghost use Rattle.rf_rows.specs.Laying.{frames_of, MayGoOn, AreLaid, ArePast};
ghost use Rattle.rf_slot_rows.specs.Nodes.{OfNode, OfNodes};
ghost use Rattle.rf_slot_rows.specs.Leads.{HasLeadsAlone, AreComments, NodesAreComments, OfSomeNode, OfSomeNodes};
ghost use Rattle.rf_slot_rows.specs.Leads.{line_docs, lines_docs, BehindLaid};

use crate::context::Context;
use crate::nodes::put_behind;
use crate::tops::top_place;
use rf_rows::{Fill, LaidRows, Rows, Spot, lay_out_stack};
use rf_style::Style;
use rf_text::line_length;
use rf_tree::{At, Node, Separator, Slot, Tree, Want};
use rf_walk::{LayoutError, Paper};
use rf_ways::{Place, separator};
use std::alloc::Global;

/// Whether a top-level slot is comments alone, each of one item.
pub fn is_comments(tree: &Tree, slot: &Slot) -> bool
    ensures leads { IsTrue result → HasLeadsAlone slot.now }
    ensures comments { IsTrue result → OfSlot tree.now slot.now (λ ts s. AreComments s.leads) }
{
    match (slot.key, slot.datum, slot.trailing) {
        (None, None, None) => !slot.leads.is_empty() && are_comments(tree, &slot.leads),
        _ => false,
    }
}

// Whether each of the nodes is a comment of one item.
fn are_comments(tree: &Tree, nodes: &[At]) -> bool
    ensures { IsTrue result → NodesAreComments tree.now nodes.now }
{
    for at in nodes {
        let Some(Node::Comment(_)) = tree.nodes.get(*at) else {
            return false;
        };
    }
    true
}

/// Lays out the document of a top-level slot that has comments alone on a blank paper, comment by comment, by the stack
/// of rows, in place of what stands there. `false` says nothing: a comment is more than a text of one line.
///
/// `TooLong` comes only where the layout has more than 67,108,864 characters, or more texts and line breaks than that;
/// `Memory` for want of memory.
pub fn lay_leads<'t, P: Paper>(
    alloc: Global,
    tree: &'t Tree<'t>,
    style: &'t Style,
    slot: &Slot,
    rows: &mut Rows<'t>,
    paper: &mut P,
) -> Result<bool, LayoutError>
    requires top { IsTop tree.now slot.now }
    requires style { IsStyle (seen style.now) }
    requires leads { HasLeadsAlone slot.now }
    requires picked { OfSlot tree.now slot.now (λ ts s.
        (whole : Laid) × LaidOutBy (style_doc (seen style.now) ts s) [] 0 0 false whole) }
    requires blank { P.holds paper.old paper.old [] 0 }
    ensures laid { result ≡ Ok true → OfSlot tree.now slot.now (λ ts s. (e : Doc)
        → Picks (style_doc (seen style.now) ts s) [] e → IsLaidOn (P.holds paper.old paper.new) e []) }
    ensures too_long { IsErrOf result LayoutError.TooLong → OfSlot tree.now slot.now (λ ts s. (e : Doc)
        → Picks (style_doc (seen style.now) ts s) [] e → IsTooLong e []) }
{
    let context = Context { alloc, tree, style };
    let spot = Spot {
        flat: false,
        indentation: paper.column(),
    };
    lay_nodes(&context, &slot.leads, top_place(tree), spot, rows, paper)
}

// Lays out nodes in this place, one behind another, each with the gap before it, where a line is wanted. `false` says
// nothing: one of them is more than a text of one line.
fn lay_nodes<'t, P: Paper>(
    context: &Context<'t>,
    nodes: &[At],
    place: Place,
    spot: Spot,
    rows: &mut Rows<'t>,
    paper: &mut P,
) -> Result<bool, LayoutError>
    requires next { OfSomeNodes context.now nodes.now (λ style ts es.
        MayGoOn P.holds paper.old (frames_of spot (lines_docs place style ts es)) []) }
    requires below { AllByRecursion (λ at. at.0 < place.before) nodes.now }
    ensures laid { result ≡ Ok true → OfNodes context.now nodes.now (λ style ts es.
        AreLaid P.holds paper.old paper.new (frames_of spot (lines_docs place style ts es)) [] []) }
    ensures too_long { IsErrOf result LayoutError.TooLong → OfNodes context.now nodes.now (λ style ts es.
        ArePast P.holds paper.old (frames_of spot (lines_docs place style ts es)) []) }
{
    let mut last = None;
    for at in nodes {
        let Some(end) = lay_behind(context, last, *at, place, spot, rows, paper)? else {
            return Ok(false);
        };
        last = Some(end);
    }
    Ok(true)
}

// Lays out a node in this place behind an item, if there is one, with the gap before it, where a line is wanted. It
// gives the number of its last item. `None` says nothing: the node is more than a text of one line.
fn lay_behind<'t, P: Paper>(
    context: &Context<'t>,
    before: Option<usize>,
    at: At,
    place: Place,
    spot: Spot,
    rows: &mut Rows<'t>,
    paper: &mut P,
) -> Result<Option<usize>, LayoutError>
    requires next { OfSomeNode context.now at (λ style ts t.
        MayGoOn P.holds paper.old (frames_of spot (line_docs place style ts before t)) []) }
    requires below { at.0 < place.before }
    ensures laid { IfOk result (λ some. IfSome some (BehindLaid context.now at place spot before P.holds paper.old
        paper.new)) }
    ensures too_long { IsErrOf result LayoutError.TooLong → OfNode context.now at (λ style ts t.
        ArePast P.holds paper.old (frames_of spot (line_docs place style ts before t)) []) }
{
    if let Some(end) = lay_at_once(context, before, at, place, spot, paper)? {
        return Ok(Some(end));
    }
    rows.clear(None);
    let end = put_behind(context, before, Want::Line, at, place, rows)?;
    if lay_out_stack(&LaidRows { rows }, Fill::Space, spot, paper, &[])? {
        Ok(Some(end))
    } else {
        Ok(None)
    }
}

// The same of a comment of one line that stands first, or on the line behind the item. `None` says nothing of the node,
// and the paper is as it was. The place is read by clauses alone.
#[inline(always)]
fn lay_at_once<P: Paper>(
    context: &Context<'_>,
    before: Option<usize>,
    at: At,
    _place: Place,
    spot: Spot,
    paper: &mut P,
) -> Result<Option<usize>, LayoutError>
    requires next { OfSomeNode context.now at (λ style ts t.
        MayGoOn P.holds paper.old (frames_of spot (line_docs _place style ts before t)) []) }
    ensures laid { IfOk result (λ some. IfSome some (BehindLaid context.now at _place spot before P.holds paper.old
        paper.new)) }
    ensures same { result ≡ Ok None → paper.new ≡ paper.old }
    ensures too_long { IsErrOf result LayoutError.TooLong → OfNode context.now at (λ style ts t.
        ArePast P.holds paper.old (frames_of spot (line_docs _place style ts before t)) []) }
{
    let Node::Comment(item) = context.tree.nodes.node(at) else {
        return Ok(None);
    };
    let text = context.tree.text(item);
    let Some(len) = line_length(text, context.style.columns) else {
        return Ok(None);
    };
    match before {
        None => {
            paper.word(text, len)?;
            Ok(Some(item))
        }
        Some(last) => match separator(context.tree, last, item, Want::Line) {
            Separator::Hard(0) => {
                paper.line_break(spot.indentation)?;
                paper.word(text, len)?;
                Ok(Some(item))
            }
            _ => Ok(None),
        },
    }
}
