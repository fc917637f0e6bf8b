//! The line of a top-level slot, and of what stands at a node.

ghost use Rattle.std.specs.Prelude.{◌≡◌, ◌≤◌, true, false, Ok, Some, IfOk, slice_range};
ghost use Rattle.std.specs.Str.{chars};
ghost use Rattle.rf_base_style.specs.Table.{IsStyle, AreRules};
ghost use Rattle.rf_base_file.specs.FileDocument.{style_doc};
ghost use Rattle.rf_base_lines.specs.Spelled.{spelled_line};
ghost use Rattle.rf_style.specs.StyleOf.{seen};
ghost use Rattle.rf_ways.specs.Holds.{OfSlot};
ghost use Rattle.rf_ways.specs.Tops.{IsTop};
ghost use Rattle.rf_lines.specs.Written.{IsLineOf, shown};
ghost use Rattle.rf_ways.specs.Nodes.{IsNode};
ghost use Rattle.rf_lines.specs.Nodes.{OfPlaced, WritesAlone, WritesSlot};

use crate::faults::Stop;
use crate::nodes::{first_item, write_node};
use crate::pages::Page;
use crate::strips::Strip;
use crate::writer::{LinePlace, Writer};
use rf_base_file::Role;
use rf_style::Style;
use rf_tree::{At, Slot, Tree};
use rf_ways::Placed;
use std::alloc::AllocError;

/// Puts a top-level slot on the page in place of what it holds, where it can stand on one line of at most `most`
/// columns: what is written of its document on one line. The document isn't made.
///
/// `false` says nothing: not every slot that can stand on one line is written here. It comes for a slot that doesn't
/// stand in the source as it is to stand on the line, or with a list that its style charges, at the text that passes
/// `most` columns, and for some comments: line comments, those of several lines, several at the end of a list, and
/// those behind a prefix, behind another skip or outside all lists.
/// An `AllocError` comes for want of memory. What the page holds then, or after `false`, has no meaning.
pub fn write_line<'t>(
    tree: &'t Tree<'t>,
    style: &'t Style,
    slot: &Slot,
    most: u32,
    page: &mut Page<'t>,
) -> Result<bool, AllocError>
    requires top { IsTop tree.now slot.now }
    requires style { IsStyle (seen style.now) }
    ensures line { result ≡ Ok true → OfSlot tree.now slot.now
        (λ ts s. spelled_line (style_doc (seen style.now) ts s) false ≡ Some page.new.line) }
    ensures short { result ≡ Ok true → page.new.line.len ≤ most }
{
    let writer = Writer { tree, style, most };
    match write_slot(&writer, slot, &mut page.strip) {
        Ok(text) => Ok(page.show(text, most)),
        Err(Stop::Unfit) => Ok(false),
        Err(Stop::Memory(error)) => Err(error),
    }
}

/// Puts what stands at a node, in its place, on the page in place of what that holds, where it can stand on one line of
/// at most `most` columns: what is written of its document on one line, which is without a hard newline and a charge,
/// and by which choices where all is flat. The document isn't made.
///
/// `false` says nothing: it comes as from `write_line`, and for a comment.
/// An `AllocError` comes for want of memory. What the page holds then, or after `false`, has no meaning.
pub fn write_placed<'t>(
    placed: &Placed<'t>,
    most: u32,
    page: &mut Page<'t>,
) -> Result<bool, AllocError>
    requires node { IsNode placed.now.tree.now placed.now.at }
    requires rules { AreRules placed.now.style.now.forms }
    ensures line { result ≡ Ok true → OfPlaced placed.now (IsLineOf false page.new) }
    ensures short { result ≡ Ok true → page.new.line.len ≤ most }
{
    let writer = Writer {
        tree: placed.tree,
        style: placed.style,
        most,
    };
    let place = LinePlace {
        before: placed.tree.nodes.len(),
        quoted: placed.quoted,
        flat: false,
    };
    match write_alone(&writer, placed.at, place, placed.role, &mut page.strip) {
        Ok(text) => Ok(page.show(text, most)),
        Err(Stop::Unfit) => Ok(false),
        Err(Stop::Memory(error)) => Err(error),
    }
}

// Writes a slot of a datum alone, and nothing else: its characters.
fn write_slot<'t>(writer: &Writer<'t>, slot: &Slot, strip: &mut Strip) -> Result<&'t str, Stop>
    requires top { IsTop writer.now.tree.now slot.now }
    ensures { IfOk result (λ text. WritesSlot writer.now slot.now (shown (chars text.now) strip.new)) }
{
    let place = LinePlace {
        before: writer.tree.nodes.len(),
        quoted: false,
        flat: false,
    };
    if slot.leads.is_empty() {
        match (slot.key, slot.datum, slot.trailing) {
            (None, Some(at), None) => write_alone(writer, at, place, Role::Free, strip),
            _ => Err(Stop::Unfit),
        }
    } else {
        Err(Stop::Unfit)
    }
}

// Writes what stands at a node, in this place, with this role, and nothing else: its characters.
fn write_alone<'t>(
    writer: &Writer<'t>,
    at: At,
    place: LinePlace,
    role: Role,
    strip: &mut Strip,
) -> Result<&'t str, Stop>
    requires node { IsNode writer.now.tree.now at }
    ensures { IfOk result (λ text. WritesAlone writer.now at place role (shown (chars text.now) strip.new)) }
{
    let first = first_item(writer.tree, at);
    match writer.tree.items.get(first) {
        None => Err(Stop::Unfit),
        Some(item) => {
            strip.begin(item.start);
            write_node(writer, at, place, role, strip)?;
            text_on(writer.tree.src, strip)
        }
    }
}

// The characters of the source that stand on the strip.
fn text_on<'t>(src: &'t str, strip: &Strip) -> Result<&'t str, Stop>
    ensures { IfOk result (λ text. text.now ≡ slice_range src.now strip.now.from strip.now.to) }
{
    match src.get(strip.from() as usize..strip.to() as usize) {
        Some(text) => Ok(text),
        None => Err(Stop::Unfit),
    }
}
