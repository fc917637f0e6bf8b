//! The texts of items.

ghost use Rattle.std.specs.Prelude.{◌≡◌, length, IsTrue, OnOk};
ghost use Rattle.std.specs.Str.{chars};
ghost use Rattle.rf_base_document.specs.Document.{IsOneLine};
ghost use Rattle.rf_tree.specs.Kept.{IsTree, HasItem};
ghost use Rattle.rf_lines.specs.Nodes.{WritesItem, WritesMark, AddsItem};

use crate::faults::Stop;
use crate::strips::Strip;
use crate::writer::Writer;
use rf_style::Columns;
use rf_text::line_length;

/// Writes the characters of an item, where they stand on one line, by columns that are counted in this way.
pub fn write_item(
    writer: &Writer,
    item: usize,
    columns: Columns,
    strip: &mut Strip,
) -> Result<(), Stop>
    requires tree { IsTree writer.now.tree.now }
    requires there { HasItem writer.now.tree.now item }
    ensures { OnOk result (WritesItem writer.now item columns strip.old strip.new) }
{
    let spelling = writer.tree.text(item);
    match line_length(spelling, columns) {
        Some(len) => add_item(writer, item, len, strip),
        None => Err(Stop::Unfit),
    }
}

/// Writes a prefix, an opener or a closer: a column for each character.
pub fn write_mark(writer: &Writer, item: usize, strip: &mut Strip) -> Result<(), Stop>
    requires tree { IsTree writer.now.tree.now }
    requires there { HasItem writer.now.tree.now item }
    ensures { OnOk result (WritesMark writer.now item strip.old strip.new) }
{
    let spelling = writer.tree.text(item);
    if is_one_sign(spelling) {
        add_item(writer, item, 1, strip)
    } else {
        write_item(writer, item, Columns::Characters, strip)
    }
}

// Adds the text of an item, which has so many columns.
fn add_item(writer: &Writer, item: usize, columns: u32, strip: &mut Strip) -> Result<(), Stop>
    requires there { HasItem writer.now.tree.now item }
    ensures { OnOk result (AddsItem writer.now.tree.now item columns strip.old strip.new) }
{
    let at = &writer.tree.items[item];
    strip.add(at.start, at.end, columns, writer.most)
}

// Whether the text is one printable ASCII character, as most prefixes, openers and closers are.
fn is_one_sign(text: &str) -> bool
    ensures one { IsTrue result → IsOneLine (chars text.now) }
    ensures long { IsTrue result → length (chars text.now) ≡ 1 }
{
    match text.as_bytes() {
        [byte] => byte.is_ascii_graphic(),
        _ => false,
    }
}
