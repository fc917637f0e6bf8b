//! Items as pieces.

ghost use Rattle.std.specs.Prelude.{◌≡◌, ◌≤◌, ◌+◌, ◌*◌, [], ◌∷◌, length, OnOk};
ghost use Rattle.std.specs.Str.{chars};
ghost use Rattle.rf_base_document.specs.Document.{IsOneLine};
ghost use Rattle.rf_base_grammar.specs.Itemised.{line_ends};
ghost use Rattle.rf_base_style.specs.Columns.{length_in};
ghost use Rattle.rf_base_file.specs.Rows.{line_doc, spelling_doc, item_doc};
ghost use Rattle.rf_tree.specs.Kept.{IsTree, HasItem};
ghost use Rattle.rf_ways.specs.Holds.{OfFile};
ghost use Rattle.rf_rows.specs.Sizes.{Grows};
ghost use Rattle.rf_rows.specs.Puts.{Puts};
ghost use Rattle.rf_slot_rows.specs.Growth.{ItemGrows};

use crate::joins::join;
use rf_base_grammar::SOURCE_LIMIT;
use rf_rows::Rows;
use rf_style::Columns;
use rf_text::{length, line_length};
use rf_tree::Tree;
use rf_ways::first_line;
use std::alloc::AllocError;

/// Puts an item, its columns counted in this way.
///
/// An `AllocError` comes for want of memory.
pub fn put_item<'t>(
    tree: &Tree<'t>,
    item: usize,
    columns: Columns,
    rows: &mut Rows<'t>,
) -> Result<(), AllocError>
    requires tree { IsTree tree.now }
    requires there { HasItem tree.now item }
    ensures put { OnOk result (OfFile tree.now
        (λ ts trees. Puts rows.old rows.new (item_doc columns ts item ∷ []))) }
    ensures grown { OnOk result (ItemGrows tree.now item rows.old rows.new) }
{
    put_spelling(tree.text(item), columns, rows)
}

// Puts an item that is spelled so.
fn put_spelling<'t>(text: &'t str, columns: Columns, rows: &mut Rows<'t>) -> Result<(), AllocError>
    requires { length text.now ≤ SOURCE_LIMIT }
    ensures put { OnOk result (Puts rows.old rows.new (spelling_doc columns (chars text.now) ∷ [])) }
    ensures grown { OnOk result (Grows (8 * line_ends (chars text.now) + 32) rows.old rows.new) }
{
    match line_length(text, columns) {
        Some(len) => put_line(text, len, columns, rows),
        None => put_lines(text, columns, rows),
    }
}

// Puts the lines of an item, with a line break without indentation between neighbours. Few items have
// more than one, so that it stays out of the way of the others.
#[inline(never)]
fn put_lines<'t>(text: &'t str, columns: Columns, rows: &mut Rows<'t>) -> Result<(), AllocError>
    requires { length text.now ≤ SOURCE_LIMIT }
    ensures put { OnOk result (Puts rows.old rows.new (spelling_doc columns (chars text.now) ∷ [])) }
    ensures grown { OnOk result (Grows (8 * line_ends (chars text.now) + 32) rows.old rows.new) }
{
    let height = rows.height();
    let mut rest = text;
    while let Some((line, behind)) = first_line(rest) {
        put_line(line, length(line, columns), columns, rows)?;
        rows.bare_break()?;
        rest = behind;
    }
    put_line(rest, length(rest, columns), columns, rows)?;
    join(height, rows)
}

// Puts a text of one line, which has so many columns, counted in a way that clauses alone read.
fn put_line<'t>(
    line: &'t str,
    len: u32,
    _columns: Columns,
    rows: &mut Rows<'t>,
) -> Result<(), AllocError>
    requires one { IsOneLine (chars line.now) }
    requires len { len ≡ length_in _columns (chars line.now) }
    requires short { length line.now ≤ SOURCE_LIMIT }
    ensures put { OnOk result (Puts rows.old rows.new (line_doc _columns (chars line.now) ∷ [])) }
    ensures grown { OnOk result (Grows 4 rows.old rows.new) }
{
    rows.text(line, len)
}
