//! The documents of top-level slots and of files.

ghost use Rattle.std.specs.Prelude.{◌<◌, length, IfOk};
ghost use Rattle.rf_base_document.specs.Graph.{StandsFor};
ghost use Rattle.rf_base_style.specs.Table.{IsStyle};
ghost use Rattle.rf_base_file.specs.FileDocument.{style_doc, file_doc};
ghost use Rattle.rf_doc.specs.Nodes.{Extends};
ghost use Rattle.rf_style.specs.StyleOf.{seen};
ghost use Rattle.rf_tree.specs.Kept.{IsTree};
ghost use Rattle.rf_ways.specs.Holds.{OfFile, OfSlot};
ghost use Rattle.rf_ways.specs.Tops.{IsTop};
ghost use Rattle.rf_forms.specs.Growth.{TopGrows, FileGrows};

use rf_doc::{Graph, NodeId};
use rf_row_graph::add_rows;
use rf_rows::Rows;
use rf_slot_rows::{file_rows, slot_rows};
use rf_style::Style;
use rf_tree::{Slot, Tree};
use std::alloc::{AllocError, Global};

/// The document of a top-level slot of a tree in this style, with all the layouts that its lists may have.
///
/// It is added to the graph, whose older nodes stand for what they stood for. The parts of each list are made once and
/// shared by its layouts: for items that the style has settled, and a slot that isn't empty, at most 200 nodes are
/// added for each item of the slot and 200 for each line end in an item. An `AllocError` comes for want of memory, and
/// leaves nodes that nothing names.
///
/// The document of `(if a b c)` is a choice: the first side has `b` and `c` below `a`, the second all on one line.
pub fn style_doc(
    alloc: Global,
    tree: &Tree,
    style: &Style,
    slot: &Slot,
    graph: &mut Graph,
) -> Result<NodeId, AllocError>
    requires top { IsTop tree.now slot.now }
    requires style { IsStyle (seen style.now) }
    ensures document { IfOk result (λ id. OfSlot tree.now slot.now
        (λ ts s. StandsFor graph.new id.0 (style_doc (seen style.now) ts s))) }
    ensures older { Extends graph.old graph.new }
    ensures grown { TopGrows (seen style.now) tree.now slot.now graph.old graph.new }
{
    let mut rows = Rows::new(alloc);
    slot_rows(alloc, tree, style, slot, &mut rows)?;
    add_rows(alloc, &rows, graph)
}

/// The document of a file in this style, with all the layouts that its lists may have.
///
/// Each datum of the file and each comment stands on a line of its own, but for a comment behind a datum on its line.
/// The layouts of lists are those of their shapes; a line comment, a here string and a language line end their lines,
/// and blank lines stay as the items tell them. At the end stands a line end; a file of no item is a text of nothing.
///
/// It is added to the graph, whose older nodes stand for what they stood for: for items that the style has settled, at
/// most 200 nodes for each item, 200 for each line end in an item, and 12 for the file itself. An `AllocError` comes
/// for want of memory, and leaves nodes that nothing names.
pub fn file_doc(
    alloc: Global,
    tree: &Tree,
    style: &Style,
    graph: &mut Graph,
) -> Result<NodeId, AllocError>
    requires tree { IsTree tree.now }
    requires style { IsStyle (seen style.now) }
    ensures document { IfOk result (λ id. OfFile tree.now
        (λ ts trees. StandsFor graph.new id.0 (file_doc (seen style.now) ts trees))) }
    ensures in_graph { IfOk result (λ id. id.0 < length graph.new) }
    ensures older { Extends graph.old graph.new }
    ensures grown { FileGrows (seen style.now) tree.now graph.old graph.new }
{
    let mut rows = Rows::new(alloc);
    file_rows(alloc, tree, style, &mut rows)?;
    add_rows(alloc, &rows, graph)
}
