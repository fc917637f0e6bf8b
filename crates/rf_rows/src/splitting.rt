//! The first of the documents that a node of laid rows is one after another, and the others.

ghost use Rattle.std.specs.Prelude.{◌≡◌, Some, IfSome, slice_get};
ghost use Rattle.rf_outline.specs.Documents.{IsRowOf, IsSplitOf};
ghost use Rattle.rf_rows.specs.Nodes.{range_doc, range_docs, cell_of};
ghost use Rattle.rf_rows.specs.Laid.{laid_doc, laid_sequence, laid_cell, laid_docs, laid_run};

use crate::cells::Cell;
use crate::laid::LaidRows;
use crate::layouts::{Layouts, Row};
use crate::nodes::Node;
use crate::opening::cell_of;
use crate::pieces::Fill;

impl<'r, 't> LaidRows<'r, 't> {
    /// The first document of a node of several, and the node of the others. Pieces and documents of a row in order are
    /// several. It takes no memory.
    #[inline(always)]
    pub fn split_first(&self, node: Node) -> Option<(Node, Node)>
        ensures { IsSplitOf (laid_doc self.now) (laid_sequence self.now) (laid_sequence self.now node)
            (laid_doc self.now node) result }
    {
        match node {
            Node::Run(from, to, fill) => self.split_run(from as usize, to as usize, fill),
            Node::Range(k, row, from, to) => match self.rows.cells.get(k as usize) {
                None => None,
                Some(cell) => self.split_range(k, cell, row, from as usize, to as usize),
            },
            _ => None,
        }
    }

    /// The node, or in place of a cell that is its pieces in a row, as they are, the node of these. It takes no memory.
    #[inline(always)]
    pub fn several(&self, node: Node) -> Node
        ensures { laid_doc self.now result ≡ laid_doc self.now node }
    {
        match node {
            Node::Cell(k) => match self.rows.cells.get(k as usize) {
                None => node,
                Some(cell) => self.several_of(k, cell),
            },
            _ => node,
        }
    }

    // The same of a cell.
    fn several_of(&self, k: u32, cell: &Cell) -> Node
        requires { slice_get self.now.rows.now.cells.items k ≡ Some cell.now }
        ensures { laid_doc self.now result ≡ laid_cell self.now k }
    {
        match cell.layouts {
            Layouts::Bare => self.whole(k, cell, Row::Dropped),
            _ => Node::Cell(k),
        }
    }

    /// The node of all documents of the row that a node is, aligned or nested, and the row's indentation, where the node
    /// begins at this column and has this indentation. Layouts without a charge that aren't flat have one, and so have
    /// rows within rows. It takes no memory.
    #[inline(always)]
    pub fn row_at(&self, node: Node, column: u32, indentation: u32) -> Option<(Node, u32)>
        ensures { IfSome result (IsRowOf (laid_doc self.now) column indentation node) }
    {
        match cell_of(node) {
            None => None,
            Some(k) => match self.rows.cells.get(k as usize) {
                None => None,
                Some(cell) => self.row_in(node, k, cell, column, indentation),
            },
        }
    }

    // The same of a node of this cell.
    #[inline(always)]
    fn row_in(
        &self,
        node: Node,
        k: u32,
        cell: &Cell,
        column: u32,
        indentation: u32,
    ) -> Option<(Node, u32)>
        requires named { cell_of node ≡ Some k }
        requires cell { slice_get self.now.rows.now.cells.items k ≡ Some cell.now }
        ensures { IfSome result (IsRowOf (laid_doc self.now) column indentation node) }
    {
        match node {
            Node::Laid(_, which) => match cell.layouts.get(which) {
                Some(layout) if layout.charge == 0 && !layout.flat => {
                    Some((self.whole(k, cell, layout.row), column))
                }
                _ => None,
            },
            Node::Aligned(_, row) => Some((self.whole(k, cell, row), column)),
            Node::Nested(_, row) => match indentation.checked_add(1) {
                None => None,
                Some(deeper) => Some((self.whole(k, cell, row), deeper)),
            },
            _ => None,
        }
    }

    // Of the pieces from one up to another, two at least.
    #[inline(always)]
    fn split_run(&self, from: usize, to: usize, fill: Fill) -> Option<(Node, Node)>
        ensures { IsSplitOf (laid_doc self.now) (laid_sequence self.now) (range_docs (laid_run self.now fill) from to)
            (range_doc (laid_run self.now fill) from to) result }
    {
        if to > self.rows.pieces.len() || to < 2 || from > to - 2 {
            return None;
        }
        let next = from + 1;
        Some((self.run(from, next, fill), self.run(next, to, fill)))
    }

    // Of the documents of a row from one up to another, two at least.
    #[inline(always)]
    fn split_range(
        &self,
        k: u32,
        cell: &Cell,
        row: Row,
        from: usize,
        to: usize,
    ) -> Option<(Node, Node)>
        requires { slice_get self.now.rows.now.cells.items k ≡ Some cell.now }
        ensures { IsSplitOf (laid_doc self.now) (laid_sequence self.now)
            (range_docs (laid_docs self.now cell.now row) from to)
            (range_doc (laid_docs self.now cell.now row) from to) result }
    {
        let strip = self.strip(k, cell, row);
        let end = self.end(k, cell, row, &strip);
        if to > end || to < 2 || from > to - 2 {
            return None;
        }
        let next = from + 1;
        Some((
            self.range(k, cell, row, &strip, from, next),
            self.range(k, cell, row, &strip, next, to),
        ))
    }
}
