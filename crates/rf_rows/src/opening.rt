//! Nodes of laid rows, opened: the kind of each, and its parts.
//!
//! A function's line `tactic` names the lemma that its proof uses. A number `_k` and a row `_row` are read by
//! clauses alone: they say which cell the cell is, and which row the strip is of.

ghost use Rattle.std.specs.Prelude.{◌≡◌, ◌<◌, ◌≤◌, ◌+◌, ◌^◌, None, Some, [], ◌∷◌, length, slice_get};
ghost use Rattle.std.specs.List.{slice_range};
ghost use Rattle.rf_base_document.specs.Document.{Doc, Hard as a_hard};
ghost use Rattle.rf_base_document.specs.Sequence.{seq};
ghost use Rattle.rf_outline.specs.Documents.{IsOpened};
ghost use Rattle.rf_rows.specs.declared.nodes.Node.{Node as a_node};
ghost use Rattle.rf_rows.specs.declared.nodes.Node.TheVariants.{Laid, Break};
ghost use Rattle.rf_rows.specs.declared.pieces.Piece.{Piece as a_piece};
ghost use Rattle.rf_rows.specs.declared.layouts.Layout.{Layout as a_layout};
ghost use Rattle.rf_rows.specs.declared.layouts.Which.{Which as a_which};
ghost use Rattle.rf_rows.specs.declared.layouts.Inner.{Inner as an_inner};
ghost use Rattle.rf_rows.specs.Layouts.{fill_doc, strip_of, row_doc, unpaid_doc, layout_doc};
ghost use Rattle.rf_rows.specs.Cells.{piece_doc, pieces_of};
ghost use Rattle.rf_rows.specs.Nodes.{leaf_doc, range_doc, of_layout, layout_at, others_doc, cell_of, inner_node, StripStands};
ghost use Rattle.rf_rows.specs.Laid.{laid_doc, laid_sequence, laid_cell, laid_pieces, laid_docs, laid_run};

use crate::cells::Cell;
use crate::laid::LaidRows;
use crate::layouts::{Inner, Layout, Layouts, Row, Strip, Which};
use crate::nodes::Node;
use crate::pieces::{Fill, Piece};
use rf_outline::Part;

impl<'r, 't> LaidRows<'r, 't> {
    /// The kind and the parts of a node. It takes no memory.
    #[inline(always)]
    pub fn opened(&self, node: Node) -> Part<'_, Node>
        ensures { IsOpened (laid_doc self.now) (laid_doc self.now node) result }
    {
        match cell_of(node) {
            None => self.opened_alone(node),
            Some(k) => match self.rows.cells.get(k as usize) {
                None => Part::Text("", 0),
                Some(cell) => self.opened_in(node, k, cell),
            },
        }
    }

    // The same of a node of no cell.
    #[tactic(auto, using(crate::proofs::Empty::no_chars))]
    #[inline(always)]
    fn opened_alone(&self, node: Node) -> Part<'_, Node>
        requires { cell_of node ≡ None }
        ensures { IsOpened (laid_doc self.now) (laid_doc self.now node) result }
    {
        match node {
            Node::Leaf(e, fill) => match self.rows.pieces.get(e as usize) {
                None => Part::Text("", 0),
                Some(piece) => opened_leaf(*piece, fill),
            },
            Node::Run(from, to, fill) => self.opened_run(from as usize, to as usize, fill),
            Node::Break => Part::Hard,
            _ => Part::Text("", 0),
        }
    }

    // The pieces from one up to another, two at least, are those of the halves.
    #[tactic(auto, using(crate::proofs::Empty::no_chars))]
    #[inline(always)]
    fn opened_run(&self, from: usize, to: usize, fill: Fill) -> Part<'_, Node>
        ensures { IsOpened (laid_doc self.now) (range_doc (laid_run self.now fill) from to) result }
    {
        if to > self.rows.pieces.len() || to < 2 || from > to - 2 {
            return Part::Text("", 0);
        }
        let middle = from + (to - from).div_ceil(2);
        Part::Concat(self.run(from, middle, fill), self.run(middle, to, fill))
    }

    // The node of the pieces from one up to another.
    #[inline(always)]
    pub(crate) fn run(&self, from: usize, to: usize, fill: Fill) -> Node
        requires order { from ≤ to }
        requires within { to ≤ length self.now.rows.now.pieces.items }
        ensures document { laid_doc self.now result ≡ seq (slice_range (laid_run self.now fill) from to) }
        ensures sequence { from < to → laid_sequence self.now result ≡ slice_range (laid_run self.now fill) from to }
    {
        match to - from {
            0 => Node::Nothing,
            1 => self.piece(from, fill),
            _ => Node::Run(narrow(from), narrow(to), fill),
        }
    }

    // The same of a node of this cell.
    #[tactic(auto, using(crate::proofs::Empty::no_chars))]
    #[inline(always)]
    fn opened_in(&self, node: Node, k: u32, cell: &Cell) -> Part<'_, Node>
        requires named { cell_of node ≡ Some k }
        requires cell { slice_get self.now.rows.now.cells.items k ≡ Some cell.now }
        ensures { IsOpened (laid_doc self.now) (laid_doc self.now node) result }
    {
        match node {
            Node::Cell(_) => self.opened_cell(k, cell),
            Node::Others(_) => opened_others(k, cell),
            Node::Laid(_, which) => match cell.layouts.get(which) {
                None => Part::Text("", 0),
                Some(layout) => self.opened_layout(k, cell, which, layout),
            },
            Node::Unpaid(_, which) => match cell.layouts.get(which) {
                None => Part::Text("", 0),
                Some(layout) => self.opened_unpaid(k, cell, layout),
            },
            Node::Aligned(_, row) => Part::Align(self.whole(k, cell, row)),
            Node::Nested(_, row) => Part::Nest(1, self.whole(k, cell, row)),
            Node::Range(_, row, from, to) => {
                self.opened_range(k, cell, row, from as usize, to as usize)
            }
            Node::Leaf(_, _) | Node::Run(_, _, _) | Node::Break | Node::Nothing => {
                Part::Text("", 0)
            }
        }
    }

    // A cell, which is what its layouts are.
    fn opened_cell(&self, k: u32, cell: &Cell) -> Part<'_, Node>
        requires { slice_get self.now.rows.now.cells.items k ≡ Some cell.now }
        ensures { IsOpened (laid_doc self.now) (laid_cell self.now k) result }
    {
        match cell.layouts {
            Layouts::Bare => {
                let strip = self.strip(k, cell, Row::Dropped);
                let end = self.end(k, cell, Row::Dropped, &strip);
                self.opened_range(k, cell, Row::Dropped, 0, end)
            }
            Layouts::One(layout) => self.opened_layout(k, cell, Which::First, layout),
            Layouts::Two(_, _) => {
                Part::Choice(Node::Laid(k, Which::First), Node::Laid(k, Which::Second))
            }
            Layouts::Three(_, _, _) => Part::Choice(Node::Laid(k, Which::First), Node::Others(k)),
            Layouts::Unmade(_) => Part::Unmade,
        }
    }

    // A layout with its charge.
    fn opened_layout(&self, k: u32, cell: &Cell, which: Which, layout: Layout) -> Part<'_, Node>
        requires cell { slice_get self.now.rows.now.cells.items k ≡ Some cell.now }
        requires layout { layout_at cell.now.layouts which ≡ Some layout }
        ensures { IsOpened (laid_doc self.now)
            (layout_doc cell.now.marks cell.now.count (laid_pieces self.now cell.now) layout) result }
    {
        if layout.charge > 0 {
            Part::Charge(layout.charge, Node::Unpaid(k, which))
        } else {
            self.opened_unpaid(k, cell, layout)
        }
    }

    // A layout without its charge.
    fn opened_unpaid(&self, k: u32, cell: &Cell, layout: Layout) -> Part<'_, Node>
        requires { slice_get self.now.rows.now.cells.items k ≡ Some cell.now }
        ensures { IsOpened (laid_doc self.now)
            (unpaid_doc cell.now.marks cell.now.count (laid_pieces self.now cell.now) layout) result }
    {
        if layout.flat {
            Part::Flatten(Node::Aligned(k, layout.row))
        } else {
            Part::Align(self.whole(k, cell, layout.row))
        }
    }

    // The documents of a row from one up to another, two at least, are those of the halves.
    #[tactic(auto, using(crate::proofs::Empty::no_chars))]
    fn opened_range(&self, k: u32, cell: &Cell, row: Row, from: usize, to: usize) -> Part<'_, Node>
        requires { slice_get self.now.rows.now.cells.items k ≡ Some cell.now }
        ensures { IsOpened (laid_doc self.now) (range_doc (laid_docs self.now cell.now row) from to) result }
    {
        let strip = self.strip(k, cell, row);
        let end = self.end(k, cell, row, &strip);
        if to > end || to < 2 || from > to - 2 {
            return Part::Text("", 0);
        }
        let middle = from + (to - from).div_ceil(2);
        Part::Concat(
            self.range(k, cell, row, &strip, from, middle),
            self.range(k, cell, row, &strip, middle, to),
        )
    }

    // The node of all documents of a row.
    #[inline(always)]
    pub(crate) fn whole(&self, k: u32, cell: &Cell, row: Row) -> Node
        requires { slice_get self.now.rows.now.cells.items k ≡ Some cell.now }
        ensures { laid_doc self.now result
            ≡ row_doc cell.now.marks cell.now.count (laid_pieces self.now cell.now) row }
    {
        let strip = self.strip(k, cell, row);
        let end = self.end(k, cell, row, &strip);
        self.range(k, cell, row, &strip, 0, end)
    }

    // The node of the documents of a row, which is made of this strip, from one up to another.
    #[inline(always)]
    pub(crate) fn range(
        &self,
        k: u32,
        cell: &Cell,
        row: Row,
        strip: &Strip,
        from: usize,
        to: usize,
    ) -> Node
        requires cell { slice_get self.now.rows.now.cells.items k ≡ Some cell.now }
        requires strip { strip.now ≡ strip_of cell.now.marks cell.now.count row }
        requires stands { StripStands strip.now cell.now.count }
        requires pieces { cell.now.from + cell.now.count ≤ length self.now.rows.now.pieces.items }
        requires order { from ≤ to }
        requires within { to ≤ length (laid_docs self.now cell.now row) }
        ensures document { laid_doc self.now result ≡ seq (slice_range (laid_docs self.now cell.now row) from to) }
        ensures sequence { from < to
            → laid_sequence self.now result ≡ slice_range (laid_docs self.now cell.now row) from to }
    {
        let head = strip.head_end - strip.head;
        if to <= head {
            let start = cell.from as usize + strip.head;
            return self.run(start + from, start + to, Fill::Space);
        }
        let before = strip.before_tail();
        if from >= before {
            let start = cell.from as usize + strip.tail;
            return self.run(start + (from - before), start + (to - before), strip.fill);
        }
        if to - from == 1 {
            node_between(k, strip.inner)
        } else {
            Node::Range(k, row, narrow(from), narrow(to))
        }
    }

    // How many documents a row has, which is made of this strip.
    pub(crate) fn end(&self, _k: u32, cell: &Cell, _row: Row, strip: &Strip) -> usize
        requires cell { slice_get self.now.rows.now.cells.items _k ≡ Some cell.now }
        requires strip { strip.now ≡ strip_of cell.now.marks cell.now.count _row }
        requires stands { StripStands strip.now cell.now.count }
        ensures { result ≡ length (laid_docs self.now cell.now _row) }
    {
        strip.len()
    }

    // What a row is made of.
    pub(crate) fn strip(&self, _k: u32, cell: &Cell, row: Row) -> Strip
        requires { slice_get self.now.rows.now.cells.items _k ≡ Some cell.now }
        ensures strip { result ≡ strip_of cell.now.marks cell.now.count row }
        ensures stands { StripStands result cell.now.count }
        ensures within { cell.now.from + cell.now.count ≤ length self.now.rows.now.pieces.items }
    {
        cell.strip(row)
    }

    // A cell.
    pub(crate) fn cell(&self, k: usize) -> &'r Cell<'t>
        requires { k < length self.now.rows.now.cells.items }
        ensures { slice_get self.now.rows.now.cells.items k ≡ Some result.now }
    {
        &self.rows.cells[k]
    }

    // A piece of a cell.
    pub(crate) fn piece_of(&self, _k: usize, cell: &Cell, i: usize) -> Piece<'t>
        requires cell { slice_get self.now.rows.now.cells.items _k ≡ Some cell.now }
        requires within { i < cell.now.count }
        ensures piece { slice_get (pieces_of self.now.rows.now.pieces.items cell.now) i ≡ Some result }
        ensures small { i < 2 ^ 63 }
    {
        self.rows.pieces[cell.from as usize + i]
    }

    // The pieces of a cell.
    pub(crate) fn pieces_of(&self, _k: usize, cell: &Cell) -> &'r [Piece<'t>]
        requires { slice_get self.now.rows.now.cells.items _k ≡ Some cell.now }
        ensures { result.now ≡ pieces_of self.now.rows.now.pieces.items cell.now }
    {
        let from = cell.from as usize;
        &self.rows.pieces[from..from + cell.count as usize]
    }

    // The node of a piece.
    #[inline(always)]
    fn piece(&self, e: usize, fill: Fill) -> Node
        requires { e < length self.now.rows.now.pieces.items }
        ensures document { (p : a_piece) → slice_get self.now.rows.now.pieces.items e ≡ Some p
            → laid_doc self.now result ≡ piece_doc (laid_cell self.now) fill p }
        ensures sequence { laid_sequence self.now result ≡ laid_doc self.now result ∷ [] }
    {
        match self.rows.pieces[e] {
            Piece::Cell(k) => Node::Cell(k),
            _ => Node::Leaf(narrow(e), fill),
        }
    }
}

// The cell that the node is of, if any.
#[inline(always)]
pub(crate) fn cell_of(node: Node) -> Option<u32>
    ensures { result ≡ cell_of node }
{
    match node {
        Node::Leaf(_, _) | Node::Run(_, _, _) | Node::Break | Node::Nothing => None,
        Node::Cell(k)
        | Node::Others(k)
        | Node::Laid(k, _)
        | Node::Unpaid(k, _)
        | Node::Aligned(k, _)
        | Node::Nested(k, _)
        | Node::Range(k, _, _, _) => Some(k),
    }
}

// The node of the row between the first and the last part of a row, if there is one.
fn node_between(k: u32, inner: Option<Inner>) -> Node
    ensures { (row : an_inner) → inner ≡ Some row → result ≡ inner_node k row }
{
    match inner {
        None => Node::Nothing,
        Some(inner) => inner_node(k, inner),
    }
}

// The node of a row that stands as one in another row of the cell.
fn inner_node(k: u32, inner: Inner) -> Node
    ensures { result ≡ inner_node k inner }
{
    match inner {
        Inner::Aligned(row) => Node::Aligned(k, row),
        Inner::Nested(row) => Node::Nested(k, row),
    }
}

// A piece that is no cell.
#[tactic(auto, using(crate::proofs::Empty::no_chars))]
#[inline(always)]
fn opened_leaf<'t>(piece: Piece<'t>, fill: Fill) -> Part<'t, Node>
    ensures { (f : a_node → Doc) → f Break ≡ a_hard → IsOpened f (leaf_doc fill (Some piece.entry)) result }
{
    match piece {
        Piece::Text(len, s) => Part::Text(s, len),
        Piece::Space => Part::Text(" ", 1),
        Piece::Newline => Part::Newline,
        Piece::Hard => Part::Hard,
        Piece::BareBreak => Part::Reset(Node::Break),
        Piece::Gap => opened_gap(fill),
        Piece::Cell(_) => Part::Text("", 0),
    }
}

// What stands in a gap.
#[inline(always)]
fn opened_gap<'t>(fill: Fill) -> Part<'t, Node>
    ensures { (f : a_node → Doc) → IsOpened f (fill_doc fill) result }
{
    match fill {
        Fill::Space => Part::Text(" ", 1),
        Fill::Newline => Part::Newline,
        Fill::Hard => Part::Hard,
    }
}

// The second and the third of three layouts.
#[tactic(auto, using(crate::proofs::Empty::no_chars))]
fn opened_others<'t>(k: u32, cell: &Cell) -> Part<'t, Node>
    ensures { (f : a_node → Doc) (g : a_layout → Doc)
        → ((which : a_which) → f (Laid k which) ≡ of_layout (layout_at cell.now.layouts which) g)
        → IsOpened f (others_doc g cell.now.layouts) result }
{
    match cell.layouts {
        Layouts::Three(_, _, _) => {
            Part::Choice(Node::Laid(k, Which::Second), Node::Laid(k, Which::Third))
        }
        _ => Part::Text("", 0),
    }
}

// A number of nodes, as they keep it.
#[inline(always)]
fn narrow(n: usize) -> u32
    requires { n < 2 ^ 32 }
    ensures { result ≡ n }
{
    n as u32
}
