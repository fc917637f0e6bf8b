//! Laid rows whose cells are known, as documents that are told node by node.

ghost use Rattle.std.specs.Prelude.{◌≡◌, ◌*◌, ◌<◌, false, IsTrue, None, Some, slice_get};
ghost use Rattle.rf_outline.specs.Documents.{IsLineBreak, LeafHolds};
ghost use Rattle.rf_rows.specs.Knowing.{is_spaced, line_of_layout, line_of_laid};
ghost use Rattle.rf_rows.specs.Nodes.{leaf_doc};
ghost use Rattle.rf_rows.specs.Telling.{told_newline, told_gap, told_piece, run_begins, laid_number};

use crate::known::KnownCell;
use crate::laid::LaidRows;
use crate::layouts::{Layout, Layouts, Marks, Row, Which};
use crate::nodes::Node;
use crate::pieces::{Fill, Piece};
use rf_frontier::{HowId, Hows};
use rf_outline::{Documents, Leaf, Line, Part, Span};
use std::alloc::AllocError;

/// Laid rows, and what is known of their cells. Where there is no cell of a number, nothing is known of it, and it is
/// told as a text of nothing.
#[derive(Clone, Copy)]
pub struct ToldRows<'r, 't, 'k> {
    /// The rows.
    pub laid: LaidRows<'r, 't>,
    /// What is known of their cells, in order.
    pub known: &'k [KnownCell],
}

impl<'r, 't, 'k> Documents for ToldRows<'r, 't, 'k> {
    ghost use Rattle.rf_rows.specs.Telling.{seen};

    type Node = Node;

    ghost view = { λ told. seen told.laid.rows.now told.known.now };

    fn open(&self, node: Node) -> Part<'_, Node> {
        self.laid.opened(node)
    }

    #[inline(always)]
    fn split_first(&self, node: Node) -> Option<(Node, Node)> {
        self.laid.split_first(node)
    }

    #[inline(always)]
    fn several(&self, node: Node) -> Node {
        self.laid.several(node)
    }

    #[inline(always)]
    fn row(&self, node: Node, column: u32, indentation: u32) -> Option<(Node, u32)> {
        self.laid.row_at(node, column, indentation)
    }

    #[inline(always)]
    fn span(&self, node: Node, flat: bool) -> Span {
        match node {
            Node::Leaf(e, fill) => self.laid.span_of_leaf(e, fill, flat),
            Node::Cell(k) => match self.known.get(k as usize) {
                None => Span::Unsure,
                Some(known) => known.document.span(flat),
            },
            Node::Laid(k, which) => self.line_of_laid(k, which).span(),
            Node::Break => Span::Never,
            Node::Nothing => Span::Text(0),
            Node::Run(_, _, _)
            | Node::Others(_)
            | Node::Unpaid(_, _)
            | Node::Aligned(_, _)
            | Node::Nested(_, _)
            | Node::Range(_, _, _, _) => Span::Unsure,
        }
    }

    #[inline(always)]
    fn begins(&self, node: Node, flat: bool) -> bool {
        match node {
            Node::Leaf(e, fill) => self.laid.begins_at(e, fill, flat),
            Node::Run(from, to, fill) => self.laid.run_begins(from, to, fill, flat),
            Node::Cell(k) => match self.known.get(k as usize) {
                None => false,
                Some(known) => known.document.begins(flat),
            },
            Node::Break => true,
            _ => false,
        }
    }

    #[inline(always)]
    fn leaf(&self, node: Node, flat: bool) -> Option<Leaf> {
        match node {
            Node::Leaf(e, fill) => self.laid.leaf_at(e, fill, flat),
            Node::Break if !flat => Some(Leaf::Break),
            _ => None,
        }
    }

    #[inline(always)]
    fn way(&self, node: Node, flat: bool, hows: &mut Hows) -> Result<HowId, AllocError> {
        match node {
            Node::Cell(k) => match self.known.get(k as usize) {
                None => Ok(hows.first()),
                Some(known) => Ok(known.document.way(flat, hows)),
            },
            Node::Laid(k, which) => Ok(self.line_of_laid(k, which).way(hows)),
            _ => Ok(hows.first()),
        }
    }

    #[inline(always)]
    fn number(&self, node: Node) -> Option<usize> {
        match node {
            Node::Cell(k) => match self.laid.rows.cells.get(k as usize) {
                None => None,
                Some(cell) => laid_number(k, &cell.layouts),
            },
            _ => None,
        }
    }
}

impl<'r, 't, 'k> ToldRows<'r, 't, 'k> {
    // The line of a layout that is flat and free, where it is known.
    fn line_of_laid(&self, k: u32, which: Which) -> Line
        ensures { result ≡ line_of_laid (slice_get self.now.laid.rows.now.cells.items k)
            (slice_get self.now.known.now k) which }
    {
        match (
            self.laid.rows.cells.get(k as usize),
            self.known.get(k as usize),
        ) {
            (Some(cell), Some(known)) => {
                line_of_layout(cell.marks, cell.layouts.get(which), known.line)
            }
            _ => Line::Unsure,
        }
    }
}

// The line of a layout that is flat and free, where its cell's pieces have this line.
fn line_of_layout(marks: Marks, layout: Option<Layout>, line: Line) -> Line
    ensures { result ≡ line_of_layout marks layout line }
{
    match layout {
        Some(layout) if layout.flat && layout.charge == 0 && is_spaced(marks, layout.row) => line,
        _ => Line::Unsure,
    }
}

// Whether the row, where it is flat, is all pieces of its cell with a space in each gap.
fn is_spaced(marks: Marks, row: Row) -> bool
    ensures { result ≡ is_spaced marks row }
{
    match row {
        Row::Dropped | Row::Hanging => true,
        Row::InLine | Row::InColumn => !matches!(marks.fill, Fill::Hard),
        Row::Hung | Row::Lines | Row::Columns | Row::Column => false,
    }
}

impl<'r, 't> LaidRows<'r, 't> {
    /// How many numbers its nodes have at most.
    pub fn numbers(&self) -> usize {
        self.rows.cells.len()
    }

    // How long a piece that is no cell is on one line, with this in its gap.
    #[inline(always)]
    fn span_of_leaf(&self, e: u32, fill: Fill, flat: bool) -> Span
        ensures { result ≡ (told_piece fill flat (slice_get self.now.rows.now.pieces.items e)).span }
    {
        match self.rows.pieces.get(e as usize) {
            None => Span::Text(0),
            Some(piece) => span_of_piece(*piece, fill, flat),
        }
    }

    // Whether it begins with a break.
    #[inline(always)]
    fn begins_at(&self, e: u32, fill: Fill, flat: bool) -> bool
        ensures { result ≡ (told_piece fill flat (slice_get self.now.rows.now.pieces.items e)).begins }
    {
        match self.rows.pieces.get(e as usize) {
            None => false,
            Some(piece) => is_break(*piece, fill, flat),
        }
    }

    // The leaf that a piece is with this in its gap, if it is told to be one.
    #[inline(always)]
    fn leaf_at(&self, e: u32, fill: Fill, flat: bool) -> Option<Leaf>
        ensures { LeafHolds (leaf_doc fill (slice_get self.now.rows.now.pieces.items e)) flat result }
    {
        match self.rows.pieces.get(e as usize) {
            None => None,
            Some(piece) => leaf_of(*piece, fill, flat),
        }
    }

    // Whether the pieces from one up to another, two at least, begin with a break.
    fn run_begins(&self, from: u32, to: u32, fill: Fill, flat: bool) -> bool
        ensures { result ≡ run_begins self.now.rows.now.pieces.items from to fill flat }
    {
        if to as usize > self.rows.pieces.len() || to < 2 || from > to - 2 {
            return false;
        }
        self.begins_at(from, fill, flat)
    }
}

// How long a piece that is no cell is on one line, with this in its gap.
fn span_of_piece(piece: Piece, fill: Fill, flat: bool) -> Span
    ensures { result ≡ (told_piece fill flat (Some piece.entry)).span }
{
    match piece {
        Piece::Text(len, _) => Span::Text(len),
        Piece::Space => Span::Text(1),
        Piece::Newline => span_of_newline(flat),
        Piece::Hard | Piece::BareBreak => Span::Never,
        Piece::Gap => span_of_gap(fill, flat),
        Piece::Cell(_) => Span::Text(0),
    }
}

// How long it is on one line what stands in a gap.
fn span_of_gap(fill: Fill, flat: bool) -> Span
    ensures { result ≡ (told_gap fill flat).span }
{
    match fill {
        Fill::Space => Span::Text(1),
        Fill::Newline => span_of_newline(flat),
        Fill::Hard => Span::Never,
    }
}

// A break, or, where flat, one space.
fn span_of_newline(flat: bool) -> Span
    ensures { result ≡ (told_newline flat).span }
{
    if flat { Span::Text(1) } else { Span::Never }
}

// Whether the piece, with this in its gap, begins with a break.
fn is_break(piece: Piece, fill: Fill, flat: bool) -> bool
    ensures { result ≡ (told_piece fill flat (Some piece.entry)).begins }
{
    match piece {
        Piece::Newline => !flat,
        Piece::Hard | Piece::BareBreak => true,
        Piece::Gap => is_break_gap(fill, flat),
        Piece::Text(_, _) | Piece::Space | Piece::Cell(_) => false,
    }
}

// The leaf that the piece is with this in its gap, if it is told to be one.
#[inline(always)]
fn leaf_of(piece: Piece, fill: Fill, flat: bool) -> Option<Leaf>
    ensures { LeafHolds (leaf_doc fill (Some piece.entry)) flat result }
{
    match span_of_piece(piece, fill, flat) {
        Span::Text(len) => Some(Leaf::Text(len)),
        _ if is_line_break(piece, fill, flat) => Some(Leaf::Break),
        _ => None,
    }
}

// Whether the piece, with this in its gap, is a line break.
#[inline(always)]
fn is_line_break(piece: Piece, fill: Fill, flat: bool) -> bool
    ensures { IsTrue result → IsLineBreak (leaf_doc fill (Some piece.entry)) flat }
{
    !flat && breaks_line(piece, fill)
}

// Whether it is one where it isn't flat.
#[inline(always)]
fn breaks_line(piece: Piece, fill: Fill) -> bool
    ensures { IsTrue result → IsLineBreak (leaf_doc fill (Some piece.entry)) false }
{
    match piece {
        Piece::Newline | Piece::Hard => true,
        Piece::Gap => !matches!(fill, Fill::Space),
        Piece::Text(_, _) | Piece::Space | Piece::BareBreak | Piece::Cell(_) => false,
    }
}

// Whether a break stands in a gap.
fn is_break_gap(fill: Fill, flat: bool) -> bool
    ensures { result ≡ (told_gap fill flat).begins }
{
    match fill {
        Fill::Space => false,
        Fill::Newline => !flat,
        Fill::Hard => true,
    }
}

// The number of the cell `k` with these layouts, if it has one: its own, where each of them is aligned.
#[inline(always)]
fn laid_number(k: u32, layouts: &Layouts) -> Option<usize>
    ensures { result ≡ laid_number k layouts.now }
{
    match layouts {
        Layouts::One(_) | Layouts::Two(_, _) | Layouts::Three(_, _, _) => Some(k as usize),
        Layouts::Bare | Layouts::Unmade(_) => None,
    }
}
