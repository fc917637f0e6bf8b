//! The nodes of laid rows.

use crate::layouts::{Row, Which};
use crate::pieces::Fill;

/// A node of laid rows. Cells and pieces are named by their numbers.
#[derive(Clone, Copy, Debug)]
pub enum Node {
    /// A piece that is no cell, with this in its gap.
    Leaf(u32, Fill),
    /// The pieces from one up to another, two at least, with this in their gaps.
    Run(u32, u32, Fill),
    /// A cell.
    Cell(u32),
    /// The second or the third layout of a cell of three.
    Others(u32),
    /// A layout of a cell.
    Laid(u32, Which),
    /// A layout of a cell without its charge.
    Unpaid(u32, Which),
    /// A row of a cell, aligned.
    Aligned(u32, Row),
    /// A row of a cell with one more column of indentation.
    Nested(u32, Row),
    /// The documents of a row of a cell from one up to another, two at least.
    Range(u32, Row, u32, u32),
    /// A hard newline.
    Break,
    /// No text.
    Nothing,
}
