//! The layouts of a cell, which are rows of the same pieces.

ghost use Rattle.std.specs.Prelude.{◌≡◌, ◌<◌, ◌^◌, ℕ};
ghost use Rattle.rf_rows.specs.Layouts.{filled, before, strip_of};
ghost use Rattle.rf_rows.specs.Nodes.{layout_at, StripStands, before_tail, strip_length};

use crate::pieces::Fill;
use crate::unmade::Unmade;

/// A row of a cell's pieces in one of its layouts.
#[derive(Clone, Copy, Debug)]
pub enum Row {
    /// All pieces, below one another.
    Dropped,
    /// The pieces before the second slot, and the others below that, as one.
    Hanging,
    /// The second slot and the others below it.
    Hung,
    /// The first slot, and what stands behind it on its line, as one.
    InLine,
    /// The headers behind the first slot on one line, and the bodies.
    Lines,
    /// The first slot, and what stands behind it with headers below one another, as one.
    InColumn,
    /// The headers behind the first slot, as one, and the bodies.
    Columns,
    /// The headers below one another.
    Column,
}

/// A row that stands as one in another row.
#[derive(Clone, Copy, Debug)]
pub enum Inner {
    /// With the column that it begins at as its indentation.
    Aligned(Row),
    /// With one more column of indentation.
    Nested(Row),
}

/// What a row is made of, by the numbers of the cell's pieces: some with spaces in their gaps, perhaps another row, and
/// then some whose gaps are filled otherwise.
#[derive(Clone, Copy, Debug)]
pub struct Strip {
    /// The first of the pieces before the other row.
    pub head: usize,
    /// The piece behind these.
    pub head_end: usize,
    /// The other row.
    pub inner: Option<Inner>,
    /// The first of the pieces behind it.
    pub tail: usize,
    /// The piece behind these.
    pub tail_end: usize,
    /// What stands in their gaps.
    pub fill: Fill,
}

/// Where the slots of a cell stand among its pieces, by how many pieces are before, and what stands before bodies.
#[derive(Clone, Copy, Debug)]
pub struct Marks {
    /// The gap behind the first slot.
    pub first: u32,
    /// The second slot.
    pub second: u32,
    /// The gap before the bodies.
    pub bodies: u32,
    /// What stands in the gaps before bodies.
    pub fill: Fill,
}

/// A layout of a cell: a row, aligned.
#[derive(Clone, Copy, Debug)]
pub struct Layout {
    /// The row.
    pub row: Row,
    /// Whether each of its newlines is flat.
    pub flat: bool,
    /// What is charged for it, or 0.
    pub charge: u32,
}

/// The layouts of a cell.
#[derive(Clone, Copy)]
pub enum Layouts<'t> {
    /// The pieces in a row, as they are.
    Bare,
    /// One layout.
    One(Layout),
    /// The first or the second.
    Two(Layout, Layout),
    /// The first, the second or the third.
    Three(Layout, Layout, Layout),
    /// Those of a list that isn't made of pieces.
    Unmade(Unmade<'t>),
}

/// Which of the layouts of a cell.
#[derive(Clone, Copy, Debug)]
pub enum Which {
    /// The first.
    First,
    /// The second.
    Second,
    /// The third.
    Third,
}

impl<'t> Layouts<'t> {
    /// A layout of these, if there is such a one.
    pub fn get(&self, which: Which) -> Option<Layout>
        ensures { result ≡ layout_at self.now which }
    {
        match (self, which) {
            (Layouts::One(a), Which::First) => Some(*a),
            (Layouts::Two(a, _), Which::First) => Some(*a),
            (Layouts::Two(_, b), Which::Second) => Some(*b),
            (Layouts::Three(a, _, _), Which::First) => Some(*a),
            (Layouts::Three(_, b, _), Which::Second) => Some(*b),
            (Layouts::Three(_, _, c), Which::Third) => Some(*c),
            _ => None,
        }
    }
}

impl Marks {
    /// What a row is made of, of so many pieces.
    pub fn strip(&self, count: usize, row: Row) -> Strip
        ensures { result ≡ strip_of self.now count row }
    {
        let first = self.first as usize;
        let second = self.second as usize;
        let bodies = self.bodies as usize;
        match row {
            Row::Dropped => filled(0, count, Fill::Newline),
            Row::Hanging => before(0, second, Inner::Aligned(Row::Hung), count),
            Row::Hung => filled(second, count, Fill::Newline),
            Row::InLine => before(0, first, Inner::Nested(Row::Lines), count),
            Row::Lines => Strip {
                head: first,
                head_end: bodies,
                inner: None,
                tail: bodies,
                tail_end: count,
                fill: self.fill,
            },
            Row::InColumn => before(0, first, Inner::Nested(Row::Columns), count),
            Row::Columns => Strip {
                head: first,
                head_end: second,
                inner: Some(Inner::Aligned(Row::Column)),
                tail: bodies,
                tail_end: count,
                fill: self.fill,
            },
            Row::Column => filled(second, bodies, Fill::Newline),
        }
    }
}

impl Strip {
    /// How many documents the row has.
    pub fn len(&self) -> usize
        requires { (count : ℕ) × (count < 2 ^ 63) × StripStands self.now count }
        ensures { result ≡ strip_length self.now }
    {
        self.before_tail() + (self.tail_end - self.tail)
    }

    /// How many of them stand before its last part.
    pub fn before_tail(&self) -> usize
        requires { (count : ℕ) × (count < 2 ^ 63) × StripStands self.now count }
        ensures { result ≡ before_tail self.now }
    {
        let inner = if self.inner.is_some() { 1 } else { 0 };
        (self.head_end - self.head) + inner
    }
}

// The pieces from one up to another, filled so.
fn filled(from: usize, to: usize, fill: Fill) -> Strip
    ensures { result ≡ filled from to fill }
{
    Strip {
        head: from,
        head_end: from,
        inner: None,
        tail: from,
        tail_end: to,
        fill,
    }
}

// The pieces from one up to another with spaces before a row that is the rest of so many pieces.
fn before(from: usize, to: usize, inner: Inner, count: usize) -> Strip
    ensures { result ≡ before from to inner count }
{
    Strip {
        head: from,
        head_end: to,
        inner: Some(inner),
        tail: count,
        tail_end: count,
        fill: Fill::Newline,
    }
}
