//! The layouts of lists as rows of their pieces.

ghost use Rattle.std.specs.Prelude.{◌≡◌, ◌<◌, ◌≤◌, ◌-◌, ◌^◌, [], ◌∷◌, length, OnOk};
ghost use Rattle.rf_base_style.specs.Table.{AreCharges};
ghost use Rattle.rf_rows.specs.declared.pieces.Fill.TheVariants as Fill;
ghost use Rattle.rf_rows.specs.declared.rows.Rows.{Rows as a_stack};
ghost use Rattle.rf_rows.specs.Layouts.{Filled, cell_doc};
ghost use Rattle.rf_rows.specs.Sizes.{Grows};
ghost use Rattle.rf_rows.specs.Puts.{Fills, IsHigh};
ghost use Rattle.rf_slot_rows.specs.Bodies.{more_headers, body_fill, marks_at, layout, body_layouts, layouts_of};

use rf_base_file::{Shape, Way};
use rf_rows::{Fill, Layout, Layouts, Marks, Row, Rows};
use rf_style::Charges;
use std::alloc::AllocError;

/// Where the slots of a list stand on the stack.
#[derive(Clone, Copy)]
pub struct Places {
    /// The gap behind the first slot.
    pub first: usize,
    /// The second slot.
    pub second: usize,
    /// The gap before the bodies.
    pub bodies: usize,
}

/// Takes the pieces from this height on together, which are the slots of a list of this way that stand there.
///
/// An `AllocError` comes for want of memory.
pub fn close_list(
    way: Way,
    height: usize,
    places: Places,
    rows: &mut Rows,
) -> Result<(), AllocError>
    requires charges { AreCharges way.charges }
    requires first { height ≤ places.first }
    requires second { places.first ≤ places.second }
    requires bodies { places.second ≤ places.bodies }
    requires within { places.bodies ≤ length rows.old.stack.items }
    ensures put { OnOk result ((base : a_stack) (r : Filled) → IsHigh base height → Fills base rows.old r
        → Fills base rows.new (λ f. cell_doc (marks_at way.shape height places) (length (r Fill.Newline)) r
        (layouts_of way.shape way.charges) ∷ [])) }
    ensures grown { OnOk result (Grows 28 rows.old rows.new) }
{
    rows.close(
        height,
        marks_at(way.shape, height, places),
        layouts_of(way.shape, way.charges),
    )
}

/// How many headers of this shape stand behind the second slot.
pub fn more_headers(shape: Shape) -> usize
    ensures { result ≡ more_headers shape }
{
    match shape {
        Shape::Body { headers, .. } => headers.saturating_sub(1) as usize,
        _ => 0,
    }
}

// Where the slots stand above this height.
fn marks_at(shape: Shape, height: usize, places: Places) -> Marks
    requires first { height ≤ places.first }
    requires second { places.first ≤ places.second }
    requires bodies { places.second ≤ places.bodies }
    requires low { places.bodies < 2 ^ 32 }
    ensures { result ≡ marks_at shape height places }
{
    let first = (places.first - height) as u32;
    match shape {
        Shape::Body { headers, .. } if headers == 0 => Marks {
            first,
            second: first,
            bodies: first,
            fill: body_fill(shape),
        },
        _ => Marks {
            first,
            second: (places.second - height) as u32,
            bodies: (places.bodies - height) as u32,
            fill: body_fill(shape),
        },
    }
}

// What stands in the gaps before bodies of this shape.
fn body_fill(shape: Shape) -> Fill
    ensures { result ≡ body_fill shape }
{
    match shape {
        Shape::Body { one_line, .. } if !one_line => Fill::Hard,
        _ => Fill::Newline,
    }
}

// The layouts of a list of two slots or more.
fn layouts_of<'t>(shape: Shape, charges: Charges) -> Layouts<'t>
    ensures { result ≡ layouts_of shape charges }
{
    match shape {
        Shape::Application => Layouts::Three(
            layout(Row::Dropped, false, charges.broken),
            layout(Row::Hanging, false, charges.hung),
            layout(Row::Dropped, true, charges.flat),
        ),
        Shape::Hanging => Layouts::Two(
            layout(Row::Hanging, false, charges.hung),
            layout(Row::Dropped, true, charges.flat),
        ),
        Shape::Plain => Layouts::Two(
            layout(Row::Dropped, false, charges.broken),
            layout(Row::Dropped, true, charges.flat),
        ),
        Shape::Body { headers, one_line } => body_layouts(headers >= 2, one_line, charges),
    }
}

// The layouts of a body, with headers below one another in one of them or in none.
fn body_layouts<'t>(column: bool, one_line: bool, charges: Charges) -> Layouts<'t>
    ensures { result ≡ body_layouts column one_line charges }
{
    let line = layout(Row::InLine, false, charges.broken);
    let below = layout(Row::InColumn, false, charges.hung);
    let flat = layout(Row::InLine, true, charges.flat);
    match (column, one_line) {
        (true, true) => Layouts::Three(line, below, flat),
        (true, false) => Layouts::Two(line, below),
        (false, true) => Layouts::Two(line, flat),
        (false, false) => Layouts::One(line),
    }
}

// A layout.
fn layout(row: Row, flat: bool, charge: u32) -> Layout
    ensures { result ≡ layout row flat charge }
{
    Layout { row, flat, charge }
}
