//! What layouts cost, in plain sums.

use rf_cost::CostKind;

/// How layouts are counted, and how wide they may be, in columns.
#[derive(Clone, Copy)]
pub struct Count {
    pub kind: CostKind,
    pub page_width: u32,
    pub limit: u32,
}

impl Count {
    /// The cost of a text of `len` columns at a column.
    pub fn text(&self, column: u32, len: u32) -> u128 {
        let before = self.over(column);
        let after = self.over(column.saturating_add(len));
        match self.kind {
            CostKind::Squares => units(squared(after).saturating_sub(squared(before))),
            CostKind::Linear => units(after.saturating_sub(before)),
            CostKind::Lines => 0,
        }
    }

    /// The cost of a line break to an indentation.
    pub fn newline(&self, indentation: u32) -> u128 {
        let over = self.over(indentation);
        match self.kind {
            CostKind::Squares => units(squared(over)).saturating_add(1),
            CostKind::Linear => units(over).saturating_add(1),
            CostKind::Lines => 1,
        }
    }

    // How many columns a column is past the page width.
    fn over(&self, column: u32) -> u128 {
        column.saturating_sub(self.page_width) as u128
    }
}

fn squared(x: u128) -> u128 {
    x.saturating_mul(x)
}

// So much overflow as a cost: 2^40 a unit.
fn units(x: u128) -> u128 {
    x.saturating_mul(1_099_511_627_776)
}
