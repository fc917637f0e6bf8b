//! What a style is.

use crate::forms::Forms;
use rf_base_style::Columns;
use rf_cost::CostKind;

/// A style.
#[derive(Drop)]
pub struct Style {
    /// The page width, in columns, from 1 to 400.
    pub width: u32,
    /// The computation width, in columns, from 1 to 400.
    pub limit: u32,
    /// How many blank lines in a row are kept, from 0 to 9.
    pub blanks: u32,
    /// Which factory counts the costs.
    pub cost: CostKind,
    /// How the columns of texts are counted.
    pub columns: Columns,
    /// The rules of heads by their names.
    pub forms: Forms,
}
