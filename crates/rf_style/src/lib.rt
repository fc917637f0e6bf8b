//! Styles: how wide pages are, what layouts cost, and which shape the lists of each head take. A style is the default
//! one, or is read from a style file, which is TOML.
#![tactic(auto)]

mod defaults;
mod faults;
mod forms;
mod reading;
mod rules;
mod style;
mod values;

ghost use Rattle.rf_style.specs.Laws.{SaidIsStyle};

pub use defaults::default_table;
pub use faults::StyleError;
pub use forms::Forms;
pub use reading::read_style;
pub use rf_base_style::{Charges, Columns, Form, Rule};
pub use rf_cost::CostKind;
pub use style::Style;

/// What a style file says has its numbers in their ranges.
pub fn said_is_style()
    ensures { SaidIsStyle }
{}
