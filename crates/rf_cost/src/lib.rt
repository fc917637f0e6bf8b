//! Cost factories: what texts, breaks and charges of a layout cost, and the laws that each factory keeps.
#![tactic(auto)]

mod factory;
mod kinds;
mod linear;
mod lines;
mod overflow;
mod squares;

ghost use Rattle.std.specs.Prelude.{ℕ, ◌^◌};
ghost use Rattle.rf_base_cost.specs.Reflecting.{ReflectsOrderUpTo};
ghost use Rattle.rf_cost.specs.Factories.{EachNumberIsValue, SumsPlainly, LayoutSumsPlainly, squares, linear, lines};
ghost use Rattle.rf_cost.specs.Reading.{SquaresSay, LinearSays, LinesSay};

pub use factory::Factory;
pub use kinds::{CostKind, cost_named};
pub use linear::Linear;
pub use lines::Lines;
pub use squares::Squares;

/// Every u128 is a value of each of the three factories.
pub fn each_number_is_value()
    ensures squares { (width : ℕ) → EachNumberIsValue (squares width) }
    ensures linear { (width : ℕ) → EachNumberIsValue (linear width) }
    ensures lines { EachNumberIsValue lines }
{}

/// Under `Squares` at most 2^32 pieces whose columns are at most 2^27 cost the plain sum of what each
/// costs: nothing saturates.
pub fn squares_sum_plainly()
    ensures { (width : ℕ) → SumsPlainly (squares width) }
{}

/// Under `Linear` at most 2^32 pieces whose columns are at most 2^27 cost the plain sum of what each
/// costs: nothing saturates.
pub fn linear_sums_plainly()
    ensures { (width : ℕ) → SumsPlainly (linear width) }
{}

/// Under `Lines` at most 2^32 pieces cost the plain sum of what each costs: nothing saturates.
pub fn lines_sum_plainly()
    ensures { SumsPlainly lines }
{}

/// Under each of the three factories a layout of at most 67,108,864 characters, at column 0 and indentation
/// 0, costs the plain sum of what its pieces cost, where its resolution has at most 2^32 texts, newlines and
/// charges.
pub fn layouts_sum_plainly()
    ensures squares { (width : ℕ) → LayoutSumsPlainly (squares width) }
    ensures linear { (width : ℕ) → LayoutSumsPlainly (linear width) }
    ensures lines { LayoutSumsPlainly lines }
{}

/// Under `Squares` the plain sum is the squared overflow of each line, times 2^40, and the number of
/// line breaks and the charges, where each word begins where its line has come to.
pub fn squares_say()
    ensures { SquaresSay }
{}

/// Under `Linear` the plain sum is the overflow of each line, times 2^40, and the number of line breaks
/// and the charges, where each word begins where its line has come to.
pub fn linear_says()
    ensures { LinearSays }
{}

/// Under `Lines` the plain sum is the number of line breaks and the charges.
pub fn lines_say()
    ensures { LinesSay }
{}

/// The additions of the three factories reflect the order of what layouts cost that have at most 2^32 pieces together:
/// nothing saturates.
pub fn sums_reflect_order()
    ensures squares { (width : ℕ) → ReflectsOrderUpTo (squares width) (2 ^ 32) }
    ensures linear { (width : ℕ) → ReflectsOrderUpTo (linear width) (2 ^ 32) }
    ensures lines { ReflectsOrderUpTo lines (2 ^ 32) }
{}
