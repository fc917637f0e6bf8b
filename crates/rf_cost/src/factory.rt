//! What a cost factory is.

ghost use Rattle.std.specs.Prelude.{◌≡◌, ◌≤◌, IfSome};
ghost use Rattle.rf_base_cost.specs.Cost.{Costs, IsValue, IsColumn, IsCharge, Lawful};
ghost use Rattle.rf_base_cut.specs.Free.{TextsAreFree};
ghost use Rattle.rf_base_steps.specs.Steps.{MakesOneStep};

use rf_base_steps::Steps;
use std::sync::ledger::Ledger;

/// Counts what layouts cost. No call takes memory.
///
/// Each implementation says which costs are its values, and proves the laws L1 to L8 of them:
///
/// - L1: the order is total, transitive and antisymmetric.
/// - L2: addition is associative.
/// - L3: addition is monotone in both places.
/// - L4: `text(col, 0)` is neutral on both sides of the addition.
/// - L5: `text(col, a + b)` is `add(text(col, a), text(col + a, b))`.
/// - L6: the cost of a text doesn't fall as its column grows.
/// - L7: the cost of a break doesn't fall as its indentation grows.
/// - L8: `charge(0)` is neutral on both sides of the addition, and the cost of a charge doesn't fall as
///   its number grows.
///
/// Columns, lengths and indentations are counted in columns, from 0.
pub trait Factory {
    /// What a layout or a part of it costs.
    type Cost: Copy;

    /// How this factory counts.
    ghost costs: { Self → Costs Self.Cost };

    /// The cost of a text of `len` columns that begins at column `col`.
    fn text(&self, col: u32, len: u32) -> Self::Cost
        requires column { IsColumn col }
        requires length { IsColumn len }
        ensures { result ≡ (costs self.now).text col len };

    /// The cost of a line break and `indent` spaces behind it.
    fn newline(&self, indent: u32) -> Self::Cost
        requires { IsColumn indent }
        ensures { result ≡ (costs self.now).newline indent };

    /// The cost of a charge of `k`, which stands for no text.
    fn charge(&self, k: u32) -> Self::Cost
        requires { IsCharge k }
        ensures { result ≡ (costs self.now).charge k };

    /// The cost of one part and then another.
    fn add(&self, a: Self::Cost, b: Self::Cost) -> Self::Cost
        requires first { IsValue (costs self.now) a }
        requires second { IsValue (costs self.now) b }
        ensures { result ≡ (costs self.now).add a b };

    /// Whether `a` is at most `b`. Each call is one step, and nothing else is a step.
    fn le<L: Ledger>(&self, a: Self::Cost, b: Self::Cost, steps: &mut Steps<L>) -> bool
        requires first { IsValue (costs self.now) a }
        requires second { IsValue (costs self.now) b }
        ensures answer { result ≡ (costs self.now).le a b }
        ensures step { MakesOneStep steps.old steps.new };

    /// The last column up to which texts cost nothing, of those up to `limit`, where no cost is less, a break and a
    /// charge of 1 or more cost more, and sums keep the order of their parts; `None` where a factory doesn't say so.
    /// What it says changes how long a resolver takes, and not what it answers.
    fn free_up_to(&self, limit: u32) -> Option<u32>
        ensures free { IfSome result (λ free. TextsAreFree (costs self.now) free) }
        ensures near { IfSome result (λ free. free ≤ limit) }
    {
        None
    }

    /// The laws.
    ghost lawful: { (factory : Self) → Lawful (costs factory) };
}
