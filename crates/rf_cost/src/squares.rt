//! The factory of squared overflows. Its line `tactic` names the definitions that its proof opens.

ghost use Rattle.std.specs.Prelude.{◌+◌, ◌*◌, ◌-◌};
ghost use Rattle.rf_cost.specs.Factories.{squares};
ghost use Rattle.rf_cost.specs.Lawful.{squares_lawful};

use crate::factory::Factory;
use crate::overflow::{over, squared};
use rf_base_steps::Steps;
use std::sync::ledger::Ledger;

/// Squared overflow. A line that ends `n` columns behind the page width costs `n * n * 2^40`, each line
/// break costs 1 besides, and a charge of k costs k. So of two layouts the better one has the smaller
/// sum of squared overflows, and of two with the same sum the one of fewer line breaks and charges: ten
/// lines that are one column too long are as bad as one that is a little more than three too long.
#[derive(Clone, Copy, Debug, PartialEq, Eq)]
pub struct Squares {
    /// The page width in columns, behind which overflow begins.
    pub width: u32,
}

#[tactic(auto, unfolding(crate::specs::Factories::squares_text, crate::specs::Factories::squares_newline))]
impl Factory for Squares {
    type Cost = u128;

    ghost costs = { λ s. squares s.width };

    ghost lawful = { λ s. squares_lawful s.width };

    /// What the text adds to its line's squared overflow, times 2^40.
    fn text(&self, col: u32, len: u32) -> u128 {
        let before = squared(over(self.width, col));
        let after = squared(over(self.width, col + len));
        (after - before) as u128 * 1099511627776
    }

    /// The squared overflow of the indentation, times 2^40, and 1.
    fn newline(&self, indent: u32) -> u128 {
        squared(over(self.width, indent)) as u128 * 1099511627776 + 1
    }

    /// The charge itself.
    fn charge(&self, k: u32) -> u128 {
        k as u128
    }

    /// The sum, or the greatest u128 where it is greater.
    fn add(&self, a: u128, b: u128) -> u128 {
        a.saturating_add(b)
    }

    /// The page width, or the limit where it is less.
    fn free_up_to(&self, limit: u32) -> Option<u32> {
        Some(self.width.min(limit))
    }

    /// Whether `a` is no greater number than `b`.
    fn le<L: Ledger>(&self, a: u128, b: u128, steps: &mut Steps<L>) -> bool {
        steps.tick();
        a <= b
    }
}
