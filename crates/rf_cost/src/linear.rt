//! The factory of plain overflows. Its line `tactic` names the definitions that its proof opens.

ghost use Rattle.std.specs.Prelude.{◌+◌, ◌*◌, ◌-◌};
ghost use Rattle.rf_cost.specs.Factories.{linear};
ghost use Rattle.rf_cost.specs.Lawful.{linear_lawful};

use crate::factory::Factory;
use crate::overflow::over;
use rf_base_steps::Steps;
use std::sync::ledger::Ledger;

/// Overflow. A line that ends `n` columns behind the page width costs `n * 2^40`, each line break costs
/// 1 besides, and a charge of k costs k. So of two layouts the better one has fewer columns behind the
/// page width, wherever they stand, and of two with as many the one of fewer line breaks and charges:
/// ten lines that are one column too long are as bad as one that is ten too long.
#[derive(Clone, Copy, Debug, PartialEq, Eq)]
pub struct Linear {
    /// The page width in columns, behind which overflow begins.
    pub width: u32,
}

#[tactic(auto, unfolding(crate::specs::Factories::linear_text, crate::specs::Factories::linear_newline))]
impl Factory for Linear {
    type Cost = u128;

    ghost costs = { λ s. linear s.width };

    ghost lawful = { λ s. linear_lawful s.width };

    /// What the text adds to its line's overflow, times 2^40.
    fn text(&self, col: u32, len: u32) -> u128 {
        let before = over(self.width, col);
        let after = over(self.width, col + len);
        (after - before) as u128 * 1099511627776
    }

    /// The overflow of the indentation, times 2^40, and 1.
    fn newline(&self, indent: u32) -> u128 {
        over(self.width, indent) as u128 * 1099511627776 + 1
    }

    /// The charge itself.
    fn charge(&self, k: u32) -> u128 {
        k as u128
    }

    /// The sum, or the greatest u128 where it is greater.
    fn add(&self, a: u128, b: u128) -> u128 {
        a.saturating_add(b)
    }

    /// The page width, or the limit where it is less.
    fn free_up_to(&self, limit: u32) -> Option<u32> {
        Some(self.width.min(limit))
    }

    /// Whether `a` is no greater number than `b`.
    fn le<L: Ledger>(&self, a: u128, b: u128, steps: &mut Steps<L>) -> bool {
        steps.tick();
        a <= b
    }
}
