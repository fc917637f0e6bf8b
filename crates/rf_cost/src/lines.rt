//! The factory of line breaks.

ghost use Rattle.rf_cost.specs.Factories.{lines};
ghost use Rattle.rf_cost.specs.Lawful.{lines_lawful};

use crate::factory::Factory;
use rf_base_steps::Steps;
use std::sync::ledger::Ledger;

/// Lines. Each line break costs 1 and a charge of k costs k; texts cost nothing, at whatever column they
/// end. So of two layouts the better one has fewer line breaks and charges, and no page width counts.
#[derive(Clone, Copy, Debug, PartialEq, Eq)]
pub struct Lines;

impl Factory for Lines {
    type Cost = u128;

    ghost costs = { λ _. lines };

    ghost lawful = { λ _. lines_lawful };

    /// Nothing.
    fn text(&self, _col: u32, _len: u32) -> u128 {
        0
    }

    /// One.
    fn newline(&self, _indent: u32) -> u128 {
        1
    }

    /// The charge itself.
    fn charge(&self, k: u32) -> u128 {
        k as u128
    }

    /// The sum, or the greatest u128 where it is greater.
    fn add(&self, a: u128, b: u128) -> u128 {
        a.saturating_add(b)
    }

    /// The limit.
    fn free_up_to(&self, limit: u32) -> Option<u32> {
        Some(limit)
    }

    /// Whether `a` is no greater number than `b`.
    fn le<L: Ledger>(&self, a: u128, b: u128, steps: &mut Steps<L>) -> bool {
        steps.tick();
        a <= b
    }
}
