//! The factory that counts.

use rf_base_steps::Steps;
use rf_cost::Factory;
use std::cell::Cell;
use std::sync::ledger::Ledger;

/// Another factory, and how often its costs were compared.
#[derive(Drop)]
pub struct Counting<F: Drop> {
    inner: F,
    comparisons: Cell<u64>,
}

impl<F: Drop> Counting<F> {
    /// The factory `inner`, none of whose costs was compared yet.
    pub fn new(inner: F) -> Counting<F> {
        Counting {
            inner,
            comparisons: Cell::new(0),
        }
    }

    /// How often costs were compared. The count stands still at the greatest u64.
    pub fn comparisons(&self) -> u64 {
        self.comparisons.get()
    }
}

impl<F: Factory + Drop> Factory for Counting<F> {
    type Cost = F::Cost;

    ghost costs = { λ counting. F.costs counting.inner };

    ghost lawful = { λ counting. F.lawful counting.inner };

    /// The cost by the other factory.
    fn text(&self, col: u32, len: u32) -> F::Cost {
        self.inner.text(col, len)
    }

    /// The cost by the other factory.
    fn newline(&self, indent: u32) -> F::Cost {
        self.inner.newline(indent)
    }

    /// The cost by the other factory.
    fn charge(&self, k: u32) -> F::Cost {
        self.inner.charge(k)
    }

    /// The sum by the other factory.
    fn add(&self, a: F::Cost, b: F::Cost) -> F::Cost {
        self.inner.add(a, b)
    }

    /// What the other factory says.
    fn free_up_to(&self, limit: u32) -> Option<u32> {
        self.inner.free_up_to(limit)
    }

    /// What the other factory says, counted.
    fn le<L: Ledger>(&self, a: F::Cost, b: F::Cost, steps: &mut Steps<L>) -> bool {
        self.comparisons
            .set(self.comparisons.get().saturating_add(1));
        self.inner.le(a, b, steps)
    }
}
