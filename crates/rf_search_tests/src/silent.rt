//! A factory that doesn't say which texts cost nothing.

use rf_base_steps::Steps;
use rf_cost::Factory;
use std::sync::ledger::Ledger;

/// Another factory, whose costs it has.
#[derive(Clone, Copy)]
pub struct Silent<F: Copy> {
    pub inner: F,
}

impl<F: Factory + Copy> Factory for Silent<F> {
    type Cost = F::Cost;

    ghost costs = { λ silent. F.costs silent.inner };

    ghost lawful = { λ silent. F.lawful silent.inner };

    fn text(&self, col: u32, len: u32) -> F::Cost {
        self.inner.text(col, len)
    }

    fn newline(&self, indent: u32) -> F::Cost {
        self.inner.newline(indent)
    }

    fn charge(&self, k: u32) -> F::Cost {
        self.inner.charge(k)
    }

    fn add(&self, a: F::Cost, b: F::Cost) -> F::Cost {
        self.inner.add(a, b)
    }

    fn le<L: Ledger>(&self, a: F::Cost, b: F::Cost, steps: &mut Steps<L>) -> bool {
        self.inner.le(a, b, steps)
    }
}
