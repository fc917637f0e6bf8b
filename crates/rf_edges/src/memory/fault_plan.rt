// Which calls of an object in memory fail.
ghost use Rattle.std.specs.Prelude.{◌≡◌, ◌↔◌, IsTrue, Contains, MatchBool};
ghost use Rattle.rf_edges.specs.Faults.{Lasts, next_count};

use std::marker::Model;

// Counts the calls and the faults of an object, some of whose calls fail. Both counts stand still at
// their type's end.
#[derive(Drop)]
pub(crate) struct FaultPlan {
    calls: u64,
    fails: Vec<u32>,
    faults: u64,
}

impl Model for FaultPlan {
    ghost use Rattle.rf_edges.specs.Held.{Plan};

    ghost Value = { Plan };

    ghost view = { λ p. record { calls = p.calls; fails = p.fails.items; faults = p.faults } };
}

impl FaultPlan {
    // The calls with these numbers, from 1, are to fail.
    pub(crate) fn new(fails: Vec<u32>) -> FaultPlan
        ensures calls { result.calls ≡ 0 }
        ensures fails { result.fails ≡ fails.items }
        ensures faults { result.faults ≡ 0 }
    {
        FaultPlan {
            calls: 0,
            fails,
            faults: 0,
        }
    }

    // Counts one more call, and tells whether it is to fail: then the fault is counted too.
    pub(crate) fn next_fails(&mut self) -> bool
        ensures listed { IsTrue result ↔ Contains self.old.fails (next_count self.old.calls) }
        ensures calls { self.new.calls ≡ next_count self.old.calls }
        ensures fails { self.new.fails ≡ self.old.fails }
        ensures faults { MatchBool result (self.new.faults ≡ next_count self.old.faults)
            (self.new.faults ≡ self.old.faults) }
        ensures lasting { Lasts self.old.faults self.new.faults }
    {
        self.calls = self.calls.saturating_add(1);
        let fails = is_listed(&self.fails, self.calls);
        if fails {
            self.faults = self.faults.saturating_add(1);
        }
        fails
    }

    // Counts one more fault.
    pub(crate) fn count_fault(&mut self)
        ensures calls { self.new.calls ≡ self.old.calls }
        ensures fails { self.new.fails ≡ self.old.fails }
        ensures faults { self.new.faults ≡ next_count self.old.faults }
        ensures lasting { Lasts self.old.faults self.new.faults }
    {
        self.faults = self.faults.saturating_add(1);
    }
}

// Whether the number stands in the list.
fn is_listed(numbers: &[u32], number: u64) -> bool
    ensures { IsTrue result ↔ Contains numbers.now number }
{
    numbers.iter().any(|listed| u64::from(*listed) == number)
}
