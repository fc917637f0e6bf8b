// A source in memory, some of whose reads fail.
ghost use Rattle.std.specs.Prelude.{◌≡◌, ◌<◌, ◌↔◌, Some, length, min, Contains, IsErr, IfOk, OnOk, OnErr};
ghost use Rattle.std.specs.Io.{ReadsAtMost};
ghost use Rattle.std.specs.Io.KnownBytes.{ReadConsumes};
ghost use Rattle.rf_edges.specs.Bytes.{EndsExactly};
ghost use Rattle.rf_edges.specs.Faults.{Rose, Lasts, next_count};

use crate::failures::Failed;
use crate::memory::fault_plan::FaultPlan;
use crate::memory::tape::ByteTape;
use crate::sources::Source;
use std::marker::Model;

/// A source of bytes in memory, which gives at most `step` bytes a call, and some of whose calls fail.
#[derive(Drop)]
pub struct MemSource {
    tape: ByteTape,
    plan: FaultPlan,
}

impl Model for MemSource {
    ghost use Rattle.rf_edges.specs.Held.{Feed};

    ghost Value = { Feed };

    ghost view = { λ s. record {
      left = s.tape.left;
      step = s.tape.step;
      calls = s.plan.calls;
      fails = s.plan.fails;
      faults = s.plan.faults;
    } };
}

impl MemSource {
    /// All of these bytes are still to come, at most `step` of them a call, at least 1. The calls whose
    /// numbers, from 1, stand in `fails` fail, and take no byte.
    pub fn new(bytes: Vec<u8>, step: usize, fails: Vec<u32>) -> MemSource
        requires { 0 < step }
        ensures left { result.left ≡ bytes.items }
        ensures step { result.step ≡ step }
        ensures calls { result.calls ≡ 0 }
        ensures fails { result.fails ≡ fails.items }
        ensures faults { result.faults ≡ 0 }
    {
        MemSource {
            tape: ByteTape::new(bytes, step),
            plan: FaultPlan::new(fails),
        }
    }
}

impl Source for MemSource {
    ghost left = { λ s. Some s.left };

    ghost faults = { λ s. s.faults };

    fn read(&mut self, buf: &mut [u8]) -> Result<usize, Failed>
        // What every source does.
        ensures bound { ReadsAtMost result buf.new }
        ensures bytes { ReadConsumes (Some self.old.left) (Some self.new.left) result buf.new }
        ensures end { EndsExactly (Some self.old.left) result buf.new }
        ensures cause { OnErr result (Rose self.old.faults self.new.faults) }
        ensures lasting { Lasts self.old.faults self.new.faults }

        // When this one fails, how much it gives, and how it goes on.
        ensures failing { IsErr result ↔ Contains self.old.fails (next_count self.old.calls) }
        ensures count { IfOk result (λ n.
            n ≡ min self.old.step (min (length buf.old) (length self.old.left))) }
        ensures ok { OnOk result (self.new.faults ≡ self.old.faults) }
        ensures err { OnErr result (self.new.faults ≡ next_count self.old.faults) }
        ensures calls { self.new.calls ≡ next_count self.old.calls }
        ensures step { self.new.step ≡ self.old.step }
        ensures fails { self.new.fails ≡ self.old.fails }
    {
        if self.plan.next_fails() {
            return Err(Failed);
        }
        Ok(self.tape.give(buf))
    }
}
