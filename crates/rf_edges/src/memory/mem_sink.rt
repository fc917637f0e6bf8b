// A sink in memory, some of whose writes fail.
ghost use Rattle.std.specs.Prelude.{◌≡◌, ◌-◌, ◌<◌, ◌≤◌, ◌↔◌, ◌⊎◌, Some, Ok, [], length, min, Contains, IsErr, IfOk, OnOk, OnErr};
ghost use Rattle.std.specs.Io.{WritesAtMost};
ghost use Rattle.std.specs.Io.KnownBytes.{WriteAppends};
ghost use Rattle.rf_edges.specs.Faults.{Rose, Lasts, next_count};

use crate::failures::Failed;
use crate::memory::fault_plan::FaultPlan;
use crate::sinks::Sink;
use std::alloc::{AllocError, Global};
use std::marker::Model;

/// A sink of bytes in memory, which has room for a number of them and takes at most `step` bytes a call.
/// Some of its calls fail, and each call fails once the room is used up.
#[derive(Drop)]
pub struct MemSink {
    written: Vec<u8>,
    room: usize,
    step: usize,
    plan: FaultPlan,
}

impl Model for MemSink {
    ghost use Rattle.std.specs.Prelude.{◌<◌, ◌≤◌, vec_len, vec_capacity};
    ghost use Rattle.rf_edges.specs.Held.{Store};

    ghost Value = { Store };

    ghost view = { λ s. record {
      written = s.written.items;
      room = s.room;
      step = s.step;
      calls = s.plan.calls;
      fails = s.plan.fails;
      faults = s.plan.faults;
    } };

    ghost invariant = { λ s.
        (vec_len s.written ≤ s.room) × (s.room ≤ vec_capacity s.written) × (0 < s.step) };
}

impl MemSink {
    /// An empty sink. The room for its bytes is reserved at once, so that no write wants memory. It takes
    /// at most `step` bytes a call, at least 1. The calls whose numbers, from 1, stand in `fails` fail, and
    /// take no byte; a write of an empty piece is no call that counts.
    ///
    /// The error is want of memory for the room.
    pub fn with_room(
        alloc: Global,
        room: usize,
        step: usize,
        fails: Vec<u32>,
    ) -> Result<MemSink, AllocError>
        requires { 0 < step }
        ensures written { IfOk result (λ sink. sink.written ≡ []) }
        ensures room { IfOk result (λ sink. sink.room ≡ room) }
        ensures step { IfOk result (λ sink. sink.step ≡ step) }
        ensures calls { IfOk result (λ sink. sink.calls ≡ 0) }
        ensures fails { IfOk result (λ sink. sink.fails ≡ fails.items) }
        ensures faults { IfOk result (λ sink. sink.faults ≡ 0) }
    {
        Ok(MemSink {
            written: Vec::with_capacity(alloc, room)?,
            room,
            step,
            plan: FaultPlan::new(fails),
        })
    }

    /// The bytes that were written.
    pub fn bytes(&self) -> &[u8]
        ensures { result.now ≡ self.now.written }
    {
        self.written.as_slice()
    }
}

impl Sink for MemSink {
    ghost written = { λ s. Some s.written };

    ghost faults = { λ s. s.faults };

    fn write(&mut self, piece: &[u8]) -> Result<usize, Failed>
        // What every sink does.
        ensures bound { WritesAtMost result piece.now }
        ensures some { IfOk result (λ n. 0 < length piece.now → 0 < n) }
        ensures empty { length piece.now ≡ 0 → result ≡ Ok 0 }
        ensures bytes { WriteAppends (Some self.old.written) (Some self.new.written) result piece.now }
        ensures cause { OnErr result (Rose self.old.faults self.new.faults) }
        ensures lasting { Lasts self.old.faults self.new.faults }

        // When this one fails, and how much it takes.
        ensures failing { 0 < length piece.now → (IsErr result
            ↔ (Contains self.old.fails (next_count self.old.calls)
            ⊎ (self.old.room ≤ length self.old.written))) }
        ensures count { IfOk result (λ n.
            n ≡ min self.old.step (min (length piece.now) (self.old.room - length self.old.written))) }

        // How it goes on.
        ensures ok { OnOk result (self.new.faults ≡ self.old.faults) }
        ensures err { OnErr result (self.new.faults ≡ next_count self.old.faults) }
        ensures calls { 0 < length piece.now → self.new.calls ≡ next_count self.old.calls }
        ensures no_call { length piece.now ≡ 0 → self.new.calls ≡ self.old.calls }
        ensures room { self.new.room ≡ self.old.room }
        ensures step { self.new.step ≡ self.old.step }
        ensures fails { self.new.fails ≡ self.old.fails }
    {
        if piece.is_empty() {
            return Ok(0);
        }
        if self.plan.next_fails() {
            return Err(Failed);
        }
        let count = self
            .step
            .min(piece.len().min(self.room - self.written.len()));
        if count == 0 {
            self.plan.count_fault();
            return Err(Failed);
        }
        self.written.extend_from_slice(&piece[..count]).unwrap();
        Ok(count)
    }
}
