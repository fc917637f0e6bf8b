// A source in memory that never fails.
ghost use Rattle.std.specs.Prelude.{◌≡◌, ◌<◌, Some, length, min, IsOk, IfOk, OnErr};
ghost use Rattle.std.specs.Io.{ReadsAtMost};
ghost use Rattle.std.specs.Io.KnownBytes.{ReadConsumes};
ghost use Rattle.rf_edges.specs.Bytes.{EndsExactly};
ghost use Rattle.rf_edges.specs.Faults.{Rose, Lasts};

use crate::failures::Failed;
use crate::memory::tape::ByteTape;
use crate::sources::Source;
use std::marker::Model;

/// A source of bytes in memory, which gives at most `step` bytes a call, and never fails: its count of
/// faults is the constant 0.
#[derive(Drop)]
pub struct SureSource {
    tape: ByteTape,
}

impl Model for SureSource {
    ghost use Rattle.rf_edges.specs.Held.{Tape};

    ghost Value = { Tape };

    ghost view = { λ s. s.tape };
}

impl SureSource {
    /// All of these bytes are still to come, at most `step` of them a call, at least 1.
    pub fn new(bytes: Vec<u8>, step: usize) -> SureSource
        requires { 0 < step }
        ensures left { result.left ≡ bytes.items }
        ensures step { result.step ≡ step }
    {
        SureSource {
            tape: ByteTape::new(bytes, step),
        }
    }
}

impl Source for SureSource {
    ghost left = { λ s. Some s.left };

    ghost faults = { λ _. 0 };

    fn read(&mut self, buf: &mut [u8]) -> Result<usize, Failed>
        // What every source does.
        ensures bound { ReadsAtMost result buf.new }
        ensures bytes { ReadConsumes (Some self.old.left) (Some self.new.left) result buf.new }
        ensures end { EndsExactly (Some self.old.left) result buf.new }
        ensures cause { OnErr result (Rose 0 0) }
        ensures lasting { Lasts 0 0 }

        // This one never fails.
        ensures sure { IsOk result }
        ensures count { IfOk result (λ n.
            n ≡ min self.old.step (min (length buf.old) (length self.old.left))) }
        ensures step { self.new.step ≡ self.old.step }
    {
        Ok(self.tape.give(buf))
    }
}
