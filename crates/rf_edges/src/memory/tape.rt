// Bytes that are given in order, a few at a time.
ghost use Rattle.std.specs.Prelude.{◌≡◌, ◌<◌, length, min, take, drop};

use std::marker::Model;

// Bytes in memory, of which the first `at` were given, and the next come at most `step` at a time.
#[derive(Drop)]
pub(crate) struct ByteTape {
    bytes: Vec<u8>,
    at: usize,
    step: usize,
}

impl Model for ByteTape {
    ghost use Rattle.std.specs.Prelude.{◌<◌, ◌≤◌, drop, vec_len};
    ghost use Rattle.rf_edges.specs.Held.{Tape};

    ghost Value = { Tape };

    ghost view = { λ t. record { left = drop t.at t.bytes.items; step = t.step } };

    ghost invariant = { λ t. (t.at ≤ vec_len t.bytes) × (0 < t.step) };
}

impl ByteTape {
    // All of these bytes are still to come.
    pub(crate) fn new(bytes: Vec<u8>, step: usize) -> ByteTape
        requires { 0 < step }
        ensures left { result.left ≡ bytes.items }
        ensures step { result.step ≡ step }
    {
        ByteTape { bytes, at: 0, step }
    }

    // Puts as many bytes as fit and a step allows into the front of `buf`, and gives their number.
    pub(crate) fn give(&mut self, buf: &mut [u8]) -> usize
        ensures count { result ≡ min self.old.step (min (length buf.old) (length self.old.left)) }
        ensures given { take result buf.new ≡ take result self.old.left }
        ensures left { self.new.left ≡ drop result self.old.left }
        ensures step { self.new.step ≡ self.old.step }
        ensures some { 0 < self.old.step }
    {
        let left = self.bytes.len() - self.at;
        let count = self.step.min(buf.len().min(left));
        let end = self.at + count;
        buf[..count].copy_from_slice(&self.bytes[self.at..end]);
        self.at = end;
        count
    }
}
