// A sink that keeps only the number of bytes.
ghost use Rattle.std.specs.Prelude.{◌≡◌, ℕ, ◌+◌, ◌<◌, None, Ok, length, min, IfOk, OnErr};
ghost use Rattle.std.specs.Io.{WritesAtMost};
ghost use Rattle.std.specs.Io.KnownBytes.{WriteAppends};
ghost use Rattle.rf_edges.specs.Faults.{Rose, Lasts};

use crate::failures::Failed;
use crate::sinks::Sink;
use std::marker::Model;

/// A sink that takes everything and keeps only the number of bytes. It doesn't tell what was written, and
/// never fails: its count of faults is the constant 0.
#[derive(Drop)]
pub struct CountSink {
    taken: u64,
}

impl Model for CountSink {
    ghost use Rattle.std.specs.Prelude.{ℕ};

    ghost Value = { ℕ };

    ghost view = { λ s. s.taken };
}

impl CountSink {
    /// A sink that took nothing yet.
    pub fn new() -> CountSink
        ensures { result ≡ 0 }
    {
        CountSink { taken: 0 }
    }

    /// How many bytes were taken. The number stands still at the greatest u64.
    pub fn taken(&self) -> u64
        ensures { result ≡ self.now }
    {
        self.taken
    }
}

impl Sink for CountSink {
    ghost written = { λ _. None };

    ghost faults = { λ _. 0 };

    fn write(&mut self, piece: &[u8]) -> Result<usize, Failed>
        // What every sink does.
        ensures bound { WritesAtMost result piece.now }
        ensures some { IfOk result (λ n. 0 < length piece.now → 0 < n) }
        ensures empty { length piece.now ≡ 0 → result ≡ Ok 0 }
        ensures bytes { WriteAppends None None result piece.now }
        ensures cause { OnErr result (Rose 0 0) }
        ensures lasting { Lasts 0 0 }

        // This one takes everything.
        ensures all { result ≡ Ok (length piece.now) }
        ensures taken { self.new ≡ min (self.old + length piece.now) u64.MAX }
    {
        self.taken = self.taken.saturating_add(piece.len() as u64);
        Ok(piece.len())
    }
}
