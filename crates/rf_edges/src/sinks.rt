// What bytes are written to.
ghost use Rattle.std.specs.Prelude.{◌≡◌, ℕ, ◌<◌, List, Option, length, IfOk, OnErr};
ghost use Rattle.std.specs.Io.{WritesAtMost};
ghost use Rattle.std.specs.Io.KnownBytes.{WriteAppends};
ghost use Rattle.rf_edges.specs.Faults.{Rose, Lasts};

use crate::failures::Failed;

/// Bytes are written to a sink, which takes as many of a piece as it likes.
pub trait Sink {
    // The bytes that were written, where the sink tells them.
    ghost written: { Self → Option (List ℕ) };

    // How many faults there were: a count of 64 bits that never falls, and stands still at its end.
    ghost faults: { Self → ℕ };

    /// Takes bytes from the front of `piece`, and gives their number, from 1 to the piece's length.
    /// An empty piece gives 0 always.
    ///
    /// `Failed` comes only where the count of faults rose in this call, and takes no byte. Taking nothing
    /// of a piece that isn't empty is a fault. A call that gives a number may have counted faults that it got over.
    fn write(&mut self, piece: &[u8]) -> Result<usize, Failed>
        ensures bound { WritesAtMost result piece.now }
        ensures some { IfOk result (λ n. 0 < length piece.now → 0 < n) }
        ensures empty { length piece.now ≡ 0 → result ≡ Ok 0 }
        ensures bytes { WriteAppends (written self.old) (written self.new) result piece.now }
        ensures cause { OnErr result (Rose (faults self.old) (faults self.new)) }
        ensures lasting { Lasts (faults self.old) (faults self.new) };
}
