// What bytes are read from.
ghost use Rattle.std.specs.Prelude.{ℕ, List, Option, OnErr};
ghost use Rattle.std.specs.Io.{ReadsAtMost};
ghost use Rattle.std.specs.Io.KnownBytes.{ReadConsumes};
ghost use Rattle.rf_edges.specs.Bytes.{EndsExactly};
ghost use Rattle.rf_edges.specs.Faults.{Rose, Lasts};

use crate::failures::Failed;

/// Bytes are read from a source, in pieces of its own choice.
pub trait Source {
    // The bytes still to come, where the source tells them.
    ghost left: { Self → Option (List ℕ) };

    // How many faults there were: a count of 64 bits that never falls, and stands still at its end.
    ghost faults: { Self → ℕ };

    /// Reads bytes into the front of `buf`, and gives their number, at most the buffer's length.
    ///
    /// For a buffer that isn't empty the number is 0 exactly where no byte is left.
    ///
    /// `Failed` comes only where the count of faults rose in this call, and takes no byte. A call that gives a number
    /// may have counted faults that it got over.
    fn read(&mut self, buf: &mut [u8]) -> Result<usize, Failed>
        ensures bound { ReadsAtMost result buf.new }
        ensures bytes { ReadConsumes (left self.old) (left self.new) result buf.new }
        ensures end { EndsExactly (left self.old) result buf.new }
        ensures cause { OnErr result (Rose (faults self.old) (faults self.new)) }
        ensures lasting { Lasts (faults self.old) (faults self.new) };
}
