// A source over a reader of std.
ghost use Rattle.std.specs.Prelude.{◌≡◌, None, OnErr};
ghost use Rattle.std.specs.Io.{ReadsAtMost};
ghost use Rattle.std.specs.Io.KnownBytes.{ReadConsumes};
ghost use Rattle.rf_edges.specs.Bytes.{EndsExactly};
ghost use Rattle.rf_edges.specs.Faults.{Rose, Lasts};

use crate::failures::Failed;
use crate::sources::Source;
use crate::system::counting::count_faults;
use std::io::{ErrorKind, Read};
use std::marker::Model;

/// A source over a reader of std. It tells nothing of content, and counts a fault at each error, also where a signal
/// interrupts a read, which is then made again. A read gives what the reader gave.
#[derive(Drop)]
pub struct StdSource<R: Read> {
    inner: R,
    faults: u64,
}

impl<R: Read> Model for StdSource<R> {
    ghost use Rattle.std.specs.Prelude.{ℕ};

    ghost Value = { ℕ };

    ghost view = { λ s. s.faults };
}

impl<R: Read> StdSource<R> {
    /// A source over this reader, without a fault yet.
    pub fn new(inner: R) -> StdSource<R>
        ensures { result ≡ 0 }
    {
        StdSource { inner, faults: 0 }
    }

    /// How many faults there were.
    pub(crate) fn faults(&self) -> u64
        ensures { result ≡ self.now }
    {
        self.faults
    }
}

impl<R: Read> Source for StdSource<R> {
    ghost left = { λ _. None };

    ghost faults = { λ s. s };

    fn read(&mut self, buf: &mut [u8]) -> Result<usize, Failed>
        // What every source does.
        ensures bound { ReadsAtMost result buf.new }
        ensures bytes { ReadConsumes None None result buf.new }
        ensures end { EndsExactly None result buf.new }
        ensures cause { OnErr result (Rose self.old self.new) }
        ensures lasting { Lasts self.old self.new }
    {
        read_retrying(&mut self.inner, &mut self.faults, buf)
    }
}

// One read, tried again where a signal interrupts it. Each error is counted.
fn read_retrying<R: Read>(reader: &mut R, faults: &mut u64, buf: &mut [u8]) -> Result<usize, Failed>
    ensures bound { ReadsAtMost result buf.new }
    ensures bytes { ReadConsumes (R.remaining reader.old) (R.remaining reader.new) result buf.new }
    ensures cause { OnErr result (Rose faults.old faults.new) }
    ensures lasting { Lasts faults.old faults.new }
{
    for _ in 0..u64::MAX {
        match reader.read(buf) {
            Ok(count) => return Ok(count),
            Err(error) => {
                count_faults(faults, 1);
                if error.kind() != ErrorKind::Interrupted {
                    return Err(Failed);
                }
            }
        }
    }
    count_faults(faults, 1);
    Err(Failed)
}
