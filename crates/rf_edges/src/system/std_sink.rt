// A sink over a writer of std.
ghost use Rattle.std.specs.Prelude.{◌≡◌, ◌<◌, None, Ok, length, take, IfOk, OnErr};
ghost use Rattle.std.specs.Io.{WritesAtMost};
ghost use Rattle.std.specs.Io.KnownBytes.{Appends, Keeps, WriteAppends};
ghost use Rattle.rf_edges.specs.Bytes.{AppendsPrefix};
ghost use Rattle.rf_edges.specs.Faults.{Rose, Lasts};

use crate::failures::Failed;
use crate::sinks::Sink;
use crate::system::counting::count_faults;
use std::io::{ErrorKind, Write};
use std::marker::Model;

/// A sink over a writer of std, flushed in each write. It tells nothing of content, and counts a fault at
/// each error, and where the writer takes nothing of a piece that isn't empty. A write or a flush that a
/// signal interrupts is counted too, and made again.
#[derive(Drop)]
pub struct StdSink<W: Write> {
    inner: W,
    faults: u64,
}

impl<W: Write> Model for StdSink<W> {
    ghost use Rattle.std.specs.Prelude.{ℕ};

    ghost Value = { ℕ };

    ghost view = { λ s. s.faults };
}

impl<W: Write> StdSink<W> {
    /// A sink over this writer, without a fault yet.
    pub fn new(inner: W) -> StdSink<W>
        ensures { result ≡ 0 }
    {
        StdSink { inner, faults: 0 }
    }
}

impl<W: Write> Sink for StdSink<W> {
    ghost written = { λ _. None };

    ghost faults = { λ s. s };

    fn write(&mut self, piece: &[u8]) -> Result<usize, Failed>
        // What every sink does.
        ensures bound { WritesAtMost result piece.now }
        ensures some { IfOk result (λ n. 0 < length piece.now → 0 < n) }
        ensures empty { length piece.now ≡ 0 → result ≡ Ok 0 }
        ensures bytes { WriteAppends None None result piece.now }
        ensures cause { OnErr result (Rose self.old self.new) }
        ensures lasting { Lasts self.old self.new }
    {
        if piece.is_empty() {
            return Ok(0);
        }
        write_flushed(&mut self.inner, &mut self.faults, piece)
    }
}

// One write and a flush behind it. Where the flush fails the writer may hold bytes of the piece.
fn write_flushed<W: Write>(writer: &mut W, faults: &mut u64, piece: &[u8]) -> Result<usize, Failed>
    ensures bound { WritesAtMost result piece.now }
    ensures some { IfOk result (λ n. 0 < n) }
    ensures bytes { IfOk result (λ n. Appends (W.contents writer.old) (W.contents writer.new) (take n piece.now)) }
    ensures prefix { AppendsPrefix (W.contents writer.old) (W.contents writer.new) piece.now }
    ensures cause { OnErr result (Rose faults.old faults.new) }
    ensures lasting { Lasts faults.old faults.new }
{
    let count = write_retrying(writer, faults, piece)?;
    flush_retrying(writer, faults)?;
    Ok(count)
}

// One write, tried again where a signal interrupts it. Each error is counted, and that nothing is taken.
fn write_retrying<W: Write>(writer: &mut W, faults: &mut u64, piece: &[u8]) -> Result<usize, Failed>
    ensures bound { WritesAtMost result piece.now }
    ensures some { IfOk result (λ n. 0 < n) }
    ensures bytes { WriteAppends (W.contents writer.old) (W.contents writer.new) result piece.now }
    ensures cause { OnErr result (Rose faults.old faults.new) }
    ensures lasting { Lasts faults.old faults.new }
{
    for _ in 0..u64::MAX {
        match writer.write(piece) {
            Ok(count) if count > 0 => return Ok(count),
            Ok(_) => {
                count_faults(faults, 1);
                return Err(Failed);
            }
            Err(error) => {
                count_faults(faults, 1);
                if error.kind() != ErrorKind::Interrupted {
                    return Err(Failed);
                }
            }
        }
    }
    count_faults(faults, 1);
    Err(Failed)
}

// One flush, tried again where a signal interrupts it. Each error is counted.
fn flush_retrying<W: Write>(writer: &mut W, faults: &mut u64) -> Result<(), Failed>
    ensures bytes { Keeps (W.contents writer.old) (W.contents writer.new) }
    ensures cause { OnErr result (Rose faults.old faults.new) }
    ensures lasting { Lasts faults.old faults.new }
{
    for _ in 0..u64::MAX {
        match writer.flush() {
            Ok(()) => return Ok(()),
            Err(error) => {
                count_faults(faults, 1);
                if error.kind() != ErrorKind::Interrupted {
                    return Err(Failed);
                }
            }
        }
    }
    count_faults(faults, 1);
    Err(Failed)
}
