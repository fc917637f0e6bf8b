//! A run over an outside that never fails.

ghost use Rattle.std.specs.Prelude.{◌≡◌, ◌≢◌, ◌⊎◌, Some};
ghost use Rattle.rf_edges.specs.Files.{Bytes};
ghost use Rattle.rf_top.specs.Running.{EachAnswer};

use crate::program::run;
use crate::status::Status;
use rf_edges::{CountSink, Gate, Sink, SureShelf, SureSource};
use std::alloc::Global;
use std::thread::Threads;

/// Runs as `run` does, over a source and a shelf in memory and a sink that only counts bytes, none of which ever fails.
///
/// So it answers neither ReadFault nor WriteFault, and ends as its answer says, or for want of memory.
pub fn run_surely<R: Threads + Sync, E: Sink, G: Gate + Sync>(
    rt: &R,
    alloc: Global,
    words: &[String],
    input: &mut SureSource,
    shelf: &mut SureShelf,
    out: &mut CountSink,
    err: &mut E,
    gate: &G,
) -> Status
    ensures no_read_fault { result ≢ Status.ReadFault }
    ensures no_write_fault { result ≢ Status.WriteFault }
    ensures complete { EachAnswer words.now (λ _. Bytes shelf.old) (Some input.old.left) (λ answer.
        (result ≡ answer.status) ⊎ (result ≡ Status.NoMemory)) }
{
    run(rt, alloc, words, input, shelf, out, err, gate)
}
