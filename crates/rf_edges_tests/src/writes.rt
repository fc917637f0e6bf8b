// Sinks in memory, written to whole.
use crate::fakes::{bytes_of, same};
use rf_edges::{CountSink, Failed, MemSink, Sink, write_whole};
use std::test::Fail;

#[test]
fn short_writes_write_each_byte_once(rt: HostRuntime) -> Result<(), Fail> {
    let bytes = bytes_of(rt.alloc(), 1000)?;
    for step in [1usize, 3, 999, 1000, 4000] {
        let mut sink = MemSink::with_room(rt.alloc(), 1000, step, Vec::new(rt.alloc()))?;
        same(&rt, step, write_whole(&mut sink, &bytes), Ok(()));
        same(&rt, step, sink.bytes(), bytes.as_slice());
    }
    Ok(())
}

#[test]
fn a_fault_in_mid_stream_leaves_a_prefix(rt: HostRuntime) -> Result<(), Fail> {
    let bytes = bytes_of(rt.alloc(), 10)?;
    for (call, prefix) in [(1u32, 0usize), (2, 4), (3, 8)] {
        let fails = vec![in rt.alloc(); call]?;
        let mut sink = MemSink::with_room(rt.alloc(), 100, 4, fails)?;
        same(&rt, call, write_whole(&mut sink, &bytes), Err(Failed));
        same(&rt, call, sink.bytes(), bytes.get(..prefix).ok_or("short")?);
        same(&rt, call, write_whole(&mut sink, b"!"), Ok(()));
        same(&rt, call, sink.bytes().last(), Some(&b'!'));
    }
    Ok(())
}

#[test]
fn a_full_sink_fails(rt: HostRuntime) -> Result<(), Fail> {
    let mut sink = MemSink::with_room(rt.alloc(), 5, 3, Vec::new(rt.alloc()))?;
    let answer = write_whole(&mut sink, b"abcdefgh");
    same(&rt, "answer", answer, Err(Failed));
    same(&rt, "bytes", sink.bytes(), b"abcde".as_slice());
    same(&rt, "nothing written", sink.write(b""), Ok(0));
    same(&rt, "one written", sink.write(b"x"), Err(Failed));
    Ok(())
}

#[test]
fn a_counting_sink_takes_everything(rt: HostRuntime) -> Result<(), Fail> {
    let bytes = bytes_of(rt.alloc(), 70000)?;
    let mut sink = CountSink::new();
    same(&rt, "answer", write_whole(&mut sink, &bytes), Ok(()));
    same(&rt, "answer", write_whole(&mut sink, b""), Ok(()));
    same(&rt, "answer", write_whole(&mut sink, b"ab"), Ok(()));
    same(&rt, "taken", sink.taken(), 70002);
    Ok(())
}
