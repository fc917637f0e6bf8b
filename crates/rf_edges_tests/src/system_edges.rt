// The edges over std.
use crate::closed_files::ClosedFiles;
use crate::fakes::{FAILURES, Turn, bytes_of, reader_of, same, writer_of};
use rf_edges::{
    DirShelf, Failed, Gate, OpenGate, ReadError, Shelf, ShelfError, Sink, Source, StdSink,
    StdSource, read_all, write_whole,
};
use std::fs;
use std::io::ErrorKind;
use std::test::Fail;

#[test]
fn a_reader_is_read_whole_past_interruptions(rt: HostRuntime) -> Result<(), Fail> {
    let mut turns = vec![in rt.alloc(); Turn::Moves(2)]?;
    for _ in 0..10 {
        turns.push(Turn::Fails(ErrorKind::Interrupted))?;
    }
    turns.push(Turn::Moves(3))?;
    let mut source = StdSource::new(reader_of(turns));
    let read = read_all(rt.alloc(), &mut source, 100)?;
    same(&rt, "read", read.as_slice(), [1, 2, 3, 4, 5].as_slice());
    Ok(())
}

#[test]
fn a_broken_read_is_a_fault_and_not_the_end(rt: HostRuntime) -> Result<(), Fail> {
    for kind in FAILURES {
        let turns = vec![in rt.alloc(); Turn::Moves(2), Turn::Fails(kind), Turn::Moves(3)]?;
        let mut source = StdSource::new(reader_of(turns));
        let answer = read_all(rt.alloc(), &mut source, 100).err();
        same(&rt, kind, answer, Some(ReadError::Fault));
        let mut buf = [0u8; 9];
        same(&rt, kind, source.read(&mut buf), Ok(3));
        same(&rt, kind, buf[0], 3);
        same(&rt, kind, source.read(&mut buf), Ok(0));
    }
    Ok(())
}

#[test]
fn a_reader_gives_at_most_one_byte_past_the_limit(rt: HostRuntime) -> Result<(), Fail> {
    let bytes = bytes_of(rt.alloc(), 70000)?;
    let mut rest = bytes.as_slice();
    let refused = read_all(rt.alloc(), &mut StdSource::new(&mut rest), 65536).err();
    same(&rt, "refused", refused, Some(ReadError::TooLong));
    same(&rt, "rest", rest.len(), 70000 - 65537);
    Ok(())
}

#[test]
fn each_write_is_flushed_past_interruptions(rt: HostRuntime) -> Result<(), Fail> {
    let interrupted = Turn::Fails(ErrorKind::Interrupted);
    let mut turns = vec![in rt.alloc(); Turn::Moves(2)]?;
    let mut flush_turns = Vec::new(rt.alloc());
    let mut flushed_at = Vec::new(rt.alloc());
    for _ in 0..10 {
        turns.push(interrupted)?;
        flush_turns.push(interrupted)?;
        flushed_at.push(2)?;
    }
    turns.push(Turn::Moves(3))?;
    flushed_at.push(2)?;
    flushed_at.push(5)?;
    let mut writer = writer_of(rt.alloc(), turns, flush_turns);
    let answer = write_whole(&mut StdSink::new(&mut writer), b"hello");
    same(&rt, "answer", answer, Ok(()));
    same(&rt, "written", writer.got.as_slice(), b"hello".as_slice());
    let answer = writer.flushed_at.as_slice();
    same(&rt, "flushed", answer, flushed_at.as_slice());
    Ok(())
}

#[test]
fn a_long_piece_is_written_whole(rt: HostRuntime) -> Result<(), Fail> {
    let bytes = bytes_of(rt.alloc(), 70000)?;
    let turns = vec![in rt.alloc(); Turn::Moves(1), Turn::Moves(65536)]?;
    let mut writer = writer_of(rt.alloc(), turns, Vec::new(rt.alloc()));
    let answer = write_whole(&mut StdSink::new(&mut writer), &bytes);
    same(&rt, "answer", answer, Ok(()));
    same(&rt, "written", writer.got.as_slice(), bytes.as_slice());
    let answer = writer.flushed_at.as_slice();
    same(&rt, "flushed", answer, [1, 65537, 70000].as_slice());
    Ok(())
}

#[test]
fn a_writer_that_takes_nothing_or_breaks_fails(rt: HostRuntime) -> Result<(), Fail> {
    for kind in FAILURES {
        let turns = vec![in rt.alloc();
            Turn::Moves(0),
            Turn::Fails(kind),
            Turn::Moves(1),
            Turn::Moves(1),
        ]?;
        let flush_turns = vec![in rt.alloc(); Turn::Fails(kind)]?;
        let mut writer = writer_of(rt.alloc(), turns, flush_turns);
        let mut sink = StdSink::new(&mut writer);
        for answer in [Err(Failed), Err(Failed), Err(Failed), Ok(1)] {
            same(&rt, kind, sink.write(b"ab"), answer);
        }
        same(&rt, kind, sink.write(b""), Ok(0));
    }
    Ok(())
}

const FILE: &str = " rf_edges_tests file ";

#[test]
fn a_path_is_read_as_given(rt: HostRuntime) -> Result<(), Fail> {
    let bytes = bytes_of(rt.alloc(), 70000)?;
    fs::write(&rt, FILE, bytes.as_slice())?;
    let mut shelf = DirShelf::new(&rt);
    let mut into = Vec::new(rt.alloc());
    let answer = shelf.read_file(FILE, 70000, &mut into);
    same(&rt, "answer", answer, Ok(()));
    same(&rt, "read", into.as_slice(), bytes.as_slice());
    let mut into = Vec::new(rt.alloc());
    let answer = shelf.read_file(FILE, 69999, &mut into);
    same(&rt, "answer", answer, Err(ShelfError::TooLong));
    same(&rt, "read", into.as_slice(), bytes.as_slice());
    let mut into = Vec::new(rt.alloc());
    let answer = shelf.read_file(FILE, 3, &mut into);
    same(&rt, "answer", answer, Err(ShelfError::TooLong));
    same(&rt, "read", into.as_slice(), [0, 1, 2, 3].as_slice());
    fs::remove_file(&rt, FILE)?;
    for name in [FILE, ".", ""] {
        let mut into = Vec::new(rt.alloc());
        let answer = shelf.read_file(name, 9, &mut into);
        same(&rt, name, answer, Err(ShelfError::Failed));
    }
    Ok(())
}

#[test]
fn a_file_that_cannot_be_opened_is_a_failure(rt: HostRuntime) -> Result<(), Fail> {
    for kind in FAILURES {
        let files = ClosedFiles { rt: &rt, kind };
        let mut into = Vec::new(rt.alloc());
        let answer = DirShelf::new(&files).read_file("a", 9, &mut into);
        same(&rt, kind, answer, Err(ShelfError::Failed));
    }
    Ok(())
}

// Jobs share a gate.
fn enter_shared<G: Gate + Sync>(gate: &G) {
    gate.enter(0);
    gate.enter(u32::MAX);
}

#[test]
fn a_gate_lets_each_job_pass() {
    enter_shared(&OpenGate);
}
