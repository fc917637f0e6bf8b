// Bytes to test with, and a reader and a writer that stumble.
use std::alloc::{AllocError, Global};
use std::fmt::Debug;
use std::io::{self, Error, ErrorKind, Read, Write};
use std::process::Abort;

// So many bytes, of which no two that stand side by side are equal.
pub(crate) fn bytes_of(alloc: Global, count: usize) -> Result<Vec<u8>, AllocError> {
    let mut bytes = Vec::with_capacity(alloc, count)?;
    for i in 0..count {
        bytes.push((i % 251) as u8)?;
    }
    Ok(bytes)
}

// Stops the test unless both are the same; the message tells the case. An `assert_eq!` is proved anew wherever it
// stands, which takes most of the time of a test that has several.
pub(crate) fn same<T: Debug + Drop + PartialEq, C: Debug + Drop>(
    rt: &impl Abort,
    case: C,
    got: T,
    wanted: T,
) {
    assert_eq!(*rt; got, wanted, "{case:?}");
}

// What a fake does at a call.
#[derive(Clone, Copy)]
pub(crate) enum Turn {
    Moves(usize),
    Fails(ErrorKind),
}

// Errors that are failures: each kind but an interruption.
pub(crate) const FAILURES: [ErrorKind; 5] = [
    ErrorKind::UnexpectedEof,
    ErrorKind::WouldBlock,
    ErrorKind::PermissionDenied,
    ErrorKind::TimedOut,
    ErrorKind::BrokenPipe,
];

// How many bytes the turn moves at most, or its error.
fn moved(turn: Turn) -> io::Result<usize> {
    match turn {
        Turn::Moves(most) => Ok(most),
        Turn::Fails(kind) => Err(Error::from(kind)),
    }
}

// Gives bytes as its turns say, and is at its end after them.
#[derive(Drop)]
pub(crate) struct FakeReader {
    pub(crate) next: u8,
    pub(crate) turns: Vec<Turn>,
    pub(crate) calls: usize,
}

impl Read for FakeReader {
    fn read(&mut self, buf: &mut [u8]) -> io::Result<usize> {
        let call = self.calls;
        self.calls = call.saturating_add(1);
        let turn = match self.turns.get(call) {
            Some(turn) => *turn,
            None => Turn::Moves(0),
        };
        let most = moved(turn)?;
        let count = most.min(buf.len());
        for place in buf[..count].iter_mut() {
            *place = self.next;
            self.next = self.next.wrapping_add(1);
        }
        Ok(count)
    }
}

// Takes bytes as its turns say, flushes as its other turns say, and notes how many bytes it had got at each flush.
#[derive(Drop)]
pub(crate) struct FakeWriter {
    pub(crate) got: Vec<u8>,
    pub(crate) turns: Vec<Turn>,
    pub(crate) calls: usize,
    pub(crate) flush_turns: Vec<Turn>,
    pub(crate) flushed_at: Vec<usize>,
}

// A writer of these turns and no others, which has got nothing.
pub(crate) fn writer_of(alloc: Global, turns: Vec<Turn>, flush_turns: Vec<Turn>) -> FakeWriter {
    FakeWriter {
        got: Vec::new(alloc),
        turns,
        calls: 0,
        flush_turns,
        flushed_at: Vec::new(alloc),
    }
}

// A reader of these turns, whose first byte is 1.
pub(crate) fn reader_of(turns: Vec<Turn>) -> FakeReader {
    FakeReader {
        next: 1,
        turns,
        calls: 0,
    }
}

impl Write for FakeWriter {
    fn write(&mut self, buf: &[u8]) -> io::Result<usize> {
        let call = self.calls;
        self.calls = call.saturating_add(1);
        let turn = match self.turns.get(call) {
            Some(turn) => *turn,
            None => Turn::Moves(buf.len()),
        };
        let most = moved(turn)?;
        let count = most.min(buf.len());
        self.got.extend_from_slice(&buf[..count])?;
        Ok(count)
    }

    fn flush(&mut self) -> io::Result<()> {
        let call = self.flushed_at.len();
        self.flushed_at.push(self.got.len())?;
        match self.flush_turns.get(call) {
            None => Ok(()),
            Some(turn) => moved(*turn).map(|_| ()),
        }
    }
}
