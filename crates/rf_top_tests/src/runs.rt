// A run over memory, and what came of it.
use rf_edges::{Gate, MemShelf, MemSink, MemSource, OpenGate};
use rf_top::{Status, run};
use std::alloc::Global;
use std::process::Abort;
use std::test::Fail;
use std::thread::Threads;

// A run: its words with one space between, the style file `s` on its shelf, its source, how many bytes a call moves at
// most, and the numbers of the calls that fail.
#[derive(Clone, Copy)]
pub(crate) struct Plan<'a> {
    pub(crate) words: Option<&'a str>,
    pub(crate) style: &'a [u8],
    pub(crate) source: &'a [u8],
    pub(crate) step: usize,
    pub(crate) read_fails: u32,
    pub(crate) style_fails: u32,
    pub(crate) write_fails: u32,
    pub(crate) tell_fails: u32,
}

// What a run ended with, and what was written.
#[derive(Drop)]
pub(crate) struct Outcome {
    pub(crate) status: Status,
    pub(crate) out: MemSink,
    pub(crate) err: MemSink,
}

// How a run should end: its status, and what is written on either output.
#[derive(Clone, Copy)]
pub(crate) struct End<'a> {
    pub(crate) status: Status,
    pub(crate) out: &'a [u8],
    pub(crate) err: &'a [u8],
}

// An end at which all is well, and so much is written.
pub(crate) fn fine(out: &[u8]) -> End<'_> {
    End {
        status: Status::Fine,
        out,
        err: b"",
    }
}

// An end at which nothing is written but a line that says why.
pub(crate) fn stopped(status: Status, err: &[u8]) -> End<'_> {
    End {
        status,
        out: b"",
        err,
    }
}

// A plan without words, with an empty style file and without a fault. No call has the number 0.
pub(crate) fn plain(source: &[u8]) -> Plan<'_> {
    Plan {
        words: None,
        style: b"",
        source,
        step: 65536,
        read_fails: 0,
        style_fails: 0,
        write_fails: 0,
        tell_fails: 0,
    }
}

// The text of a file of so many forms, each on a line of its own.
pub(crate) fn forms(alloc: Global, count: u32) -> Result<String, Fail> {
    let mut source = String::new(alloc);
    for _ in 0..count {
        source.push_str("(f x)\n")?;
    }
    Ok(source)
}

// A plan of these words, with one space between, over a source.
pub(crate) fn worded<'a>(words: &'a str, source: &'a [u8]) -> Plan<'a> {
    let mut plan = plain(source);
    plan.words = Some(words);
    plan
}

// Carries a plan out, where each job enters this gate.
pub(crate) fn carried_out<R: Threads + Sync, G: Gate + Sync>(
    rt: &R,
    alloc: Global,
    plan: &Plan,
    gate: &G,
) -> Result<Outcome, Fail> {
    let words = words_of(alloc, plan)?;
    let mut input = input_of(alloc, plan)?;
    let mut shelf = shelf_of(alloc, plan)?;
    let mut out = sink_of(alloc, plan, 65536, plan.write_fails)?;
    let mut err = sink_of(alloc, plan, 1000, plan.tell_fails)?;
    let status = run(
        rt, alloc, &words, &mut input, &mut shelf, &mut out, &mut err, gate,
    );
    Ok(Outcome { status, out, err })
}

// The words of a plan.
fn words_of(alloc: Global, plan: &Plan) -> Result<Vec<String>, Fail> {
    let mut words = Vec::new(alloc);
    if let Some(line) = plan.words {
        for word in line.split(' ') {
            words.push(String::from_str(alloc, word)?)?;
        }
    }
    Ok(words)
}

// The input of a plan.
fn input_of(alloc: Global, plan: &Plan) -> Result<MemSource, Fail> {
    let fails = vec![in alloc; plan.read_fails]?;
    Ok(MemSource::new(plan.source.to_vec(alloc)?, plan.step.max(1), fails))
}

// The shelf of a plan.
fn shelf_of(alloc: Global, plan: &Plan) -> Result<MemShelf, Fail> {
    let mut files = Vec::new(alloc);
    files.push((String::from_str(alloc, "s")?, plan.style.to_vec(alloc)?))?;
    Ok(MemShelf::new(files, vec![in alloc; plan.style_fails]?))
}

// An output of a plan with room for so many bytes, on which the call of this number fails.
fn sink_of(alloc: Global, plan: &Plan, room: usize, fails: u32) -> Result<MemSink, Fail> {
    let step = plan.step.max(1);
    Ok(MemSink::with_room(alloc, room, step, vec![in alloc; fails]?)?)
}

// Carries a plan out, and compares what came of it with how it should end. The row tells which plan it is.
pub(crate) fn ends<R: Threads + Abort + Sync>(
    rt: &R,
    alloc: Global,
    plan: &Plan,
    end: End,
    row: &str,
) -> Result<(), Fail> {
    ends_through(rt, alloc, plan, &OpenGate, end, row)
}

// The same where each job enters this gate.
pub(crate) fn ends_through<R: Threads + Abort + Sync, G: Gate + Sync>(
    rt: &R,
    alloc: Global,
    plan: &Plan,
    gate: &G,
    end: End,
    row: &str,
) -> Result<(), Fail> {
    let got = carried_out(rt, alloc, plan, gate)?;
    assert_eq!(rt; got.status, end.status, "{row}");
    assert_eq!(rt; got.out.bytes(), end.out, "{row}");
    assert_eq!(rt; got.err.bytes(), end.err, "{row}");
    Ok(())
}
