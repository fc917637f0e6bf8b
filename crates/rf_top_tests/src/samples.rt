// The answer is the same for every number of jobs.
use crate::runs::{carried_out, ends, fine, forms, stopped, worded};
use rf_edges::{MemSink, OpenGate};
use rf_top::Status;
use std::alloc::Global;
use std::process::Abort;
use std::test::Fail;
use std::thread::Threads;

#[test]
fn samples_are_the_same_in_all_jobs(rt: HostRuntime) -> Result<(), Fail> {
    for mode in ["", " --choices", " --summary"] {
        let one = format!(in rt.alloc(); "--sample 5 --jobs 1{mode}")?;
        let want = laid(&rt, rt.alloc(), &one)?;
        for jobs in [2, 3, 5, 7, 64] {
            let words = format!(in rt.alloc(); "--sample 5 --jobs {jobs}{mode}")?;
            ends(
                &rt,
                rt.alloc(),
                &worded(&words, b""),
                fine(want.bytes()),
                &words,
            )?;
        }
    }
    Ok(())
}

// In two jobs a part has 65,536 items at least.
#[test]
fn parts_are_the_same_in_two_jobs(rt: HostRuntime) -> Result<(), Fail> {
    let want = laid(&rt, rt.alloc(), "--sample 5000 --jobs 1 --summary")?;
    let two = "--sample 5000 --jobs 2 --summary";
    ends(&rt, rt.alloc(), &worded(two, b""), fine(want.bytes()), two)
}

// What a run of these words writes, at which all is well.
fn laid<R: Threads + Abort + Sync>(rt: &R, alloc: Global, words: &str) -> Result<MemSink, Fail> {
    let got = carried_out(rt, alloc, &worded(words, b""), &OpenGate)?;
    assert_eq!(rt; got.status, Status::Fine, "{words}");
    Ok(got.out)
}

// A third dot isn't seen before the parts are read.
#[test]
fn what_is_refused_in_a_later_part_is_refused(rt: HostRuntime) -> Result<(), Fail> {
    let mut source = forms(rt.alloc(), 30000)?;
    source.push_str("(a . b . c . d)\n")?;
    let plan = worded("--jobs 2", source.as_bytes());
    let end = stopped(Status::SourceRefused, b"source: BadDot at 180011\n");
    ends(&rt, rt.alloc(), &plan, end, "")
}
