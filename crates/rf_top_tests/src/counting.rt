// Each job enters the gate once, with its number, and there are as many as the slots make groups.
use crate::runs::{carried_out, ends_through, fine, forms, worded};
use rf_edges::Gate;
use rf_top::Status;
use std::sync::atomic::{AtomicU64, Ordering};
use std::test::Fail;

// A gate that counts who enters. The sum has a digit in base 2 for each of the jobs 0 to 63: it is what it should be
// only where each of them entered once.
#[derive(Drop)]
struct CountingGate {
    entries: AtomicU64,
    numbers: AtomicU64,
}

impl Gate for CountingGate {
    fn enter(&self, job: u32) {
        self.entries.fetch_add(1, Ordering::SeqCst);
        self.numbers
            .fetch_add(1u64.wrapping_shl(job), Ordering::SeqCst);
    }
}

// A gate that nobody has entered.
fn unentered() -> CountingGate {
    CountingGate {
        entries: AtomicU64::new(0),
        numbers: AtomicU64::new(0),
    }
}

// How many forms a file has, in how many jobs it is laid out, and how many of them there are.
const ROWS: [(u32, u32, u32); 12] = [
    (0, 1, 0),
    (0, 64, 0),
    (1, 1, 1),
    (1, 2, 1),
    (1, 64, 1),
    (2, 2, 2),
    (5, 2, 2),
    (5, 4, 3),
    (7, 3, 3),
    (10, 7, 5),
    (64, 64, 64),
    (65, 64, 33),
];

#[test]
fn each_job_enters_once(rt: HostRuntime) -> Result<(), Fail> {
    for (count, jobs, groups) in ROWS {
        let gate = unentered();
        let source = forms(rt.alloc(), count)?;
        let words = format!(in rt.alloc(); "--jobs {jobs}")?;
        let plan = worded(&words, source.as_bytes());
        ends_through(
            &rt,
            rt.alloc(),
            &plan,
            &gate,
            fine(source.as_bytes()),
            &words,
        )?;
        let all = u64::MAX
            .checked_shr(64u32.saturating_sub(groups))
            .unwrap_or(0);
        let entries = gate.entries.load(Ordering::SeqCst);
        assert_eq!(rt; entries, u64::from(groups), "{count} forms in {jobs} jobs");
        let numbers = gate.numbers.load(Ordering::SeqCst);
        assert_eq!(rt; numbers, all, "{count} forms in {jobs} jobs");
    }
    Ok(())
}

#[test]
fn a_run_that_stops_before_its_layout_enters_none(rt: HostRuntime) -> Result<(), Fail> {
    for (words, source, status) in [
        ("--jobs 65", "(f x)\n", Status::WordsRefused),
        ("--jobs 2 --style none", "(f x)\n", Status::ReadFault),
        ("--jobs 2", "(f x)\n(f", Status::SourceRefused),
    ] {
        let gate = unentered();
        let got = carried_out(&rt, rt.alloc(), &worded(words, source.as_bytes()), &gate)?;
        assert_eq!(rt; got.status, status, "{words}");
        assert_eq!(rt; got.out.bytes(), b"".as_slice(), "{words}");
        assert_eq!(rt; gate.entries.load(Ordering::SeqCst), 0, "{words}");
    }
    Ok(())
}
