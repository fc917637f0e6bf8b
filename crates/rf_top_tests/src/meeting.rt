// Jobs run beside each other, where a thread can be started.
use crate::runs::{ends_through, fine, worded};
use crate::words::POINTS;
use rf_edges::Gate;
use std::sync::atomic::{AtomicU64, Ordering};
use std::test::Fail;

// How often a job looks for the other one's mark.
const TURNS: u32 = 200_000_000;

// A gate at which each of two jobs says that it has come, and then waits until it sees that the other one has too.
#[derive(Drop)]
struct MeetingGate {
    came: AtomicU64,
    met: AtomicU64,
}

impl Gate for MeetingGate {
    fn enter(&self, _job: u32) {
        self.came.fetch_add(1, Ordering::SeqCst);
        for _ in 0..TURNS {
            if self.came.load(Ordering::SeqCst) == 2 {
                self.met.fetch_add(1, Ordering::SeqCst);
                return;
            }
        }
    }
}

#[test]
fn two_jobs_meet(rt: HostRuntime) -> Result<(), Fail> {
    let gate = MeetingGate {
        came: AtomicU64::new(0),
        met: AtomicU64::new(0),
    };
    let plan = worded("--jobs 2", POINTS.as_bytes());
    ends_through(&rt, rt.alloc(), &plan, &gate, fine(POINTS.as_bytes()), "")?;
    assert_eq!(rt; gate.met.load(Ordering::SeqCst), 2);
    Ok(())
}
