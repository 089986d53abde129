//! Jobs of a script's own, which wait for wakes.
use crate::gates::{Gates, Stop};
use blocking_core::pool::{Job, JobNo, JobStep};
use std::sync::Arc;
use std::sync::atomic::{AtomicBool, AtomicU64, Ordering};

/// A job that waits so often, and is done then.
#[derive(Clone, Copy, Default)]
pub(crate) struct JobPlan {
    pub client: u32,
    pub waits: u64,
    /// Where each of its steps stands.
    pub stop: Stop,
    /// Where it stands when it is dropped.
    pub dropping: Stop,
    /// Whether its first step marks it.
    pub marks_itself: bool,
}

/// What is seen of a job.
#[derive(Drop)]
pub(crate) struct JobTrack {
    steps: AtomicU64,
    is_marked: AtomicBool,
    begun_drops: AtomicU64,
    drops: AtomicU64,
}

impl JobTrack {
    pub(crate) fn new() -> JobTrack {
        JobTrack {
            steps: AtomicU64::new(0),
            is_marked: AtomicBool::new(false),
            begun_drops: AtomicU64::new(0),
            drops: AtomicU64::new(0),
        }
    }

    pub(crate) fn steps(&self) -> u64 {
        self.steps.load(Ordering::SeqCst)
    }

    pub(crate) fn drops(&self) -> u64 {
        self.drops.load(Ordering::SeqCst)
    }

    pub(crate) fn begun_drops(&self) -> u64 {
        self.begun_drops.load(Ordering::SeqCst)
    }

    pub(crate) fn mark(&self) {
        self.is_marked.store(true, Ordering::SeqCst);
    }
}

/// The job.
pub(crate) struct Waiter {
    plan: JobPlan,
    left: u64,
    track: Arc<JobTrack>,
    gates: Arc<Gates>,
}

impl Waiter {
    pub(crate) fn new(plan: JobPlan, track: Arc<JobTrack>, gates: Arc<Gates>) -> Waiter {
        Waiter {
            left: plan.waits,
            plan,
            track,
            gates,
        }
    }
}

impl Drop for Waiter {
    fn drop(self) {
        let Waiter {
            plan,
            left: _,
            track,
            gates,
        } = self;
        track.begun_drops.fetch_add(1, Ordering::SeqCst);
        gates.pass(plan.dropping);
        track.drops.fetch_add(1, Ordering::SeqCst);
    }
}

impl Job for Waiter {
    // Another thread may set the mark at any time.
    ghost may_answer = { λ _ _. Unit {0} };

    fn step(&mut self, _me: JobNo) -> JobStep {
        if self.plan.marks_itself {
            self.track.mark();
        }
        self.track.steps.fetch_add(1, Ordering::SeqCst);
        self.gates.pass(self.plan.stop);
        if self.left == 0 {
            return JobStep::Done;
        }
        self.left -= 1;
        JobStep::Waiting
    }

    fn abandoned(&self) -> bool {
        self.track.is_marked.load(Ordering::SeqCst)
    }
}
