//! Calls of a script, and what is seen of them.
use crate::gates::{Gates, Stop};
use blocking_core::task::Call;
use std::sync::Arc;
use std::sync::atomic::{AtomicU64, AtomicUsize, Ordering};
use std::thread;
use std::time::{Clock, Duration};

/// The calls that are inside at once, and how many there may be.
#[derive(Drop)]
pub(crate) struct Inside {
    count: AtomicUsize,
    // The most that were.
    seen: AtomicUsize,
    // How many may be: the greatest limit that held since none was.
    most: AtomicUsize,
    // How many were too many.
    too_many: AtomicUsize,
}

impl Inside {
    pub(crate) fn new() -> Inside {
        Inside {
            count: AtomicUsize::new(0),
            seen: AtomicUsize::new(0),
            most: AtomicUsize::new(usize::MAX),
            too_many: AtomicUsize::new(0),
        }
    }

    /// A limit is about to be set. Unless the pool rests, the greater of both holds.
    pub(crate) fn allow(&self, most: usize, is_at_rest: bool) {
        if is_at_rest {
            self.most.store(most, Ordering::SeqCst);
        } else {
            self.most.fetch_max(most, Ordering::SeqCst);
        }
    }

    /// The most that were inside at once.
    pub(crate) fn seen(&self) -> usize {
        self.seen.load(Ordering::SeqCst)
    }

    pub(crate) fn too_many(&self) -> usize {
        self.too_many.load(Ordering::SeqCst)
    }

    fn enter(&self) {
        let inside = self.count.fetch_add(1, Ordering::SeqCst).saturating_add(1);
        self.seen.fetch_max(inside, Ordering::SeqCst);
        if inside > self.most.load(Ordering::SeqCst) {
            self.too_many.fetch_add(1, Ordering::SeqCst);
        }
    }

    fn leave(&self) {
        self.count.fetch_sub(1, Ordering::SeqCst);
    }
}

/// The counts of a call: its runs and its drops.
#[derive(Drop)]
pub(crate) struct CallTrack {
    made: AtomicU64,
    dropped: AtomicU64,
}

impl CallTrack {
    pub(crate) fn new() -> CallTrack {
        CallTrack {
            made: AtomicU64::new(0),
            dropped: AtomicU64::new(0),
        }
    }

    /// How often it was made.
    pub(crate) fn made(&self) -> u64 {
        self.made.load(Ordering::SeqCst)
    }

    /// How often it was dropped unmade, or its answer was dropped.
    pub(crate) fn dropped(&self) -> u64 {
        self.dropped.load(Ordering::SeqCst)
    }
}

/// A call as a script plans it.
#[derive(Clone, Copy, Default)]
pub(crate) struct CallPlan {
    pub client: u32,
    pub answer: u64,
    /// How many milliseconds it takes.
    pub takes: u64,
    pub stop: Stop,
    /// The gate at which the drop of an unmade call waits.
    pub dropping: Stop,
    /// The gate at which the drop of its answer waits.
    pub answer_dropping: Stop,
}

/// What the drop of a call or of an answer does.
#[derive(Drop)]
struct Dropping {
    track: Arc<CallTrack>,
    gates: Arc<Gates>,
    stop: Stop,
}

impl Dropping {
    fn happen(self) {
        self.gates.pass(self.stop);
        self.track.dropped.fetch_add(1, Ordering::SeqCst);
    }
}

/// The answer of a call.
pub(crate) struct Answered {
    number: u64,
    dropping: Dropping,
}

impl Answered {
    pub(crate) fn number(&self) -> u64 {
        self.number
    }
}

impl Drop for Answered {
    fn drop(self) {
        let Answered {
            number: _,
            dropping,
        } = self;
        dropping.happen();
    }
}

/// The call.
pub(crate) struct Scripted<R: Drop> {
    rt: R,
    plan: CallPlan,
    inside: Option<Arc<Inside>>,
    dropping: Dropping,
}

impl<R: Drop> Scripted<R> {
    pub(crate) fn new(
        rt: R,
        plan: CallPlan,
        track: Arc<CallTrack>,
        gates: Arc<Gates>,
        inside: Option<Arc<Inside>>,
    ) -> Scripted<R> {
        let dropping = Dropping {
            track,
            gates,
            stop: plan.dropping,
        };
        Scripted {
            rt,
            plan,
            inside,
            dropping,
        }
    }
}

impl<R: Drop> Drop for Scripted<R> {
    fn drop(self) {
        let Scripted {
            rt: _,
            plan: _,
            inside: _,
            dropping,
        } = self;
        dropping.happen();
    }
}

impl<R: Clock + Drop> Call for Scripted<R> {
    type Out = Answered;

    ghost may_give = { λ _. Unit {0} };

    fn call(self) -> Answered {
        let Scripted {
            rt,
            plan,
            inside,
            mut dropping,
        } = self;
        dropping.track.made.fetch_add(1, Ordering::SeqCst);
        if let Some(inside) = &inside {
            inside.enter();
        }
        if plan.takes > 0 {
            thread::sleep(&rt, Duration::from_millis(plan.takes));
        }
        dropping.gates.pass(plan.stop);
        if let Some(inside) = &inside {
            inside.leave();
        }
        dropping.stop = plan.answer_dropping;
        Answered {
            number: plan.answer,
            dropping,
        }
    }
}
