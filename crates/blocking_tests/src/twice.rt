//! Jobs that two threads wake at once: a parked one enters once, and goes on once.
use crate::visit::{comes, reaches};
use blocking::{CallJob, Executor, Host, Runtime, unblock};
use blocking_core::pool::{Job, JobNo, JobStep, WakeNote, Woke};
use blocking_core::task::Call;
use futures::executor::block_on;
use std::io;
use std::random::RandomSource;
use std::sync::Arc;
use std::sync::atomic::{AtomicBool, AtomicUsize, Ordering};
use std::test::Fail;

// How many jobs are parked.
const PARKED: usize = 2_000;

// What is seen of the jobs and of their wakes, and whether the job that stops may go on.
#[derive(Drop)]
struct Track {
    steps: AtomicUsize,
    drops: AtomicUsize,
    entered: AtomicUsize,
    marked: AtomicUsize,
    may_go_on: AtomicBool,
}

impl Track {
    fn new() -> Track {
        Track {
            steps: AtomicUsize::new(0),
            drops: AtomicUsize::new(0),
            entered: AtomicUsize::new(0),
            marked: AtomicUsize::new(0),
            may_go_on: AtomicBool::new(false),
        }
    }

    fn tell(&self, woke: Woke) {
        let count = match woke {
            Woke::Entered => &self.entered,
            Woke::Marked => &self.marked,
            Woke::Nothing => return,
        };
        let _ = count.fetch_add(1, Ordering::SeqCst);
    }

    // How many wakes put a job into the queue, and how many met one that runs.
    fn woke(&self) -> (usize, usize) {
        (
            self.entered.load(Ordering::SeqCst),
            self.marked.load(Ordering::SeqCst),
        )
    }

    // How many steps the jobs have taken once so many are over.
    fn steps_until_over(&self, jobs: usize) -> Option<usize> {
        if reaches(&self.drops, jobs) {
            Some(self.steps.load(Ordering::SeqCst))
        } else {
            None
        }
    }
}

// A job that waits once, where it is to stops before, and then is done.
struct Waiter {
    track: Arc<Track>,
    stops: bool,
    has_waited: bool,
}

impl Job for Waiter {
    ghost use Rattle.std.specs.Prelude.{◌≡◌, false};

    ghost may_answer = { λ _ answer. answer ≡ false };

    fn step(&mut self, _me: JobNo) -> JobStep {
        let _ = self.track.steps.fetch_add(1, Ordering::SeqCst);
        if self.has_waited {
            return JobStep::Done;
        }
        self.has_waited = true;
        if self.stops {
            let _ = comes(&self.track.may_go_on);
        }
        JobStep::Waiting
    }

    fn abandoned(&self) -> bool {
        false
    }
}

impl Drop for Waiter {
    fn drop(self) {
        let Waiter {
            track,
            stops: _,
            has_waited: _,
        } = self;
        let _ = track.drops.fetch_add(1, Ordering::SeqCst);
    }
}

// One of the two threads: a call that wakes each job when the other does.
#[derive(Drop)]
struct Wakes<J: Job, H: Runtime> {
    jobs: Executor<J, H>,
    numbers: Arc<Vec<JobNo>>,
    track: Arc<Track>,
    // How many jobs each has come to.
    own: Arc<AtomicUsize>,
    other: Arc<AtomicUsize>,
}

impl<J: Job, H: Runtime> Call for Wakes<J, H> {
    type Out = bool;

    ghost may_give = { λ _. Unit {0} };

    // Answers whether the other came to each job.
    fn call(self) -> bool {
        for number in self.numbers.iter() {
            let came = self.own.fetch_add(1, Ordering::SeqCst);
            if !reaches(&self.other, came.saturating_add(1)) {
                return false;
            }
            self.track.tell(self.jobs.wake(WakeNote::new(*number)));
        }
        true
    }
}

// Adds the jobs, one by one, each once the one before has taken its step. The last one stops in it. (fewer where one is refused)
fn add_all<H: Runtime + RandomSource>(
    rt: H,
    jobs: &Executor<Waiter, H>,
    track: &Arc<Track>,
) -> io::Result<Arc<Vec<JobNo>>> {
    let mut numbers = Vec::new(rt.alloc());
    for place in 0..=PARKED {
        let job = Waiter {
            track: Arc::try_clone(track)?,
            stops: place == PARKED,
            has_waited: false,
        };
        if let Ok(entered) = jobs.add(job) {
            numbers.push(entered.number())?;
        }
        let _ = reaches(&track.steps, numbers.len());
    }
    Ok(Arc::new(rt.alloc(), numbers)?)
}

// Whether both threads come to wake all.
fn wake_all<H: Runtime + RandomSource>(
    rt: &H,
    threads: &Executor<CallJob<Wakes<Waiter, H>, H>, H>,
    first: Wakes<Waiter, H>,
    second: Wakes<Waiter, H>,
) -> io::Result<bool> {
    let (Ok(first), Ok(second)) = (unblock(threads, first), unblock(threads, second)) else {
        return Ok(false);
    };
    if first.is_taken() || second.is_taken() {
        return Ok(false);
    }
    Ok(block_on(rt, first)? && block_on(rt, second)?)
}

// The two threads' calls.
fn pair<J: Job, H: Runtime + RandomSource>(
    rt: H,
    jobs: &Executor<J, H>,
    numbers: &Arc<Vec<JobNo>>,
    track: &Arc<Track>,
) -> io::Result<(Wakes<J, H>, Wakes<J, H>)> {
    let one = Arc::new(rt.alloc(), AtomicUsize::new(0))?;
    let two = Arc::new(rt.alloc(), AtomicUsize::new(0))?;
    let first = Wakes {
        jobs: jobs.try_clone()?,
        numbers: Arc::try_clone(numbers)?,
        track: Arc::try_clone(track)?,
        own: Arc::try_clone(&one)?,
        other: Arc::try_clone(&two)?,
    };
    let second = Wakes {
        jobs: jobs.try_clone()?,
        numbers: Arc::try_clone(numbers)?,
        track: Arc::try_clone(track)?,
        own: two,
        other: one,
    };
    Ok((first, second))
}

// Whether each job is woken by both threads.
fn all_are_woken<H: Host>(
    rt: H,
    jobs: &Executor<Waiter, H>,
    track: &Arc<Track>,
) -> Result<bool, Fail> {
    let threads = Executor::<CallJob<Wakes<Waiter, H>, H>, H>::new(rt, Some("2"))?;
    let numbers = add_all(rt, jobs, track)?;
    let (first, second) = pair(rt, jobs, &numbers, track)?;
    Ok(wake_all(&rt, &threads, first, second)?)
}

// (the one worker is inside the job that stops, so that no parked one is taken meanwhile)
#[test]
fn two_threads_wake_each_job_at_once(rt: HostRuntime) -> Result<(), Fail> {
    let track = Arc::new(rt.alloc(), Track::new())?;
    let jobs = Executor::<Waiter, HostRuntime>::new(rt, Some("1"))?;
    assert!(rt; all_are_woken(rt, &jobs, &track)?);
    assert_eq!(rt; track.woke(), (PARKED, 2));
    assert_eq!(rt; jobs.counts().queued, PARKED);
    track.may_go_on.store(true, Ordering::SeqCst);
    assert_eq!(rt; track.steps_until_over(PARKED + 1), Some(2 * (PARKED + 1)));
    Ok(())
}
