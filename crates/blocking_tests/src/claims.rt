//! Two jobs that wait for each other, woken at once where one worker looks for a job and the other sleeps: each goes on at once.
use crate::visit::{LOOKS, reaches};
use blocking::{Executor, Host, Runtime};
use blocking_core::pool::{Job, JobNo, JobStep, WakeNote, Woke};
use std::hint::spin_loop;
use std::io;
use std::sync::Arc;
use std::sync::atomic::{AtomicUsize, Ordering};
use std::test::Fail;
use std::time::{Duration, Instant};

// How often they are woken.
const ROUNDS: u32 = 500;

// How long one job stays after they have met, so that the other's worker falls asleep meanwhile: for some 50 microseconds.
const TURNS: u32 = 2_000;

// How often a test looks for as long as others do, where it doesn't yield.
const LONG: u32 = 20;

// How many milliseconds a round lasts at least whose second job waits until its worker's wait times out, which is after 500 milliseconds.
const LATE: u64 = 450;

// How many rounds of a machine with much else to do may last so long.
const MAY_BE_LATE: u32 = 20;

// One of two jobs. Each step waits until the other has come as far, and then the job waits for a wake.
#[derive(Drop)]
struct Meet {
    own: Arc<AtomicUsize>,
    other: Arc<AtomicUsize>,
    stays: bool,
}

impl Job for Meet {
    ghost use Rattle.std.specs.Prelude.{◌≡◌, false};

    ghost may_answer = { λ _ answer. answer ≡ false };

    fn step(&mut self, _me: JobNo) -> JobStep {
        let before = self.own.fetch_add(1, Ordering::SeqCst);
        let _ = reaches(&self.other, before.saturating_add(1));
        if self.stays {
            for _ in 0..TURNS {
                spin_loop();
            }
        }
        JobStep::Waiting
    }

    fn abandoned(&self) -> bool {
        false
    }
}

// Adds both jobs, which meet for the first time.
fn add_both<H: Host>(rt: H, executor: &Executor<Meet, H>) -> io::Result<Option<(JobNo, JobNo)>> {
    let one = Arc::new(rt.alloc(), AtomicUsize::new(0))?;
    let two = Arc::new(rt.alloc(), AtomicUsize::new(0))?;
    let first = Meet {
        own: Arc::try_clone(&one)?,
        other: Arc::try_clone(&two)?,
        stays: true,
    };
    let second = Meet {
        own: two,
        other: one,
        stays: false,
    };
    let Ok(first) = executor.add(first) else {
        return Ok(None);
    };
    let Ok(second) = executor.add(second) else {
        return Ok(None);
    };
    Ok(Some((first.number(), second.number())))
}

// Whether both jobs come to wait. The worker that ran the last looks for a job then, for a moment.
fn come_to_wait<J: Job, H: Runtime>(executor: &Executor<J, H>) -> bool {
    for _ in 0..LOOKS {
        let counts = executor.counts();
        if counts.queued == 0 && counts.running == 0 {
            return true;
        }
    }
    false
}

// The same, on a machine with much else to do.
fn come_to_wait_at_last<J: Job, H: Runtime>(executor: &Executor<J, H>) -> bool {
    for _ in 0..LONG {
        if come_to_wait(executor) {
            return true;
        }
    }
    false
}

// Whether both jobs are woken as soon as both wait.
fn are_woken<J: Job, H: Runtime>(executor: &Executor<J, H>, jobs: (JobNo, JobNo)) -> bool {
    if !come_to_wait_at_last(executor) {
        return false;
    }
    let first = executor.wake(WakeNote::new(jobs.0));
    let second = executor.wake(WakeNote::new(jobs.1));
    (first, second) == (Woke::Entered, Woke::Entered)
}

// How many of all rounds last long; None where one doesn't end.
fn late_rounds<H: Host>(rt: H, executor: &Executor<Meet, H>) -> io::Result<Option<u32>> {
    let Some(jobs) = add_both(rt, executor)? else {
        return Ok(None);
    };
    let mut late = 0u32;
    let mut before = Instant::now(&rt)?;
    for _ in 0..ROUNDS {
        if !are_woken(executor, jobs) {
            return Ok(None);
        }
        // (the clock is read where both have just been woken, and not between their wait and that)
        if before.elapsed(&rt)? >= Duration::from_millis(LATE) {
            late = late.saturating_add(1);
        }
        before = Instant::now(&rt)?;
    }
    Ok(if come_to_wait_at_last(executor) {
        Some(late)
    } else {
        None
    })
}

// (each time that nobody is rung for the second job, its worker sleeps for half a second; else all takes some 100 milliseconds)
#[test]
fn worker_that_looks_is_claimed_once(rt: HostRuntime) -> Result<(), Fail> {
    let executor = Executor::<Meet, HostRuntime>::new(rt, Some("2"))?;
    let late = late_rounds(rt, &executor)?;
    assert!(rt; late.is_some_and(|late| late < MAY_BE_LATE));
    Ok(())
}
