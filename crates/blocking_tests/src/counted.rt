//! Four threads use one executor at once, and find its counts in agreement under each lock.
use crate::visit::LOOKS;
use blocking::{CallJob, Counts, Executor, Host, Runtime, Task, set_max_blocking_threads, unblock};
use blocking_core::pool::{Carries, Job};
use blocking_core::task::Call;
use futures::executor::block_on;
use std::io;
use std::io::ErrorKind;
use std::random::RandomSource;
use std::sync::Arc;
use std::sync::atomic::{AtomicU64, Ordering};
use std::test::Fail;
use std::thread::yield_now;

const USERS: u64 = 4;

// How many calls each of the threads adds.
const CALLS: u64 = 2_000;

// Counts itself.
#[derive(Drop)]
struct Tick(Arc<AtomicU64>);

impl Call for Tick {
    type Out = ();

    ghost may_give = { λ _. Unit {0} };

    fn call(self) {
        let _ = self.0.fetch_add(1, Ordering::SeqCst);
    }
}

// One of the threads: a call on an executor of its own.
#[derive(Drop)]
struct User<J: Job, H: Runtime> {
    ticks: Executor<J, H>,
    made: Arc<AtomicU64>,
}

impl<J: Job + Carries<CallJob<Tick, H>>, H: Runtime> Call for User<J, H> {
    type Out = bool;

    ghost may_give = { λ _. Unit {0} };

    // Answers whether the counts agreed each time, and told of a worker.
    fn call(self) -> bool {
        let mut has_workers = false;
        for n in 0..CALLS {
            if !adds(&self.ticks, &self.made) {
                return false;
            }
            set_max_blocking_threads(&self.ticks, 1 + (n % 8) as usize);
            let counts = self.ticks.counts();
            if !agree(counts) {
                return false;
            }
            has_workers = has_workers || counts.workers > 0;
        }
        has_workers
    }
}

type Ticks<H> = CallJob<Tick, H>;

type Users<H> = Executor<CallJob<User<Ticks<H>, H>, H>, H>;

// Whether a call is added that nobody awaits.
fn adds<J: Job + Carries<CallJob<Tick, H>>, H: Runtime>(
    ticks: &Executor<J, H>,
    made: &Arc<AtomicU64>,
) -> bool {
    let Ok(made) = Arc::try_clone(made) else {
        return false;
    };
    match unblock(ticks, Tick(made)) {
        Ok(task) => {
            task.detach();
            true
        }
        Err(_) => false,
    }
}

// Whether each worker is idle or runs a job, and who hasn't arrived is idle.
fn agree(counts: Counts) -> bool {
    counts.arriving <= counts.idle
        && counts.workers.checked_sub(counts.idle) == Some(counts.running)
}

// Whether all jobs come to be over, with nobody left at work.
fn come_to_rest<J: Job, H: Runtime>(ticks: &Executor<J, H>) -> bool {
    for _ in 0..LOOKS {
        let counts = ticks.counts();
        if counts.queued == 0 && counts.running == 0 {
            return agree(counts);
        }
        yield_now();
    }
    false
}

// Begins the calls of all users.
fn begin<H: Runtime + RandomSource>(
    rt: &H,
    ticks: &Executor<Ticks<H>, H>,
    users: &Users<H>,
    made: &Arc<AtomicU64>,
) -> io::Result<Vec<Task<User<Ticks<H>, H>, H>>> {
    let mut tasks = Vec::new(rt.alloc());
    for _ in 0..USERS {
        let made = Arc::try_clone(made)?;
        let ticks = ticks.try_clone()?;
        match unblock(users, User { ticks, made }) {
            Ok(task) => tasks.push(task)?,
            Err(_) => return Err(io::Error::from(ErrorKind::Other)),
        }
    }
    Ok(tasks)
}

// How many users there were for whom the counts agreed.
fn users_agree<J: Job + Carries<CallJob<Tick, H>>, H: Runtime + RandomSource>(
    rt: &H,
    tasks: Vec<Task<User<J, H>, H>>,
) -> io::Result<u64> {
    let mut users = 0u64;
    for task in tasks {
        if !task.is_taken() && block_on(rt, task)? {
            users = users.saturating_add(1);
        }
    }
    Ok(users)
}

// For how many users the counts agreed, and whether all jobs came to be over after them.
fn agree_over<H: Runtime + RandomSource>(
    rt: &H,
    ticks: &Executor<Ticks<H>, H>,
    users: &Users<H>,
    made: &Arc<AtomicU64>,
) -> io::Result<(u64, bool)> {
    let tasks = begin(rt, ticks, users, made)?;
    Ok((users_agree(rt, tasks)?, come_to_rest(ticks)))
}

// The same over pools of their own.
fn all_agree<H: Host>(rt: H, made: &Arc<AtomicU64>) -> Result<(u64, bool), Fail> {
    let ticks = Executor::<Ticks<H>, H>::new(rt, None)?;
    let users = Users::<H>::new(rt, Some("4"))?;
    Ok(agree_over(&rt, &ticks, &users, made)?)
}

#[test]
fn four_threads_find_the_counts_in_agreement(rt: HostRuntime) -> Result<(), Fail> {
    let made = Arc::new(rt.alloc(), AtomicU64::new(0))?;
    let (agreed, has_come_to_rest) = all_agree(rt, &made)?;
    assert_eq!(rt; agreed, USERS);
    assert!(rt; has_come_to_rest);
    assert_eq!(rt; made.load(Ordering::SeqCst), USERS * CALLS);
    Ok(())
}
