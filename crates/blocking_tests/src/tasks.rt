//! Calls in sets and in pairs.
use crate::walker::bytes_in;
use blocking::{Call, CallJob, Carries, Executor, Host, Job, Runtime, unblock};
use blocking_anytime::{CallSet, FusedTask};
use futures::StreamExt;
use futures::executor::block_on;
use futures::future::join;
use futures::task::Poll;
use futures::test::MockTask;
use std::random::RandomSource;
use std::test::Fail;
use std::{env, fs, io};

// Doubles a number.
#[derive(Drop)]
struct Double(u32);

impl Call for Double {
    type Out = u64;

    ghost use Rattle.std.specs.Prelude.{◌≡◌, ◌*◌, ◌<◌, ◌^◌};

    ghost may_give = { λ out. out < 2 ^ 33 };

    fn call(self) -> u64 {
        u64::from(self.0) * 2
    }
}

type Doublers<H> = Executor<CallJob<Double, H>, H>;

fn pool<H: Host>(rt: H) -> io::Result<Doublers<H>> {
    Ok(Executor::new(rt, Some("3"))?)
}

// Doubles the numbers below eight, and whatever comes below 50 once more, in a set. How many answers came, and their sum.
fn in_a_set<J: Job + Carries<CallJob<Double, H>>, H: Runtime + RandomSource>(
    rt: H,
    executor: &Executor<J, H>,
) -> io::Result<(u32, u64)> {
    let mut calls = CallSet::new(rt.alloc())?;
    for number in 0..8u32 {
        calls.push(unblock(executor, Double(number))?)?;
    }
    let (mut count, mut sum) = (0u32, 0u64);
    for _ in rt.forever() {
        let Some(doubled) = block_on(&rt, calls.next())? else {
            break;
        };
        count = count.saturating_add(1);
        sum = sum.saturating_add(doubled);
        if doubled == 14 {
            calls.push(unblock(executor, Double(100))?)?;
        }
    }
    Ok((count, sum))
}

#[test]
fn answers_come_of_a_set_that_grows(rt: HostRuntime) -> Result<(), Fail> {
    let pool = pool(rt)?;
    assert_eq!(rt; in_a_set(rt, &pool)?, (9, 256));
    Ok(())
}

// (a pair polls each task to its answer and not again, so plain ones are enough)
fn in_a_pair<J: Job + Carries<CallJob<Double, H>>, H: Runtime + RandomSource>(
    rt: H,
    executor: &Executor<J, H>,
) -> io::Result<(u64, u64)> {
    let first = unblock(executor, Double(4))?;
    let second = unblock(executor, Double(5))?;
    block_on(&rt, join(first, second))
}

// The same of tasks that may be polled at any time.
fn fused_in_a_pair<J: Job + Carries<CallJob<Double, H>>, H: Runtime + RandomSource>(
    rt: H,
    executor: &Executor<J, H>,
) -> io::Result<(u64, u64)> {
    let first = FusedTask::new(unblock(executor, Double(4))?);
    let second = FusedTask::new(unblock(executor, Double(5))?);
    block_on(&rt, join(first, second))
}

#[test]
fn answers_come_in_a_pair(rt: HostRuntime) -> Result<(), Fail> {
    let pool = pool(rt)?;
    assert_eq!(rt; in_a_pair(rt, &pool)?, (8, 10));
    assert_eq!(rt; fused_in_a_pair(rt, &pool)?, (8, 10));
    Ok(())
}

// Awaits an answer, and polls once more: the answer, whether that poll waits and whether it woke its own task, and whether a task is left.
fn polled_behind<J: Job + Carries<CallJob<Double, H>>, H: Runtime + RandomSource>(
    rt: H,
    executor: &Executor<J, H>,
) -> io::Result<(u64, bool, bool, bool)> {
    let mut fused = FusedTask::new(unblock(executor, Double(6))?);
    let answer = block_on(&rt, &mut fused)?;
    let mock = MockTask::new(&rt)?;
    let waits = matches!(mock.poll(&mut fused), Poll::Pending) && fused.is_taken();
    let is_woken = mock.is_woken();
    Ok((answer, waits, is_woken, fused.into_task().is_some()))
}

#[test]
fn a_poll_behind_the_answer_waits(rt: HostRuntime) -> Result<(), Fail> {
    let pool = pool(rt)?;
    assert_eq!(rt; polled_behind(rt, &pool)?, (12, true, false, false));
    Ok(())
}

// Takes the task back before it is polled, and awaits it.
fn taken_back<J: Job + Carries<CallJob<Double, H>>, H: Runtime + RandomSource>(
    rt: H,
    executor: &Executor<J, H>,
) -> io::Result<u64> {
    let fused = FusedTask::new(unblock(executor, Double(7))?);
    match fused.into_task() {
        Some(task) => block_on(&rt, task),
        None => Ok(0),
    }
}

#[test]
fn a_task_that_gave_no_answer_comes_back(rt: HostRuntime) -> Result<(), Fail> {
    let pool = pool(rt)?;
    assert_eq!(rt; taken_back(rt, &pool)?, 14);
    Ok(())
}

#[test]
fn a_walk_through_a_tree_meets_each_directory(rt: HostRuntime) -> Result<(), Fail> {
    let root = env::temp_dir(&rt)?.join(rt.alloc(), "furuvaite-walker")?;
    let (upper, deep) = (
        root.join(rt.alloc(), "spruces")?,
        root.join(rt.alloc(), "spruces/firs")?,
    );
    fs::create_dir_all(&rt, &deep)?;
    fs::write(&rt, root.join(rt.alloc(), "oaks")?, "oaks")?;
    fs::write(&rt, upper.join(rt.alloc(), "pines")?, "pines")?;
    fs::write(&rt, deep.join(rt.alloc(), "larches")?, "larches")?;
    let folders = [
        fs::metadata(&rt, &upper)?.len(),
        fs::metadata(&rt, &deep)?.len(),
    ];
    let bytes = bytes_in(rt, rt, root.to_path_buf(rt.alloc())?)?;
    fs::remove_dir_all(&rt, &root)?;
    assert_eq!(rt;
        folders
            .into_iter()
            .fold(bytes, |left, len| left.saturating_sub(len)),
        16
    );
    Ok(())
}
