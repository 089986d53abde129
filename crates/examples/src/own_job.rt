//! A job of the program's own, which waits until it is woken.
use crate::host::Host;
use anyhow::Result;
use blocking::Executor;
use blocking_core::pool::{Job, JobNo, JobStep, WakeNote};
use futures::channel::oneshot;
use futures::channel::oneshot::Sender;
use futures::executor::block_on;

// It tells its number, waits for a wake, and then tells its number once more.
#[derive(Drop)]
struct Sleeper {
    asleep: Option<Sender<JobNo>>,
    awake: Option<Sender<JobNo>>,
}

impl Job for Sleeper {
    ghost use Rattle.std.specs.Prelude.{◌≡◌, false};

    // It never bears a mark.
    ghost may_answer = { λ _ answer. answer ≡ false };

    fn step(&mut self, me: JobNo) -> JobStep {
        if let Some(asleep) = self.asleep.take() {
            let _ = asleep.send(me);
            // Its worker is free until the wake.
            return JobStep::Waiting;
        }
        if let Some(awake) = self.awake.take() {
            let _ = awake.send(me);
        }
        JobStep::Done
    }

    fn abandoned(&self) -> bool {
        false
    }
}

/// The serial of a job that waited and was woken.
pub(crate) fn woken<H: Host>(rt: H) -> Result<u64> {
    let executor: Executor<Sleeper, H> = Executor::new(rt, Some("1"))?;
    wake_one(&rt, &executor)
}

fn wake_one<H: Host>(rt: &H, executor: &Executor<Sleeper, H>) -> Result<u64> {
    let (asleep, falls_asleep) = oneshot::channel(rt.alloc())?;
    let (awake, is_woken) = oneshot::channel(rt.alloc())?;
    executor.add(Sleeper {
        asleep: Some(asleep),
        awake: Some(awake),
    })?;
    let no = block_on(rt, falls_asleep)??;
    // A wake that comes before the step has ended isn't lost: the job goes back to the queue, and doesn't wait.
    let _ = executor.wake(WakeNote::new(no));
    Ok(block_on(rt, is_woken)??.serial())
}
