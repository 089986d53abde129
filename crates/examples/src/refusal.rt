//! What a refusal gives back.
use crate::host::Host;
use anyhow::Result;
use blocking::{CallJob, Executor, unblock};
use blocking_core::pool::{Carries, Job, JobNo, JobStep, Pool, Refused, StartRefused, Starter};
use blocking_core::task::Call;
use futures::executor::block_on;
use std::io;

// A starter whose first start is refused, as where a system has no thread to spare.
#[derive(Drop)]
struct LateStarter {
    has_refused: bool,
}

impl Starter for LateStarter {
    ghost use Rattle.std.specs.Prelude.{if◌then◌else◌};

    ghost refusals = { λ starter. if starter.has_refused then 1 else 0 };

    ghost may_answer = { λ _ _ _. Unit {0} };

    fn start(&mut self, _number: u64) -> Result<(), StartRefused> {
        if self.has_refused {
            return Ok(());
        }
        self.has_refused = true;
        Err(StartRefused)
    }
}

// A job that is known by a number of the program's own.
#[derive(Drop)]
struct Order(u32);

impl Job for Order {
    ghost use Rattle.std.specs.Prelude.{◌≡◌, false};

    ghost may_answer = { λ _ answer. answer ≡ false };

    fn step(&mut self, _me: JobNo) -> JobStep {
        JobStep::Done
    }

    fn abandoned(&self) -> bool {
        false
    }
}

pub(crate) fn show<H: Host>(rt: H) -> Result<()> {
    // A pool as a value has no thread: its starter says which workers there are.
    let mut pool: Pool<Order> = Pool::new(rt.alloc(), None);
    let mut starter = LateStarter { has_refused: false };
    add(&rt, &mut pool, &mut starter, Order(7))
}

// Adds an order, and once more where it comes back.
fn add<H: Host>(
    rt: &H,
    pool: &mut Pool<Order>,
    starter: &mut LateStarter,
    order: Order,
) -> Result<()> {
    let Err(Refused { back, why }) = pool.add(order, starter) else {
        return Ok(());
    };
    let name = back.0;
    let no = pool.add(back, starter)?;
    println!(rt;
        "order {name} came back ({why}), and is now job {}",
        no.serial()
    )?;
    Ok(())
}

/// The answer of a call. Where the call is refused, this thread makes it.
pub(crate) fn answer<F, J, H>(rt: &H, executor: &Executor<J, H>, call: F) -> io::Result<F::Out>
where
    F: Call<Out: Drop> + Drop,
    J: Job + Carries<CallJob<F, H>>,
    H: Host,
{
    match unblock(executor, call) {
        Ok(task) => block_on(rt, task),
        Err(Refused { back, why: _ }) => Ok(back.call()),
    }
}
