//! An example: two ends of a pipe with a rule of one's own. What its sender owes of each item, its receiver may rely on.
#![tactic(auto)]

ghost use Rattle.std.specs.Prelude.{◌≡◌, IfOk};

use anyhow::Result;
use blocking::{Executor, Host, PlaceRule, RecvEnd, Runtime, SendEnd, link};
use blocking_core::pipe::{Received, RingStore, Sending};
use blocking_core::pool::{Job, JobNo, JobStep};
use futures::Future;
use futures::executor::block_on;
use futures::task::{Context, Poll};
use std::sync::Wait;

// The item at each place is the place's number, and there are ten.
struct Counting;

impl PlaceRule<u64> for Counting {
    ghost use Rattle.std.specs.Prelude.{◌≡◌};

    ghost holds = { λ place item. item ≡ place };

    ghost ended = { λ place. place ≡ 10 };
}

// Sends the numbers, one a step. A number of another place, or an end before the tenth, would be a compile error here.
#[derive(Drop)]
struct Counter<H: Runtime> {
    end: SendEnd<u64, Counting, RingStore, H>,
}

impl<H: Runtime> Job for Counter<H> {
    ghost use Rattle.std.specs.Prelude.{◌≡◌, false};

    ghost may_answer = { λ _ answer. answer ≡ false };

    fn step(&mut self, me: JobNo) -> JobStep {
        let number = self.end.sent();
        if number == 10 {
            // (a waker that is let go wakes)
            drop(self.end.close());
            return JobStep::Done;
        }
        match self.end.send(me, number) {
            Sending::Sent(_) => JobStep::Again,
            Sending::Parked(_) => JobStep::Waiting,
            Sending::Shut(_) => JobStep::Done,
        }
    }

    fn abandoned(&self) -> bool {
        false
    }
}

// Receives to the end, and gives how many numbers came.
#[derive(Drop)]
struct Counted<J: Job, H: Runtime> {
    rt: H,
    executor: Executor<J, H>,
    end: RecvEnd<u64, Counting, RingStore, H>,
}

impl<J: Job, H: Runtime> Future for Counted<J, H> {
    ghost use Rattle.std.specs.Prelude.{◌≡◌};

    type Output = u64;

    ghost needs = { λ counted source. source ≡ counted.end.source.id };

    ghost gives = { λ _ count. count ≡ 10 };

    fn poll(&mut self, cx: &mut Context<'_>) -> Poll<u64> {
        let rt = self.rt;
        for _ in rt.forever() {
            let place = self.end.received();
            match self.end.receive_or_seat(cx) {
                Received::Got(number, note) => {
                    // (known by the rule, whatever the two threads did)
                    prove!(number == place);
                    if let Some(note) = note {
                        let _ = self.executor.wake(note);
                    }
                }
                Received::Ended => return Poll::Ready(place),
                Received::Waits(_) => return Poll::Pending,
            }
        }
        unreachable!()
    }
}

/// How many numbers a job on a worker sends and this thread receives, through a pipe that holds two.
pub fn received<H: Host>(rt: H) -> Result<u64>
    ensures { IfOk result (λ count. count ≡ 10) }
{
    let executor: Executor<Counter<H>, H> = Executor::new(rt, Some("1"))?;
    let (theirs, end) = link(rt, 2)?;
    let _job = executor.add(Counter { end: theirs })?;
    Ok(block_on(&rt, Counted { rt, executor, end })?)
}
