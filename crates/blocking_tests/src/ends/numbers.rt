//! Numbers that a job on a worker sends, and that the test's thread receives.
use blocking::{Executor, Host, PlaceRule, RecvEnd, Runtime, SendEnd, link};
use blocking_core::pipe::{Received, RingStore, Sending};
use blocking_core::pool::{Job, JobNo, JobStep};
use futures::Future;
use futures::executor::block_on;
use futures::task::{Context, Poll};
use std::sync::Wait;
use std::test::Fail;

const COUNT: u64 = 100_000;

// The item at each place is the place's number, and there are a hundred thousand.
struct Counting;

impl PlaceRule<u64> for Counting {
    ghost use Rattle.std.specs.Prelude.{◌≡◌};

    ghost holds = { λ place item. item ≡ place };

    ghost ended = { λ place. place ≡ 100000 };
}

// Sends all numbers, one a step.
#[derive(Drop)]
struct Sender<H: Runtime> {
    end: SendEnd<u64, Counting, RingStore, H>,
}

impl<H: Runtime> Job for Sender<H> {
    ghost use Rattle.std.specs.Prelude.{◌≡◌, false};

    ghost may_answer = { λ _ answer. answer ≡ false };

    // (a waker that is let go wakes)
    fn step(&mut self, me: JobNo) -> JobStep {
        let number = self.end.sent();
        if number == COUNT {
            drop(self.end.close());
            return JobStep::Done;
        }
        match self.end.send(me, number) {
            Sending::Sent(_) => JobStep::Again,
            Sending::Parked(_) => JobStep::Waiting,
            Sending::Shut(_) => JobStep::Done,
        }
    }

    fn abandoned(&self) -> bool {
        false
    }
}

// Receives until the end, and gives how many numbers came, each of which was that of its place. (else none)
#[derive(Drop)]
struct InOrder<J: Job, H: Runtime> {
    rt: H,
    executor: Executor<J, H>,
    end: RecvEnd<u64, Counting, RingStore, H>,
}

impl<J: Job, H: Runtime> Future for InOrder<J, H> {
    ghost use Rattle.std.specs.Prelude.{◌≡◌};

    type Output = Option<u64>;

    ghost needs = { λ numbers source. source ≡ numbers.end.source.id };

    fn poll(&mut self, cx: &mut Context<'_>) -> Poll<Option<u64>> {
        let rt = self.rt;
        for _ in rt.forever() {
            let place = self.end.received();
            match self.end.receive_or_seat(cx) {
                Received::Got(number, note) => {
                    if let Some(note) = note {
                        let _ = self.executor.wake(note);
                    }
                    if number != place {
                        return Poll::Ready(None);
                    }
                }
                Received::Ended => return Poll::Ready(Some(place)),
                Received::Waits(_) => return Poll::Pending,
            }
        }
        unreachable!()
    }
}

// How many numbers come in order, through so small a pipe that both sides wait often.
fn come_in_order<H: Host>(rt: H) -> Result<Option<u64>, Fail> {
    let executor: Executor<Sender<H>, H> = Executor::new(rt, Some("1"))?;
    let (theirs, end) = link(rt, 2)?;
    let _job = executor.add(Sender { end: theirs })?;
    Ok(block_on(&rt, InOrder { rt, executor, end })?)
}

#[test]
fn numbers_come_in_order(rt: HostRuntime) -> Result<(), Fail> {
    assert_eq!(rt; come_in_order(rt)?, Some(COUNT));
    Ok(())
}
