//! Bytes that the test's thread fills in, and that a job on a worker takes.
use blocking::{Executor, FillEnd, Host, PeekEnd, PlaceRule, Runtime, link_in};
use blocking_core::pipe::{Filled, FlatStore, Peeked};
use blocking_core::pool::{Job, JobNo, JobStep, WakeNote};
use futures::Future;
use futures::channel::oneshot;
use futures::executor::block_on;
use futures::task::{Context, Poll};
use std::sync::Wait;
use std::test::Fail;

const COUNT: u64 = 100_000;

// Byte n is n as u8, and there are a hundred thousand.
struct Cycling;

impl PlaceRule<u8> for Cycling {
    ghost use Rattle.std.specs.Prelude.{◌≡◌, ◌%◌};

    ghost holds = { λ place byte. byte ≡ place % 256 };

    ghost ended = { λ place. place ≡ 100000 };
}

// Fills in all bytes, and gives how many were taken.
#[derive(Drop)]
struct Filling<J: Job, H: Runtime> {
    rt: H,
    executor: Executor<J, H>,
    end: FillEnd<u8, Cycling, FlatStore, H>,
}

impl<J: Job, H: Runtime> Filling<J, H> {
    fn wake(&self, note: Option<WakeNote>) {
        if let Some(note) = note {
            let _ = self.executor.wake(note);
        }
    }
}

impl<J: Job, H: Runtime> Future for Filling<J, H> {
    ghost use Rattle.std.specs.Prelude.{◌≡◌};

    type Output = u64;

    ghost needs = { λ filling source. source ≡ filling.end.source.id };

    fn poll(&mut self, cx: &mut Context<'_>) -> Poll<u64> {
        let rt = self.rt;
        for _ in rt.forever() {
            let place = self.end.sent();
            if place == COUNT {
                let note = self.end.close();
                self.wake(note);
                return Poll::Ready(place);
            }
            let next = [(place % 256) as u8];
            match self.end.fill_or_seat(cx, &next) {
                Filled::Took(_, note) => self.wake(note),
                Filled::Shut => return Poll::Ready(place),
                Filled::Waits(_) => return Poll::Pending,
            }
        }
        unreachable!()
    }
}

// Takes bytes until the end, and tells how many there were, each of which was that of its place.
#[derive(Drop)]
struct Taker<H: Runtime> {
    end: PeekEnd<u8, Cycling, FlatStore, H>,
    told: Option<oneshot::Sender<u64>>,
}

// Whether these are the bytes from this place on.
fn are_next(place: u64, bytes: &[u8]) -> bool {
    let mut next = (place % 256) as u8;
    for byte in bytes {
        if *byte != next {
            return false;
        }
        next = next.wrapping_add(1);
    }
    true
}

impl<H: Runtime> Job for Taker<H> {
    ghost use Rattle.std.specs.Prelude.{◌≡◌, false};

    ghost may_answer = { λ _ answer. answer ≡ false };

    // (a waker that is let go wakes)
    fn step(&mut self, me: JobNo) -> JobStep {
        let place = self.end.received();
        let mut bytes = [0u8; 2];
        match self.end.peek_or_seat(me, &mut bytes) {
            Peeked::Some(count) => {
                let are_next = are_next(place, &bytes[..count]);
                drop(self.end.consume(count));
                if are_next {
                    JobStep::Again
                } else {
                    JobStep::Done
                }
            }
            Peeked::Parked => JobStep::Waiting,
            Peeked::Drained => {
                if let Some(told) = self.told.take() {
                    let _ = told.send(place);
                }
                JobStep::Done
            }
        }
    }

    fn abandoned(&self) -> bool {
        false
    }
}

// How many bytes are filled in, and how many are taken in order.
fn cross<H: Host>(rt: H) -> Result<(u64, u64), Fail> {
    let executor: Executor<Taker<H>, H> = Executor::new(rt, Some("1"))?;
    let (told, tells) = oneshot::channel(rt.alloc())?;
    let (end, theirs) = link_in(rt, 2)?;
    let _job = executor.add(Taker {
        end: theirs,
        told: Some(told),
    })?;
    let filled = block_on(&rt, Filling { rt, executor, end })?;
    Ok((filled, block_on(&rt, tells)??))
}

#[test]
fn bytes_come_in_order(rt: HostRuntime) -> Result<(), Fail> {
    assert_eq!(rt; cross(rt)?, (COUNT, COUNT));
    Ok(())
}
