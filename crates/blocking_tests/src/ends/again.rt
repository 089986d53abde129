//! A pipe of pieces whose owner is lent what it drains, and its memory, which serves a second pipe: step by step on one thread.
ghost use Rattle.futures.specs.Task.{Keeps};

use crate::nothing::{Nothing, is_woken};
use blocking::{
    AnyPlace, DrainEnd, Executor, Host, LendingMemory, LendingStore, PieceMemory, Runtime, SendEnd,
    link_drain, link_in_over, unlink_drain, unlink_in,
};
use blocking_core::pipe::{Drained, Put, Room};
use blocking_core::pool::{Job, JobNo};
use futures::Future;
use futures::executor::block_on;
use futures::task::{Context, Poll};
use std::process::Abort;
use std::test::Fail;

// How many bytes the pipe holds, and how many a piece has.
const CAPACITY: usize = 4;

const WHOLE: usize = 2;

#[derive(Clone, Copy)]
enum Step {
    Room,
    // The job looks for room, and puts these from a piece.
    Put(&'static [u8]),
    // The owner drains into so many places, three at most.
    Drain(usize),
    Sent,
    Received,
    CloseSender,
    CloseDrainer,
}

#[derive(Clone, Copy, Debug, PartialEq, Eq)]
enum Shown {
    Free(usize),
    // All went in, and whether an owner was to be woken.
    In(bool),
    // So many bytes, the first of them, and whether the job was to be woken.
    Bytes(usize, u8, bool),
    Count(u64),
    // Who waited there was to be woken, or nobody.
    Closed(bool),
    Waits,
    Over,
    Missing,
}

// What is lent takes room until the last of it was drained.
const FIRST: &[(Step, Shown)] = &[
    (Step::Drain(3), Shown::Waits),
    (Step::Put(&[1, 2]), Shown::In(true)),
    (Step::Put(&[3]), Shown::In(false)),
    (Step::Room, Shown::Free(1)),
    (Step::Drain(1), Shown::Bytes(1, 1, false)),
    (Step::Room, Shown::Free(1)),
    (Step::Put(&[4]), Shown::In(false)),
    (Step::Room, Shown::Waits),
    (Step::Drain(3), Shown::Bytes(1, 2, true)),
    (Step::Room, Shown::Free(2)),
    (Step::Received, Shown::Count(2)),
    (Step::Drain(3), Shown::Bytes(2, 3, false)),
    (Step::Received, Shown::Count(4)),
    (Step::Drain(3), Shown::Waits),
    (Step::Put(&[5, 6]), Shown::In(true)),
    (Step::Put(&[7]), Shown::In(false)),
    (Step::Drain(1), Shown::Bytes(1, 5, false)),
    (Step::CloseDrainer, Shown::Closed(false)),
    (Step::Room, Shown::Over),
    (Step::Put(&[8]), Shown::Over),
    (Step::Sent, Shown::Count(7)),
];

// Nothing of the first pipe is in the second.
const SECOND: &[(Step, Shown)] = &[
    (Step::Room, Shown::Free(4)),
    (Step::Sent, Shown::Count(0)),
    (Step::Received, Shown::Count(0)),
    (Step::Drain(3), Shown::Waits),
    (Step::Put(&[9, 8]), Shown::In(true)),
    (Step::Put(&[7, 6]), Shown::In(false)),
    (Step::Room, Shown::Waits),
    (Step::CloseSender, Shown::Closed(false)),
    (Step::Drain(3), Shown::Bytes(2, 9, true)),
    (Step::Drain(3), Shown::Bytes(2, 7, false)),
    (Step::Drain(3), Shown::Over),
];

// Both ends of a pipe, and an executor whose job's number the job's end bears.
#[derive(Drop)]
struct Bench<J: Job, H: Runtime> {
    executor: Executor<J, H>,
    me: JobNo,
    piece: Vec<u8>,
    sender: SendEnd<u8, AnyPlace, LendingStore, H>,
    drainer: DrainEnd<u8, AnyPlace, LendingStore, H>,
}

impl<J: Job, H: Runtime> Bench<J, H> {
    fn room(&mut self) -> Shown {
        match self.sender.room_or_seat(self.me) {
            Room::Free(free) => Shown::Free(free),
            Room::Parked => Shown::Waits,
            Room::Shut => Shown::Over,
        }
    }

    fn put(&mut self, bytes: &[u8]) -> Shown {
        let count = bytes.len().min(self.piece.len());
        self.piece[..count].copy_from_slice(&bytes[..count]);
        match self.sender.room_or_seat(self.me) {
            Room::Free(free) if count <= free => match self
                .sender
                .put_piece(&mut self.piece, count)
            {
                Put::In(waker) => Shown::In(waker.is_some()),
                Put::Lost => Shown::Over,
            },
            Room::Free(_) | Room::Parked => Shown::Waits,
            Room::Shut => Shown::Over,
        }
    }

    fn drain(&mut self, cx: &mut Context<'_>, most: usize) -> Shown
        ensures { Keeps cx.old cx.new }
    {
        let mut bytes = [0u8; 3];
        if most == 0 || most > 3 {
            return Shown::Missing;
        }
        match self.drainer.drain_or_seat(cx, &mut bytes[..most]) {
            Drained::Got(count, note) => Shown::Bytes(
                count,
                bytes[0],
                is_woken(&self.executor, self.me, note),
            ),
            Drained::Ended => Shown::Over,
            Drained::Waits(_) => Shown::Waits,
        }
    }

    // What is seen of a step.
    fn shows(&mut self, step: Step, cx: &mut Context<'_>) -> Shown
        ensures { Keeps cx.old cx.new }
    {
        match step {
            Step::Room => self.room(),
            Step::Put(bytes) => self.put(bytes),
            Step::Drain(most) => self.drain(cx, most),
            Step::Sent => Shown::Count(self.sender.sent()),
            Step::Received => Shown::Count(self.drainer.received()),
            Step::CloseSender => Shown::Closed(self.sender.close().is_some()),
            Step::CloseDrainer => {
                let note = self.drainer.close();
                Shown::Closed(is_woken(&self.executor, self.me, note))
            }
        }
    }

    // The place of the first step that shows something else, and what it shows.
    fn first_wrong(
        &mut self,
        steps: &[(Step, Shown)],
        cx: &mut Context<'_>,
    ) -> Option<(usize, Shown)>
        ensures { Keeps cx.old cx.new }
    {
        for (place, (step, wanted)) in steps.iter().enumerate() {
            let shown = self.shows(*step, cx);
            if shown != *wanted {
                return Some((place, shown));
            }
        }
        None
    }
}

// The steps of a row, all in one poll, which gives the bench back, and the place of the first step that shows something else.
#[derive(Drop)]
struct Played<J: Job, H: Runtime> {
    bench: Option<Bench<J, H>>,
    steps: &'static [(Step, Shown)],
}

impl<J: Job, H: Runtime> Future for Played<J, H> {
    type Output = (Option<Bench<J, H>>, Option<(usize, Shown)>);

    fn poll(&mut self, cx: &mut Context<'_>) -> Poll<Self::Output> {
        let wrong = match &mut self.bench {
            Some(bench) => bench.first_wrong(self.steps, cx),
            None => Some((0, Shown::Missing)),
        };
        Poll::Ready((self.bench.take(), wrong))
    }
}

// Plays a row over a pipe of this memory, and gives what is left of that.
fn play<H: Host>(
    rt: H,
    memory: PieceMemory<u8, LendingStore>,
    steps: &'static [(Step, Shown)],
) -> Result<
    (
        Option<PieceMemory<u8, LendingStore>>,
        Option<(usize, Shown)>,
    ),
    Fail,
> {
    let long = memory.piece();
    let (sender, drainer, mut piece) = link_drain(rt, memory)?;
    piece.resize(long, 0)?;
    let executor: Executor<Nothing, H> = Executor::new(rt, Some("1"))?;
    let me = executor.add(Nothing)?.number();
    let bench = Bench {
        executor,
        me,
        piece,
        sender,
        drainer,
    };
    let played = Played {
        bench: Some(bench),
        steps,
    };
    let (bench, wrong) = block_on(&rt, played)?;
    let Some(bench) = bench else {
        return Ok((None, wrong));
    };
    let Bench {
        executor: _,
        me: _,
        piece,
        sender,
        drainer,
    } = bench;
    Ok((unlink_drain(sender, drainer, piece), wrong))
}

fn memory<H: Host>(rt: H) -> Result<PieceMemory<u8, LendingStore>, Fail> {
    let store = LendingMemory::with_piece(rt.alloc(), CAPACITY, WHOLE)?;
    Ok(PieceMemory::over(rt.alloc(), store)?)
}

// Plays a row over a pipe of this memory, all of which has to come back.
fn plays<H: Host + Abort>(
    rt: H,
    memory: PieceMemory<u8, LendingStore>,
    steps: &'static [(Step, Shown)],
) -> Result<PieceMemory<u8, LendingStore>, Fail> {
    let (left, wrong) = play(rt, memory, steps)?;
    assert_eq!(rt; wrong, None);
    let Some(left) = left else {
        panic!(rt; "no memory came back");
    };
    assert_eq!(rt; (left.capacity(), left.piece()), (CAPACITY, WHOLE));
    Ok(left)
}

#[test]
fn memory_of_a_pipe_serves_another(rt: HostRuntime) -> Result<(), Fail> {
    let left = plays(rt, memory(rt)?, FIRST)?;
    let _left = plays(rt, left, SECOND)?;
    Ok(())
}

#[test]
fn memory_comes_back_with_both_ends_alone(rt: HostRuntime) -> Result<(), Fail> {
    let (filler, taker) = link_in_over::<_, AnyPlace, _, _>(rt, memory(rt)?)?;
    let Some(left) = unlink_in(filler, taker) else {
        panic!(rt; "no memory came back");
    };
    let (filler, taker) = link_in_over::<_, AnyPlace, _, _>(rt, left)?;
    assert_eq!(rt; (filler.sent(), taker.received()), (0, 0));
    let (other, _others) = link_in_over::<_, AnyPlace, _, _>(rt, memory(rt)?)?;
    assert!(rt; unlink_in(other, taker).is_none());
    let (sender, _drainer, piece) = link_drain::<_, AnyPlace, _, _>(rt, memory(rt)?)?;
    let (_sender, drainer, _piece) = link_drain::<_, AnyPlace, _, _>(rt, memory(rt)?)?;
    assert!(rt; unlink_drain(sender, drainer, piece).is_none());
    Ok(())
}
