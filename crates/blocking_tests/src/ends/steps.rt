//! Each call of the ends, step by step on one thread.
ghost use Rattle.futures.specs.Task.{Keeps};

use crate::nothing::{Nothing, is_woken};
use blocking::{
    AnyPlace, Executor, FillEnd, Host, PeekEnd, PieceMemory, RecvEnd, Runtime, SendEnd, link,
    link_in, link_in_over, link_over,
};
use blocking_core::pipe::{
    CopyStore, Drained, Filled, FlatStore, LendingMemory, LendingStore, Peeked, Put, Received,
    RingStore, Room, Sending,
};
use blocking_core::pool::{Job, JobNo};
use futures::Future;
use futures::executor::block_on;
use futures::task::{Context, Poll};
use std::test::Fail;

// What is done at the ends of two pipes of capacity 2: one into which a job sends, and one into which the owner fills.
#[derive(Clone, Copy)]
enum Step {
    Room,
    // The job looks for room, and puts these.
    Put(&'static [u8]),
    // The same, from a piece.
    PutPiece(&'static [u8]),
    Send(u8),
    Receive,
    // The owner drains into a buffer for three.
    Drain,
    Sent,
    Received,
    CloseSender,
    CloseReceiver,
    Fill(&'static [u8]),
    // The job is lent items, and consumes so many.
    Take(usize),
    // The job peeks at so many, and then consumes some.
    Peek(usize),
    Consume(usize),
    Filled,
    Taken,
    CloseFiller,
    CloseTaker,
}

// What is seen of a step. Who is woken is told by a flag.
#[derive(Clone, Copy, Debug, PartialEq, Eq)]
enum Shown {
    Free(usize),
    // So many, of which this is the first.
    Items(usize, u8, bool),
    Took(usize, bool),
    In(bool),
    Back(u8),
    Waits,
    Shut,
    Over,
    Closed(bool),
    Count(u64),
    Missing,
}

type Row = (&'static str, &'static [(Step, Shown)]);

const ROWS: &[Row] = &[
    (
        "items cross one by one and together",
        &[
            (Step::Room, Shown::Free(2)),
            (Step::PutPiece(&[5, 6]), Shown::In(false)),
            (Step::Room, Shown::Waits),
            (Step::Receive, Shown::Items(1, 5, true)),
            (Step::Send(7), Shown::In(false)),
            (Step::Send(8), Shown::Back(8)),
            (Step::Drain, Shown::Items(2, 6, true)),
            (Step::Drain, Shown::Waits),
            (Step::Put(&[8]), Shown::In(true)),
            (Step::Receive, Shown::Items(1, 8, false)),
            (Step::Receive, Shown::Waits),
            (Step::Send(9), Shown::In(true)),
            (Step::Sent, Shown::Count(5)),
            (Step::CloseSender, Shown::Closed(false)),
            (Step::Send(10), Shown::Shut),
            (Step::Receive, Shown::Items(1, 9, false)),
            (Step::Received, Shown::Count(5)),
            (Step::Receive, Shown::Over),
            (Step::Drain, Shown::Over),
        ],
    ),
    (
        "a sender that closes",
        &[
            (Step::Receive, Shown::Waits),
            (Step::CloseSender, Shown::Closed(true)),
            (Step::Receive, Shown::Over),
            (Step::CloseReceiver, Shown::Closed(false)),
        ],
    ),
    (
        "a receiver that closes",
        &[
            (Step::Put(&[5, 6]), Shown::In(false)),
            (Step::Room, Shown::Waits),
            (Step::CloseReceiver, Shown::Closed(true)),
            (Step::Room, Shown::Shut),
            (Step::Put(&[7]), Shown::Shut),
            (Step::Send(7), Shown::Shut),
            (Step::Drain, Shown::Items(2, 5, false)),
        ],
    ),
    (
        "items are filled in and taken",
        &[
            (Step::Take(1), Shown::Waits),
            (Step::Fill(&[5, 6, 7]), Shown::Took(2, true)),
            (Step::Fill(&[7]), Shown::Waits),
            (Step::Take(1), Shown::Items(2, 5, true)),
            (Step::Fill(&[7]), Shown::Took(1, false)),
            (Step::Take(1), Shown::Items(1, 6, false)),
            (Step::Take(1), Shown::Items(1, 7, false)),
            (Step::Fill(&[8]), Shown::Took(1, false)),
            (Step::Filled, Shown::Count(4)),
            (Step::CloseFiller, Shown::Closed(false)),
            (Step::Fill(&[9]), Shown::Shut),
            (Step::Take(1), Shown::Items(1, 8, false)),
            (Step::Taken, Shown::Count(4)),
            (Step::Take(1), Shown::Over),
            (Step::CloseTaker, Shown::Closed(false)),
        ],
    ),
    (
        "items are looked at before they go",
        &[
            (Step::Peek(1), Shown::Waits),
            (Step::Fill(&[5, 6]), Shown::Took(2, true)),
            (Step::Peek(1), Shown::Items(1, 5, false)),
            (Step::Consume(1), Shown::Closed(false)),
            (Step::Fill(&[7]), Shown::Took(1, false)),
            (Step::Take(1), Shown::Items(2, 6, false)),
            (Step::Fill(&[8]), Shown::Took(1, false)),
            // (the one that is lent still, and the one behind it)
            (Step::Peek(3), Shown::Items(2, 7, false)),
            (Step::Fill(&[9]), Shown::Waits),
            (Step::Consume(2), Shown::Closed(true)),
            (Step::Taken, Shown::Count(4)),
            (Step::CloseFiller, Shown::Closed(false)),
            (Step::Peek(3), Shown::Over),
        ],
    ),
    (
        "a filler that closes",
        &[
            (Step::Take(1), Shown::Waits),
            (Step::CloseFiller, Shown::Closed(true)),
            (Step::Take(1), Shown::Over),
        ],
    ),
    (
        "a taker that closes",
        &[
            (Step::Fill(&[5, 6]), Shown::Took(2, false)),
            (Step::Fill(&[7]), Shown::Waits),
            (Step::CloseTaker, Shown::Closed(true)),
            (Step::Fill(&[7]), Shown::Shut),
            (Step::Take(2), Shown::Items(2, 5, false)),
        ],
    ),
];

// The ends of both pipes, each over a store, and an executor whose job's number the jobs' ends bear.
#[derive(Drop)]
struct Bench<S: CopyStore<u8>, T: CopyStore<u8>, J: Job, H: Runtime> {
    executor: Executor<J, H>,
    me: JobNo,
    // What the sender puts stands in here.
    piece: Vec<u8>,
    sender: SendEnd<u8, AnyPlace, S, H>,
    receiver: RecvEnd<u8, AnyPlace, S, H>,
    filler: FillEnd<u8, AnyPlace, T, H>,
    taker: PeekEnd<u8, AnyPlace, T, H>,
}

impl<S: CopyStore<u8>, T: CopyStore<u8>, J: Job, H: Runtime> Bench<S, T, J, H> {
    fn room(&mut self) -> Shown {
        match self.sender.room_or_seat(self.me) {
            Room::Free(free) => Shown::Free(free),
            Room::Parked => Shown::Waits,
            Room::Shut => Shown::Shut,
        }
    }

    fn put(&mut self, items: &[u8]) -> Shown {
        match self.sender.room_or_seat(self.me) {
            Room::Free(free) if items.len() <= free => match self.sender.put(items) {
                Put::In(waker) => Shown::In(waker.is_some()),
                Put::Lost => Shown::Shut,
            },
            Room::Free(_) | Room::Parked => Shown::Waits,
            Room::Shut => Shown::Shut,
        }
    }

    fn put_piece(&mut self, items: &[u8]) -> Shown {
        let count = items.len().min(self.piece.len());
        self.piece[..count].copy_from_slice(&items[..count]);
        match self.sender.room_or_seat(self.me) {
            Room::Free(free) if count <= free => match self
                .sender
                .put_piece(&mut self.piece, count)
            {
                Put::In(waker) => Shown::In(waker.is_some()),
                Put::Lost => Shown::Shut,
            },
            Room::Free(_) | Room::Parked => Shown::Waits,
            Room::Shut => Shown::Shut,
        }
    }

    fn send(&mut self, item: u8) -> Shown {
        match self.sender.send(self.me, item) {
            Sending::Sent(waker) => Shown::In(waker.is_some()),
            Sending::Parked(item) => Shown::Back(item),
            Sending::Shut(_) => Shown::Shut,
        }
    }

    fn receive(&mut self, cx: &mut Context<'_>) -> Shown
        ensures { Keeps cx.old cx.new }
    {
        match self.receiver.receive_or_seat(cx) {
            Received::Got(item, note) => Shown::Items(
                1,
                item,
                is_woken(&self.executor, self.me, note),
            ),
            Received::Ended => Shown::Over,
            Received::Waits(_) => Shown::Waits,
        }
    }

    fn drain(&mut self, cx: &mut Context<'_>) -> Shown
        ensures { Keeps cx.old cx.new }
    {
        let mut items = [0u8; 3];
        match self.receiver.drain_or_seat(cx, &mut items) {
            Drained::Got(count, note) => Shown::Items(
                count,
                items[0],
                is_woken(&self.executor, self.me, note),
            ),
            Drained::Ended => Shown::Over,
            Drained::Waits(_) => Shown::Waits,
        }
    }

    fn fill(&mut self, cx: &mut Context<'_>, items: &[u8]) -> Shown
        ensures { Keeps cx.old cx.new }
    {
        if items.is_empty() {
            return Shown::Missing;
        }
        match self.filler.fill_or_seat(cx, items) {
            Filled::Took(count, note) => Shown::Took(
                count,
                is_woken(&self.executor, self.me, note),
            ),
            Filled::Shut => Shown::Shut,
            Filled::Waits(_) => Shown::Waits,
        }
    }

    fn take(&mut self, count: usize) -> Shown {
        match self.taker.lend_or_seat(self.me) {
            Peeked::Some(shown) if 0 < shown && count <= shown => {
                let first = self.taker.shown()[0];
                let waker = self.taker.consume(count);
                Shown::Items(shown, first, waker.is_some())
            }
            Peeked::Some(_) => Shown::Missing,
            Peeked::Parked => Shown::Waits,
            Peeked::Drained => Shown::Over,
        }
    }

    fn peek(&mut self, most: usize) -> Shown {
        let mut items = [0u8; 3];
        if most == 0 || most > 3 {
            return Shown::Missing;
        }
        match self.taker.peek_or_seat(self.me, &mut items[..most]) {
            Peeked::Some(count) => Shown::Items(count, items[0], false),
            Peeked::Parked => Shown::Waits,
            Peeked::Drained => Shown::Over,
        }
    }

    fn consume(&mut self, count: usize) -> Shown {
        if count > self.taker.may_consume() {
            return Shown::Missing;
        }
        Shown::Closed(self.taker.consume(count).is_some())
    }

    // What is seen of a step.
    fn shows(&mut self, step: Step, cx: &mut Context<'_>) -> Shown
        ensures { Keeps cx.old cx.new }
    {
        match step {
            Step::Room => self.room(),
            Step::Put(items) => self.put(items),
            Step::PutPiece(items) => self.put_piece(items),
            Step::Send(item) => self.send(item),
            Step::Receive => self.receive(cx),
            Step::Drain => self.drain(cx),
            Step::Sent => Shown::Count(self.sender.sent()),
            Step::Received => Shown::Count(self.receiver.received()),
            Step::CloseSender => Shown::Closed(self.sender.close().is_some()),
            Step::CloseReceiver => {
                let note = self.receiver.close();
                Shown::Closed(is_woken(&self.executor, self.me, note))
            }
            Step::Fill(items) => self.fill(cx, items),
            Step::Take(count) => self.take(count),
            Step::Peek(most) => self.peek(most),
            Step::Consume(count) => self.consume(count),
            Step::Filled => Shown::Count(self.filler.sent()),
            Step::Taken => Shown::Count(self.taker.received()),
            Step::CloseFiller => {
                let note = self.filler.close();
                Shown::Closed(is_woken(&self.executor, self.me, note))
            }
            Step::CloseTaker => Shown::Closed(self.taker.close().is_some()),
        }
    }
}

// The steps of a row, all in one poll, which gives the place of the first step that shows something else, and what it shows.
#[derive(Drop)]
struct Played<S: CopyStore<u8>, T: CopyStore<u8>, J: Job, H: Runtime> {
    bench: Bench<S, T, J, H>,
    steps: &'static [(Step, Shown)],
}

impl<S: CopyStore<u8>, T: CopyStore<u8>, J: Job, H: Runtime> Future for Played<S, T, J, H> {
    type Output = Option<(usize, Shown)>;

    fn poll(&mut self, cx: &mut Context<'_>) -> Poll<Option<(usize, Shown)>> {
        for (place, (step, wanted)) in self.steps.iter().enumerate() {
            let shown = self.bench.shows(*step, cx);
            if shown != *wanted {
                return Poll::Ready(Some((place, shown)));
            }
        }
        Poll::Ready(None)
    }
}

// Plays a row over pipes of two items: the job sends through the one, and the owner through the other.
fn first_wrong<S: CopyStore<u8>, T: CopyStore<u8>, H: Host>(
    rt: H,
    sending: (SendEnd<u8, AnyPlace, S, H>, RecvEnd<u8, AnyPlace, S, H>),
    filling: (FillEnd<u8, AnyPlace, T, H>, PeekEnd<u8, AnyPlace, T, H>),
    steps: &'static [(Step, Shown)],
) -> Result<Option<(usize, Shown)>, Fail> {
    let piece = vec![in rt.alloc(); 0; 2]?;
    let executor: Executor<Nothing, H> = Executor::new(rt, Some("1"))?;
    let me = executor.add(Nothing)?.number();
    let (sender, receiver) = sending;
    let (filler, taker) = filling;
    let bench = Bench {
        executor,
        me,
        piece,
        sender,
        receiver,
        filler,
        taker,
    };
    Ok(block_on(&rt, Played { bench, steps })?)
}

#[test]
fn each_call_answers_over_a_ring(rt: HostRuntime) -> Result<(), Fail> {
    for (name, steps) in ROWS {
        let sending = link::<u8, AnyPlace, RingStore, HostRuntime>(rt, 2)?;
        let filling = link_in::<u8, AnyPlace, RingStore, HostRuntime>(rt, 2)?;
        assert_eq!(rt; first_wrong(rt, sending, filling, steps)?, None, "{name}");
    }
    Ok(())
}

#[test]
fn each_call_answers_over_a_flat_store(rt: HostRuntime) -> Result<(), Fail> {
    for (name, steps) in ROWS {
        let sending = link::<u8, AnyPlace, FlatStore, HostRuntime>(rt, 2)?;
        let filling = link_in::<u8, AnyPlace, FlatStore, HostRuntime>(rt, 2)?;
        assert_eq!(rt; first_wrong(rt, sending, filling, steps)?, None, "{name}");
    }
    Ok(())
}

// Pieces of two go in and come out as they are.
#[test]
fn each_call_answers_over_pieces(rt: HostRuntime) -> Result<(), Fail> {
    for (name, steps) in ROWS {
        let theirs = LendingMemory::with_piece(rt.alloc(), 2, 2)?;
        let ours = LendingMemory::with_piece(rt.alloc(), 2, 2)?;
        let memory = PieceMemory::over(rt.alloc(), ours)?;
        let sending = link_over::<u8, AnyPlace, LendingStore, HostRuntime>(rt, theirs)?;
        let filling = link_in_over::<u8, AnyPlace, LendingStore, HostRuntime>(rt, memory)?;
        assert_eq!(rt; first_wrong(rt, sending, filling, steps)?, None, "{name}");
    }
    Ok(())
}
