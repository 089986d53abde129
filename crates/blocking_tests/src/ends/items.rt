//! The ends of an item ring: step by step on one thread; and between two threads at small capacities, with closes at each point by either side.
ghost use Rattle.futures.specs.Task.{Keeps};

use crate::nothing::{Nothing, is_woken};
use crate::visit::LOOKS;
use blocking::{
    AnyPlace, Executor, Host, ItemRecvEnd, ItemSendEnd, ItemSending, Runtime, link_items,
};
use blocking_core::pipe::Received;
use blocking_core::pool::{Job, JobNo, JobStep, WakeNote};
use futures::Future;
use futures::executor::block_on;
use futures::task::{Context, Poll};
use std::io;
use std::sync::atomic::{AtomicU64, Ordering};
use std::sync::{Arc, Wait};
use std::test::Fail;
use std::thread::yield_now;

#[derive(Clone, Copy)]
enum Step {
    Send(u8),
    Receive,
    // The owner takes what is there, and waits for nothing.
    TryReceive,
    Sent,
    Received,
    CloseSender,
    CloseReceiver,
}

// What is seen of a step. Who is woken is told by a flag.
#[derive(Clone, Copy, Debug, PartialEq, Eq)]
enum Shown {
    In(bool),
    Back(u8),
    Shut,
    Item(u8, bool),
    Nothing,
    Waits,
    Over,
    Closed(bool),
    Count(u64),
}

// Of a ring for two items.
const ROWS: &[(&str, &[(Step, Shown)])] = &[
    (
        "items cross one by one",
        &[
            (Step::Receive, Shown::Waits),
            (Step::Send(5), Shown::In(true)),
            (Step::Send(6), Shown::In(false)),
            (Step::Send(7), Shown::Back(7)),
            (Step::Receive, Shown::Item(5, true)),
            (Step::Send(7), Shown::In(false)),
            (Step::TryReceive, Shown::Item(6, false)),
            (Step::Receive, Shown::Item(7, false)),
            (Step::TryReceive, Shown::Nothing),
            (Step::Receive, Shown::Waits),
            (Step::Receive, Shown::Waits),
            (Step::Send(8), Shown::In(true)),
            (Step::CloseSender, Shown::Closed(false)),
            (Step::Send(9), Shown::Shut),
            (Step::Sent, Shown::Count(4)),
            (Step::Receive, Shown::Item(8, false)),
            (Step::TryReceive, Shown::Nothing),
            (Step::Receive, Shown::Over),
            (Step::Received, Shown::Count(4)),
        ],
    ),
    (
        "a sender that closes",
        &[
            (Step::Receive, Shown::Waits),
            (Step::CloseSender, Shown::Closed(true)),
            (Step::Receive, Shown::Over),
            (Step::CloseReceiver, Shown::Closed(false)),
        ],
    ),
    (
        "a receiver that closes",
        &[
            (Step::Send(5), Shown::In(false)),
            (Step::Send(6), Shown::In(false)),
            (Step::Send(7), Shown::Back(7)),
            (Step::CloseReceiver, Shown::Closed(true)),
            (Step::Send(7), Shown::Shut),
            (Step::Receive, Shown::Item(5, false)),
            (Step::Receive, Shown::Item(6, false)),
            (Step::Receive, Shown::Waits),
        ],
    ),
    (
        "a job that is seated, and one that was woken and waits again",
        &[
            (Step::Send(5), Shown::In(false)),
            (Step::Send(6), Shown::In(false)),
            (Step::Send(7), Shown::Back(7)),
            (Step::TryReceive, Shown::Item(5, true)),
            (Step::Send(7), Shown::In(false)),
            (Step::Send(8), Shown::Back(8)),
            (Step::CloseReceiver, Shown::Closed(true)),
            (Step::CloseReceiver, Shown::Closed(false)),
        ],
    ),
];

// Both ends, and an executor whose job's number the sender bears.
#[derive(Drop)]
struct Bench<J: Job, H: Runtime> {
    executor: Executor<J, H>,
    me: JobNo,
    sender: ItemSendEnd<u8, AnyPlace, H>,
    receiver: ItemRecvEnd<u8, AnyPlace, H>,
}

impl<J: Job, H: Runtime> Bench<J, H> {
    fn send(&mut self, item: u8) -> Shown {
        match self.sender.send(self.me, item) {
            ItemSending::Sent(waker) => Shown::In(waker.is_some()),
            ItemSending::Parked(item, _) => Shown::Back(item),
            ItemSending::Unsent(_, _) => Shown::Shut,
        }
    }

    fn receive(&mut self, cx: &mut Context<'_>) -> Shown
        ensures { Keeps cx.old cx.new }
    {
        match self.receiver.receive_or_seat(cx) {
            Received::Got(item, note) => Shown::Item(item, is_woken(&self.executor, self.me, note)),
            Received::Ended => Shown::Over,
            Received::Waits(_) => Shown::Waits,
        }
    }

    fn try_receive(&mut self) -> Shown {
        match self.receiver.try_receive() {
            Some((item, note)) => Shown::Item(item, is_woken(&self.executor, self.me, note)),
            None => Shown::Nothing,
        }
    }

    fn shows(&mut self, step: Step, cx: &mut Context<'_>) -> Shown
        ensures { Keeps cx.old cx.new }
    {
        match step {
            Step::Send(item) => self.send(item),
            Step::Receive => self.receive(cx),
            Step::TryReceive => self.try_receive(),
            Step::Sent => Shown::Count(self.sender.sent()),
            Step::Received => Shown::Count(self.receiver.received()),
            Step::CloseSender => Shown::Closed(self.sender.close().is_some()),
            Step::CloseReceiver => {
                let note = self.receiver.close();
                Shown::Closed(is_woken(&self.executor, self.me, note))
            }
        }
    }
}

// The steps of a row, all in one poll, which gives the place of the first step that shows something else, and what it shows.
#[derive(Drop)]
struct Played<J: Job, H: Runtime> {
    bench: Bench<J, H>,
    steps: &'static [(Step, Shown)],
}

impl<J: Job, H: Runtime> Future for Played<J, H> {
    type Output = Option<(usize, Shown)>;

    fn poll(&mut self, cx: &mut Context<'_>) -> Poll<Option<(usize, Shown)>> {
        for (place, (step, wanted)) in self.steps.iter().enumerate() {
            let shown = self.bench.shows(*step, cx);
            if shown != *wanted {
                return Poll::Ready(Some((place, shown)));
            }
        }
        Poll::Ready(None)
    }
}

fn first_wrong<H: Host>(
    rt: H,
    steps: &'static [(Step, Shown)],
) -> Result<Option<(usize, Shown)>, Fail> {
    let (sender, receiver) = link_items(rt, 2)?;
    let executor: Executor<Nothing, H> = Executor::new(rt, Some("1"))?;
    let me = executor.add(Nothing)?.number();
    let bench = Bench {
        executor,
        me,
        sender,
        receiver,
    };
    Ok(block_on(&rt, Played { bench, steps })?)
}

#[test]
fn each_call_of_an_item_ring_answers(rt: HostRuntime) -> Result<(), Fail> {
    for (name, steps) in ROWS {
        assert_eq!(rt; first_wrong(rt, steps)?, None, "{name}");
    }
    Ok(())
}

// How many items were made, and how many are gone.
#[derive(Drop)]
struct Tally {
    made: AtomicU64,
    gone: AtomicU64,
}

// Through a ring for so many, the job sends so many items at most and the owner takes so many at most. Either lingers before it looks, which
// has the other wait.
#[derive(Clone, Copy, Debug)]
struct Plan {
    capacity: usize,
    sends: u64,
    takes: u64,
    job_lingers: u64,
    owner_lingers: u64,
}

struct Item {
    place: u64,
    tally: Arc<Tally>,
}

impl Drop for Item {
    fn drop(self) {
        let Item { place: _, tally } = self;
        let _ = tally.gone.fetch_add(1, Ordering::SeqCst);
    }
}

// Lets others run, for the item of each place another number of times below this.
fn linger(place: u64, most: u64) {
    for _ in 0..place.checked_rem(most).unwrap_or(0) {
        yield_now();
    }
}

// Sends so many items, one a step, and closes its end.
#[derive(Drop)]
struct Sender<H: Runtime> {
    end: ItemSendEnd<Item, AnyPlace, H>,
    hand: Option<Item>,
    plan: Plan,
    tally: Arc<Tally>,
}

impl<H: Runtime> Sender<H> {
    // The item that waits to be sent, or a new one. (None where the tally can't be shared any more)
    fn next(&mut self) -> Option<Item> {
        if let Some(item) = self.hand.take() {
            return Some(item);
        }
        let Ok(tally) = Arc::try_clone(&self.tally) else {
            return None;
        };
        let _ = tally.made.fetch_add(1, Ordering::SeqCst);
        Some(Item {
            place: self.end.sent(),
            tally,
        })
    }
}

impl<H: Runtime> Job for Sender<H> {
    ghost use Rattle.std.specs.Prelude.{◌≡◌, false};

    ghost may_answer = { λ _ answer. answer ≡ false };

    // (a waker that is let go wakes)
    fn step(&mut self, me: JobNo) -> JobStep {
        let place = self.end.sent();
        if place == self.plan.sends {
            drop(self.end.close());
            return JobStep::Done;
        }
        linger(place, self.plan.job_lingers);
        let Some(item) = self.next() else {
            return JobStep::Done;
        };
        match self.end.send(me, item) {
            ItemSending::Sent(_) => JobStep::Again,
            ItemSending::Parked(item, _) => {
                self.hand = Some(item);
                JobStep::Waiting
            }
            ItemSending::Unsent(_, _) => JobStep::Done,
        }
    }

    fn abandoned(&self) -> bool {
        false
    }
}

// Receives so many items or up to the end, then closes its end, and gives how many came, each of which was that of its place. (else none)
#[derive(Drop)]
struct Takes<J: Job, H: Runtime> {
    rt: H,
    executor: Executor<J, H>,
    end: ItemRecvEnd<Item, AnyPlace, H>,
    plan: Plan,
}

impl<J: Job, H: Runtime> Takes<J, H> {
    fn close(&mut self) {
        if let Some(note) = self.end.close() {
            let _ = self.executor.wake(note);
        }
    }

    // Whether the item is that of its place. The note is spent.
    fn took(&self, item: Item, note: Option<WakeNote>, place: u64) -> bool {
        if let Some(note) = note {
            let _ = self.executor.wake(note);
        }
        item.place == place
    }
}

impl<J: Job, H: Runtime> Future for Takes<J, H> {
    ghost use Rattle.std.specs.Prelude.{◌≡◌};

    type Output = Option<u64>;

    ghost needs = { λ takes source. source ≡ takes.end.source.id };

    fn poll(&mut self, cx: &mut Context<'_>) -> Poll<Option<u64>> {
        let rt = self.rt;
        for _ in rt.forever() {
            let place = self.end.received();
            if place == self.plan.takes {
                self.close();
                return Poll::Ready(Some(place));
            }
            linger(place, self.plan.owner_lingers);
            // (of every other item the first look takes no seat, as that of a stream's poll)
            let seen = if place % 2 == 1 {
                self.end.try_receive()
            } else {
                None
            };
            if let Some((item, note)) = seen {
                if !self.took(item, note, place) {
                    return Poll::Ready(None);
                }
                continue;
            }
            match self.end.receive_or_seat(cx) {
                Received::Got(item, note) => {
                    if !self.took(item, note, place) {
                        return Poll::Ready(None);
                    }
                }
                Received::Ended => return Poll::Ready(Some(place)),
                Received::Waits(_) => return Poll::Pending,
            }
        }
        unreachable!()
    }
}

// How many items come by a plan, and whether each item that was made is gone once.
fn come<H: Host>(
    rt: H,
    executor: &Executor<Sender<H>, H>,
    plan: Plan,
) -> Result<(Option<u64>, bool), Fail> {
    let tally = Tally {
        made: AtomicU64::new(0),
        gone: AtomicU64::new(0),
    };
    let tally = Arc::new(rt.alloc(), tally)?;
    let (theirs, end) = link_items(rt, plan.capacity.max(1))?;
    let _job = executor.add(Sender {
        end: theirs,
        hand: None,
        plan,
        tally: Arc::try_clone(&tally)?,
    })?;
    let takes = Takes {
        rt,
        executor: executor.try_clone()?,
        end,
        plan,
    };
    let count = block_on(&rt, takes)?;
    Ok((count, are_gone(&tally)))
}

fn are_gone(tally: &Tally) -> bool {
    for _ in 0..LOOKS {
        let gone = tally.gone.load(Ordering::SeqCst);
        if gone == tally.made.load(Ordering::SeqCst) && gone > 0 {
            return true;
        }
        yield_now();
    }
    false
}

// Two items are inside, and one end is dropped and then the other, neither of them closed. How many items are gone after each.
fn gone_with_ends<H: Runtime>(rt: H, me: JobNo, is_sender_first: bool) -> io::Result<(u64, u64)> {
    let tally = Tally {
        made: AtomicU64::new(0),
        gone: AtomicU64::new(0),
    };
    let tally = Arc::new(rt.alloc(), tally)?;
    let (mut sender, receiver) = link_items::<Item, AnyPlace, H>(rt, 2)?;
    for place in 0..2 {
        let tally = Arc::try_clone(&tally)?;
        drop(sender.send(me, Item { place, tally }));
    }
    if is_sender_first {
        drop(sender);
        let gone = tally.gone.load(Ordering::SeqCst);
        drop(receiver);
        return Ok((gone, tally.gone.load(Ordering::SeqCst)));
    }
    drop(receiver);
    let gone = tally.gone.load(Ordering::SeqCst);
    drop(sender);
    Ok((gone, tally.gone.load(Ordering::SeqCst)))
}

#[test]
fn items_inside_go_once_with_the_last_end(rt: HostRuntime) -> Result<(), Fail> {
    let executor: Executor<Nothing, HostRuntime> = Executor::new(rt, Some("1"))?;
    let me = executor.add(Nothing)?.number();
    for is_sender_first in [true, false] {
        assert_eq!(rt;
            gone_with_ends(rt, me, is_sender_first)?,
            (0, 2),
            "{is_sender_first}"
        );
    }
    Ok(())
}

const CAPACITIES: &[usize] = &[1, 2, 3, 100];

// How many items are sent at most, and how many taken.
const COUNTS: &[u64] = &[1, 2, 3, 4, 5, 7, 99, 101, 200];

#[test]
fn items_come_in_order_and_go_once(rt: HostRuntime) -> Result<(), Fail> {
    let executor: Executor<Sender<HostRuntime>, HostRuntime> = Executor::new(rt, Some("1"))?;
    for capacity in CAPACITIES {
        for sends in COUNTS {
            for takes in COUNTS {
                let plan = Plan {
                    capacity: *capacity,
                    sends: *sends,
                    takes: *takes,
                    job_lingers: 0,
                    owner_lingers: 0,
                };
                assert_eq!(rt;
                    come(rt, &executor, plan)?,
                    (Some(*sends.min(takes)), true),
                    "{plan:?}"
                );
            }
        }
    }
    Ok(())
}

const MANY: u64 = 30_000;

// So many where threads are held before atomic instructions (`scripts/schedules --holds`).
const FEW: u64 = 100;

// How long the job lingers, and the owner.
const PACES: &[(u64, u64)] = &[(0, 40), (10, 0), (3, 7)];

// The plan by which not so many items come, if there is one. Each side waits for the other many times, and is woken.
fn first_that_waits<H: Host>(rt: H, items: u64) -> Result<Option<Plan>, Fail> {
    let executor: Executor<Sender<H>, H> = Executor::new(rt, Some("1"))?;
    for capacity in CAPACITIES {
        for (job_lingers, owner_lingers) in PACES {
            let plan = Plan {
                capacity: *capacity,
                sends: items,
                takes: items.saturating_add(1),
                job_lingers: *job_lingers,
                owner_lingers: *owner_lingers,
            };
            if come(rt, &executor, plan)? != (Some(items), true) {
                return Ok(Some(plan));
            }
        }
    }
    Ok(None)
}

#[test]
fn nobody_waits_for_good(rt: HostRuntime) -> Result<(), Fail> {
    let waits = first_that_waits(rt, MANY)?;
    assert!(rt; waits.is_none(), "{waits:?}");
    Ok(())
}

#[test]
fn nobody_waits_in_a_short_run(rt: HostRuntime) -> Result<(), Fail> {
    let waits = first_that_waits(rt, FEW)?;
    assert!(rt; waits.is_none(), "{waits:?}");
    Ok(())
}
