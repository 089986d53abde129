//! Numbers that a job on a worker puts, and that the owner drains.
use crate::figures::{Figures, Request, each};
use crate::pipe::failed;
use blocking::{AnyPlace, DrainEnd, Executor, Host, PieceMemory, Runtime, SendEnd, link_drain};
use blocking_core::pipe::{DEFAULT_ITEMS, Drained, LendingMemory, LendingStore, Put, Room};
use blocking_core::pool::{Job, JobNo, JobStep};
use futures::Future;
use futures::executor::block_on;
use futures::task::{Context, Poll};
use std::io;
use std::random::RandomSource;
use std::sync::Wait;
use std::time::Instant;

// How many numbers are put or drained at once.
const BATCH: usize = 256;

// What holds the numbers: whole batches go in and come out as they are.
type Batches = LendingStore;

// Puts the numbers below its size, and closes.
#[derive(Drop)]
struct Counter<H: Runtime> {
    end: SendEnd<u64, AnyPlace, Batches, H>,
    batch: Vec<u64>,
    size: u64,
}

impl<H: Runtime> Job for Counter<H> {
    ghost use Rattle.std.specs.Prelude.{◌≡◌, false};

    ghost may_answer = { λ _ answer. answer ≡ false };

    fn step(&mut self, me: JobNo) -> JobStep {
        let first = self.end.sent();
        let left = self.size.saturating_sub(first);
        if left == 0 {
            drop(self.end.close());
            return JobStep::Done;
        }
        let free = match self.end.room_or_seat(me) {
            Room::Free(free) => free,
            Room::Parked => return JobStep::Waiting,
            Room::Shut => return JobStep::Done,
        };
        let most = usize::try_from(left).unwrap_or(BATCH);
        let count = free.min(self.batch.len()).min(most);
        number(first, &mut self.batch[..count]);
        match self.end.put_piece(&mut self.batch, count) {
            Put::In(_) => JobStep::Again,
            Put::Lost => JobStep::Done,
        }
    }

    fn abandoned(&self) -> bool {
        false
    }
}

// Writes the numbers from the first one on.
fn number(first: u64, batch: &mut [u64]) {
    let mut next = first;
    for item in batch {
        *item = next;
        next = next.wrapping_add(1);
    }
}

// Whether these are the numbers from the first one on.
fn are_numbers(first: u64, batch: &[u64]) -> bool {
    let mut next = first;
    for item in batch {
        if *item != next {
            return false;
        }
        next = next.wrapping_add(1);
    }
    true
}

// Drains to the end, and gives how many numbers there were, each of which was that of its place. (else none)
#[derive(Drop)]
struct Counted<'a, J: Job, H: Runtime> {
    rt: H,
    executor: &'a Executor<J, H>,
    end: DrainEnd<u64, AnyPlace, Batches, H>,
}

impl<'a, J: Job, H: Runtime> Future for Counted<'a, J, H> {
    ghost use Rattle.std.specs.Prelude.{◌≡◌};

    type Output = Option<u64>;

    ghost needs = { λ counted source. source ≡ counted.end.source.id };

    fn poll(&mut self, cx: &mut Context<'_>) -> Poll<Option<u64>> {
        let rt = self.rt;
        let mut batch = [0u64; BATCH];
        for _ in rt.forever() {
            let first = self.end.received();
            match self.end.drain_or_seat(cx, &mut batch) {
                Drained::Got(count, note) => {
                    if let Some(note) = note {
                        let _ = self.executor.wake(note);
                    }
                    if !are_numbers(first, &batch[..count]) {
                        return Poll::Ready(None);
                    }
                }
                Drained::Ended => return Poll::Ready(Some(first)),
                Drained::Waits(_) => return Poll::Pending,
            }
        }
        unreachable!()
    }
}

// All numbers from a job to this thread.
fn cross<R: Runtime + RandomSource>(
    host: R,
    executor: &Executor<Counter<R>, R>,
    size: u64,
) -> io::Result<()> {
    let batches = LendingMemory::with_piece(host.alloc(), DEFAULT_ITEMS, BATCH)?;
    let memory = PieceMemory::over(host.alloc(), batches)?;
    let (theirs, end, mut batch) = link_drain(host, memory)?;
    batch.resize(BATCH, 0)?;
    let counter = Counter {
        end: theirs,
        batch,
        size,
    };
    if executor.add(counter).is_err() {
        return Err(failed());
    }
    let counted = Counted {
        rt: host,
        executor,
        end,
    };
    match block_on(&host, counted)? {
        Some(count) if count == size => Ok(()),
        _ => Err(failed()),
    }
}

// One crossing, in ns an item.
fn once<R: Runtime + RandomSource>(
    rt: HostRuntime,
    host: R,
    executor: &Executor<Counter<R>, R>,
    size: usize,
) -> io::Result<u64> {
    let start = Instant::now(&rt)?;
    cross(host, executor, size as u64)?;
    Ok(each(start.elapsed(&rt)?.as_nanos(), size))
}

/// In ns an item.
pub(crate) fn run<R: Host>(
    rt: HostRuntime,
    host: R,
    request: Request,
    figures: &mut Figures,
) -> io::Result<()> {
    match Executor::new(host, None) {
        Ok(executor) => run_over(rt, host, &executor, request.size, request.reps, figures),
        Err(_) => Err(failed()),
    }
}

fn run_over<R: Runtime + RandomSource>(
    rt: HostRuntime,
    host: R,
    executor: &Executor<Counter<R>, R>,
    size: usize,
    reps: usize,
    figures: &mut Figures,
) -> io::Result<()> {
    for rep in 0..=reps {
        let figure = once(rt, host, executor, size)?;
        figures.note(rep, figure)?;
    }
    Ok(())
}
