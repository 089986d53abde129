//! Bytes that the owner fills in, and that a job on a worker peeks and consumes.
use crate::figures::{Figures, Request, rate};
use crate::pipe::{failed, is_right, pattern};
use blocking::{AnyPlace, Executor, FillEnd, Host, PeekEnd, Runtime, link_in};
use blocking_core::pipe::{Filled, LendingStore, Peeked};
use blocking_core::pool::{Job, JobNo, JobStep, WakeNote};
use futures::Future;
use futures::channel::oneshot;
use futures::executor::block_on;
use futures::task::{Context, Poll};
use std::io;
use std::random::RandomSource;
use std::sync::Wait;
use std::time::Instant;

// The pipe's capacity, and how many bytes are filled in or peeked at once.
const PIECE: usize = 65_536;

// Peeks and consumes to the end, and tells how many bytes there were, of which each piece's first and last were right.
#[derive(Drop)]
struct Taker<H: Runtime> {
    end: PeekEnd<u8, AnyPlace, LendingStore, H>,
    told: Option<oneshot::Sender<u64>>,
}

impl<H: Runtime> Job for Taker<H> {
    ghost use Rattle.std.specs.Prelude.{◌≡◌, false};

    ghost may_answer = { λ _ answer. answer ≡ false };

    fn step(&mut self, me: JobNo) -> JobStep {
        let place = self.end.received();
        match self.end.lend_or_seat(me) {
            Peeked::Some(count) => {
                let is_right = is_right(place, self.end.shown());
                drop(self.end.consume(count));
                if is_right {
                    JobStep::Again
                } else {
                    JobStep::Done
                }
            }
            Peeked::Parked => JobStep::Waiting,
            Peeked::Drained => {
                if let Some(told) = self.told.take() {
                    let _ = told.send(place);
                }
                JobStep::Done
            }
        }
    }

    fn abandoned(&self) -> bool {
        false
    }
}

// Fills in all bytes, and closes.
#[derive(Drop)]
struct Filling<'a, J: Job, H: Runtime> {
    rt: H,
    executor: &'a Executor<J, H>,
    end: FillEnd<u8, AnyPlace, LendingStore, H>,
    rest: &'a [u8],
}

impl<'a, J: Job, H: Runtime> Filling<'a, J, H> {
    fn wake(&self, note: Option<WakeNote>) {
        if let Some(note) = note {
            let _ = self.executor.wake(note);
        }
    }
}

impl<'a, J: Job, H: Runtime> Future for Filling<'a, J, H> {
    ghost use Rattle.std.specs.Prelude.{◌≡◌};

    type Output = ();

    ghost needs = { λ filling source. source ≡ filling.end.source.id };

    fn poll(&mut self, cx: &mut Context<'_>) -> Poll<()> {
        let rt = self.rt;
        for _ in rt.forever() {
            if self.rest.is_empty() {
                let note = self.end.close();
                self.wake(note);
                return Poll::Ready(());
            }
            let piece = &self.rest[..self.rest.len().min(PIECE)];
            match self.end.fill_or_seat(cx, piece) {
                Filled::Took(count, note) => {
                    self.rest = &self.rest[count..];
                    self.wake(note);
                }
                Filled::Shut => return Poll::Ready(()),
                Filled::Waits(_) => return Poll::Pending,
            }
        }
        unreachable!()
    }
}

// All bytes of the source to a job.
fn cross<R: Runtime + RandomSource>(
    host: R,
    executor: &Executor<Taker<R>, R>,
    source: &[u8],
) -> io::Result<()> {
    let (told, tells) = oneshot::channel(host.alloc())?;
    let (end, theirs) = link_in(host, PIECE)?;
    let taker = Taker {
        end: theirs,
        told: Some(told),
    };
    if executor.add(taker).is_err() {
        return Err(failed());
    }
    let filling = Filling {
        rt: host,
        executor,
        end,
        rest: source,
    };
    block_on(&host, filling)?;
    match block_on(&host, tells)? {
        Ok(count) if count == source.len() as u64 => Ok(()),
        _ => Err(failed()),
    }
}

// One crossing, in MB/s.
fn once<R: Runtime + RandomSource>(
    rt: HostRuntime,
    host: R,
    executor: &Executor<Taker<R>, R>,
    source: &[u8],
) -> io::Result<u64> {
    let start = Instant::now(&rt)?;
    cross(host, executor, source)?;
    Ok(rate(source.len(), start.elapsed(&rt)?.as_nanos()))
}

/// In MB/s.
pub(crate) fn run<R: Host>(
    rt: HostRuntime,
    host: R,
    request: Request,
    figures: &mut Figures,
) -> io::Result<()> {
    let source = pattern(rt.alloc(), request.size)?;
    match Executor::new(host, None) {
        Ok(executor) => run_over(rt, host, &executor, &source, request.reps, figures),
        Err(_) => Err(failed()),
    }
}

fn run_over<R: Runtime + RandomSource>(
    rt: HostRuntime,
    host: R,
    executor: &Executor<Taker<R>, R>,
    source: &[u8],
    reps: usize,
    figures: &mut Figures,
) -> io::Result<()> {
    for rep in 0..=reps {
        let figure = once(rt, host, executor, source)?;
        figures.note(rep, figure)?;
    }
    Ok(())
}
