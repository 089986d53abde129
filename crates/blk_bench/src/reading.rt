//! A reader that is read to its end, session by session.
ghost use Rattle.std.specs.Prelude.{◌<◌};
ghost use Rattle.futures.specs.Poll.{OnPending};
ghost use Rattle.futures.specs.Task.{IsArmed, Keeps};

use crate::owner::ReadOwner;
use crate::pipe::{failed, is_right};
use crate::reads::Reader;
use blocking::{AsyncRead, Executor, ReadJob, Runtime, Unblock};
use blocking_core::pool::{Carries, Job};
use futures::Future;
use futures::executor::block_on;
use futures::task::{Context, Poll};
use std::io;
use std::random::RandomSource;
use std::sync::Wait;
use std::time::Instant;

// How many bytes the owner's buffer holds.
const PIECE: usize = 65_536;

/// The sessions of a benchmark that reads.
#[derive(Clone, Copy)]
pub(crate) struct ReadPlan {
    /// The capacity of the pipe in bytes, above 0.
    pub(crate) capacity: usize,
    pub(crate) sessions: usize,
    /// How many bytes one session reads.
    pub(crate) length: usize,
}

/// Carries out a plan over a reader, and returns how many nanoseconds it took.
pub(crate) fn read_by<J, R>(
    rt: HostRuntime,
    executor: &Executor<J, R>,
    reader: Reader,
    plan: ReadPlan,
) -> io::Result<u128>
where
    J: Job + Carries<ReadJob<Reader, R>>,
    R: Runtime + RandomSource,
    requires { 0 < plan.capacity }
{
    let buffer = vec![in rt.alloc(); 0u8; PIECE]?;
    let start = Instant::now(&rt)?;
    let owner = Unblock::with_capacity(plan.capacity, executor.try_clone()?, reader);
    read_all_of(executor.runtime(), owner, buffer, plan)?;
    Ok(start.elapsed(&rt)?.as_nanos())
}

// Carries out a plan over any owner.
fn read_all_of<A, R>(rt: R, owner: A, buffer: Vec<u8>, plan: ReadPlan) -> io::Result<()>
where
    A: ReadOwner + Drop,
    R: Runtime + RandomSource,
{
    let reading = Reading {
        rt,
        owner,
        buffer,
        came: 0,
        left: plan.sessions,
        length: plan.length as u64,
    };
    block_on(&rt, reading)?
}

// Reads to the end, and counts how many bytes came, of which each piece's first and last were right.
fn read_to_end<A: AsyncRead, R: Runtime>(
    rt: R,
    owner: &mut A,
    cx: &mut Context<'_>,
    buffer: &mut [u8],
    came: &mut u64,
) -> Poll<io::Result<()>>
    requires { A.closed owner.old → ⊥ }
    ensures open { A.closed owner.new → ⊥ }
    ensures armed { OnPending result (IsArmed cx.new) }
    ensures kept { Keeps cx.old cx.new }
{
    for _ in rt.forever() {
        match owner.poll_read(cx, buffer) {
            Poll::Pending => return Poll::Pending,
            Poll::Ready(Ok(0)) => return Poll::Ready(Ok(())),
            Poll::Ready(Ok(count)) if is_right(*came, &buffer[..count]) => {
                *came = came.saturating_add(count as u64);
            }
            Poll::Ready(_) => return Poll::Ready(Err(failed())),
        }
    }
    unreachable!()
}

// Reads to the end session by session, and rewinds the reader after each.
#[derive(Drop)]
struct Reading<A, R> {
    rt: R,
    owner: A,
    buffer: Vec<u8>,
    came: u64,
    // The sessions that are left, the current one among them.
    left: usize,
    length: u64,
}

impl<A: ReadOwner + Drop, R: Runtime> Reading<A, R> {
    // Polls the current session to its end, and rewinds the reader.
    fn poll_session(&mut self, cx: &mut Context<'_>) -> Poll<io::Result<()>>
        ensures armed { OnPending result (IsArmed cx.new) }
        ensures kept { Keeps cx.old cx.new }
    {
        if !self.owner.is_open() {
            return Poll::Ready(Err(failed()));
        }
        match read_to_end(
            self.rt,
            &mut self.owner,
            cx,
            &mut self.buffer,
            &mut self.came,
        ) {
            Poll::Ready(Ok(())) => {}
            other => return other,
        }
        if let Poll::Pending = self.owner.poll_rewind(cx) {
            return Poll::Pending;
        }
        if self.came != self.length {
            return Poll::Ready(Err(failed()));
        }
        self.came = 0;
        Poll::Ready(Ok(()))
    }
}

impl<A: ReadOwner + Drop, R: Runtime> Future for Reading<A, R> {
    type Output = io::Result<()>;

    fn poll(&mut self, cx: &mut Context<'_>) -> Poll<io::Result<()>> {
        let rt = self.rt;
        for _ in rt.forever() {
            if self.left == 0 {
                return Poll::Ready(Ok(()));
            }
            match self.poll_session(cx) {
                Poll::Ready(Ok(())) => self.left = self.left.saturating_sub(1),
                other => return other,
            }
        }
        unreachable!()
    }
}
