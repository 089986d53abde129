//! Bytes that are written, session by session.
ghost use Rattle.std.specs.Prelude.{◌<◌};
ghost use Rattle.futures.specs.Poll.{OnPending};
ghost use Rattle.futures.specs.Task.{IsArmed, Keeps};

use crate::owner::WriteOwner;
use crate::pipe::failed;
use crate::writes::Memory;
use blocking::{AsyncWrite, Executor, Runtime, Unblock, WriteJob};
use blocking_core::pool::{Carries, Job};
use futures::Future;
use futures::executor::block_on;
use futures::task::{Context, Poll};
use std::alloc::Global;
use std::io;
use std::random::RandomSource;
use std::sync::{Arc, Wait};
use std::time::Instant;

// How many bytes are handed on at once.
const PIECE: usize = 65_536;

/// The sessions of a benchmark that writes.
#[derive(Clone, Copy)]
pub(crate) struct WritePlan {
    /// The capacity of the pipe in bytes, above 0.
    pub(crate) capacity: usize,
    /// How many bytes one session writes.
    pub(crate) length: usize,
}

/// Writes the bytes as planned, and returns how many nanoseconds it took. The comparison that follows isn't timed.
pub(crate) fn write_by<J, R>(
    rt: HostRuntime,
    executor: &Executor<J, R>,
    memory: Memory,
    bytes: &Arc<Vec<u8>>,
    plan: WritePlan,
) -> io::Result<u128>
where
    J: Job + Carries<WriteJob<Memory, R>>,
    R: Runtime + RandomSource,
    requires { 0 < plan.capacity }
{
    let start = Instant::now(&rt)?;
    let theirs = Arc::try_clone(bytes)?;
    let owner = Unblock::with_capacity(plan.capacity, executor.try_clone()?, memory);
    let written = write_all_of(executor.runtime(), owner, theirs, plan.length)?;
    let nanos = start.elapsed(&rt)?.as_nanos();
    if written.as_slice() != bytes.as_slice() {
        return Err(failed());
    }
    Ok(nanos)
}

// Carries out a plan over any owner, and returns the writer's memory.
fn write_all_of<A, R>(rt: R, owner: A, bytes: Arc<Vec<u8>>, length: usize) -> io::Result<Vec<u8>>
where
    A: WriteOwner + Drop,
    R: Runtime + RandomSource,
{
    let writing = Writing {
        rt,
        alloc: rt.alloc(),
        owner,
        bytes,
        taken: 0,
        length,
        end: length,
    };
    block_on(&rt, writing)?
}

// Hands on the bytes from a place on, piece by piece.
fn hand_on<A: AsyncWrite, R: Runtime>(
    rt: R,
    owner: &mut A,
    cx: &mut Context<'_>,
    bytes: &[u8],
    taken: &mut usize,
) -> Poll<io::Result<()>>
    requires { A.closed owner.old → ⊥ }
    ensures open { A.closed owner.new → ⊥ }
    ensures armed { OnPending result (IsArmed cx.new) }
    ensures kept { Keeps cx.old cx.new }
{
    for _ in rt.forever() {
        let rest = bytes.get(*taken..).unwrap_or(&[]);
        if rest.is_empty() {
            return Poll::Ready(Ok(()));
        }
        match owner.poll_write(cx, &rest[..rest.len().min(PIECE)]) {
            Poll::Pending => return Poll::Pending,
            Poll::Ready(Ok(count)) if count > 0 => *taken = taken.saturating_add(count),
            Poll::Ready(_) => return Poll::Ready(Err(failed())),
        }
    }
    unreachable!()
}

// Writes the bytes session by session, each flushed before the next. Its output is the writer's memory.
#[derive(Drop)]
struct Writing<A, R> {
    rt: R,
    alloc: Global,
    owner: A,
    bytes: Arc<Vec<u8>>,
    taken: usize,
    length: usize,
    // The end of the current session, as a place in the bytes.
    end: usize,
}

impl<A: WriteOwner + Drop, R: Runtime> Writing<A, R> {
    // Polls the current session to the end of its flush.
    fn poll_session(&mut self, cx: &mut Context<'_>) -> Poll<io::Result<()>>
        ensures armed { OnPending result (IsArmed cx.new) }
        ensures kept { Keeps cx.old cx.new }
    {
        if !self.owner.is_open() {
            return Poll::Ready(Err(failed()));
        }
        let end = self.end.min(self.bytes.len());
        match hand_on(
            self.rt,
            &mut self.owner,
            cx,
            &self.bytes[..end],
            &mut self.taken,
        ) {
            Poll::Ready(Ok(())) => {}
            other => return other,
        }
        match self.owner.poll_flush(cx) {
            Poll::Pending => Poll::Pending,
            Poll::Ready(Ok(())) => {
                self.end = self.end.saturating_add(self.length);
                Poll::Ready(Ok(()))
            }
            Poll::Ready(Err(_)) => Poll::Ready(Err(failed())),
        }
    }

    // Polls for the bytes that the writer took.
    fn poll_memory(&mut self, cx: &mut Context<'_>) -> Poll<io::Result<Vec<u8>>>
        ensures armed { OnPending result (IsArmed cx.new) }
        ensures kept { Keeps cx.old cx.new }
    {
        if !self.owner.is_open() {
            return Poll::Ready(Err(failed()));
        }
        match self.owner.poll_take(cx, self.alloc) {
            Poll::Pending => Poll::Pending,
            Poll::Ready(bytes) => Poll::Ready(Ok(bytes)),
        }
    }
}

impl<A: WriteOwner + Drop, R: Runtime> Future for Writing<A, R> {
    type Output = io::Result<Vec<u8>>;

    fn poll(&mut self, cx: &mut Context<'_>) -> Poll<io::Result<Vec<u8>>> {
        let rt = self.rt;
        for _ in rt.forever() {
            if self.end > self.bytes.len() {
                return self.poll_memory(cx);
            }
            match self.poll_session(cx) {
                Poll::Pending => return Poll::Pending,
                Poll::Ready(Err(error)) => return Poll::Ready(Err(error)),
                Poll::Ready(Ok(())) => {}
            }
        }
        unreachable!()
    }
}
