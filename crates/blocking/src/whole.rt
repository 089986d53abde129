//! Whole copies, reads, writes and calls. The thread that asks waits for the answer.
//!
//! Each lends what it is given to a pool, and lets it go before it answers. One that takes an
//! executor uses that pool. One that takes a runtime makes a pool of its own, whose spawner, a
//! thread, lasts as long as the process: it is for what a program does once.
ghost use Rattle.std.specs.Prelude.{◌≡◌, ◌<◌, [], vec_items, vec_len, IfOk};
ghost use Rattle.futures.specs.Poll.{IfReady, OnPending};
ghost use Rattle.futures.specs.Task.{IsArmed, Keeps};
ghost use Rattle.blocking_io.specs.Copies.{IsCopied};
ghost use Rattle.blocking_unblock.specs.declared.handle_state.HandleState.TheVariants.{Idle as AtOwner};
ghost use Rattle.blocking.specs.Wholes.{GivesAll, GivesAllOf, IsCopiedOf, TakesAll, TakesAllOf};

use crate::copy_jobs::CopyJobs;
use blocking_core::io::Fault;
use blocking_core::pool::{Carries, Job, Refusal};
use blocking_core::task::Call;
use blocking_executor::{CallJob, Executor, Host, Runtime, unblock};
use blocking_io::{AsyncRead, AsyncWrite, Copier, CopyFault, IoFault};
use blocking_unblock::Unblock;
use blocking_unblock_jobs::{ReadJob, WriteJob};
use futures::Future;
use futures::executor::block_on;
use futures::task::{Context, Poll};
use std::alloc::{AllocError, Global};
use std::io::{Read, Write};
use std::random::RandomSource;
use std::{io, mem};

// How many bytes a copy reads at once, at most.
const PIECE: usize = 65_536;

/// Copies all that `from` gives to `to` on a pool that is there, and flushes. Answers how many bytes
/// that were, or the greatest number of 64 bits where there were more.
///
/// It fails as a [`Copier`] does, and then a part of the bytes may be written. Where there was no
/// memory or no worker to begin with, that is told as a failed read.
///
/// A flush isn't the disk: see [`copy`].
///
/// ```rust
/// let executor: Executor<CopyJobs<H, File, File>, H> = Executor::new(rt, Some("2"))?;
/// let first = copy_over(&executor, from, to)?;
/// let second = copy_over(&executor, other, another)?;
/// ```
pub fn copy_over<R, W, J, H>(executor: &Executor<J, H>, from: R, to: W) -> Result<u64, CopyFault>
where
    R: Read + Drop,
    W: Write + Drop,
    J: Job + Carries<ReadJob<R, H>> + Carries<WriteJob<W, H>>,
    H: Runtime + RandomSource,
    ensures { IfOk result (IsCopiedOf ⟦<Unblock<R, (), J, H> as AsyncRead>⟧.reads
        ⟦<Unblock<W, (), J, H> as AsyncWrite>⟧.writes
        (λ reader. reader.place ≡ AtOwner from) (λ writer. writer.place ≡ AtOwner to)) }
{
    let rt = executor.runtime();
    match (executor.try_clone(), executor.try_clone()) {
        (Ok(first), Ok(second)) => {
            let reader: Unblock<R, (), J, H> = Unblock::new(first, from);
            let writer: Unblock<W, (), J, H> = Unblock::new(second, to);
            copy_whole(&rt, reader, writer, PIECE)
        }
        _ => Err(CopyFault::Reading(Fault::Refused(Refusal::Memory))),
    }
}

/// Copies all that `from` gives to `to` on a pool of its own, as [`copy_over`] does.
///
/// A flush of a file isn't the disk. Where its bytes are to be there, `to` is a writer of the
/// program's own whose `flush` calls `sync_all`, as in `tools/src/cp.rt`.
///
/// ```rust
/// let copied = copy(rt, File::open(&system, from)?, File::create(&system, to)?)?;
/// ```
pub fn copy<R, W, H>(rt: H, from: R, to: W) -> Result<u64, CopyFault>
where
    R: Read + Drop + Send + 'static,
    W: Write + Drop + Send + 'static,
    H: Host,
    ensures { IfOk result (IsCopiedOf ⟦<Unblock<R, (), CopyJobs<H, R, W>, H> as AsyncRead>⟧.reads
        ⟦<Unblock<W, (), CopyJobs<H, R, W>, H> as AsyncWrite>⟧.writes
        (λ reader. reader.place ≡ AtOwner from) (λ writer. writer.place ≡ AtOwner to)) }
{
    match Executor::<CopyJobs<H, R, W>, H>::new(rt, Some("2")) {
        Ok(executor) => copy_over(&executor, from, to),
        Err(why) => Err(CopyFault::Reading(Fault::Refused(why))),
    }
}

/// Reads `from` to its end on a pool that is there, and answers all that it gave.
///
/// It fails as the reader does, where the session is refused, and where there is no memory. What
/// was read is lost then.
///
/// ```rust
/// let executor: Executor<ReadJob<File, H>, H> = Executor::new(rt, Some("1"))?;
/// let first = read_all_over(&executor, file)?;
/// let second = read_all_over(&executor, other)?;
/// ```
pub fn read_all_over<R, J, H>(executor: &Executor<J, H>, from: R) -> io::Result<Vec<u8>>
where
    R: Read + Drop,
    J: Job + Carries<ReadJob<R, H>>,
    H: Runtime + RandomSource,
    ensures { IfOk result (λ bytes. GivesAllOf ⟦<Unblock<R, (), J, H> as AsyncRead>⟧.reads
        (λ reader. reader.place ≡ AtOwner from) (vec_items bytes)) }
{
    let rt = executor.runtime();
    let reader: Unblock<R, (), J, H> = Unblock::new(executor.try_clone()?, from);
    read_whole(&rt, reader)
}

/// Reads `from` to its end on a pool of its own, as [`read_all_over`] does.
///
/// ```rust
/// let bytes = read_all(rt, File::open(&system, path)?)?;
/// ```
pub fn read_all<R, H>(rt: H, from: R) -> io::Result<Vec<u8>>
where
    R: Read + Drop + Send + 'static,
    H: Host,
    ensures { IfOk result (λ bytes. GivesAllOf ⟦<Unblock<R, (), ReadJob<R, H>, H> as AsyncRead>⟧.reads
        (λ reader. reader.place ≡ AtOwner from) (vec_items bytes)) }
{
    let executor: Executor<ReadJob<R, H>, H> = Executor::new(rt, Some("1"))?;
    read_all_over(&executor, from)
}

/// Writes all of `bytes` to `to` on a pool that is there, and flushes.
///
/// It fails as the writer does, where the session is refused, and where there is no memory. A part
/// of the bytes may be written then. An error of the kind `WriteZero` says that the writer took no
/// more.
///
/// ```rust
/// let executor: Executor<WriteJob<File, H>, H> = Executor::new(rt, Some("1"))?;
/// write_all_over(&executor, file, b"oaks\n")?;
/// write_all_over(&executor, other, b"firs\n")?;
/// ```
pub fn write_all_over<W, J, H>(executor: &Executor<J, H>, to: W, bytes: &[u8]) -> io::Result<()>
where
    W: Write + Drop,
    J: Job + Carries<WriteJob<W, H>>,
    H: Runtime + RandomSource,
    ensures { IfOk result (λ _. TakesAllOf ⟦<Unblock<W, (), J, H> as AsyncWrite>⟧.writes
        (λ writer. writer.place ≡ AtOwner to) bytes.now) }
{
    let rt = executor.runtime();
    let writer: Unblock<W, (), J, H> = Unblock::new(executor.try_clone()?, to);
    write_whole(&rt, writer, bytes)
}

/// Writes all of `bytes` to `to` on a pool of its own, as [`write_all_over`] does.
///
/// ```rust
/// write_all(rt, File::create(&system, path)?, b"oaks\n")?;
/// ```
pub fn write_all<W, H>(rt: H, to: W, bytes: &[u8]) -> io::Result<()>
where
    W: Write + Drop + Send + 'static,
    H: Host,
    ensures { IfOk result (λ _. TakesAllOf ⟦<Unblock<W, (), WriteJob<W, H>, H> as AsyncWrite>⟧.writes
        (λ writer. writer.place ≡ AtOwner to) bytes.now) }
{
    let executor: Executor<WriteJob<W, H>, H> = Executor::new(rt, Some("1"))?;
    write_all_over(&executor, to, bytes)
}

/// Makes a call on a pool that is there, and answers what it gave.
///
/// It fails where the call is refused, or where there is no memory to wait for it. The call is let
/// go then: [`unblock`] hands a refused one back.
///
/// ```rust
/// let doubled = call_over(&executor, Double(21))?;
/// ```
pub fn call_over<F, J, H>(executor: &Executor<J, H>, call: F) -> io::Result<F::Out>
where
    F: Call<Out: Drop> + Drop,
    J: Job + Carries<CallJob<F, H>>,
    H: Runtime + RandomSource,
    ensures { IfOk result F.may_give }
{
    let rt = executor.runtime();
    block_on(&rt, unblock(executor, call)?)
}

/// Makes a call on a pool of its own, as [`call_over`] does.
///
/// ```rust
/// let doubled = call(rt, Double(21))?;
/// ```
pub fn call<F, H>(rt: H, call: F) -> io::Result<F::Out>
where
    F: Call<Out: Drop + Send> + Drop + Send + 'static,
    F::Out: 'static,
    H: Host,
    ensures { IfOk result F.may_give }
{
    let executor: Executor<CallJob<F, H>, H> = Executor::new(rt, Some("1"))?;
    call_over(&executor, call)
}

// Copies all that a reader gives to a writer.
fn copy_whole<A, B, H>(rt: &H, reader: A, writer: B, piece: usize) -> Result<u64, CopyFault>
where
    A: AsyncRead + Drop,
    B: AsyncWrite + Drop,
    H: Runtime + RandomSource,
    requires some { 0 < piece }
    requires reader_open { A.closed reader → ⊥ }
    requires writer_open { B.closed writer → ⊥ }
    ensures { IfOk result (IsCopied A.reads B.writes reader writer) }
{
    let Ok(copier) = Copier::new(rt.alloc(), reader, writer, piece) else {
        return Err(CopyFault::Reading(Fault::Refused(Refusal::Memory)));
    };
    match block_on(rt, copier) {
        Ok(copied) => copied,
        Err(error) => Err(CopyFault::Reading(Fault::Io(error))),
    }
}

// A reader that is read to its end: a future of all that it gives.
#[derive(Drop)]
struct ReadingAll<A> {
    reader: A,
    // What a poll reads into.
    piece: Vec<u8>,
    // What was read so far.
    bytes: Vec<u8>,
    alloc: Global,
    ghost some: { 0 < vec_len piece },
}

impl<A: AsyncRead + Drop> ReadingAll<A> {
    ghost use Rattle.blocking_io.specs.Passed.{AddsTo, Gave, GaveAll};

    fn new(alloc: Global, reader: A) -> Result<ReadingAll<A>, AllocError>
        ensures { IfOk result (λ reading. (reading.reader ≡ reader) × (vec_items reading.bytes ≡ [])) }
    {
        Ok(ReadingAll {
            reader,
            piece: vec![in alloc; 0u8; PIECE]?,
            bytes: Vec::new(alloc),
            alloc,
        })
    }

    // Reads once, and adds what came. How many bytes that were.
    fn read_on(&mut self, cx: &mut Context<'_>) -> Poll<io::Result<usize>>
        requires { A.closed self.old.reader → ⊥ }
        ensures open { A.closed self.new.reader → ⊥ }
        ensures waits { OnPending result (AddsTo (vec_items self.old.bytes) (vec_items self.new.bytes)
            (λ more. Gave A.reads self.old.reader more self.new.reader)) }
        ensures read { IfReady result (λ r. IfOk r (λ _. AddsTo (vec_items self.old.bytes) (vec_items self.new.bytes)
            (λ more. Gave A.reads self.old.reader more self.new.reader))) }
        ensures all { IfReady result (λ r. IfOk r (λ n. n ≡ 0 → AddsTo (vec_items self.old.bytes) (vec_items self.new.bytes)
            (λ more. GaveAll A.reads self.old.reader more self.new.reader))) }
        ensures armed { OnPending result (IsArmed cx.new) }
        ensures kept { Keeps cx.old cx.new }
    {
        match self.reader.poll_read(cx, &mut self.piece) {
            Poll::Pending => Poll::Pending,
            Poll::Ready(Err(why)) => Poll::Ready(Err(io::Error::from(why))),
            Poll::Ready(Ok(count)) => match self.bytes.extend_from_slice(&self.piece[..count]) {
                Ok(()) => Poll::Ready(Ok(count)),
                Err(error) => Poll::Ready(Err(io::Error::from(error))),
            },
        }
    }
}

impl<A: AsyncRead + Drop> Future for ReadingAll<A> {
    type Output = io::Result<Vec<u8>>;

    ghost use Rattle.blocking.specs.Wholes.{GivesMore};

    ghost can_poll = { λ reading. A.closed reading.reader → ⊥ };

    ghost gives = { λ reading out. IfOk out (λ bytes.
        GivesMore A.reads reading.reader (vec_items reading.bytes) (vec_items bytes)) };

    fn poll(&mut self, cx: &mut Context<'_>) -> Poll<io::Result<Vec<u8>>> {
        for _ in 0..u64::MAX {
            match self.read_on(cx) {
                Poll::Pending => return Poll::Pending,
                Poll::Ready(Err(error)) => return Poll::Ready(Err(error)),
                Poll::Ready(Ok(0)) => {
                    let none = Vec::new(self.alloc);
                    return Poll::Ready(Ok(mem::replace(&mut self.bytes, none)));
                }
                Poll::Ready(Ok(_)) => {}
            }
        }
        cx.yield_now()
    }
}

// All that a reader gives.
fn read_whole<A, H>(rt: &H, reader: A) -> io::Result<Vec<u8>>
where
    A: AsyncRead + Drop,
    H: Runtime + RandomSource,
    requires { A.closed reader → ⊥ }
    ensures { IfOk result (λ bytes. GivesAll A.reads reader (vec_items bytes)) }
{
    let reading = ReadingAll::new(rt.alloc(), reader)?;
    block_on(rt, reading)?
}

// Bytes in memory, which are read from the first on.
#[derive(Drop)]
struct Bytes<'a> {
    rest: &'a [u8],
}

impl<'a> AsyncRead for Bytes<'a> {
    ghost use Rattle.blocking.specs.Wholes.{ReadsFirst};

    ghost closed = { λ _. ⊥ };

    ghost reads = { λ old poll new. ReadsFirst old.rest.now poll new.rest.now };

    fn poll_read(&mut self, _cx: &mut Context<'_>, buf: &mut [u8]) -> Poll<Result<usize, IoFault>> {
        let count = self.rest.len().min(buf.len());
        let (first, rest) = self.rest.split_at(count);
        buf[..count].copy_from_slice(first);
        self.rest = rest;
        Poll::Ready(Ok(count))
    }
}

// Has a writer take all the bytes, and flushes it.
fn write_whole<A, H>(rt: &H, writer: A, bytes: &[u8]) -> io::Result<()>
where
    A: AsyncWrite + Drop,
    H: Runtime + RandomSource,
    requires { A.closed writer → ⊥ }
    ensures { IfOk result (λ _. TakesAll A.writes writer bytes.now) }
{
    let piece = bytes.len().max(1).min(PIECE);
    copy_whole(rt, Bytes { rest: bytes }, writer, piece)?;
    Ok(())
}
