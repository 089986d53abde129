//! Whole reads as futures, so that a program needs no loop of polls.
ghost use Rattle.std.specs.Prelude.{◌≡◌, ◌≤◌, ◌+◌, ◌⊎◌, length, slice_range, take, vec_items, vec_len, IfErr, IfOk};
ghost use Rattle.std.specs.Io.{StartsWith};
ghost use Rattle.std.specs.declared.io.ErrorKind.TheVariants.{OutOfMemory};
ghost use Rattle.futures.specs.Poll.{IfReady, OnPending};
ghost use Rattle.futures.specs.Task.{IsArmed, Keeps};
ghost use Rattle.blocking_io.specs.Passed.{AddsTo, Gave, GaveAll, IsOfKind, ReadFailed, ReadWaits, StoppedShort, WasRead};

use crate::io::{AsyncRead, IoFault};
use blocking_core::io::Fault;
use futures::Future;
use futures::task::{Context, Poll};
use std::io;
use std::io::ErrorKind;

/// Whole reads of what is read by polls.
pub trait AsyncReadExt: AsyncRead {
    /// A future that reads once: what is there, as much as `buf` holds. It answers how many bytes that were; none, where `buf` has room
    /// for one, means the end. It fails as [`AsyncRead::poll_read`] does. Until it was ready it may be polled.
    ///
    /// ```rust
    /// let count = block_on(&rt, file.read(&mut piece))??;
    /// out.extend_from_slice(&piece[..count])?;
    /// ```
    final fn read<'a>(&'a mut self, buf: &'a mut [u8]) -> ReadSome<'a, Self>
    where
        Self: Sized,
        requires { Self.closed self.old → ⊥ }
        ensures reader { result.reader.ghost_name ≡ self.entry.ghost_name }
        ensures open { Self.closed result.reader.now → ⊥ }
        ensures room { length result.buf.now ≡ length buf.old }
    {
        ReadSome { reader: self, buf }
    }

    /// A future that fills `buf`. Where the end comes before, it answers an error of the kind `UnexpectedEof`, else it fails as
    /// [`AsyncRead::poll_read`] does. What was read until then stands in the front of `buf`. Until it was ready it may be polled.
    ///
    /// ```rust
    /// let mut record = [0u8; 4];
    /// block_on(&rt, reader.read_exact(&mut record))??;
    /// ```
    final fn read_exact<'a>(&'a mut self, buf: &'a mut [u8]) -> ReadExact<'a, Self>
    where
        Self: Sized,
        requires { Self.closed self.old → ⊥ }
        ensures reader { result.reader.ghost_name ≡ self.entry.ghost_name }
        ensures open { Self.closed result.reader.now → ⊥ }
        ensures room { length result.buf.now ≡ length buf.old }
        ensures begins { result.filled ≡ 0 }
    {
        ReadExact {
            reader: self,
            buf,
            filled: 0,
        }
    }

    /// A future that reads to the end, and adds what it reads to `out`. It answers how many bytes that were. After a fault `out` has what
    /// was read until then. Where there is no memory for more the fault is an error of the kind `OutOfMemory`, and no byte is lost. Until
    /// it was ready it may be polled.
    ///
    /// ```rust
    /// let mut out = Vec::new(rt.alloc());
    /// let count = block_on(&rt, reader.read_to_end(&mut out))??;
    /// ```
    final fn read_to_end<'a>(&'a mut self, out: &'a mut Vec<u8>) -> ReadToEnd<'a, Self>
    where
        Self: Sized,
        requires { Self.closed self.old → ⊥ }
        ensures reader { result.reader.ghost_name ≡ self.entry.ghost_name }
        ensures open { Self.closed result.reader.now → ⊥ }
        ensures begins { result.start ≤ vec_len result.out.now }
        ensures out { (result.start ≡ vec_len out.old) × (result.out.now ≡ out.old) }
    {
        let start = out.len();
        ReadToEnd {
            reader: self,
            out,
            start,
        }
    }
}

impl<A: AsyncRead> AsyncReadExt for A {}

/// The future of [`AsyncReadExt::read`].
#[derive(Drop)]
pub struct ReadSome<'a, A> {
    reader: &'a mut A,
    buf: &'a mut [u8],
}

impl<'a, A: AsyncRead> Future for ReadSome<'a, A> {
    type Output = Result<usize, IoFault>;

    ghost use Rattle.std.specs.Prelude.{◌≡◌, ◌≤◌, length, IfOk};
    ghost use Rattle.futures.specs.Poll.{IfReady, OnPending};
    ghost use Rattle.futures.specs.Task.{IsArmed, Keeps};
    ghost use Rattle.blocking_io.specs.Polled.{OfRead, with_bytes};

    ghost can_poll = { λ read. A.closed read.reader.now → ⊥ };

    ghost gives = { λ read out. IfOk out (λ n. n ≤ length read.buf.now) };

    fn poll(&mut self, cx: &mut Context<'_>) -> Poll<Result<usize, IoFault>>
        requires { A.closed self.old.reader.now → ⊥ }
        ensures open { A.closed self.new.reader.now → ⊥ }
        ensures count { IfReady result (λ r. IfOk r (λ n. n ≤ length self.old.buf.now)) }
        ensures same_length { length self.new.buf.now ≡ length self.old.buf.now }
        ensures bytes { A.reads self.old.reader.now (OfRead (length self.old.buf.now) (with_bytes result self.new.buf.now)) self.new.reader.now }
        ensures armed { OnPending result (IsArmed cx.new) }
        ensures kept { Keeps cx.old cx.new }
    {
        let reader = &mut *self.reader;
        let buf = &mut *self.buf;
        reader.poll_read(cx, buf)
    }
}

/// The future of [`AsyncReadExt::read_exact`].
#[derive(Drop)]
pub struct ReadExact<'a, A> {
    reader: &'a mut A,
    buf: &'a mut [u8],
    // How many bytes were read.
    filled: usize,
}

// Fills the rest of a buffer, from where it is filled.
fn fill<A: AsyncRead>(
    reader: &mut A,
    cx: &mut Context<'_>,
    buf: &mut [u8],
    filled: &mut usize,
) -> Poll<Result<(), IoFault>>
    requires open { A.closed reader.old → ⊥ }
    requires within { filled.old ≤ length buf.old }
    ensures open { A.closed reader.new → ⊥ }
    ensures within { filled.new ≤ length buf.new }
    ensures whole { IfReady result (λ r. IfOk r (λ _. filled.new ≡ length buf.new)) }
    ensures onward { filled.old ≤ filled.new }
    ensures front { take filled.old buf.new ≡ take filled.old buf.old }
    ensures read { Gave A.reads reader.old (slice_range buf.new filled.old filled.new) reader.new }
    ensures waits { OnPending result (ReadWaits A.reads reader.new) }
    ensures fault { IfReady result (λ r. IfErr r (StoppedShort A.reads reader.old (slice_range buf.new filled.old filled.new) reader.new)) }
    ensures same_length { length buf.new ≡ length buf.old }
    ensures armed { OnPending result (IsArmed cx.new) }
    ensures kept { Keeps cx.old cx.new }
{
    while *filled < buf.len() {
        match reader.poll_read(cx, &mut buf[*filled..]) {
            Poll::Pending => return Poll::Pending,
            Poll::Ready(Ok(0)) => {
                let error = io::Error::from(ErrorKind::UnexpectedEof);
                return Poll::Ready(Err(Fault::Io(error)));
            }
            Poll::Ready(Ok(count)) => *filled += count,
            Poll::Ready(Err(why)) => return Poll::Ready(Err(why)),
        }
    }
    Poll::Ready(Ok(()))
}

impl<'a, A: AsyncRead> Future for ReadExact<'a, A> {
    type Output = Result<(), IoFault>;

    ghost use Rattle.std.specs.Prelude.{◌≡◌, ◌≤◌, length, slice_range, take, IfErr, IfOk};
    ghost use Rattle.futures.specs.Poll.{IfReady, OnPending};
    ghost use Rattle.futures.specs.Task.{IsArmed, Keeps};
    ghost use Rattle.blocking_io.specs.Passed.{Gave, ReadWaits, StoppedShort};

    ghost can_poll = { λ read. (A.closed read.reader.now → ⊥) × (read.filled ≤ length read.buf.now) };

    fn poll(&mut self, cx: &mut Context<'_>) -> Poll<Result<(), IoFault>>
        requires { (A.closed self.old.reader.now → ⊥) × (self.old.filled ≤ length self.old.buf.now) }
        ensures open { A.closed self.new.reader.now → ⊥ }
        ensures whole { IfReady result (λ r. IfOk r (λ _. self.new.filled ≡ length self.new.buf.now)) }
        ensures onward { self.old.filled ≤ self.new.filled }
        ensures front { take self.old.filled self.new.buf.now ≡ take self.old.filled self.old.buf.now }
        ensures read { Gave A.reads self.old.reader.now (slice_range self.new.buf.now self.old.filled self.new.filled) self.new.reader.now }
        ensures waits { OnPending result (ReadWaits A.reads self.new.reader.now) }
        ensures fault { IfReady result (λ r. IfErr r (StoppedShort A.reads self.old.reader.now (slice_range self.new.buf.now self.old.filled self.new.filled) self.new.reader.now)) }
        ensures same_length { length self.new.buf.now ≡ length self.old.buf.now }
        ensures again { OnPending result ((A.closed self.new.reader.now → ⊥) × (self.new.filled ≤ length self.new.buf.now)) }
        ensures armed { OnPending result (IsArmed cx.new) }
        ensures kept { Keeps cx.old cx.new }
    {
        let reader = &mut *self.reader;
        let buf = &mut *self.buf;
        fill(reader, cx, buf, &mut self.filled)
    }
}

/// The future of [`AsyncReadExt::read_to_end`].
#[derive(Drop)]
pub struct ReadToEnd<'a, A> {
    reader: &'a mut A,
    out: &'a mut Vec<u8>,
    // How many bytes stood in `out` before.
    start: usize,
}

// How many bytes are asked for at once: as many as were read before, within these bounds.
const LEAST: usize = 4_096;

const MOST: usize = 65_536;

// Reads once, behind what is there. The memory is taken before, so that no byte that was read is lost.
fn append<A: AsyncRead>(
    reader: &mut A,
    cx: &mut Context<'_>,
    out: &mut Vec<u8>,
) -> Poll<Result<usize, IoFault>>
    requires { A.closed reader.old → ⊥ }
    ensures open { A.closed reader.new → ⊥ }
    ensures more { IfReady result (λ r. IfOk r (λ n. vec_len out.new ≡ vec_len out.old + n)) }
    ensures front { StartsWith (vec_items out.new) (vec_items out.old) }
    ensures waits { OnPending result (vec_items out.new ≡ vec_items out.old) }
    ensures fault { IfReady result (λ r. IfErr r (λ _. vec_items out.new ≡ vec_items out.old)) }
    ensures read { AddsTo (vec_items out.old) (vec_items out.new) (λ bytes. Gave A.reads reader.old bytes reader.new) }
    ensures all { IfReady result (λ r. IfOk r (λ n. n ≡ 0 → AddsTo (vec_items out.old) (vec_items out.new) (λ bytes. GaveAll A.reads reader.old bytes reader.new))) }
    ensures failed { IfReady result (λ r. IfErr r (λ why. ReadFailed A.reads why reader.new ⊎ IsOfKind OutOfMemory why)) }
    ensures came { IfReady result (λ r. IfOk r (λ _. WasRead A.reads reader.new)) }
    ensures asked { OnPending result (WasRead A.reads reader.new) }
    ensures armed { OnPending result (IsArmed cx.new) }
    ensures kept { Keeps cx.old cx.new }
{
    let before = out.len();
    let room = before.max(LEAST).min(MOST);
    if let Err(error) = out.resize(before.saturating_add(room), 0) {
        return Poll::Ready(Err(Fault::Io(io::Error::from(error))));
    }
    let read = reader.poll_read(cx, &mut out[before..]);
    let count = match &read {
        Poll::Ready(Ok(count)) => *count,
        _ => 0,
    };
    out.truncate(before + count);
    read
}

// Reads to the end, behind what is there, and answers how many bytes there are behind the first `start`.
fn append_all<A: AsyncRead>(
    reader: &mut A,
    cx: &mut Context<'_>,
    out: &mut Vec<u8>,
    start: usize,
) -> Poll<Result<usize, IoFault>>
    requires open { A.closed reader.old → ⊥ }
    requires within { start ≤ vec_len out.old }
    ensures open { A.closed reader.new → ⊥ }
    ensures within { start ≤ vec_len out.new }
    ensures count { IfReady result (λ r. IfOk r (λ n. vec_len out.new ≡ start + n)) }
    ensures read { AddsTo (vec_items out.old) (vec_items out.new) (λ bytes. Gave A.reads reader.old bytes reader.new) }
    ensures asked { OnPending result (WasRead A.reads reader.new) }
    ensures all { IfReady result (λ r. IfOk r (λ _. AddsTo (vec_items out.old) (vec_items out.new) (λ bytes. GaveAll A.reads reader.old bytes reader.new))) }
    ensures failed { IfReady result (λ r. IfErr r (λ why. ReadFailed A.reads why reader.new ⊎ IsOfKind OutOfMemory why)) }
    ensures front { StartsWith (vec_items out.new) (vec_items out.old) }
    ensures armed { OnPending result (IsArmed cx.new) }
    ensures kept { Keeps cx.old cx.new }
{
    for _ in 0..u64::MAX {
        match append(reader, cx, out) {
            Poll::Ready(Ok(0)) => return Poll::Ready(Ok(out.len() - start)),
            Poll::Ready(Ok(_)) => {}
            Poll::Ready(Err(why)) => return Poll::Ready(Err(why)),
            Poll::Pending => return Poll::Pending,
        }
    }
    cx.yield_now()
}

impl<'a, A: AsyncRead> Future for ReadToEnd<'a, A> {
    type Output = Result<usize, IoFault>;

    ghost use Rattle.std.specs.Prelude.{◌≡◌, ◌≤◌, ◌+◌, ◌⊎◌, vec_items, vec_len, IfErr, IfOk};
    ghost use Rattle.std.specs.Io.{StartsWith};
    ghost use Rattle.std.specs.declared.io.ErrorKind.TheVariants.{OutOfMemory};
    ghost use Rattle.futures.specs.Poll.{IfReady, OnPending};
    ghost use Rattle.futures.specs.Task.{IsArmed, Keeps};
    ghost use Rattle.blocking_io.specs.Passed.{AddsTo, Gave, GaveAll, IsOfKind, ReadFailed, WasRead};

    ghost can_poll = { λ read. (A.closed read.reader.now → ⊥) × (read.start ≤ vec_len read.out.now) };

    fn poll(&mut self, cx: &mut Context<'_>) -> Poll<Result<usize, IoFault>>
        requires { (A.closed self.old.reader.now → ⊥) × (self.old.start ≤ vec_len self.old.out.now) }
        ensures open { A.closed self.new.reader.now → ⊥ }
        ensures count { IfReady result (λ r. IfOk r (λ n. vec_len self.new.out.now ≡ self.old.start + n)) }
        ensures read { AddsTo (vec_items self.old.out.now) (vec_items self.new.out.now) (λ bytes. Gave A.reads self.old.reader.now bytes self.new.reader.now) }
        ensures all { IfReady result (λ r. IfOk r (λ _. AddsTo (vec_items self.old.out.now) (vec_items self.new.out.now) (λ bytes. GaveAll A.reads self.old.reader.now bytes self.new.reader.now))) }
        ensures failed { IfReady result (λ r. IfErr r (λ why. ReadFailed A.reads why self.new.reader.now ⊎ IsOfKind OutOfMemory why)) }
        ensures asked { OnPending result (WasRead A.reads self.new.reader.now) }
        ensures start { self.new.start ≡ self.old.start }
        ensures front { StartsWith (vec_items self.new.out.now) (vec_items self.old.out.now) }
        ensures again { OnPending result ((A.closed self.new.reader.now → ⊥) × (self.new.start ≤ vec_len self.new.out.now)) }
        ensures armed { OnPending result (IsArmed cx.new) }
        ensures kept { Keeps cx.old cx.new }
    {
        let reader = &mut *self.reader;
        let out = &mut *self.out;
        append_all(reader, cx, out, self.start)
    }
}
