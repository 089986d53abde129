//! Whole writes as futures, so that a program needs no loop of polls.
ghost use Rattle.std.specs.Prelude.{◌≡◌, ◌≤◌, false, List, [], length, slice_range, IfOk};
ghost use Rattle.futures.specs.Poll.{IfReady, OnPending};
ghost use Rattle.futures.specs.Task.{IsArmed, Keeps};
ghost use Rattle.blocking_io.specs.Passed.{FlushedSo, StoppedBy, TellsFault, Took};

use crate::io::{AsyncWrite, IoFault};
use blocking_core::io::Fault;
use futures::Future;
use futures::task::{Context, Poll};

/// Whole writes of what is written by polls.
pub trait AsyncWriteExt: AsyncWrite {
    /// A future that writes once: the first of `bytes`, as many as are taken. It answers how many bytes that were; none, where there is
    /// one, means that an earlier write failed, which a flush tells. It fails as [`AsyncWrite::poll_write`] does. Until it was ready it may
    /// be polled.
    ///
    /// ```rust
    /// let taken = block_on(&rt, writer.write(b"a spruce"))??;
    /// ```
    final fn write<'a>(&'a mut self, bytes: &'a [u8]) -> WriteSome<'a, Self>
    where
        Self: Sized,
        requires { Self.closed self.old → ⊥ }
        ensures writer { result.writer.ghost_name ≡ self.entry.ghost_name }
        ensures open { Self.closed result.writer.now → ⊥ }
        ensures all { result.bytes.now ≡ bytes.now }
    {
        WriteSome {
            writer: self,
            bytes,
        }
    }

    /// A future that has all of `bytes` taken for writing; that they are written, a flush tells. Where an earlier write failed it answers
    /// that fault, or [`Fault::WriteZero`] where the writer takes no more and knows of none; else it fails as [`AsyncWrite::poll_write`]
    /// does. How many bytes were taken before isn't known then. Until it was ready it may be polled.
    ///
    /// ```rust
    /// block_on(&rt, file.write_all(line))??;
    /// block_on(&rt, file.flush())??;
    /// ```
    final fn write_all<'a>(&'a mut self, bytes: &'a [u8]) -> WriteAll<'a, Self>
    where
        Self: Sized,
        requires { Self.closed self.old → ⊥ }
        ensures writer { result.writer.ghost_name ≡ self.entry.ghost_name }
        ensures open { Self.closed result.writer.now → ⊥ }
        ensures all { result.bytes.now ≡ bytes.now }
        ensures begins { (result.taken ≡ 0) × (result.has_failed ≡ false) }
    {
        WriteAll {
            writer: self,
            bytes,
            taken: 0,
            has_failed: false,
        }
    }

    /// A future that waits until all that was taken is written and flushed, or answers why it isn't. For a file that isn't
    /// the disk, as [`AsyncWrite::poll_flush`] says. It may be polled again.
    ///
    /// ```rust
    /// block_on(&rt, file.flush())??;
    /// ```
    final fn flush<'a>(&'a mut self) -> Flush<'a, Self>
    where
        Self: Sized,
        ensures writer { result.writer.ghost_name ≡ self.entry.ghost_name }
    {
        Flush { writer: self }
    }

    /// A future that flushes, and then closes. Where the writer was open and met a fault it is open still. It may be polled
    /// again.
    ///
    /// ```rust
    /// block_on(&rt, writer.close())??;
    /// let is_gone = writer.is_closed();
    /// ```
    final fn close<'a>(&'a mut self) -> Close<'a, Self>
    where
        Self: Sized,
        ensures writer { result.writer.ghost_name ≡ self.entry.ghost_name }
    {
        Close { writer: self }
    }
}

impl<A: AsyncWrite> AsyncWriteExt for A {}

/// The future of [`AsyncWriteExt::write`].
#[derive(Drop)]
pub struct WriteSome<'a, A> {
    writer: &'a mut A,
    bytes: &'a [u8],
}

impl<'a, A: AsyncWrite> Future for WriteSome<'a, A> {
    type Output = Result<usize, IoFault>;

    ghost use Rattle.std.specs.Prelude.{◌≡◌, ◌≤◌, length, IfOk};
    ghost use Rattle.futures.specs.Poll.{IfReady, OnPending};
    ghost use Rattle.futures.specs.Task.{IsArmed, Keeps};
    ghost use Rattle.blocking_io.specs.Polled.{OfWrite, with_bytes};

    ghost can_poll = { λ write. A.closed write.writer.now → ⊥ };

    ghost gives = { λ write out. IfOk out (λ n. n ≤ length write.bytes.now) };

    fn poll(&mut self, cx: &mut Context<'_>) -> Poll<Result<usize, IoFault>>
        requires { A.closed self.old.writer.now → ⊥ }
        ensures open { A.closed self.new.writer.now → ⊥ }
        ensures count { IfReady result (λ r. IfOk r (λ n. n ≤ length self.old.bytes.now)) }
        ensures same_bytes { self.new.bytes.now ≡ self.old.bytes.now }
        ensures bytes { A.writes self.old.writer.now (OfWrite (with_bytes result self.old.bytes.now)) self.new.writer.now }
        ensures armed { OnPending result (IsArmed cx.new) }
        ensures kept { Keeps cx.old cx.new }
    {
        let writer = &mut *self.writer;
        writer.poll_write(cx, self.bytes)
    }
}

/// The future of [`AsyncWriteExt::write_all`].
#[derive(Drop)]
pub struct WriteAll<'a, A> {
    writer: &'a mut A,
    bytes: &'a [u8],
    // How many bytes were taken.
    taken: usize,
    // Whether no more are: a flush has to tell why.
    has_failed: bool,
}

// Has the rest of the bytes taken, or answers whether there is a fault to tell.
fn hand_on<A: AsyncWrite>(
    writer: &mut A,
    cx: &mut Context<'_>,
    bytes: &[u8],
    taken: &mut usize,
) -> Poll<Result<bool, IoFault>>
    requires open { A.closed writer.old → ⊥ }
    requires within { taken.old ≤ length bytes.now }
    ensures open { A.closed writer.new → ⊥ }
    ensures within { taken.new ≤ length bytes.now }
    ensures onward { taken.old ≤ taken.new }
    ensures whole { IfReady result (λ r. IfOk r (λ has_failed. has_failed ≡ false → taken.new ≡ length bytes.now)) }
    ensures written { Took A.writes writer.old (slice_range bytes.now taken.old taken.new) writer.new }
    ensures stopped { StoppedBy A.writes result writer.new }
    ensures armed { OnPending result (IsArmed cx.new) }
    ensures kept { Keeps cx.old cx.new }
{
    while *taken < bytes.len() {
        match writer.poll_write(cx, &bytes[*taken..]) {
            Poll::Pending => return Poll::Pending,
            Poll::Ready(Ok(0)) => return Poll::Ready(Ok(true)),
            Poll::Ready(Ok(count)) => *taken += count,
            Poll::Ready(Err(why)) => return Poll::Ready(Err(why)),
        }
    }
    Poll::Ready(Ok(false))
}

// Tells the fault for which a writer takes no more. A writer that knows of none has taken nothing.
fn tell_fault<A: AsyncWrite>(writer: &mut A, cx: &mut Context<'_>) -> Poll<IoFault>
    requires { A.closed writer.old → ⊥ }
    ensures open { A.closed writer.new → ⊥ }
    ensures written { Took A.writes writer.old [] writer.new }
    ensures waits { OnPending result (FlushedSo A.writes Poll.Pending writer.new) }
    ensures fault { IfReady result (λ why. TellsFault A.writes why writer.new) }
    ensures armed { OnPending result (IsArmed cx.new) }
    ensures kept { Keeps cx.old cx.new }
{
    match writer.poll_flush(cx) {
        Poll::Pending => Poll::Pending,
        Poll::Ready(Ok(())) => Poll::Ready(Fault::WriteZero),
        Poll::Ready(Err(why)) => Poll::Ready(why),
    }
}

impl<'a, A: AsyncWrite> Future for WriteAll<'a, A> {
    type Output = Result<(), IoFault>;

    ghost use Rattle.std.specs.Prelude.{◌≡◌, ◌≤◌, ◌⊎◌, true, [], length, slice_range, Ok, Err, IfErr, IfOk};
    ghost use Rattle.futures.specs.Poll.{IfReady, OnPending};
    ghost use Rattle.futures.specs.Task.{IsArmed, Keeps};
    ghost use Rattle.blocking_io.specs.Passed.{FlushedSo, TellsFault, Took, WroteSo};

    ghost can_poll = { λ write. (A.closed write.writer.now → ⊥) × (write.taken ≤ length write.bytes.now) };

    fn poll(&mut self, cx: &mut Context<'_>) -> Poll<Result<(), IoFault>>
        requires { (A.closed self.old.writer.now → ⊥) × (self.old.taken ≤ length self.old.bytes.now) }
        ensures open { A.closed self.new.writer.now → ⊥ }
        ensures whole { IfReady result (λ r. IfOk r (λ _. self.new.taken ≡ length self.new.bytes.now)) }
        ensures onward { self.old.taken ≤ self.new.taken }
        ensures written { Took A.writes self.old.writer.now (slice_range self.old.bytes.now self.old.taken self.new.taken) self.new.writer.now }
        ensures waits { OnPending result (WroteSo A.writes Poll.Pending self.new.writer.now ⊎ ((self.new.has_failed ≡ true) × FlushedSo A.writes Poll.Pending self.new.writer.now)) }
        ensures fault { IfReady result (λ r. IfErr r (λ why. WroteSo A.writes (Poll.Ready (Err why)) self.new.writer.now ⊎ ((self.new.has_failed ≡ true) × TellsFault A.writes why self.new.writer.now))) }
        ensures stopped { self.new.has_failed ≡ true → (self.old.has_failed ≡ true) ⊎ ((mid : A) × WroteSo A.writes (Poll.Ready (Ok [])) mid) }
        ensures same_bytes { self.new.bytes.now ≡ self.old.bytes.now }
        ensures again { OnPending result ((A.closed self.new.writer.now → ⊥) × (self.new.taken ≤ length self.new.bytes.now)) }
        ensures armed { OnPending result (IsArmed cx.new) }
        ensures kept { Keeps cx.old cx.new }
    {
        let writer = &mut *self.writer;
        if !self.has_failed {
            match hand_on(writer, cx, self.bytes, &mut self.taken) {
                Poll::Pending => return Poll::Pending,
                Poll::Ready(Ok(false)) => return Poll::Ready(Ok(())),
                Poll::Ready(Err(why)) => return Poll::Ready(Err(why)),
                Poll::Ready(Ok(true)) => self.has_failed = true,
            }
        }
        match tell_fault(writer, cx) {
            Poll::Pending => Poll::Pending,
            Poll::Ready(why) => Poll::Ready(Err(why)),
        }
    }
}

/// The future of [`AsyncWriteExt::flush`].
#[derive(Drop)]
pub struct Flush<'a, A> {
    writer: &'a mut A,
}

impl<'a, A: AsyncWrite> Future for Flush<'a, A> {
    type Output = Result<(), IoFault>;

    ghost use Rattle.std.specs.Prelude.{◌↔◌};
    ghost use Rattle.futures.specs.Poll.{OnPending};
    ghost use Rattle.futures.specs.Task.{IsArmed, Keeps};
    ghost use Rattle.blocking_io.specs.Polled.{OfFlush};

    fn poll(&mut self, cx: &mut Context<'_>) -> Poll<Result<(), IoFault>>
        ensures same { A.closed self.new.writer.now ↔ A.closed self.old.writer.now }
        ensures flushed { A.writes self.old.writer.now (OfFlush result) self.new.writer.now }
        ensures armed { OnPending result (IsArmed cx.new) }
        ensures kept { Keeps cx.old cx.new }
    {
        let writer = &mut *self.writer;
        writer.poll_flush(cx)
    }
}

/// The future of [`AsyncWriteExt::close`].
#[derive(Drop)]
pub struct Close<'a, A> {
    writer: &'a mut A,
}

impl<'a, A: AsyncWrite> Future for Close<'a, A> {
    ghost use Rattle.std.specs.Prelude.{IfErr, IfOk};
    ghost use Rattle.futures.specs.Poll.{IfReady, OnPending};
    ghost use Rattle.futures.specs.Task.{IsArmed, Keeps};

    type Output = Result<(), IoFault>;

    fn poll(&mut self, cx: &mut Context<'_>) -> Poll<Result<(), IoFault>>
        ensures closed { IfReady result (λ r. IfOk r (λ _. A.closed self.new.writer.now)) }
        ensures open { (A.closed self.old.writer.now → ⊥) → IfReady result (λ r. IfErr r (λ _. A.closed self.new.writer.now → ⊥)) }
        ensures armed { OnPending result (IsArmed cx.new) }
        ensures kept { Keeps cx.old cx.new }
    {
        let writer = &mut *self.writer;
        writer.poll_close(cx)
    }
}
