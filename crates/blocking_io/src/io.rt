//! What polls of a lent handle of the system ask and answer.
ghost use Rattle.std.specs.Prelude.{◌≡◌, ◌≤◌, ◌↔◌, length, IfErr, IfOk};
ghost use Rattle.futures.specs.Poll.{IfReady, OnPending};
ghost use Rattle.futures.specs.Task.{IsArmed, Keeps};
ghost use Rattle.blocking_io.specs.Polled.{ReaderPoll, WriterPoll, OfFlush, OfRead, OfWrite, with_bytes};

use blocking_core::io::Fault;
use futures::task::{Context, Poll};
use std::io;
use std::io::SeekFrom;

/// Why a call on a lent handle of the system failed.
///
/// A `?` passes it on as an `io::Error`. There are two here, since `block_on` itself may fail:
///
/// ```rust
/// block_on(&rt, file.flush())??;
/// ```
pub type IoFault = Fault<io::Error>;

/// What is read by polls.
///
/// A function over any reader requires that it is open:
///
/// ```rust
/// fn all<A: AsyncRead, H: Host>(rt: &H, reader: &mut A) -> io::Result<Vec<u8>>
///     requires { A.closed reader.old → ⊥ }
/// {
///     let mut out = Vec::new(rt.alloc());
///     block_on(rt, reader.read_to_end(&mut out))??;
///     Ok(out)
/// }
/// ```
pub trait AsyncRead {
    /// Whether it was closed. What is closed isn't read.
    ghost closed: { Self → Type 0 };

    /// A poll that led from the one state to the other may have been this one. It has how many bytes there was room for, and what it
    /// answered, with the bytes. Where an impl doesn't say, it may be any.
    ghost reads: { Self → ReaderPoll → Self → Type 0 } = { λ _ _ _. Unit {0} };

    /// Reads the next bytes into `buf`, and answers how many they are. None, where the buffer has room for one, means the end. After a
    /// fault of its own, or a refusal where reading couldn't begin, nothing was read, and it may be read again.
    ///
    /// A poll that waits has registered, and is polled again.
    ///
    /// ```rust
    /// fn poll(&mut self, cx: &mut Context<'_>) -> Poll<Result<usize, IoFault>> {
    ///     self.reader.poll_read(cx, &mut self.piece)
    /// }
    /// ```
    fn poll_read(&mut self, cx: &mut Context<'_>, buf: &mut [u8]) -> Poll<Result<usize, IoFault>>
        requires { closed self.old → ⊥ }
        ensures open { closed self.new → ⊥ }
        ensures count { IfReady result (λ r. IfOk r (λ n. n ≤ length buf.old)) }
        ensures same_length { length buf.new ≡ length buf.old }
        ensures bytes { reads self.old (OfRead (length buf.old) (with_bytes result buf.new)) self.new }
        ensures armed { OnPending result (IsArmed cx.new) }
        ensures kept { Keeps cx.old cx.new };
}

/// What is written by polls. What a poll took for writing is written later, and a flush waits for that.
///
/// A function over any writer requires that it is open:
///
/// ```rust
/// fn log<A: AsyncWrite, H: Host>(rt: &H, log: &mut A, line: &[u8]) -> io::Result<()>
///     requires { A.closed log.old → ⊥ }
/// {
///     block_on(rt, log.write_all(line))??;
///     block_on(rt, log.flush())??;
///     Ok(())
/// }
/// ```
pub trait AsyncWrite {
    /// Whether it was closed. What is closed isn't written.
    ghost closed: { Self → Type 0 };

    /// A poll that led from the one state to the other may have been this one, of a write with the bytes that it took or of a flush. Where
    /// an impl doesn't say, it may be any.
    ghost writes: { Self → WriterPoll → Self → Type 0 } = { λ _ _ _. Unit {0} };

    /// Takes the first bytes of `bytes` for writing, and answers how many they are. None, where there is one, means that an earlier write
    /// failed. No more is taken until a call that asks for something else has met that fault; a flush and a close report it. After a
    /// fault, or a refusal where writing couldn't begin, nothing of `bytes` was taken.
    ///
    /// A poll that waits has registered, and is polled again.
    ///
    /// ```rust
    /// fn poll(&mut self, cx: &mut Context<'_>) -> Poll<Result<usize, IoFault>> {
    ///     self.writer.poll_write(cx, self.line)
    /// }
    /// ```
    fn poll_write(&mut self, cx: &mut Context<'_>, bytes: &[u8]) -> Poll<Result<usize, IoFault>>
        requires { closed self.old → ⊥ }
        ensures open { closed self.new → ⊥ }
        ensures count { IfReady result (λ r. IfOk r (λ n. n ≤ length bytes.now)) }
        ensures bytes { writes self.old (OfWrite (with_bytes result bytes.now)) self.new }
        ensures armed { OnPending result (IsArmed cx.new) }
        ensures kept { Keeps cx.old cx.new };

    /// Waits until all that was taken is written and flushed, or answers why it isn't. A fault is told once. What a file was
    /// given so may not be on the disk yet: an operation that calls its `sync_all` sees to that.
    ///
    /// A poll that waits has registered, and is polled again.
    ///
    /// ```rust
    /// fn poll(&mut self, cx: &mut Context<'_>) -> Poll<Result<(), IoFault>> {
    ///     self.writer.poll_flush(cx)
    /// }
    /// ```
    fn poll_flush(&mut self, cx: &mut Context<'_>) -> Poll<Result<(), IoFault>>
        ensures same { closed self.new ↔ closed self.old }
        ensures bytes { writes self.old (OfFlush result) self.new }
        ensures armed { OnPending result (IsArmed cx.new) }
        ensures kept { Keeps cx.old cx.new };

    /// Flushes, and then closes. What was open and met a fault is open still, and may be closed again. Like a flush, this isn't
    /// the disk.
    ///
    /// A poll that waits has registered, and is polled again.
    fn poll_close(&mut self, cx: &mut Context<'_>) -> Poll<Result<(), IoFault>>
        ensures closed { IfReady result (λ r. IfOk r (λ _. closed self.new)) }
        ensures open { (closed self.old → ⊥) → IfReady result (λ r. IfErr r (λ _. closed self.new → ⊥)) }
        ensures armed { OnPending result (IsArmed cx.new) }
        ensures kept { Keeps cx.old cx.new };
}

/// What is moved to a position by polls.
///
/// A function over anything that is moved requires that it is open:
///
/// ```rust
/// fn length<A: AsyncSeek, H: Host>(rt: &H, file: &mut A) -> io::Result<u64>
///     requires { A.closed file.old → ⊥ }
/// {
///     Ok(block_on(rt, file.seek(SeekFrom::End(0)))??)
/// }
/// ```
pub trait AsyncSeek {
    /// Whether it was closed. What is closed isn't moved.
    ghost closed: { Self → Type 0 };

    /// Moves to a position, and answers where that is, counted in bytes from the start. A poll that asks for the position of a seek under
    /// way takes that one's answer; one that asks for another begins anew. A fault is that of the move, or of what was under way before; a
    /// refusal says that moving couldn't begin. It may be asked again after both.
    ///
    /// A poll that waits has registered, and is polled again.
    ///
    /// ```rust
    /// fn poll(&mut self, cx: &mut Context<'_>) -> Poll<Result<u64, IoFault>> {
    ///     self.log.poll_seek(cx, SeekFrom::End(0))
    /// }
    /// ```
    fn poll_seek(&mut self, cx: &mut Context<'_>, to: SeekFrom) -> Poll<Result<u64, IoFault>>
        requires { closed self.old → ⊥ }
        ensures open { closed self.new → ⊥ }
        ensures armed { OnPending result (IsArmed cx.new) }
        ensures kept { Keeps cx.old cx.new };
}
