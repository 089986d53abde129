//! A writer of this library as one of the kit's.
ghost use Rattle.std.specs.Prelude.{◌≡◌, true, false};

use crate::errors::as_error;
use blocking_io::AsyncWrite;
use futures::task::{Context, Poll};
use std::io;
use std::io::ErrorKind;

/// What is written by polls, as what the kit's `tokio` writes.
///
/// What a write took is written later; a flush that is ready says that it was, and not that the disk has it. A write behind one that failed
/// takes none, which the kit's `write_all` and `copy` tell as `WriteZero`: a flush tells the fault. A shutdown flushes and then
/// closes, so that the handle goes; from its first poll on a write fails with [`ErrorKind::BrokenPipe`]. Over what is never closed, as an
/// `Open` of `blocking_anytime`, it flushes and fails with [`ErrorKind::Unsupported`]. A shutdown that failed may be asked for again. A fault
/// comes as an error of the system, as `io::Error::from` makes one of it.
///
/// ```rust
/// let writer = CompatWriter::new(writer);
/// let (writer, _) = block_on(rt, write_all(writer, b"a spruce".as_slice()))??;
/// let writer = block_on(rt, shutdown(writer))??;
/// ```
#[derive(Drop)]
pub struct CompatWriter<A: AsyncWrite + Drop> {
    inner: A,
    // Whether a shutdown was asked for. What was closed isn't written.
    is_shut: bool,
    ghost open: { is_shut ≡ false → A.closed inner → ⊥ },
}

impl<A: AsyncWrite + Drop> CompatWriter<A> {
    /// This writer, as one of the kit's.
    pub fn new(inner: A) -> CompatWriter<A>
        requires { A.closed inner → ⊥ }
        ensures inner { result.inner ≡ inner }
        ensures open { result.is_shut ≡ false }
    {
        CompatWriter {
            inner,
            is_shut: false,
        }
    }

    /// Whether a shutdown was asked for. As long as none was, the writer is open.
    pub fn is_shut(&self) -> bool
        ensures { result ≡ self.now.is_shut }
    {
        self.is_shut
    }

    /// The writer itself, as the last poll left it. It is open unless a shutdown was asked for.
    pub fn into_inner(self) -> A
        ensures same { result ≡ self.inner }
        ensures open { self.is_shut ≡ false → A.closed result → ⊥ }
    {
        let CompatWriter { inner, is_shut: _ } = self;
        inner
    }
}

impl<A: AsyncWrite + Drop> tokio::io::AsyncWrite for CompatWriter<A> {
    ghost use Rattle.std.specs.Prelude.{◌<◌, ◌≤◌, ◌⊎◌, List, [], length, Ok};
    ghost use Rattle.futures.specs.Poll.{OnPending};
    ghost use Rattle.futures.specs.Task.{Covers, Keeps};
    ghost use Rattle.tokio.specs.Io.Moved.{IfReadyErr, OnReadyOk, bytes_moved, count_moved};
    ghost use Rattle.blocking_tokio.specs.Writing.{IsBroken, Takes, takes_in_order, takes_nothing, TookNone, WasFlushed, WriteFails};

    ghost writes = { λ old bytes new. Takes A.writes old.is_shut old.inner bytes new.is_shut new.inner };

    ghost is_flushed = { λ writer. WasFlushed A.writes writer.inner };

    ghost is_shut_down = { λ writer. A.closed writer.inner };

    ghost is_full = { λ writer. TookNone A.writes writer.inner };

    ghost fails = { λ writer error. (writer.is_shut ≡ true) ⊎ WriteFails A.writes writer.inner error };

    fn poll_write(&mut self, cx: &mut Context<'_>, buf: &[u8]) -> Poll<io::Result<usize>>
        ensures same { self.new.is_shut ≡ self.old.is_shut }
        ensures shut { self.old.is_shut ≡ true → IsBroken result }
        ensures bound { count_moved result ≤ length buf.now }
        ensures bytes { Takes A.writes self.old.is_shut self.old.inner (bytes_moved result buf.now) self.new.is_shut self.new.inner }
        ensures full { result ≡ Poll.Ready (Ok 0) → 0 < length buf.now → TookNone A.writes self.new.inner }
        ensures failed { IfReadyErr result (λ error. (self.new.is_shut ≡ true) ⊎ WriteFails A.writes self.new.inner error) }
        ensures registered { OnPending result (Covers cx.new (λ _. ⊥)) }
        ensures kept { Keeps cx.old cx.new }
    {
        if self.is_shut {
            return Poll::Ready(Err(io::Error::from(ErrorKind::BrokenPipe)));
        }
        as_error(self.inner.poll_write(cx, buf))
    }

    fn poll_flush(&mut self, cx: &mut Context<'_>) -> Poll<io::Result<()>>
        ensures same { self.new.is_shut ≡ self.old.is_shut }
        ensures flushed { OnReadyOk result (WasFlushed A.writes self.new.inner) }
        ensures bytes { Takes A.writes self.old.is_shut self.old.inner [] self.new.is_shut self.new.inner }
        ensures failed { IfReadyErr result (λ error. (self.new.is_shut ≡ true) ⊎ WriteFails A.writes self.new.inner error) }
        ensures registered { OnPending result (Covers cx.new (λ _. ⊥)) }
        ensures kept { Keeps cx.old cx.new }
    {
        as_error(self.inner.poll_flush(cx))
    }

    fn poll_shutdown(&mut self, cx: &mut Context<'_>) -> Poll<io::Result<()>> {
        self.is_shut = true;
        as_error(self.inner.poll_close(cx))
    }

    ghost writes_nothing = { λ writer. takes_nothing A.writes writer.is_shut writer.inner };

    ghost writes_in_order = { λ old xs mid ys new. takes_in_order A.writes old.is_shut old.inner xs mid.is_shut mid.inner ys new.is_shut new.inner };
}
