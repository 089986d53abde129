//! What the kit's `tokio` reads or writes, as a reader or a writer of this library.
ghost use Rattle.std.specs.Prelude.{◌≡◌, true, false};

use crate::errors::as_fault;
use blocking_io::{AsyncRead, AsyncWrite, IoFault};
use futures::ready;
use futures::task::{Context, Poll};

/// What the kit's `tokio` reads or writes, as what is read or written by this library's polls.
///
/// It is closed, for writing alone, by a shutdown that is done. It waits for no pool.
///
/// A copy from the kit's pipe to a lent file:
///
/// ```rust
/// let (near, far) = duplex(rt.alloc(), 3)?;
/// let copier = Copier::new(rt.alloc(), FromTokio::new(near), to, 65_536)?;
/// ```
#[derive(Drop)]
pub struct FromTokio<R> {
    inner: R,
    // Whether it was shut down.
    is_closed: bool,
}

impl<R> FromTokio<R> {
    /// This, as a reader or a writer of this library.
    pub fn new(inner: R) -> FromTokio<R>
        ensures inner { result.inner ≡ inner }
        ensures open { result.is_closed ≡ false }
    {
        FromTokio {
            inner,
            is_closed: false,
        }
    }

    /// Whether it was closed. Then it isn't written.
    pub fn is_closed(&self) -> bool
        ensures { result ≡ self.now.is_closed }
    {
        self.is_closed
    }

    /// The reader or writer itself, as the last poll left it.
    pub fn into_inner(self) -> R
        ensures { result ≡ self.inner }
    {
        let FromTokio {
            inner,
            is_closed: _,
        } = self;
        inner
    }
}

impl<R: tokio::io::AsyncRead> AsyncRead for FromTokio<R> {
    ghost use Rattle.blocking_tokio.specs.FromKit.{ReadBy};

    // (a shutdown ends what is written, and not what is read)
    ghost closed = { λ _. ⊥ };

    ghost reads = { λ old poll new. ReadBy R.reads R.is_at_end R.fails old.inner poll new.inner };

    fn poll_read(&mut self, cx: &mut Context<'_>, buf: &mut [u8]) -> Poll<Result<usize, IoFault>> {
        as_fault(self.inner.poll_read(cx, buf))
    }
}

impl<W: tokio::io::AsyncWrite> AsyncWrite for FromTokio<W> {
    ghost use Rattle.std.specs.Prelude.{List, [], Ok, IfOk, IfErr};
    ghost use Rattle.futures.specs.Poll.{IfReady, OnPending};
    ghost use Rattle.futures.specs.Task.{IsArmed, Keeps};
    ghost use Rattle.blocking_tokio.specs.FromKit.{ClosedBy, IsOwn, WrittenBy};

    ghost closed = { λ writer. writer.is_closed ≡ true };

    ghost writes = { λ old poll new. WrittenBy W.writes W.is_flushed W.fails old.inner poll new.inner };

    fn poll_write(&mut self, cx: &mut Context<'_>, bytes: &[u8]) -> Poll<Result<usize, IoFault>> {
        as_fault(self.inner.poll_write(cx, bytes))
    }

    fn poll_flush(&mut self, cx: &mut Context<'_>) -> Poll<Result<(), IoFault>> {
        as_fault(self.inner.poll_flush(cx))
    }

    fn poll_close(&mut self, cx: &mut Context<'_>) -> Poll<Result<(), IoFault>>
        ensures closed { IfReady result (λ r. IfOk r (λ _. self.new.is_closed ≡ true)) }
        ensures again { self.old.is_closed ≡ true → (result ≡ Poll.Ready (Ok tt)) × (self.new ≡ self.old) }
        ensures by { self.old.is_closed ≡ false → IfReady result (λ r. IfOk r (λ _. ClosedBy W.writes W.is_flushed W.is_shut_down self.old.inner self.new.inner)) }
        ensures fault { IfReady result (λ r. IfErr r (λ why. (self.new.is_closed ≡ false) × W.writes self.old.inner [] self.new.inner × IsOwn (W.fails self.new.inner) why)) }
        ensures waits { OnPending result ((self.new.is_closed ≡ false) × W.writes self.old.inner [] self.new.inner) }
        ensures armed { OnPending result (IsArmed cx.new) }
        ensures kept { Keeps cx.old cx.new }
    {
        if self.is_closed {
            return Poll::Ready(Ok(()));
        }
        if let Err(fault) = ready!(self.poll_flush(cx)) {
            return Poll::Ready(Err(fault));
        }
        if let Err(fault) = ready!(as_fault(self.inner.poll_shutdown(cx))) {
            return Poll::Ready(Err(fault));
        }
        self.is_closed = true;
        Poll::Ready(Ok(()))
    }
}
