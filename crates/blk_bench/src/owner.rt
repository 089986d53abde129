//! The calls of an owner that benchmarks make. Each is proved once here for an `Unblock`, and not in every benchmark.
ghost use Rattle.std.specs.Prelude.{◌≡◌, true};
ghost use Rattle.futures.specs.Poll.{OnPending};
ghost use Rattle.futures.specs.Task.{IsArmed, Keeps};

use crate::reads::Reader;
use crate::writes::Memory;
use blocking::{AsyncRead, AsyncWrite, ReadJob, Runtime, Unblock, WriteJob};
use blocking_core::pool::{Carries, Job};
use futures::task::{Context, Poll};
use std::alloc::Global;
use std::mem;

/// An owner of a reader that is read to its end many times.
pub(crate) trait ReadOwner: AsyncRead {
    /// Whether it is open.
    fn is_open(&self) -> bool
        ensures { result ≡ true → Self.closed self.now → ⊥ };

    /// Waits for the reader, and rewinds it.
    fn poll_rewind(&mut self, cx: &mut Context<'_>) -> Poll<()>
        requires { Self.closed self.old → ⊥ }
        ensures armed { OnPending result (IsArmed cx.new) }
        ensures kept { Keeps cx.old cx.new };
}

impl<J: Job + Carries<ReadJob<Reader, R>>, R: Runtime> ReadOwner for Unblock<Reader, (), J, R> {
    fn is_open(&self) -> bool {
        !self.is_closed()
    }

    fn poll_rewind(&mut self, cx: &mut Context<'_>) -> Poll<()> {
        match self.poll_get_mut(cx) {
            Poll::Pending => Poll::Pending,
            Poll::Ready(reader) => {
                reader.rewind();
                Poll::Ready(())
            }
        }
    }
}

/// The owner of a writer to memory.
pub(crate) trait WriteOwner: AsyncWrite {
    /// Whether it is open.
    fn is_open(&self) -> bool
        ensures { result ≡ true → Self.closed self.now → ⊥ };

    /// Waits for the writer, and takes the bytes out of its memory.
    fn poll_take(&mut self, cx: &mut Context<'_>, alloc: Global) -> Poll<Vec<u8>>
        requires { Self.closed self.old → ⊥ }
        ensures armed { OnPending result (IsArmed cx.new) }
        ensures kept { Keeps cx.old cx.new };
}

impl<J: Job + Carries<WriteJob<Memory, R>>, R: Runtime> WriteOwner for Unblock<Memory, (), J, R> {
    fn is_open(&self) -> bool {
        !self.is_closed()
    }

    fn poll_take(&mut self, cx: &mut Context<'_>, alloc: Global) -> Poll<Vec<u8>> {
        match self.poll_get_mut(cx) {
            Poll::Pending => Poll::Pending,
            Poll::Ready(memory) => Poll::Ready(mem::replace(&mut memory.bytes, Vec::new(alloc))),
        }
    }
}
