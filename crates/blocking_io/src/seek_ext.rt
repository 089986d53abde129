//! Whole seeks as futures, so that a program needs no loop of polls.
ghost use Rattle.std.specs.Prelude.{◌≡◌};

use crate::io::{AsyncSeek, IoFault};
use futures::Future;
use futures::task::{Context, Poll};
use std::io::SeekFrom;

/// Whole seeks of what is moved by polls.
pub trait AsyncSeekExt: AsyncSeek {
    /// A future that moves to a position. It answers where that is, counted in bytes from the start. Until it was ready it may be polled.
    ///
    /// ```rust
    /// let length = block_on(&rt, file.seek(SeekFrom::End(0)))??;
    /// ```
    final fn seek<'a>(&'a mut self, to: SeekFrom) -> SeekTo<'a, Self>
    where
        Self: Sized,
        requires { Self.closed self.old → ⊥ }
        ensures seeker { result.seeker.ghost_name ≡ self.entry.ghost_name }
        ensures open { Self.closed result.seeker.now → ⊥ }
        ensures to_is { result.to ≡ to }
    {
        SeekTo { seeker: self, to }
    }
}

impl<A: AsyncSeek> AsyncSeekExt for A {}

/// The future of [`AsyncSeekExt::seek`].
#[derive(Drop)]
pub struct SeekTo<'a, A> {
    seeker: &'a mut A,
    to: SeekFrom,
}

impl<'a, A: AsyncSeek> Future for SeekTo<'a, A> {
    type Output = Result<u64, IoFault>;

    ghost use Rattle.std.specs.Prelude.{◌≡◌};
    ghost use Rattle.futures.specs.Poll.{OnPending};
    ghost use Rattle.futures.specs.Task.{IsArmed, Keeps};

    ghost can_poll = { λ seek. A.closed seek.seeker.now → ⊥ };

    fn poll(&mut self, cx: &mut Context<'_>) -> Poll<Result<u64, IoFault>>
        requires { A.closed self.old.seeker.now → ⊥ }
        ensures open { A.closed self.new.seeker.now → ⊥ }
        ensures same_place { self.new.to ≡ self.old.to }
        ensures armed { OnPending result (IsArmed cx.new) }
        ensures kept { Keeps cx.old cx.new }
    {
        let seeker = &mut *self.seeker;
        seeker.poll_seek(cx, self.to)
    }
}
