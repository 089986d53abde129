//! An owner that can't be closed.
ghost use Rattle.std.specs.Prelude.{◌≡◌, ◌<◌, ◌≤◌, ◌+◌, length, Some, IfOk, IfErr, IfSome};
ghost use Rattle.futures.specs.Poll.{IfReady, OnPending};
ghost use Rattle.futures.specs.Task.{IsArmed, Keeps};
ghost use Rattle.blocking_unblock.specs.Owners.{IsClosed};

use crate::close::unclosed;
use blocking_core::pool::{Carries, Job, Refusal};
use blocking_executor::{Executor, Runtime};
use blocking_io::{AsyncRead, AsyncSeek, AsyncWrite, IoFault};
use blocking_unblock::{IntoInner, Unblock};
use blocking_unblock_jobs::{ItemJob, ReadJob, SeekJob, WriteJob};
use futures::Stream;
use futures::task::{Context, Poll};
use std::fmt;
use std::fmt::{Debug, Formatter};
use std::io::{Read, Seek, SeekFrom, Write};

/// A reader that can't be closed, lent to an executor whose jobs are of type `J`.
///
/// Here the executor's jobs `Access<H>` read a file and move it:
///
/// ```rust
/// let mut file: OpenReader<File, H, Access<H>> = Open::new(executor, file);
/// let mut record = [0u8; 4];
/// block_on(&rt, file.seek(SeekFrom::Start(2)))??;
/// block_on(&rt, file.read_exact(&mut record))??;
/// ```
pub type OpenReader<T, H, J = ReadJob<T, H>> = Open<T, (), J, H>;

/// A writer that can't be closed, lent to an executor whose jobs are of type `J`.
///
/// ```rust
/// let mut log: OpenWriter<File, H> = Open::with_capacity(65_536, executor, file);
/// block_on(&rt, log.write_all(b"a spruce\n"))??;
/// block_on(&rt, log.write_all(b"a fir\n"))??;
/// ```
pub type OpenWriter<T, H, J = WriteJob<T, H>> = Open<T, (), J, H>;

/// An iterator of `I` that can't be closed, lent to an executor whose jobs are of type `J`.
///
/// ```rust
/// let mut numbers: OpenItems<Range<u32>, u32, H> = Open::new(executor, 5..8);
/// for _ in rt.forever() {
///     let Some(number) = block_on(&rt, numbers.next())? else {
///         break;
///     };
///     sum = sum.saturating_add(number?);
/// }
/// ```
pub type OpenItems<D, I, H, J = ItemJob<D, I, H>> = Open<D, I, J, H>;

/// The owner of a blocking handle that is open for good: an [`Unblock`] that nobody closes. So no call asks whether it is.
///
/// It is read, written, flushed and sought as an `Unblock` is, and gives items as that does. Its handle is dropped with it, or with what is
/// left of a session, or is taken back by [`Open::into_inner`]. Whoever wants to close it takes the owner by [`Open::into_owner`]; whoever
/// drops it flushes first. An operation on the handle goes by the owner, too.
///
/// ```rust
/// let mut file: OpenReader<File, H> = Open::new(executor, file);
/// let first = block_on(&rt, file.read(&mut piece))??;
/// let second = block_on(&rt, file.read(&mut piece))??;
/// let handle = block_on(&rt, file.into_inner())?;
/// ```
pub struct Open<T: Drop, I: Drop, J: Job, H: Runtime> {
    owner: Unblock<T, I, J, H>,
    ghost open: { IsClosed owner.place → ⊥ },
}

// (as a derive has it; by hand it is proved here once, and not in each crate that drops one)
impl<T: Drop, I: Drop, J: Job, H: Runtime> Drop for Open<T, I, J, H> {
    fn drop(self) {
        let Open { owner } = self;
        drop(owner);
    }
}

impl<T: Drop, I: Drop, J: Job, H: Runtime> Open<T, I, J, H> {
    ghost use Rattle.blocking_unblock.specs.declared.handle_state.HandleState.TheVariants.{Idle as AtOwner};

    /// The owner of a handle, whose sessions have pipes for 8,388,608 bytes or 8192 items, as [`Unblock::new`] makes it.
    pub fn new(executor: Executor<J, H>, handle: T) -> Self
        ensures place { result.owner.place ≡ AtOwner handle }
        ensures executor { result.owner.executor ≡ executor }
        ensures bytes { result.owner.capacity.bytes ≡ 8388608 }
        ensures items { result.owner.capacity.items ≡ 8192 }
    {
        Open {
            owner: Unblock::new(executor, handle),
        }
    }

    /// The owner of a handle, whose sessions have pipes for at most `capacity` bytes or items, as [`Unblock::with_capacity`] makes it.
    pub fn with_capacity(capacity: usize, executor: Executor<J, H>, handle: T) -> Self
        requires { 0 < capacity }
        ensures place { result.owner.place ≡ AtOwner handle }
        ensures executor { result.owner.executor ≡ executor }
        ensures bytes { result.owner.capacity.bytes ≡ capacity }
        ensures items { result.owner.capacity.items ≡ capacity }
    {
        Open {
            owner: Unblock::with_capacity(capacity, executor, handle),
        }
    }

    /// An owner that is open, as it is. One that is closed comes back.
    ///
    /// ```rust
    /// let Ok(reader) = Open::from_owner(reader) else {
    ///     // (it is closed)
    ///     return Ok(None);
    /// };
    /// ```
    pub fn from_owner(owner: Unblock<T, I, J, H>) -> Result<Self, Unblock<T, I, J, H>>
        ensures open { IfOk result (λ made. made.owner ≡ owner) }
        ensures closed { IfErr result (λ back. (back ≡ owner) × IsClosed back.place) }
    {
        if owner.is_closed() {
            return Err(owner);
        }
        Ok(Open { owner })
    }

    /// The owner, which is open, and may be closed then.
    ///
    /// ```rust
    /// let mut owner = log.into_owner();
    /// block_on(&rt, owner.close())??;
    /// ```
    pub fn into_owner(self) -> Unblock<T, I, J, H>
        ensures owner { result ≡ self.owner }
        ensures open { IsClosed result.place → ⊥ }
    {
        let Open { owner } = self;
        owner
    }

    /// A future of the handle, for good, as [`Unblock::into_inner`] has it. A session that is under way is stopped first: what was read ahead is
    /// lost, what is to be written is written and flushed, and its fault isn't reported. Until the handle was taken it may be
    /// polled.
    pub fn into_inner(self) -> IntoInner<T, I, J, H>
        ensures { result.owner ≡ Some self.owner }
    {
        let Open { owner } = self;
        owner.into_inner()
    }
}

impl<T: Debug + Drop, I: Drop, J: Job, H: Runtime> Debug for Open<T, I, J, H> {
    fn fmt<W: fmt::Write>(&self, f: &mut Formatter<W>) -> fmt::Result {
        self.owner.fmt(f)
    }
}

impl<T: Drop, I: Drop, J: Job, H: Runtime> TryFrom<Unblock<T, I, J, H>> for Open<T, I, J, H> {
    type Error = Unblock<T, I, J, H>;

    ghost try_from_gives = { λ owner result. IfOk result (λ made. made.owner ≡ owner)
        × IfErr result (λ back. (back ≡ owner) × IsClosed back.place) };

    fn try_from(owner: Unblock<T, I, J, H>) -> Result<Self, Unblock<T, I, J, H>> {
        Open::from_owner(owner)
    }
}

// The handle itself.
impl<T: Drop, I: Drop, J: Job, H: Runtime> Open<T, I, J, H> {
    ghost use Rattle.std.specs.Borrow.{sem};
    ghost use Rattle.std.specs.Option.{option_copied_mut};
    ghost use Rattle.blocking_core.specs.declared.unblock.PollCall.TheVariants.{GetMut as GetMutCall};
    ghost use Rattle.blocking_core.specs.declared.unblock.State.TheVariants.{Idle};
    ghost use Rattle.blocking_unblock.specs.declared.handle_state.HandleState.TheVariants.{Idle as AtOwner};
    ghost use Rattle.blocking_unblock.specs.Owners.{IsAt, Follows, KeepsAtOnce, handle_in, reply_of_get};
    ghost use Rattle.blocking_anytime.specs.Loans.{lends_open_handle};

    /// Waits until the handle is with its owner, as [`Unblock::poll_idle`] does. A session that is under way is stopped first: what was read
    /// ahead is lost, what is to be written is written and flushed, and its fault isn't reported.
    ///
    /// A poll that waits has registered, and is polled again.
    ///
    /// ```rust
    /// match self.reader.poll_idle(cx) {
    ///     Poll::Pending => Poll::Pending,
    ///     // (no session is under way now)
    ///     Poll::Ready(()) => Poll::Ready(()),
    /// }
    /// ```
    pub fn poll_idle(&mut self, cx: &mut Context<'_>) -> Poll<()>
        ensures follows { Follows GetMutCall self.old.owner.place (reply_of_get result) self.new.owner.place }
        ensures idle { IfReady result (λ _. IsAt Idle self.new.owner.place) }
        ensures at_once { KeepsAtOnce GetMutCall self.old.owner.place self.new.owner.place }
        ensures rest { (self.new.owner.capacity ≡ self.old.owner.capacity) × (self.new.owner.executor ≡ self.old.owner.executor) }
        ensures armed { OnPending result (IsArmed cx.new) }
        ensures kept { Keeps cx.old cx.new }
    {
        self.owner.poll_idle(cx)
    }

    /// The handle, where it is with its owner. No session is under way then, and none begins while it is lent.
    ///
    /// ```rust
    /// if let Some(bytes) = self.reader.handle_mut() {
    ///     bytes.set_position(2);
    /// }
    /// ```
    pub fn handle_mut(&mut self) -> Option<&mut T>
        ensures* lends { sem 𝓛 (lends_open_handle T.row I.row J.row H.row J.Job self.entry result) }
        ensures handle { option_copied_mut result ≡ handle_in self.old.owner.place }
    {
        self.owner.handle_mut()
    }

    /// The handle itself, as [`Open::poll_idle`] waits for it.
    ///
    /// ```rust
    /// match self.reader.poll_get_mut(cx) {
    ///     Poll::Pending => Poll::Pending,
    ///     Poll::Ready(bytes) => Poll::Ready(bytes.position()),
    /// }
    /// ```
    pub fn poll_get_mut(&mut self, cx: &mut Context<'_>) -> Poll<&mut T>
        ensures follows { (place : _) × Follows GetMutCall self.old.owner.place (reply_of_get result) place
            × IfReady result (λ handle. place ≡ AtOwner handle.now) × KeepsAtOnce GetMutCall self.old.owner.place place }
        ensures armed { OnPending result (IsArmed cx.new) }
        ensures kept { Keeps cx.old cx.new }
    {
        if let Poll::Pending = self.poll_idle(cx) {
            return Poll::Pending;
        }
        match self.handle_mut() {
            Some(handle) => Poll::Ready(handle),
            None => unreachable!(),
        }
    }
}

impl<T: Read + Drop, I: Drop, J: Job + Carries<ReadJob<T, H>>, H: Runtime> AsyncRead
    for Open<T, I, J, H> {
    ghost use Rattle.blocking_core.specs.declared.unblock.PollCall.TheVariants.{Read as ReadCall};
    ghost use Rattle.blocking_unblock.specs.Owners.{Follows, KeepsAtOnce, KeepsRefused, crossed_at, crossed_before, reply_of_count};

    ghost closed = { λ _. ⊥ };

    /// Reads the next bytes, as an `Unblock` does that is open.
    fn poll_read(&mut self, cx: &mut Context<'_>, buf: &mut [u8]) -> Poll<Result<usize, IoFault>>
        ensures refused { KeepsRefused self.old.owner.place (reply_of_count result) self.new.owner.place }
        ensures follows { Follows (ReadCall (length buf.old)) self.old.owner.place (reply_of_count result) self.new.owner.place }
        ensures at_once { KeepsAtOnce (ReadCall (length buf.old)) self.old.owner.place self.new.owner.place }
        ensures rest { (self.new.owner.capacity ≡ self.old.owner.capacity) × (self.new.owner.executor ≡ self.old.owner.executor) }
        ensures count { IfReady result (λ r. IfOk r (λ n. n ≤ length buf.old)) }
        ensures crossed { IfReady result (λ r. IfOk r (λ n. 0 < n
            → crossed_at self.new.owner.place ≡ crossed_before (ReadCall (length buf.old)) self.old.owner.place + n)) }
        ensures same_length { length buf.new ≡ length buf.old }
        ensures armed { OnPending result (IsArmed cx.new) }
        ensures kept { Keeps cx.old cx.new }
    {
        self.owner.poll_read(cx, buf)
    }
}

impl<T: Write + Drop, I: Drop, J: Job + Carries<WriteJob<T, H>>, H: Runtime> AsyncWrite
    for Open<T, I, J, H> {
    ghost use Rattle.std.specs.Prelude.{IsErr};
    ghost use Rattle.blocking_core.specs.declared.unblock.PollCall.TheVariants.{Write as WriteCall, Flush as FlushCall};
    ghost use Rattle.blocking_unblock.specs.Owners.{Follows, KeepsAtOnce, KeepsRefused, crossed_at, crossed_before, reply_of_count, reply_of_done};
    ghost use Rattle.blocking_anytime.specs.Closes.{IsUnclosed};

    ghost closed = { λ _. ⊥ };

    /// Takes the first bytes for writing, as an `Unblock` does that is open.
    fn poll_write(&mut self, cx: &mut Context<'_>, bytes: &[u8]) -> Poll<Result<usize, IoFault>>
        ensures refused { KeepsRefused self.old.owner.place (reply_of_count result) self.new.owner.place }
        ensures follows { Follows (WriteCall (length bytes.now)) self.old.owner.place (reply_of_count result) self.new.owner.place }
        ensures at_once { KeepsAtOnce (WriteCall (length bytes.now)) self.old.owner.place self.new.owner.place }
        ensures rest { (self.new.owner.capacity ≡ self.old.owner.capacity) × (self.new.owner.executor ≡ self.old.owner.executor) }
        ensures count { IfReady result (λ r. IfOk r (λ n. n ≤ length bytes.now)) }
        ensures crossed { IfReady result (λ r. IfOk r (λ n. 0 < n
            → crossed_at self.new.owner.place ≡ crossed_before (WriteCall (length bytes.now)) self.old.owner.place + n)) }
        ensures armed { OnPending result (IsArmed cx.new) }
        ensures kept { Keeps cx.old cx.new }
    {
        self.owner.poll_write(cx, bytes)
    }

    /// Waits until all that was taken is written and flushed, or answers why it isn't. A fault is reported once. A flush doesn't mean that
    /// the disk has it. Of an owner that reads it stops the session: what was read ahead is lost, and the reader's fault is the answer.
    fn poll_flush(&mut self, cx: &mut Context<'_>) -> Poll<Result<(), IoFault>>
        ensures follows { Follows FlushCall self.old.owner.place (reply_of_done result) self.new.owner.place }
        ensures at_once { KeepsAtOnce FlushCall self.old.owner.place self.new.owner.place }
        ensures rest { (self.new.owner.capacity ≡ self.old.owner.capacity) × (self.new.owner.executor ≡ self.old.owner.executor) }
        ensures armed { OnPending result (IsArmed cx.new) }
        ensures kept { Keeps cx.old cx.new }
    {
        self.owner.poll_flush(cx)
    }

    /// Flushes, and closes nothing: it is never ready without a fault. That is the flush's, or one of the kind `Unsupported` where all was
    /// flushed. The handle is open then, and may be written on. To close it take the owner, by [`Open::into_owner`].
    fn poll_close(&mut self, cx: &mut Context<'_>) -> Poll<Result<(), IoFault>>
        ensures never { IfReady result (λ r. IsErr r) }
        ensures flushed { (flushed : _) × Follows FlushCall self.old.owner.place (reply_of_done flushed) self.new.owner.place
            × IsUnclosed flushed result }
        ensures at_once { KeepsAtOnce FlushCall self.old.owner.place self.new.owner.place }
        ensures rest { (self.new.owner.capacity ≡ self.old.owner.capacity) × (self.new.owner.executor ≡ self.old.owner.executor) }
        ensures armed { OnPending result (IsArmed cx.new) }
        ensures kept { Keeps cx.old cx.new }
    {
        unclosed(self.owner.poll_flush(cx))
    }
}

impl<T: Iterator<Item = I> + Drop, I: Drop, J: Job + Carries<ItemJob<T, I, H>>, H: Runtime> Stream
    for Open<T, I, J, H> {
    ghost use Rattle.std.specs.Prelude.{OnSome};
    ghost use Rattle.blocking_core.specs.declared.unblock.PollCall.TheVariants.{Next as NextCall};
    ghost use Rattle.blocking_unblock.specs.Owners.{Follows, KeepsRefused, crossed_at, crossed_before, reply_of_next};

    type Item = Result<I, Refusal>;

    // (nothing is promised of an iterator after its end, so it is one that may always be asked)
    ghost can_poll = { λ _. (at : T) → T.can_next at };

    /// The next item, or None at the end of the iterator, which a further poll asks again. Where no session can begin the answer says why.
    ///
    /// A poll that waits has registered, and is polled again.
    fn poll_next(&mut self, cx: &mut Context<'_>) -> Poll<Option<Result<I, Refusal>>>
        requires { (at : T) → T.can_next at }
        ensures refused { KeepsRefused self.old.owner.place (reply_of_next result) self.new.owner.place }
        ensures follows { Follows NextCall self.old.owner.place (reply_of_next result) self.new.owner.place }
        ensures crossed { IfReady result (λ next. IfSome next (λ r. IfOk r (λ _.
            crossed_at self.new.owner.place ≡ crossed_before NextCall self.old.owner.place + 1))) }
        ensures rest { (self.new.owner.capacity ≡ self.old.owner.capacity) × (self.new.owner.executor ≡ self.old.owner.executor) }
        ensures armed { OnPending result (IsArmed cx.new) }
        ensures kept { Keeps cx.old cx.new }
    {
        self.owner.poll_next(cx)
    }
}

impl<T: Seek + Drop, I: Drop, J: Job + Carries<SeekJob<T, H>>, H: Runtime> AsyncSeek
    for Open<T, I, J, H> {
    ghost use Rattle.blocking_core.specs.declared.unblock.PollCall.TheVariants.{Seek as SeekCall};
    ghost use Rattle.blocking_unblock.specs.Owners.{Follows, KeepsRefused, reply_of_seek};
    ghost use Rattle.blocking_unblock_jobs.specs.SeekJobs.{position_of};

    ghost closed = { λ _. ⊥ };

    /// Moves to a position, as an `Unblock` does that is open.
    fn poll_seek(&mut self, cx: &mut Context<'_>, to: SeekFrom) -> Poll<Result<u64, IoFault>>
        ensures refused { KeepsRefused self.old.owner.place (reply_of_seek result) self.new.owner.place }
        ensures follows { Follows (SeekCall (position_of to)) self.old.owner.place (reply_of_seek result) self.new.owner.place }
        ensures rest { (self.new.owner.capacity ≡ self.old.owner.capacity) × (self.new.owner.executor ≡ self.old.owner.executor) }
        ensures armed { OnPending result (IsArmed cx.new) }
        ensures kept { Keeps cx.old cx.new }
    {
        self.owner.poll_seek(cx, to)
    }
}
