//! The owner of a handle that is lent to jobs.
ghost use Rattle.std.specs.Prelude.{◌≡◌, ◌⊎◌, ◌+◌, ◌<◌, ◌≤◌, ◌↔◌, true, false, length, None, Some, IfOk, IfErr, IfSome};
ghost use Rattle.futures.specs.Poll.{IfReady, OnPending};
ghost use Rattle.futures.specs.Task.{IsArmed, Keeps};
ghost use Rattle.blocking_unblock_jobs.specs.SeekJobs.{position_of};
ghost use Rattle.blocking_unblock.specs.Owners.{IsHeld};

use crate::handle_state::HandleState;
use crate::lend::{Capacity, Lends, ToItem, ToNobody, ToOp, ToRead, ToSeek, ToWrite};
use crate::session::Back;
use crate::spare::Spare;
use crate::take_back::IntoInner;
use crate::with_mut::WithMut;
use blocking_core::io::Position;
use blocking_core::pipe::{DEFAULT_BYTES, DEFAULT_ITEMS, Received};
use blocking_core::pool::{Carries, Job, Refusal, Refused, WakeNote, Woke};
use blocking_core::task::CallOn;
use blocking_core::unblock::{OwnerAction, OwnerAnswer, OwnerCall, PollCall, Reply};
use blocking_executor::{Executor, Runtime};
use blocking_io::{AsyncRead, AsyncSeek, AsyncWrite, IoFault};
use blocking_unblock_jobs::{ItemJob, OpJob, ReadJob, SeekJob, WriteJob};
use futures::Stream;
use futures::task::{Context, Poll};
use std::fmt::{Debug, Formatter};
use std::io::{Read, Seek, SeekFrom, Write};
use std::marker::PhantomData;
use std::sync::Wait;
use std::{fmt, io, mem};

/// The owner of a blocking handle, which it lends to jobs on a pool: polls then use the handle without waiting for it.
///
/// Dropping it waits for no job. It takes the locks of the pipe and of the pool, and may start a worker, as a wake does. A handle that is with its
/// owner is dropped here, and one that its job gave back by whoever lets go last. Else the owner's end of the pipe is closed, and a worker
/// drops the handle with the session's job. It drops that of a job that waits when it is next taken, that of one that runs when it comes to
/// its end. Where no worker is left and none can be started, that job stays queued. Where its client is at its limit of running jobs it
/// isn't taken before another job of that client is over or waits. A job that reads or gives items makes one more call at most. One that
/// runs and writes writes all that it was given, and flushes. One that waits has written all, and is dropped unflushed unless a worker takes
/// it first. What a queued one had to write is lost. One that is about to wait, and was woken by an earlier call, counts as queued. A seek
/// or an operation under way is made.
///
/// A job that waits holds no worker. Where none is left when it is woken, and no thread can be had for one, it stays queued and its owner
/// waits: until a thread can be had and a call adds a job to the pool, or wakes another that waits. A session that begins is refused then.
///
/// The memory of a session that read or wrote is kept for the next one of its kind. It is that of its pipe and its pieces, of which no more
/// was touched than was used, but for one piece of a reader, which is cleared first. It is given back where a session of another kind begins
/// or one is refused, and with the owner: by [`Unblock::into_inner`], a close, or a drop.
///
/// A handle is moved as it is, with its owner and with its job, so one that holds a buffer of its own is best lent in a `Box`.
///
/// Three things differ from a handle that is used in place:
///
/// - What a write took is written later. Without a flush that is ready it may be lost, as where the owner is dropped, and a flush doesn't mean
///   that the disk has it.
/// - A job reads ahead, so the handle stands further than what was read. An operation on it, a write, a flush or a seek goes on from there, and
///   what was read ahead and not received is lost then. A flush answers the fault of such a reader.
/// - So an owner of standard input or of a socket that is dropped may have eaten bytes that nobody received.
///
/// `I` is the type of the items of a handle that is an iterator; any type will do for another.
///
/// An owner that isn't new is asked whether it is closed, since its calls require that it isn't:
///
/// ```rust
/// let mut file: Reader<File, H> = Unblock::new(executor, file);
/// let count = block_on(&rt, file.read(&mut piece))??;
///
/// if !file.is_closed() {
///     block_on(&rt, file.read_to_end(&mut out))??;
/// }
/// ```
pub struct Unblock<T: Drop, I: Drop, J: Job, H: Runtime> {
    place: HandleState<T, I, H>,
    // The memory of the last session, for the next one of its kind.
    spare: Spare,
    capacity: Capacity,
    executor: Executor<J, H>,
    items: PhantomData<I>,
    ghost held: { IsHeld place },
}

impl<T: Drop, I: Drop, J: Job, H: Runtime> Unblock<T, I, J, H> {
    ghost use Rattle.blocking_unblock.specs.declared.handle_state.HandleState.TheVariants.{Idle as AtOwner};
    ghost use Rattle.blocking_unblock.specs.Owners.{IsClosed};

    /// The owner of a handle, whose sessions have pipes for 8,388,608 bytes or 8192 items.
    ///
    /// It takes no memory itself. A session that reads or writes takes that of its pipe, and two pieces of 65,536 bytes more. The next session
    /// of its kind uses it again.
    ///
    /// ```rust
    /// let executor: Executor<ReadJob<File, H>, H> = Executor::new(rt, Some("1"))?;
    /// let mut file: Reader<File, H> = Unblock::new(executor, file);
    /// ```
    pub fn new(executor: Executor<J, H>, handle: T) -> Self
        ensures place { result.place ≡ AtOwner handle }
        ensures executor { result.executor ≡ executor }
        ensures bytes { result.capacity.bytes ≡ 8388608 }
        ensures items { result.capacity.items ≡ 8192 }
    {
        Unblock {
            place: HandleState::Idle(handle),
            spare: Spare::Nothing,
            capacity: Capacity::new(DEFAULT_BYTES, DEFAULT_ITEMS),
            executor,
            items: PhantomData,
        }
    }

    /// The owner of a handle, whose sessions have pipes for at most `capacity` bytes or items, which is above 0. One
    /// that reads or writes has its memory in pieces of one length, 65,536 bytes at most. It takes as few as hold the
    /// capacity, and for one that reads two at least. It takes two of them in addition.
    ///
    /// ```rust
    /// let mut reader: Reader<File, H> = Unblock::with_capacity(65_536, executor, file);
    /// ```
    pub fn with_capacity(capacity: usize, executor: Executor<J, H>, handle: T) -> Self
        requires { 0 < capacity }
        ensures place { result.place ≡ AtOwner handle }
        ensures executor { result.executor ≡ executor }
        ensures bytes { result.capacity.bytes ≡ capacity }
        ensures items { result.capacity.items ≡ capacity }
    {
        Unblock {
            place: HandleState::Idle(handle),
            spare: Spare::Nothing,
            capacity: Capacity::new(capacity, capacity),
            executor,
            items: PhantomData,
        }
    }

    /// This owner, whose sessions are another client's from the next one on: of each client no more jobs run than
    /// [`set_client_limit`](blocking_executor::set_client_limit) allows. One that is under way keeps its client. Takes no memory.
    ///
    /// ```rust
    /// let mut reader: Reader<File, H> = Unblock::new(executor, file).for_client(7);
    /// ```
    pub fn for_client(self, client: u32) -> Self
        ensures client { result.executor ≡ record self.executor { client = client } }
        ensures place { result.place ≡ self.place }
        ensures rest { (result.spare ≡ self.spare) × (result.capacity ≡ self.capacity) }
    {
        let Unblock {
            place,
            spare,
            capacity,
            executor,
            items,
        } = self;
        Unblock {
            place,
            spare,
            capacity,
            executor: executor.for_client(client),
            items,
        }
    }

    /// Whether the handle was dropped. Then only a flush and a close may be asked.
    ///
    /// ```rust
    /// block_on(&rt, writer.close())??;
    /// let is_gone = writer.is_closed();
    /// ```
    pub fn is_closed(&self) -> bool
        ensures { (result ≡ true) ↔ IsClosed self.now.place }
    {
        matches!(self.place, HandleState::Closed)
    }
}

// What comes of a handle where nobody waits for it.
impl<T: Drop, I: Drop, J: Job, H: Runtime> Unblock<T, I, J, H> {
    ghost use Rattle.blocking_unblock.specs.Owners.{handle_in, IsClosed};
    ghost use Rattle.blocking_unblock.specs.Lenders.{is_over, given_in};

    /// The handle, where it is with its owner.
    pub(crate) fn into_handle(self) -> Option<T>
        ensures { result ≡ handle_in self.place }
    {
        let Unblock {
            place,
            spare: _,
            capacity: _,
            executor: _,
            items: _,
        } = self;
        place.into_handle()
    }

    /// A future of the handle, for good. A session that is under way is stopped first: what was read ahead is lost, what is to be written
    /// is written and flushed, and its fault isn't told. Until the handle was taken it may be polled.
    ///
    /// ```rust
    /// let reader: Reader<File, H> = Unblock::new(executor, file);
    /// let file = block_on(&rt, reader.into_inner())?;
    /// ```
    pub fn into_inner(self) -> IntoInner<T, I, J, H>
        requires { IsClosed self.place → ⊥ }
        ensures { result.owner ≡ Some self }
    {
        IntoInner::new(self)
    }

    /// A future of what an operation on the handle gives, which a job makes. A session that is under way is stopped first, as for the handle
    /// itself. Where no session can begin the future answers why, with the operation. Until it was ready it may be polled.
    ///
    /// One that is dropped gives the result up. Once its session began the operation is made all the same, but where its owner is dropped
    /// too, before a worker took it.
    ///
    /// Here `SyncAll` is the operation of the example at [`CallOn`], whose result may be an error: hence the third `?`.
    ///
    /// ```rust
    /// let executor: Executor<OpJob<SyncAll, File, H>, H> = Executor::new(rt, Some("1"))?;
    /// let mut file: Unblock<File, (), OpJob<SyncAll, File, H>, H> = Unblock::new(executor, file);
    /// block_on(&rt, file.with_mut(SyncAll))???;
    /// ```
    pub fn with_mut<'a, F: CallOn<T, Out: Drop> + Drop>(
        &'a mut self,
        operation: F,
    ) -> WithMut<'a, F, T, I, J, H>
    where
        J: Carries<OpJob<F, T, H>>,
        requires { IsClosed self.old.place → ⊥ }
        ensures owner { result.owner.ghost_name ≡ self.entry.ghost_name }
        ensures fresh { is_over result.operation.stage ≡ false }
        ensures given { given_in result.operation.stage ≡ Some operation }
    {
        WithMut::new(self, operation)
    }
}

impl<T: Drop, I: Drop, J: Job, H: Runtime> Drop for Unblock<T, I, J, H> {
    fn drop(self) {
        let Unblock {
            mut place,
            spare: _,
            capacity: _,
            executor,
            items: _,
        } = self;
        // A job that waits for its owner is found by a worker at once, and one that runs finds its pipe shut.
        if let Some(note) = place.let_go() {
            // (one that is seated while it runs goes on to its end, and a mark would drop it before)
            if let Woke::Marked = executor.wake(note) {
                return;
            }
        }
        // (nobody waits for the job: a worker drops it, and the handle with it, unless that was given back)
        place.mark();
    }
}

impl<T: Debug + Drop, I: Drop, J: Job, H: Runtime> Debug for Unblock<T, I, J, H> {
    fn fmt<W: fmt::Write>(&self, f: &mut Formatter<W>) -> fmt::Result {
        match &self.place {
            HandleState::Idle(handle) => f.debug_struct("Unblock").field("io", handle).finish(),
            HandleState::Lent(_) => f.write_str("Unblock { io: <blocked> }"),
            HandleState::Closed => f.write_str("Unblock { io: <closed> }"),
        }
    }
}

// What a poll does with the handle, one action each.
impl<T: Drop, I: Drop, J: Job, H: Runtime> Unblock<T, I, J, H> {
    ghost use Rattle.blocking_core.specs.declared.unblock.PollCall.TheVariants.{GetMut as GetMutCall, Close as CloseCall};
    ghost use Rattle.blocking_unblock.specs.declared.handle_state.HandleState.TheVariants.{Idle as AtOwner};
    ghost use Rattle.blocking_core.specs.declared.unblock.State.{State as StateSeen};
    ghost use Rattle.blocking_core.specs.declared.unblock.State.TheVariants.{Idle, Lent};
    ghost use Rattle.blocking_core.specs.declared.unblock.SessionKind.TheVariants.{Reading, Writing, Streaming};
    ghost use Rattle.blocking_core.specs.declared.unblock.OwnerEnd.TheVariants.{Open};
    ghost use Rattle.blocking_core.specs.declared.unblock.OwnerAction.TheVariants.{Begin as BeginAction, Close as CloseAction, Receive as ReceiveAction, PollSlot as SlotAction};
    ghost use Rattle.std.specs.Prelude.{ℕ};
    ghost use Rattle.std.specs.Borrow.{sem};
    ghost use Rattle.std.specs.Option.{option_copied_mut};
    ghost use Rattle.blocking_unblock.specs.Loans.{lends_handle};
    ghost use Rattle.blocking_unblock.specs.Owners.{IsClosed, IsFor, IsAt, handle_in, HasCrossed, Reaches, Follows, KeepsRefused, KeepsAtOnce, crossed_before, state_of, has, reply_of_get, wanted, offered};
    ghost use Rattle.blocking_unblock.specs.Polls.{MayAsk, CanDo, Does, Brings, FitsReply, Stands, IsGoing, KeepsFirst, KeepsBrought, KeepsOpen, HasPipe, HasSession, Crosses, Crossing, Drains, Fills, Resumes, Kept, last_action};
    ghost use Rattle.blocking_core.specs.OwnerCalls.{begun_by};

    // (by itself, since each round would else clear the memory of its locals)
    #[inline(never)]
    fn begin<B: Lends<T, I, J, H>>(&mut self, brought: &mut B) -> OwnerAnswer<io::Error>
        requires at { IsAt Idle self.old.place }
        requires ready { (state : StateSeen) × B.begins brought.old state }
        ensures does { Does (B.begins brought.old) BeginAction self.old.place result false self.new.place (Unit {0}) }
        ensures brings { Brings B.begins B.keeps BeginAction result brought.old brought.new }
        ensures client { IsFor self.old.executor.client self.new.place }
        ensures rest { (self.new.capacity ≡ self.old.capacity) × (self.new.executor ≡ self.old.executor) }
    {
        let HandleState::Idle(handle) = mem::replace(&mut self.place, HandleState::Closed) else {
            unreachable!()
        };
        let spare = mem::replace(&mut self.spare, Spare::Nothing);
        match brought.lend(&self.executor, self.capacity, spare, handle) {
            Ok(session) => {
                self.place = HandleState::Lent(session);
                OwnerAnswer::Begun
            }
            Err(Refused { back, why }) => {
                self.place = HandleState::Idle(back);
                OwnerAnswer::Refused(why)
            }
        }
    }

    fn close_end(&mut self) -> (OwnerAnswer<io::Error>, Option<WakeNote>)
        requires { HasPipe (state_of self.old.place) }
        ensures does { Does (λ _. Unit {0}) CloseAction self.old.place result.0 (has result.1) self.new.place (Unit {0}) }
        ensures rest { (self.new.capacity ≡ self.old.capacity) × (self.new.executor ≡ self.old.executor) }
    {
        let HandleState::Lent(session) = &mut self.place else {
            unreachable!()
        };
        let note = session.close();
        let has_note = note.is_some();
        (OwnerAnswer::Closed { has_note }, note)
    }

    fn drain(
        &mut self,
        cx: &mut Context<'_>,
        out: &mut [u8],
    ) -> (OwnerAnswer<io::Error>, Option<WakeNote>)
        requires at { IsAt (Lent Reading Open) self.old.place }
        requires room { 0 < length out.old }
        ensures drains { Drains (length out.old) result.0 (has result.1) (IsArmed cx.new) }
        ensures crosses { Crosses self.old.place result.0 self.new.place }
        ensures rest { (self.new.capacity ≡ self.old.capacity) × (self.new.executor ≡ self.old.executor) }
        ensures kept { Keeps cx.old cx.new }
    {
        let HandleState::Lent(session) = &mut self.place else {
            unreachable!()
        };
        session.drain(cx, out)
    }

    fn fill(
        &mut self,
        cx: &mut Context<'_>,
        bytes: &[u8],
    ) -> (OwnerAnswer<io::Error>, Option<WakeNote>)
        requires at { IsAt (Lent Writing Open) self.old.place }
        requires some { 0 < length bytes.now }
        ensures fills { Fills (length bytes.now) result.0 (has result.1) (IsArmed cx.new) }
        ensures crosses { Crosses self.old.place result.0 self.new.place }
        ensures rest { (self.new.capacity ≡ self.old.capacity) × (self.new.executor ≡ self.old.executor) }
        ensures kept { Keeps cx.old cx.new }
    {
        let HandleState::Lent(session) = &mut self.place else {
            unreachable!()
        };
        session.fill(cx, bytes)
    }

    fn receive<B: Lends<T, I, J, H>>(
        &mut self,
        cx: &mut Context<'_>,
        brought: &mut B,
    ) -> (OwnerAnswer<io::Error>, Option<WakeNote>)
        requires { IsAt (Lent Streaming Open) self.old.place }
        ensures does { Does (λ _. Unit {0}) ReceiveAction self.old.place result.0 (has result.1) self.new.place (IsArmed cx.new) }
        ensures brings { Brings B.begins B.keeps ReceiveAction result.0 brought.old brought.new }
        ensures rest { (self.new.capacity ≡ self.old.capacity) × (self.new.executor ≡ self.old.executor) }
        ensures kept { Keeps cx.old cx.new }
    {
        let HandleState::Lent(session) = &mut self.place else {
            unreachable!()
        };
        match session.receive(cx) {
            Received::Got(item, note) => {
                brought.keep(item);
                let has_note = note.is_some();
                (OwnerAnswer::Received { has_note }, note)
            }
            Received::Ended => (OwnerAnswer::Ended, None),
            Received::Waits(seat) => (OwnerAnswer::WaitsAtPipe(seat), None),
        }
    }

    // (by itself, since each round would else clear the memory of its locals)
    #[inline(never)]
    fn poll_slot(&mut self, cx: &mut Context<'_>) -> OwnerAnswer<io::Error>
        requires { HasSession (state_of self.old.place) }
        ensures does { Does (λ _. Unit {0}) SlotAction self.old.place result false self.new.place (IsArmed cx.new) }
        ensures rest { (self.new.capacity ≡ self.old.capacity) × (self.new.executor ≡ self.old.executor) }
        ensures kept { Keeps cx.old cx.new }
    {
        let HandleState::Lent(session) = &mut self.place else {
            unreachable!()
        };
        match session.poll_back(cx) {
            Ok(
                Back {
                    handle,
                    answer,
                    tools,
                },
            ) => {
                let place = mem::replace(&mut self.place, HandleState::Idle(handle));
                self.spare = place.into_spare(tools);
                answer
            }
            Err(seat) => OwnerAnswer::WaitsInSlot(seat),
        }
    }

    // Does what is next, which is something yet.
    fn act<B: Lends<T, I, J, H>>(
        &mut self,
        action: OwnerAction<io::Error>,
        cx: &mut Context<'_>,
        brought: &mut B,
        out: &mut [u8],
        bytes: &[u8],
    ) -> (OwnerAnswer<io::Error>, Option<WakeNote>)
        requires going { IsGoing action }
        requires can { CanDo B.begins B.keeps action self.old.place (length out.old) (length bytes.now) brought.old }
        ensures does { Does (B.begins brought.old) action self.old.place result.0 (has result.1) self.new.place (IsArmed cx.new) }
        ensures brings { Brings B.begins B.keeps action result.0 brought.old brought.new }
        ensures rest { (self.new.capacity ≡ self.old.capacity) × (self.new.executor ≡ self.old.executor) }
        ensures kept { Keeps cx.old cx.new }
        ensures same_length { length out.new ≡ length out.old }
    {
        match action {
            OwnerAction::Begin => (self.begin(brought), None),
            OwnerAction::Close => self.close_end(),
            OwnerAction::Drain(_) => self.drain(cx, out),
            OwnerAction::Fill(_) => self.fill(cx, bytes),
            OwnerAction::Receive => self.receive(cx, brought),
            OwnerAction::PollSlot => (self.poll_slot(cx), None),
            OwnerAction::PollResult => match brought.poll_result(cx) {
                None => (OwnerAnswer::Resulted, None),
                Some(seat) => (OwnerAnswer::WaitsInSlot(seat), None),
            },
            OwnerAction::DropHandle => {
                self.place = HandleState::Closed;
                self.spare = Spare::Nothing;
                (OwnerAnswer::Dropped, None)
            }
            OwnerAction::Deliver | OwnerAction::Reply(_) | OwnerAction::Pending => unreachable!(),
        }
    }

    // Does what is next, and tells the machine what came of it. A note that was taken out of the job's seat is spent at once.
    fn do_next<B: Lends<T, I, J, H>>(
        &mut self,
        poll: &mut OwnerCall<io::Error>,
        cx: &mut Context<'_>,
        brought: &mut B,
        out: &mut [u8],
        bytes: &[u8],
    )
        requires going { IsGoing poll.old.next }
        requires stands { Stands B.begins B.keeps (IsArmed cx.old) poll.old self.old.place brought.old }
        requires wants { wanted poll.old.call ≡ length out.old }
        requires offers { offered poll.old.call ≡ length bytes.now }
        ensures stands { Stands B.begins B.keeps (IsArmed cx.new) poll.new self.new.place brought.new }
        ensures reaches { Reaches poll.old poll.new }
        ensures went { IsGoing poll.old.next }
        ensures call_same { poll.new.call ≡ poll.old.call }
        ensures kept_open { KeepsOpen poll.old.call poll.old.state poll.new.state }
        ensures keeps { (first : _)
            → KeepsFirst poll.old.call poll.old.state poll.old.next poll.old.is_at_end self.old.place first
            → KeepsFirst poll.new.call poll.new.state poll.new.next poll.new.is_at_end self.new.place first }
        ensures crosses { (before : ℕ)
            → Crossing poll.old.call poll.old.state poll.old.next poll.old.is_at_end self.old.place before
            → Crossing poll.new.call poll.new.state poll.new.next poll.new.is_at_end self.new.place before }
        ensures brings { (first : _)
            → KeepsBrought B.keeps poll.old.call poll.old.next brought.old first
            → KeepsBrought B.keeps poll.new.call poll.new.next brought.new first }
        ensures rest { (self.new.capacity ≡ self.old.capacity) × (self.new.executor ≡ self.old.executor) }
        ensures kept { Keeps cx.old cx.new }
        ensures same_length { length out.new ≡ length out.old }
    {
        let (answer, note) = self.act(poll.next(), cx, brought, out, bytes);
        poll.answer(answer);
        if let Some(note) = note {
            let _woke = self.executor.wake(note);
            poll.answer(OwnerAnswer::Delivered);
        }
    }

    // Polls: the machine of this call is asked what is next until it has a reply or waits.
    pub(crate) fn poll<B: Lends<T, I, J, H>>(
        &mut self,
        call: PollCall,
        cx: &mut Context<'_>,
        brought: &mut B,
        out: &mut [u8],
        bytes: &[u8],
    ) -> Poll<Reply<io::Error>>
        requires may { MayAsk B.begins B.keeps call (state_of self.old.place) brought.old }
        requires wants { wanted call ≡ length out.old }
        requires offers { offered call ≡ length bytes.now }
        ensures follows { Follows call self.old.place result self.new.place }
        ensures refused { KeepsRefused self.old.place result self.new.place }
        ensures crosses { IfReady result (λ reply. HasCrossed reply self.new.place (crossed_before call self.old.place)) }
        ensures fits { IfReady result (λ reply. FitsReply call (state_of self.new.place) reply (B.begins brought.new (begun_by call)) (B.keeps brought.new)) }
        ensures resumes { OnPending result
            (Resumes call (state_of self.new.place) (B.begins brought.new (begun_by call)) (B.keeps brought.new Kept.Way)) }
        ensures back { KeepsBrought B.keeps call (last_action result) brought.new brought.old }
        ensures at_once { KeepsAtOnce call self.old.place self.new.place }
        ensures rest { (self.new.capacity ≡ self.old.capacity) × (self.new.executor ≡ self.old.executor) }
        ensures closed { IsClosed self.old.place → IsClosed self.new.place }
        ensures closes { IsClosed self.new.place → IsClosed self.old.place ⊎ (call ≡ CloseCall) }
        ensures armed { OnPending result (IsArmed cx.new) }
        ensures kept { Keeps cx.old cx.new }
        ensures same_length { length out.new ≡ length out.old }
    {
        let rt = self.executor.runtime();
        let mut poll = OwnerCall::new(call, self.place.state());
        for _ in rt.forever() {
            match poll.next() {
                OwnerAction::Reply(reply) => return Poll::Ready(reply),
                OwnerAction::Pending => return Poll::Pending,
                _ => self.do_next(&mut poll, cx, brought, out, bytes),
            }
        }
        unreachable!()
    }

    /// Waits until the handle is with its owner. A session that is under way is stopped first: what was read ahead is lost, what is to be written is
    /// written and flushed, and its fault isn't told.
    ///
    /// A poll that waits has registered, and is polled again.
    ///
    /// ```rust
    /// match reader.poll_idle(cx) {
    ///     Poll::Pending => Poll::Pending,
    ///     // (no session is under way now)
    ///     Poll::Ready(()) => Poll::Ready(()),
    /// }
    /// ```
    pub fn poll_idle(&mut self, cx: &mut Context<'_>) -> Poll<()>
        requires { IsClosed self.old.place → ⊥ }
        ensures follows { Follows GetMutCall self.old.place (reply_of_get result) self.new.place }
        ensures idle { IfReady result (λ _. IsAt Idle self.new.place) }
        ensures open { IsClosed self.new.place → ⊥ }
        ensures at_once { KeepsAtOnce GetMutCall self.old.place self.new.place }
        ensures rest { (self.new.capacity ≡ self.old.capacity) × (self.new.executor ≡ self.old.executor) }
        ensures armed { OnPending result (IsArmed cx.new) }
        ensures kept { Keeps cx.old cx.new }
    {
        match self.poll(PollCall::GetMut, cx, &mut ToNobody, &mut [], &[]) {
            Poll::Ready(_) => Poll::Ready(()),
            Poll::Pending => Poll::Pending,
        }
    }

    /// The handle, where it is with its owner. No session is under way then, and none begins while it is lent.
    ///
    /// ```rust
    /// if let Some(bytes) = reader.handle_mut() {
    ///     bytes.set_position(2);
    /// }
    /// ```
    pub fn handle_mut(&mut self) -> Option<&mut T>
        ensures* lends { sem 𝓛 (lends_handle T.row I.row J.row H.row J.Job self.entry result) }
        ensures handle { option_copied_mut result ≡ handle_in self.old.place }
    {
        self.place.handle_mut()
    }

    /// The handle itself, as [`Unblock::poll_idle`] waits for it.
    ///
    /// ```rust
    /// match reader.poll_get_mut(cx) {
    ///     Poll::Pending => Poll::Pending,
    ///     Poll::Ready(bytes) => Poll::Ready(bytes.position()),
    /// }
    /// ```
    pub fn poll_get_mut(&mut self, cx: &mut Context<'_>) -> Poll<&mut T>
        requires { IsClosed self.old.place → ⊥ }
        ensures follows { (place : _) × Follows GetMutCall self.old.place (reply_of_get result) place
            × IfReady result (λ handle. place ≡ AtOwner handle.now) × KeepsAtOnce GetMutCall self.old.place place }
        ensures armed { OnPending result (IsArmed cx.new) }
        ensures kept { Keeps cx.old cx.new }
    {
        if let Poll::Pending = self.poll_idle(cx) {
            return Poll::Pending;
        }
        match self.handle_mut() {
            Some(handle) => Poll::Ready(handle),
            None => unreachable!(),
        }
    }
}

impl<T: Read + Drop, I: Drop, J: Job + Carries<ReadJob<T, H>>, H: Runtime> AsyncRead
    for Unblock<T, I, J, H> {
    ghost use Rattle.blocking_core.specs.declared.unblock.PollCall.TheVariants.{Read as ReadCall};
    ghost use Rattle.blocking_core.specs.declared.unblock.State.TheVariants.{Idle};
    ghost use Rattle.blocking_unblock.specs.Owners.{IsClosed, Follows, KeepsAtOnce, KeepsRefused, crossed_at, crossed_before, reply_of_count};

    ghost closed = { λ owner. IsClosed owner.place };

    fn poll_read(&mut self, cx: &mut Context<'_>, buf: &mut [u8]) -> Poll<Result<usize, IoFault>>
        requires { IsClosed self.old.place → ⊥ }
        ensures refused { KeepsRefused self.old.place (reply_of_count result) self.new.place }
        ensures follows { Follows (ReadCall (length buf.old)) self.old.place (reply_of_count result) self.new.place }
        ensures open { IsClosed self.new.place → ⊥ }
        ensures at_once { KeepsAtOnce (ReadCall (length buf.old)) self.old.place self.new.place }
        ensures rest { (self.new.capacity ≡ self.old.capacity) × (self.new.executor ≡ self.old.executor) }
        ensures count { IfReady result (λ r. IfOk r (λ n. n ≤ length buf.old)) }
        ensures crossed { IfReady result (λ r. IfOk r (λ n. 0 < n
            → crossed_at self.new.place ≡ crossed_before (ReadCall (length buf.old)) self.old.place + n)) }
        ensures same_length { length buf.new ≡ length buf.old }
        ensures armed { OnPending result (IsArmed cx.new) }
        ensures kept { Keeps cx.old cx.new }
    {
        match self.poll(PollCall::Read(buf.len()), cx, &mut ToRead, buf, &[]) {
            Poll::Pending => Poll::Pending,
            Poll::Ready(Reply::Count(count)) => Poll::Ready(Ok(count)),
            Poll::Ready(Reply::Failed(why)) => Poll::Ready(Err(why)),
            Poll::Ready(_) => unreachable!(),
        }
    }
}

impl<T: Write + Drop, I: Drop, J: Job + Carries<WriteJob<T, H>>, H: Runtime> AsyncWrite
    for Unblock<T, I, J, H> {
    ghost use Rattle.blocking_core.specs.declared.unblock.PollCall.TheVariants.{Write as WriteCall, Flush as FlushCall, Close as CloseCall};
    ghost use Rattle.blocking_core.specs.declared.unblock.State.TheVariants.{Idle};
    ghost use Rattle.blocking_unblock.specs.Owners.{IsAt, IsClosed, Follows, KeepsAtOnce, KeepsRefused, crossed_at, crossed_before, reply_of_count, reply_of_done};

    ghost closed = { λ owner. IsClosed owner.place };

    fn poll_write(&mut self, cx: &mut Context<'_>, bytes: &[u8]) -> Poll<Result<usize, IoFault>>
        requires { IsClosed self.old.place → ⊥ }
        ensures refused { KeepsRefused self.old.place (reply_of_count result) self.new.place }
        ensures follows { Follows (WriteCall (length bytes.now)) self.old.place (reply_of_count result) self.new.place }
        ensures open { IsClosed self.new.place → ⊥ }
        ensures at_once { KeepsAtOnce (WriteCall (length bytes.now)) self.old.place self.new.place }
        ensures rest { (self.new.capacity ≡ self.old.capacity) × (self.new.executor ≡ self.old.executor) }
        ensures count { IfReady result (λ r. IfOk r (λ n. n ≤ length bytes.now)) }
        ensures crossed { IfReady result (λ r. IfOk r (λ n. 0 < n
            → crossed_at self.new.place ≡ crossed_before (WriteCall (length bytes.now)) self.old.place + n)) }
        ensures armed { OnPending result (IsArmed cx.new) }
        ensures kept { Keeps cx.old cx.new }
    {
        match self.poll(
            PollCall::Write(bytes.len()),
            cx,
            &mut ToWrite,
            &mut [],
            bytes,
        ) {
            Poll::Pending => Poll::Pending,
            Poll::Ready(Reply::Count(taken)) => Poll::Ready(Ok(taken)),
            Poll::Ready(Reply::Failed(why)) => Poll::Ready(Err(why)),
            Poll::Ready(_) => unreachable!(),
        }
    }

    fn poll_flush(&mut self, cx: &mut Context<'_>) -> Poll<Result<(), IoFault>>
        ensures follows { Follows FlushCall self.old.place (reply_of_done result) self.new.place }
        ensures at_once { KeepsAtOnce FlushCall self.old.place self.new.place }
        ensures same { IsClosed self.new.place ↔ IsClosed self.old.place }
        ensures rest { (self.new.capacity ≡ self.old.capacity) × (self.new.executor ≡ self.old.executor) }
        ensures armed { OnPending result (IsArmed cx.new) }
        ensures kept { Keeps cx.old cx.new }
    {
        match self.poll(PollCall::Flush, cx, &mut ToNobody, &mut [], &[]) {
            Poll::Pending => Poll::Pending,
            Poll::Ready(Reply::Done) => Poll::Ready(Ok(())),
            Poll::Ready(Reply::Failed(of_job)) => Poll::Ready(Err(of_job)),
            Poll::Ready(_) => unreachable!(),
        }
    }

    fn poll_close(&mut self, cx: &mut Context<'_>) -> Poll<Result<(), IoFault>>
        ensures follows { Follows CloseCall self.old.place (reply_of_done result) self.new.place }
        ensures closed { IfReady result (λ r. IfOk r (λ _. IsClosed self.new.place)) }
        ensures fault { IfReady result (λ r. IfErr r (λ _. IsAt Idle self.new.place)) }
        ensures open { (IsClosed self.old.place → ⊥) → IfReady result (λ r. IfErr r (λ _. IsClosed self.new.place → ⊥)) }
        ensures rest { (self.new.capacity ≡ self.old.capacity) × (self.new.executor ≡ self.old.executor) }
        ensures armed { OnPending result (IsArmed cx.new) }
        ensures kept { Keeps cx.old cx.new }
    {
        match self.poll(PollCall::Close, cx, &mut ToNobody, &mut [], &[]) {
            Poll::Pending => Poll::Pending,
            Poll::Ready(Reply::Done) => Poll::Ready(Ok(())),
            Poll::Ready(Reply::Failed(fault)) => Poll::Ready(Err(fault)),
            Poll::Ready(_) => unreachable!(),
        }
    }
}

impl<T: Iterator<Item = I> + Drop, I: Drop, J: Job + Carries<ItemJob<T, I, H>>, H: Runtime> Stream
    for Unblock<T, I, J, H> {
    ghost use Rattle.std.specs.Prelude.{OnSome};
    ghost use Rattle.blocking_core.specs.declared.unblock.PollCall.TheVariants.{Next as NextCall};
    ghost use Rattle.blocking_unblock.specs.Owners.{IsClosed, Follows, KeepsRefused, crossed_at, crossed_before, reply_of_next};
    ghost use Rattle.futures.specs.Task.{Covers};

    type Item = Result<I, Refusal>;

    // (nothing is promised of an iterator after its end, so it is one that may always be asked)
    ghost can_poll = { λ owner. (IsClosed owner.place → ⊥) × ((at : T) → T.can_next at) };

    /// The next item, or None at the end of the iterator, which a further poll asks again. Where no session can begin the answer says why.
    ///
    /// A poll that waits has registered, and is polled again.
    ///
    /// The kit's `StreamExt::next` awaits it:
    ///
    /// ```rust
    /// let mut numbers: Items<Range<u32>, u32, H> = Unblock::with_capacity(4, executor, 5..8);
    /// let first = block_on(&rt, numbers.next())?.transpose()?;
    /// ```
    fn poll_next(&mut self, cx: &mut Context<'_>) -> Poll<Option<Result<I, Refusal>>>
        requires open { IsClosed self.old.place → ⊥ }
        requires asked { (at : T) → T.can_next at }
        ensures refused { KeepsRefused self.old.place (reply_of_next result) self.new.place }
        ensures follows { Follows NextCall self.old.place (reply_of_next result) self.new.place }
        ensures crossed { IfReady result (λ next. IfSome next (λ r. IfOk r (λ _.
            crossed_at self.new.place ≡ crossed_before NextCall self.old.place + 1))) }
        ensures rest { (self.new.capacity ≡ self.old.capacity) × (self.new.executor ≡ self.old.executor) }
        ensures open { IsClosed self.new.place → ⊥ }
        ensures armed { OnPending result (IsArmed cx.new) }
        ensures kept { Keeps cx.old cx.new }
    {
        // (an item that is there is given without the machine, which would come to that)
        // stream: PollAgain
        if let HandleState::Lent(session) = &mut self.place {
            if let Some((item, note)) = session.try_receive() {
                if let Some(note) = note {
                    // stream: WakeJob
                    let _ = self.executor.wake(note);
                }
                return Poll::Ready(Some(Ok(item)));
            }
        }
        let mut brought = ToItem { item: None };
        match self.poll(PollCall::Next, cx, &mut brought, &mut [], &[]) {
            Poll::Pending => Poll::Pending,
            Poll::Ready(Reply::Item) => match brought.item {
                Some(item) => Poll::Ready(Some(Ok(item))),
                None => unreachable!(),
            },
            Poll::Ready(Reply::End) => Poll::Ready(None),
            Poll::Ready(Reply::NotBegun(why)) => Poll::Ready(Some(Err(why))),
            Poll::Ready(_) => unreachable!(),
        }
    }
}

// The position that a seek of the system names.
fn position_of(from: SeekFrom) -> Position
    ensures { result ≡ position_of from }
{
    match from {
        SeekFrom::Start(place) => Position::Start(place),
        SeekFrom::Current(offset) => Position::Current(offset),
        SeekFrom::End(offset) => Position::End(offset),
    }
}

impl<T: Seek + Drop, I: Drop, J: Job + Carries<SeekJob<T, H>>, H: Runtime> AsyncSeek
    for Unblock<T, I, J, H> {
    ghost use Rattle.blocking_core.specs.declared.unblock.PollCall.TheVariants.{Seek as SeekCall};
    ghost use Rattle.blocking_unblock.specs.Owners.{IsClosed, Follows, KeepsRefused, reply_of_seek};
    ghost use Rattle.blocking_unblock_jobs.specs.SeekJobs.{position_of};

    ghost closed = { λ owner. IsClosed owner.place };

    fn poll_seek(&mut self, cx: &mut Context<'_>, to: SeekFrom) -> Poll<Result<u64, IoFault>>
        requires { IsClosed self.old.place → ⊥ }
        ensures refused { KeepsRefused self.old.place (reply_of_seek result) self.new.place }
        ensures follows { Follows (SeekCall (position_of to)) self.old.place (reply_of_seek result) self.new.place }
        ensures rest { (self.new.capacity ≡ self.old.capacity) × (self.new.executor ≡ self.old.executor) }
        ensures open { IsClosed self.new.place → ⊥ }
        ensures armed { OnPending result (IsArmed cx.new) }
        ensures kept { Keeps cx.old cx.new }
    {
        let to = position_of(to);
        match self.poll(PollCall::Seek(to), cx, &mut ToSeek { to }, &mut [], &[]) {
            Poll::Pending => Poll::Pending,
            Poll::Ready(Reply::Position(place)) => Poll::Ready(Ok(place)),
            Poll::Ready(Reply::Failed(why)) => Poll::Ready(Err(why)),
            Poll::Ready(_) => unreachable!(),
        }
    }
}
