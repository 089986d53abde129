//! What one poll of the owner of a lent handle does: atomic actions, one after the other, until it has its reply or has to wait.
ghost use Rattle.std.specs.Prelude.{◌≡◌};
ghost use Rattle.blocking_core.specs.OwnerCalls.{kind_begun, goes_on_in, has_pipe, begun_by, shut};
ghost use Rattle.blocking_core.specs.OwnerCalls.{at_idle, in_own, stop, at_closed, at_state, table};
ghost use Rattle.blocking_core.specs.declared.unblock.OwnerAction.TheVariants.{Reply as ActionReply};
ghost use Rattle.blocking_core.specs.OwnerCalls.{tells_faults, refusal, at_end, after_end, after_back, sought_by, after_seek};

use crate::io::{Fault, Position};
use crate::pipe::OfPipe;
use crate::task::{OfSlot, Seat};
use blocking_pool::pool::Refusal;
use std::marker::Model;

/// What a poll asks for.
#[derive(Clone, Copy, Debug, PartialEq, Eq)]
pub enum PollCall {
    /// To read at most so many bytes.
    Read(usize),
    /// To write at most so many bytes.
    Write(usize),
    /// To have all written that was taken for writing.
    Flush,
    /// To have all written, and the handle dropped.
    Close,
    /// To move the handle to this position.
    Seek(Position),
    /// To have the next item.
    Next,
    /// To have the result of an operation on the handle.
    Operate {
        /// Whether its session began in an earlier poll of the same operation.
        has_begun: bool,
    },
    /// To have the handle itself.
    GetMut,
    /// To have the handle for good.
    IntoInner,
}

/// What the job of a session does with the handle.
#[derive(Clone, Copy, Debug, PartialEq, Eq)]
pub enum SessionKind {
    /// It reads ahead of its owner, through a pipe.
    Reading,
    /// It writes behind its owner, through a pipe.
    Writing,
    /// It takes items ahead of its owner, through a pipe.
    Streaming,
    /// It moves the handle to this position.
    Seeking(Position),
    /// It makes an operation of the owner's on the handle.
    Operating,
}

/// The owner's end of a session's pipe. A session without a pipe counts as open.
#[derive(Clone, Copy, Debug, PartialEq, Eq)]
pub enum OwnerEnd {
    /// The owner may still take what comes through the pipe.
    Open,
    /// The owner closed it, and stops the session.
    Shut,
}

/// Where the handle is.
#[derive(Clone, Copy, Debug, PartialEq, Eq)]
pub enum State {
    /// With its owner.
    Idle,
    /// With the job of a session of this kind.
    Lent(SessionKind, OwnerEnd),
    /// Nowhere: it was dropped by a close.
    Closed,
}

/// What a poll replies.
#[derive(Clone, Copy, Debug, PartialEq, Eq)]
pub enum Reply<E> {
    /// So many bytes. None for a buffer that has room: the reader is at its end. None of some to write: the job has ended by a fault,
    /// which the next flush tells.
    Count(usize),
    /// The handle is at this position now, counted in bytes from its start.
    Position(u64),
    /// The item that came out of the pipe.
    Item,
    /// There are no more items.
    End,
    /// The result of the operation.
    Result,
    /// The handle.
    Handle,
    /// A fault.
    Failed(Fault<E>),
    /// No session could begin, for a stream or an operation; the handle is with its owner.
    NotBegun(Refusal),
    /// All that was asked for is done.
    Done,
    /// There is no handle any more.
    Closed,
}

/// What a poll does next.
#[derive(Clone, Copy, Debug, PartialEq, Eq)]
pub enum OwnerAction<E> {
    /// Begin a session of the call's kind.
    Begin,
    /// Close the owner's end of the pipe.
    Close,
    /// Move at most so many bytes out of the pipe.
    Drain(usize),
    /// Fill at most so many bytes into the pipe.
    Fill(usize),
    /// Move one item out of the pipe.
    Receive,
    /// Look for the handle in the job's slot, and wait there where it hasn't come.
    PollSlot,
    /// Look for the operation's result in its place, and wait there where it hasn't come.
    PollResult,
    /// Drop the handle, which is with its owner.
    DropHandle,
    /// Spend the note that was taken out of the job's seat.
    Deliver,
    /// Nothing more but this reply: the poll is over.
    Reply(Reply<E>),
    /// Nothing more: the poll is over, and pending. Its waker has a seat.
    Pending,
}

/// How an action was answered. `has_note` says that the job's note was taken out of its seat, and has to be spent.
#[derive(Drop)]
pub enum OwnerAnswer<E: Drop> {
    /// A session began: its job was accepted.
    Begun,
    /// No session could begin.
    Refused(Refusal),
    /// The owner's end is closed.
    Closed { has_note: bool },
    /// So many bytes came out, one at least.
    Got { count: usize, has_note: bool },
    /// An item came out.
    Received { has_note: bool },
    /// The pipe is empty, and the job's end is closed.
    Ended,
    /// So many bytes are inside, one at least.
    Took { count: usize, has_note: bool },
    /// The job's end is closed, and no byte was taken.
    Shut,
    /// There is nothing in the pipe yet, or no room, and the waker is seated there.
    WaitsAtPipe(Seat<OfPipe>),
    /// There is no handle in the slot yet, or no result in its place, and the waker is seated there.
    WaitsInSlot(Seat<OfSlot>),
    /// The handle came back, with the fault of its job.
    Back(Option<Fault<E>>),
    /// The handle came back from a seek that went well, and is at this position now, counted in bytes from its start.
    Sought(u64),
    /// The result came out of its place.
    Resulted,
    /// The handle was dropped.
    Dropped,
    /// The note was spent.
    Delivered,
}

/// What one poll of an owner does: its next action, and the answer decides what follows.
///
/// A poll begins by its call and where the handle is. From a session that isn't the call's own it first stops that session.
/// It closes the owner's end, waits for the handle, and goes on as if it had been idle.
#[derive(Clone, Copy, Debug)]
pub struct OwnerCall<E> {
    call: PollCall,
    state: State,
    next: OwnerAction<E>,
    is_waking: bool,
    is_at_end: bool,
}

impl<E> Model for OwnerCall<E> {
    ghost use Rattle.blocking_core.specs.OwnerCalls.{OwnerMachine};

    ghost Value = { OwnerMachine E };

    ghost view = { λ poll. record {
      call = poll.call;
      state = poll.state;
      next = poll.next;
      is_waking = poll.is_waking;
      is_at_end = poll.is_at_end;
    } };

    ghost inverse = { λ seen. record {
      call = seen.call;
      state = seen.state;
      next = seen.next;
      is_waking = seen.is_waking;
      is_at_end = seen.is_at_end;
    } };
}

impl<E: Copy + Drop> OwnerCall<E> {
    ghost use Rattle.std.specs.Prelude.{◌≡◌};
    ghost use Rattle.blocking_core.specs.OwnerCalls.{new_poll, owner_next, owner_after};
    ghost use Rattle.blocking_core.specs.OwnerCalls.{after_begin, after_close, after_drain, after_fill, after_receive};
    ghost use Rattle.blocking_core.specs.OwnerCalls.{after_slot, after_result, after_drop};

    /// A poll that begins, where the handle is there.
    pub fn new(call: PollCall, state: State) -> Self
        ensures { result ≡ new_poll call state }
    {
        OwnerCall {
            call,
            state,
            next: first_action(call, state),
            is_waking: false,
            is_at_end: false,
        }
    }

    /// Where the handle is now.
    pub fn state(&self) -> State
        ensures { result ≡ self.now.state }
    {
        self.state
    }

    /// The next action.
    pub fn next(&self) -> OwnerAction<E>
        ensures { result ≡ owner_next self.now }
    {
        if self.is_waking {
            return OwnerAction::Deliver;
        }
        self.next
    }

    /// Takes the answer to the next action. An answer of another kind changes nothing, and neither does one that counts no
    /// bytes, or more than were asked for.
    pub fn answer(&mut self, answer: OwnerAnswer<E>)
        ensures { self.new ≡ owner_after self.old answer }
    {
        if self.is_waking {
            self.is_waking = !matches!(answer, OwnerAnswer::Delivered);
            return;
        }
        match self.next {
            OwnerAction::Begin => self.answer_begin(answer),
            OwnerAction::Close => self.answer_close(answer),
            OwnerAction::Drain(most) => self.answer_drain(most, answer),
            OwnerAction::Fill(most) => self.answer_fill(most, answer),
            OwnerAction::Receive => self.answer_receive(answer),
            OwnerAction::PollSlot => self.answer_slot(answer),
            OwnerAction::PollResult => self.answer_result(answer),
            OwnerAction::DropHandle => self.answer_drop(answer),
            OwnerAction::Deliver | OwnerAction::Reply(_) | OwnerAction::Pending => {}
        }
    }

    fn answer_begin(&mut self, answer: OwnerAnswer<E>)
        ensures { self.new ≡ after_begin answer self.old }
    {
        match answer {
            OwnerAnswer::Begun => {
                self.state = begun_by(self.call);
                self.next = own_action(self.call);
            }
            OwnerAnswer::Refused(why) => self.next = OwnerAction::Reply(refusal(self.call, why)),
            _ => {}
        }
    }

    fn answer_close(&mut self, answer: OwnerAnswer<E>)
        ensures { self.new ≡ after_close answer self.old }
    {
        if let OwnerAnswer::Closed { has_note } = answer {
            self.state = shut(self.state);
            self.next = OwnerAction::PollSlot;
            self.is_waking = has_note;
        }
    }

    fn answer_drain(&mut self, most: usize, answer: OwnerAnswer<E>)
        ensures { self.new ≡ after_drain most answer self.old }
    {
        match answer {
            OwnerAnswer::Got { count, has_note } => {
                if 0 < count && count <= most {
                    self.next = OwnerAction::Reply(Reply::Count(count));
                    self.is_waking = has_note;
                }
            }
            OwnerAnswer::Ended => {
                self.next = OwnerAction::PollSlot;
                self.is_at_end = true;
            }
            OwnerAnswer::WaitsAtPipe(_) => self.next = OwnerAction::Pending,
            _ => {}
        }
    }

    fn answer_fill(&mut self, most: usize, answer: OwnerAnswer<E>)
        ensures { self.new ≡ after_fill most answer self.old }
    {
        match answer {
            OwnerAnswer::Took { count, has_note } => {
                if 0 < count && count <= most {
                    self.next = OwnerAction::Reply(Reply::Count(count));
                    self.is_waking = has_note;
                }
            }
            OwnerAnswer::Shut => self.next = OwnerAction::Reply(Reply::Count(0)),
            OwnerAnswer::WaitsAtPipe(_) => self.next = OwnerAction::Pending,
            _ => {}
        }
    }

    fn answer_receive(&mut self, answer: OwnerAnswer<E>)
        ensures { self.new ≡ after_receive answer self.old }
    {
        match answer {
            OwnerAnswer::Received { has_note } => {
                self.next = OwnerAction::Reply(Reply::Item);
                self.is_waking = has_note;
            }
            OwnerAnswer::Ended => {
                self.next = OwnerAction::PollSlot;
                self.is_at_end = true;
            }
            OwnerAnswer::WaitsAtPipe(_) => self.next = OwnerAction::Pending,
            _ => {}
        }
    }

    fn answer_drop(&mut self, answer: OwnerAnswer<E>)
        ensures { self.new ≡ after_drop answer self.old }
    {
        if let OwnerAnswer::Dropped = answer {
            self.state = State::Closed;
            self.next = OwnerAction::Reply(Reply::Done);
        }
    }

    fn answer_slot(&mut self, answer: OwnerAnswer<E>)
        ensures { self.new ≡ after_slot answer self.old }
    {
        match answer {
            OwnerAnswer::WaitsInSlot(_) => self.next = OwnerAction::Pending,
            OwnerAnswer::Back(fault) => {
                self.state = State::Idle;
                self.next = action_after_back(self.call, self.is_at_end, fault);
            }
            OwnerAnswer::Sought(place) => {
                self.next = action_after_seek(self.state, self.call, place);
                self.state = State::Idle;
            }
            _ => {}
        }
    }

    fn answer_result(&mut self, answer: OwnerAnswer<E>)
        ensures { self.new ≡ after_result answer self.old }
    {
        match answer {
            OwnerAnswer::Resulted => self.next = OwnerAction::Reply(Reply::Result),
            OwnerAnswer::WaitsInSlot(_) => self.next = OwnerAction::Pending,
            _ => {}
        }
    }
}

// The kind of session that a call begins.
fn kind_begun(call: PollCall) -> Option<SessionKind>
    ensures { result ≡ kind_begun call }
{
    match call {
        PollCall::Read(_) => Some(SessionKind::Reading),
        PollCall::Write(_) => Some(SessionKind::Writing),
        PollCall::Next => Some(SessionKind::Streaming),
        PollCall::Seek(to) => Some(SessionKind::Seeking(to)),
        PollCall::Operate { .. } => Some(SessionKind::Operating),
        PollCall::Flush | PollCall::Close | PollCall::GetMut | PollCall::IntoInner => None,
    }
}

// Where the handle is once a session of this call began.
fn begun_by(call: PollCall) -> State
    ensures { result ≡ begun_by call }
{
    match kind_begun(call) {
        Some(kind) => State::Lent(kind, OwnerEnd::Open),
        None => State::Idle,
    }
}

// Whether a call goes on in a session of this kind.
fn goes_on_in(kind: SessionKind, call: PollCall) -> bool
    ensures { result ≡ goes_on_in kind call }
{
    match (kind, call) {
        (SessionKind::Operating, PollCall::Operate { has_begun }) => has_begun,
        (SessionKind::Reading, PollCall::Read(_))
        | (SessionKind::Writing, PollCall::Write(_))
        | (SessionKind::Streaming, PollCall::Next)
        | (SessionKind::Seeking(_), PollCall::Seek(_)) => true,
        _ => false,
    }
}

// Whether a session of this kind has a pipe.
fn has_pipe(kind: SessionKind) -> bool
    ensures { result ≡ has_pipe kind }
{
    match kind {
        SessionKind::Reading | SessionKind::Writing | SessionKind::Streaming => true,
        SessionKind::Seeking(_) | SessionKind::Operating => false,
    }
}

// The same session, once the owner's end is closed.
fn shut(state: State) -> State
    ensures { result ≡ shut state }
{
    match state {
        State::Lent(kind, _) => State::Lent(kind, OwnerEnd::Shut),
        State::Idle | State::Closed => state,
    }
}

// What a call does with a handle that is with its owner.
fn idle_action<E: Copy + Drop>(call: PollCall) -> OwnerAction<E>
    ensures { result ≡ at_idle call }
{
    match call {
        PollCall::GetMut | PollCall::IntoInner => OwnerAction::Reply(Reply::Handle),
        PollCall::Flush => OwnerAction::Reply(Reply::Done),
        PollCall::Close => OwnerAction::DropHandle,
        PollCall::Read(_)
        | PollCall::Write(_)
        | PollCall::Seek(_)
        | PollCall::Next
        | PollCall::Operate { .. } => OwnerAction::Begin,
    }
}

// What a call does in a session that is its own.
fn own_action<E: Copy + Drop>(call: PollCall) -> OwnerAction<E>
    ensures { result ≡ in_own call }
{
    match call {
        PollCall::Read(most) => OwnerAction::Drain(most),
        PollCall::Write(most) => OwnerAction::Fill(most),
        PollCall::Next => OwnerAction::Receive,
        PollCall::Operate { .. } => OwnerAction::PollResult,
        PollCall::Seek(_)
        | PollCall::Flush
        | PollCall::Close
        | PollCall::GetMut
        | PollCall::IntoInner => OwnerAction::PollSlot,
    }
}

// How a session is stopped, by whether it has a pipe.
fn stop_action<E: Copy + Drop>(has_pipe: bool, end: OwnerEnd) -> OwnerAction<E>
    ensures { result ≡ stop has_pipe end }
{
    match end {
        OwnerEnd::Open if has_pipe => OwnerAction::Close,
        _ => OwnerAction::PollSlot,
    }
}

// What a call does once the handle is gone.
fn closed_action<E: Copy + Drop>(call: PollCall) -> OwnerAction<E>
    ensures { result ≡ at_closed call }
{
    match call {
        PollCall::Flush | PollCall::Close => OwnerAction::Reply(Reply::Done),
        _ => OwnerAction::Reply(Reply::Closed),
    }
}

// What a call does where the handle is, were it to move some bytes.
fn action_at<E: Copy + Drop>(call: PollCall, state: State) -> OwnerAction<E>
    ensures { result ≡ at_state call state }
{
    match state {
        State::Idle => idle_action(call),
        State::Lent(kind, OwnerEnd::Open) if goes_on_in(kind, call) => own_action(call),
        State::Lent(kind, end) => stop_action(has_pipe(kind), end),
        State::Closed => closed_action(call),
    }
}

// What a call does first.
fn first_action<E: Copy + Drop>(call: PollCall, state: State) -> OwnerAction<E>
    ensures { result ≡ table call state }
{
    match call {
        PollCall::Read(0) | PollCall::Write(0) => OwnerAction::Reply(Reply::Count(0)),
        _ => action_at(call, state),
    }
}

// Whether a call tells the fault of a session that is over.
fn tells_faults(call: PollCall) -> bool
    ensures { result ≡ tells_faults call }
{
    match call {
        PollCall::Next | PollCall::Operate { .. } | PollCall::GetMut | PollCall::IntoInner => false,
        _ => true,
    }
}

// How a call tells that no session could begin.
fn refusal<E: Copy + Drop>(call: PollCall, why: Refusal) -> Reply<E>
    ensures { ActionReply result ≡ refusal call why }
{
    match call {
        PollCall::Next | PollCall::Operate { .. } => Reply::NotBegun(why),
        _ => Reply::Failed(Fault::Refused(why)),
    }
}

// What a call does once the handle is back with no fault to be told, by whether it saw the end of the pipe.
fn action_after_end<E: Copy + Drop>(call: PollCall, is_at_end: bool) -> OwnerAction<E>
    ensures { result ≡ after_end call is_at_end }
{
    match call {
        PollCall::Read(_) if is_at_end => OwnerAction::Reply(Reply::Count(0)),
        PollCall::Next if is_at_end => OwnerAction::Reply(Reply::End),
        _ => first_action(call, State::Idle),
    }
}

// What a call does once the handle is back.
fn action_after_back<E: Copy + Drop>(
    call: PollCall,
    is_at_end: bool,
    fault: Option<Fault<E>>,
) -> OwnerAction<E>
    ensures { result ≡ after_back call is_at_end fault }
{
    match fault {
        Some(fault) if tells_faults(call) => OwnerAction::Reply(Reply::Failed(fault)),
        _ => action_after_end(call, is_at_end),
    }
}

// Whether a call asks for the position that a session sought.
fn is_sought_by(state: State, call: PollCall) -> bool
    ensures { result ≡ sought_by state call }
{
    match (state, call) {
        (State::Lent(SessionKind::Seeking(from), _), PollCall::Seek(to)) => from.is_same(to),
        _ => false,
    }
}

// What a call does once the handle is back from a seek that went well.
fn action_after_seek<E: Copy + Drop>(state: State, call: PollCall, place: u64) -> OwnerAction<E>
    ensures { result ≡ after_seek state call place }
{
    if is_sought_by(state, call) {
        return OwnerAction::Reply(Reply::Position(place));
    }
    first_action(call, State::Idle)
}
