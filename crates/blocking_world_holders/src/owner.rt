//! The machine of an owner who lends its handle to jobs until it takes the handle back. They read ahead of it, write behind it, give its
//! items, move it or operate on it.
ghost use Rattle.std.specs.Prelude.{◌≡◌, ◌<◌, ◌==◌, if◌then◌else◌, Some, None};
ghost use Rattle.blocking_core.specs.declared.unblock.OwnerAction.TheVariants as action;
ghost use Rattle.blocking_world_holders.specs.Sessions.{serial_of};
ghost use Rattle.blocking_world_holders.specs.Owners.{poll_call_of, reply_as, back_answer};
ghost use Rattle.blocking_world_laws.specs.Sessions.{is_again, is_into_inner};

mod item;
mod op;
mod read;
mod seek;
mod write;

use crate::item::ItemProgress;
use crate::job::SessionJob;
use crate::op::OpProgress;
use crate::passage::Passage;
use crate::read::ReadProgress;
use crate::seek::SeekProgress;
use crate::session::{Looked, Session};
use crate::write::WriteProgress;
use blocking_core::io::Fault;
use blocking_core::pipe::{DEFAULT_BYTES, DEFAULT_ITEMS, Pipe};
use blocking_core::pool::{JobNo, Refusal, WakeNote};
use blocking_core::unblock::{
    OwnerAction, OwnerAnswer, OwnerCall, PollCall, Reply, SessionKind, State,
};
use blocking_world_laws::event::{Act, HolderWaker, Reply as Told};
use blocking_world_laws::step::HandleCall;
use std::alloc::{AllocError, Global};
use std::marker::Model;
use std::mem;

// How the last poll of an owner ended.
#[derive(Clone, Copy)]
pub(crate) enum PollEnd {
    // It replied, or there was none.
    Replied,
    // It waits, at the pipe or for the handle.
    Waits,
    // It waits for the result of its operation, whose session has begun.
    WaitsForResult,
}

impl PollEnd {
    ghost use Rattle.blocking_world_holders.specs.Owners.{is_pending, is_for_result};

    // Whether it waits.
    fn is_pending(self) -> bool
        ensures { result ≡ is_pending self }
    {
        !matches!(self, PollEnd::Replied)
    }

    // Whether it waits for the result of its operation.
    fn is_for_result(self) -> bool
        ensures { result ≡ is_for_result self }
    {
        matches!(self, PollEnd::WaitsForResult)
    }
}

// Where an owner is in its polls.
pub(crate) enum OwnerStage {
    // No poll is under way, this is where the handle is, and the last poll ended so.
    Rests(State, PollEnd),
    // This poll is under way.
    Polls(OwnerCall<u64>),
    // This poll is under way, and has to spend this note first.
    Wakes(OwnerCall<u64>, WakeNote),
    // It was dropped.
    Dropped,
    // Its handle was taken back for good, and it is no more.
    TakenBack,
}

/// What the poll of an owner does next.
#[derive(Clone, Copy, Debug)]
pub enum OwnerNext {
    /// Nothing: no poll is under way.
    Rests,
    /// It begins a session, which the pool accepts or refuses.
    Begins,
    /// It delivers the note that it took, to the pool.
    Delivers,
    /// It acts by itself, and this many bytes come out of the pipe.
    Acts(usize),
}

/// An owner. It has how many bytes or items the pipes of its sessions hold, and the client whose its jobs are. It has the call that it was
/// asked last, where it is in its polls, and its last session. The wakers in its seats are units.
///
/// It may hold the note of a job that has to be woken, so it can't be let go: [`Owner::into_note`] takes it apart.
pub struct Owner {
    // (0 stands for the defaults)
    capacity: usize,
    client: u32,
    asked: Option<HandleCall>,
    stage: OwnerStage,
    session: Option<Session>,
}

impl Model for Owner {
    ghost use Rattle.blocking_world_holders.specs.Owners.{Owner as Holder};

    ghost Value = { Holder };

    ghost view = { λ o. record { capacity = o.capacity; client = o.client; asked = o.asked; stage = o.stage; session = o.session } };
}

// The serial of the job that this note wakes.
fn serial_of(note: &Option<WakeNote>) -> Option<u64>
    ensures { result ≡ serial_of note.now }
{
    match note {
        Some(note) => Some(note.job().serial()),
        None => None,
    }
}

// A call, in the words of the machine, by whether the session of a pending operation has begun.
fn poll_call(call: &HandleCall, has_begun: bool) -> PollCall
    ensures { result ≡ poll_call_of has_begun call.now }
{
    match call {
        HandleCall::Read(most) => PollCall::Read(*most as usize),
        HandleCall::Write(bytes) => PollCall::Write(bytes.as_slice().len()),
        HandleCall::Flush => PollCall::Flush,
        HandleCall::Close => PollCall::Close,
        HandleCall::Seek(position) => PollCall::Seek(*position),
        HandleCall::Next => PollCall::Next,
        HandleCall::Operate => PollCall::Operate { has_begun: false },
        HandleCall::OperateAgain => PollCall::Operate { has_begun },
        HandleCall::GetMut => PollCall::GetMut,
        HandleCall::IntoInner => PollCall::IntoInner,
    }
}

// A reply, as it is told, where this item or result came out last. None for the one to a call that isn't asked of an owner whose handle is gone.
fn told(reply: Reply<u64>, item: u64) -> Option<Told>
    ensures { result ≡ reply_as item reply }
{
    match reply {
        Reply::Count(count) => Some(Told::Count(count as u64)),
        Reply::Item => Some(Told::OneItem(item)),
        Reply::Result => Some(Told::Count(item)),
        Reply::Position(place) => Some(Told::Count(place)),
        Reply::End => Some(Told::NoMore),
        Reply::Handle => Some(Told::Handle),
        Reply::Failed(why) => Some(Told::Failed(why)),
        Reply::NotBegun(why) => Some(Told::NotBegun(why)),
        Reply::Done => Some(Told::Okay),
        Reply::Closed => None,
    }
}

// Whether a call asks for the result of a pending operation.
fn is_again(call: &HandleCall) -> bool
    ensures { result ≡ is_again call.now }
{
    matches!(call, HandleCall::OperateAgain)
}

// Whether a call asks for the handle for good.
fn is_into_inner(call: &HandleCall) -> bool
    ensures { result ≡ is_into_inner (Some call.now) }
{
    matches!(call, HandleCall::IntoInner)
}

// How the machine is told that the handle is back, with this fault, from here: of a seek that went well with where it is.
fn back(from: State, fault: Option<Fault<u64>>, left: u64) -> OwnerAnswer<u64>
    ensures { result ≡ back_answer from fault left }
{
    match (from, fault) {
        (State::Lent(SessionKind::Seeking(_), _), None) => OwnerAnswer::Sought(left),
        _ => OwnerAnswer::Back(fault),
    }
}

// This number, or the default in the place of 0.
fn or_default(number: usize, default: usize) -> usize
    requires { 0 < default }
    ensures number { result ≡ (if number == 0 then default else number) }
    ensures some { 0 < result }
{
    if number == 0 { default } else { number }
}

impl Owner {
    ghost use Rattle.std.specs.Prelude.{vec_len, IfOk, OnErr, Some};
    ghost use Rattle.blocking_core.specs.Pipes.{empty_pipe};
    ghost use Rattle.blocking_world_holders.specs.Passages.{goods_in, pipe_in};
    ghost use Rattle.blocking_world_holders.specs.Owners.{new_owner, capacity_asked, goods_asked, is_gone, stage_after_reply, note_at, next_of, number_of, bytes_in, rests};
    ghost use Rattle.blocking_world_holders.specs.Owners.{owner_after_ask, did, did_in, reply_did, IsDid, goes_on};
    ghost use Rattle.blocking_world_holders.specs.Owners.{owner_after_begin, owner_after_refusal, owner_after_delivery, owner_after_drop};
    ghost use Rattle.blocking_world_holders.specs.Owners.{may_ask, may_ask_at, last_item, drop_did, new_job_of, worked, IsWorked, give_up_act, owner_after_give_up};

    /// An owner of this client, with an idle handle. The pipes of its sessions hold so many bytes or items; 0 stands for 8,388,608 bytes and
    /// 8,192 items.
    pub fn new(capacity: usize, client: u32) -> Owner
        ensures { result ≡ new_owner capacity client }
    {
        Owner {
            capacity,
            client,
            asked: None,
            stage: OwnerStage::Rests(State::Idle, PollEnd::Replied),
            session: None,
        }
    }

    /// An empty pipe for the session that its poll begins, or none for one without. Err where there is no memory for it.
    pub fn passage(&self, alloc: Global) -> Result<Passage, AllocError>
        ensures goods { IfOk result (λ passage. goods_in passage ≡ goods_asked self.now) }
        ensures pipe { IfOk result (λ passage. pipe_in passage ≡ empty_pipe (capacity_asked self.now)) }
    {
        if let Some(HandleCall::Next) = &self.asked {
            let capacity = or_default(self.capacity, DEFAULT_ITEMS);
            return Ok(Passage::Items(Pipe::new(alloc, capacity)?));
        }
        let capacity = or_default(self.capacity, DEFAULT_BYTES);
        if let Some(
            HandleCall::Seek(_) | HandleCall::Operate | HandleCall::OperateAgain,
        ) = &self.asked
        {
            return Ok(Passage::Without(capacity));
        }
        Ok(Passage::Bytes(Pipe::new(alloc, capacity)?))
    }

    /// The client whose its jobs are.
    pub fn client(&self) -> u32
        ensures { result ≡ self.now.client }
    {
        self.client
    }

    /// Whether it may be dropped: it is there, and no poll of it is under way.
    pub fn rests(&self) -> bool
        ensures { result ≡ rests self.now }
    {
        matches!(self.stage, OwnerStage::Rests(_, _))
    }

    /// Whether it may be asked for this: it is there, and no poll of it is under way. Once its handle is gone it is only flushed and
    /// closed. Once its handle was asked for for good it is only asked for that. For the result of an operation it is asked only where one
    /// is pending.
    pub fn may_ask(&self, call: &HandleCall) -> bool
        ensures { result ≡ may_ask self.now call.now }
    {
        self.may_begin(call)
            && (!self.was_asked_inner() || is_into_inner(call))
            && (!is_again(call) || self.awaits_operation())
    }

    // Whether its handle was asked for for good, which then its last call does.
    fn was_asked_inner(&self) -> bool
        ensures { result ≡ is_into_inner self.now.asked }
    {
        match &self.asked {
            Some(call) => is_into_inner(call),
            None => false,
        }
    }

    // The same by where the handle is alone.
    fn may_begin(&self, call: &HandleCall) -> bool
        ensures { result ≡ may_ask_at self.now.stage call.now }
    {
        match self.stage {
            OwnerStage::Rests(State::Closed, _) => {
                matches!(call, HandleCall::Flush | HandleCall::Close)
            }
            OwnerStage::Rests(_, _) => true,
            _ => false,
        }
    }

    /// Whether it was dropped.
    pub fn is_dropped(&self) -> bool
        ensures { result ≡ is_gone self.now.stage }
    {
        matches!(self.stage, OwnerStage::Dropped)
    }

    /// The number of the job of its last session, if it ever had one.
    pub fn number(&self) -> Option<JobNo>
        ensures { result ≡ number_of self.now }
    {
        match &self.session {
            Some(session) => Some(session.number()),
            None => None,
        }
    }

    /// What its poll does next.
    pub fn next(&self) -> OwnerNext
        ensures { result ≡ next_of self.now }
    {
        match &self.stage {
            OwnerStage::Rests(_, _) | OwnerStage::Dropped | OwnerStage::TakenBack =>
                OwnerNext::Rests,
            OwnerStage::Wakes(_, _) => OwnerNext::Delivers,
            OwnerStage::Polls(poll) => match poll.next() {
                OwnerAction::Begin => OwnerNext::Begins,
                OwnerAction::Drain(most) => OwnerNext::Acts(self.reach(most)),
                OwnerAction::Close
                | OwnerAction::Fill(_)
                | OwnerAction::Receive
                | OwnerAction::PollSlot
                | OwnerAction::PollResult
                | OwnerAction::DropHandle => OwnerNext::Acts(0),
                OwnerAction::Reply(reply) => match told(reply, self.item()) {
                    Some(_) => OwnerNext::Acts(0),
                    None => OwnerNext::Rests,
                },
                OwnerAction::Deliver | OwnerAction::Pending => OwnerNext::Rests,
            },
        }
    }

    // The item that came out of the pipe of its last session last, or the result of its operation.
    fn item(&self) -> u64
        ensures { result ≡ last_item self.now.session }
    {
        match &self.session {
            Some(session) => session.item(),
            None => 0,
        }
    }

    /// A poll of it begins, and asks for this. Nothing is done where it doesn't rest.
    pub fn ask(&mut self, call: HandleCall)
        ensures { self.new ≡ owner_after_ask call self.old }
    {
        if let OwnerStage::Rests(state, end) = &self.stage {
            let poll = OwnerCall::new(poll_call(&call, end.is_for_result()), *state);
            self.asked = Some(call);
            self.set_stage(OwnerStage::Polls(poll));
        }
    }

    // It is at this stage of its polls from now on.
    fn set_stage(&mut self, stage: OwnerStage)
        requires { note_at self.old.stage ≡ None }
        ensures { self.new ≡ record self.old { stage = stage } }
    {
        match mem::replace(&mut self.stage, stage) {
            OwnerStage::Wakes(_poll, _note) => unreachable!(),
            OwnerStage::Rests(_, _)
            | OwnerStage::Polls(_)
            | OwnerStage::Dropped
            | OwnerStage::TakenBack => {}
        }
    }

    // Its poll goes on, first by a note that it took.
    fn go_on(&mut self, poll: OwnerCall<u64>, note: Option<WakeNote>)
        requires { note_at self.old.stage ≡ None }
        ensures { self.new ≡ record self.old { stage = goes_on poll note } }
    {
        self.set_stage(match note {
            Some(note) => OwnerStage::Wakes(poll, note),
            None => OwnerStage::Polls(poll),
        });
    }

    /// Its poll takes its next action, where that asks no pool: what is seen of it. The bytes that come out of the pipe come out
    /// in this room, which has to have the length that [`Owner::next`] tells. None, and no change, where it has no such action.
    pub fn act(&mut self, room: Vec<u8>) -> Option<Act>
        requires { vec_len room ≡ bytes_in (next_of self.old) }
        ensures { IsDid (did self.old) self.old result self.new }
    {
        let OwnerStage::Polls(poll) = &self.stage else {
            return None;
        };
        let poll = *poll;
        match poll.next() {
            OwnerAction::Close => self.close(poll),
            OwnerAction::Drain(_) => self.drain(poll, room),
            OwnerAction::Fill(_) => self.fill(poll),
            OwnerAction::Receive => self.receive(poll),
            OwnerAction::PollSlot => self.look(poll),
            OwnerAction::PollResult => self.find_result(poll),
            OwnerAction::DropHandle => self.drop_handle(poll),
            OwnerAction::Reply(reply) => {
                let told = told(reply, self.item());
                self.reply(poll, told)
            }
            OwnerAction::Begin | OwnerAction::Deliver | OwnerAction::Pending => None,
        }
    }

    // It replies, where there is something to be told.
    fn reply(&mut self, poll: OwnerCall<u64>, told: Option<Told>) -> Option<Act>
        requires { note_at self.old.stage ≡ None }
        ensures { IsDid (reply_did told poll self.old) self.old result self.new }
    {
        let told = told?;
        let stage = self.after_reply(poll.state());
        self.set_stage(stage);
        Some(Act::Replied(told))
    }

    // Where it is once its poll has replied, by where the handle is.
    fn after_reply(&self, at: State) -> OwnerStage
        ensures { result ≡ stage_after_reply (is_into_inner self.now.asked) at }
    {
        if self.was_asked_inner() {
            OwnerStage::TakenBack
        } else {
            OwnerStage::Rests(at, PollEnd::Replied)
        }
    }

    // It closes its end of the pipe.
    fn close(&mut self, poll: OwnerCall<u64>) -> Option<Act>
        requires { note_at self.old.stage ≡ None }
        ensures { IsDid (did_in action.Close poll self.old.session self.old) self.old result self.new }
    {
        let Some(session) = &mut self.session else {
            return None;
        };
        if !session.is_piped() {
            return None;
        }
        let note = session.close();
        let serial = serial_of(&note);
        let mut poll = poll;
        poll.answer(OwnerAnswer::Closed {
            has_note: serial.is_some(),
        });
        self.go_on(poll, note);
        Some(Act::OwnerClosed(serial))
    }

    // It drops the handle, which is with it, and replies that all is done.
    fn drop_handle(&mut self, poll: OwnerCall<u64>) -> Option<Act>
        requires { note_at self.old.stage ≡ None }
        ensures { IsDid (Some (drop_did poll self.old)) self.old result self.new }
    {
        let mut poll = poll;
        poll.answer(OwnerAnswer::Dropped);
        self.set_stage(OwnerStage::Rests(poll.state(), PollEnd::Replied));
        Some(Act::Replied(Told::Okay))
    }

    // It looks for the handle in the slot of its job.
    fn look(&mut self, poll: OwnerCall<u64>) -> Option<Act>
        requires { note_at self.old.stage ≡ None }
        ensures { IsDid (did_in action.PollSlot poll self.old.session self.old) self.old result self.new }
    {
        let Some(session) = &mut self.session else {
            return None;
        };
        match session.look() {
            Looked::Handle(fault) => {
                let mut poll = poll;
                poll.answer(back(poll.state(), fault, session.left()));
                self.set_stage(OwnerStage::Polls(poll));
                Some(Act::Back)
            }
            Looked::Nothing => {
                self.set_stage(OwnerStage::Rests(poll.state(), PollEnd::Waits));
                Some(Act::Waits)
            }
            Looked::Gone => None,
        }
    }

    /// The job of the session that its poll begins, as was asked. Takes no memory.
    pub fn new_job(&self, alloc: Global) -> SessionJob
        ensures { result ≡ new_job_of self.now }
    {
        match &self.asked {
            Some(HandleCall::Write(_)) => SessionJob::Write(WriteProgress::new(alloc)),
            Some(HandleCall::Next) => SessionJob::Items(ItemProgress::new()),
            Some(HandleCall::Seek(goal)) => SessionJob::Seek(SeekProgress::new(*goal)),
            Some(HandleCall::Operate | HandleCall::OperateAgain) => {
                SessionJob::Operate(OpProgress::new())
            }
            _ => SessionJob::Read(ReadProgress::new(alloc)),
        }
    }

    /// A session began, with this job and this pipe, which is empty.
    pub fn begin(&mut self, number: JobNo, passage: Passage)
        ensures { self.new ≡ owner_after_begin number (goods_in passage) (pipe_in passage) self.old }
    {
        if let OwnerStage::Polls(poll) = &mut self.stage {
            poll.answer(OwnerAnswer::Begun);
            self.session = Some(Session::new(number, passage));
        }
    }

    /// The session that was to begin was refused.
    pub fn refuse(&mut self, why: Refusal)
        ensures { self.new ≡ owner_after_refusal why self.old }
    {
        if let OwnerStage::Polls(poll) = &mut self.stage {
            poll.answer(OwnerAnswer::Refused(why));
        }
    }

    /// The note that its poll took and has to deliver, if any. It has to be spent now.
    pub fn deliver(&mut self) -> Option<WakeNote>
        ensures note { result ≡ note_at self.old.stage }
        ensures after { self.new ≡ owner_after_delivery self.old }
    {
        match mem::replace(&mut self.stage, OwnerStage::Dropped) {
            OwnerStage::Wakes(poll, note) => {
                let mut poll = poll;
                poll.answer(OwnerAnswer::Delivered);
                self.set_stage(OwnerStage::Polls(poll));
                Some(note)
            }
            OwnerStage::Rests(state, end) => {
                self.set_stage(OwnerStage::Rests(state, end));
                None
            }
            OwnerStage::Polls(poll) => {
                self.set_stage(OwnerStage::Polls(poll));
                None
            }
            OwnerStage::Dropped => None,
            OwnerStage::TakenBack => {
                self.set_stage(OwnerStage::TakenBack);
                None
            }
        }
    }

    /// It is dropped. What its job has put stays where it is. Nothing is done where it doesn't rest.
    pub fn release(&mut self)
        ensures { self.new ≡ owner_after_drop self.old }
    {
        if let OwnerStage::Rests(_, _) = &self.stage {
            self.set_stage(OwnerStage::Dropped);
        }
    }

    /// Takes it apart: the note that its poll took and hasn't delivered, which has to be spent.
    pub fn into_note(self) -> Option<WakeNote>
        ensures { result ≡ note_at self.stage }
    {
        let Owner {
            capacity: _,
            client: _,
            asked: _asked,
            stage,
            session: _session,
        } = self;
        match stage {
            OwnerStage::Wakes(_poll, note) => Some(note),
            OwnerStage::Rests(_, _)
            | OwnerStage::Polls(_)
            | OwnerStage::Dropped
            | OwnerStage::TakenBack => None,
        }
    }

    /// The job of its session takes its next action, where that is its own: what is seen of it. None, and no change, where the job
    /// asks its handle or is over. Err, and no change, where there is no memory for the bytes that it finds.
    pub fn work(&mut self, alloc: Global, job: &mut SessionJob) -> Result<Option<Act>, AllocError>
        ensures ok { IfOk result (λ seen. IsWorked (worked job.old self.old) job.old self.old seen job.new self.new) }
        ensures err { OnErr result ((job.new ≡ job.old) × (self.new ≡ self.old)) }
    {
        match job {
            SessionJob::Read(read) => Ok(self.read(read)),
            SessionJob::Write(write) => self.write(alloc, write),
            SessionJob::Items(items) => Ok(self.stream(items)),
            SessionJob::Seek(seek) => Ok(self.seek(seek)),
            SessionJob::Operate(operation) => Ok(self.operate(operation)),
        }
    }

    /// The job of its session gives up: the handle won't come back. What is seen of that.
    pub fn give_up(&mut self) -> Act
        ensures act { result ≡ give_up_act self.old }
        ensures after { self.new ≡ owner_after_give_up self.old }
    {
        let woke = match &mut self.session {
            Some(session) => session.give_up(),
            None => false,
        };
        Act::GaveUp(HolderWaker::in_seat(woke))
    }
}
