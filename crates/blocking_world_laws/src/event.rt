//! What is seen of a step.
ghost use Rattle.std.specs.Prelude.{◌≡◌};

use crate::bytes::Bytes;
use crate::step::{HandleAnswer, HandleCall, Step};
use blocking_core::io::Fault;
use blocking_core::pool::{Refusal, Standing, Woke};
use std::alloc::AllocError;

/// Who took a step.
#[derive(Clone, Copy, Debug, PartialEq, Eq)]
pub enum Party {
    /// The owner of this number, from 0.
    Owner(usize),
    /// The task of this number, from 0.
    Task(usize),
    /// The worker of this number, from 1.
    Worker(usize),
    /// The pool itself.
    Pool,
}

/// How the wait of a worker ended.
#[derive(Clone, Copy, Debug)]
pub enum WaitEnd {
    /// The worker was woken.
    Woken,
    /// Its time was up.
    TimedOut,
}

impl WaitEnd {
    ghost use Rattle.blocking_world_laws.specs.Seen.{has_timed_out};

    /// Whether the worker's time was up.
    pub fn has_timed_out(self) -> bool
        ensures { result ≡ has_timed_out self }
    {
        matches!(self, WaitEnd::TimedOut)
    }
}

/// What a job found in the seat of its holder.
#[derive(Clone, Copy, Debug)]
pub enum HolderWaker {
    /// A waker, which the job took out of the seat and calls next.
    Taken,
    /// No waker: the job has nobody to call.
    Absent,
}

impl HolderWaker {
    ghost use Rattle.blocking_world_laws.specs.Seats.{waker_in};

    /// What a job finds in a seat, by whether a waker is seated there.
    pub fn in_seat(is_seated: bool) -> HolderWaker
        ensures { result ≡ waker_in is_seated }
    {
        if is_seated {
            HolderWaker::Taken
        } else {
            HolderWaker::Absent
        }
    }
}

/// On which side a copier failed.
#[derive(Clone, Copy, Debug, PartialEq, Eq)]
pub enum CopySide {
    /// Its reader failed, or reading couldn't begin.
    Reading,
    /// Its writer failed, at a write or a flush, or writing couldn't begin; or a write took none of the bytes.
    Writing,
}

/// What a poll of an owner replies.
#[derive(Clone, Copy, Debug, PartialEq, Eq)]
pub enum Reply {
    /// All was written and the writer flushed; or the handle was dropped, after that.
    Okay,
    /// So many bytes were read, or taken for writing; none for an empty buffer, at the reader's end, and where the job's end is closed. Or
    /// this number: the position to which a seek moved the handle, or the result of an operation.
    Count(u64),
    /// This item.
    OneItem(u64),
    /// No item is left.
    NoMore,
    /// The handle.
    Handle,
    /// A fault; an error of the handle is told by its number.
    Failed(Fault<u64>),
    /// No job could be lent the handle, for this reason, where an item or an operation was asked for.
    NotBegun(Refusal),
}

/// What was done. Jobs go by their serials.
#[derive(Debug, Drop)]
pub enum Act {
    // of an owner
    /// The owner of this number was made, and the pipes of its sessions hold so many bytes or items; 0 stands for the defaults.
    Made(usize, usize),
    /// A poll began, and asked for this.
    Asked(HandleCall),
    /// The owner closed its end of the pipe, and took the note of this job out of its seat, if one was seated.
    OwnerClosed(Option<u64>),
    /// These bytes came out of the pipe, one at least; and the note of this job out of its seat, if one was seated.
    Got(Bytes, Option<u64>),
    /// This item came out of the pipe; and the note of this job out of its seat, if one was seated.
    GotItem(u64, Option<u64>),
    /// The pipe was found empty, with the job's end closed.
    GotEnd,
    /// So many of the first bytes that it was asked to write went into the pipe, one at least. Also the note of this job out of its
    /// seat, if one was seated.
    Filled(usize, Option<u64>),
    /// None went in, as the job's end of the pipe is closed.
    FillShut,
    /// The handle came back.
    Back,
    /// The operation's result was found, which is this number.
    ResultGot(u64),
    /// The poll replied so, and is over.
    Replied(Reply),
    // at the pool
    /// A job was accepted.
    Accepted(u64),
    /// A new job was refused.
    Refused(Refusal),
    /// A wake of this job was delivered, and did this.
    JobWoken(u64, Woke),
    /// A cancel of this job was delivered, and did this.
    JobCancelled(u64, Woke),
    /// The limit was set to this number of workers.
    LimitSet(usize),
    /// The limit of running jobs for each client was set to this number, or taken away.
    ClientLimitSet(Option<usize>),
    /// A sweep put back so many jobs.
    Swept(usize),
    // of an owner or a task
    /// A poll found nothing yet, and is over.
    Waits,
    /// The owner or the task was dropped.
    HolderDropped,
    // of a task
    /// A poll found this answer.
    TaskGot(u64),
    /// A poll found that no answer will come.
    TaskGotNone,
    /// The task was cancelled.
    TaskCancelled,
    /// The task was detached.
    TaskDetached,
    // of a worker
    /// The worker of this number arrived.
    Arrived(usize),
    /// It took this job, to run it.
    Took(u64),
    /// It took this job, to drop it.
    TookDropped(u64),
    /// It found no job that is ready.
    TookNone,
    /// The worker of this number stays, after a wait that ended so.
    Stays(usize, WaitEnd),
    /// The worker of this number stops, after a wait that ended so.
    Stopped(usize, WaitEnd),
    /// The turn of this job ended, and left it so.
    Ended(u64, Standing),
    /// The run of this job ended, and the job is handed to its worker to be dropped.
    HandedOut(u64),
    // of a job, by its worker
    /// What the job asked for was answered so.
    Answered(HandleAnswer),
    /// The job found room for so many bytes in the pipe, one at least.
    RoomFree(usize),
    /// The job found the owner's end of the pipe closed.
    RoomShut,
    /// The job found that it has to wait for a wake.
    JobParked,
    /// The job put so many bytes into the pipe, or one item, and found this in the owner's seat.
    Put(usize, HolderWaker),
    /// So many bytes were lost, or one item, since the owner's end of the pipe is closed.
    Lost(usize),
    /// The job found these bytes at the front of the pipe, one at least, and left them there.
    Peeked(Bytes),
    /// The job found the pipe empty, with the owner's end closed.
    Drained,
    /// The job took so many of the first bytes out of the pipe, which its writer had taken, and found this in the owner's seat.
    Taken(usize, HolderWaker),
    /// The job closed its end of the pipe, and found this in the owner's seat.
    JobClosed(HolderWaker),
    /// The job put its operation's result where its owner finds it, and found this in the owner's seat there.
    ResultPut(HolderWaker),
    /// The job put its result where its holder finds it, and found this in the holder's seat.
    Finished(HolderWaker),
    /// The job gave up: no result will come. It found this in the holder's seat.
    GaveUp(HolderWaker),
    /// The waker that the job took out of its seat was called.
    HolderWoken,
    // of a copier
    /// The copier of this number was made.
    Linked(usize),
    /// All that the copier read was written and flushed: so many bytes, or the greatest number of 64 bits where there were more.
    Copied(u64),
    /// The copier failed on this side.
    CopyFailed(CopySide),
    // of nobody
    /// Nothing was done.
    NoAction,
}

impl Act {
    ghost use Rattle.std.specs.Prelude.{IfOk, IsOk, true};
    ghost use Rattle.blocking_world_laws.specs.Bare.{is_bare};

    /// The same act once more. Err where there is no memory for its bytes: an act without bytes is always had.
    pub fn try_clone(&self) -> Result<Act, AllocError>
        ensures same { IfOk result (λ act. act ≡ self.now) }
        ensures bare { is_bare self.now ≡ true → IsOk result }
    {
        Ok(match self {
            Act::Made(owner, capacity) => Act::Made(*owner, *capacity),
            Act::Asked(call) => Act::Asked(call.try_clone()?),
            Act::OwnerClosed(note) => Act::OwnerClosed(*note),
            Act::Got(bytes, note) => Act::Got(bytes.try_clone()?, *note),
            Act::GotItem(item, note) => Act::GotItem(*item, *note),
            Act::GotEnd => Act::GotEnd,
            Act::Filled(count, note) => Act::Filled(*count, *note),
            Act::FillShut => Act::FillShut,
            Act::Back => Act::Back,
            Act::ResultGot(number) => Act::ResultGot(*number),
            Act::Replied(reply) => Act::Replied(*reply),
            Act::Accepted(serial) => Act::Accepted(*serial),
            Act::Refused(why) => Act::Refused(*why),
            Act::JobWoken(serial, woke) => Act::JobWoken(*serial, *woke),
            Act::JobCancelled(serial, woke) => Act::JobCancelled(*serial, *woke),
            Act::LimitSet(limit) => Act::LimitSet(*limit),
            Act::ClientLimitSet(limit) => Act::ClientLimitSet(*limit),
            Act::Swept(count) => Act::Swept(*count),
            Act::Waits => Act::Waits,
            Act::HolderDropped => Act::HolderDropped,
            Act::TaskGot(number) => Act::TaskGot(*number),
            Act::TaskGotNone => Act::TaskGotNone,
            Act::TaskCancelled => Act::TaskCancelled,
            Act::TaskDetached => Act::TaskDetached,
            Act::Arrived(worker) => Act::Arrived(*worker),
            Act::Took(serial) => Act::Took(*serial),
            Act::TookDropped(serial) => Act::TookDropped(*serial),
            Act::TookNone => Act::TookNone,
            Act::Stays(worker, end) => Act::Stays(*worker, *end),
            Act::Stopped(worker, end) => Act::Stopped(*worker, *end),
            Act::Ended(serial, how) => Act::Ended(*serial, *how),
            Act::HandedOut(serial) => Act::HandedOut(*serial),
            Act::Answered(answer) => Act::Answered(answer.try_clone()?),
            Act::RoomFree(room) => Act::RoomFree(*room),
            Act::RoomShut => Act::RoomShut,
            Act::JobParked => Act::JobParked,
            Act::Put(count, waker) => Act::Put(*count, *waker),
            Act::Lost(count) => Act::Lost(*count),
            Act::Peeked(bytes) => Act::Peeked(bytes.try_clone()?),
            Act::Drained => Act::Drained,
            Act::Taken(count, waker) => Act::Taken(*count, *waker),
            Act::JobClosed(waker) => Act::JobClosed(*waker),
            Act::ResultPut(waker) => Act::ResultPut(*waker),
            Act::Finished(waker) => Act::Finished(*waker),
            Act::GaveUp(waker) => Act::GaveUp(*waker),
            Act::HolderWoken => Act::HolderWoken,
            Act::Linked(copier) => Act::Linked(*copier),
            Act::Copied(count) => Act::Copied(*count),
            Act::CopyFailed(side) => Act::CopyFailed(*side),
            Act::NoAction => Act::NoAction,
        })
    }
}

/// What is seen of one step, with the workers that it started.
///
/// Starts are numbered from 1, refused ones too. The greatest number of 64 bits stands for every number from there on.
#[derive(Debug, Drop)]
pub struct Event {
    /// Who took the step; where nothing was done, whom it names.
    pub party: Party,
    /// The number of the owner of that job, from 0; a task is no owner, so an event of a call's job has none.
    pub owner: Option<usize>,
    /// The serial of the job that a worker's event is of, from 1.
    pub job: Option<u64>,
    /// What was done.
    pub act: Act,
    /// The number of the next start, from 1, also where nothing was started.
    pub first: u64,
    /// How many workers were started: those of the numbers from `first` on.
    pub started: u64,
    /// Whether one more start was due, and was refused.
    pub start_refused: bool,
}

impl Event {
    ghost use Rattle.std.specs.Prelude.{IfOk, IsOk, true};
    ghost use Rattle.blocking_world_laws.specs.Bare.{is_bare};

    /// The same event once more. Err where there is no memory for its act's bytes: that of an act without bytes is always had.
    pub fn twin(&self) -> Result<Event, AllocError>
        ensures same { IfOk result (λ event. event ≡ self.now) }
        ensures bare { is_bare self.now.act ≡ true → IsOk result }
    {
        Ok(Event {
            party: self.party,
            owner: self.owner,
            job: self.job,
            act: self.act.try_clone()?,
            first: self.first,
            started: self.started,
            start_refused: self.start_refused,
        })
    }
}

/// A step with its event.
#[derive(Debug, Drop)]
pub struct Moment {
    /// What was asked for.
    pub step: Step,
    /// What was seen of it.
    pub event: Event,
}
