//! What a party may be asked to do next.
ghost use Rattle.std.specs.Prelude.{◌≡◌, IfOk};

use crate::bytes::Bytes;
use blocking_core::io::Position;
use std::alloc::AllocError;

/// One step. It may name anyone and ask for anything: a step that has no action then changes nothing.
///
/// Owners and copiers are numbered from 0 in the order in which they were made, tasks from 0 in the order in which their calls were
/// accepted. Workers are numbered from 1 in the order in which they arrived, and jobs by their serials, from 1. Clients go by numbers
/// of their own; 0 is the client of who names none.
#[derive(Debug, Drop)]
pub enum Step {
    /// An owner is made, with an idle handle. Its sessions' pipes hold so many bytes or items; 0 stands for the defaults. Its jobs are those
    /// of this client.
    New(usize, u32),
    /// A poll of this owner, by its number from 0, begins, and asks for this.
    Ask(usize, HandleCall),
    /// The poll of this owner, by its number from 0, takes its next action.
    Own(usize),
    /// This owner, by its number from 0, is dropped.
    DropOwner(usize),
    /// A call of this client is handed to the pool, whose answer comes by a step of its own.
    Spawn(u32),
    /// This task, by its number from 0, is polled, cancelled, detached or dropped.
    OfTask(usize, TaskCall),
    /// A started worker arrives.
    Arrive,
    /// The idle worker of this number, from 1, takes a job.
    Take(usize),
    /// The job of the worker of this number, from 1, takes its next action, which is its own to take.
    Job(usize),
    /// What the job of the worker of this number, from 1, has asked for is answered.
    Io(usize, HandleAnswer),
    /// The job of the worker of this number, from 1, has nothing left to do, and its turn ends.
    End(usize),
    /// The idle worker of this number, from 1, has waited and was woken.
    Wait(usize),
    /// The idle worker of this number, from 1, has waited until its time was up.
    Late(usize),
    /// The limit of workers is set, to a number above 0.
    SetLimit(usize),
    /// The parked jobs that bear a mark are put back.
    Sweep,
    /// The job of this serial, from 1, which was accepted at some time, is woken by nobody in particular.
    Stray(u64),
    /// The job of this serial, from 1, is cancelled in the pool: its task was dropped or cancelled.
    Strike(u64),
    /// The limit of running jobs for each client is set, to a number above 0, or taken away.
    SetClientLimit(Option<usize>),
    /// A copier is made, which reads the first of these owners and writes the second, by their numbers from 0, and reads at most so many
    /// bytes at once.
    Link(usize, usize, usize),
    /// The copier of this number, from 0, asks one of its owners for what it does next, or tells how it ended.
    Copy(usize),
}

impl Step {
    /// The same step once more. Err where there is no memory for its bytes.
    pub fn try_clone(&self) -> Result<Step, AllocError>
        ensures { IfOk result (λ step. step ≡ self.now) }
    {
        Ok(match self {
            Step::New(capacity, client) => Step::New(*capacity, *client),
            Step::Ask(owner, call) => Step::Ask(*owner, call.try_clone()?),
            Step::Own(owner) => Step::Own(*owner),
            Step::DropOwner(owner) => Step::DropOwner(*owner),
            Step::Spawn(client) => Step::Spawn(*client),
            Step::OfTask(task, call) => Step::OfTask(*task, *call),
            Step::Arrive => Step::Arrive,
            Step::Take(worker) => Step::Take(*worker),
            Step::Job(worker) => Step::Job(*worker),
            Step::Io(worker, answer) => Step::Io(*worker, answer.try_clone()?),
            Step::End(worker) => Step::End(*worker),
            Step::Wait(worker) => Step::Wait(*worker),
            Step::Late(worker) => Step::Late(*worker),
            Step::SetLimit(limit) => Step::SetLimit(*limit),
            Step::Sweep => Step::Sweep,
            Step::Stray(serial) => Step::Stray(*serial),
            Step::Strike(serial) => Step::Strike(*serial),
            Step::SetClientLimit(limit) => Step::SetClientLimit(*limit),
            Step::Link(reader, writer, piece) => Step::Link(*reader, *writer, *piece),
            Step::Copy(copier) => Step::Copy(*copier),
        })
    }
}

/// What the poll of an owner may ask for.
#[derive(Debug, Drop)]
pub enum HandleCall {
    /// To read at most so many bytes.
    Read(u64),
    /// To write these bytes, or as many of the first of them as there is room for.
    Write(Bytes),
    /// To have all written that was taken for writing, and the writer flushed.
    Flush,
    /// To flush, and then to drop the handle.
    Close,
    /// To have the handle moved to this position.
    Seek(Position),
    /// To have the next item of the handle's.
    Next,
    /// To have an operation run on the handle, and its result.
    Operate,
    /// To have the result of the operation that was asked last, which hasn't told one yet.
    OperateAgain,
    /// To have the handle itself.
    GetMut,
    /// To have the handle itself, for good.
    IntoInner,
}

impl HandleCall {
    ghost use Rattle.std.specs.Prelude.{IsOk, true};
    ghost use Rattle.blocking_world_laws.specs.Bare.{is_bare_call};

    /// The same call once more. Err where there is no memory for its bytes: a call without bytes is always had.
    pub fn try_clone(&self) -> Result<HandleCall, AllocError>
        ensures same { IfOk result (λ call. call ≡ self.now) }
        ensures bare { is_bare_call self.now ≡ true → IsOk result }
    {
        match self {
            HandleCall::Read(most) => Ok(HandleCall::Read(*most)),
            HandleCall::Write(bytes) => Ok(HandleCall::Write(bytes.try_clone()?)),
            HandleCall::Flush => Ok(HandleCall::Flush),
            HandleCall::Close => Ok(HandleCall::Close),
            HandleCall::Seek(position) => Ok(HandleCall::Seek(*position)),
            HandleCall::Next => Ok(HandleCall::Next),
            HandleCall::Operate => Ok(HandleCall::Operate),
            HandleCall::OperateAgain => Ok(HandleCall::OperateAgain),
            HandleCall::GetMut => Ok(HandleCall::GetMut),
            HandleCall::IntoInner => Ok(HandleCall::IntoInner),
        }
    }
}

/// What may be asked of a task.
#[derive(Clone, Copy, Debug, PartialEq, Eq)]
pub enum TaskCall {
    /// Is there an answer?
    Poll,
    /// The answer is wanted only if it is there already.
    Cancel,
    /// The call runs on, and nobody asks for its answer.
    Detach,
    /// Neither the call nor its answer is wanted.
    Drop,
}

/// What a job is answered from outside: by its call or operation, or by the handle that was lent to it.
#[derive(Debug, Drop)]
pub enum HandleAnswer {
    /// This number, which a call or an operation gave; so many bytes, which a writer took; or this position, to which a handle moved.
    Number(u64),
    /// These bytes, which a reader gave; none at its end.
    Gave(Bytes),
    /// The writer was flushed.
    Fine,
    /// This item, which a handle gave that is iterated.
    Item(u64),
    /// It has no item left.
    NoItem,
    /// The handle failed, with the error of this number.
    Failed(u64),
}

impl HandleAnswer {
    ghost use Rattle.std.specs.Prelude.{IsOk, true};
    ghost use Rattle.blocking_world_laws.specs.Bare.{is_bare_answer};

    /// The same answer once more. Err where there is no memory for its bytes: an answer without bytes is always had.
    pub fn try_clone(&self) -> Result<HandleAnswer, AllocError>
        ensures same { IfOk result (λ answer. answer ≡ self.now) }
        ensures bare { is_bare_answer self.now ≡ true → IsOk result }
    {
        match self {
            HandleAnswer::Number(number) => Ok(HandleAnswer::Number(*number)),
            HandleAnswer::Gave(bytes) => Ok(HandleAnswer::Gave(bytes.try_clone()?)),
            HandleAnswer::Fine => Ok(HandleAnswer::Fine),
            HandleAnswer::Item(item) => Ok(HandleAnswer::Item(*item)),
            HandleAnswer::NoItem => Ok(HandleAnswer::NoItem),
            HandleAnswer::Failed(error) => Ok(HandleAnswer::Failed(*error)),
        }
    }
}
