//! The job of a session.
ghost use Rattle.std.specs.Prelude.{◌≡◌};

use crate::item::ItemProgress;
use crate::op::OpProgress;
use crate::read::ReadProgress;
use crate::seek::SeekProgress;
use crate::write::WriteProgress;
use blocking_core::job::{ItemAction, OpAction, ReadAction, SeekAction, WriteAction};
use blocking_world_laws::step::HandleAnswer;

/// The job of a session, and how far it is.
#[derive(Drop)]
pub enum SessionJob {
    /// It reads ahead of its owner.
    Read(ReadProgress),
    /// It writes behind its owner.
    Write(WriteProgress),
    /// It takes items ahead of its owner.
    Items(ItemProgress),
    /// It moves the handle to a position.
    Seek(SeekProgress),
    /// It runs its owner's operation on the handle.
    Operate(OpProgress),
}

impl SessionJob {
    ghost use Rattle.std.specs.Prelude.{not};
    ghost use Rattle.blocking_world_laws.specs.JobTable.{is_answer, is_asking, is_over};
    ghost use Rattle.blocking_world_holders.specs.SessionJobs.{action_of, job_after_answer};

    /// Whether its next action asks its handle, whose answer comes from outside.
    pub fn is_asking(&self) -> bool
        ensures { result ≡ is_asking (action_of self.now) }
    {
        match self {
            SessionJob::Read(read) => matches!(read.next(), ReadAction::Read(_)),
            SessionJob::Write(write) => {
                matches!(write.next(), WriteAction::Write(_) | WriteAction::Flush)
            }
            SessionJob::Items(items) => matches!(items.next(), ItemAction::Next),
            SessionJob::Seek(seek) => matches!(seek.next(), SeekAction::Seek),
            SessionJob::Operate(operation) => matches!(operation.next(), OpAction::Call),
        }
    }

    /// Whether it has nothing left to do.
    pub fn is_over(&self) -> bool
        ensures { result ≡ is_over (action_of self.now) }
    {
        match self {
            SessionJob::Read(read) => matches!(read.next(), ReadAction::Done),
            SessionJob::Write(write) => matches!(write.next(), WriteAction::Done),
            SessionJob::Items(items) => matches!(items.next(), ItemAction::Done),
            SessionJob::Seek(seek) => matches!(seek.next(), SeekAction::Done),
            SessionJob::Operate(operation) => matches!(operation.next(), OpAction::Done),
        }
    }

    /// Whether this is an answer to what it asks for.
    pub fn may_be_answered(&self, answer: &HandleAnswer) -> bool
        ensures { result ≡ is_answer (action_of self.now) answer.now }
    {
        match self {
            SessionJob::Read(read) => read.may_be_answered(answer),
            SessionJob::Write(write) => write.may_be_answered(answer),
            SessionJob::Items(items) => items.may_be_answered(answer),
            SessionJob::Seek(seek) => seek.may_be_answered(answer),
            SessionJob::Operate(operation) => operation.may_be_answered(answer),
        }
    }

    /// The handle answered so.
    pub fn answer(&mut self, answer: HandleAnswer)
        ensures { self.new ≡ job_after_answer self.old answer }
    {
        match self {
            SessionJob::Read(read) => read.answer(answer),
            SessionJob::Write(write) => write.answer(answer),
            SessionJob::Items(items) => items.answer(answer),
            SessionJob::Seek(seek) => seek.answer(answer),
            SessionJob::Operate(operation) => operation.answer(answer),
        }
    }
}
