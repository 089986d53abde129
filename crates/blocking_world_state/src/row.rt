//! What the jobs of a world are for.
ghost use Rattle.std.specs.Prelude.{◌≡◌, IfOk, OnErr};
ghost use Rattle.blocking_world_state.specs.Rows.{IsActed, IsActedFor, call_step, session_step};

use blocking_core::job::Action;
use blocking_core::pool::JobNo;
use blocking_world_holders::{CallProgress, Owner, SessionJob, Task};
use blocking_world_laws::Act;
use blocking_world_laws::event::HolderWaker;
use blocking_world_laws::step::HandleAnswer;
use blocking_world_pool::TurnStage;
use std::alloc::{AllocError, Global};

/// Whom a job is for, and how far it is.
#[derive(Drop)]
pub(crate) enum Core {
    /// It makes the call of the task of this number.
    Call(usize, CallProgress),
    /// It works for the owner of this number, in a session.
    Session(usize, SessionJob),
}

/// What a job is for.
#[derive(Drop)]
pub(crate) struct Row {
    /// The job's number in the pool.
    pub(crate) number: JobNo,
    /// Whom it is for, and how far it is.
    pub(crate) core: Core,
}

impl Row {
    ghost use Rattle.blocking_world_laws.specs.Steps.{is_job_action, is_answered_action, is_turn_end};
    ghost use Rattle.blocking_world_state.specs.Rows.{call_row, session_row, next_of};

    /// The row of the job of a new call, which this task holds.
    pub(crate) fn of_call(number: JobNo, task: usize) -> Row
        ensures { result ≡ call_row number task }
    {
        Row {
            number,
            core: Core::Call(task, CallProgress::new()),
        }
    }

    /// The row of the job of a session, which this owner began.
    pub(crate) fn of_session(number: JobNo, owner: usize, job: SessionJob) -> Row
        ensures { result ≡ session_row number owner job }
    {
        Row {
            number,
            core: Core::Session(owner, job),
        }
    }

    /// Whether the next action of a worker with this job, which is so far in its turn, is the job's own to take.
    pub(crate) fn is_acting(&self, stage: TurnStage) -> bool
        ensures { result ≡ is_job_action (next_of stage self.now.core) }
    {
        match stage {
            TurnStage::MustGiveUp | TurnStage::MustWake => true,
            TurnStage::GaveUp | TurnStage::Waits => false,
            TurnStage::Runs => match &self.core {
                Core::Call(_, call) => matches!(call.next(), Action::Finish | Action::Deliver),
                Core::Session(_, job) => !job.is_asking() && !job.is_over(),
            },
        }
    }

    /// Whether that is a question of the job, and this an answer to it.
    pub(crate) fn may_be_answered(&self, stage: TurnStage, answer: &HandleAnswer) -> bool
        ensures { result ≡ is_answered_action (next_of stage self.now.core) answer.now }
    {
        let TurnStage::Runs = stage else {
            return false;
        };
        match &self.core {
            Core::Call(_, call) => {
                matches!(call.next(), Action::Call) && matches!(answer, HandleAnswer::Number(_))
            }
            Core::Session(_, job) => job.may_be_answered(answer),
        }
    }

    /// Whether nothing is left to do but to end the turn.
    pub(crate) fn is_ending(&self, stage: TurnStage) -> bool
        ensures { result ≡ is_turn_end (next_of stage self.now.core) }
    {
        match stage {
            TurnStage::MustGiveUp | TurnStage::MustWake => false,
            TurnStage::GaveUp | TurnStage::Waits => true,
            TurnStage::Runs => match &self.core {
                Core::Call(_, call) => matches!(call.next(), Action::Done),
                Core::Session(_, job) => job.is_over(),
            },
        }
    }
}

impl Core {
    ghost use Rattle.blocking_world_state.specs.Rows.{done, IsDone, core_after_answer, owner_in};

    /// The owner whose job it is; a call's is of none.
    pub(crate) fn owner(&self) -> Option<usize>
        ensures { result ≡ owner_in self.now }
    {
        match self {
            Core::Call(_, _) => None,
            Core::Session(owner, _) => Some(*owner),
        }
    }

    /// The job takes its next action, where that is its own to take: what is seen of it. None, and no change, where it isn't, or where
    /// the task or the owner isn't there. Err, and no change, where there is no memory for the bytes that it finds.
    pub(crate) fn act(
        &mut self,
        alloc: Global,
        tasks: &mut [Task],
        owners: &mut [Owner],
        stage: TurnStage,
    ) -> Result<Option<Act>, AllocError>
        ensures ok { IfOk result
            (λ seen. IsDone (done stage self.old tasks.old owners.old) self.old tasks.old owners.old seen self.new tasks.new owners.new) }
        ensures err { OnErr result ((self.new ≡ self.old) × (tasks.new ≡ tasks.old) × (owners.new ≡ owners.old)) }
    {
        match self {
            Core::Call(place, call) => {
                if *place >= tasks.len() {
                    return Ok(None);
                }
                Ok(act_for_task(call, &mut tasks[*place], stage))
            }
            Core::Session(place, job) => {
                if *place >= owners.len() {
                    return Ok(None);
                }
                act_for_owner(alloc, job, &mut owners[*place], stage)
            }
        }
    }

    /// What the job asked for was answered so.
    pub(crate) fn answer(&mut self, answer: HandleAnswer)
        ensures { self.new ≡ core_after_answer answer self.old }
    {
        match self {
            Core::Call(_, call) => {
                if let HandleAnswer::Number(number) = answer {
                    call.answer(number);
                }
            }
            Core::Session(_, job) => job.answer(answer),
        }
    }
}

// The job of a call takes its next action at its task.
fn act_for_task(call: &mut CallProgress, task: &mut Task, stage: TurnStage) -> Option<Act>
    ensures { IsActed (call_step stage call.old) stage call.old task.old result call.new task.new }
{
    match stage {
        TurnStage::Waits | TurnStage::GaveUp => None,
        TurnStage::MustGiveUp => Some(Act::GaveUp(HolderWaker::in_seat(task.give_up()))),
        TurnStage::MustWake => Some(Act::HolderWoken),
        TurnStage::Runs => match call.next() {
            Action::Call | Action::Done => None,
            Action::Finish => {
                let wake = task.finish(call.number());
                call.finish(wake);
                Some(Act::Finished(HolderWaker::in_seat(wake)))
            }
            Action::Deliver => {
                call.note_wake();
                Some(Act::HolderWoken)
            }
        },
    }
}

// The job of a session takes its next action at its owner.
fn act_for_owner(
    alloc: Global,
    job: &mut SessionJob,
    owner: &mut Owner,
    stage: TurnStage,
) -> Result<Option<Act>, AllocError>
    ensures ok { IfOk result (λ seen. IsActedFor (session_step stage job.old) job.old owner.old seen job.new owner.new) }
    ensures err { OnErr result ((job.new ≡ job.old) × (owner.new ≡ owner.old)) }
{
    match stage {
        TurnStage::Waits | TurnStage::GaveUp => Ok(None),
        TurnStage::MustGiveUp => Ok(Some(owner.give_up())),
        TurnStage::MustWake => Ok(Some(Act::HolderWoken)),
        TurnStage::Runs => owner.work(alloc, job),
    }
}
