//! What an owner does whose session runs an operation: it looks for the result.
ghost use Rattle.std.specs.Prelude.{◌≡◌, None};
ghost use Rattle.blocking_core.specs.declared.unblock.OwnerAction.TheVariants as action;
ghost use Rattle.blocking_world_laws.specs.Sessions.{is_operation};

use crate::op::OpProgress;
use crate::owner::{Owner, OwnerStage, PollEnd};
use crate::session::Awaited;
use blocking_core::job::OpAction;
use blocking_core::unblock::{OwnerAnswer, OwnerCall};
use blocking_world_laws::event::Act;
use blocking_world_laws::step::HandleCall;

// Whether this asks for an operation, or for its result.
fn is_operation(asked: &Option<HandleCall>) -> bool
    ensures { result ≡ is_operation asked.now }
{
    matches!(asked, Some(HandleCall::Operate | HandleCall::OperateAgain))
}

impl Owner {
    ghost use Rattle.blocking_world_holders.specs.Owners.{note_at, did_in, IsDid, awaits_operation, worked, IsWorked};
    ghost use Rattle.blocking_world_holders.specs.declared.job.SessionJob.TheVariants as of_job;

    // Whether an operation is pending: it was asked for one, and waits.
    pub(super) fn awaits_operation(&self) -> bool
        ensures { result ≡ awaits_operation self.now.stage self.now.asked }
    {
        match &self.stage {
            OwnerStage::Rests(_, end) => end.is_pending() && is_operation(&self.asked),
            _ => false,
        }
    }

    // It looks for the result of its operation, which is kept until the reply.
    pub(super) fn find_result(&mut self, poll: OwnerCall<u64>) -> Option<Act>
        requires { note_at self.old.stage ≡ None }
        ensures { IsDid (did_in action.PollResult poll self.old.session self.old) self.old result self.new }
    {
        let Some(session) = &mut self.session else {
            return None;
        };
        match session.find_result() {
            Awaited::Result(number) => {
                let mut poll = poll;
                poll.answer(OwnerAnswer::Resulted);
                self.set_stage(OwnerStage::Polls(poll));
                Some(Act::ResultGot(number))
            }
            Awaited::Nothing => {
                self.set_stage(OwnerStage::Rests(poll.state(), PollEnd::WaitsForResult));
                Some(Act::Waits)
            }
            Awaited::Gone => None,
        }
    }

    // A job that runs an operation takes its next action.
    pub(super) fn operate(&mut self, job: &mut OpProgress) -> Option<Act>
        ensures { IsWorked (worked (of_job.Operate job.old) self.old) (of_job.Operate job.old) self.old result (of_job.Operate job.new) self.new }
    {
        if let OpAction::Deliver = job.next() {
            job.note_wake();
            return Some(Act::HolderWoken);
        }
        let Some(session) = &mut self.session else {
            return None;
        };
        session.operate(job)
    }
}
