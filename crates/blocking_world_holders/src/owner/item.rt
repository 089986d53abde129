//! What an owner does whose session runs an iterator: it receives items.
ghost use Rattle.std.specs.Prelude.{◌≡◌, None};
ghost use Rattle.blocking_core.specs.declared.unblock.OwnerAction.TheVariants as action;

use crate::item::ItemProgress;
use crate::owner::{Owner, OwnerStage, PollEnd, serial_of};
use crate::session::Obtained;
use blocking_core::job::ItemAction;
use blocking_core::unblock::{OwnerAnswer, OwnerCall};
use blocking_world_laws::event::Act;

impl Owner {
    ghost use Rattle.blocking_world_holders.specs.Owners.{note_at, did_in, IsDid, worked, IsWorked};
    ghost use Rattle.blocking_world_holders.specs.declared.job.SessionJob.TheVariants as of_job;

    // It receives an item, which is kept until the reply.
    pub(super) fn receive(&mut self, poll: OwnerCall<u64>) -> Option<Act>
        requires { note_at self.old.stage ≡ None }
        ensures { IsDid (did_in action.Receive poll self.old.session self.old) self.old result self.new }
    {
        let Some(session) = &mut self.session else {
            return None;
        };
        if !session.is_of_items() {
            return None;
        }
        let mut poll = poll;
        match session.receive() {
            Obtained::Item(item, note) => {
                let serial = serial_of(&note);
                poll.answer(OwnerAnswer::Received {
                    has_note: serial.is_some(),
                });
                self.go_on(poll, note);
                Some(Act::GotItem(item, serial))
            }
            Obtained::End => {
                poll.answer(OwnerAnswer::Ended);
                self.set_stage(OwnerStage::Polls(poll));
                Some(Act::GotEnd)
            }
            Obtained::Nothing => {
                self.set_stage(OwnerStage::Rests(poll.state(), PollEnd::Waits));
                Some(Act::Waits)
            }
        }
    }

    // A job that runs an iterator takes its next action.
    pub(super) fn stream(&mut self, job: &mut ItemProgress) -> Option<Act>
        ensures { IsWorked (worked (of_job.Items job.old) self.old) (of_job.Items job.old) self.old result (of_job.Items job.new) self.new }
    {
        if let ItemAction::Deliver = job.next() {
            job.note_wake();
            return Some(Act::HolderWoken);
        }
        let Some(session) = &mut self.session else {
            return None;
        };
        session.stream(job)
    }
}
