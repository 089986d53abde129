//! What an owner does whose session reads: it drains the pipe.
ghost use Rattle.std.specs.Prelude.{◌≡◌, None};
ghost use Rattle.blocking_core.specs.declared.unblock.OwnerAction.TheVariants as action;

use crate::owner::{Owner, OwnerStage, PollEnd, serial_of};
use crate::read::ReadProgress;
use crate::session::ReadFound;
use blocking_core::job::ReadAction;
use blocking_core::unblock::{OwnerAnswer, OwnerCall};
use blocking_world_laws::event::Act;

impl Owner {
    ghost use Rattle.std.specs.Prelude.{vec_len};
    ghost use Rattle.blocking_world_holders.specs.Owners.{note_at, did_in, IsDid, reach_in, worked, IsWorked};
    ghost use Rattle.blocking_world_holders.specs.declared.job.SessionJob.TheVariants as of_job;

    // How many bytes come out where it wants at most so many.
    pub(super) fn reach(&self, most: usize) -> usize
        ensures { result ≡ reach_in most self.now.session }
    {
        match &self.session {
            Some(session) => session.reach(most),
            None => 0,
        }
    }

    // It drains the pipe, out of which this many bytes come.
    pub(super) fn drain(&mut self, poll: OwnerCall<u64>, room: Vec<u8>) -> Option<Act>
        requires awake { note_at self.old.stage ≡ None }
        requires room { (most : _) × (vec_len room ≡ reach_in most self.old.session) }
        ensures { (most : _) → vec_len room ≡ reach_in most self.old.session
            → IsDid (did_in (action.Drain most) poll self.old.session self.old) self.old result self.new }
    {
        let Some(session) = &mut self.session else {
            return None;
        };
        if !session.is_of_bytes() {
            return None;
        }
        let mut poll = poll;
        match session.drain(room) {
            ReadFound::Bytes(bytes, note) => {
                let serial = serial_of(&note);
                poll.answer(OwnerAnswer::Got {
                    count: bytes.as_slice().len(),
                    has_note: serial.is_some(),
                });
                self.go_on(poll, note);
                Some(Act::Got(bytes, serial))
            }
            ReadFound::End => {
                poll.answer(OwnerAnswer::Ended);
                self.set_stage(OwnerStage::Polls(poll));
                Some(Act::GotEnd)
            }
            ReadFound::Nothing => {
                self.set_stage(OwnerStage::Rests(poll.state(), PollEnd::Waits));
                Some(Act::Waits)
            }
        }
    }

    // A job that reads takes its next action.
    pub(super) fn read(&mut self, job: &mut ReadProgress) -> Option<Act>
        ensures { IsWorked (worked (of_job.Read job.old) self.old) (of_job.Read job.old) self.old result (of_job.Read job.new) self.new }
    {
        if let ReadAction::Deliver = job.next() {
            job.note_wake();
            return Some(Act::HolderWoken);
        }
        let Some(session) = &mut self.session else {
            return None;
        };
        session.read(job)
    }
}
