//! What an owner does whose session writes: it fills the pipe.
ghost use Rattle.std.specs.Prelude.{◌≡◌, None};

use crate::owner::{Owner, OwnerStage, PollEnd, serial_of};
use crate::session::Entered;
use crate::write::WriteProgress;
use blocking_core::job::WriteAction;
use blocking_core::unblock::{OwnerAnswer, OwnerCall};
use blocking_world_laws::event::Act;
use blocking_world_laws::step::HandleCall;
use std::alloc::{AllocError, Global};

impl Owner {
    ghost use Rattle.std.specs.Prelude.{IfOk, OnErr};
    ghost use Rattle.blocking_world_holders.specs.Owners.{note_at, IsDid, front_in, fill_did_in, worked, IsWorked};
    ghost use Rattle.blocking_world_holders.specs.declared.job.SessionJob.TheVariants as of_job;

    // It fills the pipe with the bytes that it was asked to write.
    pub(super) fn fill(&mut self, poll: OwnerCall<u64>) -> Option<Act>
        requires { note_at self.old.stage ≡ None }
        ensures { IsDid (fill_did_in poll self.old.asked self.old.session self.old) self.old result self.new }
    {
        let Some(HandleCall::Write(bytes)) = &self.asked else {
            return None;
        };
        let Some(session) = &mut self.session else {
            return None;
        };
        if bytes.as_slice().is_empty() || !session.is_of_bytes() {
            return None;
        }
        let mut poll = poll;
        match session.fill(bytes.as_slice()) {
            Entered::Bytes(count, note) => {
                let serial = serial_of(&note);
                poll.answer(OwnerAnswer::Took {
                    count,
                    has_note: serial.is_some(),
                });
                self.go_on(poll, note);
                Some(Act::Filled(count, serial))
            }
            Entered::Shut => {
                poll.answer(OwnerAnswer::Shut);
                self.set_stage(OwnerStage::Polls(poll));
                Some(Act::FillShut)
            }
            Entered::Nothing => {
                self.set_stage(OwnerStage::Rests(poll.state(), PollEnd::Waits));
                Some(Act::Waits)
            }
        }
    }

    /// How many bytes a job of its session finds that looks at the front of the pipe.
    pub fn front_len(&self) -> usize
        ensures { result ≡ front_in self.now.session }
    {
        match &self.session {
            Some(session) => session.front_len(),
            None => 0,
        }
    }

    // A job that writes takes its next action.
    pub(super) fn write(
        &mut self,
        alloc: Global,
        job: &mut WriteProgress,
    ) -> Result<Option<Act>, AllocError>
        ensures ok { IfOk result (λ seen. IsWorked (worked (of_job.Write job.old) self.old) (of_job.Write job.old) self.old seen
            (of_job.Write job.new) self.new) }
        ensures err { OnErr result ((job.new ≡ job.old) × (self.new ≡ self.old)) }
    {
        if let WriteAction::Deliver = job.next() {
            job.note_wake();
            return Ok(Some(Act::HolderWoken));
        }
        let Some(session) = &mut self.session else {
            return Ok(None);
        };
        session.write(alloc, job)
    }
}
