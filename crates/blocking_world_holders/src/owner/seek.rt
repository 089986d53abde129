//! What the job of an owner does whose session seeks.

use crate::owner::Owner;
use crate::seek::SeekProgress;
use blocking_core::job::SeekAction;
use blocking_world_laws::event::Act;

impl Owner {
    ghost use Rattle.blocking_world_holders.specs.Owners.{worked, IsWorked};
    ghost use Rattle.blocking_world_holders.specs.declared.job.SessionJob.TheVariants as of_job;

    // A job that seeks takes its next action.
    pub(super) fn seek(&mut self, job: &mut SeekProgress) -> Option<Act>
        ensures { IsWorked (worked (of_job.Seek job.old) self.old) (of_job.Seek job.old) self.old result (of_job.Seek job.new) self.new }
    {
        if let SeekAction::Deliver = job.next() {
            job.note_wake();
            return Some(Act::HolderWoken);
        }
        let Some(session) = &mut self.session else {
            return None;
        };
        session.seek(job)
    }
}
