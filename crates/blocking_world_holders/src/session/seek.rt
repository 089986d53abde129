//! The job of a session that seeks.
ghost use Rattle.std.specs.Prelude.{◌≡◌};

use crate::seek::SeekProgress;
use crate::session::Session;
use blocking_core::job::{SeekAction, SeekAnswer};
use blocking_world_laws::event::{Act, HolderWaker};

impl Session {
    ghost use Rattle.blocking_core.specs.Seeks.{seek_next};
    ghost use Rattle.blocking_world_holders.specs.Sessions.{seek_finishes, seek_works, IsWork};

    // The job puts its result into the slot, and leaves where the handle is.
    fn finish_seek(&mut self, job: &mut SeekProgress) -> Act
        ensures { seek_finishes job.old self.old
            ≡ record { act = result; job = job.new; session = self.new } }
    {
        let woke = self.slot.put(job.fault()).wake.is_some();
        self.left = job.place();
        job.meet(SeekAnswer::Finished { woke });
        Act::Finished(HolderWaker::in_seat(woke))
    }

    /// A job that seeks takes its next action, where it takes it at its session: what is seen of it.
    pub(crate) fn seek(&mut self, job: &mut SeekProgress) -> Option<Act>
        ensures { IsWork (seek_works (seek_next job.old.core) job.old self.old) job.old self.old result job.new self.new }
    {
        match job.next() {
            SeekAction::Finish => Some(self.finish_seek(job)),
            SeekAction::Seek | SeekAction::Deliver | SeekAction::Done => None,
        }
    }
}
