//! The job of a session that runs an operation, and how its owner finds the result.
ghost use Rattle.std.specs.Prelude.{◌≡◌};

use crate::op::OpProgress;
use crate::session::Session;
use blocking_core::job::{OpAction, OpAnswer};
use blocking_core::task::Slotted;
use blocking_world_laws::event::{Act, HolderWaker};

/// What an owner finds that looks for the result of its operation.
pub(crate) enum Awaited {
    /// This number.
    Result(u64),
    /// Nothing yet: the owner is seated.
    Nothing,
    /// Nothing, and nothing will come.
    Gone,
}

impl Session {
    ghost use Rattle.blocking_core.specs.Ops.{op_next};
    ghost use Rattle.blocking_world_holders.specs.Sessions.{IsWork, session_after_find, op_puts, op_finishes, op_works};
    ghost use Rattle.blocking_world_holders.specs.Owners.{awaited_as};

    /// The owner looks for the result of its operation, which is kept, and is seated where it may still come.
    pub(crate) fn find_result(&mut self) -> Awaited
        ensures found { result ≡ awaited_as self.old.result.content }
        ensures session { self.new ≡ session_after_find self.old.result.content self.old }
    {
        match self.result.poll(()).answer {
            Slotted::Value(number) => {
                self.item = number;
                Awaited::Result(number)
            }
            Slotted::Waits(_at_the_place) => Awaited::Nothing,
            Slotted::Gone(_) => Awaited::Gone,
        }
    }

    // The job puts the result of its operation.
    fn put_result(&mut self, job: &mut OpProgress) -> Act
        ensures { op_puts job.old self.old
            ≡ record { act = result; job = job.new; session = self.new } }
    {
        let woke = self.result.put(job.number()).wake.is_some();
        job.meet(OpAnswer::ResultPut { woke });
        Act::ResultPut(HolderWaker::in_seat(woke))
    }

    // The job puts its own result into the slot.
    fn finish_op(&mut self, job: &mut OpProgress) -> Act
        ensures { op_finishes job.old self.old
            ≡ record { act = result; job = job.new; session = self.new } }
    {
        let woke = self.slot.put(None).wake.is_some();
        job.meet(OpAnswer::Finished { woke });
        Act::Finished(HolderWaker::in_seat(woke))
    }

    /// A job that runs an operation takes its next action, where it takes it at its session: what is seen of it.
    pub(crate) fn operate(&mut self, job: &mut OpProgress) -> Option<Act>
        ensures { IsWork (op_works (op_next job.old.core) job.old self.old) job.old self.old result job.new self.new }
    {
        match job.next() {
            OpAction::PutResult => Some(self.put_result(job)),
            OpAction::Finish => Some(self.finish_op(job)),
            OpAction::Call | OpAction::Deliver | OpAction::Done => None,
        }
    }
}
