//! What the workers of a crew have in hand.
ghost use Rattle.std.specs.Prelude.{◌≡◌, is_some, if◌then◌else◌};

use crate::tickets::{Outcome, Tickets};
use blocking_core::pool::{Turn, WorkerPass};
use blocking_world_laws::Act;
use blocking_world_laws::event::HolderWaker;
use std::mem;

/// Where a job is in its turn.
#[derive(Clone, Copy, Debug)]
pub enum TurnStage {
    /// It runs.
    Runs,
    /// It waits for a wake, and its turn is to end.
    Waits,
    /// It was taken or handed out to be dropped, and has to give up.
    MustGiveUp,
    /// It gave up, and has to call the waker that it took.
    MustWake,
    /// It gave up.
    GaveUp,
}

/// A job in a worker's hand: the turn that it runs in, and where it is in it.
pub struct JobInHand {
    /// The turn, which tells the job's number.
    pub turn: Turn,
    /// Where the job is in its turn.
    pub stage: TurnStage,
}

/// The hand of a worker.
pub enum Hand {
    /// The worker has stopped.
    Out,
    /// The worker is idle.
    Free(WorkerPass),
    /// The worker runs a job.
    Holds(JobInHand),
}

impl TurnStage {
    ghost use Rattle.blocking_world_pool.specs.Crews.{may_act, stage_after, may_end, outcome_of};

    /// Whether a job may act so, where it is in its turn.
    pub fn may(self, act: &Act) -> bool
        ensures { result ≡ may_act self act.now }
    {
        match act {
            Act::Answered(_)
            | Act::RoomFree(_)
            | Act::RoomShut
            | Act::JobParked
            | Act::Put(_, _)
            | Act::Lost(_)
            | Act::Peeked(_)
            | Act::Drained
            | Act::Taken(_, _)
            | Act::JobClosed(_)
            | Act::ResultPut(_)
            | Act::Finished(_) => matches!(self, TurnStage::Runs),
            Act::GaveUp(_) => matches!(self, TurnStage::MustGiveUp),
            Act::HolderWoken => matches!(self, TurnStage::Runs | TurnStage::MustWake),
            _ => false,
        }
    }

    /// Where the job is after it acted so.
    pub fn after(self, act: &Act) -> TurnStage
        ensures { result ≡ stage_after act.now self }
    {
        match act {
            Act::JobParked => TurnStage::Waits,
            Act::GaveUp(HolderWaker::Taken) => TurnStage::MustWake,
            Act::GaveUp(HolderWaker::Absent) => TurnStage::GaveUp,
            Act::HolderWoken => match self {
                TurnStage::MustWake => TurnStage::GaveUp,
                stage => stage,
            },
            _ => self,
        }
    }

    // Whether a turn may end here, and its job with it.
    pub(crate) fn may_end(self) -> bool
        ensures { result ≡ may_end self }
    {
        matches!(self, TurnStage::Runs | TurnStage::GaveUp)
    }

    // How a job ends whose turn ends here.
    pub(crate) fn outcome(self) -> Outcome
        ensures { result ≡ outcome_of self }
    {
        match self {
            TurnStage::Runs | TurnStage::Waits => Outcome::Done,
            TurnStage::MustGiveUp | TurnStage::MustWake | TurnStage::GaveUp => Outcome::Dropped,
        }
    }
}

impl Hand {
    ghost use Rattle.blocking_world_pool.specs.Closing.{RunsIn, EndsTurn};
    ghost use Rattle.blocking_world_pool.specs.Crews.{pass_in, over_in, waiting_in, acting_in, hand_after_act};

    // Puts something into a hand that is out.
    pub(crate) fn put(&mut self, hand: Hand)
        requires { self.old ≡ Hand.Out }
        ensures { self.new ≡ hand }
    {
        match mem::replace(self, hand) {
            Hand::Out => {}
            Hand::Free(_pass) => unreachable!(),
            Hand::Holds(_held) => unreachable!(),
        }
    }

    // The pass of an idle worker, whose hand is out then; None, and no change, where the worker isn't idle.
    pub(crate) fn take_pass(&mut self) -> Option<WorkerPass>
        ensures pass { result ≡ pass_in self.old }
        ensures after { self.new ≡ (if is_some result then Hand.Out else self.old) }
    {
        match mem::replace(self, Hand::Out) {
            Hand::Out => None,
            Hand::Free(pass) => Some(pass),
            Hand::Holds(held) => {
                self.put(Hand::Holds(held));
                None
            }
        }
    }

    // The job whose turn may end, and the hand is out then; None, and no change, elsewhere.
    pub(crate) fn take_ended(&mut self) -> Option<JobInHand>
        ensures held { result ≡ over_in self.old }
        ensures after { self.new ≡ (if is_some result then Hand.Out else self.old) }
    {
        match mem::replace(self, Hand::Out) {
            Hand::Out => None,
            Hand::Free(pass) => {
                self.put(Hand::Free(pass));
                None
            }
            Hand::Holds(held) => {
                if held.stage.may_end() {
                    return Some(held);
                }
                self.put(Hand::Holds(held));
                None
            }
        }
    }

    // The job that waits, and the hand is out then; None, and no change, elsewhere.
    pub(crate) fn take_waiting(&mut self) -> Option<JobInHand>
        ensures held { result ≡ waiting_in self.old }
        ensures after { self.new ≡ (if is_some result then Hand.Out else self.old) }
    {
        match mem::replace(self, Hand::Out) {
            Hand::Out => None,
            Hand::Free(pass) => {
                self.put(Hand::Free(pass));
                None
            }
            Hand::Holds(held) => {
                if let TurnStage::Waits = held.stage {
                    return Some(held);
                }
                self.put(Hand::Holds(held));
                None
            }
        }
    }

    // The job in the hand acts so, and its serial comes back; None, and no change, where it may not.
    pub(crate) fn work(&mut self, act: &Act) -> Option<u64>
        ensures serial { result ≡ acting_in self.old act.now }
        ensures after { self.new ≡ (if is_some result then hand_after_act self.old act.now else self.old) }
    {
        let Hand::Holds(held) = self else {
            return None;
        };
        if !held.stage.may(act) {
            return None;
        }
        held.stage = held.stage.after(act);
        Some(held.turn.job().serial())
    }

    // The turn of the job in the hand ends, as done, and its worker is idle then. A hand without a job stays as it is.
    pub(crate) fn end_turn(&mut self, tickets: &mut Tickets)
        requires { RunsIn tickets.old.jobs self.old }
        ensures { EndsTurn self.old tickets.old self.new tickets.new }
    {
        match mem::replace(self, Hand::Out) {
            Hand::Out => {}
            Hand::Free(pass) => self.put(Hand::Free(pass)),
            Hand::Holds(held) => {
                let JobInHand { turn, stage: _ } = held;
                let pass = tickets.end(turn, Outcome::Done);
                self.put(Hand::Free(pass));
            }
        }
    }
}
