//! The decision cores of jobs: what a job does next, and what it makes of the answer.
mod item;
mod op;
mod read;
mod seek;
mod write;

pub use self::item::{ItemAction, ItemAnswer, ItemCore};
pub use self::op::{OpAction, OpAnswer, OpCore};
pub use self::read::{PIECE, ReadAction, ReadAnswer, ReadCore};
pub use self::seek::{SeekAction, SeekAnswer, SeekCore};
pub use self::write::{WriteAction, WriteAnswer, WriteCore};
use std::marker::Model;

/// What a job does next.
#[derive(Clone, Copy, Debug, PartialEq, Eq)]
pub enum Action {
    /// Make the call.
    Call,
    /// Put the result into the slot.
    Finish,
    /// Call the waker that was taken out of its seat.
    Deliver,
    /// Nothing more: the job is over.
    Done,
}

/// How an action was answered.
#[derive(Clone, Copy, Debug, PartialEq, Eq)]
pub enum Answer {
    /// The call returned.
    Returned,
    /// The result was put, and the owner's waker was taken out of its seat, or none was there.
    Put { woke: bool },
    /// The waker was called.
    Delivered,
}

/// What the job of a call does: it makes the call, puts the answer into its slot, calls the waker of an owner who
/// waits, and is done.
#[derive(Clone, Copy, Debug)]
pub struct CallCore {
    next: Action,
}

// Contracts see the next action.
impl Model for CallCore {
    ghost use Rattle.blocking_core.specs.declared.job.Action.{Action};

    ghost Value = { Action };

    ghost view = { λ core. core.next };

    ghost inverse = { λ action. record { next = action } };
}

impl CallCore {
    ghost use Rattle.std.specs.Prelude.{◌≡◌};
    ghost use Rattle.blocking_core.specs.Cores.{call_after};

    /// The core of a job that hasn't begun.
    pub fn new() -> Self
        ensures { result ≡ Action.Call }
    {
        CallCore { next: Action::Call }
    }

    /// The next action.
    pub fn next(&self) -> Action
        ensures { result ≡ self.now }
    {
        self.next
    }

    /// Takes the answer to the next action. An answer of another kind changes nothing.
    pub fn answer(&mut self, answer: Answer)
        ensures { self.new ≡ call_after self.old answer }
    {
        let next = match (self.next, answer) {
            (Action::Call, Answer::Returned) => Action::Finish,
            (Action::Finish, Answer::Put { woke: true }) => Action::Deliver,
            (Action::Finish, Answer::Put { woke: false }) => Action::Done,
            (Action::Deliver, Answer::Delivered) => Action::Done,
            (same, _) => same,
        };
        *self = CallCore { next };
    }
}
