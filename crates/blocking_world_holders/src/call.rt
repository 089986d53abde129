//! How far the job of a call is.
ghost use Rattle.std.specs.Prelude.{◌≡◌};

use blocking_core::job::{Action, Answer, CallCore};
use std::marker::Model;

/// How far the job of a call is: what it does next, and what its call was answered, once it was.
#[derive(Clone, Copy)]
pub struct CallProgress {
    core: CallCore,
    number: u64,
}

impl Model for CallProgress {
    ghost use Rattle.blocking_world_holders.specs.Calls.{Progress};

    ghost Value = { Progress };

    ghost view = { λ p. record { next = p.core; number = p.number } };

    ghost inverse = { λ p. record { core = p.next; number = p.number } };
}

impl CallProgress {
    ghost use Rattle.blocking_world_holders.specs.Calls.{not_begun, progress_after_answer, progress_after_finish, progress_after_wake};

    /// A call that hasn't been made.
    pub fn new() -> CallProgress
        ensures { result ≡ not_begun }
    {
        CallProgress {
            core: CallCore::new(),
            number: 0,
        }
    }

    /// The next action of the job.
    pub fn next(&self) -> Action
        ensures { result ≡ self.now.next }
    {
        self.core.next()
    }

    /// What the call was answered; 0 before it was.
    pub fn number(&self) -> u64
        ensures { result ≡ self.now.number }
    {
        self.number
    }

    /// The call gave this number.
    pub fn answer(&mut self, number: u64)
        ensures { self.new ≡ progress_after_answer self.old number }
    {
        self.number = number;
        self.core.answer(Answer::Returned);
    }

    /// The number was put where the task finds it, and the task's waker was taken, or none was seated.
    pub fn finish(&mut self, woke: bool)
        ensures { self.new ≡ progress_after_finish self.old woke }
    {
        self.core.answer(Answer::Put { woke });
    }

    /// Notes that the waker which was taken was called.
    pub fn note_wake(&mut self)
        ensures { self.new ≡ progress_after_wake self.old }
    {
        self.core.answer(Answer::Delivered);
    }
}
