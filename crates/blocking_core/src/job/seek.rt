//! The decision core of a seeking job. It makes one seek, and leaves what came of it in the slot with the handle.
use std::marker::Model;

/// What a seeking job does next.
#[derive(Clone, Copy, Debug, PartialEq, Eq)]
pub enum SeekAction {
    /// Make the seek.
    Seek,
    /// Put the handle and what came of the seek into the slot.
    Finish,
    /// Call the waker that was taken out of its seat.
    Deliver,
    /// Nothing more: the job is over.
    Done,
}

/// How an action was answered.
#[derive(Clone, Copy, Debug, PartialEq, Eq)]
pub enum SeekAnswer {
    /// The handle stands at the position that was sought.
    Sought,
    /// The handle failed.
    Failed,
    /// The result was put, and the owner's waker was taken out of its seat, or none was there.
    Finished { woke: bool },
    /// The waker was called.
    Delivered,
}

/// What a seeking job does: a step is its next action, and the answer decides what follows.
///
/// It has no pipe and knows no position. Whoever runs it keeps the new position or the handle's fault.
#[derive(Clone, Copy, Debug)]
pub struct SeekCore {
    next: SeekAction,
    is_waking: bool,
}

impl Model for SeekCore {
    ghost use Rattle.blocking_core.specs.Machines.{Machine};
    ghost use Rattle.blocking_core.specs.declared.job.seek.SeekAction.{SeekAction};

    ghost Value = { Machine SeekAction };

    ghost view = { λ core. record { next = core.next; is_waking = core.is_waking } };

    ghost inverse = { λ seen. record { next = seen.next; is_waking = seen.is_waking } };
}

impl SeekCore {
    ghost use Rattle.std.specs.Prelude.{◌≡◌};
    ghost use Rattle.blocking_core.specs.Seeks.{new_seek, seek_next, seek_after};

    /// The core of a job that hasn't begun.
    pub fn new() -> Self
        ensures { result ≡ new_seek }
    {
        SeekCore {
            next: SeekAction::Seek,
            is_waking: false,
        }
    }

    /// The next action.
    pub fn next(&self) -> SeekAction
        ensures { result ≡ seek_next self.now }
    {
        if self.is_waking {
            return SeekAction::Deliver;
        }
        self.next
    }

    /// Takes the answer to the next action. An answer of another kind changes nothing.
    pub fn answer(&mut self, answer: SeekAnswer)
        ensures { self.new ≡ seek_after self.old answer }
    {
        if self.is_waking {
            self.is_waking = !matches!(answer, SeekAnswer::Delivered);
            return;
        }
        let (next, is_waking) = match (self.next, answer) {
            (SeekAction::Seek, SeekAnswer::Sought) => (SeekAction::Finish, false),
            (SeekAction::Seek, SeekAnswer::Failed) => (SeekAction::Finish, false),
            (SeekAction::Finish, SeekAnswer::Finished { woke }) => (SeekAction::Done, woke),
            (same, _) => (same, false),
        };
        *self = SeekCore { next, is_waking };
    }
}
