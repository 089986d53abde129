//! The decision core of a writing job. It offers its writer what stands at the front of the pipe, and lets go of what the writer
//! took. It does so until the owner's end is closed and the pipe is empty, or the writer fails. Then it flushes the writer, closes
//! its end of the pipe, and leaves the writer in the slot.
ghost use Rattle.std.specs.Prelude.{◌≡◌};
ghost use Rattle.blocking_core.specs.Writes.{fault_in};

use crate::io::JobFault;
use crate::job::PIECE;
use std::marker::Model;

/// What a writing job does next.
#[derive(Clone, Copy, Debug, PartialEq, Eq)]
pub enum WriteAction {
    /// Look at the front of the pipe: at most 65,536 bytes.
    Peek,
    /// Offer the writer so many bytes, those that are shown.
    Write(usize),
    /// Let so many bytes leave the pipe, which the writer took.
    Consume(usize),
    /// Flush the writer.
    Flush,
    /// Close the job's end of the pipe.
    Close,
    /// Put the writer and its fault, if there was one, into the slot.
    Finish,
    /// Call the waker that was taken out of its seat.
    Deliver,
    /// Nothing more: the job is over.
    Done,
}

/// How an action was answered. `woke` says that the owner's waker was taken out of its seat, and has to be called.
#[derive(Clone, Copy, Debug, PartialEq, Eq)]
pub enum WriteAnswer<E> {
    /// So many bytes are shown, one at least and 65,536 at most. They are still inside.
    Peeked(usize),
    /// The pipe is empty, and the job is seated: its run ends waiting.
    Parked,
    /// The pipe is empty, and the owner's end is closed.
    Drained,
    /// The writer took so many bytes.
    Took(usize),
    /// The writer failed, at a write or a flush.
    Failed(E),
    /// The bytes left the pipe.
    Consumed { woke: bool },
    /// The writer is flushed.
    Flushed,
    /// The job's end is closed.
    Closed { woke: bool },
    /// The result was put.
    Finished { woke: bool },
    /// The waker was called.
    Delivered,
}

/// What a writing job does: a step is its next action, and the answer decides what follows.
///
/// It counts bytes and holds none. Of the writer's faults it notes the first: a flush that fails after a write that failed tells
/// nothing new.
#[derive(Clone, Copy, Debug)]
pub struct WriteCore<E> {
    next: WriteAction,
    is_waking: bool,
    fault: Option<JobFault<E>>,
}

impl<E> Model for WriteCore<E> {
    ghost use Rattle.blocking_core.specs.Writes.{WriteMachine};

    ghost Value = { WriteMachine E };

    ghost view = { λ core. record {
      next = core.next;
      is_waking = core.is_waking;
      fault = core.fault;
    } };

    ghost inverse = { λ seen. record {
      next = seen.next;
      is_waking = seen.is_waking;
      fault = seen.fault;
    } };
}

impl<E: Copy> WriteCore<E> {
    ghost use Rattle.blocking_core.specs.Writes.{new_write, noting, write_by, write_next, write_after};

    /// The core of a job that hasn't begun.
    pub fn new() -> Self
        ensures { result ≡ new_write }
    {
        WriteCore {
            next: WriteAction::Peek,
            is_waking: false,
            fault: None,
        }
    }

    /// What the writer did wrong first, if it did.
    pub fn fault(&self) -> Option<JobFault<E>>
        ensures { result ≡ self.now.fault }
    {
        self.fault
    }

    /// The next action.
    pub fn next(&self) -> WriteAction
        ensures { result ≡ write_next self.now }
    {
        if self.is_waking {
            return WriteAction::Deliver;
        }
        self.next
    }

    /// Takes the answer to the next action. An answer of another kind changes nothing, and neither does one that counts more
    /// bytes than were offered.
    pub fn answer(&mut self, answer: WriteAnswer<E>)
        ensures { self.new ≡ write_after self.old answer }
    {
        if self.is_waking {
            self.is_waking = !matches!(answer, WriteAnswer::Delivered);
            return;
        }
        if self.fault.is_none() {
            self.fault = fault_in(self.next, answer);
        }
        self.go_on(answer);
    }

    // Goes on where no waker has to be called.
    fn go_on(&mut self, answer: WriteAnswer<E>)
        ensures { self.new ≡ noting (write_by self.old.next answer) self.old.fault }
    {
        let (next, is_waking) = match (self.next, answer) {
            (WriteAction::Peek, WriteAnswer::Peeked(count)) if 0 < count && count <= PIECE => {
                (WriteAction::Write(count), false)
            }
            (WriteAction::Peek, WriteAnswer::Drained) => (WriteAction::Flush, false),
            (WriteAction::Write(_), WriteAnswer::Took(0)) => (WriteAction::Flush, false),
            (WriteAction::Write(most), WriteAnswer::Took(count)) if count <= most => {
                (WriteAction::Consume(count), false)
            }
            (WriteAction::Write(_), WriteAnswer::Failed(_)) => (WriteAction::Flush, false),
            (WriteAction::Consume(_), WriteAnswer::Consumed { woke }) => (WriteAction::Peek, woke),
            (WriteAction::Flush, WriteAnswer::Flushed) => (WriteAction::Close, false),
            (WriteAction::Flush, WriteAnswer::Failed(_)) => (WriteAction::Close, false),
            (WriteAction::Close, WriteAnswer::Closed { woke }) => (WriteAction::Finish, woke),
            (WriteAction::Finish, WriteAnswer::Finished { woke }) => (WriteAction::Done, woke),
            (same, _) => (same, false),
        };
        *self = WriteCore {
            next,
            is_waking,
            fault: self.fault,
        };
    }
}

// What an answer to this action tells that the writer did wrong.
fn fault_in<E: Copy>(action: WriteAction, answer: WriteAnswer<E>) -> Option<JobFault<E>>
    ensures { result ≡ fault_in action answer }
{
    match (action, answer) {
        (WriteAction::Write(_), WriteAnswer::Took(0)) => Some(JobFault::WriteZero),
        (WriteAction::Write(_) | WriteAction::Flush, WriteAnswer::Failed(error)) => {
            Some(JobFault::Io(error))
        }
        _ => None,
    }
}
