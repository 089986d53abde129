//! The decision core of a reading job. It looks for room, asks the reader for no more than that, and puts what the reader gave,
//! until the reader ends or fails or nobody wants more. Then it closes its end of the pipe, and leaves the reader in the slot.
use std::marker::Model;

/// The most bytes that a job asks its handle for, or offers it, at once.
pub const PIECE: usize = 65_536;

/// What a reading job does next.
#[derive(Clone, Copy, Debug, PartialEq, Eq)]
pub enum ReadAction {
    /// Look for room in the pipe.
    FindRoom,
    /// Ask the reader for at most so many bytes.
    Read(usize),
    /// Put into the pipe what the reader gave: so many bytes.
    Put(usize),
    /// Close the job's end of the pipe.
    Close,
    /// Put the reader and its fault, if there was one, into the slot.
    Finish,
    /// Call the waker that was taken out of its seat.
    Deliver,
    /// Nothing more: the job is over.
    Done,
}

/// How an action was answered. `woke` says that the owner's waker was taken out of its seat, and has to be called.
#[derive(Clone, Copy, Debug, PartialEq, Eq)]
pub enum ReadAnswer {
    /// So many bytes fit, one at least.
    Free(usize),
    /// The pipe is full, and the job is seated: its run ends waiting.
    Parked,
    /// The owner's end is closed.
    Shut,
    /// The reader gave so many bytes, and at its end none.
    Gave(usize),
    /// The reader failed.
    Failed,
    /// The bytes are inside.
    Put { woke: bool },
    /// The owner's end is closed, and the bytes are lost.
    Lost,
    /// The job's end is closed.
    Closed { woke: bool },
    /// The result was put.
    Finished { woke: bool },
    /// The waker was called.
    Delivered,
}

/// What a reading job does: a step is its next action, and the answer decides what follows.
///
/// It counts bytes and holds none. Whoever runs it keeps the piece that was read, and the reader's fault.
#[derive(Clone, Copy, Debug)]
pub struct ReadCore {
    next: ReadAction,
    is_waking: bool,
}

impl Model for ReadCore {
    ghost use Rattle.blocking_core.specs.Machines.{Machine};
    ghost use Rattle.blocking_core.specs.declared.job.read.ReadAction.{ReadAction};

    ghost Value = { Machine ReadAction };

    ghost view = { λ core. record { next = core.next; is_waking = core.is_waking } };

    ghost inverse = { λ seen. record { next = seen.next; is_waking = seen.is_waking } };
}

impl ReadCore {
    ghost use Rattle.std.specs.Prelude.{◌≡◌};
    ghost use Rattle.blocking_core.specs.Reads.{new_read, read_next, read_after};

    /// The core of a job that hasn't begun.
    pub fn new() -> Self
        ensures { result ≡ new_read }
    {
        ReadCore {
            next: ReadAction::FindRoom,
            is_waking: false,
        }
    }

    /// The next action.
    pub fn next(&self) -> ReadAction
        ensures { result ≡ read_next self.now }
    {
        if self.is_waking {
            return ReadAction::Deliver;
        }
        self.next
    }

    /// Takes the answer to the next action. An answer of another kind changes nothing, and neither does one that counts more
    /// bytes than were asked for.
    pub fn answer(&mut self, answer: ReadAnswer)
        ensures { self.new ≡ read_after self.old answer }
    {
        if self.is_waking {
            self.is_waking = !matches!(answer, ReadAnswer::Delivered);
            return;
        }
        let (next, is_waking) = match (self.next, answer) {
            (ReadAction::FindRoom, ReadAnswer::Free(room)) if room > 0 => {
                (ReadAction::Read(room.min(PIECE)), false)
            }
            (ReadAction::FindRoom, ReadAnswer::Shut) => (ReadAction::Close, false),
            (ReadAction::Read(_), ReadAnswer::Gave(0)) => (ReadAction::Close, false),
            (ReadAction::Read(most), ReadAnswer::Gave(count)) if count <= most => {
                (ReadAction::Put(count), false)
            }
            (ReadAction::Read(_), ReadAnswer::Failed) => (ReadAction::Close, false),
            (ReadAction::Put(_), ReadAnswer::Put { woke }) => (ReadAction::FindRoom, woke),
            (ReadAction::Put(_), ReadAnswer::Lost) => (ReadAction::Close, false),
            (ReadAction::Close, ReadAnswer::Closed { woke }) => (ReadAction::Finish, woke),
            (ReadAction::Finish, ReadAnswer::Finished { woke }) => (ReadAction::Done, woke),
            (same, _) => (same, false),
        };
        *self = ReadCore { next, is_waking };
    }
}
