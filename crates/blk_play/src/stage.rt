//! Traits over which one party's lines are played. They promise nothing, so functions over them are cheap to prove.
use crate::desk::Desk;
use crate::line::Line;
use crate::patience::Patience;
use crate::shown::Shown;
use crate::waiter::{JobTrack, Waiter};
use blocking_core::pool::{JobNo, Refusal, Woke};
use futures::task::Poll;
use futures::test::MockTask;
use std::alloc::Global;
use std::fmt::Display;
use std::io;
use std::io::SeekFrom;
use std::sync::Arc;

/// What an owner is asked for.
#[derive(Drop)]
pub(crate) enum Ask {
    /// At most so many bytes.
    Read(usize),
    /// To take these bytes, or a first part of them.
    Write(Vec<u8>),
    Flush,
    Close,
    Next,
    Seek(SeekFrom),
    /// To jump to a place. A poll of it begins a new operation, and gives it up.
    Operate(u64),
    /// The handle itself.
    Handle,
    /// The handle, for good.
    Inner,
}

/// Why an owner answers with a fault.
#[derive(Clone, Copy, PartialEq, Eq)]
pub(crate) enum Why {
    /// An error of the system of this number.
    System(i32),
    /// An error that the handle has by itself.
    Input,
    Unsupported,
    WriteZero,
    /// There was no memory for the bytes that came.
    Memory,
    /// The end came before a read was whole.
    Early,
    Refused(Refusal),
}

/// What an owner answers.
#[derive(Clone, Copy, PartialEq, Eq)]
pub(crate) enum Reply {
    /// So many bytes were read.
    Read(usize),
    /// So many bytes were taken.
    Wrote(usize),
    Done,
    Item(u64),
    NoMore,
    /// Where a seek ended, or an operation's result.
    Number(u64),
    /// The handle, which is at this place.
    Handle(u64),
    Failed(Why),
    /// An operation was refused, and came back.
    Refused(Refusal),
    /// It can't be asked for that.
    Nothing,
}

/// A future of an owner, which lasts several polls.
#[derive(Drop)]
pub(crate) enum Lasting {
    /// Fills the buffer.
    Exact(usize),
    /// Reads to the end, behind what is there.
    Rest,
    /// Writes all.
    Whole(Vec<u8>),
    /// One read of at most so many bytes.
    Read(usize),
    /// One write of these bytes, or of a first part of them.
    Write(Vec<u8>),
    Flush,
    Close,
    Seek(SeekFrom),
    /// An operation that jumps there.
    Jump(u64),
    /// The handle for good, which takes the owner.
    Inner,
}

/// A future that is dropped.
#[derive(Clone, Copy)]
pub(crate) struct Leaving<'a> {
    pub lasting: &'a Lasting,
    /// Whether it is polled before.
    pub is_polled: bool,
}

/// The owner of a scripted handle.
pub(crate) trait Owner: Drop {
    /// The handle's place. None while a session has the handle.
    fn place(&mut self) -> Option<u64>;

    /// The same owner, whose later sessions are this client's.
    fn set_client(&mut self, client: u32);

    /// What one poll shows; what is read is at the buffer's front.
    fn poll(&mut self, task: &MockTask, ask: &Ask, room: &mut [u8]) -> Poll<Reply>;

    /// What one poll shows that is to take these bytes.
    fn write(&mut self, task: &MockTask, bytes: &[u8]) -> Poll<Reply>;

    /// What a future answers that is polled until it does; Pending where that doesn't come. It reads into the one buffer or the other.
    fn finish(
        &mut self,
        task: &MockTask,
        patience: &Patience,
        lasting: &Lasting,
        room: &mut [u8],
        rest: &mut Vec<u8>,
    ) -> Poll<Reply>;

    /// Writes what the owner says of itself behind a text.
    fn say(&self, text: &mut String) -> io::Result<()>;
}

/// What the answer of a task is.
#[derive(Clone, Copy, PartialEq, Eq)]
pub(crate) enum Gave {
    Waits,
    Number(u64),
    /// A cancelled call wasn't made, or its answer came too late.
    Nothing,
}

/// A task of a scripted call, or its cancel.
pub(crate) trait Awaits: Drop {
    /// What a poll gives; None where the answer was taken.
    fn poll(&mut self, task: &MockTask) -> Option<Gave>;

    /// Whether it could be cancelled.
    fn cancel(&mut self) -> bool;

    /// Whether it could be let go without cancelling the call.
    fn detach(self) -> bool;
}

/// What a copier is at.
#[derive(Clone, Copy, PartialEq, Eq)]
pub(crate) enum Copying {
    Waits,
    Copied(u64),
    ReadFailed(Why),
    WriteFailed(Why),
    /// It is over.
    Nothing,
}

/// A copier over two owners.
pub(crate) trait Copies: Drop {
    /// What a poll shows, and how many bytes were taken by its writer so far.
    fn poll(&mut self, task: &MockTask) -> (Copying, u64);

    /// Takes it apart, and drops the writer before the reader.
    fn take_apart(self);
}

/// How a pool stands.
#[derive(Clone, Copy, PartialEq, Eq)]
pub(crate) struct Standing {
    pub workers: usize,
    pub idle: usize,
    pub arriving: usize,
    pub running: usize,
    pub queued: usize,
}

/// How a handle is lent.
#[derive(Clone, Copy)]
pub(crate) struct Terms {
    /// How much a pipe holds; the default where none is said.
    pub capacity: Option<usize>,
    pub client: Option<u32>,
    pub can_close: bool,
}

/// What wakes jobs that wait.
pub(crate) trait Wakes: Drop {
    fn wake(&self, job: JobNo) -> Woke;
}

/// What a stage is asked for.
#[derive(Clone, Copy)]
pub(crate) enum Act<'a> {
    /// A line that isn't a block, where it is a party's for that at the place. It returns what the line shows.
    Play(&'a Line, usize),
    /// A block begins, with no parties.
    Begin,
    /// Its next round begins, with none.
    BeginAgain,
    /// It ends, and those outside are back.
    End,
    /// What is wrong at any time is noted.
    Compare,
    /// What is wrong with the owner at this place is noted, whose line was refused.
    CompareRefused(usize),
    /// All parties are dropped. Once the pool rests, what is wrong then is noted.
    Finish,
}

/// The parties of a script, and their pool. A call that hands one over states all methods at once, so they are few.
pub(crate) trait Stage: Drop {
    /// Returns what a line shows, and NOTHING of all else.
    fn act(&mut self, act: Act<'_>, desk: &mut Desk) -> io::Result<Shown>;

    /// The pool's counts.
    fn standing(&self) -> Standing;
}

/// The system calls of the player.
pub(crate) trait System: Drop {
    fn alloc(&self) -> Global;

    /// A task to poll by.
    fn waker(&self) -> io::Result<MockTask>;

    /// Writes a line.
    fn say<L: Display + Drop>(&self, line: L) -> io::Result<()>;

    /// Milliseconds since some time.
    fn millis(&self) -> u64;

    fn pause(&self, millis: u64);

    /// How many milliseconds this process had of processors.
    fn used_millis(&self) -> u64;

    /// How many threads have a worker's name, and whether one bears this number.
    fn workers(&self, number: u64) -> io::Result<(usize, bool)>;
}

/// What another job's track says.
pub(crate) fn is_dropped_after(track: &JobTrack, steps: u64) -> bool {
    track.drops() == 1 && track.steps() == steps
}
