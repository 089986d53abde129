//! What the pool answers.
ghost use Rattle.std.specs.Prelude.{Some};
ghost use Rattle.blocking_pool.specs.Refusals.{reason_text};

use crate::pool::job::Carries;
use crate::pool::token::{Turn, WorkerPass};
use std::error::Error;
use std::{fmt, io};

/// Why a job was refused.
///
/// ```rust
/// // Whether it may help to ask again, with what came back.
/// match refused.why {
///     Refusal::Memory | Refusal::NoWorker => true,
///     Refusal::Numbers => false,
/// }
/// ```
#[derive(Clone, Copy, Debug, PartialEq, Eq)]
pub enum Refusal {
    /// There was no memory. Asking again may help, once some was given back.
    Memory,
    /// No worker is there, and none could be started. Asking again may help, once a thread can be started.
    NoWorker,
    /// The serials are used up. Asking again doesn't help.
    Numbers,
}

impl Refusal {
    ghost use Rattle.std.specs.Prelude.{◌≡◌};
    ghost use Rattle.blocking_pool.specs.Refusals.{refusal_kind};

    // The reason, in words.
    fn reason(self) -> &'static str
        ensures { result.now ≡ reason_text self }
    {
        match self {
            Refusal::Memory => "no memory",
            Refusal::NoWorker => "no worker could be started",
            Refusal::Numbers => "the numbers are used up",
        }
    }

    // The kind of error that a program which meets it knows from the system.
    fn kind(self) -> io::ErrorKind
        ensures { result ≡ refusal_kind self }
    {
        match self {
            Refusal::Memory => io::ErrorKind::OutOfMemory,
            Refusal::NoWorker => io::ErrorKind::WouldBlock,
            Refusal::Numbers => io::ErrorKind::Other,
        }
    }
}

impl fmt::Display for Refusal {
    ghost output = { λ why. Some (reason_text why) };

    fn fmt<W: fmt::Write>(&self, f: &mut fmt::Formatter<W>) -> fmt::Result {
        f.write_str(self.reason())
    }
}

impl Error for Refusal {}

/// So that a `?` passes a refusal on where errors of the system go. Its kind is
/// [`OutOfMemory`](io::ErrorKind::OutOfMemory) for want of memory, and [`Other`](io::ErrorKind::Other) where the serials are used up.
/// For want of a worker it is [`WouldBlock`](io::ErrorKind::WouldBlock), as for a thread that can't be started. It shows the same
/// reason.
impl From<Refusal> for io::Error {
    ghost use Rattle.std.specs.Prelude.{◌≡◌};
    ghost use Rattle.std.specs.IoError.{error_kind};
    ghost use Rattle.blocking_pool.specs.Refusals.{refusal_kind};

    ghost from_gives = { λ why error. error_kind error ≡ refusal_kind why };

    fn from(why: Refusal) -> io::Error {
        io::Error::new(why.kind(), why.reason())
    }
}

/// What was refused, handed back, and why.
///
/// It shows its reason alone, so that any job and any call can be refused with an error that a `?` passes on. That lets what
/// came back go: who wants it takes it out first.
///
/// ```rust
/// match unblock(&executor, Double(21)) {
///     Ok(task) => block_on(&rt, task),
///     Err(Refused { back, why: _ }) => Ok(back.call()),
/// }
/// ```
#[derive(Drop)]
#[derive_where(Debug)]
pub struct Refused<X: Drop> {
    #[derive_where(skip)]
    pub back: X,
    pub why: Refusal,
}

impl<X: Drop> Refused<X> {
    ghost use Rattle.std.specs.Prelude.{◌≡◌, IsSome};

    /// The named job that was refused, out of the one that carried it, and why it was.
    pub fn unwrap<K: Drop>(self) -> Refused<K>
    where
        X: Carries<K>,
        requires { IsSome (X.opened self.back) }
        ensures back { Some result.back ≡ X.opened self.back }
        ensures why { result.why ≡ self.why }
    {
        let Refused { back, why } = self;
        match back.unwrap() {
            Some(back) => Refused { back, why },
            None => unreachable!(),
        }
    }
}

impl<X: Drop> fmt::Display for Refused<X> {
    ghost output = { λ refused. Some (reason_text refused.why) };

    fn fmt<W: fmt::Write>(&self, f: &mut fmt::Formatter<W>) -> fmt::Result {
        write!(f, "{}", self.why)
    }
}

impl<X: Drop> Error for Refused<X> {}

/// So that a `?` passes it on where errors of the system go, as it does a [`Refusal`]. What came back is dropped.
impl<X: Drop> From<Refused<X>> for io::Error {
    ghost use Rattle.std.specs.Prelude.{◌≡◌};
    ghost use Rattle.std.specs.IoError.{error_kind};
    ghost use Rattle.blocking_pool.specs.Refusals.{refusal_kind};

    ghost from_gives = { λ refused error. error_kind error ≡ refusal_kind refused.why };

    fn from(refused: Refused<X>) -> io::Error {
        io::Error::from(refused.why)
    }
}

/// What a wake or a cancel did to its job.
#[derive(Clone, Copy, Debug, PartialEq, Eq)]
pub enum Woke {
    /// It was parked, and stands at the queue's end.
    Entered,
    /// It was flagged, and stands as it did.
    Marked,
    /// It is as it was.
    Nothing,
}

/// What a worker takes.
pub enum Took<J> {
    /// The first ready job, to be run.
    Run(Turn, J),
    /// The first ready job, to be dropped: it was cancelled, or bears a mark.
    Drop(Turn, J),
    /// No job is ready.
    Idle(WorkerPass),
}

/// What a worker does after a wait.
pub enum Waited {
    /// It goes on.
    Stay(WorkerPass),
    /// It stops.
    Stop,
}

/// How a turn ended.
#[derive(Drop)]
pub enum Finish<J: Drop> {
    /// The job ran to its end.
    Done,
    /// The job was handed out to be dropped, and was.
    Dropped,
    /// The job waits for a wake.
    Waiting(J),
}

impl<J: Drop> Finish<J> {
    ghost use Rattle.std.specs.Prelude.{◌≡◌};
    ghost use Rattle.blocking_pool.specs.PoolAnswers.{value_of};

    // The job that waits.
    pub(crate) fn into_value(self) -> Option<J>
        ensures { result ≡ value_of self }
    {
        match self {
            Finish::Waiting(value) => Some(value),
            Finish::Done | Finish::Dropped => None,
        }
    }
}

/// What the end of a turn leaves the worker with.
pub enum Gone<J> {
    /// The worker is free.
    Free(WorkerPass),
    /// The job that waits was cancelled, or bears a mark: it is to be dropped, and runs until then.
    Drop(Turn, J),
    /// The job of this turn isn't running in this pool: the turn comes back, with the job if there was one.
    Stranger(Turn, Option<J>),
}
