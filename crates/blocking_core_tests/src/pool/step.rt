//! What is done in a row of the pool, and what it shows.
//!
//! Jobs and workers are named by their places in the row: the job that was accepted first is 1, and so is the worker that arrived
//! first.
use blocking_core::pool::{BellKind, Refusal, Woke};

/// One call of the pool.
#[derive(Clone, Copy)]
pub(super) enum Step {
    /// A job that bears this number is added.
    Add(u32),
    /// A job of a client is added, which bears this number.
    AddFor(u32, u32),
    /// A worker arrives.
    Arrive,
    /// A worker that arrived does something.
    Worker(usize, Work),
    /// Something is done to a job that was accepted.
    Job(usize, Deed),
    /// The marked jobs are swept.
    Sweep,
    /// The limit is set.
    SetLimit(usize),
    /// The limit of running jobs for each client is set, or let go.
    SetClientLimit(Option<usize>),
    /// The pool is asked for a count.
    Ask(Count),
    /// The limit is asked for.
    Limit,
    /// The limit of running jobs for each client is asked for.
    ClientLimit,
    /// The bell is taken and rung.
    Ring,
    /// From here on all calls go to the other pool.
    Switch,
}

/// What a worker does.
#[derive(Clone, Copy)]
pub(super) enum Work {
    /// It takes the first job that is ready.
    Take,
    /// It has waited.
    Wait(Until),
    /// Its turn ends.
    End(Ending),
    /// The job that it runs is marked, by another thread as it were.
    Mark,
}

/// What is done to a job.
#[derive(Clone, Copy)]
pub(super) enum Deed {
    /// A wake reaches it.
    Wake,
    /// It is cancelled.
    Cancel,
    /// It is lent, and marked.
    Mark,
    /// It is lent, and gets this number.
    Renumber(u32),
    /// Its place in the table is looked at.
    Place,
}

/// How a turn ends.
#[derive(Clone, Copy)]
pub(super) enum Ending {
    Done,
    Dropped,
    Waiting,
}

/// How long a worker waited.
#[derive(Clone, Copy)]
pub(super) enum Until {
    Notified,
    TimedOut,
}

/// What the pool counts.
#[derive(Clone, Copy)]
pub(super) enum Count {
    Workers,
    Idle,
    Queued,
    Ready,
}

/// What a step shows.
#[derive(Clone, Copy, PartialEq, Eq)]
pub(super) enum Shown {
    /// The job was accepted under this serial.
    Accepted(u64),
    /// The job was refused, and the one of this number came back.
    Refused(Refusal, u32),
    /// This worker arrived.
    Arrived(usize),
    /// No worker was to arrive.
    Nobody,
    /// The worker runs the job of this number.
    Runs(u32),
    /// The worker has to drop the job of this number.
    Drops(u32),
    /// No job is ready.
    NoJob,
    /// The worker is free.
    Free,
    /// The turn is a stranger's, and the job of this number came back with it.
    Stranger(Option<u32>),
    /// The worker goes on.
    Stays,
    /// The worker stopped.
    Stops,
    /// What came of a wake or a cancel.
    Woke(Woke),
    /// So many jobs were put back.
    Swept(usize),
    /// Whether the job was lent.
    Lent(bool),
    /// Whom the bell rang.
    Rang(BellKind),
    /// So many there are.
    Are(usize),
    /// What the limit is.
    LimitIs(Option<usize>),
    /// Whether this is the table's first place.
    InFirstPlace(bool),
    /// The step answers nothing.
    NoAnswer,
    /// The row names a job or a worker that isn't there, or a worker with something else in hand; or there was no memory.
    Misplaced,
}

/// A step, and what it has to show.
pub(super) type Line = (Step, Shown);

/// How a row's pool is made.
#[derive(Clone, Copy)]
pub(super) struct Given {
    /// The text of the limit.
    pub(super) setting: Option<&'static str>,
    /// The serial of the first job.
    pub(super) serial: u64,
    /// The number of the first worker.
    pub(super) worker: u64,
    /// The numbers of the workers that can't be started.
    pub(super) refused: &'static [u64],
}

/// A row of the pool.
#[derive(Clone, Copy)]
pub(super) struct Row {
    pub(super) name: &'static str,
    pub(super) pool: Given,
    /// How it begins.
    pub(super) begin: &'static [Line],
    /// How it goes on.
    pub(super) steps: &'static [Line],
    /// The workers whose starts it asks for.
    pub(super) starts: &'static [u64],
}

/// A pool that numbers from 1, and all of whose workers can be started.
pub(super) const NEW: Given = Given {
    setting: None,
    serial: 1,
    worker: 1,
    refused: &[],
};

/// The same at the limit 1.
pub(super) const LIMIT_1: Given = Given {
    setting: Some("1"),
    serial: 1,
    worker: 1,
    refused: &[],
};

/// The same at the limit 4.
pub(super) const LIMIT_4: Given = Given {
    setting: Some("4"),
    serial: 1,
    worker: 1,
    refused: &[],
};

/// How a row begins whose one worker has run a first job to its end, at the limit 1.
pub(super) const READY: [Line; 5] = [
    (Step::Add(0), Shown::Accepted(1)),
    (Step::Arrive, Shown::Arrived(1)),
    (Step::Worker(1, Work::Take), Shown::Runs(0)),
    (Step::Worker(1, Work::End(Ending::Done)), Shown::Free),
    (Step::Ring, Shown::Rang(BellKind::All)),
];
