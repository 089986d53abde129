//! How many workers and jobs there are at one moment.

/// The workers and jobs of an executor, as they were together in one section under its lock. (See the example at
/// [`Executor::counts`](crate::Executor::counts).)
#[derive(Clone, Copy, Debug, PartialEq, Eq)]
pub struct Counts {
    /// All workers, also those whose thread was started and hasn't arrived yet.
    pub workers: usize,
    /// Those of them that run no job.
    pub idle: usize,
    /// Those of the idle ones that haven't arrived.
    pub arriving: usize,
    /// The jobs that run.
    pub running: usize,
    /// The jobs that wait in the queue for a worker.
    pub queued: usize,
}
