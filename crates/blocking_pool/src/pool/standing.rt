//! How a job stands.

/// How a job stands in its pool, from the moment that it was accepted.
#[derive(Clone, Copy, Debug, PartialEq, Eq)]
pub enum Standing {
    /// It waits in the queue for a worker.
    Queued,
    /// A worker has it.
    Running,
    /// It waits for a wake.
    Parked,
    /// It ran to its end.
    Done,
    /// It was given up and dropped.
    Dropped,
}
