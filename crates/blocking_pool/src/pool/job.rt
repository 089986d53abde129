//! What a pool asks of its jobs.
ghost use Rattle.std.specs.Prelude.{◌≡◌, Bool, Option, Some};

use crate::pool::number::JobNo;

/// How a step of a job ended.
///
/// A job that does one piece after the other goes on until none is left:
///
/// ```rust
/// fn step(&mut self, _me: JobNo) -> JobStep {
///     let Some(piece) = self.pieces.pop() else {
///         return JobStep::Done;
///     };
///     self.total = self.total.saturating_add(piece.len());
///     JobStep::Again
/// }
/// ```
#[derive(Clone, Copy, Debug, PartialEq, Eq)]
pub enum JobStep {
    /// The job goes on with its next step.
    Again,
    /// The job waits for a wake, and gives its worker back.
    Waiting,
    /// The job is over.
    Done,
}

/// A job of a pool: a worker calls `step` until it is done or waits.
///
/// A program's own job may wait, and a wake puts it back into the queue. This is the `step` of one that waits once:
///
/// ```rust
/// fn step(&mut self, _me: JobNo) -> JobStep {
///     if self.has_slept {
///         return JobStep::Done;
///     }
///     self.has_slept = true;
///     JobStep::Waiting
/// }
/// ```
pub trait Job: Drop {
    /// Which answers `abandoned` may give: its mark itself, or either where another thread may set the mark.
    ghost may_answer: { Self → Bool → Type 0 };

    /// Does the next action. `me` is the job's number in its pool.
    fn step(&mut self, me: JobNo) -> JobStep;

    /// Whether the job bears a mark: nobody wants its outcome any more.
    ///
    /// A pool asks this in the middle of its own calls, which an executor makes under the pool's lock. So it must not wait, and must
    /// not use the executor. Every worker and every caller would wait along with it, and a lock that is held already is waited for
    /// without end. It is best an atomic's load. (`step` runs, and a job is dropped, under no lock.)
    fn abandoned(&self) -> bool
        ensures { may_answer self.now result };
}

/// A job type that can carry a named job.
///
/// A function takes any executor whose jobs may be those of a call `Double`:
///
/// ```rust
/// fn doubled<J: Job + Carries<CallJob<Double, H>>, H: Host>(
///     rt: &H,
///     executor: &Executor<J, H>,
/// ) -> io::Result<u64> {
///     block_on(rt, unblock(executor, Double(21))?)
/// }
/// ```
pub trait Carries<K> {
    ghost wrapped: { K → Self };

    ghost opened: { Self → Option K };

    /// The named job as one of this type.
    fn wrap(named: K) -> Self
        ensures { result ≡ wrapped named };

    /// The named job, if it is what this one carries.
    fn unwrap(self) -> Option<K>
        ensures { result ≡ opened self };

    /// What was wrapped comes out.
    ghost undoes: { (named : K) → opened (wrapped named) ≡ Some named };
}
