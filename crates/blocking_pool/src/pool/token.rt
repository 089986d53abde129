//! The tokens of workers.
use crate::pool::number::JobNo;
use std::marker::Model;

/// The turn of a worker to run a job. It has no `Drop`: it has to be spent by [`Pool::end`](crate::pool::Pool::end).
pub struct Turn {
    no: JobNo,
}

impl Model for Turn {
    ghost use Rattle.blocking_pool.specs.Jobs.{JobNumber};

    ghost Value = { JobNumber };

    ghost view = { λ turn. turn.no };
}

impl Turn {
    ghost use Rattle.std.specs.Prelude.{◌≡◌};

    pub(crate) fn new(no: JobNo) -> Turn
        ensures { result ≡ no }
    {
        Turn { no }
    }

    /// The number of the job.
    pub fn job(&self) -> JobNo
        ensures { result ≡ self.now }
    {
        self.no
    }

    pub(crate) fn spend(self) -> JobNo
        ensures { result ≡ self }
    {
        let Turn { no } = self;
        no
    }
}

/// A worker that runs no job. It has no `Drop`: it has to be spent by [`Pool::take`](crate::pool::Pool::take) or
/// [`Pool::after_wait`](crate::pool::Pool::after_wait).
pub struct WorkerPass(());

impl WorkerPass {
    pub(crate) fn new() -> WorkerPass {
        WorkerPass(())
    }

    pub(crate) fn spend(self) {
        let WorkerPass(()) = self;
    }
}

/// A wake that is due to a job. It has no `Drop`: it has to be spent by [`Pool::wake`](crate::pool::Pool::wake).
///
/// Whoever knows a job's number makes one, and spends it by the executor:
///
/// ```rust
/// let _ = executor.wake(WakeNote::new(added.number()));
/// ```
pub struct WakeNote {
    job: JobNo,
}

impl Model for WakeNote {
    ghost use Rattle.blocking_pool.specs.Jobs.{JobNumber};

    ghost Value = { JobNumber };

    ghost view = { λ note. note.job };
}

impl WakeNote {
    ghost use Rattle.std.specs.Prelude.{◌≡◌};

    /// A wake of the job of this number.
    pub fn new(job: JobNo) -> WakeNote
        ensures { result ≡ job }
    {
        WakeNote { job }
    }

    /// The number of the job.
    pub fn job(&self) -> JobNo
        ensures { result ≡ self.now }
    {
        self.job
    }

    pub(crate) fn spend(self) -> JobNo
        ensures { result ≡ self }
    {
        let WakeNote { job } = self;
        job
    }
}
