//! The jobs of an executor that copies.
ghost use Rattle.blocking.specs.JobSteps.{CopyStepsAs};

use blocking_core::pool::{Carries, Job, JobNo, JobStep};
use blocking_executor::Runtime;
use blocking_unblock_jobs::{ReadJob, WriteJob};
use std::io::{Read, Write};

/// The jobs of an executor that copies from readers to writers.
///
/// ```rust
/// let executor: Executor<CopyJobs<H, File, File>, H> = Executor::new(rt, Some("2"))?;
/// let reader: Reader<File, H, CopyJobs<H, File, File>> = Unblock::new(executor.try_clone()?, from);
/// let writer: Writer<File, H, CopyJobs<H, File, File>> = Unblock::new(executor, to);
/// let copied = block_on(&rt, Copier::new(rt.alloc(), reader, writer, 65_536)?)??;
/// ```
pub enum CopyJobs<H: Runtime, R: Drop, W: Drop> {
    /// The job of a session that reads.
    Read(ReadJob<R, H>),
    /// That of a session that writes.
    Write(WriteJob<W, H>),
}

// (as a derive has it; by hand it is proved here once, and not in each crate that drops one)
impl<H: Runtime, R: Drop, W: Drop> Drop for CopyJobs<H, R, W> {
    fn drop(self) {
        match self {
            CopyJobs::Read(job) => drop(job),
            CopyJobs::Write(job) => drop(job),
        }
    }
}

impl<H: Runtime, R: Read + Drop, W: Write + Drop> Job for CopyJobs<H, R, W> {
    // Another thread may set a job's mark at any time.
    ghost may_answer = { λ _ _. Unit {0} };

    fn step(&mut self, me: JobNo) -> JobStep
        ensures { CopyStepsAs R.remaining W.contents self.old self.new result }
    {
        match self {
            CopyJobs::Read(job) => job.step(me),
            CopyJobs::Write(job) => job.step(me),
        }
    }

    fn abandoned(&self) -> bool {
        match self {
            CopyJobs::Read(job) => job.abandoned(),
            CopyJobs::Write(job) => job.abandoned(),
        }
    }
}

impl<H: Runtime, R: Drop, W: Drop> Carries<ReadJob<R, H>> for CopyJobs<H, R, W> {
    ghost use Rattle.std.specs.Prelude.{Some, None, refl};
    ghost use Rattle.blocking.specs.declared.copy_jobs.CopyJobs.TheVariants.{Read, Write};

    ghost wrapped = { λ job. Read job };

    ghost opened = { elim [ Read job ↦ Some job | Write job ↦ None ] };

    ghost undoes = { λ job. refl };

    fn wrap(named: ReadJob<R, H>) -> CopyJobs<H, R, W> {
        CopyJobs::Read(named)
    }

    fn unwrap(self) -> Option<ReadJob<R, H>> {
        match self {
            CopyJobs::Read(job) => Some(job),
            CopyJobs::Write(_) => None,
        }
    }
}

impl<H: Runtime, R: Drop, W: Drop> Carries<WriteJob<W, H>> for CopyJobs<H, R, W> {
    ghost use Rattle.std.specs.Prelude.{Some, None, refl};
    ghost use Rattle.blocking.specs.declared.copy_jobs.CopyJobs.TheVariants.{Read, Write};

    ghost wrapped = { λ job. Write job };

    ghost opened = { elim [ Read job ↦ None | Write job ↦ Some job ] };

    ghost undoes = { λ job. refl };

    fn wrap(named: WriteJob<W, H>) -> CopyJobs<H, R, W> {
        CopyJobs::Write(named)
    }

    fn unwrap(self) -> Option<WriteJob<W, H>> {
        match self {
            CopyJobs::Write(job) => Some(job),
            CopyJobs::Read(_) => None,
        }
    }
}
