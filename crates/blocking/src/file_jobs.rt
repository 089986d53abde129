//! The jobs of an executor for files, and of one that makes calls beside.
ghost use Rattle.blocking.specs.JobSteps.{CallFileStepsAs, FileStepsAs};

use blocking_core::pool::{Carries, Job, JobNo, JobStep};
use blocking_core::task::Call;
use blocking_executor::{CallJob, Runtime};
use blocking_unblock_jobs::{ReadJob, SeekJob, WriteJob};
use std::fs::File;

/// The jobs of an executor whose files are read, written and sought.
///
/// ```rust
/// let executor: Executor<FileJobs<H>, H> = Executor::new(rt, Some("2"))?;
/// let mut file: Reader<File, H, FileJobs<H>> = Unblock::new(executor, file);
/// let length = block_on(&rt, file.seek(SeekFrom::End(0)))??;
/// ```
pub enum FileJobs<H: Runtime> {
    /// The job of a session that reads.
    Read(ReadJob<File, H>),
    /// That of a session that writes.
    Write(WriteJob<File, H>),
    /// That of a seek.
    Seek(SeekJob<File, H>),
}

// (as a derive has it; by hand it is proved here once, and not in each crate that drops one)
impl<H: Runtime> Drop for FileJobs<H> {
    fn drop(self) {
        match self {
            FileJobs::Read(job) => drop(job),
            FileJobs::Write(job) => drop(job),
            FileJobs::Seek(job) => drop(job),
        }
    }
}

impl<H: Runtime> Job for FileJobs<H> {
    // Another thread may set a job's mark at any time.
    ghost may_answer = { λ _ _. Unit {0} };

    fn step(&mut self, me: JobNo) -> JobStep
        ensures { FileStepsAs self.old self.new result }
    {
        match self {
            FileJobs::Read(job) => job.step(me),
            FileJobs::Write(job) => job.step(me),
            FileJobs::Seek(job) => job.step(me),
        }
    }

    fn abandoned(&self) -> bool {
        match self {
            FileJobs::Read(job) => job.abandoned(),
            FileJobs::Write(job) => job.abandoned(),
            FileJobs::Seek(job) => job.abandoned(),
        }
    }
}

impl<H: Runtime> Carries<ReadJob<File, H>> for FileJobs<H> {
    ghost use Rattle.std.specs.Prelude.{Some, None, refl};
    ghost use Rattle.blocking.specs.declared.file_jobs.FileJobs.TheVariants.{Read, Write, Seek};

    ghost wrapped = { λ job. Read job };

    ghost opened = { elim [ Read job ↦ Some job | Write job ↦ None | Seek job ↦ None ] };

    ghost undoes = { λ job. refl };

    fn wrap(named: ReadJob<File, H>) -> FileJobs<H> {
        FileJobs::Read(named)
    }

    fn unwrap(self) -> Option<ReadJob<File, H>> {
        match self {
            FileJobs::Read(job) => Some(job),
            FileJobs::Write(_) | FileJobs::Seek(_) => None,
        }
    }
}

impl<H: Runtime> Carries<WriteJob<File, H>> for FileJobs<H> {
    ghost use Rattle.std.specs.Prelude.{Some, None, refl};
    ghost use Rattle.blocking.specs.declared.file_jobs.FileJobs.TheVariants.{Read, Write, Seek};

    ghost wrapped = { λ job. Write job };

    ghost opened = { elim [ Read job ↦ None | Write job ↦ Some job | Seek job ↦ None ] };

    ghost undoes = { λ job. refl };

    fn wrap(named: WriteJob<File, H>) -> FileJobs<H> {
        FileJobs::Write(named)
    }

    fn unwrap(self) -> Option<WriteJob<File, H>> {
        match self {
            FileJobs::Write(job) => Some(job),
            FileJobs::Read(_) | FileJobs::Seek(_) => None,
        }
    }
}

impl<H: Runtime> Carries<SeekJob<File, H>> for FileJobs<H> {
    ghost use Rattle.std.specs.Prelude.{Some, None, refl};
    ghost use Rattle.blocking.specs.declared.file_jobs.FileJobs.TheVariants.{Read, Write, Seek};

    ghost wrapped = { λ job. Seek job };

    ghost opened = { elim [ Read job ↦ None | Write job ↦ None | Seek job ↦ Some job ] };

    ghost undoes = { λ job. refl };

    fn wrap(named: SeekJob<File, H>) -> FileJobs<H> {
        FileJobs::Seek(named)
    }

    fn unwrap(self) -> Option<SeekJob<File, H>> {
        match self {
            FileJobs::Seek(job) => Some(job),
            FileJobs::Read(_) | FileJobs::Write(_) => None,
        }
    }
}

/// The jobs of [`FileJobs`], and calls of type `F`.
///
/// ```rust
/// let executor: Executor<CallFileJobs<H, Double>, H> = Executor::new(rt, None)?;
/// let doubled = block_on(&rt, unblock(&executor, Double(21))?)?;
/// let file: Reader<File, H, CallFileJobs<H, Double>> = Unblock::new(executor, file);
/// ```
pub enum CallFileJobs<H: Runtime, F: Call<Out: Drop> + Drop> {
    /// The job of a call.
    Call(CallJob<F, H>),
    /// That of a session that reads.
    Read(ReadJob<File, H>),
    /// That of a session that writes.
    Write(WriteJob<File, H>),
    /// That of a seek.
    Seek(SeekJob<File, H>),
}

// (as a derive has it; by hand it is proved here once, and not in each crate that drops one)
impl<H: Runtime, F: Call<Out: Drop> + Drop> Drop for CallFileJobs<H, F> {
    fn drop(self) {
        match self {
            CallFileJobs::Call(job) => drop(job),
            CallFileJobs::Read(job) => drop(job),
            CallFileJobs::Write(job) => drop(job),
            CallFileJobs::Seek(job) => drop(job),
        }
    }
}

impl<H: Runtime, F: Call<Out: Drop> + Drop> Job for CallFileJobs<H, F> {
    // Another thread may set a job's mark at any time.
    ghost may_answer = { λ _ _. Unit {0} };

    fn step(&mut self, me: JobNo) -> JobStep
        ensures { CallFileStepsAs self.old self.new result }
    {
        match self {
            CallFileJobs::Call(job) => job.step(me),
            CallFileJobs::Read(job) => job.step(me),
            CallFileJobs::Write(job) => job.step(me),
            CallFileJobs::Seek(job) => job.step(me),
        }
    }

    fn abandoned(&self) -> bool {
        match self {
            CallFileJobs::Call(job) => job.abandoned(),
            CallFileJobs::Read(job) => job.abandoned(),
            CallFileJobs::Write(job) => job.abandoned(),
            CallFileJobs::Seek(job) => job.abandoned(),
        }
    }
}

impl<H: Runtime, F: Call<Out: Drop> + Drop> Carries<CallJob<F, H>> for CallFileJobs<H, F> {
    ghost use Rattle.std.specs.Prelude.{Some, None, refl};
    ghost use Rattle.blocking.specs.declared.file_jobs.CallFileJobs.TheVariants.{Call, Read, Write, Seek};

    ghost wrapped = { λ job. Call job };

    ghost opened = { elim [ Call job ↦ Some job | Read job ↦ None | Write job ↦ None | Seek job ↦ None ] };

    ghost undoes = { λ job. refl };

    fn wrap(named: CallJob<F, H>) -> CallFileJobs<H, F> {
        CallFileJobs::Call(named)
    }

    fn unwrap(self) -> Option<CallJob<F, H>> {
        match self {
            CallFileJobs::Call(job) => Some(job),
            CallFileJobs::Read(_) | CallFileJobs::Write(_) | CallFileJobs::Seek(_) => None,
        }
    }
}

impl<H: Runtime, F: Call<Out: Drop> + Drop> Carries<ReadJob<File, H>> for CallFileJobs<H, F> {
    ghost use Rattle.std.specs.Prelude.{Some, None, refl};
    ghost use Rattle.blocking.specs.declared.file_jobs.CallFileJobs.TheVariants.{Call, Read, Write, Seek};

    ghost wrapped = { λ job. Read job };

    ghost opened = { elim [ Call job ↦ None | Read job ↦ Some job | Write job ↦ None | Seek job ↦ None ] };

    ghost undoes = { λ job. refl };

    fn wrap(named: ReadJob<File, H>) -> CallFileJobs<H, F> {
        CallFileJobs::Read(named)
    }

    fn unwrap(self) -> Option<ReadJob<File, H>> {
        match self {
            CallFileJobs::Read(job) => Some(job),
            CallFileJobs::Call(_) | CallFileJobs::Write(_) | CallFileJobs::Seek(_) => None,
        }
    }
}

impl<H: Runtime, F: Call<Out: Drop> + Drop> Carries<WriteJob<File, H>> for CallFileJobs<H, F> {
    ghost use Rattle.std.specs.Prelude.{Some, None, refl};
    ghost use Rattle.blocking.specs.declared.file_jobs.CallFileJobs.TheVariants.{Call, Read, Write, Seek};

    ghost wrapped = { λ job. Write job };

    ghost opened = { elim [ Call job ↦ None | Read job ↦ None | Write job ↦ Some job | Seek job ↦ None ] };

    ghost undoes = { λ job. refl };

    fn wrap(named: WriteJob<File, H>) -> CallFileJobs<H, F> {
        CallFileJobs::Write(named)
    }

    fn unwrap(self) -> Option<WriteJob<File, H>> {
        match self {
            CallFileJobs::Write(job) => Some(job),
            CallFileJobs::Call(_) | CallFileJobs::Read(_) | CallFileJobs::Seek(_) => None,
        }
    }
}

impl<H: Runtime, F: Call<Out: Drop> + Drop> Carries<SeekJob<File, H>> for CallFileJobs<H, F> {
    ghost use Rattle.std.specs.Prelude.{Some, None, refl};
    ghost use Rattle.blocking.specs.declared.file_jobs.CallFileJobs.TheVariants.{Call, Read, Write, Seek};

    ghost wrapped = { λ job. Seek job };

    ghost opened = { elim [ Call job ↦ None | Read job ↦ None | Write job ↦ None | Seek job ↦ Some job ] };

    ghost undoes = { λ job. refl };

    fn wrap(named: SeekJob<File, H>) -> CallFileJobs<H, F> {
        CallFileJobs::Seek(named)
    }

    fn unwrap(self) -> Option<SeekJob<File, H>> {
        match self {
            CallFileJobs::Seek(job) => Some(job),
            CallFileJobs::Call(_) | CallFileJobs::Read(_) | CallFileJobs::Write(_) => None,
        }
    }
}
