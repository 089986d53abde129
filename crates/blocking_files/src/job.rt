//! The jobs of a pool of files.

use crate::calls::{Change, List, Look, Open, OpenBoth, ReadBytes, ReadText, Shared};
use blocking::{
    CallJob, Carries, ItemJob, Job, JobNo, JobStep, ReadJob, Runtime, SeekJob, WriteJob,
};
use std::fs::{DirEntry, ReadDir};
use std::io;

/// The jobs of a pool of files.
///
/// ```rust
/// let executor: Executor<FileJob<H>, H> = Executor::new(rt, Some("2"))?;
/// let files = Files::over(executor, system);
/// ```
pub enum FileJob<H: Runtime> {
    /// That of a call that opens a file.
    Open(CallJob<Open, H>),
    /// That of a call that opens two files, for a copy.
    OpenBoth(CallJob<OpenBoth, H>),
    /// That of a call that reads a whole file.
    Bytes(CallJob<ReadBytes, H>),
    /// That of a call that reads a whole file of text.
    Text(CallJob<ReadText, H>),
    /// That of a call that changes what the system has.
    Change(CallJob<Change, H>),
    /// That of a call that asks what the system knows of a file.
    Look(CallJob<Look, H>),
    /// That of a call that opens a directory.
    List(CallJob<List, H>),
    /// That of a session that reads a file.
    Read(ReadJob<Shared, H>),
    /// That of a session that writes a file.
    Write(WriteJob<Shared, H>),
    /// That of a seek in a file.
    Seek(SeekJob<Shared, H>),
    /// That of a session of a directory's entries.
    Entry(ItemJob<Box<ReadDir>, io::Result<DirEntry>, H>),
}

// (as a derive has it; by hand it is proved here once, and not in each crate that drops one)
impl<H: Runtime> Drop for FileJob<H> {
    fn drop(self) {
        match self {
            FileJob::Open(job) => drop(job),
            FileJob::OpenBoth(job) => drop(job),
            FileJob::Bytes(job) => drop(job),
            FileJob::Text(job) => drop(job),
            FileJob::Change(job) => drop(job),
            FileJob::Look(job) => drop(job),
            FileJob::List(job) => drop(job),
            FileJob::Read(job) => drop(job),
            FileJob::Write(job) => drop(job),
            FileJob::Seek(job) => drop(job),
            FileJob::Entry(job) => drop(job),
        }
    }
}

/// A job type that carries all that a pool of files asks for, as [`FileJob`] does.
///
/// ```rust
/// fn write_second<H: Host, J: CarriesFiles<H>>(
///     rt: H,
///     files: &Files<H, J>,
///     path: Path<'_>,
/// ) -> io::Result<()> {
///     let mut file = block_on(&rt, files.create(path))??;
///     block_on(&rt, file.write_all(b"pines "))??;
///     block_on(&rt, file.sync_all())?
/// }
/// ```
pub trait CarriesFiles<H: Runtime>: Job
    + Carries<CallJob<Open, H>>
    + Carries<CallJob<OpenBoth, H>>
    + Carries<CallJob<ReadBytes, H>>
    + Carries<CallJob<ReadText, H>>
    + Carries<CallJob<Change, H>>
    + Carries<CallJob<Look, H>>
    + Carries<CallJob<List, H>>
    + Carries<ReadJob<Shared, H>>
    + Carries<WriteJob<Shared, H>>
    + Carries<SeekJob<Shared, H>>
    + Carries<ItemJob<Box<ReadDir>, io::Result<DirEntry>, H>> {}

impl<
    H: Runtime,
    J: Job
        + Carries<CallJob<Open, H>>
        + Carries<CallJob<OpenBoth, H>>
        + Carries<CallJob<ReadBytes, H>>
        + Carries<CallJob<ReadText, H>>
        + Carries<CallJob<Change, H>>
        + Carries<CallJob<Look, H>>
        + Carries<CallJob<List, H>>
        + Carries<ReadJob<Shared, H>>
        + Carries<WriteJob<Shared, H>>
        + Carries<SeekJob<Shared, H>>
        + Carries<ItemJob<Box<ReadDir>, io::Result<DirEntry>, H>>,
> CarriesFiles<H> for J {}

impl<H: Runtime> Job for FileJob<H> {
    ghost use Rattle.blocking_files.specs.Steps.{StepsAs};

    // Another thread may set a job's mark at any time.
    ghost may_answer = { λ _ _. Unit {0} };

    fn step(&mut self, me: JobNo) -> JobStep
        ensures { StepsAs self.old self.new result }
    {
        match self {
            FileJob::Open(job) => job.step(me),
            FileJob::OpenBoth(job) => job.step(me),
            FileJob::Bytes(job) => job.step(me),
            FileJob::Text(job) => job.step(me),
            FileJob::Change(job) => job.step(me),
            FileJob::Look(job) => job.step(me),
            FileJob::List(job) => job.step(me),
            FileJob::Read(job) => job.step(me),
            FileJob::Write(job) => job.step(me),
            FileJob::Seek(job) => job.step(me),
            FileJob::Entry(job) => job.step(me),
        }
    }

    fn abandoned(&self) -> bool {
        match self {
            FileJob::Open(job) => job.abandoned(),
            FileJob::OpenBoth(job) => job.abandoned(),
            FileJob::Bytes(job) => job.abandoned(),
            FileJob::Text(job) => job.abandoned(),
            FileJob::Change(job) => job.abandoned(),
            FileJob::Look(job) => job.abandoned(),
            FileJob::List(job) => job.abandoned(),
            FileJob::Read(job) => job.abandoned(),
            FileJob::Write(job) => job.abandoned(),
            FileJob::Seek(job) => job.abandoned(),
            FileJob::Entry(job) => job.abandoned(),
        }
    }
}

impl<H: Runtime> Carries<CallJob<Open, H>> for FileJob<H> {
    ghost use Rattle.std.specs.Prelude.{Some, None, refl};
    ghost use Rattle.blocking_files.specs.declared.job.FileJob.TheVariants.{Open, OpenBoth, Bytes, Text, Change, Look, List, Read, Write, Seek, Entry};

    ghost wrapped = { λ job. Open job };

    ghost opened = { elim [ Open job ↦ Some job | OpenBoth job ↦ None | Bytes job ↦ None | Text job ↦ None | Change job ↦ None | Look job ↦ None | List job ↦ None | Read job ↦ None | Write job ↦ None | Seek job ↦ None | Entry job ↦ None ] };

    ghost undoes = { λ job. refl };

    fn wrap(named: CallJob<Open, H>) -> FileJob<H> {
        FileJob::Open(named)
    }

    fn unwrap(self) -> Option<CallJob<Open, H>> {
        match self {
            FileJob::Open(job) => Some(job),
            _ => None,
        }
    }
}

impl<H: Runtime> Carries<CallJob<OpenBoth, H>> for FileJob<H> {
    ghost use Rattle.std.specs.Prelude.{Some, None, refl};
    ghost use Rattle.blocking_files.specs.declared.job.FileJob.TheVariants.{Open, OpenBoth, Bytes, Text, Change, Look, List, Read, Write, Seek, Entry};

    ghost wrapped = { λ job. OpenBoth job };

    ghost opened = { elim [ Open job ↦ None | OpenBoth job ↦ Some job | Bytes job ↦ None | Text job ↦ None | Change job ↦ None | Look job ↦ None | List job ↦ None | Read job ↦ None | Write job ↦ None | Seek job ↦ None | Entry job ↦ None ] };

    ghost undoes = { λ job. refl };

    fn wrap(named: CallJob<OpenBoth, H>) -> FileJob<H> {
        FileJob::OpenBoth(named)
    }

    fn unwrap(self) -> Option<CallJob<OpenBoth, H>> {
        match self {
            FileJob::OpenBoth(job) => Some(job),
            _ => None,
        }
    }
}

impl<H: Runtime> Carries<CallJob<ReadBytes, H>> for FileJob<H> {
    ghost use Rattle.std.specs.Prelude.{Some, None, refl};
    ghost use Rattle.blocking_files.specs.declared.job.FileJob.TheVariants.{Open, OpenBoth, Bytes, Text, Change, Look, List, Read, Write, Seek, Entry};

    ghost wrapped = { λ job. Bytes job };

    ghost opened = { elim [ Open job ↦ None | OpenBoth job ↦ None | Bytes job ↦ Some job | Text job ↦ None | Change job ↦ None | Look job ↦ None | List job ↦ None | Read job ↦ None | Write job ↦ None | Seek job ↦ None | Entry job ↦ None ] };

    ghost undoes = { λ job. refl };

    fn wrap(named: CallJob<ReadBytes, H>) -> FileJob<H> {
        FileJob::Bytes(named)
    }

    fn unwrap(self) -> Option<CallJob<ReadBytes, H>> {
        match self {
            FileJob::Bytes(job) => Some(job),
            _ => None,
        }
    }
}

impl<H: Runtime> Carries<CallJob<ReadText, H>> for FileJob<H> {
    ghost use Rattle.std.specs.Prelude.{Some, None, refl};
    ghost use Rattle.blocking_files.specs.declared.job.FileJob.TheVariants.{Open, OpenBoth, Bytes, Text, Change, Look, List, Read, Write, Seek, Entry};

    ghost wrapped = { λ job. Text job };

    ghost opened = { elim [ Open job ↦ None | OpenBoth job ↦ None | Bytes job ↦ None | Text job ↦ Some job | Change job ↦ None | Look job ↦ None | List job ↦ None | Read job ↦ None | Write job ↦ None | Seek job ↦ None | Entry job ↦ None ] };

    ghost undoes = { λ job. refl };

    fn wrap(named: CallJob<ReadText, H>) -> FileJob<H> {
        FileJob::Text(named)
    }

    fn unwrap(self) -> Option<CallJob<ReadText, H>> {
        match self {
            FileJob::Text(job) => Some(job),
            _ => None,
        }
    }
}

impl<H: Runtime> Carries<CallJob<Change, H>> for FileJob<H> {
    ghost use Rattle.std.specs.Prelude.{Some, None, refl};
    ghost use Rattle.blocking_files.specs.declared.job.FileJob.TheVariants.{Open, OpenBoth, Bytes, Text, Change, Look, List, Read, Write, Seek, Entry};

    ghost wrapped = { λ job. Change job };

    ghost opened = { elim [ Open job ↦ None | OpenBoth job ↦ None | Bytes job ↦ None | Text job ↦ None | Change job ↦ Some job | Look job ↦ None | List job ↦ None | Read job ↦ None | Write job ↦ None | Seek job ↦ None | Entry job ↦ None ] };

    ghost undoes = { λ job. refl };

    fn wrap(named: CallJob<Change, H>) -> FileJob<H> {
        FileJob::Change(named)
    }

    fn unwrap(self) -> Option<CallJob<Change, H>> {
        match self {
            FileJob::Change(job) => Some(job),
            _ => None,
        }
    }
}

impl<H: Runtime> Carries<CallJob<Look, H>> for FileJob<H> {
    ghost use Rattle.std.specs.Prelude.{Some, None, refl};
    ghost use Rattle.blocking_files.specs.declared.job.FileJob.TheVariants.{Open, OpenBoth, Bytes, Text, Change, Look, List, Read, Write, Seek, Entry};

    ghost wrapped = { λ job. Look job };

    ghost opened = { elim [ Open job ↦ None | OpenBoth job ↦ None | Bytes job ↦ None | Text job ↦ None | Change job ↦ None | Look job ↦ Some job | List job ↦ None | Read job ↦ None | Write job ↦ None | Seek job ↦ None | Entry job ↦ None ] };

    ghost undoes = { λ job. refl };

    fn wrap(named: CallJob<Look, H>) -> FileJob<H> {
        FileJob::Look(named)
    }

    fn unwrap(self) -> Option<CallJob<Look, H>> {
        match self {
            FileJob::Look(job) => Some(job),
            _ => None,
        }
    }
}

impl<H: Runtime> Carries<CallJob<List, H>> for FileJob<H> {
    ghost use Rattle.std.specs.Prelude.{Some, None, refl};
    ghost use Rattle.blocking_files.specs.declared.job.FileJob.TheVariants.{Open, OpenBoth, Bytes, Text, Change, Look, List, Read, Write, Seek, Entry};

    ghost wrapped = { λ job. List job };

    ghost opened = { elim [ Open job ↦ None | OpenBoth job ↦ None | Bytes job ↦ None | Text job ↦ None | Change job ↦ None | Look job ↦ None | List job ↦ Some job | Read job ↦ None | Write job ↦ None | Seek job ↦ None | Entry job ↦ None ] };

    ghost undoes = { λ job. refl };

    fn wrap(named: CallJob<List, H>) -> FileJob<H> {
        FileJob::List(named)
    }

    fn unwrap(self) -> Option<CallJob<List, H>> {
        match self {
            FileJob::List(job) => Some(job),
            _ => None,
        }
    }
}

impl<H: Runtime> Carries<ReadJob<Shared, H>> for FileJob<H> {
    ghost use Rattle.std.specs.Prelude.{Some, None, refl};
    ghost use Rattle.blocking_files.specs.declared.job.FileJob.TheVariants.{Open, OpenBoth, Bytes, Text, Change, Look, List, Read, Write, Seek, Entry};

    ghost wrapped = { λ job. Read job };

    ghost opened = { elim [ Open job ↦ None | OpenBoth job ↦ None | Bytes job ↦ None | Text job ↦ None | Change job ↦ None | Look job ↦ None | List job ↦ None | Read job ↦ Some job | Write job ↦ None | Seek job ↦ None | Entry job ↦ None ] };

    ghost undoes = { λ job. refl };

    fn wrap(named: ReadJob<Shared, H>) -> FileJob<H> {
        FileJob::Read(named)
    }

    fn unwrap(self) -> Option<ReadJob<Shared, H>> {
        match self {
            FileJob::Read(job) => Some(job),
            _ => None,
        }
    }
}

impl<H: Runtime> Carries<WriteJob<Shared, H>> for FileJob<H> {
    ghost use Rattle.std.specs.Prelude.{Some, None, refl};
    ghost use Rattle.blocking_files.specs.declared.job.FileJob.TheVariants.{Open, OpenBoth, Bytes, Text, Change, Look, List, Read, Write, Seek, Entry};

    ghost wrapped = { λ job. Write job };

    ghost opened = { elim [ Open job ↦ None | OpenBoth job ↦ None | Bytes job ↦ None | Text job ↦ None | Change job ↦ None | Look job ↦ None | List job ↦ None | Read job ↦ None | Write job ↦ Some job | Seek job ↦ None | Entry job ↦ None ] };

    ghost undoes = { λ job. refl };

    fn wrap(named: WriteJob<Shared, H>) -> FileJob<H> {
        FileJob::Write(named)
    }

    fn unwrap(self) -> Option<WriteJob<Shared, H>> {
        match self {
            FileJob::Write(job) => Some(job),
            _ => None,
        }
    }
}

impl<H: Runtime> Carries<SeekJob<Shared, H>> for FileJob<H> {
    ghost use Rattle.std.specs.Prelude.{Some, None, refl};
    ghost use Rattle.blocking_files.specs.declared.job.FileJob.TheVariants.{Open, OpenBoth, Bytes, Text, Change, Look, List, Read, Write, Seek, Entry};

    ghost wrapped = { λ job. Seek job };

    ghost opened = { elim [ Open job ↦ None | OpenBoth job ↦ None | Bytes job ↦ None | Text job ↦ None | Change job ↦ None | Look job ↦ None | List job ↦ None | Read job ↦ None | Write job ↦ None | Seek job ↦ Some job | Entry job ↦ None ] };

    ghost undoes = { λ job. refl };

    fn wrap(named: SeekJob<Shared, H>) -> FileJob<H> {
        FileJob::Seek(named)
    }

    fn unwrap(self) -> Option<SeekJob<Shared, H>> {
        match self {
            FileJob::Seek(job) => Some(job),
            _ => None,
        }
    }
}

impl<H: Runtime> Carries<ItemJob<Box<ReadDir>, io::Result<DirEntry>, H>> for FileJob<H> {
    ghost use Rattle.std.specs.Prelude.{Some, None, refl};
    ghost use Rattle.blocking_files.specs.declared.job.FileJob.TheVariants.{Open, OpenBoth, Bytes, Text, Change, Look, List, Read, Write, Seek, Entry};

    ghost wrapped = { λ job. Entry job };

    ghost opened = { elim [ Open job ↦ None | OpenBoth job ↦ None | Bytes job ↦ None | Text job ↦ None | Change job ↦ None | Look job ↦ None | List job ↦ None | Read job ↦ None | Write job ↦ None | Seek job ↦ None | Entry job ↦ Some job ] };

    ghost undoes = { λ job. refl };

    fn wrap(named: ItemJob<Box<ReadDir>, io::Result<DirEntry>, H>) -> FileJob<H> {
        FileJob::Entry(named)
    }

    fn unwrap(self) -> Option<ItemJob<Box<ReadDir>, io::Result<DirEntry>, H>> {
        match self {
            FileJob::Entry(job) => Some(job),
            _ => None,
        }
    }
}
