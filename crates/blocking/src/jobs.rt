//! A job type for any program: a variant for each kind of job, over the program's own types.
ghost use Rattle.blocking.specs.JobSteps.{StepsAs};

use blocking_core::pool::{Carries, Job, JobNo, JobStep};
use blocking_core::task::{Call, CallOn};
use blocking_executor::{CallJob, Runtime};
use blocking_unblock::Unblock;
use blocking_unblock_jobs::{ItemJob, OpJob, ReadJob, SeekJob, WriteJob};
use std::io::{self, Read, Seek, SeekFrom, Write};

/// A reader that is lent to an executor whose jobs are of type `J`.
///
/// ```rust
/// let executor: Executor<ReadJob<File, H>, H> = Executor::new(rt, Some("1"))?;
/// let mut file: Reader<File, H> = Unblock::new(executor, file);
/// let count = block_on(&rt, file.read(&mut piece))??;
/// ```
pub type Reader<T, H, J = ReadJob<T, H>> = Unblock<T, (), J, H>;

/// A writer that is lent to an executor whose jobs are of type `J`.
///
/// ```rust
/// let executor: Executor<WriteJob<File, H>, H> = Executor::new(rt, Some("1"))?;
/// let mut file: Writer<File, H> = Unblock::new(executor, file);
/// block_on(&rt, file.write_all(line))??;
/// block_on(&rt, file.flush())??;
/// ```
pub type Writer<T, H, J = WriteJob<T, H>> = Unblock<T, (), J, H>;

/// An iterator of `I` that is lent to an executor whose jobs are of type `J`.
///
/// ```rust
/// let executor: Executor<ItemJob<Range<u32>, u32, H>, H> = Executor::new(rt, Some("1"))?;
/// let mut numbers: Items<Range<u32>, u32, H> = Unblock::with_capacity(4, executor, 5..8);
/// let first = block_on(&rt, numbers.next())?.transpose()?;
/// ```
pub type Items<D, I, H, J = ItemJob<D, I, H>> = Unblock<D, I, J, H>;

/// What stands for a kind of job that an executor isn't to run: a call that does nothing, or a handle with nothing behind it.
///
/// Read, it is at its end; what is written to it is gone; it has no items; and a seek ends at 0.
///
/// Of an executor whose files are read and sought, and not written:
///
/// ```rust
/// type Access<H> = Jobs<H, Unused, File, Unused, Unused, File>;
/// ```
#[derive(Drop)]
pub struct Unused;

impl Call for Unused {
    type Out = ();

    ghost may_give = { λ _. Unit {0} };

    fn call(self) {}
}

impl<T> CallOn<T> for Unused {
    type Out = ();

    ghost may_give = { λ _. Unit {0} };

    fn call_on(self, _io: &mut T) {}
}

impl Read for Unused {
    fn read(&mut self, _buf: &mut [u8]) -> io::Result<usize> {
        Ok(0)
    }
}

impl Write for Unused {
    fn write(&mut self, bytes: &[u8]) -> io::Result<usize> {
        Ok(bytes.len())
    }

    fn flush(&mut self) -> io::Result<()> {
        Ok(())
    }
}

impl Seek for Unused {
    fn seek(&mut self, _to: SeekFrom) -> io::Result<u64> {
        Ok(0)
    }
}

impl Iterator for Unused {
    type Item = ();

    fn next(&mut self) -> Option<()> {
        None
    }
}

/// The jobs of an executor: calls of type `F`, sessions of readers `R`, writers `W`, iterators `D` and seekers `S`, and operations `O` on
/// handles `T`. What isn't named has no jobs, and [`Unused`] stands for it before what is named.
///
/// Calls of several types are one enum of the program's own that is a [`Call`], and so are operations.
///
/// ```rust
/// type Work<H> = Jobs<H, Double, File, File>;
///
/// let executor: Executor<Work<H>, H> = Executor::new(rt, None)?;
/// let reader: Reader<File, H, Work<H>> = Unblock::new(executor.try_clone()?, file);
/// let doubled = block_on(&rt, unblock(&executor, Double(21))?)?;
/// ```
pub enum Jobs<
    H: Runtime,
    F: Call<Out: Drop> + Drop = Unused,
    R: Drop = Unused,
    W: Drop = Unused,
    D: Iterator<Item: Drop> + Drop = Unused,
    S: Drop = Unused,
    O: CallOn<T, Out: Drop> + Drop = Unused,
    T: Drop = Unused,
> {
    /// The job of a call, of the first type behind the runtime's.
    Call(CallJob<F, H>),
    /// That of a session that reads, of the second.
    Read(ReadJob<R, H>),
    /// That of a session that writes, of the third.
    Write(WriteJob<W, H>),
    /// That of a session of an iterator's items, of the fourth.
    Item(ItemJob<D, D::Item, H>),
    /// That of a seek, of the fifth.
    Seek(SeekJob<S, H>),
    /// That of an operation, of the sixth, on a handle of the seventh.
    Op(OpJob<O, T, H>),
}

// (as a derive has it; what a program drops of it is proved here once, and not in each program)
impl<
    H: Runtime,
    F: Call<Out: Drop> + Drop,
    R: Drop,
    W: Drop,
    D: Iterator<Item: Drop> + Drop,
    S: Drop,
    O: CallOn<T, Out: Drop> + Drop,
    T: Drop,
> Drop for Jobs<H, F, R, W, D, S, O, T> {
    fn drop(self) {
        match self {
            Jobs::Call(job) => drop(job),
            Jobs::Read(job) => drop(job),
            Jobs::Write(job) => drop(job),
            Jobs::Item(job) => drop(job),
            Jobs::Seek(job) => drop(job),
            Jobs::Op(job) => drop(job),
        }
    }
}

impl<
    H: Runtime,
    F: Call<Out: Drop> + Drop,
    R: Read + Drop,
    W: Write + Drop,
    D: Iterator<Item: Drop> + Drop,
    S: Seek + Drop,
    O: CallOn<T, Out: Drop> + Drop,
    T: Drop,
> Job for Jobs<H, F, R, W, D, S, O, T> {
    // Another thread may set a job's mark at any time.
    ghost may_answer = { λ _ _. Unit {0} };

    fn step(&mut self, me: JobNo) -> JobStep
        ensures { StepsAs R.remaining W.contents D.next_gives S.stream_position S.stream_bytes O.may_give self.old self.new result }
    {
        match self {
            Jobs::Call(job) => job.step(me),
            Jobs::Read(job) => job.step(me),
            Jobs::Write(job) => job.step(me),
            Jobs::Item(job) => job.step(me),
            Jobs::Seek(job) => job.step(me),
            Jobs::Op(job) => job.step(me),
        }
    }

    fn abandoned(&self) -> bool {
        match self {
            Jobs::Call(job) => job.abandoned(),
            Jobs::Read(job) => job.abandoned(),
            Jobs::Write(job) => job.abandoned(),
            Jobs::Item(job) => job.abandoned(),
            Jobs::Seek(job) => job.abandoned(),
            Jobs::Op(job) => job.abandoned(),
        }
    }
}

impl<
    H: Runtime,
    F: Call<Out: Drop> + Drop,
    R: Drop,
    W: Drop,
    D: Iterator<Item: Drop> + Drop,
    S: Drop,
    O: CallOn<T, Out: Drop> + Drop,
    T: Drop,
> Carries<CallJob<F, H>> for Jobs<H, F, R, W, D, S, O, T> {
    ghost use Rattle.std.specs.Prelude.{Some, None, refl};
    ghost use Rattle.blocking.specs.declared.jobs.Jobs.TheVariants.{Call, Read, Write, Item, Seek, Op};

    ghost wrapped = { λ job. Call job };

    ghost opened = { elim [ Call job ↦ Some job | Read job ↦ None | Write job ↦ None | Item job ↦ None | Seek job ↦ None | Op job ↦ None ] };

    ghost undoes = { λ job. refl };

    fn wrap(named: CallJob<F, H>) -> Jobs<H, F, R, W, D, S, O, T> {
        Jobs::Call(named)
    }

    fn unwrap(self) -> Option<CallJob<F, H>> {
        match self {
            Jobs::Call(job) => Some(job),
            Jobs::Read(_) | Jobs::Write(_) | Jobs::Item(_) | Jobs::Seek(_) | Jobs::Op(_) => None,
        }
    }
}

impl<
    H: Runtime,
    F: Call<Out: Drop> + Drop,
    R: Drop,
    W: Drop,
    D: Iterator<Item: Drop> + Drop,
    S: Drop,
    O: CallOn<T, Out: Drop> + Drop,
    T: Drop,
> Carries<ReadJob<R, H>> for Jobs<H, F, R, W, D, S, O, T> {
    ghost use Rattle.std.specs.Prelude.{Some, None, refl};
    ghost use Rattle.blocking.specs.declared.jobs.Jobs.TheVariants.{Call, Read, Write, Item, Seek, Op};

    ghost wrapped = { λ job. Read job };

    ghost opened = { elim [ Call job ↦ None | Read job ↦ Some job | Write job ↦ None | Item job ↦ None | Seek job ↦ None | Op job ↦ None ] };

    ghost undoes = { λ job. refl };

    fn wrap(named: ReadJob<R, H>) -> Jobs<H, F, R, W, D, S, O, T> {
        Jobs::Read(named)
    }

    fn unwrap(self) -> Option<ReadJob<R, H>> {
        match self {
            Jobs::Read(job) => Some(job),
            Jobs::Call(_) | Jobs::Write(_) | Jobs::Item(_) | Jobs::Seek(_) | Jobs::Op(_) => None,
        }
    }
}

impl<
    H: Runtime,
    F: Call<Out: Drop> + Drop,
    R: Drop,
    W: Drop,
    D: Iterator<Item: Drop> + Drop,
    S: Drop,
    O: CallOn<T, Out: Drop> + Drop,
    T: Drop,
> Carries<WriteJob<W, H>> for Jobs<H, F, R, W, D, S, O, T> {
    ghost use Rattle.std.specs.Prelude.{Some, None, refl};
    ghost use Rattle.blocking.specs.declared.jobs.Jobs.TheVariants.{Call, Read, Write, Item, Seek, Op};

    ghost wrapped = { λ job. Write job };

    ghost opened = { elim [ Call job ↦ None | Read job ↦ None | Write job ↦ Some job | Item job ↦ None | Seek job ↦ None | Op job ↦ None ] };

    ghost undoes = { λ job. refl };

    fn wrap(named: WriteJob<W, H>) -> Jobs<H, F, R, W, D, S, O, T> {
        Jobs::Write(named)
    }

    fn unwrap(self) -> Option<WriteJob<W, H>> {
        match self {
            Jobs::Write(job) => Some(job),
            Jobs::Call(_) | Jobs::Read(_) | Jobs::Item(_) | Jobs::Seek(_) | Jobs::Op(_) => None,
        }
    }
}

impl<
    H: Runtime,
    F: Call<Out: Drop> + Drop,
    R: Drop,
    W: Drop,
    D: Iterator<Item: Drop> + Drop,
    S: Drop,
    O: CallOn<T, Out: Drop> + Drop,
    T: Drop,
> Carries<ItemJob<D, D::Item, H>> for Jobs<H, F, R, W, D, S, O, T> {
    ghost use Rattle.std.specs.Prelude.{Some, None, refl};
    ghost use Rattle.blocking.specs.declared.jobs.Jobs.TheVariants.{Call, Read, Write, Item, Seek, Op};

    ghost wrapped = { λ job. Item job };

    ghost opened = { elim [ Call job ↦ None | Read job ↦ None | Write job ↦ None | Item job ↦ Some job | Seek job ↦ None | Op job ↦ None ] };

    ghost undoes = { λ job. refl };

    fn wrap(named: ItemJob<D, D::Item, H>) -> Jobs<H, F, R, W, D, S, O, T> {
        Jobs::Item(named)
    }

    fn unwrap(self) -> Option<ItemJob<D, D::Item, H>> {
        match self {
            Jobs::Item(job) => Some(job),
            Jobs::Call(_) | Jobs::Read(_) | Jobs::Write(_) | Jobs::Seek(_) | Jobs::Op(_) => None,
        }
    }
}

impl<
    H: Runtime,
    F: Call<Out: Drop> + Drop,
    R: Drop,
    W: Drop,
    D: Iterator<Item: Drop> + Drop,
    S: Drop,
    O: CallOn<T, Out: Drop> + Drop,
    T: Drop,
> Carries<SeekJob<S, H>> for Jobs<H, F, R, W, D, S, O, T> {
    ghost use Rattle.std.specs.Prelude.{Some, None, refl};
    ghost use Rattle.blocking.specs.declared.jobs.Jobs.TheVariants.{Call, Read, Write, Item, Seek, Op};

    ghost wrapped = { λ job. Seek job };

    ghost opened = { elim [ Call job ↦ None | Read job ↦ None | Write job ↦ None | Item job ↦ None | Seek job ↦ Some job | Op job ↦ None ] };

    ghost undoes = { λ job. refl };

    fn wrap(named: SeekJob<S, H>) -> Jobs<H, F, R, W, D, S, O, T> {
        Jobs::Seek(named)
    }

    fn unwrap(self) -> Option<SeekJob<S, H>> {
        match self {
            Jobs::Seek(job) => Some(job),
            Jobs::Call(_) | Jobs::Read(_) | Jobs::Write(_) | Jobs::Item(_) | Jobs::Op(_) => None,
        }
    }
}

impl<
    H: Runtime,
    F: Call<Out: Drop> + Drop,
    R: Drop,
    W: Drop,
    D: Iterator<Item: Drop> + Drop,
    S: Drop,
    O: CallOn<T, Out: Drop> + Drop,
    T: Drop,
> Carries<OpJob<O, T, H>> for Jobs<H, F, R, W, D, S, O, T> {
    ghost use Rattle.std.specs.Prelude.{Some, None, refl};
    ghost use Rattle.blocking.specs.declared.jobs.Jobs.TheVariants.{Call, Read, Write, Item, Seek, Op};

    ghost wrapped = { λ job. Op job };

    ghost opened = { elim [ Call job ↦ None | Read job ↦ None | Write job ↦ None | Item job ↦ None | Seek job ↦ None | Op job ↦ Some job ] };

    ghost undoes = { λ job. refl };

    fn wrap(named: OpJob<O, T, H>) -> Jobs<H, F, R, W, D, S, O, T> {
        Jobs::Op(named)
    }

    fn unwrap(self) -> Option<OpJob<O, T, H>> {
        match self {
            Jobs::Op(job) => Some(job),
            Jobs::Call(_) | Jobs::Read(_) | Jobs::Write(_) | Jobs::Item(_) | Jobs::Seek(_) => None,
        }
    }
}
