//! The job type of a script's pool: calls, sessions of all kinds over one type of handle, and jobs that wait.
use crate::call::Scripted;
use crate::handle::{Handle, Jump};
use crate::waiter::Waiter;
use blocking::{CallJob, ItemJob, OpJob, ReadJob, Runtime, SeekJob, WriteJob};
use blocking_core::pool::{Carries, Job, JobNo, JobStep};

pub(crate) enum Work<H: Runtime + Drop> {
    Call(CallJob<Scripted<H>, H>),
    Read(ReadJob<Handle, H>),
    Write(WriteJob<Handle, H>),
    Stream(ItemJob<Handle, u64, H>),
    Seek(SeekJob<Handle, H>),
    Operate(OpJob<Jump, Handle, H>),
    Wait(Waiter),
}

/// A job type that carries each of them.
pub(crate) trait Carrier<H: Runtime + Drop>: Job
    + Carries<CallJob<Scripted<H>, H>>
    + Carries<ReadJob<Handle, H>>
    + Carries<WriteJob<Handle, H>>
    + Carries<ItemJob<Handle, u64, H>>
    + Carries<SeekJob<Handle, H>>
    + Carries<OpJob<Jump, Handle, H>>
    + Carries<Waiter> {}

impl<H: Runtime + Drop> Carrier<H> for Work<H> {}

impl<H: Runtime + Drop> Drop for Work<H> {
    fn drop(self) {
        match self {
            Work::Call(job) => drop(job),
            Work::Read(job) => drop(job),
            Work::Write(job) => drop(job),
            Work::Stream(job) => drop(job),
            Work::Seek(job) => drop(job),
            Work::Operate(job) => drop(job),
            Work::Wait(job) => drop(job),
        }
    }
}

impl<H: Runtime + Drop> Job for Work<H> {
    ghost may_answer = { λ _ _. Unit {0} };

    fn step(&mut self, me: JobNo) -> JobStep {
        match self {
            Work::Call(job) => job.step(me),
            Work::Read(job) => job.step(me),
            Work::Write(job) => job.step(me),
            Work::Stream(job) => job.step(me),
            Work::Seek(job) => job.step(me),
            Work::Operate(job) => job.step(me),
            Work::Wait(job) => job.step(me),
        }
    }

    fn abandoned(&self) -> bool {
        match self {
            Work::Call(job) => job.abandoned(),
            Work::Read(job) => job.abandoned(),
            Work::Write(job) => job.abandoned(),
            Work::Stream(job) => job.abandoned(),
            Work::Seek(job) => job.abandoned(),
            Work::Operate(job) => job.abandoned(),
            Work::Wait(job) => job.abandoned(),
        }
    }
}

impl<H: Runtime + Drop> Carries<CallJob<Scripted<H>, H>> for Work<H> {
    ghost use Rattle.std.specs.Prelude.{Some, None, refl};
    ghost use Rattle.blk_play.specs.declared.work.Work.TheVariants.{Call, Read, Write, Stream, Seek, Operate, Wait};

    ghost wrapped = { λ job. Call job };

    ghost opened = { elim [ Call job ↦ Some job | Read job ↦ None | Write job ↦ None | Stream job ↦ None | Seek job ↦ None | Operate job ↦ None | Wait job ↦ None ] };

    ghost undoes = { λ job. refl };

    fn wrap(named: CallJob<Scripted<H>, H>) -> Work<H> {
        Work::Call(named)
    }

    fn unwrap(self) -> Option<CallJob<Scripted<H>, H>> {
        match self {
            Work::Call(job) => Some(job),
            Work::Read(_)
            | Work::Write(_)
            | Work::Stream(_)
            | Work::Seek(_)
            | Work::Operate(_)
            | Work::Wait(_) => None,
        }
    }
}

impl<H: Runtime + Drop> Carries<ReadJob<Handle, H>> for Work<H> {
    ghost use Rattle.std.specs.Prelude.{Some, None, refl};
    ghost use Rattle.blk_play.specs.declared.work.Work.TheVariants.{Call, Read, Write, Stream, Seek, Operate, Wait};

    ghost wrapped = { λ job. Read job };

    ghost opened = { elim [ Call job ↦ None | Read job ↦ Some job | Write job ↦ None | Stream job ↦ None | Seek job ↦ None | Operate job ↦ None | Wait job ↦ None ] };

    ghost undoes = { λ job. refl };

    fn wrap(named: ReadJob<Handle, H>) -> Work<H> {
        Work::Read(named)
    }

    fn unwrap(self) -> Option<ReadJob<Handle, H>> {
        match self {
            Work::Read(job) => Some(job),
            Work::Call(_)
            | Work::Write(_)
            | Work::Stream(_)
            | Work::Seek(_)
            | Work::Operate(_)
            | Work::Wait(_) => None,
        }
    }
}

impl<H: Runtime + Drop> Carries<WriteJob<Handle, H>> for Work<H> {
    ghost use Rattle.std.specs.Prelude.{Some, None, refl};
    ghost use Rattle.blk_play.specs.declared.work.Work.TheVariants.{Call, Read, Write, Stream, Seek, Operate, Wait};

    ghost wrapped = { λ job. Write job };

    ghost opened = { elim [ Call job ↦ None | Read job ↦ None | Write job ↦ Some job | Stream job ↦ None | Seek job ↦ None | Operate job ↦ None | Wait job ↦ None ] };

    ghost undoes = { λ job. refl };

    fn wrap(named: WriteJob<Handle, H>) -> Work<H> {
        Work::Write(named)
    }

    fn unwrap(self) -> Option<WriteJob<Handle, H>> {
        match self {
            Work::Write(job) => Some(job),
            Work::Call(_)
            | Work::Read(_)
            | Work::Stream(_)
            | Work::Seek(_)
            | Work::Operate(_)
            | Work::Wait(_) => None,
        }
    }
}

impl<H: Runtime + Drop> Carries<ItemJob<Handle, u64, H>> for Work<H> {
    ghost use Rattle.std.specs.Prelude.{Some, None, refl};
    ghost use Rattle.blk_play.specs.declared.work.Work.TheVariants.{Call, Read, Write, Stream, Seek, Operate, Wait};

    ghost wrapped = { λ job. Stream job };

    ghost opened = { elim [ Call job ↦ None | Read job ↦ None | Write job ↦ None | Stream job ↦ Some job | Seek job ↦ None | Operate job ↦ None | Wait job ↦ None ] };

    ghost undoes = { λ job. refl };

    fn wrap(named: ItemJob<Handle, u64, H>) -> Work<H> {
        Work::Stream(named)
    }

    fn unwrap(self) -> Option<ItemJob<Handle, u64, H>> {
        match self {
            Work::Stream(job) => Some(job),
            Work::Call(_)
            | Work::Read(_)
            | Work::Write(_)
            | Work::Seek(_)
            | Work::Operate(_)
            | Work::Wait(_) => None,
        }
    }
}

impl<H: Runtime + Drop> Carries<SeekJob<Handle, H>> for Work<H> {
    ghost use Rattle.std.specs.Prelude.{Some, None, refl};
    ghost use Rattle.blk_play.specs.declared.work.Work.TheVariants.{Call, Read, Write, Stream, Seek, Operate, Wait};

    ghost wrapped = { λ job. Seek job };

    ghost opened = { elim [ Call job ↦ None | Read job ↦ None | Write job ↦ None | Stream job ↦ None | Seek job ↦ Some job | Operate job ↦ None | Wait job ↦ None ] };

    ghost undoes = { λ job. refl };

    fn wrap(named: SeekJob<Handle, H>) -> Work<H> {
        Work::Seek(named)
    }

    fn unwrap(self) -> Option<SeekJob<Handle, H>> {
        match self {
            Work::Seek(job) => Some(job),
            Work::Call(_)
            | Work::Read(_)
            | Work::Write(_)
            | Work::Stream(_)
            | Work::Operate(_)
            | Work::Wait(_) => None,
        }
    }
}

impl<H: Runtime + Drop> Carries<OpJob<Jump, Handle, H>> for Work<H> {
    ghost use Rattle.std.specs.Prelude.{Some, None, refl};
    ghost use Rattle.blk_play.specs.declared.work.Work.TheVariants.{Call, Read, Write, Stream, Seek, Operate, Wait};

    ghost wrapped = { λ job. Operate job };

    ghost opened = { elim [ Call job ↦ None | Read job ↦ None | Write job ↦ None | Stream job ↦ None | Seek job ↦ None | Operate job ↦ Some job | Wait job ↦ None ] };

    ghost undoes = { λ job. refl };

    fn wrap(named: OpJob<Jump, Handle, H>) -> Work<H> {
        Work::Operate(named)
    }

    fn unwrap(self) -> Option<OpJob<Jump, Handle, H>> {
        match self {
            Work::Operate(job) => Some(job),
            Work::Call(_)
            | Work::Read(_)
            | Work::Write(_)
            | Work::Stream(_)
            | Work::Seek(_)
            | Work::Wait(_) => None,
        }
    }
}

impl<H: Runtime + Drop> Carries<Waiter> for Work<H> {
    ghost use Rattle.std.specs.Prelude.{Some, None, refl};
    ghost use Rattle.blk_play.specs.declared.work.Work.TheVariants.{Call, Read, Write, Stream, Seek, Operate, Wait};

    ghost wrapped = { λ job. Wait job };

    ghost opened = { elim [ Call job ↦ None | Read job ↦ None | Write job ↦ None | Stream job ↦ None | Seek job ↦ None | Operate job ↦ None | Wait job ↦ Some job ] };

    ghost undoes = { λ job. refl };

    fn wrap(named: Waiter) -> Work<H> {
        Work::Wait(named)
    }

    fn unwrap(self) -> Option<Waiter> {
        match self {
            Work::Wait(job) => Some(job),
            Work::Call(_)
            | Work::Read(_)
            | Work::Write(_)
            | Work::Stream(_)
            | Work::Seek(_)
            | Work::Operate(_) => None,
        }
    }
}
