//! The job that moves a handle to a position.
ghost use Rattle.std.specs.Prelude.{◌≡◌, None, Some};
ghost use Rattle.blocking_core.specs.declared.job.seek.SeekAction.TheVariants.{Seek as MakeSeek, Finish, Deliver};
ghost use Rattle.blocking_core.specs.Seeks.{new_seek, seek_next};
ghost use Rattle.blocking_unblock_jobs.specs.SeekJobs.{seek_from};

use crate::share::{Given, SessionShare, Sought};
use blocking_core::io::Position;
use blocking_core::job::{SeekAction, SeekAnswer, SeekCore};
use blocking_core::pool::{Carries, Job, JobNo, JobStep};
use blocking_sync::OwnerWaker;
use std::io::{Seek, SeekFrom};
use std::marker::Model;
use std::sync::{Arc, Wait};

/// The job that moves a handle to a position, once. Then it gives the handle back, and where that is now or its fault.
///
/// One that is dropped before it is done drops the handle and gives its slot up, with no lock held. That wakes an owner who waits there for
/// the handle. A pool drops a job only once its owner is gone.
///
/// It is the job type of an executor that moves one kind of handle:
///
/// ```rust
/// let executor: Executor<SeekJob<File, H>, H> = Executor::new(rt, Some("1"))?;
/// let mut file: Unblock<File, (), SeekJob<File, H>, H> = Unblock::new(executor, file);
/// let place = block_on(&rt, file.seek(SeekFrom::Start(2)))??;
/// ```
pub struct SeekJob<T: Drop, H: Wait + Copy> {
    core: SeekCore,
    // The handle, until it is given back.
    handle: Option<T>,
    to: Position,
    // What came of the seek, once it is made and until it is given back.
    sought: Option<Sought>,
    // That the handle was given back.
    given: Option<Given<T>>,
    // The waker that was taken out of the owner's seat, and has to be called.
    waker: OwnerWaker,
    share: Arc<SessionShare<T, Sought>>,
    rt: H,
}

impl<T: Drop, H: Wait + Copy> Model for SeekJob<T, H> {
    ghost use Rattle.blocking_unblock_jobs.specs.SeekJobs.{SeekSeen, seek_code, Fits};
    ghost use Rattle.blocking_unblock_jobs.specs.Works.{IsKept};

    ghost Value = { SeekSeen T };

    ghost coded = { seek_code T.code };

    ghost view = { λ j. record { core = j.core; handle = j.handle; to = j.to; sought = j.sought } };

    ghost invariant = { λ j. Fits j.core.next j.sought j.handle × IsKept j.handle j.given };
}

// A position, as a handle of the system is asked for it.
fn seek_from(position: Position) -> SeekFrom
    ensures { result ≡ seek_from position }
{
    match position {
        Position::Start(place) => SeekFrom::Start(place),
        Position::Current(offset) => SeekFrom::Current(offset),
        Position::End(offset) => SeekFrom::End(offset),
    }
}

impl<T: Drop, H: Wait + Copy> SeekJob<T, H> {
    ghost use Rattle.blocking_unblock_jobs.specs.SeekJobs.{SeekSeen};

    /// The job that seeks `to` a position. The handle comes back by the share, and with it where it is then.
    pub fn new(rt: H, handle: T, to: Position, share: Arc<SessionShare<T, Sought>>) -> SeekJob<T, H>
        ensures { result ≡ record { core = new_seek; handle = Some handle; to = to; sought = None } }
    {
        SeekJob {
            core: SeekCore::new(),
            handle: Some(handle),
            to,
            sought: None,
            given: None,
            waker: None,
            share,
            rt,
        }
    }

    /// The handle, if it wasn't given back. The slot stays as it is.
    pub fn into_handle(self) -> Option<T>
        ensures { result ≡ self.handle }
    {
        let SeekJob {
            core: _,
            handle,
            to: _,
            sought: _,
            given: _,
            waker: _,
            share: _,
            rt: _,
        } = self;
        handle
    }
}

impl<T: Seek + Drop, H: Wait + Copy> SeekJob<T, H> {
    ghost use Rattle.blocking_unblock_jobs.specs.SeekJobs.{IsSteppedBy};

    fn seek(&mut self) -> JobStep
        requires { seek_next self.old.core ≡ MakeSeek }
        ensures { IsSteppedBy T.stream_position T.stream_bytes MakeSeek self.old self.new result }
    {
        let Some(handle) = &mut self.handle else {
            unreachable!()
        };
        let sought = handle.seek(seek_from(self.to));
        match sought {
            Ok(_) => self.core.answer(SeekAnswer::Sought),
            Err(_) => self.core.answer(SeekAnswer::Failed),
        }
        self.sought = Some(sought);
        JobStep::Again
    }

    fn finish(&mut self) -> JobStep
        requires { seek_next self.old.core ≡ Finish }
        ensures { IsSteppedBy T.stream_position T.stream_bytes Finish self.old self.new result }
    {
        let Some(handle) = self.handle.take() else {
            unreachable!()
        };
        let Some(sought) = self.sought.take() else {
            unreachable!()
        };
        let (wake, given) = self.share.give_back(&self.rt, handle, sought);
        self.given = Some(given);
        let woke = wake.is_some();
        self.waker = wake.flatten();
        self.core.answer(SeekAnswer::Finished { woke });
        if woke { JobStep::Again } else { JobStep::Done }
    }

    fn deliver(&mut self) -> JobStep
        requires { seek_next self.old.core ≡ Deliver }
        ensures { IsSteppedBy T.stream_position T.stream_bytes Deliver self.old self.new result }
    {
        if let Some(waker) = self.waker.take() {
            // meeting: Call
            waker.wake();
        }
        self.core.answer(SeekAnswer::Delivered);
        match self.core.next() {
            SeekAction::Done => JobStep::Done,
            _ => JobStep::Again,
        }
    }
}

impl<T: Drop, H: Wait + Copy> Drop for SeekJob<T, H> {
    fn drop(self) {
        let SeekJob {
            core,
            handle,
            to: _,
            sought: _,
            given: _,
            waker,
            share,
            rt,
        } = self;
        // The handle is gone before the owner is told. (a waker that is dropped wakes)
        drop(handle);
        // meeting: Call
        drop(waker);
        if let SeekAction::Done = core.next() {
            return;
        }
        if let Some(Some(waker)) = share.give_up(&rt) {
            // meeting: Call
            waker.wake();
        }
    }
}

// A pool of one kind of handle that seeks has its job as its job type.
impl<T: Drop, H: Wait + Copy> Carries<SeekJob<T, H>> for SeekJob<T, H> {
    ghost use Rattle.std.specs.Prelude.{Some, refl};

    ghost wrapped = { λ job. job };

    ghost opened = { λ job. Some job };

    ghost undoes = { λ job. refl };

    fn wrap(named: SeekJob<T, H>) -> SeekJob<T, H> {
        named
    }

    fn unwrap(self) -> Option<SeekJob<T, H>> {
        Some(self)
    }
}

impl<T: Seek + Drop, H: Wait + Copy> Job for SeekJob<T, H> {
    ghost use Rattle.blocking_unblock_jobs.specs.SeekJobs.{IsStepped};

    // (another thread may set the mark at any time)
    ghost may_answer = { λ _ _. Unit {0} };

    fn step(&mut self, _me: JobNo) -> JobStep
        ensures { IsStepped T.stream_position T.stream_bytes self.old self.new result }
    {
        match self.core.next() {
            SeekAction::Seek => self.seek(),
            SeekAction::Finish => self.finish(),
            SeekAction::Deliver => self.deliver(),
            SeekAction::Done => JobStep::Done,
        }
    }

    fn abandoned(&self) -> bool {
        self.share.is_marked()
    }
}
