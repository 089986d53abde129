//! Handles without an end, and owners whose sessions are of one kind each, in a pool of any jobs that carry it.
use crate::visit::{Stop, Track};
use blocking::{
    AsyncRead, AsyncSeek, AsyncWrite, Executor, Host, ItemJob, OpJob, ReadJob, Runtime, SeekJob,
    Unblock, WriteJob,
};
use blocking_core::pool::{Carries, Job};
use blocking_core::task::CallOn;
use futures::Stream;
use futures::test::MockTask;
use std::io::{Read, Seek, SeekFrom, Write};
use std::marker::PhantomData;
use std::sync::Arc;
use std::time::{Clock, Duration};
use std::{io, thread};

/// What a test and its handle share: where that stops, and whether it is gone.
pub(crate) fn new_track<H: Runtime>(rt: H) -> io::Result<Arc<Track>> {
    Ok(Arc::new(rt.alloc(), Track::new(0, Stop::InCall))?)
}

/// A handle without an end. Each call stops until it is let go on, and then gives a byte or an item, takes all, or goes where it is asked to.
pub(crate) struct Endless<R: Clock + Copy> {
    rt: R,
    track: Arc<Track>,
}

impl<R: Clock + Copy> Endless<R> {
    pub(crate) fn new(rt: R, track: &Arc<Track>) -> io::Result<Endless<R>> {
        let track = Arc::try_clone(track)?;
        Ok(Endless { rt, track })
    }
}

impl<R: Clock + Copy> Read for Endless<R> {
    fn read(&mut self, buf: &mut [u8]) -> io::Result<usize> {
        self.track.stop();
        Ok(buf.len().min(1))
    }
}

impl<R: Clock + Copy> Write for Endless<R> {
    fn write(&mut self, buf: &[u8]) -> io::Result<usize> {
        self.track.stop();
        Ok(buf.len())
    }

    fn flush(&mut self) -> io::Result<()> {
        Ok(())
    }
}

impl<R: Clock + Copy> Iterator for Endless<R> {
    type Item = u8;

    fn next(&mut self) -> Option<u8> {
        self.track.stop();
        Some(0)
    }
}

impl<R: Clock + Copy> Seek for Endless<R> {
    fn seek(&mut self, to: SeekFrom) -> io::Result<u64> {
        self.track.stop();
        match to {
            SeekFrom::Start(place) => Ok(place),
            SeekFrom::Current(_) | SeekFrom::End(_) => Ok(0),
        }
    }
}

/// An operation that is one call of its handle.
#[derive(Drop)]
pub(crate) struct Touch;

impl<R: Clock + Copy> CallOn<Endless<R>> for Touch {
    type Out = ();

    ghost may_give = { λ _. Unit {0} };

    fn call_on(self, handle: &mut Endless<R>) {
        handle.track.stop();
    }
}

// (slowly, so that whoever is told too early sees it there)
impl<R: Clock + Copy> Drop for Endless<R> {
    fn drop(self) {
        let Endless { rt, track } = self;
        thread::sleep(&rt, Duration::from_millis(10));
        track.leave();
    }
}

/// How a session of this job begins, in a pool of any jobs that carry it: by a poll of its owner. Whether that waits.
pub(crate) trait Begins<T: Drop, H: Runtime>: Job {
    fn begin<K: Job + Carries<Self>>(owner: &mut Unblock<T, u8, K, H>, mock: &mut MockTask) -> bool;
}

impl<T: Read + Drop, H: Runtime> Begins<T, H> for ReadJob<T, H> {
    fn begin<K: Job + Carries<Self>>(
        owner: &mut Unblock<T, u8, K, H>,
        mock: &mut MockTask,
    ) -> bool {
        if owner.is_closed() {
            return false;
        }
        mock.enter(|cx| owner.poll_read(cx, &mut [0]).is_pending())
    }
}

impl<T: Write + Drop, H: Runtime> Begins<T, H> for WriteJob<T, H> {
    fn begin<K: Job + Carries<Self>>(
        owner: &mut Unblock<T, u8, K, H>,
        mock: &mut MockTask,
    ) -> bool {
        if owner.is_closed() {
            return false;
        }
        mock.enter(|cx| owner.poll_write(cx, b"abcd").is_pending())
    }
}

// (of an iterator that may always be asked)
impl<H: Host> Begins<Endless<H>, H> for ItemJob<Endless<H>, u8, H> {
    fn begin<K: Job + Carries<Self>>(
        owner: &mut Unblock<Endless<H>, u8, K, H>,
        mock: &mut MockTask,
    ) -> bool {
        if owner.is_closed() {
            return false;
        }
        mock.enter(|cx| owner.poll_next(cx).is_pending())
    }
}

impl<T: Seek + Drop, H: Runtime> Begins<T, H> for SeekJob<T, H> {
    fn begin<K: Job + Carries<Self>>(
        owner: &mut Unblock<T, u8, K, H>,
        mock: &mut MockTask,
    ) -> bool {
        if owner.is_closed() {
            return false;
        }
        mock.enter(|cx| owner.poll_seek(cx, SeekFrom::Start(0)).is_pending())
    }
}

impl<H: Host> Begins<Endless<H>, H> for OpJob<Touch, Endless<H>, H> {
    fn begin<K: Job + Carries<Self>>(
        owner: &mut Unblock<Endless<H>, u8, K, H>,
        mock: &mut MockTask,
    ) -> bool {
        if owner.is_closed() {
            return false;
        }
        let mut touching = owner.with_mut(Touch);
        mock.poll(&mut touching).is_pending()
    }
}

/// An owner whose sessions begin in one way. It promises nothing.
pub(crate) trait Starts: Drop {
    /// Polls for its session. Whether that waits.
    fn begin(&mut self, mock: &mut MockTask) -> bool;

    /// Whether a poll for the handle waits. (not of an owner that is closed)
    fn waits_idle(&mut self, mock: &MockTask) -> bool;
}

/// An owner over a pool of jobs `K`, whose sessions are those of `J`.
#[derive(Drop)]
pub(crate) struct Owned<T: Drop, J: Job, K: Job, H: Runtime> {
    owner: Unblock<T, u8, K, H>,
    job: PhantomData<J>,
}

/// One that is new.
pub(crate) fn hold<T: Drop, J: Job, K: Job, H: Runtime>(
    pool: &Executor<K, H>,
    handle: T,
) -> io::Result<Owned<T, J, K, H>> {
    Ok(Owned {
        owner: Unblock::with_capacity(4, pool.try_clone()?, handle),
        job: PhantomData,
    })
}

impl<T: Drop, J: Begins<T, H>, K: Job + Carries<J>, H: Runtime> Starts for Owned<T, J, K, H> {
    fn begin(&mut self, mock: &mut MockTask) -> bool {
        J::begin(&mut self.owner, mock)
    }

    fn waits_idle(&mut self, mock: &MockTask) -> bool {
        let owner = &mut self.owner;
        mock.enter(|cx| !owner.is_closed() && owner.poll_idle(cx).is_pending())
    }
}
