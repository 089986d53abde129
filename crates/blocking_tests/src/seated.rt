//! An owner who leaves its writer while the job has written all and waits, and its run isn't over: a job type of the test's own stays there.
use crate::endless::{Owned, Starts, hold};
use crate::visit::{Stop, Track, reaches};
use blocking::{Executor, Host, Runtime, WriteJob};
use blocking_core::pool::{Carries, Job, JobNo, JobStep};
use futures::test::MockTask;
use std::alloc::Global;
use std::hint::spin_loop;
use std::io::Write;
use std::random::RandomSource;
use std::sync::atomic::{AtomicUsize, Ordering};
use std::sync::{Arc, Mutex, Wait};
use std::test::Fail;
use std::time::{Duration, Instant};
use std::{io, thread};

// What a test and its writer share: what was flushed, how many bytes were written, and where the writer is.
#[derive(Drop)]
struct Flushed {
    bytes: Mutex<Vec<u8>>,
    written: AtomicUsize,
    track: Track,
}

// A writer that stops at its first write, and takes a byte a call. Its bytes count once they are flushed.
struct Late<R: Wait + Copy> {
    rt: R,
    flushed: Arc<Flushed>,
    kept: Vec<u8>,
    has_stopped: bool,
}

impl<R: Wait + Copy> Write for Late<R> {
    fn write(&mut self, buf: &[u8]) -> io::Result<usize> {
        if !self.has_stopped {
            self.has_stopped = true;
            self.flushed.track.stop();
        }
        let count = buf.len().min(1);
        self.kept.extend_from_slice(&buf[..count])?;
        let _ = self.flushed.written.fetch_add(count, Ordering::SeqCst);
        Ok(count)
    }

    fn flush(&mut self) -> io::Result<()> {
        self.flushed
            .bytes
            .lock(&self.rt)
            .extend_from_slice(&self.kept)?;
        self.kept.clear();
        Ok(())
    }
}

impl<R: Wait + Copy> Drop for Late<R> {
    fn drop(self) {
        let Late {
            rt: _,
            flushed,
            kept: _,
            has_stopped: _,
        } = self;
        flushed.track.leave();
    }
}

impl Flushed {
    fn new(alloc: Global) -> Flushed {
        Flushed {
            bytes: Mutex::new(Vec::new(alloc)),
            written: AtomicUsize::new(0),
            track: Track::new(0, Stop::InCall),
        }
    }

    // Whether exactly these bytes were flushed.
    fn holds<R: Wait>(&self, rt: &R, wanted: &[u8]) -> bool {
        self.bytes.lock(rt).as_slice() == wanted
    }
}

impl<R: Wait + Copy> Late<R> {
    // One that is seen here.
    fn new(rt: R, alloc: Global, flushed: &Arc<Flushed>) -> io::Result<Late<R>> {
        Ok(Late {
            rt,
            flushed: Arc::try_clone(flushed)?,
            kept: Vec::new(alloc),
            has_stopped: false,
        })
    }
}

// A job that stays for a while where it waits, before its run ends: it is seated meanwhile, and runs.
#[derive(Drop)]
struct Stays<J: Job> {
    job: J,
}

// How long it stays: for 100 milliseconds at least, since a processor takes 3 nanoseconds or more for each.
const SPINS: u32 = 40_000_000;

impl<J: Job> Carries<J> for Stays<J> {
    ghost use Rattle.std.specs.Prelude.{Some, refl};

    ghost wrapped = { λ job. record { job = job } };

    ghost opened = { λ stays. Some stays.job };

    ghost undoes = { λ job. refl };

    fn wrap(named: J) -> Stays<J> {
        Stays { job: named }
    }

    fn unwrap(self) -> Option<J> {
        Some(self.job)
    }
}

impl<J: Job> Job for Stays<J> {
    ghost may_answer = { λ _ _. Unit {0} };

    fn step(&mut self, me: JobNo) -> JobStep {
        let step = self.job.step(me);
        if let JobStep::Waiting = step {
            for _ in 0..SPINS {
                spin_loop();
            }
        }
        step
    }

    fn abandoned(&self) -> bool {
        self.job.abandoned()
    }
}

// Whether a writer flushes all whose owner leaves while its job, which has written all, is seated and runs. None where
// he was too slow for that. (a job is seated within 20 milliseconds after its last write; where it isn't, it runs all
// the same, and has to flush)
fn flushes_where_seated<S: Starts, H: Runtime + RandomSource>(
    rt: H,
    mut owner: S,
    flushed: &Flushed,
) -> io::Result<Option<bool>> {
    let mut mock = MockTask::new(&rt)?;
    let _ = owner.begin(&mut mock);
    let has_begun = flushed.track.stops();
    let start = Instant::now(&rt)?;
    flushed.track.go_on();
    if !has_begun || !reaches(&flushed.written, 4) {
        return Ok(Some(false));
    }
    thread::sleep(&rt, Duration::from_millis(20));
    drop(owner);
    let is_in_time = start.elapsed(&rt)? < Duration::from_millis(90);
    let flushes = flushed.track.goes() && flushed.holds(&rt, b"abcd");
    Ok(if is_in_time { Some(flushes) } else { None })
}

type Seated<K, H> = Owned<Late<H>, WriteJob<Late<H>, H>, K, H>;

// The same, of an owner over this pool.
fn flushes_in<K: Job + Carries<WriteJob<Late<H>, H>>, H: Runtime + RandomSource>(
    rt: H,
    pool: &Executor<K, H>,
) -> io::Result<Option<bool>> {
    let flushed = Arc::new(rt.alloc(), Flushed::new(rt.alloc()))?;
    let writer = Late::new(rt, rt.alloc(), &flushed)?;
    let owner: Seated<K, H> = hold(pool, writer)?;
    flushes_where_seated(rt, owner, &flushed)
}

// The same, over a pool of its own, of one worker.
fn flushes_in_time<H: Host>(rt: H) -> io::Result<Option<bool>> {
    match Executor::<Stays<WriteJob<Late<H>, H>>, H>::new(rt, Some("1")) {
        Ok(pool) => flushes_in(rt, &pool),
        Err(_) => Ok(None),
    }
}

// How often is tried to be in time, which a machine with much else to do may not give.
const TRIES: u32 = 20;

#[test]
fn writer_that_is_seated_and_runs_flushes_all(rt: HostRuntime) -> Result<(), Fail> {
    for _ in 0..TRIES {
        if let Some(flushes) = flushes_in_time(rt)? {
            assert!(rt; flushes);
            return Ok(());
        }
    }
    panic!(rt; "the machine is too slow")
}
