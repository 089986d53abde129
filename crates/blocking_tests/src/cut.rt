//! Sessions whose job is dropped beside its owner, which no pool does by itself: a job type of the test's own lets its job go.
use crate::endless::{Begins, Endless, Owned, Starts, Touch, hold, new_track};
use crate::scene::wakes;
use crate::visit::{LOOKS, Track};
use blocking::{
    AsyncWrite, Executor, Host, ItemJob, OpJob, ReadJob, Runtime, SeekJob, Unblock, WriteJob,
};
use blocking_core::pool::{Carries, Job, JobNo, JobStep};
use futures::task::Poll;
use futures::test::MockTask;
use std::marker::PhantomData;
use std::random::RandomSource;
use std::test::Fail;
use std::{io, thread};

// After how many steps a job is dropped. One at whose end it waits isn't counted, since it looks again once it is woken.
trait Steps {
    const STEPS: u32;
}

// Once the handle was called: a job of a seek begins with that.
#[derive(Drop)]
struct One;

impl Steps for One {
    const STEPS: u32 = 1;
}

// One that reads or writes, or gives items, has found room or bytes before. An operation's result was put.
#[derive(Drop)]
struct Two;

impl Steps for Two {
    const STEPS: u32 = 2;
}

// A job that is dropped then.
#[derive(Drop)]
struct Cut<J: Job, S: Steps> {
    job: Option<J>,
    taken: u32,
    steps: PhantomData<S>,
}

impl<J: Job, S: Steps> Carries<J> for Cut<J, S> {
    ghost use Rattle.std.specs.Prelude.{Some, refl};

    ghost wrapped = { λ job. record { job = Some job; taken = 0; steps = record {} } };

    ghost opened = { λ cut. cut.job };

    ghost undoes = { λ job. refl };

    fn wrap(named: J) -> Cut<J, S> {
        Cut {
            job: Some(named),
            taken: 0,
            steps: PhantomData,
        }
    }

    fn unwrap(self) -> Option<J> {
        self.job
    }
}

impl<J: Job, S: Steps> Job for Cut<J, S> {
    ghost may_answer = { λ _ _. Unit {0} };

    fn step(&mut self, me: JobNo) -> JobStep {
        if self.taken >= S::STEPS {
            self.job = None;
            return JobStep::Done;
        }
        let Some(job) = &mut self.job else {
            return JobStep::Done;
        };
        let step = job.step(me);
        if let JobStep::Again = step {
            self.taken += 1;
        }
        step
    }

    fn abandoned(&self) -> bool {
        match &self.job {
            Some(job) => job.abandoned(),
            None => false,
        }
    }
}

// Whether there comes to be one worker at most, who idles, and no job that is queued. (none is left of one that waited for half a second)
fn rests<J: Job, H: Runtime>(pool: &Executor<J, H>) -> bool {
    for _ in 0..LOOKS {
        let counts = pool.counts();
        if counts.queued == 0 && counts.idle == counts.workers && counts.workers <= 1 {
            return true;
        }
        thread::yield_now();
    }
    false
}

// Whether an owner waits for its handle, whose job is dropped once that was called, and is woken then.
fn wakes_for_handle<O: Starts>(owner: &mut O, mock: &mut MockTask, track: &Track) -> bool {
    if !owner.begin(mock) || !track.stops() {
        return false;
    }
    let waits = owner.waits_idle(mock);
    track.go_on();
    waits && track.goes() && wakes(mock)
}

type CutReader<H> = Cut<ReadJob<Endless<H>, H>, Two>;

type Reading<K, H> = Owned<Endless<H>, ReadJob<Endless<H>, H>, K, H>;

// The same of a reader's owner, and whether the worker goes on.
fn reader_wakes<K: Job + Carries<ReadJob<Endless<H>, H>>, H: Runtime + RandomSource>(
    rt: H,
    pool: &Executor<K, H>,
) -> io::Result<bool> {
    let track = new_track(rt)?;
    let mut mock = MockTask::new(&rt)?;
    let mut owner: Reading<K, H> = hold(pool, Endless::new(rt, &track)?)?;
    Ok(wakes_for_handle(&mut owner, &mut mock, &track) && rests(pool))
}

fn cut_reader_wakes<H: Host>(rt: H) -> io::Result<bool> {
    match Executor::<CutReader<H>, H>::new(rt, Some("1")) {
        Ok(pool) => reader_wakes(rt, &pool),
        Err(_) => Err(io::Error::from(io::ErrorKind::Other)),
    }
}

#[test]
fn dropped_job_wakes_its_owner(rt: HostRuntime) -> Result<(), Fail> {
    assert!(rt; cut_reader_wakes(rt)?);
    Ok(())
}

// Whether an owner waits for its flush, while its writer stops, until its job is dropped.
fn wakes_for_flush<A: AsyncWrite>(owner: &mut A, mock: &mut MockTask, track: &Track) -> bool
    requires { A.closed owner.old → ⊥ }
{
    let wrote = mock.enter(|cx| owner.poll_write(cx, b"ab"));
    if !matches!(wrote, Poll::Ready(Ok(2))) || !track.stops() {
        return false;
    }
    let flushed = mock.enter(|cx| owner.poll_flush(cx));
    track.go_on();
    matches!(flushed, Poll::Pending) && track.goes() && wakes(mock)
}

type CutWriter<H> = Cut<WriteJob<Endless<H>, H>, Two>;

// The same of a writer's owner, and whether the worker goes on.
fn writer_wakes<K: Job + Carries<WriteJob<Endless<H>, H>>, H: Runtime + RandomSource>(
    rt: H,
    pool: &Executor<K, H>,
) -> io::Result<bool> {
    let track = new_track(rt)?;
    let mut mock = MockTask::new(&rt)?;
    let handle = Endless::new(rt, &track)?;
    let mut owner = Unblock::<_, (), K, H>::with_capacity(4, pool.try_clone()?, handle);
    Ok(wakes_for_flush(&mut owner, &mut mock, &track) && rests(pool))
}

fn cut_writer_wakes<H: Host>(rt: H) -> io::Result<bool> {
    match Executor::<CutWriter<H>, H>::new(rt, Some("1")) {
        Ok(pool) => writer_wakes(rt, &pool),
        Err(_) => Err(io::Error::from(io::ErrorKind::Other)),
    }
}

#[test]
fn dropped_writing_job_wakes_its_owner(rt: HostRuntime) -> Result<(), Fail> {
    assert!(rt; cut_writer_wakes(rt)?);
    Ok(())
}

// Whether the owner of a handle, whose job is dropped once that was called, is woken for it, and only once the handle
// is gone. It waits for the handle in another task than for the call that it was lent for.
fn is_told_of<O: Starts, H: Runtime + RandomSource>(
    rt: H,
    mut owner: O,
    track: &Track,
) -> io::Result<bool> {
    let mut mock = MockTask::new(&rt)?;
    let later = MockTask::new(&rt)?;
    let _ = owner.begin(&mut mock);
    if !track.stops() {
        return Ok(false);
    }
    let waits = owner.waits_idle(&later);
    track.go_on();
    Ok(waits && wakes(&later) && track.is_gone())
}

// The same in this pool, by the session of a job.
fn is_told_in<J: Begins<Endless<H>, H>, K: Job + Carries<J>, H: Runtime + RandomSource>(
    rt: H,
    pool: &Executor<K, H>,
) -> io::Result<bool> {
    let track = new_track(rt)?;
    let owner: Owned<Endless<H>, J, K, H> = hold(pool, Endless::new(rt, &track)?)?;
    is_told_of(rt, owner, &track)
}

fn is_told_last<
    J: Begins<Endless<H>, H> + Send + 'static,
    S: Steps + Drop + Send + 'static,
    H: Host,
>(rt: H) -> io::Result<bool> {
    match Executor::<Cut<J, S>, H>::new(rt, Some("1")) {
        Ok(pool) => is_told_in::<J, Cut<J, S>, H>(rt, &pool),
        Err(_) => Err(io::Error::from(io::ErrorKind::Other)),
    }
}

#[test]
fn handle_of_a_dropped_job_is_gone_before_its_owner_is_told(rt: HostRuntime) -> Result<(), Fail> {
    assert!(rt; is_told_last::<ReadJob<_, _>, Two, _>(rt)?);
    assert!(rt; is_told_last::<WriteJob<_, _>, Two, _>(rt)?);
    assert!(rt; is_told_last::<ItemJob<_, u8, _>, Two, _>(rt)?);
    assert!(rt; is_told_last::<SeekJob<_, _>, One, _>(rt)?);
    assert!(rt; is_told_last::<OpJob<Touch, _, _>, Two, _>(rt)?);
    Ok(())
}
