//! The executor: a pool that threads share, the workers that serve it, and the spawner that starts them.
ghost use Rattle.std.specs.Prelude.{◌≡◌, ◌<◌, ◌≤◌, ◌+◌, IfErr, IfOk, IfSome};

use crate::counts::Counts;
use crate::desk::{Desk, ThreadStarter};
use crate::held::{Added, Ended, Held};
use crate::lookout::Lookout;
use crate::runtime::Runtime;
use blocking_core::pool::{
    Bell, BellKind, Finish, Job, JobStep, Refusal, Refused, Starter, Took, Turn, WakeNote, Woke,
    WorkerPass,
};
use std::alloc::AllocError;
use std::io;
use std::sync::{Arc, Condvar, Mutex, MutexGuard, Wait};
use std::thread::{Builder, Threads};
use std::time::Duration;

// How long an idle worker waits before it may stop.
const IDLE_MILLIS: u64 = 500;

#[derive(Drop)]
struct Shared<J: Job> {
    held: Mutex<Held<J>>,
    // Where idle workers sleep.
    condvar: Condvar,
    lookout: Lookout,
    desk: Desk,
}

/// A pool of worker threads, shared by whoever has a share of it. Its spawner lives as long as the process.
///
/// A share adds its jobs for one client: for client 0, unless [`for_client`](Executor::for_client) names another. Clients matter where
/// [`set_client_limit`] set a limit of running jobs for each.
///
/// The spawner keeps a share for good. So what the shares have in common is never given back, also where nobody else has one.
///
/// Here `Double` is the call of the example at [`Call`](blocking_core::task::Call), and `rt` an `H: Host`:
///
/// ```rust
/// let executor: Executor<CallJob<Double, H>, H> = Executor::new(rt, Some("8"))?;
/// let doubled = block_on(&rt, unblock(&executor, Double(21))?)?;
/// ```
pub struct Executor<J: Job, H: Runtime> {
    shared: Arc<Shared<J>>,
    client: u32,
    rt: H,
}

// (as a derive has it; by hand it is proved here once, and not in each crate that drops one)
impl<J: Job, H: Runtime> Drop for Executor<J, H> {
    fn drop(self) {
        let Executor {
            shared,
            client: _,
            rt: _,
        } = self;
        drop(shared);
    }
}

// What starts threads is here alone, with the bounds that it takes.
impl<J: Job + Send + 'static, H: Runtime + Threads + Send + Sync + 'static> Executor<J, H> {
    ghost use Rattle.blocking_executor.specs.Lasting.{Lasts};

    /// A pool with no worker yet, and its spawner. The setting is the text of a limit, as of the environment's variable
    /// [`MAX_THREADS_ENV`](blocking_core::limit::MAX_THREADS_ENV); any text will do. None is the limit of 500. No environment is
    /// read here.
    ///
    /// The executor's handle isn't given to its jobs. A call that opens a file, sleeps or allocates has a `HostRuntime` as a field of
    /// its own: the one that `main` was given, which is `Copy`.
    ///
    /// `Memory` where there was none for the shared state, and `NoWorker` where the spawner's thread couldn't be had.
    ///
    /// A program that goes by the variable reads it, with the `system` that `main` was given:
    ///
    /// ```rust
    /// let setting = env::var(&system, MAX_THREADS_ENV).ok();
    /// let setting = setting.as_ref().map(|text| text.as_str());
    /// let executor: Executor<CallJob<Double, H>, H> = Executor::new(rt, setting)?;
    /// ```
    pub fn new(rt: H, setting: Option<&str>) -> Result<Executor<J, H>, Refusal>
        ensures { IfOk result (λ executor. executor.client ≡ 0) }
    {
        let alloc = rt.alloc();
        let shared = Shared {
            held: Mutex::new(Held::new(alloc, setting)),
            condvar: Condvar::new(),
            lookout: Lookout::new(),
            desk: Desk::new(),
        };
        let Ok(shared) = Arc::new(alloc, shared) else {
            return Err(Refusal::Memory);
        };
        let executor = Executor {
            shared,
            client: 0,
            rt,
        };
        let Ok(theirs) = executor.try_clone() else {
            return Err(Refusal::Memory);
        };
        let Ok(name) = "pool-spawner".to_string(alloc) else {
            return Err(Refusal::Memory);
        };
        let spawned = Builder::new().name(name).spawn(
            &rt,
            move || -> ()
                requires { Lasts J.row × Lasts H.row }
            { theirs.start_all() },
        );
        match spawned {
            Ok(_) => Ok(executor),
            Err(_) => Err(Refusal::NoWorker),
        }
    }

    // What the spawner does: it starts the workers that are asked for, and never takes the pool's lock.
    fn start_all(&self) {
        let rt = self.rt;
        for _ in rt.forever() {
            let number = self.shared.desk.asked(&rt);
            let started = self.start(number).is_ok();
            self.shared.desk.answer(&rt, started);
        }
    }

    // A name, a share of the executor or a thread that can't be had is a refused start.
    fn start(&self, number: u64) -> io::Result<()> {
        let theirs = self.try_clone()?;
        let name = format!(in self.rt.alloc(); "blocking-{number}")?;
        let _worker = Builder::new().name(name).spawn(
            &self.rt,
            move || -> ()
                requires { Lasts J.row × Lasts H.row }
            { theirs.serve() },
        )?;
        Ok(())
    }

    // What a worker does.
    fn serve(&self) {
        let mut starter = self.starter();
        self.work(&mut starter);
    }
}

impl<J: Job, H: Runtime> Executor<J, H> {
    /// One more share of the same pool, for the same client.
    ///
    /// ```rust
    /// let reader: Reader<File, H, CopyJobs<H, File, File>> = Unblock::new(executor.try_clone()?, from);
    /// let writer: Writer<File, H, CopyJobs<H, File, File>> = Unblock::new(executor, to);
    /// ```
    pub fn try_clone(&self) -> Result<Executor<J, H>, AllocError>
        ensures { IfOk result (λ share. share.client ≡ self.now.client) }
    {
        Ok(Executor {
            shared: Arc::try_clone(&self.shared)?,
            client: self.client,
            rt: self.rt,
        })
    }

    /// This share, for another client: the jobs that it adds from now on are that client's.
    ///
    /// ```rust
    /// let theirs = executor.try_clone()?.for_client(BACKUP);
    /// let task = unblock(&theirs, Double(21))?;
    /// ```
    pub fn for_client(self, client: u32) -> Executor<J, H>
        ensures { result ≡ record self { client = client } }
    {
        let Executor {
            shared,
            client: _,
            rt,
        } = self;
        Executor { shared, client, rt }
    }

    /// The client for which this share adds its jobs: 0, unless [`for_client`](Executor::for_client) named another.
    pub fn client(&self) -> u32
        ensures { result ≡ self.now.client }
    {
        self.client
    }

    /// The handles that its polls and workers use.
    pub fn runtime(&self) -> H
        ensures { result ≡ self.now.rt }
    {
        self.rt
    }

    // Begins a section: takes the pool's lock, which is tried for a while before a thread sleeps for it.
    fn enter(&self) -> MutexGuard<'_, Held<J>> {
        blocking_sync::enter(&self.shared.held, &self.rt)
    }

    // Ends a section: lets the lock go, and notifies whom the section rang. A worker that looks for a job stands in for the one
    // that would be notified.
    fn leave(&self, held: MutexGuard<'_, Held<J>>, bell: Bell) {
        let claimed = match bell.kind() {
            // schedule: Claim
            BellKind::One => self.shared.lookout.claim(),
            BellKind::Silent | BellKind::All => None,
        };
        // schedule: Tell
        self.shared.lookout.tell(held.is_ready());
        // schedule: LetGo
        drop(held);
        match (bell.kind(), claimed) {
            (BellKind::One, Some(claimed)) => bell.heard(claimed),
            // schedule: Ring
            _ => bell.ring(&self.shared.condvar),
        }
    }

    /// What asks the spawner for workers, one for each call and each worker. Those that it starts serve this executor.
    pub fn starter(&self) -> ThreadStarter<'_, H> {
        ThreadStarter::new(&self.shared.desk, self.rt)
    }

    /// Adds a job of this share's client, as [`add_for`](Executor::add_for) does.
    ///
    /// Here `sleeper` is a job of the program's own, as the one at [`Job`]:
    ///
    /// ```rust
    /// let added = executor.add(sleeper)?;
    /// let _ = executor.wake(WakeNote::new(added.number()));
    /// ```
    pub fn add(&self, job: J) -> Result<Added, Refused<J>>
        ensures refused { IfErr result (λ refused. refused.back ≡ job) }
        ensures client { IfOk result (λ added. added.client ≡ self.now.client) }
    {
        self.add_for(self.client, job)
    }

    /// Adds a job of a client, as [`Pool::add_for`](blocking_core::pool::Pool::add_for): a refused job is handed back.
    ///
    /// ```rust
    /// let added: Added = executor.add_for(BACKUP, sleeper)?;
    /// ```
    pub fn add_for(&self, client: u32, job: J) -> Result<Added, Refused<J>>
        ensures refused { IfErr result (λ refused. refused.back ≡ job) }
        ensures client { IfOk result (λ added. added.client ≡ client) }
    {
        let mut starter = self.starter();
        // schedule: Add, or Nothing
        let mut held = self.enter();
        let (answer, bell) = held.add_for(client, job, &mut starter);
        self.leave(held, bell);
        answer
    }

    /// Wakes a job, as [`Pool::wake`](blocking_core::pool::Pool::wake).
    /// (See the example at [`add`](Executor::add).)
    pub fn wake(&self, note: WakeNote) -> Woke {
        let mut starter = self.starter();
        // schedule: Wake, or Nothing
        let mut held = self.enter();
        let (woke, bell) = held.wake(note, &mut starter);
        self.leave(held, bell);
        woke
    }

    /// Puts the parked jobs that bear a mark back into the queue, where they are handed out to be dropped, and answers how
    /// many they were. An idle worker does so too after each wait that timed out; where no worker is left, nobody does.
    ///
    /// However many they are, one idle worker is notified, and drops them one after another. The others sleep on until another
    /// call notifies them, or until their own wait times out, after half a second at most. Where the pool grows for these jobs, all
    /// are notified.
    ///
    /// ```rust
    /// // (here `is_gone` is what the job's `abandoned` answers)
    /// is_gone.store(true, Ordering::Relaxed);
    /// let count = executor.sweep();
    /// ```
    pub fn sweep(&self) -> usize {
        let mut starter = self.starter();
        // schedule: Sweep, or Nothing
        let mut held = self.enter();
        let (count, bell) = held.sweep(&mut starter);
        self.leave(held, bell);
        count
    }

    /// The workers and jobs of one moment. A worker that isn't idle runs a job, and one that hasn't arrived is idle.
    ///
    /// ```rust
    /// let counts = executor.counts();
    /// let is_busy = counts.running == counts.workers && counts.queued > 0;
    /// ```
    pub fn counts(&self) -> Counts
        ensures busy { result.workers ≡ result.idle + result.running }
        ensures order { result.arriving ≤ result.idle }
    {
        // schedule: Nothing (to claim, to tell and to ring would change nothing here)
        self.enter().counts()
    }

    /// What a worker does from its arrival until it stops. No lock is held while a job runs or is dropped.
    pub fn work<S: Starter>(&self, starter: &mut S) {
        let rt = self.rt;
        // schedule: Arrive, Take
        let mut held = self.enter();
        let (took, bell) = held.arrive(starter);
        self.leave(held, bell);
        let Some(mut took) = took else {
            return;
        };
        for _ in rt.forever() {
            took = match took {
                Took::Run(turn, mut job) => {
                    let finish = if run(&turn, &mut job, &rt) {
                        Finish::Waiting(job)
                    } else {
                        drop(job);
                        Finish::Done
                    };
                    self.end(turn, finish, starter)
                }
                Took::Drop(turn, job) => {
                    drop(job);
                    self.end(turn, Finish::Dropped, starter)
                }
                Took::Idle(pass) => {
                    let Some(took) = self.wait(pass, starter) else {
                        return;
                    };
                    took
                }
            };
        }
        unreachable!()
    }

    // Ends a turn and takes. A turn that isn't running in this pool is tried again under a later lock, with what came back.
    fn end<S: Starter>(&self, turn: Turn, finish: Finish<J>, starter: &mut S) -> Took<J> {
        let rt = self.rt;
        let mut turn = turn;
        let mut finish = finish;
        for _ in rt.forever() {
            // schedule: End and Take, or GoOn
            let mut held = self.enter();
            let (ended, bell) = held.end(turn, finish, starter);
            self.leave(held, bell);
            match ended {
                Ended::Took(took) => return took,
                Ended::Drop(turn, job) => return Took::Drop(turn, job),
                Ended::Stranger(back, job) => {
                    turn = back;
                    finish = match job {
                        Some(job) => Finish::Waiting(job),
                        // (a job that was dropped is over as one that is done)
                        None => Finish::Done,
                    };
                }
            }
        }
        unreachable!()
    }

    // Looks for a job, waits for one or a timeout, and takes or stops. A worker sleeps only where it saw under the same lock that
    // no job is ready and that it need not stop: who told of that before would have notified nobody.
    fn wait<S: Starter>(&self, pass: WorkerPass, starter: &mut S) -> Option<Took<J>> {
        let rt = self.rt;
        self.shared.lookout.look();
        for _ in rt.forever() {
            // schedule: Wait (to sleep is a part of it)
            let mut held = self.enter();
            let mut timed_out = false;
            if !held.is_ready() && !held.is_over_limit() {
                let idle = Duration::from_millis(IDLE_MILLIS);
                // schedule: TimeOut, WakeUp, Return
                let (woken, waited) = self.shared.condvar.wait_timeout(&rt, held, idle);
                held = woken;
                timed_out = waited.timed_out();
            }
            if held.has_idle() {
                // schedule: SweepLate, StayOrStop, Take
                let (took, bell) = held.after_wait(pass, timed_out, starter);
                self.leave(held, bell);
                return took;
            }
        }
        unreachable!()
    }
}

// Runs a job, where it is, until it waits or is done. Whether it waits.
fn run<J: Job, R: Wait>(turn: &Turn, job: &mut J, rt: &R) -> bool {
    for _ in rt.forever() {
        match job.step(turn.job()) {
            JobStep::Again => {}
            JobStep::Waiting => return true,
            JobStep::Done => return false,
        }
    }
    unreachable!()
}

/// Sets the limit of an executor's workers to this number, which isn't clamped as a text's is. Idle workers over a
/// lowered limit stop; running jobs go on.
///
/// ```rust
/// set_max_blocking_threads(&executor, 4);
/// ```
pub fn set_max_blocking_threads<J: Job, H: Runtime>(executor: &Executor<J, H>, threads: usize)
    requires { 0 < threads }
{
    // schedule: SetLimit
    let mut held = executor.enter();
    let bell = held.set_limit(threads);
    executor.leave(held, bell);
}

/// Sets how many jobs of each client may run at a time: None for any number, or a number above 0. It holds for jobs
/// that are taken from now on. A lowered limit stops no running job, and its client's next one waits until fewer run
/// than it says. All idle workers are notified where the limit was raised or let go. This call holds the pool's lock
/// while it goes through the clients where a limit is to stand, and through all queued jobs where one begins or goes.
///
/// A job's client is the one that [`unblock_for`](crate::unblock_for) or [`add_for`](Executor::add_for) names, else
/// that of the share which added it: 0, unless [`for_client`](Executor::for_client) named another.
///
/// ```rust
/// // However many calls client 1 adds, six of them run at a time at most.
/// set_client_limit(&executor, Some(6));
/// let saved = unblock_for(&executor, 1, Double(21))?;
///
/// // None is set any more.
/// set_client_limit(&executor, None);
/// ```
pub fn set_client_limit<J: Job, H: Runtime>(executor: &Executor<J, H>, limit: Option<usize>)
    requires { IfSome limit (λ most. 0 < most) }
{
    // schedule: SetLimit, or Nothing
    let mut held = executor.enter();
    let bell = held.set_client_limit(limit);
    executor.leave(held, bell);
}
