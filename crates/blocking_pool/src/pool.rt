//! A pool of jobs and of the workers that run them, as a value: no thread and no lock.
//!
//! docs/RULES.md states the rules that the calls follow, under the names that are cited here.
ghost use Rattle.std.specs.Prelude.{◌≡◌, ◌<◌, ◌≤◌, ◌∷◌, [], ℕ, Bool, true, length, Some, IfSome};
ghost use Rattle.blocking_pool.specs.Growth.{greatest};
ghost use Rattle.blocking_pool.specs.Starters.{asked, IsSteady};
ghost use Rattle.blocking_pool.specs.Pools.{ring_of_client_limit};

mod answer;
mod batch;
mod bell;
mod chain;
mod clients;
mod counts;
mod heads;
mod job;
mod number;
mod queue;
pub mod ready;
mod standing;
mod starter;
mod table;
mod token;

use crate::limit::max_threads;
use crate::pool::batch::Batch;
use crate::pool::counts::Counts;
use crate::pool::table::{Front, Table};
pub use answer::{Finish, Gone, Refusal, Refused, Took, Waited, Woke};
pub use bell::{Bell, BellKind, Claim};
pub use job::{Carries, Job, JobStep};
pub use number::JobNo;
pub use standing::Standing;
pub use starter::{StartRefused, Starter};
use std::alloc::Global;
use std::marker::Model;
pub use token::{Turn, WakeNote, WorkerPass};

/// A pool: the queue of its jobs, a table of the jobs that aren't over, and the counts of its workers.
///
/// Each job is a client's. Whoever adds jobs by [`Pool::add_for`] names a client by a number of their own choice, and jobs
/// that are added by [`Pool::add`] are client 0's. Where a client limit is set, by [`Pool::set_client_limit`], no client
/// has more jobs taken at a time than the limit says. So one client with many jobs leaves workers to the others. A job is
/// *ready* where it is queued and its client has room: fewer of the client's jobs run than the limit. Where no client
/// limit is set, each queued job is ready. A job that was taken counts as running until its turn ends, also one that was
/// handed out to be dropped.
///
/// A pool has no thread. Whoever has one names the workers by a [`Starter`], and does what they are to do:
///
/// ```rust
/// let mut pool: Pool<Order> = Pool::new(rt.alloc(), None);
/// let no = pool.add(Order(7), &mut starter)?;
/// println!(rt; "job {} of {}", no.serial(), pool.queue_len())?;
/// ```
#[derive(Drop)]
pub struct Pool<J: Job> {
    table: Table<J>,
    // What a sweep gathers. It has room for all jobs of the table.
    due: Batch,
    counts: Counts,
    next_serial: u64,
}

impl<J: Job> Model for Pool<J> {
    ghost use Rattle.blocking_pool.specs.Pools.{Pool as Seen, pool_code};
    ghost use Rattle.blocking_pool.specs.Tables.{pool_over, IsWhole};

    ghost Value = { Seen J };

    ghost coded = { pool_code J.code };

    ghost view = { λ p. pool_over p.table p.counts p.next_serial };

    ghost invariant = { λ p. IsWhole p.table p.counts p.next_serial p.due.room };
}

impl<J: Job> Pool<J> {
    ghost use Rattle.blocking_pool.specs.Pools.{IsSound};
    ghost use Rattle.blocking_pool.specs.PoolAnswers.{pool_of, Adds, Arrives, Takes, Wakes, Cancels, Sweeps, Waits, StaysOrStops, Ends};
    ghost use Rattle.blocking_pool.specs.Pools.{EnterAgain, ready, SetsClientLimit};
    ghost use Rattle.blocking_pool.specs.Jobs.{job_of, standing_of, is_running_as, value_at, HaveValues};
    ghost use Rattle.blocking_pool.specs.PoolLends.{lends_job};
    ghost use Rattle.std.specs.Borrow.{sem};
    ghost use Rattle.std.specs.Option.{option_copied_mut};
    ghost use Rattle.blocking_pool.specs.Counts.{after_limit, after_bell};
    ghost use Rattle.blocking_pool.specs.declared.pool.answer.Finish.{Finish};
    ghost use Rattle.blocking_pool.specs.declared.pool.standing.Standing.TheVariants.{Parked};

    /// An empty pool, whose jobs and workers are numbered from 1. The setting's number, by
    /// [`max_threads`](crate::limit::max_threads), becomes the limit at the first growth, unless a limit is set before. Takes
    /// no memory.
    pub fn new(alloc: Global, setting: Option<&str>) -> Self
        ensures { result ≡ pool_of setting.entry 1 1 }
    {
        Self::with_numbers(alloc, setting, 1, 1)
    }

    /// An empty pool whose next job and next worker have these numbers, each at least 1. Takes no memory.
    pub fn with_numbers(alloc: Global, setting: Option<&str>, serial: u64, worker: u64) -> Self
        requires serial { 1 ≤ serial }
        requires worker { 1 ≤ worker }
        ensures { result ≡ pool_of setting.entry serial worker }
    {
        Pool {
            table: Table::new(alloc),
            due: Batch::new(alloc),
            counts: Counts::new(max_threads(setting), worker),
            next_serial: serial,
        }
    }

    /// Adds a job of client 0, as [`Pool::add_for`] does.
    pub fn add<S: Starter>(&mut self, job: J, starter: &mut S) -> Result<JobNo, Refused<J>>
        ensures answer { Adds (asked S.Starter starter.old starter.new)
            self.old 0 job result self.new }
        ensures steady { IsSteady S.Starter starter.old starter.new }
    {
        self.add_for(0, job, starter)
    }

    /// Adds a job of this client at the queue's end. The pool grows by the jobs that are ready, and by the new one where
    /// its client has room. A client is known while it has jobs that aren't over, and needs nothing before and after.
    ///
    /// A refused job is handed back, and the queue, the jobs and the next serial are then as before. The refusal is
    /// `Numbers` where the serials are used up, `Memory` where there was no room for one more job, `NoWorker` where no
    /// worker is there after the growth. Only a call that adds a job takes memory.
    pub fn add_for<S: Starter>(
        &mut self,
        client: u32,
        job: J,
        starter: &mut S,
    ) -> Result<JobNo, Refused<J>>
        ensures answer { Adds (asked S.Starter starter.old starter.new)
            self.old client job result self.new }
        ensures steady { IsSteady S.Starter starter.old starter.new }
    {
        if self.next_serial == u64::MAX {
            return refuse(job, Refusal::Numbers);
        }
        if self.table.reserve(&mut self.due, client).is_err() {
            return refuse(job, Refusal::Memory);
        }
        self.counts.grow(self.table.ready_with(client), starter);
        if self.counts.workers() == 0 {
            return refuse(job, Refusal::NoWorker);
        }
        let serial = self.next_serial;
        self.next_serial += 1;
        self.counts.ring_one();
        Ok(self.table.insert(serial, client, job))
    }

    /// A started worker arrives, and gets its pass; None where every started worker has arrived.
    pub fn arrive(&mut self) -> Option<WorkerPass>
        ensures { Arrives self.old result self.new }
    {
        if self.counts.arriving() == 0 {
            return None;
        }
        self.counts.arrive();
        Some(WorkerPass::new())
    }

    /// A worker takes the first ready job, and the pool grows by those that are ready then; or no job is ready. A job that
    /// was cancelled, or that bears a mark, is handed out to be dropped, and counts as one of its client's that run until
    /// its turn ends. A queued job isn't taken until its client has room, even if it is cancelled or marked. Room comes where
    /// a turn of the client ends, or the client limit is raised or removed.
    pub fn take<S: Starter>(&mut self, pass: WorkerPass, starter: &mut S) -> Took<J>
        requires { self.old.counts.arriving < self.old.counts.idle }
        ensures answer { Takes J.may_answer (asked S.Starter starter.old starter.new)
            self.old result self.new }
        ensures steady { IsSteady S.Starter starter.old starter.new }
    {
        // Fewer jobs run than there are workers, so one more can be counted.
        let _workers = self.counts.workers();
        let Some(front) = self.table.take_first() else {
            return Took::Idle(pass);
        };
        let Front {
            no,
            value,
            cancelled,
        } = front;
        pass.spend();
        self.counts.begin_job();
        let left = self.table.ready_len();
        self.counts.grow(left, starter);
        let marked = value.abandoned();
        if cancelled || marked {
            return Took::Drop(Turn::new(no), value);
        }
        Took::Run(Turn::new(no), value)
    }

    /// A wake reaches its job. A parked job stands at the queue's end again, and the pool grows. A running one is flagged,
    /// so that it goes back to the queue where its run ends waiting. Any other job is as it was, and so is the pool where
    /// the number is no job's.
    pub fn wake<S: Starter>(&mut self, note: WakeNote, starter: &mut S) -> Woke
        ensures answer { Wakes (asked S.Starter starter.old starter.new)
            self.old note result self.new }
        ensures steady { IsSteady S.Starter starter.old starter.new }
    {
        let no = note.spend();
        match self.table.standing(no) {
            Some(Standing::Parked) => {
                self.enter_again(no, starter);
                Woke::Entered
            }
            Some(Standing::Running) => {
                self.table.mark_woken(no);
                Woke::Marked
            }
            _ => Woke::Nothing,
        }
    }

    /// Cancels a job: nobody wants it to be run any more. A parked job stands at the queue's end again, and the pool grows; a
    /// queued or running one is flagged. It is handed out to be dropped when it is taken next, or when its run ends waiting.
    pub fn cancel<S: Starter>(&mut self, no: JobNo, starter: &mut S) -> Woke
        ensures answer { Cancels (asked S.Starter starter.old starter.new)
            self.old no result self.new }
        ensures steady { IsSteady S.Starter starter.old starter.new }
    {
        match self.table.standing(no) {
            Some(Standing::Parked) => {
                self.table.mark_cancelled(no);
                self.enter_again(no, starter);
                Woke::Entered
            }
            Some(Standing::Queued | Standing::Running) => {
                self.table.mark_cancelled(no);
                Woke::Marked
            }
            _ => Woke::Nothing,
        }
    }

    // Lets a parked job enter again, and the pool grow.
    fn enter_again<S: Starter>(&mut self, no: JobNo, starter: &mut S)
        requires { standing_of self.old.jobs no ≡ Some Parked }
        ensures again { EnterAgain (asked S.Starter starter.old starter.new)
            self.old (no.serial ∷ []) self.new }
        ensures steady { IsSteady S.Starter starter.old starter.new }
    {
        self.table.enter_again(no);
        self.counts.grow(self.table.ready_len(), starter);
        self.counts.ring_one();
    }

    /// Puts the parked jobs that bear a mark back at the queue's end, in the order in which they were accepted, and answers
    /// how many they were. Where there were any, the pool grows once. Only this call and [`Pool::set_client_limit`] go through
    /// many jobs: this one through those that are parked, that one through those that are queued, where a client limit begins
    /// or goes.
    pub fn sweep<S: Starter>(&mut self, starter: &mut S) -> usize
        ensures answer { Sweeps J.may_answer (asked S.Starter starter.old starter.new)
            self.old result self.new }
        ensures steady { IsSteady S.Starter starter.old starter.new }
    {
        let before = self.table.queue_len();
        self.table.sweep(&mut self.due);
        let after = self.table.queue_len();
        let count = after - before;
        if count == 0 {
            return 0;
        }
        let ready = self.table.ready_len();
        self.counts.grow(ready, starter);
        self.counts.ring_one();
        count
    }

    /// A turn ends. A job that is over leaves the pool. A job that waits is parked, or goes back to the queue's end
    /// where a wake met it since it was taken. The worker is free then. A job that waits and was cancelled, or bears a
    /// mark, is handed out to be dropped, and its turn goes on until then. A turn whose job isn't running in this pool
    /// comes back as a stranger's, with the job that came with it, and the pool is as before.
    pub fn end(&mut self, turn: Turn, finish: Finish<J>) -> Gone<J>
        ensures { Ends J.may_answer self.old turn finish result self.new }
    {
        if !self.table.is_running(turn.job()) {
            return Gone::Stranger(turn, finish.into_value());
        }
        match finish {
            Finish::Done | Finish::Dropped => {
                self.table.remove(turn.spend());
                self.counts.end_job();
                Gone::Free(WorkerPass::new())
            }
            Finish::Waiting(value) => self.end_waiting(turn, value),
        }
    }

    // Ends the turn of a running job that waits.
    fn end_waiting(&mut self, turn: Turn, value: J) -> Gone<J>
        requires { is_running_as self.old.jobs turn ≡ true }
        ensures { Ends J.may_answer self.old turn (Finish.Waiting value) result self.new }
    {
        let Some(found) = self.table.find(turn.job()) else {
            unreachable!()
        };
        let marked = value.abandoned();
        if found.cancelled || marked {
            return Gone::Drop(turn, value);
        }
        let no = turn.spend();
        self.table.park(no, value);
        self.counts.end_job();
        if !found.woken {
            return Gone::Free(WorkerPass::new());
        }
        self.table.enter_again(no);
        self.counts.ring_one();
        Gone::Free(WorkerPass::new())
    }

    /// An idle worker has waited, and stays or stops. Where its wait timed out, it sweeps first. It stops where there are then
    /// more workers than the limit, or where its wait timed out and no job is queued. Only where it stops no pass comes back.
    pub fn after_wait<S: Starter>(
        &mut self,
        pass: WorkerPass,
        timed_out: bool,
        starter: &mut S,
    ) -> Waited
        requires { self.old.counts.arriving < self.old.counts.idle }
        ensures answer { Waits J.may_answer (asked S.Starter starter.old starter.new)
            timed_out self.old result self.new }
        ensures steady { IsSteady S.Starter starter.old starter.new }
    {
        if !timed_out {
            return self.stay_or_stop(pass, false);
        }
        self.sweep(starter);
        self.stay_or_stop(pass, true)
    }

    // Lets a worker that has waited stay or stop.
    fn stay_or_stop(&mut self, pass: WorkerPass, timed_out: bool) -> Waited
        requires { self.old.counts.arriving < self.old.counts.idle }
        ensures { StaysOrStops timed_out self.old result self.new }
    {
        let is_queued = self.table.queue_len() > 0;
        if !self.counts.is_over_limit() && (is_queued || !timed_out) {
            return Waited::Stay(pass);
        }
        pass.spend();
        self.counts.stop(is_queued);
        Waited::Stop
    }

    /// The value of a job that is queued or parked; None where the number is that of a running job, or of none here.
    pub fn job_mut(&mut self, no: JobNo) -> Option<&mut J>
        ensures* lends { sem 𝓛 (lends_job J.row J.Job self.entry no result) }
        ensures value { option_copied_mut result ≡ value_at (job_of self.old.jobs no) }
    {
        self.table.value_mut(no)
    }

    /// Sets the limit of workers, as it is: it isn't clamped. All waiting workers are notified where a limit stood and was
    /// greater. The pool doesn't grow.
    pub fn set_limit(&mut self, limit: usize)
        requires { 0 < limit }
        ensures { self.new ≡ record self.old { counts = after_limit limit self.old.counts } }
    {
        self.counts.set_limit(limit);
    }

    /// Sets how many jobs of each client may run at a time, or lets any number run. Where the limit rises, all waiting
    /// workers are notified, since jobs may be ready that weren't. A lower limit stops no running job: its client has room
    /// again when so many of its jobs have ended that fewer run than the limit. The pool doesn't grow. This goes through
    /// the clients where a limit is to stand, and through the queue where one begins or goes.
    pub fn set_client_limit(&mut self, limit: Option<usize>)
        requires { IfSome limit (λ most. 0 < most) }
        ensures { SetsClientLimit limit self.old self.new }
    {
        let ring = ring_of_client_limit(limit, self.table.client_limit());
        self.table.set_client_limit(limit);
        self.counts.ring(ring);
    }

    /// Whom to notify for the calls since this was last asked: the greatest of what they rang.
    pub fn bell(&mut self) -> Bell
        ensures ring { result ≡ self.old.counts.bell }
        ensures silent { self.new ≡ record self.old { counts = after_bell self.old.counts } }
    {
        Bell::new(self.counts.take_ring())
    }

    /// How many workers were started and haven't stopped, arrived or not.
    pub fn thread_count(&self) -> usize
        ensures value { result ≡ self.now.counts.workers }
        ensures sound { IsSound self.now }
    {
        self.counts.workers()
    }

    /// How many of the workers run no job, arrived or not.
    pub fn idle_count(&self) -> usize
        ensures value { result ≡ self.now.counts.idle }
        ensures sound { IsSound self.now }
    {
        self.counts.idle()
    }

    /// How many workers were started and haven't arrived.
    pub fn arriving_count(&self) -> usize
        ensures value { result ≡ self.now.counts.arriving }
        ensures sound { IsSound self.now }
    {
        self.counts.arriving()
    }

    /// How many jobs are queued.
    pub fn queue_len(&self) -> usize
        ensures value { result ≡ length self.now.queue }
        ensures sound { IsSound self.now }
        ensures values { HaveValues self.now.jobs }
    {
        self.table.queue_len()
    }

    /// How many jobs are ready: queued, and their client has room.
    pub fn ready_len(&self) -> usize
        ensures value { result ≡ length (ready self.now) }
        ensures sound { IsSound self.now }
    {
        self.table.ready_len()
    }

    /// How many jobs of each client may run at a time; None where any number may.
    pub fn client_limit(&self) -> Option<usize>
        ensures { result ≡ self.now.client_limit }
    {
        self.table.client_limit()
    }

    /// The limit of workers; None before the first growth, unless it was set.
    pub fn limit(&self) -> Option<usize>
        ensures { result ≡ self.now.counts.limit }
    {
        self.counts.limit()
    }
}

// Whom a new client limit notifies: all, where another stood and the new one lets more jobs run.
fn ring_of_client_limit(limit: Option<usize>, earlier: Option<usize>) -> BellKind
    ensures { result ≡ ring_of_client_limit limit earlier }
{
    let Some(earlier) = earlier else {
        return BellKind::Silent;
    };
    match limit {
        Some(most) if most <= earlier => BellKind::Silent,
        _ => BellKind::All,
    }
}

// Hands a job back.
fn refuse<J: Drop>(back: J, why: Refusal) -> Result<JobNo, Refused<J>>
    ensures { result ≡ Err (record { back = back; why = why }) }
{
    Err(Refused { back, why })
}
