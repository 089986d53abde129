//! The pool as its lock holds it: each section is one call, which answers whom to notify.
ghost use Rattle.std.specs.Prelude.{◌≡◌, ◌<◌, ◌↔◌, true, length, IfSome};
ghost use Rattle.blocking_pool.specs.declared.pool.bell.BellKind.TheVariants.{Silent};

use crate::counts::Counts;
use blocking_core::pool::{
    Bell, Finish, Gone, Job, JobNo, Pool, Refused, Starter, Took, Turn, Waited, WakeNote, Woke,
    WorkerPass,
};
use std::alloc::Global;

/// A pool whose bell is silent: each section is one call, which answers whom to notify. It is what an [`Executor`](crate::Executor) has under its
/// lock, and stands by itself on one thread as well. Bells can't be let go: each is rung, or heard.
#[derive(Drop)]
pub struct Held<J: Job> {
    pool: Pool<J>,
    ghost silent: { pool.counts.bell ≡ Silent },
}

/// A job that was added to a pool: its number, and the client that it was added for. [`Held::add_for`] alone makes one.
#[derive(Clone, Copy)]
pub struct Added {
    number: JobNo,
    client: u32,
}

impl Added {
    /// The job's number.
    pub fn number(self) -> JobNo
        ensures { result ≡ self.number }
    {
        self.number
    }

    /// The job's client.
    pub fn client(self) -> u32
        ensures { result ≡ self.client }
    {
        self.client
    }
}

/// What a worker has after the end of a turn.
pub enum Ended<J> {
    /// What it took next.
    Took(Took<J>),
    /// The job that waits, which is to be dropped: its turn goes on until then.
    Drop(Turn, J),
    /// The turn of a job that isn't running in this pool, and the job if there was one.
    Stranger(Turn, Option<J>),
}

impl<J: Job> Held<J> {
    ghost use Rattle.blocking_pool.specs.Jobs.{HaveValues};
    ghost use Rattle.blocking_pool.specs.Pools.{IsSound, ready};
    ghost use Rattle.blocking_pool.specs.Starters.{asked};
    ghost use Rattle.blocking_executor.specs.Sections.{Adds, AddsFor, Starts, Wakes, Sweeps, ArrivesAndTakes, EndsAndTakes, WaitsAndTakes, SetsLimit, SetsClientLimit, AreCountsOf, is_over};

    /// A pool with no job and no worker, as [`Pool::new`]. Takes no memory.
    pub fn new(alloc: Global, setting: Option<&str>) -> Held<J>
        ensures { Starts setting.entry result.pool }
    {
        Held {
            pool: Pool::new(alloc, setting),
        }
    }

    /// Adds a job of client 0, as [`Pool::add`]: a refused job is handed back.
    pub fn add<S: Starter>(&mut self, job: J, starter: &mut S) -> (Result<JobNo, Refused<J>>, Bell)
        ensures { Adds (asked S.Starter starter.old starter.new)
            self.old.pool 0 job result.0 self.new.pool result.1 }
    {
        let (answer, bell) = self.add_for(0, job, starter);
        match answer {
            Ok(added) => (Ok(added.number), bell),
            Err(refused) => (Err(refused), bell),
        }
    }

    /// Adds a job of a client, as [`Pool::add_for`]: a refused job is handed back.
    pub fn add_for<S: Starter>(
        &mut self,
        client: u32,
        job: J,
        starter: &mut S,
    ) -> (Result<Added, Refused<J>>, Bell)
        ensures { AddsFor (asked S.Starter starter.old starter.new)
            self.old.pool client job result.0 self.new.pool result.1 }
    {
        match self.pool.add_for(client, job, starter) {
            Ok(number) => (Ok(Added { number, client }), self.pool.bell()),
            Err(refused) => (Err(refused), self.pool.bell()),
        }
    }

    /// A wake reaches its job, as [`Pool::wake`].
    pub fn wake<S: Starter>(&mut self, note: WakeNote, starter: &mut S) -> (Woke, Bell)
        ensures { Wakes (asked S.Starter starter.old starter.new)
            self.old.pool note result.0 self.new.pool result.1 }
    {
        let woke = self.pool.wake(note, starter);
        (woke, self.pool.bell())
    }

    /// Puts the parked jobs that bear a mark back, and answers how many they were.
    pub fn sweep<S: Starter>(&mut self, starter: &mut S) -> (usize, Bell)
        ensures { Sweeps J.may_answer (asked S.Starter starter.old starter.new)
            self.old.pool result.0 self.new.pool result.1 }
    {
        let count = self.pool.sweep(starter);
        (count, self.pool.bell())
    }

    /// A started worker arrives and takes; None where every started worker has arrived.
    pub fn arrive<S: Starter>(&mut self, starter: &mut S) -> (Option<Took<J>>, Bell)
        ensures { ArrivesAndTakes J.may_answer (asked S.Starter starter.old starter.new)
            self.old.pool result.0 self.new.pool result.1 }
    {
        let Some(pass) = self.pool.arrive() else {
            return (None, self.pool.bell());
        };
        let took = self.pool.take(pass, starter);
        (Some(took), self.pool.bell())
    }

    /// A turn ends, and its worker takes.
    pub fn end<S: Starter>(
        &mut self,
        turn: Turn,
        finish: Finish<J>,
        starter: &mut S,
    ) -> (Ended<J>, Bell)
        ensures { EndsAndTakes J.may_answer (asked S.Starter starter.old starter.new)
            self.old.pool turn finish result.0 self.new.pool result.1 }
    {
        match self.pool.end(turn, finish) {
            Gone::Free(pass) => {
                let took = self.pool.take(pass, starter);
                (Ended::Took(took), self.pool.bell())
            }
            Gone::Drop(turn, job) => (Ended::Drop(turn, job), self.pool.bell()),
            Gone::Stranger(turn, job) => (Ended::Stranger(turn, job), self.pool.bell()),
        }
    }

    /// Whether there is an idle worker that has arrived, so that a pass may be used.
    pub fn has_idle(&self) -> bool
        ensures { (result ≡ true) ↔ (self.now.pool.counts.arriving < self.now.pool.counts.idle) }
    {
        self.pool.arriving_count() < self.pool.idle_count()
    }

    /// Whether a job is ready: a worker that takes now gets one.
    pub fn is_ready(&self) -> bool
        ensures { (result ≡ true) ↔ (0 < length (ready self.now.pool)) }
    {
        self.pool.ready_len() > 0
    }

    /// The workers and jobs of this section. Each queued job stands in the queue once, and nothing else does; the pool has a job's value exactly
    /// while that isn't running.
    pub fn counts(&self) -> Counts
        ensures counts { AreCountsOf result self.now.pool }
        ensures sound { IsSound self.now.pool }
        ensures values { HaveValues self.now.pool.jobs }
    {
        let workers = self.pool.thread_count();
        let idle = self.pool.idle_count();
        Counts {
            workers,
            idle,
            arriving: self.pool.arriving_count(),
            running: workers - idle,
            queued: self.pool.queue_len(),
        }
    }

    /// Whether there are more workers than the limit.
    pub fn is_over_limit(&self) -> bool
        ensures { result ≡ is_over self.now.pool.counts.limit self.now.pool.counts.workers }
    {
        match self.pool.limit() {
            Some(limit) => limit < self.pool.thread_count(),
            None => false,
        }
    }

    /// An idle worker has waited: it takes, or it stops. Where the wait timed out it sweeps first.
    pub fn after_wait<S: Starter>(
        &mut self,
        pass: WorkerPass,
        timed_out: bool,
        starter: &mut S,
    ) -> (Option<Took<J>>, Bell)
        requires { self.old.pool.counts.arriving < self.old.pool.counts.idle }
        ensures { WaitsAndTakes J.may_answer (asked S.Starter starter.old starter.new)
            timed_out self.old.pool result.0 self.new.pool result.1 }
    {
        match self.pool.after_wait(pass, timed_out, starter) {
            Waited::Stay(pass) => {
                let took = self.pool.take(pass, starter);
                (Some(took), self.pool.bell())
            }
            Waited::Stop => (None, self.pool.bell()),
        }
    }

    /// Sets the limit of workers.
    pub fn set_limit(&mut self, limit: usize) -> Bell
        requires { 0 < limit }
        ensures { SetsLimit limit self.old.pool self.new.pool result }
    {
        self.pool.set_limit(limit);
        self.pool.bell()
    }

    /// Sets the limit of running jobs for each client, or lets it go.
    pub fn set_client_limit(&mut self, limit: Option<usize>) -> Bell
        requires { IfSome limit (λ most. 0 < most) }
        ensures { SetsClientLimit limit self.old.pool self.new.pool result }
    {
        self.pool.set_client_limit(limit);
        self.pool.bell()
    }
}
