//! A pool of tickets, with what is reported of its growth.
ghost use Rattle.std.specs.Prelude.{◌≡◌, ◌<◌, ◌≤◌, ◌+◌, ◌-◌, length, [], ℕ, Bool, true, false, Err, None, IfSome};
ghost use Rattle.blocking_pool.specs.Growth.{is_due, greatest, number_after};
ghost use Rattle.blocking_pool.specs.Counts.{limit_of};

use crate::ticket::Ticket;
use blocking_core::limit::max_threads;
use blocking_core::pool::{
    Finish, Gone, JobNo, Pool, Refusal, Standing, Starter, Took, Turn, Waited, WakeNote, Woke,
    WorkerPass,
};
use std::alloc::Global;
use std::marker::Model;

// How many workers a call of the pool started, and whether the next start was refused.
#[derive(Clone, Copy, Drop)]
pub(crate) struct Grown {
    pub(crate) started: u64,
    pub(crate) refused: bool,
}

impl Model for Grown {
    ghost use Rattle.blocking_pool.specs.Growth.{Growth};

    ghost Value = { Growth };

    ghost view = { λ g. record { started = g.started; refused = g.refused } };

    ghost inverse = { λ g. record { started = g.started; refused = g.refused } };
}

// No start at all.
pub(crate) const NO_GROWTH: Grown = Grown {
    started: 0,
    refused: false,
};

// A pool of tickets that knows the numbers of its next start and of its next job.
#[derive(Drop)]
pub(crate) struct Tickets {
    pool: Pool<Ticket>,
    setting: usize,
    next_start: u64,
    next_serial: u64,
}

// How the turn of a job that is over ends.
#[derive(Clone, Copy)]
pub(crate) enum Outcome {
    // The job ran to its end.
    Done,
    // The job was given up.
    Dropped,
}

/// What becomes of a job whose run ends waiting.
pub enum Parking {
    /// It waits for a wake, and its worker is free.
    Parked(WorkerPass),
    /// A wake has met it, so that it is queued again, and its worker is free.
    Queued(WorkerPass),
    /// It is to be dropped, and its turn goes on until then.
    HandedOut(Turn),
}

impl Outcome {
    ghost use Rattle.blocking_world_pool.specs.Crews.{standing_after};

    // How the job stands then.
    pub(crate) fn standing(self) -> Standing
        ensures { result ≡ standing_after self }
    {
        match self {
            Outcome::Done => Standing::Done,
            Outcome::Dropped => Standing::Dropped,
        }
    }
}

// Contracts see the pool.
impl Model for Tickets {
    ghost use Rattle.std.specs.Prelude.{◌≡◌};
    ghost use Rattle.blocking_world_pool.specs.Tickets.{JobPool, job_pool_code};

    ghost Value = { JobPool };

    ghost coded = { job_pool_code };

    ghost view = { λ t. t.pool };

    ghost invariant = { λ t. (t.setting ≡ t.pool.counts.setting)
        × (t.next_start ≡ t.pool.counts.next_worker)
        × (t.next_serial ≡ t.pool.next_serial) };
}

// The workers of a pool before a call that lets it grow, and the limit that the growth goes by.
#[derive(Clone, Copy)]
struct Before {
    workers: usize,
    limit: usize,
}

impl Tickets {
    ghost use Rattle.blocking_pool.specs.PoolAnswers.{Arrives, pool_of};
    ghost use Rattle.blocking_pool.specs.Jobs.{is_running_as};
    ghost use Rattle.blocking_pool.specs.Pools.{IsSound, without_job};
    ghost use Rattle.blocking_pool.specs.Counts.{after_limit};
    ghost use Rattle.blocking_world_pool.specs.Closing.{NoneDue, PassesOver};
    ghost use Rattle.blocking_world_pool.specs.Moves.{NeverAsked};
    ghost use Rattle.blocking_world_pool.specs.Tickets.{AddsTo, no_growth, TakesTo, Wakes, Cancels, AreValued, to_sweep, SweepsTo, SweepsIf, WaitsSo, ParksSo, pool_after_mark, pool_after_let_go, with_client_limit};

    // A pool with no job and no worker.
    pub(crate) fn new(alloc: Global, setting: Option<&str>) -> Tickets
        ensures { result ≡ pool_of setting.entry 1 1 }
    {
        Tickets {
            pool: Pool::new(alloc, setting),
            setting: max_threads(setting),
            next_start: 1,
            next_serial: 1,
        }
    }

    // The number of the next start.
    pub(crate) fn next_start(&self) -> u64
        ensures { result ≡ self.now.counts.next_worker }
    {
        self.next_start
    }

    fn before(&self) -> Before
        ensures workers { result.workers ≡ self.now.counts.workers }
        ensures limit { result.limit ≡ limit_of self.now.counts }
        ensures sound { IsSound self.now }
    {
        Before {
            workers: self.pool.thread_count(),
            limit: self.pool.limit().unwrap_or(self.setting),
        }
    }

    // Adds a new job of this client. Answers its number or why it was refused, and how the pool grew. For `Crew::add`.
    pub(crate) fn add<S: Starter>(
        &mut self,
        client: u32,
        starter: &mut S,
    ) -> (Result<JobNo, Refusal>, Grown)
        ensures { AddsTo (S.may_answer starter.old) self.old client result.0 result.1 self.new }
    {
        let before = self.before();
        match self.pool.add_for(client, Ticket::new(), starter) {
            Ok(number) => {
                let ready = self.pool.ready_len();
                let growth = growth_since(&self.pool, before, ready);
                self.next_start = next_after(self.next_start, growth);
                self.next_serial += 1;
                (Ok(number), growth)
            }
            Err(refused) => match refused.why {
                Refusal::NoWorker => {
                    // With no worker none is idle, and no job runs, so that the new one is ready, and one ready job is as good as many.
                    let growth = growth_since(&self.pool, before, 1);
                    self.next_start = next_after(self.next_start, growth);
                    (Err(Refusal::NoWorker), growth)
                }
                why => (Err(why), NO_GROWTH),
            },
        }
    }

    // Why a new job is refused, whoever its client is, that found no memory before it came to the pool.
    pub(crate) fn refuse(&self) -> Refusal
        ensures { (client : ℕ) → AddsTo NeverAsked self.now client (Err result) no_growth self.now }
    {
        if self.next_serial == u64::MAX {
            return Refusal::Numbers;
        }
        Refusal::Memory
    }

    // A worker takes the first ready job.
    pub(crate) fn take<S: Starter>(
        &mut self,
        pass: WorkerPass,
        starter: &mut S,
    ) -> (Took<Ticket>, Grown)
        requires { self.old.counts.arriving < self.old.counts.idle }
        ensures { TakesTo (S.may_answer starter.old) self.old result.0 result.1 self.new }
    {
        let before = self.before();
        let took = match self.pool.take(pass, starter) {
            Took::Idle(pass) => return (Took::Idle(pass), NO_GROWTH),
            took => took,
        };
        let left = self.pool.ready_len();
        let growth = growth_since(&self.pool, before, left);
        self.next_start = next_after(self.next_start, growth);
        (took, growth)
    }

    // A started worker arrives.
    pub(crate) fn arrive(&mut self) -> Option<WorkerPass>
        ensures { Arrives self.old result self.new }
    {
        self.pool.arrive()
    }

    // The note of a job is spent, and wakes it.
    pub(crate) fn wake<S: Starter>(&mut self, note: WakeNote, starter: &mut S) -> (Woke, Grown)
        ensures { Wakes (S.may_answer starter.old) self.old note result.0 result.1 self.new }
    {
        let before = self.before();
        let woke = self.pool.wake(note, starter);
        let Woke::Entered = woke else {
            return (woke, NO_GROWTH);
        };
        let ready = self.pool.ready_len();
        let growth = growth_since(&self.pool, before, ready);
        self.next_start = next_after(self.next_start, growth);
        (Woke::Entered, growth)
    }

    // The job of this number is cancelled.
    pub(crate) fn cancel<S: Starter>(&mut self, number: JobNo, starter: &mut S) -> (Woke, Grown)
        ensures { Cancels (S.may_answer starter.old) self.old number result.0 result.1 self.new }
    {
        let before = self.before();
        let woke = self.pool.cancel(number, starter);
        let Woke::Entered = woke else {
            return (woke, NO_GROWTH);
        };
        let ready = self.pool.ready_len();
        let growth = growth_since(&self.pool, before, ready);
        self.next_start = next_after(self.next_start, growth);
        (Woke::Entered, growth)
    }

    // The parked jobs that bear a mark are put back.
    pub(crate) fn sweep<S: Starter>(&mut self, starter: &mut S) -> (usize, Grown)
        requires { AreValued self.old.jobs }
        ensures count { result.0 ≡ length (to_sweep self.old) }
        ensures after { SweepsTo (S.may_answer starter.old)
            self.old (to_sweep self.old) result.1 self.new }
        ensures valued { AreValued self.new.jobs }
        ensures due { NoneDue self.new }
    {
        let before = self.before();
        let count = self.pool.sweep(starter);
        if count == 0 {
            return (0, NO_GROWTH);
        }
        let ready = self.pool.ready_len();
        let growth = growth_since(&self.pool, before, ready);
        self.next_start = next_after(self.next_start, growth);
        (count, growth)
    }

    // A free worker has waited, and stays or stops. The sweep of a wait that timed out is made here first, so that its growth is
    // known: the pool's own then finds nothing.
    pub(crate) fn after_wait<S: Starter>(
        &mut self,
        pass: WorkerPass,
        timed_out: bool,
        starter: &mut S,
    ) -> (Waited, Grown)
        requires valued { AreValued self.old.jobs }
        requires free { self.old.counts.arriving < self.old.counts.idle }
        ensures waits { WaitsSo (S.may_answer starter.old) timed_out
            self.old result.0 result.1 self.new }
        ensures valued { AreValued self.new.jobs }
        ensures due { timed_out ≡ true → NoneDue self.new }
    {
        let growth = self.sweep_if(timed_out, starter);
        (self.pool.after_wait(pass, timed_out, starter), growth)
    }

    // A wait that timed out sweeps.
    fn sweep_if<S: Starter>(&mut self, timed_out: bool, starter: &mut S) -> Grown
        requires { AreValued self.old.jobs }
        ensures after { SweepsIf timed_out (S.may_answer starter.old) self.old result self.new }
        ensures valued { AreValued self.new.jobs }
        ensures due { timed_out ≡ true → NoneDue self.new }
    {
        if !timed_out {
            return NO_GROWTH;
        }
        let (_count, growth) = self.sweep(starter);
        growth
    }

    // The turn of a job that is over ends.
    pub(crate) fn end(&mut self, turn: Turn, outcome: Outcome) -> WorkerPass
        requires { is_running_as self.old.jobs turn ≡ true }
        ensures { self.new ≡ without_job self.old turn.serial }
    {
        let finish = match outcome {
            Outcome::Done => Finish::Done,
            Outcome::Dropped => Finish::Dropped,
        };
        match self.pool.end(turn, finish) {
            Gone::Free(pass) => pass,
            Gone::Drop(_turn, _ticket) => unreachable!(),
            Gone::Stranger(_turn, _ticket) => unreachable!(),
        }
    }

    // The turn of a job that waits ends, with its ticket made anew.
    pub(crate) fn park(&mut self, turn: Turn, ticket: Ticket) -> Parking
        requires { is_running_as self.old.jobs turn ≡ true }
        ensures { ParksSo self.old turn ticket result self.new }
    {
        let queued = self.pool.queue_len();
        match self.pool.end(turn, Finish::Waiting(ticket)) {
            Gone::Free(pass) => {
                if queued < self.pool.queue_len() {
                    return Parking::Queued(pass);
                }
                Parking::Parked(pass)
            }
            Gone::Drop(turn, _ticket) => Parking::HandedOut(turn),
            Gone::Stranger(_turn, _ticket) => unreachable!(),
        }
    }

    // The job of this number is marked, if it is queued or parked: the ticket of a running job is made anew where its run ends.
    fn mark(&mut self, number: JobNo)
        ensures { self.new ≡ pool_after_mark self.old number }
    {
        if let Some(ticket) = self.pool.job_mut(number) {
            ticket.is_marked = true;
        }
    }

    // A party lets go of the job of this number, or of none.
    pub(crate) fn let_go(&mut self, number: Option<JobNo>)
        ensures { self.new ≡ pool_after_let_go self.old number }
    {
        if let Some(number) = number {
            self.mark(number);
        }
    }

    // Sets the limit of workers.
    pub(crate) fn set_limit(&mut self, limit: usize)
        requires { 0 < limit }
        ensures { self.new ≡ record self.old { counts = after_limit limit self.old.counts } }
    {
        self.pool.set_limit(limit);
    }

    // Sets how many jobs of each client may run at a time, or lets any number run.
    pub(crate) fn set_client_limit(&mut self, limit: Option<usize>)
        requires { IfSome limit (λ most. 0 < most) }
        ensures { self.new ≡ with_client_limit limit self.old }
    {
        self.pool.set_client_limit(limit);
    }

    // The pool itself.
    pub(crate) fn pool(&self) -> &Pool<Ticket>
        ensures { result.now ≡ self.now }
    {
        &self.pool
    }

    // A free worker takes every queued job, ends it as done, and waits until its time is up, until it stops.
    pub(crate) fn dismiss<S: Starter>(&mut self, pass: WorkerPass, starter: &mut S)
        requires valued { AreValued self.old.jobs }
        requires free { self.old.counts.arriving < self.old.counts.idle }
        ensures valued { AreValued self.new.jobs }
        ensures left { (rest : ℕ) → self.old.counts.idle ≡ self.old.counts.arriving + rest + 1 →
            self.new.counts.idle ≡ self.new.counts.arriving + rest }
    {
        let pass = self.clear_queue(pass, starter);
        match self.after_wait(pass, true, starter) {
            (Waited::Stop, _growth) => {}
            (Waited::Stay(pass), _growth) => self.dismiss_swept(pass, starter),
        }
    }

    // The same where a sweep has put back what it could.
    fn dismiss_swept<S: Starter>(&mut self, pass: WorkerPass, starter: &mut S)
        requires due { NoneDue self.old }
        requires valued { AreValued self.old.jobs }
        requires free { self.old.counts.arriving < self.old.counts.idle }
        ensures valued { AreValued self.new.jobs }
        ensures left { (rest : ℕ) → self.old.counts.idle ≡ self.old.counts.arriving + rest + 1 →
            self.new.counts.idle ≡ self.new.counts.arriving + rest }
    {
        let pass = self.clear_queue(pass, starter);
        match self.after_wait(pass, true, starter) {
            (Waited::Stop, _growth) => {}
            (Waited::Stay(_pass), _growth) => unreachable!(),
        }
    }

    // A free worker takes every queued job, and ends it as done. No client limit is set from then on, so that each is ready.
    fn clear_queue<S: Starter>(&mut self, mut pass: WorkerPass, starter: &mut S) -> WorkerPass
        requires valued { AreValued self.old.jobs }
        requires free { self.old.counts.arriving < self.old.counts.idle }
        ensures empty { self.new.queue ≡ [] }
        ensures passed { PassesOver self.old self.new }
    {
        self.set_client_limit(None);
        while self.pool.queue_len() > 0 {
            pass = self.pass_over(pass, starter);
        }
        pass
    }

    // A free worker takes the first ready job, if there is one, and ends it as done.
    fn pass_over<S: Starter>(&mut self, pass: WorkerPass, starter: &mut S) -> WorkerPass
        requires valued { AreValued self.old.jobs }
        requires free { self.old.counts.arriving < self.old.counts.idle }
        ensures limit { self.new.client_limit ≡ self.old.client_limit }
        ensures shorter { self.old.client_limit ≡ None →
            length self.new.queue ≡ length self.old.queue - 1 }
        ensures passed { PassesOver self.old self.new }
    {
        let (took, _growth) = self.take(pass, starter);
        match took {
            Took::Idle(pass) => pass,
            Took::Run(turn, _ticket) | Took::Drop(turn, _ticket) => self.end(turn, Outcome::Done),
        }
    }
}

// What a pool has grown since, by so many ready jobs.
fn growth_since(pool: &Pool<Ticket>, before: Before, ready: usize) -> Grown
    requires { before.workers ≤ pool.now.counts.workers }
    ensures started { result.started ≡ pool.now.counts.workers - before.workers }
    ensures refused { result.refused ≡
        is_due ready pool.now.counts.idle pool.now.counts.workers before.limit 0 }
    ensures order { pool.now.counts.idle ≤ pool.now.counts.workers }
{
    let workers = pool.thread_count();
    Grown {
        started: (workers - before.workers) as u64,
        refused: is_start_due(ready, pool.idle_count(), workers, before.limit),
    }
}

// The number of the next start after a growth: the greatest number is given to nothing, and stays.
fn next_after(next: u64, growth: Grown) -> u64
    requires { next + growth.started ≤ greatest }
    ensures { result ≡ number_after (next + growth.started) growth.refused }
{
    let number = next + growth.started;
    if growth.refused && number < u64::MAX {
        return number + 1;
    }
    number
}

// Whether one more start is due.
fn is_start_due(ready: usize, idle: usize, workers: usize, limit: usize) -> bool
    ensures { result ≡ is_due ready idle workers limit 0 }
{
    match idle.checked_mul(5) {
        Some(most) => most < ready && workers < limit,
        None => false,
    }
}
