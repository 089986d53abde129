//! The table of the jobs that aren't over, their queue, and those of them that are parked.
ghost use Rattle.std.specs.Prelude.{◌≡◌, ◌+◌, ◌<◌, ◌≤◌, ◌++◌, ◌∷◌, [], ℕ, true, false, length, OnOk, IfSome, IsSome, Some, None};
ghost use Rattle.std.specs.FinMap as map;
ghost use Rattle.blocking_pool.specs.Batch.{serials_of};
ghost use Rattle.blocking_pool.specs.Clients.{tally_at, no_jobs, has_room_at, enrolled, stopped};
ghost use Rattle.blocking_pool.specs.Growth.{greatest};
ghost use Rattle.blocking_pool.specs.Lists.{IsOnce};
ghost use Rattle.blocking_pool.specs.Jobs.{one_if, new_job, job_of, standing_of, is_running_as, amend, entry_after_requeue, jobs_after_requeue, entry_after_park, entry_after_wake, entry_after_cancel, has_value, value_at, HaveValues};
ghost use Rattle.blocking_pool.specs.Tables.{HoldsParked, IsAskedAt, GathersAt};
ghost use Rattle.std.specs.List.{All};
ghost use Rattle.std.specs.Option.{option_copied_mut};
ghost use Rattle.blocking_pool.specs.declared.pool.standing.Standing.TheVariants.{Parked};

use crate::pool::batch::Batch;
use crate::pool::chain::Chain;
use crate::pool::job::Job;
use crate::pool::number::JobNo;
use crate::pool::queue::Queue;
use crate::pool::standing::Standing;
use slab::Slab;
use std::alloc::{AllocError, Global};
use std::marker::Model;

// A job that isn't over.
#[derive(Drop)]
struct Entry<J: Drop> {
    serial: u64,
    client: u32,
    standing: Standing,
    woken: bool,
    cancelled: bool,
    // The worker has it while the job runs.
    value: Option<J>,
}

/// How a job stands in the table.
#[derive(Clone, Copy)]
pub(crate) struct Found {
    pub standing: Standing,
    pub woken: bool,
    pub cancelled: bool,
}

/// The first ready job, as it is taken.
#[derive(Drop)]
pub(crate) struct Front<J: Drop> {
    pub no: JobNo,
    pub value: J,
    pub cancelled: bool,
}

/// The jobs that aren't over, each at a place of its own. Two rows lead through the places: the queue, which knows which of
/// them are ready, and the parked jobs in the order in which they parked.
#[derive(Drop)]
pub(crate) struct Table<J: Drop> {
    entries: Slab<Entry<J>>,
    queue: Queue,
    parked: Chain,
}

impl<J: Drop> Model for Table<J> {
    ghost use Rattle.blocking_pool.specs.Tables.{Table as Listing, table_code, table_of, IsKept};

    ghost Value = { Listing J };

    ghost coded = { table_code J.code };

    ghost view = { λ t. table_of t.entries t.queue t.parked };

    ghost invariant = { λ t. IsKept t.entries t.queue t.parked };
}

impl<J: Drop> Table<J> {
    ghost use Rattle.blocking_pool.specs.Tables.{TakesFirst, MakesRoom, Becomes, HasJobs, MayEnter, MayLeave, found_of, ready_of, retallied, client_at, tally_for, is_prepared, left};
    ghost use Rattle.std.specs.Borrow.{sem};
    ghost use Rattle.blocking_pool.specs.TableLends.{lends_value};

    /// No job, and no client limit. Takes no memory.
    pub(crate) fn new(alloc: Global) -> Self
        ensures queue { result.queue ≡ [] }
        ensures jobs { result.jobs ≡ map.empty }
        ensures tallies { (client : ℕ) → tally_at result.tallies client ≡ no_jobs }
        ensures limit { result.client_limit ≡ None }
        ensures room { result.room ≡ 0 }
    {
        Table {
            entries: Slab::new(alloc),
            queue: Queue::new(alloc),
            parked: Chain::new(alloc),
        }
    }

    /// How many jobs are queued.
    pub(crate) fn queue_len(&self) -> usize
        ensures value { result ≡ length self.now.queue }
        ensures values { HaveValues self.now.jobs }
    {
        self.queue.len()
    }

    /// How many jobs are ready: queued, and their client has room.
    pub(crate) fn ready_len(&self) -> usize
        ensures { result ≡ length (ready_of self.now) }
    {
        self.queue.ready_len()
    }

    /// How many jobs are ready, with one more of this client.
    pub(crate) fn ready_with(&self, client: u32) -> usize
        requires { length (ready_of self.now) < greatest }
        ensures { result ≡ length (ready_of self.now) + one_if (has_room_at self.now.client_limit self.now.tallies client) }
    {
        let ready = self.ready_len();
        if self.queue.has_room(client) {
            ready + 1
        } else {
            ready
        }
    }

    /// The client limit, if one is set.
    pub(crate) fn client_limit(&self) -> Option<usize>
        ensures { result ≡ self.now.client_limit }
    {
        self.queue.limit()
    }

    /// Sets the client limit, or sets none. Goes through the clients where a limit is to stand, and through the queue where one
    /// begins or goes.
    pub(crate) fn set_client_limit(&mut self, limit: Option<usize>)
        requires { IfSome limit (λ most. 0 < most) }
        ensures same { HasJobs self.old (record self.new { client_limit = self.old.client_limit }) self.old.jobs }
        ensures limit { self.new.client_limit ≡ limit }
    {
        self.queue.set_limit(limit);
    }

    /// Makes room for one more job of this client, here and where a sweep gathers, so that nothing that may happen to it
    /// later takes memory.
    pub(crate) fn reserve(&mut self, due: &mut Batch, client: u32) -> Result<(), AllocError>
        requires { self.old.room ≤ due.old.room }
        ensures same { MakesRoom self.old self.new }
        ensures room { OnOk result (is_prepared self.new client ≡ true) }
        ensures batch { self.new.room ≤ due.new.room }
    {
        self.entries.reserve(1)?;
        let place = self.entries.vacant_key();
        let count = place.checked_add(1).ok_or(AllocError)?;
        due.make_room(count)?;
        self.queue.make_room(place)?;
        self.parked.make_room(place)?;
        self.queue.make_seat(client)
    }

    /// Enters a new job at the queue's end.
    pub(crate) fn insert(&mut self, serial: u64, client: u32, value: J) -> JobNo
        requires room { is_prepared self.old client ≡ true }
        requires fresh { map.get self.old.jobs serial ≡ None }
        requires left { (tally_at self.old.tallies client).jobs < greatest }
        ensures serial { result.serial ≡ serial }
        ensures becomes { Becomes self.old self.new (self.old.queue ++ serial ∷ [])
            (map.insert self.old.jobs serial (new_job result.place client value))
            (retallied self.old.tallies client enrolled) }
    {
        let place = self.entries.insert_reserved(Entry {
            serial,
            client,
            standing: Standing::Queued,
            woken: false,
            cancelled: false,
            value: Some(value),
        });
        self.queue.enroll(client);
        self.queue.enter(place, client);
        JobNo::new(place, serial)
    }

    /// Takes the first ready job out of the queue, with its value.
    pub(crate) fn take_first(&mut self) -> Option<Front<J>>
        requires { (client : ℕ) → (tally_at self.old.tallies client).running < greatest }
        ensures { TakesFirst self.old result self.new }
    {
        let place = self.queue.take()?;
        let Some(entry) = self.entries.get_mut(place) else {
            unreachable!()
        };
        entry.standing = Standing::Running;
        entry.woken = false;
        let no = JobNo::new(place, entry.serial);
        let cancelled = entry.cancelled;
        match entry.value.take() {
            Some(value) => Some(Front {
                no,
                value,
                cancelled,
            }),
            None => unreachable!(),
        }
    }

    /// What is known of the job of this number, if it isn't over.
    pub(crate) fn find(&self, no: JobNo) -> Option<Found>
        ensures { result ≡ found_of (job_of self.now.jobs no) }
    {
        let entry = self.entries.get(no.place())?;
        if entry.serial != no.serial() {
            return None;
        }
        Some(Found {
            standing: entry.standing,
            woken: entry.woken,
            cancelled: entry.cancelled,
        })
    }

    /// How the job of this number stands, if it isn't over.
    pub(crate) fn standing(&self, no: JobNo) -> Option<Standing>
        ensures { result ≡ standing_of self.now.jobs no }
    {
        Some(self.find(no)?.standing)
    }

    /// Whether this is the number of a running job.
    pub(crate) fn is_running(&self, no: JobNo) -> bool
        ensures { result ≡ is_running_as self.now.jobs no }
    {
        match self.standing(no) {
            Some(Standing::Running) => true,
            _ => false,
        }
    }

    /// Flags a job as woken.
    pub(crate) fn mark_woken(&mut self, no: JobNo)
        requires { IsSome (job_of self.old.jobs no) }
        ensures { HasJobs self.old self.new (amend self.old.jobs no.serial entry_after_wake) }
    {
        let Some(entry) = self.entries.get_mut(no.place()) else {
            unreachable!()
        };
        entry.woken = true;
    }

    /// Flags a job as cancelled.
    pub(crate) fn mark_cancelled(&mut self, no: JobNo)
        requires { IsSome (job_of self.old.jobs no) }
        ensures { HasJobs self.old self.new (amend self.old.jobs no.serial entry_after_cancel) }
    {
        let Some(entry) = self.entries.get_mut(no.place()) else {
            unreachable!()
        };
        entry.cancelled = true;
    }

    /// Lets a running job wait for a wake, with its value.
    pub(crate) fn park(&mut self, no: JobNo, value: J)
        requires runs { is_running_as self.old.jobs no ≡ true }
        requires counted { 0 < (tally_for self.old no).running }
        ensures { Becomes self.old self.new self.old.queue
            (amend self.old.jobs no.serial (entry_after_park value))
            (retallied self.old.tallies (client_at self.old no) stopped) }
    {
        let place = no.place();
        self.parked.push_back(place);
        let Some(entry) = self.entries.get_mut(place) else {
            unreachable!()
        };
        entry.standing = Standing::Parked;
        entry.value = Some(value);
        let client = entry.client;
        self.queue.stop(client);
    }

    // Whether the job of this number has its value here.
    fn has_value(&self, no: JobNo) -> bool
        ensures { result ≡ has_value (job_of self.now.jobs no) }
    {
        match self.standing(no) {
            None | Some(Standing::Running) => false,
            Some(_) => true,
        }
    }

    /// The value of a job that doesn't run.
    pub(crate) fn value_mut(&mut self, no: JobNo) -> Option<&mut J>
        ensures* lends { sem 𝓛 (lends_value J.row self.entry no result) }
        ensures value { option_copied_mut result ≡ value_at (job_of self.old.jobs no) }
    {
        if !self.has_value(no) {
            return None;
        }
        let entry = self.entries.get_mut(no.place())?;
        entry.value.as_mut()
    }

    /// Lets a parked job stand at the queue's end again.
    pub(crate) fn enter_again(&mut self, no: JobNo)
        requires { MayEnter self.old no }
        ensures { Becomes self.old self.new (self.old.queue ++ no.serial ∷ [])
            (amend self.old.jobs no.serial entry_after_requeue) (tally_at self.old.tallies) }
    {
        let place = no.place();
        self.parked.unlink(place);
        let Some(entry) = self.entries.get_mut(place) else {
            unreachable!()
        };
        entry.standing = Standing::Queued;
        let client = entry.client;
        self.queue.enter(place, client);
    }

    /// Lets a running job leave the table.
    pub(crate) fn remove(&mut self, no: JobNo)
        requires { MayLeave self.old no }
        ensures { Becomes self.old self.new self.old.queue (map.remove self.old.jobs no.serial)
            (retallied self.old.tallies (client_at self.old no) left) }
    {
        let Some(entry) = self.entries.try_remove(no.place()) else {
            unreachable!()
        };
        self.queue.stop(entry.client);
        self.queue.discharge(entry.client);
    }
}

impl<J: Job> Table<J> {
    ghost use Rattle.blocking_pool.specs.Tables.{Becomes, MayEnter, AreCounted, Gathers, SweepsAll};

    // Gathers the parked jobs that bear a mark, in the order in which they parked.
    fn gather_due(&self, due: &mut Batch)
        requires { self.now.room ≤ due.old.room }
        ensures gathered { Gathers J.may_answer self.now.jobs due.new.numbers }
        ensures kept { due.old.room ≤ due.new.room }
    {
        gather(&self.entries, &self.parked, due);
    }

    // Lets parked jobs stand at the queue's end again, in this order.
    fn enter_all(&mut self, due: &[JobNo])
        requires once { IsOnce (serials_of due.now) }
        requires parked { All (λ no. MayEnter self.old no) due.now }
        ensures { Becomes self.old self.new (self.old.queue ++ serials_of due.now)
            (jobs_after_requeue self.old.jobs (serials_of due.now)) (tally_at self.old.tallies) }
    {
        for no in due {
            self.enter_again(*no);
        }
    }

    /// Puts the parked jobs that bear a mark back at the queue's end, in the order in which they were accepted.
    pub(crate) fn sweep(&mut self, due: &mut Batch)
        requires room { self.old.room ≤ due.old.room }
        requires counted { AreCounted self.old }
        ensures swept { SweepsAll J.may_answer self.old self.new }
        ensures kept { due.old.room ≤ due.new.room }
    {
        self.gather_due(due);
        due.sort();
        self.enter_all(due.numbers());
    }
}

// The number of the job at a place, if the job bears a mark.
fn marked_at<J: Job>(entries: &Slab<Entry<J>>, place: usize) -> Option<JobNo>
    ensures { IsAskedAt J.may_answer entries.now place result }
{
    let entry = entries.get(place)?;
    if !entry.value.as_ref()?.abandoned() {
        return None;
    }
    Some(JobNo::new(place, entry.serial))
}

// Gathers the numbers of the jobs at the parked places that bear a mark.
fn gather<J: Job>(entries: &Slab<Entry<J>>, parked: &Chain, due: &mut Batch)
    requires parked { HoldsParked entries.now parked.now }
    requires room { parked.now.room ≤ due.old.room }
    ensures gathered { GathersAt J.may_answer entries.now parked.now.places due.new.numbers }
    ensures kept { due.old.room ≤ due.new.room }
{
    due.clear();
    let mut next = parked.first();
    'places: while let Some(place) = next {
        if let Some(no) = marked_at(entries, place) {
            due.push(no);
        }
        next = parked.after(place);
    }
}
