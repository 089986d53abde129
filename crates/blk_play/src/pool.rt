//! The pool that a script is played on.
use crate::call::{CallPlan, CallTrack, Inside, Scripted};
use crate::copying::Linked;
use crate::gates::Gates;
use crate::handle::Handle;
use crate::owner::{Lending, Opened};
use crate::stage::{Standing, Terms, Wakes};
use crate::tasks::Awaited;
use crate::waiter::Waiter;
use crate::work::Carrier;
use blocking::{
    Copier, Executor, Job, Runtime, Unblock, set_client_limit, set_max_blocking_threads,
    unblock_for,
};
use blocking_anytime::Open;
use blocking_core::pool::{JobNo, Refusal, Refused, WakeNote, Woke};
use std::alloc::Global;
use std::io;
use std::sync::Arc;

/// How many clients have a count of their own: those of the lowest numbers, from 1.
const CLIENTS: usize = 16;

/// The counts of the calls that are inside.
#[derive(Drop)]
pub(crate) struct AllInside {
    // By client. (Of client 0 and of those beyond nobody counts.)
    each: Vec<Arc<Inside>>,
}

impl AllInside {
    pub(crate) fn new(alloc: Global) -> io::Result<AllInside> {
        let mut each = Vec::new(alloc);
        for _ in 0..CLIENTS {
            each.push(Arc::new(alloc, Inside::new())?)?;
        }
        Ok(AllInside { each })
    }

    fn of(&self, client: u32) -> io::Result<Option<Arc<Inside>>> {
        match self.each.get(usize::try_from(client).unwrap_or(usize::MAX)) {
            Some(inside) if client > 0 => Ok(Some(Arc::try_clone(inside)?)),
            _ => Ok(None),
        }
    }

    fn limit_each(&self, most: usize, is_at_rest: bool) {
        for inside in self.each.iter() {
            inside.allow(most, is_at_rest);
        }
    }

    fn too_many(&self) -> usize {
        self.each.iter().fold(0usize, |sum, inside| sum.saturating_add(inside.too_many()))
    }
}

/// The pool.
#[derive(Drop)]
pub(crate) struct Pool<J: Job, H: Runtime> {
    executor: Executor<J, H>,
    gates: Arc<Gates>,
    inside: Arc<AllInside>,
}

impl<J: Job, H: Runtime> Pool<J, H> {
    pub(crate) fn new(
        executor: Executor<J, H>,
        gates: Arc<Gates>,
        inside: Arc<AllInside>,
    ) -> Pool<J, H> {
        Pool {
            executor,
            gates,
            inside,
        }
    }
}

fn why_of_refused<B: Drop>(refused: Refused<B>) -> Refusal {
    refused.why
}

// An owner as one that can't be closed, unless it is.
fn opened<J: Job, H: Runtime>(lending: Lending<J, H>) -> Option<Opened<J, H>> {
    match lending {
        Lending::Owner(owner) => Open::from_owner(owner).ok(),
        Lending::Open(owner) => Some(owner),
        Lending::Taking(_) | Lending::Taken(_) | Lending::Nothing => None,
    }
}

impl<J: Carrier<H>, H: Runtime + Drop> Wakes for Pool<J, H> {
    fn wake(&self, job: JobNo) -> Woke {
        self.executor.wake(WakeNote::new(job))
    }
}

impl<J: Job, H: Runtime + Drop> Pool<J, H> {
    /// Lends a handle.
    pub(crate) fn lend(&self, handle: Handle, terms: Terms) -> io::Result<Lending<J, H>> {
        let executor = self.executor.try_clone()?;
        let executor = match terms.client {
            Some(client) => executor.for_client(client),
            None => executor,
        };
        let owner = match terms.capacity {
            Some(capacity) if capacity > 0 => Unblock::with_capacity(capacity, executor, handle),
            _ => Unblock::new(executor, handle),
        };
        if terms.can_close {
            return Ok(Lending::Owner(owner));
        }
        Ok(match Open::from_owner(owner) {
            Ok(open) => Lending::Open(open),
            Err(owner) => Lending::Owner(owner),
        })
    }

    /// Sweeps the pool, and returns how many marked jobs it queued.
    pub(crate) fn sweep(&self) -> usize {
        self.executor.sweep()
    }

    /// Sets the limit. Returns false for 0.
    pub(crate) fn set_limit(&self, limit: usize) -> bool {
        if limit == 0 {
            return false;
        }
        set_max_blocking_threads(&self.executor, limit);
        true
    }

    /// Sets the limit for each client. Returns false for 0.
    pub(crate) fn set_client_limit(&self, limit: Option<usize>) -> bool {
        if let Some(0) = limit {
            return false;
        }
        let most = limit.unwrap_or(usize::MAX);
        let counts = self.executor.counts();
        let is_at_rest = counts.queued == 0 && counts.running == 0;
        self.inside.limit_each(most, is_at_rest);
        set_client_limit(&self.executor, limit);
        true
    }

    /// The pool's counts.
    pub(crate) fn standing(&self) -> Standing {
        let counts = self.executor.counts();
        Standing {
            workers: counts.workers,
            idle: counts.idle,
            arriving: counts.arriving,
            running: counts.running,
            queued: counts.queued,
        }
    }

    /// How often more calls ran at once than a limit allows.
    pub(crate) fn too_many(&self) -> usize {
        self.inside.too_many()
    }

    /// The most calls of a client that ran at once.
    pub(crate) fn most_inside(&self, client: u32) -> usize {
        let client = usize::try_from(client).unwrap_or(usize::MAX);
        self.inside
            .each
            .get(client)
            .map_or(0, |inside| inside.seen())
    }
}

impl<J: Carrier<H>, H: Runtime + Drop> Pool<J, H> {
    /// Makes a call.
    pub(crate) fn call(
        &self,
        plan: CallPlan,
        track: Arc<CallTrack>,
    ) -> io::Result<Result<Awaited<H>, Refusal>> {
        let gates = Arc::try_clone(&self.gates)?;
        let inside = self.inside.of(plan.client)?;
        let call = Scripted::new(self.executor.runtime(), plan, track, gates, inside);
        Ok(match unblock_for(&self.executor, plan.client, call) {
            Ok(task) => Ok(Awaited::Task(task)),
            Err(refused) => Err(why_of_refused(refused)),
        })
    }

    /// Adds a job that waits.
    pub(crate) fn add(&self, client: u32, job: Waiter) -> Result<JobNo, Refusal> {
        match self.executor.add_for(client, J::wrap(job)) {
            Ok(added) => Ok(added.number()),
            Err(refused) => Err(why_of_refused(refused)),
        }
    }

    /// Makes a copier with pieces of this size. Returns None for a closed owner, and for pieces of no bytes.
    pub(crate) fn link(
        &self,
        reader: Lending<J, H>,
        writer: Lending<J, H>,
        piece: usize,
    ) -> io::Result<Option<Linked<J, H>>> {
        let (Some(reader), Some(writer)) = (opened(reader), opened(writer)) else {
            return Ok(None);
        };
        if piece == 0 {
            return Ok(None);
        }
        let copier = Copier::new(self.executor.runtime().alloc(), reader, writer, piece)?;
        Ok(Some(Linked { copier }))
    }
}
