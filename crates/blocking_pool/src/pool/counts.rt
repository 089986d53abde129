//! The counts of a pool's workers, and how they grow.
ghost use Rattle.std.specs.Prelude.{◌≡◌, ◌<◌, ◌≤◌, ◌+◌, ◌-◌, ◌==◌, not, IsTrue, true, false, Some, None, ℕ, Bool};
ghost use Rattle.blocking_pool.specs.Counts.{limit_of, no_workers, after_ring, after_pickup, after_release, after_arrival, after_stop, after_limit, after_bell, AreInOrder};
ghost use Rattle.blocking_pool.specs.Growth.{Growth, Grows, StartAnswer, Refusals, is_due, one_more, none_more, greatest};
ghost use Rattle.blocking_pool.specs.Starters.{asked, IsSteady};
ghost use Rattle.std.specs.Bool.{OnTrue, OnFalse};
ghost use Rattle.std.specs.Prelude.{◌&&◌, nat_lt};

use crate::pool::bell::BellKind;
use crate::pool::starter::Starter;
use std::marker::Model;
use std::mem;

/// The workers of a pool.
#[derive(Drop)]
pub(crate) struct Counts {
    workers: usize,
    idle: usize,
    arriving: usize,
    limit: Option<usize>,
    setting: usize,
    next_worker: u64,
    bell: BellKind,
}

impl Model for Counts {
    ghost use Rattle.std.specs.Prelude.{◌≤◌};
    ghost use Rattle.blocking_pool.specs.Counts.{Counts as Numbers, counts_code};

    ghost Value = { Numbers };

    ghost coded = { counts_code };

    ghost view = { λ c. record {
      workers = c.workers;
      idle = c.idle;
      arriving = c.arriving;
      limit = c.limit;
      setting = c.setting;
      next_worker = c.next_worker;
      bell = c.bell;
    } };

    ghost invariant = { λ c. (c.arriving ≤ c.idle) × (c.idle ≤ c.workers) };
}

impl Counts {
    /// No worker. The next one has this number.
    pub(crate) fn new(setting: usize, next_worker: u64) -> Self
        ensures { result ≡ no_workers setting next_worker }
    {
        Counts {
            workers: 0,
            idle: 0,
            arriving: 0,
            limit: None,
            setting,
            next_worker,
            bell: BellKind::Silent,
        }
    }

    pub(crate) fn workers(&self) -> usize
        ensures value { result ≡ self.now.workers }
        ensures order { AreInOrder self.now }
    {
        self.workers
    }

    pub(crate) fn idle(&self) -> usize
        ensures { result ≡ self.now.idle }
    {
        self.idle
    }

    pub(crate) fn arriving(&self) -> usize
        ensures { result ≡ self.now.arriving }
    {
        self.arriving
    }

    pub(crate) fn limit(&self) -> Option<usize>
        ensures { result ≡ self.now.limit }
    {
        self.limit
    }

    /// A worker takes a job up.
    pub(crate) fn begin_job(&mut self)
        requires { self.old.arriving < self.old.idle }
        ensures { self.new ≡ after_pickup self.old }
    {
        self.idle -= 1;
    }

    /// A worker's job is over.
    pub(crate) fn end_job(&mut self)
        requires { self.old.idle < self.old.workers }
        ensures { self.new ≡ after_release self.old }
    {
        self.idle += 1;
    }

    /// A started worker arrives.
    pub(crate) fn arrive(&mut self)
        requires { 0 < self.old.arriving }
        ensures { self.new ≡ after_arrival self.old }
    {
        self.arriving -= 1;
    }

    /// One waiting worker is to be notified.
    pub(crate) fn ring_one(&mut self)
        ensures { self.new ≡ after_ring BellKind.One self.old }
    {
        if matches!(self.bell, BellKind::Silent) {
            self.bell = BellKind::One;
        }
    }

    /// So many waiting workers are to be notified.
    pub(crate) fn ring(&mut self, ring: BellKind)
        ensures { self.new ≡ after_ring ring self.old }
    {
        match ring {
            BellKind::Silent => {}
            BellKind::One => self.ring_one(),
            BellKind::All => self.bell = BellKind::All,
        }
    }

    /// A worker stops. One is notified where a job is queued.
    pub(crate) fn stop(&mut self, is_queued: bool)
        requires { self.old.arriving < self.old.idle }
        ensures { self.new ≡ after_stop is_queued self.old }
    {
        self.workers -= 1;
        self.idle -= 1;
        if is_queued {
            self.ring_one();
        }
    }

    /// Whether there are more workers than the limit.
    pub(crate) fn is_over_limit(&self) -> bool
        ensures { result ≡ nat_lt (limit_of self.now) self.now.workers }
    {
        self.limit.unwrap_or(self.setting) < self.workers
    }

    /// Sets the limit. All are notified where a limit stood and was greater.
    pub(crate) fn set_limit(&mut self, limit: usize)
        ensures { self.new ≡ after_limit limit self.old }
    {
        if self.limit.is_some_and(|earlier| limit < earlier) {
            self.bell = BellKind::All;
        }
        self.limit = Some(limit);
    }

    /// Whom to notify, since this was last asked.
    pub(crate) fn take_ring(&mut self) -> BellKind
        ensures ring { result ≡ self.old.bell }
        ensures silent { self.new ≡ after_bell self.old }
    {
        mem::replace(&mut self.bell, BellKind::Silent)
    }

    fn is_start_due(&self, ready: usize, limit: usize) -> bool
        ensures { result ≡ is_due ready self.now.idle self.now.workers limit 0 }
    {
        match self.idle.checked_mul(5) {
            Some(most) => most < ready && self.workers < limit,
            None => false,
        }
    }

    // Asks for one more worker. A refusal uses the number up and lowers the limit.
    fn start<S: Starter>(&mut self, starter: &mut S) -> bool
        requires { self.old.workers < usize.MAX }
        ensures started { OnTrue result (self.new ≡ one_more self.old) }
        ensures refused { OnFalse result (self.new ≡ none_more self.old) }
        ensures answer { StartAnswer (S.may_answer starter.old) self.old.next_worker (not result) }
        ensures steady { IsSteady S.Starter starter.old starter.new }
        ensures refusals { Refusals (not result && not (self.old.next_worker == greatest))
            (S.refusals starter.old) (S.refusals starter.new) }
    {
        let number = self.next_worker;
        if number == u64::MAX {
            self.limit = Some(self.workers.max(1));
            return false;
        }
        self.next_worker += 1;
        if starter.start(number).is_err() {
            self.limit = Some(self.workers.max(1));
            return false;
        }
        self.workers += 1;
        self.idle += 1;
        self.arriving += 1;
        self.bell = BellKind::All;
        true
    }

    /// Starts workers while so many ready jobs are more than five times the idle workers, up to the limit that held
    /// when this began. It ends at the first start that is refused.
    pub(crate) fn grow<S: Starter>(&mut self, ready: usize, starter: &mut S)
        ensures growth { (growth : Growth) ×
            Grows (asked S.Starter starter.old starter.new) ready self.old self.new growth }
        ensures steady { IsSteady S.Starter starter.old starter.new }
    {
        let limit = self.limit.unwrap_or(self.setting);
        self.limit = Some(limit);
        'starts: while self.is_start_due(ready, limit) {
            if !self.start(starter) {
                return;
            }
        }
    }
}
