//! The numbers of a pool.
ghost use Rattle.std.specs.Prelude.{◌≡◌, ◌+◌, ◌<◌, ◌≤◌, ◌⊎◌, true, false, None, IfSome};

use crate::place::Origin;
use blocking_pool::pool::BellKind;

/// What of a pool these steps ask for. Its queued jobs are counted by how they came into the queue.
#[derive(Clone, Copy)]
pub struct PoolCounts {
    /// The workers, arrived or not.
    pub workers: u64,
    /// Those of them that run no job.
    pub idle: u64,
    /// Those of the idle ones that haven't arrived.
    pub arriving: u64,
    /// The limit of workers: the one that stands, else the setting's.
    pub limit: u64,
    /// Whether a limit stands.
    pub is_limit_set: bool,
    /// The queued jobs for which a worker was rung each.
    pub rung: u64,
    /// The queued jobs that a sweep put back together with others.
    pub swept: u64,
}

impl PoolCounts {
    ghost use Rattle.blocking_schedule.specs.Queues.{has_job, must_stop, front_of, IsSweptFrom, IsTakenFrom, MustStop, RingsForLimit};
    ghost use Rattle.blocking_pool.specs.Growth.{greatest};

    /// No worker and no job, with this limit by the setting.
    pub(crate) fn none(limit: u64) -> PoolCounts
        ensures { result ≡ record { workers = 0; idle = 0; arriving = 0; limit = limit; is_limit_set = false; rung = 0; swept = 0 } }
    {
        PoolCounts {
            workers: 0,
            idle: 0,
            arriving: 0,
            limit,
            is_limit_set: false,
            rung: 0,
            swept: 0,
        }
    }

    /// Whether a job is queued.
    pub(crate) fn has_job(&self) -> bool
        ensures { result ≡ has_job self.now }
    {
        self.rung > 0 || self.swept > 0
    }

    /// Whether a worker that has waited must stop: there are more workers than the limit, or its time was up and no job is queued.
    pub(crate) fn must_stop(&self, is_late: bool) -> bool
        ensures stops { result ≡ true → MustStop is_late self.now }
        ensures stays { result ≡ false → self.now.workers ≤ self.now.limit }
        ensures is { result ≡ must_stop is_late self.now }
    {
        self.limit < self.workers || (is_late && !self.has_job())
    }

    /// The pool once a sweep has put so many jobs back: one by itself, or several together. None where there are none, or too many to
    /// count.
    pub(crate) fn after_sweep(&self, count: u64) -> Option<PoolCounts>
        ensures swept { IfSome result (IsSweptFrom self.now count) }
        ensures none { result ≡ None → 0 < count → greatest < self.now.rung + self.now.swept + count }
    {
        if count == 1 {
            return Some(PoolCounts {
                rung: self.rung.checked_add(1)?,
                ..*self
            });
        }
        if count == 0 {
            return None;
        }
        Some(PoolCounts {
            swept: self.swept.checked_add(count)?,
            ..*self
        })
    }

    /// Whom a new limit rings: all, where a limit stood and was greater.
    pub(crate) fn bell_of_limit(&self, limit: u64) -> BellKind
        ensures { RingsForLimit self.now limit result }
    {
        if self.is_limit_set && limit < self.limit {
            BellKind::All
        } else {
            BellKind::Silent
        }
    }

    /// The origin of the job that is taken next: this one where there is such a job, else the other.
    pub(crate) fn front(&self, wanted: Origin) -> Option<Origin>
        ensures queued { IsTakenFrom self.now result }
        ensures is { result ≡ front_of wanted self.now }
    {
        match wanted {
            Origin::Swept if self.swept > 0 => Some(Origin::Swept),
            Origin::Rung if self.rung > 0 => Some(Origin::Rung),
            _ if self.rung > 0 => Some(Origin::Rung),
            _ if self.swept > 0 => Some(Origin::Swept),
            _ => None,
        }
    }
}
