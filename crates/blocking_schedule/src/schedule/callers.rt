//! What callers do: one section each.
ghost use Rattle.blocking_schedule.specs.Kept.{IsSound};
ghost use Rattle.blocking_schedule.specs.Steps.{Adds, PassesBy, SetsLimit, Sweeps};

use crate::place::{Next, Place};
use crate::schedule::Schedule;
use blocking_pool::pool::BellKind;

impl Schedule {
    /// A caller adds a job, or wakes one.
    pub(crate) fn add(&mut self, who: usize)
        requires { IsSound self.old }
        ensures sound { IsSound self.new }
        ensures takes { Adds who self.old self.new }
    {
        let Some(Place::Outside) = self.place(who) else {
            return;
        };
        if self.is_locked || self.pool.rung == u64::MAX {
            return;
        }
        self.threads[who] = Place::Called(BellKind::One, Next::Return);
        self.is_locked = true;
        self.pool.rung += 1;
    }

    /// A caller's sweep puts jobs back.
    pub(crate) fn sweep(&mut self, who: usize, count: u64)
        requires { IsSound self.old }
        ensures sound { IsSound self.new }
        ensures takes { Sweeps who count self.old self.new }
    {
        let Some(Place::Outside) = self.place(who) else {
            return;
        };
        let Some(pool) = self.pool.after_sweep(count) else {
            return;
        };
        if self.is_locked {
            return;
        }
        self.threads[who] = Place::Called(BellKind::One, Next::Return);
        self.is_locked = true;
        self.pool = pool;
    }

    /// A caller sets the limit. All are to be rung where a limit stood and was greater.
    pub(crate) fn set_limit(&mut self, who: usize, limit: u64)
        requires { IsSound self.old }
        ensures sound { IsSound self.new }
        ensures takes { SetsLimit who limit self.old self.new }
    {
        let Some(Place::Outside) = self.place(who) else {
            return;
        };
        if self.is_locked || limit == 0 {
            return;
        }
        let bell = self.pool.bell_of_limit(limit);
        self.threads[who] = Place::Called(bell, Next::Return);
        self.is_locked = true;
        self.pool.limit = limit;
        self.pool.is_limit_set = true;
    }

    /// A caller's section that queues nothing and rings nobody.
    pub(crate) fn pass_by(&mut self, who: usize)
        requires { IsSound self.old }
        ensures sound { IsSound self.new }
        ensures takes { PassesBy who self.old self.new }
    {
        let Some(Place::Outside) = self.place(who) else {
            return;
        };
        if self.is_locked {
            return;
        }
        self.threads[who] = Place::Called(BellKind::Silent, Next::Return);
        self.is_locked = true;
    }
}
