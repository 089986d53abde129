//! What workers do in sections, and between them.
ghost use Rattle.std.specs.Prelude.{◌≡◌, Some, slice_get};
ghost use Rattle.blocking_schedule.specs.Kept.{IsSound};
ghost use Rattle.blocking_schedule.specs.Steps.{Arrives, DecidesSwept, DecidesUnswept, Ends, GoesOn, IsLate, Refuses, Returns, Starts, StaysOrStops, SweepsLate, TakesJob, TimesOut, Waits, WakesUp};

use crate::place::{
    Next, Origin, Place, Waking, bell_of_stop, is_late, is_rung, late, waking_of, was_swept,
};
use crate::schedule::Schedule;
use blocking_pool::pool::BellKind;

impl Schedule {
    /// A started worker arrives. It takes next.
    pub(crate) fn arrive(&mut self, who: usize)
        requires { IsSound self.old }
        ensures sound { IsSound self.new }
        ensures takes { Arrives who self.old self.new }
    {
        let Some(Place::Started) = self.place(who) else {
            return;
        };
        if self.is_locked {
            return;
        }
        self.threads[who] = Place::Passing(false, BellKind::Silent);
        self.is_locked = true;
        self.pool.arriving -= 1;
    }

    /// A turn ends, and its worker takes next. One that had a swept job stands for the ring that the others share.
    pub(crate) fn end(&mut self, who: usize, was_woken: bool)
        requires { IsSound self.old }
        ensures sound { IsSound self.new }
        ensures takes { Ends who was_woken self.old self.new }
    {
        let Some(Place::Turn(origin)) = self.place(who) else {
            return;
        };
        if self.is_locked || self.pool.rung == u64::MAX {
            return;
        }
        prove!(self.pool.idle < self.pool.workers);
        let chosen = was_swept(origin);
        if was_woken {
            self.threads[who] = Place::Passing(chosen, BellKind::One);
            self.is_locked = true;
            self.pool.idle += 1;
            self.pool.rung += 1;
            return;
        }
        self.threads[who] = Place::Passing(chosen, BellKind::Silent);
        self.is_locked = true;
        self.pool.idle += 1;
    }

    /// A turn goes on after a section.
    pub(crate) fn go_on(&mut self, who: usize)
        requires { IsSound self.old }
        ensures sound { IsSound self.new }
        ensures takes { GoesOn who self.old self.new }
    {
        let Some(Place::Turn(origin)) = self.place(who) else {
            return;
        };
        if self.is_locked {
            return;
        }
        self.threads[who] = Place::Called(BellKind::Silent, Next::Turn(origin));
        self.is_locked = true;
    }

    /// A worker takes the lock after its look. It sleeps only where it sees that no job is queued and that it need not stop, and
    /// lets the lock go by that.
    pub(crate) fn wait(&mut self, who: usize)
        requires { IsSound self.old }
        ensures sound { IsSound self.new }
        ensures takes { Waits who self.old self.new }
    {
        let Some(Place::Looked(claimed)) = self.place(who) else {
            return;
        };
        if self.is_locked {
            return;
        }
        if !self.pool.has_job() && self.pool.workers <= self.pool.limit {
            self.threads[who] = Place::Sleeping;
            return;
        }
        self.threads[who] = Place::Waited(waking_of(claimed));
        self.is_locked = true;
    }

    /// A worker that sleeps wakes with no ring.
    pub(crate) fn wake_up(&mut self, who: usize, why: Waking)
        requires { IsSound self.old }
        ensures sound { IsSound self.new }
        ensures takes { WakesUp who why self.old self.new }
    {
        let Some(Place::Sleeping) = self.place(who) else {
            return;
        };
        self.threads[who] = Place::Woken(why);
    }

    /// The time of a worker is up, which sleeps or was woken. A ring that chose it stays with it.
    pub(crate) fn time_out(&mut self, who: usize)
        requires { IsSound self.old }
        ensures sound { IsSound self.new }
        ensures takes { TimesOut who self.old self.new }
    {
        match self.place(who) {
            Some(Place::Sleeping) => self.wake_up(who, Waking::TimedOut),
            Some(Place::Woken(why)) => self.be_late(who, why),
            _ => {}
        }
    }

    // One that was woken.
    fn be_late(&mut self, who: usize, why: Waking)
        requires at { slice_get self.old.threads.items who ≡ Some (Place.Woken why) }
        requires sound { IsSound self.old }
        ensures sound { IsSound self.new }
        ensures takes { IsLate who self.old self.new }
    {
        self.threads[who] = Place::Woken(late(why));
    }

    /// A worker whose sleep is over takes the lock.
    pub(crate) fn come_back(&mut self, who: usize)
        requires { IsSound self.old }
        ensures sound { IsSound self.new }
        ensures takes { Returns who self.old self.new }
    {
        let Some(Place::Woken(why)) = self.place(who) else {
            return;
        };
        if self.is_locked {
            return;
        }
        self.threads[who] = Place::Waited(why);
        self.is_locked = true;
    }

    /// A worker whose time was up puts jobs back.
    pub(crate) fn sweep_late(&mut self, who: usize, count: u64)
        requires { IsSound self.old }
        ensures sound { IsSound self.new }
        ensures takes { SweepsLate who count self.old self.new }
    {
        let Some(Place::Waited(why)) = self.place(who) else {
            return;
        };
        if !is_late(why) {
            return;
        }
        let Some(pool) = self.pool.after_sweep(count) else {
            return;
        };
        self.threads[who] = Place::HasSwept(is_rung(why));
        self.pool = pool;
    }

    /// A worker that has waited stays or stops.
    pub(crate) fn stay_or_stop(&mut self, who: usize)
        requires { IsSound self.old }
        ensures sound { IsSound self.new }
        ensures takes { StaysOrStops who self.old self.new }
    {
        match self.place(who) {
            Some(Place::Waited(why)) => self.stay_or_stop_after(who, why),
            Some(Place::HasSwept(chosen)) => self.stay_or_stop_swept(who, chosen),
            _ => {}
        }
    }

    // One that hasn't swept.
    fn stay_or_stop_after(&mut self, who: usize, why: Waking)
        requires at { slice_get self.old.threads.items who ≡ Some (Place.Waited why) }
        requires sound { IsSound self.old }
        ensures sound { IsSound self.new }
        ensures takes { DecidesUnswept who why self.old self.new }
    {
        prove!(self.pool.arriving < self.pool.idle);
        if !self.pool.must_stop(is_late(why)) {
            self.threads[who] = Place::Passing(is_rung(why), BellKind::Silent);
            return;
        }
        self.threads[who] = Place::Called(bell_of_stop(self.pool.has_job()), Next::Stop);
        self.pool.workers -= 1;
        self.pool.idle -= 1;
    }

    // One that has, and so rings one in any case.
    fn stay_or_stop_swept(&mut self, who: usize, chosen: bool)
        requires at { slice_get self.old.threads.items who ≡ Some (Place.HasSwept chosen) }
        requires sound { IsSound self.old }
        ensures sound { IsSound self.new }
        ensures takes { DecidesSwept who chosen self.old self.new }
    {
        prove!(self.pool.arriving < self.pool.idle);
        if !self.pool.must_stop(true) {
            self.threads[who] = Place::Passing(chosen, BellKind::One);
            return;
        }
        self.threads[who] = Place::Called(BellKind::One, Next::Stop);
        self.pool.workers -= 1;
        self.pool.idle -= 1;
    }

    /// A worker takes a job, or finds none.
    pub(crate) fn take(&mut self, who: usize, wanted: Origin)
        requires { IsSound self.old }
        ensures sound { IsSound self.new }
        ensures takes { TakesJob who wanted self.old self.new }
    {
        let Some(Place::Passing(_, bell)) = self.place(who) else {
            return;
        };
        prove!(self.pool.arriving < self.pool.idle);
        match self.pool.front(wanted) {
            None => {
                self.threads[who] = Place::Called(bell, Next::Free);
            }
            Some(Origin::Rung) => {
                self.threads[who] = Place::Called(bell, Next::Turn(Origin::Rung));
                self.pool.idle -= 1;
                self.pool.rung -= 1;
            }
            Some(Origin::Swept) => {
                self.threads[who] = Place::Called(bell, Next::Turn(Origin::Swept));
                self.pool.idle -= 1;
                self.pool.swept -= 1;
            }
        }
    }

    /// The pool grows by one worker. All are to be rung.
    pub(crate) fn start(&mut self, who: usize, spare: usize)
        requires { IsSound self.old }
        ensures sound { IsSound self.new }
        ensures takes { Starts who spare self.old self.new }
    {
        let Some(Place::Called(_, next)) = self.place(who) else {
            return;
        };
        let Some(Place::Spare) = self.place(spare) else {
            return;
        };
        if self.pool.limit <= self.pool.workers {
            return;
        }
        self.threads[spare] = Place::Started;
        self.threads[who] = Place::Called(BellKind::All, next);
        self.pool.workers += 1;
        self.pool.idle += 1;
        self.pool.arriving += 1;
        self.pool.is_limit_set = true;
    }

    /// The start of a worker is refused, which lowers the limit.
    pub(crate) fn refuse(&mut self, who: usize)
        requires { IsSound self.old }
        ensures sound { IsSound self.new }
        ensures takes { Refuses who self.old self.new }
    {
        let Some(Place::Called(_, _)) = self.place(who) else {
            return;
        };
        if self.pool.limit <= self.pool.workers {
            return;
        }
        self.pool.limit = self.pool.workers.max(1);
        self.pool.is_limit_set = true;
    }
}
