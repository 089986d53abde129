//! The post of the worker that looks.
ghost use Rattle.std.specs.Prelude.{◌≡◌, true, false, Some, slice_get};
ghost use Rattle.blocking_schedule.specs.Kept.{IsSound};
ghost use Rattle.blocking_schedule.specs.Readings.{ClaimsOne};
ghost use Rattle.blocking_schedule.specs.Steps.{Claims, ClaimsLooker, EndsLook, Looks, Tells};
ghost use Rattle.blocking_schedule.specs.Ways.{KeepsPool};

use crate::place::{Next, Place};
use crate::schedule::Schedule;
use blocking_pool::pool::BellKind;

impl Schedule {
    /// A worker begins to look, unless one does that may be claimed.
    pub(crate) fn look(&mut self, who: usize)
        requires { IsSound self.old }
        ensures sound { IsSound self.new }
        ensures takes { Looks who self.old self.new }
    {
        let Some(Place::Free) = self.place(who) else {
            return;
        };
        if self.is_manned {
            self.threads[who] = Place::Looked(false);
            return;
        }
        self.threads[who] = Place::Looking(false);
        self.is_manned = true;
    }

    /// A worker ends its look, and leaves the post.
    pub(crate) fn end_look(&mut self, who: usize)
        requires { IsSound self.old }
        ensures sound { IsSound self.new }
        ensures takes { EndsLook who self.old self.new }
    {
        let Some(Place::Looking(claimed)) = self.place(who) else {
            return;
        };
        self.threads[who] = Place::Looked(claimed);
        self.is_manned = false;
    }

    /// A ring of one claims a worker that looks, if there is one that may be claimed.
    pub(crate) fn claim(&mut self, who: usize, looker: usize)
        requires { IsSound self.old }
        ensures sound { IsSound self.new }
        ensures takes { Claims who looker self.old self.new }
    {
        let Some(Place::Called(bell, next)) = self.place(who) else {
            return;
        };
        if self.is_manned {
            if let BellKind::One = bell {
                self.claim_one(who, next, looker);
                return;
            }
        }
        self.threads[who] = Place::Claimed(bell, next);
    }

    // It hears the ring: nobody is notified.
    fn claim_one(&mut self, who: usize, next: Next, looker: usize)
        requires at { slice_get self.old.threads.items who ≡ Some (Place.Called BellKind.One next) }
        requires sound { IsSound self.old }
        ensures sound { IsSound self.new }
        ensures claims { ClaimsLooker who looker self.old self.new }
        ensures one { self.new.is_manned ≡ false → self.old.is_manned ≡ true →
            ClaimsOne self.old.threads.items self.new.threads.items }
        ensures pool { KeepsPool self.old self.new }
    {
        let Some(Place::Looking(false)) = self.place(looker) else {
            return;
        };
        self.threads[looker] = Place::Looking(true);
        self.threads[who] = Place::Claimed(BellKind::Silent, next);
        self.is_manned = false;
    }

    /// Whoever looks is told whether a job is queued.
    pub(crate) fn tell(&mut self, who: usize)
        requires { IsSound self.old }
        ensures sound { IsSound self.new }
        ensures takes { Tells who self.old self.new }
    {
        let Some(Place::Claimed(bell, next)) = self.place(who) else {
            return;
        };
        let has_job = self.pool.has_job();
        self.threads[who] = Place::Told(bell, next);
        self.is_queued = has_job;
    }
}
