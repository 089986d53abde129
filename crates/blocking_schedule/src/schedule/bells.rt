//! How a section ends: the lock is let go, and the condition variable is rung.
ghost use Rattle.std.specs.Prelude.{◌≡◌, Some, slice_get};
ghost use Rattle.blocking_schedule.specs.Kept.{IsSound};
ghost use Rattle.blocking_schedule.specs.Steps.{LetsGo, Rings, RingsAll, RingsOne};
ghost use Rattle.blocking_schedule.specs.Ways.{KeepsPool, KeepsPost};

use crate::place::{Next, Place, Waking, place_after, someone_sleeps, wake_all};
use crate::schedule::Schedule;
use blocking_pool::pool::BellKind;

impl Schedule {
    /// The lock is let go.
    pub(crate) fn let_go(&mut self, who: usize)
        requires { IsSound self.old }
        ensures sound { IsSound self.new }
        ensures takes { LetsGo who self.old self.new }
    {
        let Some(Place::Told(bell, next)) = self.place(who) else {
            return;
        };
        self.threads[who] = Place::Ringing(bell, next);
        self.is_locked = false;
    }

    /// The condition variable is rung.
    pub(crate) fn ring(&mut self, who: usize, woken: usize)
        requires { IsSound self.old }
        ensures sound { IsSound self.new }
        ensures takes { Rings who woken self.old self.new }
    {
        let Some(Place::Ringing(bell, next)) = self.place(who) else {
            return;
        };
        match bell {
            BellKind::Silent => {
                self.threads[who] = place_after(next);
            }
            BellKind::One => self.ring_one(who, next, woken),
            BellKind::All => self.ring_all(who, next),
        }
    }

    /// One of those that sleep is woken, if anybody does.
    fn ring_one(&mut self, who: usize, next: Next, woken: usize)
        requires at { slice_get self.old.threads.items who ≡ Some (Place.Ringing BellKind.One next) }
        requires sound { IsSound self.old }
        ensures sound { IsSound self.new }
        ensures rings { RingsOne who woken self.old self.new }
        ensures pool { KeepsPool self.old self.new }
        ensures post { KeepsPost self.old self.new }
    {
        if let Some(Place::Sleeping) = self.place(woken) {
            self.threads[woken] = Place::Woken(Waking::Rung);
            self.threads[who] = place_after(next);
            return;
        }
        if someone_sleeps(&self.threads) {
            return;
        }
        self.threads[who] = place_after(next);
    }

    /// All that sleep are woken.
    fn ring_all(&mut self, who: usize, next: Next)
        requires at { slice_get self.old.threads.items who ≡ Some (Place.Ringing BellKind.All next) }
        requires sound { IsSound self.old }
        ensures sound { IsSound self.new }
        ensures rings { RingsAll who self.old self.new }
        ensures pool { KeepsPool self.old self.new }
        ensures post { KeepsPost self.old self.new }
    {
        wake_all(&mut self.threads);
        self.threads[who] = place_after(next);
    }
}
