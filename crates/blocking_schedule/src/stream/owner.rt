//! The owner's steps.
ghost use Rattle.std.specs.Prelude.{◌≡◌, ◌+◌, ◌<◌, nat_eq};
ghost use Rattle.blocking_schedule.specs.Streams.{IsSound, IsByMoment};
ghost use Rattle.blocking_schedule.specs.StreamSteps.{PollsAgain, Pops, SeesJobWaits, TakesJob, WakesJob, SeesClosed};
ghost use Rattle.blocking_schedule.specs.StreamSteps.{TakesBackWaker, SeatsOwner, LooksAgainForItem, LooksAgainForClosed};
ghost use Rattle.blocking_schedule.specs.StreamSteps.{RisesOwner, ClosesOwner, after_first};

use crate::stream::{OwnerPlace, ReceiveAnswer, Ring};

impl Ring {
    /// The owner polls.
    pub(crate) fn poll_again(&mut self)
        requires { IsSound self.old }
        ensures sound { IsSound self.new }
        ensures does { PollsAgain self.old self.new }
        ensures moment { IsByMoment self.old self.new }
    {
        let (OwnerPlace::Away | OwnerPlace::Waits) = self.owner else {
            return;
        };
        if self.is_owner_shut || self.is_owner_to_rise {
            return;
        }
        self.could_wait = false;
        self.receive_answer = ReceiveAnswer::Open;
        self.owner = OwnerPlace::Looking;
    }

    /// The owner takes the first item.
    pub(crate) fn pop(&mut self)
        requires { IsSound self.old }
        ensures sound { IsSound self.new }
        ensures does { Pops self.old self.new }
        ensures moment { IsByMoment self.old self.new }
    {
        let (OwnerPlace::Looking | OwnerPlace::FoundEmpty | OwnerPlace::NothingYet) = self.owner
        else {
            return;
        };
        if self.popped == self.pushed {
            self.owner = OwnerPlace::FoundEmpty;
            return;
        }
        self.take_first();
    }

    // The first item is taken, and there is room.
    fn take_first(&mut self)
        requires { self.old.popped < self.old.pushed }
        ensures { self.new ≡ after_first self.old }
    {
        self.receive_answer = ReceiveAnswer::Item(self.popped);
        self.could_send = true;
        self.owner = OwnerPlace::Wrote;
        self.popped += 1;
    }

    /// The owner looks at the job's flag.
    pub(crate) fn see_job_waits(&mut self)
        requires { IsSound self.old }
        ensures sound { IsSound self.new }
        ensures does { SeesJobWaits self.old self.new }
        ensures moment { IsByMoment self.old self.new }
    {
        let OwnerPlace::Wrote = self.owner else {
            return;
        };
        self.owner = if self.job_waits {
            OwnerPlace::SawJobWait
        } else {
            OwnerPlace::Away
        };
    }

    /// The owner takes the job out of its seat.
    pub(crate) fn take_job(&mut self)
        requires { IsSound self.old }
        ensures sound { IsSound self.new }
        ensures does { TakesJob self.old self.new }
        ensures moment { IsByMoment self.old self.new }
    {
        let OwnerPlace::SawJobWait = self.owner else {
            return;
        };
        self.owner = if self.is_job_seated {
            OwnerPlace::HasNote
        } else {
            OwnerPlace::Away
        };
        self.job_waits = false;
        self.is_job_seated = false;
    }

    /// The owner spends its note.
    pub(crate) fn wake_job(&mut self)
        requires { IsSound self.old }
        ensures sound { IsSound self.new }
        ensures does { WakesJob self.old self.new }
        ensures moment { IsByMoment self.old self.new }
    {
        let OwnerPlace::HasNote = self.owner else {
            return;
        };
        self.is_job_woken = true;
        self.owner = OwnerPlace::Away;
    }

    /// The owner looks whether the job's end is closed: nothing yet, the end, or what was sent before.
    pub(crate) fn see_closed(&mut self)
        requires { IsSound self.old }
        ensures sound { IsSound self.new }
        ensures does { SeesClosed self.old self.new }
        ensures moment { IsByMoment self.old self.new }
    {
        let OwnerPlace::FoundEmpty = self.owner else {
            return;
        };
        if self.closed == 0 {
            self.owner = OwnerPlace::NothingYet;
        } else if self.has_all() {
            self.receive_answer = ReceiveAnswer::Ended;
            self.owner = OwnerPlace::Away;
        } else {
            self.owner = OwnerPlace::Looking;
        }
    }

    // Whether all was received that the job said it sent.
    fn has_all(&self) -> bool
        requires { 0 < self.now.closed }
        ensures { result ≡ nat_eq self.now.closed (self.now.popped + 1) }
    {
        self.closed - 1 == self.popped
    }

    /// The owner empties its seat.
    pub(crate) fn take_back_waker(&mut self)
        requires { IsSound self.old }
        ensures sound { IsSound self.new }
        ensures does { TakesBackWaker self.old self.new }
        ensures moment { IsByMoment self.old self.new }
    {
        let OwnerPlace::NothingYet = self.owner else {
            return;
        };
        self.owner_waits = false;
        self.owner_seat = None;
        self.owner = OwnerPlace::Unseated;
    }

    /// The owner is seated with the waker of this poll.
    pub(crate) fn seat_owner(&mut self)
        requires { IsSound self.old }
        ensures sound { IsSound self.new }
        ensures does { SeatsOwner self.old self.new }
        ensures moment { IsByMoment self.old self.new }
    {
        let OwnerPlace::Unseated = self.owner else {
            return;
        };
        if self.registered == u64::MAX {
            return;
        }
        self.owner = OwnerPlace::Seated;
        self.registered += 1;
        self.is_owner_woken = false;
        self.owner_waits = true;
        self.owner_seat = Some(self.registered);
    }

    /// The owner looks again for an item.
    pub(crate) fn look_again_for_item(&mut self)
        requires { IsSound self.old }
        ensures sound { IsSound self.new }
        ensures does { LooksAgainForItem self.old self.new }
        ensures moment { IsByMoment self.old self.new }
    {
        let OwnerPlace::Seated = self.owner else {
            return;
        };
        if self.popped == self.pushed {
            self.could_wait = self.closed == 0;
            self.owner = OwnerPlace::StillEmpty;
            return;
        }
        self.take_first();
        self.is_owner_to_rise = true;
    }

    /// The owner looks again whether the job's end is closed: it waits, has the end, or looks for what was sent before.
    pub(crate) fn look_again_for_closed(&mut self)
        requires { IsSound self.old }
        ensures sound { IsSound self.new }
        ensures does { LooksAgainForClosed self.old self.new }
        ensures moment { IsByMoment self.old self.new }
    {
        let OwnerPlace::StillEmpty = self.owner else {
            return;
        };
        if self.closed == 0 {
            self.receive_answer = ReceiveAnswer::Pending;
            self.owner = OwnerPlace::Waits;
        } else if self.has_all() {
            self.receive_answer = ReceiveAnswer::Ended;
            self.is_owner_to_rise = true;
            self.owner = OwnerPlace::Away;
        } else {
            self.owner = OwnerPlace::Seated;
        }
    }

    /// The owner takes its waker back.
    pub(crate) fn rise_owner(&mut self)
        requires { IsSound self.old }
        ensures sound { IsSound self.new }
        ensures does { RisesOwner self.old self.new }
        ensures moment { IsByMoment self.old self.new }
    {
        if !self.is_owner_to_rise {
            return;
        }
        self.owner_waits = false;
        self.owner_seat = None;
        self.is_owner_to_rise = false;
    }

    /// The owner shuts its end.
    pub(crate) fn close_owner(&mut self)
        requires { IsSound self.old }
        ensures sound { IsSound self.new }
        ensures does { ClosesOwner self.old self.new }
        ensures moment { IsByMoment self.old self.new }
    {
        let (OwnerPlace::Away | OwnerPlace::Waits) = self.owner else {
            return;
        };
        if self.is_owner_shut || self.is_owner_to_rise {
            return;
        }
        self.owner = OwnerPlace::Wrote;
        self.is_owner_shut = true;
    }
}
