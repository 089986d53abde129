//! The job's steps.
ghost use Rattle.blocking_schedule.specs.Streams.{IsSound, IsByMoment};
ghost use Rattle.blocking_schedule.specs.StreamSteps.{SeesOwnerShut, Pushes, SeesOwnerWaits, TakesOwner, CallsOwner, SeatsJob};
ghost use Rattle.blocking_schedule.specs.StreamSteps.{LooksAgainForShut, LooksAgainForRoom, RisesJob, ClosesJob, RunsAgain};

use crate::stream::{JobPlace, Ring, SendAnswer};

impl Ring {
    /// The job begins to send: shut, or it may go on.
    pub(crate) fn see_owner_shut(&mut self)
        requires { IsSound self.old }
        ensures sound { IsSound self.new }
        ensures does { SeesOwnerShut self.old self.new }
        ensures moment { IsByMoment self.old self.new }
    {
        let JobPlace::Away = self.job else {
            return;
        };
        if self.closed != 0 || self.is_job_to_rise {
            return;
        }
        if self.is_owner_shut {
            self.send_answer = SendAnswer::Shut;
            return;
        }
        self.could_send = self.has_room();
        self.could_park = false;
        self.send_answer = SendAnswer::Open;
        self.job = JobPlace::SawOpen;
    }

    /// An item goes in.
    pub(crate) fn push(&mut self)
        requires { IsSound self.old }
        ensures sound { IsSound self.new }
        ensures does { Pushes self.old self.new }
        ensures moment { IsByMoment self.old self.new }
    {
        let JobPlace::SawOpen = self.job else {
            return;
        };
        if self.pushed == u64::MAX || !self.has_room() {
            return;
        }
        self.send_answer = SendAnswer::Sent;
        self.job = JobPlace::Wrote;
        self.pushed += 1;
    }

    /// The job looks at the owner's flag.
    pub(crate) fn see_owner_waits(&mut self)
        requires { IsSound self.old }
        ensures sound { IsSound self.new }
        ensures does { SeesOwnerWaits self.old self.new }
        ensures moment { IsByMoment self.old self.new }
    {
        let JobPlace::Wrote = self.job else {
            return;
        };
        self.job = if self.owner_waits {
            JobPlace::SawOwnerWait
        } else {
            JobPlace::Away
        };
    }

    /// The job takes the waker out of the seat.
    pub(crate) fn take_owner(&mut self)
        requires { IsSound self.old }
        ensures sound { IsSound self.new }
        ensures does { TakesOwner self.old self.new }
        ensures moment { IsByMoment self.old self.new }
    {
        let JobPlace::SawOwnerWait = self.job else {
            return;
        };
        self.owner_waits = false;
        self.job = match self.owner_seat.take() {
            Some(waker) => JobPlace::HasWaker(waker),
            None => JobPlace::Away,
        };
    }

    /// The job calls the waker.
    pub(crate) fn call_owner(&mut self)
        requires { IsSound self.old }
        ensures sound { IsSound self.new }
        ensures does { CallsOwner self.old self.new }
        ensures moment { IsByMoment self.old self.new }
    {
        let JobPlace::HasWaker(waker) = self.job else {
            return;
        };
        if waker == self.registered {
            self.is_owner_woken = true;
        }
        self.job = JobPlace::Away;
    }

    /// The job is seated.
    pub(crate) fn seat_job(&mut self)
        requires { IsSound self.old }
        ensures sound { IsSound self.new }
        ensures does { SeatsJob self.old self.new }
        ensures moment { IsByMoment self.old self.new }
    {
        let JobPlace::SawOpen = self.job else {
            return;
        };
        if self.is_job_to_rise {
            return;
        }
        self.job_waits = true;
        self.is_job_seated = true;
        self.job = JobPlace::Seated;
    }

    /// The job looks again: shut, or it may go on.
    pub(crate) fn look_again_for_shut(&mut self)
        requires { IsSound self.old }
        ensures sound { IsSound self.new }
        ensures does { LooksAgainForShut self.old self.new }
        ensures moment { IsByMoment self.old self.new }
    {
        let JobPlace::Seated = self.job else {
            return;
        };
        if self.is_owner_shut {
            self.send_answer = SendAnswer::Shut;
            self.is_job_to_rise = true;
            self.job = JobPlace::Away;
            return;
        }
        self.could_park = !self.has_room();
        self.job = JobPlace::LookedForShut;
    }

    /// The job looks again: it may push after all, or is parked.
    pub(crate) fn look_again_for_room(&mut self)
        requires { IsSound self.old }
        ensures sound { IsSound self.new }
        ensures does { LooksAgainForRoom self.old self.new }
        ensures moment { IsByMoment self.old self.new }
    {
        let JobPlace::LookedForShut = self.job else {
            return;
        };
        if self.has_room() {
            self.is_job_to_rise = true;
            self.job = JobPlace::SawOpen;
            return;
        }
        self.send_answer = SendAnswer::Parked;
        self.job = JobPlace::Parked;
    }

    /// The job leaves its seat.
    pub(crate) fn rise_job(&mut self)
        requires { IsSound self.old }
        ensures sound { IsSound self.new }
        ensures does { RisesJob self.old self.new }
        ensures moment { IsByMoment self.old self.new }
    {
        if !self.is_job_to_rise {
            return;
        }
        self.job_waits = false;
        self.is_job_seated = false;
        self.is_job_to_rise = false;
    }

    /// The job closes its end.
    pub(crate) fn close_job(&mut self)
        requires { IsSound self.old }
        ensures sound { IsSound self.new }
        ensures does { ClosesJob self.old self.new }
        ensures moment { IsByMoment self.old self.new }
    {
        let JobPlace::Away = self.job else {
            return;
        };
        if self.closed != 0 || self.is_job_to_rise || self.pushed == u64::MAX {
            return;
        }
        self.job = JobPlace::Wrote;
        self.closed = self.pushed + 1;
    }

    /// The parked job runs again.
    pub(crate) fn run_again(&mut self)
        requires { IsSound self.old }
        ensures sound { IsSound self.new }
        ensures does { RunsAgain self.old self.new }
        ensures moment { IsByMoment self.old self.new }
    {
        let JobPlace::Parked = self.job else {
            return;
        };
        self.is_job_woken = false;
        self.job = JobPlace::Away;
    }
}
