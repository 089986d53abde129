//! The numbers of jobs.
ghost use Rattle.std.specs.Prelude.{◌≡◌};

use std::marker::Model;

/// The number of a job in its pool: its serial, and the place in the pool's table that it has until it is over.
///
/// A pool gives each job that it accepts a serial of its own, counted from 1, and never gives one twice. A job is told its
/// number at each step, and may hand it to whoever is to wake it:
///
/// ```rust
/// fn step(&mut self, me: JobNo) -> JobStep {
///     if let Some(asleep) = self.asleep.take() {
///         let _ = asleep.send(me);
///         return JobStep::Waiting;
///     }
///     JobStep::Done
/// }
/// ```
#[derive(Clone, Copy, Debug)]
pub struct JobNo {
    place: usize,
    serial: u64,
}

impl Model for JobNo {
    ghost use Rattle.blocking_pool.specs.Jobs.{JobNumber};

    ghost Value = { JobNumber };

    ghost view = { λ no. record { place = no.place; serial = no.serial } };

    ghost inverse = { λ no. record { place = no.place; serial = no.serial } };
}

impl JobNo {
    pub(crate) fn new(place: usize, serial: u64) -> JobNo
        ensures { result ≡ record { place = place; serial = serial } }
    {
        JobNo { place, serial }
    }

    /// The serial: at least 1.
    pub fn serial(self) -> u64
        ensures { result ≡ self.serial }
    {
        self.serial
    }

    pub(crate) fn place(self) -> usize
        ensures { result ≡ self.place }
    {
        self.place
    }
}
