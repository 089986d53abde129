//! The seats of the two ends of an item ring, which holds its items under no lock.
ghost use Rattle.std.specs.Prelude.{◌≡◌, option_map, None, Some};

use crate::pipe::OfPipe;
use crate::task::Seat;
use blocking_pool::pool::{JobNo, WakeNote};

/// A seat of an item ring's owner. [`Seats`] alone make it.
#[derive(Drop)]
pub struct OfItemRing(());

impl Seat<OfItemRing> {
    /// A seat of a pipe: to a poll an item ring is one.
    pub fn at_pipe(self) -> Seat<OfPipe> {
        let Seat(OfItemRing(())) = self;
        Seat(OfPipe(()))
    }
}

/// The two seats of an item ring: the owner's waker and the job's number, for whoever waits. They stand under a lock of their own, apart
/// from the ring.
///
/// A waker that a call answers has left its seat, as with a pipe's.
#[derive(Drop)]
pub struct Seats<W: Drop> {
    owner: Option<W>,
    job: Option<JobNo>,
}

impl<W: Drop> Seats<W> {
    /// Seats in which nobody waits.
    pub fn new() -> Seats<W>
        ensures owner { result.owner ≡ None }
        ensures job { result.job ≡ None }
    {
        Seats {
            owner: None,
            job: None,
        }
    }

    /// The owner is seated. Answers the waker that stood there, too.
    pub fn seat_owner(&mut self, waker: W) -> (Seat<OfItemRing>, Option<W>)
        ensures owner { self.new.owner ≡ Some waker }
        ensures job { self.new.job ≡ self.old.job }
        ensures replaced { result.1 ≡ self.old.owner }
    {
        (Seat(OfItemRing(())), self.owner.replace(waker))
    }

    /// Takes the owner's waker out of its seat.
    pub fn take_owner(&mut self) -> Option<W>
        ensures owner { self.new.owner ≡ None }
        ensures job { self.new.job ≡ self.old.job }
        ensures waker { result ≡ self.old.owner }
    {
        self.owner.take()
    }

    /// The job is seated.
    pub fn seat_job(&mut self, me: JobNo)
        ensures owner { self.new.owner ≡ self.old.owner }
        ensures job { self.new.job ≡ Some me }
    {
        self.job = Some(me);
    }

    /// Takes the job out of its seat. Answers its note, which has to be spent.
    pub fn take_job(&mut self) -> Option<WakeNote>
        ensures owner { self.new.owner ≡ self.old.owner }
        ensures job { self.new.job ≡ None }
        ensures note { result ≡ self.old.job }
    {
        match self.job.take() {
            Some(no) => Some(WakeNote::new(no)),
            None => None,
        }
    }

    /// The job gets up by itself, where it still sits.
    pub fn rise_job(&mut self)
        ensures owner { self.new.owner ≡ self.old.owner }
        ensures job { self.new.job ≡ None }
    {
        self.job = None;
    }
}
