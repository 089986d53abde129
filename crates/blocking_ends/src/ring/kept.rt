//! What stands under a lock next to an item ring: the seats of those who wait, and where the items end.
ghost use Rattle.std.specs.Prelude.{◌≡◌, None, Some, IfSome};

use crate::rule::PlaceRule;
use blocking_core::pipe::{OfItemRing, Seats};
use blocking_core::task::Seat;
use blocking_pool::pool::{JobNo, WakeNote};
use blocking_sync::OwnerWaker;
use std::marker::{Model, PhantomData};

/// The proof that a job said where the items end. It is made where that is written down, and nowhere else.
#[derive(Clone, Copy, Debug)]
pub struct ToldEnd(());

/// The proof that an owner received all items and heard so. It is made where that is read, and nowhere else.
#[derive(Clone, Copy, Debug)]
pub struct SeenEnd(());

/// The seat of a job that has to look again: then it stays, or it gets up. It is made where the job is seated, and nowhere else.
pub(super) struct JobSeat(());

/// The proof that a job stays seated, which found neither room nor its owner's end closed when it looked again.
#[derive(Clone, Copy, Debug)]
pub struct JobSeated(());

impl JobSeat {
    /// The job has looked again, and found nothing.
    pub(super) fn stays(self) -> JobSeated {
        let JobSeat(()) = self;
        JobSeated(())
    }
}

/// What is answered to who has received so many items.
pub(super) enum Told {
    /// More may be sent.
    Nothing,
    /// The sender has closed its end, and some of what it sent is still to come.
    More,
    /// All that was sent was received.
    End(SeenEnd),
}

/// The seats, and after how many items the sender closed its end, once it did: the items may end there.
#[derive(Drop)]
pub(super) struct Kept<X: Drop, R: PlaceRule<X>> {
    seats: Seats<OwnerWaker>,
    end: Option<u64>,
    rule: PhantomData<(X, R)>,
}

impl<X: Drop, R: PlaceRule<X>> Model for Kept<X, R> {
    ghost use Rattle.std.specs.Prelude.{Option, IfSome};
    ghost use Rattle.blocking_ends.specs.Rings.{Kept as Seen, kept_code};
    ghost use Rattle.blocking_sync.specs.Slots.{waker_code};
    ghost use Rattle.futures.specs.declared.task.waker.Waker.{Waker};

    ghost Value = { Seen (Option Waker) };

    ghost coded = { kept_code waker_code };

    ghost view = { λ kept. record { owner = kept.seats.owner; job = kept.seats.job; end = kept.end } };

    ghost invariant = { λ kept. IfSome kept.end R.ended };
}

impl<X: Drop, R: PlaceRule<X>> Kept<X, R> {
    ghost use Rattle.blocking_ends.specs.Rings.{IfEnd, IsTold};

    /// Nobody waits, and items may come.
    pub(super) fn new() -> Kept<X, R>
        ensures { result ≡ record { owner = None; job = None; end = None } }
    {
        Kept {
            seats: Seats::new(),
            end: None,
            rule: PhantomData,
        }
    }

    /// The items end after so many.
    pub(super) fn tell(&mut self, sent: u64) -> ToldEnd
        requires { R.ended sent }
        ensures { self.new ≡ record self.old { end = Some sent } }
    {
        self.end = Some(sent);
        ToldEnd(())
    }

    /// What is answered to who has received so many.
    pub(super) fn ask(&self, received: u64) -> Told
        ensures told { IsTold self.now.end received result }
        ensures ended { IfEnd result (R.ended received) }
    {
        match self.end {
            None => Told::Nothing,
            Some(all) if all == received => Told::End(SeenEnd(())),
            Some(_) => Told::More,
        }
    }

    /// The owner is seated.
    pub(super) fn seat_owner(&mut self, waker: OwnerWaker) -> (Seat<OfItemRing>, Option<OwnerWaker>)
        ensures seated { self.new ≡ record self.old { owner = Some waker } }
        ensures replaced { result.1 ≡ self.old.owner }
    {
        self.seats.seat_owner(waker)
    }

    /// Takes the owner's waker out of its seat.
    pub(super) fn take_owner(&mut self) -> Option<OwnerWaker>
        ensures taken { self.new ≡ record self.old { owner = None } }
        ensures waker { result ≡ self.old.owner }
    {
        self.seats.take_owner()
    }

    /// The job is seated, and has to look again.
    pub(super) fn seat_job(&mut self, me: JobNo) -> JobSeat
        ensures { self.new ≡ record self.old { job = Some me } }
    {
        self.seats.seat_job(me);
        JobSeat(())
    }

    /// Takes the job out of its seat.
    pub(super) fn take_job(&mut self) -> Option<WakeNote>
        ensures taken { self.new ≡ record self.old { job = None } }
        ensures note { result ≡ self.old.job }
    {
        self.seats.take_job()
    }

    /// The job gets up by itself.
    pub(super) fn rise_job(&mut self, seat: JobSeat)
        ensures { self.new ≡ record self.old { job = None } }
    {
        let JobSeat(()) = seat;
        self.seats.rise_job();
    }
}
