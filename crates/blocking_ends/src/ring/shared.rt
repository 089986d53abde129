//! What both ends of an item ring share in addition to the ring.
ghost use Rattle.std.specs.Prelude.{◌<◌};
ghost use Rattle.rtrb.specs.Ring.{ProducerLooked, known_free};

use super::ByPlace;
use super::kept::{JobSeat, JobSeated, Kept, SeenEnd, Told, ToldEnd};
use crate::rule::PlaceRule;
use blocking_core::pipe::{OfItemRing, OfPipe};
use blocking_core::task::Seat;
use blocking_pool::pool::{JobNo, WakeNote};
use blocking_sync::{OwnerWaker, enter};
use rtrb::Producer;
use std::alloc::Global;
use std::sync::atomic::{AtomicBool, Ordering};
use std::sync::{Mutex, Wait};

/// The proof that a job saw its owner's end closed. It is made where that is read, and nowhere else.
#[derive(Clone, Copy, Debug)]
pub struct SeenShut(());

/// What a seated job finds that looks again.
pub(super) enum Again {
    /// Nothing: it stays seated.
    Seated(JobSeated),
    /// Room, for which it got up.
    Room,
    /// That the owner's end is closed, for which it got up.
    Shut(SeenShut),
}

/// The seat of an owner who has to look again.
#[derive(Drop)]
pub(super) struct OwnerSeat(Seat<OfItemRing>);

/// That who looked didn't hear of the end of the items. Who looked by a seat has it back.
#[derive(Drop)]
pub(super) struct NotEnded<S: Drop>(S);

impl NotEnded<OwnerSeat> {
    /// The seat in which the owner waits, who has looked again.
    pub(super) fn seat(self) -> Seat<OfPipe> {
        let NotEnded(OwnerSeat(seat)) = self;
        seat.at_pipe()
    }
}

/// What an owner, who looks by `S`, hears of where the items end.
pub(super) enum Asked<S: Drop> {
    /// More may be sent.
    Nothing(NotEnded<S>),
    /// The job has closed its end, and some of what it sent is still to come.
    More(NotEnded<S>),
    /// All that was sent was received.
    End(SeenEnd),
}

/// What both ends share in addition to the ring. The seats and the end of the items are under a lock. Flags say without it who may be
/// seated and which end is closed. All but that of the owner's end change under the lock alone.
///
/// Who waits writes its flag and then looks at the ring and at the other's end again. Who passes an item on, or closes its end, does that first
/// and then reads the flag. All of these are in one order, so one of them sees the other.
#[derive(Drop)]
pub(super) struct Shared<X: Drop, R: PlaceRule<X>> {
    // (what is written for each item stands in no cache line of the flags)
    before: [u64; 16],
    kept: Mutex<Kept<X, R>>,
    owner_waits: AtomicBool,
    job_waits: AtomicBool,
    is_owner_shut: AtomicBool,
    is_job_shut: AtomicBool,
    after: [u64; 16],
}

impl<X: Drop, R: PlaceRule<X>> Shared<X, R> {
    ghost use Rattle.blocking_ends.specs.Rings.{IfAsked, IfRoom};

    pub(super) fn new() -> Shared<X, R> {
        Shared {
            before: [0; 16],
            kept: Mutex::new(Kept::new()),
            owner_waits: AtomicBool::new(false),
            job_waits: AtomicBool::new(false),
            is_owner_shut: AtomicBool::new(false),
            is_job_shut: AtomicBool::new(false),
            after: [0; 16],
        }
    }

    /// Takes the owner's waker out of its seat, where one may stand there.
    pub(super) fn take_owner<H: Wait>(&self, rt: &H) -> Option<OwnerWaker> {
        // stream: SeeOwnerWaits
        if !self.owner_waits.load(Ordering::SeqCst) {
            return None;
        }
        // stream: TakeOwner
        let mut kept = enter(&self.kept, rt);
        self.owner_waits.store(false, Ordering::SeqCst);
        kept.take_owner()
    }

    /// Takes the job out of its seat, where it may sit there. Answers its note, which has to be spent.
    pub(super) fn take_job<H: Wait>(&self, rt: &H) -> Option<WakeNote> {
        // stream: SeeJobWaits
        if !self.job_waits.load(Ordering::SeqCst) {
            return None;
        }
        // stream: TakeJob
        let mut kept = enter(&self.kept, rt);
        self.job_waits.store(false, Ordering::SeqCst);
        kept.take_job()
    }

    /// The owner is seated by its waker, and has to look again. Answers the waker that stood there, too.
    pub(super) fn seat_owner<H: Wait>(
        &self,
        rt: &H,
        waker: OwnerWaker,
    ) -> (OwnerSeat, Option<OwnerWaker>) {
        // stream: SeatOwner
        let mut kept = enter(&self.kept, rt);
        self.owner_waits.store(true, Ordering::SeqCst);
        let (seat, older) = kept.seat_owner(waker);
        (OwnerSeat(seat), older)
    }

    /// The job is seated, and has to look again.
    pub(super) fn seat_job<H: Wait>(&self, rt: &H, me: JobNo) -> JobSeat {
        // stream: SeatJob
        let mut kept = enter(&self.kept, rt);
        self.job_waits.store(true, Ordering::SeqCst);
        kept.seat_job(me)
    }

    // The job, which found something after all, gets up, unless its note was taken.
    fn rise_job<H: Wait>(&self, rt: &H, seat: JobSeat) {
        // stream: RiseJob
        let mut kept = enter(&self.kept, rt);
        self.job_waits.store(false, Ordering::SeqCst);
        kept.rise_job(seat);
    }

    /// What a job finds that was just seated, and looks again: first at the owner's end, then for room.
    pub(super) fn look_again<H: Wait>(
        &self,
        rt: &H,
        producer: &mut Producer<X, Global, ByPlace<R>>,
        seat: JobSeat,
    ) -> Again
        ensures looked { ProducerLooked producer.old producer.new }
        ensures room { IfRoom result (0 < known_free producer.new) }
    {
        // stream: LookAgainForShut
        if let Some(seen) = self.owner_shut() {
            self.rise_job(rt, seat);
            return Again::Shut(seen);
        }
        // stream: LookAgainForRoom
        if producer.slots() == 0 {
            return Again::Seated(seat.stays());
        }
        self.rise_job(rt, seat);
        Again::Room
    }

    /// That the owner's end is closed, where it is.
    pub(super) fn owner_shut(&self) -> Option<SeenShut> {
        if self.is_owner_shut.load(Ordering::SeqCst) {
            Some(SeenShut(()))
        } else {
            None
        }
    }

    /// The owner's end is closed.
    pub(super) fn shut_owner(&self) {
        // stream: CloseOwner
        self.is_owner_shut.store(true, Ordering::SeqCst);
    }

    /// The job's end is closed, after so many items, where they may end.
    pub(super) fn tell_end<H: Wait>(&self, rt: &H, sent: u64) -> ToldEnd
        requires { R.ended sent }
    {
        // stream: CloseJob (what is told is there before the flag says so)
        let mut kept = enter(&self.kept, rt);
        let told = kept.tell(sent);
        self.is_job_shut.store(true, Ordering::SeqCst);
        told
    }

    /// Where the items end, to an owner who has received so many and looks by `by`.
    pub(super) fn ask_end<S: Drop, H: Wait>(&self, rt: &H, received: u64, by: S) -> Asked<S>
        ensures { IfAsked result (R.ended received) }
    {
        // stream: SeeClosed
        if !self.is_job_shut.load(Ordering::SeqCst) {
            return Asked::Nothing(NotEnded(by));
        }
        // (it was told once, and stays so)
        match enter(&self.kept, rt).ask(received) {
            Told::Nothing => Asked::Nothing(NotEnded(by)),
            Told::More => Asked::More(NotEnded(by)),
            Told::End(seen) => Asked::End(seen),
        }
    }
}
