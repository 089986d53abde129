//! The end of an item ring from which a job sends.
ghost use Rattle.std.specs.Prelude.{◌≡◌, ◌+◌, ◌<◌, ◌≤◌, [], length, true, None, IsSome};
ghost use Rattle.rtrb.specs.Ring.{sent as sent_into, known_free};

use super::ByPlace;
use super::kept::{JobSeated, ToldEnd};
use super::pace::Pace;
use super::shared::{Again, SeenShut, Shared};
use crate::rule::PlaceRule;
use blocking_pool::pool::JobNo;
use blocking_sync::OwnerWaker;
use rtrb::Producer;
use std::alloc::Global;
use std::sync::{Arc, Wait};

/// How a send into an item ring ends.
#[derive(Drop)]
pub enum ItemSending<X: Drop> {
    /// The item is inside. The waker of an owner who waited has to be called.
    Sent(Option<OwnerWaker>),
    /// The ring is full: the job is seated, and the item comes back.
    Parked(X, JobSeated),
    /// The item comes back, and none is ever sent any more.
    Unsent(X, WhyUnsent),
}

/// Why no item is sent any more.
#[derive(Clone, Copy, Debug)]
pub enum WhyUnsent {
    /// The owner's end is closed.
    OwnerShut(SeenShut),
    /// The job's own end is.
    Closed(ToldEnd),
    /// 18446744073709551615 items were sent, and a further one has no number.
    NumbersEnd,
}

/// The end of a job that sends items to its owner, under no lock: each item holds at its place, by the rule `R`.
///
/// A waker that a call answers was taken out of its seat, and is to be called. One that is let go calls itself.
///
/// Dropping it closes nothing, and the owner goes on waiting: it is closed first.
///
/// In a job's `step`, where `me` is its number:
///
/// ```rust
/// match self.end.send(me, self.next) {
///     ItemSending::Sent(_) => {
///         self.next = self.next.wrapping_add(1);
///         JobStep::Again
///     }
///     ItemSending::Parked(_, _) => JobStep::Waiting,
///     ItemSending::Unsent(_, _) => JobStep::Done,
/// }
/// ```
#[derive(Drop)]
pub struct ItemSendEnd<X: Drop, R: PlaceRule<X>, H: Wait + Copy> {
    producer: Producer<X, Global, ByPlace<R>>,
    shared: Arc<Shared<X, R>>,
    sent: u64,
    pace: Pace,
    closed: Option<ToldEnd>,
    rt: H,
    ghost counted: { sent ≡ length (sent_into producer) },
}

impl<X: Drop, R: PlaceRule<X>, H: Wait + Copy> ItemSendEnd<X, R, H> {
    ghost use Rattle.blocking_ends.specs.Rings.{sent_by_send, ComesBack, IfNumbersEnd};

    pub(super) fn new(
        rt: H,
        producer: Producer<X, Global, ByPlace<R>>,
        shared: Arc<Shared<X, R>>,
        pace: Pace,
    ) -> Self
        requires { sent_into producer ≡ [] }
        ensures sent { result.sent ≡ 0 }
        ensures closed { result.closed ≡ None }
    {
        ItemSendEnd {
            producer,
            shared,
            sent: 0,
            pace,
            closed: None,
            rt,
        }
    }

    /// How many items were sent: the place of the next one.
    pub fn sent(&self) -> u64
        ensures { result ≡ self.now.sent }
    {
        self.sent
    }

    /// That this end was closed, once it was.
    pub fn closed(&self) -> Option<ToldEnd>
        ensures { result ≡ self.now.closed }
    {
        self.closed
    }

    // Whether there is room.
    fn has_room(&mut self) -> bool
        ensures room { result ≡ true → 0 < known_free self.new.producer }
        ensures sent { self.new.sent ≡ self.old.sent }
        ensures closed { self.new.closed ≡ self.old.closed }
    {
        if self.producer.cached_slots() > 0 {
            return true;
        }
        self.pace.wait();
        let seen = self.producer.slots();
        self.pace.saw(seen);
        seen > 0
    }

    // Puts an item where there is room. Answers the waker of an owner who waits.
    fn put(&mut self, item: X) -> Option<OwnerWaker>
        requires room { 0 < known_free self.old.producer }
        requires few { self.old.sent < 18446744073709551615 }
        requires held { R.holds self.old.sent item }
        ensures sent { self.new.sent ≡ self.old.sent + 1 }
        ensures closed { self.new.closed ≡ self.old.closed }
    {
        // stream: Push
        self.producer.push_reserved(item);
        self.sent += 1;
        self.shared.take_owner(&self.rt)
    }

    /// Sends an item. Where the ring is full the job is seated and the item comes back. It also comes back where the owner's end is closed,
    /// or this one, or where no more than 18446744073709551615 items may be sent in all.
    pub fn send(&mut self, me: JobNo, item: X) -> ItemSending<X>
        requires { R.holds self.old.sent item }
        ensures sent { self.new.sent ≡ self.old.sent + sent_by_send result }
        ensures closed { self.new.closed ≡ self.old.closed }
        ensures back { ComesBack item result }
        ensures numbers { IfNumbersEnd result (self.old.sent ≡ 18446744073709551615) }
    {
        if let Some(told) = self.closed {
            return ItemSending::Unsent(item, WhyUnsent::Closed(told));
        }
        if self.sent == u64::MAX {
            return ItemSending::Unsent(item, WhyUnsent::NumbersEnd);
        }
        // stream: SeeOwnerShut
        if let Some(seen) = self.shared.owner_shut() {
            return ItemSending::Unsent(item, WhyUnsent::OwnerShut(seen));
        }
        if self.has_room() {
            return ItemSending::Sent(self.put(item));
        }
        let seat = self.shared.seat_job(&self.rt, me);
        match self.shared.look_again(&self.rt, &mut self.producer, seat) {
            Again::Seated(seated) => ItemSending::Parked(item, seated),
            Again::Room => ItemSending::Sent(self.put(item)),
            Again::Shut(seen) => ItemSending::Unsent(item, WhyUnsent::OwnerShut(seen)),
        }
    }

    /// Closes this end, where the items may end. From then on nothing is sent. Answers the waker of an owner who waits.
    pub fn close(&mut self) -> Option<OwnerWaker>
        requires { R.ended self.old.sent }
        ensures sent { self.new.sent ≡ self.old.sent }
        ensures closed { IsSome self.new.closed }
    {
        self.closed = Some(self.shared.tell_end(&self.rt, self.sent));
        self.shared.take_owner(&self.rt)
    }
}
