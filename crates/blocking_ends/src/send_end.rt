//! The end of a job that sends to its owner.
ghost use Rattle.std.specs.Prelude.{◌≡◌, ◌<◌, ◌≤◌, ◌+◌, ◌-◌, length, take, vec_capacity, IsNone, IsSome};

use crate::locked::{Closed, JobToOwner, OfSent, Tally};
use crate::rule::PlaceRule;
use blocking_core::pipe::{CopyStore, Put, Room, Sending, Space, Store};
use blocking_pool::pool::JobNo;
use blocking_sync::{OwnerWaker, enter_where};
use std::sync::{Arc, Mutex, MutexGuard, Wait};

/// The end of a job that sends to its owner: each item holds at its place, by the rule `R`.
///
/// Each call takes the pipe's lock, makes one call of the pipe and lets go. It uses the pipe only where that has the counts
/// that this end knows of, which for the pair that was made it always has. Else it lets go and tries again.
///
/// A waker that a call answers was taken out of its seat, and is to be called. One that is let go calls itself.
///
/// Dropping it closes nothing, and the owner goes on waiting: it is closed first.
///
/// In a job's `step`, where `me` is the job's number, and `number` an item that holds at the next place:
///
/// ```rust
/// match self.end.send(me, number) {
///     Sending::Sent(_) => JobStep::Again,
///     Sending::Parked(_) => JobStep::Waiting,
///     Sending::Shut(_) => JobStep::Done,
/// }
/// ```
#[derive(Drop)]
pub struct SendEnd<X: Drop, R: PlaceRule<X>, S: Store<X>, H: Wait + Copy> {
    pipe: Arc<Mutex<JobToOwner<X, R, S>>>,
    sent: Tally<OfSent>,
    // What is left of the room that was told.
    free: Space,
    closed: Option<Closed>,
    rt: H,
}

impl<X: Drop, R: PlaceRule<X>, S: Store<X>, H: Wait + Copy> SendEnd<X, R, S, H> {
    ghost use Rattle.blocking_core.specs.Pipes.{room};
    ghost use Rattle.blocking_ends.specs.Answers.{IfFree, free_after, sent_by_send, ComesBack};

    pub(crate) fn new(rt: H, pipe: Arc<Mutex<JobToOwner<X, R, S>>>, sent: Tally<OfSent>) -> Self
        ensures sent { result.sent ≡ sent }
        ensures free { result.free ≡ 0 }
    {
        SendEnd {
            pipe,
            sent,
            free: Space::none(),
            closed: None,
            rt,
        }
    }

    /// How many items were sent: the place of the next one.
    pub fn sent(&self) -> u64
        ensures { result ≡ self.now.sent }
    {
        self.sent.count()
    }

    // The pipe, where it has the counts that this end knows of.
    fn enter<'a>(
        pipe: &'a Mutex<JobToOwner<X, R, S>>,
        rt: &H,
        sent: &Tally<OfSent>,
        free: &Space,
    ) -> MutexGuard<'a, JobToOwner<X, R, S>>
        ensures sent { result.value.sent ≡ sent.now }
        ensures room { free.now ≤ room result.value.pipe }
    {
        let (sent, free) = (sent.count(), free.count());
        enter_where(pipe, rt, |pipe: &JobToOwner<X, R, S>| {
            pipe.sent() == sent && free <= pipe.room()
        })
    }

    /// Looks for room for items; `put` may use as much as is reported. Where there is none the job is seated; where the owner's end is
    /// closed the answer is `Shut`. Once this end is closed, `put` and `send` send nothing.
    ///
    /// ```rust
    /// match self.end.room_or_seat(me) {
    ///     Room::Free(room) => {
    ///         let count = room.min(bytes.len());
    ///         drop(self.end.put(&bytes[..count]));
    ///         JobStep::Again
    ///     }
    ///     Room::Parked => JobStep::Waiting,
    ///     Room::Shut => JobStep::Done,
    /// }
    /// ```
    pub fn room_or_seat(&mut self, me: JobNo) -> Room
        ensures sent { self.new.sent ≡ self.old.sent }
        ensures free { self.new.free ≡ free_after result self.old.free }
        ensures some { IfFree result (λ n. 0 < n) }
    {
        let mut pipe = Self::enter(&self.pipe, &self.rt, &self.sent, &self.free);
        let room = pipe.room_or_seat(me);
        if let Room::Free(_) = room {
            self.free = pipe.space();
        }
        room
    }

    /// Sends an item. Where the pipe is full the job is seated and the item comes back. It also comes back where the owner's end
    /// is closed, or this one, or where no more than 18446744073709551615 items may be sent in all.
    pub fn send(&mut self, me: JobNo, item: X) -> Sending<X, OwnerWaker>
        requires { R.holds self.old.sent item }
        ensures sent { self.new.sent ≡ self.old.sent + sent_by_send result }
        ensures free { self.new.free ≡ self.old.free - sent_by_send result }
        ensures back { ComesBack item result }
    {
        let mut pipe = Self::enter(&self.pipe, &self.rt, &self.sent, &self.free);
        // meeting: Leave, or nothing where the pipe is full or shut
        let sending = pipe.send(me, item);
        self.sent = pipe.tally_sent();
        drop(pipe);
        if let Sending::Sent(_) = &sending {
            self.free.pass(1);
        }
        sending
    }

    /// Closes this end, where the items may end. From then on nothing is sent. Answers the waker of an owner who waits.
    ///
    /// ```rust
    /// // (a waker that is let go wakes)
    /// drop(self.end.close());
    /// return JobStep::Done;
    /// ```
    pub fn close(&mut self) -> Option<OwnerWaker>
        requires { R.ended self.old.sent }
        ensures sent { self.new.sent ≡ self.old.sent }
        ensures free { self.new.free ≡ self.old.free }
        ensures closed { IsSome self.new.closed }
    {
        let mut pipe = Self::enter(&self.pipe, &self.rt, &self.sent, &self.free);
        // meeting: Leave
        let waker = pipe.close_job();
        self.closed = pipe.closed();
        waker
    }

    /// That this end was closed, once it was.
    pub fn closed(&self) -> Option<Closed>
        ensures { result ≡ self.now.closed }
    {
        self.closed
    }
}

// Makes a piece so long again, with this item where nothing stood. One that was used before is so already.
fn lengthen<X: Copy>(piece: &mut Vec<X>, long: usize, item: Option<X>)
    requires fits { long ≤ vec_capacity piece.old }
    requires some { IsNone item → long ≡ 0 }
    ensures { length piece.new.items ≡ long }
{
    let Some(item) = item else {
        piece.clear();
        return;
    };
    let Ok(()) = piece.resize(long, item) else {
        unreachable!()
    };
}

impl<X: Copy, R: PlaceRule<X>, S: CopyStore<X>, H: Wait + Copy> SendEnd<X, R, S, H> {
    ghost use Rattle.blocking_ends.specs.Answers.{sent_by_put};
    ghost use Rattle.blocking_ends.specs.Rules.{HoldFrom};

    /// Puts items into the room that was told last and wasn't used since. They are lost where the owner's end is closed, or this one, or where
    /// more than 18446744073709551615 items would be sent in all.
    /// (See the example at [`room_or_seat`](SendEnd::room_or_seat).)
    pub fn put(&mut self, items: &[X]) -> Put<OwnerWaker>
        requires fits { length items.now ≤ self.old.free }
        requires held { HoldFrom R.holds self.old.sent items.now }
        ensures sent { self.new.sent ≡ self.old.sent + sent_by_put result (length items.now) }
        ensures free { self.new.free ≡ self.old.free - sent_by_put result (length items.now) }
    {
        let mut pipe = Self::enter(&self.pipe, &self.rt, &self.sent, &self.free);
        // meeting: Leave, or Unseat; nothing where the items are lost
        let put = pipe.put(items);
        self.sent = pipe.tally_sent();
        drop(pipe);
        if let Put::In(_) = &put {
            self.free.pass(items.len());
        }
        put
    }

    /// As `put`, for the first `count` items of a piece. A store of pieces takes it as it is where it can, and gives another for it. The piece is
    /// as long afterwards, and what stands in it is not to be relied on.
    pub fn put_piece(&mut self, piece: &mut Vec<X>, count: usize) -> Put<OwnerWaker>
        requires some { count ≤ length piece.old.items }
        requires fits { count ≤ self.old.free }
        requires held { HoldFrom R.holds self.old.sent (take count piece.old.items) }
        ensures sent { self.new.sent ≡ self.old.sent + sent_by_put result count }
        ensures free { self.new.free ≡ self.old.free - sent_by_put result count }
        ensures long { length piece.new.items ≡ length piece.old.items }
    {
        let long = piece.len();
        let first = piece.first().copied();
        let mut pipe = Self::enter(&self.pipe, &self.rt, &self.sent, &self.free);
        // meeting: Leave, or Unseat; nothing where the items are lost
        let put = pipe.put_piece(piece, count);
        self.sent = pipe.tally_sent();
        drop(pipe);
        if let Put::In(_) = &put {
            self.free.pass(count);
        }
        lengthen(piece, long, first);
        put
    }
}
