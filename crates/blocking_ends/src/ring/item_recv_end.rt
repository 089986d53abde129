//! The end of an item ring at which an owner receives.
ghost use Rattle.std.specs.Prelude.{◌≡◌, ◌+◌, ◌<◌, ◌⊎◌, [], length, true, false, None, IfSome, IfNone, IfOk, IfErr, IsSome};
ghost use Rattle.futures.specs.Task.{Covers, Keeps};
ghost use Rattle.rtrb.specs.Ring.{received as received_from, known_items};

use super::ByPlace;
use super::kept::SeenEnd;
use super::pace::Pace;
use super::shared::{Asked, NotEnded, OwnerSeat, Shared};
use crate::rule::PlaceRule;
use blocking_core::pipe::Received;
use blocking_pool::pool::WakeNote;
use blocking_sync::OwnerWaker;
use futures::task::{Context, Poll, Source};
use rtrb::Consumer;
use std::alloc::Global;
use std::sync::{Arc, Wait};

/// The end of an owner that receives items from its job, under no lock: the item from each place holds there, by the rule `R`.
///
/// A poll that finds something makes no waker. One that waits is seated by the waker of its context, and leaves its seat to the next poll.
///
/// Dropping it closes nothing, and a job that waits for room stays parked: it is closed first.
///
/// A poll asks as that of a [`RecvEnd`](crate::RecvEnd) does. Without a wait:
///
/// ```rust
/// if let Some((number, note)) = end.try_receive() {
///     sum = sum.saturating_add(number);
///     if let Some(note) = note {
///         let _ = executor.wake(note);
///     }
/// }
/// ```
#[derive(Drop)]
pub struct ItemRecvEnd<X: Drop, R: PlaceRule<X>, H: Wait + Copy> {
    consumer: Consumer<X, Global, ByPlace<R>>,
    shared: Arc<Shared<X, R>>,
    received: u64,
    pace: Pace,
    // That nothing comes any more, once that was seen.
    ended: Option<SeenEnd>,
    source: Source,
    // A waker of an earlier poll, which has no seat.
    spare: OwnerWaker,
    rt: H,
    ghost counted: { received ≡ length (received_from consumer) },
}

impl<X: Drop, R: PlaceRule<X>, H: Wait + Copy> ItemRecvEnd<X, R, H> {
    ghost use Rattle.blocking_ends.specs.Answers.{IfReceived, OnEnd, OnWait, got_by_receive};
    ghost use Rattle.blocking_ends.specs.Rings.{got_by_look};

    pub(super) fn new(
        rt: H,
        consumer: Consumer<X, Global, ByPlace<R>>,
        shared: Arc<Shared<X, R>>,
        pace: Pace,
    ) -> Self
        requires { received_from consumer ≡ [] }
        ensures { result.received ≡ 0 }
    {
        ItemRecvEnd {
            consumer,
            shared,
            received: 0,
            pace,
            ended: None,
            source: Source::new(),
            spare: None,
            rt,
        }
    }

    /// How many items were received: the place of the next one.
    pub fn received(&self) -> u64
        ensures { result ≡ self.now.received }
    {
        self.received
    }

    // Whether an item is there.
    fn has_item(&mut self) -> bool
        ensures some { result ≡ true → 0 < length (known_items self.new.consumer) }
        ensures none { result ≡ false → length (known_items self.new.consumer) ≡ 0 }
        ensures received { self.new.received ≡ self.old.received }
        ensures source { self.new.source ≡ self.old.source }
    {
        if self.consumer.cached_slots() > 0 {
            return true;
        }
        self.pace.wait();
        let seen = self.consumer.slots();
        self.pace.saw(seen);
        seen > 0
    }

    /// Receives the first item, where one is there, and with it the note of a job that waits, which has to be spent. It waits for nothing, but for a
    /// moment where it goes in step with the job.
    pub fn try_receive(&mut self) -> Option<(X, Option<WakeNote>)>
        ensures some { IfSome result (λ got. self.new.received ≡ self.old.received + 1) }
        ensures held { IfSome result (λ got. R.holds self.old.received got.0) }
        ensures none { IfNone result (self.new.received ≡ self.old.received) }
        ensures empty { IfNone result
            ((self.old.received ≡ 18446744073709551615) ⊎ (length (known_items self.new.consumer) ≡ 0)) }
        ensures source { self.new.source ≡ self.old.source }
    {
        // (the sender's count ends before this one does)
        if self.received == u64::MAX || !self.has_item() {
            return None;
        }
        // stream: Pop
        let item = self.consumer.pop_known();
        self.received += 1;
        Some((item, self.shared.take_job(&self.rt)))
    }

    // Looks once: for an item, and where there is none for the end. Where there is nothing yet, who looked by a seat has it back.
    fn look<S: Drop>(&mut self, by: S) -> Result<Received<X>, NotEnded<S>>
        ensures received { self.new.received ≡ self.old.received + got_by_look result }
        ensures held { IfOk result (λ answer. IfReceived answer (R.holds self.old.received)) }
        ensures ended { IfOk result (λ answer. OnEnd answer (R.ended self.old.received × IsSome self.new.ended)) }
        ensures found { IfOk result (λ answer. OnWait answer ⊥) }
        ensures empty { IfErr result (λ _.
            (self.old.received ≡ 18446744073709551615) ⊎ (length (known_items self.new.consumer) ≡ 0)) }
        ensures source { self.new.source ≡ self.old.source }
    {
        if let Some((item, note)) = self.try_receive() {
            return Ok(Received::Got(item, note));
        }
        match self.shared.ask_end(&self.rt, self.received, by) {
            Asked::Nothing(not_ended) => Err(not_ended),
            Asked::End(seen) => {
                self.ended = Some(seen);
                Ok(Received::Ended)
            }
            // (what was sent before the end was told is there now)
            Asked::More(not_ended) => match self.try_receive() {
                Some((item, note)) => Ok(Received::Got(item, note)),
                None => Err(not_ended),
            },
        }
    }

    // The waker of an earlier poll, which is used again, since one that is dropped wakes.
    fn take_waker(&mut self) -> OwnerWaker
        ensures received { self.new.received ≡ self.old.received }
        ensures source { self.new.source ≡ self.old.source }
    {
        match self.spare.take() {
            Some(waker) => Some(waker),
            // stream: TakeBackWaker (where the flag is clear the seat is empty)
            None => self.shared.take_owner(&self.rt).flatten(),
        }
    }

    // The owner is seated by the waker of its context, and has to look again.
    fn seat(&mut self, cx: &mut Context<'_>) -> OwnerSeat
        ensures received { self.new.received ≡ self.old.received }
        ensures registered { Covers cx.new (λ source. source ≡ self.new.source.id) }
        ensures source { self.new.source ≡ self.old.source }
        ensures kept { Keeps cx.old cx.new }
    {
        let mut waker = self.take_waker();
        let _pending: Poll<()> = cx.register(&self.source, &mut waker);
        let (seat, _older) = self.shared.seat_owner(&self.rt, waker);
        seat
    }

    /// Receives the first item, and with it the note of a job that waits, which has to be spent. Where the ring is empty and the job's end is open
    /// the poll waits.
    pub fn receive_or_seat(&mut self, cx: &mut Context<'_>) -> Received<X>
        ensures received { self.new.received ≡ self.old.received + got_by_receive result }
        ensures held { IfReceived result (R.holds self.old.received) }
        ensures ended { OnEnd result (R.ended self.old.received) }
        ensures seen { OnEnd result (IsSome self.new.ended) }
        ensures registered { OnWait result
            (Covers cx.new (λ source. source ≡ self.new.source.id)) }
        ensures source { self.new.source ≡ self.old.source }
        ensures kept { Keeps cx.old cx.new }
    {
        // stream: PollAgain, unless this poll began with a look that takes no seat
        if let Ok(answer) = self.look(()) {
            return answer;
        }
        let seat = self.seat(cx);
        // stream: LookAgainForItem, and LookAgainForClosed where there is none
        match self.look(seat) {
            Ok(answer) => {
                // stream: RiseOwner
                self.spare = self.shared.take_owner(&self.rt).flatten();
                answer
            }
            Err(not_ended) => Received::Waits(not_ended.seat()),
        }
    }

    /// Closes this end: nothing more is sent. Answers the note of a job that waits, which has to be spent. What is inside may
    /// still be received.
    pub fn close(&mut self) -> Option<WakeNote>
        ensures received { self.new.received ≡ self.old.received }
        ensures source { self.new.source ≡ self.old.source }
    {
        self.shared.shut_owner();
        self.shared.take_job(&self.rt)
    }
}
