//! The end of an owner that receives from its job.
ghost use Rattle.std.specs.Prelude.{◌≡◌, ◌<◌, ◌≤◌, ◌+◌, length, take, drop, IsSome};
ghost use Rattle.futures.specs.Task.{Covers, Keeps};

use crate::locked::{JobToOwner, OfReceived, Tally};
use crate::rule::PlaceRule;
use blocking_core::pipe::{Answered, CopyStore, Drained, PipeEnd, Received, Store};
use blocking_pool::pool::WakeNote;
use blocking_sync::{OwnerWaker, enter_where};
use futures::task::{Context, Poll, Source};
use std::sync::{Arc, Mutex, MutexGuard, Wait};

/// The end of an owner that receives from its job: the item from each place holds there, by the rule `R`.
///
/// A poll that finds something takes the pipe's lock once and makes no waker. One that waits is seated by the waker of its context,
/// and leaves its seat to the next poll. As at the other end, a call uses the pipe only where that has the count that this end
/// knows of, and else tries again.
///
/// Dropping it closes nothing, and a job that waits for room stays parked: it is closed first.
///
/// In a future's `poll`, whose `wake` spends the note, if there is one, by `Executor::wake`:
///
/// ```rust
/// match self.end.receive_or_seat(cx) {
///     Received::Got(number, note) => {
///         self.wake(note);
///         Poll::Ready(Some(number))
///     }
///     Received::Ended => Poll::Ready(None),
///     Received::Waits(_) => Poll::Pending,
/// }
/// ```
#[derive(Drop)]
pub struct RecvEnd<X: Drop, R: PlaceRule<X>, S: Store<X>, H: Wait + Copy> {
    pipe: Arc<Mutex<JobToOwner<X, R, S>>>,
    received: Tally<OfReceived>,
    // That nothing comes any more, once that was seen.
    ended: Option<PipeEnd>,
    source: Source,
    rt: H,
}

impl<X: Drop, R: PlaceRule<X>, S: Store<X>, H: Wait + Copy> RecvEnd<X, R, S, H> {
    ghost use Rattle.blocking_ends.specs.Answers.{IfReceived, OnEnd, OnWait, got_by_receive};

    pub(crate) fn new(
        rt: H,
        pipe: Arc<Mutex<JobToOwner<X, R, S>>>,
        received: Tally<OfReceived>,
    ) -> Self
        ensures { result.received ≡ received }
    {
        RecvEnd {
            pipe,
            received,
            ended: None,
            source: Source::new(),
            rt,
        }
    }

    /// How many items were received: the place of the next one.
    pub fn received(&self) -> u64
        ensures { result ≡ self.now.received }
    {
        self.received.count()
    }

    // The pipe, where it has the count that this end knows of.
    fn enter<'a>(
        pipe: &'a Mutex<JobToOwner<X, R, S>>,
        rt: &H,
        received: &Tally<OfReceived>,
    ) -> MutexGuard<'a, JobToOwner<X, R, S>>
        ensures { result.value.received ≡ received.now }
    {
        let received = received.count();
        enter_where(pipe, rt, |pipe: &JobToOwner<X, R, S>| {
            pipe.received() == received
        })
    }

    // Asks the pipe once. The waker is seated, or it comes back.
    fn ask(&mut self, waker: OwnerWaker) -> Answered<Received<X>, OwnerWaker>
        ensures received { self.new.received ≡ self.old.received + got_by_receive result.answer }
        ensures source { self.new.source ≡ self.old.source }
        ensures held { IfReceived result.answer (R.holds self.old.received) }
        ensures ended { OnEnd result.answer (R.ended self.old.received × IsSome self.new.ended) }
    {
        let mut pipe = Self::enter(&self.pipe, &self.rt, &self.received);
        let answered = pipe.receive_or_seat(waker);
        self.received = pipe.tally_received();
        self.ended = pipe.ended();
        answered
    }

    /// Receives the first item, and with it the note of a job that waits, which has to be spent. Where the pipe is empty and the
    /// job's end is open the poll waits.
    pub fn receive_or_seat(&mut self, cx: &mut Context<'_>) -> Received<X>
        ensures received { self.new.received ≡ self.old.received + got_by_receive result }
        ensures held { IfReceived result (R.holds self.old.received) }
        ensures ended { OnEnd result (R.ended self.old.received) }
        ensures seen { OnEnd result (IsSome self.new.ended) }
        ensures registered { OnWait result
            (Covers cx.new (λ source. source ≡ self.new.source.id)) }
        ensures source { self.new.source ≡ self.old.source }
        ensures kept { Keeps cx.old cx.new }
    {
        // (asked without a waker, so that what is there needs none)
        // meeting: Look
        let Answered { answer, spare } = self.ask(None);
        match answer {
            Received::Waits(_) => {}
            ready => return ready,
        }
        // The waker of an earlier poll is used again, since one that is dropped wakes.
        let mut waker = spare.flatten();
        // meeting: Register
        let _pending: Poll<()> = cx.register(&self.source, &mut waker);
        // meeting: Ask
        let Answered { answer, spare: _ } = self.ask(waker);
        answer
    }

    /// Closes this end: nothing more is sent. Answers the note of a job that waits, which has to be spent. What is inside may
    /// still be received.
    pub fn close(&mut self) -> Option<WakeNote>
        ensures received { self.new.received ≡ self.old.received }
        ensures source { self.new.source ≡ self.old.source }
    {
        Self::enter(&self.pipe, &self.rt, &self.received).close_owner()
    }
}

impl<X: Copy, R: PlaceRule<X>, S: CopyStore<X>, H: Wait + Copy> RecvEnd<X, R, S, H> {
    ghost use Rattle.blocking_ends.specs.Answers.{IfDrained, OnDrainsEnd, OnDrainsWait, got_by_drain};
    ghost use Rattle.blocking_ends.specs.Rules.{HoldFrom};

    // Asks the pipe once. The waker is seated, or it comes back.
    fn ask_for_many(&mut self, waker: OwnerWaker, out: &mut [X]) -> Answered<Drained, OwnerWaker>
        requires { 0 < length out.old }
        ensures received { self.new.received ≡ self.old.received + got_by_drain result.answer }
        ensures source { self.new.source ≡ self.old.source }
        ensures some { IfDrained result.answer (λ n. (0 < n) × (n ≤ length out.old)) }
        ensures held { HoldFrom R.holds self.old.received
            (take (got_by_drain result.answer) out.new) }
        ensures rest { drop (got_by_drain result.answer) out.new
            ≡ drop (got_by_drain result.answer) out.old }
        ensures ended { OnDrainsEnd result.answer (R.ended self.old.received × IsSome self.new.ended) }
    {
        let mut pipe = Self::enter(&self.pipe, &self.rt, &self.received);
        let answered = pipe.drain_or_seat(waker, out);
        self.received = pipe.tally_received();
        self.ended = pipe.ended();
        answered
    }

    /// Moves the first items into `out`, as many as there are and it holds, and answers the note of a job that waits, which has to
    /// be spent. Where the pipe is empty and the job's end is open the poll waits.
    pub fn drain_or_seat(&mut self, cx: &mut Context<'_>, out: &mut [X]) -> Drained
        requires { 0 < length out.old }
        ensures received { self.new.received ≡ self.old.received + got_by_drain result }
        ensures some { IfDrained result (λ n. (0 < n) × (n ≤ length out.old)) }
        ensures held { HoldFrom R.holds self.old.received (take (got_by_drain result) out.new) }
        ensures rest { drop (got_by_drain result) out.new ≡ drop (got_by_drain result) out.old }
        ensures ended { OnDrainsEnd result (R.ended self.old.received) }
        ensures seen { OnDrainsEnd result (IsSome self.new.ended) }
        ensures registered { OnDrainsWait result
            (Covers cx.new (λ source. source ≡ self.new.source.id)) }
        ensures source { self.new.source ≡ self.old.source }
        ensures kept { Keeps cx.old cx.new }
    {
        // (as where one is received)
        // meeting: Look
        let Answered { answer, spare } = self.ask_for_many(None, out);
        match answer {
            Drained::Waits(_) => {}
            ready => return ready,
        }
        let mut waker = spare.flatten();
        // meeting: Register
        let _pending: Poll<()> = cx.register(&self.source, &mut waker);
        // meeting: Ask
        let Answered { answer, spare: _ } = self.ask_for_many(waker, out);
        answer
    }
}
