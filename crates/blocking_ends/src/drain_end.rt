//! The end of an owner that is lent what its job sent.
ghost use Rattle.std.specs.Prelude.{◌≡◌, ◌<◌, ◌≤◌, ◌+◌, ◌^◌, [], length, take, drop, vec_capacity, IfSome, IsSome};
ghost use Rattle.futures.specs.Task.{Covers, Keeps};
ghost use Rattle.blocking_ends.specs.Answers.{OnFetched, OnFetchEnd, OnFetchWait};

use crate::hand::Hand;
use crate::locked::{JobToOwner, OfReceived, Tally};
use crate::rule::PlaceRule;
use blocking_core::pipe::{Answered, CopyStore, Drained, Fetched, Loan, PipeEnd, Store};
use blocking_pool::pool::WakeNote;
use blocking_sync::{OwnerWaker, enter_where};
use futures::task::{Context, Poll, Source};
use std::sync::{Arc, Mutex, MutexGuard, Wait};

/// The end of an owner that receives from its job, as a [`RecvEnd`](crate::RecvEnd) does. Over a store of pieces it copies under no lock.
/// It is lent the front of the pipe in a piece, moves items out of that, and lets go of the piece once all of it was moved out. Until then
/// those items take room: where nothing is left in its hand, nothing is lent to it.
///
/// A call that needs the pipe uses it only where that has the count that this end knows of, and has lent as much as this end was lent. Else
/// it tries again.
///
/// Dropping it closes nothing, and a job that waits for room stays parked: it is closed first.
///
/// In a future's `poll`, whose `wake` spends the note, if there is one, by `Executor::wake`:
///
/// ```rust
/// match self.end.drain_or_seat(cx, &mut self.bytes) {
///     Drained::Got(count, note) => {
///         self.wake(note);
///         Poll::Ready(count)
///     }
///     Drained::Ended => Poll::Ready(0),
///     Drained::Waits(_) => Poll::Pending,
/// }
/// ```
#[derive(Drop)]
pub struct DrainEnd<X: Drop, R: PlaceRule<X>, S: Store<X>, H: Wait + Copy> {
    pipe: Arc<Mutex<JobToOwner<X, R, S>>>,
    hand: Hand<X, R>,
    // How many items were fetched in all, and how many are lent.
    fetched: Tally<OfReceived>,
    lent: Loan,
    // That nothing comes any more, once that was seen.
    ended: Option<PipeEnd>,
    source: Source,
    rt: H,
    ghost count: { fetched ≡ hand.received + length hand.left },
    ghost counted: { hand.received + length hand.left < 2 ^ 64 },
}

impl<X: Drop, R: PlaceRule<X>, S: Store<X>, H: Wait + Copy> DrainEnd<X, R, S, H> {
    // The end to which so many items are lent at once at most, for which the piece has memory.
    pub(crate) fn new(
        rt: H,
        pipe: Arc<Mutex<JobToOwner<X, R, S>>>,
        fetched: Tally<OfReceived>,
        lent: Loan,
        piece: Vec<X>,
        most: usize,
    ) -> Self
        requires none { fetched ≡ 0 }
        requires some { 0 < most }
        requires fits { most ≤ vec_capacity piece }
        ensures { result.hand.received ≡ 0 }
    {
        DrainEnd {
            pipe,
            hand: Hand::new(piece, most),
            fetched,
            lent,
            ended: None,
            source: Source::new(),
            rt,
        }
    }

    // The pipe, where nobody else has an end of it, with the piece in which items are lent and how many at once at most.
    pub(crate) fn into_pipe(self) -> Option<(JobToOwner<X, R, S>, Vec<X>, usize)>
        ensures some { IfSome result (λ parts. 0 < parts.2) }
        ensures fits { IfSome result (λ parts. parts.2 ≤ vec_capacity parts.1) }
    {
        let DrainEnd {
            pipe,
            hand,
            fetched: _,
            lent: _,
            ended: _,
            source: _,
            rt: _,
        } = self;
        let (piece, most) = hand.into_parts();
        let pipe = Arc::into_inner(pipe)?.into_inner();
        Some((pipe, piece, most))
    }

    /// How many items were received: the place of the next one.
    pub fn received(&self) -> u64
        ensures { result ≡ self.now.hand.received }
    {
        self.hand.received()
    }

    // The pipe, where it has the count that this end knows of, and has lent so many items.
    fn enter<'a>(
        pipe: &'a Mutex<JobToOwner<X, R, S>>,
        rt: &H,
        fetched: &Tally<OfReceived>,
        lent: &Loan,
    ) -> MutexGuard<'a, JobToOwner<X, R, S>>
        ensures received { result.value.received ≡ fetched.now }
        ensures lent { result.value.pipe.lent ≡ lent.now }
    {
        let (fetched, lent) = (fetched.count(), lent.count());
        enter_where(pipe, rt, |pipe: &JobToOwner<X, R, S>| {
            pipe.received() == fetched && pipe.lent() == lent
        })
    }

    /// Closes this end: nothing more is sent. Answers the note of a job that waits, which has to be spent. What is inside may
    /// still be received.
    pub fn close(&mut self) -> Option<WakeNote>
        ensures received { self.new.hand ≡ self.old.hand }
        ensures source { self.new.source ≡ self.old.source }
    {
        Self::enter(&self.pipe, &self.rt, &self.fetched, &self.lent).close_owner()
    }
}

impl<X: Copy, R: PlaceRule<X>, S: CopyStore<X>, H: Wait + Copy> DrainEnd<X, R, S, H> {
    ghost use Rattle.blocking_ends.specs.Answers.{IfDrained, OnDrainsEnd, OnDrainsWait, got_by_drain};
    ghost use Rattle.blocking_ends.specs.Rules.{HoldFrom};

    // Asks the pipe once, where nothing is in hand. The waker is seated, or it comes back.
    fn ask(&mut self, waker: OwnerWaker) -> Answered<Fetched, OwnerWaker>
        requires none { self.old.hand.left ≡ [] }
        ensures received { self.new.hand.received ≡ self.old.hand.received }
        ensures some { OnFetched result.answer (0 < length self.new.hand.left) }
        ensures none { OnFetchWait result.answer (self.new.hand.left ≡ []) }
        ensures ended { OnFetchEnd result.answer (R.ended self.old.hand.received × IsSome self.new.ended) }
        ensures source { self.new.source ≡ self.old.source }
    {
        let mut pipe = Self::enter(&self.pipe, &self.rt, &self.fetched, &self.lent);
        let answered = self.hand.fetch_or_seat(&mut *pipe, waker);
        self.fetched = pipe.tally_received();
        self.lent = pipe.loan();
        self.ended = pipe.ended();
        answered
    }

    // Fetches what is next, where nothing is in hand. Where the pipe is empty and the job's end is open the poll waits.
    fn fetch(&mut self, cx: &mut Context<'_>) -> Fetched
        requires none { self.old.hand.left ≡ [] }
        ensures received { self.new.hand.received ≡ self.old.hand.received }
        ensures some { OnFetched result (0 < length self.new.hand.left) }
        ensures ended { OnFetchEnd result (R.ended self.old.hand.received × IsSome self.new.ended) }
        ensures registered { OnFetchWait result
            (Covers cx.new (λ source. source ≡ self.new.source.id)) }
        ensures source { self.new.source ≡ self.old.source }
        ensures kept { Keeps cx.old cx.new }
    {
        // (asked without a waker, so that what is there needs none)
        // meeting: Look
        let Answered { answer, spare } = self.ask(None);
        match answer {
            Fetched::Waits(_) => {}
            ready => return ready,
        }
        // The waker of an earlier poll is used again, since one that is dropped wakes.
        let mut waker = spare.flatten();
        // meeting: Register
        let _pending: Poll<()> = cx.register(&self.source, &mut waker);
        // meeting: Ask
        let Answered { answer, spare: _ } = self.ask(waker);
        answer
    }

    // Lets go of what was lent, none of which is left in hand, and fetches what is next, if there is something. Answers the note of a job that
    // waits, which has to be spent.
    fn let_go(&mut self) -> Option<WakeNote>
        requires none { self.old.hand.left ≡ [] }
        ensures received { self.new.hand.received ≡ self.old.hand.received }
        ensures lent { self.new.lent ≡ length self.new.hand.left }
        ensures source { self.new.source ≡ self.old.source }
    {
        let mut pipe = Self::enter(&self.pipe, &self.rt, &self.fetched, &self.lent);
        let note = pipe.let_go_fetched(self.lent.count());
        self.hand.fetch(&mut *pipe);
        self.fetched = pipe.tally_received();
        self.lent = pipe.loan();
        note
    }

    /// Moves the first items into `out`, as many as there are in hand and it holds. It answers the note of a job that waits, which has to
    /// be spent. Where the pipe is empty and the job's end is open the poll waits.
    pub fn drain_or_seat(&mut self, cx: &mut Context<'_>, out: &mut [X]) -> Drained
        requires { 0 < length out.old }
        ensures received { self.new.hand.received ≡ self.old.hand.received + got_by_drain result }
        ensures lent { IfDrained result (λ _. (length self.new.hand.left ≡ 0) → (self.new.lent ≡ 0)) }
        ensures some { IfDrained result (λ n. (0 < n) × (n ≤ length out.old)) }
        ensures held { HoldFrom R.holds self.old.hand.received (take (got_by_drain result) out.new) }
        ensures rest { drop (got_by_drain result) out.new ≡ drop (got_by_drain result) out.old }
        ensures ended { OnDrainsEnd result (R.ended self.old.hand.received) }
        ensures seen { OnDrainsEnd result (IsSome self.new.ended) }
        ensures registered { OnDrainsWait result
            (Covers cx.new (λ source. source ≡ self.new.source.id)) }
        ensures source { self.new.source ≡ self.old.source }
        ensures kept { Keeps cx.old cx.new }
    {
        if self.hand.len() == 0 {
            match self.fetch(cx) {
                Fetched::Got(_) => {}
                Fetched::Ended => return Drained::Ended,
                Fetched::Waits(seat) => return Drained::Waits(seat),
            }
        }
        let count = self.hand.move_out(out);
        if self.hand.len() > 0 {
            return Drained::Got(count, None);
        }
        Drained::Got(count, self.let_go())
    }
}
