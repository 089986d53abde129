//! The end of an owner that sends to its job.
ghost use Rattle.std.specs.Prelude.{◌≡◌, ◌<◌, ◌≤◌, ◌+◌, length};
ghost use Rattle.futures.specs.Task.{Covers, Keeps};

use crate::locked::{OfSent, OwnerToJob, Tally};
use crate::rule::PlaceRule;
use blocking_core::pipe::{Answered, CopyStore, Filled, Store};
use blocking_pool::pool::WakeNote;
use blocking_sync::{OwnerWaker, enter_where};
use futures::task::{Context, Poll, Source};
use std::sync::{Arc, Mutex, MutexGuard, Wait};

/// The end of an owner that sends to its job: each item holds at its place, by the rule `R`.
///
/// A poll that finds room takes the pipe's lock once and makes no waker. One that waits is seated by the waker of its context, and
/// leaves its seat to the next poll. As at the other end, a call uses the pipe only where that has the count that this end knows
/// of, and else tries again.
///
/// Dropping it closes nothing, and a job that waits for items stays parked: it is closed first.
///
/// In a future's `poll`, whose `wake` spends the note, if there is one, by `Executor::wake`:
///
/// ```rust
/// match self.end.fill_or_seat(cx, b"a spruce") {
///     Filled::Took(count, note) => {
///         self.wake(note);
///         Poll::Ready(count)
///     }
///     Filled::Shut => Poll::Ready(0),
///     Filled::Waits(_) => Poll::Pending,
/// }
/// ```
#[derive(Drop)]
pub struct FillEnd<X: Drop, R: PlaceRule<X>, S: Store<X>, H: Wait + Copy> {
    pipe: Arc<Mutex<OwnerToJob<X, R, S>>>,
    // Where a whole piece is copied under no lock, before it is handed over. A store that takes none has no memory here.
    ready: Vec<X>,
    sent: Tally<OfSent>,
    source: Source,
    rt: H,
}

impl<X: Drop, R: PlaceRule<X>, S: Store<X>, H: Wait + Copy> FillEnd<X, R, S, H> {
    pub(crate) fn new(
        rt: H,
        pipe: Arc<Mutex<OwnerToJob<X, R, S>>>,
        sent: Tally<OfSent>,
        ready: Vec<X>,
    ) -> Self
        ensures { result.sent ≡ sent }
    {
        FillEnd {
            pipe,
            ready,
            sent,
            source: Source::new(),
            rt,
        }
    }

    // The pipe, where nobody else has an end of it, and the memory of what was made ready.
    pub(crate) fn into_pipe(self) -> Option<(OwnerToJob<X, R, S>, Vec<X>)> {
        let FillEnd {
            pipe,
            ready,
            sent: _,
            source: _,
            rt: _,
        } = self;
        let pipe = Arc::into_inner(pipe)?.into_inner();
        Some((pipe, ready))
    }

    /// How many items were sent: the place of the next one.
    pub fn sent(&self) -> u64
        ensures { result ≡ self.now.sent }
    {
        self.sent.count()
    }

    // The pipe, where it has the count that this end knows of.
    fn enter<'a>(
        pipe: &'a Mutex<OwnerToJob<X, R, S>>,
        rt: &H,
        sent: &Tally<OfSent>,
    ) -> MutexGuard<'a, OwnerToJob<X, R, S>>
        ensures { result.value.sent ≡ sent.now }
    {
        let sent = sent.count();
        enter_where(pipe, rt, |pipe: &OwnerToJob<X, R, S>| pipe.sent() == sent)
    }

    /// Closes this end, where the items may end. From then on nothing is sent. Answers the note of a job that waits, which has to
    /// be spent. What is inside may still be received.
    ///
    /// ```rust
    /// if let Some(note) = end.close() {
    ///     let _ = executor.wake(note);
    /// }
    /// ```
    pub fn close(&mut self) -> Option<WakeNote>
        requires { R.ended self.old.sent }
        ensures sent { self.new.sent ≡ self.old.sent }
        ensures source { self.new.source ≡ self.old.source }
    {
        Self::enter(&self.pipe, &self.rt, &self.sent).close_owner()
    }
}

impl<X: Copy, R: PlaceRule<X>, S: CopyStore<X>, H: Wait + Copy> FillEnd<X, R, S, H> {
    ghost use Rattle.blocking_core.specs.Stores.{IsReady};
    ghost use Rattle.blocking_ends.specs.Answers.{IfTook, OnFullWait, sent_by_fill};
    ghost use Rattle.blocking_ends.specs.Rules.{HoldFrom};

    // Copies the items, where they make a whole piece.
    fn make_ready(&mut self, items: &[X])
        ensures sent { self.new.sent ≡ self.old.sent }
        ensures source { self.new.source ≡ self.old.source }
        ensures ready { IsReady self.new.ready.items items.now }
    {
        self.ready.clear();
        if items.len() == self.ready.capacity() {
            let _ = self.ready.extend_from_slice(items);
        }
    }

    // Asks the pipe once. The waker is seated, or it comes back.
    fn ask(&mut self, waker: OwnerWaker, items: &[X]) -> Answered<Filled, OwnerWaker>
        requires some { 0 < length items.now }
        requires held { HoldFrom R.holds self.old.sent items.now }
        requires ready { IsReady self.old.ready.items items.now }
        ensures sent { self.new.sent ≡ self.old.sent + sent_by_fill result.answer }
        ensures source { self.new.source ≡ self.old.source }
        ensures ready { IsReady self.new.ready.items items.now }
        ensures took { IfTook result.answer (λ n. (0 < n) × (n ≤ length items.now)) }
    {
        let mut pipe = Self::enter(&self.pipe, &self.rt, &self.sent);
        let answered = pipe.fill_or_seat(waker, items, &mut self.ready);
        self.sent = pipe.tally_sent();
        answered
    }

    /// Sends the first of the items, as many as there is room for, and answers the note of a job that waits, which has to be spent.
    /// Where the pipe is full and the job's end is open the poll waits. None is taken where the job's end is closed, or this one, or
    /// where more than 18446744073709551615 items would be sent in all.
    pub fn fill_or_seat(&mut self, cx: &mut Context<'_>, items: &[X]) -> Filled
        requires some { 0 < length items.now }
        requires held { HoldFrom R.holds self.old.sent items.now }
        ensures sent { self.new.sent ≡ self.old.sent + sent_by_fill result }
        ensures took { IfTook result (λ n. (0 < n) × (n ≤ length items.now)) }
        ensures registered { OnFullWait result
            (Covers cx.new (λ source. source ≡ self.new.source.id)) }
        ensures source { self.new.source ≡ self.old.source }
        ensures kept { Keeps cx.old cx.new }
    {
        self.make_ready(items);
        // (asked without a waker, so that what is there needs none)
        // meeting: Look
        let Answered { answer, spare } = self.ask(None, items);
        match answer {
            Filled::Waits(_) => {}
            ready => return ready,
        }
        // The waker of an earlier poll is used again, since one that is dropped wakes.
        let mut waker = spare.flatten();
        // meeting: Register
        let _pending: Poll<()> = cx.register(&self.source, &mut waker);
        // meeting: Ask
        let Answered { answer, spare: _ } = self.ask(waker, items);
        answer
    }
}
