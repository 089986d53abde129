//! The end of a job that receives from its owner.
ghost use Rattle.std.specs.Prelude.{◌≡◌, ◌<◌, ◌≤◌, ◌+◌, ◌-◌, [], length, max, take, drop, vec_capacity, None, IsSome};

use crate::hand::Hand;
use crate::locked::{Closed, OfReceived, OwnerToJob, Tally};
use crate::rule::PlaceRule;
use blocking_core::pipe::{CopyStore, Loan, Peeked, Store};
use blocking_pool::pool::JobNo;
use blocking_sync::{OwnerWaker, enter_where};
use std::marker::Model;
use std::sync::{Arc, Mutex, MutexGuard, Wait};

/// The end of a job that receives from its owner: the item from each place holds there, by the rule `R`. The job copies items, or is lent them
/// and looks at them under no lock. Either way they take room until it lets them go.
///
/// As at the other end, a call uses the pipe only where that has this end's count and has lent as much as it still has. Else it tries
/// again.
///
/// A waker that a call answers was taken out of its seat, and is to be called. One that is let go calls itself.
///
/// Dropping it closes nothing, and the owner goes on waiting: it is closed first.
///
/// In a job's `step`, where `me` is its number:
///
/// ```rust
/// match self.end.peek_or_seat(me, &mut bytes) {
///     Peeked::Some(count) => {
///         // (here `bytes[..count]` is used; a waker that is let go wakes)
///         drop(self.end.consume(count));
///         JobStep::Again
///     }
///     Peeked::Parked => JobStep::Waiting,
///     Peeked::Drained => JobStep::Done,
/// }
/// ```
#[derive(Drop)]
pub struct PeekEnd<X: Drop, R: PlaceRule<X>, S: Store<X>, H: Wait + Copy> {
    pipe: Arc<Mutex<OwnerToJob<X, R, S>>>,
    hand: Hand<X, R>,
    // How many items were consumed, and how many are lent.
    consumed: Tally<OfReceived>,
    lent: Loan,
    // How many items the last peek showed that weren't consumed since.
    peeked: usize,
    closed: Option<Closed>,
    rt: H,
}

impl<X: Drop, R: PlaceRule<X>, S: Store<X>, H: Wait + Copy> Model for PeekEnd<X, R, S, H> {
    ghost use Rattle.std.specs.Prelude.{◌≡◌, length};
    ghost use Rattle.blocking_ends.specs.Counted.{Peeking, peeking_code};

    ghost Value = { Peeking X };

    ghost coded = { peeking_code X.code };

    ghost view = { λ e. record { received = e.hand.received; shown = e.hand.left; peeked = e.peeked; closed = e.closed } };

    ghost invariant = { λ e. (e.consumed ≡ e.hand.received) × (e.lent ≡ length e.hand.left) };
}

impl<X: Drop, R: PlaceRule<X>, S: Store<X>, H: Wait + Copy> PeekEnd<X, R, S, H> {
    ghost use Rattle.blocking_ends.specs.Counted.{may_consume};
    ghost use Rattle.blocking_ends.specs.Rules.{HoldFrom};

    // The end to which so many items are lent at once at most, for which the piece has memory; none is yet.
    pub(crate) fn new(
        rt: H,
        pipe: Arc<Mutex<OwnerToJob<X, R, S>>>,
        consumed: Tally<OfReceived>,
        lent: Loan,
        piece: Vec<X>,
        most: usize,
    ) -> Self
        requires none { (consumed ≡ 0) × (lent ≡ 0) }
        requires some { 0 < most }
        requires fits { most ≤ vec_capacity piece }
        ensures { result ≡ record { received = 0; shown = []; peeked = 0; closed = None } }
    {
        PeekEnd {
            pipe,
            hand: Hand::new(piece, most),
            consumed,
            lent,
            peeked: 0,
            closed: None,
            rt,
        }
    }

    // The piece in which items are lent, and how many at once at most. Its end of the pipe is given up.
    pub(crate) fn into_parts(self) -> (Vec<X>, usize)
        ensures some { 0 < result.1 }
        ensures fits { result.1 ≤ vec_capacity result.0 }
    {
        let PeekEnd {
            pipe: _,
            hand,
            consumed: _,
            lent: _,
            peeked: _,
            closed: _,
            rt: _,
        } = self;
        hand.into_parts()
    }

    /// How many items were consumed: the place of the next one.
    pub fn received(&self) -> u64
        ensures { result ≡ self.now.received }
    {
        self.hand.received()
    }

    /// The items that were lent last and weren't consumed since. Each holds at its place.
    pub fn shown(&self) -> &[X]
        ensures shown { result.now ≡ self.now.shown }
        ensures held { HoldFrom R.holds self.now.received self.now.shown }
    {
        self.hand.left()
    }

    /// How many items may be consumed: those that are lent, or those that the last peek showed and that weren't consumed since, if they are
    /// more.
    pub fn may_consume(&self) -> usize
        ensures { result ≡ may_consume self.now }
    {
        self.hand.len().max(self.peeked)
    }

    // The pipe, where it has the count that this end knows of, has lent so many items, and holds so many more.
    fn enter<'a>(
        pipe: &'a Mutex<OwnerToJob<X, R, S>>,
        rt: &H,
        consumed: &Tally<OfReceived>,
        lent: &Loan,
        more: usize,
    ) -> MutexGuard<'a, OwnerToJob<X, R, S>>
        ensures consumed { result.value.received ≡ consumed.now }
        ensures lent { result.value.pipe.lent ≡ lent.now }
        ensures more { more ≤ length result.value.pipe.items }
    {
        let (consumed, lent) = (consumed.count(), lent.count());
        enter_where(pipe, rt, |pipe: &OwnerToJob<X, R, S>| {
            pipe.received() == consumed && pipe.lent() == lent && more <= pipe.len()
        })
    }

    /// Lets the first `count` items go, of those that were lent or that the last peek showed and that weren't consumed since. Answers the waker
    /// of an owner who waits.
    pub fn consume(&mut self, count: usize) -> Option<OwnerWaker>
        requires { count ≤ may_consume self.old }
        ensures received { self.new.received ≡ self.old.received + count }
        ensures shown { self.new.shown ≡ drop count self.old.shown }
        ensures peeked { self.new.peeked ≡ self.old.peeked - count }
    {
        let more = count - count.min(self.hand.len());
        let mut pipe = Self::enter(&self.pipe, &self.rt, &self.consumed, &self.lent, more);
        // meeting: Leave, or Unseat
        let waker = pipe.consume(count);
        self.consumed = pipe.tally_received();
        self.lent = pipe.loan();
        drop(pipe);
        self.hand.pass(count);
        self.peeked = self.peeked.saturating_sub(count);
        waker
    }

    /// Closes this end: nothing more is sent. Answers the waker of an owner who waits.
    pub fn close(&mut self) -> Option<OwnerWaker>
        ensures rest { self.new ≡ record self.old { closed = self.new.closed } }
        ensures closed { IsSome self.new.closed }
    {
        let mut pipe = Self::enter(&self.pipe, &self.rt, &self.consumed, &self.lent, 0);
        // meeting: Leave
        let waker = pipe.close_job();
        self.closed = pipe.closed();
        waker
    }

    /// That this end was closed, once it was.
    pub fn closed(&self) -> Option<Closed>
        ensures { result ≡ self.now.closed }
    {
        self.closed
    }
}

impl<X: Copy, R: PlaceRule<X>, S: CopyStore<X>, H: Wait + Copy> PeekEnd<X, R, S, H> {
    ghost use Rattle.blocking_ends.specs.Answers.{IfShown, OnDrained, shown_by};
    ghost use Rattle.blocking_ends.specs.Rules.{HoldFrom};

    // Copies what is lent, and more from behind it, as much as `out` holds, and tells how many items that are.
    fn peek_lent(&self, out: &mut [X]) -> usize
        ensures some { 0 < length out.old → 0 < length self.now.shown → 0 < result }
        ensures within { result ≤ length out.old }
        ensures lent { take (length self.now.shown) (take result out.new) ≡ take (length out.old) self.now.shown }
        ensures held { HoldFrom R.holds self.now.received (take result out.new) }
        ensures rest { drop result out.new ≡ drop result out.old }
    {
        let lent = self.shown();
        let first = lent.len().min(out.len());
        out[..first].copy_from_slice(&lent[..first]);
        if first == out.len() {
            return first;
        }
        let pipe = Self::enter(&self.pipe, &self.rt, &self.consumed, &self.lent, 0);
        first + pipe.peek(&mut out[first..])
    }

    /// Copies the first items, as many as there are and `out` holds: those that are lent, and then those behind them. They stay where they are.
    /// Where there are none and the owner's end is open the job is seated.
    pub fn peek_or_seat(&mut self, me: JobNo, out: &mut [X]) -> Peeked
        requires { 0 < length out.old }
        ensures received { self.new.received ≡ self.old.received }
        ensures shown { self.new.shown ≡ self.old.shown }
        ensures peeked { self.new.peeked ≡ shown_by result }
        ensures some { IfShown result (λ n. (0 < n) × (n ≤ length out.old)) }
        ensures lent { take (length self.old.shown) (take (shown_by result) out.new) ≡ take (length out.old) self.old.shown }
        ensures held { HoldFrom R.holds self.old.received (take (shown_by result) out.new) }
        ensures rest { drop (shown_by result) out.new ≡ drop (shown_by result) out.old }
        ensures ended { OnDrained result (R.ended self.old.received) }
    {
        if self.hand.len() > 0 {
            self.peeked = self.peek_lent(out);
            return Peeked::Some(self.peeked);
        }
        let mut pipe = Self::enter(&self.pipe, &self.rt, &self.consumed, &self.lent, 0);
        let peeked = pipe.peek_or_seat(me, out);
        drop(pipe);
        self.peeked = match peeked {
            Peeked::Some(count) => count,
            Peeked::Parked | Peeked::Drained => 0,
        };
        peeked
    }

    /// Lends the first items, which take room until they are consumed. They are what is left of those that were lent last, though more may
    /// be behind them, or else the next ones. Where the pipe is empty and the owner's end is open the job is seated.
    pub fn lend_or_seat(&mut self, me: JobNo) -> Peeked
        ensures rest { 0 < length self.old.shown → self.new ≡ self.old }
        ensures received { self.new.received ≡ self.old.received }
        ensures shown { length self.new.shown ≡ shown_by result }
        ensures peeked { self.new.peeked ≡ self.old.peeked }
        ensures some { IfShown result (λ n. 0 < n) }
        ensures held { HoldFrom R.holds self.old.received self.new.shown }
        ensures ended { OnDrained result (R.ended self.old.received) }
    {
        let left = self.hand.len();
        if left > 0 {
            return Peeked::Some(left);
        }
        let mut pipe = Self::enter(&self.pipe, &self.rt, &self.consumed, &self.lent, 0);
        let lent = self.hand.lend_or_seat(&mut *pipe, me);
        self.lent = pipe.loan();
        lent
    }
}
