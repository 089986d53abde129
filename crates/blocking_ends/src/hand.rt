//! What whoever receives has in its hand: what is left of the piece that it was lent last.
ghost use Rattle.std.specs.Prelude.{◌≡◌, ◌<◌, ◌≤◌, ◌+◌, ◌^◌, [], false, length, min, take, drop, vec_capacity};

use crate::locked::{JobToOwner, OwnerToJob};
use crate::rule::PlaceRule;
use blocking_core::pipe::{Answered, CopyStore, Fetched, Peeked};
use blocking_pool::pool::JobNo;
use blocking_sync::OwnerWaker;
use std::marker::{Model, PhantomData};

#[derive(Drop)]
pub(crate) struct Hand<X: Drop, R: PlaceRule<X>> {
    // How many items were let go, of this piece and of others.
    received: u64,
    // The piece, and how many of its items were.
    piece: Vec<X>,
    gone: usize,
    // How many items are lent at once at most.
    most: usize,
    rule: PhantomData<R>,
}

impl<X: Drop, R: PlaceRule<X>> Model for Hand<X, R> {
    ghost use Rattle.std.specs.Prelude.{◌<◌, ◌≤◌, drop, vec_len, vec_capacity};
    ghost use Rattle.blocking_ends.specs.Counted.{InHand, in_hand_code};
    ghost use Rattle.blocking_ends.specs.Rules.{HoldFrom};

    ghost Value = { InHand X };

    ghost coded = { in_hand_code X.code };

    ghost view = { λ h. record { received = h.received; left = drop h.gone h.piece.items } };

    ghost invariant = { λ h. (h.gone ≤ vec_len h.piece)
        × HoldFrom R.holds h.received (drop h.gone h.piece.items)
        × (0 < h.most)
        × (h.most ≤ vec_capacity h.piece) };
}

impl<X: Drop, R: PlaceRule<X>> Hand<X, R> {
    ghost use Rattle.blocking_ends.specs.Rules.{HoldFrom};

    /// Nothing is in it: what stands in the piece is of no use.
    pub(crate) fn new(piece: Vec<X>, most: usize) -> Self
        requires some { 0 < most }
        requires fits { most ≤ vec_capacity piece }
        ensures { result ≡ record { received = 0; left = [] } }
    {
        Hand {
            received: 0,
            gone: piece.len(),
            piece,
            most,
            rule: PhantomData,
        }
    }

    /// The piece, and how many items are lent at once at most.
    pub(crate) fn into_parts(self) -> (Vec<X>, usize)
        ensures some { 0 < result.1 }
        ensures fits { result.1 ≤ vec_capacity result.0 }
    {
        let Hand {
            received: _,
            piece,
            gone: _,
            most,
            rule: _,
        } = self;
        (piece, most)
    }

    /// How many items were let go: the place of the next one.
    pub(crate) fn received(&self) -> u64
        ensures { result ≡ self.now.received }
    {
        self.received
    }

    /// How many items are in it.
    pub(crate) fn len(&self) -> usize
        ensures len { result ≡ length self.now.left }
        ensures held { HoldFrom R.holds self.now.received self.now.left }
    {
        self.piece.len() - self.gone
    }

    /// The items that are in it, each of which holds at its place.
    pub(crate) fn left(&self) -> &[X]
        ensures left { result.now ≡ self.now.left }
        ensures held { HoldFrom R.holds self.now.received self.now.left }
    {
        &self.piece[self.gone..]
    }

    /// So many items are gone, of those in it and then of others.
    pub(crate) fn pass(&mut self, count: usize)
        requires counted { self.old.received + count < 2 ^ 64 }
        ensures { self.new ≡ record { received = self.old.received + count; left = drop count self.old.left } }
    {
        self.gone += count.min(self.len());
        self.received += count as u64;
    }
}

impl<X: Copy, R: PlaceRule<X>> Hand<X, R> {
    ghost use Rattle.blocking_ends.specs.Answers.{IfShown, OnDrained, OnFetched, OnFetchEnd, OnFetchWait, shown_by};
    ghost use Rattle.blocking_ends.specs.Rules.{HoldFrom};

    /// Moves the first items into `out`, as many as it has places, and tells how many they were.
    pub(crate) fn move_out(&mut self, out: &mut [X]) -> usize
        requires counted { self.old.received + length self.old.left < 2 ^ 64 }
        ensures count { result ≡ min (length out.old) (length self.old.left) }
        ensures hand { self.new ≡ record { received = self.old.received + result; left = drop result self.old.left } }
        ensures held { HoldFrom R.holds self.old.received (take result out.new) }
        ensures rest { drop result out.new ≡ drop result out.old }
    {
        let left = self.left();
        let count = left.len().min(out.len());
        out[..count].copy_from_slice(&left[..count]);
        self.pass(count);
        count
    }

    /// An owner fetches what is next, if there is something, where nothing is left.
    pub(crate) fn fetch<S: CopyStore<X>>(&mut self, pipe: &mut JobToOwner<X, R, S>)
        requires none { self.old.left ≡ [] }
        requires place { pipe.old.received ≡ self.old.received }
        ensures received { self.new.received ≡ self.old.received }
        ensures fetched { pipe.new.received ≡ self.new.received + length self.new.left }
        ensures lent { pipe.new.pipe.lent ≡ pipe.old.pipe.lent + length self.new.left }
    {
        self.gone = match pipe.fetch(self.most, &mut self.piece) {
            Some(_) => 0,
            None => self.piece.len(),
        };
    }

    /// As `fetch`. Where the pipe is empty and the job's end is open the owner is seated.
    pub(crate) fn fetch_or_seat<S: CopyStore<X>>(
        &mut self,
        pipe: &mut JobToOwner<X, R, S>,
        waker: OwnerWaker,
    ) -> Answered<Fetched, OwnerWaker>
        requires none { self.old.left ≡ [] }
        requires place { pipe.old.received ≡ self.old.received }
        ensures received { self.new.received ≡ self.old.received }
        ensures fetched { pipe.new.received ≡ self.new.received + length self.new.left }
        ensures some { OnFetched result.answer (0 < length self.new.left) }
        ensures none { OnFetchWait result.answer (self.new.left ≡ []) }
        ensures ended { OnFetchEnd result.answer (R.ended self.old.received × (pipe.new.pipe.items ≡ []) × (pipe.new.pipe.is_job_open ≡ false)) }
    {
        let answered = pipe.fetch_or_seat(waker, self.most, &mut self.piece);
        self.gone = match &answered.answer {
            Fetched::Got(_) => 0,
            Fetched::Ended | Fetched::Waits(_) => self.piece.len(),
        };
        answered
    }

    /// A job is lent what is next, where nothing is left, or finds the end, or is seated.
    pub(crate) fn lend_or_seat<S: CopyStore<X>>(
        &mut self,
        pipe: &mut OwnerToJob<X, R, S>,
        me: JobNo,
    ) -> Peeked
        requires none { self.old.left ≡ [] }
        requires lent { pipe.old.pipe.lent ≡ 0 }
        requires place { pipe.old.received ≡ self.old.received }
        ensures received { self.new.received ≡ self.old.received }
        ensures lent { pipe.new.pipe.lent ≡ length self.new.left }
        ensures left { length self.new.left ≡ shown_by result }
        ensures some { IfShown result (λ n. 0 < n) }
        ensures held { HoldFrom R.holds self.new.received self.new.left }
        ensures ended { OnDrained result (R.ended self.old.received) }
    {
        let lent = pipe.lend_or_seat(me, self.most, &mut self.piece);
        self.gone = match lent {
            Peeked::Some(_) => 0,
            Peeked::Parked | Peeked::Drained => self.piece.len(),
        };
        lent
    }
}
