//! A pipe as its lock holds it: with the counts of what was sent and received, and with what its rule says of what is inside.
//!
//! There is one type for each direction, since they differ in whose end is the sender's.
ghost use Rattle.std.specs.Prelude.{◌≡◌, ◌<◌, ◌≤◌, ◌+◌, ◌↔◌, [], true, false, length, min, take, drop, vec_capacity, None, IfSome, IfNone, IsSome};

mod tally;

use crate::rule::PlaceRule;
use blocking_core::pipe::{
    Answered, CopyStore, Drained, Fetched, Filled, Loan, Peeked, Pipe, PipeEnd, Put, Received,
    Room, Sending, Space, Store,
};
use blocking_pool::pool::{JobNo, WakeNote};
use blocking_sync::OwnerWaker;
use std::marker::{Model, PhantomData};
pub use tally::Closed;
pub(crate) use tally::{OfReceived, OfSent, Tally};

/// A pipe into which a job sends and from which its owner receives.
#[derive(Drop)]
pub(crate) struct JobToOwner<X: Drop, R: PlaceRule<X>, S: Store<X>> {
    pipe: Pipe<X, OwnerWaker, S>,
    sent: u64,
    received: u64,
    rule: PhantomData<R>,
}

impl<X: Drop, R: PlaceRule<X>, S: Store<X>> Model for JobToOwner<X, R, S> {
    ghost use Rattle.std.specs.Prelude.{Option};
    ghost use Rattle.blocking_core.specs.Pipes.{Pipe as Seen, pipe_code};
    ghost use Rattle.blocking_ends.specs.Counted.{Counted, IsKept, counted_code};
    ghost use Rattle.blocking_sync.specs.Slots.{waker_code};
    ghost use Rattle.futures.specs.declared.task.waker.Waker.{Waker};

    ghost Value = { Counted (Seen X (Option Waker)) };

    ghost coded = { counted_code (pipe_code X.code waker_code) };

    ghost view = { λ p. record { pipe = p.pipe; sent = p.sent; received = p.received } };

    ghost invariant = { λ p. IsKept R.holds R.ended p.pipe.items p.sent p.received p.pipe.is_job_open };
}

impl<X: Drop, R: PlaceRule<X>, S: Store<X>> JobToOwner<X, R, S> {
    ghost use Rattle.blocking_core.specs.Pipes.{empty_pipe, room};
    ghost use Rattle.blocking_core.specs.PipeAnswers.{fetched_gone};
    ghost use Rattle.blocking_ends.specs.Answers.{IfReceived, OnEnd};
    ghost use Rattle.blocking_ends.specs.Sections.{Counts, FindsRoom, Sends, Receives};

    /// An empty pipe over the memory of a store in which nothing stands, and into which nothing was sent.
    pub(crate) fn over(memory: S::Memory) -> Self
        requires some { let stored = S.held memory in 0 < stored.capacity }
        requires empty { let stored = S.held memory in stored.items ≡ [] }
        ensures { let stored = S.held memory in
            result ≡ record { pipe = empty_pipe stored.capacity; sent = 0; received = 0 } }
    {
        JobToOwner {
            pipe: Pipe::over(memory),
            sent: 0,
            received: 0,
            rule: PhantomData,
        }
    }

    /// The memory of its store, with what is inside.
    pub(crate) fn into_memory(self) -> S::Memory
        ensures { let stored = S.held result in 0 < stored.capacity }
    {
        let JobToOwner {
            pipe,
            sent: _,
            received: _,
            rule: _,
        } = self;
        pipe.into_memory()
    }

    /// How many items were sent.
    pub(crate) fn sent(&self) -> u64
        ensures { result ≡ self.now.sent }
    {
        self.sent
    }

    /// How many items were received, with those that are lent.
    pub(crate) fn received(&self) -> u64
        ensures { result ≡ self.now.received }
    {
        self.received
    }

    /// How many were sent, for an end that keeps it.
    pub(crate) fn tally_sent(&self) -> Tally<OfSent>
        ensures { result ≡ self.now.sent }
    {
        Tally::new(self.sent)
    }

    /// How many were received, for an end that keeps it.
    pub(crate) fn tally_received(&self) -> Tally<OfReceived>
        ensures { result ≡ self.now.received }
    {
        Tally::new(self.received)
    }

    /// That nothing comes any more, where that is so.
    pub(crate) fn ended(&self) -> Option<PipeEnd>
        ensures { IsSome result ↔ ((self.now.pipe.items ≡ []) × (self.now.pipe.is_job_open ≡ false)) }
    {
        self.pipe.ended()
    }

    /// How many more items the pipe holds.
    pub(crate) fn room(&self) -> usize
        ensures { result ≡ room self.now.pipe }
    {
        self.pipe.room()
    }

    /// The same, for an end that uses it up.
    pub(crate) fn space(&self) -> Space
        ensures { result ≡ room self.now.pipe }
    {
        self.pipe.space()
    }

    /// The job looks for room, and is seated where there is none.
    pub(crate) fn room_or_seat(&mut self, me: JobNo) -> Room
        ensures { FindsRoom self.old me result self.new }
    {
        self.pipe.room_or_seat(me)
    }

    /// The job sends an item, which holds at its place.
    pub(crate) fn send(&mut self, me: JobNo, item: X) -> Sending<X, OwnerWaker>
        requires { R.holds self.old.sent item }
        ensures { Sends self.old me item result self.new }
    {
        if !self.pipe.is_job_open() || self.sent == u64::MAX {
            return Sending::Shut(item);
        }
        match self.pipe.send(me, item) {
            Sending::Sent(waker) => {
                self.sent += 1;
                Sending::Sent(waker)
            }
            Sending::Parked(item) => Sending::Parked(item),
            Sending::Shut(item) => Sending::Shut(item),
        }
    }

    /// The job closes its end, where the items may end. From then on none is taken.
    pub(crate) fn close_job(&mut self) -> Option<OwnerWaker>
        requires { R.ended self.old.sent }
        ensures pipe { self.new.pipe ≡
            record self.old.pipe { is_job_open = false; owner_seat = None } }
        ensures counts { Counts self.old 0 0 self.new }
        ensures waker { result ≡ self.old.pipe.owner_seat }
    {
        self.pipe.close_job()
    }

    /// That the job's end is closed, where it is.
    pub(crate) fn closed(&self) -> Option<Closed>
        ensures { IsSome result ↔ (self.now.pipe.is_job_open ≡ false) }
    {
        if self.pipe.is_job_open() {
            None
        } else {
            Some(Closed::new())
        }
    }

    /// The owner takes the first item, which holds at its place, or finds the end, at which the items may end.
    pub(crate) fn receive_or_seat(&mut self, waker: OwnerWaker) -> Answered<Received<X>, OwnerWaker>
        ensures receives { Receives self.old waker result.answer result.spare self.new }
        ensures held { IfReceived result.answer (R.holds self.old.received) }
        ensures ended { OnEnd result.answer (R.ended self.old.received) }
    {
        let Answered { answer, spare } = self.pipe.receive_or_seat(waker);
        if let Received::Got(_, _) = &answer {
            self.received += 1;
        }
        Answered { answer, spare }
    }

    /// How many items are lent to the owner.
    pub(crate) fn lent(&self) -> usize
        ensures { result ≡ self.now.pipe.lent }
    {
        self.pipe.lent()
    }

    /// How many are lent, for an end that keeps it.
    pub(crate) fn loan(&self) -> Loan
        ensures { result ≡ self.now.pipe.lent }
    {
        self.pipe.loan()
    }

    /// The owner lets so many items go of those that it was lent.
    pub(crate) fn let_go_fetched(&mut self, count: usize) -> Option<WakeNote>
        requires { count ≤ self.old.pipe.lent }
        ensures pipe { self.new.pipe ≡ fetched_gone self.old.pipe count }
        ensures counts { Counts self.old 0 0 self.new }
        ensures note { result ≡ self.old.pipe.job_seat }
    {
        self.pipe.let_go_fetched(count)
    }

    /// The owner closes its end.
    pub(crate) fn close_owner(&mut self) -> Option<WakeNote>
        ensures pipe { self.new.pipe ≡
            record self.old.pipe { is_owner_open = false; job_seat = None } }
        ensures counts { Counts self.old 0 0 self.new }
        ensures note { result ≡ self.old.pipe.job_seat }
    {
        self.pipe.close_owner()
    }
}

impl<X: Copy, R: PlaceRule<X>, S: CopyStore<X>> JobToOwner<X, R, S> {
    ghost use Rattle.blocking_core.specs.Pipes.{room};
    ghost use Rattle.blocking_core.specs.PipeAnswers.{front_lent};
    ghost use Rattle.blocking_ends.specs.Answers.{OnDrainsEnd, OnFetched, OnFetchEnd, got_by_drain};
    ghost use Rattle.blocking_ends.specs.Rules.{HoldFrom};
    ghost use Rattle.blocking_ends.specs.Sections.{Counts, Puts, Drains, Fetches, IsAtEnd};

    // How many were sent where so many more are, if the job may still send and that can be counted.
    fn sent_with(&self, count: usize) -> Option<u64>
        ensures some { IfSome result (λ sent. (sent ≡ self.now.sent + count) × (self.now.pipe.is_job_open ≡ true)) }
        ensures none { IfNone result (IsAtEnd self.now.sent self.now.pipe.is_job_open count) }
    {
        if !self.pipe.is_job_open() {
            return None;
        }
        self.sent.checked_add(count as u64)
    }

    /// The job puts items, for all of which there is room, and which hold at their places.
    pub(crate) fn put(&mut self, items: &[X]) -> Put<OwnerWaker>
        requires fits { length items.now ≤ room self.old.pipe }
        requires held { HoldFrom R.holds self.old.sent items.now }
        ensures { Puts self.old items.now result self.new }
    {
        let Some(sent) = self.sent_with(items.len()) else {
            return Put::Lost;
        };
        match self.pipe.put(items) {
            Put::In(waker) => {
                self.sent = sent;
                Put::In(waker)
            }
            Put::Lost => Put::Lost,
        }
    }

    /// The job puts the first `count` items of a piece, for all of which there is room, and which hold at their places.
    pub(crate) fn put_piece(&mut self, piece: &mut Vec<X>, count: usize) -> Put<OwnerWaker>
        requires some { count ≤ length piece.old.items }
        requires fits { count ≤ room self.old.pipe }
        requires held { HoldFrom R.holds self.old.sent (take count piece.old.items) }
        ensures puts { Puts self.old (take count piece.old.items) result self.new }
        ensures fits { length piece.old.items ≤ vec_capacity piece.new }
    {
        let Some(sent) = self.sent_with(count) else {
            return Put::Lost;
        };
        match self.pipe.put_piece(piece, count) {
            Put::In(waker) => {
                self.sent = sent;
                Put::In(waker)
            }
            Put::Lost => Put::Lost,
        }
    }

    /// The owner moves the front of what is inside into `out`, each item of which holds at its place, or finds the end.
    pub(crate) fn drain_or_seat(
        &mut self,
        waker: OwnerWaker,
        out: &mut [X],
    ) -> Answered<Drained, OwnerWaker>
        requires { 0 < length out.old }
        ensures drains { Drains self.old waker out.old result.answer result.spare self.new out.new }
        ensures held { HoldFrom R.holds self.old.received
            (take (got_by_drain result.answer) out.new) }
        ensures ended { OnDrainsEnd result.answer (R.ended self.old.received) }
    {
        let Answered { answer, spare } = self.pipe.drain_or_seat(waker, out);
        if let Drained::Got(count, _) = &answer {
            self.received += *count as u64;
        }
        Answered { answer, spare }
    }

    /// The owner is lent the front of what is inside, so many items at most, each of which holds at its place.
    pub(crate) fn fetch(&mut self, most: usize, piece: &mut Vec<X>) -> Option<usize>
        requires some { 0 < most }
        requires fits { most ≤ vec_capacity piece.old }
        ensures some { IfSome result (λ n. (0 < n) × (n ≡ min most (length self.old.pipe.items)) × (piece.new.items ≡ take n self.old.pipe.items)) }
        ensures pipe { IfSome result (λ n. (self.new.pipe ≡ front_lent self.old.pipe n) × Counts self.old 0 n self.new) }
        ensures none { IfNone result ((self.old.pipe.items ≡ []) × (self.new ≡ self.old)) }
        ensures held { IfSome result (λ _. HoldFrom R.holds self.old.received piece.new.items) }
        ensures fits { most ≤ vec_capacity piece.new }
    {
        let count = self.pipe.fetch(most, piece)?;
        self.received += count as u64;
        Some(count)
    }

    /// As `fetch`, or the owner finds the end, or is seated.
    pub(crate) fn fetch_or_seat(
        &mut self,
        waker: OwnerWaker,
        most: usize,
        piece: &mut Vec<X>,
    ) -> Answered<Fetched, OwnerWaker>
        requires some { 0 < most }
        requires fits { most ≤ vec_capacity piece.old }
        ensures fetches { Fetches self.old waker most result.answer result.spare piece.new.items self.new }
        ensures held { OnFetched result.answer (HoldFrom R.holds self.old.received piece.new.items) }
        ensures ended { OnFetchEnd result.answer (R.ended self.old.received) }
        ensures fits { most ≤ vec_capacity piece.new }
    {
        let Answered { answer, spare } = self.pipe.fetch_or_seat(waker, most, piece);
        if let Fetched::Got(count) = &answer {
            self.received += *count as u64;
        }
        Answered { answer, spare }
    }
}

/// A pipe into which an owner sends and from which its job receives.
#[derive(Drop)]
pub(crate) struct OwnerToJob<X: Drop, R: PlaceRule<X>, S: Store<X>> {
    pipe: Pipe<X, OwnerWaker, S>,
    sent: u64,
    received: u64,
    rule: PhantomData<R>,
}

impl<X: Drop, R: PlaceRule<X>, S: Store<X>> Model for OwnerToJob<X, R, S> {
    ghost use Rattle.std.specs.Prelude.{◌+◌, Option};
    ghost use Rattle.blocking_core.specs.Pipes.{Pipe as Seen, pipe_code};
    ghost use Rattle.blocking_ends.specs.Counted.{Counted, IsKept, counted_code};
    ghost use Rattle.blocking_sync.specs.Slots.{waker_code};
    ghost use Rattle.futures.specs.declared.task.waker.Waker.{Waker};

    ghost Value = { Counted (Seen X (Option Waker)) };

    ghost coded = { counted_code (pipe_code X.code waker_code) };

    ghost view = { λ p. record { pipe = p.pipe; sent = p.sent; received = p.received } };

    ghost invariant = { λ p.
        IsKept R.holds R.ended p.pipe.items p.sent (p.received + p.pipe.lent) p.pipe.is_owner_open };
}

impl<X: Drop, R: PlaceRule<X>, S: Store<X>> OwnerToJob<X, R, S> {
    ghost use Rattle.blocking_core.specs.Pipes.{empty_pipe};
    ghost use Rattle.blocking_core.specs.PipeAnswers.{let_go};
    ghost use Rattle.blocking_ends.specs.Sections.{Counts};

    /// An empty pipe over the memory of a store in which nothing stands, and into which nothing was sent.
    pub(crate) fn over(memory: S::Memory) -> Self
        requires some { let stored = S.held memory in 0 < stored.capacity }
        requires empty { let stored = S.held memory in stored.items ≡ [] }
        ensures { let stored = S.held memory in
            result ≡ record { pipe = empty_pipe stored.capacity; sent = 0; received = 0 } }
    {
        OwnerToJob {
            pipe: Pipe::over(memory),
            sent: 0,
            received: 0,
            rule: PhantomData,
        }
    }

    /// The memory of its store, with what is inside.
    pub(crate) fn into_memory(self) -> S::Memory
        ensures { let stored = S.held result in 0 < stored.capacity }
    {
        let OwnerToJob {
            pipe,
            sent: _,
            received: _,
            rule: _,
        } = self;
        pipe.into_memory()
    }

    /// How many items were sent.
    pub(crate) fn sent(&self) -> u64
        ensures { result ≡ self.now.sent }
    {
        self.sent
    }

    /// How many items were received.
    pub(crate) fn received(&self) -> u64
        ensures { result ≡ self.now.received }
    {
        self.received
    }

    /// How many were sent, for an end that keeps it.
    pub(crate) fn tally_sent(&self) -> Tally<OfSent>
        ensures { result ≡ self.now.sent }
    {
        Tally::new(self.sent)
    }

    /// How many were received, for an end that keeps it.
    pub(crate) fn tally_received(&self) -> Tally<OfReceived>
        ensures { result ≡ self.now.received }
    {
        Tally::new(self.received)
    }

    /// How many items are lent.
    pub(crate) fn lent(&self) -> usize
        ensures { result ≡ self.now.pipe.lent }
    {
        self.pipe.lent()
    }

    /// How many are lent, for an end that keeps it.
    pub(crate) fn loan(&self) -> Loan
        ensures { result ≡ self.now.pipe.lent }
    {
        self.pipe.loan()
    }

    /// How many items are inside.
    pub(crate) fn len(&self) -> usize
        ensures { result ≡ length self.now.pipe.items }
    {
        self.pipe.len()
    }

    /// The owner closes its end, where the items may end. From then on none is taken.
    pub(crate) fn close_owner(&mut self) -> Option<WakeNote>
        requires { R.ended self.old.sent }
        ensures pipe { self.new.pipe ≡ record self.old.pipe { is_owner_open = false; job_seat = None } }
        ensures counts { Counts self.old 0 0 self.new }
        ensures note { result ≡ self.old.pipe.job_seat }
    {
        self.pipe.close_owner()
    }

    /// The job lets the first `count` items go, of those that it was lent and then of those inside.
    pub(crate) fn consume(&mut self, count: usize) -> Option<OwnerWaker>
        requires { count ≤ self.old.pipe.lent + length self.old.pipe.items }
        ensures pipe { self.new.pipe ≡ let_go self.old.pipe count }
        ensures counts { Counts self.old 0 count self.new }
        ensures waker { result ≡ self.old.pipe.owner_seat }
    {
        let waker = self.pipe.let_go(count);
        self.received += count as u64;
        waker
    }

    /// The job closes its end.
    pub(crate) fn close_job(&mut self) -> Option<OwnerWaker>
        ensures pipe { self.new.pipe ≡ record self.old.pipe { is_job_open = false; owner_seat = None } }
        ensures counts { Counts self.old 0 0 self.new }
        ensures waker { result ≡ self.old.pipe.owner_seat }
    {
        self.pipe.close_job()
    }

    /// That the job's end is closed, where it is.
    pub(crate) fn closed(&self) -> Option<Closed>
        ensures { IsSome result ↔ (self.now.pipe.is_job_open ≡ false) }
    {
        if self.pipe.is_job_open() {
            None
        } else {
            Some(Closed::new())
        }
    }
}

impl<X: Copy, R: PlaceRule<X>, S: CopyStore<X>> OwnerToJob<X, R, S> {
    ghost use Rattle.blocking_core.specs.Stores.{IsReady};
    ghost use Rattle.blocking_ends.specs.Answers.{IfShown, IfTook, OnDrained, shown_by};
    ghost use Rattle.blocking_ends.specs.Rules.{HoldFrom};
    ghost use Rattle.blocking_ends.specs.Sections.{Fills, Peeks, Lends};

    /// The owner fills in the first of the items, which hold at their places, as many as there is room for. What stands ready is a
    /// copy of them, or nothing.
    #[tactic(auto, using(crate::proofs::Kept::filled_some))]
    pub(crate) fn fill_or_seat(
        &mut self,
        waker: OwnerWaker,
        items: &[X],
        ready: &mut Vec<X>,
    ) -> Answered<Filled, OwnerWaker>
        requires some { 0 < length items.now }
        requires held { HoldFrom R.holds self.old.sent items.now }
        requires ready { IsReady ready.old.items items.now }
        ensures fills { Fills self.old waker items.now result.answer result.spare self.new }
        ensures took { IfTook result.answer (λ n. (0 < n) × (n ≤ length items.now)) }
        ensures ready { IsReady ready.new.items items.now }
    {
        let most = items.len().min(self.pipe.room());
        if !self.pipe.is_owner_open() || u64::MAX - self.sent < most as u64 {
            return Answered {
                answer: Filled::Shut,
                spare: Some(waker),
            };
        }
        let Answered { answer, spare } = self.pipe.fill_ready_or_seat(waker, items, ready);
        if let Filled::Took(count, _) = &answer {
            self.sent += *count as u64;
        }
        Answered { answer, spare }
    }

    /// The job copies the front of what is inside, each item of which holds at its place behind what is lent, and nobody is seated.
    pub(crate) fn peek(&self, out: &mut [X]) -> usize
        ensures count { result ≡ min (length out.old) (length self.now.pipe.items) }
        ensures held { HoldFrom R.holds (self.now.received + self.now.pipe.lent) (take result out.new) }
        ensures rest { drop result out.new ≡ drop result out.old }
    {
        self.pipe.peek(out)
    }

    /// The job, which has nothing in its hand, copies the front of what is inside, each item of which holds at its place, or finds the end.
    pub(crate) fn peek_or_seat(&mut self, me: JobNo, out: &mut [X]) -> Peeked
        requires none { self.old.pipe.lent ≡ 0 }
        requires some { 0 < length out.old }
        ensures peeks { Peeks self.old me out.old result self.new out.new }
        ensures held { HoldFrom R.holds self.old.received (take (shown_by result) out.new) }
        ensures ended { OnDrained result (R.ended self.old.received) }
    {
        self.pipe.peek_or_seat(me, out)
    }

    /// The job, which has nothing in its hand, is lent the front of what is inside, or finds the end. It gets so many items at most, and
    /// each holds at its place.
    pub(crate) fn lend_or_seat(&mut self, me: JobNo, most: usize, piece: &mut Vec<X>) -> Peeked
        requires none { self.old.pipe.lent ≡ 0 }
        requires some { 0 < most }
        requires room { most ≤ vec_capacity piece.old }
        ensures lends { Lends self.old me most result piece.new.items self.new }
        ensures room { most ≤ vec_capacity piece.new }
        ensures held { IfShown result (λ _. HoldFrom R.holds self.old.received piece.new.items) }
        ensures ended { OnDrained result (R.ended self.old.received) }
    {
        self.pipe.lend_or_seat(me, most, piece)
    }
}
