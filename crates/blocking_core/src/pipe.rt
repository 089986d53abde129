//! The bounded pipe through which bytes or items cross between a job and its owner.
ghost use Rattle.std.specs.Prelude.{◌≡◌, ◌<◌, ◌≤◌, ◌+◌, false, length, min, drop, take, ◌++◌, vec_capacity, IfOk, Some, None};
ghost use Rattle.blocking_core.specs.declared.pipe.Filled.TheVariants.{Shut};

use crate::task::Seat;
use blocking_pool::pool::{JobNo, WakeNote};
use std::alloc::{AllocError, Global};
use std::marker::Model;

mod flat;
mod lending;
mod ring;
mod seats;
mod store;

pub use flat::{FlatMemory, FlatStore};
pub use lending::{LendingMemory, LendingStore};
pub use ring::{RingMemory, RingStore};
pub use seats::{OfItemRing, Seats};
pub use store::{CopyStore, Store};

/// How many bytes a pipe holds where nobody says otherwise.
pub const DEFAULT_BYTES: usize = 8_388_608;

/// How many items a pipe holds where nobody says otherwise.
pub const DEFAULT_ITEMS: usize = 8192;

/// A pipe of bytes.
pub type BytePipe<W> = Pipe<u8, W, FlatStore>;

/// A pipe of items.
pub type ItemPipe<X, W> = Pipe<X, W, RingStore>;

/// A list of at most so many items between a job and its owner, with an end for each and a seat at each end.
///
/// Either side takes or gives what it can, and is seated where it can't: the owner by its waker, the job by its number. What
/// the other side then does takes it out of its seat, to be woken. Either end may be closed, and stays so. Its store `S` holds the items, and
/// every call answers the same over any store.
///
/// Whoever receives, job or owner, may be lent what stands at the front, to use it under no lock. Until it lets go of that, it takes room as if it
/// were inside.
#[derive(Drop)]
pub struct Pipe<X: Drop, W: Drop, S: Store<X>> {
    // What the store keeps.
    memory: S::Memory,
    // How many items are lent.
    lent: usize,
    is_owner_open: bool,
    is_job_open: bool,
    owner_seat: Option<W>,
    job_seat: Option<JobNo>,
}

impl<X: Drop, W: Drop, S: Store<X>> Model for Pipe<X, W, S> {
    ghost use Rattle.std.specs.Prelude.{◌-◌};
    ghost use Rattle.blocking_core.specs.Pipes.{Pipe as Seen, pipe_code, IsBounded};

    ghost Value = { Seen X W };

    ghost coded = { pipe_code X.code W.code };

    ghost view = { λ p. record {
      items = (S.held p.memory).items;
      capacity = (S.held p.memory).capacity - p.lent;
      lent = p.lent;
      is_owner_open = p.is_owner_open;
      is_job_open = p.is_job_open;
      owner_seat = p.owner_seat;
      job_seat = p.job_seat;
    } };

    ghost invariant = { λ p. IsBounded (S.held p.memory) p.lent };
}

/// What a job finds that looks for room.
#[derive(Clone, Copy, Debug, PartialEq, Eq)]
pub enum Room {
    /// So many items fit, one at least.
    Free(usize),
    /// The pipe is full: the job is seated.
    Parked,
    /// The owner's end is closed.
    Shut,
}

/// How a put ends.
#[derive(Drop, Debug, PartialEq, Eq)]
pub enum Put<W: Drop> {
    /// All of it is inside. The waker of an owner who waited has to be called.
    In(Option<W>),
    /// The owner's end is closed, and nothing was taken.
    Lost,
}

/// How a send ends.
#[derive(Drop, Debug, PartialEq, Eq)]
pub enum Sending<X: Drop, W: Drop> {
    /// The item is inside. The waker of an owner who waited has to be called.
    Sent(Option<W>),
    /// The pipe is full: the job is seated, and the item comes back.
    Parked(X),
    /// The owner's end is closed, and the item comes back.
    Shut(X),
}

/// What a job finds that looks at the front.
#[derive(Clone, Copy, Debug, PartialEq, Eq)]
pub enum Peeked {
    /// So many items are shown or lent, one at least. They take room until the job lets them go.
    Some(usize),
    /// The pipe is empty: the job is seated.
    Parked,
    /// The pipe is empty, and the owner's end is closed.
    Drained,
}

/// A seat of a pipe's owner. Pipes alone make it.
#[derive(Drop)]
pub struct OfPipe(());

/// The proof that a pipe was empty and its job's end closed, so that nothing comes any more. Pipes alone make it.
#[derive(Drop)]
pub struct PipeEnd(());

/// How many items a pipe has lent. A pipe alone makes one, so whoever has it asked the pipe.
#[derive(Drop, Debug)]
pub struct Loan {
    count: usize,
}

impl Model for Loan {
    ghost use Rattle.std.specs.Prelude.{ℕ};

    ghost Value = { ℕ };

    ghost view = { λ loan. loan.count };
}

impl Loan {
    /// So many items.
    pub fn count(&self) -> usize
        ensures { result ≡ self.now }
    {
        self.count
    }
}

/// How many items a pipe had room for when it was asked, less what was used of that since. A pipe alone makes one that isn't 0.
#[derive(Drop, Debug)]
pub struct Space {
    count: usize,
}

impl Model for Space {
    ghost use Rattle.std.specs.Prelude.{ℕ};

    ghost Value = { ℕ };

    ghost view = { λ space. space.count };
}

impl Space {
    ghost use Rattle.std.specs.Prelude.{◌≡◌, ◌-◌};

    /// Room for nothing.
    pub fn none() -> Space
        ensures { result ≡ 0 }
    {
        Space { count: 0 }
    }

    /// Room for so many items.
    pub fn count(&self) -> usize
        ensures { result ≡ self.now }
    {
        self.count
    }

    /// So many items went in, or all that there is room for, where that is less.
    pub fn pass(&mut self, count: usize)
        ensures { self.new ≡ self.old - count }
    {
        self.count = self.count.saturating_sub(count);
    }
}

/// What an owner finds that drains.
pub enum Drained {
    /// So many items were moved out, one at least. The note of a job that waited has to be spent.
    Got(usize, Option<WakeNote>),
    /// The pipe is empty, and the job's end is closed.
    Ended,
    /// The pipe is empty: the waker is seated.
    Waits(Seat<OfPipe>),
}

/// What an owner finds that fetches.
pub enum Fetched {
    /// So many items are lent, one at least. They take room until the owner lets them go.
    Got(usize),
    /// The pipe is empty, and the job's end is closed.
    Ended,
    /// The pipe is empty: the waker is seated.
    Waits(Seat<OfPipe>),
}

/// What an owner finds that receives.
pub enum Received<X> {
    /// The first item. The note of a job that waited has to be spent.
    Got(X, Option<WakeNote>),
    /// The pipe is empty, and the job's end is closed.
    Ended,
    /// The pipe is empty: the waker is seated.
    Waits(Seat<OfPipe>),
}

/// What an owner finds that fills.
pub enum Filled {
    /// So many of the items are inside, one at least. The note of a job that waited has to be spent.
    Took(usize, Option<WakeNote>),
    /// The job's end is closed, and nothing was taken.
    Shut,
    /// The pipe is full: the waker is seated.
    Waits(Seat<OfPipe>),
}

/// The answer to an owner, and the waker that it leaves over. That is the one that was handed in, where the owner needn't
/// wait, or the one that it replaced in the seat. It is handed back so that no lock is held while it is dropped.
pub struct Answered<A, W> {
    /// What is answered.
    pub answer: A,
    /// The waker that has no seat.
    pub spare: Option<W>,
}

impl<X: Drop, W: Drop, S: Store<X>> Pipe<X, W, S> {
    ghost use Rattle.std.specs.Prelude.{◌↔◌, [], IsSome};
    ghost use Rattle.blocking_core.specs.Pipes.{empty_pipe, room};
    ghost use Rattle.blocking_core.specs.PipeAnswers.{FindsRoom, Sends, Receives, let_go, fetched_gone};

    /// An empty pipe for at most `capacity` items, both of whose ends are open. All its memory is taken here, and where there
    /// isn't so much the answer is an [`AllocError`].
    pub fn new(alloc: Global, capacity: usize) -> Result<Self, AllocError>
        requires { 0 < capacity }
        ensures { IfOk result (λ pipe. pipe ≡ empty_pipe capacity) }
    {
        Ok(Pipe::over(S::new(alloc, capacity)?))
    }

    /// An empty pipe over the memory of a store in which nothing stands, for as many items as that holds. Both ends are open.
    pub fn over(memory: S::Memory) -> Self
        requires some { let stored = S.held memory in 0 < stored.capacity }
        requires empty { let stored = S.held memory in stored.items ≡ [] }
        ensures { let stored = S.held memory in result ≡ empty_pipe stored.capacity }
    {
        Pipe {
            memory,
            lent: 0,
            is_owner_open: true,
            is_job_open: true,
            owner_seat: None,
            job_seat: None,
        }
    }

    /// What its store keeps.
    pub fn memory(&self) -> &S::Memory
        ensures items { let stored = S.held result.now in stored.items ≡ self.now.items }
        ensures capacity { let stored = S.held result.now in stored.capacity ≡ self.now.capacity + self.now.lent }
    {
        &self.memory
    }

    /// The memory of its store, with what is inside.
    pub fn into_memory(self) -> S::Memory
        ensures items { let stored = S.held result in stored.items ≡ self.items }
        ensures capacity { let stored = S.held result in stored.capacity ≡ self.capacity + self.lent }
        ensures some { let stored = S.held result in 0 < stored.capacity }
    {
        let Pipe {
            memory,
            lent: _,
            is_owner_open: _,
            is_job_open: _,
            owner_seat: _,
            job_seat: _,
        } = self;
        memory
    }

    /// How many items are inside: with those that are lent, the capacity at most.
    pub fn len(&self) -> usize
        ensures len { result ≡ length self.now.items }
        ensures within { length self.now.items ≤ self.now.capacity }
        ensures some { 0 < self.now.capacity + self.now.lent }
    {
        S::len(&self.memory)
    }

    /// How many items are lent.
    pub fn lent(&self) -> usize
        ensures { result ≡ self.now.lent }
    {
        self.lent
    }

    /// That nothing comes any more, where that is so.
    pub fn ended(&self) -> Option<PipeEnd>
        ensures { IsSome result ↔ ((self.now.items ≡ []) × (self.now.is_job_open ≡ false)) }
    {
        if self.len() == 0 && !self.is_job_open {
            Some(PipeEnd(()))
        } else {
            None
        }
    }

    /// How many items are lent, for an end that keeps it.
    pub fn loan(&self) -> Loan
        ensures { result ≡ self.now.lent }
    {
        Loan { count: self.lent }
    }

    /// How many more items the pipe holds, for an end that uses it up.
    pub fn space(&self) -> Space
        ensures { result ≡ room self.now }
    {
        Space { count: self.room() }
    }

    /// How many more items the pipe holds: the capacity at most.
    pub fn room(&self) -> usize
        ensures { result ≡ room self.now }
    {
        S::room(&self.memory) - self.lent
    }

    /// Whether the owner's end is open.
    pub fn is_owner_open(&self) -> bool
        ensures { result ≡ self.now.is_owner_open }
    {
        self.is_owner_open
    }

    /// Whether the job's end is open.
    pub fn is_job_open(&self) -> bool
        ensures { result ≡ self.now.is_job_open }
    {
        self.is_job_open
    }

    /// The job looks for room, and is seated where there is none.
    pub fn room_or_seat(&mut self, me: JobNo) -> Room
        ensures { FindsRoom self.old me result self.new }
    {
        if !self.is_owner_open {
            return Room::Shut;
        }
        let free = self.room();
        if free == 0 {
            self.job_seat = Some(me);
            return Room::Parked;
        }
        Room::Free(free)
    }

    /// The job sends an item. Where the pipe is full the job is seated.
    pub fn send(&mut self, me: JobNo, item: X) -> Sending<X, W>
        ensures { Sends self.old me item result self.new }
    {
        if !self.is_owner_open {
            return Sending::Shut(item);
        }
        if self.room() == 0 {
            self.job_seat = Some(me);
            return Sending::Parked(item);
        }
        S::push(&mut self.memory, item);
        Sending::Sent(self.unseat_owner())
    }

    /// The job lets the first `count` items go, which are inside. What it was lent stays so. Answers the waker of an owner who waited.
    pub fn consume(&mut self, count: usize) -> Option<W>
        requires { count ≤ length self.old.items }
        ensures pipe { self.new ≡
            record self.old { items = drop count self.old.items; owner_seat = None } }
        ensures waker { result ≡ self.old.owner_seat }
    {
        S::drop_front(&mut self.memory, count);
        self.unseat_owner()
    }

    /// The job lets the first `count` items go, of those that it was lent and then of those inside. Answers the waker of an owner who waited.
    pub fn let_go(&mut self, count: usize) -> Option<W>
        requires { count ≤ self.old.lent + length self.old.items }
        ensures pipe { self.new ≡ let_go self.old count }
        ensures waker { result ≡ self.old.owner_seat }
    {
        let of_lent = count.min(self.lent);
        self.lent -= of_lent;
        S::drop_front(&mut self.memory, count - of_lent);
        self.unseat_owner()
    }

    /// The owner lets so many items go of those that it fetched. Answers the note of a job that waited.
    pub fn let_go_fetched(&mut self, count: usize) -> Option<WakeNote>
        requires { count ≤ self.old.lent }
        ensures pipe { self.new ≡ fetched_gone self.old count }
        ensures note { result ≡ self.old.job_seat }
    {
        self.lent -= count;
        self.unseat_job()
    }

    /// The job closes its end. Answers the waker of an owner who waited. What is inside stays.
    pub fn close_job(&mut self) -> Option<W>
        ensures pipe { self.new ≡ record self.old { is_job_open = false; owner_seat = None } }
        ensures waker { result ≡ self.old.owner_seat }
    {
        self.is_job_open = false;
        self.unseat_owner()
    }

    /// The owner takes the first item. Where the pipe is empty and the job's end is open the owner is seated.
    pub fn receive_or_seat(&mut self, waker: W) -> Answered<Received<X>, W>
        ensures { Receives self.old waker result.answer result.spare self.new }
    {
        match S::pop(&mut self.memory) {
            Some(item) => Answered {
                answer: Received::Got(item, self.unseat_job()),
                spare: Some(waker),
            },
            None if self.is_job_open => Answered {
                answer: Received::Waits(Seat(OfPipe(()))),
                spare: self.owner_seat.replace(waker),
            },
            None => Answered {
                answer: Received::Ended,
                spare: Some(waker),
            },
        }
    }

    /// The owner closes its end. Answers the note of a job that waited. What is inside stays.
    pub fn close_owner(&mut self) -> Option<WakeNote>
        ensures pipe { self.new ≡ record self.old { is_owner_open = false; job_seat = None } }
        ensures note { result ≡ self.old.job_seat }
    {
        self.is_owner_open = false;
        self.unseat_job()
    }

    /// The owner leaves its seat. Answers the waker that stood there, so that a poll can hand its own earlier waker to the
    /// context again before it waits anew.
    pub fn unseat_owner(&mut self) -> Option<W>
        ensures pipe { self.new ≡ record self.old { owner_seat = None } }
        ensures waker { result ≡ self.old.owner_seat }
    {
        self.owner_seat.take()
    }

    // The job leaves its seat, and is to be woken.
    fn unseat_job(&mut self) -> Option<WakeNote>
        ensures pipe { self.new ≡ record self.old { job_seat = None } }
        ensures note { result ≡ self.old.job_seat }
    {
        match self.job_seat.take() {
            Some(no) => Some(WakeNote::new(no)),
            None => None,
        }
    }
}

impl<X: Copy, W: Drop, S: CopyStore<X>> Pipe<X, W, S> {
    ghost use Rattle.blocking_core.specs.Pipes.{room};
    ghost use Rattle.std.specs.Prelude.{[], IfSome, IfNone};
    ghost use Rattle.blocking_core.specs.PipeAnswers.{Puts, Peeks, Lends, Drains, Fetches, Fills, TellsOfFill, front_lent};
    ghost use Rattle.blocking_core.specs.Stores.{IsReady};

    /// The job puts items, for all of which there is room.
    pub fn put(&mut self, items: &[X]) -> Put<W>
        requires { length items.now ≤ room self.old }
        ensures { Puts self.old items.now result self.new }
    {
        if !self.is_owner_open {
            return Put::Lost;
        }
        S::put_all(&mut self.memory, items);
        Put::In(self.unseat_owner())
    }

    /// The job puts the first `count` items of a piece, for all of which there is room. A store of pieces may take it as it is, and gives one
    /// with memory for as much for it. What stands in the piece afterwards, and how much, is not to be relied on.
    pub fn put_piece(&mut self, piece: &mut Vec<X>, count: usize) -> Put<W>
        requires some { count ≤ length piece.old.items }
        requires room { count ≤ room self.old }
        ensures puts { Puts self.old (take count piece.old.items) result self.new }
        ensures fits { length piece.old.items ≤ vec_capacity piece.new }
    {
        if !self.is_owner_open {
            return Put::Lost;
        }
        S::take_piece(&mut self.memory, piece, count);
        Put::In(self.unseat_owner())
    }

    /// Copies the front of what is inside, as many items as `out` holds, and tells how many they were. Nobody is seated.
    pub fn peek(&self, out: &mut [X]) -> usize
        ensures count { result ≡ min (length out.old) (length self.now.items) }
        ensures front { out.new ≡ take result self.now.items ++ drop result out.old }
    {
        S::copy_front(&self.memory, out)
    }

    /// The job copies the front of what is inside, as many items as `out` holds. Where the pipe is empty and the owner's end
    /// is open the job is seated.
    pub fn peek_or_seat(&mut self, me: JobNo, out: &mut [X]) -> Peeked
        requires { 0 < length out.old }
        ensures { Peeks self.old me out.old result self.new out.new }
    {
        if S::len(&self.memory) > 0 {
            return Peeked::Some(S::copy_front(&self.memory, out));
        }
        if !self.is_owner_open {
            return Peeked::Drained;
        }
        self.job_seat = Some(me);
        Peeked::Parked
    }

    /// The job is lent the front of what is inside, `most` items at most, in a piece. It is that which it hands in, whose items are gone
    /// then, or one of the store's own for it. Where the pipe is empty and the owner's end is open the job is seated.
    pub fn lend_or_seat(&mut self, me: JobNo, most: usize, piece: &mut Vec<X>) -> Peeked
        requires some { 0 < most }
        requires fits { most ≤ vec_capacity piece.old }
        ensures lends { Lends self.old me most result piece.new.items self.new }
        ensures fits { most ≤ vec_capacity piece.new }
    {
        if let Some(count) = self.fetch(most, piece) {
            return Peeked::Some(count);
        }
        if !self.is_owner_open {
            return Peeked::Drained;
        }
        self.job_seat = Some(me);
        Peeked::Parked
    }

    /// The owner moves the front of what is inside into `out`, as many items as it holds. Where the pipe is empty and the job's
    /// end is open the owner is seated.
    pub fn drain_or_seat(&mut self, waker: W, out: &mut [X]) -> Answered<Drained, W>
        requires { 0 < length out.old }
        ensures { Drains self.old waker out.old result.answer result.spare self.new out.new }
    {
        if S::len(&self.memory) > 0 {
            let count = S::read_front(&mut self.memory, out);
            return Answered {
                answer: Drained::Got(count, self.unseat_job()),
                spare: Some(waker),
            };
        }
        if !self.is_job_open {
            return Answered {
                answer: Drained::Ended,
                spare: Some(waker),
            };
        }
        Answered {
            answer: Drained::Waits(Seat(OfPipe(()))),
            spare: self.owner_seat.replace(waker),
        }
    }

    /// Lends the front of what is inside, `most` items at most, in a piece. It is that which is handed in, whose items are gone then, or
    /// one of the store's own for it. `None` where the pipe is empty. Nobody is seated.
    pub fn fetch(&mut self, most: usize, piece: &mut Vec<X>) -> Option<usize>
        requires some { 0 < most }
        requires fits { most ≤ vec_capacity piece.old }
        ensures some { IfSome result (λ n. (0 < n) × (n ≡ min most (length self.old.items))
            × (piece.new.items ≡ take n self.old.items) × (self.new ≡ front_lent self.old n)) }
        ensures none { IfNone result ((self.old.items ≡ []) × (self.new ≡ self.old)) }
        ensures fits { most ≤ vec_capacity piece.new }
    {
        if S::len(&self.memory) == 0 {
            return None;
        }
        let count = S::give_piece(&mut self.memory, most, piece);
        self.lent += count;
        Some(count)
    }

    /// The owner is lent the front, as by [`Pipe::fetch`]. Where the pipe is empty and the job's end is open the owner is seated.
    pub fn fetch_or_seat(
        &mut self,
        waker: W,
        most: usize,
        piece: &mut Vec<X>,
    ) -> Answered<Fetched, W>
        requires some { 0 < most }
        requires fits { most ≤ vec_capacity piece.old }
        ensures fetches { Fetches self.old waker most result.answer result.spare piece.new.items self.new }
        ensures fits { most ≤ vec_capacity piece.new }
    {
        if let Some(count) = self.fetch(most, piece) {
            return Answered {
                answer: Fetched::Got(count),
                spare: Some(waker),
            };
        }
        if !self.is_job_open {
            return Answered {
                answer: Fetched::Ended,
                spare: Some(waker),
            };
        }
        Answered {
            answer: Fetched::Waits(Seat(OfPipe(()))),
            spare: self.owner_seat.replace(waker),
        }
    }

    // Takes the first of the items, as many as there is room for, and wakes nobody. All of them may be taken as they stand ready.
    fn take_in(&mut self, items: &[X], ready: &mut Vec<X>) -> usize
        requires ready { IsReady ready.old.items items.now }
        ensures count { result ≡ min (length items.now) (room self.old) }
        ensures pipe { self.new ≡ record self.old { items = self.old.items ++ take result items.now } }
        ensures ready { IsReady ready.new.items items.now }
    {
        let count = items.len().min(self.room());
        let is_ready = ready.len() > 0 && count == items.len();
        if !is_ready || !S::take_ready(&mut self.memory, ready) {
            S::put_all(&mut self.memory, &items[..count]);
        }
        count
    }

    // What an owner is told of whom so many items went in. Where none did it is seated.
    fn answer_fill(&mut self, waker: W, count: usize) -> Answered<Filled, W>
        ensures { TellsOfFill self.old waker count result.answer result.spare self.new }
    {
        if count == 0 {
            return Answered {
                answer: Filled::Waits(Seat(OfPipe(()))),
                spare: self.owner_seat.replace(waker),
            };
        }
        Answered {
            answer: Filled::Took(count, self.unseat_job()),
            spare: Some(waker),
        }
    }

    /// The owner fills in the first of the items, as many as there is room for. Where the pipe is full and the job's end is open
    /// the owner is seated.
    pub fn fill_or_seat(&mut self, waker: W, items: &[X]) -> Answered<Filled, W>
        requires { 0 < length items.now }
        ensures { Fills self.old waker items.now result.answer result.spare self.new }
    {
        if !self.is_job_open {
            return shut(waker);
        }
        let count = items.len().min(self.room());
        S::put_all(&mut self.memory, &items[..count]);
        self.answer_fill(waker, count)
    }

    /// As [`Pipe::fill_or_seat`]. What stands ready is a copy of the items, or nothing: a store that lends whole pieces may take it as it is,
    /// and gives memory for the next.
    pub fn fill_ready_or_seat(
        &mut self,
        waker: W,
        items: &[X],
        ready: &mut Vec<X>,
    ) -> Answered<Filled, W>
        requires some { 0 < length items.now }
        requires ready { IsReady ready.old.items items.now }
        ensures fills { Fills self.old waker items.now result.answer result.spare self.new }
        ensures ready { IsReady ready.new.items items.now }
    {
        if !self.is_job_open {
            return shut(waker);
        }
        let count = self.take_in(items, ready);
        self.answer_fill(waker, count)
    }
}

// The job's end is closed.
fn shut<W: Drop>(waker: W) -> Answered<Filled, W>
    ensures answer { result.answer ≡ Shut }
    ensures spare { result.spare ≡ Some waker }
{
    Answered {
        answer: Filled::Shut,
        spare: Some(waker),
    }
}
