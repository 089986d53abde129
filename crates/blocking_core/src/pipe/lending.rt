//! A store of whole pieces, which it takes and gives as they are, so that what they hold is not copied.
ghost use Rattle.std.specs.Prelude.{◌≡◌, ◌≤◌, ◌<◌, ◌+◌, ◌-◌, ◌*◌, ◌%◌, length, min, take, drop, slice_get, flat_map, vec_items, vec_len, vec_capacity, Some, IfOk, All};
ghost use Rattle.std.specs.Bool.{OnTrue};
ghost use Rattle.blocking_core.specs.Lending.{IsRow, IsCount, IsMemory, IsLast};

use crate::job::PIECE;
use crate::pipe::store::{CopyStore, Store};
use circular_buffer::HeapCircularBuffer;
use std::alloc::{AllocError, Global};
use std::mem;

/// A store of pieces, so many items each. A whole piece comes in as it is where those inside are whole too, and memory for the next is given for
/// it. The first piece goes out as it is where nothing of it is gone and a whole one is asked for. That which is handed in for it is kept
/// as memory. All else is copied. Where a part of the first piece is gone and the last is full, there may be no memory for a next item. Then what
/// is inside moves to the front first, which takes longer the more there is.
pub struct LendingStore;

/// The memory of such a store: pieces, those inside and those that are spent.
#[derive(Drop)]
pub struct LendingMemory<X: Drop> {
    // What is inside, in pieces: all but the last are full.
    pieces: HeapCircularBuffer<Vec<X>>,
    // Memory for pieces.
    spent: Vec<Vec<X>>,
    // How many items a piece has.
    piece: usize,
    // How many items of the first piece are gone, how many items are inside, and how many fit.
    gone: usize,
    len: usize,
    capacity: usize,
    ghost row: { IsRow vec_items pieces.items piece (gone + len) },
    ghost count: { IsCount gone len piece capacity },
    ghost memory: { IsMemory vec_capacity pieces.items spent.items 0 piece pieces.capacity (vec_capacity spent) },
    ghost enough: { capacity ≤ (length pieces.items + length spent.items) * piece },
}

// Memory for so many pieces, of so many items each.
fn spent_pieces<X: Drop>(
    alloc: Global,
    count: usize,
    piece: usize,
) -> Result<Vec<Vec<X>>, AllocError>
    ensures count { IfOk result (λ pieces. length pieces.items ≡ count) }
    ensures places { IfOk result (λ pieces. count ≤ vec_capacity pieces) }
    ensures room { IfOk result (λ pieces. All (λ v. piece ≤ vec_capacity v) pieces.items) }
{
    let mut pieces = Vec::with_capacity(alloc, count)?;
    for _ in 0..count {
        pieces.push_reserved(Vec::with_capacity(alloc, piece)?);
    }
    Ok(pieces)
}

// Takes out the last piece of a row of so many items, where it isn't full, or else an empty one.
fn take_last<X: Drop>(
    pieces: &mut HeapCircularBuffer<Vec<X>>,
    spent: &mut Vec<Vec<X>>,
    piece: usize,
    total: usize,
) -> Vec<X>
    requires row { IsRow vec_items pieces.old.items piece total }
    requires memory { IsMemory vec_capacity pieces.old.items spent.old.items 0 piece pieces.old.capacity (vec_capacity spent.old) }
    requires spare { total % piece ≡ 0 → 0 < length spent.old.items }
    ensures last { IsLast vec_items pieces.old.items pieces.new.items result piece total }
    ensures memory { IsMemory vec_capacity pieces.new.items spent.new.items 1 piece pieces.new.capacity (vec_capacity spent.new) }
    ensures room { piece ≤ vec_capacity result }
    ensures count { length pieces.new.items + length spent.new.items + 1 ≡ length pieces.old.items + length spent.old.items }
{
    if total % piece > 0 {
        let Some(last) = pieces.pop_back() else {
            unreachable!()
        };
        return last;
    }
    let Some(mut last) = spent.pop() else {
        unreachable!()
    };
    last.clear();
    last
}

// Drops the first items of a piece.
fn drop_first<X: Copy>(piece: &mut Vec<X>, count: usize)
    requires { count ≤ vec_len piece.old }
    ensures items { piece.new.items ≡ drop count piece.old.items }
    ensures room { vec_capacity piece.new ≡ vec_capacity piece.old }
{
    let left = piece.len() - count;
    piece.copy_within(count.., 0);
    piece.truncate(left);
}

// Moves the items of whole pieces towards the front, where so many of the first piece are gone. Then none are, and the last piece has room for as
// many.
fn close_up<X: Copy>(pieces: &mut HeapCircularBuffer<Vec<X>>, gone: usize, piece: usize)
    requires some { 0 < length pieces.old.items }
    requires whole { All (λ v. length (vec_items v) ≡ piece) pieces.old.items }
    requires before { gone < piece }
    requires room { All (λ v. piece ≤ vec_capacity v) pieces.old.items }
    requires fit { length pieces.old.items ≤ pieces.old.capacity }
    ensures items { flat_map vec_items pieces.new.items ≡ drop gone (flat_map vec_items pieces.old.items) }
    ensures row { IsRow vec_items pieces.new.items piece (length pieces.old.items * piece - gone) }
    ensures count { length pieces.new.items ≡ length pieces.old.items }
    ensures capacity { pieces.new.capacity ≡ pieces.old.capacity }
    ensures room { All (λ v. piece ≤ vec_capacity v) pieces.new.items }
{
    let Some(mut hand) = pieces.pop_front() else {
        unreachable!()
    };
    drop_first(&mut hand, gone);
    for _ in 0..pieces.len() {
        let Some(mut next) = pieces.pop_front() else {
            unreachable!()
        };
        let Ok(()) = hand.extend_from_slice(&next[..gone]) else {
            unreachable!()
        };
        drop_first(&mut next, gone);
        let Ok(()) = pieces.try_push_back(mem::replace(&mut hand, next)) else {
            unreachable!()
        };
    }
    let Ok(()) = pieces.try_push_back(hand) else {
        unreachable!()
    };
}

impl<X: Copy> LendingMemory<X> {
    ghost use Rattle.blocking_core.specs.Stores.{empty_store, free, with_more, without_first};

    /// A store of nothing, for at most `capacity` items, whose pieces have `piece` items each. All its memory is taken here, for as many pieces
    /// as the capacity needs, and where there isn't so much the answer is an [`AllocError`].
    pub fn with_piece(alloc: Global, capacity: usize, piece: usize) -> Result<Self, AllocError>
        requires some { 0 < capacity }
        requires piece { 0 < piece }
        ensures { IfOk result (λ memory. ⟦<LendingStore as Store<X>>⟧.held memory ≡ empty_store capacity) }
    {
        // (places are counted from the front of the first piece, and more than can be counted is more than there is)
        if capacity.checked_add(piece).is_none() {
            return Err(AllocError);
        }
        let count = capacity.div_ceil(piece);
        let pieces = HeapCircularBuffer::with_capacity(alloc, count)?;
        Ok(LendingMemory {
            pieces,
            spent: spent_pieces(alloc, count, piece)?,
            piece,
            gone: 0,
            len: 0,
            capacity,
        })
    }

    // The item at a place.
    fn at(&self, place: usize) -> X
        requires { let stored = ⟦<LendingStore as Store<X>>⟧.held self.now in place < length stored.items }
        ensures { let stored = ⟦<LendingStore as Store<X>>⟧.held self.now in slice_get stored.items place ≡ Some result }
    {
        let at = self.gone + place;
        let Some(piece) = self.pieces.get(at / self.piece) else {
            unreachable!()
        };
        piece[at % self.piece]
    }

    // Makes a place behind the last item, where one fits: then the last piece has room or a piece is spent. Neither is so only where a part of the
    // first piece is gone, and all others are full. Items move then, which takes longer the more there are.
    fn make_place(&mut self)
        requires { 0 < free (⟦<LendingStore as Store<X>>⟧.held self.old) }
        ensures items { ⟦<LendingStore as Store<X>>⟧.held self.new ≡ ⟦<LendingStore as Store<X>>⟧.held self.old }
        ensures place { (self.new.gone + self.new.len) % self.new.piece ≡ 0 → 0 < length self.new.spent.items }
    {
        if !self.spent.is_empty() || (self.gone + self.len) % self.piece > 0 {
            return;
        }
        close_up(&mut self.pieces, self.gone, self.piece);
        self.gone = 0;
    }

    // Copies the first of the items, for all of which there is room, into the last piece, as many as fit into it, and tells how many they were:
    // one at least.
    fn append(&mut self, items: &[X]) -> usize
        requires some { 0 < length items.now }
        requires room { length items.now ≤ free (⟦<LendingStore as Store<X>>⟧.held self.old) }
        ensures some { 0 < result }
        ensures within { result ≤ length items.now }
        ensures items { ⟦<LendingStore as Store<X>>⟧.held self.new ≡ with_more (take result items.now) (⟦<LendingStore as Store<X>>⟧.held self.old) }
    {
        self.make_place();
        let total = self.gone + self.len;
        let mut last = take_last(&mut self.pieces, &mut self.spent, self.piece, total);
        let count = items.len().min(self.piece - last.len());
        let Ok(()) = last.extend_from_slice(&items[..count]) else {
            unreachable!()
        };
        let Ok(()) = self.pieces.try_push_back(last) else {
            unreachable!()
        };
        self.len += count;
        count
    }

    // Whether a piece of so many items may come in as it is: a whole one behind whole ones only, since places are counted by pieces, and for one
    // that is spent.
    fn may_exchange(&self, count: usize) -> bool
        ensures { OnTrue result ((count ≡ self.now.piece) × ((self.now.gone + self.now.len) % self.now.piece ≡ 0) × (0 < length self.now.spent.items)) }
    {
        count == self.piece && (self.gone + self.len) % self.piece == 0 && !self.spent.is_empty()
    }

    // Takes a whole piece as it is, and leaves a spent one in its place.
    fn exchange(&mut self, piece: &mut Vec<X>)
        requires whole { length piece.old.items ≡ self.old.piece }
        requires behind { (self.old.gone + self.old.len) % self.old.piece ≡ 0 }
        requires spare { 0 < length self.old.spent.items }
        requires room { length piece.old.items ≤ free (⟦<LendingStore as Store<X>>⟧.held self.old) }
        ensures items { ⟦<LendingStore as Store<X>>⟧.held self.new ≡ with_more piece.old.items (⟦<LendingStore as Store<X>>⟧.held self.old) }
        ensures room { self.old.piece ≤ vec_capacity piece.new }
    {
        let Some(spent) = self.spent.pop() else {
            unreachable!()
        };
        let Ok(()) = self.pieces.try_push_back(mem::replace(piece, spent)) else {
            unreachable!()
        };
        self.len += self.piece;
    }

    // Drops the first items, `most` of them at most, as many as are left of the first piece, and tells how many they were: one at least.
    fn pass(&mut self, most: usize) -> usize
        requires some { 0 < most }
        requires inside { let stored = ⟦<LendingStore as Store<X>>⟧.held self.old in most ≤ length stored.items }
        ensures some { 0 < result }
        ensures within { result ≤ most }
        ensures rest { ⟦<LendingStore as Store<X>>⟧.held self.new ≡ without_first result (⟦<LendingStore as Store<X>>⟧.held self.old) }
    {
        let left = self.len.min(self.piece - self.gone);
        if most < left {
            self.gone += most;
            self.len -= most;
            return most;
        }
        let Some(first) = self.pieces.pop_front() else {
            unreachable!()
        };
        self.spent.push_reserved(first);
        self.gone = 0;
        self.len -= left;
        left
    }

    // Gives the first piece, of which nothing is gone, for that which is handed in, and tells how many items it has.
    fn give_first(&mut self, piece: &mut Vec<X>) -> usize
        requires some { let stored = ⟦<LendingStore as Store<X>>⟧.held self.old in 0 < length stored.items }
        requires whole { self.old.gone ≡ 0 }
        requires room { self.old.piece ≤ vec_capacity piece.old }
        ensures count { let stored = ⟦<LendingStore as Store<X>>⟧.held self.old in result ≡ min self.old.piece (length stored.items) }
        ensures piece { let stored = ⟦<LendingStore as Store<X>>⟧.held self.old in piece.new.items ≡ take result stored.items }
        ensures rest { ⟦<LendingStore as Store<X>>⟧.held self.new ≡ without_first result (⟦<LendingStore as Store<X>>⟧.held self.old) }
        ensures room { self.old.piece ≤ vec_capacity piece.new }
    {
        let Some(first) = self.pieces.pop_front() else {
            unreachable!()
        };
        self.spent.push_reserved(mem::replace(piece, first));
        let count = piece.len();
        self.len -= count;
        count
    }
}

impl<X: Copy> Store<X> for LendingStore {
    type Memory = LendingMemory<X>;

    ghost held = { λ memory. record { items = drop memory.gone (flat_map vec_items memory.pieces.items); capacity = memory.capacity } };

    fn new(alloc: Global, capacity: usize) -> Result<LendingMemory<X>, AllocError> {
        // (as short as so many pieces may be: fewer places than there are pieces stay over)
        let pieces = capacity.div_ceil(PIECE);
        LendingMemory::with_piece(alloc, capacity, capacity.div_ceil(pieces))
    }

    fn len(memory: &LendingMemory<X>) -> usize {
        memory.len
    }

    fn room(memory: &LendingMemory<X>) -> usize {
        memory.capacity - memory.len
    }

    fn piece(memory: &LendingMemory<X>) -> usize {
        memory.piece
    }

    fn push(memory: &mut LendingMemory<X>, item: X) {
        memory.make_place();
        let total = memory.gone + memory.len;
        let mut last = take_last(&mut memory.pieces, &mut memory.spent, memory.piece, total);
        last.push_reserved(item);
        let Ok(()) = memory.pieces.try_push_back(last) else {
            unreachable!()
        };
        memory.len += 1;
    }

    fn pop(memory: &mut LendingMemory<X>) -> Option<X> {
        if memory.len == 0 {
            return None;
        }
        let item = memory.at(0);
        let _one = memory.pass(1);
        Some(item)
    }

    fn drop_front(memory: &mut LendingMemory<X>, count: usize) {
        let mut left = count;
        while left > 0 {
            left -= memory.pass(left);
        }
    }
}

impl<X: Copy> CopyStore<X> for LendingStore {
    fn get(memory: &LendingMemory<X>, place: usize) -> X {
        memory.at(place)
    }

    fn put_all(memory: &mut LendingMemory<X>, items: &[X]) {
        let mut start = 0;
        while start < items.len() {
            start += memory.append(&items[start..]);
        }
    }

    fn take_piece(memory: &mut LendingMemory<X>, piece: &mut Vec<X>, count: usize) {
        if count < piece.len() || !memory.may_exchange(count) {
            Self::put_all(memory, &piece[..count]);
            return;
        }
        memory.exchange(piece);
    }

    fn take_ready(memory: &mut LendingMemory<X>, ready: &mut Vec<X>) -> bool {
        if !memory.may_exchange(ready.len()) {
            return false;
        }
        memory.exchange(ready);
        ready.clear();
        true
    }

    fn give_piece(memory: &mut LendingMemory<X>, most: usize, piece: &mut Vec<X>) -> usize {
        // (the first piece is what is asked for: all others are behind a whole one)
        if memory.gone == 0 && most == memory.piece && memory.len > 0 {
            return memory.give_first(piece);
        }
        let count = most.min(memory.len);
        piece.clear();
        Self::append_front(memory, count, piece);
        Self::drop_front(memory, count);
        count
    }
}
