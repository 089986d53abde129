//! What holds the items of a pipe.
ghost use Rattle.std.specs.Prelude.{◌≡◌, ◌<◌, ◌≤◌, ◌+◌, ◌^◌, ◌++◌, ◌∷◌, [], length, min, take, drop, slice_get, vec_len, vec_capacity, Some, IfOk};
ghost use Rattle.std.specs.Bool.{OnTrue, OnFalse};
ghost use Rattle.blocking_core.specs.Stores.{Stored, empty_store, free, with_more, without_first};

use std::alloc::{AllocError, Global};

/// What holds items in a row, at most so many, as those of a pipe. Contracts see its memory as a list and a capacity, so a pipe says the same
/// over every store. No call but [`Store::new`] is to take memory.
///
/// A store is a name, which says how a pipe's items are kept, and no value: what is kept is its `Memory`.
pub trait Store<X: Drop> {
    /// The memory in which its items stand.
    type Memory: Drop;

    /// What contracts see of it.
    ghost held: { Self.Memory → Stored X };

    /// A store of nothing, for at most `capacity` items. All its memory is taken here, and where there isn't so much the answer is an
    /// [`AllocError`].
    fn new(alloc: Global, capacity: usize) -> Result<Self::Memory, AllocError>
        requires { 0 < capacity }
        ensures { IfOk result (λ memory. held memory ≡ empty_store capacity) };

    /// How many items are inside.
    fn len(memory: &Self::Memory) -> usize
        ensures len { let stored = held memory.now in result ≡ length stored.items }
        ensures counted { let stored = held memory.now in stored.capacity < 2 ^ 64 };

    /// How many more items it holds.
    fn room(memory: &Self::Memory) -> usize
        ensures { result ≡ free (held memory.now) };

    /// How many items its pieces have, where it takes and gives whole ones as they are, or else 0. It tells those who make pieces for it, and
    /// nothing rests on it.
    fn piece(memory: &Self::Memory) -> usize {
        0
    }

    /// Takes an item, for which there is room, behind those inside.
    fn push(memory: &mut Self::Memory, item: X)
        requires { 0 < free (held memory.old) }
        ensures { held memory.new ≡ with_more (item ∷ []) (held memory.old) };

    /// Gives the first item.
    fn pop(memory: &mut Self::Memory) -> Option<X>
        ensures item { let stored = held memory.old in result ≡ slice_get stored.items 0 }
        ensures rest { held memory.new ≡ without_first 1 (held memory.old) };

    /// Drops the first `count` items, which are inside.
    #[tactic(auto, using(crate::proofs::Stores::one_more_gone))]
    fn drop_front(memory: &mut Self::Memory, count: usize)
        requires { let stored = held memory.old in count ≤ length stored.items }
        ensures { held memory.new ≡ without_first count (held memory.old) }
    {
        for _ in 0..count {
            let _item = Self::pop(memory);
        }
    }

    /// Drops all that is inside.
    fn clear(memory: &mut Self::Memory)
        ensures { let stored = held memory.old in held memory.new ≡ empty_store stored.capacity }
    {
        let count = Self::len(memory);
        Self::drop_front(memory, count);
    }
}

/// A store of items that are copied, which can be used many at once. A piece is memory for many items that passes between a store and
/// whoever uses it. A store may take and give pieces as they are, and else copies what stands there.
pub trait CopyStore<X: Copy>: Store<X> {
    /// The item at a place, counted from the front.
    fn get(memory: &Self::Memory, place: usize) -> X
        requires { let stored = Self.held memory.now in place < length stored.items }
        ensures { let stored = Self.held memory.now in slice_get stored.items place ≡ Some result };

    /// Takes items, for all of which there is room, behind those inside.
    #[tactic(auto, using(crate::proofs::Stores::one_more_in))]
    fn put_all(memory: &mut Self::Memory, items: &[X])
        requires { length items.now ≤ free (Self.held memory.old) }
        ensures { Self.held memory.new ≡ with_more items.now (Self.held memory.old) }
    {
        for item in items {
            Self::push(memory, *item);
        }
    }

    /// Takes the first `count` items of a piece, for all of which there is room. The piece may be exchanged for another with memory for as much,
    /// and what stands there afterwards, and how much, is not to be relied on.
    fn take_piece(memory: &mut Self::Memory, piece: &mut Vec<X>, count: usize)
        requires some { count ≤ length piece.old.items }
        requires room { count ≤ free (Self.held memory.old) }
        ensures items { Self.held memory.new ≡ with_more (take count piece.old.items) (Self.held memory.old) }
        ensures fits { length piece.old.items ≤ vec_capacity piece.new }
    {
        Self::put_all(memory, &piece[..count]);
    }

    /// Takes all that stands ready in a piece, for which there is room, as it is, and gives empty memory for as much in its place; or leaves it.
    fn take_ready(memory: &mut Self::Memory, ready: &mut Vec<X>) -> bool
        requires { length ready.old.items ≤ free (Self.held memory.old) }
        ensures took { OnTrue result ((ready.new.items ≡ []) × (Self.held memory.new ≡ with_more ready.old.items (Self.held memory.old))) }
        ensures room { OnTrue result (length ready.old.items ≤ vec_capacity ready.new) }
        ensures left { OnFalse result ((ready.new.items ≡ ready.old.items) × (Self.held memory.new ≡ Self.held memory.old)) }
    {
        let _left = ready;
        false
    }

    /// Copies the first items into `out`, as many as it has places, and tells how many they were.
    #[tactic(auto, using(crate::proofs::Stores::one_more_copied))]
    fn copy_front(memory: &Self::Memory, out: &mut [X]) -> usize
        ensures count { let stored = Self.held memory.now in result ≡ min (length out.old) (length stored.items) }
        ensures front { let stored = Self.held memory.now in out.new ≡ take result stored.items ++ drop result out.old }
    {
        let count = out.len().min(Self::len(memory));
        for place in 0..count {
            out[place] = Self::get(memory, place);
        }
        count
    }

    /// Appends copies of the first `count` items to a piece that has memory for them.
    #[tactic(auto, using(crate::proofs::Stores::one_more_behind))]
    fn append_front(memory: &Self::Memory, count: usize, piece: &mut Vec<X>)
        requires inside { let stored = Self.held memory.now in count ≤ length stored.items }
        requires fits { vec_len piece.old + count ≤ vec_capacity piece.old }
        ensures items { let stored = Self.held memory.now in piece.new.items ≡ piece.old.items ++ take count stored.items }
        ensures room { vec_capacity piece.old ≤ vec_capacity piece.new }
    {
        for place in 0..count {
            piece.push_reserved(Self::get(memory, place));
        }
    }

    /// Moves the first items into `out`, as many as it has places, and tells how many they were.
    fn read_front(memory: &mut Self::Memory, out: &mut [X]) -> usize
        ensures count { let stored = Self.held memory.old in result ≡ min (length out.old) (length stored.items) }
        ensures front { let stored = Self.held memory.old in out.new ≡ take result stored.items ++ drop result out.old }
        ensures rest { Self.held memory.new ≡ without_first result (Self.held memory.old) }
    {
        let count = Self::copy_front(memory, out);
        Self::drop_front(memory, count);
        count
    }

    /// Gives the first items, `most` of them at most, in a piece: that which is handed in, or one of the store's own for it. Tells how many they
    /// were.
    fn give_piece(memory: &mut Self::Memory, most: usize, piece: &mut Vec<X>) -> usize
        requires { most ≤ vec_capacity piece.old }
        ensures count { let stored = Self.held memory.old in result ≡ min most (length stored.items) }
        ensures piece { let stored = Self.held memory.old in piece.new.items ≡ take result stored.items }
        ensures rest { Self.held memory.new ≡ without_first result (Self.held memory.old) }
        ensures room { most ≤ vec_capacity piece.new }
    {
        let count = most.min(Self::len(memory));
        piece.clear();
        Self::append_front(memory, count, piece);
        Self::drop_front(memory, count);
        count
    }
}
