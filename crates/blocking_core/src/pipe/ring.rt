//! A store over a ring.
ghost use Rattle.std.specs.Prelude.{◌≡◌, ◌≤◌, ◌+◌, ◌-◌, ◌++◌, length, min, take, drop, vec_len, vec_capacity};

use crate::pipe::store::{CopyStore, Store};
use circular_buffer::HeapCircularBuffer;
use std::alloc::{AllocError, Global};

/// A ring of items of any type, in one block of memory.
pub struct RingStore;

/// The memory of a ring.
#[derive(Drop)]
pub struct RingMemory<X: Drop> {
    ring: HeapCircularBuffer<X>,
    ghost within: { length ring.items ≤ ring.capacity },
}

impl<X: Drop> Store<X> for RingStore {
    type Memory = RingMemory<X>;

    ghost held = { λ memory. record { items = memory.ring.items; capacity = memory.ring.capacity } };

    fn new(alloc: Global, capacity: usize) -> Result<RingMemory<X>, AllocError> {
        let ring = HeapCircularBuffer::with_capacity(alloc, capacity)?;
        Ok(RingMemory { ring })
    }

    fn len(memory: &RingMemory<X>) -> usize {
        memory.ring.len()
    }

    fn room(memory: &RingMemory<X>) -> usize {
        memory.ring.capacity() - memory.ring.len()
    }

    fn push(memory: &mut RingMemory<X>, item: X) {
        let Ok(()) = memory.ring.try_push_back(item) else {
            unreachable!()
        };
    }

    fn pop(memory: &mut RingMemory<X>) -> Option<X> {
        memory.ring.pop_front()
    }

    fn drop_front(memory: &mut RingMemory<X>, count: usize) {
        let rest = memory.ring.len() - count;
        memory.ring.truncate_front(rest);
    }
}

// Copies the first items of two slices that follow each other, as many as `out` has places, and tells how many they were.
pub(super) fn copy_slices<X: Copy>(front: &[X], back: &[X], out: &mut [X]) -> usize
    ensures count { result ≡ min (length out.old) (length front.now + length back.now) }
    ensures front { out.new ≡ take result (front.now ++ back.now) ++ drop result out.old }
{
    let from_front = front.len().min(out.len());
    let from_back = back.len().min(out.len() - from_front);
    let count = from_front + from_back;
    out[..from_front].copy_from_slice(&front[..from_front]);
    out[from_front..count].copy_from_slice(&back[..from_back]);
    count
}

// Appends the first `count` items of two slices that follow each other, for which the piece has memory.
pub(super) fn append_slices<X: Copy>(front: &[X], back: &[X], count: usize, piece: &mut Vec<X>)
    requires inside { count ≤ length front.now + length back.now }
    requires fits { vec_len piece.old + count ≤ vec_capacity piece.old }
    ensures items { piece.new.items ≡ piece.old.items ++ take count (front.now ++ back.now) }
    ensures room { vec_capacity piece.old ≤ vec_capacity piece.new }
{
    let from_front = front.len().min(count);
    let from_back = count - from_front;
    let Ok(()) = piece.extend_from_slice(&front[..from_front]) else {
        unreachable!()
    };
    let Ok(()) = piece.extend_from_slice(&back[..from_back]) else {
        unreachable!()
    };
}

impl<X: Copy> CopyStore<X> for RingStore {
    fn get(memory: &RingMemory<X>, place: usize) -> X {
        let Some(item) = memory.ring.get(place) else {
            unreachable!()
        };
        *item
    }

    fn put_all(memory: &mut RingMemory<X>, items: &[X]) {
        let _count = memory.ring.fill_from_slice(items);
    }

    fn copy_front(memory: &RingMemory<X>, out: &mut [X]) -> usize {
        let (front, back) = memory.ring.as_slices();
        copy_slices(front, back, out)
    }

    fn append_front(memory: &RingMemory<X>, count: usize, piece: &mut Vec<X>) {
        let (front, back) = memory.ring.as_slices();
        append_slices(front, back, count, piece);
    }
}
