//! A store of bytes over one `Vec`.
#![tactic(auto, using(crate::proofs::Flat::window_length))]

ghost use Rattle.std.specs.Prelude.{◌≡◌, ◌<◌, ◌≤◌, ◌+◌, ◌++◌, length, max, vec_len, vec_capacity};
ghost use Rattle.blocking_core.specs.Flat.{window, written};

use crate::pipe::ring::{append_slices, copy_slices};
use crate::pipe::store::{CopyStore, Store};
use std::alloc::{AllocError, Global};

/// A ring of bytes in one block of memory, used through copies of whole slices.
pub struct FlatStore;

/// The memory of a ring of bytes.
#[derive(Drop)]
pub struct FlatMemory {
    // Its memory is all there from the start, but is only written as bytes come, so that what was never used is never touched.
    bytes: Vec<u8>,
    capacity: usize,
    // Where the first byte stands, and how many follow from there on, round the end.
    head: usize,
    len: usize,
    ghost start_in: { head < capacity },
    ghost len_in: { len ≤ capacity },
    ghost written_in: { vec_len bytes ≤ capacity },
    ghost fits: { capacity ≤ vec_capacity bytes },
    // Until all the memory is written nothing goes round the end.
    ghost in_order: { vec_len bytes < capacity → head + len ≡ vec_len bytes },
}

// Writes over what stands from the place on, or behind what is written.
fn write_at(bytes: &mut Vec<u8>, place: usize, items: &[u8])
    requires place { place ≤ vec_len bytes.old }
    requires within { place < vec_len bytes.old → place + length items.now ≤ vec_len bytes.old }
    requires fits { place + length items.now ≤ vec_capacity bytes.old }
    ensures items { bytes.new.items ≡ written place items.now bytes.old.items }
    ensures len { vec_len bytes.new ≡ max (vec_len bytes.old) (place + length items.now) }
    ensures room { vec_capacity bytes.old ≤ vec_capacity bytes.new }
{
    if place == bytes.len() {
        let Ok(()) = bytes.extend_from_slice(items) else {
            unreachable!()
        };
        return;
    }
    bytes[place..place + items.len()].copy_from_slice(items);
}

impl FlatMemory {
    /// Where the first byte stands: a place of the memory, below its capacity.
    pub fn head(&self) -> usize
        ensures { result ≡ self.now.head }
    {
        self.head
    }

    // The place of the byte that many places behind the first, round the end.
    fn place_after(&self, count: usize) -> usize
        requires { count ≤ self.now.capacity }
        ensures within { result < self.now.capacity }
        ensures straight { self.now.head + count < self.now.capacity → result ≡ self.now.head + count }
        ensures round { self.now.capacity ≤ self.now.head + count → result + self.now.capacity ≡ self.now.head + count }
    {
        let to_end = self.capacity - self.head;
        if count < to_end {
            self.head + count
        } else {
            count - to_end
        }
    }

    // The bytes inside, before the end of the memory and round it.
    fn as_slices(&self) -> (&[u8], &[u8])
        ensures { result.0.now ++ result.1.now ≡ window self.now.head self.now.len self.now.bytes.items }
    {
        let first = self.len.min(self.bytes.len() - self.head);
        let front = &self.bytes[self.head..self.head + first];
        let back = &self.bytes[..self.len - first];
        (front, back)
    }

    // Takes bytes behind those inside, where all of them stand before the end of the memory or all of them round it.
    fn put_part(&mut self, items: &[u8])
        requires room { self.old.len + length items.now ≤ self.old.capacity }
        requires straight { let old = self.old in old.head + old.len < old.capacity → old.head + old.len + length items.now ≤ old.capacity }
        ensures items { let old = self.old in let new = self.new in window new.head new.len new.bytes.items ≡ window old.head old.len old.bytes.items ++ items.now }
        ensures capacity { self.new.capacity ≡ self.old.capacity }
        ensures head { self.new.head ≡ self.old.head }
        ensures len { self.new.len ≡ self.old.len + length items.now }
    {
        let end = self.place_after(self.len);
        write_at(&mut self.bytes, end, items);
        self.len += items.len();
    }
}

impl Store<u8> for FlatStore {
    type Memory = FlatMemory;

    ghost held = { λ memory. record { items = window memory.head memory.len memory.bytes.items; capacity = memory.capacity } };

    fn new(alloc: Global, capacity: usize) -> Result<FlatMemory, AllocError> {
        let bytes = Vec::with_capacity(alloc, capacity)?;
        Ok(FlatMemory {
            bytes,
            capacity,
            head: 0,
            len: 0,
        })
    }

    fn len(memory: &FlatMemory) -> usize {
        memory.len
    }

    fn room(memory: &FlatMemory) -> usize {
        memory.capacity - memory.len
    }

    fn push(memory: &mut FlatMemory, item: u8) {
        memory.put_part(&[item]);
    }

    fn pop(memory: &mut FlatMemory) -> Option<u8> {
        if memory.len == 0 {
            return None;
        }
        let item = memory.bytes[memory.head];
        <Self as Store<u8>>::drop_front(memory, 1);
        Some(item)
    }

    fn drop_front(memory: &mut FlatMemory, count: usize) {
        memory.head = memory.place_after(count);
        memory.len -= count;
    }

    // (from its start again, so that what comes then touches no memory that wasn't used before)
    fn clear(memory: &mut FlatMemory) {
        memory.bytes.clear();
        memory.head = 0;
        memory.len = 0;
    }
}

impl CopyStore<u8> for FlatStore {
    fn get(memory: &FlatMemory, place: usize) -> u8 {
        memory.bytes[memory.place_after(place)]
    }

    fn put_all(memory: &mut FlatMemory, items: &[u8]) {
        let end = memory.place_after(memory.len);
        let first = items.len().min(memory.capacity - end);
        memory.put_part(&items[..first]);
        memory.put_part(&items[first..]);
    }

    fn copy_front(memory: &FlatMemory, out: &mut [u8]) -> usize {
        let (front, back) = memory.as_slices();
        copy_slices(front, back, out)
    }

    fn append_front(memory: &FlatMemory, count: usize, piece: &mut Vec<u8>) {
        let (front, back) = memory.as_slices();
        append_slices(front, back, count, piece);
    }
}
