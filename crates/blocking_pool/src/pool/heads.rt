//! The heads of the clients that are open: which of them entered first.
ghost use Rattle.std.specs.Prelude.{◌≡◌, ◌<◌, ◌≤◌, ◌∷◌, [], length, OnOk, IsPermutation};
ghost use Rattle.blocking_pool.specs.Heads.{PopsLeast};

use std::alloc::{AllocError, Global};
use std::cmp::Reverse;
use std::collections::BinaryHeap;
use std::marker::Model;

/// The heads of clients. Their room is made in advance.
#[derive(Drop)]
pub(crate) struct Heads {
    heap: BinaryHeap<Reverse<(u64, u32)>>,
}

impl Model for Heads {
    ghost use Rattle.std.specs.Prelude.{map};
    ghost use Rattle.std.specs.BinaryHeap.{IsHeap, heap_items, heap_capacity};
    ghost use Rattle.std.specs.Ordering.{nat_cmp, ordering_then};
    ghost use Rattle.blocking_pool.specs.Heads.{Heads as Seen};

    ghost Value = { Seen };

    ghost view = { λ h. record {
      heads = map (λ head. head.0) (heap_items h.heap);
      room = heap_capacity h.heap;
    } };

    ghost invariant = { λ h. IsHeap (λ x y. ordering_then (nat_cmp y.0.0 x.0.0) (nat_cmp y.0.1 x.0.1)) (heap_items h.heap) };
}

impl Heads {
    /// No head, and no room yet: this takes no memory.
    pub(crate) fn new(alloc: Global) -> Self
        ensures { result.heads ≡ [] }
    {
        Heads {
            heap: BinaryHeap::new(alloc),
        }
    }

    /// Makes room for so many heads in all.
    pub(crate) fn make_room(&mut self, count: usize) -> Result<(), AllocError>
        ensures heads { self.new.heads ≡ self.old.heads }
        ensures kept { self.old.room ≤ self.new.room }
        ensures room { OnOk result (count ≤ self.new.room) }
    {
        let len = self.heap.len();
        if count <= len {
            return Ok(());
        }
        self.heap.reserve(count - len)
    }

    /// Takes out all heads. Their room stays.
    pub(crate) fn clear(&mut self)
        ensures { self.new ≡ record self.old { heads = [] } }
    {
        self.heap.clear();
    }

    /// Adds a head.
    pub(crate) fn push(&mut self, number: u64, client: u32)
        requires { length self.old.heads < self.old.room }
        ensures heads { IsPermutation ((number, client) ∷ self.old.heads) self.new.heads }
        ensures kept { self.old.room ≤ self.new.room }
    {
        let Ok(()) = self.heap.push(Reverse((number, client))) else {
            unreachable!()
        };
    }

    /// Takes out the head that entered first.
    pub(crate) fn pop(&mut self) -> Option<(u64, u32)>
        ensures { PopsLeast self.old result self.new }
    {
        let Reverse(head) = self.heap.pop()?;
        Some(head)
    }
}
