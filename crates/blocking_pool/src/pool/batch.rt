//! The numbers of jobs that a sweep gathers.
ghost use Rattle.std.specs.Prelude.{◌≡◌, ◌<◌, ◌≤◌, ◌++◌, ◌∷◌, [], length, OnOk};
ghost use Rattle.std.specs.List.Sorted.{IsPermutation, IsNonDecreasingBy};

use crate::pool::number::JobNo;
use std::alloc::{AllocError, Global};
use std::marker::Model;

/// Numbers of jobs, in the order in which they were added or in that of their serials. Their room is made in advance.
#[derive(Drop)]
pub(crate) struct Batch {
    numbers: Vec<JobNo>,
}

impl Model for Batch {
    ghost use Rattle.std.specs.Prelude.{vec_capacity};
    ghost use Rattle.blocking_pool.specs.Batch.{Batch as Numbers};

    ghost Value = { Numbers };

    ghost view = { λ b. record { numbers = b.numbers.items; room = vec_capacity b.numbers } };
}

impl Batch {
    /// No number, and no room yet: this takes no memory.
    pub(crate) fn new(alloc: Global) -> Self
        ensures { result ≡ record { numbers = []; room = 0 } }
    {
        Batch {
            numbers: Vec::new(alloc),
        }
    }

    /// Lets go of all numbers, and makes room for so many.
    pub(crate) fn make_room(&mut self, count: usize) -> Result<(), AllocError>
        ensures kept { self.old.room ≤ self.new.room }
        ensures room { OnOk result (count ≤ self.new.room) }
    {
        self.numbers.clear();
        self.numbers.reserve(count)
    }

    /// Lets go of all numbers.
    pub(crate) fn clear(&mut self)
        ensures { self.new ≡ record self.old { numbers = [] } }
    {
        self.numbers.clear();
    }

    /// Adds a number.
    pub(crate) fn push(&mut self, no: JobNo)
        requires { length self.old.numbers < self.old.room }
        ensures numbers { self.new.numbers ≡ self.old.numbers ++ no ∷ [] }
        ensures kept { self.old.room ≤ self.new.room }
    {
        if self.numbers.push(no).is_err() {
            unreachable!()
        }
    }

    /// Puts the numbers in the order of their serials.
    pub(crate) fn sort(&mut self)
        ensures same { IsPermutation self.old.numbers self.new.numbers }
        ensures sorted { IsNonDecreasingBy (λ no. no.serial) self.new.numbers }
        ensures kept { self.old.room ≤ self.new.room }
    {
        self.numbers.sort_unstable_by_key(|no| no.serial());
    }

    /// The numbers, in their order.
    pub(crate) fn numbers(&self) -> &[JobNo]
        ensures { result.now ≡ self.now.numbers }
    {
        self.numbers.as_slice()
    }
}
