//! How an end of a ring waits for a moment without a lock, and keeps from going in step with the other.
ghost use Rattle.std.specs.Prelude.{◌≡◌};

use std::hint::spin_loop;

// Fewer items or places than so many, and than a third of the ring, are few.
const FEW: usize = 32;

// How often a side turns that lets the other get ahead: half a microsecond to one and a half, as a turn takes 3 to 11 ns.
const TURNS: u32 = 120;

/// Whether two sides of a ring go in step. One that is just behind the other fetches what the other has just written, for each item anew. Where a
/// look at the other's place shows only few items, or few places, it waits for a moment before its next look, so that it finds more.
#[derive(Clone, Copy)]
pub(super) struct Pace {
    few: usize,
    is_in_step: bool,
}

impl Pace {
    pub(super) fn of(capacity: usize) -> Pace {
        Pace {
            few: (capacity / 3).min(FEW),
            is_in_step: false,
        }
    }

    /// Before a look.
    pub(super) fn wait(&self) {
        if !self.is_in_step {
            return;
        }
        for _ in 0..TURNS {
            spin_loop();
        }
    }

    /// A look showed so many.
    pub(super) fn saw(&mut self, count: usize) {
        self.is_in_step = 0 < count && count < self.few;
    }
}
