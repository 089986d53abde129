//! What an end keeps of its pipe: what that has counted, and that it was closed.
use std::marker::{Model, PhantomData};

/// How many items were sent into a pipe, or received from it, as `Of` says: [`OfSent`] or [`OfReceived`]. The pipe itself counts them. Only its
/// sections make a tally, so an end whose count has risen has passed something on.
#[derive(Drop)]
pub(crate) struct Tally<Of> {
    count: u64,
    of: PhantomData<Of>,
}

/// A tally of what was sent.
pub(crate) struct OfSent;

/// A tally of what was received.
pub(crate) struct OfReceived;

impl<Of> Model for Tally<Of> {
    ghost use Rattle.std.specs.Prelude.{ℕ};
    ghost use Rattle.std.specs.Coded.{coded_ℕ};

    ghost Value = { ℕ };

    ghost coded = { coded_ℕ };

    ghost view = { λ tally. tally.count };
}

impl<Of> Tally<Of> {
    ghost use Rattle.std.specs.Prelude.{◌≡◌};

    // (for the pipe under its lock alone)
    pub(super) fn new(count: u64) -> Tally<Of>
        ensures { result ≡ count }
    {
        Tally {
            count,
            of: PhantomData,
        }
    }

    pub(crate) fn count(&self) -> u64
        ensures { result ≡ self.now }
    {
        self.count
    }
}

/// The proof that a job has closed its end of a pipe. Only the pipe's sections make it.
#[derive(Clone, Copy, Debug)]
pub struct Closed(());

impl Closed {
    // (for the pipe under its lock alone)
    pub(super) fn new() -> Closed {
        Closed(())
    }
}
