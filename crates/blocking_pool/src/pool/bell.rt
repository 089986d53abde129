//! Whom a call of the pool has to notify.
use std::marker::Model;
use std::sync::Condvar;

/// Whom a ring notifies.
#[derive(Clone, Copy, Debug, PartialEq, Eq)]
pub enum BellKind {
    /// Nobody.
    Silent,
    /// One waiting worker.
    One,
    /// All waiting workers.
    All,
}

/// A worker that runs no job and doesn't wait, and that was claimed for a ring: it takes the pool's lock after that, as one that is notified
/// does. Whoever claims workers has a type of its own for them, and makes one only for a worker that nobody else has claimed.
pub trait Claim {}

/// A ring that is due to the workers that wait. It has no `Drop`: it has to be spent, by [`Bell::ring`] or [`Bell::heard`].
pub struct Bell {
    kind: BellKind,
}

impl Model for Bell {
    ghost use Rattle.blocking_pool.specs.declared.pool.bell.BellKind.{BellKind};

    ghost Value = { BellKind };

    ghost view = { λ bell. bell.kind };
}

impl Bell {
    ghost use Rattle.std.specs.Prelude.{◌≡◌};
    ghost use Rattle.blocking_pool.specs.declared.pool.bell.BellKind.{BellKind};

    pub(crate) fn new(kind: BellKind) -> Bell
        ensures { result ≡ kind }
    {
        Bell { kind }
    }

    /// Whom it notifies.
    pub fn kind(&self) -> BellKind
        ensures { result ≡ self.now }
    {
        self.kind
    }

    /// Notifies the threads that wait at this condition variable: none, one or all of them. Best after the pool's lock is
    /// let go, since a thread that wakes wants it.
    pub fn ring(self, condvar: &Condvar) {
        let Bell { kind } = self;
        match kind {
            BellKind::Silent => {}
            BellKind::One => condvar.notify_one(),
            BellKind::All => condvar.notify_all(),
        }
    }

    /// Spends the ring of one worker, and notifies nobody: the worker that was claimed stands in for the one that would be.
    pub fn heard<C: Claim + Drop>(self, _claimed: C)
        requires { self ≡ BellKind.One }
    {
        let Bell { kind: _ } = self;
    }
}
