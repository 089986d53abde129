//! The worker that looks for a job before it sleeps: a thread that sleeps has to be woken, which costs far more than a few looks.
//!
//! A worker looks unless another does that may be claimed. What it sees decides nothing: it takes the pool's lock after its looks.
//! So does a worker that was notified, which is why one that looks may stand in for it.

use blocking_core::pool::Claim;
use std::sync::atomic::{AtomicBool, Ordering};
use std::thread::yield_now;

// How often a worker looks. Between two looks it lets other threads have its processor.
const LOOKS: u32 = 10;

#[derive(Drop)]
pub(crate) struct Lookout {
    // Whether there is a worker that looks and that nobody has claimed.
    is_manned: AtomicBool,
    // Whether a job was ready when the last section ended.
    is_ready: AtomicBool,
}

/// The worker that looked, claimed for one ring. The lookout alone makes one.
#[derive(Drop)]
pub(crate) struct Claimed(());

impl Claim for Claimed {}

impl Lookout {
    pub(crate) fn new() -> Lookout {
        Lookout {
            is_manned: AtomicBool::new(false),
            is_ready: AtomicBool::new(false),
        }
    }

    /// Tells whoever looks whether a job is ready. To be called under the pool's lock.
    pub(crate) fn tell(&self, is_ready: bool) {
        // (a write takes the line from those that read it)
        if self.is_ready.load(Ordering::Relaxed) != is_ready {
            self.is_ready.store(is_ready, Ordering::Relaxed);
        }
    }

    /// Claims the worker that looks, if there is one that nobody has claimed. To be called under the pool's lock, which that worker
    /// takes later: it finds what the section made ready, or somebody else has taken it.
    pub(crate) fn claim(&self) -> Option<Claimed> {
        if self.is_manned.load(Ordering::SeqCst) && self.is_manned.swap(false, Ordering::SeqCst) {
            Some(Claimed(()))
        } else {
            None
        }
    }

    /// Looks for a job for a while, unless another worker does that may be claimed. The caller takes the pool's lock next.
    pub(crate) fn look(&self) {
        // schedule: Look
        if self.is_manned.swap(true, Ordering::SeqCst) {
            return;
        }
        for _ in 0..LOOKS {
            if self.is_ready.load(Ordering::Relaxed) {
                break;
            }
            yield_now();
        }
        // schedule: EndLook
        self.is_manned.store(false, Ordering::SeqCst);
    }
}
