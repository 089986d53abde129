//! How long is waited for what has to come.
use std::sync::Arc;
use std::sync::atomic::{AtomicBool, Ordering};
use std::thread;

/// How often is looked for what has to come, before it is said that it doesn't: for some seconds.
const LOOKS: u64 = 20_000_000;

/// How often something is polled that has to answer.
pub(crate) const POLLS: u32 = 1_000;

/// Whether the time of a whole run is over. Nothing is waited for from then on.
#[derive(Drop)]
pub(crate) struct Patience {
    is_over: Arc<AtomicBool>,
}

impl Patience {
    pub(crate) fn new(is_over: Arc<AtomicBool>) -> Patience {
        Patience { is_over }
    }

    /// Whether the time is over.
    pub(crate) fn is_over(&self) -> bool {
        self.is_over.load(Ordering::SeqCst)
    }

    /// Whether that comes to hold before long.
    pub(crate) fn until<F: Fn() -> bool>(&self, met: F) -> bool
        requires { F.IsAlwaysCallable met }
    {
        for _ in 0..LOOKS {
            if met() {
                return true;
            }
            if self.is_over() {
                return false;
            }
            thread::yield_now();
        }
        false
    }
}
