//! Gates: where calls of handles, calls and jobs stand until a script lets them go on.
use std::alloc::{AllocError, Global};
use std::sync::Arc;
use std::sync::atomic::{AtomicBool, AtomicU64, Ordering};
use std::thread;

/// The number of a gate: `a` is 0.
pub(crate) type GateNo = usize;

/// How many gates there are: one a letter.
const GATES: usize = 26;

/// The gate of this letter.
pub(crate) fn gate_of(letter: char) -> Option<GateNo> {
    if letter.is_ascii_lowercase() {
        return usize::try_from(u32::from(letter).checked_sub(97)?).ok();
    }
    None
}

/// Where someone stands, and what he opens before.
#[derive(Clone, Copy, Default)]
pub(crate) struct Stop {
    pub opens: Option<GateNo>,
    pub at: Option<GateNo>,
}

#[derive(Drop)]
struct Gate {
    is_open: AtomicBool,
    // How many came to it.
    reached: AtomicU64,
}

/// All gates of a script.
#[derive(Drop)]
pub(crate) struct Gates {
    gates: Vec<Gate>,
    // Whether nobody stands anywhere any more.
    are_gone: Arc<AtomicBool>,
}

impl Gates {
    /// All of them, shut, until the flag is set.
    pub(crate) fn new(alloc: Global, are_gone: Arc<AtomicBool>) -> Result<Gates, AllocError> {
        let mut gates = Vec::new(alloc);
        for _ in 0..GATES {
            gates.push(Gate {
                is_open: AtomicBool::new(false),
                reached: AtomicU64::new(0),
            })?;
        }
        Ok(Gates { gates, are_gone })
    }

    /// Opens or shuts one.
    pub(crate) fn set(&self, number: GateNo, is_open: bool) {
        if let Some(gate) = self.gates.get(number) {
            gate.is_open.store(is_open, Ordering::SeqCst);
        }
    }

    /// Opens all.
    pub(crate) fn open_all(&self) {
        for gate in self.gates.iter() {
            gate.is_open.store(true, Ordering::SeqCst);
        }
    }

    /// Shuts all, as if nobody had come to any.
    pub(crate) fn shut_all(&self) {
        for gate in self.gates.iter() {
            gate.is_open.store(false, Ordering::SeqCst);
            gate.reached.store(0, Ordering::SeqCst);
        }
    }

    /// How many came to one.
    pub(crate) fn reached(&self, number: GateNo) -> u64 {
        match self.gates.get(number) {
            Some(gate) => gate.reached.load(Ordering::SeqCst),
            None => 0,
        }
    }

    fn is_open(&self, number: GateNo) -> bool {
        match self.gates.get(number) {
            Some(gate) => {
                gate.is_open.load(Ordering::SeqCst) || self.are_gone.load(Ordering::SeqCst)
            }
            None => true,
        }
    }

    /// Opens a gate, and then waits at another until that is open, for some minutes.
    pub(crate) fn pass(&self, stop: Stop) {
        if let Some(number) = stop.opens {
            self.set(number, true);
        }
        let Some(number) = stop.at else {
            return;
        };
        if let Some(gate) = self.gates.get(number) {
            gate.reached.fetch_add(1, Ordering::SeqCst);
        }
        for _ in 0..400_000_000u64 {
            if self.is_open(number) {
                return;
            }
            thread::yield_now();
        }
    }
}
