//! How a lock is taken whose sections are short.
ghost use Rattle.std.specs.Prelude.{true};
ghost use Rattle.std.specs.Fn.{FnReturnsAt};

use std::hint::spin_loop;
use std::sync::{Mutex, MutexGuard, Wait};
use std::thread::yield_now;

// How often a lock is tried before a thread sleeps for it. The pause after each try is twice the one before.
const TRIES: u32 = 6;

/// Takes the lock. A section is mostly over sooner than a thread that sleeps for the lock is awake again, so the lock is tried for a
/// while before.
pub fn enter<'a, T, H: Wait>(lock: &'a Mutex<T>, rt: &H) -> MutexGuard<'a, T> {
    for turn in 0..TRIES {
        if let Some(held) = lock.try_lock() {
            return held;
        }
        pause(1u32 << turn);
    }
    yield_now();
    lock.lock(rt)
}

/// Takes the lock where what it holds agrees with what its caller knows of it; else lets go and tries again. A lock says nothing of what it
/// held before. So who shares it with one other side alone asks by a count of its own, which for the pair that was made always agrees.
pub fn enter_where<'a, T, H: Wait, F: Fn(&T) -> bool>(
    lock: &'a Mutex<T>,
    rt: &H,
    agrees: F,
) -> MutexGuard<'a, T>
    requires { F.IsAlwaysCallable agrees }
    ensures { FnReturnsAt F.Fn agrees result.value true }
{
    for _ in rt.forever() {
        let held = enter(lock, rt);
        if agrees(&held) {
            return held;
        }
    }
    unreachable!()
}

fn pause(turns: u32) {
    for _ in 0..turns {
        spin_loop();
    }
}
