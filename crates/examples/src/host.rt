//! What the examples need of the system.
use std::alloc::AllocGlobal;
use std::random::RandomSource;
use std::sync::Wait;
use std::thread::Threads;
use std::time::Clock;

/// The handles of an example: its calls run on threads and are awaited, and it prints.
pub(crate) trait Host: Threads
    + Wait
    + Clock
    + AllocGlobal
    + RandomSource
    + Print
    + Copy
    + Send
    + Sync
    + 'static {}

impl<
    R: Threads + Wait + Clock + AllocGlobal + RandomSource + Print + Copy + Send + Sync + 'static,
> Host for R {}
