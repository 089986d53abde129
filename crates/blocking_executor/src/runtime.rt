//! What polls, workers and a pool need of the system.
use std::alloc::AllocGlobal;
use std::random::RandomSource;
use std::sync::Wait;
use std::thread::Threads;
use std::time::Clock;

/// The handles that polls and workers need: to lock, to wait for a time and to allocate.
///
/// What is generic over these alone goes by an executor that somebody else has made:
///
/// ```rust
/// fn is_idle<J: Job, H: Runtime>(executor: &Executor<J, H>) -> bool {
///     let counts = executor.counts();
///     counts.running == 0 && counts.queued == 0
/// }
/// ```
pub trait Runtime: Wait + Clock + AllocGlobal + Copy {}

impl<R: Wait + Clock + AllocGlobal + Copy> Runtime for R {}

/// The handles of who makes a pool of its own and awaits its calls: a [`Runtime`] that also starts threads and that
/// `block_on` takes.
///
/// ```rust
/// fn doubled<H: Host>(rt: &H, executor: &Executor<CallJob<Double, H>, H>) -> io::Result<u64> {
///     block_on(rt, unblock(executor, Double(21))?)
/// }
/// ```
pub trait Host: Runtime + Threads + RandomSource + Send + Sync + 'static {}

impl<R: Runtime + Threads + RandomSource + Send + Sync + 'static> Host for R {}
