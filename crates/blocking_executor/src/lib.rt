//! Threads that run blocking calls: the pure core of `blocking_core` under locks.
#![tactic(auto)]

mod counts;
mod desk;
pub mod executor;
mod held;
pub mod job;
mod lookout;
mod runtime;
mod slot;
pub mod task;

pub use counts::Counts;
pub use desk::ThreadStarter;
pub use executor::{Executor, set_client_limit, set_max_blocking_threads};
pub use held::{Added, Ended, Held};
pub use job::CallJob;
pub use runtime::{Host, Runtime};
pub use task::{Cancel, Task, unblock, unblock_for};
