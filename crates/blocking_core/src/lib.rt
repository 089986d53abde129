//! The pure core of a thread pool for blocking calls: no thread, no lock, no clock.
#![tactic(auto)]

pub mod copy;
pub mod io;
pub mod job;
pub mod pipe;
pub mod task;
pub mod unblock;

pub use blocking_pool::{limit, pool};
