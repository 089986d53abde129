//! The pool of a thread pool for blocking calls: its limit, its queue, its counts and its bell. Users name these modules as
//! `blocking_core::limit` and `blocking_core::pool`.
#![tactic(auto)]

pub mod limit;
pub mod pool;
