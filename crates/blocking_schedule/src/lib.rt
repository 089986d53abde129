//! The threads of an executor as a machine of atomic steps, without threads: what each does between two sections under a lock.
//!
//! A step is one atomic act of a thread, or one section under the pool's lock. docs/SCHEDULE.md reads the machine and its theorems
//! aloud. The code of the threads names the step at each place where it takes one: in `blocking_executor`, `blocking_sync`,
//! `blocking_ends`, `blocking_unblock` and `blocking_unblock_jobs`.
#![tactic(auto)]

mod counts;
mod place;
mod schedule;
mod seat;
mod step;
mod stream;

pub use counts::PoolCounts;
pub use place::{Next, Origin, Place, Waking};
pub use schedule::Schedule;
pub use seat::{Act, Meeting, Polling};
pub use step::{Lock, Step};
pub use stream::{JobPlace, OwnerPlace, ReceiveAnswer, Ring, SendAnswer, StreamStep};
