//! The holders of a world. A task has the slot in which it meets the job of its call. An owner has the pipe, the place of a result
//! and the slot in which it meets the job that works for it. Each says how far those jobs are.
//!
//! A holder knows no pool, no worker and no other holder. What was seen of it is its cut, and by its cut alone it keeps its laws.
//! [`Task`] and [`Owner`] say what each act does, and [`invariants`] that their laws hold after it.
#![tactic(auto)]

mod call;
pub mod invariants;
mod item;
mod job;
mod op;
mod owner;
mod passage;
mod read;
mod seek;
mod session;
mod task;
mod write;

pub use call::CallProgress;
pub use item::ItemProgress;
pub use job::SessionJob;
pub use op::OpProgress;
pub use owner::{Owner, OwnerNext};
pub use passage::Passage;
pub use read::ReadProgress;
pub use seek::SeekProgress;
pub use task::{Task, TaskStage};
pub use write::WriteProgress;
