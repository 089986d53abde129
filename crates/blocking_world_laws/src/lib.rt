//! What is seen when owners, tasks and workers take steps over one pool, one step at a time. There are the steps, their
//! events, and the laws that a trace of them keeps.
//!
//! The laws are definitions over what was seen, in `specs`. docs/LAWS.md reads them aloud. `blocking_world_law_tests` has, for each law,
//! short traces that it accepts and short traces that it refuses, as theorems; [`laws`] has those that machines cite.
#![tactic(auto)]

pub mod bytes;
pub mod event;
pub mod laws;
pub mod step;
mod text;

pub use event::{Act, CopySide, Event, HolderWaker, Moment, Party, Reply, WaitEnd};
pub use step::{HandleAnswer, HandleCall, Step, TaskCall};
