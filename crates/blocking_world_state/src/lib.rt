//! The parts of a world with owners: a crew, what each of its jobs is for, the tasks that own calls, and the owners who lend handles. A
//! step of any of them is one call, and each step is one move.
//!
//! The crew knows a job by its serial alone; what it is for stands here, in a row. Nothing here remembers what was seen: that it is legal is
//! for whoever keeps it.
#![tactic(auto)]

pub mod invariants;
mod parts;
mod row;

pub use parts::Parts;
