//! Theorems about the laws of `blocking_world_laws`, each the contract of a function that does nothing.
//!
//! For each law there is a function. A clause `accepts_..` names a short trace that is legal; where a job in it waits for a
//! wake, which no call does, the trace keeps the pool's law. A clause `refuses_..` names a moment that this very law refuses,
//! after a past that it accepts. (The pasts of the clauses `refuses_untold_job` it refuses already, since a parked job wasn't told;
//! their moment is the wait of its owner. The past of `refuses_task_of_workers_job` in [`steps::numbers_of_tasks`] it refuses too, since a
//! worker's job accepts none.) Above each clause stand the texts of the trace's events. The pasts that several clauses
//! share are in `blocking_world_laws/specs/Traces.antt`, and those with owners in `OwnerTraces.antt`; [`owners`] has the laws of owners.
//! [`legality::refusals`] says that what one law refuses is in no legal trace. [`room`] alone is about no law: it says by the contracts of the
//! pool's calls how many jobs of a client run.
#![tactic(auto)]

pub mod answers;
pub mod copies;
pub mod definitions;
pub mod growth;
pub mod legality;
pub mod owners;
pub mod room;
pub mod steps;
pub mod tasks;
pub mod turns;
