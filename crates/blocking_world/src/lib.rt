//! A world: a pool with its workers, the tasks that own calls, and the owners who lend handles. It takes any list of steps, one at a time,
//! and keeps what was seen.
//!
//! The parts of a world stand in `blocking_world_state`, where each step is one move. That what was seen is legal, by the laws of
//! `blocking_world_laws`, is the invariant of the type [`World`].
#![tactic(auto)]

mod copies;
mod cuts;
mod world;

pub use blocking_world_laws::bytes::Bytes;
pub use blocking_world_laws::{
    Act, Event, HandleAnswer, HandleCall, HolderWaker, Moment, Party, Reply, Step, TaskCall,
    WaitEnd,
};
pub use cuts::cut;
pub use world::{World, run};
