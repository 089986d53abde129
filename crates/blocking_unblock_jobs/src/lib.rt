//! The jobs to which a handle is lent, each with the pipe that it feeds or empties, and the way on which the handle comes back.
//!
//! A job type that carries one of these (`Carries`) has to step it, to answer for its mark, and to drop it as it is itself. Its owner counts
//! on that: one whose job is dropped unmarked may wait without end. `Jobs` of `blocking` is such a type.
#![tactic(auto)]

mod flush;
mod item_job;
mod op_job;
mod read_job;
mod seek_job;
mod share;
mod write_job;

pub use item_job::ItemJob;
pub use op_job::{OpJob, ResultPlace, ResultSeat};
pub use read_job::{ReadBack, ReadJob};
pub use seek_job::SeekJob;
pub use share::{MayFail, Returned, SessionShare, SessionStore, Sought, WayBack, new_share};
pub use write_job::{WriteBack, WriteJob};
