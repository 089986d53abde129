//! Owners, their sessions and the jobs that were lent their handles.

pub mod ends;
pub mod item;
pub mod jobs;
pub mod legality;
pub mod op;
pub mod places;
pub mod polls;
pub mod seats;
pub mod seek;
pub mod steps;
pub mod taking_back;
pub mod wakes;
pub mod write;
