//! What is proved of the laws in this crate, each the contract of a function that does nothing. The machines cite [`legality`];
//! [`readings`] refuses the wrong readings of a definition that edits try. All else that is proved of them stands in
//! `blocking_world_law_tests`.

pub mod legality;
pub mod readings;
