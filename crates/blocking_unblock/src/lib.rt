//! Readers, writers, iterators, seekers and whatever is operated on, which are lent to a pool and asked by polls.
#![tactic(auto)]

mod handle_state;
mod lend;
mod new_session;
mod session;
mod spare;
mod take_back;
mod unblock;
mod with_mut;

pub use take_back::IntoInner;
pub use unblock::Unblock;
pub use with_mut::WithMut;
