//! Locks whose sections are short: how they are taken, and the slot under one, by which an owner and its job pass a value on.
#![tactic(auto)]

mod entry;
mod slot;

pub use entry::{enter, enter_where};
pub use slot::{AnyOf, KeptAnswer, Left, LockedSlot, OwnerWaker};
