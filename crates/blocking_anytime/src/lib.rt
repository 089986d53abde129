//! What may be polled at any time: an owner that is never closed, and a call whose answer may have been given.
//!
//! No future tells whoever awaits it what it left behind a reference: `block_on` promises what came of it alone. So what holds between two
//! calls has to be said by a type.
#![tactic(auto)]

mod call_set;
mod close;
mod fused_task;
mod open;

pub use call_set::CallSet;
pub use fused_task::FusedTask;
pub use open::{Open, OpenItems, OpenReader, OpenWriter};
