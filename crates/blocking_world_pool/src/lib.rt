//! The crew of a world: the pool of its jobs, and its workers by their numbers with what each has in its hand.
//!
//! A job stands here as a [`Ticket`], a mark and nothing else: what it is for, the layer above knows by its serial. Each kind of step of
//! the pool is one call of [`Crew`], and answers what is seen of it.
#![tactic(auto)]

mod crew;
mod hand;
pub mod invariants;
mod starts;
mod ticket;
mod tickets;
mod workers;

pub use crew::{Added, Crew, InHand};
pub use hand::{Hand, JobInHand, TurnStage};
pub use starts::{NoStarts, PlannedStarts};
pub use ticket::Ticket;
pub use tickets::Parking;
