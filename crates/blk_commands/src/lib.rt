//! The commands of the program `blk`, over a reader and two writers.
#![tactic(auto)]

mod bytes;
mod call;
pub mod command;
pub mod copy;
pub mod fault;
pub mod instruction;
pub mod line;
mod number;
mod position;
mod request;
pub mod script;
mod steps;
mod tell;
pub mod words;
