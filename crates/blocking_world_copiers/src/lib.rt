//! The parts of a world and the copiers over its owners: each reads one owner and writes another, by polls alone.
//!
//! A copier decides by the core of a copy, and asks an owner as anybody may. It hears what its owners hear: the bytes that the reader
//! got, and each reply. Nothing here remembers what was seen: that it is legal is for whoever keeps it.
#![tactic(auto)]

mod assembly;
mod copier;
pub mod invariants;

pub use assembly::Assembly;
