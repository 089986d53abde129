//! What is read and written by this library's polls, as what the kit's `tokio` reads and writes, and the other way round.
//!
//! Over a [`CompatReader`] the kit's `BufReader`, `lines`, `copy` and codecs read a handle that is lent to a pool, and over a
//! [`CompatWriter`] they write one. A [`FromTokio`] is a socket, a pipe or a text of the kit's as a reader or writer of this library, as for
//! a `Copier`.
#![tactic(auto)]

mod compat_reader;
mod compat_writer;
mod errors;
mod from_tokio;

pub use compat_reader::CompatReader;
pub use compat_writer::CompatWriter;
pub use from_tokio::FromTokio;
