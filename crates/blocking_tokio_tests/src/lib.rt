//! The tests of `blocking_tokio`: lent handles that the kit's `tokio` and `tokio_util` read and write, on real threads. There is nothing
//! here but tests, since a crate that has tests is proved a second time with them.
#![tactic(auto)]

#[cfg(test)]
mod copies;
#[cfg(test)]
mod files;
#[cfg(test)]
mod frames;
#[cfg(test)]
mod from_tokio;
#[cfg(test)]
mod lines;
#[cfg(test)]
mod shutdown;
#[cfg(test)]
mod streams;
