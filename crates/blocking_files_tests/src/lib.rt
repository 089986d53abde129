//! The tests of `blocking_files`, on real files. There is nothing here but tests, since a crate that has tests is proved a second time with
//! them.
#![tactic(auto)]

#[cfg(test)]
mod copies;
#[cfg(test)]
mod example;
#[cfg(test)]
mod folder;
#[cfg(test)]
mod open_files;
#[cfg(test)]
mod paths;
