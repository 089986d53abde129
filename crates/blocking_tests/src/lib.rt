//! The typed tests of `blocking` and `blocking_anytime`, most of them on real threads; and those of `blk`'s commands. There is nothing here
//! but tests, since a crate that has tests is proved a second time with them. What a script can say of threads, the stored scripts of
//! `blk_play` say.
#![tactic(auto)]

#[cfg(test)]
mod claims;
#[cfg(test)]
mod commands;
#[cfg(test)]
mod copier;
#[cfg(test)]
mod copies;
#[cfg(test)]
mod counted;
#[cfg(test)]
mod cut;
#[cfg(test)]
mod endless;
#[cfg(test)]
mod ends;
#[cfg(test)]
mod handle;
#[cfg(test)]
mod kinds;
#[cfg(test)]
mod leaving;
#[cfg(test)]
mod log;
#[cfg(test)]
mod mixed;
#[cfg(test)]
mod nothing;
#[cfg(test)]
mod owners;
#[cfg(test)]
mod pairs;
#[cfg(test)]
mod planned;
#[cfg(test)]
mod programs;
#[cfg(test)]
mod scene;
#[cfg(test)]
mod seated;
#[cfg(test)]
mod sections;
#[cfg(test)]
mod tasks;
#[cfg(test)]
mod threads;
#[cfg(test)]
mod twice;
#[cfg(test)]
mod visit;
#[cfg(test)]
mod walker;
