//! Tests of the pool, the core, the threads' machine and worlds, as far as no script of steps can show them: which calls are made, and what
//! each has to answer. There is nothing here but tests, since a crate that has tests is proved a second time with them.
#![tactic(auto)]

#[cfg(test)]
mod calls;
#[cfg(test)]
mod cores;
#[cfg(test)]
mod cut;
#[cfg(test)]
mod faults;
#[cfg(test)]
mod left;
#[cfg(test)]
mod limit;
#[cfg(test)]
mod memory;
#[cfg(test)]
mod pipe;
#[cfg(test)]
mod pool;
#[cfg(test)]
mod row;
#[cfg(test)]
mod schedule;
#[cfg(test)]
mod seat;
#[cfg(test)]
mod slot;
#[cfg(test)]
mod stop;
#[cfg(test)]
mod stream;
#[cfg(test)]
mod texts;
