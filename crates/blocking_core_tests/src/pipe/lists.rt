//! Lists of calls, drawn by a fixed seed, over each store: all show the same.
use super::bench::{Bench, Shown, Step, lending};
use crate::stop::stop;
use blocking_core::pipe::{CopyStore, FlatStore, RingStore};
use std::alloc::Global;

// How many lists are drawn for each capacity, and how many calls each has.
const LISTS: u64 = 2500;

const CALLS: usize = 24;

const CAPACITIES: &[usize] = &[1, 2, 3, 6, 7];

// Numbers that follow from a seed, each from the one before.
#[derive(Drop)]
struct Draws {
    state: u64,
}

impl Draws {
    // A number below `most`, which is at least 1. (by Marsaglia's xorshift)
    fn below(&mut self, most: u8) -> u8 {
        self.state ^= self.state << 13;
        self.state ^= self.state >> 7;
        self.state ^= self.state << 17;
        let number = self.state.checked_rem(u64::from(most)).unwrap_or(0);
        u8::try_from(number).unwrap_or(0)
    }

    // How many bytes, from 1 to 4.
    fn count(&mut self) -> usize {
        usize::from(self.below(4)).saturating_add(1)
    }

    // A call, which brings bytes from this one on. An end is closed seldom.
    fn step(&mut self, next: u8) -> Step {
        let job = u64::from(self.below(2)).saturating_add(1);
        let waker = self.below(3);
        match self.below(44) {
            0 => Step::CloseJob,
            1 => Step::CloseOwner,
            2 => Step::Unseat,
            3..8 => Step::Put(next, self.count()),
            8..12 => Step::PutPiece(next, self.count()),
            12..15 => Step::Send(job, next),
            15..18 => Step::Fill(waker, next, self.count()),
            18..22 => Step::FillReady(waker, next, self.count()),
            22..24 => Step::Room(job),
            24..27 => Step::Peek(job, self.count()),
            27..29 => Step::Consume(self.count()),
            29..32 => Step::Lend(job, self.count()),
            32..35 => Step::LetGo(self.count()),
            35..38 => Step::Drain(waker, self.count()),
            38..40 => Step::Fetch(waker, self.count()),
            40..42 => Step::LetGoFetched(self.count()),
            _ => Step::Receive(waker),
        }
    }
}

// How many bytes a step brought in, by what it shows. (all that a job offers goes in, or none)
fn brought(step: Step, shown: Shown) -> usize {
    match (shown, step) {
        (Shown::In(_), Step::Put(_, count) | Step::PutPiece(_, count)) => count,
        (Shown::In(_), Step::Send(_, _)) => 1,
        (Shown::Took(count, _, _), _) => count,
        _ => 0,
    }
}

// Whether both show the same in each call of a list that is drawn from this seed.
fn are_alike<A: CopyStore<u8>, B: CopyStore<u8>>(
    seed: u64,
    one: &mut Bench<A>,
    other: &mut Bench<B>,
) -> bool {
    let mut draws = Draws { state: seed };
    let mut next = b'a';
    for _ in 0..CALLS {
        let step = draws.step(next);
        let shown = one.take_step(step);
        if other.take_step(step) != shown {
            return false;
        }
        for count in [Step::Len, Step::Free, Step::Lent] {
            if one.take_step(count) != other.take_step(count) {
                return false;
            }
        }
        next = next.wrapping_add(u8::try_from(brought(step, shown)).unwrap_or(0));
    }
    true
}

// Whether both are there, and show the same.
fn both_are_alike<A: CopyStore<u8>, B: CopyStore<u8>>(
    seed: u64,
    one: Option<Bench<A>>,
    other: Option<Bench<B>>,
) -> bool {
    match one {
        Some(mut one) => match other {
            Some(mut other) => are_alike(seed, &mut one, &mut other),
            None => false,
        },
        None => false,
    }
}

// Whether pipes over all stores show the same. (pieces of two bytes go in and come out as they are)
fn all_are_alike(alloc: Global, seed: u64, capacity: usize) -> bool {
    let ring = Bench::<RingStore>::new(alloc, capacity);
    if !both_are_alike(seed, ring, Bench::<FlatStore>::new(alloc, capacity)) {
        return false;
    }
    let ring = Bench::<RingStore>::new(alloc, capacity);
    both_are_alike(seed, ring, lending(alloc, capacity, 2))
}

#[test]
fn all_stores_show_the_same(rt: HostRuntime) {
    for capacity in CAPACITIES {
        for list in 0..LISTS {
            let number = LISTS.wrapping_mul(*capacity as u64).wrapping_add(list);
            let seed = 0x9e37_79b9_7f4a_7c15u64.wrapping_mul(number.wrapping_add(1));
            if !all_are_alike(rt.alloc(), seed, *capacity) {
                stop(&rt, "a list of calls", list as usize);
            }
        }
    }
}
