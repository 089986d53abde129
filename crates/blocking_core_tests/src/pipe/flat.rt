//! Bytes in one `Vec`: where the first one stands, and how many are inside.
use super::bench::Shown::{Got, In, Sees};
use super::bench::Step::{Drain, Peek, Put};
use super::bench::{Bench, Line};
use crate::stop::stop;
use blocking_core::pipe::{BytePipe, FlatStore, Pipe};
use std::alloc::Global;

// Capacity 3: what a call shows, and then where the first byte stands, and how many are inside.
const ROUND_THE_END: &[(Line, usize, usize)] = &[
    ((Put(b'a', 3), In(None)), 0, 3),
    ((Drain(7, 2), Got(b'a', 2, None, Some(7))), 2, 1),
    ((Put(b'd', 2), In(None)), 2, 3),
    ((Peek(1, 3), Sees(b'c', 3)), 2, 3),
    ((Drain(7, 3), Got(b'c', 3, None, Some(7))), 2, 0),
    ((Put(b'f', 1), In(None)), 2, 1),
    ((Drain(7, 1), Got(b'f', 1, None, Some(7))), 0, 0),
];

// The place of the first line that shows something else: the end, where there was no memory for the bench.
fn first_wrong(alloc: Global, lines: &[(Line, usize, usize)]) -> Option<usize> {
    let Some(mut bench) = Bench::<FlatStore>::new(alloc, 3) else {
        return Some(lines.len());
    };
    for (place, ((step, wanted), head, len)) in lines.iter().enumerate() {
        let shown = bench.take_step(*step);
        if shown != *wanted || bench.pipe.memory().head() != *head || bench.pipe.len() != *len {
            return Some(place);
        }
    }
    None
}

#[test]
fn bytes_go_round_the_end_of_the_memory(rt: HostRuntime) {
    if let Some(line) = first_wrong(rt.alloc(), ROUND_THE_END) {
        stop(&rt, "capacity 3", line);
    }
}

// Whether memory for so many bytes can be had.
fn is_had(alloc: Global, capacity: usize) -> bool {
    let pipe: Option<BytePipe<u8>> = match capacity {
        0 => None,
        _ => Pipe::new(alloc, capacity).ok(),
    };
    pipe.is_some()
}

// The greatest capacity for which there is memory, between one that is had and one that isn't.
fn greatest(alloc: Global) -> usize {
    let mut had = 1usize;
    let mut refused = usize::MAX;
    for _ in 0..64 {
        let between = had.saturating_add(refused.saturating_sub(had) / 2);
        if is_had(alloc, between) {
            had = between;
        } else {
            refused = between;
        }
    }
    had
}

#[test]
fn each_capacity_whose_bytes_can_be_had_is_served(rt: HostRuntime) {
    let name = "the greatest capacity";
    let most = greatest(rt.alloc());
    if is_had(rt.alloc(), most.saturating_add(1)) {
        stop(&rt, name, 0);
    }
    let Some(mut bench) = Bench::<FlatStore>::new(rt.alloc(), most) else {
        stop(&rt, name, 1)
    };
    let lines = [
        (Put(b'a', 7), In(None)),
        (Drain(7, 4), Got(b'a', 4, None, Some(7))),
        (Peek(1, 7), Sees(b'e', 3)),
    ];
    if bench.first_wrong(&lines).is_some() || bench.pipe.room() != most.saturating_sub(3) {
        stop(&rt, name, 2);
    }
}
