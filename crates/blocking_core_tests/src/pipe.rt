//! The worked rows of the pipe.
mod bench;
mod fetching;
mod flat;
mod lending;
mod lent;
mod lists;

use self::bench::Shown::{
    Are, Due, Found, Got, In, Item, Lost, Over, Parked, Sees, SeesNone, Shut, Took, Waits, Waker,
};
use self::bench::Step::{
    CloseJob, CloseOwner, Consume, Drain, Fill, Free, Len, Peek, Put, Receive, Send, Unseat,
};
use self::bench::{Bench, Line, Row, Step, play_over, play_pieces};
use crate::stop::stop;
use blocking_core::pipe::{
    Answered, BytePipe, DEFAULT_BYTES, DEFAULT_ITEMS, FlatStore, ItemPipe, LendingStore, Peeked,
    Pipe, Received, RingStore, Room, Sending,
};
use blocking_core::pool::JobNo;
use std::alloc::AllocError;

const BYTES: &[Row] = &[
    Row {
        name: "four bytes are drained by two",
        capacity: 4,
        steps: &[
            (Put(b'a', 4), In(None)),
            (Step::Room(1), Found(Room::Parked)),
            (Drain(7, 2), Got(b'a', 2, Some(1), Some(7))),
            (Drain(7, 2), Got(b'c', 2, None, Some(7))),
            (Drain(7, 2), Waits(None)),
            (Put(b'e', 1), In(Some(7))),
            (CloseOwner, Due(None)),
            (Put(b'f', 1), Lost),
            (Step::Room(1), Found(Room::Shut)),
            (Len, Are(1)),
        ],
    },
    Row {
        name: "three bytes are filled into two",
        capacity: 2,
        steps: &[
            (Peek(1, 2), SeesNone(Peeked::Parked)),
            (Fill(7, b'x', 3), Took(2, Some(1), Some(7))),
            (Fill(7, b'z', 1), Waits(None)),
            (CloseJob, Waker(Some(7))),
            (Fill(8, b'z', 1), Over(Some(8))),
        ],
    },
    Row {
        name: "a pipe that its owner closed is peeked empty",
        capacity: 2,
        steps: &[
            (Put(b'p', 2), In(None)),
            (CloseOwner, Due(None)),
            (Peek(1, 1), Sees(b'p', 1)),
            (Consume(1), Waker(None)),
            (Consume(1), Waker(None)),
            (Peek(1, 1), SeesNone(Peeked::Drained)),
        ],
    },
    Row {
        name: "a pipe that its job closed is drained empty",
        capacity: 2,
        steps: &[
            (Put(b'p', 2), In(None)),
            (CloseJob, Waker(None)),
            (Drain(7, 4), Got(b'p', 2, None, Some(7))),
            (Drain(7, 4), Over(Some(7))),
        ],
    },
];

const ITEMS: &[Row] = &[
    Row {
        name: "one item passes at a time",
        capacity: 1,
        steps: &[
            (Receive(1), Waits(None)),
            (Receive(2), Waits(Some(1))),
            (Unseat, Waker(Some(2))),
            (Unseat, Waker(None)),
            (Receive(3), Waits(None)),
            (Send(5, 10), In(Some(3))),
            (Send(5, 11), Parked(11)),
            (Send(6, 11), Parked(11)),
            (Receive(4), Item(10, Some(6), Some(4))),
            (Send(5, 11), In(None)),
            (CloseJob, Waker(None)),
            (Receive(4), Item(11, None, Some(4))),
            (Receive(4), Over(Some(4))),
            (CloseOwner, Due(None)),
            (Send(5, 12), Shut(12)),
        ],
    },
    Row {
        name: "the close of the owner's end hands out the job",
        capacity: 1,
        steps: &[
            (Send(5, 10), In(None)),
            (Step::Room(5), Found(Room::Parked)),
            (CloseOwner, Due(Some(5))),
            (CloseOwner, Due(None)),
        ],
    },
];

// All calls that take no memory. Once the bench stands, `rt try --test --fail-alloc N` finds no further piece to refuse.
const ONE_PIECE: &[Row] = &[Row {
    name: "one piece of memory",
    capacity: 2,
    steps: &[
        (Step::Room(1), Found(Room::Free(2))),
        (Put(b'a', 1), In(None)),
        (Send(1, b'b'), In(None)),
        (Send(1, b'c'), Parked(b'c')),
        (Peek(1, 2), Sees(b'a', 2)),
        (Consume(1), Waker(None)),
        (Drain(7, 2), Got(b'b', 1, Some(1), Some(7))),
        (Fill(7, b'd', 3), Took(2, None, Some(7))),
        (Len, Are(2)),
        (Free, Are(0)),
        (Fill(7, b'f', 1), Waits(None)),
        (Unseat, Waker(Some(7))),
        (Receive(7), Item(b'd', None, Some(7))),
        (CloseOwner, Due(None)),
        (CloseJob, Waker(None)),
    ],
}];

const EIGHT_MEBIBYTES: &[Row] = &[Row {
    name: "a pipe of bytes where nobody says how many",
    capacity: DEFAULT_BYTES,
    steps: &[
        (Step::Room(1), Found(Room::Free(8_388_608))),
        (Put(b'a', 3), In(None)),
        (Step::Room(1), Found(Room::Free(8_388_605))),
    ],
}];

#[test]
fn pipe_takes_one_piece_of_memory(rt: HostRuntime) {
    play_over::<FlatStore, HostRuntime>(&rt, ONE_PIECE);
}

// (nor is there one to refuse here)
#[test]
fn lending_pipe_takes_its_memory_at_once(rt: HostRuntime) {
    play_pieces(&rt, lending::ALONE);
}

#[test]
fn rows_are_shown(rt: HostRuntime) {
    for rows in [BYTES, ITEMS, lent::LOANS] {
        play_over::<RingStore, HostRuntime>(&rt, rows);
        play_over::<FlatStore, HostRuntime>(&rt, rows);
        play_over::<LendingStore, HostRuntime>(&rt, rows);
    }
    play_over::<FlatStore, HostRuntime>(&rt, EIGHT_MEBIBYTES);
    play_pieces(&rt, lending::ROWS);
    play_pieces(&rt, fetching::ROWS);
}

// The first two rounds: from then on four bytes are inside before each.
const FIRST_ROUNDS: &[Line] = &[
    (Fill(1, 0, 5), Took(5, None, Some(1))),
    (Len, Are(5)),
    (Peek(1, 7), Sees(0, 5)),
    (Drain(1, 3), Got(0, 3, None, Some(1))),
    (Fill(1, 5, 5), Took(5, None, Some(1))),
    (Len, Are(7)),
    (Peek(1, 7), Sees(3, 7)),
    (Drain(1, 3), Got(3, 3, None, Some(1))),
];

// A round that finds four bytes inside, from this one on.
fn later_round(next: u8) -> [Line; 4] {
    [
        (Fill(1, next.wrapping_add(4), 5), Took(3, None, Some(1))),
        (Len, Are(7)),
        (Peek(1, 7), Sees(next, 7)),
        (Drain(1, 3), Got(next, 3, None, Some(1))),
    ]
}

// Bytes go round a ring of seven by fives and threes, so that both halves of a cut piece are met on every side.
#[test]
fn bytes_come_out_in_order_round_the_ring(rt: HostRuntime) {
    let Some(mut bench) = Bench::<FlatStore>::new(rt.alloc(), 7) else {
        stop(&rt, "no memory", 0)
    };
    if let Some(line) = bench.first_wrong(FIRST_ROUNDS) {
        stop(&rt, "the first rounds", line);
    }
    for round in 2..40u8 {
        if let Some(line) = bench.first_wrong(&later_round(round.wrapping_mul(3))) {
            stop(&rt, "a later round", line);
        }
    }
}

// Whether the job can send that many items.
fn takes_all(pipe: &mut ItemPipe<u32, u8>, job: JobNo, count: u32) -> bool {
    for item in 0..count {
        if !matches!(pipe.send(job, item), Sending::Sent(None)) {
            return false;
        }
    }
    true
}

// The item that is received, the serial of the job that is due then, and the waker that is left over.
fn received(
    bench: &mut Bench<FlatStore>,
    pipe: &mut ItemPipe<u32, u8>,
) -> Option<(u32, Option<u64>, Option<u8>)> {
    let Answered { answer, spare } = pipe.receive_or_seat(1);
    match answer {
        Received::Got(item, note) => Some((item, bench.spend(note), spare)),
        Received::Ended | Received::Waits(_) => None,
    }
}

#[test]
fn default_pipe_of_items_is_full_at_8192(rt: HostRuntime) {
    let name = "a pipe of items where nobody says how many";
    let Some(mut bench) = Bench::<FlatStore>::new(rt.alloc(), 1) else {
        stop(&rt, name, 0)
    };
    let (Some(job), Ok(mut pipe)) = (bench.job(1), Pipe::new(rt.alloc(), DEFAULT_ITEMS)) else {
        stop(&rt, name, 0)
    };
    if !takes_all(&mut pipe, job, 8192) || pipe.send(job, 8192) != Sending::Parked(8192) {
        stop(&rt, name, 1);
    }
    if received(&mut bench, &mut pipe) != Some((0, Some(1), Some(1))) {
        stop(&rt, name, 2);
    }
}

#[test]
fn greatest_capacity_is_refused(rt: HostRuntime) {
    let bytes: Result<BytePipe<u8>, AllocError> = Pipe::new(rt.alloc(), usize::MAX);
    let items: Result<ItemPipe<u32, u8>, AllocError> = Pipe::new(rt.alloc(), usize::MAX);
    if bytes.is_ok() || items.is_ok() {
        stop(&rt, "the greatest capacity", 0);
    }
}
