//! Jobs that wait and are woken, are cancelled, or are lent.
use super::step::Count::{Idle, Queued, Workers};
use super::step::Deed::{Cancel, Renumber, Wake};
use super::step::Ending::{Done, Dropped, Waiting};
use super::step::Shown::{Accepted, Are, Arrived, Drops, Free, Lent, Rang, Runs, Woke};
use super::step::Step::{Add, Arrive, Ask, Job, Ring, Worker};
use super::step::Work::{End, Take};
use super::step::{LIMIT_1, READY, Row};
use blocking_core::pool::BellKind::{All, One, Silent};
use blocking_core::pool::Woke::{Entered, Marked, Nothing};

pub(super) const ROWS: &[Row] = &[
    Row {
        name: "a job that is woken while it runs goes back",
        pool: LIMIT_1,
        begin: &[],
        steps: &[
            (Add(1), Accepted(1)),
            (Arrive, Arrived(1)),
            (Worker(1, Take), Runs(1)),
            (Add(2), Accepted(2)),
            (Job(1, Wake), Woke(Marked)),
            (Job(1, Wake), Woke(Marked)),
            (Ring, Rang(All)),
            (Worker(1, End(Waiting)), Free),
            (Ring, Rang(One)),
            (Ask(Queued), Are(2)),
            (Ask(Workers), Are(1)),
            (Worker(1, Take), Runs(2)),
            (Worker(1, End(Done)), Free),
            (Worker(1, Take), Runs(1)),
            // (the wake was for the turn before)
            (Worker(1, End(Waiting)), Free),
            (Ask(Queued), Are(0)),
        ],
        starts: &[1],
    },
    Row {
        name: "a wake of a queued or a finished job does nothing",
        pool: LIMIT_1,
        begin: &READY,
        steps: &[
            (Add(1), Accepted(2)),
            (Job(2, Wake), Woke(Nothing)),
            (Job(2, Wake), Woke(Nothing)),
            (Ask(Queued), Are(1)),
            (Worker(1, Take), Runs(1)),
            (Worker(1, End(Done)), Free),
            (Ring, Rang(One)),
            (Job(2, Wake), Woke(Nothing)),
            (Ask(Queued), Are(0)),
            (Ring, Rang(Silent)),
        ],
        starts: &[1],
    },
    Row {
        name: "a parked job is woken",
        pool: LIMIT_1,
        begin: &READY,
        steps: &[
            (Add(1), Accepted(2)),
            (Worker(1, Take), Runs(1)),
            (Worker(1, End(Waiting)), Free),
            (Ask(Queued), Are(0)),
            (Ring, Rang(One)),
            (Job(2, Wake), Woke(Entered)),
            (Ask(Queued), Are(1)),
            (Ring, Rang(One)),
            (Worker(1, Take), Runs(1)),
        ],
        starts: &[1],
    },
    Row {
        name: "a parked job is cancelled",
        pool: LIMIT_1,
        begin: &READY,
        steps: &[
            (Add(1), Accepted(2)),
            (Worker(1, Take), Runs(1)),
            (Worker(1, End(Waiting)), Free),
            (Job(2, Cancel), Woke(Entered)),
            (Ask(Queued), Are(1)),
            (Worker(1, Take), Drops(1)),
            (Ask(Idle), Are(0)),
            (Worker(1, End(Dropped)), Free),
            (Ask(Queued), Are(0)),
            (Ask(Idle), Are(1)),
            (Job(2, Cancel), Woke(Nothing)),
        ],
        starts: &[1],
    },
    Row {
        name: "a queued job is cancelled",
        pool: LIMIT_1,
        begin: &READY,
        steps: &[
            (Add(1), Accepted(2)),
            (Job(2, Cancel), Woke(Marked)),
            (Worker(1, Take), Drops(1)),
        ],
        starts: &[1],
    },
    Row {
        name: "a running job is cancelled",
        pool: LIMIT_1,
        begin: &READY,
        steps: &[
            (Add(1), Accepted(2)),
            (Worker(1, Take), Runs(1)),
            (Job(2, Cancel), Woke(Marked)),
            (Worker(1, End(Waiting)), Drops(1)),
            (Worker(1, End(Dropped)), Free),
        ],
        starts: &[1],
    },
    Row {
        name: "a value is lent while its job is queued or parked",
        pool: LIMIT_1,
        begin: &READY,
        steps: &[
            (Add(1), Accepted(2)),
            (Job(2, Renumber(2)), Lent(true)),
            (Worker(1, Take), Runs(2)),
            (Job(2, Renumber(3)), Lent(false)),
            (Worker(1, End(Waiting)), Free),
            (Job(2, Renumber(4)), Lent(true)),
            (Job(2, Wake), Woke(Entered)),
            (Worker(1, Take), Runs(4)),
            (Worker(1, End(Done)), Free),
            (Job(2, Renumber(5)), Lent(false)),
        ],
        starts: &[1],
    },
];
