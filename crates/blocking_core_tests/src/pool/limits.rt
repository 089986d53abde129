//! The limit, idle workers that stop, and whom the bell rings.
use super::step::Count::{Idle, Queued, Workers};
use super::step::Ending::Done;
use super::step::Shown::{
    Accepted, Are, Arrived, Free, LimitIs, NoAnswer, Rang, Runs, Stays, Stops,
};
use super::step::Step::{Add, Arrive, Ask, Limit, Ring, SetLimit, Worker};
use super::step::Until::{Notified, TimedOut};
use super::step::Work::{End, Take, Wait};
use super::step::{LIMIT_4, NEW, Row};
use blocking_core::pool::BellKind::{All, One, Silent};

pub(super) const ROWS: &[Row] = &[
    Row {
        name: "three of four idle workers stop beside a queued job",
        pool: LIMIT_4,
        begin: &[],
        steps: &[
            (Add(1), Accepted(1)),
            (Arrive, Arrived(1)),
            (Worker(1, Take), Runs(1)),
            (Add(2), Accepted(2)),
            (Arrive, Arrived(2)),
            (Worker(2, Take), Runs(2)),
            (Add(3), Accepted(3)),
            (Arrive, Arrived(3)),
            (Worker(3, Take), Runs(3)),
            (Add(4), Accepted(4)),
            (Arrive, Arrived(4)),
            (Worker(4, Take), Runs(4)),
            (Worker(1, End(Done)), Free),
            (Worker(2, End(Done)), Free),
            (Worker(3, End(Done)), Free),
            (Worker(4, End(Done)), Free),
            (Add(5), Accepted(5)),
            (Ask(Workers), Are(4)),
            (Ask(Idle), Are(4)),
            (Ask(Queued), Are(1)),
            (Ring, Rang(All)),
            (SetLimit(1), NoAnswer),
            (Ring, Rang(All)),
            (Worker(1, Wait(Notified)), Stops),
            (Ring, Rang(One)),
            (Worker(2, Wait(Notified)), Stops),
            (Ring, Rang(One)),
            (Worker(3, Wait(Notified)), Stops),
            (Ring, Rang(One)),
            (Worker(4, Wait(Notified)), Stays),
            (Ring, Rang(Silent)),
            (Worker(4, Take), Runs(5)),
            (Ask(Workers), Are(1)),
        ],
        starts: &[1, 2, 3, 4],
    },
    Row {
        name: "a limit that is set before the first job",
        pool: LIMIT_4,
        begin: &[],
        steps: &[
            (SetLimit(3), NoAnswer),
            (Ring, Rang(Silent)),
            (Limit, LimitIs(Some(3))),
            (Add(1), Accepted(1)),
            (Limit, LimitIs(Some(3))),
        ],
        starts: &[1],
    },
    Row {
        name: "a limit that is set after the first job",
        pool: LIMIT_4,
        begin: &[],
        steps: &[
            (Add(1), Accepted(1)),
            (SetLimit(20000), NoAnswer),
            (Limit, LimitIs(Some(20000))),
        ],
        starts: &[1],
    },
    Row {
        name: "two idle workers stop",
        pool: LIMIT_4,
        begin: &[],
        steps: &[
            (Add(1), Accepted(1)),
            (Arrive, Arrived(1)),
            (Worker(1, Take), Runs(1)),
            (Add(2), Accepted(2)),
            (Arrive, Arrived(2)),
            (Worker(2, Take), Runs(2)),
            (Worker(1, End(Done)), Free),
            (Worker(2, End(Done)), Free),
            (Ring, Rang(All)),
            (Worker(1, Wait(Notified)), Stays),
            (Worker(1, Wait(TimedOut)), Stops),
            (Ring, Rang(Silent)),
            (Worker(2, Wait(TimedOut)), Stops),
            (Ring, Rang(Silent)),
            (Ask(Workers), Are(0)),
        ],
        starts: &[1, 2],
    },
    Row {
        name: "the first job rings all, and the second rings one",
        pool: NEW,
        begin: &[],
        steps: &[
            (Ring, Rang(Silent)),
            (Add(1), Accepted(1)),
            (Ring, Rang(All)),
            (Add(2), Accepted(2)),
            (Ring, Rang(One)),
            (Ring, Rang(Silent)),
        ],
        starts: &[1],
    },
];
