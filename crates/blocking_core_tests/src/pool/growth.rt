//! Starts that are refused, and the last numbers. (how the pool grows, the stored rows of `blk` show)
use super::step::Count::{Idle, Queued, Workers};
use super::step::Shown::{Accepted, Are, Arrived, LimitIs, NoAnswer, Rang, Refused, Runs};
use super::step::Step::{Add, Arrive, Ask, Limit, Ring, SetLimit, Worker};
use super::step::Work::Take;
use super::step::{Given, LIMIT_4, NEW, Row};
use blocking_core::pool::BellKind::{All, Silent};
use blocking_core::pool::Refusal::{NoWorker, Numbers};

pub(super) const ROWS: &[Row] = &[
    Row {
        name: "the first start is refused",
        pool: Given {
            refused: &[1],
            ..NEW
        },
        begin: &[],
        steps: &[
            (Add(7), Refused(NoWorker, 7)),
            (Ring, Rang(Silent)),
            (Ask(Workers), Are(0)),
            (Ask(Queued), Are(0)),
            (Limit, LimitIs(Some(1))),
            (Add(8), Accepted(1)),
            (Ask(Workers), Are(1)),
        ],
        starts: &[1, 2],
    },
    Row {
        name: "the fourth start is refused",
        pool: Given {
            refused: &[4],
            ..LIMIT_4
        },
        begin: &[],
        steps: &[
            (Add(1), Accepted(1)),
            (Arrive, Arrived(1)),
            (Worker(1, Take), Runs(1)),
            (Add(2), Accepted(2)),
            (Arrive, Arrived(2)),
            (Worker(2, Take), Runs(2)),
            (Add(3), Accepted(3)),
            (Arrive, Arrived(3)),
            (Worker(3, Take), Runs(3)),
            (Ask(Workers), Are(3)),
            (Ask(Idle), Are(0)),
            (Add(4), Accepted(4)),
            (Ask(Workers), Are(3)),
            (Ask(Idle), Are(0)),
            (Ask(Queued), Are(1)),
            (Limit, LimitIs(Some(3))),
            (Ring, Rang(All)),
            (SetLimit(4), NoAnswer),
            (Ring, Rang(Silent)),
            (Ask(Workers), Are(3)),
            (Add(5), Accepted(5)),
            (Ask(Workers), Are(4)),
            (Ask(Idle), Are(1)),
            (Ask(Queued), Are(2)),
        ],
        starts: &[1, 2, 3, 4, 5],
    },
    Row {
        name: "the last serial",
        pool: Given {
            serial: u64::MAX,
            ..NEW
        },
        begin: &[],
        steps: &[(Add(7), Refused(Numbers, 7))],
        starts: &[],
    },
    Row {
        name: "the last worker",
        pool: Given {
            worker: u64::MAX,
            ..NEW
        },
        begin: &[],
        steps: &[(Add(7), Refused(NoWorker, 7)), (Limit, LimitIs(Some(1)))],
        starts: &[],
    },
];
