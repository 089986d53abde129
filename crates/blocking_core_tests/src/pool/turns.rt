//! The order of jobs, their places, and turns that end in another pool.
use super::bench::Bench;
use super::step::Count::{Idle, Queued};
use super::step::Deed::Place;
use super::step::Ending::{Done, Waiting};
use super::step::Shown::{Accepted, Are, Arrived, Free, InFirstPlace, NoAnswer, Runs, Stranger};
use super::step::Step::{Add, Arrive, Ask, Job, Switch, Worker};
use super::step::Work::{End, Take};
use super::step::{Line, NEW, Row};
use crate::stop::stop;

pub(super) const ROWS: &[Row] = &[
    // The other pool has a job of the same number, which is queued there.
    Row {
        name: "a turn that is done",
        pool: NEW,
        begin: &[],
        steps: &[
            (Add(1), Accepted(1)),
            (Arrive, Arrived(1)),
            (Worker(1, Take), Runs(1)),
            (Switch, NoAnswer),
            (Add(2), Accepted(1)),
            (Worker(1, End(Done)), Stranger(None)),
            (Ask(Queued), Are(1)),
            (Ask(Idle), Are(1)),
            (Switch, NoAnswer),
            (Worker(1, End(Done)), Free),
            (Ask(Idle), Are(1)),
        ],
        starts: &[1, 1],
    },
    Row {
        name: "a turn whose job waits",
        pool: NEW,
        begin: &[],
        steps: &[
            (Add(1), Accepted(1)),
            (Arrive, Arrived(1)),
            (Worker(1, Take), Runs(1)),
            (Switch, NoAnswer),
            (Add(2), Accepted(1)),
            (Worker(1, End(Waiting)), Stranger(Some(1))),
            (Ask(Queued), Are(1)),
            (Ask(Idle), Are(1)),
            (Switch, NoAnswer),
            (Worker(1, End(Waiting)), Free),
            (Ask(Idle), Are(1)),
        ],
        starts: &[1, 1],
    },
];

const FIRST_OF_A_THOUSAND: &[Line] = &[
    (Add(1), Accepted(1)),
    (Arrive, Arrived(1)),
    (Worker(1, Take), Runs(1)),
    (Worker(1, End(Done)), Free),
    (Job(1, Place), InFirstPlace(true)),
];

// A job that is added beside an idle worker, and runs to its end.
fn one_more(job: u32) -> [Line; 4] {
    [
        (Add(job), Accepted(job as u64)),
        (Worker(1, Take), Runs(job)),
        (Worker(1, End(Done)), Free),
        (Job(job as usize, Place), InFirstPlace(true)),
    ]
}

// The table has as many places as jobs stood at once.
#[test]
fn jobs_one_by_one_share_a_place(rt: HostRuntime) {
    let mut bench = Bench::new(rt.alloc(), NEW);
    if let Some(line) = bench.first_wrong(FIRST_OF_A_THOUSAND) {
        stop(&rt, "the first of a thousand jobs", line);
    }
    for job in 2..=1000u32 {
        if let Some(line) = bench.first_wrong(&one_more(job)) {
            stop(&rt, "one more job", line);
        }
    }
    bench.close(&rt);
}
