//! Wakes and cancels that come twice, too late, or by the number of a job that is over, before and after its place is used again. Each
//! changes what the rules name for the standing, and nothing of another job.
use super::step::Count::{Idle, Queued};
use super::step::Deed::{Cancel, Place, Wake};
use super::step::Ending::{Done, Dropped, Waiting};
use super::step::Shown::{Accepted, Are, Drops, Free, InFirstPlace, Runs, Woke};
use super::step::Step::{Add, Ask, Job, Worker};
use super::step::Work::{End, Take};
use super::step::{LIMIT_1, READY, Row};
use blocking_core::pool::Woke::{Entered, Marked, Nothing};

// (in each row the first job is over, and stood where the second stands)
pub(super) const ROWS: &[Row] = &[
    Row {
        name: "an old number changes nothing of a queued job at its place",
        pool: LIMIT_1,
        begin: &READY,
        steps: &[
            (Job(1, Wake), Woke(Nothing)),
            (Job(1, Cancel), Woke(Nothing)),
            (Add(1), Accepted(2)),
            (Job(1, Place), InFirstPlace(true)),
            (Job(2, Place), InFirstPlace(true)),
            (Job(1, Wake), Woke(Nothing)),
            (Job(1, Wake), Woke(Nothing)),
            (Job(1, Cancel), Woke(Nothing)),
            (Ask(Queued), Are(1)),
            (Worker(1, Take), Runs(1)),
            (Worker(1, End(Waiting)), Free),
            (Ask(Queued), Are(0)),
        ],
        starts: &[1],
    },
    Row {
        name: "an old number changes nothing of a running job at its place",
        pool: LIMIT_1,
        begin: &READY,
        steps: &[
            (Add(1), Accepted(2)),
            (Worker(1, Take), Runs(1)),
            (Job(1, Wake), Woke(Nothing)),
            (Job(1, Wake), Woke(Nothing)),
            (Job(1, Cancel), Woke(Nothing)),
            // (no wake met it, and it isn't to be dropped)
            (Worker(1, End(Waiting)), Free),
            (Ask(Queued), Are(0)),
            (Job(2, Wake), Woke(Entered)),
            (Worker(1, Take), Runs(1)),
        ],
        starts: &[1],
    },
    Row {
        name: "an old number changes nothing of a parked job at its place",
        pool: LIMIT_1,
        begin: &READY,
        steps: &[
            (Add(1), Accepted(2)),
            (Worker(1, Take), Runs(1)),
            (Worker(1, End(Waiting)), Free),
            (Job(1, Wake), Woke(Nothing)),
            (Job(1, Wake), Woke(Nothing)),
            (Job(1, Cancel), Woke(Nothing)),
            (Ask(Queued), Are(0)),
            (Job(2, Wake), Woke(Entered)),
            (Worker(1, Take), Runs(1)),
        ],
        starts: &[1],
    },
    Row {
        name: "a job that is to be dropped is flagged by a wake, and over once it was dropped",
        pool: LIMIT_1,
        begin: &READY,
        steps: &[
            (Add(1), Accepted(2)),
            (Job(2, Cancel), Woke(Marked)),
            (Job(2, Wake), Woke(Nothing)),
            (Worker(1, Take), Drops(1)),
            (Job(1, Wake), Woke(Nothing)),
            (Job(2, Wake), Woke(Marked)),
            (Job(2, Wake), Woke(Marked)),
            (Job(2, Cancel), Woke(Marked)),
            (Ask(Queued), Are(0)),
            (Worker(1, End(Dropped)), Free),
            (Ask(Queued), Are(0)),
            (Ask(Idle), Are(1)),
            (Job(2, Wake), Woke(Nothing)),
            (Job(2, Cancel), Woke(Nothing)),
            // A third job stands there now.
            (Add(2), Accepted(3)),
            (Job(3, Place), InFirstPlace(true)),
            (Job(1, Wake), Woke(Nothing)),
            (Job(2, Wake), Woke(Nothing)),
            (Job(2, Cancel), Woke(Nothing)),
            (Ask(Queued), Are(1)),
            (Worker(1, Take), Runs(2)),
        ],
        starts: &[1],
    },
    Row {
        name: "two wakes of a parked job queue it once",
        pool: LIMIT_1,
        begin: &READY,
        steps: &[
            (Add(1), Accepted(2)),
            (Worker(1, Take), Runs(1)),
            (Worker(1, End(Waiting)), Free),
            (Job(2, Wake), Woke(Entered)),
            (Job(2, Wake), Woke(Nothing)),
            (Ask(Queued), Are(1)),
            (Worker(1, Take), Runs(1)),
            // (neither was for this run)
            (Worker(1, End(Waiting)), Free),
            (Ask(Queued), Are(0)),
        ],
        starts: &[1],
    },
    Row {
        name: "a wake of a job that is done then leaves nothing",
        pool: LIMIT_1,
        begin: &READY,
        steps: &[
            (Add(1), Accepted(2)),
            (Worker(1, Take), Runs(1)),
            (Job(2, Wake), Woke(Marked)),
            (Worker(1, End(Done)), Free),
            (Ask(Queued), Are(0)),
            (Job(2, Wake), Woke(Nothing)),
            (Add(2), Accepted(3)),
            (Worker(1, Take), Runs(2)),
            // (the wake was for the job before at this place)
            (Worker(1, End(Waiting)), Free),
            (Ask(Queued), Are(0)),
        ],
        starts: &[1],
    },
    Row {
        name: "a running job that was cancelled is handed out, though a wake met it",
        pool: LIMIT_1,
        begin: &READY,
        steps: &[
            (Add(1), Accepted(2)),
            (Worker(1, Take), Runs(1)),
            (Job(2, Wake), Woke(Marked)),
            (Job(2, Cancel), Woke(Marked)),
            (Job(2, Wake), Woke(Marked)),
            (Worker(1, End(Waiting)), Drops(1)),
            (Job(2, Wake), Woke(Marked)),
            (Ask(Queued), Are(0)),
            (Worker(1, End(Dropped)), Free),
            (Ask(Queued), Are(0)),
            (Job(2, Wake), Woke(Nothing)),
        ],
        starts: &[1],
    },
];
