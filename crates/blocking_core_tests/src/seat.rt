//! Acts of an owner and of its job, at a slot or a pipe: where the owner is after them, and what becomes of its waker.
use self::Owner::{Forsaken, IsAway, Looked, Registered, Waits};
use blocking_schedule::Act::{Abandon, Ask, Call, GiveUp, Leave, Look, Register, Unseat};
use blocking_schedule::{Act, Meeting, Polling};

// Where the owner is.
#[derive(Clone, Copy, PartialEq, Eq)]
enum Owner {
    IsAway,
    Looked,
    Registered,
    Waits,
    Forsaken,
}

fn where_is(meeting: &Meeting) -> Owner {
    match meeting.polling() {
        Polling::Away => IsAway,
        Polling::Looked => Looked,
        Polling::Registered => Registered,
        Polling::Waits => Waits,
        Polling::Forsaken => Forsaken,
    }
}

#[derive(Clone, Copy)]
struct Row {
    name: &'static str,
    acts: &'static [&'static [Act]],
    owner: Owner,
    // Whether something is there then.
    is_there: bool,
    // The number of the waker that is seated then.
    seat: Option<u64>,
    // Whether the last waker was called.
    is_woken: bool,
}

// A poll that finds nothing is answered `Pending`.
const WAITS: &[Act] = &[Look(false), Register, Ask(false)];

const ROWS: &[Row] = &[
    Row {
        name: "a poll that finds nothing is seated",
        acts: &[WAITS],
        owner: Waits,
        is_there: false,
        seat: Some(1),
        is_woken: false,
    },
    Row {
        name: "what is left wakes the poll that waits",
        acts: &[WAITS, &[Leave, Call]],
        owner: Waits,
        is_there: true,
        seat: None,
        is_woken: true,
    },
    Row {
        name: "a poll takes all that is there",
        acts: &[WAITS, &[Leave, Call, Look(false)]],
        owner: IsAway,
        is_there: false,
        seat: None,
        is_woken: true,
    },
    Row {
        name: "a poll takes a part, and something is there still",
        acts: &[&[Leave, Look(true)]],
        owner: IsAway,
        is_there: true,
        seat: None,
        is_woken: false,
    },
    Row {
        name: "what is left between the look and the asking is taken, and nobody is seated",
        acts: &[&[Look(false), Register, Leave, Ask(false)]],
        owner: IsAway,
        is_there: false,
        seat: None,
        is_woken: false,
    },
    Row {
        name: "a later poll takes its earlier waker out of the seat, and registers the next",
        acts: &[WAITS, &[Look(false), Register]],
        owner: Registered,
        is_there: false,
        seat: None,
        is_woken: false,
    },
    Row {
        name: "it is seated with the later waker",
        acts: &[WAITS, WAITS],
        owner: Waits,
        is_there: false,
        seat: Some(2),
        is_woken: false,
    },
    Row {
        name: "an older waker in the job's hand wakes nobody who registered later",
        acts: &[WAITS, &[Unseat, Look(false), Register, Call, Ask(false)]],
        owner: Waits,
        is_there: false,
        seat: Some(2),
        is_woken: false,
    },
    Row {
        name: "a job that takes the waker and leaves nothing wakes the owner",
        acts: &[WAITS, &[Unseat, Call]],
        owner: Waits,
        is_there: false,
        seat: None,
        is_woken: true,
    },
    Row {
        name: "a job with a waker in its hand does nothing before it has called it",
        acts: &[WAITS, &[Unseat, Leave, GiveUp, Unseat]],
        owner: Waits,
        is_there: false,
        seat: None,
        is_woken: false,
    },
    Row {
        name: "a job that is gone wakes the owner, whose next poll isn't seated",
        acts: &[WAITS, &[GiveUp, Call], WAITS],
        owner: Forsaken,
        is_there: false,
        seat: None,
        is_woken: false,
    },
    Row {
        name: "what a job left that is gone is taken",
        acts: &[&[Leave, GiveUp, Look(false)]],
        owner: IsAway,
        is_there: false,
        seat: None,
        is_woken: false,
    },
    Row {
        name: "an owner that is gone takes what is there",
        acts: &[WAITS, &[Leave, Abandon]],
        owner: IsAway,
        is_there: false,
        seat: None,
        is_woken: false,
    },
    Row {
        name: "nobody registers or asks before it has looked",
        acts: &[&[Register, Ask(false)]],
        owner: IsAway,
        is_there: false,
        seat: None,
        is_woken: false,
    },
    Row {
        name: "a poll under way neither begins anew nor is abandoned",
        acts: &[&[Look(false), Leave, Look(false), Abandon]],
        owner: Looked,
        is_there: true,
        seat: None,
        is_woken: false,
    },
];

// The meeting after the acts of a row.
fn after(row: &Row) -> Meeting {
    let mut meeting = Meeting::new();
    for acts in row.acts {
        meeting.run(acts);
    }
    meeting
}

// Whether it is as the row says.
fn is_so(meeting: &Meeting, row: &Row) -> bool {
    where_is(meeting) == row.owner
        && meeting.is_there() == row.is_there
        && meeting.seat() == row.seat
        && meeting.is_woken() == row.is_woken
}

#[test]
fn owners_and_jobs_take_their_acts(rt: HostRuntime) {
    for row in ROWS {
        let name = row.name;
        let meeting = after(row);
        if !is_so(&meeting, row) {
            panic!(&rt; "{name}")
        }
    }
}
