//! Runs of the threads' machine: where the threads are after some steps, and how many jobs are queued.
use self::At::{Claimed, Gone, Looks, Out, Sleeps, Wakes, Works};
use blocking_schedule::Origin::{Rung, Swept};
use blocking_schedule::Step::{
    Add, Arrive, Claim, End, EndLook, GoOn, LetGo, Look, Nothing, Refuse, Return, Ring, SetLimit,
    Start, StayOrStop, Sweep, SweepLate, Take, Tell, TimeOut, Wait, Wake, WakeUp,
};
use blocking_schedule::{Place, Schedule, Step};
use std::alloc::{AllocGlobal, Global};

// Where a thread is, as far as these rows ask.
#[derive(Clone, Copy, PartialEq, Eq)]
enum At {
    // A caller outside, or a thread that wasn't started.
    Out,
    Works,
    Looks,
    Claimed,
    Sleeps,
    // Its sleep is over, by a ring.
    Wakes,
    Gone,
    Elsewhere,
}

fn where_is(schedule: &Schedule, who: usize) -> At {
    match schedule.place(who) {
        Some(Place::Outside | Place::Spare) => Out,
        Some(Place::Turn(_)) => Works,
        Some(Place::Looking(false)) => Looks,
        Some(Place::Looking(true)) => Claimed,
        Some(Place::Sleeping) => Sleeps,
        Some(Place::Woken(blocking_schedule::Waking::Rung)) => Wakes,
        Some(Place::Stopped) => Gone,
        _ => At::Elsewhere,
    }
}

// Thread 0 is a caller, and 1 and 2 are threads that may be started. The limit is 2.
#[derive(Clone, Copy)]
struct Row {
    name: &'static str,
    steps: &'static [&'static [Step]],
    // Where the three threads are then.
    at: [At; 3],
    // How many jobs are queued then.
    queued: u64,
}

// How the sections of the threads end, where nobody can be claimed and nobody sleeps.
const END_0: &[Step] = &[Claim(0, 9), Tell(0), LetGo(0), Ring(0, 9)];

const END_1: &[Step] = &[Claim(1, 9), Tell(1), LetGo(1), Ring(1, 9)];

const END_2: &[Step] = &[Claim(2, 9), Tell(2), LetGo(2), Ring(2, 9)];

// A job comes, for which a worker is started; it arrives and takes it.
const FIRST: &[Step] = &[
    Add(0),
    Start(0, 1),
    Claim(0, 9),
    Tell(0),
    LetGo(0),
    Ring(0, 9),
    Arrive(1),
    Take(1, Rung),
];
// The same for a second one.
const SECOND: &[Step] = &[
    Add(0),
    Start(0, 2),
    Claim(0, 9),
    Tell(0),
    LetGo(0),
    Ring(0, 9),
    Arrive(2),
    Take(2, Rung),
];
// A turn of worker 1 ends, and it finds no job; worker 2 the same.
const FREE_1: &[Step] = &[End(1, false), Take(1, Rung)];

const FREE_2: &[Step] = &[End(2, false), Take(2, Rung)];
// They go to sleep.
const SLEEP_1: &[Step] = &[Look(1), EndLook(1), Wait(1)];

const SLEEP_2: &[Step] = &[Look(2), EndLook(2), Wait(2)];

const ROWS: &[Row] = &[
    Row {
        name: "a worker is started for a job and takes it",
        steps: &[FIRST, END_1],
        at: [Out, Works, Out],
        queued: 0,
    },
    Row {
        name: "a ring wakes one of two that sleep",
        steps: &[
            FIRST,
            END_1,
            SECOND,
            END_2,
            FREE_1,
            END_1,
            SLEEP_1,
            FREE_2,
            END_2,
            SLEEP_2,
            &[Add(0), Claim(0, 9), Tell(0), LetGo(0), Ring(0, 2)],
        ],
        at: [Out, Sleeps, Wakes],
        queued: 1,
    },
    Row {
        name: "a worker that looks is claimed, and nobody is woken",
        steps: &[
            FIRST,
            END_1,
            SECOND,
            END_2,
            FREE_1,
            END_1,
            SLEEP_1,
            FREE_2,
            END_2,
            &[Look(2), Add(0), Claim(0, 2), Tell(0), LetGo(0), Ring(0, 1)],
        ],
        at: [Out, Sleeps, Claimed],
        queued: 1,
    },
    Row {
        name: "a claim that names another thread is none",
        steps: &[
            FIRST,
            END_1,
            FREE_1,
            END_1,
            &[Look(1), Add(0), Claim(0, 2), Tell(0), LetGo(0)],
        ],
        at: [At::Elsewhere, Looks, Out],
        queued: 1,
    },
    Row {
        name: "a worker that saw a job doesn't sleep",
        steps: &[
            FIRST,
            END_1,
            FREE_1,
            END_1,
            &[Look(1), EndLook(1), Add(0)],
            END_0,
            &[Wait(1)],
        ],
        at: [Out, At::Elsewhere, Out],
        queued: 1,
    },
    Row {
        name: "three swept jobs wake one of two workers, which drops one after the other",
        steps: &[
            FIRST,
            END_1,
            SECOND,
            END_2,
            FREE_1,
            END_1,
            SLEEP_1,
            FREE_2,
            END_2,
            SLEEP_2,
            &[Sweep(0, 3), Claim(0, 9), Tell(0), LetGo(0), Ring(0, 1)],
            &[Return(1), StayOrStop(1), Take(1, Swept)],
            END_1,
            &[End(1, false), Take(1, Swept)],
            END_1,
        ],
        at: [Out, Works, Sleeps],
        queued: 1,
    },
    Row {
        name: "a worker whose time is up sweeps, and takes what it finds",
        steps: &[
            FIRST,
            END_1,
            FREE_1,
            END_1,
            SLEEP_1,
            &[
                TimeOut(1),
                Return(1),
                SweepLate(1, 1),
                StayOrStop(1),
                Take(1, Rung),
            ],
            END_1,
        ],
        at: [Out, Works, Out],
        queued: 0,
    },
    Row {
        name: "a worker that wakes by itself looks again",
        steps: &[
            FIRST,
            END_1,
            FREE_1,
            END_1,
            SLEEP_1,
            &[WakeUp(1), Return(1), StayOrStop(1), Take(1, Rung)],
            END_1,
            &[Look(1)],
        ],
        at: [Out, Looks, Out],
        queued: 0,
    },
    Row {
        name: "a lowered limit wakes all, and one of two stops",
        steps: &[
            FIRST,
            END_1,
            SECOND,
            END_2,
            FREE_1,
            END_1,
            SLEEP_1,
            FREE_2,
            END_2,
            SLEEP_2,
            &[SetLimit(0, 1)],
            END_0,
            &[Return(1), StayOrStop(1)],
            END_1,
            &[Return(2), StayOrStop(2), Take(2, Rung)],
            END_2,
            SLEEP_2,
        ],
        at: [Out, Gone, Sleeps],
        queued: 0,
    },
    Row {
        name: "a refused start lowers the limit",
        steps: &[FIRST, END_1, &[Add(0), Refuse(0), Start(0, 2)], END_0],
        at: [Out, Works, Out],
        queued: 1,
    },
    Row {
        name: "a turn goes on, a wake queues a job, and a section may do nothing",
        steps: &[
            FIRST,
            END_1,
            &[GoOn(1)],
            END_1,
            &[Wake(0)],
            END_0,
            &[Nothing(0)],
            END_0,
        ],
        at: [Out, Works, Out],
        queued: 1,
    },
    Row {
        name: "nobody takes the lock beside another",
        steps: &[FIRST, &[Add(0), Add(0)]],
        at: [Out, At::Elsewhere, Out],
        queued: 0,
    },
    Row {
        name: "one that finds nothing stops",
        steps: &[
            FIRST,
            END_1,
            FREE_1,
            END_1,
            SLEEP_1,
            &[TimeOut(1), Return(1), StayOrStop(1)],
            END_1,
        ],
        at: [Out, Gone, Out],
        queued: 0,
    },
];

// The machine after the steps of a row, where there is memory for it.
fn after(alloc: Global, row: &Row) -> Option<Schedule> {
    let Ok(mut schedule) = Schedule::new(alloc, 1, 2, 2) else {
        return None;
    };
    for steps in row.steps {
        schedule.run(steps);
    }
    Some(schedule)
}

// Whether the threads are at these places, and so many jobs are queued.
fn is_so(schedule: &Schedule, at: [At; 3], queued: u64) -> bool {
    let pool = schedule.pool();
    let [first, second, third] = at;
    pool.rung.saturating_add(pool.swept) == queued
        && where_is(schedule, 0) == first
        && where_is(schedule, 1) == second
        && where_is(schedule, 2) == third
}

#[test]
fn threads_take_their_steps(rt: HostRuntime) {
    for row in ROWS {
        let name = row.name;
        let Some(schedule) = after(rt.alloc(), row) else {
            panic!(&rt; "{name}: no memory")
        };
        if !is_so(&schedule, row.at, row.queued) {
            panic!(&rt; "{name}")
        }
    }
}
