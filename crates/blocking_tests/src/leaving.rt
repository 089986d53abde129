//! Owners who leave calls whose job waits, or is over, where a type of the test's own lets it.
use crate::planned::{EndsAtFirst, EndsBeforeItWakes, Planned, WaitsAtFirst, WaitsBeforeItWakes};
use crate::scene::Act::{Cancel, Detach, Drop, GoOn};
use crate::scene::Sight::{
    Gives, GivesNone, Goes, Gone, Sleeps, Stops, There, Unmade, Waits, Wakes,
};
use crate::scene::Step::{Begin, Do, NoWorker, See, Sweep};
use crate::scene::{Row, play};
use crate::visit::Stop::{InCall, InDrop, Nowhere};
use std::test::Fail;

// Once there is no worker left, each job waits.
const WAITS_AT_FIRST: Row = (
    "jobs of calls that were given up bear a mark, and no other",
    &[
        Begin(Nowhere),
        Begin(Nowhere),
        Begin(Nowhere),
        Begin(Nowhere),
        NoWorker,
        Sweep(0),
        Do(0, Cancel),
        See(0, Waits),
        Do(1, Drop),
        Do(2, Detach),
        See(3, Waits),
        Sweep(2),
        See(0, Wakes),
        See(0, Unmade),
        See(0, Gone),
        See(0, GivesNone),
        See(1, Goes),
        See(1, Unmade),
        NoWorker,
        Sweep(0),
        See(2, There),
        See(3, There),
        See(3, Sleeps),
    ],
);

#[test]
fn owners_leave_before_the_call(rt: HostRuntime) -> Result<(), Fail> {
    play::<Planned<WaitsAtFirst, HostRuntime>, _>(rt, "1", &WAITS_AT_FIRST)
}

const WAITS_BEFORE_IT_WAKES: Row = (
    "an answer that is in its slot is dropped by who leaves it, and given to who doesn't",
    &[
        Begin(InCall),
        Begin(Nowhere),
        Begin(Nowhere),
        Begin(Nowhere),
        See(0, Stops),
        See(0, Waits),
        See(1, Waits),
        See(2, Waits),
        See(3, Waits),
        Do(0, GoOn),
        NoWorker,
        Do(0, Drop),
        See(0, Gone),
        Do(1, Detach),
        See(1, Gone),
        Do(2, Cancel),
        See(2, There),
        See(2, Gives),
        See(3, There),
        See(0, Sleeps),
        See(1, Sleeps),
        See(2, Sleeps),
        See(3, Sleeps),
        See(3, Gives),
        Sweep(2),
        See(0, Wakes),
        See(2, Wakes),
        See(1, Sleeps),
    ],
);

#[test]
fn owners_leave_before_they_are_woken(rt: HostRuntime) -> Result<(), Fail> {
    play::<Planned<WaitsBeforeItWakes, HostRuntime>, _>(rt, "1", &WAITS_BEFORE_IT_WAKES)
}

const ENDS_AT_FIRST: Row = (
    "a job that is dropped unmade drops its call, and then wakes its owner once",
    &[
        Begin(InDrop),
        See(0, Stops),
        See(0, Waits),
        See(0, Sleeps),
        Do(0, GoOn),
        See(0, Wakes),
        See(0, Gone),
        See(0, Unmade),
        See(0, Waits),
        See(0, Sleeps),
        See(0, Waits),
        See(0, Sleeps),
        See(0, Waits),
        See(0, Sleeps),
        Do(0, Cancel),
        See(0, GivesNone),
    ],
);

#[test]
fn job_is_over_before_its_call(rt: HostRuntime) -> Result<(), Fail> {
    play::<Planned<EndsAtFirst, HostRuntime>, _>(rt, "1", &ENDS_AT_FIRST)
}

const ENDS_BEFORE_IT_WAKES: Row = (
    "a job that is dropped before it wakes wakes",
    &[
        Begin(InCall),
        See(0, Stops),
        See(0, Waits),
        Do(0, GoOn),
        See(0, Wakes),
        See(0, There),
        See(0, Gives),
    ],
);

#[test]
fn job_is_over_before_it_wakes(rt: HostRuntime) -> Result<(), Fail> {
    play::<Planned<EndsBeforeItWakes, HostRuntime>, _>(rt, "1", &ENDS_BEFORE_IT_WAKES)
}
