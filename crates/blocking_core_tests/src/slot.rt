//! The worked rows of the slot.
use self::Inside::{Abandoned, Empty, Full, GivenUp};
use self::Shown::{Back, Found, GaveUp, Gone, Left, Seat, Value, Waits};
use self::Step::{Abandon, GiveUp, Look, Poll, Put};
use crate::stop::stop;
use blocking_core::task::{Looked, Polled, Slot, Slotted};
use std::alloc::{AllocGlobal, Global};
use std::process::Abort;

// One call of a slot. Wakers are numbers, and so are values.
#[derive(Clone, Copy)]
enum Step {
    Poll(u8),
    Look,
    Put(u32),
    GiveUp,
    Abandon,
}

// What a call answers.
#[derive(Clone, Copy, PartialEq, Eq)]
enum Shown {
    // A poll gave the value, and left this waker over.
    Value(u32, Option<u8>),
    // A poll found that no value will come, and left this waker over.
    Gone(Option<u8>),
    // A poll has to wait, and left this waker over.
    Waits(Option<u8>),
    // A look gave the value.
    Found(u32),
    // A look found no value, and this in the seat.
    Seat(Option<u8>),
    // A put handed this value back, and wakes this waker.
    Back(Option<u32>, Option<u8>),
    // The job gave up, and wakes this waker.
    GaveUp(Option<u8>),
    // The owner left, with this value.
    Left(Option<u32>),
}

// What the slot's text shows of its content.
#[derive(Clone, Copy, Debug)]
enum Inside {
    Empty,
    Full(u32),
    GivenUp,
    Abandoned(bool),
}

// A call, what it has to answer, and the content and the seat that the slot's text shows after it.
type Line = (Step, Shown, Inside, Option<u8>);

#[derive(Clone, Copy)]
struct Row {
    name: &'static str,
    // How it begins.
    begin: &'static [Line],
    // What it is about.
    steps: &'static [Line],
    // The calls by whose answers it is seen how the slot stands then.
    end: &'static [Line],
}

fn play<R: AllocGlobal + Abort>(rt: &R, rows: &[Row]) {
    for row in rows {
        let mut slot = Slot::new();
        for lines in [row.begin, row.steps, row.end] {
            if let Some(line) = first_wrong(rt.alloc(), &mut slot, lines) {
                stop(rt, row.name, line);
            }
        }
    }
}

// Makes the calls of these lines, and answers the place of the first after which something else is seen than stands beside it.
fn first_wrong(alloc: Global, slot: &mut Slot<u32, u8>, lines: &[Line]) -> Option<usize> {
    for (place, (step, shown, inside, seat)) in lines.iter().enumerate() {
        if answer(slot, *step) != *shown || !stands(alloc, slot, *inside, *seat) {
            return Some(place);
        }
    }
    None
}

// Whether the slot's text shows this.
fn stands(alloc: Global, slot: &Slot<u32, u8>, inside: Inside, seat: Option<u8>) -> bool {
    let Ok(text) = format!(in alloc; "{slot:?}") else {
        return false;
    };
    let Ok(wanted) = format!(in alloc; "Slot {{ content: {inside:?}, seat: {seat:?} }}") else {
        return false;
    };
    text == wanted
}

fn answer(slot: &mut Slot<u32, u8>, step: Step) -> Shown {
    match step {
        Poll(waker) => {
            let Polled { answer, spare } = slot.poll(waker);
            match answer {
                Slotted::Value(value) => Value(value, spare),
                Slotted::Gone(_) => Gone(spare),
                Slotted::Waits(_) => Waits(spare),
            }
        }
        Look => match slot.look() {
            Looked::Value(value) => Found(value),
            Looked::Seat(waker) => Seat(waker),
        },
        Put(value) => {
            let put = slot.put(value);
            Back(put.back, put.wake)
        }
        GiveUp => GaveUp(slot.give_up()),
        Abandon => Left(slot.abandon()),
    }
}

// A slot by its standing. The waker 1 was seated before, and the value is 7.
const EMPTY: [Line; 1] = [(Poll(1), Waits(None), Empty, Some(1))];

const FULL: [Line; 2] = [
    (Poll(1), Waits(None), Empty, Some(1)),
    (Put(7), Back(None, Some(1)), Full(7), None),
];

const GIVEN_UP: [Line; 2] = [
    (Poll(1), Waits(None), Empty, Some(1)),
    (GiveUp, GaveUp(Some(1)), GivenUp, None),
];

const ABANDONED: [Line; 2] = [
    (Poll(1), Waits(None), Empty, Some(1)),
    (Abandon, Left(None), Abandoned(false), Some(1)),
];

// (abandoned, and its job is over)
const OVER: [Line; 3] = [
    (Poll(1), Waits(None), Empty, Some(1)),
    (Abandon, Left(None), Abandoned(false), Some(1)),
    (GiveUp, GaveUp(Some(1)), Abandoned(true), None),
];

// What a slot of a standing answers, once a look has emptied its seat. (A look also takes the value, so that none is full. A slot
// that is given up and one that is over answer every call alike: their texts alone tell them apart.)
const AS_EMPTY: [Line; 2] = [
    (Poll(3), Waits(None), Empty, Some(3)),
    (Put(9), Back(None, Some(3)), Full(9), None),
];

const AS_GIVEN_UP: [Line; 2] = [
    (Poll(3), Gone(Some(3)), GivenUp, None),
    (Put(9), Back(Some(9), None), GivenUp, None),
];

const AS_ABANDONED: [Line; 2] = [
    (Poll(3), Waits(None), Abandoned(false), Some(3)),
    (Put(9), Back(Some(9), Some(3)), Abandoned(true), None),
];

const AS_OVER: [Line; 2] = [
    (Poll(3), Gone(Some(3)), Abandoned(true), None),
    (Put(9), Back(Some(9), None), Abandoned(true), None),
];

const ONCE: &[Row] = &[
    Row {
        name: "a value is put and polled once",
        begin: &[],
        steps: &[
            (Poll(1), Waits(None), Empty, Some(1)),
            (Poll(2), Waits(Some(1)), Empty, Some(2)),
            (Put(7), Back(None, Some(2)), Full(7), None),
            (Put(8), Back(Some(8), None), Full(7), None),
            (Poll(3), Value(7, Some(3)), Empty, None),
            (Poll(4), Waits(None), Empty, Some(4)),
            (Look, Seat(Some(4)), Empty, None),
            (Look, Seat(None), Empty, None),
            (Put(9), Back(None, None), Full(9), None),
            (Look, Found(9), Empty, None),
        ],
        end: &AS_EMPTY,
    },
    Row {
        name: "a job that is dropped wakes its owner once",
        begin: &[],
        steps: &[
            (Poll(1), Waits(None), Empty, Some(1)),
            (GiveUp, GaveUp(Some(1)), GivenUp, None),
            (GiveUp, GaveUp(None), GivenUp, None),
            (Put(7), Back(Some(7), None), GivenUp, None),
            (Poll(2), Gone(Some(2)), GivenUp, None),
        ],
        end: &AS_GIVEN_UP,
    },
    Row {
        name: "a value for an owner who left comes back",
        begin: &[],
        steps: &[
            (Poll(1), Waits(None), Empty, Some(1)),
            (Abandon, Left(None), Abandoned(false), Some(1)),
            (Abandon, Left(None), Abandoned(false), Some(1)),
            (Poll(2), Waits(Some(1)), Abandoned(false), Some(2)),
            (Put(7), Back(Some(7), Some(2)), Abandoned(true), None),
            (Put(8), Back(Some(8), None), Abandoned(true), None),
            (Poll(3), Gone(Some(3)), Abandoned(true), None),
        ],
        end: &AS_OVER,
    },
];

const PUTS: &[Row] = &[
    Row {
        name: "a put where it is empty",
        begin: &EMPTY,
        steps: &[
            (Put(8), Back(None, Some(1)), Full(8), None),
            (Look, Found(8), Empty, None),
            (Look, Seat(None), Empty, None),
        ],
        end: &AS_EMPTY,
    },
    Row {
        name: "a put where it is full",
        begin: &FULL,
        steps: &[
            (Put(8), Back(Some(8), None), Full(7), None),
            (Look, Found(7), Empty, None),
            (Look, Seat(None), Empty, None),
        ],
        end: &AS_EMPTY,
    },
    Row {
        name: "a put where it is given up",
        begin: &GIVEN_UP,
        steps: &[
            (Put(8), Back(Some(8), None), GivenUp, None),
            (Look, Seat(None), GivenUp, None),
        ],
        end: &AS_GIVEN_UP,
    },
    Row {
        name: "a put where it is abandoned",
        begin: &ABANDONED,
        steps: &[
            (Put(8), Back(Some(8), Some(1)), Abandoned(true), None),
            (Look, Seat(None), Abandoned(true), None),
        ],
        end: &AS_OVER,
    },
    Row {
        name: "a put where it is over",
        begin: &OVER,
        steps: &[
            (Put(8), Back(Some(8), None), Abandoned(true), None),
            (Look, Seat(None), Abandoned(true), None),
        ],
        end: &AS_OVER,
    },
];

// (twice, since the second changes nothing)
const GIVE_UPS: &[Row] = &[
    Row {
        name: "a job gives up where it is empty",
        begin: &EMPTY,
        steps: &[
            (GiveUp, GaveUp(Some(1)), GivenUp, None),
            (GiveUp, GaveUp(None), GivenUp, None),
            (Look, Seat(None), GivenUp, None),
        ],
        end: &AS_GIVEN_UP,
    },
    Row {
        name: "a job gives up where it is full",
        begin: &FULL,
        steps: &[
            (GiveUp, GaveUp(None), Full(7), None),
            (GiveUp, GaveUp(None), Full(7), None),
            (Look, Found(7), Empty, None),
            (Look, Seat(None), Empty, None),
        ],
        end: &AS_EMPTY,
    },
    Row {
        name: "a job gives up where it is given up",
        begin: &GIVEN_UP,
        steps: &[
            (GiveUp, GaveUp(None), GivenUp, None),
            (GiveUp, GaveUp(None), GivenUp, None),
            (Look, Seat(None), GivenUp, None),
        ],
        end: &AS_GIVEN_UP,
    },
    Row {
        name: "a job gives up where it is abandoned",
        begin: &ABANDONED,
        steps: &[
            (GiveUp, GaveUp(Some(1)), Abandoned(true), None),
            (GiveUp, GaveUp(None), Abandoned(true), None),
            (Look, Seat(None), Abandoned(true), None),
        ],
        end: &AS_OVER,
    },
    Row {
        name: "a job gives up where it is over",
        begin: &OVER,
        steps: &[
            (GiveUp, GaveUp(None), Abandoned(true), None),
            (GiveUp, GaveUp(None), Abandoned(true), None),
            (Look, Seat(None), Abandoned(true), None),
        ],
        end: &AS_OVER,
    },
];

// (twice, since the second changes nothing)
const ABANDONS: &[Row] = &[
    Row {
        name: "an owner leaves where it is empty",
        begin: &EMPTY,
        steps: &[
            (Abandon, Left(None), Abandoned(false), Some(1)),
            (Abandon, Left(None), Abandoned(false), Some(1)),
            (Look, Seat(Some(1)), Abandoned(false), None),
        ],
        end: &AS_ABANDONED,
    },
    Row {
        name: "an owner leaves where it is full",
        begin: &FULL,
        steps: &[
            (Abandon, Left(Some(7)), Abandoned(true), None),
            (Abandon, Left(None), Abandoned(true), None),
            (Look, Seat(None), Abandoned(true), None),
        ],
        end: &AS_OVER,
    },
    Row {
        name: "an owner leaves where it is given up",
        begin: &GIVEN_UP,
        steps: &[
            (Abandon, Left(None), Abandoned(true), None),
            (Abandon, Left(None), Abandoned(true), None),
            (Look, Seat(None), Abandoned(true), None),
        ],
        end: &AS_OVER,
    },
    Row {
        name: "an owner leaves where it is abandoned",
        begin: &ABANDONED,
        steps: &[
            (Abandon, Left(None), Abandoned(false), Some(1)),
            (Abandon, Left(None), Abandoned(false), Some(1)),
            (Look, Seat(Some(1)), Abandoned(false), None),
        ],
        end: &AS_ABANDONED,
    },
    Row {
        name: "an owner leaves where it is over",
        begin: &OVER,
        steps: &[
            (Abandon, Left(None), Abandoned(true), None),
            (Abandon, Left(None), Abandoned(true), None),
            (Look, Seat(None), Abandoned(true), None),
        ],
        end: &AS_OVER,
    },
];

const POLLS: &[Row] = &[
    Row {
        name: "a poll where it is empty",
        begin: &EMPTY,
        steps: &[
            (Poll(2), Waits(Some(1)), Empty, Some(2)),
            (Look, Seat(Some(2)), Empty, None),
        ],
        end: &AS_EMPTY,
    },
    Row {
        name: "a poll where it is full",
        begin: &FULL,
        steps: &[
            (Poll(2), Value(7, Some(2)), Empty, None),
            (Look, Seat(None), Empty, None),
        ],
        end: &AS_EMPTY,
    },
    Row {
        name: "a poll where it is given up",
        begin: &GIVEN_UP,
        steps: &[
            (Poll(2), Gone(Some(2)), GivenUp, None),
            (Look, Seat(None), GivenUp, None),
        ],
        end: &AS_GIVEN_UP,
    },
    Row {
        name: "a poll where it is abandoned",
        begin: &ABANDONED,
        steps: &[
            (Poll(2), Waits(Some(1)), Abandoned(false), Some(2)),
            (Look, Seat(Some(2)), Abandoned(false), None),
        ],
        end: &AS_ABANDONED,
    },
    Row {
        name: "a poll where it is over",
        begin: &OVER,
        steps: &[
            (Poll(2), Gone(Some(2)), Abandoned(true), None),
            (Look, Seat(None), Abandoned(true), None),
        ],
        end: &AS_OVER,
    },
];

const LOOKS: &[Row] = &[
    Row {
        name: "a look where it is empty",
        begin: &EMPTY,
        steps: &[
            (Look, Seat(Some(1)), Empty, None),
            (Look, Seat(None), Empty, None),
        ],
        end: &AS_EMPTY,
    },
    Row {
        name: "a look where it is full",
        begin: &FULL,
        steps: &[
            (Look, Found(7), Empty, None),
            (Look, Seat(None), Empty, None),
        ],
        end: &AS_EMPTY,
    },
    Row {
        name: "a look where it is given up",
        begin: &GIVEN_UP,
        steps: &[
            (Look, Seat(None), GivenUp, None),
            (Look, Seat(None), GivenUp, None),
        ],
        end: &AS_GIVEN_UP,
    },
    Row {
        name: "a look where it is abandoned",
        begin: &ABANDONED,
        steps: &[
            (Look, Seat(Some(1)), Abandoned(false), None),
            (Look, Seat(None), Abandoned(false), None),
        ],
        end: &AS_ABANDONED,
    },
    Row {
        name: "a look where it is over",
        begin: &OVER,
        steps: &[
            (Look, Seat(None), Abandoned(true), None),
            (Look, Seat(None), Abandoned(true), None),
        ],
        end: &AS_OVER,
    },
];

#[test]
fn calls_answer_by_standing(rt: HostRuntime) {
    for rows in [ONCE, PUTS, GIVE_UPS, ABANDONS, POLLS, LOOKS] {
        play(&rt, rows);
    }
}
