//! Runs of a stream's ring: where both sides are after some steps, and what their last calls were answered.
use blocking_schedule::StreamStep::{
    CallOwner, CloseJob, CloseOwner, LookAgainForClosed, LookAgainForItem, LookAgainForRoom,
    LookAgainForShut, PollAgain, Pop, Push, RiseJob, RiseOwner, RunAgain, SeatJob, SeatOwner,
    SeeClosed, SeeJobWaits, SeeOwnerShut, SeeOwnerWaits, TakeBackWaker, TakeJob, TakeOwner,
    WakeJob,
};
use blocking_schedule::{JobPlace, OwnerPlace, ReceiveAnswer, Ring, SendAnswer, StreamStep};

#[derive(Clone, Copy)]
struct Row {
    name: &'static str,
    capacity: u64,
    steps: &'static [&'static [StreamStep]],
    job: JobPlace,
    sent: SendAnswer,
    owner: OwnerPlace,
    received: ReceiveAnswer,
}

// An item is sent, and the owner doesn't wait.
const SEND: &[StreamStep] = &[SeeOwnerShut, Push, SeeOwnerWaits];
// The same, and the owner waits.
const SEND_AND_CALL: &[StreamStep] = &[SeeOwnerShut, Push, SeeOwnerWaits, TakeOwner, CallOwner];
// There is no room: the job is seated, looks again, and is parked.
const PARK: &[StreamStep] = &[
    SeeOwnerShut,
    Push,
    SeatJob,
    LookAgainForShut,
    LookAgainForRoom,
];
// An item is received, and the job doesn't wait.
const RECEIVE: &[StreamStep] = &[PollAgain, Pop, SeeJobWaits];
// The same, and the job waits.
const RECEIVE_AND_WAKE: &[StreamStep] = &[PollAgain, Pop, SeeJobWaits, TakeJob, WakeJob];
// There is nothing yet: the owner is seated.
const SIT: &[StreamStep] = &[PollAgain, Pop, SeeClosed, TakeBackWaker, SeatOwner];
// It looks again, and waits.
const WAIT: &[StreamStep] = &[LookAgainForItem, LookAgainForClosed];
// A poll that finds that all was received.
const END: &[StreamStep] = &[PollAgain, Pop, SeeClosed];

const ROWS: &[Row] = &[
    Row {
        name: "an owner waits, and an item comes",
        capacity: 1,
        steps: &[SIT, WAIT, SEND_AND_CALL, RECEIVE],
        job: JobPlace::Away,
        sent: SendAnswer::Sent,
        owner: OwnerPlace::Away,
        received: ReceiveAnswer::Item(0),
    },
    Row {
        name: "a job is parked at a full ring",
        capacity: 1,
        steps: &[SEND, PARK],
        job: JobPlace::Parked,
        sent: SendAnswer::Parked,
        owner: OwnerPlace::Away,
        received: ReceiveAnswer::Open,
    },
    Row {
        name: "three items go through a ring for one, and both sides wait",
        capacity: 1,
        steps: &[
            SIT,
            WAIT,
            SEND_AND_CALL,
            PARK,
            RECEIVE_AND_WAKE,
            SIT,
            WAIT,
            &[RunAgain],
            SEND_AND_CALL,
            PARK,
            RECEIVE_AND_WAKE,
            &[RunAgain],
            SEND,
            RECEIVE,
        ],
        job: JobPlace::Away,
        sent: SendAnswer::Sent,
        owner: OwnerPlace::Away,
        received: ReceiveAnswer::Item(2),
    },
    Row {
        name: "three items are sent and received, then the job closes, and the owner has the end",
        capacity: 1,
        steps: &[
            SEND,
            RECEIVE,
            SEND,
            RECEIVE,
            SEND,
            RECEIVE,
            &[CloseJob, SeeOwnerWaits],
            END,
        ],
        job: JobPlace::Away,
        sent: SendAnswer::Sent,
        owner: OwnerPlace::Away,
        received: ReceiveAnswer::Ended,
    },
    Row {
        name: "the job closes while the owner waits, which is called",
        capacity: 2,
        steps: &[
            SIT,
            WAIT,
            &[CloseJob, SeeOwnerWaits, TakeOwner, CallOwner],
            END,
        ],
        job: JobPlace::Away,
        sent: SendAnswer::Open,
        owner: OwnerPlace::Away,
        received: ReceiveAnswer::Ended,
    },
    Row {
        name: "what was sent before the close is received before the end is told",
        capacity: 2,
        steps: &[
            &[PollAgain, Pop],
            SEND,
            &[CloseJob, SeeOwnerWaits, SeeClosed, Pop, SeeJobWaits],
        ],
        job: JobPlace::Away,
        sent: SendAnswer::Sent,
        owner: OwnerPlace::Away,
        received: ReceiveAnswer::Item(0),
    },
    Row {
        name: "the owner shuts its end while the job is parked, which runs again and is told",
        capacity: 1,
        steps: &[
            SEND,
            PARK,
            &[CloseOwner, SeeJobWaits, TakeJob, WakeJob],
            &[RunAgain, SeeOwnerShut],
        ],
        job: JobPlace::Away,
        sent: SendAnswer::Shut,
        owner: OwnerPlace::Away,
        received: ReceiveAnswer::Open,
    },
    Row {
        name: "an owner that is seated looks again and finds an item",
        capacity: 1,
        steps: &[SIT, SEND, &[LookAgainForItem, SeeJobWaits, RiseOwner]],
        job: JobPlace::SawOwnerWait,
        sent: SendAnswer::Sent,
        owner: OwnerPlace::Away,
        received: ReceiveAnswer::Item(0),
    },
    Row {
        name: "the job that saw its flag finds its seat empty then",
        capacity: 1,
        steps: &[
            SIT,
            SEND,
            &[LookAgainForItem, SeeJobWaits, RiseOwner, TakeOwner],
        ],
        job: JobPlace::Away,
        sent: SendAnswer::Sent,
        owner: OwnerPlace::Away,
        received: ReceiveAnswer::Item(0),
    },
    Row {
        name: "an owner that is seated looks again and finds the end",
        capacity: 1,
        steps: &[
            SIT,
            &[
                LookAgainForItem,
                CloseJob,
                LookAgainForClosed,
                RiseOwner,
                SeeOwnerWaits,
            ],
        ],
        job: JobPlace::Away,
        sent: SendAnswer::Open,
        owner: OwnerPlace::Away,
        received: ReceiveAnswer::Ended,
    },
    Row {
        name: "a job that is seated looks again and finds room",
        capacity: 1,
        steps: &[
            SEND,
            &[SeeOwnerShut, Push, SeatJob],
            RECEIVE_AND_WAKE,
            &[
                LookAgainForShut,
                LookAgainForRoom,
                Push,
                RiseJob,
                SeeOwnerWaits,
            ],
        ],
        job: JobPlace::Away,
        sent: SendAnswer::Sent,
        owner: OwnerPlace::Away,
        received: ReceiveAnswer::Item(0),
    },
    Row {
        name: "a job that is seated looks again and finds the owner's end shut",
        capacity: 1,
        steps: &[
            SEND,
            &[SeeOwnerShut, Push, SeatJob, CloseOwner],
            &[LookAgainForShut, RiseJob, SeeJobWaits],
        ],
        job: JobPlace::Away,
        sent: SendAnswer::Shut,
        owner: OwnerPlace::Away,
        received: ReceiveAnswer::Open,
    },
    Row {
        name: "an owner that polls for no reason takes its waker back and waits again",
        capacity: 1,
        steps: &[SIT, WAIT, SIT, WAIT, SEND_AND_CALL],
        job: JobPlace::Away,
        sent: SendAnswer::Sent,
        owner: OwnerPlace::Waits,
        received: ReceiveAnswer::Pending,
    },
    Row {
        name: "a job that runs again for no reason is parked again",
        capacity: 1,
        steps: &[SEND, PARK, &[RunAgain], PARK],
        job: JobPlace::Parked,
        sent: SendAnswer::Parked,
        owner: OwnerPlace::Away,
        received: ReceiveAnswer::Open,
    },
    Row {
        name: "nothing goes in beyond the capacity, and no step is taken out of its turn",
        capacity: 1,
        steps: &[SEND, &[SeeOwnerShut, Push, TakeOwner, CallOwner, WakeJob]],
        job: JobPlace::SawOpen,
        sent: SendAnswer::Open,
        owner: OwnerPlace::Away,
        received: ReceiveAnswer::Open,
    },
];

// The ring after the steps of a row.
fn after(row: &Row) -> Ring {
    let mut ring = Ring::new(row.capacity);
    for steps in row.steps {
        ring.run(steps);
    }
    ring
}

#[test]
fn sides_take_their_steps(rt: HostRuntime) {
    for row in ROWS {
        let name = row.name;
        let ring = after(row);
        if ring.job() != row.job || ring.send_answer() != row.sent {
            panic!(&rt; "{name}: the job")
        }
        if ring.owner() != row.owner || ring.receive_answer() != row.received {
            panic!(&rt; "{name}: the owner")
        }
    }
}
