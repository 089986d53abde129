//! What the cores of jobs, and the polls of owners whose session is refused, do next after each answer.
use crate::stop::stop;
use blocking_core::io::{Fault, JobFault, Position};
use blocking_core::job::{
    Action, Answer, CallCore, ItemAction, ItemAnswer, ItemCore, OpAction, OpAnswer, OpCore, PIECE,
    ReadAction, ReadAnswer, ReadCore, SeekAction, SeekAnswer, SeekCore, WriteAction, WriteAnswer,
    WriteCore,
};
use blocking_core::pool::Refusal;
use blocking_core::unblock::{OwnerAction, OwnerAnswer, OwnerCall, PollCall, Reply, State};
use std::process::Abort;

// Answers that a core takes from its beginning on, and the action that is next after each.
struct Row<A: 'static, N: 'static> {
    name: &'static str,
    answers: &'static [(A, N)],
}

const CALLS: &[Row<Answer, Action>] = &[
    Row {
        name: "an owner who waits is woken",
        answers: &[
            (Answer::Returned, Action::Finish),
            (Answer::Put { woke: true }, Action::Deliver),
            (Answer::Delivered, Action::Done),
            (Answer::Returned, Action::Done),
        ],
    },
    Row {
        name: "no waiter, no wake",
        answers: &[
            (Answer::Returned, Action::Finish),
            (Answer::Put { woke: false }, Action::Done),
            (Answer::Put { woke: true }, Action::Done),
            (Answer::Delivered, Action::Done),
        ],
    },
    Row {
        name: "answers of another kind change nothing",
        answers: &[
            (Answer::Delivered, Action::Call),
            (Answer::Put { woke: true }, Action::Call),
            (Answer::Put { woke: false }, Action::Call),
            (Answer::Returned, Action::Finish),
            (Answer::Returned, Action::Finish),
            (Answer::Delivered, Action::Finish),
            (Answer::Put { woke: true }, Action::Deliver),
            (Answer::Returned, Action::Deliver),
            (Answer::Put { woke: false }, Action::Deliver),
            (Answer::Delivered, Action::Done),
        ],
    },
];

const ITEMS: &[Row<ItemAnswer, ItemAction>] = &[
    Row {
        name: "an item that doesn't fit is sent once more, and the end comes after it",
        answers: &[
            (ItemAnswer::Gave, ItemAction::Send),
            (ItemAnswer::Sent { woke: true }, ItemAction::Deliver),
            (ItemAnswer::Delivered, ItemAction::Next),
            (ItemAnswer::Gave, ItemAction::Send),
            (ItemAnswer::Parked, ItemAction::Send),
            (ItemAnswer::Sent { woke: false }, ItemAction::Next),
            (ItemAnswer::Ended, ItemAction::Close),
            (ItemAnswer::Closed { woke: false }, ItemAction::Finish),
            (ItemAnswer::Finished { woke: false }, ItemAction::Done),
        ],
    },
    Row {
        name: "a dropped owner closes the end and calls each waker",
        answers: &[
            (ItemAnswer::Gave, ItemAction::Send),
            (ItemAnswer::Shut, ItemAction::Close),
            (ItemAnswer::Closed { woke: true }, ItemAction::Deliver),
            (ItemAnswer::Delivered, ItemAction::Finish),
            (ItemAnswer::Finished { woke: true }, ItemAction::Deliver),
            (ItemAnswer::Delivered, ItemAction::Done),
        ],
    },
    Row {
        name: "answers of another kind change nothing in a stream",
        answers: &[
            (ItemAnswer::Shut, ItemAction::Next),
            (ItemAnswer::Delivered, ItemAction::Next),
            (ItemAnswer::Gave, ItemAction::Send),
            (ItemAnswer::Ended, ItemAction::Send),
            (ItemAnswer::Sent { woke: true }, ItemAction::Deliver),
            (ItemAnswer::Gave, ItemAction::Deliver),
            (ItemAnswer::Delivered, ItemAction::Next),
            (ItemAnswer::Ended, ItemAction::Close),
            (ItemAnswer::Finished { woke: true }, ItemAction::Close),
            (ItemAnswer::Closed { woke: false }, ItemAction::Finish),
            (ItemAnswer::Closed { woke: true }, ItemAction::Finish),
            (ItemAnswer::Finished { woke: false }, ItemAction::Done),
            (ItemAnswer::Gave, ItemAction::Done),
        ],
    },
];

const SEEKS: &[Row<SeekAnswer, SeekAction>] = &[
    Row {
        name: "a seek is made, finished, and its owner is woken",
        answers: &[
            (SeekAnswer::Sought, SeekAction::Finish),
            (SeekAnswer::Finished { woke: true }, SeekAction::Deliver),
            (SeekAnswer::Delivered, SeekAction::Done),
        ],
    },
    Row {
        name: "a seek that fails is finished too",
        answers: &[
            (SeekAnswer::Failed, SeekAction::Finish),
            (SeekAnswer::Finished { woke: false }, SeekAction::Done),
        ],
    },
    Row {
        name: "answers of another kind change nothing in a seek",
        answers: &[
            (SeekAnswer::Finished { woke: true }, SeekAction::Seek),
            (SeekAnswer::Delivered, SeekAction::Seek),
            (SeekAnswer::Sought, SeekAction::Finish),
            (SeekAnswer::Failed, SeekAction::Finish),
            (SeekAnswer::Finished { woke: true }, SeekAction::Deliver),
            (SeekAnswer::Finished { woke: false }, SeekAction::Deliver),
            (SeekAnswer::Delivered, SeekAction::Done),
            (SeekAnswer::Sought, SeekAction::Done),
        ],
    },
];

const OPERATIONS: &[Row<OpAnswer, OpAction>] = &[
    Row {
        name: "the result comes before the handle, and each wakes its owner",
        answers: &[
            (OpAnswer::Returned, OpAction::PutResult),
            (OpAnswer::ResultPut { woke: true }, OpAction::Deliver),
            (OpAnswer::Delivered, OpAction::Finish),
            (OpAnswer::Finished { woke: true }, OpAction::Deliver),
            (OpAnswer::Delivered, OpAction::Done),
        ],
    },
    Row {
        name: "answers of another kind change nothing in an operation",
        answers: &[
            (OpAnswer::ResultPut { woke: true }, OpAction::Call),
            (OpAnswer::Returned, OpAction::PutResult),
            (OpAnswer::Finished { woke: true }, OpAction::PutResult),
            (OpAnswer::ResultPut { woke: false }, OpAction::Finish),
            (OpAnswer::Returned, OpAction::Finish),
            (OpAnswer::Finished { woke: false }, OpAction::Done),
            (OpAnswer::Delivered, OpAction::Done),
        ],
    },
];

// Answers of another kind change nothing.
const READING: &[(ReadAnswer, ReadAction)] = &[
    (ReadAnswer::Delivered, ReadAction::FindRoom),
    (ReadAnswer::Gave(1), ReadAction::FindRoom),
    (ReadAnswer::Parked, ReadAction::FindRoom),
    (ReadAnswer::Free(0), ReadAction::FindRoom),
    (ReadAnswer::Free(100_000), ReadAction::Read(PIECE)),
    (ReadAnswer::Gave(65_537), ReadAction::Read(PIECE)),
    (ReadAnswer::Parked, ReadAction::Read(PIECE)),
    (ReadAnswer::Gave(65_536), ReadAction::Put(65_536)),
    (ReadAnswer::Failed, ReadAction::Put(65_536)),
    (ReadAnswer::Put { woke: true }, ReadAction::Deliver),
    (ReadAnswer::Shut, ReadAction::Deliver),
    (ReadAnswer::Delivered, ReadAction::FindRoom),
    (ReadAnswer::Shut, ReadAction::Close),
    (ReadAnswer::Finished { woke: true }, ReadAction::Close),
    (ReadAnswer::Closed { woke: true }, ReadAction::Deliver),
    (ReadAnswer::Delivered, ReadAction::Finish),
    (ReadAnswer::Finished { woke: true }, ReadAction::Deliver),
    (ReadAnswer::Delivered, ReadAction::Done),
    (ReadAnswer::Free(1), ReadAction::Done),
];

// So too. Nothing but a write or a flush is at fault.
const WRITING: &[(WriteAnswer<u8>, WriteAction)] = &[
    (WriteAnswer::Delivered, WriteAction::Peek),
    (WriteAnswer::Took(1), WriteAction::Peek),
    (WriteAnswer::Parked, WriteAction::Peek),
    (WriteAnswer::Peeked(0), WriteAction::Peek),
    (WriteAnswer::Peeked(PIECE + 1), WriteAction::Peek),
    (WriteAnswer::Peeked(PIECE), WriteAction::Write(PIECE)),
    (WriteAnswer::Took(PIECE + 1), WriteAction::Write(PIECE)),
    (WriteAnswer::Flushed, WriteAction::Write(PIECE)),
    (WriteAnswer::Took(3), WriteAction::Consume(3)),
    (WriteAnswer::Failed(1), WriteAction::Consume(3)),
    (WriteAnswer::Consumed { woke: true }, WriteAction::Deliver),
    (WriteAnswer::Drained, WriteAction::Deliver),
    (WriteAnswer::Failed(2), WriteAction::Deliver),
    (WriteAnswer::Delivered, WriteAction::Peek),
    (WriteAnswer::Drained, WriteAction::Flush),
    (WriteAnswer::Took(0), WriteAction::Flush),
    (WriteAnswer::Failed(3), WriteAction::Close),
    (WriteAnswer::Failed(4), WriteAction::Close),
    (WriteAnswer::Closed { woke: true }, WriteAction::Deliver),
    (WriteAnswer::Delivered, WriteAction::Finish),
    (WriteAnswer::Finished { woke: true }, WriteAction::Deliver),
    (WriteAnswer::Delivered, WriteAction::Done),
    (WriteAnswer::Peeked(1), WriteAction::Done),
];

// The reply of an owner whose session the pool refuses.
const REFUSED: &[(PollCall, Refusal, Reply<u8>)] = &[
    (
        PollCall::Read(2),
        Refusal::Memory,
        Reply::Failed(Fault::Refused(Refusal::Memory)),
    ),
    (
        PollCall::Seek(Position::Current(0)),
        Refusal::NoWorker,
        Reply::Failed(Fault::Refused(Refusal::NoWorker)),
    ),
    (
        PollCall::Next,
        Refusal::Memory,
        Reply::NotBegun(Refusal::Memory),
    ),
    (
        PollCall::Operate { has_begun: false },
        Refusal::Numbers,
        Reply::NotBegun(Refusal::Numbers),
    ),
];

// A call is made, finished and delivered.
fn play_calls(rt: &impl Abort, rows: &[Row<Answer, Action>]) {
    for row in rows {
        let mut core = CallCore::new();
        if core.next() != Action::Call {
            stop(rt, row.name, 0);
        }
        for (line, (answer, next)) in row.answers.iter().enumerate() {
            core.answer(*answer);
            if core.next() != *next {
                stop(rt, row.name, line);
            }
        }
    }
}

// Items are sent in turn.
fn play_items(rt: &impl Abort, rows: &[Row<ItemAnswer, ItemAction>]) {
    for row in rows {
        let mut core = ItemCore::new();
        if core.next() != ItemAction::Next {
            stop(rt, row.name, 0);
        }
        for (line, (answer, next)) in row.answers.iter().enumerate() {
            core.answer(*answer);
            if core.next() != *next {
                stop(rt, row.name, line);
            }
        }
    }
}

// A seek is made and finished.
fn play_seeks(rt: &impl Abort, rows: &[Row<SeekAnswer, SeekAction>]) {
    for row in rows {
        let mut core = SeekCore::new();
        if core.next() != SeekAction::Seek {
            stop(rt, row.name, 0);
        }
        for (line, (answer, next)) in row.answers.iter().enumerate() {
            core.answer(*answer);
            if core.next() != *next {
                stop(rt, row.name, line);
            }
        }
    }
}

// An operation leaves its result and then the handle.
fn play_operations(rt: &impl Abort, rows: &[Row<OpAnswer, OpAction>]) {
    for row in rows {
        let mut core = OpCore::new();
        if core.next() != OpAction::Call {
            stop(rt, row.name, 0);
        }
        for (line, (answer, next)) in row.answers.iter().enumerate() {
            core.answer(*answer);
            if core.next() != *next {
                stop(rt, row.name, line);
            }
        }
    }
}

fn play_reading(rt: &impl Abort) {
    let mut core = ReadCore::new();
    for (line, (answer, next)) in READING.iter().enumerate() {
        core.answer(*answer);
        if core.next() != *next {
            stop(rt, "answers that a reading job doesn't take", line);
        }
    }
}

fn play_writing(rt: &impl Abort) {
    let mut core = WriteCore::new();
    for (line, (answer, next)) in WRITING.iter().enumerate() {
        core.answer(*answer);
        if core.next() != *next {
            stop(rt, "answers that a writing job doesn't take", line);
        }
    }
    if core.fault() != Some(JobFault::Io(3)) {
        stop(rt, "the fault after them", WRITING.len());
    }
}

fn play_refusals(rt: &impl Abort) {
    for (line, (call, why, told)) in REFUSED.iter().enumerate() {
        let mut poll: OwnerCall<u8> = OwnerCall::new(*call, State::Idle);
        if poll.next() != OwnerAction::Begin {
            stop(rt, "a session begins", line);
        }
        poll.answer(OwnerAnswer::Refused(*why));
        if poll.next() != OwnerAction::Reply(*told) || poll.state() != State::Idle {
            stop(rt, "a session is refused", line);
        }
    }
}

#[test]
fn actions_follow_answers(rt: HostRuntime) {
    play_calls(&rt, CALLS);
    play_items(&rt, ITEMS);
    play_seeks(&rt, SEEKS);
    play_operations(&rt, OPERATIONS);
    play_reading(&rt);
    play_writing(&rt);
    play_refusals(&rt);
}
