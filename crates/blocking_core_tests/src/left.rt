//! Each call of an owner, left where it waits, with each other call after it. The job of its session stands anywhere, with stray wakes of
//! every job and without. The run goes on to the right reply. The handle may fail or end at a call, and a stop may be under way before.
use blocking_core::io::{Fault, Position};
use blocking_world::{World, run};
use blocking_world_laws::bytes::Bytes;
use blocking_world_laws::event::{Act, Event, Reply};
use blocking_world_laws::step::{HandleAnswer, HandleCall, Step};
use std::alloc::{AllocError, Global};
use std::test::Fail;

// What an owner is asked for.
#[derive(Clone, Copy, PartialEq, Eq, Debug)]
enum Call {
    // One byte.
    Read,
    // To take one byte.
    Write,
    Next,
    Seek,
    Operate,
    Flush,
    Close,
    Handle,
    Inner,
}

use Call::{Close, Flush, Handle, Inner, Next, Operate, Read, Seek, Write};

const CALLS: [Call; 9] = [
    Read, Write, Next, Seek, Operate, Flush, Close, Handle, Inner,
];

// What goes wrong with the handle of a session. Else each answer to its job is the number 1, one byte, the item 1, or that it was flushed.
#[derive(Clone, Copy)]
enum Trouble {
    Nothing,
    // The answer of this number, from 0, is a fault.
    Fails(u64),
    // So is each from that of this number on.
    FailsOn(u64),
    // The answer of this number says that nothing is left, or that none of the bytes were taken.
    Ends(u64),
}

use Strays::{ByTurns, With, Without};
use Trouble::{Ends, Fails, FailsOn, Nothing};

// With which cases stray wakes come.
#[derive(Clone, Copy)]
enum Strays {
    Without,
    With,
    // With every other one.
    ByTurns,
}

// The session with which a case begins.
#[derive(Clone, Copy)]
struct Session {
    // The call that it is for.
    call: Call,
    // What goes wrong with its handle.
    trouble: Trouble,
    // After how many acts of its job and of the worker a call for the handle stops it, and is left, if one does.
    stop: Option<usize>,
    strays: Strays,
}

// A session; after how many acts of its job and of the worker a call is left; whether stray wakes come there, and
// between the steps behind; the call that is left, and the one after it.
#[derive(Clone, Copy)]
struct Case {
    session: Session,
    acts: usize,
    has_strays: bool,
    first: Call,
    second: Call,
}

// So many acts lead from the beginning of a session to where its job parks or is over, and beyond.
const ACTS: usize = 15;

// How many cases there are of a session.
const CASES: usize = 9 * 9 * ACTS;

impl Case {
    // The case of this number; None beyond the last.
    fn of(session: Session, number: usize) -> Option<Case> {
        Some(Case {
            session,
            acts: number / 81 % ACTS,
            has_strays: match session.strays {
                Without => false,
                With => true,
                ByTurns => number % 2 > 0,
            },
            first: *CALLS.get(number / 9 % 9)?,
            second: *CALLS.get(number % 9)?,
        })
    }

    // Whether the second call may be made, where this came of the first: none of an owner who is gone, or was asked for its handle for good, and of a
    // closed one only a flush and a close.
    fn may_follow(self, first: Option<Reply>) -> bool {
        match (self.first, self.second) {
            (Inner, second) => first.is_none() && second == Inner,
            (Close, second) => first != Some(Reply::Okay) || matches!(second, Flush | Close),
            _ => true,
        }
    }
}

// What was seen of the session with which a case begins.
#[derive(Clone, Copy)]
struct Seen {
    // How many answers its job was given.
    answers: u64,
    // How many of them were bytes or items, and how many of these the owner got.
    came: u64,
    got: u64,
    // Whether one said that nothing is left.
    is_at_end: bool,
    // The first fault.
    fault: Option<Fault<u64>>,
    // Whether a call stopped it.
    is_stopped: bool,
    // Whether the job's end of the pipe is closed.
    is_closed: bool,
    // Whether the handle came back to its owner.
    is_back: bool,
}

impl Seen {
    fn new() -> Seen {
        Seen {
            answers: 0,
            came: 0,
            got: 0,
            is_at_end: false,
            fault: None,
            is_stopped: false,
            is_closed: false,
            is_back: false,
        }
    }

    fn see_fault(&mut self, fault: Fault<u64>) {
        if self.fault.is_none() {
            self.fault = Some(fault);
        }
    }

    fn see_answer(&mut self, session: Call, answer: &HandleAnswer) {
        self.answers = self.answers.saturating_add(1);
        match answer {
            HandleAnswer::Failed(error) => self.see_fault(Fault::Io(*error)),
            HandleAnswer::Number(0) if session == Write => self.see_fault(Fault::WriteZero),
            HandleAnswer::Gave(bytes) if bytes.as_slice().is_empty() => self.is_at_end = true,
            HandleAnswer::NoItem => self.is_at_end = true,
            HandleAnswer::Gave(_) | HandleAnswer::Item(_) => self.came = self
                .came
                .saturating_add(1),
            _ => {}
        }
    }

    // Takes note of an event, until the session is over.
    fn see(&mut self, session: Call, event: &Event) {
        if self.is_back {
            return;
        }
        match &event.act {
            Act::Answered(answer) => self.see_answer(session, answer),
            Act::Got(_, _) | Act::GotItem(_, _) => self.got = self.got.saturating_add(1),
            Act::JobClosed(_) => self.is_closed = true,
            Act::Back => self.is_back = true,
            _ => {}
        }
    }

    // What a call replies that goes on with the session, where the owner had got so much before; None where it has to wait.
    fn reply_of_own(self, call: Call, got: u64) -> Option<Reply> {
        match (call, self.fault) {
            (Write, _) if self.is_closed => Some(Reply::Count(0)),
            (Write, _) => Some(call.reply()),
            _ if self.came > got => Some(call.reply()),
            (Read, Some(fault)) => Some(Reply::Failed(fault)),
            (Read, None) if self.is_at_end => Some(Reply::Count(0)),
            (Next, _) if self.is_at_end => Some(Reply::NoMore),
            _ => None,
        }
    }

    // What a call replies that stops the session, or waits for its end.
    fn reply_of_stop(self, call: Call) -> Reply {
        match (call, self.fault) {
            (Read | Write | Seek | Flush | Close, Some(fault)) => Reply::Failed(fault),
            _ => call.reply(),
        }
    }
}

fn bytes(alloc: Global, count: usize) -> Result<Bytes, AllocError> {
    let mut bytes = Vec::new(alloc);
    for _ in 0..count {
        bytes.push(b'z')?;
    }
    Ok(Bytes::new(bytes))
}

impl Call {
    // What it asks for. (an operation that waits is asked for again)
    fn asked(self, alloc: Global, is_again: bool) -> Result<Step, AllocError> {
        let call = match self {
            Read => HandleCall::Read(1),
            Write => HandleCall::Write(bytes(alloc, 1)?),
            Next => HandleCall::Next,
            Seek => HandleCall::Seek(Position::Current(1)),
            Operate if is_again => HandleCall::OperateAgain,
            Operate => HandleCall::Operate,
            Flush => HandleCall::Flush,
            Close => HandleCall::Close,
            Handle => HandleCall::GetMut,
            Inner => HandleCall::IntoInner,
        };
        Ok(Step::Ask(0, call))
    }

    // What it replies where nothing goes wrong.
    fn reply(self) -> Reply {
        match self {
            Read | Write | Seek | Operate => Reply::Count(1),
            Next => Reply::OneItem(1),
            Flush | Close => Reply::Okay,
            Handle | Inner => Reply::Handle,
        }
    }

    // Whether it goes on with a session of this kind that isn't stopped.
    fn goes_on_in(self, session: Call) -> bool {
        self == session && matches!(session, Read | Write | Next)
    }
}

impl Trouble {
    // The answer of this number, in each form: only that has an action for which the job asked.
    fn answer(self, alloc: Global, number: u64, form: usize) -> Result<HandleAnswer, AllocError> {
        let (fails, is_end) = match self {
            Nothing => (false, false),
            Fails(at) => (number == at, false),
            FailsOn(first) => (number >= first, false),
            Ends(at) => (false, number == at),
        };
        if fails {
            return Ok(HandleAnswer::Failed(number));
        }
        Ok(match form {
            0 => HandleAnswer::Gave(bytes(alloc, if is_end { 0 } else { 1 })?),
            1 => HandleAnswer::Number(if is_end { 0 } else { 1 }),
            2 if is_end => HandleAnswer::NoItem,
            2 => HandleAnswer::Item(1),
            _ => HandleAnswer::Fine,
        })
    }
}

// What a poll of the owner replied, if it did.
fn replied(events: &[Event]) -> Option<Reply> {
    for event in events {
        if let Act::Replied(reply) = &event.act {
            return Some(*reply);
        }
    }
    None
}

// Whether nothing was done.
fn is_nothing(events: &[Event]) -> bool {
    match events.first() {
        Some(event) => matches!(event.act, Act::NoAction),
        None => true,
    }
}

// A world, and how its steps are taken.
#[derive(Drop)]
struct Play<'a> {
    alloc: Global,
    world: &'a mut World,
    session: Session,
    has_strays: bool,
    seen: Seen,
}

// More actions than a poll has.
const POLL: u32 = 20;

// More rounds than two sessions take.
const ROUNDS: u32 = 40;

impl Play<'_> {
    // Takes a step, and answers what is seen of it.
    fn run(&mut self, step: Step) -> Result<Vec<Event>, AllocError> {
        let events = run(self.alloc, self.world, &[step])?;
        for event in events.as_slice() {
            self.seen.see(self.session.call, event);
        }
        Ok(events)
    }

    // Takes a step. Whether it had an action.
    fn take(&mut self, step: Step) -> Result<bool, AllocError> {
        let events = self.run(step)?;
        Ok(!is_nothing(&events))
    }

    // What the handle answers, in one of four forms: as it does in trouble until it is back.
    fn answer(&self, form: usize) -> Result<HandleAnswer, AllocError> {
        let trouble = if self.seen.is_back {
            Nothing
        } else {
            self.session.trouble
        };
        trouble.answer(self.alloc, self.seen.answers, form)
    }

    // Lets the worker or its job act once: only one of these steps has an action. Whether one has. (a worker that finds no job doesn't act)
    fn act_once(&mut self) -> Result<bool, AllocError> {
        if self.world.has_job_action(1) {
            return self.take(Step::Job(1));
        }
        if self.world.queue_len() > 0 && (self.take(Step::Take(1))? || self.take(Step::Arrive)?) {
            return Ok(true);
        }
        for form in 0..4 {
            if self.take(Step::Io(1, self.answer(form)?))? {
                return Ok(true);
            }
        }
        self.take(Step::End(1))
    }

    // Wakes each job twice, by nobody in particular, where that is wanted.
    fn stray(&mut self) -> Result<(), AllocError> {
        if self.has_strays {
            let strays = [
                Step::Stray(1),
                Step::Stray(2),
                Step::Stray(2),
                Step::Stray(1),
            ];
            run(self.alloc, self.world, &strays)?;
        }
        Ok(())
    }

    // Lets the worker and its job act so often. Whether they could.
    fn act(&mut self, acts: usize) -> Result<bool, AllocError> {
        for _ in 0..acts {
            if !self.act_once()? {
                return Ok(false);
            }
        }
        Ok(true)
    }

    // Lets the worker and its job act once, and the job then by itself as long as it can, with stray wakes behind that.
    fn work(&mut self) -> Result<(), AllocError> {
        self.act_once()?;
        for _ in 0..POLL {
            if !self.world.has_job_action(1) {
                break;
            }
            self.take(Step::Job(1))?;
        }
        self.stray()
    }

    // Makes a poll, and answers its reply; None where it waits or may not be made.
    fn polls(&mut self, call: Call, is_again: bool) -> Result<Option<Reply>, AllocError> {
        self.take(call.asked(self.alloc, is_again)?)?;
        if !call.goes_on_in(self.session.call) {
            self.seen.is_stopped = true;
        }
        for _ in 0..POLL {
            if !self.world.poll_under_way(0) {
                return Ok(None);
            }
            let events = self.run(Step::Own(0))?;
            if let Some(reply) = replied(&events) {
                return Ok(Some(reply));
            }
        }
        Ok(None)
    }

    // What a call replies in the end, polled again and again beside the worker and its job.
    fn answers(&mut self, call: Call) -> Result<Option<Reply>, AllocError> {
        for round in 0..ROUNDS {
            if let Some(reply) = self.polls(call, round > 0)? {
                return Ok(Some(reply));
            }
            self.work()?;
        }
        Ok(None)
    }

    // Begins the session, whose call is polled twice: what is written fills the pipe so. Then that may be stopped.
    // Whether the job acts so often before.
    fn begin(&mut self) -> Result<bool, AllocError> {
        let Session { call, stop, .. } = self.session;
        self.take(Step::New(2, 0))?;
        self.polls(call, false)?;
        self.polls(call, true)?;
        let Some(acts) = stop else {
            return Ok(true);
        };
        if !self.act(acts)? {
            return Ok(false);
        }
        self.polls(Handle, false)?;
        Ok(true)
    }

    // Whether the worker has nothing to do: each job is parked or over.
    fn rests(&self) -> bool {
        self.world.queue_len() == 0 && self.world.idle_count() == self.world.thread_count()
    }

    // What a call must reply that was asked when this was seen: nothing is left of a session that was over before.
    fn wanted(&self, call: Call, before: Seen) -> Option<Reply> {
        if before.is_back {
            return Some(call.reply());
        }
        if call.goes_on_in(self.session.call) && !before.is_stopped {
            return self.seen.reply_of_own(call, before.got);
        }
        Some(self.seen.reply_of_stop(call))
    }

    // Whether the first call waits, or replies as it must; None where it waits.
    fn leaves(&mut self, call: Call) -> Result<(bool, Option<Reply>), AllocError> {
        let before = self.seen;
        let first = self.polls(call, false)?;
        let is_right = first.is_none() || first == self.wanted(call, before);
        Ok((is_right, first))
    }

    // Whether the second call replies as it must.
    fn follows(&mut self, call: Call) -> Result<bool, AllocError> {
        let before = self.seen;
        let second = self.answers(call)?;
        Ok(second.is_some() && second == self.wanted(call, before))
    }

    // Whether a case goes as it must.
    fn is_right(&mut self, case: Case) -> Result<bool, AllocError> {
        // (a job that parks or is over acts no more)
        if !self.begin()? || !self.act(case.acts)? {
            return Ok(self.rests());
        }
        self.stray()?;
        let (is_right, first) = self.leaves(case.first)?;
        self.stray()?;
        if !is_right {
            return Ok(false);
        }
        if case.may_follow(first) {
            self.follows(case.second)
        } else {
            Ok(self.polls(case.second, false)?.is_none())
        }
    }
}

// Plays a case in a world of one worker, and ends the world.
fn is_right(alloc: Global, case: Case) -> Result<bool, AllocError> {
    let mut world = World::new(alloc, Some("1"), Vec::new(alloc));
    let mut play = Play {
        alloc,
        world: &mut world,
        session: case.session,
        has_strays: case.has_strays,
        seen: Seen::new(),
    };
    let outcome = play.is_right(case);
    drop(play);
    world.close();
    outcome
}

// Sessions with which nothing goes wrong.
const READS_WRITES_AND_ITEMS: &[Session] = &[
    Session {
        call: Read,
        trouble: Nothing,
        stop: None,
        strays: Without,
    },
    Session {
        call: Read,
        trouble: Nothing,
        stop: None,
        strays: With,
    },
    Session {
        call: Write,
        trouble: Nothing,
        stop: None,
        strays: Without,
    },
    Session {
        call: Write,
        trouble: Nothing,
        stop: None,
        strays: With,
    },
    Session {
        call: Next,
        trouble: Nothing,
        stop: None,
        strays: Without,
    },
    Session {
        call: Next,
        trouble: Nothing,
        stop: None,
        strays: With,
    },
];

const SEEKS_AND_OPERATIONS: &[Session] = &[
    Session {
        call: Seek,
        trouble: Nothing,
        stop: None,
        strays: Without,
    },
    Session {
        call: Seek,
        trouble: Nothing,
        stop: None,
        strays: With,
    },
    Session {
        call: Operate,
        trouble: Nothing,
        stop: None,
        strays: Without,
    },
    Session {
        call: Operate,
        trouble: Nothing,
        stop: None,
        strays: With,
    },
];

// Sessions whose handle fails. (an operation doesn't fail)
const FAILING_READS_AND_SEEKS: &[Session] = &[
    Session {
        call: Read,
        trouble: Fails(0),
        stop: None,
        strays: ByTurns,
    },
    Session {
        call: Read,
        trouble: Fails(1),
        stop: None,
        strays: ByTurns,
    },
    Session {
        call: Read,
        trouble: Fails(2),
        stop: None,
        strays: ByTurns,
    },
    Session {
        call: Seek,
        trouble: Fails(0),
        stop: None,
        strays: ByTurns,
    },
];

const FAILING_WRITES: &[Session] = &[
    Session {
        call: Write,
        trouble: Fails(0),
        stop: None,
        strays: ByTurns,
    },
    Session {
        call: Write,
        trouble: Fails(1),
        stop: None,
        strays: ByTurns,
    },
    Session {
        call: Write,
        trouble: Fails(2),
        stop: None,
        strays: ByTurns,
    },
    Session {
        call: Write,
        trouble: FailsOn(0),
        stop: None,
        strays: ByTurns,
    },
    Session {
        call: Write,
        trouble: FailsOn(1),
        stop: None,
        strays: ByTurns,
    },
    Session {
        call: Write,
        trouble: FailsOn(2),
        stop: None,
        strays: ByTurns,
    },
];

// Sessions whose handle is at its end, or takes none of the bytes.
const ENDING_READS_AND_ITEMS: &[Session] = &[
    Session {
        call: Read,
        trouble: Ends(0),
        stop: None,
        strays: ByTurns,
    },
    Session {
        call: Read,
        trouble: Ends(1),
        stop: None,
        strays: ByTurns,
    },
    Session {
        call: Read,
        trouble: Ends(2),
        stop: None,
        strays: ByTurns,
    },
    Session {
        call: Next,
        trouble: Ends(0),
        stop: None,
        strays: ByTurns,
    },
    Session {
        call: Next,
        trouble: Ends(1),
        stop: None,
        strays: ByTurns,
    },
    Session {
        call: Next,
        trouble: Ends(2),
        stop: None,
        strays: ByTurns,
    },
];

const WRITES_OF_NONE: &[Session] = &[
    Session {
        call: Write,
        trouble: Ends(0),
        stop: None,
        strays: ByTurns,
    },
    Session {
        call: Write,
        trouble: Ends(1),
        stop: None,
        strays: ByTurns,
    },
    Session {
        call: Write,
        trouble: Ends(2),
        stop: None,
        strays: ByTurns,
    },
];

// Sessions of which a stop is under way before a call is left: it came while the job was queued, or once its handle had answered.
const STOPPED_READS: &[Session] = &[
    Session {
        call: Read,
        trouble: Nothing,
        stop: Some(0),
        strays: ByTurns,
    },
    Session {
        call: Read,
        trouble: Fails(0),
        stop: Some(0),
        strays: ByTurns,
    },
    Session {
        call: Read,
        trouble: Fails(1),
        stop: Some(0),
        strays: ByTurns,
    },
    Session {
        call: Read,
        trouble: Nothing,
        stop: Some(4),
        strays: ByTurns,
    },
    Session {
        call: Read,
        trouble: Fails(0),
        stop: Some(4),
        strays: ByTurns,
    },
    Session {
        call: Read,
        trouble: Fails(1),
        stop: Some(4),
        strays: ByTurns,
    },
];

const STOPPED_WRITES: &[Session] = &[
    Session {
        call: Write,
        trouble: Nothing,
        stop: Some(0),
        strays: ByTurns,
    },
    Session {
        call: Write,
        trouble: FailsOn(0),
        stop: Some(0),
        strays: ByTurns,
    },
    Session {
        call: Write,
        trouble: Fails(2),
        stop: Some(0),
        strays: ByTurns,
    },
    Session {
        call: Write,
        trouble: Nothing,
        stop: Some(4),
        strays: ByTurns,
    },
    Session {
        call: Write,
        trouble: FailsOn(0),
        stop: Some(4),
        strays: ByTurns,
    },
    Session {
        call: Write,
        trouble: Fails(2),
        stop: Some(4),
        strays: ByTurns,
    },
];

const STOPPED_ITEMS: &[Session] = &[
    Session {
        call: Next,
        trouble: Nothing,
        stop: Some(0),
        strays: ByTurns,
    },
    Session {
        call: Next,
        trouble: Ends(1),
        stop: Some(0),
        strays: ByTurns,
    },
    Session {
        call: Next,
        trouble: Nothing,
        stop: Some(4),
        strays: ByTurns,
    },
    Session {
        call: Next,
        trouble: Ends(1),
        stop: Some(4),
        strays: ByTurns,
    },
];

const STOPPED_SEEKS_AND_OPERATIONS: &[Session] = &[
    Session {
        call: Seek,
        trouble: Nothing,
        stop: Some(0),
        strays: ByTurns,
    },
    Session {
        call: Seek,
        trouble: Fails(0),
        stop: Some(0),
        strays: ByTurns,
    },
    Session {
        call: Seek,
        trouble: Nothing,
        stop: Some(4),
        strays: ByTurns,
    },
    Session {
        call: Seek,
        trouble: Fails(0),
        stop: Some(4),
        strays: ByTurns,
    },
    Session {
        call: Operate,
        trouble: Nothing,
        stop: Some(0),
        strays: ByTurns,
    },
    Session {
        call: Operate,
        trouble: Nothing,
        stop: Some(4),
        strays: ByTurns,
    },
];

// The first case of a session that doesn't go as it must.
fn first_wrong(alloc: Global, session: Session) -> Result<Option<usize>, AllocError> {
    for number in 0..CASES {
        let Some(case) = Case::of(session, number) else {
            return Ok(None);
        };
        if !is_right(alloc, case)? {
            return Ok(Some(number));
        }
    }
    Ok(None)
}

// No case of these sessions goes wrong.
fn all_go(rt: &HostRuntime, sessions: &[Session]) -> Result<(), Fail> {
    for (place, session) in sessions.iter().enumerate() {
        let wrong = first_wrong(rt.alloc(), *session)?;
        if let Some(number) = wrong {
            return Err(Fail::new(format_args!("session {place}, case {number}")));
        }
    }
    Ok(())
}

// One test would use up most of a test's time limit.
#[test]
fn calls_follow_behind_reads_writes_and_items(rt: HostRuntime) -> Result<(), Fail> {
    all_go(&rt, READS_WRITES_AND_ITEMS)
}

#[test]
fn calls_follow_behind_seeks_and_operations(rt: HostRuntime) -> Result<(), Fail> {
    all_go(&rt, SEEKS_AND_OPERATIONS)
}

#[test]
fn calls_follow_behind_reads_and_seeks_that_fail(rt: HostRuntime) -> Result<(), Fail> {
    all_go(&rt, FAILING_READS_AND_SEEKS)
}

#[test]
fn calls_follow_behind_writes_that_fail(rt: HostRuntime) -> Result<(), Fail> {
    all_go(&rt, FAILING_WRITES)
}

#[test]
fn calls_follow_behind_reads_and_items_at_their_end(rt: HostRuntime) -> Result<(), Fail> {
    all_go(&rt, ENDING_READS_AND_ITEMS)
}

#[test]
fn calls_follow_behind_writes_that_take_none(rt: HostRuntime) -> Result<(), Fail> {
    all_go(&rt, WRITES_OF_NONE)
}

#[test]
fn calls_follow_behind_stopped_reads(rt: HostRuntime) -> Result<(), Fail> {
    all_go(&rt, STOPPED_READS)
}

#[test]
fn calls_follow_behind_stopped_writes(rt: HostRuntime) -> Result<(), Fail> {
    all_go(&rt, STOPPED_WRITES)
}

#[test]
fn calls_follow_behind_stopped_items(rt: HostRuntime) -> Result<(), Fail> {
    all_go(&rt, STOPPED_ITEMS)
}

#[test]
fn calls_follow_behind_stopped_seeks_and_operations(rt: HostRuntime) -> Result<(), Fail> {
    all_go(&rt, STOPPED_SEEKS_AND_OPERATIONS)
}
