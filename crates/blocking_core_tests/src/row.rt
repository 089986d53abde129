//! Steps of worlds as plain data, and what is seen of them.
use blocking_core::io::Position;
use blocking_world_laws::bytes::Bytes;
use blocking_world_laws::event::Event;
use blocking_world_laws::step::{HandleAnswer, HandleCall, Step, TaskCall};
use std::alloc::{AllocError, Global};
use std::test::Fail;

// A step as plain data. An owner is asked to write the bytes of a text. What a job asks for is answered by a number (`Io`), by the bytes
// of a text (`Gives`), by a flush that is done (`Flushed`), or by an item (`GivesItem`) or none (`HasNoItem`).
#[derive(Clone, Copy)]
pub(crate) enum PlainStep {
    New(usize),
    AskRead(usize, u64),
    AskWrite(usize, &'static str),
    AskFlush(usize),
    AskNext(usize),
    AskSeek(usize, Position),
    Own(usize),
    Spawn,
    OfTask(usize, TaskCall),
    Arrive,
    Take(usize),
    Job(usize),
    Io(usize, u64),
    Gives(usize, &'static str),
    Flushed(usize),
    GivesItem(usize, u64),
    HasNoItem(usize),
    End(usize),
    Late(usize),
}

fn bytes(alloc: Global, text: &str) -> Result<Bytes, AllocError> {
    Ok(Bytes::new(text.as_bytes().to_vec(alloc)?))
}

impl PlainStep {
    // The step itself.
    pub(crate) fn step(self, alloc: Global) -> Result<Step, AllocError> {
        Ok(match self {
            PlainStep::New(capacity) => Step::New(capacity, 0),
            PlainStep::AskRead(owner, most) => Step::Ask(owner, HandleCall::Read(most)),
            PlainStep::AskWrite(owner, text) => {
                Step::Ask(owner, HandleCall::Write(bytes(alloc, text)?))
            }
            PlainStep::AskFlush(owner) => Step::Ask(owner, HandleCall::Flush),
            PlainStep::AskNext(owner) => Step::Ask(owner, HandleCall::Next),
            PlainStep::AskSeek(owner, to) => Step::Ask(owner, HandleCall::Seek(to)),
            PlainStep::Own(owner) => Step::Own(owner),
            PlainStep::Spawn => Step::Spawn(0),
            PlainStep::OfTask(task, call) => Step::OfTask(task, call),
            PlainStep::Arrive => Step::Arrive,
            PlainStep::Take(worker) => Step::Take(worker),
            PlainStep::Job(worker) => Step::Job(worker),
            PlainStep::Io(worker, number) => Step::Io(worker, HandleAnswer::Number(number)),
            PlainStep::Gives(worker, text) => {
                Step::Io(worker, HandleAnswer::Gave(bytes(alloc, text)?))
            }
            PlainStep::Flushed(worker) => Step::Io(worker, HandleAnswer::Fine),
            PlainStep::GivesItem(worker, item) => Step::Io(worker, HandleAnswer::Item(item)),
            PlainStep::HasNoItem(worker) => Step::Io(worker, HandleAnswer::NoItem),
            PlainStep::End(worker) => Step::End(worker),
            PlainStep::Late(worker) => Step::Late(worker),
        })
    }
}

// What was seen is what was to be seen there.
pub(crate) fn agree(place: &str, seen: &str, text: &str) -> Result<(), Fail> {
    if seen == text {
        return Ok(());
    }
    Err(Fail::new(format_args!("{place}: '{seen}' in place of '{text}'")))
}

// Adds a line to a text.
pub(crate) fn add_line(text: &mut String, line: &str) -> Result<(), AllocError> {
    text.push_str(line)?;
    text.push_str("\n")
}

// The texts of these events, a line each.
pub(crate) fn texts(alloc: Global, events: &[Event]) -> Result<String, AllocError> {
    let mut text = String::new(alloc);
    for event in events {
        add_line(&mut text, format!(in alloc; "{event}")?.as_str())?;
    }
    Ok(text)
}
