//! The texts of events.
ghost use Rattle.std.specs.Prelude.{◌≡◌, Some};
ghost use Rattle.std.specs.Fmt.{WritesOnOk};
ghost use Rattle.blocking_world_laws.specs.Texts.{act_text, answer_text, event_text, note_text, reply_text, starts_text, wake_text, refusal_text, woke_text, standing_text, side_text};

use crate::event::{Act, CopySide, Event, HolderWaker, Reply};
use crate::step::HandleAnswer;
use blocking_core::io::Fault;
use blocking_core::pool::{Refusal, Standing, Woke};
use std::fmt;

impl fmt::Display for Event {
    ghost output = { λ event. Some (event_text event) };

    fn fmt<W: fmt::Write>(&self, f: &mut fmt::Formatter<W>) -> fmt::Result {
        let act = &self.act;
        write!(f, "{act}")?;
        write_starts(f, self.first, self.started)?;
        if self.start_refused {
            let number = u128::from(self.first) + u128::from(self.started);
            write!(f, " -{number}")?;
        }
        Ok(())
    }
}

// Writes the numbers of so many starts, numbered on from the first.
fn write_starts<W: fmt::Write>(f: &mut fmt::Formatter<W>, first: u64, started: u64) -> fmt::Result
    ensures { WritesOnOk W.write_str_gives f.old result (starts_text first started) f.new }
{
    for count in 0..started {
        let number = u128::from(first) + u128::from(count);
        write!(f, " +{number}")?;
    }
    Ok(())
}

impl fmt::Display for Act {
    ghost output = { λ act. Some (act_text act) };

    fn fmt<W: fmt::Write>(&self, f: &mut fmt::Formatter<W>) -> fmt::Result {
        match self {
            Act::Made(owner, _) => write!(f, "made {owner}"),
            Act::Asked(_) => f.write_str("asked"),
            Act::OwnerClosed(note) => write!(f, "closed{}", Noted(*note)),
            Act::Got(bytes, note) => write!(f, "got {bytes}{}", Noted(*note)),
            Act::GotItem(item, note) => write!(f, "got item {item}{}", Noted(*note)),
            Act::GotEnd => f.write_str("got end"),
            Act::Filled(count, note) => write!(f, "put {count}{}", Noted(*note)),
            Act::FillShut => f.write_str("put shut"),
            Act::Back => f.write_str("back"),
            Act::ResultGot(number) => write!(f, "result {number}"),
            Act::Replied(reply) => write!(f, "replied {reply}"),
            Act::Accepted(serial) => write!(f, "accepted {serial}"),
            Act::Refused(why) => write!(f, "refused {}", refusal_word(*why)),
            Act::JobWoken(serial, woke) => write!(f, "delivered {serial} {}", woke_word(*woke)),
            Act::JobCancelled(serial, woke) => write!(f, "cancelled {serial} {}", woke_word(*woke)),
            Act::LimitSet(limit) => write!(f, "limit {limit}"),
            Act::ClientLimitSet(Some(limit)) => write!(f, "clients {limit}"),
            Act::ClientLimitSet(None) => f.write_str("clients none"),
            Act::Swept(count) => write!(f, "swept {count}"),
            Act::Waits => f.write_str("waits"),
            Act::HolderDropped => f.write_str("dropped"),
            Act::TaskGot(number) => write!(f, "got {number}"),
            Act::TaskGotNone => f.write_str("got none"),
            Act::TaskCancelled => f.write_str("cancelled"),
            Act::TaskDetached => f.write_str("detached"),
            Act::Arrived(worker) => write!(f, "arrived {worker}"),
            Act::Took(serial) => write!(f, "took {serial}"),
            Act::TookDropped(serial) => write!(f, "took {serial} dropped"),
            Act::TookNone => f.write_str("idle"),
            Act::Stays(worker, _) => write!(f, "stays {worker}"),
            Act::Stopped(worker, _) => write!(f, "stopped {worker}"),
            Act::Ended(serial, how) => write!(f, "ended {serial} {}", standing_word(*how)),
            Act::HandedOut(serial) => write!(f, "drop {serial}"),
            Act::Answered(answer) => write!(f, "answered {answer}"),
            Act::RoomFree(room) => write!(f, "room {room}"),
            Act::RoomShut => f.write_str("shut"),
            Act::JobParked => f.write_str("parked"),
            Act::Put(count, waker) => write!(f, "put {count}{}", wake_word(*waker)),
            Act::Lost(count) => write!(f, "lost {count}"),
            Act::Peeked(bytes) => write!(f, "peeked {}", bytes.as_slice().len()),
            Act::Drained => f.write_str("drained"),
            Act::Taken(count, waker) => write!(f, "taken {count}{}", wake_word(*waker)),
            Act::JobClosed(waker) => write!(f, "closed{}", wake_word(*waker)),
            Act::ResultPut(waker) => write!(f, "result{}", wake_word(*waker)),
            Act::Finished(waker) => write!(f, "finished{}", wake_word(*waker)),
            Act::GaveUp(waker) => write!(f, "gave up{}", wake_word(*waker)),
            Act::HolderWoken => f.write_str("delivered owner"),
            Act::Linked(copier) => write!(f, "linked {copier}"),
            Act::Copied(count) => write!(f, "copied {count}"),
            Act::CopyFailed(side) => write!(f, "copy failed {}", side_word(*side)),
            Act::NoAction => f.write_str("nothing"),
        }
    }
}

impl fmt::Display for HandleAnswer {
    ghost output = { λ answer. Some (answer_text answer) };

    fn fmt<W: fmt::Write>(&self, f: &mut fmt::Formatter<W>) -> fmt::Result {
        match self {
            HandleAnswer::Number(number) => write!(f, "{number}"),
            HandleAnswer::Gave(bytes) => write!(f, "{bytes}"),
            HandleAnswer::Fine => f.write_str("ok"),
            HandleAnswer::Item(item) => write!(f, "item {item}"),
            HandleAnswer::NoItem => f.write_str("none"),
            HandleAnswer::Failed(error) => write!(f, "fault {error}"),
        }
    }
}

impl fmt::Display for Reply {
    ghost output = { λ reply. Some (reply_text reply) };

    fn fmt<W: fmt::Write>(&self, f: &mut fmt::Formatter<W>) -> fmt::Result {
        match *self {
            Reply::Okay => f.write_str("ok"),
            Reply::Count(count) => write!(f, "ok {count}"),
            Reply::OneItem(item) => write!(f, "item {item}"),
            Reply::NoMore => f.write_str("end"),
            Reply::Handle => f.write_str("handle"),
            Reply::Failed(Fault::Io(error)) => write!(f, "fault io {error}"),
            Reply::Failed(Fault::WriteZero) => f.write_str("fault write-zero"),
            Reply::Failed(Fault::Refused(why)) => write!(f, "fault refused {}", refusal_word(why)),
            Reply::NotBegun(why) => write!(f, "refused {}", refusal_word(why)),
        }
    }
}

// The job whose note was taken out of its seat, if one was seated.
#[derive(Clone, Copy)]
struct Noted(Option<u64>);

impl fmt::Display for Noted {
    ghost output = { λ noted. Some (note_text noted.0) };

    fn fmt<W: fmt::Write>(&self, f: &mut fmt::Formatter<W>) -> fmt::Result {
        match self.0 {
            Some(serial) => write!(f, " wake {serial}"),
            None => Ok(()),
        }
    }
}

fn refusal_word(why: Refusal) -> &'static str
    ensures { result.now ≡ refusal_text why }
{
    match why {
        Refusal::Memory => "memory",
        Refusal::NoWorker => "worker",
        Refusal::Numbers => "numbers",
    }
}

fn woke_word(woke: Woke) -> &'static str
    ensures { result.now ≡ woke_text woke }
{
    match woke {
        Woke::Entered => "entered",
        Woke::Marked => "marked",
        Woke::Nothing => "nothing",
    }
}

fn standing_word(standing: Standing) -> &'static str
    ensures { result.now ≡ standing_text standing }
{
    match standing {
        Standing::Queued => "queued",
        Standing::Running => "running",
        Standing::Parked => "parked",
        Standing::Done => "done",
        Standing::Dropped => "dropped",
    }
}

fn side_word(side: CopySide) -> &'static str
    ensures { result.now ≡ side_text side }
{
    match side {
        CopySide::Reading => "reading",
        CopySide::Writing => "writing",
    }
}

fn wake_word(waker: HolderWaker) -> &'static str
    ensures { result.now ≡ wake_text waker }
{
    match waker {
        HolderWaker::Taken => " wake owner",
        HolderWaker::Absent => "",
    }
}
