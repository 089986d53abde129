//! The texts of events that no script of steps shows: of counters at their bounds, and of refusals for want of memory and of numbers.
use crate::row::agree;
use blocking_core::pool::Refusal;
use blocking_world_laws::bytes::Bytes;
use blocking_world_laws::event::{Act, Event, Party, Reply};
use blocking_world_laws::step::HandleAnswer;
use std::alloc::Global;
use std::test::Fail;

// The growth of an event: the number of the next start, how many workers were started, and whether one more start was refused.
#[derive(Clone, Copy)]
struct Grown {
    first: u64,
    started: u64,
    is_refused: bool,
}

// The same behind an event at which no worker was started.
const NONE: Grown = Grown {
    first: 1,
    started: 0,
    is_refused: false,
};

fn growth(first: u64, started: u64, is_refused: bool) -> Grown {
    Grown {
        first,
        started,
        is_refused,
    }
}

// An event of the pool shows this text, and its twin shows it too.
fn shows(alloc: Global, act: Act, grown: Grown, text: &str) -> Result<(), Fail> {
    let event = Event {
        party: Party::Pool,
        owner: None,
        job: None,
        act,
        first: grown.first,
        started: grown.started,
        start_refused: grown.is_refused,
    };
    let twin = event.twin()?;
    let (of_twin, shown) = (format!(in alloc; "{twin}")?, format!(in alloc; "{event}")?);
    agree("the text of a twin", of_twin.as_str(), text)?;
    agree("a text", shown.as_str(), text)
}

#[test]
fn texts_that_no_script_shows(rt: HostRuntime) -> Result<(), Fail> {
    let alloc = rt.alloc();
    shows(
        alloc,
        Act::Refused(Refusal::NoWorker),
        NONE,
        "refused worker",
    )?;
    shows(
        alloc,
        Act::Refused(Refusal::Numbers),
        NONE,
        "refused numbers",
    )?;
    shows(
        alloc,
        Act::Replied(Reply::NotBegun(Refusal::Memory)),
        NONE,
        "replied refused memory",
    )?;
    shows(
        alloc,
        Act::Replied(Reply::NotBegun(Refusal::Numbers)),
        NONE,
        "replied refused numbers",
    )?;
    shows(
        alloc,
        Act::Got(Bytes::new([0u8, 255].to_vec(alloc)?), Some(7)),
        NONE,
        "got 00ff wake 7",
    )?;
    shows(alloc, Act::GotItem(0, Some(7)), NONE, "got item 0 wake 7")?;
    shows(
        alloc,
        Act::Answered(HandleAnswer::Gave(Bytes::new(b"a~".to_vec(alloc)?))),
        NONE,
        "answered 617e",
    )?;
    shows(alloc, Act::Linked(3), NONE, "linked 3")?;
    shows(
        alloc,
        Act::Copied(u64::MAX),
        NONE,
        "copied 18446744073709551615",
    )?;
    shows(alloc, Act::Took(1), growth(2, 3, false), "took 1 +2 +3 +4")?;
    shows(
        alloc,
        Act::Accepted(6),
        growth(2, 1, true),
        "accepted 6 +2 -3",
    )?;
    shows(
        alloc,
        Act::Accepted(7),
        growth(u64::MAX, 0, true),
        "accepted 7 -18446744073709551615",
    )?;
    shows(
        alloc,
        Act::Swept(9),
        growth(u64::MAX, 2, false),
        "swept 9 +18446744073709551615 +18446744073709551616",
    )
}
