//! Copies of events, into room that was taken before.
ghost use Rattle.std.specs.Prelude.{◌≡◌, ◌≤◌, [], length, vec_capacity};
ghost use Rattle.blocking_world_state.specs.Carried.{bytes_of};

use blocking_world_laws::bytes::Bytes;
use blocking_world_laws::event::{Act, Event};
use blocking_world_laws::step::{HandleAnswer, HandleCall};

/// The same event once more, its bytes in this room, which is empty and large enough for them. Takes no memory.
pub(crate) fn twin_in(event: &Event, room: Vec<u8>) -> Event
    requires empty { room.items ≡ [] }
    requires enough { length (bytes_of event.now.act) ≤ vec_capacity room }
    ensures { result ≡ event.now }
{
    Event {
        party: event.party,
        owner: event.owner,
        job: event.job,
        act: act_in(&event.act, room),
        first: event.first,
        started: event.started,
        start_refused: event.start_refused,
    }
}

// The same act once more; one without bytes is copied as it is.
fn act_in(act: &Act, room: Vec<u8>) -> Act
    requires empty { room.items ≡ [] }
    requires enough { length (bytes_of act.now) ≤ vec_capacity room }
    ensures { result ≡ act.now }
{
    match act {
        Act::Asked(HandleCall::Write(bytes)) => Act::Asked(HandleCall::Write(bytes_in(
            bytes, room,
        ))),
        Act::Got(bytes, note) => Act::Got(bytes_in(bytes, room), *note),
        Act::Peeked(bytes) => Act::Peeked(bytes_in(bytes, room)),
        Act::Answered(HandleAnswer::Gave(bytes)) => Act::Answered(HandleAnswer::Gave(bytes_in(
            bytes, room,
        ))),
        bare => bare.try_clone().unwrap(),
    }
}

// The same bytes once more.
fn bytes_in(bytes: &Bytes, mut room: Vec<u8>) -> Bytes
    requires empty { room.items ≡ [] }
    requires enough { length bytes.now ≤ vec_capacity room }
    ensures { result ≡ bytes.now }
{
    match room.extend_from_slice(bytes.as_slice()) {
        Ok(()) => Bytes::new(room),
        Err(_full) => unreachable!(),
    }
}
