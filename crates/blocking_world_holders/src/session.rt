//! Where an owner meets the job of its session.
ghost use Rattle.std.specs.Prelude.{◌≡◌, true};

mod item;
mod op;
mod read;
mod seek;
mod write;

use crate::passage::Passage;
use blocking_core::io::Fault;
use blocking_core::pool::{JobNo, WakeNote};
use blocking_core::task::{Slot, Slotted};
pub(crate) use item::Obtained;
pub(crate) use op::Awaited;
pub(crate) use read::ReadFound;
use std::marker::Model;
pub(crate) use write::Entered;

/// A session of an owner. It has the number of its job, the pipe between the two, and where a seek left the handle. It has the place in
/// which the result of its operation comes, and the slot in which the handle comes back.
#[derive(Drop)]
pub(crate) struct Session {
    number: JobNo,
    passage: Passage,
    // (the one that came out last, 0 before the first; or the result)
    item: u64,
    result: Slot<u64, ()>,
    slot: Slot<Option<Fault<u64>>, ()>,
    left: u64,
}

/// What an owner finds in the slot.
pub(crate) enum Looked {
    /// The handle, with the fault of the job.
    Handle(Option<Fault<u64>>),
    /// Nothing yet: the owner is seated.
    Nothing,
    /// Nothing, and nothing will come.
    Gone,
}

impl Model for Session {
    ghost use Rattle.blocking_world_holders.specs.Passages.{goods_in, pipe_in};
    ghost use Rattle.blocking_world_holders.specs.Sessions.{Session as Seen};

    ghost Value = { Seen };

    ghost view = { λ s. record {
      number = s.number;
      goods = goods_in s.passage;
      item = s.item;
      pipe = pipe_in s.passage;
      result = s.result;
      slot = s.slot;
      left = s.left;
    } };
}

impl Session {
    ghost use Rattle.blocking_core.specs.Slots.{empty_slot};
    ghost use Rattle.blocking_world_holders.specs.Passages.{is_bytes, is_items, goods_in, pipe_in, is_piped};
    ghost use Rattle.blocking_world_holders.specs.Sessions.{session_after_close, session_after_look, give_up_wakes, session_after_give_up};
    ghost use Rattle.blocking_world_holders.specs.Owners.{looked_as};

    /// A session that begins, with this job and this empty pipe.
    pub(crate) fn new(number: JobNo, passage: Passage) -> Session
        ensures { result ≡ record {
          number = number;
          goods = goods_in passage;
          item = 0;
          pipe = pipe_in passage;
          result = empty_slot;
          slot = empty_slot;
          left = 0;
        } }
    {
        Session {
            number,
            passage,
            item: 0,
            result: Slot::new(),
            slot: Slot::new(),
            left: 0,
        }
    }

    /// The number of its job.
    pub(crate) fn number(&self) -> JobNo
        ensures { result ≡ self.now.number }
    {
        self.number
    }

    /// Whether bytes pass through its pipe.
    pub(crate) fn is_of_bytes(&self) -> bool
        ensures { result ≡ is_bytes self.now.goods }
    {
        self.passage.is_of_bytes()
    }

    /// Whether items pass through its pipe.
    pub(crate) fn is_of_items(&self) -> bool
        ensures { result ≡ is_items self.now.goods }
    {
        self.passage.is_of_items()
    }

    /// Whether it has a pipe.
    pub(crate) fn is_piped(&self) -> bool
        ensures { result ≡ is_piped self.now.goods }
    {
        self.passage.is_piped()
    }

    /// Where the handle was left, after a seek that went well.
    pub(crate) fn left(&self) -> u64
        ensures { result ≡ self.now.left }
    {
        self.left
    }

    /// Closes the owner's end of the pipe. Answers the note of a job that waited.
    pub(crate) fn close(&mut self) -> Option<WakeNote>
        requires { is_piped self.old.goods ≡ true }
        ensures session { self.new ≡ session_after_close self.old }
        ensures note { result ≡ self.old.pipe.job_seat }
    {
        self.passage.close_owner()
    }

    /// The item that came out of the pipe last, or the result of the operation.
    pub(crate) fn item(&self) -> u64
        ensures { result ≡ self.now.item }
    {
        self.item
    }

    /// The owner looks for the handle, and is seated where it may still come.
    pub(crate) fn look(&mut self) -> Looked
        ensures looked { result ≡ looked_as self.old.slot.content }
        ensures session { self.new ≡ session_after_look self.old.slot.content self.old }
    {
        match self.slot.poll(()).answer {
            Slotted::Value(fault) => Looked::Handle(fault),
            Slotted::Waits(_at_the_slot) => Looked::Nothing,
            Slotted::Gone(_) => Looked::Gone,
        }
    }

    /// The job gives up: the handle won't come back. Whether it took the waker of an owner who waited.
    pub(crate) fn give_up(&mut self) -> bool
        ensures wake { result ≡ give_up_wakes self.old }
        ensures session { self.new ≡ session_after_give_up self.old }
    {
        self.slot.give_up().is_some()
    }
}
