//! The job of a session that reads, and how its owner drains the pipe.
ghost use Rattle.std.specs.Prelude.{◌≡◌, ◌<◌, ◌≤◌, true, length, []};

use crate::passage::Passage;
use crate::read::ReadProgress;
use crate::session::Session;
use blocking_core::job::{ReadAction, ReadAnswer};
use blocking_core::pipe::{Answered, Drained, Put, Room};
use blocking_core::pool::WakeNote;
use blocking_world_laws::bytes::Bytes;
use blocking_world_laws::event::{Act, HolderWaker};

/// What an owner finds in the pipe.
pub(crate) enum ReadFound {
    /// These bytes, and the note of a job that waited.
    Bytes(Bytes, Option<WakeNote>),
    /// Nothing yet: the owner is seated.
    Nothing,
    /// Nothing, and no more will come.
    End,
}

impl Session {
    ghost use Rattle.std.specs.Prelude.{vec_len};
    ghost use Rattle.blocking_core.specs.Reads.{read_next};
    ghost use Rattle.blocking_world_holders.specs.Passages.{OfBytes, through, is_piped};
    ghost use Rattle.blocking_world_holders.specs.Sessions.{reach, drained, session_after_drain, read_works, read_at_room, read_at_put, read_closes, read_finishes, found_room, found_put, fits_in, IsWork};
    ghost use Rattle.blocking_world_holders.specs.Owners.{found_as};

    /// How many bytes come out where the owner wants at most so many, one at least.
    pub(crate) fn reach(&self, most: usize) -> usize
        ensures { result ≡ reach most self.now }
    {
        most.max(1).min(self.passage.len())
    }

    /// The owner drains the pipe into this room, whose length is how many bytes come out: none where none are inside.
    pub(crate) fn drain(&mut self, room: Vec<u8>) -> ReadFound
        requires bytes { self.old.goods ≡ OfBytes }
        requires within { vec_len room ≤ length self.old.pipe.items }
        requires some { 0 < length self.old.pipe.items → 0 < vec_len room }
        ensures found { result ≡ found_as (drained (vec_len room) self.old) }
        ensures session { self.new ≡ session_after_drain (drained (vec_len room) self.old) self.old }
    {
        if room.is_empty() {
            return self.find_nothing();
        }
        let Passage::Bytes(pipe) = &mut self.passage else {
            unreachable!()
        };
        let mut room = room;
        let Answered {
            answer,
            spare: _spare,
        } = pipe.drain_or_seat((), room.as_mut_slice());
        match answer {
            Drained::Got(_, note) => ReadFound::Bytes(Bytes::new(room), note),
            Drained::Ended => ReadFound::End,
            Drained::Waits(_at_the_pipe) => ReadFound::Nothing,
        }
    }

    // The owner drains the pipe, in which nothing is inside: it is at its end, or the owner is seated.
    fn find_nothing(&mut self) -> ReadFound
        requires bytes { self.old.goods ≡ OfBytes }
        requires empty { self.old.pipe.items ≡ [] }
        ensures found { result ≡ found_as (drained 0 self.old) }
        ensures session { self.new ≡ session_after_drain (drained 0 self.old) self.old }
    {
        let Passage::Bytes(pipe) = &mut self.passage else {
            unreachable!()
        };
        let mut one = [0u8; 1];
        let Answered {
            answer,
            spare: _spare,
        } = pipe.drain_or_seat((), &mut one);
        match answer {
            Drained::Got(_, _note) => unreachable!(),
            Drained::Ended => ReadFound::End,
            Drained::Waits(_at_the_pipe) => ReadFound::Nothing,
        }
    }

    // The job looks for room, and is seated where there is none.
    fn find_room(&mut self, job: &mut ReadProgress) -> Act
        requires { self.old.goods ≡ OfBytes }
        ensures { read_at_room (found_room self.old) job.old self.old
            ≡ record { act = result; job = job.new; session = self.new } }
    {
        let Passage::Bytes(pipe) = &mut self.passage else {
            unreachable!()
        };
        match pipe.room_or_seat(self.number) {
            Room::Free(room) => {
                job.meet(ReadAnswer::Free(room));
                Act::RoomFree(room)
            }
            Room::Parked => {
                job.meet(ReadAnswer::Parked);
                Act::JobParked
            }
            Room::Shut => {
                job.meet(ReadAnswer::Shut);
                Act::RoomShut
            }
        }
    }

    // The job puts what its reader gave, which fits.
    fn put(&mut self, job: &mut ReadProgress) -> Act
        requires bytes { self.old.goods ≡ OfBytes }
        requires fits { fits_in job.old.piece self.old ≡ true }
        ensures { read_at_put (found_put job.old.piece self.old) job.old self.old
            ≡ record { act = result; job = job.new; session = self.new } }
    {
        let Passage::Bytes(pipe) = &mut self.passage else {
            unreachable!()
        };
        let count = job.piece().len();
        match pipe.put(job.piece()) {
            Put::In(seat) => {
                let woke = seat.is_some();
                job.meet(ReadAnswer::Put { woke });
                Act::Put(count, HolderWaker::in_seat(woke))
            }
            Put::Lost => {
                job.meet(ReadAnswer::Lost);
                Act::Lost(count)
            }
        }
    }

    // The job closes its end of the pipe.
    fn close_read(&mut self, job: &mut ReadProgress) -> Act
        requires { is_piped self.old.goods ≡ true }
        ensures { read_closes job.old self.old
            ≡ record { act = result; job = job.new; session = self.new } }
    {
        let woke = self.passage.close_job();
        job.meet(ReadAnswer::Closed { woke });
        Act::JobClosed(HolderWaker::in_seat(woke))
    }

    // The job puts its result into the slot.
    fn finish_read(&mut self, job: &mut ReadProgress) -> Act
        ensures { read_finishes job.old self.old
            ≡ record { act = result; job = job.new; session = self.new } }
    {
        let woke = self.slot.put(job.fault()).wake.is_some();
        job.meet(ReadAnswer::Finished { woke });
        Act::Finished(HolderWaker::in_seat(woke))
    }

    /// A job that reads takes its next action, where it takes it at its session: what is seen of it.
    pub(crate) fn read(&mut self, job: &mut ReadProgress) -> Option<Act>
        ensures { IsWork (through OfBytes self.old.goods (read_works (read_next job.old.core) job.old self.old)) job.old self.old result job.new self.new }
    {
        if !self.is_of_bytes() {
            return None;
        }
        match job.next() {
            ReadAction::FindRoom => Some(self.find_room(job)),
            ReadAction::Put(_) if job.piece().len() <= self.passage.room() => Some(self.put(job)),
            ReadAction::Close => Some(self.close_read(job)),
            ReadAction::Finish => Some(self.finish_read(job)),
            ReadAction::Put(_) | ReadAction::Read(_) | ReadAction::Deliver | ReadAction::Done => {
                None
            }
        }
    }
}
