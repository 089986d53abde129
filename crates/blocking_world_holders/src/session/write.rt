//! The job of a session that writes, and how its owner fills the pipe.
ghost use Rattle.std.specs.Prelude.{◌≡◌, ◌<◌, true, length, []};

use crate::passage::Passage;
use crate::session::Session;
use crate::write::WriteProgress;
use blocking_core::job::{PIECE, WriteAction, WriteAnswer};
use blocking_core::pipe::{Answered, Filled, Peeked};
use blocking_core::pool::WakeNote;
use blocking_world_laws::bytes::Bytes;
use blocking_world_laws::event::{Act, HolderWaker};
use std::alloc::{AllocError, Global};

/// What an owner finds that fills the pipe.
pub(crate) enum Entered {
    /// So many bytes went in, one at least, and this is the note of a job that waited.
    Bytes(usize, Option<WakeNote>),
    /// No room yet: the owner is seated.
    Nothing,
    /// The job's end is closed, and no byte went in.
    Shut,
}

impl Session {
    ghost use Rattle.std.specs.Prelude.{IfOk, OnErr};
    ghost use Rattle.blocking_core.specs.Writes.{write_next};
    ghost use Rattle.blocking_world_holders.specs.Passages.{OfBytes, through, is_piped};
    ghost use Rattle.blocking_world_holders.specs.Sessions.{filled, session_after_fill, front_len, found_piece, holds, write_at_peek, write_consumes, write_closes, write_finishes, write_works, IsWork};
    ghost use Rattle.blocking_world_holders.specs.Owners.{entered_as};

    /// The owner fills the pipe with the first of these bytes, as many as there is room for.
    pub(crate) fn fill(&mut self, bytes: &[u8]) -> Entered
        requires goods { self.old.goods ≡ OfBytes }
        requires some { 0 < length bytes.now }
        ensures found { result ≡ entered_as (filled (length bytes.now) self.old) }
        ensures session { self.new ≡ session_after_fill bytes.now (filled (length bytes.now) self.old) self.old }
    {
        let Passage::Bytes(pipe) = &mut self.passage else {
            unreachable!()
        };
        let Answered {
            answer,
            spare: _spare,
        } = pipe.fill_or_seat((), bytes);
        match answer {
            Filled::Took(count, note) => Entered::Bytes(count, note),
            Filled::Shut => Entered::Shut,
            Filled::Waits(_at_the_pipe) => Entered::Nothing,
        }
    }

    /// How many bytes a job finds at the front of the pipe.
    pub(crate) fn front_len(&self) -> usize
        ensures { result ≡ front_len self.now }
    {
        self.passage.len().min(PIECE)
    }

    // The job looks at the front of the pipe. The memory for what it finds there is taken before it does.
    fn find_piece(&mut self, alloc: Global, job: &mut WriteProgress) -> Result<Act, AllocError>
        requires { self.old.goods ≡ OfBytes }
        ensures ok { IfOk result (λ act. write_at_peek (found_piece self.old) job.old self.old
            ≡ record { act = act; job = job.new; session = self.new }) }
        ensures err { OnErr result ((job.new ≡ job.old) × (self.new ≡ self.old)) }
    {
        if self.passage.len() == 0 {
            return Ok(self.find_no_piece(job));
        }
        let mut room = vec![in alloc; 0u8; self.front_len()]?;
        let Passage::Bytes(pipe) = &mut self.passage else {
            unreachable!()
        };
        match pipe.peek_or_seat(self.number, room.as_mut_slice()) {
            Peeked::Some(_all_of_it) => {}
            Peeked::Parked | Peeked::Drained => unreachable!(),
        }
        let piece = Bytes::new(room);
        let told = piece.try_clone()?;
        job.find(piece);
        Ok(Act::Peeked(told))
    }

    // The job looks at the front of the pipe, in which nothing is inside: it is seated, or the pipe is drained for good.
    fn find_no_piece(&mut self, job: &mut WriteProgress) -> Act
        requires bytes { self.old.goods ≡ OfBytes }
        requires empty { self.old.pipe.items ≡ [] }
        ensures { write_at_peek (found_piece self.old) job.old self.old
            ≡ record { act = result; job = job.new; session = self.new } }
    {
        let Passage::Bytes(pipe) = &mut self.passage else {
            unreachable!()
        };
        let mut one = [0u8; 1];
        match pipe.peek_or_seat(self.number, &mut one) {
            Peeked::Some(_) => unreachable!(),
            Peeked::Parked => {
                job.meet(WriteAnswer::Parked);
                Act::JobParked
            }
            Peeked::Drained => {
                job.meet(WriteAnswer::Drained);
                Act::Drained
            }
        }
    }

    // So many bytes, which the writer took, leave the pipe.
    fn consume(&mut self, job: &mut WriteProgress, count: usize) -> Act
        requires bytes { self.old.goods ≡ OfBytes }
        requires inside { holds count self.old ≡ true }
        ensures { write_consumes count job.old self.old
            ≡ record { act = result; job = job.new; session = self.new } }
    {
        let Passage::Bytes(pipe) = &mut self.passage else {
            unreachable!()
        };
        let woke = pipe.consume(count).is_some();
        job.meet(WriteAnswer::Consumed { woke });
        Act::Taken(count, HolderWaker::in_seat(woke))
    }

    // The job closes its end of the pipe.
    fn close_write(&mut self, job: &mut WriteProgress) -> Act
        requires { is_piped self.old.goods ≡ true }
        ensures { write_closes job.old self.old
            ≡ record { act = result; job = job.new; session = self.new } }
    {
        let woke = self.passage.close_job();
        job.meet(WriteAnswer::Closed { woke });
        Act::JobClosed(HolderWaker::in_seat(woke))
    }

    // The job puts its result into the slot.
    fn finish_write(&mut self, job: &mut WriteProgress) -> Act
        ensures { write_finishes job.old self.old
            ≡ record { act = result; job = job.new; session = self.new } }
    {
        let woke = self.slot.put(job.fault()).wake.is_some();
        job.meet(WriteAnswer::Finished { woke });
        Act::Finished(HolderWaker::in_seat(woke))
    }

    /// A job that writes takes its next action, where it takes it at its session: what is seen of it. Where there is no memory for the
    /// bytes that it finds nothing is done.
    pub(crate) fn write(
        &mut self,
        alloc: Global,
        job: &mut WriteProgress,
    ) -> Result<Option<Act>, AllocError>
        ensures ok { IfOk result (λ seen. IsWork (through OfBytes self.old.goods (write_works (write_next job.old.core) job.old self.old)) job.old self.old seen
            job.new self.new) }
        ensures err { OnErr result ((job.new ≡ job.old) × (self.new ≡ self.old)) }
    {
        if !self.is_of_bytes() {
            return Ok(None);
        }
        Ok(match job.next() {
            WriteAction::Peek => Some(self.find_piece(alloc, job)?),
            WriteAction::Consume(count) if count <= self.passage.len() => {
                Some(self.consume(job, count))
            }
            WriteAction::Close => Some(self.close_write(job)),
            WriteAction::Finish => Some(self.finish_write(job)),
            WriteAction::Consume(_)
            | WriteAction::Write(_)
            | WriteAction::Flush
            | WriteAction::Deliver
            | WriteAction::Done => None,
        })
    }
}
