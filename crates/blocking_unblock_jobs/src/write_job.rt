//! The job that writes behind an owner.
ghost use Rattle.std.specs.Prelude.{◌≡◌, ◌<◌, ◌≤◌, length, take, None, Some};
ghost use Rattle.std.specs.Io.{WritesAtMost};
ghost use Rattle.std.specs.Io.KnownBytes.{WriteAppends};
ghost use Rattle.blocking_core.specs.declared.job.write.WriteAction.TheVariants.{Peek, Write as WritePiece, Consume, Flush, Close, Finish, Deliver};
ghost use Rattle.blocking_core.specs.Writes.{new_write, write_next};

use crate::flush::{Flushed, flush};
use crate::share::{Given, MayFail, SessionShare, SessionStore};
use blocking_core::job::{PIECE, WriteAction, WriteAnswer, WriteCore};
use blocking_core::pipe::Peeked;
use blocking_core::pool::{Carries, Job, JobNo, JobStep};
use blocking_ends::{AnyPlace, Closed, PeekEnd};
use blocking_sync::OwnerWaker;
use std::io;
use std::io::Write;
use std::marker::Model;
use std::sync::{Arc, Wait};

/// What comes back with the writer of a session: what its job tells, and what it worked with, which may serve another session.
#[derive(Drop)]
pub struct WriteBack<H: Wait + Copy> {
    /// The fault of the writer, if there was one.
    pub fault: MayFail,
    /// The job's end of the pipe.
    pub end: PeekEnd<u8, AnyPlace, SessionStore, H>,
}

// A writer at work.
#[derive(Drop)]
struct Writing<T: Drop, H: Wait + Copy> {
    writer: T,
    end: PeekEnd<u8, AnyPlace, SessionStore, H>,
}

impl<T: Drop, H: Wait + Copy> Model for Writing<T, H> {
    ghost use Rattle.blocking_unblock_jobs.specs.WriteJobs.{Writing as Seen, writing_code};

    ghost Value = { Seen T };

    ghost coded = { writing_code T.code };

    ghost view = { λ w. record { writer = w.writer; piece = w.end.shown; received = w.end.received } };
}

/// The job that writes behind an owner. It offers its writer what stands at the front of the pipe, and lets go of what the writer took. It
/// does so until the owner wants no more and all is written, or the writer fails. Then it flushes the writer and gives it back, with all
/// that it worked with.
///
/// One that is dropped before it is done drops the writer and gives its slot up, with no lock held. That wakes an owner who waits there for
/// the writer, and none who waits at the pipe. A pool drops a job only once its owner is gone. What wasn't written then is lost.
///
/// It is the job type of an executor of one kind of writer:
///
/// ```rust
/// let executor: Executor<WriteJob<File, H>, H> = Executor::new(rt, Some("1"))?;
/// let mut file: Writer<File, H> = Unblock::new(executor, file);
/// ```
pub struct WriteJob<T: Drop, H: Wait + Copy> {
    core: WriteCore<io::Error>,
    // The writer at work, until it is given back.
    work: Option<Writing<T, H>>,
    // That the writer was asked to flush, that the job's end was closed, and that the writer was given back.
    flushed: Option<Flushed<T>>,
    closed: Option<Closed>,
    given: Option<Given<T>>,
    // The waker that was taken out of the owner's seat, and has to be called.
    waker: OwnerWaker,
    share: Arc<SessionShare<T, WriteBack<H>>>,
    rt: H,
}

impl<T: Drop, H: Wait + Copy> Model for WriteJob<T, H> {
    ghost use Rattle.blocking_unblock_jobs.specs.WriteJobs.{WriteSeen, write_code, Fits, HasClosed, HasFlushed};
    ghost use Rattle.blocking_unblock_jobs.specs.Works.{IsKept};

    ghost Value = { WriteSeen T };

    ghost coded = { write_code T.code };

    ghost view = { λ j. record { core = j.core; work = j.work } };

    ghost invariant = { λ j. Fits j.core.next j.work
        × HasFlushed j.core.next j.flushed
        × HasClosed j.core.next j.closed
        × IsKept j.work j.given };
}

// Offers the writer so many bytes of the piece.
fn offer<T: Write>(writer: &mut T, piece: &[u8], most: usize) -> io::Result<usize>
    requires { most ≤ length piece.now }
    ensures count { WritesAtMost result (take most piece.now) }
    ensures bytes { WriteAppends (T.contents writer.old) (T.contents writer.new) result (take most piece.now) }
{
    writer.write(&piece[..most])
}

impl<T: Drop, H: Wait + Copy> WriteJob<T, H> {
    ghost use Rattle.std.specs.Prelude.{option_map};
    ghost use Rattle.blocking_unblock_jobs.specs.WriteJobs.{WriteSeen};

    /// The job of a session that writes: `end` shows it the pipe that it writes out. The writer comes back by the share.
    pub fn new(
        rt: H,
        writer: T,
        end: PeekEnd<u8, AnyPlace, SessionStore, H>,
        share: Arc<SessionShare<T, WriteBack<H>>>,
    ) -> WriteJob<T, H>
        ensures { result ≡ record {
          core = new_write;
          work = Some (record { writer = writer; piece = end.shown; received = end.received });
        } }
    {
        WriteJob {
            core: WriteCore::new(),
            work: Some(Writing { writer, end }),
            flushed: None,
            closed: None,
            given: None,
            waker: None,
            share,
            rt,
        }
    }

    /// The writer, if it wasn't given back. The slot stays as it is.
    pub fn into_writer(self) -> Option<T>
        ensures { result ≡ option_map (λ work. work.writer) self.work }
    {
        let WriteJob {
            core: _,
            work,
            flushed: _,
            closed: _,
            given: _,
            waker: _,
            share: _,
            rt: _,
        } = self;
        match work {
            Some(Writing { writer, end: _ }) => Some(writer),
            None => None,
        }
    }
}

impl<T: Write + Drop, H: Wait + Copy> WriteJob<T, H> {
    ghost use Rattle.blocking_unblock_jobs.specs.WriteJobs.{IsSteppedBy};

    fn peek(&mut self, me: JobNo) -> JobStep
        requires { write_next self.old.core ≡ Peek }
        ensures { IsSteppedBy T.contents Peek self.old self.new result }
    {
        let Some(work) = &mut self.work else {
            unreachable!()
        };
        match work.end.lend_or_seat(me) {
            Peeked::Some(count) => {
                self.core.answer(WriteAnswer::Peeked(count.min(PIECE)));
                JobStep::Again
            }
            Peeked::Parked => {
                self.core.answer(WriteAnswer::Parked);
                JobStep::Waiting
            }
            Peeked::Drained => {
                self.core.answer(WriteAnswer::Drained);
                JobStep::Again
            }
        }
    }

    fn write(&mut self, most: usize) -> JobStep
        requires { write_next self.old.core ≡ WritePiece most }
        ensures { IsSteppedBy T.contents (WritePiece most) self.old self.new result }
    {
        let Some(work) = &mut self.work else {
            unreachable!()
        };
        match offer(&mut work.writer, work.end.shown(), most) {
            Ok(count) => self.core.answer(WriteAnswer::Took(count)),
            Err(error) => self.core.answer(WriteAnswer::Failed(error)),
        }
        JobStep::Again
    }

    fn consume(&mut self, count: usize) -> JobStep
        requires { write_next self.old.core ≡ Consume count }
        ensures { IsSteppedBy T.contents (Consume count) self.old self.new result }
    {
        let Some(work) = &mut self.work else {
            unreachable!()
        };
        let seat = work.end.consume(count);
        let woke = seat.is_some();
        self.waker = seat.flatten();
        self.core.answer(WriteAnswer::Consumed { woke });
        JobStep::Again
    }

    fn flush(&mut self) -> JobStep
        requires { write_next self.old.core ≡ Flush }
        ensures { IsSteppedBy T.contents Flush self.old self.new result }
    {
        let Some(work) = &mut self.work else {
            unreachable!()
        };
        let (answer, flushed) = flush(&mut work.writer);
        self.flushed = Some(flushed);
        match answer {
            Ok(()) => self.core.answer(WriteAnswer::Flushed),
            Err(error) => self.core.answer(WriteAnswer::Failed(error)),
        }
        JobStep::Again
    }

    fn close(&mut self) -> JobStep
        requires { write_next self.old.core ≡ Close }
        ensures { IsSteppedBy T.contents Close self.old self.new result }
    {
        let Some(work) = &mut self.work else {
            unreachable!()
        };
        let seat = work.end.close();
        self.closed = work.end.closed();
        let woke = seat.is_some();
        self.waker = seat.flatten();
        self.core.answer(WriteAnswer::Closed { woke });
        JobStep::Again
    }

    fn finish(&mut self) -> JobStep
        requires { write_next self.old.core ≡ Finish }
        ensures { IsSteppedBy T.contents Finish self.old self.new result }
    {
        let Some(Writing { writer, end }) = self.work.take() else {
            unreachable!()
        };
        let fault = self.core.fault();
        let told = WriteBack { fault, end };
        let (wake, given) = self.share.give_back(&self.rt, writer, told);
        self.given = Some(given);
        let woke = wake.is_some();
        self.waker = wake.flatten();
        self.core.answer(WriteAnswer::Finished { woke });
        if woke { JobStep::Again } else { JobStep::Done }
    }

    fn deliver(&mut self) -> JobStep
        requires { write_next self.old.core ≡ Deliver }
        ensures { IsSteppedBy T.contents Deliver self.old self.new result }
    {
        if let Some(waker) = self.waker.take() {
            // meeting: Call
            waker.wake();
        }
        self.core.answer(WriteAnswer::Delivered);
        match self.core.next() {
            WriteAction::Done => JobStep::Done,
            _ => JobStep::Again,
        }
    }
}

impl<T: Drop, H: Wait + Copy> Drop for WriteJob<T, H> {
    fn drop(self) {
        let WriteJob {
            core,
            work,
            flushed: _,
            closed: _,
            given: _,
            waker,
            share,
            rt,
        } = self;
        // The writer is gone before the owner is told. (a waker that is dropped wakes)
        drop(work);
        // meeting: Call
        drop(waker);
        if let WriteAction::Done = core.next() {
            return;
        }
        if let Some(Some(waker)) = share.give_up(&rt) {
            // meeting: Call
            waker.wake();
        }
    }
}

// A pool of one kind of writer has its writing job as its job type.
impl<T: Drop, H: Wait + Copy> Carries<WriteJob<T, H>> for WriteJob<T, H> {
    ghost use Rattle.std.specs.Prelude.{Some, refl};

    ghost wrapped = { λ job. job };

    ghost opened = { λ job. Some job };

    ghost undoes = { λ job. refl };

    fn wrap(named: WriteJob<T, H>) -> WriteJob<T, H> {
        named
    }

    fn unwrap(self) -> Option<WriteJob<T, H>> {
        Some(self)
    }
}

impl<T: Write + Drop, H: Wait + Copy> Job for WriteJob<T, H> {
    ghost use Rattle.blocking_unblock_jobs.specs.WriteJobs.{IsStepped};

    // (another thread may set the mark at any time)
    ghost may_answer = { λ _ _. Unit {0} };

    fn step(&mut self, me: JobNo) -> JobStep
        ensures { IsStepped T.contents self.old self.new result }
    {
        match self.core.next() {
            WriteAction::Peek => self.peek(me),
            WriteAction::Write(most) => self.write(most),
            WriteAction::Consume(count) => self.consume(count),
            WriteAction::Flush => self.flush(),
            WriteAction::Close => self.close(),
            WriteAction::Finish => self.finish(),
            WriteAction::Deliver => self.deliver(),
            WriteAction::Done => JobStep::Done,
        }
    }

    fn abandoned(&self) -> bool {
        self.share.is_marked()
    }
}
