//! The job that reads ahead of an owner.
ghost use Rattle.std.specs.Prelude.{◌≡◌, ◌<◌, ◌≤◌, length, take, None, Some, IfOk};
ghost use Rattle.std.specs.Io.KnownBytes.{ReadConsumes};
ghost use Rattle.blocking_core.specs.declared.job.read.ReadAction.TheVariants.{FindRoom, Read as ReadPiece, Put as PutPiece, Close, Finish, Deliver};
ghost use Rattle.blocking_core.specs.Reads.{new_read, read_next};

use crate::share::{Given, MayFail, SessionShare, SessionStore};
use blocking_core::io::JobFault;
use blocking_core::job::{ReadAction, ReadAnswer, ReadCore};
use blocking_core::pipe::{Put, Room};
use blocking_core::pool::{Carries, Job, JobNo, JobStep};
use blocking_ends::{AnyPlace, Closed, SendEnd};
use blocking_sync::OwnerWaker;
use std::io;
use std::io::Read;
use std::marker::Model;
use std::sync::{Arc, Wait};

/// What comes back with the reader of a session: what its job tells, and what it worked with, which may serve another.
#[derive(Drop)]
pub struct ReadBack<H: Wait + Copy> {
    /// The fault of the reader, if there was one.
    pub fault: MayFail,
    /// The job's end of the pipe.
    pub end: SendEnd<u8, AnyPlace, SessionStore, H>,
    /// Where a piece stood between the reader and the pipe.
    pub piece: Vec<u8>,
}

// A reader at work.
#[derive(Drop)]
struct Reading<T: Drop, H: Wait + Copy> {
    reader: T,
    end: SendEnd<u8, AnyPlace, SessionStore, H>,
    // Where a piece stands between the reader and the pipe.
    piece: Vec<u8>,
}

impl<T: Drop, H: Wait + Copy> Model for Reading<T, H> {
    ghost use Rattle.std.specs.Prelude.{◌<◌, vec_len};
    ghost use Rattle.blocking_unblock_jobs.specs.ReadJobs.{Reading as Seen, reading_code};

    ghost Value = { Seen T };

    ghost coded = { reading_code T.code };

    ghost view = { λ w. record { reader = w.reader; sent = w.end.sent; room = w.end.free; piece = w.piece.items } };

    ghost invariant = { λ w. 0 < vec_len w.piece };
}

/// The job that reads ahead of an owner. It asks its reader for as much as there is room for in the pipe, and puts there what it
/// was given. It does so until the reader ends or fails or nobody wants more. Then it gives the reader back, with all that it
/// worked with.
///
/// One that is dropped before it is done drops the reader and gives its slot up, with no lock held. That wakes an owner who waits there for
/// the reader, and none who waits at the pipe. A pool drops a job only once its owner is gone.
///
/// It is the job type of an executor of one kind of reader:
///
/// ```rust
/// let executor: Executor<ReadJob<File, H>, H> = Executor::new(rt, Some("1"))?;
/// let mut file: Reader<File, H> = Unblock::new(executor, file);
/// ```
pub struct ReadJob<T: Drop, H: Wait + Copy> {
    core: ReadCore,
    // The reader at work, until it is given back.
    work: Option<Reading<T, H>>,
    fault: MayFail,
    // That its end was closed, and that the reader was given back.
    closed: Option<Closed>,
    given: Option<Given<T>>,
    // The waker that was taken out of the owner's seat, and has to be called.
    waker: OwnerWaker,
    share: Arc<SessionShare<T, ReadBack<H>>>,
    rt: H,
}

impl<T: Drop, H: Wait + Copy> Model for ReadJob<T, H> {
    ghost use Rattle.blocking_unblock_jobs.specs.ReadJobs.{ReadSeen, read_code, Fits, HasClosed};
    ghost use Rattle.blocking_unblock_jobs.specs.Works.{IsKept};

    ghost Value = { ReadSeen T };

    ghost coded = { read_code T.code };

    ghost view = { λ j. record { core = j.core; work = j.work; fault = j.fault } };

    ghost invariant = { λ j. Fits j.core.next j.work × HasClosed j.core.next j.closed × IsKept j.work j.given };
}

// Asks the reader for at most so many bytes, all of which the piece holds.
fn ask<T: Read>(reader: &mut T, piece: &mut [u8], most: usize) -> io::Result<usize>
    requires { most ≤ length piece.old }
    ensures count { IfOk result (λ n. n ≤ most) }
    ensures bytes { ReadConsumes (T.remaining reader.old) (T.remaining reader.new) result (take most piece.new) }
    ensures same { length piece.new ≡ length piece.old }
{
    reader.read(&mut piece[..most])
}

impl<T: Drop, H: Wait + Copy> ReadJob<T, H> {
    ghost use Rattle.std.specs.Prelude.{option_map, vec_len};
    ghost use Rattle.blocking_unblock_jobs.specs.ReadJobs.{ReadSeen};

    /// The job of a session that reads: `piece` is what it reads into, and `end` the pipe into which that goes. The reader comes back over
    /// the share.
    pub fn new(
        rt: H,
        reader: T,
        piece: Vec<u8>,
        end: SendEnd<u8, AnyPlace, SessionStore, H>,
        share: Arc<SessionShare<T, ReadBack<H>>>,
    ) -> ReadJob<T, H>
        requires { 0 < vec_len piece }
        ensures { result ≡ record {
          core = new_read;
          work = Some (record { reader = reader; sent = end.sent; room = end.free; piece = piece.items });
          fault = None;
        } }
    {
        ReadJob {
            core: ReadCore::new(),
            work: Some(Reading { reader, end, piece }),
            fault: None,
            closed: None,
            given: None,
            waker: None,
            share,
            rt,
        }
    }

    /// The reader, if it wasn't given back. The slot stays as it is.
    pub fn into_reader(self) -> Option<T>
        ensures { result ≡ option_map (λ work. work.reader) self.work }
    {
        let ReadJob {
            core: _,
            work,
            fault: _,
            closed: _,
            given: _,
            waker: _,
            share: _,
            rt: _,
        } = self;
        match work {
            Some(
                Reading {
                    reader,
                    end: _,
                    piece: _,
                },
            ) => Some(reader),
            None => None,
        }
    }
}

impl<T: Read + Drop, H: Wait + Copy> ReadJob<T, H> {
    ghost use Rattle.blocking_unblock_jobs.specs.ReadJobs.{IsSteppedBy};

    fn find_room(&mut self, me: JobNo) -> JobStep
        requires { read_next self.old.core ≡ FindRoom }
        ensures { IsSteppedBy T.remaining FindRoom self.old self.new result }
    {
        let Some(work) = &mut self.work else {
            unreachable!()
        };
        match work.end.room_or_seat(me) {
            Room::Free(room) => {
                let free = room.min(work.piece.len());
                self.core.answer(ReadAnswer::Free(free));
                JobStep::Again
            }
            Room::Parked => {
                self.core.answer(ReadAnswer::Parked);
                JobStep::Waiting
            }
            Room::Shut => {
                self.core.answer(ReadAnswer::Shut);
                JobStep::Again
            }
        }
    }

    fn read(&mut self, most: usize) -> JobStep
        requires { read_next self.old.core ≡ ReadPiece most }
        ensures { IsSteppedBy T.remaining (ReadPiece most) self.old self.new result }
    {
        let Some(work) = &mut self.work else {
            unreachable!()
        };
        match ask(&mut work.reader, work.piece.as_mut_slice(), most) {
            Ok(count) => self.core.answer(ReadAnswer::Gave(count)),
            Err(error) => {
                self.fault = Some(JobFault::Io(error));
                self.core.answer(ReadAnswer::Failed);
            }
        }
        JobStep::Again
    }

    fn put(&mut self, count: usize) -> JobStep
        requires { read_next self.old.core ≡ PutPiece count }
        ensures { IsSteppedBy T.remaining (PutPiece count) self.old self.new result }
    {
        let Some(work) = &mut self.work else {
            unreachable!()
        };
        match work.end.put_piece(&mut work.piece, count) {
            Put::In(seat) => {
                let woke = seat.is_some();
                self.waker = seat.flatten();
                self.core.answer(ReadAnswer::Put { woke });
            }
            Put::Lost => self.core.answer(ReadAnswer::Lost),
        }
        JobStep::Again
    }

    fn close(&mut self) -> JobStep
        requires { read_next self.old.core ≡ Close }
        ensures { IsSteppedBy T.remaining Close self.old self.new result }
    {
        let Some(work) = &mut self.work else {
            unreachable!()
        };
        let seat = work.end.close();
        self.closed = work.end.closed();
        let woke = seat.is_some();
        self.waker = seat.flatten();
        self.core.answer(ReadAnswer::Closed { woke });
        JobStep::Again
    }

    fn finish(&mut self) -> JobStep
        requires { read_next self.old.core ≡ Finish }
        ensures { IsSteppedBy T.remaining Finish self.old self.new result }
    {
        let Some(Reading { reader, end, piece }) = self.work.take() else {
            unreachable!()
        };
        let told = ReadBack {
            fault: self.fault.take(),
            end,
            piece,
        };
        let (wake, given) = self.share.give_back(&self.rt, reader, told);
        self.given = Some(given);
        let woke = wake.is_some();
        self.waker = wake.flatten();
        self.core.answer(ReadAnswer::Finished { woke });
        if woke { JobStep::Again } else { JobStep::Done }
    }

    fn deliver(&mut self) -> JobStep
        requires { read_next self.old.core ≡ Deliver }
        ensures { IsSteppedBy T.remaining Deliver self.old self.new result }
    {
        if let Some(waker) = self.waker.take() {
            // meeting: Call
            waker.wake();
        }
        self.core.answer(ReadAnswer::Delivered);
        match self.core.next() {
            ReadAction::Done => JobStep::Done,
            _ => JobStep::Again,
        }
    }
}

impl<T: Drop, H: Wait + Copy> Drop for ReadJob<T, H> {
    fn drop(self) {
        let ReadJob {
            core,
            work,
            fault: _,
            closed: _,
            given: _,
            waker,
            share,
            rt,
        } = self;
        // The reader is gone before the owner is told. (a waker that is dropped wakes)
        drop(work);
        // meeting: Call
        drop(waker);
        if let ReadAction::Done = core.next() {
            return;
        }
        if let Some(Some(waker)) = share.give_up(&rt) {
            // meeting: Call
            waker.wake();
        }
    }
}

// A pool of one kind of reader has its reading job as its job type.
impl<T: Drop, H: Wait + Copy> Carries<ReadJob<T, H>> for ReadJob<T, H> {
    ghost use Rattle.std.specs.Prelude.{Some, refl};

    ghost wrapped = { λ job. job };

    ghost opened = { λ job. Some job };

    ghost undoes = { λ job. refl };

    fn wrap(named: ReadJob<T, H>) -> ReadJob<T, H> {
        named
    }

    fn unwrap(self) -> Option<ReadJob<T, H>> {
        Some(self)
    }
}

impl<T: Read + Drop, H: Wait + Copy> Job for ReadJob<T, H> {
    ghost use Rattle.blocking_unblock_jobs.specs.ReadJobs.{IsStepped};

    // (another thread may set the mark at any time)
    ghost may_answer = { λ _ _. Unit {0} };

    fn step(&mut self, me: JobNo) -> JobStep
        ensures { IsStepped T.remaining self.old self.new result }
    {
        match self.core.next() {
            ReadAction::FindRoom => self.find_room(me),
            ReadAction::Read(most) => self.read(most),
            ReadAction::Put(count) => self.put(count),
            ReadAction::Close => self.close(),
            ReadAction::Finish => self.finish(),
            ReadAction::Deliver => self.deliver(),
            ReadAction::Done => JobStep::Done,
        }
    }

    fn abandoned(&self) -> bool {
        self.share.is_marked()
    }
}
