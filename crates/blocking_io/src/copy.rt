//! A copy of what is read by polls to what is written by polls, as a future.
ghost use Rattle.std.specs.Prelude.{◌≡◌, ◌<◌, ◌≤◌, vec_len};
ghost use Rattle.blocking_io.specs.CopyFaults.{copy_fault_text, told};
ghost use Rattle.blocking_io.specs.CopySteps.{Stands, stands_prop};

use crate::io::{AsyncRead, AsyncWrite, IoFault};
use blocking_core::copy::{CopyAction, CopyAnswer, CopyCore, CopyEnd};
use futures::Future;
use futures::task::{Context, Poll};
use std::alloc::{AllocError, Global};
use std::error::Error;
use std::{fmt, io};

/// Why a copy failed. What was read and not yet written then is lost.
///
/// ```rust
/// match block_on(&rt, copier)? {
///     Ok(_) => "all is written and flushed",
///     Err(CopyFault::Reading(_)) => "the reader failed",
///     Err(CopyFault::Writing(_)) => "the writer failed",
/// }
/// ```
#[derive(Clone, Copy, Debug)]
pub enum CopyFault {
    /// The reader failed, or reading couldn't begin.
    Reading(IoFault),
    /// The writer failed at a write or a flush, writing couldn't begin, or a write took none of the bytes.
    Writing(IoFault),
}

impl fmt::Display for CopyFault {
    ghost output = { copy_fault_text ⟦<io::Error as fmt::Display>⟧.output };

    fn fmt<W: fmt::Write>(&self, f: &mut fmt::Formatter<W>) -> fmt::Result {
        match self {
            CopyFault::Reading(why) => write!(f, "reading failed: {why}"),
            CopyFault::Writing(why) => write!(f, "writing failed: {why}"),
        }
    }
}

impl Error for CopyFault {}

/// So that a `?` passes it on where errors of the system go, as it does the fault inside. The error no longer says which side failed.
impl From<CopyFault> for io::Error {
    ghost use Rattle.blocking_core.specs.Faults.{IsToldAs};
    ghost use Rattle.blocking_io.specs.CopyFaults.{fault_of};

    ghost from_gives = { λ why error. IsToldAs (fault_of why) error };

    fn from(why: CopyFault) -> io::Error {
        match why {
            CopyFault::Reading(fault) | CopyFault::Writing(fault) => io::Error::from(fault),
        }
    }
}

/// The future of a copy. It reads a piece, writes all of it, and then reads the next. At the end it flushes, and is ready with how many
/// bytes were written once that is done. What a file was given so may not be on the disk yet. The count stays at the
/// greatest number of 64 bits once it is there.
///
/// It fails with [`CopyFault::Reading`] as soon as the reader fails, with what was written before not flushed. It fails with
/// [`CopyFault::Writing`] where the writer fails. The fault is [`Fault::WriteZero`](blocking_core::io::Fault::WriteZero) where a write
/// took nothing and the flush after it knows of no fault. After a fault a part of the last piece may be lost.
///
/// Until it was ready it may be polled. The copier itself asks for no memory then; its reader and its writer may.
///
/// ```rust
/// let executor: Executor<CopyJobs<H, File, File>, H> = Executor::new(rt, Some("2"))?;
/// let reader: Reader<File, H, CopyJobs<H, File, File>> = Unblock::new(executor.try_clone()?, from);
/// let writer: Writer<File, H, CopyJobs<H, File, File>> = Unblock::new(executor, to);
/// let copied = block_on(&rt, Copier::new(rt.alloc(), reader, writer, 65_536)?)??;
/// ```
#[derive(Drop)]
pub struct Copier<A, B> {
    reader: A,
    writer: B,
    // What was read. The core says which of these bytes are to be written yet.
    piece: Vec<u8>,
    core: CopyCore<io::Error>,
    ghost stands: { Stands core (vec_len piece) } by { stands_prop core (vec_len piece) },
}

impl<A: AsyncRead + Drop, B: AsyncWrite + Drop> Copier<A, B> {
    ghost use Rattle.std.specs.Prelude.{false, IfOk};
    ghost use Rattle.futures.specs.Poll.{OnPending};
    ghost use Rattle.futures.specs.Task.{IsArmed, Keeps};
    ghost use Rattle.blocking_core.specs.Copying.{new_copy};
    ghost use Rattle.blocking_core.specs.declared.copy.CopyAction.TheVariants.{Read as ReadPiece, Write as WriteRest, Flush as FlushAll};
    ghost use Rattle.blocking_io.specs.Copies.{Acts, Steps};
    ghost use Rattle.blocking_io.specs.CopySteps.{is_over, AnswersTo, IfWaits};

    /// A copy of all that the reader gives, by pieces of at most so many bytes. It fails, and drops both, where there is no memory for a
    /// piece; this is the one time that the copier itself asks for memory. (See the example at [`Copier`].)
    pub fn new(
        alloc: Global,
        reader: A,
        writer: B,
        piece: usize,
    ) -> Result<Copier<A, B>, AllocError>
        requires some { 0 < piece }
        requires reader_open { A.closed reader → ⊥ }
        requires writer_open { B.closed writer → ⊥ }
        ensures { IfOk result (λ copy. (copy.reader ≡ reader) × (copy.writer ≡ writer) × (copy.core ≡ new_copy piece)) }
    {
        let bytes = vec![in alloc; 0u8; piece]?;
        Ok(Copier {
            reader,
            writer,
            piece: bytes,
            core: CopyCore::new(piece),
        })
    }

    /// How many bytes the writer took so far, or the greatest number of 64 bits where there were more.
    ///
    /// ```rust
    /// let _ = eprintln!(rt; "{} bytes", copy.copied());
    /// ```
    pub fn copied(&self) -> u64
        ensures { result ≡ self.now.core.copied }
    {
        self.core.copied()
    }

    /// Whether it was ready.
    ///
    /// ```rust
    /// if self.copy.is_done() {
    ///     return Poll::Ready(());
    /// }
    /// ```
    pub fn is_done(&self) -> bool
        ensures { result ≡ is_over self.now.core.next }
    {
        matches!(self.core.next(), CopyAction::Done(_))
    }

    /// The reader and the writer, at any time. What was read and not yet written is lost.
    ///
    /// ```rust
    /// let mut copier = Copier::new(rt.alloc(), reader, writer, 65_536)?;
    /// let copied = block_on(&rt, &mut copier)??;
    /// let (reader, writer) = copier.into_parts();
    /// ```
    pub fn into_parts(self) -> (A, B)
        ensures { result ≡ (self.reader, self.writer) }
    {
        (self.reader, self.writer)
    }

    // Reads a piece.
    fn read(&mut self, cx: &mut Context<'_>) -> CopyAnswer<io::Error>
        requires { A.closed self.old.reader → ⊥ }
        ensures answers { AnswersTo (ReadPiece (vec_len self.old.piece)) result }
        ensures acts { Acts A.reads B.writes (ReadPiece (vec_len self.old.piece)) result self.old self.new }
        ensures open { A.closed self.new.reader → ⊥ }
        ensures core { self.new.core ≡ self.old.core }
        ensures armed { IfWaits result (IsArmed cx.new) }
        ensures kept { Keeps cx.old cx.new }
    {
        match self.reader.poll_read(cx, &mut self.piece) {
            Poll::Pending => CopyAnswer::Pending,
            Poll::Ready(Ok(count)) => CopyAnswer::Gave(count),
            Poll::Ready(Err(why)) => CopyAnswer::Failed(why),
        }
    }

    // Writes what stands in the piece between these places.
    fn write(&mut self, cx: &mut Context<'_>, from: usize, to: usize) -> CopyAnswer<io::Error>
        requires open { B.closed self.old.writer → ⊥ }
        requires within { (from ≤ to) × (to ≤ vec_len self.old.piece) }
        ensures answers { AnswersTo (WriteRest from to) result }
        ensures acts { Acts A.reads B.writes (WriteRest from to) result self.old self.new }
        ensures open { B.closed self.new.writer → ⊥ }
        ensures core { self.new.core ≡ self.old.core }
        ensures armed { IfWaits result (IsArmed cx.new) }
        ensures kept { Keeps cx.old cx.new }
    {
        match self.writer.poll_write(cx, &self.piece[from..to]) {
            Poll::Pending => CopyAnswer::Pending,
            Poll::Ready(Ok(count)) => CopyAnswer::Took(count),
            Poll::Ready(Err(why)) => CopyAnswer::Failed(why),
        }
    }

    // Flushes the writer.
    fn flush(&mut self, cx: &mut Context<'_>) -> CopyAnswer<io::Error>
        requires { B.closed self.old.writer → ⊥ }
        ensures answers { AnswersTo FlushAll result }
        ensures acts { Acts A.reads B.writes FlushAll result self.old self.new }
        ensures open { B.closed self.new.writer → ⊥ }
        ensures core { self.new.core ≡ self.old.core }
        ensures armed { IfWaits result (IsArmed cx.new) }
        ensures kept { Keeps cx.old cx.new }
    {
        match self.writer.poll_flush(cx) {
            Poll::Pending => CopyAnswer::Pending,
            Poll::Ready(Ok(())) => CopyAnswer::Flushed,
            Poll::Ready(Err(why)) => CopyAnswer::Failed(why),
        }
    }

    // Does what is next.
    fn act(&mut self, cx: &mut Context<'_>) -> CopyAnswer<io::Error>
        requires going { is_over self.old.core.next ≡ false }
        requires reader_open { A.closed self.old.reader → ⊥ }
        requires writer_open { B.closed self.old.writer → ⊥ }
        ensures answers { AnswersTo self.old.core.next result }
        ensures acts { Acts A.reads B.writes self.old.core.next result self.old self.new }
        ensures reader_open { A.closed self.new.reader → ⊥ }
        ensures writer_open { B.closed self.new.writer → ⊥ }
        ensures core { self.new.core ≡ self.old.core }
        ensures armed { IfWaits result (IsArmed cx.new) }
        ensures kept { Keeps cx.old cx.new }
    {
        match self.core.next() {
            CopyAction::Read(_) => self.read(cx),
            CopyAction::Write { from, to } => self.write(cx, from, to),
            CopyAction::Flush => self.flush(cx),
            CopyAction::Done(_) => unreachable!(),
        }
    }

    // Does what is next, and tells the machine what came of it.
    fn step(&mut self, cx: &mut Context<'_>) -> Poll<()>
        requires going { is_over self.old.core.next ≡ false }
        requires reader_open { A.closed self.old.reader → ⊥ }
        requires writer_open { B.closed self.old.writer → ⊥ }
        ensures steps { (answer : _) × Steps A.reads B.writes self.old answer self.new }
        ensures waits { OnPending result (self.new.core.next ≡ self.old.core.next) }
        ensures reader_open { A.closed self.new.reader → ⊥ }
        ensures writer_open { B.closed self.new.writer → ⊥ }
        ensures armed { OnPending result (IsArmed cx.new) }
        ensures kept { Keeps cx.old cx.new }
    {
        let answer = self.act(cx);
        self.core.answer(answer);
        match answer {
            CopyAnswer::Pending => Poll::Pending,
            _ => Poll::Ready(()),
        }
    }
}

// What the end of a copy is to whoever awaits it.
fn told(end: CopyEnd<io::Error>) -> Result<u64, CopyFault>
    ensures { result ≡ told end }
{
    match end {
        CopyEnd::Copied(copied) => Ok(copied),
        CopyEnd::Reading(why) => Err(CopyFault::Reading(why)),
        CopyEnd::Writing(why) => Err(CopyFault::Writing(why)),
    }
}

impl<A: AsyncRead + Drop, B: AsyncWrite + Drop> Future for Copier<A, B> {
    type Output = Result<u64, CopyFault>;

    ghost use Rattle.std.specs.Prelude.{false};
    ghost use Rattle.futures.specs.Poll.{IfReady, OnPending};
    ghost use Rattle.futures.specs.Task.{IsArmed, Keeps};
    ghost use Rattle.blocking_io.specs.Copies.{Carries, EndsWith, GoesOn, MayEnd, Reaches};
    ghost use Rattle.blocking_io.specs.CopySteps.{is_over};

    ghost can_poll = { λ copy. (A.closed copy.reader → ⊥) × (B.closed copy.writer → ⊥) × (is_over copy.core.next ≡ false) };

    ghost gives = { MayEnd A.reads B.writes };

    fn poll(&mut self, cx: &mut Context<'_>) -> Poll<Result<u64, CopyFault>>
        requires { (A.closed self.old.reader → ⊥) × (B.closed self.old.writer → ⊥) × (is_over self.old.core.next ≡ false) }
        ensures reaches { Reaches A.reads B.writes self.old self.new }
        ensures goes_on { GoesOn A.reads B.writes self.old self.new }
        ensures carries { Carries A.reads B.writes self.old self.new }
        ensures ends { IfReady result (λ out. EndsWith self.new.core.next out) }
        ensures going { OnPending result (is_over self.new.core.next ≡ false) }
        ensures open { (A.closed self.new.reader → ⊥) × (B.closed self.new.writer → ⊥) }
        ensures armed { OnPending result (IsArmed cx.new) }
        ensures kept { Keeps cx.old cx.new }
    {
        for _ in 0..u64::MAX {
            if let Poll::Pending = self.step(cx) {
                return Poll::Pending;
            }
            if let CopyAction::Done(end) = self.core.next() {
                return Poll::Ready(told(end));
            }
        }
        cx.yield_now()
    }
}
