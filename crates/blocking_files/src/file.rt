//! A file that is lent to a pool.
ghost use Rattle.std.specs.Prelude.{◌≡◌, ◌+◌, ◌<◌, ◌≤◌, length, IfOk, IfSome, IsErr, IsNone, IsSomeAnd};
ghost use Rattle.std.specs.Arc.{arc_value};
ghost use Rattle.futures.specs.Poll.{IfReady, OnPending};
ghost use Rattle.futures.specs.Task.{IsArmed, Keeps};

use crate::calls::{Change, Changes, Look, LookAt, Shared};
use crate::changing::Changing;
use crate::files::Files;
use crate::job::FileJob;
use crate::task::FileTask;
use blocking::{
    AsyncRead, AsyncSeek, AsyncWrite, CallJob, Carries, IoFault, Job, ReadJob, Runtime, SeekJob,
    WriteJob,
};
use blocking_anytime::OpenReader;
use futures::task::{Context, Poll};
use std::alloc::AllocError;
use std::io::SeekFrom;
use std::sync::Arc;

/// An open file, which a pool reads, writes and moves. Who polls waits for the pool alone.
///
/// It is open as long as it is there: dropping it closes it, once no job has it, and what was written and not flushed may be lost then. A
/// flush that is ready says that all was written, and not that the disk has it: that is [`File::sync_all`].
///
/// A job reads ahead. So a write, a seek from where the file is, or a read behind a flush, a sync or a change of length, goes on from further
/// than what was read: seek from the start instead.
///
/// ```rust
/// let mut file = block_on(&rt, files.open_with(how, path))??;
/// block_on(&rt, file.write_all(b"oaks and "))??;
/// block_on(&rt, file.flush())??;
/// let place = block_on(&rt, file.seek(SeekFrom::Start(5)))??;
/// block_on(&rt, file.read_exact(&mut three))??;
/// ```
pub struct File<H: Runtime, J: Job = FileJob<H>> {
    owner: OpenReader<Shared, H, J>,
    // The same file, of which the system is asked.
    file: Shared,
    files: Files<H, J>,
}

// (as a derive has it; by hand it is proved here once, and not in each crate that drops one)
impl<H: Runtime, J: Job> Drop for File<H, J> {
    fn drop(self) {
        let File { owner, file, files } = self;
        drop(owner);
        drop(file);
        drop(files);
    }
}

impl<H: Runtime, J: Job> File<H, J> {
    ghost use Rattle.blocking_core.specs.declared.unblock.State.TheVariants.{Idle};
    ghost use Rattle.blocking_unblock.specs.declared.handle_state.HandleState.TheVariants.{Idle as AtOwner};
    ghost use Rattle.blocking_unblock.specs.Owners.{IsAt};
    ghost use Rattle.blocking_files.specs.Asked.{IsFileLook};

    pub(crate) fn new(files: &Files<H, J>, file: Shared) -> Result<File<H, J>, AllocError>
        ensures file { IfOk result (λ opened. opened.file ≡ file) }
        ensures idle { IfOk result (λ opened. IsAt Idle opened.owner.owner.place) }
        ensures lent { IfOk result (λ opened. (lent : _) × (opened.owner.owner.place ≡ AtOwner lent) × (arc_value lent ≡ arc_value file)) }
        ensures client { IfOk result (λ opened. (opened.owner.owner.executor.client ≡ files.now.executor.client)
            × (opened.files.executor.client ≡ files.now.executor.client)) }
    {
        let lent = Arc::try_clone(&file)?;
        let files = files.try_clone()?;
        let executor = files.executor().try_clone()?;
        Ok(File {
            owner: OpenReader::new(executor, lent),
            file,
            files,
        })
    }

    pub(crate) fn files(&self) -> &Files<H, J> {
        &self.files
    }

    /// What the system knows of the file. It doesn't know of what was written and not flushed.
    ///
    /// ```rust
    /// block_on(&rt, file.flush())??;
    /// let length = block_on(&rt, file.metadata())??.len();
    /// ```
    pub fn metadata(&self) -> FileTask<Look, H>
    where
        J: Carries<CallJob<Look, H>>,
        ensures asked { IfSome result.asked (λ asked. IsFileLook (arc_value self.now.file) asked.value.what) }
        ensures answered { IsNone result.task → IsSomeAnd result.refused (λ answer. IsErr answer) }
        ensures client { IfSome result.task (λ task. task.job.client ≡ self.now.files.executor.client) }
    {
        self.files
            .look(Arc::try_clone(&self.file).map(LookAt::File))
    }
}

// What is changed of an open file.
impl<H: Runtime, J: Job + Carries<CallJob<Change, H>> + Carries<WriteJob<Shared, H>>> File<H, J> {
    ghost use Rattle.blocking_files.specs.Asked.{IsSyncAll, IsSyncData, IsSetLen};

    /// Flushes, and then has on the disk what was written and what the system knows of the file. A flush alone doesn't.
    ///
    /// ```rust
    /// block_on(&rt, file.write_all(b"and firs\n"))??;
    /// block_on(&rt, file.sync_all())?
    /// ```
    pub fn sync_all<'a>(&'a mut self) -> Changing<'a, H, J>
        ensures file { result.file.ghost_name ≡ self.entry.ghost_name }
        ensures asked { IsSomeAnd result.what (λ what. IfOk what (IsSyncAll (arc_value self.old.file))) }
        ensures first { IsNone result.task }
    {
        let what = Arc::try_clone(&self.file).map(Changes::SyncAll);
        Changing::new(self, what)
    }

    /// Flushes, and then has on the disk what was written. A flush alone doesn't.
    ///
    /// ```rust
    /// block_on(&rt, file.sync_data())??;
    /// ```
    pub fn sync_data<'a>(&'a mut self) -> Changing<'a, H, J>
        ensures file { result.file.ghost_name ≡ self.entry.ghost_name }
        ensures asked { IsSomeAnd result.what (λ what. IfOk what (IsSyncData (arc_value self.old.file))) }
        ensures first { IsNone result.task }
    {
        let what = Arc::try_clone(&self.file).map(Changes::SyncData);
        Changing::new(self, what)
    }

    /// Flushes, and then has the file cut or extended with zeros to so many bytes. The system's position
    /// stays, which is behind what was read ahead. It doesn't mean that the disk has it.
    ///
    /// ```rust
    /// block_on(&rt, file.set_len(4))??;
    /// ```
    pub fn set_len<'a>(&'a mut self, size: u64) -> Changing<'a, H, J>
        ensures file { result.file.ghost_name ≡ self.entry.ghost_name }
        ensures asked { IsSomeAnd result.what (λ what. IfOk what (IsSetLen (arc_value self.old.file) size)) }
        ensures first { IsNone result.task }
    {
        let what = Arc::try_clone(&self.file).map(|file| Changes::SetLen(file, size));
        Changing::new(self, what)
    }
}

impl<H: Runtime, J: Job + Carries<ReadJob<Shared, H>>> AsyncRead for File<H, J> {
    ghost use Rattle.blocking_core.specs.declared.unblock.PollCall.TheVariants.{Read as ReadCall};
    ghost use Rattle.blocking_unblock.specs.Owners.{Follows, KeepsAtOnce, KeepsRefused, crossed_at, crossed_before, reply_of_count};

    ghost closed = { λ _. ⊥ };

    /// Reads the next bytes, as an owner does.
    fn poll_read(&mut self, cx: &mut Context<'_>, buf: &mut [u8]) -> Poll<Result<usize, IoFault>>
        ensures refused { KeepsRefused self.old.owner.owner.place (reply_of_count result) self.new.owner.owner.place }
        ensures follows { Follows (ReadCall (length buf.old)) self.old.owner.owner.place (reply_of_count result) self.new.owner.owner.place }
        ensures at_once { KeepsAtOnce (ReadCall (length buf.old)) self.old.owner.owner.place self.new.owner.owner.place }
        ensures rest { (self.new.owner.owner.capacity ≡ self.old.owner.owner.capacity)
            × (self.new.owner.owner.executor ≡ self.old.owner.owner.executor) }
        ensures count { IfReady result (λ r. IfOk r (λ n. n ≤ length buf.old)) }
        ensures crossed { IfReady result (λ r. IfOk r (λ n. 0 < n
            → crossed_at self.new.owner.owner.place ≡ crossed_before (ReadCall (length buf.old)) self.old.owner.owner.place + n)) }
        ensures file { self.new.file ≡ self.old.file }
        ensures same_length { length buf.new ≡ length buf.old }
        ensures armed { OnPending result (IsArmed cx.new) }
        ensures kept { Keeps cx.old cx.new }
    {
        self.owner.poll_read(cx, buf)
    }
}

impl<H: Runtime, J: Job + Carries<WriteJob<Shared, H>>> AsyncWrite for File<H, J> {
    ghost use Rattle.blocking_core.specs.declared.unblock.PollCall.TheVariants.{Write as WriteCall, Flush as FlushCall};
    ghost use Rattle.blocking_unblock.specs.Owners.{Follows, KeepsAtOnce, KeepsRefused, crossed_at, crossed_before, reply_of_count, reply_of_done};
    ghost use Rattle.blocking_anytime.specs.Closes.{IsUnclosed};

    ghost closed = { λ _. ⊥ };

    /// Takes the first bytes, which are written later.
    fn poll_write(&mut self, cx: &mut Context<'_>, bytes: &[u8]) -> Poll<Result<usize, IoFault>>
        ensures refused { KeepsRefused self.old.owner.owner.place (reply_of_count result) self.new.owner.owner.place }
        ensures follows { Follows (WriteCall (length bytes.now)) self.old.owner.owner.place (reply_of_count result) self.new.owner.owner.place }
        ensures at_once { KeepsAtOnce (WriteCall (length bytes.now)) self.old.owner.owner.place self.new.owner.owner.place }
        ensures rest { (self.new.owner.owner.capacity ≡ self.old.owner.owner.capacity)
            × (self.new.owner.owner.executor ≡ self.old.owner.owner.executor) }
        ensures count { IfReady result (λ r. IfOk r (λ n. n ≤ length bytes.now)) }
        ensures crossed { IfReady result (λ r. IfOk r (λ n. 0 < n
            → crossed_at self.new.owner.owner.place ≡ crossed_before (WriteCall (length bytes.now)) self.old.owner.owner.place + n)) }
        ensures file { self.new.file ≡ self.old.file }
        ensures armed { OnPending result (IsArmed cx.new) }
        ensures kept { Keeps cx.old cx.new }
    {
        self.owner.poll_write(cx, bytes)
    }

    /// Waits until all that was taken is written, or answers why it isn't. It doesn't mean that the disk has it: that is [`File::sync_all`].
    fn poll_flush(&mut self, cx: &mut Context<'_>) -> Poll<Result<(), IoFault>>
        ensures follows { Follows FlushCall self.old.owner.owner.place (reply_of_done result) self.new.owner.owner.place }
        ensures at_once { KeepsAtOnce FlushCall self.old.owner.owner.place self.new.owner.owner.place }
        ensures rest { (self.new.owner.owner.capacity ≡ self.old.owner.owner.capacity)
            × (self.new.owner.owner.executor ≡ self.old.owner.owner.executor) }
        ensures file { self.new.file ≡ self.old.file }
        ensures armed { OnPending result (IsArmed cx.new) }
        ensures kept { Keeps cx.old cx.new }
    {
        self.owner.poll_flush(cx)
    }

    /// Flushes, which doesn't mean that the disk has it, and closes nothing: once that is done it answers an error of the kind `Unsupported`. A
    /// drop closes a file.
    fn poll_close(&mut self, cx: &mut Context<'_>) -> Poll<Result<(), IoFault>>
        ensures closed { IfReady result (λ r. IsErr r) }
        ensures flushed { (flushed : _) × Follows FlushCall self.old.owner.owner.place (reply_of_done flushed) self.new.owner.owner.place
            × IsUnclosed flushed result }
        ensures at_once { KeepsAtOnce FlushCall self.old.owner.owner.place self.new.owner.owner.place }
        ensures rest { (self.new.owner.owner.capacity ≡ self.old.owner.owner.capacity)
            × (self.new.owner.owner.executor ≡ self.old.owner.owner.executor) }
        ensures file { self.new.file ≡ self.old.file }
        ensures armed { OnPending result (IsArmed cx.new) }
        ensures kept { Keeps cx.old cx.new }
    {
        self.owner.poll_close(cx)
    }
}

impl<H: Runtime, J: Job + Carries<SeekJob<Shared, H>>> AsyncSeek for File<H, J> {
    ghost use Rattle.blocking_core.specs.declared.unblock.PollCall.TheVariants.{Seek as SeekCall};
    ghost use Rattle.blocking_unblock.specs.Owners.{Follows, KeepsRefused, reply_of_seek};
    ghost use Rattle.blocking_unblock_jobs.specs.SeekJobs.{position_of};

    ghost closed = { λ _. ⊥ };

    /// Moves to a position. What was read ahead is lost, and what is to be written is written before.
    fn poll_seek(&mut self, cx: &mut Context<'_>, to: SeekFrom) -> Poll<Result<u64, IoFault>>
        ensures refused { KeepsRefused self.old.owner.owner.place (reply_of_seek result) self.new.owner.owner.place }
        ensures follows { Follows (SeekCall (position_of to)) self.old.owner.owner.place (reply_of_seek result) self.new.owner.owner.place }
        ensures rest { (self.new.owner.owner.capacity ≡ self.old.owner.owner.capacity)
            × (self.new.owner.owner.executor ≡ self.old.owner.owner.executor) }
        ensures file { self.new.file ≡ self.old.file }
        ensures armed { OnPending result (IsArmed cx.new) }
        ensures kept { Keeps cx.old cx.new }
    {
        self.owner.poll_seek(cx, to)
    }
}
