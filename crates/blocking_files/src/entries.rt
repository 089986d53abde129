//! The entries of a directory.
ghost use Rattle.std.specs.Prelude.{◌≡◌, ◌+◌, ◌<◌, ◌↔◌, Err, IfOk, IfErr, IfSome, IsErr, IsNone, IsSome, IsSomeAnd};
ghost use Rattle.blocking_core.specs.declared.unblock.State.TheVariants.{Idle};
ghost use Rattle.blocking_unblock.specs.Owners.{IsAt};
ghost use Rattle.blocking_files.specs.Told.{IsFlat};

use crate::calls::List;
use crate::files::Files;
use crate::job::FileJob;
use crate::task::FileTask;
use blocking::{CallJob, Carries, ItemJob, Job, Refusal, Runtime};
use blocking_anytime::OpenItems;
use futures::task::{Context, Poll};
use futures::{Future, Stream};
use std::alloc::AllocError;
use std::fs::{DirEntry, ReadDir};
use std::io;
use std::io::ErrorKind;

/// The entries of a directory, as a stream: a worker looks ahead, and who polls waits for the next entry alone.
///
/// It looks 256 entries ahead at most. A name that isn't UTF-8 comes as an error of the kind `InvalidFilename`.
///
/// An entry has a path and a name. What else the system knows of it is asked by [`Files::symlink_metadata`] of its path; the entry's own
/// `metadata` would have the caller wait.
///
/// ```rust
/// for _ in rt.forever() {
///     let Some(entry) = block_on(&rt, entries.next())? else {
///         break;
///     };
///     if matches!(entry?.file_name(), "a" | "link") {
///         count = count.saturating_add(1);
///     }
/// }
/// ```
pub struct Entries<H: Runtime, J: Job = FileJob<H>> {
    owner: OpenItems<Box<ReadDir>, io::Result<DirEntry>, H, J>,
}

// (as a derive has it; by hand it is proved here once, and not in each crate that drops one)
impl<H: Runtime, J: Job> Drop for Entries<H, J> {
    fn drop(self) {
        let Entries { owner } = self;
        drop(owner);
    }
}

// How many entries a worker looks ahead at most.
const AHEAD: usize = 256;

impl<H: Runtime, J: Job> Entries<H, J> {
    ghost use Rattle.blocking_unblock.specs.declared.handle_state.HandleState.TheVariants.{Idle as AtOwner};

    fn new(files: &Files<H, J>, entries: Box<ReadDir>) -> Result<Entries<H, J>, AllocError>
        ensures place { IfOk result (λ listed. listed.owner.owner.place ≡ AtOwner entries) }
        ensures client { IfOk result (λ listed. listed.owner.owner.executor.client ≡ files.now.executor.client) }
    {
        let executor = files.executor().try_clone()?;
        Ok(Entries {
            owner: OpenItems::with_capacity(AHEAD, executor, entries),
        })
    }
}

// What a poll for an entry is told of what its owner's came to.
fn flat<X>(polled: Poll<Option<Result<io::Result<X>, Refusal>>>) -> Poll<Option<io::Result<X>>>
    ensures { IsFlat polled result }
{
    match polled {
        Poll::Pending => Poll::Pending,
        Poll::Ready(None) => Poll::Ready(None),
        Poll::Ready(Some(Ok(entry))) => Poll::Ready(Some(entry)),
        Poll::Ready(Some(Err(why))) => Poll::Ready(Some(Err(io::Error::from(why)))),
    }
}

impl<H: Runtime, J: Job + Carries<ItemJob<Box<ReadDir>, io::Result<DirEntry>, H>>> Stream
    for Entries<H, J> {
    ghost use Rattle.futures.specs.Poll.{IfReady, OnPending};
    ghost use Rattle.futures.specs.Task.{IsArmed, Keeps};
    ghost use Rattle.blocking_core.specs.declared.unblock.PollCall.TheVariants.{Next as NextCall};
    ghost use Rattle.blocking_unblock.specs.Owners.{Follows, KeepsRefused, crossed_at, crossed_before, reply_of_next};

    type Item = io::Result<DirEntry>;

    /// The next entry, or None behind the last. It may be asked again.
    fn poll_next(&mut self, cx: &mut Context<'_>) -> Poll<Option<io::Result<DirEntry>>>
        ensures follows { (polled : _) × IsFlat polled result
            × Follows NextCall self.old.owner.owner.place (reply_of_next polled) self.new.owner.owner.place
            × KeepsRefused self.old.owner.owner.place (reply_of_next polled) self.new.owner.owner.place
            × IfReady polled (λ next. IfSome next (λ r. IfOk r (λ _.
            crossed_at self.new.owner.owner.place ≡ crossed_before NextCall self.old.owner.owner.place + 1))) }
        ensures rest { (self.new.owner.owner.capacity ≡ self.old.owner.owner.capacity)
            × (self.new.owner.owner.executor ≡ self.old.owner.owner.executor) }
        ensures armed { OnPending result (IsArmed cx.new) }
        ensures kept { Keeps cx.old cx.new }
    {
        flat(self.owner.poll_next(cx))
    }
}

/// A directory that is being opened: a future of its entries. It may be polled at any time; behind its answer it is pending for good.
///
/// ```rust
/// let mut entries = block_on(&rt, files.read_dir(folder))??;
/// count(rt, &mut entries)
/// ```
pub struct Listing<H: Runtime, J: Job = FileJob<H>> {
    task: FileTask<List, H>,
    // What the directory is lent to, where there was a share of it.
    files: Option<Files<H, J>>,
}

// (as a derive has it; by hand it is proved here once, and not in each crate that drops one)
impl<H: Runtime, J: Job> Drop for Listing<H, J> {
    fn drop(self) {
        let Listing { task, files } = self;
        drop(task);
        drop(files);
    }
}

// The entries over a pool, of which there may be no share.
fn entries_over<H: Runtime, J: Job>(
    files: &Option<Files<H, J>>,
    entries: Box<ReadDir>,
) -> io::Result<Entries<H, J>>
    ensures idle { IfOk result (λ listed. IsAt Idle listed.owner.owner.place) }
    ensures client { IfSome files.now (λ files. IfOk result (λ listed. listed.owner.owner.executor.client ≡ files.executor.client)) }
{
    match files {
        Some(files) => Ok(Entries::new(files, entries)?),
        None => Err(io::Error::from(ErrorKind::OutOfMemory)),
    }
}

impl<H: Runtime, J: Job + Carries<CallJob<List, H>>> Listing<H, J> {
    pub(crate) fn new(files: &Files<H, J>, call: Result<List, AllocError>) -> Listing<H, J>
        ensures asked { IfOk call (λ call. IsSomeAnd result.task.asked (λ asked. asked.value ≡ call)) }
        ensures refused { IfErr call (λ _. IsNone result.task.asked) }
        ensures answered { IsNone result.task.task → IsSomeAnd result.task.refused (λ answer. IsErr answer) }
        ensures client { IfSome result.task.task (λ task. task.job.client ≡ files.now.executor.client) }
        ensures share { IfSome result.files (λ share. share.executor.client ≡ files.now.executor.client) }
    {
        Listing {
            task: files.begin(call),
            files: files.try_clone().ok(),
        }
    }
}

impl<H: Runtime, J: Job> Future for Listing<H, J> {
    ghost use Rattle.futures.specs.Poll.{IfReady, OnPending};
    ghost use Rattle.futures.specs.Task.{Covers, Keeps};
    ghost use Rattle.futures.specs.declared.task.Poll.{Poll};

    type Output = io::Result<Entries<H, J>>;

    // The directory is with its owner: no session is under way.
    ghost gives = { λ _ out. IfOk out (λ listed. IsAt Idle listed.owner.owner.place) };

    fn poll(&mut self, cx: &mut Context<'_>) -> Poll<io::Result<Entries<H, J>>>
        ensures idle { IfReady result (λ r. IfOk r (λ listed. IsAt Idle listed.owner.owner.place)) }
        ensures client { IfSome self.old.files (λ files. IfReady result (λ r. IfOk r (λ listed.
            listed.owner.owner.executor.client ≡ files.executor.client))) }
        ensures files { self.new.files ≡ self.old.files }
        ensures refused { IfSome self.old.task.refused (λ answer. IfErr answer (λ why. result ≡ Poll.Ready (Err why))) }
        ensures behind { IsNone self.old.task.task → IsNone self.old.task.refused → result ≡ Poll.Pending }
        ensures taken { IfReady result (λ _. IsNone self.new.task.task × IsNone self.new.task.refused) }
        ensures asked { self.new.task.asked ≡ self.old.task.asked }
        ensures waits { OnPending result (IsSome self.new.task.task ↔ IsSome self.old.task.task) }
        ensures seated { OnPending result (IfSome self.new.task.task (λ task. IsSome task.asked)) }
        ensures registered { OnPending result
            (Covers cx.new (λ source. IsSomeAnd self.new.task.task (λ task. source ≡ task.source.id))) }
        ensures kept { Keeps cx.old cx.new }
    {
        match self.task.poll(cx) {
            Poll::Pending => Poll::Pending,
            Poll::Ready(Err(why)) => Poll::Ready(Err(why)),
            Poll::Ready(Ok(entries)) => Poll::Ready(entries_over(&self.files, entries)),
        }
    }
}
