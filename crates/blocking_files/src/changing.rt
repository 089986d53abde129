//! A change of an open file.
ghost use Rattle.std.specs.Prelude.{◌≡◌, ◌↔◌, Some, Ok, IfOk, IfErr, IfSome, IsErr, IsNone, IsSome, IsSomeAnd};
ghost use Rattle.std.specs.Option.{ForSome};

use crate::calls::{Change, Changes, Shared};
use crate::file::File;
use crate::files::Files;
use crate::job::FileJob;
use crate::task::FileTask;
use blocking::{AsyncWrite, CallJob, Carries, Job, Runtime, WriteJob};
use futures::Future;
use futures::task::{Context, Poll};
use std::alloc::AllocError;
use std::io;

/// A change of an open file that is under way: a future that flushes the file, and is ready once the change is made.
///
/// It may be polled at any time; behind its answer it is pending for good. Where the flush fails, its fault is the answer, and nothing is
/// changed.
///
/// ```rust
/// block_on(&rt, file.set_len(4))??;
/// block_on(&rt, file.sync_all())?
/// ```
#[derive(Drop)]
pub struct Changing<'a, H: Runtime, J: Job = FileJob<H>> {
    file: &'a mut File<H, J>,
    // What is asked for, until it is flushed.
    what: Option<Result<Changes, AllocError>>,
    // The change, once it is flushed.
    task: Option<FileTask<Change, H>>,
    ghost unasked: { ForSome task (λ change. ForSome change.refused (λ answer. IsErr answer)) },
    ghost named: { IsNone task → IsSome what },
}

impl<'a, H: Runtime, J: Job> Changing<'a, H, J> {
    pub(crate) fn new(
        file: &'a mut File<H, J>,
        what: Result<Changes, AllocError>,
    ) -> Changing<'a, H, J>
        ensures file { result.file.ghost_name ≡ file.entry.ghost_name }
        ensures asked { result.what ≡ Some what }
        ensures first { IsNone result.task }
    {
        Changing {
            file,
            what: Some(what),
            task: None,
        }
    }
}

// Has the change made that is asked for.
fn begin<H: Runtime, J: Job + Carries<CallJob<Change, H>>>(
    files: &Files<H, J>,
    what: Option<Result<Changes, AllocError>>,
) -> FileTask<Change, H>
    ensures asked { IfSome result.asked (λ asked. what ≡ Some (Ok asked.value.what)) }
    ensures answered { IsSome what → IsNone result.task → IsSomeAnd result.refused (λ answer. IsErr answer) }
    ensures refused { IfSome result.refused (λ answer. IsErr answer) }
    ensures client { IfSome result.task (λ task. task.job.client ≡ files.now.executor.client) }
{
    match what {
        Some(what) => files.change(what),
        None => FileTask::spent(),
    }
}

impl<'a, H: Runtime, J: Job + Carries<CallJob<Change, H>> + Carries<WriteJob<Shared, H>>> Future
    for Changing<'a, H, J> {
    ghost use Rattle.futures.specs.Poll.{IfReady, OnPending};
    ghost use Rattle.futures.specs.Task.{Covers, Keeps};
    ghost use Rattle.futures.specs.declared.task.Poll.{Poll};
    ghost use Rattle.blocking_core.specs.declared.unblock.PollCall.TheVariants.{Flush as FlushCall};
    ghost use Rattle.blocking_unblock.specs.Owners.{Follows, reply_of_done};
    ghost use Rattle.blocking_core.specs.Faults.{IsToldAs};
    ghost use Rattle.blocking_files.specs.Told.{IsFlushed};

    type Output = io::Result<()>;

    fn poll(&mut self, cx: &mut Context<'_>) -> Poll<io::Result<()>>
        ensures file { self.new.file.ghost_name ≡ self.old.file.ghost_name }
        ensures waits { IsNone self.new.task → self.new.what ≡ self.old.what }
        ensures asked { IsNone self.old.task → IfSome self.new.task (λ task. IfSome task.asked (λ asked.
            self.old.what ≡ Some (Ok asked.value.what))) }
        ensures flushed { IsNone self.old.task → (flushed : _)
            × Follows FlushCall self.old.file.now.owner.owner.place (reply_of_done flushed) self.new.file.now.owner.owner.place
            × IfSome self.new.task (λ task. IsSome task.asked → IsFlushed flushed)
            × (IsNone self.new.task → flushed ≡ Poll.Pending)
            × IfReady flushed (λ f. IfErr f (λ why. IfReady result (λ r. IfErr r (IsToldAs why)))) }
        ensures begun { OnPending result (IsNone self.old.task → IfSome self.new.task (λ change. IsSome change.task)) }
        ensures made { IfReady result (λ r. IfOk r (λ _. IsSomeAnd self.new.task (λ change. IsSome change.asked))) }
        ensures refused { IfSome self.old.task (λ change. IfSome change.refused (λ answer. result ≡ Poll.Ready answer)) }
        ensures value { IfSome self.old.task (λ change. IsNone change.refused → IfReady result (λ _. IsSome change.task)) }
        ensures behind { IfSome self.old.task (λ change. IsNone change.task → IsNone change.refused → result ≡ Poll.Pending) }
        ensures stays { IfSome self.old.task (λ old. IsSomeAnd self.new.task (λ new. (new.asked ≡ old.asked)
            × OnPending result (IsSome new.task ↔ IsSome old.task))) }
        ensures taken { IfReady result (λ _. IsSomeAnd self.new.task (λ change. IsNone change.task × IsNone change.refused)) }
        ensures armed { OnPending result (Covers cx.new (λ _. ⊥)) }
        ensures seated { OnPending result (IfSome self.new.task (λ change. IfSome change.task (λ task. IsSome task.asked))) }
        ensures registered { OnPending result (IfSome self.new.task (λ change.
            Covers cx.new (λ source. IsSomeAnd change.task (λ task. source ≡ task.source.id)))) }
        ensures kept { Keeps cx.old cx.new }
    {
        if let Some(task) = &mut self.task {
            return task.poll(cx);
        }
        match self.file.poll_flush(cx) {
            Poll::Pending => Poll::Pending,
            Poll::Ready(Err(why)) => {
                self.task = Some(FileTask::spent());
                Poll::Ready(Err(io::Error::from(why)))
            }
            Poll::Ready(Ok(())) => {
                let what = self.what.take();
                let mut task = begin(self.file.files(), what);
                let polled = task.poll(cx);
                self.task = Some(task);
                polled
            }
        }
    }
}
