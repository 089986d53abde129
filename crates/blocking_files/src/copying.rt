//! A copy of a file to another.
ghost use Rattle.std.specs.Prelude.{◌≡◌, ◌↔◌, false, Ok, Err, IfOk, IfErr, IfSome, IsErr, IsNone, IsSome, IsSomeAnd};
ghost use Rattle.futures.specs.Poll.{IfReady, OnPending};
ghost use Rattle.futures.specs.Task.{Covers, Keeps};
ghost use Rattle.futures.specs.declared.task.Poll.{Poll};
ghost use Rattle.std.specs.Option.{ForSome};
ghost use Rattle.blocking_io.specs.CopySteps.{is_over};
ghost use Rattle.blocking_io.specs.Copies.{EndsWith, Reaches};
ghost use Rattle.blocking_files.specs.Told.{FailsWith};

use crate::calls::{OpenBoth, Shared};
use crate::file::File;
use crate::files::Files;
use crate::job::FileJob;
use crate::opening::file_over;
use crate::task::FileTask;
use blocking::{AsyncRead, AsyncWrite, CallJob, Carries, Copier, Job, ReadJob, Runtime, WriteJob};
use futures::Future;
use futures::task::{Context, Poll};
use std::alloc::{AllocError, Global};
use std::io;

// How many bytes are read at once.
const PIECE: usize = 65_536;

/// A copy of a file to another: a future of how many bytes were copied, or the greatest number of 64 bits where there were more. It is ready
/// once all of them were written and flushed, which doesn't mean that the disk has them.
///
/// It may be polled at any time; behind its answer it is pending for good. After a fault the copy may have a part of the bytes. Both files
/// stay open until it is dropped.
///
/// ```rust
/// let copied = block_on(&rt, files.copy(from, to))??;
/// ```
pub struct Copying<H: Runtime, J: Job = FileJob<H>> {
    // The call that opens both.
    task: FileTask<OpenBoth, H>,
    // What both are lent to, where there was a share of it.
    files: Option<Files<H, J>>,
    alloc: Global,
    // The copy, once both are open and until it was ready.
    copier: Option<Copier<File<H, J>, File<H, J>>>,
    // The copy, once it was ready: it shows what was answered.
    ended: Option<Copier<File<H, J>, File<H, J>>>,
    ghost going: { ForSome copier (λ copier. is_over copier.core.next ≡ false) },
    ghost opened: { ForSome copier (λ _. IsNone task.task × IsNone task.refused) },
}

// (as a derive has it; by hand it is proved here once, and not in each crate that drops one)
impl<H: Runtime, J: Job> Drop for Copying<H, J> {
    fn drop(self) {
        let Copying {
            task,
            files,
            alloc: _,
            copier,
            ended,
        } = self;
        drop(task);
        drop(files);
        drop(copier);
        drop(ended);
    }
}

impl<H: Runtime, J: Job + Carries<CallJob<OpenBoth, H>>> Copying<H, J> {
    pub(crate) fn new(files: &Files<H, J>, call: Result<OpenBoth, AllocError>) -> Copying<H, J>
        ensures asked { IfOk call (λ call. IsSomeAnd result.task.asked (λ asked. asked.value ≡ call)) }
        ensures refused { IfErr call (λ _. IsNone result.task.asked) }
        ensures answered { IsNone result.task.task → IsSomeAnd result.task.refused (λ answer. IsErr answer) }
        ensures client { IfSome result.task.task (λ task. task.job.client ≡ files.now.executor.client) }
        ensures share { IfSome result.files (λ share. share.executor.client ≡ files.now.executor.client) }
    {
        Copying {
            task: files.begin(call),
            files: files.try_clone().ok(),
            alloc: files.alloc(),
            copier: None,
            ended: None,
        }
    }
}

impl<H: Runtime, J: Job + Carries<ReadJob<Shared, H>> + Carries<WriteJob<Shared, H>>> Copying<
    H,
    J,
> {
    // The copy, once both files are open.
    fn poll_open(
        &mut self,
        cx: &mut Context<'_>,
    ) -> Poll<io::Result<Copier<File<H, J>, File<H, J>>>>
        ensures going { IfReady result (λ r. IfOk r (λ copier. is_over copier.core.next ≡ false)) }
        ensures same { (self.new.copier ≡ self.old.copier) × (self.new.ended ≡ self.old.ended) }
        ensures refused { IfSome self.old.task.refused (λ answer. IfErr answer (λ why. result ≡ Poll.Ready (Err why))) }
        ensures behind { IsNone self.old.task.task → IsNone self.old.task.refused → result ≡ Poll.Pending }
        ensures taken { IfReady result (λ _. IsNone self.new.task.task × IsNone self.new.task.refused) }
        ensures asked { self.new.task.asked ≡ self.old.task.asked }
        ensures waits { OnPending result (IsSome self.new.task.task ↔ IsSome self.old.task.task) }
        ensures seated { OnPending result (IfSome self.new.task.task (λ task. IsSome task.asked)) }
        ensures registered { OnPending result
            (Covers cx.new (λ source. IsSomeAnd self.new.task.task (λ task. source ≡ task.source.id))) }
        ensures kept { Keeps cx.old cx.new }
    {
        match self.task.poll(cx) {
            Poll::Pending => Poll::Pending,
            Poll::Ready(Err(why)) => Poll::Ready(Err(why)),
            Poll::Ready(Ok((from, to))) => Poll::Ready(self.copier_over(from, to)),
        }
    }

    fn copier_over(&self, from: Shared, to: Shared) -> io::Result<Copier<File<H, J>, File<H, J>>>
        ensures going { IfOk result (λ copier. is_over copier.core.next ≡ false) }
        ensures from { IfOk result (λ copier. copier.reader.file ≡ from) }
        ensures to { IfOk result (λ copier. copier.writer.file ≡ to) }
    {
        let reader = file_over(&self.files, from)?;
        let writer = file_over(&self.files, to)?;
        Ok(Copier::new(self.alloc, reader, writer, PIECE)?)
    }
}

impl<H: Runtime, J: Job + Carries<ReadJob<Shared, H>> + Carries<WriteJob<Shared, H>>> Future
    for Copying<H, J> {
    type Output = io::Result<u64>;

    fn poll(&mut self, cx: &mut Context<'_>) -> Poll<io::Result<u64>>
        ensures copied { IfReady result (λ r. IfOk r (λ count.
            IsSomeAnd self.new.ended (λ copier. EndsWith copier.core.next (Ok count)))) }
        ensures fault { IsSome self.old.copier → IfReady result (λ r. IfErr r (λ error.
            IsSomeAnd self.new.ended (λ copier. FailsWith copier error))) }
        ensures went_on { IfSome self.old.copier (λ old. OnPending result (IsSomeAnd self.new.copier
            (λ new. Reaches ⟦<File<H, J> as AsyncRead>⟧.reads ⟦<File<H, J> as AsyncWrite>⟧.writes old new))) }
        ensures over { IfReady result (λ _. IsNone self.new.copier) }
        ensures refused { IsNone self.old.copier
            → IfSome self.old.task.refused (λ answer. IfErr answer (λ why. result ≡ Poll.Ready (Err why))) }
        ensures behind { IsNone self.old.copier → IsNone self.old.task.task → IsNone self.old.task.refused → result ≡ Poll.Pending }
        ensures taken { IfReady result (λ _. IsNone self.new.task.task × IsNone self.new.task.refused) }
        ensures asked { self.new.task.asked ≡ self.old.task.asked }
        ensures waits { OnPending result (IsNone self.new.copier → (IsSome self.new.task.task ↔ IsSome self.old.task.task)) }
        ensures armed { OnPending result (Covers cx.new (λ _. ⊥)) }
        ensures seated { OnPending result (IsNone self.new.copier → IfSome self.new.task.task (λ task. IsSome task.asked)) }
        ensures registered { OnPending result (IsNone self.new.copier →
            Covers cx.new (λ source. IsSomeAnd self.new.task.task (λ task. source ≡ task.source.id))) }
        ensures kept { Keeps cx.old cx.new }
    {
        if self.copier.is_none() {
            match self.poll_open(cx) {
                Poll::Pending => return Poll::Pending,
                Poll::Ready(Err(why)) => return Poll::Ready(Err(why)),
                Poll::Ready(Ok(copier)) => self.copier = Some(copier),
            }
        }
        let Some(copier) = &mut self.copier else {
            unreachable!()
        };
        match copier.poll(cx) {
            Poll::Pending => Poll::Pending,
            Poll::Ready(ended) => {
                self.ended = self.copier.take();
                Poll::Ready(ended.map_err(io::Error::from))
            }
        }
    }
}
