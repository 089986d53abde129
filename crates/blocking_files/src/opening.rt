//! A file that is being opened.
ghost use Rattle.std.specs.Prelude.{◌≡◌, ◌↔◌, Err, IfOk, IfErr, IfSome, IsErr, IsNone, IsSome, IsSomeAnd};
ghost use Rattle.blocking_core.specs.declared.unblock.State.TheVariants.{Idle};
ghost use Rattle.blocking_unblock.specs.Owners.{IsAt};

use crate::calls::{Open, Shared};
use crate::file::File;
use crate::files::Files;
use crate::job::FileJob;
use crate::task::FileTask;
use blocking::{CallJob, Carries, Job, Runtime};
use futures::Future;
use futures::task::{Context, Poll};
use std::alloc::AllocError;
use std::io;
use std::io::ErrorKind;

/// A file that is being opened: a future of it. It may be polled at any time; behind its answer it is pending for good.
///
/// ```rust
/// let opening = files.open(path);
/// let mut file = block_on(&rt, opening)??;
/// ```
pub struct Opening<H: Runtime, J: Job = FileJob<H>> {
    task: FileTask<Open, H>,
    // What the file is lent to, where there was a share of it.
    files: Option<Files<H, J>>,
}

// (as a derive has it; by hand it is proved here once, and not in each crate that drops one)
impl<H: Runtime, J: Job> Drop for Opening<H, J> {
    fn drop(self) {
        let Opening { task, files } = self;
        drop(task);
        drop(files);
    }
}

// The file over a pool, of which there may be no share.
pub(crate) fn file_over<H: Runtime, J: Job>(
    files: &Option<Files<H, J>>,
    file: Shared,
) -> io::Result<File<H, J>>
    ensures file { IfOk result (λ opened. opened.file ≡ file) }
    ensures idle { IfOk result (λ opened. IsAt Idle opened.owner.owner.place) }
    ensures client { IfSome files.now (λ files. IfOk result (λ opened.
        (opened.owner.owner.executor.client ≡ files.executor.client) × (opened.files.executor.client ≡ files.executor.client))) }
{
    match files {
        Some(files) => Ok(File::new(files, file)?),
        None => Err(io::Error::from(ErrorKind::OutOfMemory)),
    }
}

impl<H: Runtime, J: Job + Carries<CallJob<Open, H>>> Opening<H, J> {
    pub(crate) fn new(files: &Files<H, J>, call: Result<Open, AllocError>) -> Opening<H, J>
        ensures asked { IfOk call (λ call. IsSomeAnd result.task.asked (λ asked. asked.value ≡ call)) }
        ensures refused { IfErr call (λ _. IsNone result.task.asked) }
        ensures answered { IsNone result.task.task → IsSomeAnd result.task.refused (λ answer. IsErr answer) }
        ensures client { IfSome result.task.task (λ task. task.job.client ≡ files.now.executor.client) }
        ensures share { IfSome result.files (λ share. share.executor.client ≡ files.now.executor.client) }
    {
        Opening {
            task: files.begin(call),
            files: files.try_clone().ok(),
        }
    }
}

impl<H: Runtime, J: Job> Future for Opening<H, J> {
    ghost use Rattle.futures.specs.Poll.{IfReady, OnPending};
    ghost use Rattle.futures.specs.Task.{Covers, Keeps};
    ghost use Rattle.futures.specs.declared.task.Poll.{Poll};

    type Output = io::Result<File<H, J>>;

    // The file is with its owner: no session is under way.
    ghost gives = { λ _ out. IfOk out (λ file. IsAt Idle file.owner.owner.place) };

    fn poll(&mut self, cx: &mut Context<'_>) -> Poll<io::Result<File<H, J>>>
        ensures idle { IfReady result (λ r. IfOk r (λ file. IsAt Idle file.owner.owner.place)) }
        ensures client { IfSome self.old.files (λ files. IfReady result (λ r. IfOk r (λ file.
            (file.owner.owner.executor.client ≡ files.executor.client) × (file.files.executor.client ≡ files.executor.client)))) }
        ensures files { self.new.files ≡ self.old.files }
        ensures refused { IfSome self.old.task.refused (λ answer. IfErr answer (λ why. result ≡ Poll.Ready (Err why))) }
        ensures behind { IsNone self.old.task.task → IsNone self.old.task.refused → result ≡ Poll.Pending }
        ensures taken { IfReady result (λ _. IsNone self.new.task.task × IsNone self.new.task.refused) }
        ensures asked { self.new.task.asked ≡ self.old.task.asked }
        ensures waits { OnPending result (IsSome self.new.task.task ↔ IsSome self.old.task.task) }
        ensures seated { OnPending result (IfSome self.new.task.task (λ task. IsSome task.asked)) }
        ensures registered { OnPending result
            (Covers cx.new (λ source. IsSomeAnd self.new.task.task (λ task. source ≡ task.source.id))) }
        ensures kept { Keeps cx.old cx.new }
    {
        match self.task.poll(cx) {
            Poll::Pending => Poll::Pending,
            Poll::Ready(Err(why)) => Poll::Ready(Err(why)),
            Poll::Ready(Ok(file)) => Poll::Ready(file_over(&self.files, file)),
        }
    }
}
