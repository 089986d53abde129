//! A call on files under way.
ghost use Rattle.std.specs.Prelude.{◌≡◌, ◌↔◌, true, false, is_some, Some, IfOk, IfErr, IfSome, IsErr, IsNone, IsSome, IsSomeAnd};
ghost use Rattle.std.specs.Option.{ForSome};

use blocking::{Call, CallJob, Carries, Executor, Job, Runtime, Task, unblock};
use futures::future::Pending;
use futures::task::{Context, Poll};
use futures::{Future, future};
use std::alloc::AllocError;
use std::io;
use std::snapshot::Snapshot;

/// A call on files under way: a future of its answer. It began when it was asked for, and may be polled at any time; behind its answer it
/// is pending for good.
///
/// Where the call was refused, the answer is that refusal as an error of the system, and nothing was done. Dropping the future gives the call
/// up: one that wasn't begun need not be made, and one that runs goes on.
///
/// ```rust
/// let bytes = files.read(path);
/// let text = files.read_to_string(path);
/// Ok((block_on(&rt, bytes)??, block_on(&rt, text)??, length))
/// ```
pub struct FileTask<F: Call<Out: Drop> + Drop, H: Runtime> {
    // The call, until it was answered.
    task: Option<Task<F, H>>,
    // The answer of a call that was refused, until it was taken.
    refused: Option<F::Out>,
    // What a poll behind the answer waits for.
    never: Pending<()>,
    // What was asked for, where there was memory for it.
    asked: Option<Snapshot<F>>,
    ghost untaken: { ForSome task (λ task. task.is_taken ≡ false) },
    ghost one: { ForSome refused (λ _. is_some task ≡ false) },
    ghost known: { ForSome task (λ _. is_some asked ≡ true) },
}

// (as a derive has it; by hand it is proved here once, and not in each crate that drops one)
impl<F: Call<Out: Drop> + Drop, H: Runtime> Drop for FileTask<F, H> {
    fn drop(self) {
        let FileTask {
            task,
            refused,
            never,
            asked,
        } = self;
        drop(task);
        drop(refused);
        drop(never);
        drop(asked);
    }
}

impl<F: Call<Out: Drop> + Drop, H: Runtime> FileTask<F, H> {
    // A call that is answered so without being made.
    pub(crate) fn refused(answer: F::Out) -> FileTask<F, H>
        ensures refused { result.refused ≡ Some answer }
        ensures asked { IsNone result.asked }
    {
        FileTask {
            task: None,
            refused: Some(answer),
            never: future::pending(),
            asked: None,
        }
    }

    // A call whose answer was taken.
    pub(crate) fn spent() -> FileTask<F, H>
        ensures spent { IsNone result.task × IsNone result.refused }
        ensures asked { IsNone result.asked }
    {
        FileTask {
            task: None,
            refused: None,
            never: future::pending(),
            asked: None,
        }
    }

    /// Whether the answer was taken. From then on every poll is pending.
    ///
    /// ```rust
    /// let call = files.symlink_metadata(link);
    /// let begun = !call.is_taken();
    /// ```
    pub fn is_taken(&self) -> bool
        ensures { (result ≡ true) ↔ (IsNone self.now.task × IsNone self.now.refused) }
    {
        self.task.is_none() && self.refused.is_none()
    }
}

impl<F: Call<Out = io::Result<T>> + Drop, T: Drop, H: Runtime> FileTask<F, H> {
    // Has a call made, unless there was no memory for it.
    pub(crate) fn begin<J: Job + Carries<CallJob<F, H>>>(
        executor: &Executor<J, H>,
        call: Result<F, AllocError>,
    ) -> FileTask<F, H>
        ensures asked { IfOk call (λ call. IsSomeAnd result.asked (λ asked. asked.value ≡ call)) }
        ensures refused { IfErr call (λ _. IsNone result.asked) }
        ensures answered { IsNone result.task → IsSomeAnd result.refused (λ answer. IsErr answer) }
        ensures client { IfSome result.task (λ task. task.job.client ≡ executor.now.client) }
    {
        let call = match call {
            Ok(call) => call,
            Err(why) => return FileTask::refused(Err(io::Error::from(why))),
        };
        let asked = Some(Snapshot::of(&call));
        let (task, refused) = match unblock(executor, call) {
            Ok(task) => (Some(task), None),
            Err(refused) => (None, Some(Err(io::Error::from(refused)))),
        };
        FileTask {
            task,
            refused,
            never: future::pending(),
            asked,
        }
    }
}

impl<F: Call<Out: Drop> + Drop, H: Runtime> Future for FileTask<F, H> {
    ghost use Rattle.futures.specs.Poll.{IfReady, OnPending};
    ghost use Rattle.futures.specs.Task.{Covers, Keeps};
    ghost use Rattle.futures.specs.declared.task.Poll.{Poll};

    type Output = F::Out;

    fn poll(&mut self, cx: &mut Context<'_>) -> Poll<F::Out>
        ensures refused { IfSome self.old.refused (λ answer. result ≡ Poll.Ready answer) }
        ensures behind { IsNone self.old.task → IsNone self.old.refused → result ≡ Poll.Pending }
        ensures value { IsNone self.old.refused → IfReady result (λ out. IsSome self.old.task × F.may_give out) }
        ensures known { IsNone self.old.refused → IfReady result (λ _. IsSome self.new.asked) }
        ensures taken { IfReady result (λ _. IsNone self.new.task × IsNone self.new.refused) }
        ensures told { IsNone self.new.refused }
        ensures waits { OnPending result (IsSome self.new.task ↔ IsSome self.old.task) }
        ensures seated { OnPending result (IfSome self.new.task (λ task. IsSome task.asked)) }
        ensures asked { self.new.asked ≡ self.old.asked }
        ensures registered { OnPending result
            (Covers cx.new (λ source. IsSomeAnd self.new.task (λ task. source ≡ task.source.id))) }
        ensures kept { Keeps cx.old cx.new }
    {
        if let Some(answer) = self.refused.take() {
            return Poll::Ready(answer);
        }
        let Some(task) = &mut self.task else {
            let _ = self.never.poll(cx);
            return Poll::Pending;
        };
        match task.poll(cx) {
            Poll::Pending => Poll::Pending,
            Poll::Ready(answer) => {
                self.task = None;
                Poll::Ready(answer)
            }
        }
    }
}
