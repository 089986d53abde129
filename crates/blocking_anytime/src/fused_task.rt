//! A call under way that may be polled behind its answer.
ghost use Rattle.std.specs.Prelude.{◌≡◌, false, true, ◌↔◌, Some, IsNone};
ghost use Rattle.std.specs.Option.{ForSome};

use blocking_core::task::Call;
use blocking_executor::Task;
use futures::future::Pending;
use futures::task::{Context, Poll};
use futures::{Future, future};
use std::sync::Wait;

/// A call under way: a future of its answer that may be polled at any time. Behind its answer it is pending for good.
///
/// It is what a set of calls is made of, such as the kit's `FuturesUnordered`, which asks of each that it may be polled:
///
/// ```rust
/// let mut calls = FuturesUnordered::new(rt.alloc())?;
/// calls.push(FusedTask::new(unblock(&executor, call)?))?;
/// let answer = block_on(&rt, calls.next())?;
/// ```
///
/// Dropping it gives the call up, as dropping its [`Task`] does.
pub struct FusedTask<F: Call<Out: Drop>, H: Wait + Copy> {
    // The task, until its answer was taken.
    task: Option<Task<F, H>>,
    // What a poll behind the answer waits for.
    never: Pending<()>,
    ghost untaken: { ForSome task (λ task. task.is_taken ≡ false) },
}

// (as a derive has it; by hand it is proved here once, and not in each crate that drops one)
impl<F: Call<Out: Drop>, H: Wait + Copy> Drop for FusedTask<F, H> {
    fn drop(self) {
        let FusedTask { task, never } = self;
        drop(task);
        drop(never);
    }
}

impl<F: Call<Out: Drop>, H: Wait + Copy> FusedTask<F, H> {
    /// The call of a task whose answer wasn't taken.
    pub fn new(task: Task<F, H>) -> FusedTask<F, H>
        requires { task.is_taken ≡ false }
        ensures { result.task ≡ Some task }
    {
        FusedTask {
            task: Some(task),
            never: future::pending(),
        }
    }

    /// Whether the answer was taken. From then on every poll is pending.
    pub fn is_taken(&self) -> bool
        ensures { (result ≡ true) ↔ IsNone self.now.task }
    {
        self.task.is_none()
    }

    /// The task, where its answer wasn't taken.
    ///
    /// ```rust
    /// let mut fused = FusedTask::new(unblock(&executor, Double(4))?);
    /// let first = block_on(&rt, &mut fused)?;
    /// // (none is left, since the answer was taken)
    /// let left = fused.into_task();
    /// ```
    pub fn into_task(self) -> Option<Task<F, H>>
        ensures task { result ≡ self.task }
        ensures untaken { ForSome result (λ task. task.is_taken ≡ false) }
    {
        let FusedTask { task, never: _ } = self;
        task
    }
}

impl<F: Call<Out: Drop>, H: Wait + Copy> Future for FusedTask<F, H> {
    ghost use Rattle.std.specs.Prelude.{IfSome, IsSome, IsNone, IsSomeAnd};
    ghost use Rattle.futures.specs.Poll.{IfReady, OnPending};
    ghost use Rattle.futures.specs.Task.{Covers, Keeps};

    type Output = F::Out;

    ghost needs = { λ fused source. IsSomeAnd fused.task (λ task. source ≡ task.source.id) };

    ghost gives = { λ fused out. IsSome fused.task × F.may_give out };

    fn poll(&mut self, cx: &mut Context<'_>) -> Poll<F::Out>
        ensures value { IfReady result (λ out. IsSome self.old.task × F.may_give out) }
        ensures taken { IfReady result (λ _. IsNone self.new.task) }
        ensures waits { OnPending result (IsSome self.new.task ↔ IsSome self.old.task) }
        ensures seated { OnPending result (IfSome self.new.task (λ task. IsSome task.asked)) }
        ensures registered { OnPending result
            (Covers cx.new (λ source. IsSomeAnd self.new.task (λ task. source ≡ task.source.id))) }
        ensures kept { Keeps cx.old cx.new }
    {
        let Some(task) = &mut self.task else {
            let _ = self.never.poll(cx);
            return Poll::Pending;
        };
        match task.poll(cx) {
            Poll::Pending => Poll::Pending,
            Poll::Ready(out) => {
                self.task = None;
                Poll::Ready(out)
            }
        }
    }
}
