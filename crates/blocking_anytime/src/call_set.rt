//! A set of calls under way.
ghost use Rattle.std.specs.Prelude.{◌≡◌, ◌+◌, ◌==◌, false, Some, IfOk, IfErr, OnOk, OnErr};
ghost use Rattle.futures.specs.Queued.{IsEmptySet, set_len};

use crate::fused_task::FusedTask;
use blocking_core::task::Call;
use blocking_executor::Task;
use futures::Stream;
use futures::stream::FuturesUnordered;
use futures::task::{Context, Poll};
use std::alloc::{AllocError, AllocFailed, Global};
use std::sync::Wait;

/// Calls under way, all at the same time: a stream of their answers, as they come.
///
/// A call may be pushed at any time, also while others are under way, and the set may be polled at any time. It ends where no call is left, and
/// goes on where one is pushed behind that.
///
/// ```rust
/// let mut calls = CallSet::new(rt.alloc())?;
/// calls.push(unblock(&executor, call)?)?;
/// let answer = block_on(&rt, calls.next())?;
/// ```
///
/// Dropping it gives its calls up, as dropping each [`Task`] does.
pub struct CallSet<F: Call<Out: Drop>, H: Wait + Copy> {
    calls: FuturesUnordered<FusedTask<F, H>>,
}

// (as a derive has it; by hand it is proved here once, and not in each crate that drops one)
impl<F: Call<Out: Drop>, H: Wait + Copy> Drop for CallSet<F, H> {
    fn drop(self) {
        let CallSet { calls } = self;
        drop(calls);
    }
}

impl<F: Call<Out: Drop>, H: Wait + Copy> CallSet<F, H> {
    /// A set of no call, or an error where there is no memory for one.
    pub fn new(alloc: Global) -> Result<CallSet<F, H>, AllocError>
        ensures { IfOk result (λ set. IsEmptySet set.calls) }
    {
        Ok(CallSet {
            calls: FuturesUnordered::new(alloc)?,
        })
    }

    /// Adds the call of a task whose answer wasn't taken. Where there is no memory for it, it comes back.
    pub fn push(&mut self, task: Task<F, H>) -> Result<(), AllocFailed<FusedTask<F, H>>>
        requires { task.is_taken ≡ false }
        ensures ok { OnOk result (set_len self.new.calls ≡ set_len self.old.calls + 1) }
        ensures err { OnErr result (set_len self.new.calls ≡ set_len self.old.calls) }
        ensures back { IfErr result (λ failed. failed.value.task ≡ Some task) }
    {
        self.calls.push(FusedTask::new(task))
    }

    /// How many calls are under way: those whose answers haven't come.
    pub fn len(&self) -> usize
        ensures { result ≡ set_len self.now.calls }
    {
        self.calls.len()
    }

    /// Whether no call is under way.
    pub fn is_empty(&self) -> bool
        ensures { result ≡ (set_len self.now.calls == 0) }
    {
        self.calls.is_empty()
    }
}

impl<F: Call<Out: Drop>, H: Wait + Copy> Stream for CallSet<F, H> {
    ghost use Rattle.futures.specs.Queued.{AnyGives, Gathers, set_places};
    ghost use Rattle.std.specs.Prelude.{IsSome};

    type Item = F::Out;

    ghost needs = { λ set source. source ≡ set.calls.tasks.source.id };

    ghost yields = { λ set. Gathers (AnyGives (λ fused out. IsSome fused.task × F.may_give out) (set_places set.calls)) (set_len set.calls) };

    fn poll_next(&mut self, cx: &mut Context<'_>) -> Poll<Option<F::Out>> {
        self.calls.poll_next(cx)
    }
}
