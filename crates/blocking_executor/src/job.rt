//! The job of a call.
ghost use Rattle.std.specs.Prelude.{◌≡◌, Some, None};
ghost use Rattle.blocking_core.specs.declared.job.Action.{Action};

use crate::slot::CallShare;
use blocking_core::job::{Action, Answer, CallCore};
use blocking_core::pool::{Carries, Job, JobNo, JobStep, Refused};
use blocking_core::task::{Call, Put};
use blocking_sync::OwnerWaker;
use std::marker::Model;
use std::mem;
use std::sync::{Arc, Wait};

// What the job holds for its next action.
#[derive(Drop)]
enum CallStage<F: Drop, T: Drop> {
    Call(F),
    Finish(T),
    Deliver(OwnerWaker),
    Done,
}

/// The job of a call: it makes the call, puts the answer into its slot, wakes the owner, and is done.
///
/// One that is dropped before it is done gives its slot up and calls the owner's waker, with no lock held.
///
/// It is the job type of an executor of one kind of call:
///
/// ```rust
/// type Doublers<H> = Executor<CallJob<Double, H>, H>;
/// ```
pub struct CallJob<F: Call<Out: Drop> + Drop, H: Wait + Copy> {
    core: CallCore,
    stage: CallStage<F, F::Out>,
    share: Arc<CallShare<F>>,
    rt: H,
}

impl<F: Call<Out: Drop> + Drop, H: Wait + Copy> Model for CallJob<F, H> {
    ghost use Rattle.blocking_executor.specs.Calls.{CallSeen, call_code};

    ghost Value = { CallSeen F };

    ghost coded = { call_code F.code };

    ghost use Rattle.blocking_executor.specs.Stages.{call_of, Fits};

    ghost view = { λ j. record { next = j.core; call = call_of j.stage } };

    ghost invariant = { λ j. Fits F.may_give j.core j.stage };
}

impl<F: Call<Out: Drop> + Drop, H: Wait + Copy> CallJob<F, H> {
    ghost use Rattle.std.specs.Prelude.{IsSome};
    ghost use Rattle.blocking_executor.specs.Calls.{CallSeen, IsAnswered};

    pub(crate) fn new(rt: H, call: F, share: Arc<CallShare<F>>) -> CallJob<F, H>
        ensures { result ≡ record { next = Action.Call; call = Some call } }
    {
        CallJob {
            core: CallCore::new(),
            stage: CallStage::Call(call),
            share,
            rt,
        }
    }

    // The call, if it wasn't made yet. The slot stays as it is.
    fn into_call(self) -> Option<F>
        ensures { result ≡ self.call }
    {
        let CallJob {
            core: _,
            stage,
            share: _,
            rt: _,
        } = self;
        match stage {
            CallStage::Call(call) => Some(call),
            CallStage::Finish(_) | CallStage::Deliver(_) | CallStage::Done => None,
        }
    }

    /// A call that was refused, out of its job, and why it was.
    pub(crate) fn refused_call(refused: Refused<CallJob<F, H>>) -> Refused<F>
        requires { IsSome refused.back.call }
        ensures back { Some result.back ≡ refused.back.call }
        ensures why { result.why ≡ refused.why }
    {
        let Refused { back, why } = refused;
        match back.into_call() {
            Some(back) => Refused { back, why },
            None => unreachable!(),
        }
    }

    fn make_call(&mut self)
        requires { self.old.next ≡ Action.Call }
        ensures { IsAnswered Action.Call self.new.next }
    {
        let CallStage::Call(call) = mem::replace(&mut self.stage, CallStage::Done) else {
            unreachable!()
        };
        self.stage = CallStage::Finish(call.call());
        self.core.answer(Answer::Returned);
    }

    fn finish(&mut self)
        requires { self.old.next ≡ Action.Finish }
        ensures { IsAnswered Action.Finish self.new.next }
    {
        let CallStage::Finish(value) = mem::replace(&mut self.stage, CallStage::Done) else {
            unreachable!()
        };
        let Put { back, wake } = self.share.put(&self.rt, value);
        // (a value that nobody wants is dropped under no lock)
        drop(back);
        match wake {
            Some(waker) => {
                self.stage = CallStage::Deliver(waker);
                self.core.answer(Answer::Put { woke: true });
            }
            None => self.core.answer(Answer::Put { woke: false }),
        }
    }

    fn deliver(&mut self)
        requires { self.old.next ≡ Action.Deliver }
        ensures { IsAnswered Action.Deliver self.new.next }
    {
        if let CallStage::Deliver(Some(waker)) = mem::replace(&mut self.stage, CallStage::Done) {
            // meeting: Call
            waker.wake();
        }
        self.core.answer(Answer::Delivered);
    }
}

impl<F: Call<Out: Drop> + Drop, H: Wait + Copy> Drop for CallJob<F, H> {
    fn drop(self) {
        let CallJob {
            core,
            stage,
            share,
            rt,
        } = self;
        // The call, or a value that nobody got, is gone before the owner is told. (a waker that is dropped wakes)
        drop(stage);
        if let Action::Done = core.next() {
            return;
        }
        if let Some(Some(waker)) = share.give_up(&rt) {
            // meeting: Call
            waker.wake();
        }
    }
}

// A pool of one kind of call has that call's job as its job type.
impl<F: Call<Out: Drop> + Drop, H: Wait + Copy> Carries<CallJob<F, H>> for CallJob<F, H> {
    ghost use Rattle.std.specs.Prelude.{Some, refl};

    ghost wrapped = { λ job. job };

    ghost opened = { λ job. Some job };

    ghost undoes = { λ job. refl };

    fn wrap(named: CallJob<F, H>) -> CallJob<F, H> {
        named
    }

    fn unwrap(self) -> Option<CallJob<F, H>> {
        Some(self)
    }
}

impl<F: Call<Out: Drop> + Drop, H: Wait + Copy> Job for CallJob<F, H> {
    ghost use Rattle.blocking_executor.specs.Calls.{IsAnswered, told_by};

    // (another thread may set the mark at any time)
    ghost may_answer = { λ _ _. Unit {0} };

    fn step(&mut self, _me: JobNo) -> JobStep
        ensures answered { IsAnswered self.old.next self.new.next }
        ensures told { result ≡ told_by self.new.next }
    {
        match self.core.next() {
            Action::Call => self.make_call(),
            Action::Finish => self.finish(),
            Action::Deliver => self.deliver(),
            Action::Done => {}
        }
        match self.core.next() {
            Action::Done => JobStep::Done,
            _ => JobStep::Again,
        }
    }

    fn abandoned(&self) -> bool {
        self.share.is_marked()
    }
}
