//! The job that makes an operation on a handle.
ghost use Rattle.std.specs.Prelude.{◌≡◌, None, Some, OnErr, IfOk};
ghost use Rattle.futures.specs.Task.{IsArmed, Keeps};
ghost use Rattle.blocking_core.specs.declared.job.op.OpAction.TheVariants.{Call, PutResult, Finish, Deliver};
ghost use Rattle.blocking_core.specs.Ops.{new_op, op_next};

use crate::share::{Given, MayFail, SessionShare, put_result};
use blocking_core::job::{OpAction, OpAnswer, OpCore};
use blocking_core::pool::{Carries, Job, JobNo, JobStep};
use blocking_core::task::{CallOn, OfSlot, Seat};
use blocking_sync::{Left, LockedSlot, OwnerWaker};
use futures::task::{Context, Source};
use std::alloc::{AllocError, AllocGlobal};
use std::marker::{Model, PhantomData};
use std::sync::{Arc, Wait};

/// The rule of the place in which an operation's result is left: one that the operation may give.
pub struct ResultOf<F, T> {
    of: PhantomData<(F, T)>,
}

impl<F: CallOn<T>, T> Left for ResultOf<F, T> {
    type Value = F::Out;

    ghost may_be = { λ result. F.may_give result };
}

/// Where the owner of an operation waits for its result.
#[derive(Drop)]
pub struct ResultSeat<F: CallOn<T, Out: Drop>, T, H: Wait + Copy> {
    place: Arc<LockedSlot<ResultOf<F, T>>>,
    source: Source,
    rt: H,
}

impl<F: CallOn<T, Out: Drop>, T, H: Wait + Copy> ResultSeat<F, T, H> {
    /// Takes the result out of its place, or waits there for it. Once it was taken nothing more comes, and a poll waits for good.
    pub fn poll(&self, cx: &mut Context<'_>) -> Result<F::Out, Seat<OfSlot>>
        ensures allowed { IfOk result F.may_give }
        ensures armed { OnErr result (IsArmed cx.new) }
        ensures kept { Keeps cx.old cx.new }
    {
        self.place.await_in(self.rt, &self.source, cx)
    }
}

/// A new place for a result: where its owner waits, and what the job has of it.
#[derive(Drop)]
pub struct ResultPlace<F: CallOn<T, Out: Drop>, T, H: Wait + Copy> {
    /// Where the owner waits for the result.
    pub seat: ResultSeat<F, T, H>,
    /// Where the job leaves it.
    pub place: Arc<LockedSlot<ResultOf<F, T>>>,
}

impl<F: CallOn<T, Out: Drop>, T, H: Wait + AllocGlobal + Copy> ResultPlace<F, T, H> {
    /// A new place, with no result in it. It errs where its memory is refused.
    pub fn new(rt: H) -> Result<ResultPlace<F, T, H>, AllocError> {
        let place = Arc::new(rt.alloc(), LockedSlot::new())?;
        let theirs = Arc::try_clone(&place)?;
        let seat = ResultSeat {
            place,
            source: Source::new(),
            rt,
        };
        Ok(ResultPlace {
            seat,
            place: theirs,
        })
    }
}

/// The job that makes an operation on a handle, once. It leaves the result in a place of its own, and then gives the handle back.
///
/// One that is dropped before it is done drops the handle and gives its slot up, with no lock held. That wakes an owner who waits there for
/// the handle, and none who waits for the result. A pool drops a job only once its owner is gone.
///
/// It is the job type of an executor of one kind of operation:
///
/// ```rust
/// let executor: Executor<OpJob<SyncAll, File, H>, H> = Executor::new(rt, Some("1"))?;
/// let mut file: Unblock<File, (), OpJob<SyncAll, File, H>, H> = Unblock::new(executor, file);
/// ```
pub struct OpJob<F: CallOn<T, Out: Drop> + Drop, T: Drop, H: Wait + Copy> {
    core: OpCore,
    // The operation, until it is called.
    operation: Option<F>,
    // The handle, until it is given back.
    handle: Option<T>,
    // The result, from the call until it is put.
    gave: Option<F::Out>,
    // That it was put, and that the handle was given back.
    put: Option<Given<F::Out>>,
    given: Option<Given<T>>,
    // The waker that was taken out of an owner's seat, and has to be called.
    waker: OwnerWaker,
    place: Arc<LockedSlot<ResultOf<F, T>>>,
    share: Arc<SessionShare<T, MayFail>>,
    rt: H,
}

impl<F: CallOn<T, Out: Drop> + Drop, T: Drop, H: Wait + Copy> Model for OpJob<F, T, H> {
    ghost use Rattle.blocking_unblock_jobs.specs.OpJobs.{OpSeen, op_code, Fits, HasPut};
    ghost use Rattle.blocking_unblock_jobs.specs.Works.{IsKept};

    ghost Value = { OpSeen F T F.Out };

    ghost coded = { op_code F.code T.code F.Out.code };

    ghost view = { λ j. record { core = j.core; operation = j.operation; handle = j.handle; gave = j.gave } };

    ghost invariant = { λ j. Fits F.may_give j.core.next j.operation j.handle j.gave
        × HasPut j.core.next j.put
        × IsKept j.handle j.given };
}

impl<F: CallOn<T, Out: Drop> + Drop, T: Drop, H: Wait + Copy> OpJob<F, T, H> {
    ghost use Rattle.blocking_unblock_jobs.specs.OpJobs.{OpSeen, IsSteppedBy};

    /// The job that makes this operation on this handle. Its result goes to `place`, and the handle comes back by the share.
    pub fn new(
        rt: H,
        operation: F,
        handle: T,
        place: Arc<LockedSlot<ResultOf<F, T>>>,
        share: Arc<SessionShare<T, MayFail>>,
    ) -> OpJob<F, T, H>
        ensures { result ≡ record { core = new_op; operation = Some operation; handle = Some handle; gave = None } }
    {
        OpJob {
            core: OpCore::new(),
            operation: Some(operation),
            handle: Some(handle),
            gave: None,
            put: None,
            given: None,
            waker: None,
            place,
            share,
            rt,
        }
    }

    /// The operation, if it wasn't called, and the handle, if it wasn't given back. The places stay as they are.
    pub fn into_parts(self) -> (Option<F>, Option<T>)
        ensures { result ≡ (self.operation, self.handle) }
    {
        let OpJob {
            core: _,
            operation,
            handle,
            gave: _,
            put: _,
            given: _,
            waker: _,
            place: _,
            share: _,
            rt: _,
        } = self;
        (operation, handle)
    }

    fn call(&mut self) -> JobStep
        requires { op_next self.old.core ≡ Call }
        ensures { IsSteppedBy F.may_give Call self.old self.new result }
    {
        let Some(operation) = self.operation.take() else {
            unreachable!()
        };
        let Some(handle) = &mut self.handle else {
            unreachable!()
        };
        self.gave = Some(operation.call_on(handle));
        self.core.answer(OpAnswer::Returned);
        JobStep::Again
    }

    fn put_result(&mut self) -> JobStep
        requires { op_next self.old.core ≡ PutResult }
        ensures { IsSteppedBy F.may_give PutResult self.old self.new result }
    {
        let Some(gave) = self.gave.take() else {
            unreachable!()
        };
        let (wake, put) = put_result(&self.rt, &self.place, gave);
        self.put = Some(put);
        let woke = wake.is_some();
        self.waker = wake.flatten();
        self.core.answer(OpAnswer::ResultPut { woke });
        JobStep::Again
    }

    fn finish(&mut self) -> JobStep
        requires { op_next self.old.core ≡ Finish }
        ensures { IsSteppedBy F.may_give Finish self.old self.new result }
    {
        let Some(handle) = self.handle.take() else {
            unreachable!()
        };
        let (wake, given) = self.share.give_back(&self.rt, handle, None);
        self.given = Some(given);
        let woke = wake.is_some();
        self.waker = wake.flatten();
        self.core.answer(OpAnswer::Finished { woke });
        if woke { JobStep::Again } else { JobStep::Done }
    }

    fn deliver(&mut self) -> JobStep
        requires { op_next self.old.core ≡ Deliver }
        ensures { IsSteppedBy F.may_give Deliver self.old self.new result }
    {
        if let Some(waker) = self.waker.take() {
            // meeting: Call
            waker.wake();
        }
        self.core.answer(OpAnswer::Delivered);
        match self.core.next() {
            OpAction::Done => JobStep::Done,
            _ => JobStep::Again,
        }
    }
}

impl<F: CallOn<T, Out: Drop> + Drop, T: Drop, H: Wait + Copy> Drop for OpJob<F, T, H> {
    fn drop(self) {
        let OpJob {
            core,
            operation,
            handle,
            gave,
            put: _,
            given: _,
            waker,
            place,
            share,
            rt,
        } = self;
        // All that it has is gone before the owner is told. (a waker that is dropped wakes)
        drop(operation);
        drop(gave);
        drop(handle);
        // meeting: Call
        drop(waker);
        drop(place);
        if let OpAction::Done = core.next() {
            return;
        }
        if let Some(Some(waker)) = share.give_up(&rt) {
            // meeting: Call
            waker.wake();
        }
    }
}

// A pool of one kind of operation has its job as its job type.
impl<F: CallOn<T, Out: Drop> + Drop, T: Drop, H: Wait + Copy> Carries<OpJob<F, T, H>>
    for OpJob<F, T, H> {
    ghost use Rattle.std.specs.Prelude.{Some, refl};

    ghost wrapped = { λ job. job };

    ghost opened = { λ job. Some job };

    ghost undoes = { λ job. refl };

    fn wrap(named: OpJob<F, T, H>) -> OpJob<F, T, H> {
        named
    }

    fn unwrap(self) -> Option<OpJob<F, T, H>> {
        Some(self)
    }
}

impl<F: CallOn<T, Out: Drop> + Drop, T: Drop, H: Wait + Copy> Job for OpJob<F, T, H> {
    ghost use Rattle.blocking_unblock_jobs.specs.OpJobs.{IsStepped};

    // (another thread may set the mark at any time)
    ghost may_answer = { λ _ _. Unit {0} };

    fn step(&mut self, _me: JobNo) -> JobStep
        ensures { IsStepped F.may_give self.old self.new result }
    {
        match self.core.next() {
            OpAction::Call => self.call(),
            OpAction::PutResult => self.put_result(),
            OpAction::Finish => self.finish(),
            OpAction::Deliver => self.deliver(),
            OpAction::Done => JobStep::Done,
        }
    }

    fn abandoned(&self) -> bool {
        self.share.is_marked()
    }
}
