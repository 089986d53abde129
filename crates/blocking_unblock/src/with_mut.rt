//! The future of an operation on a lent handle.
ghost use Rattle.std.specs.Prelude.{◌≡◌, true, false, Some};
ghost use Rattle.futures.specs.Poll.{IfReady, OnPending};
ghost use Rattle.futures.specs.Task.{Covers, Keeps};
ghost use Rattle.blocking_unblock.specs.Owners.{IsClosed, is_operating};
ghost use Rattle.blocking_unblock.specs.Lenders.{has_begun, is_over, given_in, OperationGives};

use crate::lend::{OperationStage, ToOp};
use crate::unblock::Unblock;
use blocking_core::pool::{Carries, Job, Refused};
use blocking_core::task::CallOn;
use blocking_core::unblock::{PollCall, Reply};
use blocking_executor::Runtime;
use blocking_unblock_jobs::OpJob;
use futures::Future;
use futures::task::{Context, Poll};
use std::mem;

/// The future of [`Unblock::with_mut`], which has an example.
#[derive(Drop)]
pub struct WithMut<
    'a,
    F: CallOn<T, Out: Drop> + Drop,
    T: Drop,
    I: Drop,
    J: Job + Carries<OpJob<F, T, H>>,
    H: Runtime,
> {
    owner: &'a mut Unblock<T, I, J, H>,
    operation: ToOp<F, T, H>,
    ghost open: { IsClosed owner.now.place → ⊥ },
    ghost begun: { has_begun operation.stage ≡ true → is_operating owner.now.place ≡ true },
}

impl<
    'a,
    F: CallOn<T, Out: Drop> + Drop,
    T: Drop,
    I: Drop,
    J: Job + Carries<OpJob<F, T, H>>,
    H: Runtime,
> WithMut<'a, F, T, I, J, H> {
    pub(crate) fn new(
        owner: &'a mut Unblock<T, I, J, H>,
        operation: F,
    ) -> WithMut<'a, F, T, I, J, H>
        requires { IsClosed owner.old.place → ⊥ }
        ensures owner { result.owner.ghost_name ≡ owner.entry.ghost_name }
        ensures fresh { is_over result.operation.stage ≡ false }
        ensures given { given_in result.operation.stage ≡ Some operation }
    {
        WithMut {
            owner,
            operation: ToOp {
                stage: OperationStage::Given(operation),
            },
        }
    }

    /// Whether what it gives was taken. It may be polled as long as it wasn't.
    pub fn is_taken(&self) -> bool
        ensures { result ≡ is_over self.now.operation.stage }
    {
        self.operation.is_over()
    }
}

impl<
    'a,
    F: CallOn<T, Out: Drop> + Drop,
    T: Drop,
    I: Drop,
    J: Job + Carries<OpJob<F, T, H>>,
    H: Runtime,
> Future for WithMut<'a, F, T, I, J, H> {
    ghost use Rattle.blocking_core.specs.declared.unblock.PollCall.TheVariants.{Operate as OperateCall};
    ghost use Rattle.blocking_unblock.specs.Owners.{Follows, KeepsRefused, reply_of_operate};

    type Output = Result<F::Out, Refused<F>>;

    ghost can_poll = { λ with. is_over with.operation.stage ≡ false };

    ghost gives = { λ with out. OperationGives F.may_give with.operation.stage out };

    fn poll(&mut self, cx: &mut Context<'_>) -> Poll<Result<F::Out, Refused<F>>>
        requires { is_over self.old.operation.stage ≡ false }
        ensures follows { Follows (OperateCall (has_begun self.old.operation.stage)) self.old.owner.now.place
            (reply_of_operate result) self.new.owner.now.place }
        ensures refused { KeepsRefused self.old.owner.now.place (reply_of_operate result) self.new.owner.now.place }
        ensures owner { self.new.owner.ghost_name ≡ self.old.owner.ghost_name }
        ensures rest { (self.new.owner.now.capacity ≡ self.old.owner.now.capacity)
            × (self.new.owner.now.executor ≡ self.old.owner.now.executor) }
        ensures value { IfReady result (OperationGives F.may_give self.old.operation.stage) }
        ensures taken { IfReady result (λ _. is_over self.new.operation.stage ≡ true) }
        ensures again { OnPending result (is_over self.new.operation.stage ≡ false) }
        ensures same { OnPending result ((out : _) → OperationGives F.may_give self.new.operation.stage out
            → OperationGives F.may_give self.old.operation.stage out) }
        ensures registered { OnPending result (Covers cx.new (λ _. ⊥)) }
        ensures kept { Keeps cx.old cx.new }
    {
        let owner = &mut *self.owner;
        let brought = &mut self.operation;
        let has_begun = brought.has_begun();
        match owner.poll(PollCall::Operate { has_begun }, cx, brought, &mut [], &[]) {
            Poll::Pending => Poll::Pending,
            Poll::Ready(Reply::Result) => {
                let OperationStage::Gave(gave) = mem::replace(
                    &mut brought.stage,
                    OperationStage::Taken,
                ) else {
                    unreachable!()
                };
                Poll::Ready(Ok(gave))
            }
            Poll::Ready(Reply::NotBegun(why)) => {
                let OperationStage::Given(back) = mem::replace(
                    &mut brought.stage,
                    OperationStage::Taken,
                ) else {
                    unreachable!()
                };
                Poll::Ready(Err(Refused { back, why }))
            }
            Poll::Ready(_) => unreachable!(),
        }
    }
}
