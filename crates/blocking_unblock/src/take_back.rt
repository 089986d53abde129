//! The future of a handle that its owner takes back for good.
ghost use Rattle.std.specs.Prelude.{◌≡◌, ◌↔◌, true, Some, IsNone};
ghost use Rattle.std.specs.Option.{ForSome};
ghost use Rattle.blocking_unblock.specs.Owners.{IsClosed};

use crate::lend::ToNobody;
use crate::unblock::Unblock;
use blocking_core::pool::Job;
use blocking_core::unblock::PollCall;
use blocking_executor::Runtime;
use futures::Future;
use futures::task::{Context, Poll};

/// The future of [`Unblock::into_inner`], which has an example.
pub struct IntoInner<T: Drop, I: Drop, J: Job, H: Runtime> {
    // The owner, until the handle was taken.
    owner: Option<Unblock<T, I, J, H>>,
    ghost open: { ForSome owner (λ owner. IsClosed owner.place → ⊥) },
}

// (as a derive has it; by hand it is proved here once, and not in each crate that drops one)
impl<T: Drop, I: Drop, J: Job, H: Runtime> Drop for IntoInner<T, I, J, H> {
    fn drop(self) {
        let IntoInner { owner } = self;
        drop(owner);
    }
}

impl<T: Drop, I: Drop, J: Job, H: Runtime> IntoInner<T, I, J, H> {
    pub(crate) fn new(owner: Unblock<T, I, J, H>) -> IntoInner<T, I, J, H>
        requires { IsClosed owner.place → ⊥ }
        ensures { result.owner ≡ Some owner }
    {
        IntoInner { owner: Some(owner) }
    }

    /// Whether the handle was taken. It may be polled as long as it wasn't.
    pub fn is_taken(&self) -> bool
        ensures { (result ≡ true) ↔ IsNone self.now.owner }
    {
        self.owner.is_none()
    }
}

impl<T: Drop, I: Drop, J: Job, H: Runtime> Future for IntoInner<T, I, J, H> {
    ghost use Rattle.futures.specs.Poll.{IfReady, OnPending};
    ghost use Rattle.futures.specs.Task.{IsArmed, Keeps};
    ghost use Rattle.std.specs.Prelude.{IsSome, IsNone, IfSome};
    ghost use Rattle.blocking_core.specs.declared.unblock.PollCall.TheVariants.{IntoInner as TakeBackCall};
    ghost use Rattle.blocking_unblock.specs.declared.handle_state.HandleState.TheVariants.{Idle as AtOwner};
    ghost use Rattle.blocking_unblock.specs.Owners.{Follows, KeepsAtOnce, reply_of_get};

    type Output = T;

    ghost can_poll = { λ taking. IsSome taking.owner };

    fn poll(&mut self, cx: &mut Context<'_>) -> Poll<T>
        requires { IsSome self.old.owner }
        ensures follows { IfSome self.old.owner (λ owner. (place : _) × Follows TakeBackCall owner.place (reply_of_get result) place
            × IfReady result (λ handle. place ≡ AtOwner handle) × KeepsAtOnce TakeBackCall owner.place place
            × OnPending result (IfSome self.new.owner (λ owner. owner.place ≡ place))) }
        ensures taken { IfReady result (λ _. IsNone self.new.owner) }
        ensures again { OnPending result (IsSome self.new.owner) }
        ensures armed { OnPending result (IsArmed cx.new) }
        ensures kept { Keeps cx.old cx.new }
    {
        let Some(mut owner) = self.owner.take() else {
            unreachable!()
        };
        match owner.poll(PollCall::IntoInner, cx, &mut ToNobody, &mut [], &[]) {
            Poll::Pending => {
                self.owner = Some(owner);
                Poll::Pending
            }
            Poll::Ready(_) => match owner.into_handle() {
                Some(handle) => Poll::Ready(handle),
                None => unreachable!(),
            },
        }
    }
}
