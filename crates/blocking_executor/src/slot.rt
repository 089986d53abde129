//! What the owner of a call and its job share: the slot of the call under its lock, and the mark of a call that is given up.
//! What stands in the slot is a value that the call may give.
use blocking_core::task::{Call, Looked, Put, Slotted};
use blocking_sync::{KeptAnswer, Left, LockedSlot, OwnerWaker};
use std::marker::PhantomData;
use std::sync::Wait;
use std::sync::atomic::{AtomicBool, Ordering};

/// The rule of a call's slot: what stands there is one of the answers that the call may give.
pub struct AnswerOf<F> {
    of: PhantomData<F>,
}

impl<F: Call> Left for AnswerOf<F> {
    type Value = F::Out;

    ghost may_be = { λ answer. F.may_give answer };
}

/// What the owner and the job share. Each method that takes the slot's lock makes one call of the slot under it.
#[derive(Drop)]
pub(crate) struct CallShare<F: Call<Out: Drop>> {
    slot: LockedSlot<AnswerOf<F>>,
    // Whether the owner gave the call up.
    mark: AtomicBool,
}

impl<F: Call<Out: Drop>> CallShare<F> {
    ghost use Rattle.blocking_sync.specs.Slots.{IfLookedAt, IfPolled};

    pub(crate) fn new() -> CallShare<F> {
        CallShare {
            slot: LockedSlot::new(),
            mark: AtomicBool::new(false),
        }
    }

    /// Sets the mark, which stays set. It takes no lock.
    pub(crate) fn mark(&self) {
        self.mark.store(true, Ordering::SeqCst);
    }

    /// Whether the mark is set. It takes no lock.
    pub(crate) fn is_marked(&self) -> bool {
        self.mark.load(Ordering::SeqCst)
    }

    pub(crate) fn put<R: Wait>(&self, rt: &R, value: F::Out) -> Put<F::Out, OwnerWaker>
        requires { F.may_give value }
    {
        self.slot.put(rt, value)
    }

    pub(crate) fn give_up<R: Wait>(&self, rt: &R) -> Option<OwnerWaker> {
        self.slot.give_up(rt)
    }

    pub(crate) fn look<R: Wait>(&self, rt: &R) -> Looked<F::Out, OwnerWaker>
        ensures { IfLookedAt result F.may_give }
    {
        self.slot.look(rt)
    }

    pub(crate) fn poll<R: Wait>(
        &self,
        rt: &R,
        waker: OwnerWaker,
    ) -> (Slotted<F::Out>, Option<OwnerWaker>)
        ensures { IfPolled result.0 F.may_give }
    {
        self.slot.poll(rt, waker)
    }

    pub(crate) fn abandon<R: Wait>(&self, rt: &R) -> KeptAnswer<AnswerOf<F>> {
        self.slot.abandon(rt)
    }
}
