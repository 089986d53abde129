//! What the owner of a lent handle and its job share in addition to the pipe. It is the slot in which the handle comes back, under
//! its lock, and the mark of a session whose owner is gone.
ghost use Rattle.std.specs.Prelude.{◌≡◌, true, false, OnErr, IfOk};
ghost use Rattle.futures.specs.Task.{IsArmed, Keeps};

use blocking_core::io::JobFault;
use blocking_core::pipe::LendingStore;
use blocking_core::task::{OfSlot, Put, Seat};
use blocking_sync::{AnyOf, Left, LockedSlot, OwnerWaker};
use futures::task::{Context, Source};
use std::alloc::{AllocError, AllocGlobal};
use std::io;
use std::marker::PhantomData;
use std::sync::atomic::{AtomicBool, Ordering};
use std::sync::{Arc, Wait};

/// What holds the bytes of a session that reads or writes: whole pieces go in and come out as they are.
pub type SessionStore = LendingStore;

/// What a job tells that uses its handle until nobody wants more: its fault, if there was one.
pub type MayFail = Option<JobFault<io::Error>>;

/// What a seeking job tells: where its handle is now, counted in bytes from the start, or why the seek failed.
pub type Sought = io::Result<u64>;

/// A handle that its job gives back, and what the job tells.
#[derive(Drop)]
pub struct Returned<T: Drop, X: Drop> {
    /// The handle, which is its owner's again.
    pub handle: T,
    /// What its job tells: a fault or none, or where a seek came to.
    pub told: X,
}

/// The proof that a handle or a result of this type was left in its slot, or dropped since its owner wants it no more. Only the two calls that
/// leave it there make it: [`SessionShare::give_back`] and [`put_result`].
#[derive(Drop)]
pub(crate) struct Given<T> {
    of: PhantomData<T>,
}

// Leaves a value in its slot, and answers the waker of an owner who waits.
fn leave<A: Left<Value: Drop>, R: Wait>(
    rt: &R,
    slot: &LockedSlot<A>,
    value: A::Value,
) -> Option<OwnerWaker>
    requires { A.may_be value }
{
    let Put { back, wake } = slot.put(rt, value);
    // (one that nobody wants is dropped under no lock)
    drop(back);
    wake
}

/// Leaves the result of an operation in its place, and answers the waker of an owner who waits.
pub(crate) fn put_result<A: Left<Value: Drop>, R: Wait>(
    rt: &R,
    place: &LockedSlot<A>,
    gave: A::Value,
) -> (Option<OwnerWaker>, Given<A::Value>)
    requires { A.may_be gave }
{
    (leave(rt, place, gave), Given { of: PhantomData })
}

/// What the owner and the job share.
#[derive(Drop)]
pub struct SessionShare<T: Drop, X: Drop> {
    slot: LockedSlot<AnyOf<Returned<T, X>>>,
    // Whether the owner is gone.
    mark: AtomicBool,
}

impl<T: Drop, X: Drop> SessionShare<T, X> {
    /// Whether the mark is set. It takes no lock.
    pub(crate) fn is_marked(&self) -> bool {
        self.mark.load(Ordering::SeqCst)
    }

    /// Gives the handle back, and answers the waker of an owner who waits.
    pub(crate) fn give_back<R: Wait>(
        &self,
        rt: &R,
        handle: T,
        told: X,
    ) -> (Option<OwnerWaker>, Given<T>) {
        let wake = leave(rt, &self.slot, Returned { handle, told });
        (wake, Given { of: PhantomData })
    }

    /// Gives the slot up: no handle will come. Answers the waker of an owner who waits.
    pub(crate) fn give_up<R: Wait>(&self, rt: &R) -> Option<OwnerWaker> {
        self.slot.give_up(rt)
    }
}

/// Where the owner waits for the handle, and says that it is gone.
#[derive(Drop)]
pub struct WayBack<T: Drop, X: Drop, H: Wait + Copy> {
    share: Arc<SessionShare<T, X>>,
    source: Source,
    // Whether the handle was taken out of its slot.
    is_back: bool,
    rt: H,
}

/// A new share: where the owner waits for the handle, and what the job gives it back by. No handle came back, and no mark is set. It errs
/// where its memory is refused.
pub fn new_share<T: Drop, X: Drop, H: Wait + AllocGlobal + Copy>(
    rt: H,
) -> Result<(WayBack<T, X, H>, Arc<SessionShare<T, X>>), AllocError>
    ensures to_come { IfOk result (λ both. both.0.is_back ≡ false) }
{
    let share = Arc::new(
        rt.alloc(),
        SessionShare {
            slot: LockedSlot::new(),
            mark: AtomicBool::new(false),
        },
    )?;
    let theirs = Arc::try_clone(&share)?;
    let way_back = WayBack {
        share,
        source: Source::new(),
        is_back: false,
        rt,
    };
    Ok((way_back, theirs))
}

impl<T: Drop, X: Drop, H: Wait + Copy> WayBack<T, X, H> {
    /// Sets the session's mark, which nothing clears. It takes no lock. An owner calls it as it leaves.
    pub fn mark(&self) {
        self.share.mark.store(true, Ordering::SeqCst);
    }

    /// Takes the handle out of the slot, or waits there for it. Once it was taken nothing more comes, and a poll waits for good. It isn't
    /// polled where the job was dropped before it gave the handle back, which a pool does only once the owner is gone. It would ask again
    /// and again.
    pub fn poll(&mut self, cx: &mut Context<'_>) -> Result<Returned<T, X>, Seat<OfSlot>>
        ensures back { IfOk result (λ _. self.new.is_back ≡ true) }
        ensures same { OnErr result (self.new ≡ self.old) }
        ensures armed { OnErr result (IsArmed cx.new) }
        ensures kept { Keeps cx.old cx.new }
    {
        let returned = self.share.slot.await_in(self.rt, &self.source, cx)?;
        self.is_back = true;
        Ok(returned)
    }
}
