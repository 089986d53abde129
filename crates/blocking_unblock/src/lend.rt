//! How a handle is lent: which session a call begins, and where what comes of it is kept.
ghost use Rattle.std.specs.Prelude.{◌≡◌, ◌<◌, false, Some, IfErr, IfOk, OnErr, IfNone, OnSome};
ghost use Rattle.futures.specs.Task.{IsArmed, Keeps};
ghost use Rattle.blocking_core.specs.declared.unblock.OwnerEnd.TheVariants.{Open};
ghost use Rattle.blocking_core.specs.declared.unblock.SessionKind.TheVariants.{Reading, Writing, Streaming, Seeking, Operating};
ghost use Rattle.blocking_core.specs.declared.unblock.State.{State};
ghost use Rattle.blocking_core.specs.declared.unblock.State.TheVariants.{Idle, Lent};
ghost use Rattle.blocking_unblock.specs.Owners.{kind_of, crossed, is_back};
ghost use Rattle.blocking_unblock.specs.Polls.{Kept, Onward};

use crate::new_session::{ItemParts, ReadParts, WriteParts, item_parts, read_parts, write_parts};
use crate::session::{Session, Side};
use crate::spare::Spare;
use blocking_core::io::Position;
use blocking_core::pool::{Carries, Job, Refusal, Refused};
use blocking_core::task::{CallOn, OfSlot, Seat};
use blocking_executor::{Added, Executor, Runtime};
use blocking_unblock_jobs::{
    ItemJob, OpJob, ReadJob, ResultPlace, ResultSeat, SeekJob, WriteJob, new_share,
};
use futures::task::Context;
use std::io::{Read, Seek, Write};
use std::mem;
use std::sync::Wait;

/// How much the pipe of a session holds.
#[derive(Clone, Copy)]
pub(crate) struct Capacity {
    pub bytes: usize,
    pub items: usize,
    ghost some_bytes: { 0 < bytes },
    ghost some_items: { 0 < items },
}

impl Capacity {
    pub(crate) fn new(bytes: usize, items: usize) -> Capacity
        requires bytes { 0 < bytes }
        requires items { 0 < items }
        ensures bytes_is { result.bytes ≡ bytes }
        ensures items_is { result.items ≡ items }
    {
        Capacity { bytes, items }
    }
}

/// What a call brings: the session that it begins, and where it keeps what comes of that.
pub(crate) trait Lends<T: Drop, I: Drop, J: Job, H: Runtime> {
    /// Where the handle is once a session of the call's began: with its owner, where it begins none.
    ghost begins: { Self → State → Type 0 };

    /// What it has got by now.
    ghost keeps: { Self → Kept → Type 0 };

    /// Hands the handle to the job of a new session, whose memory is taken before it enters: what is spare, where the session has a use for it.
    fn lend(
        &mut self,
        executor: &Executor<J, H>,
        capacity: Capacity,
        spare: Spare,
        handle: T,
    ) -> Result<Session<T, I, H>, Refused<T>>
        requires { (state : State) × begins self.old state }
        ensures back { IfErr result (λ refused. refused.back ≡ handle) }
        ensures same { OnErr result (self.new ≡ self.old) }
        ensures begun { IfOk result (λ session. (state : State) → begins self.old state
            → (Lent (kind_of session.side) session.owner_end ≡ state) × Onward state (begins self.new state) (keeps self.new Kept.Way)) }
        ensures fresh { IfOk result (λ session. crossed session.side ≡ 0) }
        ensures client { IfOk result (λ session. session.job.client ≡ executor.now.client) }
        ensures to_come { IfOk result (λ session. is_back session.side ≡ false) };

    /// Keeps an item that came.
    fn keep(&mut self, item: I)
        ensures { keeps self.new Kept.Item };

    /// Takes the result of an operation out of its place, or is seated there, and answers the seat. A session without a result has nothing to wait
    /// for, and answers None.
    fn poll_result(&mut self, cx: &mut Context<'_>) -> Option<Seat<OfSlot>>
        requires { keeps self.old Kept.Way }
        ensures gave { IfNone result (keeps self.new Kept.Gave) }
        ensures same { OnSome result (self.new ≡ self.old) }
        ensures armed { OnSome result (IsArmed cx.new) }
        ensures kept { Keeps cx.old cx.new };
}

// Adds a job for the executor's client. It comes back where it is refused.
fn enter<K: Drop, J: Job + Carries<K>, H: Runtime>(
    executor: &Executor<J, H>,
    job: K,
) -> Result<Added, Refused<K>>
    ensures refused { IfErr result (λ refused. refused.back ≡ job) }
    ensures client { IfOk result (λ added. added.client ≡ executor.now.client) }
{
    match executor.add(J::wrap(job)) {
        Ok(added) => Ok(added),
        Err(refused) => Err(refused.unwrap()),
    }
}

// A handle that is handed back for want of memory.
fn no_memory<T: Drop>(back: T) -> Refused<T>
    ensures { result.back ≡ back }
{
    Refused {
        back,
        why: Refusal::Memory,
    }
}

/// A session that reads.
#[derive(Drop)]
pub(crate) struct ToRead;

impl<T: Read + Drop, I: Drop, J: Job + Carries<ReadJob<T, H>>, H: Runtime> Lends<T, I, J, H>
    for ToRead {
    ghost begins = { λ _ state. state ≡ Lent Reading Open };

    ghost keeps = { λ _ _. Unit {0} };

    fn lend(
        &mut self,
        executor: &Executor<J, H>,
        capacity: Capacity,
        spare: Spare,
        handle: T,
    ) -> Result<Session<T, I, H>, Refused<T>> {
        let rt = executor.runtime();
        let Ok(parts) = read_parts(rt, capacity.bytes, spare) else {
            return Err(no_memory(handle));
        };
        let ReadParts {
            side,
            end,
            share,
            piece,
        } = parts;
        match enter(executor, ReadJob::new(rt, handle, piece, end, share)) {
            Ok(job) => Ok(Session::new(job, side)),
            Err(Refused { back, why }) => match back.into_reader() {
                Some(back) => Err(Refused { back, why }),
                None => unreachable!(),
            },
        }
    }

    fn keep(&mut self, _item: I) {}

    fn poll_result(&mut self, _cx: &mut Context<'_>) -> Option<Seat<OfSlot>> {
        None
    }
}

/// A session that writes.
#[derive(Drop)]
pub(crate) struct ToWrite;

impl<T: Write + Drop, I: Drop, J: Job + Carries<WriteJob<T, H>>, H: Runtime> Lends<T, I, J, H>
    for ToWrite {
    ghost begins = { λ _ state. state ≡ Lent Writing Open };

    ghost keeps = { λ _ _. Unit {0} };

    fn lend(
        &mut self,
        executor: &Executor<J, H>,
        capacity: Capacity,
        spare: Spare,
        handle: T,
    ) -> Result<Session<T, I, H>, Refused<T>> {
        let rt = executor.runtime();
        let Ok(parts) = write_parts(rt, capacity.bytes, spare) else {
            return Err(no_memory(handle));
        };
        let WriteParts { side, end, share } = parts;
        match enter(executor, WriteJob::new(rt, handle, end, share)) {
            Ok(job) => Ok(Session::new(job, side)),
            Err(Refused { back, why }) => match back.into_writer() {
                Some(back) => Err(Refused { back, why }),
                None => unreachable!(),
            },
        }
    }

    fn keep(&mut self, _item: I) {}

    fn poll_result(&mut self, _cx: &mut Context<'_>) -> Option<Seat<OfSlot>> {
        None
    }
}

/// A session of items, and the one that came.
#[derive(Drop)]
pub(crate) struct ToItem<I: Drop> {
    pub item: Option<I>,
}

impl<T: Iterator<Item = I> + Drop, I: Drop, J: Job + Carries<ItemJob<T, I, H>>, H: Runtime> Lends<
    T,
    I,
    J,
    H,
> for ToItem<I> {
    ghost use Rattle.blocking_unblock.specs.Lenders.{stream_keeps};

    ghost begins = { λ _ state. (state ≡ Lent Streaming Open) × ((at : T) → T.can_next at) };

    ghost keeps = { λ brought kept. stream_keeps brought.item kept };

    fn lend(
        &mut self,
        executor: &Executor<J, H>,
        capacity: Capacity,
        spare: Spare,
        handle: T,
    ) -> Result<Session<T, I, H>, Refused<T>> {
        // (given back before more is asked for)
        drop(spare);
        let rt = executor.runtime();
        let Ok(parts) = item_parts(rt, capacity.items) else {
            return Err(no_memory(handle));
        };
        let ItemParts { side, end, share } = parts;
        match enter(executor, ItemJob::new(rt, handle, end, share)) {
            Ok(job) => Ok(Session::new(job, side)),
            Err(Refused { back, why }) => match back.into_iterator() {
                Some(back) => Err(Refused { back, why }),
                None => unreachable!(),
            },
        }
    }

    fn keep(&mut self, item: I) {
        self.item = Some(item);
    }

    fn poll_result(&mut self, _cx: &mut Context<'_>) -> Option<Seat<OfSlot>> {
        None
    }
}

/// A session that seeks this position.
#[derive(Drop)]
pub(crate) struct ToSeek {
    pub to: Position,
}

impl<T: Seek + Drop, I: Drop, J: Job + Carries<SeekJob<T, H>>, H: Runtime> Lends<T, I, J, H>
    for ToSeek {
    ghost begins = { λ brought state. state ≡ Lent (Seeking brought.to) Open };

    ghost keeps = { λ _ _. Unit {0} };

    fn lend(
        &mut self,
        executor: &Executor<J, H>,
        _capacity: Capacity,
        spare: Spare,
        handle: T,
    ) -> Result<Session<T, I, H>, Refused<T>> {
        // (given back before more is asked for)
        drop(spare);
        let rt = executor.runtime();
        let Ok(both) = new_share(rt) else {
            return Err(no_memory(handle));
        };
        let (way_back, share) = both;
        match enter(executor, SeekJob::new(rt, handle, self.to, share)) {
            Ok(job) => Ok(Session::new(job, Side::Seeking(self.to, way_back))),
            Err(Refused { back, why }) => match back.into_handle() {
                Some(back) => Err(Refused { back, why }),
                None => unreachable!(),
            },
        }
    }

    fn keep(&mut self, _item: I) {}

    fn poll_result(&mut self, _cx: &mut Context<'_>) -> Option<Seat<OfSlot>> {
        None
    }
}

/// How far an operation is.
#[derive(Drop)]
pub(crate) enum OperationStage<F: Drop, S: Drop, R: Drop> {
    /// Its session is still to begin.
    Given(F),
    /// It is with its job, and its result is waited for here.
    Begun(S),
    /// It gave this.
    Gave(R),
    /// Nothing is left of it.
    Taken,
}

/// An operation on the handle, or what is left of it.
#[derive(Drop)]
pub(crate) struct ToOp<F: CallOn<T, Out: Drop> + Drop, T: Drop, H: Wait + Copy> {
    pub stage: OperationStage<F, ResultSeat<F, T, H>, F::Out>,
}

impl<F: CallOn<T, Out: Drop> + Drop, T: Drop, H: Wait + Copy> ToOp<F, T, H> {
    ghost use Rattle.blocking_unblock.specs.Lenders.{has_begun, is_over};

    /// Whether nothing is waited for any more.
    pub(crate) fn is_over(&self) -> bool
        ensures { result ≡ is_over self.now.stage }
    {
        matches!(self.stage, OperationStage::Gave(_) | OperationStage::Taken)
    }

    /// Whether its session began, and its result is waited for.
    pub(crate) fn has_begun(&self) -> bool
        ensures { result ≡ has_begun self.now.stage }
    {
        matches!(self.stage, OperationStage::Begun(_))
    }
}

impl<
    F: CallOn<T, Out: Drop> + Drop,
    T: Drop,
    I: Drop,
    J: Job + Carries<OpJob<F, T, H>>,
    H: Runtime,
> Lends<T, I, J, H> for ToOp<F, T, H> {
    ghost use Rattle.blocking_unblock.specs.Lenders.{IsGiven, operation_keeps};

    ghost begins = { λ brought state. (state ≡ Lent Operating Open) × IsGiven brought.stage };

    ghost keeps = { λ brought kept. operation_keeps F.may_give brought.stage kept };

    fn lend(
        &mut self,
        executor: &Executor<J, H>,
        _capacity: Capacity,
        spare: Spare,
        handle: T,
    ) -> Result<Session<T, I, H>, Refused<T>> {
        // (given back before more is asked for)
        drop(spare);
        let rt = executor.runtime();
        let Ok(both) = new_share(rt) else {
            return Err(no_memory(handle));
        };
        let Ok(result) = ResultPlace::new(rt) else {
            return Err(no_memory(handle));
        };
        let (way_back, share) = both;
        let ResultPlace { seat, place } = result;
        let OperationStage::Given(operation) = mem::replace(
            &mut self.stage,
            OperationStage::Begun(seat),
        ) else {
            unreachable!()
        };
        match enter(executor, OpJob::new(rt, operation, handle, place, share)) {
            Ok(job) => Ok(Session::new(job, Side::Operating(way_back))),
            Err(Refused { back, why }) => {
                let (operation, handle) = back.into_parts();
                let Some(operation) = operation else {
                    unreachable!()
                };
                let Some(back) = handle else { unreachable!() };
                self.stage = OperationStage::Given(operation);
                Err(Refused { back, why })
            }
        }
    }

    fn keep(&mut self, _item: I) {}

    fn poll_result(&mut self, cx: &mut Context<'_>) -> Option<Seat<OfSlot>> {
        let OperationStage::Begun(seat) = &self.stage else {
            unreachable!()
        };
        match seat.poll(cx) {
            Ok(gave) => {
                self.stage = OperationStage::Gave(gave);
                None
            }
            Err(seat) => Some(seat),
        }
    }
}

/// No session: the call needs none of its own, and the handle stays with its owner.
#[derive(Drop)]
pub(crate) struct ToNobody;

impl<T: Drop, I: Drop, J: Job, H: Runtime> Lends<T, I, J, H> for ToNobody {
    ghost begins = { λ _ state. state ≡ Idle };

    ghost keeps = { λ _ _. Unit {0} };

    // (no poll asks for it)
    fn lend(
        &mut self,
        _executor: &Executor<J, H>,
        _capacity: Capacity,
        _spare: Spare,
        handle: T,
    ) -> Result<Session<T, I, H>, Refused<T>> {
        Err(no_memory(handle))
    }

    fn keep(&mut self, _item: I) {}

    fn poll_result(&mut self, _cx: &mut Context<'_>) -> Option<Seat<OfSlot>> {
        None
    }
}
