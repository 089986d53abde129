//! A slot under its lock, and how its owner waits there.
ghost use Rattle.std.specs.Prelude.{◌≡◌, IfOk, IfSome, OnErr};
ghost use Rattle.futures.specs.Task.{IsArmed, Keeps};

use crate::entry::enter;
use blocking_core::task::{Looked, OfSlot, Put, Seat, Slot, Slotted};
use futures::task::{Context, Poll, Source, Waker};
use std::marker::{Model, PhantomData};
use std::sync::{Mutex, Wait};

/// The owner's waker, or none where none could be registered. It may be let go where a section answered it, called or not. A waker of the
/// kit wakes its task when it is dropped (its `wake` is its drop), as slots and pipes ask of theirs. At worst an owner is woken once too
/// often.
pub type OwnerWaker = Option<Waker>;

/// What may stand in a slot: a type, and a rule of its values for contracts alone.
pub trait Left {
    /// What the job leaves.
    type Value;

    /// What holds of it.
    ghost may_be: { Self.Value → Type 0 };
}

/// The rule that allows every value of a type.
pub struct AnyOf<X> {
    value: PhantomData<X>,
}

impl<X> Left for AnyOf<X> {
    type Value = X;

    ghost may_be = { λ _. Unit {0} };
}

/// A slot whose value is as the rule says.
#[derive(Drop)]
struct RuledSlot<A: Left<Value: Drop>> {
    slot: Slot<A::Value, OwnerWaker>,
}

impl<A: Left<Value: Drop>> Model for RuledSlot<A> {
    ghost use Rattle.blocking_sync.specs.Slots.{IfFull, waker_code};
    ghost use Rattle.blocking_core.specs.Slots.{Slot as Seen, slot_code};
    ghost use Rattle.futures.specs.declared.task.waker.Waker.{Waker};
    ghost use Rattle.std.specs.Prelude.{Option};

    ghost Value = { Seen A.Value (Option Waker) };

    ghost coded = { slot_code A.Value.code waker_code };

    ghost view = { λ s. s.slot };

    ghost invariant = { λ s. IfFull s.slot.content A.may_be };
}

impl<A: Left<Value: Drop>> RuledSlot<A> {
    ghost use Rattle.blocking_sync.specs.Slots.{IfLookedAt, IfPolled, PollsBy};
    ghost use Rattle.blocking_core.specs.Slots.{empty_slot, after_put, put_in, after_give_up, waker_of_give_up, after_abandon, value_in};
    ghost use Rattle.blocking_core.specs.SlotAnswers.{Looks};

    fn new() -> RuledSlot<A>
        ensures { result ≡ empty_slot }
    {
        RuledSlot { slot: Slot::new() }
    }

    fn put(&mut self, value: A::Value) -> Put<A::Value, OwnerWaker>
        requires { A.may_be value }
        ensures slot { self.new ≡ after_put self.old value }
        ensures answer { result ≡ put_in self.old value }
    {
        self.slot.put(value)
    }

    fn give_up(&mut self) -> Option<OwnerWaker>
        ensures slot { self.new ≡ after_give_up self.old }
        ensures waker { result ≡ waker_of_give_up self.old }
    {
        self.slot.give_up()
    }

    fn look(&mut self) -> Looked<A::Value, OwnerWaker>
        ensures looks { Looks self.old result self.new }
        ensures allowed { IfLookedAt result A.may_be }
    {
        self.slot.look()
    }

    // The answer, and the waker that isn't seated.
    fn poll(&mut self, waker: OwnerWaker) -> (Slotted<A::Value>, Option<OwnerWaker>)
        ensures polls { PollsBy self.old waker result self.new }
        ensures allowed { IfPolled result.0 A.may_be }
    {
        let polled = self.slot.poll(waker);
        (polled.answer, polled.spare)
    }

    fn abandon(&mut self) -> KeptAnswer<A>
        ensures slot { self.new ≡ after_abandon self.old }
        ensures found { result ≡ value_in self.old }
    {
        KeptAnswer {
            value: self.slot.abandon(),
        }
    }
}

/// What an owner found in its slot when it left: a value that is as the rule says, or none.
#[derive(Drop)]
pub struct KeptAnswer<A: Left<Value: Drop>> {
    value: Option<A::Value>,
}

impl<A: Left<Value: Drop>> Model for KeptAnswer<A> {
    ghost use Rattle.std.specs.Prelude.{Option, IfSome};
    ghost use Rattle.std.specs.Coded.{coded_option};

    ghost Value = { Option A.Value };

    ghost coded = { coded_option A.Value.code };

    ghost view = { λ found. found.value };

    ghost invariant = { λ found. IfSome found.value A.may_be };
}

impl<A: Left<Value: Drop>> KeptAnswer<A> {
    ghost use Rattle.std.specs.Prelude.{◌↔◌, true, None, IfSome, IsSome};

    /// Whether there is a value.
    pub fn is_some(&self) -> bool
        ensures { (result ≡ true) ↔ IsSome self.now }
    {
        self.value.is_some()
    }

    /// Takes the value out.
    pub fn take(&mut self) -> Option<A::Value>
        ensures result_is { result ≡ self.old }
        ensures left { self.new ≡ None }
        ensures allowed { IfSome result A.may_be }
    {
        self.value.take()
    }
}

/// A slot under its lock. Each method takes the lock and makes one call of the slot.
#[derive(Drop)]
pub struct LockedSlot<A: Left<Value: Drop>> {
    slot: Mutex<RuledSlot<A>>,
}

impl<A: Left<Value: Drop>> LockedSlot<A> {
    ghost use Rattle.blocking_sync.specs.Slots.{IfLookedAt, IfPolled};

    /// An empty slot, in which nobody waits.
    pub fn new() -> LockedSlot<A> {
        LockedSlot {
            slot: Mutex::new(RuledSlot::new()),
        }
    }

    /// Leaves a value in the slot, or answers it, where the slot takes none; and the waker of an owner who waits.
    pub fn put<R: Wait>(&self, rt: &R, value: A::Value) -> Put<A::Value, OwnerWaker>
        requires { A.may_be value }
        ensures { IfSome result.back (λ back. back ≡ value) }
    {
        // meeting: Leave; or GiveUp, where it was abandoned; nothing where it is full or was given up
        enter(&self.slot, rt).put(value)
    }

    /// Gives the slot up: no value will come. Answers the waker of an owner who waits.
    pub fn give_up<R: Wait>(&self, rt: &R) -> Option<OwnerWaker> {
        // meeting: GiveUp
        enter(&self.slot, rt).give_up()
    }

    /// Takes the value, or else the waker that an earlier poll seated, out of the slot.
    pub fn look<R: Wait>(&self, rt: &R) -> Looked<A::Value, OwnerWaker>
        ensures { IfLookedAt result A.may_be }
    {
        // meeting: Look
        enter(&self.slot, rt).look()
    }

    /// Takes the value, or seats the waker of an owner who has to wait. Answers the waker that isn't seated, too.
    pub fn poll<R: Wait>(
        &self,
        rt: &R,
        waker: OwnerWaker,
    ) -> (Slotted<A::Value>, Option<OwnerWaker>)
        ensures { IfPolled result.0 A.may_be }
    {
        // meeting: Ask
        enter(&self.slot, rt).poll(waker)
    }

    /// The owner leaves the slot: no value is put there any more. What was there comes with it.
    pub fn abandon<R: Wait>(&self, rt: &R) -> KeptAnswer<A> {
        // meeting: Abandon
        enter(&self.slot, rt).abandon()
    }

    // Seats the waker, unless the value is there. No slot is given up while its owner is there; one that is would be asked again.
    fn wait<R: Wait>(&self, rt: &R, waker: OwnerWaker) -> Result<A::Value, Seat<OfSlot>>
        ensures { IfOk result A.may_be }
    {
        let mut waker = waker;
        for _ in rt.forever() {
            let (answer, spare) = self.poll(rt, waker);
            match answer {
                Slotted::Value(value) => return Ok(value),
                Slotted::Waits(seat) => return Err(seat),
                Slotted::Gone(_) => waker = spare.flatten(),
            }
        }
        unreachable!()
    }

    /// The owner takes the value, or waits for it. Once it was taken nothing more comes, and a poll waits for good.
    pub fn await_in<R: Wait + Copy>(
        &self,
        rt: R,
        source: &Source,
        cx: &mut Context<'_>,
    ) -> Result<A::Value, Seat<OfSlot>>
        ensures allowed { IfOk result A.may_be }
        ensures armed { OnErr result (IsArmed cx.new) }
        ensures kept { Keeps cx.old cx.new }
    {
        // (a value that is there needs no waker; else that of an earlier poll is used again, since one that is dropped wakes)
        let mut waker = match self.look(&rt) {
            Looked::Value(value) => return Ok(value),
            Looked::Seat(seat) => seat.flatten(),
        };
        // meeting: Register
        let _pending: Poll<()> = cx.register(source, &mut waker);
        self.wait(&rt, waker)
    }
}
