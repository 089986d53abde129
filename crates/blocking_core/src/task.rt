//! Calls, and the slot through which a call's answer reaches its owner.
ghost use Rattle.std.specs.Prelude.{◌≡◌};

use std::marker::Model;
use std::mem;

/// A call that a job makes once.
///
/// For a `struct Double(u32)` that is `Drop`:
///
/// ```rust
/// impl Call for Double {
///     type Out = u64;
///     ghost may_give = { λ _. Unit {0} };
///     fn call(self) -> u64 {
///         u64::from(self.0) * 2
///     }
/// }
/// ```
pub trait Call {
    /// What the call gives.
    type Out;

    /// What a call of this type may give: a relation of the type, and not of the one value.
    ghost may_give: { Self.Out → Type 0 };

    /// Makes the call.
    fn call(self) -> Self::Out
        ensures { may_give result };
}

/// A call on a handle, that a job makes once.
///
/// For a `struct SyncAll` that is `Drop`:
///
/// ```rust
/// impl CallOn<File> for SyncAll {
///     type Out = io::Result<()>;
///     ghost may_give = { λ _. Unit {0} };
///     fn call_on(self, file: &mut File) -> io::Result<()> {
///         file.sync_all()
///     }
/// }
/// ```
pub trait CallOn<T> {
    /// What the call gives.
    type Out;

    /// What a call of this type may give: a relation of the type, and not of the one value.
    ghost may_give: { Self.Out → Type 0 };

    /// Makes the call.
    fn call_on(self, io: &mut T) -> Self::Out
        ensures { may_give result };
}

#[derive(Debug, Drop)]
enum Content<T: Drop> {
    Empty,
    Full(T),
    GivenUp,
    // The flag says whether the job is over.
    Abandoned(bool),
}

/// The place where a job leaves its value for its owner, with a seat for the owner's waker.
///
/// The value is put once and polled once. The owner may abandon the slot, and the job may give it up.
///
/// A waker that a call answers has left its seat, and nothing but its caller can call it. Its type lets it be dropped instead: that
/// no wake is lost so is owed by `W`, whose drop has to wake too.
#[derive(Debug, Drop)]
pub struct Slot<T: Drop, W: Drop> {
    content: Content<T>,
    seat: Option<W>,
}

impl<T: Drop, W: Drop> Model for Slot<T, W> {
    ghost use Rattle.blocking_core.specs.Slots.{Slot as Seen, slot_code, content_of};

    ghost Value = { Seen T W };

    ghost coded = { slot_code T.code W.code };

    ghost view = { λ s. record { content = content_of s.content; seat = s.seat } };
}

/// The proof that a poll seated its waker, in a slot or at a pipe, as `Of` says: [`OfSlot`] or [`OfPipe`](crate::pipe::OfPipe). Only the call that
/// waits makes one.
#[derive(Drop)]
pub struct Seat<Of: Drop>(pub(crate) Of);

/// A seat of a slot. Slots alone make it.
#[derive(Drop)]
pub struct OfSlot(());

/// The proof that no value will come into a slot. Slots alone make it.
#[derive(Drop)]
pub struct Over(());

/// What a poll of a slot finds.
#[derive(Drop)]
pub enum Slotted<T: Drop> {
    /// The value, which leaves the slot.
    Value(T),
    /// No value will come.
    Gone(Over),
    /// Nothing yet: the waker is seated.
    Waits(Seat<OfSlot>),
}

/// The answer of a poll, and the waker that it leaves over. That is the one that was handed in, where the poll is
/// ready, or the one that it replaced in the seat. It is handed back so that no lock is held while it is dropped.
#[derive(Drop)]
pub struct Polled<T: Drop, W: Drop> {
    pub answer: Slotted<T>,
    pub spare: Option<W>,
}

/// What a look into a slot finds.
#[derive(Drop)]
pub enum Looked<T: Drop, W: Drop> {
    /// The value, which leaves the slot.
    Value(T),
    /// No value: what stood in the seat, which is empty now.
    Seat(Option<W>),
}

/// What a put leaves: the value, where the slot takes none, and the waker of an owner who waits.
#[derive(Drop)]
pub struct Put<T: Drop, W: Drop> {
    pub back: Option<T>,
    pub wake: Option<W>,
}

impl<T: Drop, W: Drop> Slot<T, W> {
    ghost use Rattle.blocking_core.specs.Slots.{empty_slot, after_put, put_in, after_give_up, waker_of_give_up, after_abandon, value_in};
    ghost use Rattle.blocking_core.specs.SlotAnswers.{Looks, Polls};

    /// An empty slot, in whose seat nobody waits.
    pub fn new() -> Self
        ensures { result ≡ empty_slot }
    {
        Slot {
            content: Content::Empty,
            seat: None,
        }
    }

    /// The job leaves its value, and answers the waker of an owner who waits. An abandoned slot hands the value back and
    /// notes that the job is over. A slot that is full, given up or over changes nothing and hands the value back.
    pub fn put(&mut self, value: T) -> Put<T, W>
        ensures slot { self.new ≡ after_put self.old value }
        ensures answer { result ≡ put_in self.old value }
    {
        match self.content {
            Content::Empty => {
                self.content = Content::Full(value);
                Put {
                    back: None,
                    wake: self.seat.take(),
                }
            }
            Content::Abandoned(false) => {
                self.content = Content::Abandoned(true);
                Put {
                    back: Some(value),
                    wake: self.seat.take(),
                }
            }
            Content::Full(_) | Content::GivenUp | Content::Abandoned(true) => Put {
                back: Some(value),
                wake: None,
            },
        }
    }

    /// The owner looks for the value before it makes a waker: it gets the value, or else the waker of its own earlier poll,
    /// which leaves the seat. A poll that still has to wait seats one again.
    pub fn look(&mut self) -> Looked<T, W>
        ensures { Looks self.old result self.new }
    {
        match mem::replace(&mut self.content, Content::Empty) {
            Content::Full(value) => Looked::Value(value),
            other => {
                self.content = other;
                Looked::Seat(self.seat.take())
            }
        }
    }

    /// The owner asks for the value, and seats its waker where it has to wait.
    pub fn poll(&mut self, waker: W) -> Polled<T, W>
        ensures { Polls self.old waker result self.new }
    {
        let answer = match mem::replace(&mut self.content, Content::Empty) {
            Content::Full(value) => Slotted::Value(value),
            Content::GivenUp => {
                self.content = Content::GivenUp;
                Slotted::Gone(Over(()))
            }
            Content::Abandoned(true) => {
                self.content = Content::Abandoned(true);
                Slotted::Gone(Over(()))
            }
            waiting => {
                self.content = waiting;
                return Polled {
                    answer: Slotted::Waits(Seat(OfSlot(()))),
                    spare: self.seat.replace(waker),
                };
            }
        };
        Polled {
            answer,
            spare: Some(waker),
        }
    }

    /// The job was dropped: no value will come any more. Answers the waker of an owner who waits, which leaves its seat. An
    /// abandoned slot notes that its job is over. A slot that is full, given up or over changes nothing and answers None.
    pub fn give_up(&mut self) -> Option<W>
        ensures slot { self.new ≡ after_give_up self.old }
        ensures waker { result ≡ waker_of_give_up self.old }
    {
        let content = match self.content {
            Content::Empty => Content::GivenUp,
            Content::Abandoned(false) => Content::Abandoned(true),
            Content::Full(_) | Content::GivenUp | Content::Abandoned(true) => return None,
        };
        self.content = content;
        self.seat.take()
    }

    /// The owner is gone, and a value that is there comes back. The job of a slot that was full or given up is over. The
    /// seat stays as it is, and so does a slot that was abandoned before.
    pub fn abandon(&mut self) -> Option<T>
        ensures slot { self.new ≡ after_abandon self.old }
        ensures value { result ≡ value_in self.old }
    {
        match mem::replace(&mut self.content, Content::Abandoned(true)) {
            Content::Full(value) => Some(value),
            Content::GivenUp => None,
            Content::Empty => {
                self.content = Content::Abandoned(false);
                None
            }
            Content::Abandoned(is_over) => {
                self.content = Content::Abandoned(is_over);
                None
            }
        }
    }
}
