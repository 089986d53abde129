//! The decision core of a job that runs an iterator. It asks for an item and sends it, until the iterator ends or nobody wants more.
//! Then it closes its end of the pipe, and leaves the iterator in the slot.
use std::marker::Model;

/// What the job of an iterator does next.
#[derive(Clone, Copy, Debug, PartialEq, Eq)]
pub enum ItemAction {
    /// Ask the iterator for its next item.
    Next,
    /// Send the item that the iterator gave into the pipe.
    Send,
    /// Close the job's end of the pipe.
    Close,
    /// Put the iterator into the slot.
    Finish,
    /// Call the waker that was taken out of its seat.
    Deliver,
    /// Nothing more: the job is over.
    Done,
}

/// How an action was answered. `woke` says that the owner's waker was taken out of its seat, and has to be called.
#[derive(Clone, Copy, Debug, PartialEq, Eq)]
pub enum ItemAnswer {
    /// The iterator gave an item.
    Gave,
    /// The iterator has no further item.
    Ended,
    /// The item is inside.
    Sent { woke: bool },
    /// The pipe is full, and the job is seated: its run ends waiting, with the item still in hand.
    Parked,
    /// The owner's end is closed, and the item is lost.
    Shut,
    /// The job's end is closed.
    Closed { woke: bool },
    /// The result was put.
    Finished { woke: bool },
    /// The waker was called.
    Delivered,
}

/// What the job of an iterator does: a step is its next action, and the answer decides what follows.
///
/// It holds no item. Whoever runs it keeps the one that the iterator gave until it is sent or lost.
#[derive(Clone, Copy, Debug)]
pub struct ItemCore {
    next: ItemAction,
    is_waking: bool,
}

impl Model for ItemCore {
    ghost use Rattle.blocking_core.specs.Machines.{Machine};
    ghost use Rattle.blocking_core.specs.declared.job.item.ItemAction.{ItemAction};

    ghost Value = { Machine ItemAction };

    ghost view = { λ core. record { next = core.next; is_waking = core.is_waking } };

    ghost inverse = { λ seen. record { next = seen.next; is_waking = seen.is_waking } };
}

impl ItemCore {
    ghost use Rattle.std.specs.Prelude.{◌≡◌};
    ghost use Rattle.blocking_core.specs.Items.{new_item, item_next, item_after};

    /// The core of a job that hasn't begun.
    pub fn new() -> Self
        ensures { result ≡ new_item }
    {
        ItemCore {
            next: ItemAction::Next,
            is_waking: false,
        }
    }

    /// The next action.
    pub fn next(&self) -> ItemAction
        ensures { result ≡ item_next self.now }
    {
        if self.is_waking {
            return ItemAction::Deliver;
        }
        self.next
    }

    /// Takes the answer to the next action. An answer of another kind changes nothing, and a full pipe leaves the same item to be
    /// sent.
    pub fn answer(&mut self, answer: ItemAnswer)
        ensures { self.new ≡ item_after self.old answer }
    {
        if self.is_waking {
            self.is_waking = !matches!(answer, ItemAnswer::Delivered);
            return;
        }
        let (next, is_waking) = match (self.next, answer) {
            (ItemAction::Next, ItemAnswer::Gave) => (ItemAction::Send, false),
            (ItemAction::Next, ItemAnswer::Ended) => (ItemAction::Close, false),
            (ItemAction::Send, ItemAnswer::Sent { woke }) => (ItemAction::Next, woke),
            (ItemAction::Send, ItemAnswer::Parked) => (ItemAction::Send, false),
            (ItemAction::Send, ItemAnswer::Shut) => (ItemAction::Close, false),
            (ItemAction::Close, ItemAnswer::Closed { woke }) => (ItemAction::Finish, woke),
            (ItemAction::Finish, ItemAnswer::Finished { woke }) => (ItemAction::Done, woke),
            (same, _) => (same, false),
        };
        *self = ItemCore { next, is_waking };
    }
}
