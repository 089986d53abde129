//! The job that runs an iterator ahead of an owner.
ghost use Rattle.std.specs.Prelude.{◌≡◌, false, None, Some};
ghost use Rattle.blocking_core.specs.declared.job.item.ItemAction.TheVariants.{Next, Send, Close, Finish, Deliver};
ghost use Rattle.blocking_core.specs.Items.{new_item, item_next};

use crate::share::{Given, MayFail, SessionShare};
use blocking_core::job::{ItemAction, ItemAnswer, ItemCore};
use blocking_core::pool::{Carries, Job, JobNo, JobStep};
use blocking_ends::{AnyPlace, ItemSendEnd, ItemSending, WhyUnsent};
use blocking_sync::OwnerWaker;
use std::marker::Model;
use std::sync::{Arc, Wait};

/// The job that runs an iterator ahead of an owner. It asks the iterator for an item and sends it through the pipe, until the iterator
/// ends or nobody wants more. Then it gives the iterator back. One item at most is out of the iterator and not in the pipe.
///
/// One that is dropped before it is done drops the iterator and gives its slot up, with no lock held. That wakes an owner who waits there for
/// the iterator, and none who waits at the pipe. A pool drops a job only once its owner is gone.
///
/// It is the job type of an executor of one kind of iterator:
///
/// ```rust
/// let executor: Executor<ItemJob<Range<u32>, u32, H>, H> = Executor::new(rt, Some("1"))?;
/// let mut numbers: Items<Range<u32>, u32, H> = Unblock::with_capacity(4, executor, 5..8);
/// ```
pub struct ItemJob<T: Iterator<Item = I> + Drop, I: Drop, H: Wait + Copy> {
    core: ItemCore,
    // The iterator, until it is given back.
    iterator: Option<T>,
    // The item that the iterator gave, until it is sent.
    hand: Option<I>,
    end: ItemSendEnd<I, AnyPlace, H>,
    // Why an item wasn't sent, which ends the session: only the end says so.
    unsent: Option<WhyUnsent>,
    // That the iterator was given back.
    given: Option<Given<T>>,
    // The waker that was taken out of the owner's seat, and has to be called.
    waker: OwnerWaker,
    share: Arc<SessionShare<T, MayFail>>,
    rt: H,
}

impl<T: Iterator<Item = I> + Drop, I: Drop, H: Wait + Copy> Model for ItemJob<T, I, H> {
    ghost use Rattle.std.specs.Prelude.{is_some};
    ghost use Rattle.blocking_unblock_jobs.specs.ItemJobs.{ItemSeen, item_code, Fits, HasClosed};
    ghost use Rattle.blocking_unblock_jobs.specs.Works.{IsKept};

    ghost Value = { ItemSeen T I };

    ghost coded = { item_code T.code I.code };

    ghost view = { λ j. record { core = j.core; iterator = j.iterator; hand = j.hand; sent = j.end.sent; is_unsent = is_some j.unsent } };

    // (nothing is promised of an iterator after its end, so it is one that may always be asked)
    ghost invariant = { λ j. ((state : T) → T.can_next state)
        × Fits j.core.next j.hand j.iterator
        × HasClosed j.core.next j.end.closed
        × IsKept j.iterator j.given };
}

impl<T: Iterator<Item = I> + Drop, I: Drop, H: Wait + Copy> ItemJob<T, I, H> {
    ghost use Rattle.blocking_unblock_jobs.specs.ItemJobs.{ItemSeen, IsSteppedBy};

    /// The job of a session of items: `end` is the pipe into which they go. The iterator comes back by the share. For `ToItem::lend`.
    pub fn new(
        rt: H,
        iterator: T,
        end: ItemSendEnd<I, AnyPlace, H>,
        share: Arc<SessionShare<T, MayFail>>,
    ) -> ItemJob<T, I, H>
        requires { (state : T) → T.can_next state }
        ensures { result ≡ record { core = new_item; iterator = Some iterator; hand = None; sent = end.sent; is_unsent = false } }
    {
        ItemJob {
            core: ItemCore::new(),
            iterator: Some(iterator),
            hand: None,
            end,
            unsent: None,
            given: None,
            waker: None,
            share,
            rt,
        }
    }

    /// The iterator, if it wasn't given back. The slot stays as it is.
    pub fn into_iterator(self) -> Option<T>
        ensures { result ≡ self.iterator }
    {
        let ItemJob {
            core: _,
            iterator,
            hand: _,
            end: _,
            unsent: _,
            given: _,
            waker: _,
            share: _,
            rt: _,
        } = self;
        iterator
    }

    fn next_item(&mut self) -> JobStep
        requires { item_next self.old.core ≡ Next }
        ensures { IsSteppedBy T.next_gives Next self.old self.new result }
    {
        let Some(iterator) = &mut self.iterator else {
            unreachable!()
        };
        match iterator.next() {
            Some(item) => {
                self.hand = Some(item);
                self.core.answer(ItemAnswer::Gave);
            }
            None => self.core.answer(ItemAnswer::Ended),
        }
        JobStep::Again
    }

    fn send(&mut self, me: JobNo) -> JobStep
        requires { item_next self.old.core ≡ Send }
        ensures { IsSteppedBy T.next_gives Send self.old self.new result }
    {
        let Some(item) = self.hand.take() else {
            unreachable!()
        };
        // stream: RunAgain, where it was parked
        match self.end.send(me, item) {
            ItemSending::Sent(seat) => {
                let woke = seat.is_some();
                self.waker = seat.flatten();
                self.core.answer(ItemAnswer::Sent { woke });
                JobStep::Again
            }
            ItemSending::Parked(back, _) => {
                self.hand = Some(back);
                self.core.answer(ItemAnswer::Parked);
                JobStep::Waiting
            }
            ItemSending::Unsent(_, why) => {
                self.unsent = Some(why);
                self.core.answer(ItemAnswer::Shut);
                JobStep::Again
            }
        }
    }

    fn close(&mut self) -> JobStep
        requires { item_next self.old.core ≡ Close }
        ensures { IsSteppedBy T.next_gives Close self.old self.new result }
    {
        let seat = self.end.close();
        let woke = seat.is_some();
        self.waker = seat.flatten();
        self.core.answer(ItemAnswer::Closed { woke });
        JobStep::Again
    }

    fn finish(&mut self) -> JobStep
        requires { item_next self.old.core ≡ Finish }
        ensures { IsSteppedBy T.next_gives Finish self.old self.new result }
    {
        let Some(handle) = self.iterator.take() else {
            unreachable!()
        };
        let (wake, given) = self.share.give_back(&self.rt, handle, None);
        self.given = Some(given);
        let woke = wake.is_some();
        self.waker = wake.flatten();
        self.core.answer(ItemAnswer::Finished { woke });
        if woke { JobStep::Again } else { JobStep::Done }
    }

    fn deliver(&mut self) -> JobStep
        requires { item_next self.old.core ≡ Deliver }
        ensures { IsSteppedBy T.next_gives Deliver self.old self.new result }
    {
        if let Some(waker) = self.waker.take() {
            // stream: CallOwner, where it sat at the ring
            // meeting: Call
            waker.wake();
        }
        self.core.answer(ItemAnswer::Delivered);
        match self.core.next() {
            ItemAction::Done => JobStep::Done,
            _ => JobStep::Again,
        }
    }
}

impl<T: Iterator<Item = I> + Drop, I: Drop, H: Wait + Copy> Drop for ItemJob<T, I, H> {
    fn drop(self) {
        let ItemJob {
            core,
            iterator,
            hand,
            end: _,
            unsent: _,
            given: _,
            waker,
            share,
            rt,
        } = self;
        // The iterator is gone before the owner is told. (a waker that is dropped wakes)
        drop(hand);
        drop(iterator);
        // meeting: Call
        drop(waker);
        if let ItemAction::Done = core.next() {
            return;
        }
        if let Some(Some(waker)) = share.give_up(&rt) {
            // meeting: Call
            waker.wake();
        }
    }
}

// A pool of one kind of iterator has its job as its job type.
impl<T: Iterator<Item = I> + Drop, I: Drop, H: Wait + Copy> Carries<ItemJob<T, I, H>>
    for ItemJob<T, I, H> {
    ghost use Rattle.std.specs.Prelude.{Some, refl};

    ghost wrapped = { λ job. job };

    ghost opened = { λ job. Some job };

    ghost undoes = { λ job. refl };

    fn wrap(named: ItemJob<T, I, H>) -> ItemJob<T, I, H> {
        named
    }

    fn unwrap(self) -> Option<ItemJob<T, I, H>> {
        Some(self)
    }
}

impl<T: Iterator<Item = I> + Drop, I: Drop, H: Wait + Copy> Job for ItemJob<T, I, H> {
    ghost use Rattle.blocking_unblock_jobs.specs.ItemJobs.{IsStepped};

    // (another thread may set the mark at any time)
    ghost may_answer = { λ _ _. Unit {0} };

    fn step(&mut self, me: JobNo) -> JobStep
        ensures { IsStepped T.next_gives self.old self.new result }
    {
        match self.core.next() {
            ItemAction::Next => self.next_item(),
            ItemAction::Send => self.send(me),
            ItemAction::Close => self.close(),
            ItemAction::Finish => self.finish(),
            ItemAction::Deliver => self.deliver(),
            ItemAction::Done => JobStep::Done,
        }
    }

    fn abandoned(&self) -> bool {
        self.share.is_marked()
    }
}
