//! The job of a session that runs an iterator, and how its owner receives an item.
ghost use Rattle.std.specs.Prelude.{◌≡◌, true};

use crate::item::ItemProgress;
use crate::passage::Passage;
use crate::session::Session;
use blocking_core::job::{ItemAction, ItemAnswer};
use blocking_core::pipe::{Answered, Received, Sending};
use blocking_core::pool::WakeNote;
use blocking_world_laws::event::{Act, HolderWaker};

/// What an owner finds that receives an item.
pub(crate) enum Obtained {
    /// This item, and the note of a job that waited.
    Item(u64, Option<WakeNote>),
    /// Nothing yet: the owner is seated.
    Nothing,
    /// Nothing, and no more will come.
    End,
}

impl Session {
    ghost use Rattle.blocking_core.specs.Items.{item_next};
    ghost use Rattle.blocking_world_holders.specs.Passages.{OfItems, through, is_piped};
    ghost use Rattle.blocking_world_holders.specs.Sessions.{found_send, item_closes, item_finishes, item_works, item_at_send, IsWork, received, session_after_receive};
    ghost use Rattle.blocking_world_holders.specs.Owners.{obtained_as};

    /// The owner receives an item, which is kept.
    pub(crate) fn receive(&mut self) -> Obtained
        requires { self.old.goods ≡ OfItems }
        ensures found { result ≡ obtained_as (received self.old) }
        ensures session { self.new ≡ session_after_receive (received self.old) self.old }
    {
        let Passage::Items(pipe) = &mut self.passage else {
            unreachable!()
        };
        let Answered {
            answer,
            spare: _spare,
        } = pipe.receive_or_seat(());
        match answer {
            Received::Got(item, note) => {
                self.item = item;
                Obtained::Item(item, note)
            }
            Received::Ended => Obtained::End,
            Received::Waits(_at_the_pipe) => Obtained::Nothing,
        }
    }

    // The job sends the item that its handle gave, and is seated where there is no room.
    fn send(&mut self, job: &mut ItemProgress) -> Act
        requires { self.old.goods ≡ OfItems }
        ensures { item_at_send (found_send self.old) job.old self.old
            ≡ record { act = result; job = job.new; session = self.new } }
    {
        let Passage::Items(pipe) = &mut self.passage else {
            unreachable!()
        };
        match pipe.send(self.number, job.item()) {
            Sending::Sent(seat) => {
                let woke = seat.is_some();
                job.meet(ItemAnswer::Sent { woke });
                Act::Put(1, HolderWaker::in_seat(woke))
            }
            Sending::Parked(_in_hand) => {
                job.meet(ItemAnswer::Parked);
                Act::JobParked
            }
            Sending::Shut(_in_hand) => {
                job.meet(ItemAnswer::Shut);
                Act::Lost(1)
            }
        }
    }

    // The job closes its end of the pipe.
    fn close_item(&mut self, job: &mut ItemProgress) -> Act
        requires { is_piped self.old.goods ≡ true }
        ensures { item_closes job.old self.old
            ≡ record { act = result; job = job.new; session = self.new } }
    {
        let woke = self.passage.close_job();
        job.meet(ItemAnswer::Closed { woke });
        Act::JobClosed(HolderWaker::in_seat(woke))
    }

    // The job puts its result into the slot.
    fn finish_item(&mut self, job: &mut ItemProgress) -> Act
        ensures { item_finishes job.old self.old
            ≡ record { act = result; job = job.new; session = self.new } }
    {
        let woke = self.slot.put(None).wake.is_some();
        job.meet(ItemAnswer::Finished { woke });
        Act::Finished(HolderWaker::in_seat(woke))
    }

    /// A job that runs an iterator takes its next action, where it takes it at its session: what is seen of it.
    pub(crate) fn stream(&mut self, job: &mut ItemProgress) -> Option<Act>
        ensures { IsWork (through OfItems self.old.goods (item_works (item_next job.old.core) job.old self.old)) job.old self.old result
            job.new self.new }
    {
        if !self.is_of_items() {
            return None;
        }
        match job.next() {
            ItemAction::Send => Some(self.send(job)),
            ItemAction::Close => Some(self.close_item(job)),
            ItemAction::Finish => Some(self.finish_item(job)),
            ItemAction::Next | ItemAction::Deliver | ItemAction::Done => None,
        }
    }
}
