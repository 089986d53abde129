//! How far the job of an iterator is.
ghost use Rattle.std.specs.Prelude.{◌≡◌};

use blocking_core::job::{ItemAction, ItemAnswer, ItemCore};
use blocking_world_laws::step::HandleAnswer;
use std::marker::Model;

/// How far the job of an iterator is: what it does next, and the item that its handle gave last, by its number.
#[derive(Drop)]
pub struct ItemProgress {
    core: ItemCore,
    // (0 before the first)
    item: u64,
}

impl Model for ItemProgress {
    ghost use Rattle.blocking_world_holders.specs.Items.{Progress};

    ghost Value = { Progress };

    ghost view = { λ p. record { core = p.core; item = p.item } };
}

impl ItemProgress {
    ghost use Rattle.blocking_core.specs.Items.{item_next};
    ghost use Rattle.blocking_core.specs.declared.job.item.ItemAnswer.TheVariants as by;
    ghost use Rattle.blocking_world_laws.specs.JobTable.{is_answer};
    ghost use Rattle.blocking_world_holders.specs.Items.{not_begun, action_of, progress_after_answer, progress_with};

    /// A job that has done nothing yet.
    pub fn new() -> ItemProgress
        ensures { result ≡ not_begun }
    {
        ItemProgress {
            core: ItemCore::new(),
            item: 0,
        }
    }

    /// The next action of the job.
    pub fn next(&self) -> ItemAction
        ensures { result ≡ item_next self.now.core }
    {
        self.core.next()
    }

    /// Whether this is an answer to what the job asks for: an item, or that there is none left.
    pub fn may_be_answered(&self, answer: &HandleAnswer) -> bool
        ensures { result ≡ is_answer (action_of self.now) answer.now }
    {
        match (self.core.next(), answer) {
            (ItemAction::Next, HandleAnswer::Item(_)) => true,
            (ItemAction::Next, HandleAnswer::NoItem) => true,
            _ => false,
        }
    }

    /// The handle answered so. A number, bytes, a flush and a failure are no answers of an iterator, and change nothing.
    pub fn answer(&mut self, answer: HandleAnswer)
        ensures { self.new ≡ progress_after_answer self.old answer }
    {
        match answer {
            HandleAnswer::Item(item) => {
                self.core.answer(ItemAnswer::Gave);
                self.item = item;
            }
            HandleAnswer::NoItem => self.core.answer(ItemAnswer::Ended),
            HandleAnswer::Number(_)
            | HandleAnswer::Gave(_)
            | HandleAnswer::Fine
            | HandleAnswer::Failed(_) => {}
        }
    }

    /// Notes that the waker which was taken was called.
    pub fn note_wake(&mut self)
        ensures { self.new ≡ progress_with self.old by.Delivered }
    {
        self.core.answer(ItemAnswer::Delivered);
    }

    // The job met its owner so.
    pub(crate) fn meet(&mut self, answer: ItemAnswer)
        ensures { self.new ≡ progress_with self.old answer }
    {
        self.core.answer(answer);
    }

    // The item that its handle gave last.
    pub(crate) fn item(&self) -> u64
        ensures { result ≡ self.now.item }
    {
        self.item
    }
}
