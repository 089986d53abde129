//! What starts the workers of a crew: a plan says which starts are refused.
ghost use Rattle.std.specs.Prelude.{◌≡◌, ◌<◌, ◌+◌, ℕ};

use blocking_core::pool::{StartRefused, Starter};
use std::marker::Model;
use std::sync::ledger::{Blank, Book, Ledger, Share};

// How many starts were refused. It takes no bytes: contracts alone see the number.
#[derive(Drop)]
struct Refusals<L: Ledger> {
    book: Book<L>,
    share: Share<L>,
}

impl<L: Ledger> Model for Refusals<L> {
    ghost Value = { ℕ };

    ghost view = { λ r. r.book.total };

    ghost invariant = { λ r. 0 < r.share.parts };
}

impl<L: Ledger> Refusals<L> {
    fn new(blank: Blank) -> Self
        requires name { blank.name ≡ L.name }
        requires parts { blank.parts ≡ L.parts }
        requires some { 0 < L.parts }
        ensures { result ≡ 0 }
    {
        let (book, share) = blank.open::<L>();
        Refusals { book, share }
    }

    fn count_one(&mut self)
        ensures { self.new ≡ self.old + 1 }
    {
        self.book.add(&mut self.share, 1);
    }
}

/// Refuses the starts that a plan refuses, which begins with start 1. Beyond its end no start is refused.
#[derive(Drop)]
pub struct PlannedStarts<'a, L: Ledger> {
    plan: &'a [bool],
    refusals: Refusals<L>,
}

impl<'a, L: Ledger> PlannedStarts<'a, L> {
    /// Starts by this plan: of each start whether it is refused.
    pub fn new(plan: &'a [bool], blank: Blank) -> Self
        requires name { blank.name ≡ L.name }
        requires parts { blank.parts ≡ L.parts }
        requires some { 0 < L.parts }
        ensures { result.plan.now ≡ plan.now }
    {
        PlannedStarts {
            plan,
            refusals: Refusals::new(blank),
        }
    }
}

impl<'a, L: Ledger> Starter for PlannedStarts<'a, L> {
    ghost use Rattle.blocking_world_laws.specs.Growth.{IsPlanned};

    ghost refusals = { λ s. s.refusals };

    ghost may_answer = { λ s number refused. IsPlanned s.plan.now number refused };

    fn start(&mut self, number: u64) -> Result<(), StartRefused> {
        let place = number.saturating_sub(1) as usize;
        if self.plan.get(place).copied().unwrap_or(false) {
            self.refusals.count_one();
            return Err(StartRefused);
        }
        Ok(())
    }
}

/// Refuses every start.
#[derive(Drop)]
pub struct NoStarts<L: Ledger> {
    refusals: Refusals<L>,
}

impl<L: Ledger> NoStarts<L> {
    /// No start at all.
    pub fn new(blank: Blank) -> Self
        requires name { blank.name ≡ L.name }
        requires parts { blank.parts ≡ L.parts }
        requires some { 0 < L.parts }
    {
        NoStarts {
            refusals: Refusals::new(blank),
        }
    }
}

impl<L: Ledger> Starter for NoStarts<L> {
    ghost use Rattle.std.specs.Prelude.{true};

    ghost refusals = { λ s. s.refusals };

    ghost may_answer = { λ _ _ refused. refused ≡ true };

    fn start(&mut self, _number: u64) -> Result<(), StartRefused> {
        self.refusals.count_one();
        Err(StartRefused)
    }
}
