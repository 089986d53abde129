//! How far the job of a seek is.
ghost use Rattle.std.specs.Prelude.{◌≡◌};

use blocking_core::io::{Fault, Position};
use blocking_core::job::{SeekAction, SeekAnswer, SeekCore};
use blocking_world_laws::step::HandleAnswer;
use std::marker::Model;

/// How far the job of a seek is: what it does next, and where its handle is to go. Also where it was found to be, once it was, and the
/// job's fault, once it met one.
#[derive(Drop)]
pub struct SeekProgress {
    core: SeekCore,
    goal: Position,
    place: u64,
    fault: Option<Fault<u64>>,
}

impl Model for SeekProgress {
    ghost use Rattle.blocking_world_holders.specs.Seeks.{Progress};

    ghost Value = { Progress };

    ghost view = { λ p. record { core = p.core; goal = p.goal; place = p.place; fault = p.fault } };
}

impl SeekProgress {
    ghost use Rattle.blocking_core.specs.Seeks.{seek_next};
    ghost use Rattle.blocking_core.specs.declared.job.seek.SeekAnswer.TheVariants as by;
    ghost use Rattle.blocking_world_laws.specs.JobTable.{is_answer};
    ghost use Rattle.blocking_world_holders.specs.Seeks.{not_begun, action_of, progress_after_answer, progress_after_failure, progress_after_place, progress_with};

    /// A job that has done nothing yet, and moves its handle to this position.
    pub fn new(goal: Position) -> SeekProgress
        ensures { result ≡ not_begun goal }
    {
        SeekProgress {
            core: SeekCore::new(),
            goal,
            place: 0,
            fault: None,
        }
    }

    /// The next action of the job.
    pub fn next(&self) -> SeekAction
        ensures { result ≡ seek_next self.now.core }
    {
        self.core.next()
    }

    /// Whether this is an answer to what the job asks for: where the handle is now, or a failure of it.
    pub fn may_be_answered(&self, answer: &HandleAnswer) -> bool
        ensures { result ≡ is_answer (action_of self.now) answer.now }
    {
        matches!(
            (self.core.next(), answer),
            (
                SeekAction::Seek,
                HandleAnswer::Number(_) | HandleAnswer::Failed(_)
            )
        )
    }

    /// The handle answered so. Bytes, a flush and an item are no answers to a seek, and change nothing.
    pub fn answer(&mut self, answer: HandleAnswer)
        ensures { self.new ≡ progress_after_answer self.old answer }
    {
        match answer {
            HandleAnswer::Number(place) => self.arrive(place),
            HandleAnswer::Failed(error) => self.fail(error),
            HandleAnswer::Gave(_)
            | HandleAnswer::Fine
            | HandleAnswer::Item(_)
            | HandleAnswer::NoItem => {}
        }
    }

    // The handle is there now.
    fn arrive(&mut self, place: u64)
        ensures { self.new ≡ progress_after_place self.old place }
    {
        self.core.answer(SeekAnswer::Sought);
        self.place = place;
    }

    // The handle failed; what is told is the first failure.
    fn fail(&mut self, error: u64)
        ensures { self.new ≡ progress_after_failure self.old error }
    {
        self.core.answer(SeekAnswer::Failed);
        if self.fault.is_none() {
            self.fault = Some(Fault::Io(error));
        }
    }

    /// Notes that the waker which was taken was called.
    pub fn note_wake(&mut self)
        ensures { self.new ≡ progress_with self.old by.Delivered }
    {
        self.core.answer(SeekAnswer::Delivered);
    }

    // The job met its owner so.
    pub(crate) fn meet(&mut self, answer: SeekAnswer)
        ensures { self.new ≡ progress_with self.old answer }
    {
        self.core.answer(answer);
    }

    // Where the handle was found to be.
    pub(crate) fn place(&self) -> u64
        ensures { result ≡ self.now.place }
    {
        self.place
    }

    // The fault that the job met.
    pub(crate) fn fault(&self) -> Option<Fault<u64>>
        ensures { result ≡ self.now.fault }
    {
        self.fault
    }
}
