//! How far the job of an operation is.
ghost use Rattle.std.specs.Prelude.{◌≡◌};

use blocking_core::job::{OpAction, OpAnswer, OpCore};
use blocking_world_laws::step::HandleAnswer;
use std::marker::Model;

/// How far the job of an operation is: what it does next, and the number that the operation gave, once it did.
#[derive(Drop)]
pub struct OpProgress {
    core: OpCore,
    // (0 before it was given)
    number: u64,
}

impl Model for OpProgress {
    ghost use Rattle.blocking_world_holders.specs.Ops.{Progress};

    ghost Value = { Progress };

    ghost view = { λ p. record { core = p.core; number = p.number } };
}

impl OpProgress {
    ghost use Rattle.blocking_core.specs.Ops.{op_next};
    ghost use Rattle.blocking_core.specs.declared.job.op.OpAnswer.TheVariants as by;
    ghost use Rattle.blocking_world_laws.specs.JobTable.{is_answer};
    ghost use Rattle.blocking_world_holders.specs.Ops.{not_begun, action_of, progress_after_answer, progress_after_number, progress_with};

    /// A job that has done nothing yet.
    pub fn new() -> OpProgress
        ensures { result ≡ not_begun }
    {
        OpProgress {
            core: OpCore::new(),
            number: 0,
        }
    }

    /// The next action of the job.
    pub fn next(&self) -> OpAction
        ensures { result ≡ op_next self.now.core }
    {
        self.core.next()
    }

    /// Whether this is an answer to what the job asks for: the number that the operation gave.
    pub fn may_be_answered(&self, answer: &HandleAnswer) -> bool
        ensures { result ≡ is_answer (action_of self.now) answer.now }
    {
        matches!(
            (self.core.next(), answer),
            (OpAction::Call, HandleAnswer::Number(_))
        )
    }

    /// The operation answered so. Bytes, a flush, an item and a failure are no answers of an operation, and change nothing.
    pub fn answer(&mut self, answer: HandleAnswer)
        ensures { self.new ≡ progress_after_answer self.old answer }
    {
        match answer {
            HandleAnswer::Number(number) => self.keep(number),
            HandleAnswer::Gave(_)
            | HandleAnswer::Fine
            | HandleAnswer::Item(_)
            | HandleAnswer::NoItem
            | HandleAnswer::Failed(_) => {}
        }
    }

    // The operation gave this number.
    fn keep(&mut self, number: u64)
        ensures { self.new ≡ progress_after_number self.old number }
    {
        self.core.answer(OpAnswer::Returned);
        self.number = number;
    }

    /// Notes that the waker which was taken was called.
    pub fn note_wake(&mut self)
        ensures { self.new ≡ progress_with self.old by.Delivered }
    {
        self.core.answer(OpAnswer::Delivered);
    }

    // The job met its owner so.
    pub(crate) fn meet(&mut self, answer: OpAnswer)
        ensures { self.new ≡ progress_with self.old answer }
    {
        self.core.answer(answer);
    }

    // The number that the operation gave.
    pub(crate) fn number(&self) -> u64
        ensures { result ≡ self.now.number }
    {
        self.number
    }
}
