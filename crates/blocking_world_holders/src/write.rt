//! How far the job of a writer is.
ghost use Rattle.std.specs.Prelude.{◌≡◌};

use blocking_core::io::Fault;
use blocking_core::job::{WriteAction, WriteAnswer, WriteCore};
use blocking_world_laws::bytes::Bytes;
use blocking_world_laws::step::HandleAnswer;
use std::alloc::Global;
use std::marker::Model;

/// How far the job of a writer is: what it does next, and its fault, once it met one. Also the bytes that it found last at the front
/// of the pipe.
#[derive(Drop)]
pub struct WriteProgress {
    core: WriteCore<u64>,
    piece: Bytes,
}

impl Model for WriteProgress {
    ghost use Rattle.blocking_world_holders.specs.Writes.{Progress};

    ghost Value = { Progress };

    ghost view = { λ p. record { core = p.core; piece = p.piece } };
}

impl WriteProgress {
    ghost use Rattle.blocking_core.specs.Writes.{write_next};
    ghost use Rattle.blocking_core.specs.declared.job.write.WriteAnswer.TheVariants as by;
    ghost use Rattle.blocking_world_laws.specs.JobTable.{is_answer};
    ghost use Rattle.blocking_world_holders.specs.Writes.{not_begun, action_of, fault_of, progress_after_answer, progress_after_piece, progress_with};

    /// A job that has done nothing yet. Takes no memory.
    pub fn new(alloc: Global) -> WriteProgress
        ensures { result ≡ not_begun }
    {
        WriteProgress {
            core: WriteCore::new(),
            piece: Bytes::new(Vec::new(alloc)),
        }
    }

    /// The next action of the job.
    pub fn next(&self) -> WriteAction
        ensures { result ≡ write_next self.now.core }
    {
        self.core.next()
    }

    /// Whether this is an answer to what the job asks for. It says how much of a piece its writer took, no more than it was offered, or
    /// that it was flushed, or a failure of either.
    pub fn may_be_answered(&self, answer: &HandleAnswer) -> bool
        ensures { result ≡ is_answer (action_of self.now) answer.now }
    {
        match (self.core.next(), answer) {
            (WriteAction::Write(_), HandleAnswer::Number(taken)) => {
                *taken as usize <= self.piece.as_slice().len()
            }
            (WriteAction::Write(_) | WriteAction::Flush, HandleAnswer::Failed(_)) => true,
            (WriteAction::Flush, HandleAnswer::Fine) => true,
            _ => false,
        }
    }

    /// The writer answered so. Bytes and items are no answers of a writer, and change nothing.
    pub fn answer(&mut self, answer: HandleAnswer)
        ensures { self.new ≡ progress_after_answer self.old answer }
    {
        match answer {
            HandleAnswer::Number(taken) => self.core.answer(WriteAnswer::Took(taken as usize)),
            HandleAnswer::Fine => self.core.answer(WriteAnswer::Flushed),
            HandleAnswer::Failed(error) => self.core.answer(WriteAnswer::Failed(error)),
            HandleAnswer::Gave(_) | HandleAnswer::Item(_) | HandleAnswer::NoItem => {}
        }
    }

    /// Notes that the waker which was taken was called.
    pub fn note_wake(&mut self)
        ensures { self.new ≡ progress_with self.old by.Delivered }
    {
        self.core.answer(WriteAnswer::Delivered);
    }

    // The job met its owner so.
    pub(crate) fn meet(&mut self, answer: WriteAnswer<u64>)
        ensures { self.new ≡ progress_with self.old answer }
    {
        self.core.answer(answer);
    }

    // The job found these bytes at the front of the pipe.
    pub(crate) fn find(&mut self, piece: Bytes)
        ensures { self.new ≡ progress_after_piece self.old piece }
    {
        self.core
            .answer(WriteAnswer::Peeked(piece.as_slice().len()));
        self.piece = piece;
    }

    // The fault that the job met first.
    pub(crate) fn fault(&self) -> Option<Fault<u64>>
        ensures { result ≡ fault_of self.now.core }
    {
        self.core.fault().map(Fault::from)
    }
}
