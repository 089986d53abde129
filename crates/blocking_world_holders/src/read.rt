//! How far the job of a reader is.
ghost use Rattle.std.specs.Prelude.{◌≡◌};

use blocking_core::io::Fault;
use blocking_core::job::{ReadAction, ReadAnswer, ReadCore};
use blocking_world_laws::bytes::Bytes;
use blocking_world_laws::step::HandleAnswer;
use std::alloc::Global;
use std::marker::Model;

/// How far the job of a reader is: what it does next, the bytes that its reader gave last, and its fault, once it met one.
#[derive(Drop)]
pub struct ReadProgress {
    core: ReadCore,
    piece: Bytes,
    fault: Option<Fault<u64>>,
}

impl Model for ReadProgress {
    ghost use Rattle.blocking_world_holders.specs.Reads.{Progress};

    ghost Value = { Progress };

    ghost view = { λ p. record { core = p.core; piece = p.piece; fault = p.fault } };
}

impl ReadProgress {
    ghost use Rattle.blocking_core.specs.Reads.{read_next};
    ghost use Rattle.blocking_core.specs.declared.job.read.ReadAnswer.TheVariants as by;
    ghost use Rattle.blocking_world_laws.specs.JobTable.{is_answer};
    ghost use Rattle.blocking_world_holders.specs.Reads.{not_begun, action_of, progress_after_answer, progress_after_gift, progress_after_failure, progress_with};

    /// A job that has done nothing yet. Takes no memory.
    pub fn new(alloc: Global) -> ReadProgress
        ensures { result ≡ not_begun }
    {
        ReadProgress {
            core: ReadCore::new(),
            piece: Bytes::new(Vec::new(alloc)),
            fault: None,
        }
    }

    /// The next action of the job.
    pub fn next(&self) -> ReadAction
        ensures { result ≡ read_next self.now.core }
    {
        self.core.next()
    }

    /// Whether this is an answer to what the job asks for: bytes, no more than it asked for, or a failure of its reader.
    pub fn may_be_answered(&self, answer: &HandleAnswer) -> bool
        ensures { result ≡ is_answer (action_of self.now) answer.now }
    {
        match (self.core.next(), answer) {
            (ReadAction::Read(most), HandleAnswer::Gave(bytes)) => bytes.as_slice().len() <= most,
            (ReadAction::Read(_), HandleAnswer::Failed(_)) => true,
            _ => false,
        }
    }

    /// The reader answered so. A number, a flush and an item are no answers of a reader, and change nothing.
    pub fn answer(&mut self, answer: HandleAnswer)
        ensures { self.new ≡ progress_after_answer self.old answer }
    {
        match answer {
            HandleAnswer::Gave(bytes) => self.keep(bytes),
            HandleAnswer::Failed(error) => self.fail(error),
            HandleAnswer::Number(_)
            | HandleAnswer::Fine
            | HandleAnswer::Item(_)
            | HandleAnswer::NoItem => {}
        }
    }

    // The reader gave these bytes.
    fn keep(&mut self, bytes: Bytes)
        ensures { self.new ≡ progress_after_gift self.old bytes }
    {
        self.core.answer(ReadAnswer::Gave(bytes.as_slice().len()));
        self.piece = bytes;
    }

    // The reader failed; what is told is the first failure.
    fn fail(&mut self, error: u64)
        ensures { self.new ≡ progress_after_failure self.old error }
    {
        self.core.answer(ReadAnswer::Failed);
        if self.fault.is_none() {
            self.fault = Some(Fault::Io(error));
        }
    }

    /// Notes that the waker which was taken was called.
    pub fn note_wake(&mut self)
        ensures { self.new ≡ progress_with self.old by.Delivered }
    {
        self.core.answer(ReadAnswer::Delivered);
    }

    // The job met its owner so.
    pub(crate) fn meet(&mut self, answer: ReadAnswer)
        ensures { self.new ≡ progress_with self.old answer }
    {
        self.core.answer(answer);
    }

    // What the reader gave last.
    pub(crate) fn piece(&self) -> &[u8]
        ensures { result.now ≡ self.now.piece }
    {
        self.piece.as_slice()
    }

    // The fault that the job met.
    pub(crate) fn fault(&self) -> Option<Fault<u64>>
        ensures { result ≡ self.now.fault }
    {
        self.fault
    }
}
