//! The decision core of a copy. It reads a piece and writes all of it before it reads the next, until the reader ends or fails, or the
//! writer fails. At the reader's end, and after a write that took nothing, it flushes, and only a flush ends it well.
ghost use Rattle.std.specs.Prelude.{◌≡◌, ◌<◌};
ghost use Rattle.blocking_core.specs.Copying.{copied_by, end_of_copy, next_by, next_in_piece, took_none};

use crate::io::Fault;
use std::marker::Model;

/// What a copy does next.
#[derive(Clone, Copy, Debug, PartialEq, Eq)]
pub enum CopyAction<E> {
    /// Read a piece of at most so many bytes.
    Read(usize),
    /// Write what stands in the piece from the one place up to the other, places being counted in bytes from 0.
    Write { from: usize, to: usize },
    /// Flush the writer.
    Flush,
    /// Nothing more: the copy is over, and ended so.
    Done(CopyEnd<E>),
}

/// How an action was answered.
#[derive(Clone, Copy, Debug, PartialEq, Eq)]
pub enum CopyAnswer<E> {
    /// It has to be waited for. The same is next.
    Pending,
    /// The reader gave so many bytes, and at its end none.
    Gave(usize),
    /// The writer took so many bytes.
    Took(usize),
    /// The writer is flushed.
    Flushed,
    /// The reader failed, or the writer at a write or a flush.
    Failed(Fault<E>),
}

/// How a copy ended.
#[derive(Clone, Copy, Debug, PartialEq, Eq)]
pub enum CopyEnd<E> {
    /// All that was read is written and flushed: so many bytes, or the greatest number of 64 bits where there were more.
    Copied(u64),
    /// The reader failed. What was written before isn't flushed.
    Reading(Fault<E>),
    /// The writer failed, at a write or a flush, or a write took none of the bytes.
    Writing(Fault<E>),
}

/// What a copy does: a step is its next action, and the answer decides what follows.
///
/// It holds no bytes, and knows the place in the piece from which the next write goes on. It counts the bytes that were written; the count
/// stays at the greatest number of 64 bits once it is there.
#[derive(Clone, Copy, Debug)]
pub struct CopyCore<E> {
    next: CopyAction<E>,
    // How many bytes are read at once.
    piece: usize,
    copied: u64,
    // Whether a write took nothing.
    is_short: bool,
}

impl<E> Model for CopyCore<E> {
    ghost use Rattle.blocking_core.specs.Copying.{CopyMachine};

    ghost Value = { CopyMachine E };

    ghost view = { λ core. record {
      next = core.next;
      piece = core.piece;
      copied = core.copied;
      is_short = core.is_short;
    } };

    ghost inverse = { λ seen. record {
      next = seen.next;
      piece = seen.piece;
      copied = seen.copied;
      is_short = seen.is_short;
    } };
}

impl<E: Copy> CopyCore<E> {
    ghost use Rattle.blocking_core.specs.Copying.{new_copy, copy_after};

    /// The core of a copy that hasn't begun, and reads pieces of at most so many bytes.
    pub fn new(piece: usize) -> Self
        requires { 0 < piece }
        ensures { result ≡ new_copy piece }
    {
        CopyCore {
            next: CopyAction::Read(piece),
            piece,
            copied: 0,
            is_short: false,
        }
    }

    /// The next action.
    pub fn next(&self) -> CopyAction<E>
        ensures { result ≡ self.now.next }
    {
        self.next
    }

    /// How many bytes were written, or the greatest number of 64 bits where there were more.
    pub fn copied(&self) -> u64
        ensures { result ≡ self.now.copied }
    {
        self.copied
    }

    /// Takes the answer to the next action. An answer of another kind changes nothing, and neither does one that counts more bytes than
    /// were asked for or offered.
    pub fn answer(&mut self, answer: CopyAnswer<E>)
        ensures { self.new ≡ copy_after self.old answer }
    {
        *self = CopyCore {
            next: self.next_by(answer),
            piece: self.piece,
            copied: copied_by(self.copied, self.next, answer),
            is_short: self.is_short || took_none(self.next, answer),
        };
    }

    // What is next after an answer.
    fn next_by(&self, answer: CopyAnswer<E>) -> CopyAction<E>
        ensures { result ≡ next_by self.now answer }
    {
        match (self.next, answer) {
            (CopyAction::Read(_), CopyAnswer::Gave(0)) => CopyAction::Flush,
            (CopyAction::Read(most), CopyAnswer::Gave(count)) if count <= most => {
                CopyAction::Write { from: 0, to: count }
            }
            (CopyAction::Read(_), CopyAnswer::Failed(why)) => CopyAction::Done(CopyEnd::Reading(
                why,
            )),
            (CopyAction::Write { .. }, CopyAnswer::Took(0)) => CopyAction::Flush,
            (CopyAction::Write { from, to }, CopyAnswer::Took(count)) => {
                next_in_piece(self.piece, from, to, count)
            }
            (CopyAction::Write { .. } | CopyAction::Flush, CopyAnswer::Failed(why)) => {
                CopyAction::Done(CopyEnd::Writing(why))
            }
            (CopyAction::Flush, CopyAnswer::Flushed) => CopyAction::Done(self.end()),
            (same, _) => same,
        }
    }

    // How a copy that was flushed ends.
    fn end(&self) -> CopyEnd<E>
        ensures { result ≡ end_of_copy self.now.is_short self.now.copied }
    {
        if self.is_short {
            return CopyEnd::Writing(Fault::WriteZero);
        }
        CopyEnd::Copied(self.copied)
    }
}

// What is next where so many of these bytes were written: the rest of them, or another piece.
fn next_in_piece<E>(piece: usize, from: usize, to: usize, count: usize) -> CopyAction<E>
    ensures { result ≡ next_in_piece piece from to count }
{
    let offered = to.saturating_sub(from);
    if count < offered {
        return CopyAction::Write {
            from: from + count,
            to,
        };
    }
    if count == offered {
        return CopyAction::Read(piece);
    }
    CopyAction::Write { from, to }
}

// How many bytes were written, where so many were before and this action was answered so.
fn copied_by<E: Copy>(copied: u64, action: CopyAction<E>, answer: CopyAnswer<E>) -> u64
    ensures { result ≡ copied_by copied action answer }
{
    match (action, answer) {
        (CopyAction::Write { from, to }, CopyAnswer::Took(count))
            if count <= to.saturating_sub(from) => copied.saturating_add(count as u64),
        _ => copied,
    }
}

// Whether this action was a write that took nothing.
fn took_none<E: Copy>(action: CopyAction<E>, answer: CopyAnswer<E>) -> bool
    ensures { result ≡ took_none action answer }
{
    matches!(
        (action, answer),
        (CopyAction::Write { .. }, CopyAnswer::Took(0))
    )
}
