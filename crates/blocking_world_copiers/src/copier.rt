//! A copier of a world.
ghost use Rattle.std.specs.Prelude.{◌≡◌, ◌<◌, ◌≤◌, [], length, drop, vec_capacity, IfOk};
ghost use Rattle.blocking_world_copiers.specs.Copiers.{answer_of, between, bytes_got};
ghost use Rattle.blocking_world_laws.specs.declared.event.Reply.TheVariants.{Okay, Count};

use blocking_core::copy::{CopyAction, CopyAnswer, CopyCore, CopyEnd};
use blocking_world_laws::bytes::Bytes;
use blocking_world_laws::event::{Act, CopySide, Reply};
use blocking_world_laws::step::HandleCall;
use std::alloc::{AllocError, Global};
use std::marker::Model;

/// A copier: its number, whom it reads and whom it writes, how far it is, and what it read last.
#[derive(Drop)]
pub(crate) struct Copier {
    number: usize,
    reader: usize,
    writer: usize,
    core: CopyCore<u64>,
    // The core says which of these bytes are to be written yet.
    piece: Vec<u8>,
}

/// What a copier does next.
#[derive(Debug, Drop)]
pub(crate) enum CopierNext {
    /// It asks its reader for this.
    AskReader(HandleCall),
    /// It asks its writer for this.
    AskWriter(HandleCall),
    /// It tells that so many bytes were copied.
    Copied(u64),
    /// It tells that it failed on this side.
    Failed(CopySide),
}

impl Model for Copier {
    ghost use Rattle.blocking_world_copiers.specs.Copiers.{CopierState};

    ghost Value = { CopierState };

    ghost view = { λ c. record { number = c.number; reader = c.reader; writer = c.writer; core = c.core; piece = c.piece.items } };
}

impl Copier {
    ghost use Rattle.std.specs.Prelude.{◌==◌, ◌||◌};
    ghost use Rattle.blocking_world_copiers.specs.Copiers.{belongs, has_number, heard, new_copier, next_bytes, next_of};

    /// A copier that hasn't begun. Takes no memory.
    pub(crate) fn new(
        alloc: Global,
        number: usize,
        reader: usize,
        writer: usize,
        piece: usize,
    ) -> Copier
        requires { 0 < piece }
        ensures { result ≡ new_copier number reader writer piece }
    {
        Copier {
            number,
            reader,
            writer,
            core: CopyCore::new(piece),
            piece: Vec::new(alloc),
        }
    }

    /// Whether it has this number.
    pub(crate) fn has_number(&self, number: usize) -> bool
        ensures { result ≡ has_number number self.now }
    {
        self.number == number
    }

    /// Whether this is its reader or its writer.
    pub(crate) fn belongs(&self, owner: usize) -> bool
        ensures { result ≡ belongs owner self.now }
    {
        self.reader == owner || self.writer == owner
    }

    /// Its reader.
    pub(crate) fn reader(&self) -> usize
        ensures { result ≡ self.now.reader }
    {
        self.reader
    }

    /// Its writer.
    pub(crate) fn writer(&self) -> usize
        ensures { result ≡ self.now.writer }
    {
        self.writer
    }

    /// Hears what one of its owners did. The bytes that it got are kept in this room, which is empty and large enough; a reply is the
    /// answer to what the copier asked. Takes no memory.
    pub(crate) fn hear(&mut self, act: &Act, room: Vec<u8>)
        requires empty { room.items ≡ [] }
        requires enough { length (bytes_got act.now) ≤ vec_capacity room }
        ensures { self.new ≡ heard self.old act.now }
    {
        match act {
            Act::Got(bytes, _) => self.piece = copy_in(bytes, room),
            Act::Replied(reply) => self.core.answer(answer_of(self.core.next(), *reply)),
            _ => {}
        }
    }

    /// What it does next. Err where there is no memory for the bytes that it writes.
    pub(crate) fn next(&self, alloc: Global) -> Result<CopierNext, AllocError>
        ensures { IfOk result (λ next. next ≡ next_of self.now) }
    {
        Ok(match self.core.next() {
            CopyAction::Read(most) => CopierNext::AskReader(HandleCall::Read(most as u64)),
            CopyAction::Write { from, to } => {
                let rest = Vec::from_slice(alloc, between(&self.piece, from, to))?;
                CopierNext::AskWriter(HandleCall::Write(Bytes::new(rest)))
            }
            CopyAction::Flush => CopierNext::AskWriter(HandleCall::Flush),
            CopyAction::Done(CopyEnd::Copied(copied)) => CopierNext::Copied(copied),
            CopyAction::Done(CopyEnd::Reading(_)) => CopierNext::Failed(CopySide::Reading),
            CopyAction::Done(CopyEnd::Writing(_)) => CopierNext::Failed(CopySide::Writing),
        })
    }

    /// How many bytes it asks to have written next.
    pub(crate) fn bytes_to_write(&self) -> usize
        ensures { result ≡ length (next_bytes (next_of self.now)) }
    {
        match self.core.next() {
            CopyAction::Write { from, to } => between(&self.piece, from, to).len(),
            CopyAction::Read(_) | CopyAction::Flush | CopyAction::Done(_) => 0,
        }
    }
}

// What a reply answers to this action of a copy; one that answers another action is none.
fn answer_of(action: CopyAction<u64>, reply: Reply) -> CopyAnswer<u64>
    ensures { result ≡ answer_of action reply }
{
    match reply {
        Reply::Failed(why) => CopyAnswer::Failed(why),
        Reply::Count(count) => counted(action, count as usize),
        Reply::Okay => flushed(action),
        Reply::OneItem(_) | Reply::NoMore | Reply::Handle | Reply::NotBegun(_) => {
            CopyAnswer::Pending
        }
    }
}

// What a number answers to this action of a copy.
fn counted(action: CopyAction<u64>, count: usize) -> CopyAnswer<u64>
    ensures { result ≡ answer_of action (Count count) }
{
    match action {
        CopyAction::Read(_) => CopyAnswer::Gave(count),
        CopyAction::Write { .. } => CopyAnswer::Took(count),
        CopyAction::Flush | CopyAction::Done(_) => CopyAnswer::Pending,
    }
}

// What it answers that all is done.
fn flushed(action: CopyAction<u64>) -> CopyAnswer<u64>
    ensures { result ≡ answer_of action Okay }
{
    match action {
        CopyAction::Flush => CopyAnswer::Flushed,
        CopyAction::Read(_) | CopyAction::Write { .. } | CopyAction::Done(_) => CopyAnswer::Pending,
    }
}

// The bytes from the one place up to the other, or as many of them as there are.
fn between(bytes: &[u8], from: usize, to: usize) -> &[u8]
    ensures { result.now ≡ between from to bytes.now }
{
    let Some(rest) = bytes.get(from..) else {
        return &[];
    };
    match rest.get(..to.saturating_sub(from)) {
        Some(front) => front,
        None => rest,
    }
}

// The same bytes once more, in this room.
fn copy_in(bytes: &Bytes, mut room: Vec<u8>) -> Vec<u8>
    requires empty { room.items ≡ [] }
    requires enough { length bytes.now ≤ vec_capacity room }
    ensures { result.items ≡ bytes.now }
{
    match room.extend_from_slice(bytes.as_slice()) {
        Ok(()) => room,
        Err(_full) => unreachable!(),
    }
}
