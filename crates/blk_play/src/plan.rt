//! What a scripted handle does: its bytes, and its answers call by call.
use crate::gates::Stop;
use std::alloc::{AllocError, Global};

/// What a handle has.
#[derive(Drop)]
pub(crate) enum Source {
    /// These bytes, which writes change.
    Bytes(Vec<u8>),
    /// So many, byte or item i being i modulo 251. Pieces of 65,536 bytes differ then. Writes change none.
    Cycle(u64),
    /// So many, item i being i, and byte i its lowest eight bits.
    Count(u64),
}

/// What one call answers.
#[derive(Drop)]
pub(crate) enum Answer {
    /// What the handle's cursor does.
    AsCursor,
    /// The same, of so many bytes at most; of an operation, this number.
    Number(u64),
    /// A read gives these bytes.
    Bytes(Vec<u8>),
    /// This item.
    Item(u64),
    /// The end.
    NoMore,
    /// An error of the system of this number.
    Fault(i32),
}

/// One answer or several, and where their calls stand before.
#[derive(Drop)]
pub(crate) struct Planned {
    pub stop: Stop,
    pub answer: Answer,
    /// How many calls it answers.
    pub times: u64,
}

/// The answers of one kind of call, in order. Behind them the cursor answers.
#[derive(Drop)]
pub(crate) struct Answers {
    pub list: Vec<Planned>,
    place: usize,
    used: u64,
}

impl Answers {
    pub(crate) fn new(alloc: Global) -> Answers {
        Answers {
            list: Vec::new(alloc),
            place: 0,
            used: 0,
        }
    }

    fn has_more(&self) -> bool {
        match self.list.get(self.place) {
            Some(planned) => {
                self.used < planned.times || self.place.saturating_add(1) < self.list.len()
            }
            None => false,
        }
    }

    /// The next answer; None behind all.
    pub(crate) fn advance(&mut self) -> Option<&Planned> {
        if self.list.get(self.place)?.times <= self.used {
            self.place = self.place.saturating_add(1);
            self.used = 0;
        }
        self.used = self.used.saturating_add(1);
        self.list.get(self.place)
    }
}

/// The kinds of calls of a handle.
#[derive(Clone, Copy, PartialEq, Eq)]
pub(crate) enum Kind {
    Read,
    Write,
    Flush,
    Item,
    Seek,
    Operate,
}

// How many lists of answers a plan has: one for each kind, and one for all.
const LISTS: usize = 7;

/// The place of the answers of calls of any kind, which come behind their kind's.
pub(crate) const ALL: usize = 6;

/// The place of the answers of a kind.
pub(crate) fn place_of(kind: Kind) -> usize {
    match kind {
        Kind::Read => 0,
        Kind::Write => 1,
        Kind::Flush => 2,
        Kind::Item => 3,
        Kind::Seek => 4,
        Kind::Operate => 5,
    }
}

/// A handle as a script plans it.
#[derive(Drop)]
pub(crate) struct Plan {
    pub source: Source,
    /// How many bytes a call moves at most.
    pub by: usize,
    /// How often each call lets other threads go first.
    pub yields: u64,
    /// How many bytes or items are logged of what it gave, and of what it took.
    pub logged: usize,
    /// The answers of each kind, and of all.
    pub lists: Vec<Answers>,
    /// Where it stands when it is dropped.
    pub dropping: Stop,
}

impl Plan {
    /// One of these bytes, whose cursor answers all calls.
    pub(crate) fn new(alloc: Global, source: Source) -> Result<Plan, AllocError> {
        let mut lists = Vec::new(alloc);
        for _ in 0..LISTS {
            lists.push(Answers::new(alloc))?;
        }
        Ok(Plan {
            source,
            by: usize::MAX,
            yields: 0,
            logged: 1024,
            lists,
            dropping: Stop::default(),
        })
    }

    /// What the next call of this kind answers; None where its cursor says.
    pub(crate) fn next_answer(&mut self, kind: Kind) -> Option<&Planned> {
        let place = place_of(kind);
        let has_more = match self.lists.get(place) {
            Some(answers) => answers.has_more(),
            None => false,
        };
        let answers = self.lists.get_mut(if has_more { place } else { ALL })?;
        answers.advance()
    }
}
