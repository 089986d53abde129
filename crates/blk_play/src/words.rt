//! The words of a line, one after another.
use crate::gates::{GateNo, Stop, gate_of};
use hex::FromHexError;
use std::alloc::{AllocError, AllocFailed, Global};
use std::io::SeekFrom;

/// Why a text isn't a line.
#[derive(Clone, Copy, Debug, PartialEq, Eq)]
pub(crate) enum LineFault {
    NotALine,
    /// There was no memory.
    Memory,
}

impl From<AllocError> for LineFault {
    fn from(_error: AllocError) -> LineFault {
        LineFault::Memory
    }
}

impl<T: Drop> From<AllocFailed<T>> for LineFault {
    fn from(_error: AllocFailed<T>) -> LineFault {
        LineFault::Memory
    }
}

/// What is left of a line.
#[derive(Clone, Copy)]
pub(crate) struct Words<'a> {
    rest: &'a str,
}

type Read<T> = Result<T, LineFault>;

fn some<T>(found: Option<T>) -> Read<T> {
    found.ok_or(LineFault::NotALine)
}

/// The number that a word says in digits alone.
pub(crate) fn number_of(word: &str) -> Option<u64> {
    if word.bytes().all(|byte| byte.is_ascii_digit()) {
        return word.parse::<u64>().ok();
    }
    None
}

/// The bytes that a word says: two digits of base 16 a byte, or a dash for none.
pub(crate) fn bytes_of(alloc: Global, word: &str) -> Read<Vec<u8>> {
    if word == "-" {
        return Ok(Vec::new(alloc));
    }
    match hex::decode(alloc, word) {
        Ok(bytes) if !word.is_empty() => Ok(bytes),
        Err(FromHexError::OutOfMemory) => Err(LineFault::Memory),
        _ => Err(LineFault::NotALine),
    }
}

// The numbers of a range: one, or the first and the last with two dots between.
fn range_of(word: &str) -> Option<(u64, u64)> {
    match word.split_once("..") {
        Some((first, last)) => Some((number_of(first)?, number_of(last)?)),
        None => {
            let one = number_of(word)?;
            Some((one, one))
        }
    }
}

// The position that a word says: `s`, `c` or `e` for where it counts from, and how many bytes.
fn position_of(word: &str) -> Option<SeekFrom> {
    if let Some(offset) = word.strip_prefix('s') {
        return number_of(offset).map(SeekFrom::Start);
    }
    if let Some(offset) = word.strip_prefix('c') {
        return offset.parse::<i64>().ok().map(SeekFrom::Current);
    }
    let offset = word.strip_prefix('e')?;
    offset.parse::<i64>().ok().map(SeekFrom::End)
}

// Where a word says that someone stands: `@g` at a gate, and `+g` which he opens before.
fn stop_of(word: &str) -> Option<Stop> {
    let mut stop = Stop::default();
    let mut letters = word.chars();
    while let Some(sign) = letters.next() {
        let gate = gate_of(letters.next()?)?;
        match sign {
            '@' => stop.at = Some(gate),
            '+' => stop.opens = Some(gate),
            _ => return None,
        }
    }
    Some(stop)
}

impl<'a> Words<'a> {
    pub(crate) fn new(line: &'a str) -> Words<'a> {
        Words { rest: line }
    }

    /// All that is left.
    pub(crate) fn rest(self) -> &'a str {
        self.rest
    }

    /// The next word, if there is one, which stays.
    pub(crate) fn peek(self) -> Option<&'a str> {
        if self.rest.is_empty() {
            return None;
        }
        Some(match self.rest.split_once(' ') {
            Some((word, _)) => word,
            None => self.rest,
        })
    }

    /// The next word.
    pub(crate) fn word(&mut self) -> Read<&'a str> {
        let word = some(self.peek())?;
        self.rest = match self.rest.split_once(' ') {
            Some((_, rest)) => rest,
            None => "",
        };
        Ok(word)
    }

    /// Whether the next word is this one, which is taken then.
    pub(crate) fn takes(&mut self, wanted: &str) -> bool {
        if self.peek() == Some(wanted) {
            return self.word().is_ok();
        }
        false
    }

    pub(crate) fn number(&mut self) -> Read<u64> {
        some(number_of(self.word()?))
    }

    pub(crate) fn count(&mut self) -> Read<usize> {
        some(usize::try_from(self.number()?).ok())
    }

    pub(crate) fn client(&mut self) -> Read<u32> {
        some(u32::try_from(self.number()?).ok())
    }

    pub(crate) fn range(&mut self) -> Read<(u64, u64)> {
        some(range_of(self.word()?))
    }

    pub(crate) fn bytes(&mut self, alloc: Global) -> Read<Vec<u8>> {
        bytes_of(alloc, self.word()?)
    }

    pub(crate) fn position(&mut self) -> Read<SeekFrom> {
        some(position_of(self.word()?))
    }

    pub(crate) fn gate(&mut self) -> Read<GateNo> {
        let mut letters = self.word()?.chars();
        let gate = some(letters.next().and_then(gate_of))?;
        match letters.next() {
            None => Ok(gate),
            Some(_) => Err(LineFault::NotALine),
        }
    }

    /// Where the next word says that someone stands; nowhere where it says nothing of that.
    pub(crate) fn stop(&mut self) -> Read<Stop> {
        match self.peek() {
            Some(word) if word.starts_with('@') || word.starts_with('+') => {
                some(stop_of(self.word()?))
            }
            _ => Ok(Stop::default()),
        }
    }

    /// That nothing is left.
    pub(crate) fn end(self) -> Read<()> {
        if self.rest.is_empty() {
            return Ok(());
        }
        Err(LineFault::NotALine)
    }
}
