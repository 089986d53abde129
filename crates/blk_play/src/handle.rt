//! What is lent: one type that is read, written, iterated, sought and operated on, and does what its plan says.
use crate::gates::Gates;
use crate::patterns::{Order, Patterns};
use crate::plan::{Answer, Kind, Plan, Source};
use crate::track::Track;
use blocking_core::task::CallOn;
use std::fmt::{Debug, Formatter};
use std::io::{ErrorKind, Read, Seek, SeekFrom, Write};
use std::sync::Arc;
use std::sync::atomic::Ordering;
use std::{fmt, io, thread};

/// The handle: a cursor on what its plan says.
pub(crate) struct Handle {
    plan: Plan,
    place: u64,
    track: Arc<Track>,
    gates: Arc<Gates>,
    patterns: Arc<Patterns>,
    // The kind of the last call.
    last: Option<Kind>,
}

// What a plan says of one call.
#[derive(Drop)]
enum Does {
    // The cursor answers, of so many bytes at most.
    Cursor(usize),
    Gives(Vec<u8>),
    Number(u64),
    Item(u64),
    NoMore,
    Fault(i32),
}

impl Handle {
    pub(crate) fn new(
        plan: Plan,
        track: Arc<Track>,
        gates: Arc<Gates>,
        patterns: Arc<Patterns>,
    ) -> Handle {
        Handle {
            plan,
            place: 0,
            track,
            gates,
            patterns,
            last: None,
        }
    }

    /// Where it is, counted from its start.
    pub(crate) fn place(&self) -> u64 {
        self.place
    }

    // Counts a call, has it stand where it is to, and says what it does.
    fn call(&mut self, kind: Kind) -> Does {
        self.track.count_call(kind);
        if self.last != Some(kind) {
            self.last = Some(kind);
            let given = self.track.gave.len();
            self.track.turned_at.store(given, Ordering::SeqCst);
        }
        for _ in 0..self.plan.yields {
            thread::yield_now();
        }
        let by = self.plan.by;
        let Some(planned) = self.plan.next_answer(kind) else {
            return Does::Cursor(by);
        };
        let stop = planned.stop;
        let does = match &planned.answer {
            Answer::AsCursor => Does::Cursor(by),
            Answer::Number(most) if kind == Kind::Operate => Does::Number(*most),
            Answer::Number(most) => Does::Cursor(by.min(usize::try_from(*most).unwrap_or(by))),
            Answer::Bytes(bytes) => match bytes.clone() {
                Ok(bytes) => Does::Gives(bytes),
                Err(_) => Does::NoMore,
            },
            Answer::Item(item) => Does::Item(*item),
            Answer::NoMore => Does::NoMore,
            Answer::Fault(number) => Does::Fault(*number),
        };
        self.gates.pass(stop);
        does
    }

    // The error of the system of this number.
    fn fails(&self, number: i32) -> io::Error {
        self.track.faults.add(u64::from(number.unsigned_abs()));
        io::Error::from_raw_os_error(number)
    }

    // What is at a place; None at the end.
    fn item_at(&self, place: u64) -> Option<u64> {
        match &self.plan.source {
            Source::Bytes(bytes) => {
                let place = usize::try_from(place).ok()?;
                Some(u64::from(*bytes.get(place)?))
            }
            Source::Cycle(count) => (place < *count).then_some(place % 251),
            Source::Count(count) => (place < *count).then_some(place),
        }
    }

    fn length(&self) -> u64 {
        match &self.plan.source {
            Source::Bytes(bytes) => bytes.len() as u64,
            Source::Cycle(count) | Source::Count(count) => *count,
        }
    }

    // A slice of the bytes from the cursor on.
    fn piece(&self, most: usize) -> &[u8] {
        let most = usize::try_from(self.length().saturating_sub(self.place))
            .unwrap_or(most)
            .min(most);
        match &self.plan.source {
            Source::Bytes(bytes) => {
                let from = usize::try_from(self.place).unwrap_or(usize::MAX);
                bytes.get(from..from.saturating_add(most)).unwrap_or(&[])
            }
            Source::Cycle(_) => self.patterns.piece(Order::Cycle, self.place, most),
            Source::Count(_) => self.patterns.piece(Order::Count, self.place, most),
        }
    }

    // Copies bytes from the cursor on into a buffer, and returns how many.
    fn give(&mut self, buf: &mut [u8], most: usize) -> usize {
        let (mut count, before) = (0usize, self.track.gave.len());
        for _ in 0..u64::MAX {
            let piece = self.piece(most.min(buf.len()).saturating_sub(count));
            let end = count.saturating_add(piece.len());
            let Some(room) = buf.get_mut(count..end) else {
                break;
            };
            if piece.is_empty() || room.len() != piece.len() {
                break;
            }
            room.copy_from_slice(piece);
            self.track.gave.put_all(before.saturating_add(count), piece);
            self.place = self.place.saturating_add(piece.len() as u64);
            count = end;
        }
        self.track.gave.show(before.saturating_add(count));
        count
    }

    // Puts one byte where the cursor is. (None where there is no memory.)
    fn put(&mut self, byte: u8) -> Option<()> {
        if let Source::Bytes(bytes) = &mut self.plan.source {
            let place = usize::try_from(self.place).ok()?;
            match bytes.get_mut(place) {
                Some(slot) => *slot = byte,
                None => bytes.push(byte).ok()?,
            }
        }
        self.place = self.place.saturating_add(1);
        Some(())
    }

    fn put_each(&mut self, bytes: &[u8]) -> usize {
        let mut count = 0usize;
        for byte in bytes.iter() {
            if self.put(*byte).is_none() {
                break;
            }
            count = count.saturating_add(1);
        }
        count
    }

    // Stores bytes at the cursor, and returns how many.
    fn put_all(&mut self, bytes: &[u8]) -> usize {
        let order = match &self.plan.source {
            Source::Bytes(_) => return self.put_each(bytes),
            Source::Cycle(_) => Order::Cycle,
            Source::Count(_) => Order::Count,
        };
        if !self.patterns.are(order, self.place, bytes) {
            self.track.is_out_of_order.store(true, Ordering::SeqCst);
        }
        self.place = self.place.saturating_add(bytes.len() as u64);
        bytes.len()
    }

    // Stores and logs bytes at the cursor, and returns how many.
    fn take(&mut self, bytes: &[u8], most: usize) -> usize {
        let bytes = bytes.get(..most).unwrap_or(bytes);
        let before = self.track.took.len();
        let count = self.put_all(bytes);
        let taken = bytes.get(..count).unwrap_or(bytes);
        self.track.took.put_all(before, taken);
        self.track.took.show(before.saturating_add(count));
        count
    }

    // Gives these bytes, as many as there is room for.
    fn give_these(&mut self, buf: &mut [u8], bytes: &[u8]) -> usize {
        let mut count = 0usize;
        for (slot, byte) in buf.iter_mut().zip(bytes.iter()) {
            *slot = *byte;
            self.track.gave.add(u64::from(*byte));
            count = count.saturating_add(1);
        }
        count
    }

    // The place so far from another, unless that is before the start or beyond the greatest.
    fn moved(from: u64, by: i64) -> io::Result<u64> {
        from.checked_add_signed(by)
            .ok_or(io::Error::from(ErrorKind::InvalidInput))
    }
}

impl Drop for Handle {
    fn drop(self) {
        let Handle {
            plan,
            place: _,
            track,
            gates,
            patterns: _,
            last: _,
        } = self;
        gates.pass(plan.dropping);
        track.gone.fetch_add(1, Ordering::SeqCst);
    }
}

impl Read for Handle {
    fn read(&mut self, buf: &mut [u8]) -> io::Result<usize> {
        self.track.most.fetch_max(buf.len(), Ordering::SeqCst);
        let count = match self.call(Kind::Read) {
            Does::Cursor(most) => self.give(buf, most),
            Does::Gives(bytes) => self.give_these(buf, bytes.as_slice()),
            Does::Fault(number) => return Err(self.fails(number)),
            Does::Number(_) | Does::Item(_) | Does::NoMore => 0,
        };
        Ok(count.min(buf.len()))
    }
}

impl Write for Handle {
    fn write(&mut self, bytes: &[u8]) -> io::Result<usize> {
        let count = match self.call(Kind::Write) {
            Does::Cursor(most) => self.take(bytes, most),
            Does::Fault(number) => return Err(self.fails(number)),
            Does::Gives(_) | Does::Number(_) | Does::Item(_) | Does::NoMore => 0,
        };
        Ok(count.min(bytes.len()))
    }

    fn flush(&mut self) -> io::Result<()> {
        match self.call(Kind::Flush) {
            Does::Fault(number) => Err(self.fails(number)),
            _ => Ok(()),
        }
    }
}

impl Iterator for Handle {
    type Item = u64;

    fn next(&mut self) -> Option<u64> {
        let item = match self.call(Kind::Item) {
            Does::Cursor(_) => {
                let item = self.item_at(self.place)?;
                self.place = self.place.saturating_add(1);
                item
            }
            Does::Item(item) => item,
            Does::Gives(_) | Does::Number(_) | Does::NoMore | Does::Fault(_) => return None,
        };
        self.track.gave.add(item);
        Some(item)
    }
}

impl Seek for Handle {
    fn seek(&mut self, to: SeekFrom) -> io::Result<u64> {
        if let Does::Fault(number) = self.call(Kind::Seek) {
            return Err(self.fails(number));
        }
        self.place = match to {
            SeekFrom::Start(place) => place,
            SeekFrom::Current(by) => Handle::moved(self.place, by)?,
            SeekFrom::End(by) => Handle::moved(self.length(), by)?,
        };
        Ok(self.place)
    }
}

impl Debug for Handle {
    fn fmt<W: fmt::Write>(&self, f: &mut Formatter<W>) -> fmt::Result {
        let place = self.place;
        write!(f, "{place}")
    }
}

/// An operation that moves the handle, and gives where it was before.
#[derive(Drop)]
pub(crate) struct Jump {
    pub to: u64,
}

impl CallOn<Handle> for Jump {
    type Out = u64;

    ghost may_give = { λ _. Unit {0} };

    fn call_on(self, handle: &mut Handle) -> u64 {
        let does = handle.call(Kind::Operate);
        let before = handle.place;
        handle.place = self.to;
        match does {
            Does::Number(number) => number,
            _ => before,
        }
    }
}
