//! What is seen of a scripted handle from outside, at any time and behind its drop.
use crate::plan::Kind;
use std::alloc::{AllocError, Global};
use std::sync::atomic::{AtomicBool, AtomicU32, AtomicU64, AtomicUsize, Ordering};

/// Numbers in the order in which they came: as many of the first as there was room for, and how many there were.
#[derive(Drop)]
pub(crate) struct Log {
    room: Vec<AtomicU32>,
    count: AtomicUsize,
}

impl Log {
    fn new(alloc: Global, room: usize) -> Result<Log, AllocError> {
        let mut list = Vec::with_capacity(alloc, room)?;
        for _ in 0..room {
            list.push(AtomicU32::new(0))?;
        }
        Ok(Log {
            room: list,
            count: AtomicUsize::new(0),
        })
    }

    /// Puts a number at a place behind all, if there is room. (One thread at a time has the handle.)
    pub(crate) fn put(&self, place: usize, number: u64) {
        if let Some(slot) = self.room.get(place) {
            slot.store(low(number), Ordering::SeqCst);
        }
    }

    /// Logs bytes from a place on, as many as there is room for.
    pub(crate) fn put_all(&self, place: usize, bytes: &[u8]) {
        let mut place = place;
        for byte in bytes.iter().take(self.room_from(place)) {
            self.put(place, u64::from(*byte));
            place = place.saturating_add(1);
        }
    }

    /// How many numbers the log has room for, from a place on.
    pub(crate) fn room_from(&self, place: usize) -> usize {
        self.room.len().saturating_sub(place)
    }

    /// Whether there is no room left.
    pub(crate) fn is_full(&self) -> bool {
        self.len() >= self.room.len()
    }

    /// Shows the numbers up to a place.
    pub(crate) fn show(&self, count: usize) {
        self.count.store(count, Ordering::SeqCst);
    }

    /// Adds one.
    pub(crate) fn add(&self, number: u64) {
        let place = self.len();
        self.put(place, number);
        self.show(place.saturating_add(1));
    }

    pub(crate) fn len(&self) -> usize {
        self.count.load(Ordering::SeqCst)
    }

    /// The number at a place; None where there was no room for it, or none came.
    pub(crate) fn get(&self, place: usize) -> Option<u32> {
        if place < self.len() {
            return Some(self.room.get(place)?.load(Ordering::SeqCst));
        }
        None
    }
}

/// The lowest 32 bits.
pub(crate) fn low(number: u64) -> u32 {
    u32::try_from(number & 0xffff_ffff).unwrap_or(0)
}

/// What a handle did.
#[derive(Drop)]
pub(crate) struct Track {
    reads: AtomicU64,
    writes: AtomicU64,
    flushes: AtomicU64,
    items: AtomicU64,
    seeks: AtomicU64,
    operations: AtomicU64,
    /// The most bytes that a read was asked for.
    pub most: AtomicUsize,
    /// How often it was dropped.
    pub gone: AtomicU64,
    /// The bytes or items that it gave.
    pub gave: Log,
    /// The bytes that it took.
    pub took: Log,
    /// The numbers of its faults.
    pub faults: Log,
    /// How much it had given when the kind of its calls last changed. What came before belongs to earlier sessions.
    pub turned_at: AtomicUsize,
    /// Whether a handle of ordered bytes took one out of order.
    pub is_out_of_order: AtomicBool,
}

// How many faults of a handle are logged.
const FAULTS: usize = 16;

impl Track {
    pub(crate) fn new(alloc: Global, logged: usize) -> Result<Track, AllocError> {
        Ok(Track {
            reads: AtomicU64::new(0),
            writes: AtomicU64::new(0),
            flushes: AtomicU64::new(0),
            items: AtomicU64::new(0),
            seeks: AtomicU64::new(0),
            operations: AtomicU64::new(0),
            most: AtomicUsize::new(0),
            gone: AtomicU64::new(0),
            gave: Log::new(alloc, logged)?,
            took: Log::new(alloc, logged)?,
            faults: Log::new(alloc, FAULTS)?,
            turned_at: AtomicUsize::new(0),
            is_out_of_order: AtomicBool::new(false),
        })
    }

    fn counter(&self, kind: Kind) -> &AtomicU64 {
        match kind {
            Kind::Read => &self.reads,
            Kind::Write => &self.writes,
            Kind::Flush => &self.flushes,
            Kind::Item => &self.items,
            Kind::Seek => &self.seeks,
            Kind::Operate => &self.operations,
        }
    }

    pub(crate) fn count_call(&self, kind: Kind) {
        self.counter(kind).fetch_add(1, Ordering::SeqCst);
    }

    /// How many calls of this kind were made.
    pub(crate) fn calls(&self, kind: Kind) -> u64 {
        self.counter(kind).load(Ordering::SeqCst)
    }

    /// How many calls were made.
    pub(crate) fn all_calls(&self) -> u64 {
        [
            Kind::Read,
            Kind::Write,
            Kind::Flush,
            Kind::Item,
            Kind::Seek,
            Kind::Operate,
        ]
        .iter()
        .fold(0u64, |sum, kind| sum.saturating_add(self.calls(*kind)))
    }

    /// How often it was dropped.
    pub(crate) fn gone(&self) -> u64 {
        self.gone.load(Ordering::SeqCst)
    }
}
