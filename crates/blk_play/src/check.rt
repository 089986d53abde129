//! What an observer can see of any script: bytes in order and once, ends and flushes that mean all, faults that are told once.
use crate::stage::{Ask, Reply, Why};
use crate::track::{Track, low};
use std::alloc::{AllocError, Global};
use std::ops::Range;
use std::sync::Arc;
use std::sync::atomic::Ordering;

/// A law that was broken.
pub(crate) type Breach = &'static str;

/// How many bytes of what an owner accepted are kept to compare. (Their room is there from the start.)
const KEPT: usize = 4_096;

/// How many faults that were told are kept.
const TOLD: usize = 256;

/// What goes on as long as an owner is asked for nothing else.
#[derive(Clone, Copy, PartialEq, Eq)]
pub(crate) enum Session {
    Reads,
    Items,
    Other,
}

/// The session that a call is of.
pub(crate) fn session_of(ask: &Ask) -> Session {
    match ask {
        Ask::Read(_) => Session::Reads,
        Ask::Next => Session::Items,
        _ => Session::Other,
    }
}

/// What an owner was told, held against what its handle did.
#[derive(Drop)]
pub(crate) struct Observer {
    pub track: Arc<Track>,
    // The place in what the handle gave of what the owner gets next.
    next: usize,
    // What the owner's writes took, as far as it is kept, and how much that was.
    accepted: Vec<u8>,
    count: usize,
    // Where the session under way began: in what was accepted, and in what the handle took.
    began: usize,
    began_at: usize,
    // How much of what the handle took was compared.
    compared: usize,
    // What was accepted since the last fault that was told begins here.
    since_fault: usize,
    told: Vec<i32>,
    session: Session,
    // A session was stopped, so what was read ahead is lost: what comes next stands further on in what the handle gave.
    is_stopped: bool,
    // A future was left halfway, so nobody knows how much it took until the handle is back.
    is_unsure: bool,
}

impl Observer {
    pub(crate) fn new(alloc: Global, track: Arc<Track>) -> Result<Observer, AllocError> {
        Ok(Observer {
            track,
            next: 0,
            accepted: Vec::with_capacity(alloc, KEPT)?,
            count: 0,
            began: 0,
            began_at: 0,
            compared: 0,
            since_fault: 0,
            told: Vec::with_capacity(alloc, TOLD)?,
            session: Session::Other,
            is_stopped: false,
            is_unsure: false,
        })
    }

    /// Before a poll of this session, which finds the handle with its owner or not.
    pub(crate) fn looks(&mut self, session: Session, is_idle: bool) -> Option<Breach> {
        let breach = if is_idle {
            self.begins()
        } else {
            self.is_stopped = self.is_stopped || session != self.session;
            self.compares()
        };
        self.session = session;
        breach
    }

    // Where the handle is with its owner: what was read ahead before is lost, and sessions begin anew.
    fn begins(&mut self) -> Option<Breach> {
        let breach = self.compares();
        // (The fault of a session that is stopped for the handle isn't told.)
        if self.is_unsure {
            self.since_fault = self.count;
            self.is_unsure = false;
        }
        self.next = self.track.gave.len();
        self.is_stopped = false;
        self.began = self.count;
        self.began_at = self.track.took.len();
        self.compared = self.began_at;
        breach
    }

    /// Whether what the handle took is a first part of what was accepted in its session.
    fn compares(&mut self) -> Option<Breach> {
        let took = self.track.took.len();
        // (A fault that wasn't told dropped the rest of its session.)
        self.is_unsure = self.is_unsure || self.told.len() != self.track.faults.len();
        if self.is_unsure {
            self.compared = took;
        }
        let (place, count) = (self.compared, took.saturating_sub(self.compared));
        let wanted = self
            .began
            .saturating_add(place.saturating_sub(self.began_at));
        self.compared = took;
        if count > 0 && wanted.saturating_add(count) > self.count {
            return Some("the handle took more than was accepted");
        }
        if !self.are_taken(wanted, place, count) {
            return Some("the handle took another byte than was accepted");
        }
        None
    }

    // Compares accepted bytes with taken ones, each from a place on. Bytes that weren't kept count as equal.
    fn are_taken(&self, accepted: usize, taken: usize, count: usize) -> bool {
        let kept = self.accepted.get(accepted..).unwrap_or(&[]);
        let mut place = taken;
        kept.iter().take(count).all(|byte| {
            let taken = self.track.took.get(place);
            place = place.saturating_add(1);
            taken.is_none() || taken == Some(u32::from(*byte))
        })
    }

    /// Bytes that the owner got, in order.
    pub(crate) fn got(&mut self, bytes: &[u8]) -> Option<Breach> {
        self.goes_on_at(bytes);
        let logged = self.track.gave.room_from(self.next).min(bytes.len());
        for byte in bytes.iter().take(logged) {
            let breach = self.got_one(u64::from(*byte));
            if breach.is_some() {
                return breach;
            }
        }
        self.got_more(bytes.len().saturating_sub(logged))
    }

    // Counts bytes that the log has no room for.
    fn got_more(&mut self, count: usize) -> Option<Breach> {
        if self.is_unsure {
            return None;
        }
        self.next = self.next.saturating_add(count);
        (self.next > self.track.gave.len()).then_some("the owner got what its handle didn't give")
    }

    // Where a stopped session may go on: behind what was got, and behind what the handle gave to earlier sessions.
    fn places_behind(&self) -> Range<usize> {
        let turned_at = self.track.turned_at.load(Ordering::SeqCst);
        self.next.max(turned_at)..self.track.gave.len()
    }

    // A stopped session goes on at this place. Once the log is full, nobody knows where.
    fn goes_on(&mut self, found: Option<usize>) {
        self.next = found.unwrap_or(self.next);
        self.is_stopped = false;
        self.is_unsure = self.is_unsure || self.track.gave.is_full();
    }

    // Finds the first place of these bytes behind a session that was stopped.
    fn goes_on_at(&mut self, bytes: &[u8]) {
        if self.is_stopped && !bytes.is_empty() {
            let is_there = |from: &usize| {
                let mut place = *from;
                bytes.iter().all(|byte| {
                    let is_so = self.track.gave.get(place) == Some(u32::from(*byte));
                    place = place.saturating_add(1);
                    is_so
                })
            };
            let found = self.places_behind().find(is_there);
            self.goes_on(found);
        }
    }

    fn got_item(&mut self, item: u64) -> Option<Breach> {
        if self.is_stopped {
            let is_there = |place: &usize| self.track.gave.get(*place) == Some(low(item));
            let found = self.places_behind().find(is_there);
            self.goes_on(found);
        }
        self.got_one(item)
    }

    fn got_one(&mut self, item: u64) -> Option<Breach> {
        if self.is_unsure {
            return None;
        }
        let place = self.next;
        self.next = place.saturating_add(1);
        if place >= self.track.gave.len() {
            return Some("the owner got what its handle didn't give");
        }
        match self.track.gave.get(place) {
            Some(gave) if gave != low(item) => Some("the owner got another than its handle gave"),
            _ => None,
        }
    }

    fn ended(&self) -> Option<Breach> {
        if !self.is_unsure && !self.is_stopped && self.next != self.track.gave.len() {
            return Some("an end was told before all was got");
        }
        None
    }

    /// Bytes that a write took.
    pub(crate) fn wrote(&mut self, bytes: &[u8]) {
        let kept = KEPT.saturating_sub(self.accepted.len());
        for byte in bytes.iter().take(kept) {
            let _ = self.accepted.push(*byte);
        }
        self.count = self.count.saturating_add(bytes.len());
    }

    // A flush that went well means all since the last fault that was told: these are the last that the handle took.
    fn flushed(&mut self) -> Option<Breach> {
        let all = self.count.saturating_sub(self.since_fault);
        let took = self.track.took.len();
        if self.is_unsure {
            return None;
        }
        let Some(from) = took.checked_sub(all) else {
            return Some("a flush was told before all was written");
        };
        if !self.are_taken(self.since_fault, from, all) {
            return Some("a flush was told and other bytes were written");
        }
        None
    }

    /// A future was dropped halfway.
    pub(crate) fn is_left(&mut self) {
        self.is_unsure = true;
    }

    /// A call failed, and with it the rest of what was to be written.
    pub(crate) fn loses(&mut self) {
        self.since_fault = self.count;
    }

    /// A fault was told.
    pub(crate) fn failed(&mut self, why: Why) -> Option<Breach> {
        let Why::System(number) = why else {
            return None;
        };
        if self.told.len() < TOLD {
            let _ = self.told.push(number);
        }
        let told = self.told.iter().filter(|it| **it == number).count();
        let given = (0..self.track.faults.len())
            .filter(|place| self.track.faults.get(*place) == Some(number.unsigned_abs()))
            .count();
        if told > given {
            return Some("a fault was told more than once");
        }
        None
    }

    /// What a call was answered. What was read is at the buffer's front.
    pub(crate) fn answered(&mut self, ask: &Ask, reply: Reply, room: &[u8]) -> Option<Breach> {
        match (ask, reply) {
            (Ask::Read(wanted), Reply::Read(0)) if *wanted > 0 => self.ended(),
            (_, Reply::Read(count)) => self.got(room.get(..count).unwrap_or(&[])),
            (_, Reply::Item(item)) => self.got_item(item),
            (_, Reply::NoMore) => self.ended(),
            (Ask::Flush | Ask::Close, Reply::Done) => self.flushed(),
            (_, Reply::Failed(why)) => {
                self.loses();
                self.failed(why)
            }
            _ => None,
        }
    }

    /// Where a copy that begins now reads on in what the handle gives; None where nobody knows.
    pub(crate) fn reads_on_at(&mut self, is_idle: bool) -> Option<usize> {
        let breach = self.looks(Session::Reads, is_idle);
        let is_sure = breach.is_none() && !self.is_unsure && !self.is_stopped;
        self.is_unsure = true;
        is_sure.then_some(self.next)
    }

    /// Where one that begins now writes on in what the handle takes; None where nobody knows.
    pub(crate) fn writes_on_at(&mut self, is_idle: bool) -> Option<usize> {
        let breach = self.looks(Session::Other, is_idle);
        let is_sure = breach.is_none() && !self.is_unsure;
        self.is_unsure = true;
        let pending = self.count.saturating_sub(self.began);
        is_sure.then_some(self.began_at.saturating_add(pending))
    }

    /// At the end, once all rests: its handle went once.
    pub(crate) fn is_over(&mut self) -> Option<Breach> {
        match self.track.gone() {
            1 => self.compares(),
            0 => Some("a handle was never dropped"),
            _ => Some("a handle was dropped twice"),
        }
    }
}
