//! The player of the pipe's rows. It promises nothing: what its helpers need is tested where they run.
use crate::stop::stop;
use blocking_core::pipe::{
    Answered, CopyStore, Drained, Fetched, Filled, LendingMemory, LendingStore, Peeked, Pipe, Put,
    Received, Room, Sending,
};
use blocking_core::pool::{Job, JobNo, JobStep, Pool, StartRefused, Starter, WakeNote};
use std::alloc::{AllocGlobal, Global};
use std::process::Abort;

// How many items a peek or a drain asks for at most, and for how many bytes the pieces of the job and of the owner have memory at first.
pub(super) const PIECE: usize = 7;

// For how many bytes the hand has memory at first. Pieces are told apart by that.
pub(super) const HAND: usize = 4;

// What stands in a piece before a peek or a drain.
const BLANK: u8 = b'.';

/// One call of a pipe. The job is named by its serial, and the owner's waker is a number. Bytes follow one another: they are named
/// by the first and by how many they are.
#[derive(Clone, Copy)]
pub(super) enum Step {
    /// The job puts bytes.
    Put(u8, usize),
    /// The job puts a piece.
    PutPiece(u8, usize),
    /// The job looks for room.
    Room(u64),
    /// The job sends a byte.
    Send(u64, u8),
    /// The job looks at so many bytes.
    Peek(u64, usize),
    /// The job lets so many bytes go.
    Consume(usize),
    /// The job is lent so many bytes at most.
    Lend(u64, usize),
    /// The job lets so many bytes go, of those that it was lent and then of those inside.
    LetGo(usize),
    CloseJob,
    /// The owner drains so many bytes.
    Drain(u8, usize),
    /// The owner fills bytes in.
    Fill(u8, u8, usize),
    /// The owner fills bytes in of which a copy stands ready.
    FillReady(u8, u8, usize),
    /// The owner takes a byte.
    Receive(u8),
    /// The owner is lent so many bytes at most.
    Fetch(u8, usize),
    /// The owner lets so many bytes go of those that it was lent.
    LetGoFetched(usize),
    CloseOwner,
    /// The owner leaves its seat.
    Unseat,
    /// How many bytes are inside?
    Len,
    /// How many more fit?
    Free,
    /// How many are lent?
    Lent,
    /// For how many bytes has the owner's ready piece memory?
    ReadyMemory,
    /// For how many has what the last loan stands in?
    HandMemory,
}

/// What a call shows.
#[derive(Clone, Copy, PartialEq, Eq)]
pub(super) enum Shown {
    /// All bytes are inside, and this waker is due.
    In(Option<u8>),
    /// Nothing was taken, since the owner is gone.
    Lost,
    /// What a look for room finds.
    Found(Room),
    /// The job is seated, and the byte came back.
    Parked(u8),
    /// The owner is gone, and the byte came back.
    Shut(u8),
    /// A peek finds these bytes, and only these stand in the piece after it.
    Sees(u8, usize),
    /// A peek finds no bytes, and nothing stands in the piece after it.
    SeesNone(Peeked),
    /// This waker left the seat, and is due.
    Waker(Option<u8>),
    /// These bytes alone stand in the piece; the serial of the job that is due, and the waker that is left over.
    Got(u8, usize, Option<u64>, Option<u8>),
    /// So many bytes went in; the serial and the waker likewise.
    Took(usize, Option<u64>, Option<u8>),
    /// This byte; the serial and the waker likewise.
    Item(u8, Option<u64>, Option<u8>),
    /// There is nothing to wait for, and this waker is left over.
    Over(Option<u8>),
    /// The owner is seated, and this waker is left over.
    Waits(Option<u8>),
    /// The serial of the job that is due.
    Due(Option<u64>),
    /// So many.
    Are(usize),
    /// The row names a job that isn't there, or more bytes than the call or a piece has room for; or other bytes stand in the piece.
    Misplaced,
}

/// A step, and what it has to show.
pub(super) type Line = (Step, Shown);

/// The same, with how many bytes are lent then, how many more the pipe holds, and for how many the job's own piece has memory.
pub(super) type CountedLine = (Step, Shown, usize, usize, usize);

/// A row of a pipe that lends pieces of so many bytes.
#[derive(Clone, Copy)]
pub(super) struct PieceRow {
    pub(super) name: &'static str,
    pub(super) capacity: usize,
    pub(super) whole: usize,
    pub(super) steps: &'static [CountedLine],
}

/// A row of a pipe.
#[derive(Clone, Copy)]
pub(super) struct Row {
    pub(super) name: &'static str,
    pub(super) capacity: usize,
    pub(super) steps: &'static [Line],
}

// A job that does nothing.
#[derive(Drop)]
struct Idle;

impl Job for Idle {
    ghost may_answer = { λ _ _. Unit {0} };

    fn step(&mut self, _me: JobNo) -> JobStep {
        JobStep::Done
    }

    fn abandoned(&self) -> bool {
        false
    }
}

// Starts every worker.
#[derive(Drop)]
struct Starts;

impl Starter for Starts {
    ghost refusals = { λ _. 0 };

    ghost may_answer = { λ _ _ _. Unit {0} };

    fn start(&mut self, _number: u64) -> Result<(), StartRefused> {
        Ok(())
    }
}

/// A pipe over a store, and a pool whose jobs use it: their notes are spent there.
pub(super) struct Bench<S: CopyStore<u8>> {
    pub(super) pipe: Pipe<u8, u8, S>,
    // What the job puts a piece from, what it was lent, and what stands ready of the owner.
    piece: Vec<u8>,
    hand: Vec<u8>,
    ready: Vec<u8>,
    pool: Pool<Idle>,
    jobs: Vec<JobNo>,
}

// By hand, since a derived drop is proved anew wherever a bench goes.
impl<S: CopyStore<u8>> Drop for Bench<S> {
    fn drop(self) {
        let Bench {
            pipe: _pipe,
            piece: _piece,
            hand: _hand,
            ready: _ready,
            pool: _pool,
            jobs: _jobs,
        } = self;
    }
}

// A pool of six jobs, and their numbers.
fn pool_and_jobs(alloc: Global) -> Option<(Pool<Idle>, Vec<JobNo>)> {
    let mut pool = Pool::new(alloc, None);
    let jobs = add_six(&mut pool, alloc)?;
    Some((pool, jobs))
}

fn add_six(pool: &mut Pool<Idle>, alloc: Global) -> Option<Vec<JobNo>> {
    let mut jobs = Vec::new(alloc);
    for _ in 0..6 {
        jobs.push(pool.add(Idle, &mut Starts).ok()?).ok()?;
    }
    Some(jobs)
}

/// Plays rows of pipes that lend pieces, each from its beginning on, and tells where one shows something else.
pub(super) fn play_pieces<R: AllocGlobal + Abort>(rt: &R, rows: &[PieceRow]) {
    for row in rows {
        let Some(mut bench) = lending(rt.alloc(), row.capacity, row.whole) else {
            stop(rt, row.name, row.steps.len())
        };
        for (line, (step, shown, lent, room, memory)) in row.steps.iter().enumerate() {
            let is = bench.take_step(*step);
            let counts = (bench.pipe.lent(), bench.pipe.room(), bench.piece.capacity());
            if is != *shown || counts != (*lent, *room, *memory) {
                stop(rt, row.name, line);
            }
        }
    }
}

/// A bench of a pipe that lends pieces of so many bytes.
pub(super) fn lending(alloc: Global, capacity: usize, whole: usize) -> Option<Bench<LendingStore>> {
    if capacity == 0 || whole == 0 {
        return None;
    }
    Bench::over(
        alloc,
        Pipe::over(LendingMemory::with_piece(alloc, capacity, whole).ok()?),
    )
}

/// Plays rows over a store, each from its beginning on, and tells where one shows something else.
pub(super) fn play_over<S: CopyStore<u8>, R: AllocGlobal + Abort>(rt: &R, rows: &[Row]) {
    for row in rows {
        let Some(mut bench) = Bench::<S>::new(rt.alloc(), row.capacity) else {
            stop(rt, row.name, row.steps.len())
        };
        if let Some(line) = bench.first_wrong(row.steps) {
            stop(rt, row.name, line);
        }
    }
}

// A piece in which these bytes stand, if it has room for them.
fn piece_of(first: u8, count: usize) -> [u8; PIECE] {
    let mut piece = [BLANK; PIECE];
    let mut byte = first;
    for place in 0..count.min(PIECE) {
        piece[place] = byte;
        byte = byte.wrapping_add(1);
    }
    piece
}

impl<S: CopyStore<u8>> Bench<S> {
    pub(super) fn new(alloc: Global, capacity: usize) -> Option<Bench<S>> {
        if capacity == 0 {
            return None;
        }
        Bench::over(alloc, Pipe::new(alloc, capacity).ok()?)
    }

    /// A bench of this pipe.
    pub(super) fn over(alloc: Global, pipe: Pipe<u8, u8, S>) -> Option<Bench<S>> {
        let piece = Vec::with_capacity(alloc, PIECE).ok()?;
        let hand = Vec::with_capacity(alloc, HAND).ok()?;
        let ready = Vec::with_capacity(alloc, PIECE).ok()?;
        let (pool, jobs) = pool_and_jobs(alloc)?;
        Some(Bench {
            pipe,
            piece,
            hand,
            ready,
            pool,
            jobs,
        })
    }

    /// Takes the steps of these lines, and answers the place of the first that shows something else than stands beside it.
    pub(super) fn first_wrong(&mut self, lines: &[Line]) -> Option<usize> {
        for (place, (step, shown)) in lines.iter().enumerate() {
            if self.take_step(*step) != *shown {
                return Some(place);
            }
        }
        None
    }

    /// What a step shows.
    pub(super) fn take_step(&mut self, step: Step) -> Shown {
        match step {
            Step::Put(first, count) => self.put(first, count),
            Step::PutPiece(first, count) => self.put_piece(first, count),
            Step::Room(job) => self.room(job),
            Step::Send(job, byte) => self.send(job, byte),
            Step::Peek(job, count) => self.peek(job, count),
            Step::Consume(count) => self.consume(count),
            Step::Lend(job, most) => self.lend(job, most),
            Step::LetGo(count) => self.let_go(count),
            Step::CloseJob => Shown::Waker(self.pipe.close_job()),
            Step::Drain(waker, count) => self.drain(waker, count),
            Step::Fill(waker, first, count) => self.fill(waker, first, count),
            Step::FillReady(waker, first, count) => self.fill_ready(waker, first, count),
            Step::Receive(waker) => self.receive(waker),
            Step::Fetch(waker, most) => self.fetch(waker, most),
            Step::LetGoFetched(count) => self.let_go_fetched(count),
            Step::CloseOwner => {
                let note = self.pipe.close_owner();
                Shown::Due(self.spend(note))
            }
            Step::Unseat => Shown::Waker(self.pipe.unseat_owner()),
            Step::Len => Shown::Are(self.pipe.len()),
            Step::Free => Shown::Are(self.pipe.room()),
            Step::Lent => Shown::Are(self.pipe.lent()),
            Step::ReadyMemory => Shown::Are(self.ready.capacity()),
            Step::HandMemory => Shown::Are(self.hand.capacity()),
        }
    }

    /// The number of the job of this serial.
    pub(super) fn job(&self, serial: u64) -> Option<JobNo> {
        for no in self.jobs.iter() {
            if no.serial() == serial {
                return Some(*no);
            }
        }
        None
    }

    /// Spends a note, and tells the serial of its job.
    pub(super) fn spend(&mut self, note: Option<WakeNote>) -> Option<u64> {
        let note = note?;
        let serial = note.job().serial();
        self.pool.wake(note, &mut Starts);
        Some(serial)
    }

    fn room(&mut self, job: u64) -> Shown {
        match self.job(job) {
            Some(no) => Shown::Found(self.pipe.room_or_seat(no)),
            None => Shown::Misplaced,
        }
    }

    fn put(&mut self, first: u8, count: usize) -> Shown {
        if count > PIECE || count > self.pipe.room() {
            return Shown::Misplaced;
        }
        match self.pipe.put(&piece_of(first, count)[..count]) {
            Put::In(waker) => Shown::In(waker),
            Put::Lost => Shown::Lost,
        }
    }

    fn put_piece(&mut self, first: u8, count: usize) -> Shown {
        if count > PIECE || count > self.pipe.room() || self.piece.resize(count, BLANK).is_err() {
            return Shown::Misplaced;
        }
        self.piece.copy_from_slice(&piece_of(first, count)[..count]);
        match self.pipe.put_piece(&mut self.piece, count) {
            Put::In(waker) => Shown::In(waker),
            Put::Lost => Shown::Lost,
        }
    }

    fn send(&mut self, job: u64, byte: u8) -> Shown {
        let Some(no) = self.job(job) else {
            return Shown::Misplaced;
        };
        match self.pipe.send(no, byte) {
            Sending::Sent(waker) => Shown::In(waker),
            Sending::Parked(byte) => Shown::Parked(byte),
            Sending::Shut(byte) => Shown::Shut(byte),
        }
    }

    fn peek(&mut self, job: u64, count: usize) -> Shown {
        let Some(no) = self.job(job) else {
            return Shown::Misplaced;
        };
        if count == 0 || count > PIECE {
            return Shown::Misplaced;
        }
        let mut piece = [BLANK; PIECE];
        let peeked = self.pipe.peek_or_seat(no, &mut piece[..count]);
        let (inside, shown) = match peeked {
            Peeked::Some(inside) => (inside, Shown::Sees(piece[0], inside)),
            Peeked::Parked | Peeked::Drained => (0, Shown::SeesNone(peeked)),
        };
        if piece != piece_of(piece[0], inside) {
            return Shown::Misplaced;
        }
        shown
    }

    fn consume(&mut self, count: usize) -> Shown {
        if count > self.pipe.len() {
            return Shown::Misplaced;
        }
        Shown::Waker(self.pipe.consume(count))
    }

    // The first of so many bytes in hand, if they follow one another.
    fn first_in_hand(&self, count: usize) -> Option<u8> {
        if count > PIECE {
            return None;
        }
        let first = self.hand.first().copied()?;
        if self.hand[..] == piece_of(first, count)[..count] {
            return Some(first);
        }
        None
    }

    fn lend(&mut self, job: u64, most: usize) -> Shown {
        let Some(no) = self.job(job) else {
            return Shown::Misplaced;
        };
        // (what came back for it may have less memory)
        self.hand.clear();
        if most == 0 || most > PIECE || self.hand.reserve(most).is_err() {
            return Shown::Misplaced;
        }
        let lent = self.pipe.lend_or_seat(no, most, &mut self.hand);
        match lent {
            Peeked::Some(count) => match self.first_in_hand(count) {
                Some(first) => Shown::Sees(first, count),
                None => Shown::Misplaced,
            },
            Peeked::Parked | Peeked::Drained => Shown::SeesNone(lent),
        }
    }

    fn fetch(&mut self, waker: u8, most: usize) -> Shown {
        // (what came back for it may have less memory)
        self.hand.clear();
        if most == 0 || most > PIECE || self.hand.reserve(most).is_err() {
            return Shown::Misplaced;
        }
        let Answered { answer, spare } = self.pipe.fetch_or_seat(waker, most, &mut self.hand);
        match answer {
            Fetched::Got(count) => match self.first_in_hand(count) {
                Some(first) => Shown::Got(first, count, None, spare),
                None => Shown::Misplaced,
            },
            Fetched::Ended => Shown::Over(spare),
            Fetched::Waits(_) => Shown::Waits(spare),
        }
    }

    fn let_go_fetched(&mut self, count: usize) -> Shown {
        if count > self.pipe.lent() {
            return Shown::Misplaced;
        }
        let note = self.pipe.let_go_fetched(count);
        Shown::Due(self.spend(note))
    }

    fn let_go(&mut self, count: usize) -> Shown {
        let of_inside = count.saturating_sub(self.pipe.lent());
        if of_inside > self.pipe.len() {
            return Shown::Misplaced;
        }
        Shown::Waker(self.pipe.let_go(count))
    }

    fn drain(&mut self, waker: u8, count: usize) -> Shown {
        if count == 0 || count > PIECE {
            return Shown::Misplaced;
        }
        let mut piece = [BLANK; PIECE];
        let Answered { answer, spare } = self.pipe.drain_or_seat(waker, &mut piece[..count]);
        match answer {
            Drained::Got(count, note) => {
                let due = self.spend(note);
                if piece != piece_of(piece[0], count) {
                    return Shown::Misplaced;
                }
                Shown::Got(piece[0], count, due, spare)
            }
            Drained::Ended => Shown::Over(spare),
            Drained::Waits(_) => Shown::Waits(spare),
        }
    }

    fn fill(&mut self, waker: u8, first: u8, count: usize) -> Shown {
        if count == 0 || count > PIECE {
            return Shown::Misplaced;
        }
        let piece = piece_of(first, count);
        let Answered { answer, spare } = self.pipe.fill_or_seat(waker, &piece[..count]);
        self.filled(answer, spare)
    }

    fn fill_ready(&mut self, waker: u8, first: u8, count: usize) -> Shown {
        if count == 0 || count > PIECE {
            return Shown::Misplaced;
        }
        let piece = piece_of(first, count);
        self.ready.clear();
        if self.ready.extend_from_slice(&piece[..count]).is_err() {
            return Shown::Misplaced;
        }
        let Answered { answer, spare } = self
            .pipe
            .fill_ready_or_seat(waker, &piece[..count], &mut self.ready);
        self.filled(answer, spare)
    }

    fn filled(&mut self, answer: Filled, spare: Option<u8>) -> Shown {
        match answer {
            Filled::Took(count, note) => Shown::Took(count, self.spend(note), spare),
            Filled::Shut => Shown::Over(spare),
            Filled::Waits(_) => Shown::Waits(spare),
        }
    }

    fn receive(&mut self, waker: u8) -> Shown {
        let Answered { answer, spare } = self.pipe.receive_or_seat(waker);
        match answer {
            Received::Got(byte, note) => Shown::Item(byte, self.spend(note), spare),
            Received::Ended => Shown::Over(spare),
            Received::Waits(_) => Shown::Waits(spare),
        }
    }
}
