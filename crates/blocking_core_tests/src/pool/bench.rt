//! The player of the pool's rows. It promises nothing: what its helpers need is tested where they run.
use super::step::{Count, Deed, Ending, Given, Line, Row, Shown, Step, Until, Work};
use crate::stop::stop;
use blocking_core::pool::{
    Bell, BellKind, Claim, Finish, Gone, Job, JobNo, JobStep, Pool, StartRefused, Starter, Took,
    Turn, Waited, WakeNote, WorkerPass,
};
use std::alloc::{AllocGlobal, Global};
use std::mem;
use std::process::Abort;
use std::sync::Condvar;

// A worker that stands in for one that waits.
#[derive(Drop)]
struct StandIn;

impl Claim for StandIn {}

/// A job that is known by its number, and that may bear a mark.
#[derive(Clone, Copy)]
pub(super) struct Marked {
    number: u32,
    is_marked: bool,
}

impl Job for Marked {
    ghost may_answer = { λ _ _. Unit {0} };

    fn step(&mut self, _me: JobNo) -> JobStep {
        JobStep::Waiting
    }

    fn abandoned(&self) -> bool {
        self.is_marked
    }
}

/// Refuses the starts of these numbers, and keeps those that it was asked for.
#[derive(Drop)]
pub(super) struct RefusesAt {
    numbers: &'static [u64],
    refusals: u64,
    asked: Vec<u64>,
}

impl Starter for RefusesAt {
    ghost refusals = { λ s. s.refusals };

    ghost may_answer = { λ _ _ _. Unit {0} };

    fn start(&mut self, number: u64) -> Result<(), StartRefused> {
        let _ = self.asked.push(number);
        if self.numbers.contains(&number) && self.refusals < u64::MAX {
            self.refusals += 1;
            return Err(StartRefused);
        }
        Ok(())
    }
}

// What a worker has in hand.
enum Hand {
    // Nothing: it hasn't arrived, or has stopped.
    Out,
    Free(WorkerPass),
    // (no job where it was let go before the turn ended)
    Holds(Turn, Option<Marked>),
}

// What the steps of a row refer to.
#[derive(Drop)]
struct Known {
    alloc: Global,
    // the jobs that were accepted
    jobs: Vec<JobNo>,
    // how many workers have arrived
    arrived: usize,
}

/// Two pools and what belongs to them. All calls go to the first until they are switched.
pub(super) struct Bench {
    known: Known,
    pool: Pool<Marked>,
    other: Pool<Marked>,
    starter: RefusesAt,
    hands: [Hand; 4],
}

/// Plays rows, each from its beginning on, and tells where one shows something else.
pub(super) fn play<R: AllocGlobal + Abort>(rt: &R, rows: &[Row]) {
    for row in rows {
        let mut bench = Bench::new(rt.alloc(), row.pool);
        if let Some(line) = bench.first_wrong(row.begin) {
            stop(rt, row.name, line);
        }
        if let Some(line) = bench.first_wrong(row.steps) {
            stop(rt, row.name, line);
        }
        if bench.starter.asked.as_slice() != row.starts {
            stop(rt, row.name, row.steps.len());
        }
        bench.close(rt);
    }
}

// (numbers begin at 1)
fn pool_of(alloc: Global, given: Given) -> Pool<Marked> {
    Pool::with_numbers(
        alloc,
        given.setting,
        given.serial.max(1),
        given.worker.max(1),
    )
}

// A worker with a pass takes the first job that is ready.
fn taken(pool: &mut Pool<Marked>, starter: &mut RefusesAt, pass: WorkerPass) -> (Hand, Shown) {
    if pool.arriving_count() >= pool.idle_count() {
        return (Hand::Free(pass), Shown::Misplaced);
    }
    match pool.take(pass, starter) {
        Took::Run(turn, job) => (Hand::Holds(turn, Some(job)), Shown::Runs(job.number)),
        Took::Drop(turn, job) => (Hand::Holds(turn, Some(job)), Shown::Drops(job.number)),
        Took::Idle(pass) => (Hand::Free(pass), Shown::NoJob),
    }
}

// A worker with a pass has waited.
fn waited(
    pool: &mut Pool<Marked>,
    starter: &mut RefusesAt,
    pass: WorkerPass,
    until: Until,
) -> (Hand, Shown) {
    if pool.arriving_count() >= pool.idle_count() {
        return (Hand::Free(pass), Shown::Misplaced);
    }
    match pool.after_wait(pass, matches!(until, Until::TimedOut), starter) {
        Waited::Stay(pass) => (Hand::Free(pass), Shown::Stays),
        Waited::Stop => (Hand::Out, Shown::Stops),
    }
}

// A worker's turn ends. (a job that was let go can't wait, and is done)
fn ended(
    pool: &mut Pool<Marked>,
    turn: Turn,
    ending: Ending,
    job: Option<Marked>,
) -> (Hand, Shown) {
    let finish = match (ending, job) {
        (Ending::Waiting, Some(job)) => Finish::Waiting(job),
        (Ending::Dropped, _) => Finish::Dropped,
        (Ending::Done | Ending::Waiting, _) => Finish::Done,
    };
    match pool.end(turn, finish) {
        Gone::Free(pass) => (Hand::Free(pass), Shown::Free),
        Gone::Drop(turn, job) => (Hand::Holds(turn, Some(job)), Shown::Drops(job.number)),
        Gone::Stranger(turn, back) => {
            let number = match back {
                Some(job) => Some(job.number),
                None => None,
            };
            (Hand::Holds(turn, back), Shown::Stranger(number))
        }
    }
}

// Lets an empty hand go.
fn out(rt: &impl Abort, hand: Hand) {
    match hand {
        Hand::Out => {}
        Hand::Free(_pass) => stop(rt, "a hand isn't empty", 0),
        Hand::Holds(_turn, _job) => stop(rt, "a hand isn't empty", 0),
    }
}

// Lets empty hands go.
fn all_out(rt: &impl Abort, hands: [Hand; 4]) {
    let [first, second, third, fourth] = hands;
    out(rt, first);
    out(rt, second);
    out(rt, third);
    out(rt, fourth);
}

impl Bench {
    pub(super) fn new(alloc: Global, given: Given) -> Bench {
        Bench {
            known: Known {
                alloc,
                jobs: Vec::new(alloc),
                arrived: 0,
            },
            pool: pool_of(alloc, given),
            other: pool_of(alloc, given),
            starter: RefusesAt {
                numbers: given.refused,
                refusals: 0,
                asked: Vec::new(alloc),
            },
            hands: [Hand::Out, Hand::Out, Hand::Out, Hand::Out],
        }
    }

    /// Takes the steps of these lines, and answers the place of the first that shows something else than stands beside it.
    pub(super) fn first_wrong(&mut self, lines: &[Line]) -> Option<usize> {
        for (place, (step, shown)) in lines.iter().enumerate() {
            if self.take_step(*step) != *shown {
                return Some(place);
            }
        }
        None
    }

    fn take_step(&mut self, step: Step) -> Shown {
        match step {
            Step::Add(number) => self.add(0, number),
            Step::AddFor(client, number) => self.add(client, number),
            Step::Arrive => self.arrive(),
            Step::Worker(worker, work) => self.work(worker, work),
            Step::Job(job, deed) => self.meet(job, deed),
            Step::Sweep => Shown::Swept(self.pool.sweep(&mut self.starter)),
            Step::SetLimit(limit) => self.set_limit(limit),
            Step::SetClientLimit(limit) => self.set_client_limit(limit),
            Step::Ask(count) => Shown::Are(self.count(count)),
            Step::Limit => Shown::LimitIs(self.pool.limit()),
            Step::ClientLimit => Shown::LimitIs(self.pool.client_limit()),
            Step::Ring => self.ring(),
            Step::Switch => {
                mem::swap(&mut self.pool, &mut self.other);
                Shown::NoAnswer
            }
        }
    }

    fn add(&mut self, client: u32, number: u32) -> Shown {
        let job = Marked {
            number,
            is_marked: false,
        };
        match self.pool.add_for(client, job, &mut self.starter) {
            Ok(no) => match self.known.jobs.push(no) {
                Ok(()) => Shown::Accepted(no.serial()),
                Err(_) => Shown::Misplaced,
            },
            Err(refused) => Shown::Refused(refused.why, refused.back.number),
        }
    }

    fn arrive(&mut self) -> Shown {
        let Some(place) = self.hands.get_mut(self.known.arrived) else {
            return Shown::Misplaced;
        };
        if !matches!(place, Hand::Out) {
            return Shown::Misplaced;
        }
        let Some(pass) = self.pool.arrive() else {
            return Shown::Nobody;
        };
        match mem::replace(place, Hand::Free(pass)) {
            Hand::Out => {
                self.known.arrived += 1;
                Shown::Arrived(self.known.arrived)
            }
            Hand::Free(_pass) => unreachable!(),
            Hand::Holds(_turn, _job) => unreachable!(),
        }
    }

    fn work(&mut self, worker: usize, work: Work) -> Shown {
        let Some(place) = self.hands.get_mut(worker.wrapping_sub(1)) else {
            return Shown::Misplaced;
        };
        let (hand, shown) = match (work, mem::replace(place, Hand::Out)) {
            (Work::Take, Hand::Free(pass)) => taken(&mut self.pool, &mut self.starter, pass),
            (Work::Wait(until), Hand::Free(pass)) => {
                waited(&mut self.pool, &mut self.starter, pass, until)
            }
            (Work::End(ending), Hand::Holds(turn, job)) => ended(&mut self.pool, turn, ending, job),
            (Work::Mark, Hand::Holds(turn, job)) => {
                let marked = match job {
                    Some(Marked { number, .. }) => Some(Marked {
                        number,
                        is_marked: true,
                    }),
                    None => None,
                };
                (Hand::Holds(turn, marked), Shown::NoAnswer)
            }
            (_, hand) => (hand, Shown::Misplaced),
        };
        match mem::replace(place, hand) {
            Hand::Out => shown,
            Hand::Free(_pass) => unreachable!(),
            Hand::Holds(_turn, _job) => unreachable!(),
        }
    }

    fn meet(&mut self, job: usize, deed: Deed) -> Shown {
        let Some(no) = self.known.jobs.get(job.wrapping_sub(1)) else {
            return Shown::Misplaced;
        };
        let no = *no;
        match deed {
            Deed::Wake => Shown::Woke(self.pool.wake(WakeNote::new(no), &mut self.starter)),
            Deed::Cancel => Shown::Woke(self.pool.cancel(no, &mut self.starter)),
            Deed::Mark => self.change(no, None),
            Deed::Renumber(number) => self.change(no, Some(number)),
            Deed::Place => self.place(no),
        }
    }

    // Lends a job, which is changed: it gets this number, or else a mark.
    fn change(&mut self, no: JobNo, number: Option<u32>) -> Shown {
        let Some(job) = self.pool.job_mut(no) else {
            return Shown::Lent(false);
        };
        match number {
            Some(number) => job.number = number,
            None => job.is_marked = true,
        }
        Shown::Lent(true)
    }

    fn set_limit(&mut self, limit: usize) -> Shown {
        if limit == 0 {
            return Shown::Misplaced;
        }
        self.pool.set_limit(limit);
        Shown::NoAnswer
    }

    fn set_client_limit(&mut self, limit: Option<usize>) -> Shown {
        if let Some(0) = limit {
            return Shown::Misplaced;
        }
        self.pool.set_client_limit(limit);
        Shown::NoAnswer
    }

    fn count(&self, count: Count) -> usize {
        match count {
            Count::Workers => self.pool.thread_count(),
            Count::Idle => self.pool.idle_count(),
            Count::Queued => self.pool.queue_len(),
            Count::Ready => self.pool.ready_len(),
        }
    }

    fn ring(&mut self) -> Shown {
        let bell: Bell = self.pool.bell();
        let kind = bell.kind();
        match kind {
            BellKind::One => bell.heard(StandIn),
            _ => bell.ring(&Condvar::new()),
        }
        Shown::Rang(kind)
    }

    // (the place stands in the number's text alone)
    fn place(&self, no: JobNo) -> Shown {
        let Ok(text) = format!(in self.known.alloc; "{no:?}") else {
            return Shown::Misplaced;
        };
        Shown::InFirstPlace(text.as_str().starts_with("JobNo { place: 0,"))
    }

    /// Ends every turn and dismisses every worker, so that nothing is left that has to be spent.
    pub(super) fn close(mut self, rt: &impl Abort) {
        for worker in 1..=4 {
            self.dismiss(worker);
        }
        self.let_go(rt);
    }

    // (its hands are empty)
    fn let_go(self, rt: &impl Abort) {
        let Bench {
            known: _known,
            pool: _pool,
            other: _other,
            starter: _starter,
            hands,
        } = self;
        all_out(rt, hands);
    }

    // Lets a worker end its turn, and take what is queued, until it stops.
    fn dismiss(&mut self, worker: usize) {
        for _ in 0..100 {
            self.work(worker, Work::End(Ending::Done));
            if self.work(worker, Work::Wait(Until::TimedOut)) != Shown::Stays {
                return;
            }
            self.work(worker, Work::Take);
        }
    }
}
