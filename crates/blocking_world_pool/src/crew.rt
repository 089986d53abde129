//! The pool's half of a world: each kind of step of the pool is one call, and answers what is seen of it.
ghost use Rattle.std.specs.Prelude.{◌≡◌, ℕ, [], true, Err, IfOk, OnErr};
ghost use Rattle.blocking_world_laws.specs.Answers.{wait_act};
ghost use Rattle.blocking_world_laws.specs.Steps.{may_limit};
ghost use Rattle.blocking_world_pool.specs.Moves.{Moves, NeverAsked, hand_after_take, job_of_take, act_of_take, hand_after_park, parked_act, hand_after_wait, is_stop, seen as what_is_seen, nothing as what_is_not};

use crate::hand::{Hand, JobInHand, TurnStage};
use crate::ticket::Ticket;
use crate::tickets::{Grown, NO_GROWTH, Parking, Tickets};
use crate::workers::Workers;
use blocking_core::pool::{JobNo, Pool, Refusal, Standing, Starter, Took, Waited, WakeNote};
use blocking_world_laws::event::WaitEnd;
use blocking_world_laws::{Act, Event, Party};
use std::alloc::{AllocError, Global};
use std::marker::Model;

/// A pool of tickets, and the workers that arrived, by their numbers from 1 on, with what each has in its hand.
///
/// A crew has to be ended by [`Crew::close`], since its workers hold what has to be spent.
pub struct Crew {
    tickets: Tickets,
    workers: Workers,
}

/// What became of a new job.
#[derive(Drop)]
pub struct Added {
    /// Its number, or why it was refused.
    pub number: Result<JobNo, Refusal>,
    /// What is seen of it.
    pub event: Event,
}

/// The job in a worker's hand, as the crew tells it.
#[derive(Clone, Copy)]
pub struct InHand {
    /// Its number.
    pub number: JobNo,
    /// Where it is in its turn.
    pub stage: TurnStage,
}

// Contracts see the pool and the hands.
impl Model for Crew {
    ghost use Rattle.blocking_world_pool.specs.Crews.{Crew as Seen, crew_code, IsReady};

    ghost Value = { Seen };

    ghost coded = { crew_code };

    ghost view = { λ c. record { pool = c.tickets; hands = c.workers } };

    ghost invariant = { λ c. IsReady (record { pool = c.tickets; hands = c.workers }) };
}

impl Crew {
    ghost use Rattle.blocking_pool.specs.PoolAnswers.{pool_of};
    ghost use Rattle.blocking_world_pool.specs.Closing.{RefusesAll};
    ghost use Rattle.blocking_world_pool.specs.Crews.{IsReady, hand_at, in_hand_of};
    ghost use Rattle.blocking_world_pool.specs.Moves.{Add, Arrive, Take, Work, End, Park, Wait, SetLimit, SetClientLimit, Sweep, Wake, Cancel, LetGo, Tell, next_start, is_aside};
    ghost use Rattle.blocking_world_laws.specs.Jobs.{lets_go};
    ghost use Rattle.blocking_world_laws.specs.declared.event.Act.TheVariants.{NoAction};

    /// A crew of this setting, with no job and no worker. Jobs, workers and starts are numbered from 1. Takes no memory.
    pub fn new(alloc: Global, setting: Option<&str>) -> Crew
        ensures { result ≡ record { pool = pool_of setting.entry 1 1; hands = [] } }
    {
        Crew {
            tickets: Tickets::new(alloc, setting),
            workers: Workers::new(alloc),
        }
    }

    /// A new job of this client, which this party brings, enters the queue, and the pool grows. Or it is refused, and the queue and the
    /// jobs are as before.
    pub fn add<S: Starter>(&mut self, party: Party, client: u32, starter: &mut S) -> Added
        ensures { Moves (S.may_answer starter.old)
            (Add party client result.number) self.old result.event self.new }
    {
        let first = self.next_start();
        let (number, growth) = self.tickets.add(client, starter);
        let act = match number {
            Ok(number) => Act::Accepted(number.serial()),
            Err(why) => Act::Refused(why),
        };
        let event = seen(party, None, act, first, growth);
        Added { number, event }
    }

    /// A new job, which this party brings, is refused, since there was no memory for what it needs in addition to its place in the pool.
    /// Where the numbers are used up it is refused for its number. Nothing changes: why, and what is seen of it, whoever its client is.
    pub fn refuse(&self, party: Party) -> (Refusal, Event)
        ensures { (client : ℕ) →
            Moves NeverAsked (Add party client (Err result.0)) self.now result.1 self.now }
    {
        let first = self.next_start();
        let why = self.tickets.refuse();
        let event = seen(party, None, Act::Refused(why), first, NO_GROWTH);
        (why, event)
    }

    /// A started worker arrives, and gets the next number. Where there is no room for its hand, the crew is as before.
    pub fn arrive(&mut self) -> Result<Event, AllocError>
        ensures ok { IfOk result (λ event. Moves NeverAsked Arrive self.old event self.new) }
        ensures err { OnErr result (self.new ≡ self.old) }
    {
        let first = self.next_start();
        let Some(worker) = self.workers.arrive(&mut self.tickets)? else {
            return Ok(nothing(Party::Pool, first));
        };
        let party = Party::Worker(worker);
        Ok(seen(party, None, Act::Arrived(worker), first, NO_GROWTH))
    }

    /// An idle worker takes the first ready job, to run it or to drop it, and the pool grows by those that are ready then. Or no job is
    /// ready.
    pub fn take<S: Starter>(&mut self, worker: usize, starter: &mut S) -> Event
        ensures { Moves (S.may_answer starter.old) (Take worker) self.old result self.new }
    {
        let first = self.next_start();
        let party = Party::Worker(worker);
        let Some(pass) = self.workers.take_pass(worker) else {
            return nothing(party, first);
        };
        let (took, growth) = self.tickets.take(pass, starter);
        let (hand, job, act) = received(took);
        self.workers.put(worker, hand);
        seen(party, job, act, first, growth)
    }

    /// The job in a worker's hand acts so, where its turn allows it.
    pub fn work(&mut self, worker: usize, act: Act) -> Event
        ensures { Moves NeverAsked (Work worker act) self.old result self.new }
    {
        let first = self.next_start();
        let party = Party::Worker(worker);
        let Some(serial) = self.workers.work(worker, &act) else {
            return nothing(party, first);
        };
        seen(party, Some(serial), act, first, NO_GROWTH)
    }

    /// The turn of a worker's job ends, and its job with it: it is done where it ran, and dropped where it gave up. A job that waits, or that
    /// has yet to give up or to call a waker, stays in its turn.
    pub fn end(&mut self, worker: usize) -> Event
        ensures { Moves NeverAsked (End worker) self.old result self.new }
    {
        let first = self.next_start();
        let party = Party::Worker(worker);
        let Some(held) = self.workers.take_ended(worker) else {
            return nothing(party, first);
        };
        let JobInHand { turn, stage } = held;
        let serial = turn.job().serial();
        let outcome = stage.outcome();
        let pass = self.tickets.end(turn, outcome);
        self.workers.put(worker, Hand::Free(pass));
        let act = Act::Ended(serial, outcome.standing());
        seen(party, Some(serial), act, first, NO_GROWTH)
    }

    /// The turn of a worker's job that waits ends, and this is the job's ticket from now on. It parks, or is queued again where a wake met
    /// it, or it is handed out to be dropped, and its turn goes on until then. The pool doesn't grow.
    pub fn park(&mut self, worker: usize, ticket: Ticket) -> Event
        ensures { Moves NeverAsked (Park worker ticket) self.old result self.new }
    {
        let first = self.next_start();
        let party = Party::Worker(worker);
        let Some(held) = self.workers.take_waiting(worker) else {
            return nothing(party, first);
        };
        let JobInHand { turn, stage: _ } = held;
        let serial = turn.job().serial();
        let (hand, act) = parked(self.tickets.park(turn, ticket), serial);
        self.workers.put(worker, hand);
        seen(party, Some(serial), act, first, NO_GROWTH)
    }

    /// An idle worker has waited, and its wait ended so. Where its time was up it sweeps first, and the pool grows by what is put back.
    /// Then it stays or stops.
    pub fn wait<S: Starter>(&mut self, worker: usize, end: WaitEnd, starter: &mut S) -> Event
        ensures { Moves (S.may_answer starter.old) (Wait worker end) self.old result self.new }
    {
        let first = self.next_start();
        let party = Party::Worker(worker);
        let Some(pass) = self.workers.take_pass(worker) else {
            return nothing(party, first);
        };
        let (waited, growth) = self.tickets.after_wait(pass, end.has_timed_out(), starter);
        let (hand, act) = settled(waited, worker, end);
        self.workers.put(worker, hand);
        seen(party, None, act, first, growth)
    }

    /// The limit of workers is set, unless it is 0. The pool doesn't grow.
    pub fn set_limit(&mut self, limit: usize) -> Event
        ensures { Moves NeverAsked (SetLimit limit) self.old result self.new }
    {
        let first = self.next_start();
        if limit == 0 {
            return nothing(Party::Pool, first);
        }
        self.tickets.set_limit(limit);
        seen(Party::Pool, None, Act::LimitSet(limit), first, NO_GROWTH)
    }

    /// The limit of running jobs for each client is set, unless it is 0, or taken away. The pool doesn't grow.
    pub fn set_client_limit(&mut self, limit: Option<usize>) -> Event
        ensures { Moves NeverAsked (SetClientLimit limit) self.old result self.new }
    {
        let first = self.next_start();
        if !may_limit(limit) {
            return nothing(Party::Pool, first);
        }
        self.tickets.set_client_limit(limit);
        seen(
            Party::Pool,
            None,
            Act::ClientLimitSet(limit),
            first,
            NO_GROWTH,
        )
    }

    /// The parked jobs that bear a mark are put back, in the order in which they were accepted, and the pool grows once where there are any.
    pub fn sweep<S: Starter>(&mut self, starter: &mut S) -> Event
        ensures { Moves (S.may_answer starter.old) Sweep self.old result self.new }
    {
        let first = self.next_start();
        let (count, growth) = self.tickets.sweep(starter);
        seen(Party::Pool, None, Act::Swept(count), first, growth)
    }

    /// The note of a job is spent, by this party, and wakes it. A parked job is queued again, and the pool grows; a running one is flagged;
    /// any other is as it was.
    pub fn wake<S: Starter>(&mut self, party: Party, note: WakeNote, starter: &mut S) -> Event
        ensures { Moves (S.may_answer starter.old)
            (Wake party note) self.old result self.new }
    {
        let first = self.next_start();
        let number = note.job();
        let (woke, growth) = self.tickets.wake(note, starter);
        let act = Act::JobWoken(number.serial(), woke);
        seen(party, None, act, first, growth)
    }

    /// A job is cancelled, by this party. A parked job is queued again, and the pool grows; a queued or running one is flagged; any other is
    /// as it was.
    pub fn cancel<S: Starter>(&mut self, party: Party, number: JobNo, starter: &mut S) -> Event
        ensures { Moves (S.may_answer starter.old)
            (Cancel party number) self.old result self.new }
    {
        let first = self.next_start();
        let (woke, growth) = self.tickets.cancel(number, starter);
        let act = Act::JobCancelled(number.serial(), woke);
        seen(party, None, act, first, growth)
    }

    /// By this act a party lets go of what it holds. Of the job of this number the ticket is marked, if it is queued or parked; the ticket of
    /// a running job is made anew where its run ends. No number is given by a party that holds no job which is queued or parked.
    pub fn let_go(&mut self, party: Party, act: Act, number: Option<JobNo>) -> Event
        requires { lets_go act ≡ true }
        ensures { Moves NeverAsked (LetGo party act number) self.old result self.new }
    {
        let first = self.next_start();
        self.tickets.let_go(number);
        seen(party, None, act, first, NO_GROWTH)
    }

    /// What is seen of an act of a party that is nothing to the crew.
    pub fn tell(&self, party: Party, act: Act) -> Event
        requires { is_aside act ≡ true }
        ensures { Moves NeverAsked (Tell party act) self.now result self.now }
    {
        seen(party, None, act, self.next_start(), NO_GROWTH)
    }

    /// What is seen of a step that has no action, and names this party.
    pub fn nothing(&self, party: Party) -> Event
        ensures event { result ≡ what_is_not party (next_start self.now) }
        ensures moves { Moves NeverAsked (Tell party NoAction) self.now result self.now }
    {
        nothing(party, self.next_start())
    }

    /// The number of the next start: the greatest number of 64 bits stands for every number from there on.
    pub fn next_start(&self) -> u64
        ensures { result ≡ next_start self.now }
    {
        self.tickets.next_start()
    }

    /// The job in the hand of this worker, if it has one.
    pub fn in_hand(&self, worker: usize) -> Option<InHand>
        ensures { result ≡ in_hand_of (hand_at self.now.hands worker) }
    {
        match self.workers.hand(worker)? {
            Hand::Holds(held) => Some(InHand {
                number: held.turn.job(),
                stage: held.stage,
            }),
            Hand::Out | Hand::Free(_) => None,
        }
    }

    /// The pool itself, which tells its counts.
    pub fn pool(&self) -> &Pool<Ticket>
        ensures pool { result.now ≡ self.now.pool }
        ensures ready { IsReady self.now }
    {
        self.tickets.pool()
    }

    /// Ends every turn, as done, and then lets every worker go. Each takes what is queued, whatever the client limit was, and ends it as
    /// done. Then it waits until its time is up, until it stops. No worker may be started any more. Takes no memory.
    pub fn close<S: Starter>(self, starter: &mut S)
        requires { RefusesAll (S.may_answer starter.old) }
    {
        let Crew {
            mut tickets,
            workers,
        } = self;
        workers.close(&mut tickets, starter);
    }
}

// What a worker has in hand after a take, and what is seen of it: the job, where there is one, and the act.
fn received(took: Took<Ticket>) -> (Hand, Option<u64>, Act)
    ensures hand { result.0 ≡ hand_after_take took }
    ensures job { result.1 ≡ job_of_take took }
    ensures act { result.2 ≡ act_of_take took }
{
    match took {
        Took::Idle(pass) => (Hand::Free(pass), None, Act::TookNone),
        Took::Run(turn, _ticket) => {
            let serial = turn.job().serial();
            let stage = TurnStage::Runs;
            (
                Hand::Holds(JobInHand { turn, stage }),
                Some(serial),
                Act::Took(serial),
            )
        }
        Took::Drop(turn, _ticket) => {
            let serial = turn.job().serial();
            let stage = TurnStage::MustGiveUp;
            (
                Hand::Holds(JobInHand { turn, stage }),
                Some(serial),
                Act::TookDropped(serial),
            )
        }
    }
}

// What a worker has in hand after the run of this job ended waiting, and what is seen of it.
fn parked(parking: Parking, serial: u64) -> (Hand, Act)
    ensures hand { result.0 ≡ hand_after_park parking }
    ensures act { result.1 ≡ parked_act parking serial }
{
    match parking {
        Parking::Parked(pass) => (Hand::Free(pass), Act::Ended(serial, Standing::Parked)),
        Parking::Queued(pass) => (Hand::Free(pass), Act::Ended(serial, Standing::Queued)),
        Parking::HandedOut(turn) => {
            let stage = TurnStage::MustGiveUp;
            (
                Hand::Holds(JobInHand { turn, stage }),
                Act::HandedOut(serial),
            )
        }
    }
}

// What a worker has in hand after a wait that ended so, and what is seen of it.
fn settled(waited: Waited, worker: usize, end: WaitEnd) -> (Hand, Act)
    ensures hand { result.0 ≡ hand_after_wait waited }
    ensures act { result.1 ≡ wait_act worker end (is_stop waited) }
{
    match waited {
        Waited::Stay(pass) => (Hand::Free(pass), Act::Stays(worker, end)),
        Waited::Stop => (Hand::Out, Act::Stopped(worker, end)),
    }
}

// Whether a client limit may be set so: to a number above 0, or to none.
fn may_limit(limit: Option<usize>) -> bool
    ensures { result ≡ may_limit limit }
{
    match limit {
        Some(most) => most > 0,
        None => true,
    }
}

// What is seen of a call that did something.
fn seen(party: Party, job: Option<u64>, act: Act, first: u64, growth: Grown) -> Event
    ensures { result ≡ what_is_seen party job act first growth }
{
    Event {
        party,
        owner: None,
        job,
        act,
        first,
        started: growth.started,
        start_refused: growth.refused,
    }
}

// What is seen of a call that has no action.
fn nothing(party: Party, first: u64) -> Event
    ensures { result ≡ what_is_not party first }
{
    seen(party, None, Act::NoAction, first, NO_GROWTH)
}
