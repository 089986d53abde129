//! The parts of a world, and the steps on them.
ghost use Rattle.std.specs.Prelude.{◌≡◌, ◌<◌, ◌++◌, ◌∷◌, [], length, vec_len, vec_capacity, IfOk, IfSome, OnErr};
ghost use Rattle.blocking_world_holders.specs.Owners.{bytes_in};

use crate::row::{Core, Row};
use blocking_core::pool::{Starter, WakeNote};
use blocking_world_holders::{Owner, OwnerNext, Task};
use blocking_world_laws::event::{Act, Event, Party, WaitEnd};
use blocking_world_laws::step::{HandleAnswer, HandleCall, Step, TaskCall};
use blocking_world_pool::{Crew, NoStarts, Ticket, TurnStage};
use std::alloc::{AllocError, Global};
use std::marker::Model;
use std::sync::ledger::Ledger;

/// A crew, what each of its jobs is for, by its serial from 1 on, and in order the tasks that own calls, and the owners who lend handles.
///
/// An owner may hold a note that has to be spent, so parts can't be let go: [`Parts::close`] takes them apart.
pub struct Parts {
    crew: Crew,
    rows: Vec<Row>,
    tasks: Vec<Task>,
    owners: Vec<Owner>,
    alloc: Global,
}

// The job in a worker's hand: the place of its row, and how far it is in its turn.
#[derive(Clone, Copy)]
struct JobAt {
    row: usize,
    stage: TurnStage,
}

impl Model for Parts {
    ghost use Rattle.blocking_world_state.specs.Parts.{Parts as Seen, parts_code};

    ghost Value = { Seen };

    ghost coded = { parts_code };

    ghost view = { λ p. record { crew = p.crew; rows = p.rows.items; tasks = p.tasks.items; owners = p.owners.items } };
}

impl Parts {
    ghost use Rattle.std.specs.Prelude.{◌&&◌, slice_get, option_map, true};
    ghost use Rattle.blocking_pool.specs.PoolAnswers.{pool_of};
    ghost use Rattle.blocking_world_pool.specs.Moves.{NeverAsked};
    ghost use Rattle.blocking_world_holders.specs.Owners.{next_of};
    ghost use Rattle.blocking_world_state.specs.Parts.{row_of, owner_of, job_at, places_of, next_at, let_go_of};
    ghost use Rattle.blocking_world_state.specs.Carried.{bytes_to_come, front_for, polls_in};
    ghost use Rattle.blocking_world_state.specs.Moves.{CopierMoves, IsNote, Moves, Steps, may_ask_in, may_call_in, rests_in, wait_step};
    ghost use Rattle.blocking_world_laws.specs.declared.event.Act.TheVariants.{Asked};
    ghost use Rattle.blocking_world_laws.specs.declared.event.Party.TheVariants.{Owner as ByOwner};
    ghost use Rattle.blocking_world_laws.specs.declared.step.Step.{Step};
    ghost use Rattle.blocking_world_holders.specs.declared.owner.OwnerNext.TheVariants as next;
    ghost use Rattle.blocking_world_laws.specs.Steps.{is_job_action};
    ghost use Rattle.blocking_world_laws.specs.declared.step.Step.TheVariants as step;

    /// The parts of a new world. Takes no memory.
    pub fn new(alloc: Global, setting: Option<&str>) -> Parts
        ensures { result ≡ record {
          crew = record { pool = pool_of setting.entry 1 1; hands = [] };
          rows = [];
          tasks = [];
          owners = [];
        } }
    {
        Parts {
            crew: Crew::new(alloc, setting),
            rows: Vec::new(alloc),
            tasks: Vec::new(alloc),
            owners: Vec::new(alloc),
            alloc,
        }
    }

    /// Takes a step, and answers what is seen of it; those of copiers have no action here. Where there is no room for
    /// what it adds to a list, or for the bytes that it tells, nothing is done. That there is none for a session is
    /// seen.
    pub fn step<S: Starter>(&mut self, step: Step, starter: &mut S) -> Result<Event, AllocError>
        ensures ok { IfOk result
            (λ e. Steps (S.may_answer starter.old) step self.old e self.new) }
        ensures err { OnErr result (self.new ≡ self.old) }
    {
        let event = self.take_step(step, starter)?;
        let owner = self.owner_of(event.job);
        Ok(Event { owner, ..event })
    }

    // Takes a step, and answers what is seen of it but for the owner.
    fn take_step<S: Starter>(&mut self, step: Step, starter: &mut S) -> Result<Event, AllocError>
        ensures ok { IfOk result
            (λ e. Moves (S.may_answer starter.old) step self.old e self.new) }
        ensures err { OnErr result (self.new ≡ self.old) }
    {
        match step {
            Step::New(capacity, client) => self.make(capacity, client),
            Step::Ask(owner, call) => self.ask(owner, call),
            Step::Own(owner) => self.own(owner, starter),
            Step::DropOwner(owner) => Ok(self.drop_owner(owner)),
            Step::Spawn(client) => self.spawn(client, starter),
            Step::OfTask(number, call) => Ok(self.of_task(number, call)),
            Step::Arrive => self.arrive(),
            Step::Take(worker) => Ok(self.take(worker, starter)),
            Step::Job(worker) => self.job(worker),
            Step::Io(worker, answer) => self.io(worker, answer),
            Step::End(worker) => Ok(self.end(worker)),
            Step::Wait(worker) => Ok(self.wait(worker, WaitEnd::Woken, starter)),
            Step::Late(worker) => Ok(self.wait(worker, WaitEnd::TimedOut, starter)),
            Step::SetLimit(limit) => Ok(self.set_limit(limit)),
            Step::SetClientLimit(limit) => Ok(self.set_client_limit(limit)),
            Step::Sweep => Ok(self.sweep(starter)),
            Step::Stray(serial) => Ok(self.stray(serial, starter)),
            Step::Strike(serial) => Ok(self.strike(serial, starter)),
            Step::Link(_reader, _writer, _piece) => Ok(self.crew.nothing(Party::Pool)),
            Step::Copy(_copier) => Ok(self.crew.nothing(Party::Pool)),
        }
    }

    // The owner of the job of an event.
    fn owner_of(&self, job: Option<u64>) -> Option<usize>
        ensures { result ≡ owner_of self.now.rows job }
    {
        let serial = job?;
        let Some(row) = self.row(serial) else {
            return None;
        };
        row.core.owner()
    }

    // An owner of this client is made, whose pipes hold so many bytes; 0 stands for the default.
    fn make(&mut self, capacity: usize, client: u32) -> Result<Event, AllocError>
        ensures ok { IfOk result
            (λ e. Moves NeverAsked (step.New capacity client) self.old e self.new) }
        ensures err { OnErr result (self.new ≡ self.old) }
    {
        self.owners.reserve(1)?;
        let place = self.owners.len();
        match self.owners.push(Owner::new(capacity, client)) {
            Ok(()) => {
                let act = Act::Made(place, capacity);
                Ok(self.crew.tell(Party::Owner(place), act))
            }
            Err(_failed) => unreachable!(),
        }
    }

    /// Whether this owner is there and rests.
    pub fn rests(&self, place: usize) -> bool
        ensures { result ≡ rests_in (slice_get self.now.owners place) }
    {
        match self.owners.get(place) {
            Some(owner) => owner.rests(),
            None => false,
        }
    }

    /// Whether this owner is there and may be asked for this.
    pub fn may_ask(&self, place: usize, call: &HandleCall) -> bool
        ensures { result ≡ may_ask_in (slice_get self.now.owners place) call.now }
    {
        match self.owners.get(place) {
            Some(owner) => owner.may_ask(call),
            None => false,
        }
    }

    // A poll of this owner begins, and asks for this. The event bears a copy of the call, whose memory is taken first.
    fn ask(&mut self, place: usize, call: HandleCall) -> Result<Event, AllocError>
        ensures ok { IfOk result (λ e. Moves NeverAsked (step.Ask place call) self.old e self.new) }
        ensures err { OnErr result (self.new ≡ self.old) }
    {
        let party = Party::Owner(place);
        if !self.may_ask(place, &call) {
            return Ok(self.crew.nothing(party));
        }
        let told = call.try_clone()?;
        self.owners[place].ask(call);
        Ok(self.crew.tell(party, Act::Asked(told)))
    }

    /// The copier of this number asks an owner that may be asked for this. Where there is no memory for the event's copy of the call, nothing is
    /// done.
    pub fn ask_for(
        &mut self,
        copier: usize,
        place: usize,
        call: HandleCall,
    ) -> Result<Event, AllocError>
        requires { may_ask_in (slice_get self.old.owners place) call ≡ true }
        ensures ok { IfOk result
            (λ e. CopierMoves (step.Copy copier) (ByOwner place) (Asked call) self.old e self.new) }
        ensures err { OnErr result (self.new ≡ self.old) }
    {
        let told = call.try_clone()?;
        self.owners[place].ask(call);
        Ok(self.crew.tell(Party::Owner(place), Act::Asked(told)))
    }

    /// What is told of a party without the parts: that a step did nothing, or what a copier does.
    pub fn note(&self, party: Party, act: Act) -> Event
        requires { IsNote party act }
        ensures { (asked : Step) → CopierMoves asked party act self.now result self.now }
    {
        self.crew.tell(party, act)
    }

    // The poll of this owner takes its next action.
    fn own<S: Starter>(&mut self, place: usize, starter: &mut S) -> Result<Event, AllocError>
        ensures ok { IfOk result
            (λ e. Moves (S.may_answer starter.old) (step.Own place) self.old e self.new) }
        ensures err { OnErr result (self.new ≡ self.old) }
    {
        let Some(owner) = self.owners.get(place) else {
            return Ok(self.crew.nothing(Party::Owner(place)));
        };
        match owner.next() {
            OwnerNext::Rests => Ok(self.crew.nothing(Party::Owner(place))),
            OwnerNext::Begins => self.lend(place, starter),
            OwnerNext::Delivers => Ok(self.deliver(place, starter)),
            OwnerNext::Acts(count) => self.act(place, count),
        }
    }

    // The poll of this owner begins a session, whose job is of the owner's client: its memory is taken first. Where there is none for its pipe,
    // the crew tells the refusal.
    fn lend<S: Starter>(&mut self, place: usize, starter: &mut S) -> Result<Event, AllocError>
        requires there { place < length self.old.owners }
        requires begins { IfSome (slice_get self.old.owners place) (λ owner. next_of owner ≡ next.Begins) }
        ensures ok { IfOk result
            (λ e. Moves (S.may_answer starter.old) (step.Own place) self.old e self.new) }
        ensures err { OnErr result (self.new ≡ self.old) }
    {
        self.rows.reserve(1)?;
        let Ok(passage) = self.owners[place].passage(self.alloc) else {
            return Ok(self.refuse(place));
        };
        let client = self.owners[place].client();
        let added = self.crew.add(Party::Owner(place), client, starter);
        let owner = &mut self.owners[place];
        match added.number {
            Ok(number) => {
                let job = owner.new_job(self.alloc);
                owner.begin(number, passage);
                put(&mut self.rows, Row::of_session(number, place, job));
            }
            Err(why) => {
                drop(passage);
                owner.refuse(why);
            }
        }
        Ok(added.event)
    }

    // The poll of this owner begins no session, since there is no memory for one.
    fn refuse(&mut self, place: usize) -> Event
        requires there { place < length self.old.owners }
        requires begins { IfSome (slice_get self.old.owners place) (λ owner. next_of owner ≡ next.Begins) }
        ensures { Moves NeverAsked (step.Own place) self.old result self.new }
    {
        let (why, event) = self.crew.refuse(Party::Owner(place));
        self.owners[place].refuse(why);
        event
    }

    // The poll of this owner delivers the note that it took.
    fn deliver<S: Starter>(&mut self, place: usize, starter: &mut S) -> Event
        requires there { place < length self.old.owners }
        requires delivers { IfSome (slice_get self.old.owners place) (λ owner. next_of owner ≡ next.Delivers) }
        ensures { Moves (S.may_answer starter.old) (step.Own place) self.old result self.new }
    {
        match self.owners[place].deliver() {
            Some(note) => self.crew.wake(Party::Owner(place), note, starter),
            None => unreachable!(),
        }
    }

    // The poll of this owner acts by itself, and so many bytes come out of the pipe: the room for them is taken first.
    fn act(&mut self, place: usize, count: usize) -> Result<Event, AllocError>
        requires there { place < length self.old.owners }
        requires acts { IfSome (slice_get self.old.owners place) (λ owner. next_of owner ≡ next.Acts count) }
        ensures ok { IfOk result (λ e. Moves NeverAsked (step.Own place) self.old e self.new) }
        ensures err { OnErr result (self.new ≡ self.old) }
    {
        let party = Party::Owner(place);
        let room = vec![in self.alloc; 0u8; count]?;
        match self.owners[place].act(room) {
            Some(act) => Ok(self.crew.tell(party, act)),
            None => Ok(self.crew.nothing(party)),
        }
    }

    // This owner is dropped. Its job's ticket is marked, if that is queued or parked.
    fn drop_owner(&mut self, place: usize) -> Event
        ensures { Moves NeverAsked (step.DropOwner place) self.old result self.new }
    {
        let party = Party::Owner(place);
        if !self.rests(place) {
            return self.crew.nothing(party);
        }
        let owner = &mut self.owners[place];
        let number = owner.number();
        owner.release();
        self.crew.let_go(party, Act::HolderDropped, number)
    }

    // A call of this client is handed to the pool. Where it is accepted, it gets a row and a task.
    fn spawn<S: Starter>(&mut self, client: u32, starter: &mut S) -> Result<Event, AllocError>
        ensures ok { IfOk result
            (λ e. Moves (S.may_answer starter.old) (step.Spawn client) self.old e self.new) }
        ensures err { OnErr result (self.new ≡ self.old) }
    {
        self.rows.reserve(1)?;
        self.tasks.reserve(1)?;
        let added = self.crew.add(Party::Pool, client, starter);
        match added.number {
            Ok(number) => {
                put(&mut self.rows, Row::of_call(number, self.tasks.len()));
                let _ = self.tasks.push(Task::new(number));
            }
            Err(_why) => {}
        }
        Ok(added.event)
    }

    // Whether this task is there and may be called so.
    fn may(&self, number: usize, call: TaskCall) -> bool
        ensures { result ≡ may_call_in (slice_get self.now.tasks number) call }
    {
        match self.tasks.get(number) {
            Some(task) => task.may(call),
            None => false,
        }
    }

    // A call of the task of this number. A task that is cancelled or dropped lets go of its job.
    fn of_task(&mut self, number: usize, call: TaskCall) -> Event
        ensures { Moves NeverAsked (step.OfTask number call) self.old result self.new }
    {
        let party = Party::Task(number);
        if !self.may(number, call) {
            return self.crew.nothing(party);
        }
        let task = &mut self.tasks[number];
        let act = task.call(call);
        match call {
            TaskCall::Cancel | TaskCall::Drop => {
                self.crew.let_go(party, act, Some(task.number()))
            }
            TaskCall::Poll | TaskCall::Detach => self.crew.tell(party, act),
        }
    }

    // A started worker arrives.
    fn arrive(&mut self) -> Result<Event, AllocError>
        ensures ok { IfOk result (λ e. Moves NeverAsked step.Arrive self.old e self.new) }
        ensures err { OnErr result (self.new ≡ self.old) }
    {
        self.crew.arrive()
    }

    // A worker takes a job.
    fn take<S: Starter>(&mut self, worker: usize, starter: &mut S) -> Event
        ensures { Moves (S.may_answer starter.old) (step.Take worker) self.old result self.new }
    {
        self.crew.take(worker, starter)
    }

    // The row of the job of this serial.
    fn row(&self, serial: u64) -> Option<&Row>
        ensures { option_map (λ row. row.now) result ≡ row_of self.now.rows serial }
    {
        let place = serial.checked_sub(1)? as usize;
        self.rows.get(place)
    }

    // The job in the hand of this worker, where it has a row.
    fn job_at(&self, worker: usize) -> Option<JobAt>
        ensures { result ≡ option_map places_of (job_at self.now worker) }
    {
        let in_hand = self.crew.in_hand(worker)?;
        let serial = in_hand.number.serial();
        let Some(_row) = self.row(serial) else {
            return None;
        };
        Some(JobAt {
            row: serial as usize - 1,
            stage: in_hand.stage,
        })
    }

    // The job of a worker takes its next action, where that is its own to take. The memory for the bytes that it finds is taken first.
    fn job(&mut self, worker: usize) -> Result<Event, AllocError>
        ensures ok { IfOk result (λ e. Moves NeverAsked (step.Job worker) self.old e self.new) }
        ensures err { OnErr result (self.new ≡ self.old) }
    {
        let party = Party::Worker(worker);
        let Some(job) = self.job_at(worker) else {
            return Ok(self.crew.nothing(party));
        };
        let core = &mut self.rows[job.row].core;
        match core.act(self.alloc, &mut self.tasks, &mut self.owners, job.stage)? {
            Some(act) => Ok(self.crew.work(worker, act)),
            None => Ok(self.crew.nothing(party)),
        }
    }

    // What the job of a worker asked for is answered. The event bears a copy of the answer, whose memory is taken first.
    fn io(&mut self, worker: usize, answer: HandleAnswer) -> Result<Event, AllocError>
        ensures ok { IfOk result (λ e. Moves NeverAsked (step.Io worker answer) self.old e self.new) }
        ensures err { OnErr result (self.new ≡ self.old) }
    {
        let party = Party::Worker(worker);
        let Some(job) = self.job_at(worker) else {
            return Ok(self.crew.nothing(party));
        };
        if !self.rows[job.row].may_be_answered(job.stage, &answer) {
            return Ok(self.crew.nothing(party));
        }
        let told = answer.try_clone()?;
        self.rows[job.row].core.answer(answer);
        Ok(self.crew.work(worker, Act::Answered(told)))
    }

    // The turn of a worker's job ends, where it waits, or where nothing is left to do.
    fn end(&mut self, worker: usize) -> Event
        ensures { Moves NeverAsked (step.End worker) self.old result self.new }
    {
        let party = Party::Worker(worker);
        let Some(job) = self.job_at(worker) else {
            return self.crew.nothing(party);
        };
        let row = &self.rows[job.row];
        if !row.is_ending(job.stage) {
            return self.crew.nothing(party);
        }
        if let TurnStage::Waits = job.stage {
            let is_marked = self.has_let_go(&row.core);
            return self.crew.park(worker, Ticket { is_marked });
        }
        self.crew.end(worker)
    }

    // An idle worker has waited, and its wait ended so.
    fn wait<S: Starter>(&mut self, worker: usize, end: WaitEnd, starter: &mut S) -> Event
        ensures { Moves (S.may_answer starter.old)
            (wait_step end worker) self.old result self.new }
    {
        self.crew.wait(worker, end, starter)
    }

    // The limit of workers is set, unless it is 0.
    fn set_limit(&mut self, limit: usize) -> Event
        ensures { Moves NeverAsked (step.SetLimit limit) self.old result self.new }
    {
        self.crew.set_limit(limit)
    }

    // The limit of running jobs for each client is set, unless it is 0, or taken away.
    fn set_client_limit(&mut self, limit: Option<usize>) -> Event
        ensures { Moves NeverAsked (step.SetClientLimit limit) self.old result self.new }
    {
        self.crew.set_client_limit(limit)
    }

    // The parked jobs that bear a mark are put back.
    fn sweep<S: Starter>(&mut self, starter: &mut S) -> Event
        ensures { Moves (S.may_answer starter.old) step.Sweep self.old result self.new }
    {
        self.crew.sweep(starter)
    }

    // A job is woken by nobody in particular.
    fn stray<S: Starter>(&mut self, serial: u64, starter: &mut S) -> Event
        ensures { Moves (S.may_answer starter.old) (step.Stray serial) self.old result self.new }
    {
        let Some(row) = self.row(serial) else {
            return self.crew.nothing(Party::Pool);
        };
        let note = WakeNote::new(row.number);
        self.crew.wake(Party::Pool, note, starter)
    }

    // Whether the task or the owner of this job is there and has let it go.
    fn has_let_go(&self, core: &Core) -> bool
        ensures { result ≡ let_go_of self.now core.now }
    {
        match core {
            Core::Call(task, _) => match self.tasks.get(*task) {
                Some(task) => task.has_let_go(),
                None => false,
            },
            Core::Session(owner, _) => match self.owners.get(*owner) {
                Some(owner) => owner.is_dropped(),
                None => false,
            },
        }
    }

    // A job whose task or owner let it go is cancelled in the pool.
    fn strike<S: Starter>(&mut self, serial: u64, starter: &mut S) -> Event
        ensures { Moves (S.may_answer starter.old) (step.Strike serial) self.old result self.new }
    {
        let Some(row) = self.row(serial) else {
            return self.crew.nothing(Party::Pool);
        };
        let number = row.number;
        if !self.has_let_go(&row.core) {
            return self.crew.nothing(Party::Pool);
        }
        self.crew.cancel(Party::Pool, number, starter)
    }

    /// The crew: the pool of its jobs, and its workers.
    pub fn crew(&self) -> &Crew
        ensures { result.now ≡ self.now.crew }
    {
        &self.crew
    }

    // How many bytes a job finds at the front of its pipe at most.
    fn front_for(&self, core: &Core) -> usize
        ensures { result ≡ front_for self.now core.now }
    {
        let Some(place) = core.owner() else {
            return 0;
        };
        match self.owners.get(place) {
            Some(owner) => owner.front_len(),
            None => 0,
        }
    }

    /// How many bytes the event of this step carries at most.
    pub fn bytes_to_come(&self, step: &Step) -> usize
        ensures { result ≡ bytes_to_come self.now step.now }
    {
        match step {
            Step::Ask(_, HandleCall::Write(bytes)) => bytes.as_slice().len(),
            Step::Own(place) => match self.owners.get(*place) {
                Some(owner) => bytes_in(owner.next()),
                None => 0,
            },
            Step::Job(worker) => match self.job_at(*worker) {
                Some(job) => self.front_for(&self.rows[job.row].core),
                None => 0,
            },
            Step::Io(_, HandleAnswer::Gave(bytes)) => bytes.as_slice().len(),
            _ => 0,
        }
    }

    /// Whether the poll of this owner is under way.
    pub fn polls(&self, place: usize) -> bool
        ensures { result ≡ polls_in (slice_get self.now.owners place) }
    {
        match self.owners.get(place) {
            Some(owner) => !matches!(owner.next(), OwnerNext::Rests),
            None => false,
        }
    }

    /// Whether the job of this worker has a next action that is its own to take.
    pub fn has_job_action(&self, worker: usize) -> bool
        ensures { result ≡ is_job_action (next_at self.now worker) }
    {
        let Some(job) = self.job_at(worker) else {
            return false;
        };
        self.rows[job.row].is_acting(job.stage)
    }

    /// Wakes the jobs whose notes owners still hold, ends the turns that are left, and then lets every worker go, which ends the jobs that are
    /// still queued. No worker is started any more. Takes no memory.
    pub fn close<L: Ledger>(self, starter: &mut NoStarts<L>) {
        let Parts {
            crew,
            rows: _rows,
            tasks: _tasks,
            owners,
            alloc: _,
        } = self;
        let mut crew = crew;
        wake_all(owners, &mut crew, starter);
        crew.close(starter);
    }
}

// How many bytes an owner's next act carries.
fn bytes_in(next: OwnerNext) -> usize
    ensures { result ≡ bytes_in next }
{
    match next {
        OwnerNext::Acts(count) => count,
        OwnerNext::Rests | OwnerNext::Begins | OwnerNext::Delivers => 0,
    }
}

// Puts a row at the end, for which there is room.
fn put(rows: &mut Vec<Row>, row: Row)
    requires { vec_len rows.old < vec_capacity rows.old }
    ensures { rows.new.items ≡ rows.old.items ++ row ∷ [] }
{
    match rows.push(row) {
        Ok(()) => {}
        Err(_full) => unreachable!(),
    }
}

// Spends the notes that owners hold, from the last owner on.
fn wake_all<L: Ledger>(mut owners: Vec<Owner>, crew: &mut Crew, starter: &mut NoStarts<L>) {
    while let Some(owner) = owners.pop() {
        if let Some(note) = owner.into_note() {
            let _ = crew.wake(Party::Owner(owners.len()), note, starter);
        }
    }
    owners.destroy_empty();
}
