//! A script's parties on a pool.
use crate::call::{CallPlan, CallTrack};
use crate::called::{Called, Copied, Waiting};
use crate::check::{Observer, Session};
use crate::copying::Linked;
use crate::desk::Desk;
use crate::gates::GateNo;
use crate::handle::Handle;
use crate::line::{Alone, Callers, Line, OwnerLine, Parties, Point, REFUSED, plan_of};
use crate::owned::{Owned, OwnerAct, answered, exact_of, session_in, whether};
use crate::owner::Lending;
use crate::plan::Plan;
use crate::player::{is_at_rest, reached};
use crate::pool::Pool;
use crate::shown::{NOTHING, Shown};
use crate::stage::{Act, Awaits, Gave, Lasting, Leaving, Owner, Stage, Standing, System, Terms};
use crate::tasks::Awaited;
use crate::track::Track;
use crate::waiter::{JobPlan, JobTrack, Waiter};
use crate::work::Carrier;
use blocking::{Job, Runtime};
use futures::test::MockTask;
use std::alloc::Global;
use std::sync::Arc;
use std::{io, mem};

// How many parties of a kind there are at most.
const MOST: usize = 100_000;

// The parties of a script.
#[derive(Drop)]
struct Cast<J: Job, H: Runtime + Drop> {
    plans: Vec<Option<Plan>>,
    owners: Vec<Owned<Lending<J, H>>>,
    calls: Vec<Called<Awaited<H>>>,
    jobs: Vec<Waiting>,
    copiers: Vec<Copied<Linked<J, H>>>,
}

impl<J: Job, H: Runtime + Drop> Cast<J, H> {
    fn new(alloc: Global) -> Cast<J, H> {
        Cast {
            plans: Vec::new(alloc),
            owners: Vec::new(alloc),
            calls: Vec::new(alloc),
            jobs: Vec::new(alloc),
            copiers: Vec::new(alloc),
        }
    }
}

// The track and the waker of a call.
#[derive(Drop)]
struct Spare {
    track: Arc<CallTrack>,
    waker: MockTask,
}

impl Spare {
    fn new<Y: System>(system: &Y) -> io::Result<Spare> {
        Ok(Spare {
            track: Arc::new(system.alloc(), CallTrack::new())?,
            waker: system.waker()?,
        })
    }

    fn many<Y: System>(system: &Y, count: usize) -> io::Result<Vec<Spare>> {
        let mut spares = Vec::new(system.alloc());
        for _ in 0..count {
            spares.push(Spare::new(system)?)?;
        }
        Ok(spares)
    }
}

// An owner that a copier takes, and where its handle goes on.
#[derive(Drop)]
struct Lent<J: Job, H: Runtime> {
    owner: Lending<J, H>,
    track: Arc<Track>,
    // None where nobody knows.
    place: Option<usize>,
}

/// A pool, and the parties that share it.
#[derive(Drop)]
pub(crate) struct PoolStage<J: Job, H: Runtime + Drop, Y: System> {
    pool: Pool<J, H>,
    system: Y,
    cast: Cast<J, H>,
    // The parties outside of each block that is played, the outermost first.
    outside: Vec<Cast<J, H>>,
    // Memory for counted calls, allocated before the first line.
    spares: Vec<Spare>,
    // The next client that had no call yet.
    next_client: u32,
}

// A plan of these bytes where none was said.
fn plan_for(alloc: Global, plans: &mut [Option<Plan>], number: usize) -> io::Result<Plan> {
    match plans.get_mut(number).and_then(|plan| plan.take()) {
        Some(plan) => Ok(plan),
        None => match plan_of(alloc, "of -") {
            Ok(plan) => Ok(plan),
            Err(_) => Err(io::Error::from(io::ErrorKind::OutOfMemory)),
        },
    }
}

// Plans the handles of owners that are made later.
fn plan_all(
    alloc: Global,
    plans: &mut Vec<Option<Plan>>,
    handles: Parties,
    text: &str,
) -> io::Result<Shown> {
    if handles.last > MOST {
        return Ok(NOTHING);
    }
    for number in handles.first..=handles.last {
        let Ok(plan) = plan_of(alloc, text) else {
            return Err(io::Error::from(io::ErrorKind::OutOfMemory));
        };
        for _ in plans.len()..=number {
            plans.push(None)?;
        }
        if let Some(place) = plans.get_mut(number) {
            *place = Some(plan);
        }
    }
    Ok(Shown::Count("handle", handles.last as u64))
}

// What the tasks from a first to a last one answer, added up.
fn sum<T: Awaits>(calls: &mut [Called<T>], first: usize, last: usize, desk: &Desk) -> Shown {
    let mut sum = 0u64;
    for place in first..=last {
        match calls.get_mut(place) {
            Some(call) => match call.awaits(desk) {
                Some(Gave::Number(number)) => sum = sum.saturating_add(number),
                Some(Gave::Nothing) => {}
                _ => return NOTHING,
            },
            None => return NOTHING,
        }
    }
    Shown::Count("sum", sum)
}

impl<J: Job, H: Runtime + Drop, Y: System> PoolStage<J, H, Y> {
    /// A pool with no parties yet. So many calls may be counted.
    pub(crate) fn new(pool: Pool<J, H>, system: Y, calls: usize) -> io::Result<PoolStage<J, H, Y>> {
        let (alloc, calls) = (system.alloc(), calls.min(MOST));
        let spares = Spare::many(&system, calls)?;
        let mut cast = Cast::new(alloc);
        cast.calls = Vec::with_capacity(alloc, calls)?;
        Ok(PoolStage {
            pool,
            system,
            cast,
            outside: Vec::new(alloc),
            spares,
            next_client: 1,
        })
    }

    // Makes so many owners one after another, and shows the last.
    fn make_all(&mut self, terms: Terms, count: u64, desk: &Desk) -> io::Result<Shown> {
        let mut shown = NOTHING;
        for _ in 0..count.min(MOST as u64) {
            shown = self.make(terms, desk)?;
        }
        Ok(shown)
    }

    fn make(&mut self, terms: Terms, desk: &Desk) -> io::Result<Shown> {
        let (alloc, number) = (desk.alloc, self.cast.owners.len());
        let plan = plan_for(alloc, self.cast.plans.as_mut_slice(), number)?;
        let track = Arc::new(alloc, Track::new(alloc, plan.logged)?)?;
        let gates = Arc::try_clone(&desk.gates)?;
        let patterns = Arc::try_clone(&desk.patterns)?;
        let handle = Handle::new(plan, Arc::try_clone(&track)?, gates, patterns);
        let owner = Some(self.pool.lend(handle, terms)?);
        let observer = Observer::new(alloc, track)?;
        let waker = self.system.waker()?;
        self.cast.owners.push(Owned {
            owner,
            observer,
            waker,
            rest_from: None,
        })?;
        Ok(Shown::Count("made", number as u64))
    }

    fn begin(&mut self, alloc: Global) -> io::Result<()> {
        self.outside
            .push(mem::replace(&mut self.cast, Cast::new(alloc)))?;
        Ok(())
    }

    fn end(&mut self) {
        if let Some(cast) = self.outside.pop() {
            self.cast = cast;
        }
    }

    // What is done with the pool, or seen of it.
    fn of_pool(&mut self, line: &Alone) -> Shown {
        match line {
            Alone::Limit(limit) if self.pool.set_limit(*limit) => {
                Shown::Count("limit", *limit as u64)
            }
            Alone::Clients(limit) if self.pool.set_client_limit(*limit) => match limit {
                Some(limit) => Shown::Count("clients", *limit as u64),
                None => Shown::Word("clients none"),
            },
            Alone::Sweep => Shown::Count("swept", self.pool.sweep() as u64),
            Alone::Inside(client) => {
                Shown::Number(self.pool.most_inside(*client) as u64, "inside")
            }
            _ => NOTHING,
        }
    }

    // Drops all parties.
    fn drop_all(&mut self) {
        for copied in self.cast.copiers.iter_mut() {
            copied.copier = None;
        }
        for owned in self.cast.owners.iter_mut() {
            owned.owner = None;
        }
        for call in self.cast.calls.iter_mut() {
            call.task = None;
        }
        for job in self.cast.jobs.iter() {
            job.track.mark();
        }
    }

    // Compares what must be once all is over.
    fn compare_all(&mut self, desk: &mut Desk) {
        for owned in self.cast.owners.iter_mut() {
            let track = Arc::try_clone(&owned.observer.track);
            if let Ok(track) = track {
                let _ = desk.patience.until(|| track.gone() > 0);
            }
            desk.note(owned.observer.is_over());
        }
        for call in self.cast.calls.iter() {
            let _ = desk.patience.until(|| call.track.dropped() > 0);
            desk.note(call.is_over());
        }
    }
}

impl<J: Carrier<H>, H: Runtime + Drop, Y: System> PoolStage<J, H, Y> {
    // Makes a call and `more` further ones, whose answers count on.
    fn call_all(
        &mut self,
        mut plan: CallPlan,
        more: u64,
        callers: Callers,
        desk: &mut Desk,
    ) -> io::Result<Shown> {
        let mut shown = NOTHING;
        if let Callers::Fresh = callers {
            plan.client = self.next_client;
        }
        for _ in 0..more.saturating_add(1) {
            shown = self.call(plan, desk)?;
            plan.answer = plan.answer.saturating_add(1);
            if !matches!(callers, Callers::One) {
                plan.client = plan.client.saturating_add(1);
            }
        }
        if let Callers::Fresh = callers {
            self.next_client = plan.client;
        }
        Ok(shown)
    }

    fn call(&mut self, plan: CallPlan, desk: &mut Desk) -> io::Result<Shown> {
        let Spare { track, waker } = match self.spares.pop() {
            Some(spare) => spare,
            None => Spare::new(&self.system)?,
        };
        let task = match self.pool.call(plan, Arc::try_clone(&track)?)? {
            Ok(task) => task,
            Err(why) => {
                let is_back = track.made() == 0 && track.dropped() == 1;
                desk.note((!is_back).then_some("a refused call didn't come back"));
                return Ok(Shown::Refused(why));
            }
        };
        let number = self.cast.calls.len();
        self.cast.calls.push(Called {
            task: Some(task),
            track,
            waker,
            made_at_none: None,
        })?;
        Ok(Shown::Count("task", number as u64))
    }

    fn add(&mut self, plan: JobPlan, desk: &Desk) -> io::Result<Shown> {
        let track = Arc::new(desk.alloc, JobTrack::new())?;
        let gates = Arc::try_clone(&desk.gates)?;
        let job = Waiter::new(plan, Arc::try_clone(&track)?, gates);
        let number = match self.pool.add(plan.client, job) {
            Ok(number) => number,
            Err(why) => return Ok(Shown::Refused(why)),
        };
        let place = self.cast.jobs.len();
        self.cast.jobs.push(Waiting { number, track })?;
        Ok(Shown::Count("job", place as u64))
    }

    // Takes an owner from its place, for a copier.
    fn lent(&mut self, number: usize, is_reader: bool) -> io::Result<Option<Lent<J, H>>> {
        let Some(owned) = self.cast.owners.get_mut(number) else {
            return Ok(None);
        };
        let track = Arc::try_clone(&owned.observer.track)?;
        let Some(mut owner) = owned.owner.take() else {
            return Ok(None);
        };
        let is_idle = owner.place().is_some();
        let place = if is_reader {
            owned.observer.reads_on_at(is_idle)
        } else {
            owned.observer.writes_on_at(is_idle)
        };
        Ok(Some(Lent {
            owner,
            track,
            place,
        }))
    }

    fn link(&mut self, reader: usize, writer: usize, piece: usize) -> io::Result<Shown> {
        if reader == writer {
            return Ok(NOTHING);
        }
        let Some(from) = self.lent(reader, true)? else {
            return Ok(NOTHING);
        };
        let Some(to) = self.lent(writer, false)? else {
            return Ok(NOTHING);
        };
        let Some(copier) = self.pool.link(from.owner, to.owner, piece)? else {
            return Ok(NOTHING);
        };
        let number = self.cast.copiers.len();
        self.cast.copiers.push(Copied {
            copier: Some(copier),
            count: 0,
            waker: self.system.waker()?,
            places: from.place.zip(to.place),
            reader: from.track,
            writer: to.track,
        })?;
        Ok(Shown::Count("linked", number as u64))
    }

    // Awaits an operation. Once it reaches the gate, all requests are refused and the gate opens. A sweep finds no job without an owner.
    fn operate(&mut self, place: usize, line: (u64, GateNo, bool), desk: &mut Desk) -> Shown {
        let (to, gate, is_swept) = line;
        let Some(owned) = self.cast.owners.get_mut(place) else {
            return NOTHING;
        };
        owned.looks(Session::Other, desk);
        let Some(owner) = &mut owned.owner else {
            return NOTHING;
        };
        let (pool, system, desk) = (&self.pool, &self.system, &*desk);
        let goes_on = || {
            let has_come = reached(desk, gate, 1) == Shown::Count("reached", 1);
            let _ = system.say(REFUSED);
            let swept = if is_swept { pool.sweep() } else { 0 };
            desk.gates.set(gate, true);
            has_come && swept == 0
        };
        answered(
            owner.operate(&owned.waker, &desk.patience, to, goes_on),
            &[],
        )
    }

    // Makes a future of an owner, and drops it at a point.
    fn leave_future(
        &mut self,
        place: usize,
        future: &Lasting,
        point: Point,
        desk: &mut Desk,
    ) -> Shown {
        let Some(owned) = self.cast.owners.get_mut(place) else {
            return NOTHING;
        };
        owned.looks(session_in(future), desk);
        let start = desk.whole.len();
        let Some(owner) = &mut owned.owner else {
            return NOTHING;
        };
        let count = exact_of(future);
        let Some(room) = desk.room.as_mut_slice().get_mut(..count) else {
            return NOTHING;
        };
        let (task, gates) = (&owned.waker, &*desk.gates);
        let leaving = Leaving {
            lasting: future,
            is_polled: !matches!(point, Point::Unpolled),
        };
        let has_come = || match point {
            Point::Unpolled | Point::Polled => true,
            Point::Reached(gate) => gates.reached(gate) > 0,
            Point::Opened(gate) => {
                gates.set(gate, true);
                task.is_woken()
            }
        };
        let rest = &mut desk.whole;
        let is_left = owner.leave(task, &desk.patience, leaving, room, rest, has_come);
        owned.observer.is_left();
        match future {
            Lasting::Rest if is_left => {
                Shown::Count("left", desk.whole.len().saturating_sub(start) as u64)
            }
            _ => whether(is_left, "left", "early"),
        }
    }

    // Asks an owner. One call for all, since each states anew what its type implements.
    fn ask_owner(&mut self, place: usize, act: OwnerAct<'_>, desk: &mut Desk) -> io::Result<Shown> {
        match self.cast.owners.get_mut(place) {
            Some(owned) => owned.act(act, desk),
            None => Ok(NOTHING),
        }
    }

    // What a line shows that is no party's.
    fn alone(&mut self, line: &Alone, desk: &mut Desk) -> io::Result<Shown> {
        Ok(match line {
            Alone::Handle(handles, text) => {
                plan_all(desk.alloc, &mut self.cast.plans, *handles, text.as_str())?
            }
            Alone::New(capacity, client, count) => {
                let terms = Terms {
                    capacity: *capacity,
                    client: *client,
                    can_close: true,
                };
                self.make_all(terms, *count, desk)?
            }
            Alone::Open(capacity, count) => {
                let terms = Terms {
                    capacity: *capacity,
                    client: None,
                    can_close: false,
                };
                self.make_all(terms, *count, desk)?
            }
            Alone::Call(plan, more, callers) => self.call_all(*plan, *more, *callers, desk)?,
            Alone::Add(plan) => self.add(*plan, desk)?,
            Alone::Link(reader, writer, piece) => self.link(*reader, *writer, *piece)?,
            Alone::Sum(first, last) => sum(self.cast.calls.as_mut_slice(), *first, *last, desk),
            _ => self.of_pool(line),
        })
    }

    // What a line shows that isn't a block.
    fn play(&mut self, line: &Line, place: usize, desk: &mut Desk) -> io::Result<Shown> {
        Ok(match line {
            Line::Owner(_, OwnerLine::Refused(to, gate, is_swept)) => {
                self.operate(place, (*to, *gate, *is_swept), desk)
            }
            Line::Owner(_, OwnerLine::Leave(future, point)) => self.leave_future(
                place, future, *point, desk,
            ),
            Line::Owner(_, line) => self.ask_owner(place, OwnerAct::Play(line), desk)?,
            Line::Task(_, line) => match self.cast.calls.get_mut(place) {
                Some(called) => called.play(*line, desk),
                None => NOTHING,
            },
            Line::Job(_, line) => match self.cast.jobs.get(place) {
                Some(job) => job.play(&self.pool, *line, desk),
                None => NOTHING,
            },
            Line::Copier(_, line) => match self.cast.copiers.get_mut(place) {
                Some(copied) => copied.play(*line, desk),
                None => NOTHING,
            },
            Line::Alone(line) => self.alone(line, desk)?,
            Line::Begin(..) | Line::End => NOTHING,
        })
    }

    fn compare(&self, desk: &mut Desk) {
        if self.pool.too_many() > 0 {
            desk.note(Some("more calls than a limit allows were inside"));
        }
        for call in self.cast.calls.iter() {
            desk.note(call.breach());
        }
    }

    fn finish(&mut self, desk: &mut Desk) {
        self.drop_all();
        let _ = self.pool.sweep();
        let pool = &self.pool;
        let rests = desk
            .patience
            .until(|| is_at_rest(pool.standing(), usize::MAX));
        if !desk.patience.is_over() {
            desk.note((!rests).then_some("the pool didn't come to rest"));
            self.compare_all(desk);
        }
    }
}

impl<J: Carrier<H>, H: Runtime + Drop, Y: System> Stage for PoolStage<J, H, Y> {
    fn act(&mut self, act: Act<'_>, desk: &mut Desk) -> io::Result<Shown> {
        match act {
            Act::Play(line, place) => return self.play(line, place, desk),
            Act::Begin => self.begin(desk.alloc)?,
            Act::BeginAgain => self.cast = Cast::new(desk.alloc),
            Act::End => self.end(),
            Act::Compare => self.compare(desk),
            Act::CompareRefused(place) => {
                self.ask_owner(place, OwnerAct::CompareRefused, desk)?;
            }
            Act::Finish => self.finish(desk),
        }
        Ok(NOTHING)
    }

    fn standing(&self) -> Standing {
        self.pool.standing()
    }
}
