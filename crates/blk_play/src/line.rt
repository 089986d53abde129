//! What a line of a script says.
use crate::call::CallPlan;
use crate::gates::{GateNo, gate_of};
use crate::patterns::{Order, Patterns};
use crate::plan::{ALL, Answer, Answers, Kind, Plan, Planned, Source, place_of};
use crate::stage::{Ask, Lasting};
use crate::waiter::JobPlan;
use crate::words::{LineFault, Words};
use std::alloc::Global;

type Read<T> = Result<T, LineFault>;

/// Written before `scripts/refusals` counts requests, and refuses those that it chose.
pub(crate) const COUNTED: &str = "-- counted";

/// Written before `scripts/refusals` refuses all requests.
pub(crate) const REFUSED: &str = "-- refused";

/// Written before `scripts/refusals` grants all requests.
pub(crate) const GRANTED: &str = "-- granted";

/// The numbers of the parties that a line is for, from the first to the last.
#[derive(Clone, Copy)]
pub(crate) struct Parties {
    pub first: usize,
    pub last: usize,
}

/// Where a future is dropped.
#[derive(Clone, Copy)]
pub(crate) enum Point {
    /// Before its first poll.
    Unpolled,
    Polled,
    /// Once a call came to this gate.
    Reached(GateNo),
    /// Once this gate was opened and the future was woken.
    Opened(GateNo),
}

/// What is done with an owner, or seen of it or of its handle.
#[derive(Drop)]
pub(crate) enum OwnerLine {
    Poll(Ask, Option<usize>),
    Await(Ask),
    /// Reads or takes items until so many came.
    Fill(usize, bool),
    /// Writes all by polls.
    Put(Vec<u8>),
    /// Reads to the end by so many bytes, or takes all items.
    All(Option<usize>),
    Finish(Lasting),
    /// Awaits an operation. Once it reaches the gate, all requests are refused, the pool may be swept, and the gate opens.
    Refused(u64, GateNo, bool),
    Leave(Lasting, Point),
    Says,
    Gone,
    SoonGone,
    Took,
    Most,
    Calls(Option<Kind>, Option<(u64, u64)>),
    Client(u32),
    Drop,
    SoonWoken,
    Asleep,
}

/// What is done with a task, or seen of it or of its call.
#[derive(Clone, Copy)]
pub(crate) enum TaskLine {
    Poll,
    Await,
    Cancel,
    Detach,
    Drop,
    SoonWoken,
    Asleep,
    Made,
    SoonMade,
    Dropped,
    SoonDropped(u64),
}

/// What is done with a job that waits, or seen of it.
#[derive(Clone, Copy)]
pub(crate) enum JobLine {
    Wake,
    /// Each of so many waits is answered by one wake.
    WakeEach(u64),
    Mark,
    Steps(u64),
    SoonDropped(u64),
    Drops,
}

/// What is done with a copier.
#[derive(Clone, Copy)]
pub(crate) enum CopierLine {
    Poll,
    Await,
    /// Polls after each wake, until `count` bytes are copied and the copier waits.
    Until(u64),
    Copied,
    Apart,
    Drop,
}

/// A count of a pool.
#[derive(Clone, Copy)]
pub(crate) enum Counted {
    Workers,
    Idle,
    Running,
    Queued,
}

/// The clients of a line's calls.
#[derive(Clone, Copy)]
pub(crate) enum Callers {
    /// One client for all.
    One,
    /// The next client for each.
    Many,
    /// A client for each that no round had before.
    Fresh,
}

/// What is done once.
#[derive(Drop)]
pub(crate) enum Alone {
    /// The text of a handle's plan, which was read once.
    Handle(Parties, String),
    /// So many owners are made. None is the default; all that there is where its capacity is too large for any memory.
    New(Option<usize>, Option<u32>, u64),
    /// The same, which can't be closed.
    Open(Option<usize>, u64),
    /// Makes a call and further ones, whose answers count on.
    Call(CallPlan, u64, Callers),
    Add(JobPlan),
    Link(usize, usize, usize),
    Limit(usize),
    Clients(Option<usize>),
    Sweep,
    Gate(GateNo, bool),
    Reached(GateNo, u64),
    Sum(usize, usize),
    Counts,
    SoonRest(usize),
    SoonCounts(Vec<(Counted, usize)>),
    SoonThreads(usize),
    Named(u64),
    Pause(u64),
    Sleeps(u64),
    Clock,
    Within(u64),
    Passed(u64),
    /// The most calls of a client that were inside at once.
    Inside(u32),
    Want(String),
    SoonWoken(usize),
    /// Writes a mark for `scripts/refusals`.
    Mark(&'static str),
}

/// What stands around lines.
#[derive(Clone, Copy)]
pub(crate) enum Block {
    /// Until one try is in time.
    Tries(u64),
    /// So many rounds, of which so many may last so many milliseconds; none begins behind so many.
    Repeat(u64, Option<(u64, u64)>, u64),
}

/// A line.
#[derive(Drop)]
pub(crate) enum Line {
    Owner(Parties, OwnerLine),
    Task(Parties, TaskLine),
    Job(Parties, JobLine),
    Copier(Parties, CopierLine),
    Alone(Alone),
    /// A block of so many lines, its end among them.
    Begin(Block, usize),
    End,
}

fn read_parties(words: &mut Words<'_>) -> Read<Parties> {
    let (first, last) = words.range()?;
    match (usize::try_from(first), usize::try_from(last)) {
        (Ok(first), Ok(last)) if first <= last => Ok(Parties { first, last }),
        _ => Err(LineFault::NotALine),
    }
}

// What an owner is asked for.
fn read_ask(alloc: Global, words: &mut Words<'_>) -> Read<Ask> {
    Ok(match words.word()? {
        "read" => Ask::Read(words.count()?),
        "write" => Ask::Write(words.bytes(alloc)?),
        "flush" => Ask::Flush,
        "close" => Ask::Close,
        "next" => Ask::Next,
        "seek" => Ask::Seek(words.position()?),
        "op" => Ask::Operate(words.number()?),
        "mut" => Ask::Handle,
        "inner" => Ask::Inner,
        _ => return Err(LineFault::NotALine),
    })
}

// The order that is named, if one is.
fn read_order(words: &mut Words<'_>) -> Option<Order> {
    if words.takes("cycle") {
        return Some(Order::Cycle);
    }
    words.takes("count").then_some(Order::Count)
}

// So many bytes in an order, or bytes as they stand.
fn read_bytes(alloc: Global, words: &mut Words<'_>) -> Read<Vec<u8>> {
    match read_order(words) {
        Some(order) => Ok(Patterns::new(alloc)?.all(alloc, order, words.count()?)?),
        None => words.bytes(alloc),
    }
}

fn read_future(alloc: Global, words: &mut Words<'_>) -> Read<Lasting> {
    Ok(match words.word()? {
        "exact" => Lasting::Exact(words.count()?),
        "rest" => Lasting::Rest,
        "whole" => Lasting::Whole(read_bytes(alloc, words)?),
        "op" => Lasting::Jump(words.number()?),
        "inner" => Lasting::Inner,
        "read" => Lasting::Read(words.count()?),
        "write" => Lasting::Write(words.bytes(alloc)?),
        "flush" => Lasting::Flush,
        "close" => Lasting::Close,
        "seek" => Lasting::Seek(words.position()?),
        _ => return Err(LineFault::NotALine),
    })
}

fn read_point(words: &mut Words<'_>) -> Read<Point> {
    if !words.takes("polled") {
        return Ok(Point::Unpolled);
    }
    if words.takes("reached") {
        return Ok(Point::Reached(words.gate()?));
    }
    if words.takes("opened") {
        return Ok(Point::Opened(words.gate()?));
    }
    Ok(Point::Polled)
}

fn kind_of(word: &str) -> Option<Kind> {
    Some(match word {
        "read" => Kind::Read,
        "write" => Kind::Write,
        "flush" => Kind::Flush,
        "next" => Kind::Item,
        "seek" => Kind::Seek,
        "op" => Kind::Operate,
        _ => return None,
    })
}

fn read_calls(words: &mut Words<'_>) -> Read<OwnerLine> {
    let kind = words.peek().and_then(kind_of);
    if kind.is_some() {
        words.word()?;
    }
    let range = match words.peek() {
        Some(_) => Some(words.range()?),
        None => None,
    };
    Ok(OwnerLine::Calls(kind, range))
}

fn read_waker(words: &mut Words<'_>) -> Read<Option<usize>> {
    if words.takes("as") {
        return Ok(Some(words.count()?));
    }
    Ok(None)
}

fn read_finish(alloc: Global, words: &mut Words<'_>) -> Read<OwnerLine> {
    let future = read_future(alloc, words)?;
    if let Lasting::Jump(to) = &future
        && words.takes("refused")
    {
        return Ok(OwnerLine::Refused(*to, words.gate()?, words.takes("swept")));
    }
    Ok(OwnerLine::Finish(future))
}

// A line whose first word is this, and then come owners.
fn read_owner_line(alloc: Global, name: &str, words: &mut Words<'_>) -> Read<OwnerLine> {
    Ok(match name {
        "poll" => {
            let ask = read_ask(alloc, words)?;
            OwnerLine::Poll(ask, read_waker(words)?)
        }
        "await" => OwnerLine::Await(read_ask(alloc, words)?),
        "fill" => {
            let is_items = words.takes("items");
            OwnerLine::Fill(words.count()?, is_items)
        }
        "put" => OwnerLine::Put(read_bytes(alloc, words)?),
        "all" if words.takes("next") => OwnerLine::All(None),
        "all" if words.takes("read") => OwnerLine::All(Some(words.count()?)),
        "finish" => read_finish(alloc, words)?,
        "leave" => {
            let future = read_future(alloc, words)?;
            OwnerLine::Leave(future, read_point(words)?)
        }
        "says" => OwnerLine::Says,
        "gone" => OwnerLine::Gone,
        "took" => OwnerLine::Took,
        "most" => OwnerLine::Most,
        "calls" => read_calls(words)?,
        "client" => OwnerLine::Client(words.client()?),
        "drop" => OwnerLine::Drop,
        "asleep" => OwnerLine::Asleep,
        _ => return Err(LineFault::NotALine),
    })
}

fn read_task_line(words: &mut Words<'_>) -> Read<TaskLine> {
    Ok(match words.word()? {
        "poll" => TaskLine::Poll,
        "await" => TaskLine::Await,
        "cancel" => TaskLine::Cancel,
        "detach" => TaskLine::Detach,
        "drop" => TaskLine::Drop,
        "made" => TaskLine::Made,
        "dropped" => TaskLine::Dropped,
        "asleep" => TaskLine::Asleep,
        "soon" => match words.word()? {
            "woken" => TaskLine::SoonWoken,
            "made" => TaskLine::SoonMade,
            "dropped" => TaskLine::SoonDropped(words.number()?),
            _ => return Err(LineFault::NotALine),
        },
        _ => return Err(LineFault::NotALine),
    })
}

fn read_job_line(words: &mut Words<'_>) -> Read<JobLine> {
    Ok(match words.word()? {
        "wake" => match words.peek() {
            Some(_) => JobLine::WakeEach(words.number()?),
            None => JobLine::Wake,
        },
        "mark" => JobLine::Mark,
        "steps" => JobLine::Steps(words.number()?),
        "drops" => JobLine::Drops,
        "soon" if words.takes("dropped") => JobLine::SoonDropped(words.number()?),
        _ => return Err(LineFault::NotALine),
    })
}

fn read_copier_line(words: &mut Words<'_>) -> Read<CopierLine> {
    Ok(match words.word()? {
        "poll" => CopierLine::Poll,
        "await" => CopierLine::Await,
        "until" => CopierLine::Until(words.number()?),
        "copied" => CopierLine::Copied,
        "apart" => CopierLine::Apart,
        "drop" => CopierLine::Drop,
        _ => return Err(LineFault::NotALine),
    })
}

fn read_client(words: &mut Words<'_>) -> Read<Option<u32>> {
    if words.takes("for") {
        return Ok(Some(words.client()?));
    }
    Ok(None)
}

// How much a pipe holds: so much, the default, or more than any memory has.
fn read_capacity(words: &mut Words<'_>) -> Read<Option<usize>> {
    if words.takes("default") {
        return Ok(None);
    }
    if words.takes("max") {
        return Ok(Some(usize::MAX));
    }
    match words.count()? {
        0 => Err(LineFault::NotALine),
        capacity => Ok(Some(capacity)),
    }
}

fn read_callers(words: &mut Words<'_>, plan: &mut CallPlan) -> Read<Callers> {
    if !words.takes("for") {
        return Ok(Callers::One);
    }
    if words.takes("next") {
        return Ok(Callers::Fresh);
    }
    let (client, last) = words.range()?;
    plan.client = u32::try_from(client).or(Err(LineFault::NotALine))?;
    Ok(if last > client {
        Callers::Many
    } else {
        Callers::One
    })
}

fn read_call(words: &mut Words<'_>) -> Read<Alone> {
    let stop = words.stop()?;
    let (first, last) = words.range()?;
    let mut plan = CallPlan {
        stop,
        answer: first,
        ..CallPlan::default()
    };
    if words.takes("takes") {
        plan.takes = words.number()?;
    }
    let callers = read_callers(words, &mut plan)?;
    if words.takes("drop") {
        plan.dropping = words.stop()?;
    }
    if words.takes("answer") {
        plan.answer_dropping = words.stop()?;
    }
    match last.checked_sub(first) {
        Some(more) => Ok(Alone::Call(plan, more, callers)),
        None => Err(LineFault::NotALine),
    }
}

fn read_job(words: &mut Words<'_>) -> Read<JobPlan> {
    let mut plan = JobPlan {
        waits: words.number()?,
        stop: words.stop()?,
        ..JobPlan::default()
    };
    plan.client = read_client(words)?.unwrap_or(0);
    if words.takes("drop") {
        plan.dropping = words.stop()?;
    }
    plan.marks_itself = words.takes("marks");
    Ok(plan)
}

fn read_limit_for_clients(words: &mut Words<'_>) -> Read<Option<usize>> {
    if words.takes("none") {
        return Ok(None);
    }
    Ok(Some(words.count()?))
}

fn counted_of(word: &str) -> Option<Counted> {
    Some(match word {
        "workers" => Counted::Workers,
        "idle" => Counted::Idle,
        "running" => Counted::Running,
        "queued" => Counted::Queued,
        _ => return None,
    })
}

fn read_soon_counts(alloc: Global, words: &mut Words<'_>) -> Read<Alone> {
    let mut wanted = Vec::new(alloc);
    for _ in 0..u64::MAX {
        let Some(counted) = words.peek().and_then(counted_of) else {
            break;
        };
        words.word()?;
        wanted.push((counted, words.count()?))?;
    }
    Ok(Alone::SoonCounts(wanted))
}

fn read_soon(alloc: Global, words: &mut Words<'_>) -> Read<Line> {
    Ok(match words.word()? {
        "rest" => Line::Alone(Alone::SoonRest(words.count()?)),
        "counts" => Line::Alone(read_soon_counts(alloc, words)?),
        "threads" => Line::Alone(Alone::SoonThreads(words.count()?)),
        "gone" => Line::Owner(read_parties(words)?, OwnerLine::SoonGone),
        "woken" if words.takes("as") => Line::Alone(Alone::SoonWoken(words.count()?)),
        "woken" => Line::Owner(read_parties(words)?, OwnerLine::SoonWoken),
        _ => return Err(LineFault::NotALine),
    })
}

// The gate that a word names.
fn gate_in(word: &str) -> Option<GateNo> {
    let mut letters = word.chars();
    let gate = letters.next().and_then(gate_of)?;
    letters.next().is_none().then_some(gate)
}

// A line that is for nobody, whose first word is this.
fn read_alone(alloc: Global, name: &str, words: &mut Words<'_>) -> Read<Alone> {
    Ok(match name {
        "handle" => {
            let handles = read_parties(words)?;
            let text = words.rest();
            drop(plan_of(alloc, text)?);
            *words = Words::new("");
            Alone::Handle(handles, String::from_str(alloc, text)?)
        }
        "new" => {
            let capacity = read_capacity(words)?;
            let client = read_client(words)?;
            Alone::New(capacity, client, read_times(words)?)
        }
        "call" => read_call(words)?,
        "add" => Alone::Add(read_job(words)?),
        "link" => Alone::Link(words.count()?, words.count()?, words.count()?),
        "limit" => Alone::Limit(words.count()?),
        "clients" => Alone::Clients(read_limit_for_clients(words)?),
        "open" if words.peek().and_then(gate_in).is_none() => {
            let capacity = read_capacity(words)?;
            Alone::Open(capacity, read_times(words)?)
        }
        "sweep" => Alone::Sweep,
        "open" => Alone::Gate(words.gate()?, true),
        "shut" => Alone::Gate(words.gate()?, false),
        "reached" => {
            let gate = words.gate()?;
            let count = if words.peek().is_some() {
                words.number()?
            } else {
                1
            };
            Alone::Reached(gate, count)
        }
        "sum" => {
            let Parties { first, last } = read_parties(words)?;
            Alone::Sum(first, last)
        }
        _ => read_timed(alloc, name, words)?,
    })
}

// The same of what is about time and the system.
fn read_timed(alloc: Global, name: &str, words: &mut Words<'_>) -> Read<Alone> {
    Ok(match name {
        "counts" => Alone::Counts,
        "named" => Alone::Named(words.number()?),
        "pause" => Alone::Pause(words.number()?),
        "sleeps" => Alone::Sleeps(words.number()?),
        "clock" => Alone::Clock,
        "within" => Alone::Within(words.number()?),
        "passed" => Alone::Passed(words.number()?),
        "inside" => Alone::Inside(words.client()?),
        "want" => {
            let text = words.rest();
            *words = Words::new("");
            Alone::Want(String::from_str(alloc, text)?)
        }
        "counted" => Alone::Mark(COUNTED),
        "refused" => Alone::Mark(REFUSED),
        "granted" => Alone::Mark(GRANTED),
        _ => return Err(LineFault::NotALine),
    })
}

fn read_block(name: &str, words: &mut Words<'_>) -> Read<Block> {
    Ok(match name {
        "tries" => Block::Tries(words.number()?),
        "repeat" => {
            let rounds = words.number()?;
            let late = if words.takes("late") {
                Some((words.number()?, words.number()?))
            } else {
                None
            };
            let most = if words.takes("for") {
                words.number()?
            } else {
                u64::MAX
            };
            Block::Repeat(rounds, late, most)
        }
        _ => return Err(LineFault::NotALine),
    })
}

fn is_for_owners(name: &str) -> bool {
    matches!(
        name,
        "poll"
            | "await"
            | "fill"
            | "put"
            | "all"
            | "finish"
            | "leave"
            | "says"
            | "gone"
            | "took"
            | "most"
            | "calls"
            | "client"
            | "drop"
            | "asleep"
    )
}

/// What a line says that isn't empty and no comment.
pub(crate) fn line_of(alloc: Global, text: &str) -> Read<Line> {
    let mut words = Words::new(text);
    let name = words.word()?;
    let line = match name {
        "soon" => read_soon(alloc, &mut words)?,
        "task" => Line::Task(read_parties(&mut words)?, read_task_line(&mut words)?),
        "job" => Line::Job(read_parties(&mut words)?, read_job_line(&mut words)?),
        "copy" => Line::Copier(read_parties(&mut words)?, read_copier_line(&mut words)?),
        "tries" | "repeat" => Line::Begin(read_block(name, &mut words)?, 0),
        "end" => Line::End,
        _ if is_for_owners(name) => {
            let owners = read_parties(&mut words)?;
            Line::Owner(owners, read_owner_line(alloc, name, &mut words)?)
        }
        _ => Line::Alone(read_alone(alloc, name, &mut words)?),
    };
    words.end()?;
    Ok(line)
}

// What a handle has.
fn read_source(alloc: Global, words: &mut Words<'_>) -> Read<Source> {
    Ok(match read_order(words) {
        Some(Order::Cycle) => Source::Cycle(words.number()?),
        Some(Order::Count) => Source::Count(words.number()?),
        None => Source::Bytes(words.bytes(alloc)?),
    })
}

// One answer of a plan, if the next word begins one.
fn read_answer(alloc: Global, words: &mut Words<'_>) -> Read<Option<Answer>> {
    Ok(Some(if words.takes("ok") {
        Answer::AsCursor
    } else if words.takes("n") {
        Answer::Number(words.number()?)
    } else if words.takes("b") {
        Answer::Bytes(words.bytes(alloc)?)
    } else if words.takes("item") {
        Answer::Item(words.number()?)
    } else if words.takes("none") {
        Answer::NoMore
    } else if words.takes("fault") {
        let number = i32::try_from(words.number()?);
        Answer::Fault(number.or(Err(LineFault::NotALine))?)
    } else {
        return Ok(None);
    }))
}

// How many calls an answer is for: `*N`, `*` for all that come, or one.
fn read_times(words: &mut Words<'_>) -> Read<u64> {
    if words.takes("*") {
        return Ok(u64::MAX);
    }
    match words.peek().and_then(|word| word.strip_prefix('*')) {
        Some(_) => {
            let word = words.word()?;
            let digits = word.strip_prefix('*').unwrap_or("");
            crate::words::number_of(digits).ok_or(LineFault::NotALine)
        }
        None => Ok(1),
    }
}

// The answers that follow, behind those that are there.
fn read_answers(alloc: Global, words: &mut Words<'_>, into: &mut Answers) -> Read<()> {
    for _ in 0..u64::MAX {
        let stop = words.stop()?;
        let Some(answer) = read_answer(alloc, words)? else {
            // A stop has an answer behind it.
            return match (stop.at, stop.opens) {
                (None, None) => Ok(()),
                _ => Err(LineFault::NotALine),
            };
        };
        let times = read_times(words)?;
        into.list.push(Planned {
            stop,
            answer,
            times,
        })?;
    }
    Ok(())
}

// The place of the answers that this word begins.
fn answers_of(name: &str) -> Option<usize> {
    Some(place_of(match name {
        "reads" => Kind::Read,
        "writes" => Kind::Write,
        "flushes" => Kind::Flush,
        "items" => Kind::Item,
        "seeks" => Kind::Seek,
        "ops" => Kind::Operate,
        "all" => return Some(ALL),
        _ => return None,
    }))
}

/// The plan that a text says: what a handle has, and then what it answers.
pub(crate) fn plan_of(alloc: Global, text: &str) -> Read<Plan> {
    let mut words = Words::new(text);
    if !words.takes("of") {
        return Err(LineFault::NotALine);
    }
    let mut plan = Plan::new(alloc, read_source(alloc, &mut words)?)?;
    for _ in 0..u64::MAX {
        let Some(name) = words.peek() else {
            break;
        };
        words.word()?;
        match name {
            "by" => plan.by = words.count()?,
            "yields" => plan.yields = words.number()?,
            "logs" => plan.logged = words.count()?,
            "drop" => plan.dropping = words.stop()?,
            _ => {
                let place = answers_of(name).ok_or(LineFault::NotALine)?;
                let into = plan.lists.get_mut(place).ok_or(LineFault::NotALine)?;
                read_answers(alloc, &mut words, into)?;
            }
        }
    }
    words.end()?;
    Ok(plan)
}

/// How many bytes a line reads at once.
pub(crate) fn room_of(line: &Line) -> usize {
    let Line::Owner(_, line) = line else {
        return 0;
    };
    match line {
        OwnerLine::Poll(Ask::Read(count), _)
        | OwnerLine::Await(Ask::Read(count))
        | OwnerLine::Fill(count, _)
        | OwnerLine::All(Some(count))
        | OwnerLine::Finish(Lasting::Exact(count) | Lasting::Read(count))
        | OwnerLine::Leave(Lasting::Exact(count), _) => *count,
        _ => 0,
    }
}
