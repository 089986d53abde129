//! The benchmarks of calls.
use crate::figures::{Figures, Request, each};
use blocking::{CallJob, Executor, Host, Runtime, Task, set_client_limit, unblock, unblock_for};
use blocking_core::task::Call;
use futures::Future;
use futures::executor::{block_on, block_on_queue};
use futures::task::{Context, Doorbell, Poll, Queue};
use std::random::RandomSource;
use std::sync::Arc;
use std::sync::atomic::{AtomicBool, Ordering};
use std::time::{Duration, Instant};
use std::{io, thread};

/// A call of the benchmarks.
#[derive(Drop)]
enum Work {
    Succeed(u64),
    Sleep(HostRuntime, u64),
    // Sleeps until the flag is set.
    Until(HostRuntime, Arc<AtomicBool>),
}

impl Call for Work {
    type Out = u64;

    ghost may_give = { λ _. Unit {0} };

    fn call(self) -> u64 {
        match self {
            Work::Succeed(n) => n.wrapping_add(1),
            Work::Sleep(rt, millis) => {
                thread::sleep(&rt, Duration::from_millis(millis));
                millis
            }
            Work::Until(rt, flag) => sleep_until(rt, &flag),
        }
    }
}

// How many milliseconds a call sleeps, of those that sleep.
const MILLIS: u64 = 300;

// How often a call looks for its flag, with a millisecond between, before it gives up.
const LOOKS: u64 = 600_000;

// Sleeps until the flag is set, and answers how many looks that took.
fn sleep_until(rt: HostRuntime, flag: &AtomicBool) -> u64 {
    for look in 0..LOOKS {
        if flag.load(Ordering::SeqCst) {
            return look;
        }
        thread::sleep(&rt, Duration::from_millis(1));
    }
    LOOKS
}

// The client whose calls are held up, how many of them are queued, and the client that calls beside it.
const HELD_UP: u32 = 7;

const QUEUED: usize = 60_000;

const BESIDE: u32 = 8;

// Over how many clients the calls of `clients_many` are spread.
const CLIENTS: u32 = 1_000;

type Workers<R> = Executor<CallJob<Work, R>, R>;

/// A way to make calls.
#[derive(Clone, Copy)]
pub(crate) enum Calls {
    Roundtrip,
    RoundtripAwait,
    Burst,
    BurstLimited,
    Idle,
    ClientsBlocked,
    ClientsMany,
}

impl Calls {
    pub(crate) fn name(self) -> &'static str {
        match self {
            Calls::Roundtrip => "roundtrip",
            Calls::RoundtripAwait => "roundtrip_await",
            Calls::Burst => "burst",
            Calls::BurstLimited => "burst_limited",
            Calls::Idle => "idle",
            Calls::ClientsBlocked => "clients_blocked",
            Calls::ClientsMany => "clients_many",
        }
    }

    pub(crate) fn unit(self) -> &'static str {
        match self {
            Calls::Idle => "ms",
            _ => "ns/call",
        }
    }

    pub(crate) fn size(self) -> usize {
        match self {
            Calls::Roundtrip | Calls::RoundtripAwait | Calls::ClientsBlocked => 20_000,
            Calls::Burst | Calls::BurstLimited | Calls::ClientsMany => 10_000,
            Calls::Idle => 1_000,
        }
    }

    /// Does the work once cold and then as often as is asked. The limit of `burst_limited` comes with the setting.
    pub(crate) fn run<R: Host>(
        self,
        rt: HostRuntime,
        host: R,
        setting: Option<&str>,
        request: Request,
        figures: &mut Figures,
    ) -> io::Result<()> {
        match Executor::new(host, setting) {
            Ok(executor) => self.run_over(rt, host, &executor, request, figures),
            Err(_) => Err(failed()),
        }
    }

    // Runs the benchmark over an existing pool.
    fn run_over<R: Runtime + RandomSource>(
        self,
        rt: HostRuntime,
        host: R,
        executor: &Workers<R>,
        request: Request,
        figures: &mut Figures,
    ) -> io::Result<()> {
        let held_up = self.prepare(rt, host, executor)?;
        for rep in 0..=request.reps {
            let figure = self.once(rt, host, executor, request.size, figures)?;
            figures.note(rep, figure)?;
        }
        if let Some(held_up) = held_up {
            held_up.let_go(host)?;
        }
        if let Calls::Idle = self {
            // Whoever watches from outside sees the workers go.
            thread::sleep(&rt, Duration::from_millis(1500));
        }
        Ok(())
    }

    // What has to be there before the first call: a limit for each client, and calls of one that are held up.
    fn prepare<R: Runtime + RandomSource>(
        self,
        rt: HostRuntime,
        host: R,
        executor: &Workers<R>,
    ) -> io::Result<Option<HeldUp<R>>> {
        match self {
            Calls::ClientsBlocked => {
                set_client_limit(executor, Some(1));
                Ok(Some(HeldUp::begin(rt, host, executor)?))
            }
            Calls::ClientsMany => {
                set_client_limit(executor, Some(1));
                Ok(None)
            }
            _ => Ok(None),
        }
    }

    // So many calls, in the name's unit.
    fn once<R: Runtime + RandomSource>(
        self,
        rt: HostRuntime,
        host: R,
        executor: &Workers<R>,
        size: usize,
        figures: &mut Figures,
    ) -> io::Result<u64> {
        let start = Instant::now(&rt)?;
        self.call_all(rt, host, executor, size, figures)?;
        let nanos = start.elapsed(&rt)?.as_nanos();
        Ok(match self {
            Calls::Idle => each(nanos, 1_000_000),
            _ => each(nanos, size),
        })
    }

    // So many calls, made in this way.
    fn call_all<R: Runtime + RandomSource>(
        self,
        rt: HostRuntime,
        host: R,
        executor: &Workers<R>,
        size: usize,
        figures: &mut Figures,
    ) -> io::Result<()> {
        match self {
            Calls::Roundtrip => roundtrip(&rt, host, executor, 0, size, figures),
            Calls::ClientsBlocked => roundtrip(&rt, host, executor, BESIDE, size, figures),
            Calls::RoundtripAwait => roundtrip_await(host, executor, size),
            Calls::Burst | Calls::BurstLimited => burst(host, executor, 1, size),
            Calls::ClientsMany => burst(host, executor, CLIENTS, size),
            Calls::Idle => sleepers(rt, host, executor, size),
        }
    }
}

fn nanos(time: Duration) -> u64 {
    u64::try_from(time.as_nanos()).unwrap_or(u64::MAX)
}

fn failed() -> io::Error {
    io::Error::from(io::ErrorKind::Other)
}

fn check(answer: u64, wanted: u64) -> io::Result<()> {
    if answer == wanted {
        Ok(())
    } else {
        Err(failed())
    }
}

fn begun<R: Runtime + RandomSource>(
    executor: &Workers<R>,
    work: Work,
) -> io::Result<Task<Work, R>> {
    match unblock(executor, work) {
        Ok(task) => Ok(task),
        Err(_) => Err(failed()),
    }
}

fn begun_for<R: Runtime + RandomSource>(
    executor: &Workers<R>,
    client: u32,
    work: Work,
) -> io::Result<Task<Work, R>> {
    match unblock_for(executor, client, work) {
        Ok(task) => Ok(task),
        Err(_) => Err(failed()),
    }
}

// The calls of a client of which one may run: the first sleeps until they are let go, and the others are queued behind it.
#[derive(Drop)]
struct HeldUp<R: Runtime> {
    flag: Arc<AtomicBool>,
    first: Task<Work, R>,
    tasks: Vec<Task<Work, R>>,
}

impl<R: Runtime + RandomSource> HeldUp<R> {
    fn begin(rt: HostRuntime, host: R, executor: &Workers<R>) -> io::Result<HeldUp<R>> {
        let flag = Arc::new(host.alloc(), AtomicBool::new(false))?;
        let until = Work::Until(rt, Arc::try_clone(&flag)?);
        let first = begun_for(executor, HELD_UP, until)?;
        // (at its limit before the others are queued, so that the pool doesn't grow for them)
        await_taken(host, executor);
        let mut tasks = Vec::with_capacity(host.alloc(), QUEUED)?;
        for n in 0..QUEUED {
            tasks.push(begun_for(executor, HELD_UP, Work::Succeed(n as u64))?)?;
        }
        Ok(HeldUp { flag, first, tasks })
    }

    // Lets the calls go, and awaits them.
    fn let_go(self, host: R) -> io::Result<()> {
        let HeldUp { flag, first, tasks } = self;
        flag.store(true, Ordering::SeqCst);
        first.detach();
        await_all(host, tasks, None)
    }
}

// Waits until no job is queued.
fn await_taken<R: Runtime + RandomSource>(host: R, executor: &Workers<R>) {
    for _ in host.forever() {
        if executor.counts().queued == 0 {
            return;
        }
        thread::yield_now();
    }
}

// Makes a call, which is to answer 42, and awaits it through a queue of tasks.
fn call_by<R: Runtime + RandomSource>(
    host: R,
    executor: &Workers<R>,
    queue: &Queue,
) -> io::Result<()> {
    let task = begun(executor, Work::Succeed(41))?;
    if task.is_taken() {
        return Err(failed());
    }
    check(block_on_queue(&host, queue, task)?, 42)
}

fn call_in_turn<R: Runtime + RandomSource>(
    host: R,
    executor: &Workers<R>,
    queue: &Queue,
    size: usize,
) -> io::Result<()> {
    for _ in 0..size {
        call_by(host, executor, queue)?;
    }
    Ok(())
}

// One call of a client after another, each awaited by a `block_on` of its own.
fn roundtrip<R: Runtime + RandomSource>(
    rt: &HostRuntime,
    host: R,
    executor: &Workers<R>,
    client: u32,
    size: usize,
    figures: &mut Figures,
) -> io::Result<()> {
    let mut last = Instant::now(rt)?;
    for _ in 0..size {
        let task = begun_for(executor, client, Work::Succeed(41))?;
        if task.is_taken() {
            return Err(failed());
        }
        check(block_on(&host, task)?, 42)?;
        let now = Instant::now(rt)?;
        figures.note_unit(nanos(now.duration_since(last)));
        last = now;
    }
    Ok(())
}

// One call after another, all awaited through one queue of tasks, which is what `block_on` makes anew each time.
fn roundtrip_await<R: Runtime + RandomSource>(
    host: R,
    executor: &Workers<R>,
    size: usize,
) -> io::Result<()> {
    let queue = Queue::new(&host, Doorbell::parking())?;
    let _hold = queue.hold()?;
    call_in_turn(host, executor, &queue, size)
}

// Tasks that are polled to their ends in order, the one that is next by its place.
#[derive(Drop)]
struct InOrder<R: Runtime> {
    tasks: Vec<Task<Work, R>>,
    next: usize,
    // What each is to answer; none stands for one more than its place.
    wanted: Option<u64>,
}

impl<R: Runtime> Future for InOrder<R> {
    type Output = io::Result<()>;

    fn poll(&mut self, cx: &mut Context<'_>) -> Poll<io::Result<()>> {
        for _ in self.next..self.tasks.len() {
            let Some(task) = self.tasks.get_mut(self.next) else {
                break;
            };
            if task.is_taken() {
                return Poll::Ready(Err(failed()));
            }
            let Poll::Ready(answer) = task.poll(cx) else {
                return Poll::Pending;
            };
            self.next = self.next.saturating_add(1);
            if answer != self.wanted.unwrap_or(self.next as u64) {
                return Poll::Ready(Err(failed()));
            }
        }
        Poll::Ready(Ok(()))
    }
}

// All calls first, spread over so many clients from client 0 on, then each answer in order, in one `block_on`.
fn burst<R: Runtime + RandomSource>(
    host: R,
    executor: &Workers<R>,
    clients: u32,
    size: usize,
) -> io::Result<()> {
    let mut tasks = Vec::with_capacity(host.alloc(), size)?;
    for n in 0..size {
        let number = u32::try_from(n).unwrap_or(0);
        let client = number.checked_rem(clients).unwrap_or(0);
        tasks.push(begun_for(executor, client, Work::Succeed(n as u64))?)?;
    }
    await_all(host, tasks, None)
}

// Calls that sleep, all at once.
fn sleepers<R: Runtime + RandomSource>(
    rt: HostRuntime,
    host: R,
    executor: &Workers<R>,
    size: usize,
) -> io::Result<()> {
    let mut tasks = Vec::with_capacity(host.alloc(), size)?;
    for _ in 0..size {
        tasks.push(begun(executor, Work::Sleep(rt, MILLIS))?)?;
    }
    await_all(host, tasks, Some(MILLIS))
}

fn await_all<R: Runtime + RandomSource>(
    host: R,
    tasks: Vec<Task<Work, R>>,
    wanted: Option<u64>,
) -> io::Result<()> {
    let in_order = InOrder {
        tasks,
        next: 0,
        wanted,
    };
    block_on(&host, in_order)?
}
