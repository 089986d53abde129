//! The benchmarks of iterators that are streams, of seeks, and of operations on a lent handle.
ghost use Rattle.std.specs.Prelude.{◌<◌};

use crate::figures::{Figures, Request, each};
use crate::pipe::failed;
use blocking::{AsyncSeek, Executor, Host, ItemJob, OpJob, Runtime, SeekJob, Unblock};
use blocking_core::pipe::DEFAULT_ITEMS;
use blocking_core::pool::{Carries, Job, Refusal};
use blocking_core::task::CallOn;
use futures::executor::{block_on, block_on_queue};
use futures::task::{Context, Doorbell, Poll, Queue};
use futures::{Future, Stream};
use std::io;
use std::io::{Cursor, SeekFrom};
use std::random::RandomSource;
use std::sync::Wait;
use std::time::Instant;

/// What is done with a handle. The pipe of a stream is for the default of items, or for 100.
#[derive(Clone, Copy)]
pub(crate) enum Lent {
    /// 100,000 numbers of an iterator.
    Short,
    ShortBy100,
    /// 1,000,000 numbers of an iterator.
    Long,
    LongBy100,
    /// Seeks on a cursor.
    Seeks,
    /// Operations on a number.
    Operations,
}

// How many bytes the cursor is on.
const BYTES: usize = 1000;

impl Lent {
    pub(crate) fn name(self) -> &'static str {
        match self {
            Lent::Short => "stream_100k",
            Lent::ShortBy100 => "stream_100k_c100",
            Lent::Long => "stream_1m",
            Lent::LongBy100 => "stream_1m_c100",
            Lent::Seeks => "seek",
            Lent::Operations => "with_mut",
        }
    }

    pub(crate) fn unit(self) -> &'static str {
        match self {
            Lent::Seeks => "ns/seek",
            Lent::Operations => "ns/call",
            _ => "ns/item",
        }
    }

    pub(crate) fn size(self) -> usize {
        match self {
            Lent::Short | Lent::ShortBy100 => 100_000,
            Lent::Long | Lent::LongBy100 => 1_000_000,
            Lent::Seeks => 2_000,
            Lent::Operations => 5_000,
        }
    }

    // How many items the pipe of a stream holds.
    fn capacity(self) -> usize
        ensures { 0 < result }
    {
        match self {
            Lent::ShortBy100 | Lent::LongBy100 => 100,
            _ => DEFAULT_ITEMS,
        }
    }

    /// All items, seeks or operations of the request, once cold and then as often as is asked, in ns each.
    pub(crate) fn run<R: Host>(
        self,
        rt: HostRuntime,
        host: R,
        request: Request,
        figures: &mut Figures,
    ) -> io::Result<()> {
        match self {
            Lent::Seeks => seek_all(rt, host, request, figures),
            Lent::Operations => operate_all(rt, host, request, figures),
            _ => stream_all(rt, host, self.capacity(), request, figures),
        }
    }
}

// The numbers from 0 on, up to an end.
#[derive(Drop)]
struct Numbers {
    next: u64,
    end: u64,
}

impl Iterator for Numbers {
    type Item = u64;

    fn next(&mut self) -> Option<u64> {
        if self.next >= self.end {
            return None;
        }
        let number = self.next;
        self.next = number.saturating_add(1);
        Some(number)
    }
}

// Takes all items to the end, and gives how many came, each of them the next number. (none after another)
#[derive(Drop)]
struct Streaming<S: Stream<Item = Result<u64, Refusal>>, R: Runtime> {
    rt: R,
    items: S,
    came: u64,
}

impl<S: Stream<Item = Result<u64, Refusal>>, R: Runtime> Future for Streaming<S, R> {
    type Output = Option<u64>;

    ghost can_poll = { λ it. S.can_poll it.items };

    ghost needs = { λ it. S.needs it.items };

    fn poll(&mut self, cx: &mut Context<'_>) -> Poll<Option<u64>> {
        let rt = self.rt;
        for _ in rt.forever() {
            match self.items.poll_next(cx) {
                Poll::Pending => return Poll::Pending,
                Poll::Ready(Some(Ok(item))) if item == self.came => {
                    self.came = self.came.saturating_add(1);
                }
                Poll::Ready(None) => return Poll::Ready(Some(self.came)),
                Poll::Ready(_) => return Poll::Ready(None),
            }
        }
        unreachable!()
    }
}

fn stream_all<R: Host>(
    rt: HostRuntime,
    host: R,
    capacity: usize,
    request: Request,
    figures: &mut Figures,
) -> io::Result<()>
    requires { 0 < capacity }
{
    match Executor::<ItemJob<Numbers, u64, R>, R>::new(host, None) {
        Ok(executor) => stream_over(rt, &executor, capacity, request, figures),
        Err(_) => Err(failed()),
    }
}

fn stream_over<J, R>(
    rt: HostRuntime,
    executor: &Executor<J, R>,
    capacity: usize,
    request: Request,
    figures: &mut Figures,
) -> io::Result<()>
where
    J: Job + Carries<ItemJob<Numbers, u64, R>>,
    R: Runtime + RandomSource,
    requires { 0 < capacity }
{
    for rep in 0..=request.reps {
        let figure = stream_once(rt, executor, capacity, request.size)?;
        figures.note(rep, figure)?;
    }
    Ok(())
}

// One session, in ns an item.
fn stream_once<J, R>(
    rt: HostRuntime,
    executor: &Executor<J, R>,
    capacity: usize,
    size: usize,
) -> io::Result<u64>
where
    J: Job + Carries<ItemJob<Numbers, u64, R>>,
    R: Runtime + RandomSource,
    requires { 0 < capacity }
{
    let end = size as u64;
    let start = Instant::now(&rt)?;
    let numbers = Numbers { next: 0, end };
    let items = Unblock::with_capacity(capacity, executor.try_clone()?, numbers);
    if came_of(executor.runtime(), items)? != Some(end) {
        return Err(failed());
    }
    Ok(each(start.elapsed(&rt)?.as_nanos(), size))
}

// Counts the items of any stream.
fn came_of<S, R>(rt: R, items: S) -> io::Result<Option<u64>>
where
    S: Stream<Item = Result<u64, Refusal>>,
    R: Runtime + RandomSource,
    requires { S.can_poll items }
{
    let streaming = Streaming { rt, items, came: 0 };
    block_on(&rt, streaming)
}

// Seeks so many positions, one after another, and gives how many were made and right.
#[derive(Drop)]
struct Seeking<A: AsyncSeek + Drop, R: Runtime> {
    rt: R,
    owner: A,
    made: u64,
    size: u64,
}

impl<A: AsyncSeek + Drop, R: Runtime> Future for Seeking<A, R> {
    type Output = u64;

    ghost can_poll = { λ it. A.closed it.owner → ⊥ };

    fn poll(&mut self, cx: &mut Context<'_>) -> Poll<u64> {
        let rt = self.rt;
        for _ in rt.forever() {
            if self.made >= self.size {
                return Poll::Ready(self.made);
            }
            let place = self.made % BYTES as u64;
            match self.owner.poll_seek(cx, SeekFrom::Start(place)) {
                Poll::Pending => return Poll::Pending,
                Poll::Ready(Ok(came)) if came == place => {
                    self.made = self.made.saturating_add(1);
                }
                Poll::Ready(_) => return Poll::Ready(self.made),
            }
        }
        unreachable!()
    }
}

fn seek_all<R: Host>(
    rt: HostRuntime,
    host: R,
    request: Request,
    figures: &mut Figures,
) -> io::Result<()> {
    match Executor::<SeekJob<Cursor<Vec<u8>>, R>, R>::new(host, None) {
        Ok(executor) => seek_over(rt, &executor, request, figures),
        Err(_) => Err(failed()),
    }
}

fn seek_over<J, R>(
    rt: HostRuntime,
    executor: &Executor<J, R>,
    request: Request,
    figures: &mut Figures,
) -> io::Result<()>
where
    J: Job + Carries<SeekJob<Cursor<Vec<u8>>, R>>,
    R: Runtime + RandomSource,
{
    for rep in 0..=request.reps {
        let figure = seek_once(rt, executor, request.size)?;
        figures.note(rep, figure)?;
    }
    Ok(())
}

// All seeks of one owner, in ns each.
fn seek_once<J, R>(rt: HostRuntime, executor: &Executor<J, R>, size: usize) -> io::Result<u64>
where
    J: Job + Carries<SeekJob<Cursor<Vec<u8>>, R>>,
    R: Runtime + RandomSource,
{
    let bytes = vec![in rt.alloc(); 0u8; BYTES]?;
    let start = Instant::now(&rt)?;
    let owner = Unblock::<_, (), _, R>::new(executor.try_clone()?, Cursor::new(bytes));
    if made_by(executor.runtime(), owner, size as u64)? != size as u64 {
        return Err(failed());
    }
    Ok(each(start.elapsed(&rt)?.as_nanos(), size))
}

// Counts the seeks that any owner answers rightly.
fn made_by<A, R>(rt: R, owner: A, size: u64) -> io::Result<u64>
where
    A: AsyncSeek + Drop,
    R: Runtime + RandomSource,
    requires { A.closed owner → ⊥ }
{
    let seeking = Seeking {
        rt,
        owner,
        made: 0,
        size,
    };
    block_on(&rt, seeking)
}

// Adds to a number, and gives the sum.
#[derive(Drop)]
struct Add(u64);

impl CallOn<u64> for Add {
    type Out = u64;

    ghost may_give = { λ _. Unit {0} };

    fn call_on(self, io: &mut u64) -> u64 {
        *io = io.wrapping_add(self.0);
        *io
    }
}

// Whether so many operations give the numbers from 1 on, each made after the one before gave its own.
fn operate<J, R>(host: R, mut owner: Unblock<u64, (), J, R>, size: u64) -> io::Result<bool>
where
    J: Job + Carries<OpJob<Add, u64, R>>,
    R: Runtime + RandomSource,
{
    operate_by(host, &mut owner, size)
}

fn operate_by<J, R>(host: R, owner: &mut Unblock<u64, (), J, R>, size: u64) -> io::Result<bool>
where
    J: Job + Carries<OpJob<Add, u64, R>>,
    R: Runtime + RandomSource,
{
    let queue = Queue::new(&host, Doorbell::parking())?;
    let _hold = queue.hold()?;
    for made in 0..size {
        if owner.is_closed() {
            return Ok(false);
        }
        match block_on_queue(&host, &queue, owner.with_mut(Add(1)))? {
            Ok(sum) if sum == made.saturating_add(1) => {}
            _ => return Ok(false),
        }
    }
    Ok(true)
}

fn operate_all<R: Host>(
    rt: HostRuntime,
    host: R,
    request: Request,
    figures: &mut Figures,
) -> io::Result<()> {
    match Executor::<OpJob<Add, u64, R>, R>::new(host, None) {
        Ok(executor) => operate_over(rt, &executor, request, figures),
        Err(_) => Err(failed()),
    }
}

fn operate_over<J, R>(
    rt: HostRuntime,
    executor: &Executor<J, R>,
    request: Request,
    figures: &mut Figures,
) -> io::Result<()>
where
    J: Job + Carries<OpJob<Add, u64, R>>,
    R: Runtime + RandomSource,
{
    for rep in 0..=request.reps {
        let figure = operate_once(rt, executor, request.size)?;
        figures.note(rep, figure)?;
    }
    Ok(())
}

// All operations of one owner, in ns each.
fn operate_once<J, R>(rt: HostRuntime, executor: &Executor<J, R>, size: usize) -> io::Result<u64>
where
    J: Job + Carries<OpJob<Add, u64, R>>,
    R: Runtime + RandomSource,
{
    let start = Instant::now(&rt)?;
    let owner = Unblock::new(executor.try_clone()?, 0u64);
    if !operate(executor.runtime(), owner, size as u64)? {
        return Err(failed());
    }
    Ok(each(start.elapsed(&rt)?.as_nanos(), size))
}
