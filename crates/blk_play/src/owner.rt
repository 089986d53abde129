//! The owner of a scripted handle, over any pool that carries its jobs.
use crate::handle::{Handle, Jump};
use crate::patience::{POLLS, Patience};
use crate::stage::{Ask, Lasting, Leaving, Owner, Reply, Why};
use crate::work::Carrier;
use blocking::{
    AsyncRead, AsyncReadExt, AsyncSeek, AsyncSeekExt, AsyncWrite, AsyncWriteExt, IntoInner,
    IoFault, Runtime, Unblock,
};
use blocking_anytime::Open;
use blocking_core::io::Fault;
use blocking_core::pool::{Job, Refusal, Refused};
use futures::task::{Context, Poll};
use futures::test::MockTask;
use futures::{Future, Stream};
use std::fmt::Write;
use std::io;
use std::io::{ErrorKind, SeekFrom};

type Lent<J, H> = Unblock<Handle, u64, J, H>;

/// An owner that can't be closed.
pub(crate) type Opened<J, H> = Open<Handle, u64, J, H>;

/// An owner, or what is left of one whose handle was asked for for good.
#[derive(Drop)]
pub(crate) enum Lending<J: Job, H: Runtime> {
    Owner(Lent<J, H>),
    /// One that can't be closed.
    Open(Opened<J, H>),
    Taking(IntoInner<Handle, u64, J, H>),
    Taken(Handle),
    Nothing,
}

/// What the fault of a call is.
pub(crate) fn why_of(fault: &IoFault) -> Why {
    match fault {
        Fault::Io(error) => match error.raw_os_error() {
            Some(number) => Why::System(number),
            None => match error.kind() {
                ErrorKind::UnexpectedEof => Why::Early,
                ErrorKind::Unsupported => Why::Unsupported,
                ErrorKind::OutOfMemory => Why::Memory,
                _ => Why::Input,
            },
        },
        Fault::WriteZero => Why::WriteZero,
        Fault::Refused(why) => Why::Refused(*why),
    }
}

fn failed(fault: IoFault) -> Reply {
    Reply::Failed(why_of(&fault))
}

fn done(came: Poll<Result<(), IoFault>>) -> Poll<Reply> {
    match came {
        Poll::Pending => Poll::Pending,
        Poll::Ready(Ok(())) => Poll::Ready(Reply::Done),
        Poll::Ready(Err(fault)) => Poll::Ready(failed(fault)),
    }
}

fn read_once<A: AsyncRead>(owner: &mut A, cx: &mut Context<'_>, room: &mut [u8]) -> Poll<Reply>
    requires { A.closed owner.old → ⊥ }
{
    match owner.poll_read(cx, room) {
        Poll::Pending => Poll::Pending,
        Poll::Ready(Ok(count)) => Poll::Ready(Reply::Read(count)),
        Poll::Ready(Err(fault)) => Poll::Ready(failed(fault)),
    }
}

fn write_once<A: AsyncWrite>(owner: &mut A, cx: &mut Context<'_>, bytes: &[u8]) -> Poll<Reply>
    requires { A.closed owner.old → ⊥ }
{
    match owner.poll_write(cx, bytes) {
        Poll::Pending => Poll::Pending,
        Poll::Ready(Ok(count)) => Poll::Ready(Reply::Wrote(count)),
        Poll::Ready(Err(fault)) => Poll::Ready(failed(fault)),
    }
}

fn next_once<A: Stream<Item = Result<u64, Refusal>>>(
    owner: &mut A,
    cx: &mut Context<'_>,
) -> Poll<Reply>
    requires { A.can_poll owner.old }
{
    match owner.poll_next(cx) {
        Poll::Pending => Poll::Pending,
        Poll::Ready(Some(Ok(item))) => Poll::Ready(Reply::Item(item)),
        Poll::Ready(Some(Err(why))) => Poll::Ready(Reply::Failed(Why::Refused(why))),
        Poll::Ready(None) => Poll::Ready(Reply::NoMore),
    }
}

fn seek_once<A: AsyncSeek>(owner: &mut A, cx: &mut Context<'_>, to: SeekFrom) -> Poll<Reply>
    requires { A.closed owner.old → ⊥ }
{
    match owner.poll_seek(cx, to) {
        Poll::Pending => Poll::Pending,
        Poll::Ready(Ok(place)) => Poll::Ready(Reply::Number(place)),
        Poll::Ready(Err(fault)) => Poll::Ready(failed(fault)),
    }
}

fn handle_once<J: Job, H: Runtime>(owner: &mut Lent<J, H>, cx: &mut Context<'_>) -> Poll<Reply> {
    if owner.is_closed() {
        return Poll::Ready(Reply::Nothing);
    }
    match owner.poll_get_mut(cx) {
        Poll::Pending => Poll::Pending,
        Poll::Ready(handle) => Poll::Ready(Reply::Handle(handle.place())),
    }
}

// The reply of a finished operation. A refused one comes back unchanged.
fn result_of(came: Result<u64, Refused<Jump>>, to: u64) -> Reply {
    match came {
        Ok(number) => Reply::Number(number),
        Err(Refused { back, why }) if back.to == to => Reply::Refused(why),
        Err(_) => Reply::Nothing,
    }
}

// What one poll of a new operation shows, which is given up then.
fn operate_once<J: Carrier<H>, H: Runtime + Drop>(
    owner: &mut Lent<J, H>,
    task: &MockTask,
    to: u64,
) -> Poll<Reply> {
    if owner.is_closed() {
        return Poll::Ready(Reply::Nothing);
    }
    let mut jump = owner.with_mut(Jump { to });
    match task.poll(&mut jump) {
        Poll::Pending => Poll::Pending,
        Poll::Ready(came) => Poll::Ready(result_of(came, to)),
    }
}

// What one poll of a call shows that is neither an operation nor asks for the handle for good.
fn polled<J: Carrier<H>, H: Runtime + Drop>(
    owner: &mut Lent<J, H>,
    cx: &mut Context<'_>,
    ask: &Ask,
    room: &mut [u8],
) -> Poll<Reply> {
    match ask {
        Ask::Flush => done(owner.poll_flush(cx)),
        Ask::Close => done(owner.poll_close(cx)),
        _ if owner.is_closed() => Poll::Ready(Reply::Nothing),
        Ask::Read(_) => read_once(owner, cx, room),
        Ask::Next => next_once(owner, cx),
        Ask::Seek(to) => seek_once(owner, cx, *to),
        Ask::Handle => handle_once(owner, cx),
        Ask::Write(_) | Ask::Operate(_) | Ask::Inner => Poll::Ready(Reply::Nothing),
    }
}

// The same of an owner that can't be closed.
fn polled_open<J: Carrier<H>, H: Runtime + Drop>(
    owner: &mut Opened<J, H>,
    cx: &mut Context<'_>,
    ask: &Ask,
    room: &mut [u8],
) -> Poll<Reply> {
    match ask {
        Ask::Flush => done(owner.poll_flush(cx)),
        Ask::Close => done(owner.poll_close(cx)),
        Ask::Read(_) => read_once(owner, cx, room),
        Ask::Next => next_once(owner, cx),
        Ask::Seek(to) => seek_once(owner, cx, *to),
        Ask::Handle => match owner.poll_get_mut(cx) {
            Poll::Pending => Poll::Pending,
            Poll::Ready(handle) => Poll::Ready(Reply::Handle(handle.place())),
        },
        Ask::Write(_) | Ask::Operate(_) | Ask::Inner => Poll::Ready(Reply::Nothing),
    }
}

fn write_if_open<J: Carrier<H>, H: Runtime + Drop>(
    owner: &mut Lent<J, H>,
    cx: &mut Context<'_>,
    bytes: &[u8],
) -> Poll<Reply> {
    if owner.is_closed() {
        return Poll::Ready(Reply::Nothing);
    }
    write_once(owner, cx, bytes)
}

/// What a future gives that is polled again after each wake; None where no wake comes.
pub(crate) fn awaited<F: Future<Output: Drop> + Drop>(
    mut future: F,
    task: &MockTask,
    patience: &Patience,
) -> Option<F::Output>
    requires { F.can_poll future }
{
    for _ in 0..POLLS {
        match task.poll(&mut future) {
            Poll::Ready(output) => return Some(output),
            Poll::Pending if patience.until(|| task.is_woken()) => {}
            Poll::Pending => return None,
        }
    }
    None
}

// Polls a future once, if it is to be, and drops it once that holds. Whether it waited, and that came to hold.
fn left<F: Future<Output: Drop> + Drop, M: Fn() -> bool>(
    mut future: F,
    task: &MockTask,
    patience: &Patience,
    is_polled: bool,
    met: M,
) -> bool
    requires ready { F.can_poll future }
    requires callable { M.IsAlwaysCallable met }
{
    !is_polled || task.poll(&mut future).is_pending() && patience.until(met)
}

// Leaves a future that any open reader and writer has.
fn leaves_open<A: AsyncRead + AsyncWrite, M: Fn() -> bool>(
    owner: &mut A,
    task: &MockTask,
    patience: &Patience,
    leaving: Leaving<'_>,
    room: &mut [u8],
    rest: &mut Vec<u8>,
    met: M,
) -> bool
    requires reads { A.AsyncRead.closed owner.old → ⊥ }
    requires writes { A.AsyncWrite.closed owner.old → ⊥ }
    requires callable { M.IsAlwaysCallable met }
{
    let Leaving { lasting, is_polled } = leaving;
    match lasting {
        Lasting::Exact(_) => left(owner.read_exact(room), task, patience, is_polled, met),
        Lasting::Rest => left(owner.read_to_end(rest), task, patience, is_polled, met),
        Lasting::Whole(bytes) => {
            left(
                owner.write_all(bytes.as_slice()),
                task,
                patience,
                is_polled,
                met,
            )
        }
        _ => false,
    }
}

fn reads_exactly<A: AsyncRead>(
    owner: &mut A,
    task: &MockTask,
    patience: &Patience,
    room: &mut [u8],
) -> Poll<Reply>
    requires { A.closed owner.old → ⊥ }
{
    let count = room.len();
    match awaited(owner.read_exact(room), task, patience) {
        None => Poll::Pending,
        Some(Ok(())) => Poll::Ready(Reply::Read(count)),
        Some(Err(fault)) => Poll::Ready(failed(fault)),
    }
}

fn reads_some<A: AsyncRead>(
    owner: &mut A,
    task: &MockTask,
    patience: &Patience,
    room: &mut [u8],
) -> Poll<Reply>
    requires { A.closed owner.old → ⊥ }
{
    match awaited(owner.read(room), task, patience) {
        None => Poll::Pending,
        Some(Ok(count)) => Poll::Ready(Reply::Read(count)),
        Some(Err(fault)) => Poll::Ready(failed(fault)),
    }
}

fn writes_some<A: AsyncWrite>(
    owner: &mut A,
    task: &MockTask,
    patience: &Patience,
    bytes: &[u8],
) -> Poll<Reply>
    requires { A.closed owner.old → ⊥ }
{
    match awaited(owner.write(bytes), task, patience) {
        None => Poll::Pending,
        Some(Ok(count)) => Poll::Ready(Reply::Wrote(count)),
        Some(Err(fault)) => Poll::Ready(failed(fault)),
    }
}

fn seeks<A: AsyncSeek>(
    owner: &mut A,
    task: &MockTask,
    patience: &Patience,
    to: SeekFrom,
) -> Poll<Reply>
    requires { A.closed owner.old → ⊥ }
{
    match awaited(owner.seek(to), task, patience) {
        None => Poll::Pending,
        Some(Ok(place)) => Poll::Ready(Reply::Number(place)),
        Some(Err(fault)) => Poll::Ready(failed(fault)),
    }
}

// Flushes, or closes.
fn settles<A: AsyncWrite>(
    owner: &mut A,
    task: &MockTask,
    patience: &Patience,
    is_closed: bool,
) -> Poll<Reply> {
    let settled = if is_closed {
        awaited(owner.close(), task, patience)
    } else {
        awaited(owner.flush(), task, patience)
    };
    match settled {
        None => Poll::Pending,
        Some(Ok(())) => Poll::Ready(Reply::Done),
        Some(Err(fault)) => Poll::Ready(failed(fault)),
    }
}

// What a future answers that any open reader, writer and seeker has.
fn finish_open<A: AsyncRead + AsyncWrite + AsyncSeek>(
    owner: &mut A,
    task: &MockTask,
    patience: &Patience,
    lasting: &Lasting,
    room: &mut [u8],
    rest: &mut Vec<u8>,
) -> Poll<Reply>
    requires reads { A.AsyncRead.closed owner.old → ⊥ }
    requires writes { A.AsyncWrite.closed owner.old → ⊥ }
    requires seeks { A.AsyncSeek.closed owner.old → ⊥ }
{
    match lasting {
        Lasting::Exact(_) => reads_exactly(owner, task, patience, room),
        Lasting::Rest => reads_rest(owner, task, patience, rest),
        Lasting::Whole(bytes) => writes_all(owner, task, patience, bytes.as_slice()),
        Lasting::Read(_) => reads_some(owner, task, patience, room),
        Lasting::Write(bytes) => writes_some(owner, task, patience, bytes.as_slice()),
        Lasting::Flush => settles(owner, task, patience, false),
        Lasting::Close => settles(owner, task, patience, true),
        Lasting::Seek(to) => seeks(owner, task, patience, *to),
        Lasting::Jump(_) | Lasting::Inner => Poll::Ready(Reply::Nothing),
    }
}

fn reads_rest<A: AsyncRead>(
    owner: &mut A,
    task: &MockTask,
    patience: &Patience,
    out: &mut Vec<u8>,
) -> Poll<Reply>
    requires { A.closed owner.old → ⊥ }
{
    match awaited(owner.read_to_end(out), task, patience) {
        None => Poll::Pending,
        Some(Ok(count)) => Poll::Ready(Reply::Read(count)),
        Some(Err(fault)) => Poll::Ready(failed(fault)),
    }
}

fn writes_all<A: AsyncWrite>(
    owner: &mut A,
    task: &MockTask,
    patience: &Patience,
    bytes: &[u8],
) -> Poll<Reply>
    requires { A.closed owner.old → ⊥ }
{
    match awaited(owner.write_all(bytes), task, patience) {
        None => Poll::Pending,
        Some(Ok(())) => Poll::Ready(Reply::Done),
        Some(Err(fault)) => Poll::Ready(failed(fault)),
    }
}

// What an operation answers that is awaited.
fn operates<J: Carrier<H>, H: Runtime + Drop>(
    owner: &mut Lent<J, H>,
    task: &MockTask,
    patience: &Patience,
    to: u64,
) -> Poll<Reply> {
    if owner.is_closed() {
        return Poll::Ready(Reply::Nothing);
    }
    match awaited(owner.with_mut(Jump { to }), task, patience) {
        None => Poll::Pending,
        Some(came) => Poll::Ready(result_of(came, to)),
    }
}

// Polls an operation once and awaits it if `met` holds then.
fn operates_if<J: Carrier<H>, H: Runtime + Drop, M: Fn() -> bool>(
    owner: &mut Lent<J, H>,
    task: &MockTask,
    patience: &Patience,
    to: u64,
    met: M,
) -> Poll<Reply>
    requires { M.IsAlwaysCallable met }
{
    if owner.is_closed() {
        return Poll::Ready(Reply::Nothing);
    }
    let mut jump = owner.with_mut(Jump { to });
    if let Poll::Ready(came) = task.poll(&mut jump) {
        return Poll::Ready(result_of(came, to));
    }
    if !met() {
        return Poll::Pending;
    }
    match awaited(jump, task, patience) {
        None => Poll::Pending,
        Some(came) => Poll::Ready(result_of(came, to)),
    }
}

impl<J: Carrier<H>, H: Runtime + Drop> Lending<J, H> {
    // Asks for the handle for good, and drops that future at a point.
    fn leave_inner<F: Fn() -> bool>(
        &mut self,
        task: &MockTask,
        patience: &Patience,
        is_polled: bool,
        met: F,
    ) -> bool
        requires { F.IsAlwaysCallable met }
    {
        match std::mem::replace(self, Lending::Nothing) {
            Lending::Owner(owner) => {
                if owner.is_closed() {
                    return false;
                }
                left(owner.into_inner(), task, patience, is_polled, met)
            }
            other => {
                *self = other;
                false
            }
        }
    }

    // Polls for the handle, for good.
    fn take_back(&mut self, task: &MockTask) -> Poll<Reply> {
        match std::mem::replace(self, Lending::Nothing) {
            Lending::Owner(owner) => {
                if owner.is_closed() {
                    *self = Lending::Owner(owner);
                    return Poll::Ready(Reply::Nothing);
                }
                *self = Lending::Taking(owner.into_inner());
            }
            other => *self = other,
        }
        let Lending::Taking(taking) = self else {
            return Poll::Ready(Reply::Nothing);
        };
        if taking.is_taken() {
            return Poll::Ready(Reply::Nothing);
        }
        match task.poll(taking) {
            Poll::Pending => Poll::Pending,
            Poll::Ready(handle) => {
                let place = handle.place();
                *self = Lending::Taken(handle);
                Poll::Ready(Reply::Handle(place))
            }
        }
    }

    /// Awaits an operation that jumps to `to`. Returns Pending where `met` fails after the first poll.
    pub(crate) fn operate<F: Fn() -> bool>(
        &mut self,
        task: &MockTask,
        patience: &Patience,
        to: u64,
        met: F,
    ) -> Poll<Reply>
        requires { F.IsAlwaysCallable met }
    {
        match self {
            Lending::Owner(owner) => operates_if(owner, task, patience, to, met),
            _ => Poll::Ready(Reply::Nothing),
        }
    }

    /// Makes a future, may poll it once, waits until `met`, and drops it. Returns whether it waited and `met` came to hold.
    pub(crate) fn leave<F: Fn() -> bool>(
        &mut self,
        task: &MockTask,
        patience: &Patience,
        leaving: Leaving<'_>,
        room: &mut [u8],
        rest: &mut Vec<u8>,
        met: F,
    ) -> bool
        requires { F.IsAlwaysCallable met }
    {
        let Leaving { lasting, is_polled } = leaving;
        if let Lasting::Inner = lasting {
            return self.leave_inner(task, patience, is_polled, met);
        }
        let Lending::Owner(owner) = self else {
            return false;
        };
        if owner.is_closed() {
            return false;
        }
        match lasting {
            Lasting::Jump(to) => {
                left(
                    owner.with_mut(Jump { to: *to }),
                    task,
                    patience,
                    is_polled,
                    met,
                )
            }
            _ => leaves_open(owner, task, patience, leaving, room, rest, met),
        }
    }
}

impl<J: Carrier<H>, H: Runtime + Drop> Owner for Lending<J, H> {
    fn place(&mut self) -> Option<u64> {
        match self {
            Lending::Owner(owner) => Some(owner.handle_mut()?.place()),
            Lending::Open(owner) => Some(owner.handle_mut()?.place()),
            Lending::Taking(_) | Lending::Taken(_) | Lending::Nothing => None,
        }
    }

    fn set_client(&mut self, client: u32) {
        *self = match std::mem::replace(self, Lending::Nothing) {
            Lending::Owner(owner) => Lending::Owner(owner.for_client(client)),
            other => other,
        };
    }

    fn poll(&mut self, task: &MockTask, ask: &Ask, room: &mut [u8]) -> Poll<Reply> {
        if let Ask::Inner = ask {
            return self.take_back(task);
        }
        match (self, ask) {
            (Lending::Owner(owner), Ask::Operate(to)) => operate_once(owner, task, *to),
            (Lending::Owner(owner), _) => task.enter(|cx| polled(owner, cx, ask, room)),
            (Lending::Open(owner), _) => task.enter(|cx| polled_open(owner, cx, ask, room)),
            _ => Poll::Ready(Reply::Nothing),
        }
    }

    fn write(&mut self, task: &MockTask, bytes: &[u8]) -> Poll<Reply> {
        match self {
            Lending::Owner(owner) => task.enter(|cx| write_if_open(owner, cx, bytes)),
            Lending::Open(owner) => task.enter(|cx| write_once(owner, cx, bytes)),
            Lending::Taking(_) | Lending::Taken(_) | Lending::Nothing => {
                Poll::Ready(Reply::Nothing)
            }
        }
    }

    fn finish(
        &mut self,
        task: &MockTask,
        patience: &Patience,
        lasting: &Lasting,
        room: &mut [u8],
        rest: &mut Vec<u8>,
    ) -> Poll<Reply> {
        let owner = match self {
            Lending::Owner(owner) => owner,
            Lending::Open(open) => return finish_open(open, task, patience, lasting, room, rest),
            _ => return Poll::Ready(Reply::Nothing),
        };
        if owner.is_closed() {
            return match lasting {
                Lasting::Flush => settles(owner, task, patience, false),
                Lasting::Close => settles(owner, task, patience, true),
                _ => Poll::Ready(Reply::Nothing),
            };
        }
        match lasting {
            Lasting::Jump(to) => operates(owner, task, patience, *to),
            _ => finish_open(owner, task, patience, lasting, room, rest),
        }
    }

    fn say(&self, text: &mut String) -> io::Result<()> {
        match self {
            Lending::Owner(owner) => Ok(write!(text, "{owner:?}")?),
            Lending::Open(owner) => Ok(write!(text, "{owner:?}")?),
            Lending::Taking(_) | Lending::Taken(_) | Lending::Nothing => {
                Ok(text.push_str("taken")?)
            }
        }
    }
}
