//! From an owner to one that is open, and back; and the handle in its place.
use crate::handle::Sheet;
use blocking::{
    AsyncWrite, AsyncWriteExt, Executor, Host, Job, Runtime, Unblock, WriteJob, Writer,
};
use blocking_anytime::{Open, OpenWriter};
use blocking_core::pool::Carries;
use futures::Future;
use futures::executor::block_on;
use futures::task::{Context, Poll};
use std::alloc::AllocGlobal;
use std::io;
use std::random::RandomSource;
use std::test::Fail;

fn writer<H: Host>(rt: H) -> io::Result<Writer<Sheet, H>> {
    let sheet = Sheet::new(rt.alloc(), "....")?;
    let executor: Executor<WriteJob<Sheet, H>, H> = Executor::new(rt, Some("1"))?;
    Ok(Unblock::new(executor, sheet))
}

// Whether a word is written.
fn writes<A: AsyncWrite, H: Runtime + RandomSource>(rt: &H, writer: &mut A) -> io::Result<bool>
    requires { A.closed writer.old → ⊥ }
{
    Ok(block_on(rt, writer.write_all("oak".as_bytes()))?.is_ok())
}

// Whether it closes.
fn closes<A: AsyncWrite, H: Runtime + RandomSource>(rt: &H, owner: &mut A) -> io::Result<bool> {
    Ok(block_on(rt, owner.close())?.is_ok())
}

// Makes an owner open, takes it back, and closes it. Whether it was made open, written and closed, and what becomes of the closed one.
fn there_and_back_in<J: Job + Carries<WriteJob<Sheet, H>>, H: Runtime + RandomSource>(
    rt: H,
    owner: Unblock<Sheet, (), J, H>,
) -> io::Result<(bool, bool)> {
    let Ok(mut open) = Open::from_owner(owner) else {
        return Ok((false, false));
    };
    let is_written = writes(&rt, &mut open);
    let mut owner = open.into_owner();
    let is_closed = closes(&rt, &mut owner);
    let made: Result<Open<Sheet, (), J, H>, Unblock<Sheet, (), J, H>> = Open::try_from(owner);
    let comes_back = match made {
        Ok(_) => false,
        Err(back) => back.is_closed(),
    };
    Ok((is_written? && is_closed?, comes_back))
}

fn there_and_back<H: Host>(rt: H) -> io::Result<(bool, bool)> {
    there_and_back_in(rt, writer(rt)?)
}

#[test]
fn an_owner_that_is_closed_comes_back(rt: HostRuntime) -> Result<(), Fail> {
    assert_eq!(rt; there_and_back(rt)?, (true, true));
    Ok(())
}

// Waits for the handle, and tells how often it was flushed. (over any job type: else the struct would have to say that this one is a job)
#[derive(Drop)]
struct Look<J: Job, H: Runtime> {
    open: Open<Sheet, (), J, H>,
}

impl<J: Job, H: Runtime> Future for Look<J, H> {
    type Output = u32;

    fn poll(&mut self, cx: &mut Context<'_>) -> Poll<u32> {
        match self.open.poll_get_mut(cx) {
            Poll::Pending => Poll::Pending,
            Poll::Ready(sheet) => Poll::Ready(sheet.flushes),
        }
    }
}

// Whether the handle is there as it is lent and comes back, whether a word was written meanwhile, and how often it was flushed.
#[derive(Clone, Copy)]
struct InPlace {
    at_first: bool,
    is_written: bool,
    while_lent: bool,
    flushes: u32,
    at_last: bool,
}

// The handle is with its owner, then with a job, and comes back.
fn in_its_place_of<J: Job + Carries<WriteJob<Sheet, H>>, H: Runtime + RandomSource>(
    rt: H,
    mut open: Open<Sheet, (), J, H>,
) -> io::Result<InPlace> {
    let at_first = open.handle_mut().is_some();
    let is_written = writes(&rt, &mut open);
    let while_lent = open.handle_mut().is_some();
    let mut look = Look { open };
    let flushes = block_on(&rt, &mut look);
    let at_last = look.open.handle_mut().is_some();
    Ok(InPlace {
        at_first,
        is_written: is_written?,
        while_lent,
        flushes: flushes?,
        at_last,
    })
}

fn in_its_place<H: Host>(rt: H) -> io::Result<InPlace> {
    let sheet = Sheet::new(rt.alloc(), "....")?;
    let executor: Executor<WriteJob<Sheet, H>, H> = Executor::new(rt, Some("1"))?;
    let open: OpenWriter<Sheet, H> = Open::new(executor, sheet);
    in_its_place_of(rt, open)
}

#[test]
fn the_handle_is_lent_and_comes_back(rt: HostRuntime) -> Result<(), Fail> {
    let seen = in_its_place(rt)?;
    assert!(rt; seen.is_written);
    assert_eq!(rt;
        (seen.at_first, seen.while_lent, seen.at_last),
        (true, false, true)
    );
    assert_eq!(rt; seen.flushes, 1);
    Ok(())
}
