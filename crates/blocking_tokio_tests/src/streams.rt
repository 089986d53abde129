//! The items of a lent iterator, sent into a channel of the kit's.
use blocking::{Executor, Host, ItemJob, Items, Unblock};
use futures::channel::mpsc;
use futures::executor::block_on;
use futures::future::join;
use futures::{SinkExt, StreamExt, TryStreamExt};
use std::io;
use std::io::ErrorKind;
use std::ops::Range;
use std::test::Fail;

type Numbers<H> = Items<Range<u32>, u32, H>;

// Whether as many numbers as there are come through a channel for two, and in order.
fn comes_through<H: Host>(rt: H, count: u32) -> io::Result<bool> {
    let executor: Executor<ItemJob<Range<u32>, u32, H>, H> = Executor::new(rt, Some("1"))?;
    let numbers: Numbers<H> = Unblock::with_capacity(3, executor, 0..count);
    let (sender, receiver) = mpsc::channel(rt.alloc(), 2)?;
    let sender = sender.sink_map_err(|_| io::Error::from(ErrorKind::BrokenPipe));
    let sending = numbers.err_into::<_, _, io::Error>().forward(sender);
    let (sent, received) = block_on(&rt, join(sending, receiver.collect(rt.alloc())))?;
    let received = received?;
    Ok(sent.is_ok() && received.iter().copied().eq(0..count))
}

#[test]
fn items_come_through_a_channel(rt: HostRuntime) -> Result<(), Fail> {
    assert!(rt; comes_through(rt, 1000)?);
    Ok(())
}
