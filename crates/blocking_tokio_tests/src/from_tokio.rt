//! What the kit reads and writes, as readers and writers of this library.
use crate::files::{Lent, Place, System};
use blocking::{AsyncReadExt, AsyncWriteExt, Copier, Host, Unblock};
use blocking_tokio::FromTokio;
use bytes::BytesMut;
use futures::TryFutureExt;
use futures::executor::block_on;
use futures::future::join;
use std::io;
use std::test::Fail;
use tokio::io::{duplex, read_to_end, write_all};

// Copies what the far end of a pipe of the kit's sends to a lent file.
fn received<H: System>(rt: H) -> io::Result<bool> {
    let place = Place::new(rt, "blocking_tokio_from")?;
    let (near, far) = duplex(rt.alloc(), 3)?;
    let (executor, file) = (place.executor()?, place.create("to")?);
    let to: Lent<H> = Unblock::new(executor, file);
    let copier = Copier::new(rt.alloc(), FromTokio::new(near), to, 4)?;
    let sending = write_all(far, b"hello".as_slice()).map_ok(|_| ());
    let (copied, sent) = block_on(&rt, join(copier, sending))?;
    sent?;
    Ok(matches!(copied, Ok(5)) && place.bytes("to")?.as_slice() == b"hello".as_slice())
}

// Whether a pipe of the kit's whose one end was closed ends at the other, behind what was written.
fn ends_by_a_close<H: Host>(rt: &H) -> io::Result<bool> {
    let (near, far) = duplex(rt.alloc(), 8)?;
    let mut writer = FromTokio::new(near);
    block_on(rt, writer.write_all(b"abc"))??;
    block_on(rt, writer.close())??;
    let (_, read) = block_on(rt, read_to_end(far, BytesMut::new(rt.alloc())))??;
    Ok(writer.is_closed() && read.as_slice() == b"abc".as_slice())
}

// What the kit reads is read to its end, and what it writes is written, flushed and closed.
fn read_and_written<H: Host>(rt: &H) -> io::Result<bool> {
    let mut reader = FromTokio::new(b"abc".as_slice());
    let mut out = Vec::new(rt.alloc());
    let count = block_on(rt, reader.read_to_end(&mut out))??;
    let mut writer = FromTokio::new(Vec::new(rt.alloc()));
    block_on(rt, writer.write_all(&out))??;
    block_on(rt, writer.close())??;
    let is_closed = writer.is_closed();
    block_on(rt, writer.close())??;
    Ok(count == 3 && is_closed && writer.into_inner().as_slice() == b"abc".as_slice())
}

#[test]
fn pipe_of_the_kit_goes_to_a_lent_file(rt: HostRuntime) -> Result<(), Fail> {
    assert!(rt; received(rt)?);
    Ok(())
}

#[test]
fn kit_is_read_and_written(rt: HostRuntime) -> Result<(), Fail> {
    assert!(rt; read_and_written(&rt)?);
    Ok(())
}

#[test]
fn close_ends_a_pipe_of_the_kit(rt: HostRuntime) -> Result<(), Fail> {
    assert!(rt; ends_by_a_close(&rt)?);
    Ok(())
}
