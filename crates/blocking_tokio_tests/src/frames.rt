//! Frames of `tokio_util` over lent files.
use crate::files::{Lent, Place, System};
use blocking::{AsyncRead, AsyncWrite, Host, Unblock};
use blocking_tokio::{CompatReader, CompatWriter};
use bytes::Bytes;
use futures::executor::block_on;
use futures::{SinkExt, StreamExt, TryStreamExt};
use std::io;
use std::test::Fail;
use tokio_util::codec::{
    FramedRead, FramedWrite, LengthDelimitedCodec, LinesCodec, LinesCodecError,
};

// The lines of what is read, by a codec.
fn lines_of<A: AsyncRead + Drop, H: Host>(
    rt: &H,
    reader: A,
) -> io::Result<Vec<Result<String, LinesCodecError>>>
    requires { A.closed reader → ⊥ }
{
    let frames = FramedRead::new(rt.alloc(), CompatReader::new(reader), LinesCodec::new())?;
    Ok(block_on(rt, frames.collect(rt.alloc()))??)
}

// Writes a frame with these bytes, and shuts the writer down: its handle goes once all is written.
fn send<B: AsyncWrite + Drop, H: Host>(rt: &H, writer: B, payload: Bytes) -> io::Result<bool>
    requires { B.closed writer → ⊥ }
{
    let codec = LengthDelimitedCodec::new();
    let frames = FramedWrite::new(rt.alloc(), CompatWriter::new(writer), codec)?;
    let frames = block_on(rt, SinkExt::<Bytes>::send(frames, payload))??;
    let frames = block_on(rt, SinkExt::<Bytes>::close(frames))??;
    Ok(frames.into_parts().io.is_shut())
}

fn seen<H: System>(rt: H) -> io::Result<bool> {
    let place = Place::new(rt, "blocking_tokio_frames")?;
    let file = place.open("lines", b"one\ntwo\n")?;
    let executor = place.executor()?;
    let reader: Lent<H> = Unblock::new(executor, file);
    let lines = lines_of(&rt, reader)?;
    let mut text = String::new(rt.alloc());
    for line in &lines {
        if let Ok(line) = line {
            text.push_str(line)?;
            text.push('|')?;
        }
    }
    let (executor, file) = (place.executor()?, place.create("frame")?);
    let writer: Lent<H> = Unblock::new(executor, file);
    let is_shut = send(&rt, writer, Bytes::from_static(b"hello"))?;
    let frame = place.bytes("frame")?;
    Ok(text.as_str() == "one|two|" && is_shut && frame.as_slice() == b"\0\0\0\x05hello".as_slice())
}

#[test]
fn frames_of_lent_files(rt: HostRuntime) -> Result<(), Fail> {
    assert!(rt; seen(rt)?);
    Ok(())
}
