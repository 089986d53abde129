//! A writer that is shut down, and faults as the kit has them.
use crate::files::{Lent, Place, System};
use blocking::{AsyncRead, AsyncWrite, Host, Unblock};
use blocking_tokio::{CompatReader, CompatWriter};
use futures::executor::block_on;
use std::io;
use std::io::ErrorKind;
use std::test::Fail;
use tokio::io::{flush, read_exact, shutdown, write_all};

// Writes, shuts down, and writes again: how that failed.
fn written_after_a_shutdown<B: AsyncWrite + Drop, H: Host>(
    rt: &H,
    writer: B,
) -> io::Result<Option<ErrorKind>>
    requires { B.closed writer → ⊥ }
{
    let writer = CompatWriter::new(writer);
    let (writer, _) = block_on(rt, write_all(writer, b"kept".as_slice()))??;
    let writer = block_on(rt, flush(writer))??;
    if writer.is_shut() {
        return Ok(None);
    }
    let writer = block_on(rt, shutdown(writer))??;
    let writer = block_on(rt, shutdown(writer))??;
    let again = block_on(rt, write_all(writer, b"more".as_slice()))?;
    Ok(again.err().map(|error| error.kind()))
}

// Reads four bytes where there are three: how that failed.
fn read_past_the_end<A: AsyncRead + Drop, H: Host>(rt: &H, reader: A) -> io::Result<ErrorKind>
    requires { A.closed reader → ⊥ }
{
    let four = vec![in rt.alloc(); 0; 4]?;
    match block_on(rt, read_exact(CompatReader::new(reader), four))? {
        Ok(_) => Ok(ErrorKind::Other),
        Err(error) => Ok(error.kind()),
    }
}

fn fails_as_told<H: System>(rt: H) -> io::Result<bool> {
    let place = Place::new(rt, "blocking_tokio_shutdown")?;
    let (to, three) = (place.create("to")?, place.open("three", b"abc")?);
    let (writers, readers) = (place.executor()?, place.executor()?);
    let writer: Lent<H> = Unblock::new(writers, to);
    let after = written_after_a_shutdown(&rt, writer);
    let reader: Lent<H> = Unblock::new(readers, three);
    let (after, past) = (after?, read_past_the_end(&rt, reader)?);
    Ok(
        after == Some(ErrorKind::BrokenPipe)
            && past == ErrorKind::UnexpectedEof
            && place.bytes("to")?.as_slice() == b"kept".as_slice(),
    )
}

#[test]
fn shut_writer_takes_nothing(rt: HostRuntime) -> Result<(), Fail> {
    assert!(rt; fails_as_told(rt)?);
    Ok(())
}
