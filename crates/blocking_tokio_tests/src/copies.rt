//! Copies of lent files, by the kit's `copy`.
ghost use Rattle.std.specs.Prelude.{IfOk};
ghost use Rattle.blocking_tokio_tests.specs.Copied.{IsCopied};

use crate::files::{Lent, Place, System};
use blocking::{AsyncRead, AsyncWrite, Host, Unblock};
use blocking_tokio::{CompatReader, CompatWriter};
use futures::executor::block_on;
use std::io;
use std::test::Fail;
use tokio::io::copy;

// Copies a reader to its end, and gives how many bytes that were. They are flushed.
fn copied<A: AsyncRead + Drop, B: AsyncWrite + Drop, H: Host>(
    rt: &H,
    from: A,
    to: B,
) -> io::Result<u64>
    requires from { A.closed from → ⊥ }
    requires to { B.closed to → ⊥ }
    ensures { IfOk result (IsCopied A.reads B.writes from to) }
{
    let copying = copy(rt.alloc(), CompatReader::new(from), CompatWriter::new(to))?;
    let (count, _, _) = block_on(rt, copying)??;
    Ok(count)
}

// So many bytes, byte i being i modulo 251, so that one piece differs from the next.
fn numbered<H: Host>(rt: &H, count: usize) -> io::Result<Vec<u8>> {
    let mut bytes = Vec::with_capacity(rt.alloc(), count)?;
    let mut byte = 0u8;
    for _ in 0..count {
        bytes.push(byte)?;
        byte = if byte == 250 { 0 } else { byte.wrapping_add(1) };
    }
    Ok(bytes)
}

fn copies<H: System>(rt: H, count: usize) -> io::Result<bool> {
    let place = Place::new(rt, "blocking_tokio_copies")?;
    let bytes = numbered(&rt, count)?;
    let (from, to) = (place.open("from", &bytes)?, place.create("to")?);
    let (readers, writers) = (place.executor()?, place.executor()?);
    let from: Lent<H> = Unblock::new(readers, from);
    let to: Lent<H> = Unblock::new(writers, to);
    let told = copied(&rt, from, to)?;
    Ok(told == count as u64 && place.bytes("to")? == bytes)
}

#[test]
fn lent_file_is_copied(rt: HostRuntime) -> Result<(), Fail> {
    for count in [0, 1, 300_000] {
        assert!(rt; copies(rt, count)?, "{count}");
    }
    Ok(())
}
