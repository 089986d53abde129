//! What `blk copy` does: a reader and a writer, each lent to the same pool, and a copy from the one to the other.
use crate::fault::BlkFault;
use blocking::{
    AsyncRead, AsyncWrite, Copier, CopyFault, CopyJobs, Executor, Fault, Host, IoFault, Reader,
    Unblock, Writer,
};
use futures::executor::block_on;
use std::io::{Read, Write};

// How many bytes are handed on at once.
const PIECE: usize = 65_536;

// How many bytes are read ahead at most, and how many written behind: two pieces, so that all of them stay in a processor's cache.
const AHEAD: usize = 131_072;

// What a fault is to who asked for the copy: a refusal, or that this side failed.
fn told(fault: IoFault, side: BlkFault) -> BlkFault {
    match fault {
        Fault::Refused(why) => BlkFault::Refused(why),
        Fault::Io(_) | Fault::WriteZero => side,
    }
}

// How a copy ended, to who asked for it.
fn outcome(copied: Result<u64, CopyFault>) -> Result<(), BlkFault> {
    match copied {
        Ok(_) => Ok(()),
        Err(CopyFault::Reading(why)) => Err(told(why, BlkFault::Reading)),
        Err(CopyFault::Writing(why)) => Err(told(why, BlkFault::Writing)),
    }
}

/// Copies a reader to a writer to the reader's end, and has all written and flushed. Both are lent to a pool of its own, whose
/// workers `setting` limits, if there is one.
///
/// It fails where a session is refused, where the reader or the writer fails, and where the copy couldn't be awaited. A fault of the
/// reader is reported at once: of what was read before it some beginning is written, and nothing need be flushed. The reader and the
/// writer are dropped before long.
pub fn copy<H: Host, R: Read + Drop + Send + 'static, W: Write + Drop + Send + 'static>(
    rt: H,
    setting: Option<&str>,
    input: R,
    output: W,
) -> Result<(), BlkFault> {
    let executor: Executor<CopyJobs<H, R, W>, H> = Executor::new(rt, setting).map_err(
        BlkFault::Refused,
    )?;
    let reader: Reader<R, H, CopyJobs<H, R, W>> = Unblock::with_capacity(
        AHEAD,
        executor.try_clone()?,
        input,
    );
    let writer: Writer<W, H, CopyJobs<H, R, W>> = Unblock::with_capacity(AHEAD, executor, output);
    copy_all(rt, reader, writer)
}

// Copies all that any reader gives to any writer.
fn copy_all<H: Host, A: AsyncRead + Drop, B: AsyncWrite + Drop>(
    rt: H,
    reader: A,
    writer: B,
) -> Result<(), BlkFault>
    requires reader_open { A.closed reader → ⊥ }
    requires writer_open { B.closed writer → ⊥ }
{
    let copier = Copier::new(rt.alloc(), reader, writer, PIECE)?;
    outcome(block_on(&rt, copier).map_err(|_| BlkFault::Running)?)
}
