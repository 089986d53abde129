//! A log of what several producers write to one pipe. What was told as written is in the file, whatever becomes of this process.
use anyhow::Result;
use blocking::{AsyncRead, AsyncReadExt, AsyncWrite, AsyncWriteExt, CopyJobs, Executor, Host};
use blocking_anytime::{Open, OpenReader, OpenWriter};
use futures::executor::block_on;
use std::io::{Read, Write};

// How many bytes are written at once, and then flushed.
const PIECE: usize = 4096;

/// Logs all that comes, and prints how many bytes are in the log each time that they are.
pub(crate) fn log<R, W, H>(rt: H, input: R, log: W) -> Result<()>
where
    R: Read + Drop + Send + 'static,
    W: Write + Drop + Send + 'static,
    H: Host + Print,
{
    let executor: Executor<CopyJobs<H, R, W>, H> = Executor::new(rt, Some("2"))?;
    let input: OpenReader<R, H, CopyJobs<H, R, W>> = Open::new(executor.try_clone()?, input);
    let log: OpenWriter<W, H, CopyJobs<H, R, W>> = Open::new(executor, log);
    log_all(rt, input, log)
}

// The same, over any reader and any writer.
fn log_all<A, B, H>(rt: H, mut input: A, mut log: B) -> Result<()>
where
    A: AsyncRead + Drop,
    B: AsyncWrite + Drop,
    H: Host + Print,
    requires input { (any : A) → A.closed any → ⊥ }
    requires log { (any : B) → B.closed any → ⊥ }
{
    let (mut piece, mut logged) = ([0u8; PIECE], 0usize);
    for _ in rt.forever() {
        let count = block_on(&rt, input.read(&mut piece))??;
        block_on(&rt, log.write_all(&piece[..count]))??;
        block_on(&rt, log.flush())??;
        if count == 0 {
            break;
        }
        logged = logged.saturating_add(count);
        println!(rt; "{logged}")?;
    }
    Ok(())
}
