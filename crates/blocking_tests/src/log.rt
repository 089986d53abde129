//! A log of several producers, each on a thread of its own. A line whose producer goes on is in the file.
use blocking::{AsyncWrite, AsyncWriteExt, Executor, Host, Runtime, WriteJob};
use blocking_anytime::{Open, OpenWriter};
use futures::executor::block_on;
use std::fs::File;
use std::io;
use std::random::RandomSource;
use std::sync::Mutex;

/// A log that its producers share.
pub(crate) type Log<H> = Mutex<OpenWriter<File, H>>;

/// The log in a file.
pub(crate) fn log_to<H: Host>(rt: H, file: File) -> io::Result<Log<H>> {
    let executor: Executor<WriteJob<File, H>, H> = Executor::new(rt, Some("1"))?;
    Ok(Mutex::new(Open::new(executor, file)))
}

/// Logs a line, which is in the file then.
pub(crate) fn log_line<H: Runtime + RandomSource>(
    rt: H,
    log: &Log<H>,
    line: &str,
) -> io::Result<()> {
    write_line(&rt, &mut *log.lock(&rt), line)
}

fn write_line<A: AsyncWrite, H: Runtime + RandomSource>(
    rt: &H,
    log: &mut A,
    line: &str,
) -> io::Result<()>
    requires { A.closed log.old → ⊥ }
{
    block_on(rt, log.write_all(line.as_bytes()))??;
    block_on(rt, log.flush())??;
    Ok(())
}
