//! A folder whose entries come as a stream. A worker looks ahead, and this thread waits for nothing but the next entry.
use crate::host::Host;
use anyhow::Result;
use blocking::{Executor, ItemJob, Refusal};
use blocking_anytime::Open;
use futures::executor::block_on;
use futures::{Stream, StreamExt};
use std::{env, fs, io};

// How many entries the worker looks ahead at most.
const AHEAD: usize = 4;

type Listers<T, I, H> = Executor<ItemJob<T, io::Result<I>, H>, H>;

// How many entries come of an iterator, or the first error.
fn count<T, I, H>(rt: H, entries: T) -> Result<usize>
where
    T: Iterator<Item = io::Result<I>> + Drop + Send + 'static,
    I: Drop + Send + 'static,
    H: Host,
    requires { (at : T) → T.can_next at }
{
    let executor: Listers<T, I, H> = Executor::new(rt, Some("1"))?;
    count_all(rt, Open::with_capacity(AHEAD, executor, entries))
}

// The same, over any stream.
fn count_all<S, I, H>(rt: H, mut entries: S) -> Result<usize>
where
    S: Stream<Item = Result<io::Result<I>, Refusal>>,
    I: Drop,
    H: Host,
    requires { (any : S) → S.can_poll any }
{
    let mut count = 0usize;
    for _ in rt.forever() {
        let Some(entry) = block_on(&rt, entries.next())? else {
            break;
        };
        entry??;
        count = count.saturating_add(1);
    }
    Ok(count)
}

/// Makes a folder with two files, and prints how many entries come of it.
pub(crate) fn show_folder<H: Host>(rt: H, files: HostRuntime) -> Result<()> {
    let path = env::temp_dir(&files)?.join(rt.alloc(), "furuvaite-folder")?;
    fs::create_dir_all(&files, &path)?;
    fs::write(&files, path.join(rt.alloc(), "oaks")?, "")?;
    fs::write(&files, path.join(rt.alloc(), "pines")?, "")?;
    // (in a box: what reads a folder holds its next names, 8192 bytes, and a job is moved as it is)
    let entries = Box::new(rt.alloc(), fs::read_dir(&files, &path)?)?;
    let count = count(rt, entries)?;
    println!(rt; "{count} entries came")?;
    fs::remove_dir_all(&files, &path)?;
    Ok(())
}
