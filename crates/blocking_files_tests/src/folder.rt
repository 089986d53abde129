//! A folder of a test's own, and the calls that are awaited in it.
use blocking::Runtime;
use futures::Future;
use futures::executor::block_on;
use std::path::PathBuf;
use std::random::RandomSource;
use std::{env, fs, io};

// An empty folder of this name among the files that don't last.
pub(crate) fn folder(rt: HostRuntime, name: &str) -> io::Result<PathBuf> {
    let path = env::temp_dir(&rt)?.join(rt.alloc(), name)?;
    if fs::exists(&rt, &path)? {
        fs::remove_dir_all(&rt, &path)?;
    }
    fs::create_dir_all(&rt, &path)?;
    Ok(path)
}

// What a call on files came to.
pub(crate) fn now<H: Runtime + RandomSource, T, F: Future<Output = io::Result<T>>>(
    rt: &H,
    call: F,
) -> io::Result<T>
    requires { F.can_poll call }
{
    block_on(rt, call)?
}
