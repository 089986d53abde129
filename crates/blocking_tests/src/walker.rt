//! A walker: the directories of a tree are read on a pool, all that are known at the same time. Each has bytes, and directories in it.
use blocking::{Call, CallJob, Executor, Host, unblock};
use blocking_anytime::CallSet;
use futures::TryStreamExt;
use futures::executor::block_on;
use std::path::PathBuf;
use std::{fs, io};

#[derive(Drop)]
struct List {
    files: HostRuntime,
    path: PathBuf,
}

impl Call for List {
    type Out = io::Result<(u64, Vec<PathBuf>)>;

    ghost may_give = { λ _. Unit {0} };

    fn call(self) -> io::Result<(u64, Vec<PathBuf>)> {
        let (mut bytes, mut inside) = (0u64, Vec::new(self.files.alloc()));
        for entry in fs::read_dir(&self.files, &self.path)? {
            let entry = entry?;
            let meta = entry.metadata()?;
            bytes = bytes.saturating_add(meta.len());
            if meta.is_dir() {
                inside.push(entry.path().to_path_buf(self.files.alloc())?)?;
            }
        }
        Ok((bytes, inside))
    }
}

/// The bytes of what is in a tree.
pub(crate) fn bytes_in<H: Host>(rt: H, files: HostRuntime, path: PathBuf) -> io::Result<u64> {
    let executor: Executor<CallJob<List, H>, H> = Executor::new(rt, Some("16"))?;
    let (mut bytes, mut lists) = (0u64, CallSet::new(rt.alloc())?);
    lists.push(unblock(&executor, List { files, path })?)?;
    for _ in rt.forever() {
        let Some((more, inside)) = block_on(&rt, lists.try_next())?? else {
            break;
        };
        bytes = bytes.saturating_add(more);
        for path in inside {
            lists.push(unblock(&executor, List { files, path })?)?;
        }
    }
    Ok(bytes)
}
