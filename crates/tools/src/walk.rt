//! How many bytes trees have. All are walked at the same time, on one pool of which each is a client.
use anyhow::{Context, Result};
use blocking::{Call, CallJob, Executor, Host, set_client_limit, unblock_for};
use blocking_anytime::CallSet;
use futures::StreamExt;
use futures::executor::block_on;
use std::path::PathBuf;
use std::{fs, io};

// How many directories are read at the same time at most. Each root has an equal share of the readers, and one at least: so of up to
// sixteen roots none waits for a reader that is busy with another's directories.
const READERS: usize = 16;

// The bytes of a path and of what is in it, but for the directories in it, and these.
type Found = io::Result<(u64, Vec<PathBuf>)>;

// A path below a client's root. (it holds the system's handles: what a thread is handed may rest on no bound of a type)
#[derive(Drop)]
struct Look(HostRuntime, u32, PathBuf);

impl Call for Look {
    type Out = (u32, Found);

    ghost may_give = { λ _. Unit {0} };

    fn call(self) -> (u32, Found) {
        (self.1, found_at(self.0, &self.2))
    }
}

type Lookers<H> = Executor<CallJob<Look, H>, H>;

// What is found there. (a root may be a file or a link)
fn found_at(files: HostRuntime, path: &PathBuf) -> Found {
    let meta = fs::symlink_metadata(&files, path)?;
    let (mut bytes, mut inside) = (meta.len(), Vec::new(files.alloc()));
    if meta.is_dir() {
        for entry in fs::read_dir(&files, path)? {
            let entry = entry?;
            let meta = entry.metadata()?;
            if meta.is_dir() {
                inside.push(entry.path().to_path_buf(files.alloc())?)?;
            } else {
                bytes = bytes.saturating_add(meta.len());
            }
        }
    }
    Ok((bytes, inside))
}

/// Prints the bytes of each tree, and its root.
pub(crate) fn show<H: Host + Print>(rt: H, files: HostRuntime, roots: &[String]) -> Result<()> {
    let executor: Lookers<H> = Executor::new(rt, None)?;
    blocking::set_max_blocking_threads(&executor, READERS);
    set_client_limit(&executor, Some((READERS / roots.len().max(1)).max(1)));
    show_over(rt, files, &executor, roots)
}

// The same, over a pool that is there.
fn show_over<H: Host + Print>(
    rt: H,
    files: HostRuntime,
    executor: &Lookers<H>,
    roots: &[String],
) -> Result<()> {
    let (mut looks, mut trees) = (CallSet::new(rt.alloc())?, Vec::new(rt.alloc()));
    for (client, root) in (1u32..).zip(roots) {
        let path = PathBuf::from_str(rt.alloc(), root.as_str())?;
        looks.push(unblock_for(executor, client, Look(files, client, path))?)?;
        trees.push(Ok(0u64))?;
    }
    for _ in rt.forever() {
        let Some((client, found)) = block_on(&rt, looks.next())? else {
            break;
        };
        match (trees.get_mut(client.saturating_sub(1) as usize), found) {
            (Some(Ok(bytes)), Ok((more, inside))) => {
                *bytes = bytes.saturating_add(more);
                for path in inside {
                    looks.push(unblock_for(executor, client, Look(files, client, path))?)?;
                }
            }
            (Some(tree), Err(why)) => *tree = Err(why),
            _ => {}
        }
    }
    for (bytes, root) in trees.into_iter().zip(roots) {
        let bytes = bytes.with_context(|| root)?;
        println!(rt; "{bytes}\t{root}")?;
    }
    Ok(())
}
