//! The threads of this process, by the names that the system has of them.
use std::alloc::AllocGlobal;
use std::fs::Files;
use std::time::{Clock, Duration};
use std::{fs, io, thread};

const WORKER: &str = "blocking-";

// How often workers are looked for, with a millisecond between. Since none comes back, it can be waited for on a machine with much else to do.
const LOOKS: u32 = 10_000;

/// What a look at the threads needs of the system.
pub(crate) trait System: Files + AllocGlobal + Clock + Clone + Drop {}

impl<R: Files + AllocGlobal + Clock + Clone + Drop> System for R {}

// How many threads have a worker's name, and how many haven't. Threads that just ended aren't counted.
fn counted<R: System>(rt: &R) -> io::Result<(usize, usize)> {
    let (mut workers, mut others) = (0usize, 0usize);
    for thread in fs::read_dir(rt, "/proc/self/task")? {
        let path = thread?.path().join(rt.alloc(), "comm")?;
        match fs::read_to_string(rt, path) {
            Ok(name) if name.as_str().starts_with(WORKER) => workers = workers.saturating_add(1),
            Ok(_) => others = others.saturating_add(1),
            Err(_) => {}
        }
    }
    Ok((workers, others))
}

/// How many threads aren't workers.
pub(crate) fn count_others<R: System>(rt: &R) -> io::Result<usize> {
    Ok(counted(rt)?.1)
}

/// Whether all workers go before long. A worker takes its name once it runs, so `others` were there before the first one.
pub(crate) fn all_go<R: System>(rt: &R, others: usize) -> io::Result<bool> {
    for _ in 0..LOOKS {
        let (workers, unnamed) = counted(rt)?;
        if workers == 0 && unnamed <= others {
            return Ok(true);
        }
        thread::sleep(rt, Duration::from_millis(1));
    }
    Ok(false)
}
