//! The player's system calls, and the threads of this process as `/proc` lists them.
use crate::stage::System;
use blocking::Runtime;
use futures::test::MockTask;
use std::alloc::{AllocGlobal, Global};
use std::fmt::Display;
use std::fs::Files;
use std::random::RandomSource;
use std::time::{Duration, Instant};
use std::{fs, io, thread};

const WORKER: &str = "blocking-";

/// Access to `/proc`.
pub(crate) trait Looks: Files + AllocGlobal + Clone + Drop {}

impl<R: Files + AllocGlobal + Clone + Drop> Looks for R {}

// A file of each thread, as text. Threads that just ended are left out.
fn told<R: Looks>(rt: &R, file: &str) -> io::Result<Vec<String>> {
    let mut texts = Vec::new(rt.alloc());
    for thread in fs::read_dir(rt, "/proc/self/task")? {
        let path = thread?.path().join(rt.alloc(), file)?;
        if let Ok(text) = fs::read_to_string(rt, path) {
            texts.push(text)?;
        }
    }
    Ok(texts)
}

// The number in a worker's name.
fn worker_of(name: &str) -> Option<u64> {
    let digits = name.trim_end().strip_prefix(WORKER)?;
    digits.parse::<u64>().ok()
}

// How many threads have a worker's name, and whether one has this number.
fn count_workers<R: Looks>(rt: &R, number: u64) -> io::Result<(usize, bool)> {
    let (mut count, mut is_there) = (0usize, false);
    for name in told(rt, "comm")?.iter() {
        if name.as_str().starts_with(WORKER) {
            count = count.saturating_add(1);
            is_there = is_there || worker_of(name.as_str()) == Some(number);
        }
    }
    Ok((count, is_there))
}

// The processor time of all threads, in nanoseconds. Threads that just ended aren't counted.
fn used_nanos<R: Looks>(rt: &R) -> io::Result<u64> {
    let mut nanos = 0u64;
    for text in told(rt, "schedstat")?.iter() {
        let first = text.as_str().split_ascii_whitespace().next();
        let used = first.and_then(|digits| digits.parse::<u64>().ok());
        nanos = nanos.saturating_add(used.unwrap_or(0));
    }
    Ok(nanos)
}

/// This process.
#[derive(Drop)]
pub(crate) struct Process<R: Looks> {
    rt: R,
    start: Instant,
}

impl<R: Looks + Runtime> Process<R> {
    pub(crate) fn new(rt: R) -> io::Result<Process<R>> {
        let start = Instant::now(&rt)?;
        Ok(Process { rt, start })
    }
}

impl<R: Looks + Runtime + RandomSource + Print> System for Process<R> {
    fn alloc(&self) -> Global {
        self.rt.alloc()
    }

    fn waker(&self) -> io::Result<MockTask> {
        MockTask::new(&self.rt)
    }

    fn say<L: Display + Drop>(&self, line: L) -> io::Result<()> {
        self.rt.println(line)
    }

    fn millis(&self) -> u64 {
        match self.start.elapsed(&self.rt) {
            Ok(passed) => u64::try_from(passed.as_millis()).unwrap_or(u64::MAX),
            Err(_) => 0,
        }
    }

    fn pause(&self, millis: u64) {
        thread::sleep(&self.rt, Duration::from_millis(millis));
    }

    fn used_millis(&self) -> u64 {
        used_nanos(&self.rt).unwrap_or(0) / 1_000_000
    }

    fn workers(&self, number: u64) -> io::Result<(usize, bool)> {
        count_workers(&self.rt, number)
    }
}
