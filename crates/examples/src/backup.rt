//! A backup of many files beside requests, on one pool. However many files it hands in, it has no more than six of the pool's eight
//! threads, so that the requests always find one.
use crate::host::Host;
use anyhow::{Result, bail};
use blocking::{Call, CallJob, Executor, Task, set_client_limit, unblock, unblock_for};
use futures::executor::block_on;
use std::path::PathBuf;
use std::{env, fs, io};

// The client of the backup. The requests name none, and are client 0.
const BACKUP: u32 = 1;

// How many jobs of each client run at a time, at most.
const AT_A_TIME: usize = 6;

const FILES: u32 = 20;

// What is asked of the pool.
#[derive(Drop)]
enum Work {
    // To copy a file, and to tell how many bytes it has.
    Save(HostRuntime, PathBuf, PathBuf),
    // To answer a request.
    Square(u32),
}

impl Call for Work {
    type Out = io::Result<u64>;

    ghost may_give = { λ _. Unit {0} };

    fn call(self) -> io::Result<u64> {
        match self {
            Work::Save(rt, from, to) => fs::copy(&rt, &from, &to),
            Work::Square(number) => Ok(u64::from(number) * u64::from(number)),
        }
    }
}

type Workers<H> = Executor<CallJob<Work, H>, H>;

// Begins to save so many files, each of which is written first.
fn save_all<H: Host>(
    rt: H,
    files: HostRuntime,
    executor: &Workers<H>,
    folder: &PathBuf,
) -> Result<Vec<Task<Work, H>>> {
    let mut tasks = Vec::new(rt.alloc());
    for number in 0..FILES {
        let name = format!(in rt.alloc(); "{number}.txt")?;
        let copy = format!(in rt.alloc(); "{number}.saved")?;
        let from = folder.join(rt.alloc(), name.as_str())?;
        let to = folder.join(rt.alloc(), copy.as_str())?;
        fs::write(&files, &from, "a spruce")?;
        tasks.push(unblock_for(executor, BACKUP, Work::Save(files, from, to))?)?;
    }
    Ok(tasks)
}

// Saves files, and asks a question meanwhile. How many bytes were saved, and the answer.
fn save_and_ask<H: Host>(
    rt: H,
    files: HostRuntime,
    executor: &Workers<H>,
    folder: &PathBuf,
) -> Result<(u64, u64)> {
    set_client_limit(executor, Some(AT_A_TIME));
    let tasks = save_all(rt, files, executor, folder)?;
    let square = answer(&rt, unblock(executor, Work::Square(12))?)?;
    let mut bytes = 0u64;
    for task in tasks {
        bytes = bytes.saturating_add(answer(&rt, task)?);
    }
    Ok((bytes, square))
}

// The same, on a pool of eight threads.
fn back_up<H: Host>(rt: H, files: HostRuntime, folder: &PathBuf) -> Result<(u64, u64)> {
    let executor: Workers<H> = Executor::new(rt, Some("8"))?;
    save_and_ask(rt, files, &executor, folder)
}

// What a task gave.
fn answer<H: Host>(rt: &H, task: Task<Work, H>) -> Result<u64> {
    if task.is_taken() {
        bail!("an answer was taken twice");
    }
    Ok(block_on(rt, task)??)
}

/// Saves files, and answers a request meanwhile.
pub(crate) fn show_backup<H: Host>(rt: H, files: HostRuntime) -> Result<()> {
    let folder = env::temp_dir(&files)?.join(rt.alloc(), "furuvaite-backup")?;
    fs::create_dir_all(&files, &folder)?;
    let (bytes, square) = back_up(rt, files, &folder)?;
    fs::remove_dir_all(&files, &folder)?;
    println!(rt; "{bytes} bytes were saved, and a request beside them was answered: {square}")?;
    Ok(())
}
