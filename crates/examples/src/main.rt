//! Uses of the crate `blocking`: one call here, and more in the modules. What they print is always the same.
#![tactic(auto)]

mod backup;
mod folder;
mod host;
mod lines;
mod own_job;
mod records;
mod refusal;
mod two_kinds;
mod whole;

use crate::host::Host;
use anyhow::Result;
use blocking::{Call, CallJob, Executor, unblock};
use futures::executor::block_on;
use std::env::Env;
use std::fs::{File, Files};
use std::{fs, io};

// A call is a value of a named type. This one reads a file, for which its thread may have to wait.
#[derive(Drop)]
struct ReadText {
    files: HostRuntime,
    path: &'static str,
}

impl Call for ReadText {
    type Out = io::Result<String>;

    // What such a call may give: any text and any error.
    ghost may_give = { λ _. Unit {0} };

    fn call(self) -> io::Result<String> {
        fs::read_to_string(&self.files, self.path)
    }
}

type Readers<H> = Executor<CallJob<ReadText, H>, H>;

fn main(rt: HostRuntime) -> Result<()> {
    show_text(rt, rt)?;
    folder::show_folder(rt, rt)?;
    backup::show_backup(rt, rt)?;
    more(rt)
}

// Makes a call, and prints what it gave.
fn show_text<H: Host>(rt: H, files: HostRuntime) -> Result<()> {
    // At most eight workers, and none before there is a call.
    let executor: Readers<H> = Executor::new(rt, Some("8"))?;
    let path = "/proc/sys/kernel/ostype";
    let task = unblock(&executor, ReadText { files, path })?;
    // (here this thread may do something else)
    let text = block_on(&rt, task)??;
    print!(rt; "{path}: {text}")?;
    Ok(())
}

// The examples of the modules.
fn more<H: Host + Files<File = File> + Env>(rt: H) -> Result<()> {
    let (square, is_even) = two_kinds::answers(rt)?;
    println!(rt; "12 squared is {square}; 12 is even: {is_even}")?;
    let serial = own_job::woken(rt)?;
    println!(rt; "job {serial} waited, and was woken")?;
    let count = examples_own_rule::received(rt)?;
    println!(rt; "{count} numbers came in order")?;
    lines::show_file(rt)?;
    records::show_records(rt)?;
    whole::show_copy(rt)?;
    refusal::show(rt)
}
