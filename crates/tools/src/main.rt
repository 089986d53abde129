//! Three programs over a pool each, for files and lines.
#![tactic(auto)]

mod cp;
mod logd;
mod walk;

use anyhow::{Context, Result, ensure};
use blocking::Host;
use std::fs::{File, OpenOptions};
use std::os::unix::fs::MetadataExt;
use std::process::ExitCode;
use std::{env, fs};

const USAGE: &str =
    "tools walk PATH..          prints how many bytes each tree has, as `du -sb` does
tools logd FILE            appends standard input to FILE, and prints how many bytes are written so far
tools cp [--sync] FROM TO  copies a file, and shows progress on standard error; --sync: its bytes are on the disk";

fn main(rt: HostRuntime) -> ExitCode {
    match run(rt, rt) {
        Ok(true) => ExitCode::from(0),
        Ok(false) => {
            let _ = rt.eprintln(USAGE);
            ExitCode::from(2)
        }
        Err(why) => {
            let _ = eprintln!(rt; "tools: {why:#}");
            ExitCode::from(1)
        }
    }
}

// Does what the words say, and answers whether they say anything. (what runs on threads is generic over its handles)
fn run<H: Host + Print + Eprint>(rt: H, system: HostRuntime) -> Result<bool> {
    let mut words = Vec::new(rt.alloc());
    for word in env::args(&system)?.skip(1) {
        words.push(word)?;
    }
    let Some((name, rest)) = words.split_first() else {
        return Ok(false);
    };
    match (name.as_str(), rest) {
        ("--help", []) => println!(rt; "{USAGE}")?,
        ("walk", [_, ..]) => walk::show(rt, system, rest)?,
        ("logd", [path]) => {
            let log = OpenOptions::new()
                .append(true)
                .create(true)
                .open(&system, path.as_str())
                .context("the log")?;
            logd::log(rt, system.stdin(), log)?;
        }
        ("cp", [from, to]) => copy(rt, system, from, to, false)?,
        ("cp", [flag, from, to]) if flag.as_str() == "--sync" => copy(rt, system, from, to, true)?,
        _ => return Ok(false),
    }
    Ok(true)
}

// Copies a file to another, which isn't the same (to create it would empty it), and tells how many bytes that were.
fn copy<H: Host + Eprint>(
    rt: H,
    system: HostRuntime,
    from: &str,
    to: &str,
    is_synced: bool,
) -> Result<()> {
    let from = File::open(&system, from).context("what is to be copied")?;
    let source = from.metadata()?;
    ensure!(!source.is_dir(), "what is to be copied: it is a folder");
    if let Ok(target) = fs::metadata(&system, to) {
        let is_same = (source.dev(), source.ino()) == (target.dev(), target.ino());
        ensure!(!is_same, "the copy: it is the same file");
    }
    let to = File::create(&system, to).context("the copy")?;
    let copied = cp::copy(rt, from, to, is_synced)?;
    eprintln!(rt; "{copied} bytes copied")?;
    Ok(())
}
