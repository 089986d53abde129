//! A file that is read line by line. A worker reads ahead, and this thread waits for nothing but what comes next.
use crate::host::Host;
use anyhow::Result;
use blocking::{AsyncRead, AsyncReadExt, Executor, ReadJob};
use blocking_anytime::{Open, OpenReader};
use futures::executor::block_on;
use std::env::Env;
use std::fs::{File, Files};
use std::io::Read;
use std::{env, fs};

const TEXT: &str = "the first line\nthe second\nand one that has no end";

// How many bytes the worker reads ahead at most, and how many this thread takes at once.
const AHEAD: usize = 32;

const PIECE: usize = 8;

type Readers<T, H> = Executor<ReadJob<T, H>, H>;

// The line that has come so far, and its number.
#[derive(Drop)]
struct Line {
    number: u32,
    bytes: Vec<u8>,
}

impl Line {
    // Takes what comes next, and prints each line that has come whole.
    fn take<H: Host>(&mut self, rt: &H, piece: &[u8]) -> Result<()> {
        for byte in piece {
            if *byte == b'\n' {
                self.end(rt)?;
            } else {
                self.bytes.push(*byte)?;
            }
        }
        Ok(())
    }

    fn end<H: Host>(&mut self, rt: &H) -> Result<()> {
        let text = String::from_utf8_lossy(rt.alloc(), &self.bytes)?;
        println!(rt; "line {}: {text}", self.number)?;
        self.bytes.clear();
        self.number = self.number.saturating_add(1);
        Ok(())
    }
}

// Prints each line that is read as soon as it has come.
fn show_lines<T: Read + Drop + Send + 'static, H: Host>(rt: H, reader: T) -> Result<()> {
    let executor: Readers<T, H> = Executor::new(rt, Some("1"))?;
    let reader: OpenReader<T, H> = Open::with_capacity(AHEAD, executor, reader);
    show_all(rt, reader)
}

// The same, over any reader.
fn show_all<A: AsyncRead + Drop, H: Host>(rt: H, mut reader: A) -> Result<()>
    requires { (any : A) → A.closed any → ⊥ }
{
    let mut line = Line {
        number: 1,
        bytes: Vec::new(rt.alloc()),
    };
    let mut piece = [0u8; PIECE];
    for _ in rt.forever() {
        let count = block_on(&rt, reader.read(&mut piece))??;
        if count == 0 {
            break;
        }
        line.take(&rt, &piece[..count])?;
    }
    // (a text whose last line has an end of its own has no more)
    if line.bytes.is_empty() {
        Ok(())
    } else {
        line.end(&rt)
    }
}

/// Writes a file, and prints its lines.
pub(crate) fn show_file<H: Host + Files<File = File> + Env>(rt: H) -> Result<()> {
    let path = env::temp_dir(&rt)?.join(rt.alloc(), "furuvaite-lines")?;
    fs::write(&rt, &path, TEXT)?;
    let file = File::open(&rt, &path)?;
    fs::remove_file(&rt, &path)?;
    show_lines(rt, file)
}
