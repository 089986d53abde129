//! A file of records of one length: it is asked for its length, and each record is sought and read, while this thread waits for no disk.
use crate::host::Host;
use anyhow::Result;
use blocking::{
    AsyncRead, AsyncReadExt, AsyncSeek, AsyncSeekExt, CallOn, Executor, FileJobs, OpJob, Unblock,
};
use blocking_anytime::{Open, OpenReader};
use futures::executor::block_on;
use std::env::Env;
use std::fs::{File, Files};
use std::io::SeekFrom;
use std::{env, fs, io};

const RECORDS: &str = "ash  birchelm  ";

// How many bytes a record has.
const LENGTH: usize = 5;

// Asks a file that is lent how many bytes it has.
#[derive(Drop)]
struct Length;

impl CallOn<File> for Length {
    type Out = io::Result<u64>;

    ghost may_give = { λ _. Unit {0} };

    fn call_on(self, file: &mut File) -> io::Result<u64> {
        Ok(file.metadata()?.len())
    }
}

// Prints how many records a file has.
fn show_count<H: Host>(rt: H, file: File) -> Result<()> {
    let executor: Executor<OpJob<Length, File, H>, H> = Executor::new(rt, Some("1"))?;
    let mut owner: Unblock<File, (), OpJob<Length, File, H>, H> = Unblock::new(executor, file);
    let length = block_on(&rt, owner.with_mut(Length))???;
    println!(rt; "records: {}", length / LENGTH as u64)?;
    Ok(())
}

// Prints the record with this number, counted from 0.
fn show_record<A: AsyncRead + AsyncSeek, H: Host>(rt: H, file: &mut A, number: u64) -> Result<()>
    requires read { (any : A) → ⟦<A as AsyncRead>⟧.closed any → ⊥ }
    requires sought { (any : A) → ⟦<A as AsyncSeek>⟧.closed any → ⊥ }
{
    let place = number.saturating_mul(LENGTH as u64);
    block_on(&rt, file.seek(SeekFrom::Start(place)))??;
    let mut record = [0u8; LENGTH];
    block_on(&rt, file.read_exact(&mut record))??;
    let text = String::from_utf8_lossy(rt.alloc(), &record)?;
    println!(rt; "record {number}: {}", text.as_str().trim_end())?;
    Ok(())
}

// Prints two of the records, the last one first.
fn show_two<A: AsyncRead + AsyncSeek + Drop, H: Host>(rt: H, mut file: A) -> Result<()>
    requires read { (any : A) → ⟦<A as AsyncRead>⟧.closed any → ⊥ }
    requires sought { (any : A) → ⟦<A as AsyncSeek>⟧.closed any → ⊥ }
{
    show_record(rt, &mut file, 2)?;
    show_record(rt, &mut file, 1)
}

// The same, of a file that is lent to a pool whose jobs read a file and move it.
fn show_lent<H: Host>(rt: H, file: File) -> Result<()> {
    let executor: Executor<FileJobs<H>, H> = Executor::new(rt, Some("1"))?;
    let file: OpenReader<File, H, FileJobs<H>> = Open::new(executor, file);
    show_two(rt, file)
}

/// Writes a file of records, and prints how many they are, and two of them.
pub(crate) fn show_records<H: Host + Files<File = File> + Env>(rt: H) -> Result<()> {
    let path = env::temp_dir(&rt)?.join(rt.alloc(), "furuvaite-records")?;
    fs::write(&rt, &path, RECORDS)?;
    let (asked, file) = (File::open(&rt, &path)?, File::open(&rt, &path)?);
    fs::remove_file(&rt, &path)?;
    show_count(rt, asked)?;
    show_lent(rt, file)
}
