//! A file that is written, copied and read, and a call: each makes a pool, and this thread waits for the answer.
use crate::host::Host;
use anyhow::Result;
use blocking::Call;
use std::env::Env;
use std::fs::{File, Files};
use std::{env, fs};

const TEXT: &[u8] = b"ash, birch and elm";

// Counts the words of a text.
#[derive(Drop)]
struct CountWords(Vec<u8>);

impl Call for CountWords {
    type Out = usize;

    ghost may_give = { λ _. Unit {0} };

    fn call(self) -> usize {
        self.0.split(|byte| *byte == b' ').count()
    }
}

/// Writes a file, copies it, and prints how many bytes and words the copy has.
pub(crate) fn show_copy<H: Host + Files<File = File> + Env>(rt: H) -> Result<()> {
    let folder = env::temp_dir(&rt)?.join(rt.alloc(), "furuvaite-whole")?;
    fs::create_dir_all(&rt, &folder)?;
    let first = folder.join(rt.alloc(), "first")?;
    let second = folder.join(rt.alloc(), "second")?;
    blocking::write_all(rt, File::create(&rt, &first)?, TEXT)?;
    let copied = blocking::copy(rt, File::open(&rt, &first)?, File::create(&rt, &second)?)?;
    let bytes = blocking::read_all(rt, File::open(&rt, &second)?)?;
    fs::remove_dir_all(&rt, &folder)?;
    let words = blocking::call(rt, CountWords(bytes))?;
    println!(rt; "{copied} bytes were copied: {words} words")?;
    Ok(())
}
