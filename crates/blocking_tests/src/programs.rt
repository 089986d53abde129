//! Programs as a user writes them, on files in the current directory.
use crate::copier::copy;
use crate::log::{log_line, log_to};
use crate::mixed::sum_up;
use blocking::Host;
use std::alloc::{AllocError, Global};
use std::fs::File;
use std::sync::Arc;
use std::test::Fail;
use std::{fs, io, thread};

// So many bytes, byte i being i modulo 251, so that one piece of 65,536 bytes differs from the next.
fn numbered(alloc: Global, count: usize) -> Result<Vec<u8>, AllocError> {
    let mut bytes = Vec::with_capacity(alloc, count)?;
    let mut byte = 0u8;
    for _ in 0..count {
        bytes.push(byte)?;
        byte = if byte == 250 { 0 } else { byte.wrapping_add(1) };
    }
    Ok(bytes)
}

#[test]
fn copy_is_what_was_copied(rt: HostRuntime) -> Result<(), Fail> {
    let bytes = numbered(rt.alloc(), 200_000)?;
    fs::write(&rt, "copier.from", &bytes)?;
    let (from, to) = (
        File::open(&rt, "copier.from")?,
        File::create(&rt, "copier.to")?,
    );
    let copied = copy(rt, from, to)?;
    let came = fs::read(&rt, "copier.to")?;
    fs::remove_file(&rt, "copier.from")?;
    fs::remove_file(&rt, "copier.to")?;
    assert_eq!(rt; copied, 200_000);
    assert!(rt; came == bytes);
    Ok(())
}

#[test]
fn lines_of_four_producers_are_there_once_they_are_flushed(rt: HostRuntime) -> Result<(), Fail> {
    let log = Arc::new(rt.alloc(), log_to(rt, File::create(&rt, "log.to")?)?)?;
    let mut producers = Vec::new(rt.alloc());
    for who in 0..4u32 {
        let log = Arc::try_clone(&log)?;
        let produce = move || -> io::Result<bool> {
            let line = format!(in rt.alloc(); "producer {who}\n")?;
            log_line(rt, &log, &line)?;
            Ok(fs::read_to_string(&rt, "log.to")?.contains(line.as_str()))
        };
        producers.push(thread::spawn(&rt, produce)?)?;
    }
    for producer in producers {
        assert!(rt; producer.join(&rt)?);
    }
    let lines = fs::read_to_string(&rt, "log.to")?.lines().count();
    fs::remove_file(&rt, "log.to")?;
    assert_eq!(rt; lines, 4);
    Ok(())
}

#[test]
fn pieces_are_summed_up(rt: HostRuntime) -> Result<(), Fail> {
    let bytes = vec![in rt.alloc(); 2u8; 25_000]?;
    fs::write(&rt, "mixed.from", &bytes)?;
    let (from, to) = (
        File::open(&rt, "mixed.from")?,
        File::create(&rt, "mixed.to")?,
    );
    let total = sum_up(rt, from, to)?;
    let text = fs::read_to_string(&rt, "mixed.to")?;
    fs::remove_file(&rt, "mixed.from")?;
    fs::remove_file(&rt, "mixed.to")?;
    assert_eq!(rt; total, 50_000);
    // (a read gives as many bytes as there are, up to its buffer)
    let mut left = 25_000u64;
    for line in text.lines() {
        let count = line.split(' ').next().and_then(|count| count.parse().ok());
        left = left.saturating_sub(count.unwrap_or(0));
    }
    assert_eq!(rt; left, 0);
    Ok(())
}
