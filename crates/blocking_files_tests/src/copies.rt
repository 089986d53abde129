//! Copies of files.
use crate::folder::{folder, now};
use blocking::{Host, Runtime};
use blocking_files::{CarriesFiles, Files};
use futures::executor::block_on;
use std::alloc::{AllocError, Global};
use std::io::ErrorKind;
use std::os::unix::fs::PermissionsExt;
use std::path::Path;
use std::random::RandomSource;
use std::test::Fail;
use std::{fs, io};

// So many bytes, byte i being i modulo 251, so that one piece of 65,536 bytes differs from the next.
fn numbered(alloc: Global, count: usize) -> Result<Vec<u8>, AllocError> {
    let mut bytes = Vec::with_capacity(alloc, count)?;
    let mut byte = 0u8;
    for _ in 0..count {
        bytes.push(byte)?;
        byte = if byte == 250 { 0 } else { byte.wrapping_add(1) };
    }
    Ok(bytes)
}

// Copies a file of so many bytes: whether all of it is told and is there, with its permissions.
fn copy<H: Runtime + RandomSource, J: CarriesFiles<H>>(
    rt: H,
    system: HostRuntime,
    files: &Files<H, J>,
    (from, to): (Path<'_>, Path<'_>),
    count: usize,
) -> io::Result<bool> {
    let bytes = numbered(rt.alloc(), count)?;
    fs::write(&system, from, bytes.as_slice())?;
    fs::set_permissions(&system, from, fs::Permissions::from_mode(0o600))?;
    let copied = now(&rt, files.copy(from, to))?;
    let mode = fs::metadata(&system, to)?.permissions().mode() & 0o777;
    let is_whole = fs::read(&system, to)?.as_slice() == bytes.as_slice();
    Ok(copied == count as u64 && mode == 0o600 && is_whole)
}

// How a copy failed.
fn fault<H: Runtime + RandomSource, J: CarriesFiles<H>>(
    rt: H,
    files: &Files<H, J>,
    (from, to): (Path<'_>, Path<'_>),
) -> io::Result<Option<ErrorKind>> {
    Ok(
        block_on(&rt, files.copy(from, to))?
            .err()
            .map(|why| why.kind()),
    )
}

// Copies files, one to itself and a folder: how many of the copies are whole, and how the last two failed.
fn copy_all<H: Runtime + RandomSource, J: CarriesFiles<H>>(
    rt: H,
    system: HostRuntime,
    files: &Files<H, J>,
    folder: Path<'_>,
    (from, to): (Path<'_>, Path<'_>),
) -> io::Result<(u32, [Option<ErrorKind>; 2])> {
    let mut whole = 0u32;
    for count in [0usize, 1, 65_536, 1_000_003] {
        if copy(rt, system, files, (from, to), count)? {
            whole = whole.saturating_add(1);
        }
    }
    let itself = fault(rt, files, (from, from))?;
    Ok((whole, [itself, fault(rt, files, (folder, to))?]))
}

fn copied<H: Host>(
    rt: H,
    system: HostRuntime,
    folder: Path<'_>,
    paths: (Path<'_>, Path<'_>),
) -> io::Result<(u32, [Option<ErrorKind>; 2])> {
    copy_all(
        rt,
        system,
        &Files::new(rt, system, Some("2"))?,
        folder,
        paths,
    )
}

#[test]
fn a_copy_has_the_bytes_and_the_permissions(rt: HostRuntime) -> Result<(), Fail> {
    let folder = folder(rt, "blocking_files_copies")?;
    let from = folder.join(rt.alloc(), "a")?;
    let to = folder.join(rt.alloc(), "b")?;
    let paths = (from.as_path(), to.as_path());
    let (whole, faults) = copied(rt, rt, folder.as_path(), paths)?;
    assert_eq!(rt; whole, 4);
    // (neither empties what it would write to)
    assert_eq!(rt; faults, [Some(ErrorKind::InvalidInput); 2]);
    assert_eq!(rt; fs::metadata(&rt, &from)?.len(), 1_000_003);
    assert_eq!(rt; fs::metadata(&rt, &to)?.len(), 1_000_003);
    fs::remove_dir_all(&rt, &folder)?;
    Ok(())
}
