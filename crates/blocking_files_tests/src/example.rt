//! The program of the crate's page.
use crate::folder::folder;
use blocking::{AsyncWriteExt, Host, Runtime};
use blocking_files::{CarriesFiles, Files};
use futures::executor::block_on;
use std::path::Path;
use std::random::RandomSource;
use std::test::Fail;
use std::{fs, io};

// Writes two notes, and gives what stands in the second, and how many bytes the first has.
fn notes<H: Runtime + RandomSource, J: CarriesFiles<H>>(
    rt: H,
    files: &Files<H, J>,
    folder: Path<'_>,
) -> io::Result<(String, u64)> {
    block_on(&rt, files.create_dir_all(folder))??;
    let first = folder.join(rt.alloc(), "first")?;
    let second = folder.join(rt.alloc(), "second")?;
    block_on(&rt, files.write(&first, "oaks\n"))??;
    write_second(rt, files, second.as_path())?;
    let length = block_on(&rt, files.metadata(&first))??.len();
    Ok((block_on(&rt, files.read_to_string(&second))??, length))
}

// Writes a note by pieces, and has it on the disk.
fn write_second<H: Runtime + RandomSource, J: CarriesFiles<H>>(
    rt: H,
    files: &Files<H, J>,
    path: Path<'_>,
) -> io::Result<()> {
    let mut file = block_on(&rt, files.create(path))??;
    block_on(&rt, file.write_all(b"pines "))??;
    block_on(&rt, file.write_all(b"and firs\n"))??;
    block_on(&rt, file.sync_all())?
}

fn noted<H: Host>(rt: H, system: HostRuntime, folder: Path<'_>) -> io::Result<(String, u64)> {
    let files = Files::new(rt, system, Some("4"))?;
    notes(rt, &files, folder)
}

#[test]
fn notes_are_written_and_read(rt: HostRuntime) -> Result<(), Fail> {
    let folder = folder(rt, "blocking_files_notes")?;
    let (text, length) = noted(rt, rt, folder.as_path())?;
    assert_eq!(rt; text.as_str(), "pines and firs\n");
    assert_eq!(rt; length, 5);
    fs::remove_dir_all(&rt, &folder)?;
    Ok(())
}
