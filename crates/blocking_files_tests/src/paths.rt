//! Calls on paths. They are made over any job type that carries them, which costs less to prove, and then over a pool.
use crate::folder::{folder, now};
use blocking::{CallJob, Carries, Host, Job, Runtime};
use blocking_files::{CarriesFiles, Change, Files, Look};
use futures::executor::block_on;
use futures::{Stream, StreamExt};
use std::fs::DirEntry;
use std::io::ErrorKind;
use std::os::unix::fs::symlink;
use std::path::Path;
use std::random::RandomSource;
use std::test::Fail;
use std::{fs, io};

// How a call failed, where it did.
fn kind_of<T>(answer: &io::Result<T>) -> Option<ErrorKind> {
    match answer {
        Ok(_) => None,
        Err(why) => Some(why.kind()),
    }
}

// Writes a file twice: what it has then, as bytes and as text, and how many bytes those are.
fn write_and_read<H: Runtime + RandomSource, J: CarriesFiles<H>>(
    rt: H,
    files: &Files<H, J>,
    path: Path<'_>,
) -> io::Result<(Vec<u8>, String, u64)> {
    now(&rt, files.write(path, "oaks"))?;
    now(&rt, files.write(path, "elm"))?;
    let length = now(&rt, files.metadata(path))?.len();
    let bytes = files.read(path);
    let text = files.read_to_string(path);
    Ok((now(&rt, bytes)?, now(&rt, text)?, length))
}

// Writes what is no text, renames and removes it: how it fails to be read as text, and to be read under its first name.
fn rename_and_remove<H: Runtime + RandomSource, J: CarriesFiles<H>>(
    rt: H,
    files: &Files<H, J>,
    path: Path<'_>,
    other: Path<'_>,
) -> io::Result<(Option<ErrorKind>, Option<ErrorKind>)> {
    now(&rt, files.write(path, b"\xff".as_slice()))?;
    let text = kind_of(&now(&rt, files.read_to_string(path)));
    now(&rt, files.rename(path, other))?;
    let gone = kind_of(&now(&rt, files.read(path)));
    now(&rt, files.remove_file(other))?;
    Ok((text, gone))
}

fn written<H: Host>(
    rt: H,
    system: HostRuntime,
    path: Path<'_>,
) -> io::Result<(Vec<u8>, String, u64)> {
    write_and_read(rt, &Files::new(rt, system, Some("4"))?, path)
}

fn removed<H: Host>(
    rt: H,
    system: HostRuntime,
    path: Path<'_>,
    other: Path<'_>,
) -> io::Result<(Option<ErrorKind>, Option<ErrorKind>)> {
    rename_and_remove(rt, &Files::new(rt, system, Some("4"))?, path, other)
}

#[test]
fn files_are_written_read_renamed_and_removed(rt: HostRuntime) -> Result<(), Fail> {
    let folder = folder(rt, "blocking_files_paths")?;
    let path = folder.join(rt.alloc(), "a")?;
    let other = folder.join(rt.alloc(), "b")?;
    let (bytes, text, length) = written(rt, rt, path.as_path())?;
    assert_eq!(rt; bytes.as_slice(), b"elm".as_slice());
    assert_eq!(rt; (text.as_str(), length), ("elm", 3));
    let (text, gone) = removed(rt, rt, path.as_path(), other.as_path())?;
    assert_eq!(rt; text, Some(ErrorKind::InvalidData));
    assert_eq!(rt; gone, Some(ErrorKind::NotFound));
    assert!(rt; !fs::exists(&rt, &path)? && !fs::exists(&rt, &other)?);
    fs::remove_dir_all(&rt, &folder)?;
    Ok(())
}

// Makes a folder in others that aren't there, and once more: how that failed with nothing to stand in, and where it was there.
fn make<H: Runtime + RandomSource, J: CarriesFiles<H>>(
    rt: H,
    files: &Files<H, J>,
    deep: Path<'_>,
) -> io::Result<(Option<ErrorKind>, Option<ErrorKind>)> {
    let nowhere = kind_of(&now(&rt, files.create_dir(deep)));
    now(&rt, files.create_dir_all(deep))?;
    now(&rt, files.create_dir_all(deep))?;
    Ok((nowhere, kind_of(&now(&rt, files.create_dir(deep)))))
}

// Whether a link is looked at, and whether what it leads to is. (over any job type that carries such a look)
fn look<H: Runtime + RandomSource, J: Job + Carries<CallJob<Look, H>>>(
    rt: H,
    files: &Files<H, J>,
    link: Path<'_>,
) -> io::Result<(bool, bool)> {
    let call = files.symlink_metadata(link);
    let begun = !call.is_taken();
    let link_is = now(&rt, call)?.is_symlink();
    Ok((begun && link_is, now(&rt, files.metadata(link))?.is_dir()))
}

// How many entries come, of which each is `a` or `link`.
fn count<S: Stream<Item = io::Result<DirEntry>>, H: Runtime + RandomSource>(
    rt: H,
    entries: &mut S,
) -> io::Result<usize>
    requires { (any : S) → S.can_poll any }
{
    let mut count = 0usize;
    for _ in rt.forever() {
        let Some(entry) = block_on(&rt, entries.next())? else {
            break;
        };
        if matches!(entry?.file_name(), "a" | "link") {
            count = count.saturating_add(1);
        }
    }
    Ok(count)
}

fn list<H: Runtime + RandomSource, J: CarriesFiles<H>>(
    rt: H,
    files: &Files<H, J>,
    folder: Path<'_>,
) -> io::Result<usize> {
    let mut entries = now(&rt, files.read_dir(folder))?;
    count(rt, &mut entries)
}

// Removes folders: how that failed for one that isn't empty. (over any job type that carries such a change)
fn remove<H: Runtime + RandomSource, J: Job + Carries<CallJob<Change, H>>>(
    rt: H,
    files: &Files<H, J>,
    outer: Path<'_>,
    deep: Path<'_>,
) -> io::Result<Option<ErrorKind>> {
    let full = kind_of(&now(&rt, files.remove_dir(outer)));
    now(&rt, files.remove_dir(deep))?;
    now(&rt, files.remove_dir_all(outer))?;
    Ok(full)
}

// What came of a folder's making, of a look at a link, of its entries and of its removal.
#[derive(Drop)]
struct Seen {
    made: (Option<ErrorKind>, Option<ErrorKind>),
    looked: (bool, bool),
    count: usize,
    full: Option<ErrorKind>,
}

fn use_folder<H: Runtime + RandomSource, J: CarriesFiles<H>>(
    rt: H,
    system: HostRuntime,
    files: &Files<H, J>,
    folder: Path<'_>,
) -> io::Result<Seen> {
    let outer = folder.join(rt.alloc(), "a")?;
    let deep = folder.join(rt.alloc(), "a/b/c")?;
    let link = folder.join(rt.alloc(), "link")?;
    let made = make(rt, files, deep.as_path())?;
    symlink(&system, "a", &link)?;
    let looked = look(rt, files, link.as_path())?;
    let count = list(rt, files, folder)?;
    let full = remove(rt, files, outer.as_path(), deep.as_path())?;
    Ok(Seen {
        made,
        looked,
        count,
        full,
    })
}

fn used<H: Host>(rt: H, system: HostRuntime, folder: Path<'_>) -> io::Result<Seen> {
    use_folder(rt, system, &Files::new(rt, system, None)?, folder)
}

#[test]
fn folders_are_made_listed_and_removed(rt: HostRuntime) -> Result<(), Fail> {
    let folder = folder(rt, "blocking_files_folders")?;
    let seen = used(rt, rt, folder.as_path())?;
    assert_eq!(rt; seen.made.0, Some(ErrorKind::NotFound));
    assert_eq!(rt; seen.made.1, Some(ErrorKind::AlreadyExists));
    assert_eq!(rt; seen.looked, (true, true));
    assert_eq!(rt; seen.count, 2);
    assert_eq!(rt; seen.full, Some(ErrorKind::DirectoryNotEmpty));
    assert!(rt; !fs::exists(&rt, folder.join(rt.alloc(), "a")?)?);
    fs::remove_dir_all(&rt, &folder)?;
    Ok(())
}
