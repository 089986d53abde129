//! Files that are open. What reads, writes and moves is written over anything that is never closed, which costs less to prove.
use crate::folder::{folder, now};
use blocking::{
    AsyncRead, AsyncReadExt, AsyncSeek, AsyncSeekExt, AsyncWrite, AsyncWriteExt, Executor, Host,
    Runtime, set_max_blocking_threads,
};
use blocking_files::{CarriesFiles, File, FileJob, Files};
use futures::executor::block_on;
use std::fs::OpenOptions;
use std::io::{ErrorKind, SeekFrom};
use std::path::Path;
use std::random::RandomSource;
use std::test::Fail;
use std::{fs, io};

// Writes what is read later, and flushes.
fn write<A: AsyncWrite, H: Runtime + RandomSource>(rt: H, file: &mut A) -> io::Result<()>
    requires { (any : A) → A.closed any → ⊥ }
{
    block_on(&rt, file.write_all(b"oaks and "))??;
    block_on(&rt, file.write_all(b"elms"))??;
    block_on(&rt, file.flush())??;
    Ok(())
}

// Moves to the middle, and reads what stands there.
fn read_middle<A: AsyncRead + AsyncSeek, H: Runtime + RandomSource>(
    rt: H,
    file: &mut A,
) -> io::Result<(u64, [u8; 3])>
    requires reader { (any : A) → A.AsyncRead.closed any → ⊥ }
    requires seeker { (any : A) → A.AsyncSeek.closed any → ⊥ }
{
    let place = block_on(&rt, file.seek(SeekFrom::Start(5)))??;
    let mut three = [0u8; 3];
    block_on(&rt, file.read_exact(&mut three))??;
    Ok((place, three))
}

// Cuts all but four bytes off, and has it on the disk.
fn cut<H: Runtime + RandomSource, J: CarriesFiles<H>>(
    rt: H,
    file: &mut File<H, J>,
) -> io::Result<()> {
    now(&rt, file.set_len(4))?;
    now(&rt, file.sync_data())?;
    now(&rt, file.sync_all())
}

// Moves to the end, writes once more, and closes: where the end was, and how the close failed.
fn move_and_close<A: AsyncWrite + AsyncSeek, H: Runtime + RandomSource>(
    rt: H,
    file: &mut A,
) -> io::Result<(u64, ErrorKind)>
    requires writer { (any : A) → A.AsyncWrite.closed any → ⊥ }
    requires seeker { (any : A) → A.AsyncSeek.closed any → ⊥ }
{
    let end = block_on(&rt, file.seek(SeekFrom::End(0)))??;
    block_on(&rt, file.write_all(b" and firs"))??;
    match block_on(&rt, file.close())? {
        Ok(()) => Ok((end, ErrorKind::Other)),
        Err(why) => Ok((end, io::Error::from(why).kind())),
    }
}

// How many bytes a file had before it was cut, what stood in its middle, where its end was after the cut and how its close failed, and after
// that how many bytes it had and where its end was.
#[derive(Drop)]
struct Seen {
    length: u64,
    middle: (u64, [u8; 3]),
    closed: (u64, ErrorKind),
    after: (u64, u64),
}

fn use_file<H: Runtime + RandomSource, J: CarriesFiles<H>>(
    rt: H,
    file: &mut File<H, J>,
) -> io::Result<Seen> {
    write(rt, file)?;
    let length = now(&rt, file.metadata())?.len();
    let middle = read_middle(rt, file)?;
    cut(rt, file)?;
    let closed = move_and_close(rt, file)?;
    let flushed = now(&rt, file.metadata())?.len();
    let end = block_on(&rt, file.seek(SeekFrom::End(0)))??;
    Ok(Seen {
        length,
        middle,
        closed,
        after: (flushed, end),
    })
}

fn open_and_use<H: Runtime + RandomSource, J: CarriesFiles<H>>(
    rt: H,
    files: &Files<H, J>,
    path: Path<'_>,
) -> io::Result<Seen> {
    let mut how = OpenOptions::new();
    how.read(true).write(true).create(true);
    let mut file = now(&rt, files.open_with(how, path))?;
    use_file(rt, &mut file)
}

// (over a pool of one thread that is there already)
fn used<H: Host>(rt: H, system: HostRuntime, path: Path<'_>) -> io::Result<Seen> {
    let executor: Executor<FileJob<H>, H> = Executor::new(rt, Some("2"))?;
    let files = Files::over(executor, system);
    set_max_blocking_threads(files.executor(), 1);
    let share = files.try_clone()?;
    open_and_use(rt, &share, path)
}

#[test]
fn one_file_is_written_moved_read_and_cut(rt: HostRuntime) -> Result<(), Fail> {
    let folder = folder(rt, "blocking_files_open")?;
    let path = folder.join(rt.alloc(), "a")?;
    let seen = used(rt, rt, path.as_path())?;
    assert_eq!(rt; seen.length, 13);
    assert_eq!(rt; seen.middle.0, 5);
    assert_eq!(rt; seen.middle.1.as_slice(), b"and".as_slice());
    assert_eq!(rt; seen.closed, (4, ErrorKind::Unsupported));
    assert_eq!(rt; seen.after.0, 13, "a close flushes");
    assert_eq!(rt; seen.after.1, 13, "it is open still");
    assert_eq!(rt;
        fs::read(&rt, &path)?.as_slice(),
        b"oaks and firs".as_slice()
    );
    fs::remove_dir_all(&rt, &folder)?;
    Ok(())
}

// Writes to a file that is open for reading alone: whether a sync fails, and whether a flush after it does.
fn write_to_a_reader<H: Runtime + RandomSource, J: CarriesFiles<H>>(
    rt: H,
    files: &Files<H, J>,
    path: Path<'_>,
) -> io::Result<(bool, bool)> {
    let opening = files.open(path);
    let mut file = now(&rt, opening)?;
    block_on(&rt, file.write_all(b"elms"))??;
    let sync_failed = now(&rt, file.sync_all()).is_err();
    let flush_failed = block_on(&rt, file.flush())?.is_err();
    Ok((sync_failed, flush_failed))
}

fn faults<H: Host>(rt: H, system: HostRuntime, path: Path<'_>) -> io::Result<(bool, bool)> {
    write_to_a_reader(rt, &Files::new(rt, system, Some("2"))?, path)
}

#[test]
fn what_a_write_failed_with_is_told_by_a_sync(rt: HostRuntime) -> Result<(), Fail> {
    let folder = folder(rt, "blocking_files_faults")?;
    let path = folder.join(rt.alloc(), "a")?;
    fs::write(&rt, &path, "oaks")?;
    let (sync_failed, flush_failed) = faults(rt, rt, path.as_path())?;
    assert!(rt; sync_failed && !flush_failed);
    assert_eq!(rt; fs::read(&rt, &path)?.as_slice(), b"oaks".as_slice());
    fs::remove_dir_all(&rt, &folder)?;
    Ok(())
}
