//! A copier that shows how far it is: all that one file has is in the other once it is over, and so is how much that was.
use blocking::{AsyncReadExt, AsyncWriteExt, Executor, FileJobs, Host};
use blocking_anytime::{Open, OpenReader, OpenWriter};
use futures::executor::block_on;
use std::fs::File;
use std::io;

/// Copies the one file to the other, prints how many bytes are there by now, and gives how many that were.
pub(crate) fn copy<H: Host + Print>(rt: H, from: File, to: File) -> io::Result<usize> {
    let executor: Executor<FileJobs<H>, H> = Executor::new(rt, Some("2"))?;
    let mut from: OpenReader<File, H, FileJobs<H>> = Open::new(executor.try_clone()?, from);
    let mut to: OpenWriter<File, H, FileJobs<H>> = Open::new(executor, to);
    let (mut piece, mut copied) = (vec![in rt.alloc(); 0u8; 65_536]?, 0usize);
    for _ in rt.forever() {
        let count = block_on(&rt, from.read(&mut piece))??;
        block_on(&rt, to.write_all(&piece[..count]))??;
        block_on(&rt, to.flush())??;
        if count == 0 {
            break;
        }
        copied = copied.saturating_add(count);
        println!(rt; "{copied} bytes are copied")?;
    }
    Ok(copied)
}
