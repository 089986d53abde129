//! A copy that shows how far it is. Two jobs of one pool read and write.
use blocking::{CopyFault, Host};
use std::fs::File;
use std::io::{self, Write};

// Behind how many bytes each the progress is shown.
const PART: u64 = 16_777_216;

// A file that shows how much of it was written. A flush has that on the disk, where it is synced.
#[derive(Drop)]
struct ShownFile<P> {
    file: File,
    rt: P,
    written: u64,
    is_synced: bool,
}

impl<P: Eprint> Write for ShownFile<P> {
    fn write(&mut self, bytes: &[u8]) -> io::Result<usize> {
        let count = self.file.write(bytes)?;
        let shown = self.written / PART;
        self.written = self.written.saturating_add(count as u64);
        if self.written / PART > shown {
            let _ = eprintln!(self.rt; "{} bytes", self.written);
        }
        Ok(count)
    }

    fn flush(&mut self) -> io::Result<()> {
        if self.is_synced {
            self.file.sync_all()?;
        }
        self.file.flush()
    }
}

/// Copies the one file to the other, and tells how many bytes that were.
pub(crate) fn copy<H: Host + Eprint>(
    rt: H,
    from: File,
    to: File,
    is_synced: bool,
) -> Result<u64, CopyFault> {
    let to = ShownFile {
        file: to,
        rt,
        written: 0,
        is_synced,
    };
    blocking::copy(rt, from, to)
}
