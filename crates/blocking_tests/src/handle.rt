//! A handle in memory, which is written.
use std::alloc::Global;
use std::io;
use std::io::{ErrorKind, Write};

/// Some bytes, and a place in them. A write goes over what stands there; it fails where it would go behind the last byte.
#[derive(Drop)]
pub(crate) struct Sheet {
    bytes: Vec<u8>,
    place: usize,
    /// How often it was flushed.
    pub(crate) flushes: u32,
}

impl Sheet {
    pub(crate) fn new(alloc: Global, text: &str) -> io::Result<Sheet> {
        let mut bytes = Vec::new(alloc);
        bytes.extend_from_slice(text.as_bytes())?;
        Ok(Sheet {
            bytes,
            place: 0,
            flushes: 0,
        })
    }
}

impl Write for Sheet {
    fn write(&mut self, bytes: &[u8]) -> io::Result<usize> {
        let at = self.place.min(self.bytes.len());
        let rest = &mut self.bytes[at..];
        let count = bytes.len().min(rest.len());
        if count == 0 && !bytes.is_empty() {
            return Err(io::Error::from(ErrorKind::StorageFull));
        }
        rest[..count].copy_from_slice(&bytes[..count]);
        self.place = self.place.saturating_add(count);
        Ok(count)
    }

    fn flush(&mut self) -> io::Result<()> {
        self.flushes = self.flushes.saturating_add(1);
        Ok(())
    }
}
