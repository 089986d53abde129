//! Writers and readers that fail, and those of a copy.
use std::io;
use std::io::{ErrorKind, Read, Write};
use std::sync::{Arc, Mutex, Wait};

/// A writer that takes no byte.
#[derive(Drop)]
pub(crate) struct Full;

impl Write for Full {
    fn write(&mut self, _bytes: &[u8]) -> io::Result<usize> {
        Err(io::Error::from(ErrorKind::StorageFull))
    }

    fn flush(&mut self) -> io::Result<()> {
        Ok(())
    }
}

/// A writer that takes each byte, and loses them in the end.
#[derive(Drop)]
pub(crate) struct Lossy;

impl Write for Lossy {
    fn write(&mut self, bytes: &[u8]) -> io::Result<usize> {
        Ok(bytes.len())
    }

    fn flush(&mut self) -> io::Result<()> {
        Err(io::Error::from(ErrorKind::StorageFull))
    }
}

/// A reader that gives a line, and then fails.
#[derive(Drop)]
pub(crate) struct Broken {
    pub(crate) is_read: bool,
}

impl Read for Broken {
    fn read(&mut self, buf: &mut [u8]) -> io::Result<usize> {
        if self.is_read || buf.len() < 8 {
            return Err(io::Error::from(ErrorKind::UnexpectedEof));
        }
        self.is_read = true;
        buf[..8].copy_from_slice(b"limit 3\n");
        Ok(8)
    }
}

/// A writer whose bytes are shared under a lock.
#[derive(Drop)]
pub(crate) struct Shared<R: Wait + Copy> {
    pub(crate) rt: R,
    pub(crate) bytes: Arc<Mutex<Vec<u8>>>,
}

impl<R: Wait + Copy> Write for Shared<R> {
    fn write(&mut self, bytes: &[u8]) -> io::Result<usize> {
        self.bytes.lock(&self.rt).extend_from_slice(bytes)?;
        Ok(bytes.len())
    }

    fn flush(&mut self) -> io::Result<()> {
        Ok(())
    }
}

/// A reader of so many bytes: byte i is i as `u8`.
#[derive(Drop)]
pub(crate) struct Cycle {
    pub(crate) given: u8,
    pub(crate) left: usize,
}

impl Read for Cycle {
    fn read(&mut self, buf: &mut [u8]) -> io::Result<usize> {
        let count = buf.len().min(self.left);
        for place in buf[..count].iter_mut() {
            *place = self.given;
            self.given = self.given.wrapping_add(1);
        }
        self.left = self.left.saturating_sub(count);
        Ok(count)
    }
}
