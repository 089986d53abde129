//! The benchmarks of readers that are lent.
ghost use Rattle.std.specs.Prelude.{◌<◌};

use crate::figures::{Figures, Request, rate};
use crate::pipe::{failed, pattern};
use crate::reading::{ReadPlan, read_by};
use blocking::{Executor, Host, ReadJob, Runtime};
use blocking_core::pipe::DEFAULT_BYTES;
use std::fs::File;
use std::io::Read;
use std::random::RandomSource;
use std::sync::Arc;
use std::{fs, io};

// The file of `readfile_200m`, in memory.
const FILE: &str = "/dev/shm/blk_bench-readfile";

/// What is read. The pipe of a session is for a default of bytes, for 65,536 or for 4,096.
#[derive(Clone, Copy)]
pub(crate) enum Reads {
    /// 20,000,000 bytes that are in memory.
    Short,
    ShortBy64K,
    ShortBy4K,
    /// 200,000,000 bytes that are in memory.
    Long,
    LongBy64K,
    LongBy4K,
    /// A file of 200,000,000 bytes.
    File,
}

impl Reads {
    pub(crate) fn name(self) -> &'static str {
        match self {
            Reads::Short => "read_20m",
            Reads::ShortBy64K => "read_20m_c64k",
            Reads::ShortBy4K => "read_20m_c4k",
            Reads::Long => "read_200m",
            Reads::LongBy64K => "read_200m_c64k",
            Reads::LongBy4K => "read_200m_c4k",
            Reads::File => "readfile_200m",
        }
    }

    pub(crate) fn size(self) -> usize {
        match self {
            Reads::Short | Reads::ShortBy64K | Reads::ShortBy4K => 20_000_000,
            _ => 200_000_000,
        }
    }

    fn capacity(self) -> usize
        ensures { 0 < result }
    {
        match self {
            Reads::ShortBy64K | Reads::LongBy64K => 65_536,
            Reads::ShortBy4K | Reads::LongBy4K => 4_096,
            _ => DEFAULT_BYTES,
        }
    }

    /// All bytes of the request through a session, once cold and then as often as is asked, in MB/s.
    pub(crate) fn run<R: Host>(
        self,
        rt: HostRuntime,
        host: R,
        request: Request,
        figures: &mut Figures,
    ) -> io::Result<()> {
        let bytes = pattern(rt.alloc(), request.size)?;
        let Reads::File = self else {
            let bytes = Arc::new(rt.alloc(), bytes)?;
            return self.measure(rt, host, &bytes, request, figures);
        };
        fs::write(&rt, FILE, bytes)?;
        let none = Arc::new(rt.alloc(), Vec::new(rt.alloc()))?;
        let measured = self.measure(rt, host, &none, request, figures);
        fs::remove_file(&rt, FILE)?;
        measured
    }

    fn measure<R: Host>(
        self,
        rt: HostRuntime,
        host: R,
        bytes: &Arc<Vec<u8>>,
        request: Request,
        figures: &mut Figures,
    ) -> io::Result<()> {
        match Executor::new(host, None) {
            Ok(executor) => self.measure_over(rt, &executor, bytes, request, figures),
            Err(_) => Err(failed()),
        }
    }

    // Runs the request's sessions, each with a new reader.
    fn measure_over<R: Runtime + RandomSource>(
        self,
        rt: HostRuntime,
        executor: &Executor<ReadJob<Reader, R>, R>,
        bytes: &Arc<Vec<u8>>,
        request: Request,
        figures: &mut Figures,
    ) -> io::Result<()> {
        let plan = ReadPlan {
            capacity: self.capacity(),
            sessions: 1,
            length: request.size,
        };
        for rep in 0..=request.reps {
            let reader = self.open(rt, bytes)?;
            let nanos = read_by(rt, executor, reader, plan)?;
            figures.note(rep, rate(request.size, nanos))?;
        }
        Ok(())
    }

    fn open(self, rt: HostRuntime, bytes: &Arc<Vec<u8>>) -> io::Result<Reader> {
        Ok(match self {
            Reads::File => Reader::File(File::open(&rt, FILE)?),
            _ => Reader::over(Arc::try_clone(bytes)?),
        })
    }
}

/// Bytes in memory, read from a place on.
#[derive(Drop)]
pub(crate) struct Memory {
    bytes: Arc<Vec<u8>>,
    place: usize,
}

impl Read for Memory {
    fn read(&mut self, buf: &mut [u8]) -> io::Result<usize> {
        let rest = self.bytes.get(self.place..).unwrap_or(&[]);
        let count = rest.len().min(buf.len());
        buf[..count].copy_from_slice(&rest[..count]);
        self.place = self.place.saturating_add(count);
        Ok(count)
    }
}

/// A reader that is lent.
#[derive(Drop)]
pub(crate) enum Reader {
    Memory(Memory),
    /// A file.
    File(File),
}

impl Reader {
    /// A reader over bytes in memory, at the first.
    pub(crate) fn over(bytes: Arc<Vec<u8>>) -> Reader {
        Reader::Memory(Memory { bytes, place: 0 })
    }

    /// Rewinds a reader over memory. A file stays where it is.
    pub(crate) fn rewind(&mut self) {
        if let Reader::Memory(memory) = self {
            memory.place = 0;
        }
    }
}

impl Read for Reader {
    fn read(&mut self, buf: &mut [u8]) -> io::Result<usize> {
        match self {
            Reader::Memory(memory) => memory.read(buf),
            Reader::File(file) => file.read(buf),
        }
    }
}
