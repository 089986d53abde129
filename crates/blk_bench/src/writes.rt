//! The benchmarks of writers that are lent.
ghost use Rattle.std.specs.Prelude.{◌<◌};

use crate::figures::{Figures, Request, rate};
use crate::pipe::{failed, pattern};
use crate::writing::{WritePlan, write_by};
use blocking::{Executor, Host, Runtime, WriteJob};
use blocking_core::pipe::DEFAULT_BYTES;
use std::alloc::{AllocError, Global};
use std::io;
use std::io::Write;
use std::random::RandomSource;
use std::sync::Arc;

/// What is written. The pipe of a session is for a default of bytes, for 65,536 or for 4,096.
#[derive(Clone, Copy)]
pub(crate) enum Writes {
    /// 20,000,000 bytes into memory that is there.
    Short,
    ShortBy64K,
    ShortBy4K,
    /// 200,000,000 bytes into memory that is there.
    Long,
    LongBy64K,
    LongBy4K,
    /// 20,000,000 bytes into memory that grows.
    Growing,
}

impl Writes {
    pub(crate) fn name(self) -> &'static str {
        match self {
            Writes::Short => "write_20m",
            Writes::ShortBy64K => "write_20m_c64k",
            Writes::ShortBy4K => "write_20m_c4k",
            Writes::Long => "write_200m",
            Writes::LongBy64K => "write_200m_c64k",
            Writes::LongBy4K => "write_200m_c4k",
            Writes::Growing => "write_grow_20m",
        }
    }

    pub(crate) fn size(self) -> usize {
        match self {
            Writes::Long | Writes::LongBy64K | Writes::LongBy4K => 200_000_000,
            _ => 20_000_000,
        }
    }

    fn capacity(self) -> usize
        ensures { 0 < result }
    {
        match self {
            Writes::ShortBy64K | Writes::LongBy64K => 65_536,
            Writes::ShortBy4K | Writes::LongBy4K => 4_096,
            _ => DEFAULT_BYTES,
        }
    }

    // The memory into which is written. (that which is there was touched)
    fn memory(self, alloc: Global, size: usize) -> Result<Memory, AllocError> {
        let bytes = match self {
            Writes::Growing => Vec::new(alloc),
            _ => vec![in alloc; 1u8; size]?,
        };
        Ok(Memory::over(bytes))
    }

    /// All bytes of the request through a session, once cold and then as often as is asked, in MB/s.
    pub(crate) fn run<R: Host>(
        self,
        rt: HostRuntime,
        host: R,
        request: Request,
        figures: &mut Figures,
    ) -> io::Result<()> {
        let bytes = Arc::new(rt.alloc(), pattern(rt.alloc(), request.size)?)?;
        match Executor::new(host, None) {
            Ok(executor) => self.measure_over(rt, &executor, &bytes, request, figures),
            Err(_) => Err(failed()),
        }
    }

    // Runs the request's sessions, each into a new vector.
    fn measure_over<R: Runtime + RandomSource>(
        self,
        rt: HostRuntime,
        executor: &Executor<WriteJob<Memory, R>, R>,
        bytes: &Arc<Vec<u8>>,
        request: Request,
        figures: &mut Figures,
    ) -> io::Result<()> {
        let plan = WritePlan {
            capacity: self.capacity(),
            length: bytes.len(),
        };
        for rep in 0..=request.reps {
            let memory = self.memory(rt.alloc(), bytes.len())?;
            let nanos = write_by(rt, executor, memory, bytes, plan)?;
            figures.note(rep, rate(bytes.len(), nanos))?;
        }
        Ok(())
    }
}

/// Memory into which is written, from a place on; behind its end it grows.
#[derive(Drop)]
pub(crate) struct Memory {
    pub(crate) bytes: Vec<u8>,
    place: usize,
}

impl Memory {
    /// From the first byte on.
    pub(crate) fn over(bytes: Vec<u8>) -> Memory {
        Memory { bytes, place: 0 }
    }
}

impl Write for Memory {
    fn write(&mut self, buf: &[u8]) -> io::Result<usize> {
        let there = self.bytes.len().saturating_sub(self.place);
        let count = there.min(buf.len());
        if count == 0 {
            self.bytes.extend_from_slice(buf)?;
            self.place = self.bytes.len();
            return Ok(buf.len());
        }
        let start = self.place;
        self.bytes[start..start + count].copy_from_slice(&buf[..count]);
        self.place = start + count;
        Ok(count)
    }

    fn flush(&mut self) -> io::Result<()> {
        Ok(())
    }
}
