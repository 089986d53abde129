//! The benchmarks of short sessions: many of one owner, one after another.
ghost use Rattle.std.specs.Prelude.{◌<◌};

use crate::figures::{Figures, Request, each};
use crate::pipe::{failed, pattern};
use crate::reading::{ReadPlan, read_by};
use crate::reads::Reader;
use crate::writes::Memory;
use crate::writing::{WritePlan, write_by};
use blocking::{Executor, Host, ReadJob, Runtime, WriteJob};
use blocking_core::pipe::DEFAULT_BYTES;
use std::io;
use std::random::RandomSource;
use std::sync::Arc;

// How many bytes one session reads or writes.
const SESSION: usize = 10_000;

/// What is done in each session. The pipe of a writing one is for the default of bytes, or for 65,536.
#[derive(Clone, Copy)]
pub(crate) enum Sessions {
    Writing,
    WritingBy64K,
    Reading,
}

impl Sessions {
    pub(crate) fn name(self) -> &'static str {
        match self {
            Sessions::Writing => "write_short",
            Sessions::WritingBy64K => "write_short_c64k",
            Sessions::Reading => "read_short",
        }
    }

    pub(crate) fn size(self) -> usize {
        2_000
    }

    /// All sessions of the request, once cold and then as often as is asked, in ns each.
    pub(crate) fn run<R: Host>(
        self,
        rt: HostRuntime,
        host: R,
        request: Request,
        figures: &mut Figures,
    ) -> io::Result<()> {
        match self {
            Sessions::Writing => write_all(rt, host, DEFAULT_BYTES, request, figures),
            Sessions::WritingBy64K => write_all(rt, host, 65_536, request, figures),
            Sessions::Reading => read_all(rt, host, request, figures),
        }
    }
}

fn write_all<R: Host>(
    rt: HostRuntime,
    host: R,
    capacity: usize,
    request: Request,
    figures: &mut Figures,
) -> io::Result<()>
    requires { 0 < capacity }
{
    let size = request.size.saturating_mul(SESSION);
    let bytes = Arc::new(rt.alloc(), pattern(rt.alloc(), size)?)?;
    match Executor::new(host, None) {
        Ok(executor) => write_over(rt, &executor, &bytes, capacity, request, figures),
        Err(_) => Err(failed()),
    }
}

// Runs the request's sessions, with one owner a repetition.
fn write_over<R: Runtime + RandomSource>(
    rt: HostRuntime,
    executor: &Executor<WriteJob<Memory, R>, R>,
    bytes: &Arc<Vec<u8>>,
    capacity: usize,
    request: Request,
    figures: &mut Figures,
) -> io::Result<()>
    requires { 0 < capacity }
{
    let plan = WritePlan {
        capacity,
        length: SESSION,
    };
    for rep in 0..=request.reps {
        let memory = Memory::over(vec![in rt.alloc(); 1u8; bytes.len()]?);
        let nanos = write_by(rt, executor, memory, bytes, plan)?;
        figures.note(rep, each(nanos, request.size))?;
    }
    Ok(())
}

fn read_all<R: Host>(
    rt: HostRuntime,
    host: R,
    request: Request,
    figures: &mut Figures,
) -> io::Result<()> {
    let bytes = Arc::new(rt.alloc(), pattern(rt.alloc(), SESSION)?)?;
    match Executor::new(host, None) {
        Ok(executor) => read_over(rt, &executor, &bytes, request, figures),
        Err(_) => Err(failed()),
    }
}

// Runs the request's sessions, with one owner a repetition.
fn read_over<R: Runtime + RandomSource>(
    rt: HostRuntime,
    executor: &Executor<ReadJob<Reader, R>, R>,
    bytes: &Arc<Vec<u8>>,
    request: Request,
    figures: &mut Figures,
) -> io::Result<()> {
    let plan = ReadPlan {
        capacity: DEFAULT_BYTES,
        sessions: request.size,
        length: SESSION,
    };
    for rep in 0..=request.reps {
        let reader = Reader::over(Arc::try_clone(bytes)?);
        let nanos = read_by(rt, executor, reader, plan)?;
        figures.note(rep, each(nanos, request.size))?;
    }
    Ok(())
}
