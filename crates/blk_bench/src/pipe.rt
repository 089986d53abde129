//! The benchmark of the pipe.
ghost use Rattle.std.specs.Prelude.{◌≡◌, ◌<◌, ◌≤◌, ◌++◌, length, drop};
ghost use Rattle.blocking_core.specs.Pipes.{empty_pipe};

use crate::figures::{Figures, Request, rate};
use blocking_core::pipe::{Answered, BytePipe, Drained, Pipe, Put};
use std::alloc::Global;
use std::io;
use std::time::Instant;

// The pipe's capacity, and how many bytes are put or drained at once.
const PIECE: usize = 65_536;

/// All bytes of the request through a pipe on one thread, once cold and then as often as is asked, in MB/s.
pub(crate) fn run(rt: HostRuntime, request: Request, figures: &mut Figures) -> io::Result<()> {
    let source = pattern(rt.alloc(), request.size)?;
    let mut buffer = vec![in rt.alloc(); 0u8; PIECE]?;
    for rep in 0..=request.reps {
        let start = Instant::now(&rt)?;
        pass_through(rt.alloc(), &source, &mut buffer)?;
        let nanos = start.elapsed(&rt)?.as_nanos();
        figures.note(rep, rate(request.size, nanos))?;
    }
    Ok(())
}

/// Byte i is i as u8.
pub(crate) fn pattern(alloc: Global, size: usize) -> io::Result<Vec<u8>> {
    let mut bytes = Vec::with_capacity(alloc, size)?;
    let mut byte = 0u8;
    for _ in 0..size {
        bytes.push(byte)?;
        byte = byte.wrapping_add(1);
    }
    Ok(bytes)
}

/// Whether the piece's first and last byte are those of these places.
pub(crate) fn is_right(place: u64, piece: &[u8]) -> bool {
    let last = place.wrapping_add(piece.len() as u64).wrapping_sub(1);
    piece.first() == Some(&((place % 256) as u8)) && piece.last() == Some(&((last % 256) as u8))
}

// Whether all pieces of the source come out of a pipe as they went in, one after another.
fn passes(pipe: &mut BytePipe<u8>, source: &[u8], buffer: &mut [u8]) -> bool
    requires empty { pipe.old ≡ empty_pipe 65536 }
{
    for piece in source.chunks(PIECE) {
        if piece.is_empty() || piece.len() > PIECE || piece.len() > buffer.len() {
            return false;
        }
        pass(pipe, piece, buffer);
        if buffer.first() != piece.first() || buffer.get(piece.len() - 1) != piece.last() {
            return false;
        }
    }
    true
}

fn pass_through(alloc: Global, source: &[u8], buffer: &mut [u8]) -> io::Result<()> {
    let mut pipe = Pipe::new(alloc, PIECE)?;
    if passes(&mut pipe, source, buffer) {
        Ok(())
    } else {
        Err(failed())
    }
}

// Puts a piece into an empty pipe and drains it: it is in the buffer then, and the pipe is as before.
fn pass(pipe: &mut BytePipe<u8>, piece: &[u8], buffer: &mut [u8])
    requires empty { pipe.old ≡ empty_pipe 65536 }
    requires fits { (0 < length piece.now) × (length piece.now ≤ 65536)
        × (length piece.now ≤ length buffer.old) }
    ensures pipe { pipe.new ≡ pipe.old }
    ensures buffer { buffer.new ≡ piece.now ++ drop (length piece.now) buffer.old }
{
    let Put::In(None) = pipe.put(piece) else {
        unreachable!()
    };
    let Answered { answer, spare: _ } = pipe.drain_or_seat(0, buffer);
    match answer {
        Drained::Got(_, None) => {}
        Drained::Got(_, Some(_note)) => unreachable!(),
        Drained::Ended | Drained::Waits(_) => unreachable!(),
    }
}

/// A wrong result, or want of a pool.
pub(crate) fn failed() -> io::Error {
    io::Error::from(io::ErrorKind::Other)
}
