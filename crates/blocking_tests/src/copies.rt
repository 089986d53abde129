//! Copies between readers and writers whose every poll is told by a row: what they answer, and what was written and flushed.
ghost use Rattle.std.specs.Prelude.{◌<◌, IfOk};
ghost use Rattle.blocking_io.specs.Copies.{IsCopied};

use blocking::{AsyncRead, AsyncWrite, Copier, CopyFault, Fault, IoFault};
use futures::executor::block_on;
use futures::task::{Context, Poll};
use std::alloc::AllocGlobal;
use std::io::ErrorKind;
use std::random::RandomSource;
use std::test::Fail;
use std::{io, sync};

// How one poll is answered.
#[derive(Clone, Copy)]
enum Say {
    // It waits, and asks to be polled again.
    Wait,
    // So many bytes, or as many as there is room for.
    Count(usize),
    Fault,
}

use self::Say::{Count, Wait};

struct Row {
    name: &'static str,
    piece: usize,
    // The polls of the reader, whose byte i is i, and that is at its end behind them.
    reads: &'static [Say],
    // The polls that write, and those that flush: behind them all is taken, and flushed.
    writes: &'static [Say],
    flushes: &'static [Say],
    answer: Answer,
    // How many bytes were written, and whether they were flushed.
    written: usize,
    is_flushed: bool,
}

#[derive(Clone, Copy, Debug, PartialEq, Eq)]
enum Answer {
    Copied(u64),
    Reading,
    Writing,
    WriteZero,
}

const ROWS: &[Row] = &[
    Row {
        name: "nothing is flushed too",
        piece: 4,
        reads: &[],
        writes: &[],
        flushes: &[],
        answer: Answer::Copied(0),
        written: 0,
        is_flushed: true,
    },
    Row {
        name: "one byte a call",
        piece: 4,
        reads: &[Count(1), Count(1), Count(1)],
        writes: &[Count(1), Count(1), Count(1)],
        flushes: &[],
        answer: Answer::Copied(3),
        written: 3,
        is_flushed: true,
    },
    Row {
        name: "pieces of one byte",
        piece: 1,
        reads: &[Count(3), Count(3)],
        writes: &[],
        flushes: &[],
        answer: Answer::Copied(2),
        written: 2,
        is_flushed: true,
    },
    Row {
        name: "the rest of a piece is written",
        piece: 4,
        reads: &[Count(4), Count(2)],
        writes: &[Count(1), Count(2), Count(1), Count(2)],
        flushes: &[],
        answer: Answer::Copied(6),
        written: 6,
        is_flushed: true,
    },
    Row {
        name: "each call waits",
        piece: 4,
        reads: &[Wait, Count(3), Wait, Count(1), Wait],
        writes: &[Wait, Count(1), Wait, Wait, Count(2), Wait, Count(1)],
        flushes: &[Wait, Wait],
        answer: Answer::Copied(4),
        written: 4,
        is_flushed: true,
    },
    Row {
        name: "the first read fails",
        piece: 4,
        reads: &[Say::Fault],
        writes: &[],
        flushes: &[],
        answer: Answer::Reading,
        written: 0,
        is_flushed: false,
    },
    Row {
        name: "the second read fails, and nothing is flushed",
        piece: 4,
        reads: &[Count(2), Wait, Say::Fault],
        writes: &[],
        flushes: &[],
        answer: Answer::Reading,
        written: 2,
        is_flushed: false,
    },
    Row {
        name: "the read that would have met the end fails",
        piece: 2,
        reads: &[Count(2), Count(2), Say::Fault],
        writes: &[],
        flushes: &[],
        answer: Answer::Reading,
        written: 4,
        is_flushed: false,
    },
    Row {
        name: "the first write fails",
        piece: 4,
        reads: &[Count(2)],
        writes: &[Wait, Say::Fault],
        flushes: &[],
        answer: Answer::Writing,
        written: 0,
        is_flushed: false,
    },
    Row {
        name: "the write of a rest fails",
        piece: 4,
        reads: &[Count(3), Count(3)],
        writes: &[Count(1), Say::Fault],
        flushes: &[],
        answer: Answer::Writing,
        written: 1,
        is_flushed: false,
    },
    Row {
        name: "the write of the second piece fails",
        piece: 2,
        reads: &[Count(2), Count(2)],
        writes: &[Wait, Count(2), Wait, Say::Fault],
        flushes: &[],
        answer: Answer::Writing,
        written: 2,
        is_flushed: false,
    },
    Row {
        name: "the flush fails",
        piece: 4,
        reads: &[Count(3)],
        writes: &[],
        flushes: &[Wait, Say::Fault],
        answer: Answer::Writing,
        written: 3,
        is_flushed: false,
    },
    Row {
        name: "a write takes nothing, and no more is read",
        piece: 4,
        reads: &[Count(3), Say::Fault],
        writes: &[Count(1), Count(0)],
        flushes: &[Wait],
        answer: Answer::WriteZero,
        written: 1,
        is_flushed: true,
    },
    Row {
        name: "a write takes nothing, and the flush tells why",
        piece: 4,
        reads: &[Count(3)],
        writes: &[Count(0)],
        flushes: &[Say::Fault],
        answer: Answer::Writing,
        written: 0,
        is_flushed: false,
    },
];

// What is told by the next poll; this one where all were told.
fn next(told: &mut &'static [Say], last: Say) -> Say {
    let all = *told;
    let Some((first, rest)) = all.split_first() else {
        return last;
    };
    *told = rest;
    *first
}

fn fault() -> IoFault {
    Fault::Io(io::Error::from(ErrorKind::StorageFull))
}

#[derive(Drop)]
struct Source {
    reads: &'static [Say],
    given: u8,
}

impl AsyncRead for Source {
    ghost closed = { λ _. ⊥ };

    fn poll_read(&mut self, cx: &mut Context<'_>, buf: &mut [u8]) -> Poll<Result<usize, IoFault>> {
        match next(&mut self.reads, Count(0)) {
            Wait => cx.yield_now(),
            Say::Fault => Poll::Ready(Err(fault())),
            Count(most) => {
                let count = buf.len().min(most);
                for place in buf[..count].iter_mut() {
                    *place = self.given;
                    self.given = self.given.wrapping_add(1);
                }
                Poll::Ready(Ok(count))
            }
        }
    }
}

#[derive(Drop)]
struct Sink {
    writes: &'static [Say],
    flushes: &'static [Say],
    bytes: Vec<u8>,
    is_flushed: bool,
    is_closed: bool,
}

impl AsyncWrite for Sink {
    ghost use Rattle.std.specs.Prelude.{◌≡◌, true};

    ghost closed = { λ sink. sink.is_closed ≡ true };

    fn poll_write(&mut self, cx: &mut Context<'_>, bytes: &[u8]) -> Poll<Result<usize, IoFault>> {
        match next(&mut self.writes, Count(usize::MAX)) {
            Wait => cx.yield_now(),
            Say::Fault => Poll::Ready(Err(fault())),
            Count(most) => {
                let count = bytes.len().min(most);
                match self.bytes.extend_from_slice(&bytes[..count]) {
                    Ok(()) => Poll::Ready(Ok(count)),
                    Err(error) => Poll::Ready(Err(Fault::Io(io::Error::from(error)))),
                }
            }
        }
    }

    fn poll_flush(&mut self, cx: &mut Context<'_>) -> Poll<Result<(), IoFault>> {
        match next(&mut self.flushes, Count(0)) {
            Wait => cx.yield_now(),
            Say::Fault => Poll::Ready(Err(fault())),
            Count(_) => {
                self.is_flushed = true;
                Poll::Ready(Ok(()))
            }
        }
    }

    fn poll_close(&mut self, cx: &mut Context<'_>) -> Poll<Result<(), IoFault>> {
        let polled = self.poll_flush(cx);
        if let Poll::Ready(Ok(())) = polled {
            self.is_closed = true;
        }
        polled
    }
}

// What an answer is, without the errors of the system.
fn named(copied: Result<u64, CopyFault>) -> Answer {
    match copied {
        Ok(count) => Answer::Copied(count),
        Err(CopyFault::Reading(_)) => Answer::Reading,
        Err(CopyFault::Writing(Fault::WriteZero)) => Answer::WriteZero,
        Err(CopyFault::Writing(_)) => Answer::Writing,
    }
}

// What a copy answers, whether it is done then, how many bytes it counted, and its writer. (over any reader and writer, which costs less to
// prove: docs/GATE.md)
fn copied<R: sync::Wait + AllocGlobal + RandomSource, A: AsyncRead + Drop, B: AsyncWrite + Drop>(
    rt: &R,
    reader: A,
    writer: B,
    piece: usize,
) -> Result<((Answer, bool, u64), B), Fail>
    requires some { 0 < piece }
    requires reader_open { A.closed reader → ⊥ }
    requires writer_open { B.closed writer → ⊥ }
{
    let mut copier = Copier::new(rt.alloc(), reader, writer, piece)?;
    let answer = named(block_on(rt, &mut copier)?);
    let told = (answer, copier.is_done(), copier.copied());
    let (_, writer) = copier.into_parts();
    Ok((told, writer))
}

// Whether byte i is i as `u8`.
fn count_up(bytes: &[u8]) -> bool {
    bytes
        .iter()
        .enumerate()
        .all(|(place, byte)| *byte == (place % 256) as u8)
}

#[test]
fn copies_end_as_their_calls_say(rt: HostRuntime) -> Result<(), Fail> {
    for row in ROWS {
        let source = Source {
            reads: row.reads,
            given: 0,
        };
        let sink = Sink {
            writes: row.writes,
            flushes: row.flushes,
            bytes: Vec::new(rt.alloc()),
            is_flushed: false,
            is_closed: false,
        };
        let (told, sink) = copied(&rt, source, sink, row.piece.max(1))?;
        assert_eq!(rt;
            told,
            (row.answer, true, row.written as u64),
            "{}",
            row.name
        );
        let written = (sink.bytes.len(), sink.is_flushed, count_up(&sink.bytes));
        assert_eq!(rt;
            written,
            (row.written, row.is_flushed, true),
            "{}",
            row.name
        );
    }
    Ok(())
}

// Copies all by pieces of so many bytes, and tells how many bytes that were.
//
// What its Ok says of any reader and writer is known without a proof: that the reader was read to its end, that the writer took just what it
// gave, and that a flush was made behind the last write.
fn whole_copy<
    R: sync::Wait + AllocGlobal + RandomSource,
    A: AsyncRead + Drop,
    B: AsyncWrite + Drop,
>(rt: &R, reader: A, writer: B, piece: usize) -> Result<u64, Fail>
    requires some { 0 < piece }
    requires reader_open { A.closed reader → ⊥ }
    requires writer_open { B.closed writer → ⊥ }
    ensures { IfOk result (IsCopied A.reads B.writes reader writer) }
{
    let copier = Copier::new(rt.alloc(), reader, writer, piece)?;
    Ok(block_on(rt, copier)??)
}

#[test]
fn whole_copies_are_counted(rt: HostRuntime) -> Result<(), Fail> {
    // Each piece's length, and how many bytes two at most and then two whole pieces are.
    for (piece, written) in [(1, 3), (2, 6), (5, 12)] {
        let source = Source {
            reads: &[Count(2), Wait, Count(usize::MAX), Count(usize::MAX)],
            given: 0,
        };
        let sink = Sink {
            writes: &[],
            flushes: &[Wait],
            bytes: Vec::new(rt.alloc()),
            is_flushed: false,
            is_closed: false,
        };
        assert_eq!(rt; whole_copy(&rt, source, sink, piece)?, written, "{piece}");
    }
    Ok(())
}
