//! What is said on standard error.
ghost use Rattle.std.specs.Prelude.{IfSome, OnOk};
ghost use Rattle.std.specs.Io.KnownBytes.{Appends};
ghost use Rattle.blk_commands.specs.Outcomes.{AppendsPart};
ghost use Rattle.blk_commands.specs.Plays.{line_of};

use std::fmt::{Display, InlineText, Write as _};
use std::io;
use std::io::{ErrorKind, Write};

// No line that is told has more bytes.
const ROOM: usize = 64;

// How often a line is tried to be written: each try takes a byte at least, or fails, or was interrupted.
const TRIES: usize = 1_000;

/// Writes a text and a line feed; where that fails, a first part of them at most was written. Takes no memory.
pub(crate) fn tell<W: Write, D: Display + Drop>(faults: &mut W, text: D) -> io::Result<()>
    ensures part { IfSome (D.output text) (λ text.
        AppendsPart (W.contents faults.old) (W.contents faults.new) (line_of text)) }
    ensures whole { OnOk result (IfSome (D.output text) (λ text.
        Appends (W.contents faults.old) (W.contents faults.new) (line_of text))) }
{
    let mut line = InlineText::<ROOM>::new();
    writeln!(line, "{text}")?;
    write_part(faults, line.as_str().as_bytes())
}

// Writes the bytes; where that fails, a first part of them at most was written. (`write_all` promises nothing of a failure.)
fn write_part<W: Write>(writer: &mut W, bytes: &[u8]) -> io::Result<()>
    ensures part { AppendsPart (W.contents writer.old) (W.contents writer.new) bytes.now }
    ensures whole { OnOk result
        (Appends (W.contents writer.old) (W.contents writer.new) bytes.now) }
{
    let mut rest = bytes;
    for _ in 0..TRIES {
        if rest.is_empty() {
            return Ok(());
        }
        match writer.write(rest) {
            Ok(0) => return Err(io::Error::from(ErrorKind::WriteZero)),
            Ok(count) => rest = &rest[count..],
            Err(error) => {
                if error.kind() != ErrorKind::Interrupted {
                    return Err(error);
                }
            }
        }
    }
    Err(io::Error::from(ErrorKind::Interrupted))
}
