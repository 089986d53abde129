//! What may go wrong where a handle is lent to a job.
use blocking_pool::pool::Refusal;
use std::error::Error;
use std::{fmt, io};

/// Why a call on a lent handle failed.
///
/// ```rust
/// match block_on(&rt, writer.write_all(line))? {
///     Ok(()) => "taken, and written once a flush says so",
///     Err(Fault::Io(error)) => return Err(error),
///     Err(Fault::WriteZero) => "the file took none of the bytes",
///     Err(Fault::Refused(_)) => "no session could begin, and the file is with its owner",
/// }
/// ```
#[derive(Clone, Copy, Debug, PartialEq, Eq)]
pub enum Fault<E> {
    /// The handle failed, with this error of its own.
    Io(E),
    /// The handle took none of the bytes that it was offered.
    WriteZero,
    /// No session could begin; the handle is with its owner.
    Refused(Refusal),
}

/// What a handle did wrong while its job used it. It is no refusal.
#[derive(Clone, Copy, Debug, PartialEq, Eq)]
pub enum JobFault<E> {
    /// The handle failed, with this error of its own.
    Io(E),
    /// The handle took none of the bytes that it was offered.
    WriteZero,
}

/// Where a seek goes, in bytes.
#[derive(Clone, Copy, Debug, PartialEq, Eq)]
pub enum Position {
    /// So far behind the start.
    Start(u64),
    /// So far behind where the handle is now, or before that.
    Current(i64),
    /// So far behind the end, or before that.
    End(i64),
}

impl Position {
    ghost use Rattle.std.specs.Prelude.{◌≡◌};
    ghost use Rattle.blocking_core.specs.Positions.{same_position};

    /// Whether both say the same: the same offset, from the same place.
    pub fn is_same(self, other: Position) -> bool
        ensures { result ≡ same_position self other }
    {
        match (self, other) {
            (Position::Start(here), Position::Start(there)) => here == there,
            (Position::Current(here), Position::Current(there)) => here == there,
            (Position::End(here), Position::End(there)) => here == there,
            _ => false,
        }
    }
}

impl<E> From<JobFault<E>> for Fault<E> {
    ghost use Rattle.std.specs.Prelude.{◌≡◌};
    ghost use Rattle.blocking_core.specs.Faults.{told};

    ghost from_gives = { λ fault result. result ≡ told fault };

    fn from(fault: JobFault<E>) -> Fault<E> {
        match fault {
            JobFault::Io(error) => Fault::Io(error),
            JobFault::WriteZero => Fault::WriteZero,
        }
    }
}

impl<E: fmt::Display> fmt::Display for Fault<E> {
    ghost use Rattle.blocking_core.specs.Faults.{fault_text};

    ghost output = { λ fault. fault_text E.output fault };

    fn fmt<W: fmt::Write>(&self, f: &mut fmt::Formatter<W>) -> fmt::Result {
        match self {
            Fault::Io(error) => write!(f, "{error}"),
            Fault::WriteZero => f.write_str("none of the bytes were taken"),
            Fault::Refused(why) => write!(f, "{why}"),
        }
    }
}

impl<E: Error> Error for Fault<E> {}

/// So that a `?` passes a fault on where errors of the system go. The handle's own error is handed on as it is. A write that got nothing on
/// is of the kind [`WriteZero`](io::ErrorKind::WriteZero). A refusal is of the kind that it is as an error of the system.
impl From<Fault<io::Error>> for io::Error {
    ghost use Rattle.blocking_core.specs.Faults.{IsToldAs};

    ghost from_gives = { λ fault error. IsToldAs fault error };

    fn from(fault: Fault<io::Error>) -> io::Error {
        match fault {
            Fault::Io(error) => error,
            Fault::WriteZero => io::Error::new(
                io::ErrorKind::WriteZero,
                "none of the bytes were taken",
            ),
            Fault::Refused(why) => io::Error::from(why),
        }
    }
}
