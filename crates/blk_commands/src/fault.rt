//! What can go wrong once a command line is right.
ghost use Rattle.std.specs.Prelude.{◌≡◌, Some};
ghost use Rattle.blk_commands.specs.declared.fault.BlkFault.TheVariants as blk_fault;
ghost use Rattle.blk_commands.specs.declared.fault.CommandFault.TheVariants as command_fault;
ghost use Rattle.blocking_pool.specs.declared.pool.answer.Refusal.TheVariants.{Memory};
ghost use Rattle.blk_commands.specs.Faults.{command_fault_text, fault_status, fault_text, told_of};

use crate::script::ScriptFault;
use blocking_core::pool::{Refusal, Refused};
use std::alloc::AllocError;
use std::error::Error;
use std::fmt;

/// Why the work of a command failed.
#[derive(Clone, Copy, Debug, PartialEq, Eq)]
pub enum BlkFault {
    /// The pool refused the job, or there was no memory.
    Refused(Refusal),
    /// The input couldn't be read.
    Reading,
    /// The output couldn't be written or flushed.
    Writing,
    /// The call couldn't be awaited.
    Running,
}

/// What can go wrong with a command: its work fails, or its input is no script where one is asked for.
#[derive(Clone, Copy, Debug, PartialEq, Eq)]
pub enum CommandFault {
    /// The work failed.
    Failed(BlkFault),
    /// The input isn't UTF-8.
    NotText,
    /// This line of the input, counted from 1, is the first that is none of a script.
    NotAStep(usize),
}

impl fmt::Display for BlkFault {
    ghost output = { λ fault. Some (fault_text fault) };

    fn fmt<W: fmt::Write>(&self, f: &mut fmt::Formatter<W>) -> fmt::Result {
        match *self {
            BlkFault::Refused(Refusal::Memory) => f.write_str("blk: refused: memory"),
            BlkFault::Refused(Refusal::NoWorker) => f.write_str("blk: refused: no worker"),
            BlkFault::Refused(Refusal::Numbers) => f.write_str("blk: refused: numbers"),
            BlkFault::Reading => f.write_str("blk: reading failed"),
            BlkFault::Writing => f.write_str("blk: writing failed"),
            BlkFault::Running => f.write_str("blk: running failed"),
        }
    }
}

impl fmt::Display for CommandFault {
    ghost output = { λ fault. Some (command_fault_text fault) };

    fn fmt<W: fmt::Write>(&self, f: &mut fmt::Formatter<W>) -> fmt::Result {
        match *self {
            CommandFault::Failed(fault) => write!(f, "{fault}"),
            CommandFault::NotText => f.write_str("blk: not a text"),
            CommandFault::NotAStep(line) => write!(f, "line {line}: not a step"),
        }
    }
}

impl CommandFault {
    /// The status of a command with this fault: 2 where its input is at fault, as where its words are.
    pub(crate) fn status(self) -> u8
        ensures { result ≡ fault_status self }
    {
        match self {
            CommandFault::Failed(_) => 1,
            CommandFault::NotText | CommandFault::NotAStep(_) => 2,
        }
    }
}

impl Error for BlkFault {}

impl Error for CommandFault {}

impl From<AllocError> for BlkFault {
    ghost from_gives = { λ _ fault. fault ≡ blk_fault.Refused Memory };

    fn from(_error: AllocError) -> BlkFault {
        BlkFault::Refused(Refusal::Memory)
    }
}

impl<J: Drop> From<Refused<J>> for BlkFault {
    ghost from_gives = { λ refused fault. fault ≡ blk_fault.Refused refused.why };

    fn from(refused: Refused<J>) -> BlkFault {
        BlkFault::Refused(refused.why)
    }
}

impl From<BlkFault> for CommandFault {
    ghost from_gives = { λ failed fault. fault ≡ command_fault.Failed failed };

    fn from(failed: BlkFault) -> CommandFault {
        CommandFault::Failed(failed)
    }
}

impl From<AllocError> for CommandFault {
    ghost from_gives = { λ _ fault. fault ≡ command_fault.Failed (blk_fault.Refused Memory) };

    fn from(error: AllocError) -> CommandFault {
        CommandFault::Failed(BlkFault::from(error))
    }
}

impl From<ScriptFault> for CommandFault {
    ghost from_gives = { λ fault told. told ≡ told_of fault };

    fn from(fault: ScriptFault) -> CommandFault {
        match fault {
            ScriptFault::NotAStep(line) => CommandFault::NotAStep(line),
            ScriptFault::Memory => CommandFault::from(AllocError),
        }
    }
}
