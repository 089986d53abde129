//! Runs blocking calls from the command line.
#![tactic(auto)]

use blk_commands::command::command;
use blk_commands::copy::copy;
use blk_commands::fault::BlkFault;
use blk_commands::words::words;
use blocking_core::limit::MAX_THREADS_ENV;
use std::alloc::AllocError;
use std::env;
use std::env::VarError;
use std::process::ExitCode;

fn main(rt: HostRuntime) -> ExitCode {
    let status = match (words(&rt), setting(&rt)) {
        (Ok(words), Ok(setting)) => {
            let setting = setting.as_ref().map(|text| text.as_str());
            if is_copy(words.as_slice()) {
                status_of(&rt, copy(rt, setting, rt.stdin(), rt.stdout()))
            } else {
                command(
                    rt,
                    words.as_slice(),
                    setting,
                    &mut rt.stdin(),
                    &mut rt.stdout(),
                    &mut rt.stderr(),
                )
            }
        }
        // There is no memory for the words or the setting.
        _ => status_of(&rt, Err(BlkFault::from(AllocError))),
    };
    ExitCode::from(status)
}

// Whether the one word is `copy`, which `command` takes for a wrong command line, since a copy has no contract.
fn is_copy(words: &[Option<String>]) -> bool {
    match words {
        [Some(word)] => word.as_str() == "copy",
        _ => false,
    }
}

// The status of work whose fault is told on standard error. (one that can't be told changes nothing else)
fn status_of(rt: &HostRuntime, done: Result<(), BlkFault>) -> u8 {
    match done {
        Ok(()) => 0,
        Err(fault) => {
            let _ = rt.eprintln(fault);
            1
        }
    }
}

// The text of the setting; None where it is unset or isn't UTF-8.
fn setting(rt: &HostRuntime) -> Result<Option<String>, AllocError> {
    match env::var(rt, MAX_THREADS_ENV) {
        Ok(text) => Ok(Some(text)),
        Err(VarError::NotPresent | VarError::NotUnicode) => Ok(None),
        Err(VarError::OutOfMemory) => Err(AllocError),
    }
}
