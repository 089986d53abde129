//! The commands over a reader and two writers.
ghost use Rattle.std.specs.Prelude.{◌≡◌, ◌≢◌, ◌≤◌, IfErr, OnOk, None, Some};
ghost use Rattle.std.specs.Io.KnownBytes.{Appends};
ghost use Rattle.blk_commands.specs.Faults.{command_fault_text, fault_status};
ghost use Rattle.blk_commands.specs.Outcomes.{Answers, Done, HasFailed, LeavesInput};
ghost use Rattle.blk_commands.specs.Plays.{line_of};
ghost use Rattle.blk_commands.specs.Requests.{request_of, text_of, texts_of};

use crate::call::successor_of;
use crate::fault::{BlkFault, CommandFault};
use crate::request::{Request, asked};
use crate::steps::steps;
use crate::tell::tell;
use blocking::Host;
use std::io;
use std::io::{Read, Write};

const USAGE: &str = "usage: blk call N | blk limit [TEXT] | blk steps | blk copy";

/// Answers a command line, and gives the exit status.
///
/// The words are those after the program's name; a word is None where it isn't UTF-8. The status is 0 once the answer
/// is written to `output`. It is 2 where the words are a wrong command line, or the input is no script where one is
/// asked for. Then `faults` says which, and nothing is written to `output`. It is 1 where there was no memory, `input` couldn't
/// be read or `output` couldn't be written, which `faults` says as well. `setting` is the text that limits the pool's workers,
/// if there is one; a script has its own. Only a script is read from `input`.
///
/// What `faults` says is one line, and nothing but a first part of it is ever written. All of it is written where the writes
/// to `faults` succeed; a failed one changes nothing else, and isn't reported. So the contract promises the first part, and
/// that it is the whole line is shown by tests.
pub fn command<H: Host, R: Read, W: Write, F: Write>(
    rt: H,
    words: &[Option<String>],
    setting: Option<&str>,
    input: &mut R,
    output: &mut W,
    faults: &mut F,
) -> u8
    ensures done { let request = request_of (text_of setting.entry) (texts_of words.now) in
        result ≢ 1 → Done request (R.remaining input.old) (R.remaining input.new)
        (W.contents output.old) (W.contents output.new)
        (F.contents faults.old) (F.contents faults.new) result }
    ensures failed { result ≡ 1 → HasFailed (W.contents output.old) (W.contents output.new)
        (F.contents faults.old) (F.contents faults.new) }
    ensures statuses { result ≤ 2 }
    ensures wrong_words { request_of (text_of setting.entry) (texts_of words.now) ≡ None → result ≡ 2 }
    ensures no_output { result ≡ 2 → output.new ≡ output.old }
    ensures no_faults { result ≡ 0 → faults.new ≡ faults.old }
    ensures input { let request = request_of (text_of setting.entry) (texts_of words.now) in
        LeavesInput request (input.new ≡ input.old) }
{
    // A failed write to `faults` changes nothing else.
    let (status, _) = run(rt, words, setting, input, output, faults);
    status
}

// The status, and whether what is told on `faults` could be written.
fn run<H: Host, R: Read, W: Write, F: Write>(
    rt: H,
    words: &[Option<String>],
    setting: Option<&str>,
    input: &mut R,
    output: &mut W,
    faults: &mut F,
) -> (u8, io::Result<()>)
    ensures done { let request = request_of (text_of setting.entry) (texts_of words.now) in
        result.0 ≢ 1 → (done : Done request (R.remaining input.old) (R.remaining input.new)
        (W.contents output.old) (W.contents output.new)
        (F.contents faults.old) (F.contents faults.new) result.0)
        × OnOk result.1 (Appends (F.contents faults.old) (F.contents faults.new) done.faults) }
    ensures failed { result.0 ≡ 1 →
        (failed : HasFailed (W.contents output.old) (W.contents output.new)
        (F.contents faults.old) (F.contents faults.new))
        × OnOk result.1 (Appends (F.contents faults.old) (F.contents faults.new)
        (line_of (command_fault_text failed.fault))) }
    ensures statuses { result.0 ≤ 2 }
    ensures wrong_words { request_of (text_of setting.entry) (texts_of words.now) ≡ None → result.0 ≡ 2 }
    ensures no_output { result.0 ≡ 2 → output.new ≡ output.old }
    ensures no_faults { result.0 ≡ 0 → faults.new ≡ faults.old }
    ensures input { let request = request_of (text_of setting.entry) (texts_of words.now) in
        LeavesInput request (input.new ≡ input.old) }
{
    let Some(request) = asked(words, setting) else {
        return (2, tell(faults, USAGE));
    };
    match answer(rt, request, setting, input, output) {
        Ok(()) => (0, Ok(())),
        Err(fault) => (fault.status(), tell(faults, fault)),
    }
}

// Writes the answer to a request.
fn answer<H: Host, R: Read, W: Write>(
    rt: H,
    request: Request,
    setting: Option<&str>,
    input: &mut R,
    output: &mut W,
) -> Result<(), CommandFault>
    ensures answers { Answers request (R.remaining input.old) (R.remaining input.new)
        (W.contents output.old) result (W.contents output.new) }
    ensures input { LeavesInput (Some request) (input.new ≡ input.old) }
    ensures untouched { IfErr result (λ fault. fault_status fault ≡ 2 → output.new ≡ output.old) }
{
    let text = match request {
        Request::Call(number) => {
            let answer = successor_of(rt, setting, number)?;
            format!(in rt.alloc(); "{answer}\n")?
        }
        Request::Limit(limit) => format!(in rt.alloc(); "{limit}\n")?,
        Request::Steps => steps(rt.alloc(), input)?,
    };
    write_out(output, text.as_bytes()).map_err(|_| CommandFault::Failed(BlkFault::Writing))
}

// Writes all the bytes, and has them reach where they go.
fn write_out<W: Write>(output: &mut W, bytes: &[u8]) -> io::Result<()>
    ensures { OnOk result (Appends (W.contents output.old) (W.contents output.new) bytes.now) }
{
    output.write_all(bytes)?;
    output.flush()
}
