//! Reads and writes that fail.
use crate::commands::doubles::{Broken, Full, Lossy};
use blk_commands::command::command;
use blocking::Host;
use std::alloc::{AllocError, Global};
use std::io::{Read, Write};
use std::process::Abort;
use std::test::Fail;

// The words of a call whose answer is 42, and those of a script.
const CALL: &[&str] = &["call", "41"];

const STEPS: &[&str] = &["steps"];

fn owned(alloc: Global, words: &[&str]) -> Result<Vec<Option<String>>, AllocError> {
    let mut owned = Vec::new(alloc);
    for word in words {
        owned.push(Some(String::from_str(alloc, word)?))?;
    }
    Ok(owned)
}

// The status of a command with these words.
fn status_of<H: Host, R: Read, W: Write, F: Write>(
    rt: H,
    words: &[&str],
    input: &mut R,
    output: &mut W,
    faults: &mut F,
) -> Result<u8, AllocError> {
    let words = owned(rt.alloc(), words)?;
    Ok(command(rt, words.as_slice(), None, input, output, faults))
}

// A command with these words can't write to this output, and tells that.
fn fails_to_write<H: Host + Abort, W: Write>(
    rt: H,
    words: &[&str],
    input: &str,
    output: &mut W,
) -> Result<(), Fail> {
    let mut faults = Vec::new(rt.alloc());
    let mut input = input.as_bytes();
    let status = status_of(rt, words, &mut input, output, &mut faults)?;
    assert_eq!(rt; status, 1, "at {words:?}");
    assert_eq!(rt;
        faults.as_slice(),
        b"blk: writing failed\n".as_slice(),
        "at {words:?}"
    );
    Ok(())
}

#[test]
fn failed_writes_are_told(rt: HostRuntime) -> Result<(), Fail> {
    fails_to_write(rt, CALL, "", &mut Full)?;
    fails_to_write(rt, CALL, "", &mut Lossy)?;
    fails_to_write(rt, STEPS, "limit 3", &mut Full)?;
    fails_to_write(rt, STEPS, "limit 3", &mut Lossy)
}

#[test]
fn untold_faults_change_nothing_else(rt: HostRuntime) -> Result<(), Fail> {
    let mut input = b"".as_slice();
    let mut output = Vec::new(rt.alloc());
    let wrong = ["call"];
    assert_eq!(rt;
        status_of(rt, &wrong, &mut input, &mut output, &mut Full)?,
        2
    );
    assert_eq!(rt; status_of(rt, CALL, &mut input, &mut Full, &mut Full)?, 1);
    assert_eq!(rt; status_of(rt, CALL, &mut input, &mut output, &mut Full)?, 0);
    assert_eq!(rt; output.as_slice(), b"42\n".as_slice());
    Ok(())
}

#[test]
fn failed_read_is_told(rt: HostRuntime) -> Result<(), Fail> {
    let mut input = Broken { is_read: false };
    let mut output = Vec::new(rt.alloc());
    let mut faults = Vec::new(rt.alloc());
    let status = status_of(rt, STEPS, &mut input, &mut output, &mut faults)?;
    assert_eq!(rt; status, 1);
    assert!(rt; output.is_empty());
    assert_eq!(rt; faults.as_slice(), b"blk: reading failed\n".as_slice());
    assert!(rt; input.is_read);
    Ok(())
}
