//! Copies of a reader to a writer, each lent to a pool.
use crate::commands::doubles::{Broken, Cycle, Full, Lossy, Shared};
use blk_commands::copy::copy;
use blk_commands::fault::BlkFault;
use blocking::Host;
use std::alloc::AllocGlobal;
use std::io::{Read, Write};
use std::process::Abort;
use std::sync::{Arc, Mutex};
use std::test::Fail;

// How many bytes are copied.
const LENGTHS: &[usize] = &[0, 1, 3, 65_536, 65_537, 1_000_000];

#[test]
fn bytes_are_copied(rt: HostRuntime) -> Result<(), Fail> {
    for length in LENGTHS {
        let bytes = Arc::new(rt.alloc(), Mutex::new(Vec::new(rt.alloc())))?;
        let output = Shared {
            rt,
            bytes: Arc::try_clone(&bytes)?,
        };
        let input = Cycle {
            given: 0,
            left: *length,
        };
        assert_eq!(rt; copy(rt, Some("2"), input, output), Ok(()), "of {length}");
        let written = bytes.lock(&rt);
        assert_eq!(rt; written.len(), *length);
        let is_right = written
            .iter()
            .enumerate()
            .all(|(place, byte)| *byte == (place % 256) as u8);
        assert!(rt; is_right, "of {length}");
    }
    Ok(())
}

// A copy fails so.
fn fails<H: Host + Abort, R: Read + Drop + Send + 'static, W: Write + Drop + Send + 'static>(
    rt: H,
    input: R,
    output: W,
    fault: BlkFault,
) {
    assert_eq!(rt; copy(rt, None, input, output), Err(fault));
}

fn three() -> Cycle {
    Cycle { given: 0, left: 3 }
}

#[test]
fn failed_writes_are_told(rt: HostRuntime) {
    fails(rt, three(), Full, BlkFault::Writing);
    fails(rt, three(), Lossy, BlkFault::Writing);
}

// A beginning of what came before the fault is written, since the fault is told at once.
#[test]
fn failed_read_is_told(rt: HostRuntime) -> Result<(), Fail> {
    let bytes = Arc::new(rt.alloc(), Mutex::new(Vec::new(rt.alloc())))?;
    let output = Shared {
        rt,
        bytes: Arc::try_clone(&bytes)?,
    };
    fails(rt, Broken { is_read: false }, output, BlkFault::Reading);
    let written = bytes.lock(&rt);
    assert!(rt; b"limit 3\n".starts_with(written.as_slice()));
    Ok(())
}

// The fault of the reader is told, and not that of the writer after it.
#[test]
fn first_fault_is_told(rt: HostRuntime) {
    fails(rt, Broken { is_read: false }, Lossy, BlkFault::Reading);
}
