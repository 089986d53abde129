//! How a row fails.
use std::process::Abort;

/// Ends the test: this line of this row shows something else than stands beside it.
pub(crate) fn stop(rt: &impl Abort, row: &str, line: usize) -> ! {
    panic!(rt; "{row}: line {line}")
}
