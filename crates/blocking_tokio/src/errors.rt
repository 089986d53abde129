//! What polls came to, with faults as errors of the system and the other way round.
ghost use Rattle.std.specs.Prelude.{◌≡◌};
ghost use Rattle.blocking_tokio.specs.Errors.{IsTold, as_fault};

use blocking_core::io::Fault;
use blocking_io::IoFault;
use futures::task::Poll;
use std::io;

// What a poll of ours came to, with its fault as an error of the system.
pub(crate) fn as_error<T>(polled: Poll<Result<T, IoFault>>) -> Poll<io::Result<T>>
    ensures { IsTold polled result }
{
    match polled {
        Poll::Pending => Poll::Pending,
        Poll::Ready(Ok(value)) => Poll::Ready(Ok(value)),
        Poll::Ready(Err(fault)) => Poll::Ready(Err(io::Error::from(fault))),
    }
}

// What a poll of the kit's came to, with its error as a fault of the handle.
pub(crate) fn as_fault<T>(polled: Poll<io::Result<T>>) -> Poll<Result<T, IoFault>>
    ensures { result ≡ as_fault polled }
{
    match polled {
        Poll::Pending => Poll::Pending,
        Poll::Ready(Ok(value)) => Poll::Ready(Ok(value)),
        Poll::Ready(Err(error)) => Poll::Ready(Err(Fault::Io(error))),
    }
}
