//! What stands for the close of what is never closed.
ghost use Rattle.blocking_anytime.specs.Closes.{IsUnclosed};

use blocking_core::io::Fault;
use blocking_io::IoFault;
use futures::task::Poll;
use std::io;
use std::io::ErrorKind;

// What a close answers by what its flush came to: a fault of the kind `Unsupported`, where that was ready and well.
pub(crate) fn unclosed(flushed: Poll<Result<(), IoFault>>) -> Poll<Result<(), IoFault>>
    ensures { IsUnclosed flushed result }
{
    match flushed {
        Poll::Pending => Poll::Pending,
        Poll::Ready(Err(why)) => Poll::Ready(Err(why)),
        Poll::Ready(Ok(())) => {
            let error = io::Error::from(ErrorKind::Unsupported);
            Poll::Ready(Err(Fault::Io(error)))
        }
    }
}
