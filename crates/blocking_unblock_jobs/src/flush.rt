//! How a job flushes its writer.
ghost use Rattle.std.specs.Io.KnownBytes.{Keeps};

use std::io;
use std::io::Write;
use std::marker::PhantomData;

/// The proof that a writer of this type was asked to flush, whatever it answered. Only a flush makes it.
#[derive(Drop)]
pub(crate) struct Flushed<T> {
    of: PhantomData<T>,
}

pub(crate) fn flush<T: Write>(writer: &mut T) -> (io::Result<()>, Flushed<T>)
    ensures { Keeps (T.contents writer.old) (T.contents writer.new) }
{
    (writer.flush(), Flushed { of: PhantomData })
}
