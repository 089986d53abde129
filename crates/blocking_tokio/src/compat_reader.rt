//! A reader of this library as one of the kit's.
ghost use Rattle.std.specs.Prelude.{◌≡◌};

use crate::errors::as_error;
use blocking_io::AsyncRead;
use futures::task::{Context, Poll};
use std::io;

/// What is read by polls, as what the kit's `tokio` reads.
///
/// A fault comes as an error of the system, as `io::Error::from` makes one of it. What the kit reads ahead, as a `BufReader` does, is lost
/// where that is dropped or taken apart.
///
/// The lines of what is read, by the kit's `BufReader` and `lines`:
///
/// ```rust
/// let reader = BufReader::new(rt.alloc(), CompatReader::new(reader))?;
/// let lines = block_on(rt, lines(rt.alloc(), reader).try_collect(rt.alloc()))??;
/// ```
#[derive(Drop)]
pub struct CompatReader<A: AsyncRead + Drop> {
    inner: A,
    ghost open: { A.closed inner → ⊥ },
}

impl<A: AsyncRead + Drop> CompatReader<A> {
    /// This reader, as one of the kit's.
    pub fn new(inner: A) -> CompatReader<A>
        requires { A.closed inner → ⊥ }
        ensures { result.inner ≡ inner }
    {
        CompatReader { inner }
    }

    /// The reader itself, as the last poll left it. It is open.
    pub fn into_inner(self) -> A
        ensures same { result ≡ self.inner }
        ensures open { A.closed result → ⊥ }
    {
        let CompatReader { inner } = self;
        inner
    }
}

impl<A: AsyncRead + Drop> tokio::io::AsyncRead for CompatReader<A> {
    ghost use Rattle.blocking_tokio.specs.Reading.{Gives, gives_in_order, gives_nothing, MetEnd, ReadFails};

    ghost reads = { λ old bytes new. Gives A.reads old.inner bytes new.inner };

    ghost is_at_end = { λ reader. MetEnd A.reads reader.inner };

    ghost fails = { λ reader error. ReadFails A.reads reader.inner error };

    fn poll_read(&mut self, cx: &mut Context<'_>, buf: &mut [u8]) -> Poll<io::Result<usize>> {
        as_error(self.inner.poll_read(cx, buf))
    }

    ghost reads_nothing = { λ reader. gives_nothing A.reads reader.inner };

    ghost reads_in_order = { λ old xs mid ys new. gives_in_order A.reads old.inner xs mid.inner ys new.inner };
}
