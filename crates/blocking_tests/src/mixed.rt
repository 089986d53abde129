//! One executor for reads, writes and calls: a file is read, each piece is summed up by a call, and the sums are written to another file.
use blocking::{
    AsyncRead, AsyncReadExt, AsyncWrite, AsyncWriteExt, Call, CallFileJobs, Executor, Host,
    Runtime, unblock,
};
use blocking_anytime::{Open, OpenReader, OpenWriter};
use futures::executor::block_on;
use std::fs::File;
use std::io;
use std::random::RandomSource;

type Work<H> = CallFileJobs<H, Sum>;

// Sums bytes up.
#[derive(Drop)]
pub(crate) struct Sum(Vec<u8>);

impl Call for Sum {
    type Out = u64;

    ghost may_give = { λ _. Unit {0} };

    fn call(self) -> u64 {
        self.0
            .iter()
            .fold(0, |sum, byte| sum.wrapping_add(u64::from(*byte)))
    }
}

/// Writes a line for each piece of the one file to the other, with its length and its sum, and gives the sum of all.
pub(crate) fn sum_up<H: Host>(rt: H, from: File, to: File) -> io::Result<u64> {
    let executor: Executor<Work<H>, H> = Executor::new(rt, Some("3"))?;
    let mut from: OpenReader<File, H, Work<H>> = Open::new(executor.try_clone()?, from);
    let mut to: OpenWriter<File, H, Work<H>> = Open::new(executor.try_clone()?, to);
    sum_pieces(rt, &executor, &mut from, &mut to)
}

fn sum_pieces<A: AsyncRead, B: AsyncWrite, H: Runtime + RandomSource>(
    rt: H,
    executor: &Executor<Work<H>, H>,
    from: &mut A,
    to: &mut B,
) -> io::Result<u64>
    requires from { (any : A) → A.closed any → ⊥ }
    requires to { (any : B) → B.closed any → ⊥ }
{
    let mut piece = vec![in rt.alloc(); 0u8; 10_000]?;
    let mut total = 0u64;
    for _ in rt.forever() {
        let count = block_on(&rt, from.read(&mut piece))??;
        if count == 0 {
            break;
        }
        let bytes = Vec::from_slice(rt.alloc(), &piece[..count])?;
        let sum = block_on(&rt, unblock(executor, Sum(bytes))?)?;
        total = total.wrapping_add(sum);
        let line = format!(in rt.alloc(); "{count} {sum}\n")?;
        block_on(&rt, to.write_all(line.as_bytes()))??;
    }
    block_on(&rt, to.flush())??;
    Ok(total)
}
