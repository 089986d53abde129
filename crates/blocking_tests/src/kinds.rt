//! Jobs of each kind on one executor, whose job type is `Jobs`.
use blocking::{
    AsyncReadExt, AsyncSeekExt, AsyncWriteExt, Call, CallJob, CallOn, Carries, Executor, ItemJob,
    Items, Job, Jobs, OpJob, ReadJob, Reader, Runtime, SeekJob, Unblock, WriteJob, Writer, unblock,
};
use futures::StreamExt;
use futures::executor::block_on;
use std::io;
use std::io::{Read, Seek, SeekFrom, Write};
use std::random::RandomSource;
use std::test::Fail;

// A handle of any kind: it reads and gives the numbers up to 3, counts its writes, and stands at 9 wherever it is moved.
#[derive(Drop)]
struct Few(u8);

impl Read for Few {
    fn read(&mut self, buf: &mut [u8]) -> io::Result<usize> {
        let Some(first) = buf.first_mut() else {
            return Ok(0);
        };
        if self.0 >= 3 {
            return Ok(0);
        }
        *first = self.0;
        self.0 += 1;
        Ok(1)
    }
}

impl Write for Few {
    fn write(&mut self, bytes: &[u8]) -> io::Result<usize> {
        self.0 = self.0.saturating_add(1);
        Ok(bytes.len())
    }

    fn flush(&mut self) -> io::Result<()> {
        Ok(())
    }
}

impl Iterator for Few {
    type Item = u8;

    fn next(&mut self) -> Option<u8> {
        if self.0 >= 3 {
            return None;
        }
        self.0 += 1;
        Some(self.0)
    }
}

impl Seek for Few {
    fn seek(&mut self, _to: SeekFrom) -> io::Result<u64> {
        Ok(9)
    }
}

// A call that answers its number, and an operation that adds it.
#[derive(Drop)]
struct Give(u8);

impl Call for Give {
    type Out = u8;

    ghost may_give = { λ _. Unit {0} };

    fn call(self) -> u8 {
        self.0
    }
}

impl CallOn<Few> for Give {
    type Out = u8;

    ghost may_give = { λ _. Unit {0} };

    fn call_on(self, io: &mut Few) -> u8 {
        io.0 = io.0.saturating_add(self.0);
        io.0
    }
}

type All<H> = Jobs<H, Give, Few, Few, Few, Few, Give, Few>;

// Whether a call is answered by a pool of all kinds.
fn call<J: Job + Carries<CallJob<Give, H>>, H: Runtime + RandomSource>(
    rt: H,
    pool: &Executor<J, H>,
) -> io::Result<bool> {
    let task = match unblock(pool, Give(5)) {
        Ok(task) => task,
        Err(_) => return Ok(false),
    };
    Ok(block_on(&rt, task)? == 5)
}

// Whether a handle lent to a pool of all kinds is read to its end.
fn read<J: Job + Carries<ReadJob<Few, H>>, H: Runtime + RandomSource>(
    rt: H,
    pool: &Executor<J, H>,
) -> io::Result<bool> {
    let mut bytes = Vec::new(rt.alloc());
    let mut owner: Reader<Few, H, J> = Unblock::new(pool.try_clone()?, Few(0));
    let count = block_on(&rt, owner.read_to_end(&mut bytes))?;
    Ok(matches!(count, Ok(3)) && bytes.as_slice() == [0, 1, 2].as_slice())
}

// The same of one that is written to and flushed.
fn write<J: Job + Carries<WriteJob<Few, H>>, H: Runtime + RandomSource>(
    rt: H,
    pool: &Executor<J, H>,
) -> io::Result<bool> {
    let mut owner: Writer<Few, H, J> = Unblock::new(pool.try_clone()?, Few(0));
    let count = block_on(&rt, owner.write(b"abcd"))?;
    let flushed = block_on(&rt, owner.flush())?;
    Ok(matches!(count, Ok(4)) && flushed.is_ok())
}

// The same of one that gives its next item.
fn item<J: Job + Carries<ItemJob<Few, u8, H>>, H: Runtime + RandomSource>(
    rt: H,
    pool: &Executor<J, H>,
) -> io::Result<bool> {
    let mut owner: Items<Few, u8, H, J> = Unblock::new(pool.try_clone()?, Few(2));
    let first = block_on(&rt, owner.next())?;
    Ok(matches!(first, Some(Ok(3))))
}

// The same of one that is moved.
fn seek<J: Job + Carries<SeekJob<Few, H>>, H: Runtime + RandomSource>(
    rt: H,
    pool: &Executor<J, H>,
) -> io::Result<bool> {
    let mut owner: Reader<Few, H, J> = Unblock::new(pool.try_clone()?, Few(0));
    let place = block_on(&rt, owner.seek(SeekFrom::Start(1)))?;
    Ok(matches!(place, Ok(9)))
}

// The same of one that is operated on.
fn op<J: Job + Carries<OpJob<Give, Few, H>>, H: Runtime + RandomSource>(
    rt: H,
    pool: &Executor<J, H>,
) -> io::Result<bool> {
    let mut owner: Reader<Few, H, J> = Unblock::new(pool.try_clone()?, Few(2));
    let sum = block_on(&rt, owner.with_mut(Give(5)))?;
    Ok(matches!(sum, Ok(7)))
}

#[test]
fn jobs_of_each_kind_are_carried(rt: HostRuntime) -> Result<(), Fail> {
    let pool: Executor<All<HostRuntime>, HostRuntime> = Executor::new(rt, Some("1"))?;
    assert!(rt; call(rt, &pool)?);
    assert!(rt; read(rt, &pool)?);
    assert!(rt; write(rt, &pool)?);
    assert!(rt; item(rt, &pool)?);
    assert!(rt; seek(rt, &pool)?);
    assert!(rt; op(rt, &pool)?);
    Ok(())
}
