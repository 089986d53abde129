//! The lines of a file that is lent, by the kit's `BufReader`.
use crate::files::{Lent, Place, System};
use blocking::{AsyncRead, Host, Unblock};
use blocking_tokio::CompatReader;
use futures::TryStreamExt;
use futures::executor::block_on;
use std::io;
use std::test::Fail;
use tokio::io::{BufReader, lines};

// All lines of what is read.
fn lines_of<A: AsyncRead + Drop, H: Host>(rt: &H, reader: A) -> io::Result<Vec<String>>
    requires { A.closed reader → ⊥ }
{
    let reader = BufReader::with_capacity(rt.alloc(), 4, CompatReader::new(reader))?;
    block_on(rt, lines(rt.alloc(), reader).try_collect(rt.alloc()))?
}

fn seen<H: System>(rt: H) -> io::Result<bool> {
    let place = Place::new(rt, "blocking_tokio_lines")?;
    let file = place.open("three", b"one\n\nand three\r\nno end")?;
    let reader: Lent<H> = Unblock::new(place.executor()?, file);
    let seen = lines_of(&rt, reader)?;
    let mut text = String::new(rt.alloc());
    for line in &seen {
        text.push_str(line)?;
        text.push('|')?;
    }
    Ok(text.as_str() == "one||and three|no end|")
}

#[test]
fn lines_of_a_lent_file(rt: HostRuntime) -> Result<(), Fail> {
    assert!(rt; seen(rt)?);
    Ok(())
}
