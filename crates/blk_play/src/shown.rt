//! What a line shows.
use crate::stage::{Copying, Gave, Reply, Standing, Why};
use blocking_core::pool::{Refusal, Woke};
use std::fmt;

/// How many bytes of a read are shown; of more, how many they are.
pub(crate) const SHOWN: usize = 32;

/// What a line shows.
#[derive(Clone, Copy, PartialEq, Eq)]
pub(crate) enum Shown {
    Word(&'static str),
    /// A word, and a number behind it.
    Count(&'static str, u64),
    /// A number, and a word behind it.
    Number(u64, &'static str),
    Waits,
    Reply(Reply),
    /// So many bytes came, which begin so.
    Bytes(u64, [u8; SHOWN]),
    Gave(Gave),
    Woke(Woke),
    Standing(Standing),
    Copying(Copying),
    Refused(Refusal),
    /// What stands in the player's text.
    Text,
}

/// Where there is no such party, or it can't do that.
pub(crate) const NOTHING: Shown = Shown::Word("nothing");

// As many bytes as came, with a space before; nothing where they are more than are shown.
#[derive(Clone, Copy)]
struct Few {
    count: u64,
    bytes: [u8; SHOWN],
}

impl fmt::Display for Few {
    fn fmt<W: fmt::Write>(&self, f: &mut fmt::Formatter<W>) -> fmt::Result {
        let mut left = self.count;
        if left == 0 || left > SHOWN as u64 {
            return Ok(());
        }
        f.write_str(" ")?;
        for byte in self.bytes {
            if left == 0 {
                break;
            }
            write!(f, "{byte:02x}")?;
            left -= 1;
        }
        Ok(())
    }
}

fn refusal_word(why: Refusal) -> &'static str {
    match why {
        Refusal::Memory => "memory",
        Refusal::NoWorker => "worker",
        Refusal::Numbers => "numbers",
    }
}

impl fmt::Display for Why {
    fn fmt<W: fmt::Write>(&self, f: &mut fmt::Formatter<W>) -> fmt::Result {
        match *self {
            Why::System(number) => write!(f, "fault io {number}"),
            Why::Input => f.write_str("fault io input"),
            Why::Unsupported => f.write_str("fault io unsupported"),
            Why::Memory => f.write_str("fault io memory"),
            Why::Early => f.write_str("fault io early end"),
            Why::WriteZero => f.write_str("fault write-zero"),
            Why::Refused(why) => write!(f, "fault refused {}", refusal_word(why)),
        }
    }
}

impl fmt::Display for Reply {
    fn fmt<W: fmt::Write>(&self, f: &mut fmt::Formatter<W>) -> fmt::Result {
        match *self {
            Reply::Read(count) | Reply::Wrote(count) => write!(f, "ok {count}"),
            Reply::Done => f.write_str("ok"),
            Reply::Item(item) => write!(f, "item {item}"),
            Reply::NoMore => f.write_str("end"),
            Reply::Number(number) => write!(f, "ok {number}"),
            Reply::Handle(place) => write!(f, "handle at {place}"),
            Reply::Failed(why) => write!(f, "{why}"),
            Reply::Refused(why) => write!(f, "refused {}", refusal_word(why)),
            Reply::Nothing => f.write_str("nothing"),
        }
    }
}

impl fmt::Display for Copying {
    fn fmt<W: fmt::Write>(&self, f: &mut fmt::Formatter<W>) -> fmt::Result {
        match *self {
            Copying::Waits => f.write_str("waits"),
            Copying::Copied(count) => write!(f, "copied {count}"),
            Copying::ReadFailed(why) => write!(f, "copy failed reading {why}"),
            Copying::WriteFailed(why) => write!(f, "copy failed writing {why}"),
            Copying::Nothing => f.write_str("nothing"),
        }
    }
}

impl fmt::Display for Standing {
    fn fmt<W: fmt::Write>(&self, f: &mut fmt::Formatter<W>) -> fmt::Result {
        let Standing {
            workers,
            idle,
            arriving: _,
            running,
            queued,
        } = *self;
        write!(
            f,
            "workers {workers} idle {idle} running {running} queued {queued}"
        )
    }
}

fn woke_word(woke: Woke) -> &'static str {
    match woke {
        Woke::Entered => "entered",
        Woke::Marked => "marked",
        Woke::Nothing => "nothing",
    }
}

impl fmt::Display for Shown {
    fn fmt<W: fmt::Write>(&self, f: &mut fmt::Formatter<W>) -> fmt::Result {
        match *self {
            Shown::Word(word) => f.write_str(word),
            Shown::Count(word, number) => write!(f, "{word} {number}"),
            Shown::Number(number, word) => write!(f, "{number} {word}"),
            Shown::Waits | Shown::Gave(Gave::Waits) => f.write_str("waits"),
            Shown::Reply(reply) => write!(f, "replied {reply}"),
            Shown::Bytes(count, bytes) => {
                let few = Few { count, bytes };
                write!(f, "replied ok {count}{few}")
            }
            Shown::Gave(Gave::Number(number)) => write!(f, "got {number}"),
            Shown::Gave(Gave::Nothing) => f.write_str("got none"),
            Shown::Woke(woke) => f.write_str(woke_word(woke)),
            Shown::Standing(standing) => write!(f, "{standing}"),
            Shown::Copying(copying) => write!(f, "{copying}"),
            Shown::Refused(why) => write!(f, "refused {}", refusal_word(why)),
            Shown::Text => Ok(()),
        }
    }
}

/// What lines for so many parties all show.
#[derive(Drop)]
pub(crate) struct Many<T: Drop> {
    pub count: u64,
    pub shown: T,
}

impl<T: fmt::Display + Drop> fmt::Display for Many<T> {
    fn fmt<W: fmt::Write>(&self, f: &mut fmt::Formatter<W>) -> fmt::Result {
        let Many { count, shown } = self;
        if *count > 1 {
            write!(f, "{count} ")?;
        }
        write!(f, "{shown}")
    }
}

/// What a read of so many bytes at the front of a buffer shows.
pub(crate) fn bytes_read(room: &[u8], count: usize) -> Shown {
    let mut first = [0u8; SHOWN];
    for (slot, byte) in first.iter_mut().zip(room.iter().take(count)) {
        *slot = *byte;
    }
    Shown::Bytes(count as u64, first)
}
