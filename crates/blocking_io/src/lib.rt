//! What is read, written and sought by polls, and the futures over it.
#![tactic(auto)]

mod copy;
mod io;
mod read_ext;
mod seek_ext;
mod write_ext;

pub use copy::{Copier, CopyFault};
pub use io::{AsyncRead, AsyncSeek, AsyncWrite, IoFault};
pub use read_ext::{AsyncReadExt, ReadExact, ReadSome, ReadToEnd};
pub use seek_ext::{AsyncSeekExt, SeekTo};
pub use write_ext::{AsyncWriteExt, Close, Flush, WriteAll, WriteSome};
