//! The pipe between an owner and the job of its session.
ghost use Rattle.std.specs.Prelude.{◌≡◌, length, is_some, true};
ghost use Rattle.blocking_core.specs.Pipes.{room};
ghost use Rattle.blocking_world_holders.specs.Passages.{is_bytes, is_items, is_piped, goods_in, pipe_in, closed_by_owner, closed_by_job};

use blocking_core::pipe::{BytePipe, ItemPipe};
use blocking_core::pool::WakeNote;

/// The pipe of a session, by what passes through it.
#[derive(Drop)]
pub enum Passage {
    /// Bytes pass.
    Bytes(BytePipe<()>),
    /// Items pass, each told by its number.
    Items(ItemPipe<u64, ()>),
    /// Nothing passes: there is no pipe, and takes no memory. One would hold so many.
    Without(usize),
}

impl Passage {
    /// Whether bytes pass.
    pub(crate) fn is_of_bytes(&self) -> bool
        ensures { result ≡ is_bytes (goods_in self.now) }
    {
        matches!(self, Passage::Bytes(_))
    }

    /// Whether items pass.
    pub(crate) fn is_of_items(&self) -> bool
        ensures { result ≡ is_items (goods_in self.now) }
    {
        matches!(self, Passage::Items(_))
    }

    /// Whether there is a pipe.
    pub(crate) fn is_piped(&self) -> bool
        ensures { result ≡ is_piped (goods_in self.now) }
    {
        !matches!(self, Passage::Without(_))
    }

    /// How many bytes or items are inside.
    pub(crate) fn len(&self) -> usize
        ensures { let pipe = pipe_in self.now in result ≡ length pipe.items }
    {
        match self {
            Passage::Bytes(pipe) => pipe.len(),
            Passage::Items(pipe) => pipe.len(),
            Passage::Without(_) => 0,
        }
    }

    /// How many more the pipe holds.
    pub(crate) fn room(&self) -> usize
        ensures { result ≡ room (pipe_in self.now) }
    {
        match self {
            Passage::Bytes(pipe) => pipe.room(),
            Passage::Items(pipe) => pipe.room(),
            Passage::Without(capacity) => *capacity,
        }
    }

    /// Closes the owner's end of the pipe. Answers the note of a job that waited.
    pub(crate) fn close_owner(&mut self) -> Option<WakeNote>
        requires { is_piped (goods_in self.old) ≡ true }
        ensures goods { goods_in self.new ≡ goods_in self.old }
        ensures pipe { pipe_in self.new ≡ closed_by_owner (pipe_in self.old) }
        ensures note { let pipe = pipe_in self.old in result ≡ pipe.job_seat }
    {
        match self {
            Passage::Bytes(pipe) => pipe.close_owner(),
            Passage::Items(pipe) => pipe.close_owner(),
            Passage::Without(_) => unreachable!(),
        }
    }

    /// Closes the job's end of the pipe. Whether it took the waker of an owner who waited.
    pub(crate) fn close_job(&mut self) -> bool
        requires { is_piped (goods_in self.old) ≡ true }
        ensures goods { goods_in self.new ≡ goods_in self.old }
        ensures pipe { pipe_in self.new ≡ closed_by_job (pipe_in self.old) }
        ensures wake { let pipe = pipe_in self.old in result ≡ is_some pipe.owner_seat }
    {
        match self {
            Passage::Bytes(pipe) => pipe.close_job().is_some(),
            Passage::Items(pipe) => pipe.close_job().is_some(),
            Passage::Without(_) => unreachable!(),
        }
    }
}
