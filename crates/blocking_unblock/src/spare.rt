//! The memory of a session that is over, for the next one of its kind.
ghost use Rattle.std.specs.Prelude.{◌≡◌, ◌<◌, IfOk};

use blocking_core::job::PIECE;
use blocking_core::pipe::{LendingMemory, Store};
use blocking_ends::{
    AnyPlace, DrainEnd, FillEnd, PeekEnd, PieceMemory, SendEnd, unlink_drain, unlink_in,
};
use blocking_unblock_jobs::SessionStore;
use std::alloc::{AllocError, Global};
use std::sync::Wait;

/// The memory of a session with a pipe of bytes.
pub(crate) type Memory = PieceMemory<u8, SessionStore>;

/// The memory of an owner's last session, where that read or wrote.
#[derive(Drop)]
pub(crate) enum Spare {
    Nothing,
    Read(Memory),
    Write(Memory),
}

// New memory for a session that reads. Two of its pieces at least fill the pipe, so that one may be read while another is drained. They are as
// short as so many may be: fewer places than there are pieces stay over.
fn new_for_reading(alloc: Global, capacity: usize) -> Result<Memory, AllocError>
    requires { 0 < capacity }
    ensures { IfOk result (λ memory.
        let stored = ⟦<SessionStore as Store<u8>>⟧.held memory.store in stored.capacity ≡ capacity) }
{
    let pieces = capacity.div_ceil(PIECE).max(2);
    let piece = capacity.div_ceil(pieces);
    PieceMemory::over(alloc, LendingMemory::with_piece(alloc, capacity, piece)?)
}

// New memory for a session that writes.
fn new_for_writing(alloc: Global, capacity: usize) -> Result<Memory, AllocError>
    requires { 0 < capacity }
    ensures { IfOk result (λ memory.
        let stored = ⟦<SessionStore as Store<u8>>⟧.held memory.store in stored.capacity ≡ capacity) }
{
    PieceMemory::over(alloc, SessionStore::new(alloc, capacity)?)
}

impl Spare {
    /// What is left of a session that read, of which all came back.
    pub(crate) fn of_read<H: Wait + Copy>(
        job_end: SendEnd<u8, AnyPlace, SessionStore, H>,
        piece: Vec<u8>,
        owner_end: DrainEnd<u8, AnyPlace, SessionStore, H>,
    ) -> Spare {
        match unlink_drain(job_end, owner_end, piece) {
            Some(memory) => Spare::Read(memory),
            None => Spare::Nothing,
        }
    }

    /// What is left of a session that wrote, of which all came back.
    pub(crate) fn of_write<H: Wait + Copy>(
        job_end: PeekEnd<u8, AnyPlace, SessionStore, H>,
        owner_end: FillEnd<u8, AnyPlace, SessionStore, H>,
    ) -> Spare {
        match unlink_in(owner_end, job_end) {
            Some(memory) => Spare::Write(memory),
            None => Spare::Nothing,
        }
    }

    /// Memory for a session that reads through a pipe of so many bytes: this, where it is of such a one, or else new memory once this is gone.
    pub(crate) fn for_reading(self, alloc: Global, capacity: usize) -> Result<Memory, AllocError>
        requires { 0 < capacity }
        ensures { IfOk result (λ memory.
            let stored = ⟦<SessionStore as Store<u8>>⟧.held memory.store in stored.capacity ≡ capacity) }
    {
        match self {
            Spare::Read(memory) => {
                if memory.capacity() == capacity {
                    return Ok(memory);
                }
            }
            other => drop(other),
        }
        new_for_reading(alloc, capacity)
    }

    /// Memory for a session that writes through a pipe of so many bytes, as for one that reads.
    pub(crate) fn for_writing(self, alloc: Global, capacity: usize) -> Result<Memory, AllocError>
        requires { 0 < capacity }
        ensures { IfOk result (λ memory.
            let stored = ⟦<SessionStore as Store<u8>>⟧.held memory.store in stored.capacity ≡ capacity) }
    {
        match self {
            Spare::Write(memory) => {
                if memory.capacity() == capacity {
                    return Ok(memory);
                }
            }
            other => drop(other),
        }
        new_for_writing(alloc, capacity)
    }
}
