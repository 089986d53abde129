//! All the memory of a session with a pipe: the owner's side, and what its job needs in addition to the handle.
ghost use Rattle.std.specs.Prelude.{◌≡◌, ◌<◌, false, vec_len, IfOk};
ghost use Rattle.blocking_core.specs.declared.unblock.SessionKind.TheVariants.{Reading, Writing, Streaming};
ghost use Rattle.blocking_unblock.specs.Owners.{kind_of, crossed, is_back};

use crate::session::Side;
use crate::spare::Spare;
use blocking_ends::{
    AnyPlace, ItemSendEnd, PeekEnd, SendEnd, link_drain, link_in_over, link_items,
};
use blocking_unblock_jobs::{MayFail, ReadBack, SessionShare, SessionStore, WriteBack, new_share};
use std::alloc::{AllocError, AllocGlobal};
use std::sync::{Arc, Wait};

/// What a reading job needs in addition to its reader.
#[derive(Drop)]
pub(crate) struct ReadParts<T: Drop, I: Drop, H: Wait + Copy> {
    pub side: Side<T, I, H>,
    pub end: SendEnd<u8, AnyPlace, SessionStore, H>,
    pub share: Arc<SessionShare<T, ReadBack<H>>>,
    pub piece: Vec<u8>,
}

/// What a writing job needs in addition to its writer.
#[derive(Drop)]
pub(crate) struct WriteParts<T: Drop, I: Drop, H: Wait + Copy> {
    pub side: Side<T, I, H>,
    pub end: PeekEnd<u8, AnyPlace, SessionStore, H>,
    pub share: Arc<SessionShare<T, WriteBack<H>>>,
}

/// What the job of an iterator needs in addition to that.
#[derive(Drop)]
pub(crate) struct ItemParts<T: Drop, I: Drop, H: Wait + Copy> {
    pub side: Side<T, I, H>,
    pub end: ItemSendEnd<I, AnyPlace, H>,
    pub share: Arc<SessionShare<T, MayFail>>,
}

/// A session that reads through a pipe of so many bytes, over what is spare where that will do.
pub(crate) fn read_parts<T: Drop, I: Drop, H: Wait + AllocGlobal + Copy>(
    rt: H,
    capacity: usize,
    spare: Spare,
) -> Result<ReadParts<T, I, H>, AllocError>
    requires { 0 < capacity }
    ensures { IfOk result (λ parts. (0 < vec_len parts.piece)
        × (kind_of parts.side ≡ Reading) × (crossed parts.side ≡ 0) × (is_back parts.side ≡ false)) }
{
    let memory = spare.for_reading(rt.alloc(), capacity)?;
    let long = memory.piece();
    let (way_back, share) = new_share(rt)?;
    let (job_end, end, mut piece) = link_drain(rt, memory)?;
    // (one that was used before is as long already)
    piece.resize(long, 0)?;
    Ok(ReadParts {
        side: Side::Reading(end, way_back),
        end: job_end,
        share,
        piece,
    })
}

/// A session that writes through a pipe of so many bytes, over what is spare where that will do.
pub(crate) fn write_parts<T: Drop, I: Drop, H: Wait + AllocGlobal + Copy>(
    rt: H,
    capacity: usize,
    spare: Spare,
) -> Result<WriteParts<T, I, H>, AllocError>
    requires { 0 < capacity }
    ensures { IfOk result (λ parts. (kind_of parts.side ≡ Writing) × (crossed parts.side ≡ 0) × (is_back parts.side ≡ false)) }
{
    let memory = spare.for_writing(rt.alloc(), capacity)?;
    let (way_back, share) = new_share(rt)?;
    let (end, job_end) = link_in_over(rt, memory)?;
    Ok(WriteParts {
        side: Side::Writing(end, way_back),
        end: job_end,
        share,
    })
}

/// A session of items, through a pipe of so many.
pub(crate) fn item_parts<T: Drop, I: Drop, H: Wait + AllocGlobal + Copy>(
    rt: H,
    capacity: usize,
) -> Result<ItemParts<T, I, H>, AllocError>
    requires { 0 < capacity }
    ensures { IfOk result (λ parts. (kind_of parts.side ≡ Streaming) × (crossed parts.side ≡ 0) × (is_back parts.side ≡ false)) }
{
    let (way_back, share) = new_share(rt)?;
    let (job_end, end) = link_items(rt, capacity)?;
    Ok(ItemParts {
        side: Side::Streaming(end, way_back),
        end: job_end,
        share,
    })
}
