//! The two ends of a new pipe, and the memory that comes back from them.
ghost use Rattle.std.specs.Prelude.{◌≡◌, ◌<◌, ◌≤◌, [], vec_capacity, IfOk, IfSome};

use crate::drain_end::DrainEnd;
use crate::fill_end::FillEnd;
use crate::locked::{JobToOwner, OwnerToJob};
use crate::peek_end::PeekEnd;
use crate::recv_end::RecvEnd;
use crate::rule::PlaceRule;
use crate::send_end::SendEnd;
use blocking_core::job::PIECE;
use blocking_core::pipe::Store;
use std::alloc::{AllocError, AllocGlobal, Global};
use std::sync::{Arc, Mutex, Wait};

/// A new pipe for at most `capacity` items that a job sends to its owner, over a store of the type `S`: the job's end and the owner's. All its
/// memory is taken here, and where there isn't so much the answer is an [`AllocError`].
///
/// Here `Counter` is a job with the one end in it, and `Next` a future over the other (see [`SendEnd`] and [`RecvEnd`]):
///
/// ```rust
/// let (theirs, mut end) = link(rt, 2)?;
/// executor.add(Counter { end: theirs })?;
/// let _ = block_on(&rt, Next { executor: &executor, end: &mut end })?;
/// ```
pub fn link<X: Drop, R: PlaceRule<X>, S: Store<X>, H: Wait + AllocGlobal + Copy>(
    rt: H,
    capacity: usize,
) -> Result<(SendEnd<X, R, S, H>, RecvEnd<X, R, S, H>), AllocError>
    requires { 0 < capacity }
    ensures sent { IfOk result (λ ends. (ends.0.sent ≡ 0) × (ends.0.free ≡ 0)) }
    ensures received { IfOk result (λ ends. ends.1.received ≡ 0) }
{
    link_over(rt, S::new(rt.alloc(), capacity)?)
}

/// As [`link`], over memory of the store that is there already and in which nothing stands, for as many items as that holds.
pub fn link_over<X: Drop, R: PlaceRule<X>, S: Store<X>, H: Wait + AllocGlobal + Copy>(
    rt: H,
    memory: S::Memory,
) -> Result<(SendEnd<X, R, S, H>, RecvEnd<X, R, S, H>), AllocError>
    requires some { let stored = S.held memory in 0 < stored.capacity }
    requires empty { let stored = S.held memory in stored.items ≡ [] }
    ensures sent { IfOk result (λ ends. (ends.0.sent ≡ 0) × (ends.0.free ≡ 0)) }
    ensures received { IfOk result (λ ends. ends.1.received ≡ 0) }
{
    let pipe = JobToOwner::over(memory);
    let (sent, received) = (pipe.tally_sent(), pipe.tally_received());
    let pipe = Arc::new(rt.alloc(), Mutex::new(pipe))?;
    let theirs = Arc::try_clone(&pipe)?;
    Ok((
        SendEnd::new(rt, theirs, sent),
        RecvEnd::new(rt, pipe, received),
    ))
}

/// The memory of a pipe whose ends pass pieces: that of its store, in which nothing stands, and a piece at each end.
///
/// ```rust
/// let memory = LendingMemory::with_piece(rt.alloc(), 131_072, 65_536)?;
/// let memory: PieceMemory<u8, LendingStore> = PieceMemory::over(rt.alloc(), memory)?;
/// ```
#[derive(Drop)]
pub struct PieceMemory<X: Drop, S: Store<X>> {
    store: S::Memory,
    // Where the sender makes a piece ready. For a store that takes no whole pieces there is no memory here.
    ready: Vec<X>,
    // Where the receiver is lent items, and how many at once at most.
    lent: Vec<X>,
    most: usize,
    ghost some: { let stored = S.held store in 0 < stored.capacity },
    ghost empty: { let stored = S.held store in stored.items ≡ [] },
    ghost lends: { 0 < most },
    ghost fits: { most ≤ vec_capacity lent },
}

impl<X: Drop, S: Store<X>> PieceMemory<X, S> {
    /// The memory of a pipe over that of a store in which nothing stands. The pieces are taken here, as long as those of the store. Where
    /// that takes none, there is one for the receiver alone, of 65,536 items or of the capacity, if that is less. Where there isn't so much
    /// the answer is an [`AllocError`].
    pub fn over(alloc: Global, store: S::Memory) -> Result<Self, AllocError>
        requires some { let stored = S.held store in 0 < stored.capacity }
        requires empty { let stored = S.held store in stored.items ≡ [] }
        ensures { IfOk result (λ memory. memory.store ≡ store) }
    {
        let piece = S::piece(&store);
        let most = if piece > 0 {
            piece
        } else {
            S::room(&store).min(PIECE)
        };
        Ok(PieceMemory {
            store,
            ready: Vec::with_capacity(alloc, piece)?,
            lent: Vec::with_capacity(alloc, most)?,
            most,
        })
    }

    // What is left of a pipe and of the pieces of its ends, with nothing in it.
    fn of(memory: S::Memory, ready: Vec<X>, lent: Vec<X>, most: usize) -> Self
        requires some { let stored = S.held memory in 0 < stored.capacity }
        requires lends { 0 < most }
        requires fits { most ≤ vec_capacity lent }
        ensures capacity { let stored = S.held memory in let left = S.held result.store in left.capacity ≡ stored.capacity }
        ensures most { result.most ≡ most }
        ensures ready { result.ready ≡ ready }
    {
        let mut store = memory;
        S::clear(&mut store);
        PieceMemory {
            store,
            ready,
            lent,
            most,
        }
    }

    /// How many items a pipe holds that is made of it.
    pub fn capacity(&self) -> usize
        ensures { let stored = S.held self.now.store in result ≡ stored.capacity }
    {
        S::room(&self.store)
    }

    /// How many items its pieces have: one at least.
    pub fn piece(&self) -> usize
        ensures piece { result ≡ self.now.most }
        ensures some { 0 < result }
    {
        self.most
    }
}

/// As [`link`], over memory that is there already, for as many items as that holds. What the owner drains is lent to it. The last part is the
/// sender's piece, and what stands there is not to be relied on.
///
/// ```rust
/// let (send, drain, piece) = link_drain::<u8, AnyPlace, LendingStore, H>(rt, memory)?;
///
/// // (once both ends are of no use any more)
/// let memory = unlink_drain(send, drain, piece);
/// ```
pub fn link_drain<X: Drop, R: PlaceRule<X>, S: Store<X>, H: Wait + AllocGlobal + Copy>(
    rt: H,
    memory: PieceMemory<X, S>,
) -> Result<(SendEnd<X, R, S, H>, DrainEnd<X, R, S, H>, Vec<X>), AllocError>
    ensures sent { IfOk result (λ ends. (ends.0.sent ≡ 0) × (ends.0.free ≡ 0)) }
    ensures received { IfOk result (λ ends. ends.1.hand.received ≡ 0) }
    ensures piece { IfOk result (λ ends. ends.2 ≡ memory.ready) }
{
    let PieceMemory {
        store,
        ready,
        lent,
        most,
    } = memory;
    let pipe = JobToOwner::over(store);
    let (sent, received, loan) = (pipe.tally_sent(), pipe.tally_received(), pipe.loan());
    let pipe = Arc::new(rt.alloc(), Mutex::new(pipe))?;
    let theirs = Arc::try_clone(&pipe)?;
    Ok((
        SendEnd::new(rt, theirs, sent),
        DrainEnd::new(rt, pipe, received, loan, lent, most),
        ready,
    ))
}

/// The memory of a pipe all of whose parts are given back, for another. What was inside is dropped. `None` where somebody else has an end of the
/// pipe from which `drain` receives, as where `send` is of another.
pub fn unlink_drain<X: Drop, R: PlaceRule<X>, S: Store<X>, H: Wait + Copy>(
    send: SendEnd<X, R, S, H>,
    drain: DrainEnd<X, R, S, H>,
    piece: Vec<X>,
) -> Option<PieceMemory<X, S>>
    ensures { IfSome result (λ memory. memory.ready ≡ piece) }
{
    drop(send);
    let (pipe, lent, most) = drain.into_pipe()?;
    Some(PieceMemory::of(pipe.into_memory(), piece, lent, most))
}

/// A new pipe for at most `capacity` items that an owner sends to its job, over a store of the type `S`: the owner's end and the job's. All its
/// memory is taken here, as [`PieceMemory::over`] says, and where there isn't so much the answer is an [`AllocError`].
///
/// Here `Taker` is a job with the one end in it, and `Fill` a future over the other (see [`PeekEnd`] and [`FillEnd`]):
///
/// ```rust
/// let (mut end, theirs) = link_in(rt, 2)?;
/// executor.add(Taker { end: theirs })?;
/// let count = block_on(&rt, Fill { executor: &executor, end: &mut end })?;
/// ```
pub fn link_in<X: Drop, R: PlaceRule<X>, S: Store<X>, H: Wait + AllocGlobal + Copy>(
    rt: H,
    capacity: usize,
) -> Result<(FillEnd<X, R, S, H>, PeekEnd<X, R, S, H>), AllocError>
    requires { 0 < capacity }
    ensures sent { IfOk result (λ ends. ends.0.sent ≡ 0) }
    ensures received { IfOk result (λ ends. (ends.1.received ≡ 0) × (ends.1.shown ≡ []) × (ends.1.peeked ≡ 0)) }
{
    let store = S::new(rt.alloc(), capacity)?;
    link_in_over(rt, PieceMemory::over(rt.alloc(), store)?)
}

/// As [`link_in`], over memory that is there already, for as many items as that holds.
pub fn link_in_over<X: Drop, R: PlaceRule<X>, S: Store<X>, H: Wait + AllocGlobal + Copy>(
    rt: H,
    memory: PieceMemory<X, S>,
) -> Result<(FillEnd<X, R, S, H>, PeekEnd<X, R, S, H>), AllocError>
    ensures sent { IfOk result (λ ends. ends.0.sent ≡ 0) }
    ensures received { IfOk result (λ ends. (ends.1.received ≡ 0) × (ends.1.shown ≡ []) × (ends.1.peeked ≡ 0)) }
{
    let PieceMemory {
        store,
        ready,
        lent,
        most,
    } = memory;
    let pipe = OwnerToJob::over(store);
    let (sent, received, loan) = (pipe.tally_sent(), pipe.tally_received(), pipe.loan());
    let pipe = Arc::new(rt.alloc(), Mutex::new(pipe))?;
    let theirs = Arc::try_clone(&pipe)?;
    Ok((
        FillEnd::new(rt, pipe, sent, ready),
        PeekEnd::new(rt, theirs, received, loan, lent, most),
    ))
}

/// The memory of a pipe both of whose ends are given back, for another. What was inside is dropped. `None` where somebody else has an end of the
/// pipe that `fill` sends into, as where `peek` is of another.
///
/// ```rust
/// let (fill, peek) = link_in::<u8, AnyPlace, LendingStore, H>(rt, 131_072)?;
/// let other = unlink_in(fill, peek);
/// ```
pub fn unlink_in<X: Drop, R: PlaceRule<X>, S: Store<X>, H: Wait + Copy>(
    fill: FillEnd<X, R, S, H>,
    peek: PeekEnd<X, R, S, H>,
) -> Option<PieceMemory<X, S>> {
    // (the job's end goes first, so that the owner's is the last)
    let (lent, most) = peek.into_parts();
    let (pipe, ready) = fill.into_pipe()?;
    Some(PieceMemory::of(pipe.into_memory(), ready, lent, most))
}
