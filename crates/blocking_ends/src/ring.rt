//! The two ends of a pipe of items that takes no lock for an item. It is a ring between two threads, and next to it the seats of
//! those who wait.
//!
//! Each atomic act is named as the machine of a stream names it, which has them in every order (`blocking_schedule`).
ghost use Rattle.std.specs.Prelude.{◌≡◌, ◌+◌, ◌<◌, length, IfOk};

mod item_recv_end;
mod item_send_end;
mod kept;
mod pace;
mod shared;

use crate::rule::PlaceRule;
pub use item_recv_end::ItemRecvEnd;
pub use item_send_end::{ItemSendEnd, ItemSending, WhyUnsent};
pub use kept::{JobSeated, SeenEnd, ToldEnd};
use pace::Pace;
use rtrb::{Protocol, RingBuffer};
pub use shared::SeenShut;
use shared::Shared;
use std::alloc::{AllocError, AllocGlobal, Global};
use std::marker::PhantomData;
use std::sync::{Arc, Wait};

/// What a sender promises of each item by a place rule: the place of an item is the number of those before it.
pub struct ByPlace<R> {
    rule: PhantomData<R>,
}

impl<X, R: PlaceRule<X>> Protocol<X> for ByPlace<R> {
    ghost allows = { λ before x. R.holds (length before) x };
}

/// A new pipe for at most `capacity` items that a job sends to its owner, whose ends pass an item under no lock: the job's end and the owner's. All
/// its memory is taken here, and where there isn't so much the answer is an [`AllocError`].
///
/// Here `Numbers` is a job with the one end in it (see [`ItemSendEnd`]):
///
/// ```rust
/// let (theirs, mut end): (_, ItemRecvEnd<u32, AnyPlace, H>) = link_items(rt, 2)?;
/// executor.add(Numbers { next: 0, end: theirs })?;
/// ```
pub fn link_items<X: Drop, R: PlaceRule<X>, H: Wait + AllocGlobal + Copy>(
    rt: H,
    capacity: usize,
) -> Result<(ItemSendEnd<X, R, H>, ItemRecvEnd<X, R, H>), AllocError>
    requires { 0 < capacity }
    ensures sent { IfOk result (λ ends. ends.0.sent ≡ 0) }
    ensures received { IfOk result (λ ends. ends.1.received ≡ 0) }
{
    let shared = Arc::new(rt.alloc(), Shared::new())?;
    let theirs = Arc::try_clone(&shared)?;
    let (producer, consumer) = RingBuffer::with_protocol::<Global, ByPlace<R>>(
        rt.alloc(),
        capacity,
    )?;
    let pace = Pace::of(capacity);
    Ok((
        ItemSendEnd::new(rt, producer, theirs, pace),
        ItemRecvEnd::new(rt, consumer, shared, pace),
    ))
}
