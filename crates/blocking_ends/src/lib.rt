//! A pipe between two threads: its two ends, which keep what its sender owes of each item at its place.
#![tactic(auto)]

mod drain_end;
mod fill_end;
mod hand;
mod locked;
mod pair;
mod peek_end;
mod recv_end;
mod ring;
mod rule;
mod send_end;

pub use blocking_sync::OwnerWaker;
pub use drain_end::DrainEnd;
pub use fill_end::FillEnd;
pub use locked::Closed;
pub use pair::{
    PieceMemory, link, link_drain, link_in, link_in_over, link_over, unlink_drain, unlink_in,
};
pub use peek_end::PeekEnd;
pub use recv_end::RecvEnd;
pub use ring::{
    ItemRecvEnd, ItemSendEnd, ItemSending, JobSeated, SeenEnd, SeenShut, ToldEnd, WhyUnsent,
    link_items,
};
pub use rule::{AnyPlace, PlaceRule};
pub use send_end::SendEnd;
