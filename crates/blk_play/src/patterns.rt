//! Bytes in a known order. Handles give them and the player compares them, a slice at a time.
use std::alloc::{AllocError, Global};

/// How many bytes one slice has at most.
const PIECE: usize = 4_096;

/// An order of bytes.
#[derive(Clone, Copy)]
pub(crate) enum Order {
    /// Byte i is i modulo 251, so pieces of 65,536 bytes differ.
    Cycle,
    /// Byte i is i modulo 256.
    Count,
}

/// A few periods of each order.
#[derive(Drop)]
pub(crate) struct Patterns {
    cycle: Vec<u8>,
    count: Vec<u8>,
}

impl Patterns {
    pub(crate) fn new(alloc: Global) -> Result<Patterns, AllocError> {
        let room = PIECE.saturating_add(256);
        let mut cycle = Vec::with_capacity(alloc, room)?;
        let mut count = Vec::with_capacity(alloc, room)?;
        for place in 0..room {
            cycle.push((place % 251) as u8)?;
            count.push((place % 256) as u8)?;
        }
        Ok(Patterns { cycle, count })
    }

    /// The bytes from a place on: at most `most`, and at most 4,096.
    pub(crate) fn piece(&self, order: Order, place: u64, most: usize) -> &[u8] {
        let (bytes, start) = match order {
            Order::Cycle => (&self.cycle, place % 251),
            Order::Count => (&self.count, place % 256),
        };
        let start = usize::try_from(start).unwrap_or(0);
        bytes
            .get(start..start.saturating_add(most.min(PIECE)))
            .unwrap_or(&[])
    }

    /// The first `count` bytes.
    pub(crate) fn all(
        &self,
        alloc: Global,
        order: Order,
        count: usize,
    ) -> Result<Vec<u8>, AllocError> {
        let mut bytes = Vec::with_capacity(alloc, count)?;
        for _ in 0..u64::MAX {
            let come = bytes.len();
            let piece = self.piece(order, come as u64, count.saturating_sub(come));
            if piece.is_empty() {
                break;
            }
            bytes.extend_from_slice(piece)?;
        }
        Ok(bytes)
    }

    /// Whether these are the bytes from a place on.
    pub(crate) fn are(&self, order: Order, place: u64, bytes: &[u8]) -> bool {
        let (mut rest, mut place) = (bytes, place);
        for _ in 0..u64::MAX {
            if rest.is_empty() {
                break;
            }
            let piece = self.piece(order, place, rest.len());
            if piece.is_empty() || rest.get(..piece.len()) != Some(piece) {
                return false;
            }
            rest = rest.get(piece.len()..).unwrap_or(&[]);
            place = place.saturating_add(piece.len() as u64);
        }
        true
    }
}
