//! The worked rows of what a pipe lends.
use super::bench::Row;
use super::bench::Shown::{Are, Due, Got, In, Sees, SeesNone, Took, Waits, Waker};
use super::bench::Step::{
    CloseOwner, Drain, Fill, FillReady, Free, Lend, Lent, LetGo, Peek, Put, PutPiece,
};
use blocking_core::pipe::Peeked;

pub(super) const LOANS: &[Row] = &[
    Row {
        name: "what is lent takes room until it is let go",
        capacity: 3,
        steps: &[
            (Lend(1, 2), SeesNone(Peeked::Parked)),
            (FillReady(7, b'a', 3), Took(3, Some(1), Some(7))),
            (Lend(1, 2), Sees(b'a', 2)),
            (Lent, Are(2)),
            (Free, Are(0)),
            (Fill(7, b'd', 1), Waits(None)),
            (LetGo(1), Waker(Some(7))),
            (Fill(7, b'd', 2), Took(1, None, Some(7))),
            (Peek(1, 7), Sees(b'c', 2)),
            (LetGo(1), Waker(None)),
            (Lend(1, 7), Sees(b'c', 2)),
            (CloseOwner, Due(None)),
            (LetGo(2), Waker(None)),
            (Lend(1, 7), SeesNone(Peeked::Drained)),
            (Free, Are(3)),
        ],
    },
    Row {
        name: "what is inside goes after what is lent",
        capacity: 7,
        steps: &[
            (Put(b'a', 5), In(None)),
            (Lend(1, 2), Sees(b'a', 2)),
            (LetGo(4), Waker(None)),
            (Lent, Are(0)),
            (Free, Are(6)),
            (PutPiece(b'f', 7 - 1), In(None)),
            (Drain(7, 7), Got(b'e', 7, None, Some(7))),
        ],
    },
];
