//! The worked rows of a pipe whose job puts pieces, and whose owner is lent them.
use super::bench::Shown::{Are, Due, Found, Got, In, Item, Lost, Over, Parked, Waits, Waker};
use super::bench::Step::{
    CloseJob, CloseOwner, Drain, Fetch, HandMemory, LetGoFetched, PutPiece, Receive, Send,
};
use super::bench::{CountedLine, HAND, PIECE, PieceRow, Step};
use blocking_core::pipe::Room;

// The owner's waker.
const OWNER: u8 = 7;

// How many bytes a whole piece has.
const WHOLE: usize = 3;

// A whole piece goes in as it is behind whole ones; else its bytes are copied behind those inside.
const PIECES: &[CountedLine] = &[
    (Fetch(OWNER, WHOLE), Waits(None), 0, 5, PIECE),
    (PutPiece(b'a', 3), In(Some(OWNER)), 0, 2, WHOLE),
    (PutPiece(b'd', 2), In(None), 0, 0, WHOLE),
    (Step::Room(1), Found(Room::Parked), 0, 0, WHOLE),
    (
        Fetch(OWNER, WHOLE),
        Got(b'a', 3, None, Some(OWNER)),
        3,
        0,
        WHOLE,
    ),
    (HandMemory, Are(PIECE), 3, 0, WHOLE),
    (LetGoFetched(1), Due(Some(1)), 2, 1, WHOLE),
    (LetGoFetched(2), Due(None), 0, 3, WHOLE),
    (PutPiece(b'f', 3), In(None), 0, 0, WHOLE),
    (
        Fetch(OWNER, WHOLE),
        Got(b'd', 3, None, Some(OWNER)),
        3,
        0,
        WHOLE,
    ),
    (HandMemory, Are(WHOLE), 3, 0, WHOLE),
    (CloseJob, Waker(None), 3, 0, WHOLE),
    (LetGoFetched(3), Due(None), 0, 3, WHOLE),
    (
        Fetch(OWNER, WHOLE),
        Got(b'g', 2, None, Some(OWNER)),
        2,
        3,
        WHOLE,
    ),
    (HandMemory, Are(HAND), 2, 3, WHOLE),
    (LetGoFetched(2), Due(None), 0, 5, WHOLE),
    (Fetch(OWNER, WHOLE), Over(Some(OWNER)), 0, 5, WHOLE),
    (Receive(OWNER), Over(Some(OWNER)), 0, 5, WHOLE),
];

// What is lent takes room, and what is inside goes on meanwhile.
const BESIDE: &[CountedLine] = &[
    (PutPiece(b'a', 3), In(None), 0, 2, WHOLE),
    (
        Fetch(OWNER, WHOLE),
        Got(b'a', 3, None, Some(OWNER)),
        3,
        2,
        WHOLE,
    ),
    (HandMemory, Are(PIECE), 3, 2, WHOLE),
    (PutPiece(b'd', 1), In(None), 3, 1, WHOLE),
    (Send(1, b'e'), In(None), 3, 0, WHOLE),
    (Send(1, b'f'), Parked(b'f'), 3, 0, WHOLE),
    (
        Receive(OWNER),
        Item(b'd', Some(1), Some(OWNER)),
        3,
        1,
        WHOLE,
    ),
    (
        Drain(OWNER, 5),
        Got(b'e', 1, None, Some(OWNER)),
        3,
        2,
        WHOLE,
    ),
    (Drain(OWNER, 5), Waits(None), 3, 2, WHOLE),
    (LetGoFetched(3), Due(None), 0, 5, WHOLE),
    (PutPiece(b'f', 2), In(Some(OWNER)), 0, 3, WHOLE),
    (CloseOwner, Due(None), 0, 3, WHOLE),
    (Step::Room(1), Found(Room::Shut), 0, 3, WHOLE),
    (PutPiece(b'h', 1), Lost, 0, 3, WHOLE),
    (
        Fetch(OWNER, WHOLE),
        Got(b'f', 2, None, Some(OWNER)),
        2,
        3,
        WHOLE,
    ),
    (HandMemory, Are(HAND), 2, 3, WHOLE),
];

pub(super) const ROWS: &[PieceRow] = &[
    PieceRow {
        name: "pieces are put and fetched",
        capacity: 5,
        whole: WHOLE,
        steps: PIECES,
    },
    PieceRow {
        name: "what is inside goes on beside what is lent",
        capacity: 5,
        whole: WHOLE,
        steps: BESIDE,
    },
];
