//! The worked rows of a pipe that lends to its job. The job's own piece isn't used.
use super::bench::Shown::{Are, Due, Over, Sees, SeesNone, Took, Waits, Waker};
use super::bench::Step::{
    CloseJob, CloseOwner, Fill, FillReady, HandMemory, Lend, LetGo, ReadyMemory,
};
use super::bench::{CountedLine, HAND, PIECE, PieceRow};
use blocking_core::pipe::Peeked;

// The owner's waker.
const OWNER: u8 = 7;

// How many bytes a whole piece has.
const WHOLE: usize = 2;

// Capacity 5: the first two pieces go through as they are, the bytes after them are copied, and the last piece goes as it is again.
const PIECES: &[CountedLine] = &[
    (Lend(1, WHOLE), SeesNone(Peeked::Parked), 0, 5, PIECE),
    (
        FillReady(OWNER, b'a', 2),
        Took(2, Some(1), Some(OWNER)),
        0,
        3,
        PIECE,
    ),
    (
        FillReady(OWNER, b'c', 2),
        Took(2, None, Some(OWNER)),
        0,
        1,
        PIECE,
    ),
    (
        Fill(OWNER, b'e', 3),
        Took(1, None, Some(OWNER)),
        0,
        0,
        PIECE,
    ),
    (FillReady(OWNER, b'f', 2), Waits(None), 0, 0, PIECE),
    (Lend(1, WHOLE), Sees(b'a', 2), 2, 0, PIECE),
    (LetGo(1), Waker(Some(OWNER)), 1, 1, PIECE),
    (
        FillReady(OWNER, b'f', 2),
        Took(1, None, Some(OWNER)),
        1,
        0,
        PIECE,
    ),
    (LetGo(1), Waker(None), 0, 1, PIECE),
    (Lend(1, WHOLE), Sees(b'c', 2), 2, 1, PIECE),
    (LetGo(2), Waker(None), 0, 3, PIECE),
    (Lend(1, WHOLE), Sees(b'e', 2), 2, 3, PIECE),
    (
        FillReady(OWNER, b'g', 2),
        Took(2, None, Some(OWNER)),
        2,
        1,
        PIECE,
    ),
    (CloseOwner, Due(None), 2, 1, PIECE),
    (LetGo(2), Waker(None), 0, 3, PIECE),
    (Lend(1, WHOLE), Sees(b'g', 2), 2, 3, PIECE),
    (CloseJob, Waker(None), 2, 3, PIECE),
    (FillReady(OWNER, b'i', 2), Over(Some(OWNER)), 2, 3, PIECE),
    (LetGo(2), Waker(None), 0, 5, PIECE),
    (Lend(1, WHOLE), SeesNone(Peeked::Drained), 0, 5, PIECE),
];

// Capacity 5: a piece for which there is room is copied, since a byte stands before it, and so are later bytes.
const BEHIND_A_BYTE: &[CountedLine] = &[
    (
        Fill(OWNER, b'a', 1),
        Took(1, None, Some(OWNER)),
        0,
        4,
        PIECE,
    ),
    (
        FillReady(OWNER, b'b', 2),
        Took(2, None, Some(OWNER)),
        0,
        2,
        PIECE,
    ),
    (Lend(1, WHOLE), Sees(b'a', 2), 2, 2, PIECE),
    (LetGo(2), Waker(None), 0, 4, PIECE),
    (
        Fill(OWNER, b'd', 3),
        Took(3, None, Some(OWNER)),
        0,
        1,
        PIECE,
    ),
    (Lend(1, WHOLE), Sees(b'c', 2), 2, 1, PIECE),
    (LetGo(2), Waker(None), 0, 3, PIECE),
    (Lend(1, WHOLE), Sees(b'e', 2), 2, 3, PIECE),
    (LetGo(1), Waker(None), 1, 4, PIECE),
    (LetGo(1), Waker(None), 0, 5, PIECE),
    (Lend(1, WHOLE), SeesNone(Peeked::Parked), 0, 5, PIECE),
];

// Capacity 6, in three pieces: two times a byte leaves the first of three full ones, and the byte for which there is room then comes behind all
// others. So they move down.
const BEHIND_A_PART: &[CountedLine] = &[
    (
        FillReady(OWNER, b'a', 2),
        Took(2, None, Some(OWNER)),
        0,
        4,
        PIECE,
    ),
    (
        FillReady(OWNER, b'c', 2),
        Took(2, None, Some(OWNER)),
        0,
        2,
        PIECE,
    ),
    (
        FillReady(OWNER, b'e', 2),
        Took(2, None, Some(OWNER)),
        0,
        0,
        PIECE,
    ),
    (Lend(1, 1), Sees(b'a', 1), 1, 0, PIECE),
    (FillReady(OWNER, b'g', 2), Waits(None), 1, 0, PIECE),
    (LetGo(1), Waker(Some(OWNER)), 0, 1, PIECE),
    (
        FillReady(OWNER, b'g', 2),
        Took(1, None, Some(OWNER)),
        0,
        0,
        PIECE,
    ),
    (Lend(1, 1), Sees(b'b', 1), 1, 0, PIECE),
    (LetGo(1), Waker(None), 0, 1, PIECE),
    (
        Fill(OWNER, b'h', 1),
        Took(1, None, Some(OWNER)),
        0,
        0,
        PIECE,
    ),
    (Lend(1, WHOLE), Sees(b'c', 2), 2, 0, PIECE),
    (LetGo(2), Waker(None), 0, 2, PIECE),
    (
        FillReady(OWNER, b'i', 2),
        Took(2, None, Some(OWNER)),
        0,
        0,
        PIECE,
    ),
    (Lend(1, WHOLE), Sees(b'e', 2), 2, 0, PIECE),
    (LetGo(2), Waker(None), 0, 2, PIECE),
    (Lend(1, WHOLE), Sees(b'g', 2), 2, 2, PIECE),
    (LetGo(2), Waker(None), 0, 4, PIECE),
    (Lend(1, WHOLE), Sees(b'i', 2), 2, 4, PIECE),
    (LetGo(2), Waker(None), 0, 6, PIECE),
    (Lend(1, WHOLE), SeesNone(Peeked::Parked), 0, 6, PIECE),
];

// The pieces are told from one another by their memory.
const MOVED: &[CountedLine] = &[
    (ReadyMemory, Are(PIECE), 0, 5, PIECE),
    (HandMemory, Are(HAND), 0, 5, PIECE),
    (
        FillReady(OWNER, b'a', WHOLE),
        Took(WHOLE, None, Some(OWNER)),
        0,
        3,
        PIECE,
    ),
    (ReadyMemory, Are(WHOLE), 0, 3, PIECE),
    (Lend(1, WHOLE), Sees(b'a', WHOLE), 2, 3, PIECE),
    (HandMemory, Are(PIECE), 2, 3, PIECE),
];

// All calls of these take no memory.
pub(super) const ALONE: &[PieceRow] = &[PieceRow {
    name: "pieces, and bytes that are none",
    capacity: 5,
    whole: WHOLE,
    steps: PIECES,
}];

pub(super) const ROWS: &[PieceRow] = &[
    PieceRow {
        name: "a piece behind a byte",
        capacity: 5,
        whole: WHOLE,
        steps: BEHIND_A_BYTE,
    },
    PieceRow {
        name: "a byte behind full pieces",
        capacity: 6,
        whole: WHOLE,
        steps: BEHIND_A_PART,
    },
    PieceRow {
        name: "a whole piece",
        capacity: 5,
        whole: WHOLE,
        steps: MOVED,
    },
];
