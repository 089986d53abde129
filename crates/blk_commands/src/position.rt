//! The positions that words say.
ghost use Rattle.std.specs.Prelude.{◌≡◌};
ghost use Rattle.blk_commands.specs.Positions.{position_of};

use crate::number::{behind, number, signed_number};
use blocking_core::io::Position;

/// The position that a word says: a letter for where it counts from, and behind it how many bytes, with a sign but from the
/// start. The letter is `s` for the start, `c` for where the handle is now and `e` for the end.
pub(crate) fn position_of(word: &str) -> Option<Position>
    ensures { result ≡ position_of word.now }
{
    if let Some(offset) = behind(word, 's') {
        return number(offset).map(Position::Start);
    }
    if let Some(offset) = behind(word, 'c') {
        return signed_number(offset).map(Position::Current);
    }
    let offset = behind(word, 'e')?;
    signed_number(offset).map(Position::End)
}
