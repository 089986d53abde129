//! The bytes that words say.
ghost use Rattle.std.specs.Prelude.{◌≡◌, not, IfOk};
ghost use Rattle.std.specs.Char.{is_ascii_uppercase};
ghost use Rattle.std.specs.List.{list_all};
ghost use Rattle.blk_commands.specs.Bytes.{SaysBytes, bytes_of};

use blocking_world_laws::bytes::Bytes;
use hex::FromHexError;
use std::alloc::{AllocError, Global};

/// The bytes that a word says: two digits a byte, of base 16 and with small letters, or a dash for none. None where it says
/// no bytes so; Err where there is no memory for them.
#[tactic(auto, using(crate::proofs::ByteLemmas::says_bytes))]
pub(crate) fn bytes_of(alloc: Global, word: &str) -> Result<Option<Bytes>, AllocError>
    ensures value { IfOk result (λ bytes. bytes ≡ bytes_of word.now) }
    ensures text { IfOk result (λ bytes. SaysBytes word.now bytes) }
{
    decoded(alloc, word)
}

// The bytes that a word says.
fn decoded(alloc: Global, word: &str) -> Result<Option<Bytes>, AllocError>
    ensures { IfOk result (λ bytes. bytes ≡ bytes_of word.now) }
{
    if word == "-" {
        return Ok(Some(Bytes::new(Vec::new(alloc))));
    }
    // (`decode` alone takes capital letters, and an empty word for no bytes)
    if word.is_empty() || !is_without_capitals(word) {
        return Ok(None);
    }
    match hex::decode(alloc, word) {
        Ok(bytes) => Ok(Some(Bytes::new(bytes))),
        Err(FromHexError::OutOfMemory) => Err(AllocError),
        Err(_) => Ok(None),
    }
}

// Whether no letter of a word is a capital.
fn is_without_capitals(word: &str) -> bool
    ensures { result ≡ list_all (λ byte. not (is_ascii_uppercase byte)) word.now }
{
    word.bytes().all(|byte| !byte.is_ascii_uppercase())
}
