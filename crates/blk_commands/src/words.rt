//! The words of the command line.
use std::alloc::AllocError;
use std::env::{Env, FillError};

/// The words without the program's name, in their order; None for a word that isn't UTF-8.
pub fn words<R: Env + AllocGlobal>(rt: &R) -> Result<Vec<Option<String>>, AllocError> {
    let mut words = Vec::new(rt.alloc());
    for place in 1..usize::MAX {
        let Some(word) = word(rt, place)? else {
            break;
        };
        words.push(String::from_utf8(word).ok())?;
    }
    Ok(words)
}

// The bytes of the word at this place; None past the last one.
fn word<R: Env + AllocGlobal>(rt: &R, place: usize) -> Result<Option<Vec<u8>>, AllocError> {
    let mut bytes = vec![in rt.alloc(); 0; 256]?;
    for _ in 0..usize::BITS {
        match rt.arg(place, bytes.as_mut_slice()) {
            Ok(len) => {
                bytes.truncate(len);
                return Ok(Some(bytes));
            }
            Err(FillError::NotPresent) => return Ok(None),
            Err(FillError::TooLong) => bytes.resize(bytes.len().saturating_mul(2), 0)?,
        }
    }
    Err(AllocError)
}
