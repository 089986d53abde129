//! The words of a process.
use blk_commands::words::words;
use std::env::{Env, FillError};
use std::test::Fail;

// The arguments of a process: its name, a word, one that isn't UTF-8, and a long one.
#[derive(Drop)]
struct Arguments;

impl Env for Arguments {
    fn arg(&self, i: usize, buf: &mut [u8]) -> Result<usize, FillError> {
        let word = match i {
            0 => b"blk".as_slice(),
            1 => b"call".as_slice(),
            2 => b"\xff".as_slice(),
            3 => [b'7'; 300].as_slice(),
            _ => return Err(FillError::NotPresent),
        };
        if word.len() > buf.len() {
            return Err(FillError::TooLong);
        }
        buf[..word.len()].copy_from_slice(word);
        Ok(word.len())
    }

    fn var(&self, _name: &str, _buf: &mut [u8]) -> Result<usize, FillError> {
        Err(FillError::NotPresent)
    }

    fn var_at(&self, _i: usize, _buf: &mut [u8]) -> Result<usize, FillError> {
        Err(FillError::NotPresent)
    }
}

#[test]
fn words_follow_the_name(rt: HostRuntime) -> Result<(), Fail> {
    let words = words(&(Arguments, rt.alloc()))?;
    assert_eq!(rt; words.len(), 3);
    assert_eq!(rt; words[0].as_ref().map(|word| word.as_str()), Some("call"));
    assert!(rt; words[1].is_none());
    assert_eq!(rt; words[2].as_ref().map(|word| word.len()), Some(300));
    Ok(())
}
