//! Scripts: the text of the pool's setting, and the lines.
use crate::line::{Alone, COUNTED, Line, line_of, room_of};
use crate::words::LineFault;
use std::alloc::Global;

/// How a line is played.
#[derive(Clone, Copy, PartialEq, Eq)]
pub(crate) enum Manner {
    Once,
    /// A refused line is played once more.
    Tried,
    /// What it shows isn't told.
    Quiet,
}

/// A line, and how it is played.
#[derive(Drop)]
pub(crate) struct Numbered {
    pub line: Line,
    pub manner: Manner,
}

/// A script.
#[derive(Drop)]
pub(crate) struct Script {
    pub setting: Option<String>,
    /// Whether requests are counted while the pool is made.
    pub is_pool_counted: bool,
    pub lines: Vec<Numbered>,
    /// How many bytes are read at once, at most.
    pub room: usize,
    /// How many calls get their memory before the first line.
    pub calls: usize,
}

impl Script {
    // Reads the pool's setting, with or without marks around it. Returns whether the line belongs to it.
    fn takes_setting(&mut self, alloc: Global, line: &str) -> Result<bool, BadLine> {
        if self.is_pool_counted && self.lines.is_empty() && line == "granted" {
            return Ok(true);
        }
        let Some(text) = line.strip_prefix("pool ") else {
            return Ok(false);
        };
        self.is_pool_counted = match self.lines.as_slice() {
            [] => false,
            [first] if is_counted(first) => true,
            _ => return Ok(false),
        };
        self.lines.clear();
        let setting = String::from_str(alloc, text);
        self.setting = Some(setting.or(Err(0usize))?);
        Ok(true)
    }
}

// Whether this line begins to count requests.
fn is_counted(numbered: &Numbered) -> bool {
    matches!(&numbered.line, Line::Alone(Alone::Mark(mark)) if *mark == COUNTED)
}

// How many calls a script makes that counts requests; 0 for other scripts.
fn calls_of(lines: &[Numbered]) -> usize {
    let (mut calls, mut are_counted) = (0usize, false);
    for numbered in lines.iter() {
        are_counted = are_counted || is_counted(numbered);
        if let Line::Alone(Alone::Call(_, more, _)) = &numbered.line {
            let more = usize::try_from(*more).unwrap_or(usize::MAX);
            calls = calls.saturating_add(more).saturating_add(1);
        }
    }
    if are_counted { calls } else { 0 }
}

/// The first line that is none, counted from 1; or 0 where there was no memory.
pub(crate) type BadLine = usize;

fn bad(number: usize, fault: LineFault) -> BadLine {
    match fault {
        LineFault::NotALine => number,
        LineFault::Memory => 0,
    }
}

// How a line is played, and what is left of it.
fn manner_of(text: &str) -> (Manner, &str) {
    if let Some(rest) = text.strip_prefix("try ") {
        return (Manner::Tried, rest);
    }
    match text.strip_prefix("quietly ") {
        Some(rest) => (Manner::Quiet, rest),
        None => (Manner::Once, text),
    }
}

// Reads one line that isn't empty.
fn read_numbered(alloc: Global, text: &str) -> Result<Numbered, LineFault> {
    let (manner, text) = manner_of(text);
    Ok(Numbered {
        line: line_of(alloc, text)?,
        manner,
    })
}

// Reads all lines.
fn read_lines(alloc: Global, script: &mut Script, text: &str) -> Result<(), BadLine> {
    let mut number = 0usize;
    for line in text.split('\n') {
        number = number.saturating_add(1);
        if line.is_empty() || line.starts_with('#') {
            continue;
        }
        if script.takes_setting(alloc, line)? {
            continue;
        }
        match read_numbered(alloc, line) {
            Ok(read) => {
                script.room = script.room.max(room_of(&read.line));
                script.lines.push(read).or(Err(0usize))?;
            }
            Err(fault) => return Err(bad(number, fault)),
        }
    }
    Ok(())
}

// The place of a block's end, which begins behind this place.
fn end_of(lines: &[Numbered], begin: usize) -> Option<usize> {
    let mut depth = 1usize;
    for (place, numbered) in lines.iter().enumerate().skip(begin) {
        match numbered.line {
            Line::Begin(..) => depth = depth.saturating_add(1),
            Line::End => depth = depth.saturating_sub(1),
            _ => {}
        }
        if depth == 0 {
            return Some(place);
        }
    }
    None
}

// Notes where the block ends that begins at a place, if one does. Whether that can be.
fn find_end(lines: &mut [Numbered], place: usize, open: usize) -> Option<usize> {
    let end = match lines.get(place)?.line {
        Line::Begin(..) => end_of(lines, place.saturating_add(1))?,
        Line::End => return open.checked_sub(1),
        _ => return Some(open),
    };
    if let Some(numbered) = lines.get_mut(place)
        && let Line::Begin(_, length) = &mut numbered.line
    {
        *length = end.saturating_sub(place);
    }
    Some(open.saturating_add(1))
}

// Notes where each block ends. Whether each has its end, and each end its block.
fn find_ends(lines: &mut [Numbered]) -> bool {
    let mut open = 0usize;
    for place in 0..lines.len() {
        match find_end(lines, place, open) {
            Some(now_open) => open = now_open,
            None => return false,
        }
    }
    true
}

/// Reads a script.
pub(crate) fn read_script(alloc: Global, text: &str) -> Result<Script, BadLine> {
    let mut script = Script {
        setting: None,
        is_pool_counted: false,
        lines: Vec::new(alloc),
        room: 0,
        calls: 0,
    };
    read_lines(alloc, &mut script, text)?;
    script.calls = calls_of(script.lines.as_slice());
    if find_ends(script.lines.as_mut_slice()) {
        return Ok(script);
    }
    Err(text.split('\n').count())
}
