//! What is asked of a run, and what it measured.
use std::alloc::{AllocError, Global};
use std::fmt;

const DEFAULT_REPS: usize = 5;

/// How much work, and how often.
#[derive(Clone, Copy)]
pub(crate) struct Request {
    pub(crate) size: usize,
    pub(crate) reps: usize,
}

impl Request {
    /// By the words of the command line: no word, or 0 for a size, stands for the default.
    pub(crate) fn new(size: Option<&str>, reps: Option<&str>, default_size: usize) -> Request {
        let number = |word: Option<&str>| word.map_or(0, |text| text.parse::<usize>().unwrap_or(0));
        let size = number(size);
        let reps = number(reps);
        Request {
            size: if size == 0 { default_size } else { size },
            reps: if reps == 0 { DEFAULT_REPS } else { reps },
        }
    }
}

/// So many bytes in so many nanoseconds, in MB/s.
pub(crate) fn rate(bytes: usize, nanos: u128) -> u64 {
    u64::try_from((bytes as u128).saturating_mul(1000) / nanos.max(1)).unwrap_or(u64::MAX)
}

/// How many nanoseconds each of so many took.
pub(crate) fn each(nanos: u128, count: usize) -> u64 {
    u64::try_from(nanos / (count as u128).max(1)).unwrap_or(u64::MAX)
}

/// A figure a repetition, in the name's unit, and the nanoseconds that the longest unit of work took.
#[derive(Drop)]
pub(crate) struct Figures {
    first: u64,
    all: Vec<u64>,
    greatest_unit: u64,
}

impl Figures {
    pub(crate) fn new(alloc: Global, reps: usize) -> Result<Figures, AllocError> {
        Ok(Figures {
            first: 0,
            all: Vec::with_capacity(alloc, reps)?,
            greatest_unit: 0,
        })
    }

    /// Takes note of what a repetition took. Repetition 0 is cold, and isn't counted.
    pub(crate) fn note(&mut self, rep: usize, figure: u64) -> Result<(), AllocError> {
        if rep == 0 {
            self.first = figure;
            return Ok(());
        }
        self.all.push(figure)?;
        self.all.sort_unstable();
        Ok(())
    }

    /// Takes note of what one unit of work took.
    pub(crate) fn note_unit(&mut self, nanos: u64) {
        self.greatest_unit = self.greatest_unit.max(nanos);
    }

    pub(crate) fn median(&self) -> u64 {
        self.all.get(self.all.len() / 2).copied().unwrap_or(0)
    }
}

impl fmt::Display for Figures {
    fn fmt<W: fmt::Write>(&self, f: &mut fmt::Formatter<W>) -> fmt::Result {
        let min = self.all.first().copied().unwrap_or(0);
        let max = self.all.last().copied().unwrap_or(0);
        let reps = self.all.len();
        let first = self.first;
        let greatest = self.greatest_unit;
        write!(
            f,
            "min={min} max={max} first={first} greatest={greatest} reps={reps}"
        )
    }
}
