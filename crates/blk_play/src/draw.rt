//! Scripts that are drawn by a seed: owners, handles, faults, calls, jobs, copiers and limits, mostly of parties that are there.
use std::alloc::Global;
use std::fmt::Write;
use std::io;

/// How many parties of a kind there are at most.
const MOST: u64 = 12;

/// Numbers that look like chance, by a seed.
#[derive(Drop)]
struct Dice {
    state: u64,
}

impl Dice {
    fn new(seed: u64) -> Dice {
        Dice {
            state: seed.wrapping_mul(0x9e37_79b9_7f4a_7c15) | 1,
        }
    }

    // A number below this one; 0 below 0.
    fn below(&mut self, most: u64) -> u64 {
        self.state ^= self.state << 13;
        self.state ^= self.state >> 7;
        self.state ^= self.state << 17;
        (self.state >> 11).checked_rem(most).unwrap_or(0)
    }

    // Whether one of so many comes.
    fn one_of(&mut self, count: u64) -> bool {
        self.below(count) == 0
    }

    fn pick(&mut self, words: &[&'static str]) -> &'static str {
        let place = self.below(words.len() as u64);
        match usize::try_from(place) {
            Ok(place) => words.get(place).copied().unwrap_or(""),
            Err(_) => "",
        }
    }
}

/// What was drawn so far.
#[derive(Drop)]
struct Drawing {
    dice: Dice,
    owners: u64,
    tasks: u64,
    jobs: u64,
    copiers: u64,
    // The number of the next fault: each is used once.
    fault: u64,
    text: String,
}

impl Drawing {
    fn add(&mut self, line: &str) -> io::Result<()> {
        Ok(writeln!(self.text, "{line}")?)
    }

    // A few answers of a plan, of which one may be a fault.
    fn answers(&mut self, kind: &str) -> io::Result<()> {
        let (before, by) = (self.dice.below(5), 1u64.saturating_add(self.dice.below(3)));
        let fault = self.fault;
        write!(self.text, " {kind} n {by} *{before}")?;
        if self.dice.one_of(2) {
            self.fault = fault.saturating_add(1);
            write!(self.text, " fault {fault}")?;
        }
        Ok(())
    }

    // An owner, and what its handle has and answers.
    fn owner(&mut self) -> io::Result<()> {
        let number = self.owners;
        let (length, by) = (
            self.dice.below(400),
            1u64.saturating_add(self.dice.below(64)),
        );
        let source = self.dice.pick(&["cycle", "count"]);
        write!(self.text, "handle {number} of {source} {length} by {by}")?;
        for kind in ["reads", "writes", "flushes", "seeks"] {
            if self.dice.one_of(4) {
                self.answers(kind)?;
            }
        }
        self.add("")?;
        let capacity = 1u64.saturating_add(self.dice.below(48));
        write!(self.text, "new {capacity}")?;
        self.client()?;
        self.owners = number.saturating_add(1);
        self.add("")
    }

    // For whom something is, sometimes.
    fn client(&mut self) -> io::Result<()> {
        if self.dice.one_of(2) {
            let client = 1u64.saturating_add(self.dice.below(3));
            write!(self.text, " for {client}")?;
        }
        Ok(())
    }

    // What an owner is asked for.
    fn ask(&mut self) -> io::Result<()> {
        let number = 1u64.saturating_add(self.dice.below(24));
        Ok(match self.dice.below(16) {
            0..=3 => write!(self.text, "read {number}")?,
            4..=6 => {
                write!(self.text, "write ")?;
                for byte in 0..number {
                    let byte = byte.wrapping_mul(37).wrapping_add(number) % 256;
                    write!(self.text, "{byte:02x}")?;
                }
            }
            7..=8 => write!(self.text, "next")?,
            9..=10 => write!(self.text, "flush")?,
            11 => write!(self.text, "seek s{number}")?,
            12 => write!(self.text, "seek c{number}")?,
            13 => write!(self.text, "op {number}")?,
            14 => write!(self.text, "mut")?,
            _ if self.dice.one_of(4) => {
                let word = self.dice.pick(&["close", "inner"]);
                write!(self.text, "{word}")?;
            }
            _ => write!(self.text, "flush")?,
        })
    }

    fn of_owner(&mut self) -> io::Result<()> {
        let owner = self.dice.below(self.owners);
        match self.dice.below(24) {
            0 => write!(self.text, "drop {owner}")?,
            1 => write!(self.text, "says {owner}")?,
            2..=8 => {
                write!(self.text, "poll {owner} ")?;
                self.ask()?;
            }
            9 => write!(self.text, "finish {owner} rest")?,
            10 => write!(self.text, "finish {owner} exact 7")?,
            11 => write!(self.text, "finish {owner} whole 0001020304050607")?,
            12 => write!(self.text, "leave {owner} exact 9 polled")?,
            13 => write!(self.text, "leave {owner} whole 08090a0b0c0d polled")?,
            14 => write!(self.text, "client {owner} 2")?,
            _ => {
                write!(self.text, "await {owner} ")?;
                self.ask()?;
            }
        }
        self.add("")
    }

    fn call(&mut self) -> io::Result<()> {
        let number = self.dice.below(100);
        write!(self.text, "call {number}")?;
        self.client()?;
        self.tasks = self.tasks.saturating_add(1);
        self.add("")
    }

    fn of_task(&mut self) -> io::Result<()> {
        let task = self.dice.below(self.tasks);
        let act = self
            .dice
            .pick(&["poll", "await", "cancel", "detach", "drop", "await"]);
        Ok(writeln!(self.text, "task {task} {act}")?)
    }

    fn of_job(&mut self) -> io::Result<()> {
        let job = self.dice.below(self.jobs);
        let act = self.dice.pick(&["wake", "wake", "wake", "mark"]);
        Ok(writeln!(self.text, "job {job} {act}")?)
    }

    fn of_copier(&mut self) -> io::Result<()> {
        let copier = self.dice.below(self.copiers);
        let act = self.dice.pick(&["poll", "await", "await", "apart", "drop"]);
        Ok(writeln!(self.text, "copy {copier} {act}")?)
    }

    fn link(&mut self) -> io::Result<()> {
        let (reader, writer) = (self.dice.below(self.owners), self.dice.below(self.owners));
        let piece = 1u64.saturating_add(self.dice.below(20));
        self.copiers = self.copiers.saturating_add(1);
        Ok(writeln!(self.text, "link {reader} {writer} {piece}")?)
    }

    fn of_pool(&mut self) -> io::Result<()> {
        let number = 1u64.saturating_add(self.dice.below(4));
        Ok(match self.dice.below(6) {
            0 => writeln!(self.text, "limit {number}")?,
            1 => writeln!(self.text, "clients {number}")?,
            2 => writeln!(self.text, "clients none")?,
            3 => writeln!(self.text, "sweep")?,
            _ => writeln!(self.text, "counts")?,
        })
    }

    // One more line.
    fn line(&mut self) -> io::Result<()> {
        match self.dice.below(40) {
            0..=2 if self.owners < MOST => self.owner(),
            3..=4 => self.call(),
            5..=8 if self.tasks > 0 => self.of_task(),
            9 => {
                let waits = self.dice.below(4);
                self.jobs = self.jobs.saturating_add(1);
                Ok(writeln!(self.text, "add {waits}")?)
            }
            10..=12 if self.jobs > 0 => self.of_job(),
            13 if self.owners > 1 => self.link(),
            14..=16 if self.copiers > 0 => self.of_copier(),
            17..=18 => self.of_pool(),
            _ if self.owners > 0 => self.of_owner(),
            _ => self.owner(),
        }
    }
}

/// A script of so many lines, or a few more, for a pool of at most so many workers.
pub(crate) fn draw(alloc: Global, seed: u64, lines: u64, workers: u64) -> io::Result<String> {
    let mut drawing = Drawing {
        dice: Dice::new(seed),
        owners: 0,
        tasks: 0,
        jobs: 0,
        copiers: 0,
        fault: 1,
        text: format!(in alloc; "pool {workers}\n")?,
    };
    for _ in 0..lines {
        drawing.line()?;
    }
    let Drawing {
        dice: _,
        owners: _,
        tasks: _,
        jobs: _,
        copiers: _,
        fault: _,
        text,
    } = drawing;
    Ok(text)
}
