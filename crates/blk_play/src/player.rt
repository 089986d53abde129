//! Plays lines on a stage, and checks the laws.
use crate::desk::Desk;
use crate::gates::{GateNo, Gates};
use crate::line::{Alone, Counted, GRANTED, Line, Parties};
use crate::patience::Patience;
use crate::patterns::Patterns;
use crate::rounds::Round;
use crate::script::{Manner, Numbered, Script};
use crate::shown::{Many, NOTHING, Shown};
use crate::stage::{Act, Reply, Stage, Standing, System, Why};
use std::fmt::Write;
use std::sync::Arc;
use std::{io, mem};

/// How many tasks there are to poll by, beside each party's own.
const WAKERS: usize = 8;

/// What came of a line, or of several.
#[derive(Clone, Copy, PartialEq, Eq)]
pub(crate) enum Flow {
    GoesOn,
    /// A try wasn't in time.
    Late,
    /// The rest isn't played: a law is broken, or the time is over.
    Stops,
}

/// A player.
#[derive(Drop)]
pub(crate) struct Player<S: Stage, Y: System> {
    pub stage: S,
    pub system: Y,
    pub desk: Desk,
    /// What lines of a block show; None where each line is written at once.
    pub kept: Option<String>,
    /// The blocks around the line that is played, the outermost first.
    pub rounds: Vec<Round>,
    /// Whether some tries were all too late.
    pub is_too_slow: bool,
    clock: u64,
}

impl<S: Stage, Y: System> Player<S, Y> {
    /// A player that has played nothing yet.
    pub(crate) fn new(
        stage: S,
        system: Y,
        gates: Arc<Gates>,
        patience: Patience,
        script: &Script,
    ) -> io::Result<Player<S, Y>> {
        let alloc = system.alloc();
        let mut wakers = Vec::new(alloc);
        for _ in 0..WAKERS {
            wakers.push(system.waker()?)?;
        }
        let desk = Desk {
            alloc,
            gates,
            patterns: Arc::new(alloc, Patterns::new(alloc)?)?,
            patience,
            room: vec![in alloc; 0u8; script.room]?,
            whole: Vec::new(alloc),
            text: String::with_capacity(alloc, 256)?,
            wakers,
            breach: None,
        };
        Ok(Player {
            stage,
            system,
            desk,
            kept: None,
            rounds: Vec::new(alloc),
            is_too_slow: false,
            clock: 0,
        })
    }

    fn soon_rest(&self, workers: usize) -> Shown {
        let stage = &self.stage;
        let rests = self
            .desk
            .patience
            .until(|| is_at_rest(stage.standing(), workers));
        if rests {
            return Shown::Word("rests");
        }
        Shown::Standing(stage.standing())
    }

    fn soon_counts(&self, wanted: &[(Counted, usize)]) -> Shown {
        let stage = &self.stage;
        if self.desk.patience.until(|| are(stage.standing(), wanted)) {
            return Shown::Word("counts");
        }
        Shown::Standing(stage.standing())
    }

    // Looks for so many workers among the threads, with a millisecond between.
    fn soon_threads(&self, wanted: usize) -> io::Result<Shown> {
        for _ in 0..20_000u32 {
            if self.system.workers(0)?.0 == wanted {
                return Ok(Shown::Count("threads", wanted as u64));
            }
            if self.desk.patience.is_over() {
                break;
            }
            self.system.pause(1);
        }
        Ok(Shown::Count("threads", self.system.workers(0)?.0 as u64))
    }

    // A pause in which no more than a fiftieth of a processor is used.
    fn sleeps(&self, millis: u64) -> Shown {
        let before = self.system.used_millis();
        self.system.pause(millis);
        let used = self.system.used_millis().saturating_sub(before);
        Shown::Word(if used <= millis / 50 {
            "sleeps"
        } else {
            "busy"
        })
    }

    fn passed(&self) -> u64 {
        self.system.millis().saturating_sub(self.clock)
    }

    // What is seen of time.
    fn timed(&mut self, line: &Alone) -> Shown {
        match line {
            Alone::Pause(millis) => {
                self.system.pause(*millis);
                Shown::Word("paused")
            }
            Alone::Sleeps(millis) => self.sleeps(*millis),
            Alone::Clock => {
                self.clock = self.system.millis();
                Shown::Word("clock")
            }
            Alone::Within(millis) => {
                let is_late = self.passed() >= *millis;
                Shown::Word(if is_late { "late" } else { "in time" })
            }
            Alone::Passed(millis) => {
                let is_early = self.passed() < *millis;
                Shown::Word(if is_early { "early" } else { "passed" })
            }
            _ => NOTHING,
        }
    }

    // What is done without the parties, and seen of the pool from outside; NOTHING where it is the stage's.
    fn alone(&mut self, line: &Alone) -> io::Result<Shown> {
        Ok(match line {
            Alone::Gate(gate, is_open) => {
                self.desk.gates.set(*gate, *is_open);
                Shown::Word(if *is_open { "open" } else { "shut" })
            }
            Alone::Reached(gate, count) => reached(&self.desk, *gate, *count),
            Alone::SoonWoken(waker) => soon_woken(&self.desk, *waker),
            Alone::Counts => Shown::Standing(self.stage.standing()),
            Alone::SoonRest(workers) => self.soon_rest(*workers),
            Alone::SoonCounts(wanted) => self.soon_counts(wanted.as_slice()),
            Alone::SoonThreads(count) => self.soon_threads(*count)?,
            Alone::Named(number) => {
                let (_, is_there) = self.system.workers(*number)?;
                Shown::Word(if is_there { "named" } else { "unnamed" })
            }
            Alone::Mark(mark) => Shown::Word(mark),
            _ => self.timed(line),
        })
    }

    // What a line shows that isn't a block.
    fn shows(&mut self, line: &Line, place: usize) -> io::Result<Shown> {
        if let Line::Alone(alone) = line {
            let shown = self.alone(alone)?;
            if shown != NOTHING {
                return Ok(shown);
            }
        }
        self.stage.act(Act::Play(line, place), &mut self.desk)
    }

    /// Writes what a line shows.
    pub(crate) fn say(&mut self, shown: Shown) -> io::Result<()> {
        self.say_many(1, shown)
    }

    // Writes what a line shows for each of so many parties.
    fn say_many(&mut self, count: u64, shown: Shown) -> io::Result<()> {
        let text = self.desk.text.as_str();
        match (&mut self.kept, shown) {
            (Some(kept), Shown::Text) => {
                let shown = text;
                let many = Many { count, shown };
                Ok(writeln!(kept, "{many}")?)
            }
            (Some(kept), shown) => {
                let many = Many { count, shown };
                Ok(writeln!(kept, "{many}")?)
            }
            (None, Shown::Text) => self.system.say(Many { count, shown: text }),
            (None, shown) => self.system.say(Many { count, shown }),
        }
    }

    // Whether the line before showed this.
    fn wants(&self, text: &str) -> Flow {
        match &self.kept {
            Some(kept) => {
                let last = kept.as_str().trim_end().rsplit('\n').next();
                if last == Some(text) {
                    Flow::GoesOn
                } else {
                    Flow::Late
                }
            }
            None => Flow::GoesOn,
        }
    }

    /// Whether a law is broken, or the time is over.
    pub(crate) fn is_broken(&mut self) -> io::Result<bool> {
        if !agrees(self.stage.standing()) {
            self.desk.note(Some("the counts of a pool disagree"));
        }
        self.stage.act(Act::Compare, &mut self.desk)?;
        Ok(self.desk.breach.is_some() || self.desk.patience.is_over())
    }

    /// Ends with all parties: all gates open, all is dropped, and what must be then is compared.
    pub(crate) fn finish(&mut self) -> io::Result<()> {
        self.desk.gates.open_all();
        self.stage.act(Act::Finish, &mut self.desk)?;
        self.desk.gates.shut_all();
        Ok(())
    }

    // The exit status. Writes the law that was broken, if one was.
    fn status(&self, flow: Flow) -> io::Result<u8> {
        if let Some(breach) = self.desk.breach {
            self.system.say("BREACH")?;
            self.system.say(breach)?;
            return Ok(3);
        }
        Ok(match flow {
            _ if self.is_too_slow => 4,
            Flow::Stops | Flow::Late => 5,
            Flow::GoesOn => 0,
        })
    }

    // Plays a line for one party. A `try` line that is refused says so, and is played once more.
    fn tried(&mut self, numbered: &Numbered, place: usize) -> io::Result<Shown> {
        let jobs = jobs_of(self.stage.standing());
        let shown = self.shows(&numbered.line, place)?;
        if numbered.manner != Manner::Tried || !is_refused(shown) {
            return Ok(shown);
        }
        self.say(Shown::Word(GRANTED))?;
        self.say(shown)?;
        if shown != Shown::Reply(Reply::Failed(Why::Memory)) {
            self.compare_refused(&numbered.line, place, jobs)?;
        }
        self.shows(&numbered.line, place)
    }

    // Checks the pool after a refusal. `jobs` is how many jobs there were before.
    fn compare_refused(&mut self, line: &Line, place: usize, jobs: usize) -> io::Result<()> {
        let stage = &self.stage;
        if let Line::Owner(..) = line {
            let rests = self.desk.patience.until(|| jobs_of(stage.standing()) == 0);
            self.desk.note((!rests).then_some("a job of a refused session is queued, or runs"));
            self.stage.act(Act::CompareRefused(place), &mut self.desk)?;
            return Ok(());
        }
        let is_more = jobs_of(stage.standing()) > jobs;
        self.desk
            .note(is_more.then_some("what was refused is queued, or runs"));
        Ok(())
    }

    // Whether a line shows the same for each of these parties as it did for the first.
    fn is_same_for(
        &mut self,
        numbered: &Numbered,
        parties: Parties,
        first: Shown,
    ) -> io::Result<bool> {
        let alloc = self.desk.alloc;
        let text = mem::replace(&mut self.desk.text, String::new(alloc));
        let mut is_same = true;
        for place in parties.first.saturating_add(1)..=parties.last {
            let shown = self.tried(numbered, place)?;
            let is_text_same = text.as_str() == self.desk.text.as_str();
            is_same = is_same && shown == first && (shown != Shown::Text || is_text_same);
        }
        self.desk.text = text;
        Ok(is_same)
    }

    // Plays a line for each of its parties, and writes what that shows.
    fn play_each(&mut self, numbered: &Numbered, parties: Parties) -> io::Result<Shown> {
        let first = self.tried(numbered, parties.first)?;
        let is_same = parties.first == parties.last || self.is_same_for(numbered, parties, first)?;
        let count = (parties.last.saturating_sub(parties.first) as u64).saturating_add(1);
        match (numbered.manner, is_same) {
            (Manner::Quiet, _) => self.say(Shown::Word("quietly"))?,
            (_, true) => self.say_many(count, first)?,
            (_, false) => self.say(Shown::Word("mixed"))?,
        }
        Ok(first)
    }

    /// Plays a line that is no block's.
    pub(crate) fn play_line(&mut self, numbered: &Numbered) -> io::Result<Flow> {
        let parties = match &numbered.line {
            Line::Owner(parties, _)
            | Line::Task(parties, _)
            | Line::Job(parties, _)
            | Line::Copier(parties, _) => *parties,
            Line::Alone(Alone::Want(text)) => return Ok(self.wants(text.as_str())),
            _ => Parties { first: 0, last: 0 },
        };
        let shown = self.play_each(numbered, parties)?;
        if self.is_broken()? {
            return Ok(Flow::Stops);
        }
        match (&numbered.line, shown) {
            (Line::Alone(Alone::Within(_)), Shown::Word("late")) => Ok(Flow::Late),
            _ => Ok(Flow::GoesOn),
        }
    }

    /// Plays a script and returns the exit status.
    pub(crate) fn play_all(&mut self, script: &Script) -> io::Result<u8> {
        let flow = self.play(script.lines.as_slice())?;
        self.finish()?;
        self.status(flow)
    }
}

/// How many came to a gate, of so many that are to come before long.
pub(crate) fn reached(desk: &Desk, gate: GateNo, count: u64) -> Shown {
    let gates = &*desk.gates;
    let _ = desk.patience.until(|| gates.reached(gate) >= count);
    Shown::Count("reached", gates.reached(gate).min(count))
}

fn soon_woken(desk: &Desk, waker: usize) -> Shown {
    match desk.wakers.get(waker) {
        Some(task) if desk.patience.until(|| task.is_woken()) => Shown::Word("woken"),
        Some(_) => Shown::Word("asleep"),
        None => NOTHING,
    }
}

fn is_refused(shown: Shown) -> bool {
    matches!(
        shown,
        Shown::Refused(_)
            | Shown::Reply(Reply::Refused(_))
            | Shown::Reply(Reply::Failed(Why::Refused(_) | Why::Memory))
    )
}

// The jobs that are queued or running.
fn jobs_of(standing: Standing) -> usize {
    standing.queued.saturating_add(standing.running)
}

/// Whether nothing is queued or runs, and no more workers than these are there.
pub(crate) fn is_at_rest(standing: Standing, workers: usize) -> bool {
    standing.queued == 0
        && standing.running == 0
        && standing.idle == standing.workers
        && standing.workers <= workers
}

// Whether each worker is idle or runs a job, and who hasn't arrived is idle.
fn agrees(standing: Standing) -> bool {
    standing.arriving <= standing.idle
        && standing.workers.checked_sub(standing.idle) == Some(standing.running)
}

fn are(standing: Standing, wanted: &[(Counted, usize)]) -> bool {
    wanted.iter().all(|(counted, count)| {
        *count
            == match counted {
                Counted::Workers => standing.workers,
                Counted::Idle => standing.idle,
                Counted::Running => standing.running,
                Counted::Queued => standing.queued,
            }
    })
}
