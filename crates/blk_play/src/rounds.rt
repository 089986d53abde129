//! Blocks: lines that are played again and again, with fresh parties each time.
use crate::line::{Block, Line};
use crate::player::{Flow, Player};
use crate::script::Numbered;
use crate::shown::Shown;
use crate::stage::{Act, Stage, System};
use std::fmt::Write;
use std::{io, mem};

/// A block that is played, and what was there before.
#[derive(Drop)]
pub(crate) struct Round {
    block: Block,
    // The place of its first line.
    first: usize,
    // How many rounds are over, and how many of them lasted too long.
    done: u64,
    late: u64,
    // When the first and this one began.
    begun: u64,
    start: u64,
    kept: Option<String>,
}

// How a round's end goes on.
#[derive(Clone, Copy)]
enum Next {
    Again,
    // Behind the block, where this is shown.
    Over(Option<Shown>),
    TooLate(Shown),
}

impl Round {
    // Counts a round that is over at this time.
    fn count(&mut self, now: u64) -> Next {
        let lasted = now.saturating_sub(self.start);
        self.done = self.done.saturating_add(1);
        self.start = now;
        let Block::Repeat(rounds, late, most) = self.block else {
            return Next::Over(None);
        };
        if let Some((millis, _)) = late
            && lasted >= millis
        {
            self.late = self.late.saturating_add(1);
        }
        if self.done < rounds && now.saturating_sub(self.begun) < most {
            return Next::Again;
        }
        match late {
            Some((_, most)) if self.late > most => {
                Next::TooLate(Shown::Number(self.late, "rounds late"))
            }
            _ => Next::Over(Some(Shown::Number(rounds, "rounds"))),
        }
    }

    fn is_last_try(&self) -> bool {
        match self.block {
            Block::Tries(most) => self.done >= most,
            Block::Repeat(..) => true,
        }
    }
}

impl<S: Stage, Y: System> Player<S, Y> {
    // Begins a block, with fresh parties.
    fn begin(&mut self, block: Block, first: usize) -> io::Result<()> {
        let alloc = self.desk.alloc;
        self.stage.act(Act::Begin, &mut self.desk)?;
        self.rounds.push(Round {
            block,
            first,
            done: 0,
            late: 0,
            begun: self.system.millis(),
            start: self.system.millis(),
            kept: mem::replace(&mut self.kept, Some(String::new(alloc))),
        })?;
        Ok(())
    }

    // Begins the next round of the innermost block, and gives the place of its first line.
    fn begin_again(&mut self) -> io::Result<usize> {
        self.stage.act(Act::BeginAgain, &mut self.desk)?;
        if let Some(kept) = &mut self.kept {
            kept.clear();
        }
        Ok(match self.rounds.last() {
            Some(round) => round.first,
            None => 0,
        })
    }

    // Leaves the innermost block, and writes what its last round showed.
    fn leave(&mut self) -> io::Result<()> {
        let Some(round) = self.rounds.pop() else {
            return Ok(());
        };
        self.stage.act(Act::End, &mut self.desk)?;
        let Some(text) = mem::replace(&mut self.kept, round.kept) else {
            return Ok(());
        };
        for line in text.as_str().lines() {
            match &mut self.kept {
                Some(kept) => writeln!(kept, "{line}")?,
                None => self.system.say(line)?,
            }
        }
        Ok(())
    }

    // Ends a round at the end of its block, and gives the place of the next line.
    fn end_round(&mut self, end: usize) -> io::Result<(Flow, usize)> {
        self.finish()?;
        let (now, behind) = (self.system.millis(), end.saturating_add(1));
        if self.is_broken()? {
            return Ok((Flow::Stops, behind));
        }
        let next = match self.rounds.last_mut() {
            Some(round) => round.count(now),
            None => return Ok((Flow::Stops, behind)),
        };
        match next {
            Next::Again => Ok((Flow::GoesOn, self.begin_again()?)),
            Next::Over(shown) => {
                if let Some(shown) = shown {
                    self.say(shown)?;
                }
                self.leave()?;
                Ok((Flow::GoesOn, behind))
            }
            Next::TooLate(shown) => {
                self.say(shown)?;
                self.leave()?;
                Ok((Flow::Late, behind))
            }
        }
    }

    fn is_in_tries(&self) -> bool {
        self.rounds
            .iter()
            .any(|round| matches!(round.block, Block::Tries(_)))
    }

    // Gives up the innermost try, and begins the next. None where that was the last.
    fn try_again(&mut self) -> io::Result<Option<usize>> {
        for _ in 0..u64::MAX {
            self.finish()?;
            match self.rounds.last_mut() {
                Some(round) if matches!(round.block, Block::Tries(_)) => {
                    round.done = round.done.saturating_add(1);
                    if !round.is_last_try() {
                        return Ok(Some(self.begin_again()?));
                    }
                    self.is_too_slow = true;
                    return Ok(None);
                }
                Some(_) => self.leave()?,
                None => return Ok(None),
            }
        }
        Ok(None)
    }

    // Plays the line at a place, and gives that of the next.
    fn play_at(&mut self, numbered: &Numbered, place: usize) -> io::Result<(Flow, usize)> {
        let behind = place.saturating_add(1);
        match &numbered.line {
            Line::Begin(block, _) => {
                self.begin(*block, behind)?;
                Ok((Flow::GoesOn, behind))
            }
            Line::End => self.end_round(place),
            _ => Ok((self.play_line(numbered)?, behind)),
        }
    }

    /// Plays lines.
    pub(crate) fn play(&mut self, lines: &[Numbered]) -> io::Result<Flow> {
        let mut place = 0usize;
        for _ in 0..u64::MAX {
            let Some(numbered) = lines.get(place) else {
                break;
            };
            let (flow, next) = self.play_at(numbered, place)?;
            place = match flow {
                Flow::GoesOn => next,
                Flow::Stops => return Ok(Flow::Stops),
                Flow::Late if !self.is_in_tries() => next,
                Flow::Late => match self.try_again()? {
                    Some(first) => first,
                    None => return Ok(Flow::Late),
                },
            };
        }
        Ok(Flow::GoesOn)
    }
}
