//! The machine: the threads by their places, and what they share.
ghost use Rattle.std.specs.Prelude.{◌≡◌, ◌<◌, ◌≤◌, IfOk, slice_get};
ghost use Rattle.blocking_schedule.specs.Kept.{IsSound};
ghost use Rattle.blocking_schedule.specs.Places.{holders};
ghost use Rattle.blocking_schedule.specs.Readings.{NobodyIsForgotten, EachHasItsRing, FewHaveNone, NobodySleepsOverTheLimit};
ghost use Rattle.blocking_schedule.specs.Steps.{Begins, Runs, Steps};

mod bells;
mod callers;
mod lookout;
mod workers;

use crate::counts::PoolCounts;
use crate::place::{Place, Waking};
use crate::step::Step;
use std::alloc::{AllocError, Global};

/// The threads of an executor between two steps.
#[derive(Drop)]
pub struct Schedule {
    threads: Vec<Place>,
    pool: PoolCounts,
    is_locked: bool,
    // Whether there is a worker that looks and that nobody has claimed.
    is_manned: bool,
    // Whether a job was queued when the last section told of it.
    is_queued: bool,
}

impl Schedule {
    /// So many callers, so many threads that may be started as workers, and a pool with this limit by its setting: no worker yet, and
    /// no job.
    pub fn new(
        alloc: Global,
        callers: usize,
        spares: usize,
        limit: u64,
    ) -> Result<Schedule, AllocError>
        requires { 0 < limit }
        ensures sound { IfOk result IsSound }
        ensures begins { IfOk result (Begins callers spares limit) }
    {
        let mut threads = Vec::new(alloc);
        for _caller in 0..callers {
            threads.push(Place::Outside)?;
        }
        for _spare in 0..spares {
            threads.push(Place::Spare)?;
        }
        Ok(Schedule {
            threads,
            pool: PoolCounts::none(limit),
            is_locked: false,
            is_manned: false,
            is_queued: false,
        })
    }

    /// The threads take these steps, whichever they are. Nobody sleeps beside a queued job then unless some thread is on its way.
    pub fn run(&mut self, steps: &[Step])
        requires { IsSound self.old }
        ensures sound { IsSound self.new }
        ensures forgotten { NobodyIsForgotten self.new.threads.items self.new.pool }
        ensures runs { Runs steps.now self.old self.new }
    {
        for step in steps {
            self.step(*step);
        }
    }

    /// One step. A thread takes it where it is at a place of that step, and else nothing is changed.
    pub fn step(&mut self, step: Step)
        requires { IsSound self.old }
        ensures sound { IsSound self.new }
        ensures steps { Steps self.old step self.new }
    {
        let Some(place) = self.place(step.who()) else {
            return;
        };
        if !step.is_at(place) {
            return;
        }
        match step {
            Step::Add(who) | Step::Wake(who) => self.add(who),
            Step::Sweep(who, count) => self.sweep(who, count),
            Step::SetLimit(who, limit) => self.set_limit(who, limit),
            Step::Nothing(who) => self.pass_by(who),
            Step::Arrive(who) => self.arrive(who),
            Step::End(who, was_woken) => self.end(who, was_woken),
            Step::GoOn(who) => self.go_on(who),
            Step::Look(who) => self.look(who),
            Step::EndLook(who) => self.end_look(who),
            Step::Wait(who) => self.wait(who),
            Step::TimeOut(who) => self.time_out(who),
            Step::WakeUp(who) => self.wake_up(who, Waking::ByItself),
            Step::Return(who) => self.come_back(who),
            Step::SweepLate(who, count) => self.sweep_late(who, count),
            Step::StayOrStop(who) => self.stay_or_stop(who),
            Step::Take(who, wanted) => self.take(who, wanted),
            Step::Start(who, spare) => self.start(who, spare),
            Step::Refuse(who) => self.refuse(who),
            Step::Claim(who, looker) => self.claim(who, looker),
            Step::Tell(who) => self.tell(who),
            Step::LetGo(who) => self.let_go(who),
            Step::Ring(who, woken) => self.ring(who, woken),
        }
    }

    /// What holds after any steps, in other words.
    pub fn readings(&self)
        requires { IsSound self.now }
        ensures forgotten { NobodyIsForgotten self.now.threads.items self.now.pool }
        ensures each { EachHasItsRing self.now.threads.items self.now.pool }
        ensures few { FewHaveNone self.now.threads.items self.now.pool }
        ensures limit { NobodySleepsOverTheLimit self.now.threads.items self.now.pool }
        ensures alone { holders self.now.threads.items ≤ 1 }
    {}

    /// Where a thread is; None where there is none of this number.
    pub fn place(&self, who: usize) -> Option<Place>
        ensures { result ≡ slice_get self.now.threads.items who }
    {
        self.threads.get(who).copied()
    }

    /// The pool's numbers.
    pub fn pool(&self) -> PoolCounts
        ensures { result ≡ self.now.pool }
    {
        self.pool
    }
}
