//! A world that keeps what was seen of it.
ghost use Rattle.std.specs.Prelude.{◌≡◌, ◌<◌, ◌∷◌, [], length, true, IfOk, OnErr};
ghost use Rattle.blocking_headline.specs.Headline.{Headline};
ghost use Rattle.blocking_pool.specs.Limits.{limit_of_setting};
ghost use Rattle.blocking_world_laws.specs.Counts.{workers, idle};
ghost use Rattle.blocking_world_laws.specs.Growth.{IsPlanned, known_limit};
ghost use Rattle.blocking_world_laws.specs.Behind.{AllWriteBehind};
ghost use Rattle.blocking_world_laws.specs.Legal.{Legal};
ghost use Rattle.blocking_world_laws.specs.Queue.{NeverLimited, entries, queue, takes};
ghost use Rattle.blocking_world_laws.specs.Seen.{IsBeginning};
ghost use Rattle.blocking_world_copiers.specs.Assemblies.{Does};
ghost use Rattle.blocking_world.specs.Runs.{Adds, StopsShort};
ghost use Rattle.blocking_world_laws.specs.Served.{IsServed};
ghost use Rattle.blocking_world_laws.specs.Solo.{AreIndependent};
ghost use Rattle.blocking_world_laws.specs.Staffed.{IsStaffed, AreAsSeen};

use crate::copies::twin_in;
use blocking_world_copiers::Assembly;
use blocking_world_laws::event::{Event, Moment};
use blocking_world_laws::step::Step;
use blocking_world_pool::{NoStarts, PlannedStarts};
use std::alloc::{AllocError, Global};
use std::marker::{Brand, Model};
use std::sync::ledger::{Blank, Ledger};

/// A pool with its workers, the tasks that own its calls, the owners who lend handles to its jobs, and what was seen of them.
///
/// What was seen is legal at every moment: the type itself keeps it. A world has no `Drop`, since its workers
/// and owners hold what has to be spent: it ends by [`World::close`].
pub struct World {
    assembly: Assembly,
    plan: Vec<bool>,
    trace: Vec<Moment>,
    alloc: Global,
}

impl Model for World {
    ghost use Rattle.std.specs.Prelude.{reverse};
    ghost use Rattle.blocking_world_pool.specs.Crews.{free_hands, busy_hands};
    ghost use Rattle.blocking_world.specs.Runs.{WorldValue};
    ghost use Rattle.blocking_world_copiers.specs.Ties.{IsLawful};

    ghost Value = { WorldValue };

    ghost view = { λ w. record {
      history = record {
        setting = w.assembly.parts.crew.pool.counts.setting;
        plan = w.plan.items;
        past = reverse w.trace.items;
      };
      passes = free_hands w.assembly.parts.crew.hands;
      turns = busy_hands w.assembly.parts.crew.hands;
    } };

    ghost invariant = { λ w. IsLawful w.assembly.parts.crew.pool.counts.setting w.plan.items w.assembly
        (reverse w.trace.items) };
}

impl World {
    ghost use Rattle.std.specs.Prelude.{option_map};
    ghost use Rattle.blocking_world_laws.specs.Steps.{has_action};
    ghost use Rattle.blocking_world_laws.specs.declared.step.Step.TheVariants as step;
    ghost use Rattle.blocking_world.specs.Runs.{is_poll_under_way};

    /// A world in which nothing has happened. The setting is the text of a limit, and the plan says which starts of
    /// workers are refused: it begins with start 1, and beyond its end none is. Takes no memory.
    pub fn new(alloc: Global, setting: Option<&str>, plan: Vec<bool>) -> World
        ensures begins { result ≡ record {
          history = record {
            setting = limit_of_setting (option_map (λ text. text.now) setting.entry);
            plan = plan.items;
            past = [];
          };
          passes = 0;
          turns = 0;
        } }
        ensures legal { Legal result.history.setting result.history.plan result.history.past }
        ensures headline { Headline result.history.setting result.history.past }
    {
        World {
            assembly: Assembly::new(alloc, setting),
            plan,
            trace: Vec::new(alloc),
            alloc,
        }
    }

    // Takes one step. The trace keeps it with its event, of which the caller gets a copy. The room for all of it is taken before the step
    // acts, so where there is none, nothing has happened.
    fn step(&mut self, step: &Step) -> Result<Event, AllocError>
        ensures ok { IfOk result (λ e. self.new.history ≡ record self.old.history {
          past = record { step = step.now; event = e } ∷ self.old.history.past;
        }) }
        ensures err { OnErr result (self.new ≡ self.old) }
    {
        let room = Vec::with_capacity(self.alloc, self.assembly.bytes_to_come(step))?;
        let kept = step.try_clone()?;
        let taken = step.try_clone()?;
        self.trace.reserve(1)?;
        let event = step_with::<Brand>(&mut self.assembly, &self.plan, Blank::new(1), taken)?;
        let twin = twin_in(&event, room);
        let _ = self.trace.push(Moment { step: kept, event });
        Ok(twin)
    }

    /// Ends the world: every turn ends as done, and the workers that arrived end what is queued so, too, and stop. What is left, parked or
    /// queued where no worker arrived, goes with the pool. Takes no memory.
    pub fn close(self) {
        let World {
            assembly,
            plan: _plan,
            trace: _trace,
            alloc: _,
        } = self;
        close_with::<Brand>(assembly, Blank::new(1));
    }

    /// How many workers were started and haven't stopped, arrived or not.
    pub fn thread_count(&self) -> usize
        ensures { result ≡ workers self.now.history.past }
    {
        self.assembly.parts().crew().pool().thread_count()
    }

    /// How many of the workers run no job, arrived or not.
    pub fn idle_count(&self) -> usize
        ensures { result ≡ idle self.now.history.past }
    {
        self.assembly.parts().crew().pool().idle_count()
    }

    /// How many jobs are queued.
    pub fn queue_len(&self) -> usize
        ensures { result ≡ length (queue self.now.history.past) }
    {
        self.assembly.parts().crew().pool().queue_len()
    }

    /// The limit of workers; None before the first growth, unless it was set.
    pub fn limit(&self) -> Option<usize>
        ensures { result ≡ known_limit self.now.history.setting self.now.history.past }
    {
        self.assembly.parts().crew().pool().limit()
    }

    /// Whether the worker of this number has a job whose next action is that job's own to take: the step `Job` has an action.
    pub fn has_job_action(&self, worker: usize) -> bool
        ensures { result ≡ has_action self.now.history.past (step.Job worker) }
    {
        self.assembly.parts().has_job_action(worker)
    }

    /// Whether the poll of the owner of this number, from 0, is under way: the step `Own` has an action.
    pub fn poll_under_way(&self, owner: usize) -> bool
        ensures { result ≡ is_poll_under_way owner self.now.history.past }
    {
        self.assembly.parts().polls(owner)
    }
}

// Takes a step, by the starts of the plan.
fn step_with<L: Ledger>(
    assembly: &mut Assembly,
    plan: &[bool],
    blank: Blank,
    step: Step,
) -> Result<Event, AllocError>
    requires name { blank.name ≡ L.name }
    requires parts { blank.parts ≡ L.parts }
    requires some { 0 < L.parts }
    ensures ok { IfOk result (λ e. Does (IsPlanned plan.now) step assembly.old e assembly.new) }
    ensures err { OnErr result (assembly.new ≡ assembly.old) }
{
    let mut starter = PlannedStarts::<L>::new(plan, blank);
    assembly.step(step, &mut starter)
}

// Ends the assembly, by starts that are all refused.
fn close_with<L: Ledger>(assembly: Assembly, blank: Blank)
    requires name { blank.name ≡ L.name }
    requires parts { blank.parts ≡ L.parts }
    requires some { 0 < L.parts }
{
    let mut starter = NoStarts::<L>::new(blank);
    assembly.close(&mut starter);
}

/// Takes the steps, one after the other, and answers one event for each. Where no client limit was ever set, jobs are taken in the order in
/// which they entered the queue, whatever their clients.
///
/// Err where there was no room for the world's own lists: the world is then where the steps so far left it. The room for a
/// step and its event is taken before the step acts.
#[tactic(auto, using(blocking_world_copiers::proofs::Readings::served_now, blocking_world_copiers::proofs::Readings::staffed_now, blocking_world_copiers::proofs::Readings::held_now, crate::proofs::Runs::behind_now, crate::proofs::Runs::unlimited_now))]
pub fn run(alloc: Global, world: &mut World, steps: &[Step]) -> Result<Vec<Event>, AllocError>
    ensures ok { IfOk result
        (λ events. Adds steps.now events.items world.old.history world.new.history) }
    ensures err { OnErr result (StopsShort steps.now world.old.history world.new.history) }
    ensures legal { Legal world.new.history.setting world.new.history.plan world.new.history.past }
    ensures headline { Headline world.new.history.setting world.new.history.past }
    ensures independent { AreIndependent world.new.history.past }
    ensures unlimited { NeverLimited world.new.history.past →
        IsBeginning (takes world.new.history.past) (entries world.new.history.past) }
    ensures behind { AllWriteBehind world.new.history.past }
    ensures served { IsServed world.new.history.past }
    ensures staffed { IsStaffed world.new.passes world.new.turns world.new.history.past }
    ensures held { AreAsSeen world.new.passes world.new.turns world.new.history.past }
{
    let outcome = take_all(alloc, world, steps);
    // Opens the value, so that what it keeps is known.
    let _ = &world.trace;
    outcome
}

// Takes all steps.
fn take_all(alloc: Global, world: &mut World, steps: &[Step]) -> Result<Vec<Event>, AllocError>
    ensures ok { IfOk result
        (λ events. Adds steps.now events.items world.old.history world.new.history) }
    ensures err { OnErr result (StopsShort steps.now world.old.history world.new.history) }
{
    if steps.is_empty() {
        return Ok(Vec::new(alloc));
    }
    let mut events = Vec::with_capacity(alloc, steps.len())?;
    for step in steps {
        let event = world.step(step)?;
        let _ = events.push(event);
    }
    Ok(events)
}
